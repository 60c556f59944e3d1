//! The words of which a picture is made.
//!
//! Why it is so:
//! - **The words between the numbers are a table**, `say` of `Phrases`, which proofs don't open: inline texts of a hundred letters made
//!   goals about their letters.

ghost use Rattle.std.specs.Prelude.{◌≡◌, ◌++◌, OnOk};
ghost use Rattle.pfx_program_draw.specs.Phrases.{say, say_number};

use crate::text::{put_bytes, put_number};
use std::alloc::{AllocError, Global};

/// Words of a picture: what stands between its numbers and names.
#[derive(Clone, Copy)]
pub enum Phrase {
    SvgWidth,
    Height,
    ViewBox,
    Space,
    SvgEnd,
    Title,
    Colon,
    Task,
    Worker,
    Plural,
    On,
    Slots,
    To,
    Desc,
    DescEnd,
    DarkBegin,
    DarkGround,
    DarkLines,
    DarkBehind,
    DarkAhead,
    GroundWidth,
    GroundEnd,
    TextEnd,
    KeyBegin,
    LineKey,
    LevelKey,
    KeyBehind,
    KeyMiddle,
    KeyAhead,
    KeyEnd,
    PathBegin,
    GridEnd,
    TextX,
    NumberEnd,
    WeightHead,
    LagHead,
    DashEnd,
    NameY,
    FootHyper,
    FootEnd,
    SvgClose,
    LaneTitle,
    Comma,
    Of,
    SlotsLag,
    MostBehind,
    Over,
    MostAhead,
    TitleEnd,
    ShadeY,
    Width,
    ShadeEnd,
    Stroke,
    StrokeWidth,
    PathEnd,
    BoundsEnd,
    BaseEnd,
    AreaFill,
    AreaEnd,
    ThickEnd,
    ThinEnd,
    NameEnd,
    SmallEnd,
    TextY,
    WeightEnd,
    LagEnd,
    LaneEnd,
    Blue,
    Orange,
    Green,
    Pink,
    Sky,
    Vermilion,
    Black,
    Olive,
    Grey,
    Dark,
    BehindQuarter,
    BehindHalf,
    BehindMost,
    AheadQuarter,
    AheadHalf,
    AheadMost,
}

#[tactic(auto, unfolding(crate::specs::Phrases::say))]
fn words_of(phrase: Phrase) -> &'static str
    ensures { result.now ≡ say phrase }
{
    match phrase {
        Phrase::SvgWidth => "<svg xmlns='http://www.w3.org/2000/svg' width='",
        Phrase::Height => "' height='",
        Phrase::ViewBox => "' viewBox='0 0 ",
        Phrase::Space => " ",
        Phrase::SvgEnd => {
            "' role='img' aria-labelledby='t d' font-family='DejaVu Sans Mono, Menlo, monospace' font-size='12' fill='#222222'>\n"
        }
        Phrase::Title => "<title id='t'>",
        Phrase::Colon => ": ",
        Phrase::Task => " task",
        Phrase::Worker => " worker",
        Phrase::Plural => "s",
        Phrase::On => " on ",
        Phrase::Slots => ", slots ",
        Phrase::To => " to ",
        Phrase::Desc =>
            "</title>\n<desc id='d'>A lane for each task: a bar in each slot in which it runs, ",
        Phrase::DescEnd =>
            "and the lag behind each slot, what it is due less what it got.</desc>\n",
        Phrase::DarkBegin => {
            "<style>@media (prefers-color-scheme:dark){svg[fill='#222222']{fill:#E4E4E4}[stroke='#222222']{stroke:#E4E4E4}\n"
        }
        Phrase::DarkGround => {
            "[fill='#FFFFFF']{fill:#16191D}[fill='#000000']{fill:#FFFFFF}[stroke='#000000']{stroke:#FFFFFF}\n"
        }
        Phrase::DarkLines => {
            "[fill='#555555']{fill:#A8ADB3}[stroke='#666666']{stroke:#9AA0A6}[stroke='#E0E0E0'],[stroke='#C8C8C8']{stroke:#41474E}\n"
        }
        Phrase::DarkBehind => {
            "[stroke='#CFE3F2']{stroke:#173A52}[stroke='#8FBFE0']{stroke:#2A6A97}[stroke='#4A94C9']{stroke:#5AAEE6}\n"
        }
        Phrase::DarkAhead => {
            "[stroke='#FBE0C4']{stroke:#4A2F12}[stroke='#F4B77A']{stroke:#8F5A1E}}</style>\n"
        }
        Phrase::GroundWidth => "<rect width='",
        Phrase::GroundEnd =>
            "' fill='#FFFFFF'/>\n<text x='12' y='22' font-size='14' font-weight='bold'>",
        Phrase::TextEnd => "</text>\n",
        Phrase::KeyBegin => "<text x='12' y='40' font-size='11' fill='#555555'>",
        Phrase::LineKey => {
            "bar: runs in that slot; line: lag, due less got; dots: one slot behind (above), one ahead (below)</text>\n"
        }
        Phrase::LevelKey =>
            "bar: runs in that slot; ground: by 3/4, 1/2, 1/4 of a slot behind</text>\n",
        Phrase::KeyBehind => {
            "<path d='M480 36h20' stroke='#4A94C9' stroke-width='12'/><path d='M500 36h20' stroke='#8FBFE0' stroke-width='12'/>"
        }
        Phrase::KeyMiddle => {
            "<path d='M520 36h20' stroke='#CFE3F2' stroke-width='12'/><path d='M540 36h20' stroke='#FBE0C4' stroke-width='12'/>"
        }
        Phrase::KeyAhead => {
            "<path d='M560 36h20' stroke='#F4B77A' stroke-width='12'/><path d='M580 36h20' stroke='#E08A2E' stroke-width='12'/>"
        }
        Phrase::KeyEnd => "<text x='608' y='40' font-size='11' fill='#555555'>and ahead</text>\n",
        Phrase::PathBegin => "<path d='",
        Phrase::GridEnd => "' stroke='#E0E0E0' fill='none'/>\n",
        Phrase::TextX => "<text x='",
        Phrase::NumberEnd => "' y='58' text-anchor='middle' font-size='11' fill='#555555'>",
        Phrase::WeightHead =>
            "' y='58' text-anchor='end' font-size='11' fill='#555555'>weight</text>\n",
        Phrase::LagHead => "' y='58' text-anchor='end' font-size='11' fill='#555555'>lag</text>\n",
        Phrase::DashEnd => "' stroke='#666666' stroke-dasharray='4 3' fill='none'/>\n",
        Phrase::NameY => "<text x='12' y='",
        Phrase::FootHyper => "' font-size='11' fill='#555555'>dashed: hyperperiod, ",
        Phrase::FootEnd => " slots, where every lag is 0</text>\n",
        Phrase::SvgClose => "</svg>\n",
        Phrase::LaneTitle => "<g><title>",
        Phrase::Comma => ", ",
        Phrase::Of => " of ",
        Phrase::SlotsLag => " slots; lag ",
        Phrase::MostBehind => " at the end, most behind ",
        Phrase::Over => "/",
        Phrase::MostAhead => ", most ahead ",
        Phrase::TitleEnd => "</title>\n",
        Phrase::ShadeY => "<rect x='0' y='",
        Phrase::Width => "' width='",
        Phrase::ShadeEnd => "' fill='#000000' fill-opacity='0.03'/>\n",
        Phrase::Stroke => "' stroke='",
        Phrase::StrokeWidth => "' stroke-width='",
        Phrase::PathEnd => "' fill='none'/>\n",
        Phrase::BoundsEnd => "' stroke='#C8C8C8' stroke-dasharray='2 3' fill='none'/>\n",
        Phrase::BaseEnd => "' stroke='#C8C8C8' fill='none'/>\n",
        Phrase::AreaFill => "Z' fill='",
        Phrase::AreaEnd => "' fill-opacity='0.25'/>\n",
        Phrase::ThickEnd => "' stroke='#222222' stroke-width='1.5' fill='none'/>\n",
        Phrase::ThinEnd => "' stroke='#222222' fill='none'/>\n",
        Phrase::NameEnd => "'>",
        Phrase::SmallEnd => "' font-size='8'>",
        Phrase::TextY => "' y='",
        Phrase::WeightEnd => "' text-anchor='end' fill='#555555'>",
        Phrase::LagEnd => "' fill='#555555'>",
        Phrase::LaneEnd => "</g>\n",
        Phrase::Blue => "#0072B2",
        Phrase::Orange => "#E69F00",
        Phrase::Green => "#009E73",
        Phrase::Pink => "#CC79A7",
        Phrase::Sky => "#56B4E9",
        Phrase::Vermilion => "#D55E00",
        Phrase::Black => "#000000",
        Phrase::Olive => "#A08000",
        Phrase::Grey => "#B0B0B0",
        Phrase::Dark => "#222222",
        Phrase::BehindQuarter => "#CFE3F2",
        Phrase::BehindHalf => "#8FBFE0",
        Phrase::BehindMost => "#4A94C9",
        Phrase::AheadQuarter => "#FBE0C4",
        Phrase::AheadHalf => "#F4B77A",
        Phrase::AheadMost => "#E08A2E",
    }
}

/// Puts words at the end of a text.
pub(crate) fn put_phrase(text: &mut Vec<u8>, phrase: Phrase) -> Result<(), AllocError>
    ensures { OnOk result (text.new.items ≡ text.old.items ++ say phrase) }
{
    put_bytes(text, words_of(phrase).as_bytes())
}

/// Puts words and a number after them.
pub(crate) fn put_phrase_number(
    alloc: Global,
    text: &mut Vec<u8>,
    phrase: Phrase,
    n: u64,
) -> Result<(), AllocError>
    ensures { OnOk result (text.new.items ≡ text.old.items ++ say_number phrase n) }
{
    put_phrase(text, phrase)?;
    put_number(alloc, text, n)
}
