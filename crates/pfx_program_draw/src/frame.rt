//! What stands round the lanes.
//!
//! Why it is so:
//! - **A set's name is in the title only if it is a name as tasks have them**, so nothing is ever escaped.

ghost use Rattle.std.specs.Prelude.{◌≡◌, ◌++◌, ◌≤◌, ◌<◌, ◌/◌, ◌*◌, OnOk, IfOk};
ghost use Rattle.pfx_program_draw.specs.Frame.{named, counted, title, opening, spoken, dark, heading, level_key, key, head, upright, grid_piece, number_piece, ticks};
ghost use Rattle.pfx_program_draw.specs.Frame.{grid_lines, numbers, columns, grid, hyper_slot, hyper_piece, hyper_count, hyper_lines, is_dashed, dashes, hyper_key, foot};
ghost use Rattle.pfx_program_draw.specs.Sizes.{IsDrawable};

use crate::phrases::{Phrase, put_phrase, put_phrase_number};
use crate::sizes::{PictureSizes, height, lanes_end, slots_end, width, x_at};
use crate::text::{put_bytes, put_down, put_move, put_number};
use pfx_program_set::is_name;
use std::alloc::{AllocError, Global};

fn put_named(text: &mut Vec<u8>, name: &str) -> Result<(), AllocError>
    ensures { OnOk result (text.new.items ≡ text.old.items ++ named name.now) }
{
    if is_name(name) {
        put_bytes(text, name.as_bytes())?;
        put_phrase(text, Phrase::Colon)?;
    }
    Ok(())
}

fn put_counted(alloc: Global, text: &mut Vec<u8>, n: u64, word: Phrase) -> Result<(), AllocError>
    ensures { OnOk result (text.new.items ≡ text.old.items ++ counted n word) }
{
    put_number(alloc, text, n)?;
    put_phrase(text, word)?;
    if n != 1 {
        put_phrase(text, Phrase::Plural)?;
    }
    Ok(())
}

/// The picture's title.
#[tactic(auto, unfolding(crate::specs::Frame::title))]
pub(crate) fn title(
    alloc: Global,
    s: PictureSizes,
    name: &str,
    real: u64,
    workers: u64,
) -> Result<Vec<u8>, AllocError>
    requires { IsDrawable s }
    ensures { IfOk result (λ text. text.items ≡ title s name.now real workers) }
{
    let mut text = Vec::new(alloc);
    put_named(&mut text, name)?;
    put_counted(alloc, &mut text, real, Phrase::Task)?;
    put_phrase(&mut text, Phrase::On)?;
    put_counted(alloc, &mut text, workers, Phrase::Worker)?;
    put_phrase_number(alloc, &mut text, Phrase::Slots, s.first)?;
    let last = (s.first + s.slots).saturating_sub(1);
    put_phrase_number(alloc, &mut text, Phrase::To, last)?;
    Ok(text)
}

fn put_opening(alloc: Global, text: &mut Vec<u8>, s: PictureSizes) -> Result<(), AllocError>
    requires { IsDrawable s }
    ensures { OnOk result (text.new.items ≡ text.old.items ++ opening s) }
{
    put_phrase_number(alloc, text, Phrase::SvgWidth, width(s))?;
    put_phrase_number(alloc, text, Phrase::Height, height(s))?;
    put_phrase_number(alloc, text, Phrase::ViewBox, width(s))?;
    put_phrase_number(alloc, text, Phrase::Space, height(s))?;
    put_phrase(text, Phrase::SvgEnd)
}

fn put_spoken(text: &mut Vec<u8>, words: &[u8]) -> Result<(), AllocError>
    ensures { OnOk result (text.new.items ≡ text.old.items ++ spoken words.now) }
{
    put_phrase(text, Phrase::Title)?;
    put_bytes(text, words)?;
    put_phrase(text, Phrase::Desc)?;
    put_phrase(text, Phrase::DescEnd)
}

fn put_dark(text: &mut Vec<u8>) -> Result<(), AllocError>
    ensures { OnOk result (text.new.items ≡ text.old.items ++ dark) }
{
    put_phrase(text, Phrase::DarkBegin)?;
    put_phrase(text, Phrase::DarkGround)?;
    put_phrase(text, Phrase::DarkLines)?;
    put_phrase(text, Phrase::DarkBehind)?;
    put_phrase(text, Phrase::DarkAhead)
}

fn put_heading(
    alloc: Global,
    text: &mut Vec<u8>,
    s: PictureSizes,
    words: &[u8],
) -> Result<(), AllocError>
    requires { IsDrawable s }
    ensures { OnOk result (text.new.items ≡ text.old.items ++ heading s words.now) }
{
    put_phrase_number(alloc, text, Phrase::GroundWidth, width(s))?;
    put_phrase_number(alloc, text, Phrase::Height, height(s))?;
    put_phrase(text, Phrase::GroundEnd)?;
    put_bytes(text, words)?;
    put_phrase(text, Phrase::TextEnd)
}

fn put_level_key(text: &mut Vec<u8>) -> Result<(), AllocError>
    ensures { OnOk result (text.new.items ≡ text.old.items ++ level_key) }
{
    put_phrase(text, Phrase::LevelKey)?;
    put_phrase(text, Phrase::KeyBehind)?;
    put_phrase(text, Phrase::KeyMiddle)?;
    put_phrase(text, Phrase::KeyAhead)?;
    put_phrase(text, Phrase::KeyEnd)
}

fn put_key(text: &mut Vec<u8>, lanes: u64) -> Result<(), AllocError>
    ensures { OnOk result (text.new.items ≡ text.old.items ++ key lanes) }
{
    put_phrase(text, Phrase::KeyBegin)?;
    if lanes <= 48 {
        put_phrase(text, Phrase::LineKey)
    } else {
        put_level_key(text)
    }
}

/// Puts what stands above the slots' numbers.
#[tactic(auto, unfolding(crate::specs::Frame::head))]
pub(crate) fn put_head(
    alloc: Global,
    text: &mut Vec<u8>,
    s: PictureSizes,
    words: &[u8],
) -> Result<(), AllocError>
    requires { IsDrawable s }
    ensures { OnOk result (text.new.items ≡ text.old.items ++ head s words.now) }
{
    put_opening(alloc, text, s)?;
    put_spoken(text, words)?;
    put_dark(text)?;
    put_heading(alloc, text, s, words)?;
    put_key(text, s.lanes)
}

fn put_upright(alloc: Global, text: &mut Vec<u8>, s: PictureSizes, i: u64) -> Result<(), AllocError>
    requires drawable { IsDrawable s }
    requires within { i ≤ 1440 }
    ensures { OnOk result (text.new.items ≡ text.old.items ++ upright s i) }
{
    put_move(alloc, text, x_at(s, i), 64)?;
    put_down(alloc, text, lanes_end(s))
}

// The slot at the `i`-th number.
#[tactic(auto, using(crate::proofs::Bounds::within_quotient))]
fn tick_slot(s: PictureSizes, i: u64) -> u64
    requires drawable { IsDrawable s }
    requires within { i ≤ s.slots / s.widths.tick }
    ensures is { result ≡ i * s.widths.tick }
    ensures small { result ≤ 1440 }
{
    i * s.widths.tick
}

fn put_grid_piece(
    alloc: Global,
    text: &mut Vec<u8>,
    s: PictureSizes,
    i: u64,
) -> Result<(), AllocError>
    requires drawable { IsDrawable s }
    requires within { i ≤ s.slots / s.widths.tick }
    ensures { OnOk result (text.new.items ≡ text.old.items ++ grid_piece s i) }
{
    put_upright(alloc, text, s, tick_slot(s, i))
}

fn put_number_piece(
    alloc: Global,
    text: &mut Vec<u8>,
    s: PictureSizes,
    i: u64,
) -> Result<(), AllocError>
    requires drawable { IsDrawable s }
    requires within { i ≤ s.slots / s.widths.tick }
    ensures { OnOk result (text.new.items ≡ text.old.items ++ number_piece s i) }
{
    let slot = tick_slot(s, i);
    put_phrase_number(alloc, text, Phrase::TextX, x_at(s, slot))?;
    put_phrase_number(alloc, text, Phrase::NumberEnd, s.first + slot)?;
    put_phrase(text, Phrase::TextEnd)
}

fn ticks(s: PictureSizes) -> u64
    requires { IsDrawable s }
    ensures { result ≡ ticks s }
{
    s.slots / s.widths.tick + 1
}

#[tactic(auto, using(crate::proofs::Pieces::each_more, crate::proofs::Pieces::each_begins))]
fn put_grid_lines(alloc: Global, text: &mut Vec<u8>, s: PictureSizes) -> Result<(), AllocError>
    requires { IsDrawable s }
    ensures { OnOk result (text.new.items ≡ text.old.items ++ grid_lines s) }
{
    for i in 0..ticks(s) {
        put_grid_piece(alloc, text, s, i)?;
    }
    Ok(())
}

#[tactic(auto, using(crate::proofs::Pieces::each_more, crate::proofs::Pieces::each_begins))]
fn put_numbers(alloc: Global, text: &mut Vec<u8>, s: PictureSizes) -> Result<(), AllocError>
    requires { IsDrawable s }
    ensures { OnOk result (text.new.items ≡ text.old.items ++ numbers s) }
{
    for i in 0..ticks(s) {
        put_number_piece(alloc, text, s, i)?;
    }
    Ok(())
}

fn put_columns(alloc: Global, text: &mut Vec<u8>, s: PictureSizes) -> Result<(), AllocError>
    requires { IsDrawable s }
    ensures { OnOk result (text.new.items ≡ text.old.items ++ columns s) }
{
    if s.lanes <= 48 {
        put_phrase_number(alloc, text, Phrase::TextX, s.left.saturating_sub(10))?;
        put_phrase(text, Phrase::WeightHead)?;
        let right = (slots_end(s) + s.right).saturating_sub(6);
        put_phrase_number(alloc, text, Phrase::TextX, right)?;
        put_phrase(text, Phrase::LagHead)?;
    }
    Ok(())
}

/// Puts the slots' numbers, the lines below them, and what stands in the columns beside the lanes.
#[tactic(auto, unfolding(crate::specs::Frame::grid))]
pub(crate) fn put_grid(alloc: Global, text: &mut Vec<u8>, s: PictureSizes) -> Result<(), AllocError>
    requires { IsDrawable s }
    ensures { OnOk result (text.new.items ≡ text.old.items ++ grid s) }
{
    put_phrase(text, Phrase::PathBegin)?;
    put_grid_lines(alloc, text, s)?;
    put_phrase(text, Phrase::GridEnd)?;
    put_numbers(alloc, text, s)?;
    put_columns(alloc, text, s)
}

fn hyper_count(s: PictureSizes, hyper: u64) -> u64
    requires drawable { IsDrawable s }
    requires some { 1 ≤ hyper }
    ensures { result ≡ hyper_count s hyper }
{
    let before = s.first / hyper;
    ((s.first + s.slots) / hyper).saturating_sub(before)
}

// The slots from the first one to the `k`-th that begins a hyperperiod.
#[tactic(auto, using(crate::proofs::Bounds::hyper_within))]
fn hyper_slot(s: PictureSizes, hyper: u64, k: u64) -> u64
    requires drawable { IsDrawable s }
    requires some { 1 ≤ hyper }
    requires within { k < hyper_count s hyper }
    ensures is { result ≡ hyper_slot s hyper k }
    ensures small { result ≤ 1440 }
{
    let number = s.first / hyper + 1 + k;
    (number * hyper).saturating_sub(s.first)
}

fn put_hyper_piece(
    alloc: Global,
    text: &mut Vec<u8>,
    s: PictureSizes,
    hyper: u64,
    k: u64,
) -> Result<(), AllocError>
    requires drawable { IsDrawable s }
    requires some { 1 ≤ hyper }
    requires within { k < hyper_count s hyper }
    ensures { OnOk result (text.new.items ≡ text.old.items ++ hyper_piece s hyper k) }
{
    put_upright(alloc, text, s, hyper_slot(s, hyper, k))
}

#[tactic(auto, using(crate::proofs::Pieces::each_more, crate::proofs::Pieces::each_begins))]
fn put_hyper_lines(
    alloc: Global,
    text: &mut Vec<u8>,
    s: PictureSizes,
    hyper: u64,
) -> Result<(), AllocError>
    requires drawable { IsDrawable s }
    requires some { 1 ≤ hyper }
    ensures { OnOk result (text.new.items ≡ text.old.items ++ hyper_lines s hyper) }
{
    for k in 0..hyper_count(s, hyper) {
        put_hyper_piece(alloc, text, s, hyper, k)?;
    }
    Ok(())
}

fn is_dashed(s: PictureSizes, hyper: u64) -> bool
    requires drawable { IsDrawable s }
    requires some { 1 ≤ hyper }
    ensures { result ≡ is_dashed s hyper }
{
    let count = hyper_count(s, hyper);
    0 < count && count <= 40
}

/// Puts a dashed line at each multiple of the hyperperiod, if there are few.
#[tactic(auto, unfolding(crate::specs::Frame::dashes))]
pub(crate) fn put_dashes(
    alloc: Global,
    text: &mut Vec<u8>,
    s: PictureSizes,
    hyper: u64,
) -> Result<(), AllocError>
    requires drawable { IsDrawable s }
    requires some { 1 ≤ hyper }
    ensures { OnOk result (text.new.items ≡ text.old.items ++ dashes s hyper) }
{
    if is_dashed(s, hyper) {
        put_phrase(text, Phrase::PathBegin)?;
        put_hyper_lines(alloc, text, s, hyper)?;
        put_phrase(text, Phrase::DashEnd)?;
    }
    Ok(())
}

fn put_hyper_key(
    alloc: Global,
    text: &mut Vec<u8>,
    s: PictureSizes,
    hyper: u64,
) -> Result<(), AllocError>
    requires drawable { IsDrawable s }
    requires some { 1 ≤ hyper }
    ensures { OnOk result (text.new.items ≡ text.old.items ++ hyper_key s hyper) }
{
    if is_dashed(s, hyper) {
        put_phrase_number(alloc, text, Phrase::NameY, lanes_end(s) + 22)?;
        put_phrase_number(alloc, text, Phrase::FootHyper, hyper)?;
        put_phrase(text, Phrase::FootEnd)?;
    }
    Ok(())
}

/// Puts what stands below the lanes.
#[tactic(auto, unfolding(crate::specs::Frame::foot))]
pub(crate) fn put_foot(
    alloc: Global,
    text: &mut Vec<u8>,
    s: PictureSizes,
    hyper: u64,
) -> Result<(), AllocError>
    requires drawable { IsDrawable s }
    requires some { 1 ≤ hyper }
    ensures { OnOk result (text.new.items ≡ text.old.items ++ foot s hyper) }
{
    put_hyper_key(alloc, text, s, hyper)?;
    put_phrase(text, Phrase::SvgClose)
}
