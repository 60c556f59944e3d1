//! How large the parts of a picture are, in pixels.

ghost use Rattle.std.specs.Prelude.{◌≡◌, ◌≤◌, ◌<◌, ◌^◌};
ghost use Rattle.pfx_program_draw.specs.Sizes.{widths_for, heights_for, left_for, right_for, sizes_for, x_at, y_at, slots_end, lanes_end, width, height, IsDrawable};

/// Along a lane.
#[derive(Clone, Copy)]
pub struct Widths {
    /// The width of a slot.
    pub slot: u64,
    /// How many slots there are from one number above them to the next.
    pub tick: u64,
}

/// Across a lane.
#[derive(Clone, Copy)]
pub struct Heights {
    /// The height of a lane.
    pub lane: u64,
    /// The height of its bars.
    pub bar: u64,
    /// Where in it the middle of its bars is.
    pub middle: u64,
    /// The height of one slot of lag.
    pub lag: u64,
    /// Where in it the line of no lag is.
    pub zero: u64,
}

/// What the sizes of a picture follow from, and they.
#[derive(Clone, Copy)]
pub struct PictureSizes {
    /// The first slot.
    pub first: u64,
    /// How many slots are drawn.
    pub slots: u64,
    /// How many lanes: one for each task.
    pub lanes: u64,
    /// Along a lane.
    pub widths: Widths,
    /// Across a lane.
    pub heights: Heights,
    /// The room left of the slots.
    pub left: u64,
    /// The room right of them.
    pub right: u64,
}

fn widths_for(slots: u64) -> Widths
    ensures { result ≡ widths_for slots }
{
    if slots <= 24 {
        Widths { slot: 36, tick: 2 }
    } else if slots <= 60 {
        Widths { slot: 18, tick: 5 }
    } else if slots <= 120 {
        Widths { slot: 9, tick: 10 }
    } else if slots <= 360 {
        Widths { slot: 4, tick: 20 }
    } else {
        Widths { slot: 2, tick: 50 }
    }
}

fn heights_for(lanes: u64) -> Heights
    ensures { result ≡ heights_for lanes }
{
    if lanes <= 16 {
        Heights {
            lane: 48,
            bar: 12,
            middle: 10,
            lag: 13,
            zero: 32,
        }
    } else if lanes <= 48 {
        Heights {
            lane: 28,
            bar: 7,
            middle: 7,
            lag: 7,
            zero: 19,
        }
    } else {
        Heights {
            lane: 10,
            bar: 4,
            middle: 5,
            lag: 0,
            zero: 5,
        }
    }
}

fn left_for(lanes: u64, letters: u64, digits: u64) -> u64
    requires letters { letters ≤ 64 }
    requires digits { digits ≤ 64 }
    ensures { result ≡ left_for lanes letters digits }
{
    if lanes <= 48 {
        39 + 7 * letters + 14 * digits
    } else {
        24 + 6 * letters
    }
}

fn right_for(lanes: u64, digits: u64) -> u64
    requires { digits ≤ 64 }
    ensures { result ≡ right_for lanes digits }
{
    if lanes <= 48 { 78 + 14 * digits } else { 20 }
}

/// The sizes of a picture of so many slots and lanes, whose names have so many letters and whose weights' numbers so many
/// digits at the most.
pub(crate) fn sizes_for(
    first: u64,
    slots: u64,
    lanes: u64,
    letters: u64,
    digits: u64,
) -> PictureSizes
    requires first { first < 2 ^ 40 }
    requires slots { slots ≤ 1440 }
    requires lanes { lanes ≤ 1152 }
    requires letters { letters ≤ 64 }
    requires digits { digits ≤ 64 }
    ensures sizes { result ≡ sizes_for first slots lanes letters digits }
    ensures drawable { IsDrawable result }
{
    PictureSizes {
        first,
        slots,
        lanes,
        widths: widths_for(slots),
        heights: heights_for(lanes),
        left: left_for(lanes, letters, digits),
        right: right_for(lanes, digits),
    }
}

/// Where the `i`-th slot begins.
#[tactic(auto, using(crate::proofs::Bounds::product_within))]
pub(crate) fn x_at(s: PictureSizes, i: u64) -> u64
    requires drawable { IsDrawable s }
    requires within { i ≤ 1440 }
    ensures at { result ≡ x_at s i }
    ensures small { result ≤ 131072 }
{
    s.left + i * s.widths.slot
}

/// Where the lane of task `x` begins.
#[tactic(auto, using(crate::proofs::Bounds::product_within))]
pub(crate) fn y_at(s: PictureSizes, x: u64) -> u64
    requires drawable { IsDrawable s }
    requires within { x ≤ 1152 }
    ensures at { result ≡ y_at s x }
    ensures small { result ≤ 65536 }
{
    64 + x * s.heights.lane
}

/// Where the slots end.
pub(crate) fn slots_end(s: PictureSizes) -> u64
    requires { IsDrawable s }
    ensures at { result ≡ slots_end s }
    ensures small { result ≤ 131072 }
{
    x_at(s, s.slots)
}

/// Where the lanes end.
pub(crate) fn lanes_end(s: PictureSizes) -> u64
    requires { IsDrawable s }
    ensures at { result ≡ lanes_end s }
    ensures small { result ≤ 65536 }
{
    y_at(s, s.lanes)
}

/// The width of the whole picture.
pub(crate) fn width(s: PictureSizes) -> u64
    requires { IsDrawable s }
    ensures { result ≡ width s }
{
    let right = slots_end(s) + s.right;
    if right < 720 { 720 } else { right }
}

/// The height of the whole picture.
pub(crate) fn height(s: PictureSizes) -> u64
    requires { IsDrawable s }
    ensures at { result ≡ height s }
    ensures small { result ≤ 131072 }
{
    lanes_end(s) + 34
}
