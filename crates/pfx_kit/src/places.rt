//! Where the parts of a file stand: that of a store of three tasks of weight 2/3 on two workers, with segments of 8,192 bytes.

/// How many bytes the header has: the first checkpoint's area stands behind it.
pub const HEADER: usize = 41;

/// How many bytes a checkpoint's area has.
pub const AREA: usize = 1485;

/// How many bytes a segment has.
pub const SEGMENT: usize = 8192;

/// Where the second checkpoint's area stands.
pub const SECOND_AREA: usize = HEADER + AREA;

/// Where the first segment stands.
pub const FIRST_SEGMENT: usize = SECOND_AREA + AREA;

/// Where a new store's first frame stands, behind the segment's own gate and number.
pub const FIRST_FRAME: usize = FIRST_SEGMENT + 9;

/// Where the second segment stands.
pub const SECOND_SEGMENT: usize = FIRST_SEGMENT + SEGMENT;

/// How many bytes the file has.
pub const END: usize = SECOND_SEGMENT + SEGMENT;

/// Where the set stands in an area: behind its gate and the state's three numbers.
pub const SET: usize = 25;

/// Where the tasks stand in an area: behind the workers and the weights, of eight bytes each.
pub const TASKS: usize = 50;

/// How many bytes a real task has there: its allocations, and its job if it has one.
pub const TASK: usize = 137;
