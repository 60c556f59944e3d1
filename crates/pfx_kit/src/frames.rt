//! Frames as their bytes are written down, of a store of three tasks on one worker or two whose commands have no job.

/// The frame of commands 1 to 3 of a store of weights 2/3 on two workers: three slots, behind which no task is ahead or behind.
pub const LEVEL: [u8; 36] = [
    0xc3, 21, 0, 0, 0, 1, 0, 0, 0, 0, 0, 0, 0, 3, 0, 2, 0, 0, 0, 1, 0, 0, 2, 0, 0, 0, 2, 0, 0, 2,
    1, 0, 0, 2, 0, 0,
];

/// The frame of a slot of two tasks, of this number.
pub fn row_of_two(number: u8, first: u8, second: u8) -> [u8; 22] {
    [
        0xc3, 7, 0, 0, 0, number, 0, 0, 0, 0, 0, 0, 0, 1, 0, 2, first, 0, 0, second, 0, 0,
    ]
}

/// The frame of a slot of one task, of this number.
pub fn row_of_one(number: u8, task: u8) -> [u8; 19] {
    [
        0xc3, 4, 0, 0, 0, number, 0, 0, 0, 0, 0, 0, 0, 1, 0, 2, task, 0, 0,
    ]
}

/// The frame of new weights, of this number: so many workers, and so many thirds of the slots for each task.
pub fn new_weights(number: u8, workers: u8, thirds: u8) -> [u8; 41] {
    [
        0xc3, 26, 0, 0, 0, number, 0, 0, 0, 0, 0, 0, 0, 1, 0, 4, workers, thirds, 0, 0, 0, 3, 0, 0,
        0, thirds, 0, 0, 0, 3, 0, 0, 0, thirds, 0, 0, 0, 3, 0, 0, 0,
    ]
}

/// Puts bytes over others from a place on; answers whether they have room there.
pub fn put(bytes: &mut [u8], at: usize, part: &[u8]) -> bool {
    for (i, byte) in part.iter().enumerate() {
        match bytes.get_mut(at.saturating_add(i)) {
            Some(place) => *place = *byte,
            None => return false,
        }
    }
    true
}

/// Puts frames over other bytes from a place on, one behind the other; answers whether they have room there.
pub fn put_all(bytes: &mut [u8], at: usize, frames: &[&[u8]]) -> bool {
    let mut place = at;
    for frame in frames {
        if !put(bytes, place, frame) {
            return false;
        }
        place = place.saturating_add(frame.len());
    }
    true
}
