// Heads, and the bytes that they are of.
//
// Why it is so:
// - **The header isn't hashed by itself.** Its hash is the head that the first block's is made of: a log without blocks has nothing that
//   tells a changed state from another one. Its number and the file of the store do.
ghost use Rattle.std.specs.Prelude.{◌≡◌, ◌≤◌, ◌+◌, ◌++◌, ◌∷◌, [], length, vec_len, vec_capacity, IfOk};
ghost use Rattle.byteorder.specs.Endian.{little_bytes};
ghost use Rattle.pfx_log.specs.Logs.{AreBytes, block_of, block_text, first_head, head_of, header_text, new_log, this_version};

use crate::place::MOST;
use byteorder::{ByteOrder, LittleEndian};
use sha2::{Digest, Sha256};
use std::alloc::{AllocError, Global};

/// The gate of a header, open, and the letters PFXAUDIT.
pub const MARK: [u8; 9] = [0xC3, 0x50, 0x46, 0x58, 0x41, 0x55, 0x44, 0x49, 0x54];

/// The version of logs.
pub const VERSION: u8 = 1;

/// The front of a block: how many bytes its frames have, and its numbers.
pub fn block_front(len: u64, first: u64, last: u64) -> [u8; 24]
    ensures { result ≡ little_bytes 8 len ++ (little_bytes 8 first ++ little_bytes 8 last) }
{
    let mut front = [0; 24];
    LittleEndian::write_u64(&mut front, len);
    LittleEndian::write_u64(&mut front[8..], first);
    LittleEndian::write_u64(&mut front[16..], last);
    front
}

/// The head of a block behind this head. Frames are bytes.
pub fn head_of(head: &[u8], first: u64, last: u64, frames: &[u8]) -> [u8; 32]
    ensures value { result ≡ head_of head.now (block_of first last frames.now) }
    ensures bytes { AreBytes frames.now }
{
    let front = block_front(frames.len() as u64, first, last);
    let mut hasher = Sha256::new();
    hasher.update(head);
    hasher.update(&front[..]);
    hasher.update(frames);
    hasher.finalize()
}

/// The front of a header behind its gate: the letters, the two versions, and how many bytes the state has.
pub fn header_front(version: u8, len: u32) -> [u8; 14]
    ensures { result ≡ (0x50 ∷ 0x46 ∷ 0x58 ∷ 0x41 ∷ 0x55 ∷ 0x44 ∷ 0x49 ∷ 0x54 ∷ this_version ∷ version ∷ []) ++ little_bytes 4 len }
{
    let mut front = [
        0x50, 0x46, 0x58, 0x41, 0x55, 0x44, 0x49, 0x54, VERSION, version, 0, 0, 0, 0,
    ];
    LittleEndian::write_u32(&mut front[10..], len);
    front
}

/// The head of a log that has no block. A state and a head are bytes.
pub fn first_head(version: u8, state: &[u8], before: &[u8]) -> [u8; 32]
    requires { length state.now ≤ MOST }
    ensures value { result ≡ first_head (new_log version state.now before.now) }
    ensures bytes { AreBytes state.now × AreBytes before.now }
{
    let letters = header_front(version, state.len() as u32);
    let mut hasher = Sha256::new();
    hasher.update(&letters[..]);
    hasher.update(state);
    hasher.update(before);
    hasher.finalize()
}

/// A header's bytes behind its gate, and the next gate, closed.
pub fn header_and_gate(
    alloc: Global,
    version: u8,
    state: &[u8],
    before: &[u8],
) -> Result<Vec<u8>, AllocError>
    requires { length state.now ≤ MOST }
    ensures { IfOk result (λ bytes. bytes.items ≡ header_text (new_log version state.now before.now) ++ 0 ∷ []) }
{
    let front = header_front(version, state.len() as u32);
    let mut bytes = Vec::with_capacity(alloc, 47 + state.len())?;
    bytes.extend_from_slice(&front)?;
    bytes.extend_from_slice(state)?;
    bytes.extend_from_slice(before)?;
    bytes.push(0)?;
    Ok(bytes)
}

// Bytes put at the end of a vector that has room for them.
fn put(room: &mut Vec<u8>, bytes: &[u8])
    requires { vec_len room.old + length bytes.now ≤ vec_capacity room.old }
    ensures items { room.new.items ≡ room.old.items ++ bytes.now }
    ensures len { vec_len room.new ≡ vec_len room.old + length bytes.now }
    ensures capacity { vec_capacity room.old ≤ vec_capacity room.new }
{
    let _ = room.extend_from_slice(bytes);
}

/// Puts a block's bytes behind its gate, its head, and the next gate, closed, into a vector that has room for them. What was in it goes.
pub fn put_block(room: &mut Vec<u8>, first: u64, last: u64, frames: &[u8], head: &[u8])
    requires most { length frames.now ≤ MOST }
    requires long { length head.now ≡ 32 }
    requires room { 57 + length frames.now ≤ vec_capacity room.old }
    ensures items { room.new.items ≡ (block_text (block_of first last frames.now) ++ head.now) ++ 0 ∷ [] }
    ensures capacity { vec_capacity room.old ≤ vec_capacity room.new }
{
    let front = block_front(frames.len() as u64, first, last);
    room.clear();
    put(room, &front);
    put(room, frames);
    put(room, head);
    room.push_reserved(0);
}
