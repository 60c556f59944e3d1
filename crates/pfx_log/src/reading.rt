// Reading a log, part by part.
ghost use Rattle.std.specs.Prelude.{◌≡◌, ◌≤◌, ◌<◌, ◌+◌, List, ℕ, length, take, IfErr, IfOk, IfSome};
ghost use Rattle.pfx_log.specs.Faults.{IsOfMachine};
ghost use Rattle.pfx_log.specs.Reading.{BlockAnswer, FrontAnswer, HasLen, HeaderAnswer, HeaderFrontAnswer, IsNext, ReadsHeld};

use crate::faults::{Damage, LogFault};
use crate::heads::{MARK, VERSION, first_head, head_of};
use crate::looking::{is_open, read_bytes, read_head, read_numbers};
use crate::place::{LogBlock, LogHeader, LogPlace, MOST};
use byteorder::{ByteOrder, LittleEndian};
use pfx_disk::Disk;
use std::alloc::Global;

/// How many bytes a header has before its state.
const FRONT: usize = 15;

/// How many bytes a header has beside its state: the front, and the head of the log before.
const BESIDE: usize = 47;

/// How many bytes a block has beside its frames: the gate, its length and numbers, and the head.
const AROUND: usize = 57;

// How many bytes of frames the next block has, and its numbers, or `None` behind the last block.
fn read_front<D: Disk>(
    disk: &mut D,
    len: usize,
    place: LogPlace,
) -> Result<Option<(usize, u64, u64)>, LogFault>
    requires len { HasLen len (D.view disk.old) }
    requires inside { place.at ≤ len }
    ensures next { IfOk result (λ found. IfSome found (λ x. IsNext place len x.0 x.1 x.2)) }
    ensures read { ReadsHeld (D.view disk.old) (D.view disk.new) result (FrontAnswer place result) }
{
    let at = place.at;
    let cut = LogFault::Damaged {
        at,
        what: Damage::Block,
    };
    if at == len {
        return Err(cut);
    }
    if !is_open(disk, at)? {
        return Ok(None);
    }
    if len - at < AROUND {
        return Err(cut);
    }
    let (n, first, last) = read_numbers(disk, at + 1)?;
    if n > MOST as u64 {
        return Err(LogFault::TooLong { at });
    }
    let n = n as usize;
    if len - at - AROUND < n {
        return Err(cut);
    }
    if first == 0 || first - 1 != place.last || last < first {
        return Err(LogFault::Damaged {
            at,
            what: Damage::Number,
        });
    }
    Ok(Some((n, first, last)))
}

/// The block whose gate stands at this place of a log of so many bytes, and the place behind it, or `None` if the gate is closed:
/// then the log ends here.
///
/// `place` is one that `read_header` or this function gave for the same log, and `len` the length of the disk, if it is honest. At
/// most four calls read, and leave all as it was; at most one buffer is taken, of the frames' length.
///
/// Refused by the first test that fails: `Damaged` with `Block` if the bytes end here or before the block does; `TooLong` for frames of
/// more than 16,777,216 bytes; `Number` if it doesn't begin with the next number, or ends before it begins; `Head` if the head behind it
/// isn't its own. The fault names the place. Then no log is held. `NoMemory` and `Device` come only if an allocation or the disk failed.
pub fn read_block<D: Disk>(
    alloc: Global,
    disk: &mut D,
    len: usize,
    place: LogPlace,
) -> Result<Option<(LogBlock, LogPlace)>, LogFault>
    requires len { HasLen len (D.view disk.old) }
    requires inside { place.at ≤ len }
    ensures next { IfOk result (λ found. IfSome found (λ x. (place.at < x.1.at) × (x.1.at ≤ len))) }
    ensures read { ReadsHeld (D.view disk.old) (D.view disk.new) result (BlockAnswer place result) }
{
    let Some((n, first, last)) = read_front(disk, len, place)? else {
        return Ok(None);
    };
    let at = place.at + 25;
    let frames = read_bytes(alloc, disk, at, n)?;
    let head = head_of(&place.head, first, last, &frames);
    if read_head(disk, at + n)? != head {
        return Err(LogFault::Damaged {
            at: place.at,
            what: Damage::Head,
        });
    }
    let next = LogPlace {
        at: place.at + AROUND + n,
        last,
        head,
    };
    Ok(Some((
        LogBlock {
            first,
            last,
            frames,
        },
        next,
    )))
}

// The version and how many bytes the state has, by the first bytes of a log of so many.
fn front_of(front: &[u8], len: usize) -> Result<(u8, usize), LogFault>
    requires long { length front.now ≡ 15 }
    requires inside { 15 ≤ len }
    ensures fits { IfOk result (λ x. (8 ≤ x.1) × (x.1 ≤ MOST) × (47 + x.1 ≤ len)) }
    ensures own { IfErr result (λ e. IsOfMachine e → ⊥) }
    ensures front { (bytes : List ℕ) → front.now ≡ take 15 bytes → length bytes ≡ len → HeaderFrontAnswer result bytes }
{
    if !front.starts_with(&MARK) {
        return Err(LogFault::NotALog);
    }
    let version = front[9];
    if version != VERSION {
        return Err(LogFault::WrongVersion { version });
    }
    let n = LittleEndian::read_u32(&front[11..]) as usize;
    if n > MOST {
        return Err(LogFault::TooLong { at: 0 });
    }
    if n < 8 || len - FRONT < n + 32 {
        return Err(LogFault::Damaged {
            at: 0,
            what: Damage::Header,
        });
    }
    Ok((front[10], n))
}

/// The header of a log of so many bytes, and the place behind it.
///
/// `len` is the length of the disk, if it is honest. At most three calls read, and leave all as it was.
///
/// Refused by the first test that fails: `NotALog` for fewer than 15 bytes, a closed gate or other letters; `WrongVersion`; `TooLong` at 0
/// for a state of more than 16,777,216 bytes; `Damaged` at 0 with `Header` for a state of fewer than 8, or one that doesn't end, with the
/// head behind it, before the bytes do. Then no log is held. `NoMemory` and `Device` come only if an allocation or the disk failed.
pub fn read_header<D: Disk>(
    alloc: Global,
    disk: &mut D,
    len: usize,
) -> Result<(LogHeader, LogPlace), LogFault>
    requires { HasLen len (D.view disk.old) }
    ensures next { IfOk result (λ x. x.1.at ≤ len) }
    ensures read { ReadsHeld (D.view disk.old) (D.view disk.new) result (HeaderAnswer result) }
{
    if len < FRONT {
        return Err(LogFault::NotALog);
    }
    let front = read_bytes(alloc, disk, 0, FRONT)?;
    let (version, n) = front_of(&front, len)?;
    let state = read_bytes(alloc, disk, FRONT, n)?;
    let before = read_head(disk, FRONT + n)?;
    let place = LogPlace {
        at: BESIDE + n,
        last: LittleEndian::read_u64(&state),
        head: first_head(version, &state, &before),
    };
    let header = LogHeader {
        version,
        state,
        before,
    };
    Ok((header, place))
}
