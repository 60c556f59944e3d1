//! What is made of a file, which files are refused, and a stop after each call.

use crate::check::{check, check_pair};
use crate::held::held;
use crate::old::{
    Held, OLD_END, OLD_FRAME, disk_of, fresh, new_disk, old_disk, old_file, spelled, wanted,
};
use pfx_disk::{Disk, Fate, MemoryDisk};
use pfx_fault::Part;
use pfx_kinds::any::AnyJob;
use pfx_kit::frames::{LEVEL, new_weights, put};
use pfx_store::{InitFault, Store};
use pfx_store_migrate::{MigrateFault, migrate, migrated_text};
use pfx_store_recover::{OpenFault, Refusal};
use std::alloc::Global;

/// A store behind a pointer.
type Made = Box<Store<MemoryDisk, AnyJob>>;

/// The store that is made of the file on a disk in memory, and that disk.
fn made(alloc: Global) -> Option<(Made, Held)> {
    let (old, new) = (old_disk(alloc)?, new_disk(alloc)?);
    let (old, new) = (Box::into_inner(old), Box::into_inner(new));
    let (store, old) = migrate::<MemoryDisk, MemoryDisk, AnyJob>(alloc, old, new).ok()?;
    Some((Box::new(alloc, store).ok()?, Box::new(alloc, old).ok()?))
}

/// The store, and the file's bytes after it was made.
fn migrated(alloc: Global) -> Option<(Made, Vec<u8>)> {
    let (store, mut old) = made(alloc)?;
    let bytes = held(alloc, &mut *old)?;
    Some((store, bytes))
}

/// The disk of the new store.
fn made_disk(alloc: Global) -> Option<Held> {
    let (store, _bytes) = migrated(alloc)?;
    Box::new(alloc, Box::into_inner(store).into_disk()).ok()
}

/// Whether a store is at the old one's state.
fn is_there(alloc: Global, store: &Store<MemoryDisk, AnyJob>) -> Option<bool> {
    Some(spelled(alloc, store.state())? == wanted(alloc)?)
}

/// Whether the new store is at the old one's state, and the old file stays.
fn goes_on(alloc: Global) -> Option<bool> {
    let (store, bytes) = migrated(alloc)?;
    let is_there = is_there(alloc, &store)?;
    Some(is_there && store.state().number() == 4 && bytes == old_file(alloc)?)
}

/// The store that a disk holds, or why it holds none.
fn opened(alloc: Global, left: MemoryDisk) -> Result<Made, OpenFault> {
    match Store::<MemoryDisk, AnyJob>::open(alloc, left) {
        Ok(store) => Box::new(alloc, store).map_err(|_| OpenFault::NoMemory),
        Err((fault, _left)) => Err(fault),
    }
}

/// Whether what a disk holds is a store at the old one's state; `None` if it is anything but that or no store.
pub fn is_made(alloc: Global, left: MemoryDisk) -> Option<bool> {
    match opened(alloc, left) {
        Ok(store) if is_there(alloc, &store) == Some(true) => Some(true),
        Err(OpenFault::Refused(Refusal::NotAStore)) => Some(false),
        _ => None,
    }
}

/// What came of two disks.
#[derive(Drop)]
pub struct Outcome<O: Drop, N: Drop> {
    /// Why no store was made.
    pub fault: Option<MigrateFault>,
    /// The old disk.
    pub old: O,
    /// The new disk, with the store if one was made.
    pub new: N,
}

/// The same, behind a pointer, of a try to make a store on the new disk. `None` if there is no memory for the pointer.
pub fn tried<O: Disk + Drop, N: Disk + Drop>(
    alloc: Global,
    old: O,
    new: N,
) -> Option<Box<Outcome<O, N>>> {
    let tried = match migrate::<O, N, AnyJob>(alloc, old, new) {
        Ok((store, old)) => Outcome {
            fault: None,
            old,
            new: store.into_disk(),
        },
        Err((fault, old, new)) => Outcome {
            fault: Some(fault),
            old,
            new,
        },
    };
    Box::new(alloc, tried).ok()
}

/// What a stop after so many calls leaves of the new disk, all of whose pending writes have this fate.
fn is_made_by(alloc: Global, disk: &MemoryDisk, calls: u64, fate: Fate) -> Option<bool> {
    if calls > disk.clock() {
        return None;
    }
    is_made(alloc, disk.stopped(alloc, calls as usize, &[fate; 8]).ok()?)
}

#[test]
fn the_new_store_goes_on(rt: HostRuntime) {
    let alloc = rt.alloc();
    check(&rt, goes_on(alloc) == Some(true), "a new store");
    let said = migrated_text(alloc, 4);
    check(
        &rt,
        said.is_ok_and(|said| said.as_str() == "migrated 4\n"),
        "its line",
    );
}

#[test]
fn a_stop_leaves_no_store_or_all_of_it(rt: HostRuntime) {
    let alloc = rt.alloc();
    let Some(disk) = made_disk(alloc) else {
        return check(&rt, false, "a new store");
    };
    let calls = disk.clock();
    check(&rt, calls == 11, "eleven calls");
    let fates = [
        Fate::Kept,
        Fate::Dropped,
        Fate::Filled(0xc3),
        Fate::Filled(0),
    ];
    for after in 0..calls + 1 {
        for (number, fate) in fates.iter().enumerate() {
            let left = is_made_by(alloc, &disk, after, *fate);
            let holds = match left {
                Some(is_all) => is_all || after < calls,
                None => false,
            };
            check_pair(&rt, holds, "calls, and fate", after as usize, number);
        }
    }
}

/// Whether the old disk holds these bytes yet, and the new one was asked nothing.
fn are_left(alloc: Global, tried: &mut Outcome<MemoryDisk, MemoryDisk>, bytes: &[u8]) -> bool {
    match held(alloc, &mut tried.old) {
        Some(found) => found.as_slice() == bytes && tried.new.clock() == 0,
        None => false,
    }
}

/// The refusal of an old file.
fn refusal(fault: Option<MigrateFault>) -> Option<Refusal> {
    match fault {
        Some(MigrateFault::Old(OpenFault::Refused(refusal))) => Some(refusal),
        _ => None,
    }
}

/// Why nothing is made of a file of these bytes, which stays as it is, as the new disk does.
fn refusal_of(alloc: Global, bytes: Option<Vec<u8>>) -> Option<Refusal> {
    let bytes = bytes?;
    let (old, new) = (disk_of(alloc, &bytes)?, new_disk(alloc)?);
    let mut tried = tried(alloc, Box::into_inner(old), Box::into_inner(new))?;
    if are_left(alloc, &mut tried, &bytes) {
        refusal(tried.fault)
    } else {
        None
    }
}

/// The file with another byte at this place.
fn damaged(alloc: Global, at: usize, byte: u8) -> Option<Vec<u8>> {
    let mut bytes = old_file(alloc)?;
    *bytes.get_mut(at)? = byte;
    Some(bytes)
}

/// The file of a new store with one frame.
fn with_frame(alloc: Global, frame: &[u8]) -> Option<Vec<u8>> {
    let mut bytes = fresh(alloc)?;
    if put(&mut bytes, OLD_FRAME, frame) {
        Some(bytes)
    } else {
        None
    }
}

/// The file without its last byte.
fn shortened(alloc: Global) -> Option<Vec<u8>> {
    let mut bytes = old_file(alloc)?;
    bytes.pop();
    Some(bytes)
}

/// The file that a new store of this version has after it was made of the old one.
fn made_file(alloc: Global) -> Option<Vec<u8>> {
    held(alloc, &mut *made_disk(alloc)?)
}

#[test]
fn other_files_are_refused(rt: HostRuntime) {
    let alloc = rt.alloc();
    let refused = refusal_of(alloc, made_file(alloc));
    let version = Refusal::WrongVersion { version: 2 };
    check(&rt, refused == Some(version), "this version");
    let refused = refusal_of(alloc, damaged(alloc, 0, 0));
    check(&rt, refused == Some(Refusal::NotAStore), "no store");
    let refused = refusal_of(alloc, shortened(alloc));
    let what = Part::Length;
    let at = OLD_END - 1;
    check(
        &rt,
        refused == Some(Refusal::Damaged { at, what }),
        "length",
    );
    let refused = refusal_of(alloc, damaged(alloc, OLD_FRAME + 13, 17));
    let what = Part::Frame;
    let at = OLD_FRAME;
    check(&rt, refused == Some(Refusal::Damaged { at, what }), "frame");
    let refused = refusal_of(alloc, damaged(alloc, OLD_FRAME + 15, 5));
    let what = Part::Record;
    check(&rt, refused == Some(Refusal::Damaged { at, what }), "tag");
}

#[test]
fn new_weights_are_none_of_its_records(rt: HostRuntime) {
    let alloc = rt.alloc();
    let level = with_frame(alloc, &LEVEL);
    check(&rt, refusal_of(alloc, level).is_none(), "slots");
    let weights = with_frame(alloc, &new_weights(1, 2, 2));
    let at = OLD_FRAME;
    let what = Part::Record;
    let refused = Some(Refusal::Damaged { at, what });
    check(&rt, refusal_of(alloc, weights) == refused, "new weights");
}

/// Whether a disk that holds a byte is refused, and keeps it.
fn keeps_a_byte(alloc: Global) -> Option<bool> {
    let old = old_disk(alloc)?;
    let new = MemoryDisk::new(alloc, &[7], 20_000, 100, 60_000).ok()?;
    let mut tried = tried(alloc, Box::into_inner(old), new)?;
    let is_refused = tried.fault == Some(MigrateFault::New(InitFault::NotEmpty));
    let bytes = held(alloc, &mut tried.new)?;
    Some(is_refused && bytes.as_slice() == [7].as_slice())
}

#[test]
fn a_disk_that_holds_bytes_is_refused(rt: HostRuntime) {
    let alloc = rt.alloc();
    check(&rt, keeps_a_byte(alloc) == Some(true), "a byte");
}
