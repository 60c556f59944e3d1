//! Memory, and records in a row.
ghost use Rattle.std.specs.Prelude.{◌≡◌, ◌++◌, ◌<◌, ◌≤◌, ◌+◌, [], length, map, IfSome, IfNone, IsTrue, option_to_list, vec_len, vec_capacity};
ghost use Rattle.std.specs.VecDeque.{deque_items, deque_capacity};
ghost use Rattle.pfx_record.specs.Records.{plain};
ghost use Rattle.pfx_record_redo.specs.Applying.{is_common};
ghost use Rattle.pfx_book.specs.Batching.{GoesFar, MayShare, StopsAt};

use pfx_record::Record;
use pfx_record_redo::is_common;
use std::collections::VecDeque;

/// Makes room for so many more, if memory allows.
pub fn make_room<T: Drop>(list: &mut Vec<T>, more: usize) -> bool
    requires { more < 8 }
    ensures items { list.new.items ≡ list.old.items }
    ensures room { IsTrue result → vec_len list.new + more ≤ vec_capacity list.new }
    ensures fits { IsTrue result → length list.new.items + more ≤ vec_capacity list.new }
    ensures grows { vec_capacity list.old ≤ vec_capacity list.new }
{
    list.reserve(more).is_ok()
}

/// Takes the first one, if it may share a batch with others.
fn pop_common<J>(pending: &mut VecDeque<Record<J>>) -> Option<Record<J>>
    ensures split { deque_items pending.old ≡ option_to_list result ++ deque_items pending.new }
    ensures common { IfSome result (λ entry. IsTrue (is_common (plain entry))) }
    ensures none { IfNone result (StopsAt (map plain (deque_items pending.old))) }
    ensures capacity { deque_capacity pending.new ≡ deque_capacity pending.old }
{
    match pending.front() {
        None => return None,
        Some(entry) => {
            if !is_common(entry) {
                return None;
            }
        }
    }
    pending.pop_front()
}

/// Takes the first ones, as many as may be, into a vector with room for them: up to 16 other than of new weights, or new weights alone.
pub fn take_front<J>(pending: &mut VecDeque<Record<J>>, room: Vec<Record<J>>) -> Vec<Record<J>>
    requires empty { room.items ≡ [] }
    requires room { 16 ≤ vec_capacity room }
    ensures split { deque_items pending.old ≡ result.items ++ deque_items pending.new }
    ensures few { length result.items ≤ 16 }
    ensures shared { MayShare (map plain result.items) }
    ensures far { GoesFar (map plain result.items) (map plain (deque_items pending.new)) }
    ensures all { result.items ≡ [] → deque_items pending.new ≡ [] }
    ensures capacity { deque_capacity pending.new ≡ deque_capacity pending.old }
    ensures width { vec_capacity result ≡ vec_capacity room }
{
    let mut records = room;
    let Some(first) = pending.pop_front() else {
        return records;
    };
    let alone = !is_common(&first);
    records.push_reserved(first);
    if alone {
        return records;
    }
    for _i in 1..16usize {
        match pop_common(pending) {
            Some(record) => records.push_reserved(record),
            None => return records,
        }
    }
    records
}
