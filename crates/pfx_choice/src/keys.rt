//! The keys of the tasks at one place.
//!
//! Why it is so:
//! - **Tasks at one place are compared by keys.** What follows the end of a task's next subtask stays the same while the task rests, so a
//!   number in the order of these strings is found once for each time that a task runs, and comparing two tasks is comparing two numbers.
//!   A key narrows the range of all keys by each gap of a comparison's rounds, as a code in which short gaps have wide parts, and is the
//!   other way round after a weight above a half: so no round needs the other string. Only if two keys are equal, and don't tell the
//!   whole of their strings, the strings are compared.
//! - **Keys of one round first.** If weights are drawn at random, one round of Euclid's algorithm tells most strings apart, and each
//!   further one costs two divisions more. If more choices than not leave many tasks to be compared, keys tell three rounds, and if that
//!   is too few, up to 24; after 1,024 choices they begin with one again. Keys of different numbers of rounds aren't compared.
//! - **A kept key is tested, not trusted**: it holds the weight and the phase that it is of, and is found anew if these differ. So the
//!   chooser keeps nothing that a ledger's row could depend on.
//! - **Keys are kept by their strings, not by their tasks.** Tasks of one weight that got as many slots have one string behind their next
//!   subtask's end, so the first of them finds the key for all. Each string has one of 1,024 places, and takes it from whatever stood
//!   there: no list is searched, and a set of a thousand unlike tasks loses little, since only those at one place need keys in a slot.

ghost use Rattle.std.specs.Prelude.{◌≡◌, ◌≤◌, length, OnOk};
ghost use Rattle.pfx_columns.specs.Ledgers.{total};
ghost use Rattle.pfx_choice.specs.Places.{ArePlacesIn};
ghost use Rattle.pfx_choice.specs.Refined.{AreKeysAt};

use pfx_columns::Columns;
use pfx_symbols::{KeptKey, Key, rank_key};
use pfx_weights::first_from;
use std::alloc::{AllocError, Global};

/// How many keys are kept at the most.
const KEPT: usize = 1024;

/// The keys of the tasks at one place, and the room that they take.
#[derive(Drop)]
pub struct Keys {
    /// Each task's key, if it is at the place; any others serve.
    pub of_tasks: Vec<Key>,
    /// The keys of the tasks at the place, as numbers, in any order.
    order: Vec<u64>,
    /// Keys that were found; any serve.
    pub kept: Vec<KeptKey>,
}

impl Keys {
    /// No keys, and no room yet.
    pub fn new(alloc: Global) -> Keys {
        Keys {
            of_tasks: Vec::new(alloc),
            order: Vec::new(alloc),
            kept: Vec::new(alloc),
        }
    }

    /// Makes room for the keys that are kept.
    pub fn make_room(&mut self) -> Result<(), AllocError>
        ensures { self.new.of_tasks ≡ self.old.of_tasks }
    {
        if self.kept.len() != KEPT {
            self.kept.resize(KEPT, KeptKey::none())?;
        }
        Ok(())
    }

    /// Takes the keys of the tasks at place `d`, which tell so many rounds.
    pub fn take(
        &mut self,
        ledger: &Columns,
        places: &[u8],
        d: u8,
        rounds: u32,
    ) -> Result<(), AllocError>
        requires { ArePlacesIn ledger.now places.now }
        ensures { OnOk result (AreKeysAt ledger.now d rounds self.new.of_tasks.items) }
    {
        let total = ledger.total();
        self.make_room()?;
        if self.of_tasks.len() != total {
            self.of_tasks.resize(total, no_key())?;
        }
        put_keys(
            &mut self.of_tasks,
            &mut self.order,
            &mut self.kept,
            ledger,
            places,
            d,
            rounds,
        )
    }

    /// The key that the `k`-th of the tasks at place `d` has in their order, and a place up to which those with this key run, if it
    /// tells the whole string, or 0. Whatever it says, the choice is tested.
    pub fn guess_cut(&mut self, places: &[u8], d: u8, k: usize) -> (Key, usize)
        ensures { self.new.of_tasks ≡ self.old.of_tasks }
    {
        if k == 0 || k > self.order.len() {
            return (no_key(), 0);
        }
        let (before, at, _) = self.order.select_nth_unstable(k - 1);
        let number = *at;
        let left = k - count_less(before, number);
        let key = Key {
            number: number / 2,
            whole: number % 2 == 1,
        };
        if key.whole {
            (key, end_of(&self.of_tasks, places, d, key.number, left))
        } else {
            (key, 0)
        }
    }
}

/// The key that stands where none was found.
fn no_key() -> Key {
    Key {
        number: 0,
        whole: false,
    }
}

/// How many numbers are less than this one.
fn count_less(numbers: &[u64], number: u64) -> usize
    ensures { result ≤ length numbers.now }
{
    let mut less = 0;
    for other in numbers {
        less += usize::from(*other < number);
    }
    less
}

/// The place behind the `k`-th task at place `d` with a key of this number.
fn end_of(keys: &[Key], places: &[u8], d: u8, number: u64, k: usize) -> usize {
    let mut left = k;
    let mut x = first_from(places, d, 0);
    'tasks: while x < places.len() && x < keys.len() {
        if keys[x].number == number {
            if left <= 1 {
                return x + 1;
            }
            left -= 1;
        }
        x = first_from(places, d, x + 1);
    }
    0
}

/// Puts the key of each task at place `d` where the key of that task stands, and behind the others.
fn put_keys(
    of_tasks: &mut [Key],
    order: &mut Vec<u64>,
    kept: &mut [KeptKey],
    ledger: &Columns,
    places: &[u8],
    d: u8,
    rounds: u32,
) -> Result<(), AllocError>
    requires places { ArePlacesIn ledger.now places.now }
    requires of_tasks { length of_tasks.old ≡ total ledger.now }
    ensures { OnOk result (AreKeysAt ledger.now d rounds of_tasks.new) }
{
    let _total = ledger.total();
    order.clear();
    let mut x = first_from(places, d, 0);
    'tasks: while x < places.len() {
        let key = rank_key(&ledger.rank(x), u32::from(d), rounds, kept);
        of_tasks[x] = key;
        order.push(
            key.number
                .wrapping_mul(2)
                .wrapping_add(u64::from(key.whole)),
        )?;
        x = first_from(places, d, x + 1);
    }
    Ok(())
}
