//! The open slot.
ghost use Rattle.std.specs.Prelude.{◌≡◌, ◌≤◌, ℕ, List, length, map, [], MatchOption, MatchResult, IfOk, IfErr, OnOk, OnErr, IfSome, Some, None, option_map};
ghost use Rattle.std.specs.Prelude.{vec_len, vec_capacity};
ghost use Rattle.pfx_machine.specs.Slots.{deal};
ghost use Rattle.pfx_crew.specs.Gathering.{Puts, Refuses};
ghost use Rattle.pfx_record_redo.specs.Recording.{after_in};
ghost use Rattle.pfx_book_slot.specs.Dealt.{Dealt, Answers, AllBack, IsMissing, places_with};

use pfx_crew::gathering::{GatherFault, gather};
use pfx_jobs::job::Job;
use pfx_jobs::quantum::{Done, Quantum};
use pfx_record::Place;
use pfx_weights::Row;
use std::alloc::{AllocError, Global};
use std::marker::Model;

/// A slot that was opened. It has room for all that its end needs.
#[derive(Drop)]
pub struct OpenSlot<J: Job> {
    row: Row,
    quanta: Vec<Quantum<J>>,
    back: Vec<Option<Done<J>>>,
    dones: Vec<Done<J>>,
    places: Vec<Place<J>>,
}

impl<J: Job> Model for OpenSlot<J> {
    ghost use Rattle.std.specs.Prelude.{◌≡◌, ◌≤◌, map, length, option_map, vec_capacity, []};
    ghost use Rattle.pfx_machine.specs.Slots.{deal};
    ghost use Rattle.pfx_book_slot.specs.Dealt.{Dealt, Answers};

    ghost Value = { Dealt J };

    ghost view = { λ o. record {
      row = o.row;
      quanta = map (λ q. deal q.number q.slot q.task q.before) o.quanta.items;
      back = map (option_map (λ d. deal d.number d.slot d.task d.before)) o.back.items;
    } };

    ghost invariant = { λ o.
        (Answers (map (λ q. deal q.number q.slot q.task q.before) o.quanta.items) (map (option_map (λ d. deal d.number d.slot d.task d.before)) o.back.items))
        × (length o.back.items ≡ length o.quanta.items) × (o.dones.items ≡ []) × (o.places.items ≡ [])
        × (length o.back.items ≤ vec_capacity o.dones) × (length o.row ≤ vec_capacity o.places) };
}

fn copy_quantum<J: Job>(quantum: &Quantum<J>) -> Quantum<J>
    ensures { deal result.number result.slot result.task result.before
        ≡ deal quantum.now.number quantum.now.slot quantum.now.task quantum.now.before }
{
    Quantum::new(
        quantum.number,
        quantum.slot,
        quantum.task,
        quantum.before.copy_of(),
    )
}

// Copies of all quanta.
fn copies<J: Job>(alloc: Global, quanta: &[Quantum<J>]) -> Result<Vec<Quantum<J>>, AllocError>
    ensures { IfOk result
        (λ copies. map (λ q. deal q.number q.slot q.task q.before) copies.items ≡ map (λ q. deal q.number q.slot q.task q.before) quanta.now) }
{
    let mut copies = Vec::with_capacity(alloc, quanta.len())?;
    for quantum in quanta {
        copies.push(copy_quantum(quantum))?;
    }
    Ok(copies)
}

// So many empty places.
fn empty_places<J: Job>(
    alloc: Global,
    quanta: &[Quantum<J>],
) -> Result<Vec<Option<Done<J>>>, AllocError>
    ensures length { IfOk result (λ back. length back.items ≡ length quanta.now) }
    ensures empty { IfOk result (λ back. map (option_map (λ d. deal d.number d.slot d.task d.before)) back.items ≡ map (λ q. None) quanta.now) }
{
    let mut back = Vec::with_capacity(alloc, quanta.len())?;
    for _quantum in quanta {
        back.push(None)?;
    }
    Ok(back)
}

// The state that the results have for a task, if any.
fn after_of<J: Job>(dones: &[Done<J>], task: u16) -> Option<J>
    ensures { result ≡ after_in J.kind task (map (λ d. deal d.number d.slot d.task d.before) dones.now) }
{
    for done in dones {
        if done.task == task {
            return Some(done.after.copy_of());
        }
    }
    None
}

// The places of a row's tasks, in a vector with room for them.
fn fill<J: Job>(places: Vec<Place<J>>, row: &Row, dones: &[Done<J>]) -> Vec<Place<J>>
    requires empty { places.items ≡ [] }
    requires room { length row.now ≤ vec_capacity places }
    ensures { result.items ≡ places_with J.kind row.now (map (λ d. deal d.number d.slot d.task d.before) dones.now) }
{
    let mut filled = places;
    for i in 0..row.len() {
        let task = row.get(i);
        filled.push_reserved(Place {
            task,
            state: after_of(dones, task),
        });
    }
    filled
}

// The results, in a vector with room for them.
fn collect<J: Job>(dones: Vec<Done<J>>, back: Vec<Option<Done<J>>>) -> Option<Vec<Done<J>>>
    requires empty { dones.items ≡ [] }
    requires room { length back.items ≤ vec_capacity dones }
    requires all { AllBack (map (option_map (λ d. deal d.number d.slot d.task d.before)) back.items) }
    ensures { MatchOption result ⊥
        (λ all. map (λ d. Some (deal d.number d.slot d.task d.before)) all.items ≡ map (option_map (λ d. deal d.number d.slot d.task d.before)) back.items) }
{
    let mut all = dones;
    for place in back {
        match place {
            Some(done) => all.push_reserved(done),
            None => return None,
        }
    }
    Some(all)
}

/// What a slot ends with.
#[derive(Drop)]
pub struct Ended<J: Job> {
    /// The row.
    pub row: Row,
    /// The results, in the quanta's order.
    pub dones: Vec<Done<J>>,
    /// What is recorded.
    pub places: Vec<Place<J>>,
}

impl<J: Job> OpenSlot<J> {
    /// The slot of this row and these quanta, with all the memory that it needs, and copies of the quanta to be dealt.
    pub fn of(
        alloc: Global,
        row: Row,
        quanta: Vec<Quantum<J>>,
    ) -> Result<(OpenSlot<J>, Vec<Quantum<J>>), AllocError>
        ensures row { IfOk result (λ r. r.0.row ≡ row) }
        ensures quanta { IfOk result (λ r. r.0.quanta ≡ map (λ q. deal q.number q.slot q.task q.before) quanta.items) }
        ensures none_back { IfOk result (λ r. r.0.back ≡ map (λ q. None) quanta.items) }
        ensures dealt { IfOk result
            (λ r. map (λ q. deal q.number q.slot q.task q.before) r.1.items ≡ map (λ q. deal q.number q.slot q.task q.before) quanta.items) }
    {
        let copies = copies(alloc, &quanta)?;
        let back = empty_places(alloc, &quanta)?;
        let dones = Vec::with_capacity(alloc, back.len())?;
        let places = Vec::with_capacity(alloc, row.len())?;
        Ok((
            OpenSlot {
                row,
                quanta,
                back,
                dones,
                places,
            },
            copies,
        ))
    }

    /// Puts a result at its quantum's place, or refuses it. It takes no memory.
    pub fn give(&mut self, done: Done<J>) -> Result<(), GatherFault>
        ensures ok { OnOk result (Puts self.old.quanta (deal done.number done.slot done.task done.before) self.old.back self.new.back
            (Some (deal done.number done.slot done.task done.before))) }
        ensures err { IfErr result (λ fault. Refuses self.old.quanta (deal done.number done.slot done.task done.before) self.old.back fault) }
        ensures kept { OnErr result (self.new ≡ self.old) }
        ensures same { (self.new.row ≡ self.old.row) × (self.new.quanta ≡ self.old.quanta) }
    {
        gather(&self.quanta, &mut self.back, done)
    }

    /// A copy of the first quantum that isn't back.
    pub fn missing(&self) -> Option<Quantum<J>>
        ensures { MatchOption result (AllBack self.now.back) (λ q. IsMissing self.now.quanta self.now.back (deal q.number q.slot q.task q.before)) }
    {
        for i in 0..self.quanta.len() {
            if self.back[i].is_none() {
                return Some(copy_quantum(&self.quanta[i]));
            }
        }
        None
    }

    /// The row, the results and what is recorded, once all are back. It takes no memory.
    pub fn end(self) -> Option<Ended<J>>
        requires all { AllBack self.back }
        ensures { MatchOption result ⊥ (λ e. (e.row ≡ self.row) × (map (λ d. deal d.number d.slot d.task d.before) e.dones.items ≡ self.quanta)
            × (e.places.items ≡ places_with J.kind self.row self.quanta)) }
    {
        let OpenSlot {
            row,
            quanta: _,
            back,
            dones,
            places,
        } = self;
        let dones = collect(dones, back)?;
        let places = fill(places, &row, &dones);
        Some(Ended { row, dones, places })
    }
}
