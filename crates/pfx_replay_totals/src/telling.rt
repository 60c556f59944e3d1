// The totals of windows, slot by slot.
ghost use Rattle.std.specs.Prelude.{◌≡◌, ◌++◌, ◌∷◌, [], IfOk, OnErr, List, map};
ghost use Rattle.pfx_replay_totals.specs.Adding.{Holds};
ghost use Rattle.pfx_replay_totals.specs.Choices.{is_asked};
ghost use Rattle.pfx_replay_totals.specs.Figures.{Figures, figures, figures_in};
ghost use Rattle.pfx_replay_totals.specs.Slots.{Slot, slot_of};

use crate::choice::{Choice, is_below};
use crate::slot::SlotShares;
use crate::total::Total;
use crate::totals::Totals;
use crate::window::Window;
use std::alloc::{AllocError, Global};
use std::mem;

impl Choice {
    /// Whether the slot of this number is asked for.
    pub fn asks(&self, at: u64) -> bool
        ensures { result ≡ is_asked self.now at }
    {
        self.from <= at && is_below(at, self.to)
    }
}

impl Totals {
    /// Totals of no slots yet.
    pub fn new(choice: Choice) -> Totals
        ensures choice { result.choice ≡ choice }
        ensures holds { Holds result [] [] }
    {
        Totals {
            choice,
            current: None,
        }
    }

    /// Takes a slot in, and gives each task's totals of the window that the slot closes, if it closes one. An error comes only if an
    /// allocation failed, and then nothing changes.
    pub(crate) fn add(&mut self, alloc: Global, slot: &SlotShares) -> Result<Vec<Total>, AllocError>
        ensures ok { (given : List Figures) → (seen : List Slot) → Holds self.old given seen
            → IfOk result (λ rows. Holds self.new (given ++ map figures rows.items) (seen ++ slot_of slot.now ∷ [])) }
        ensures choice { self.new.choice ≡ self.old.choice }
        ensures err { OnErr result (self.new ≡ self.old) }
    {
        if !self.choice.asks(slot.at) {
            return Ok(Vec::new(alloc));
        }
        let Some(window) = &self.current else {
            self.current = Some(Window::begin(alloc, slot)?);
            return Ok(Vec::new(alloc));
        };
        if window.joins(self.choice, slot) {
            self.current = Some(window.with(alloc, slot)?);
            return Ok(Vec::new(alloc));
        }
        let begun = Window::begin(alloc, slot)?;
        match mem::replace(&mut self.current, Some(begun)) {
            None => Ok(Vec::new(alloc)),
            Some(closed) => {
                let Window { totals, .. } = closed;
                Ok(totals)
            }
        }
    }

    /// Each task's totals of the window that isn't closed yet: the last one of all that was seen.
    pub fn end(self, alloc: Global) -> Vec<Total>
        ensures { (given : List Figures) → (seen : List Slot) → Holds self given seen
            → given ++ map figures result.items ≡ figures_in self.choice seen }
    {
        let Totals { current, .. } = self;
        match current {
            None => Vec::new(alloc),
            Some(window) => {
                let Window { totals, .. } = window;
                totals
            }
        }
    }
}
