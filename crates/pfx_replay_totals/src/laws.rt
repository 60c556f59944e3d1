//! What holds of all windows and figures, each the contract of a function without a body.
ghost use Rattle.std.specs.Prelude.{◌≡◌, ◌<◌, ◌+◌, ◌++◌, Ok, ℕ, List, All, length};
ghost use Rattle.std.specs.List.{filter, flat_map};
ghost use Rattle.pfx_machine.specs.Choosing.{row_in};
ghost use Rattle.pfx_machine.specs.Plain.{IsState, Plain};
ghost use Rattle.pfx_record.specs.Records.{Recorded, ran, tasks_of};
ghost use Rattle.pfx_record.specs.declared.record.Place.{Place};
ghost use Rattle.pfx_replay_totals.specs.Choices.{is_asked};
ghost use Rattle.pfx_replay_totals.specs.Figures.{figures_of};
ghost use Rattle.pfx_replay_totals.specs.Laws.{AreSteady, GrowsByDue, IsNear, IsOneSet, IsShort, lag_in};
ghost use Rattle.pfx_replay_totals.specs.Slots.{Slot};
ghost use Rattle.pfx_replay_totals.specs.States.{next_state, reached, share_in, slots_behind};
ghost use Rattle.pfx_replay_totals.specs.Windows.{Window, slots_of, windows};
ghost use Rattle.pfx_replay_totals.specs.declared.choice.Choice.{Choice};

use pfx_jobs::job::Job;

/// What a task got it used or wasted.
pub fn what_is_got_is_used_or_wasted()
    ensures { (w : Window) (x : ℕ) → (figures_of w x).got ≡ (figures_of w x).used + (figures_of w x).wasted }
{}

/// The windows have each slot that is asked for, once and in order; one set's weights are in force throughout a window, and none is
/// longer than it may be.
pub fn windows_are_whole()
    ensures whole { (c : Choice) (slots : List Slot) → flat_map slots_of (windows c slots) ≡ filter (λ s. is_asked c s.at) slots }
    ensures weights { (c : Choice) (slots : List Slot) → All IsOneSet (windows c slots) }
    ensures short { (c : Choice) (slots : List Slot) → All (λ w. IsShort c.every (length (slots_of w))) (windows c slots) }
{}

/// The slots of two parts of a history, the second from the state on that the first led to, are those of the whole.
pub fn slots_of_parts<J: Job>()
    ensures slots { (s : Plain J) (xs ys : List (Recorded J)) → slots_behind J.kind s (xs ++ ys)
        ≡ slots_behind J.kind s xs ++ slots_behind J.kind (reached J.kind s xs) ys }
    ensures states { (s : Plain J) (xs ys : List (Recorded J)) → reached J.kind s (xs ++ ys) ≡ reached J.kind (reached J.kind s xs) ys }
{}

/// A task's lag at a slot's end, as its share of the slot has it, is the one that it has in the state behind the slot, if the row is PF's.
pub fn lags_are_those_behind<J: Job>()
    ensures { (s : Plain J) (row : List (Place J)) (x : ℕ) → IsState s → x < s.ledger.set.real → row_in s ≡ Ok (tasks_of row)
        → (share_in J.kind s (tasks_of row) x).lag ≡ lag_in (next_state J.kind s (ran row)) x }
{}

/// Over records from a state on, none of new weights and each slot's row PF's, each real task's lag grows by what it was due less what it
/// got.
/// What it was due and what it got differ by less than two slots, since lags lie strictly between minus one and one.
pub fn lags_grow_by_what_is_due<J: Job>()
    ensures lags { (s : Plain J) (records : List (Recorded J)) (x : ℕ) → IsState s → x < s.ledger.set.real
        → AreSteady J.kind s records → GrowsByDue J.kind s records x }
    ensures near { (s : Plain J) (records : List (Recorded J)) (x : ℕ) → IsState s → IsState (reached J.kind s records)
        → x < s.ledger.set.real → AreSteady J.kind s records → IsNear J.kind s records x }
{}
