//! What holds of every ledger, each the contract of a function without a body.

ghost use Rattle.std.specs.Prelude.{◌≡◌, ◌≢◌, ℕ, ◌+◌, ◌*◌, ◌<◌, ◌≤◌, ◌^◌, Bool, ◌⊎◌, ◌↔◌, List, [], ◌∷◌, ◌++◌, All, Some, Ok};
ghost use Rattle.pfx_weights.specs.Multiples.{IsMultiple};
ghost use Rattle.pfx_weights.specs.Rows.{count, is_in, Schedule};
ghost use Rattle.pfx_weights.specs.Sets.{FilledSet, IsFilled, IsOfItsTasks};
ghost use Rattle.pfx_columns.specs.Lags.{IsFairAt};
ghost use Rattle.pfx_columns.specs.Ledgers.{Ledger, IsLedger, start, after};
ghost use Rattle.pfx_choice.specs.Choices.{IsPfRow, Fails};
ghost use Rattle.pfx_choice.specs.PfRows.{chosen};
ghost use Rattle.pfx_choice.specs.Plans.{past};
ghost use Rattle.pfx_choice.specs.Schedules.{IsPfSchedule, PfSucceeds};
ghost use Rattle.pfx_choice.specs.declared.faults.ChoiceFault.{ChoiceFault};
ghost use Rattle.pfx_machine.specs.Plain.{Plain, whole, IsState, empty};
ghost use Rattle.pfx_machine.specs.Happenings.{rows_of, happenings};
ghost use Rattle.pfx_machine.specs.Outcome.{outcome};
ghost use Rattle.pfx_machine.specs.Refusals.{refusal};
ghost use Rattle.pfx_machine.specs.Runs.{answers};
ghost use Rattle.pfx_machine.specs.Sessions.{IsAcceptable};
ghost use Rattle.pfx_machine.specs.Steps.{state_step, happening_in};
ghost use Rattle.pfx_machine.specs.declared.command.Command.{Command};
ghost use Rattle.pfx_machine.specs.declared.faults.MachineFault.{MachineFault};
ghost use Rattle.pfx_machine_feasible.specs.Commands.{limit_fault, HadARow};
ghost use Rattle.pfx_machine_feasible.specs.Endless.{IsEndless, IsLevel};
ghost use Rattle.pfx_machine_feasible.specs.Lives.{life, due, got, IsWithinOne, gone_on, rows_in};
ghost use Rattle.pfx_machine_feasible.specs.Moves.{Move, moved, IsClosed, inside};

use pfx_jobs::job::Job;

/// From the start of each filled set there is a fair schedule of every length.
pub fn start_is_endless()
    ensures { (set : FilledSet) → IsFilled set → IsEndless (start set) }
{}

/// From each ledger at which every lag is zero there is a fair schedule of every length.
pub fn level_is_endless()
    ensures { (g : Ledger) → IsLedger g → IsLevel g → IsEndless g }
{}

/// From the start of each filled set PF's choice succeeds in any number of slots.
pub fn pf_never_fails()
    ensures { (set : FilledSet) → IsFilled set → (slots : ℕ) → PfSucceeds (start set) slots }
{}

/// Wherever PF's choices lead from there, a fair schedule of every length goes on.
pub fn reached_is_endless()
    ensures { (set : FilledSet) → IsFilled set → (rows : Schedule) → IsPfSchedule (start set) rows → IsEndless (past (start set) rows) }
{}

/// PF's choice keeps a ledger endless.
pub fn pf_keeps_endless()
    ensures { (g : Ledger) → IsLedger g → IsEndless g → (row : List ℕ) → IsPfRow g row → IsEndless (after g (is_in row)) }
{}

/// At an endless ledger nothing refuses a row but the last slot and memory: before the last slot one is chosen.
pub fn only_limits_refuse()
    ensures faults { (g : Ledger) → IsLedger g → IsEndless g → (fault : ChoiceFault) → Fails g fault
        → (fault ≡ ChoiceFault.SlotLimit) ⊎ (fault ≡ ChoiceFault.NoMemory) }
    ensures row { (g : Ledger) → IsLedger g → IsEndless g → g.slot + 1 < 2 ^ 40 → (row : List ℕ) × (chosen g ≡ Ok row) }
{}

/// A ledger is endless exactly if PF's choice succeeds up to some slot that is a whole number of hyperperiods: so at most
/// one hyperperiod of a plan decides it.
pub fn plans_decide()
    ensures { (g : Ledger) → IsLedger g → (slots : ℕ) → IsMultiple g.set.hyper (g.slot + slots) → PfSucceeds g slots ↔ IsEndless g }
{}

/// From the start of a filled set, whatever the jobs and the number: after each acceptable list of commands a Slot is
/// refused exactly if the limits on numbers and slots refuse it.
pub fn slots_are_served<J: Job>()
    ensures { (set : FilledSet) → IsFilled set → (B : Plain J) → B.ledger ≡ start set → (H : List (Command J)) → IsAcceptable J.kind B H
        → refusal J.kind (outcome J.kind B H) Command.Slot ≡ limit_fault (outcome J.kind B H) }
{}

/// From there no command of any list is answered by TooManyUrgent or TooFewEligible.
pub fn no_answer_lacks_a_row<J: Job>()
    ensures { (set : FilledSet) → IsFilled set → (B : Plain J) → B.ledger ≡ start set → (H : List (Command J)) → All HadARow (answers J.kind B H) }
{}

/// From a state with an endless ledger, after each acceptable list the ledger is endless again, and a Slot is refused exactly
/// if the limits refuse it.
pub fn commands_keep_endless<J: Job>()
    ensures endless { (B : Plain J) → IsLedger B.ledger → IsEndless B.ledger → (H : List (Command J))
        → IsAcceptable J.kind B H → IsEndless (outcome J.kind B H).ledger }
    ensures served { (B : Plain J) → IsLedger B.ledger → IsEndless B.ledger → (H : List (Command J)) → IsAcceptable J.kind B H
        → refusal J.kind (outcome J.kind B H) Command.Slot ≡ limit_fault (outcome J.kind B H) }
{}

/// Over its whole life, over all its weights, a task gets what it is due, to within one slot. From the first state of a store,
/// or from any state in which every lag is zero, at every prefix of an acceptable list: what a real task was due in all epochs
/// from there on, in each by its weight then, less how many of all their rows hold it, lies strictly between minus one and one.
pub fn lives<J: Job>()
    ensures level { (B : Plain J) → IsState B → IsLevel B.ledger → (H G : List (Command J)) → IsAcceptable J.kind B (H ++ G)
        → (x : ℕ) → x < B.ledger.set.real → IsWithinOne (due x (life B H)) (got x (happenings B H)) }
    ensures first { (set : FilledSet) (segment : ℕ) → IsOfItsTasks set → (H G : List (Command J)) → IsAcceptable J.kind (empty set segment) (H ++ G)
        → (x : ℕ) → x < set.real → IsWithinOne (due x (life (empty set segment) H)) (got x (happenings (empty set segment) H)) }
{}

/// One command more: its row is one more of the last epoch's, and a new set begins the next epoch. So the rows of the epochs are
/// all rows that were run, in their order.
pub fn lives_go_on<J: Job>()
    ensures more { (B : Plain J) (H : List (Command J)) (c : Command J) → life B (H ++ c ∷ []) ≡ gone_on (life B H) (happening_in (outcome J.kind B H) c) }
    ensures rows { (B : Plain J) (H : List (Command J)) → rows_in (life B H) ≡ rows_of (happenings B H) }
{}

/// Over the whole list, and by one step from the state before, one command more leads to the same state: to the same set in
/// force, from the same slot on, and to the same ledger of it.
pub fn steps_agree<J: Job>()
    ensures { (B : Plain J) (H : List (Command J)) (c : Command J)
        → outcome J.kind B (H ++ c ∷ []) ≡ state_step J.kind (outcome J.kind B H) (happening_in (outcome J.kind B H) c) }
{}

/// At each multiple of the hyperperiod behind the slot at which a state's set came into force, every lag is zero, so no
/// Reweigh is refused there for a lag.
pub fn level_at_each_period<J: Job>()
    ensures level { (s : Plain J) → IsState s → (k : ℕ) → whole s ≡ s.from + k * s.ledger.set.hyper → IsLevel s.ledger }
    ensures passed { (s : Plain J) → IsState s → (k : ℕ) → whole s ≡ s.from + k * s.ledger.set.hyper
        → (m : ℕ) (weights : List (ℕ × ℕ)) (x : ℕ) → refusal J.kind s (Command.Reweigh m weights) ≢ Some (MachineFault.NotLevel x) }
{}

/// A task that is due e of every p slots stays fair at each slot by a move.
pub fn moves_stay_fair()
    ensures { (e p : ℕ) (c : ℕ → Bool) (s v : ℕ) → Move e p c s v → (i : ℕ) → IsFairAt e p (count i c) i → IsFairAt e p (count i (moved s v c)) i }
{}

/// Of slots that no move leaves a task that had just what it was due at the end runs in e of p at most.
pub fn closed_slots_are_few()
    ensures { (e p : ℕ) (c S : ℕ → Bool) (end : ℕ) → e ≤ p → p * count end c ≡ e * end → IsClosed e p c S end → p * count end (inside S c) ≤ e * count end S }
{}
