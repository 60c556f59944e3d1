//! What holds of every slot, each the contract of a function that does nothing.
ghost use Rattle.std.specs.Prelude.{ℕ, List, Option, map, IsPermutation};
ghost use Rattle.std.specs.List.Sorted.{IsStrictlyIncreasing};
ghost use Rattle.pfx_jobs.specs.Kind.{Kind};
ghost use Rattle.pfx_machine.specs.Slots.{Deal, deals};
ghost use Rattle.pfx_crew.specs.Laws.{NoTaskTwice, ComeOut};

/// Every order of arrival gives the row's results. If no two quanta of a slot are of one task, their results, gathered in
/// any order, are all taken, and then each place has its quantum's result.
pub fn every_order<J, D>()
    ensures { (asked : D → Deal J) (results arrivals : List D) → NoTaskTwice (map asked results) → IsPermutation results arrivals
        → ComeOut asked results arrivals }
{}

/// No two quanta of a row are of one task, since a row rises.
pub fn rows_have_no_task_twice<J>()
    ensures { (K : Kind J) (number slot : ℕ) (row : List ℕ) (jobs : List (Option J)) → IsStrictlyIncreasing row
        → NoTaskTwice (deals K number slot row jobs) }
{}
