//! A script over three tasks of weight 2/3 on two workers, and what it prints when it is run twice, one run behind the other.

/// Gives task 0 a job of three steps, runs three slots and shows the board.
pub const WEEK: &str = "submit,0,rule,3,110:00000001
slot,,,3,
status,,,,
";

/// What the first run prints.
pub const FIRST_WEEK: &str = "1 submitted 0
2 ran 0: 0 1
3 ran 1: 0 2
4 ran 2: 1 2
board 4 slot 3
0 alloc=2 lag=0/3 job=open
1 alloc=2 lag=0/3 job=none
2 alloc=2 lag=0/3 job=none
closed 4
";

/// What the second run prints.
pub const SECOND_WEEK: &str = "refused 32 TaskBusy task=0
5 ran 3: 0 1
6 ran 4: 0 2
7 ran 5: 1 2
board 7 slot 6
0 alloc=4 lag=0/3 job=done
1 alloc=4 lag=0/3 job=none
2 alloc=4 lag=0/3 job=none
closed 7
";
