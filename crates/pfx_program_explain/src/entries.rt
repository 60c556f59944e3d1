//! What each fault means, with an example.

use pfx_fault::{Cause, Fault, Part};

/// What is to be known of a fault.
#[derive(Clone, Copy, Debug)]
pub struct Entry {
    /// The fault. Its fields are examples.
    pub fault: Fault,
    /// What it means, when it comes, and what to do.
    pub text: &'static str,
}

/// The faults of sets and of plans.
pub(crate) const OF_SETS: [Entry; 15] = [
    Entry {
        fault: Fault::BadSet,
        text: "The text isn't a set file: it is no TOML, or it lacks a key, or a value is of another kind, or a
name is no name or stands twice.

    worker = 2              # the key is workers
    [[task]]
    name = \"my job\"         # a name has ASCII letters, digits, _ and - alone
    e = 0.5                 # e and p are whole numbers: e = 1, p = 2

The lines below the fault say where the first mistake stands and what to change.",
    },
    Entry {
        fault: Fault::NoTasks,
        text: "The set has no task.

    workers = 2             # no [[task]] below it

Each task is a line [[task]] and lines name, e and p. A line [[tasks]] is passed over.",
    },
    Entry {
        fault: Fault::TooManyTasks,
        text: "The set has more than 1024 tasks.

Join some that may share their slots, or make two sets, each with a store of its own.",
    },
    Entry {
        fault: Fault::BadWorkers,
        text: "The workers aren't 1 to 64. A negative number, and one above 4294967295, counts as 0.

    workers = 0

Workers are how many tasks run in a slot: the seats, machines or instruments that the tasks share.",
    },
    Entry {
        fault: Fault::BadWeight { task: 2 },
        text: "The weight e/p of this task, counted from 0 in the order of the file, isn't between 0 and 1.

    [[task]]
    name = \"big\"
    e = 3                   # e has to be at least 1 and smaller than p
    p = 3

A task that is to run in every slot has a worker of its own: take both out of the set.",
    },
    Entry {
        fault: Fault::HyperperiodTooLarge { task: 2 },
        text: "With this task the least common multiple of the periods passes 1048576. A plan repeats after so many
slots, and exact lags are kept for as many.

    p = 1009, p = 1013, p = 1019      # 1041537223

Take periods that share factors: with p = 1000 in place of the three the multiple is 1000.",
    },
    Entry {
        fault: Fault::Overload,
        text: "The weights sum to more than the workers, so no schedule can give each task its share.

    workers = 2             # and tasks of 2/3, 2/3 and 3/4: 25/12 is above 2

Add a worker, or lower some weights.",
    },
    Entry {
        fault: Fault::SegmentTooSmall { least: 4233 },
        text: "The key segment gives fewer bytes than the greatest batch of commands needs: 41 + 2096 for each worker.

    segment = 100

Write the number that the fault names, or a greater one; without the key a segment has 1048576 bytes.",
    },
    Entry {
        fault: Fault::SegmentTooLarge,
        text: "The key segment gives more than 16777216 bytes.

    segment = 100000000

A store takes a little over two segments. Write 16777216 or less.",
    },
    Entry {
        fault: Fault::TooManyUrgent { urgent: 2, m: 1 },
        text: "More tasks have to run in the next slot than there are workers, so no schedule goes on from this ledger.

    pfx plan examples/endings.toml 6 --at 2:0,0,0,1,1

It comes only of a ledger that --at gives: from slot 0 of a set a plan never ends. What was printed stands.",
    },
    Entry {
        fault: Fault::TooFewEligible { eligible: 1, m: 2 },
        text: "Fewer tasks may run in the next slot than there are workers, so no schedule goes on from this ledger.

    pfx plan SET 6 --at T:A,A,..

It comes only of a ledger that --at gives: from slot 0 of a set a plan never ends. What was printed stands.",
    },
    Entry {
        fault: Fault::SlotLimit,
        text: "The slot is 1099511627775, 2^40 - 1, which has no next one.

    pfx plan SET 2 --at 1099511627775:A,A,..

A store of a slot a millisecond comes there after 34 years: make a new one.",
    },
    Entry {
        fault: Fault::OutOfRange { task: 0 },
        text: "The lag of this task at the slot of --at isn't above -1 and below 1. A lag is what the task is due, e*T/p
slots before slot T, less what it got.

    pfx plan SET 4 --at 3:3,0,3       # a task of 2/3 is due 2 before slot 3

Give each task its due, or one of the two whole numbers beside it.",
    },
    Entry {
        fault: Fault::WrongSum,
        text: "The numbers behind the colon of --at don't sum to the workers times the slot.

    pfx plan SET 4 --at 3:2,2,1       # two workers give 6 slots before slot 3

Idle tasks count too: they got what the others didn't.",
    },
    Entry {
        fault: Fault::BadLedger,
        text: "The word behind --at is no ledger of the set: a slot below 2^40, a colon, and for each task, idle ones too,
how many slots it got, with commas between them. Each number has 1 to 13 digits.

    pfx plan examples/thirds.toml 4 --at 3:2,2,2

The lines below the fault say how many numbers the set wants.",
    },
];

/// The faults of commands and of stores.
pub(crate) const OF_STORES: [Entry; 20] = [
    Entry {
        fault: Fault::NoSuchTask { task: 9 },
        text: "The store has no real task of this number. Tasks are numbered from 0 in the order of the set.

    withdraw,9,,,

In a run it is a line of the output, and the run goes on. pfx status lists a store's tasks.",
    },
    Entry {
        fault: Fault::TaskBusy { task: 0 },
        text: "The task has an unfinished job, so it is given no other one.

    submit,0,count,5,
    submit,0,count,5,       # refused 32 TaskBusy task=0

In a run it is a line of the output, and the run goes on. Run more slots, or take the job away: withdraw,0,,,",
    },
    Entry {
        fault: Fault::NoJob { task: 0 },
        text: "The task has no job, so there is none to take away or to show.

    withdraw,0,,,

In a run it is a line of the output, and the run goes on. pfx status says which tasks have a job.",
    },
    Entry {
        fault: Fault::NumberLimit,
        text: "The store has accepted 281474976710655 commands, 2^48 - 1, and has no further number.

At 8000 commands a second that takes 1100 years. Make a new store.",
    },
    Entry {
        fault: Fault::NotLevel { task: 0 },
        text: "A task is ahead or behind of what its weight gives it, so no new weights come into force. The task that is
named may be an idle one: those come behind the set's.

In a run it is a line of the output, and the run goes on. Run slots until each lag is 0: at each multiple of the
hyperperiod behind the slot of the last new weights it is, and often earlier. pfx check prints it as hyper.",
    },
    Entry {
        fault: Fault::WrongCount,
        text: "There is not one new weight for each task of the set.

In a run it is a line of the output, and the run goes on. A store keeps its tasks: new weights are of the same tasks,
in the same order.",
    },
    Entry {
        fault: Fault::BadKind,
        text: "There is no kind of job of this name.

    submit,0,counter,3,     # the kinds are count, rule, scan and own

In a run it is a line of the output, and the run goes on.",
    },
    Entry {
        fault: Fault::BadGoal,
        text: "The goal is out of the kind's range: a count and a rule have 1 step or more, a scan has an empty
goal, and an answer has its unit.

    submit,0,count,,
    submit,0,scan,3,ab:abcab

In a run it is a line of the output, and the run goes on.",
    },
    Entry {
        fault: Fault::BadData,
        text: "The data aren't in the kind's form: digits or nothing for a count; for a rule its number, 0 to 255, a colon
and 3 to 512 cells, each 0 or 1; for a scan 1 to 16 characters, a colon and at most 64 more; for an answer at most 106 visible
characters, but no quote, comma or backslash.

    submit,0,rule,3,110     # submit,0,rule,3,110:00000001

In a run it is a line of the output, and the run goes on.",
    },
    Entry {
        fault: Fault::NotNext { task: 0 },
        text: "The answer isn't of the next unit of this task: its number is the last answered one plus 1, and at most the
slots that the task got. Behind new weights both are counted from 0 again.

    submit,0,own,8,chunk/8     # unit 8 was answered before, or unit 7 wasn't, or the task got 7 slots

In a run it is a line of the output, and the run goes on.",
    },
    Entry {
        fault: Fault::NotAStore,
        text: "The file isn't a store: it doesn't begin as one, or the making of it was stopped midway.

    pfx run jobs.csv night.pfx        # the store stands in front of the script

Make a store by pfx init SET FILE. What a stopped init left is to be deleted first.",
    },
    Entry {
        fault: Fault::Damaged {
            at: 2_097_782,
            what: Part::Length,
        },
        text: "This part of the store's file isn't as pfx writes it, at this byte of the file. Nothing is changed.

    truncate -s -1 night.pfx
    pfx status night.pfx

Another program has written the file, or its disk has lost bytes. Take a copy of the file from elsewhere.",
    },
    Entry {
        fault: Fault::Device,
        text: "A read, a write or a sync of the file has failed.

Look to the disk and to the space on it, and then run again. What a run has printed is durable.",
    },
    Entry {
        fault: Fault::Broken,
        text: "The disk failed in an earlier call, so the store does no further one.

Open it again by a new run.",
    },
    Entry {
        fault: Fault::WrongVersion { version: 5 },
        text: "The store is of another version than 2, the one that this program reads. Nothing is changed.

    pfx migrate old.pfx new.pfx     # for a store of version 1

Make a store of this version from one of version 1; of another version, use the program that made it.",
    },
    Entry {
        fault: Fault::NotEmpty,
        text: "A store is made only in a file that is missing or empty, and this one isn't.

    pfx init night.toml night.pfx     # a second time

Name another file; or delete this one, if nothing in it is wanted.",
    },
    Entry {
        fault: Fault::NoRoom,
        text: "A batch of commands doesn't fit into the segment that it is written to. It never comes in a store that
pfx init has made.",
    },
    Entry {
        fault: Fault::Busy,
        text: "Another process has the store open. Nothing was read or written.

    pfx run night.pfx - &
    pfx status night.pfx

A store has one writer. Wait until it ends, or ask it: a record status,,,, prints the same board.",
    },
    Entry {
        fault: Fault::StoreFailed {
            marked: 7,
            cause: Cause::Device,
        },
        text: "The disk, or the memory, or by cause Log the disk of the log beside the store, failed within the run. Every command
up to marked is durable.

pfx status says whether one more is, or with --batch how many more. After a failed sync restart the machine
first: until then the system may show bytes that aren't on the disk.",
    },
    Entry {
        fault: Fault::SessionFull,
        text: "This run has accepted 1048576 commands, and refuses further ones by a line of its output.

Go on in another run of the same store.",
    },
];

/// The faults of runs.
pub(crate) const OF_RUNS: [Entry; 9] = [
    Entry {
        fault: Fault::NoThread,
        text: "The system gives no thread for a worker, or for what keeps the slots. Nothing was done.

    pfx run night.pfx jobs.csv --workers 64

Ask for fewer workers; --workers 0 runs on one thread alone.",
    },
    Entry {
        fault: Fault::BadScript { at: 2 },
        text: "The record at this place of the script, counted from 1, has no form: it hasn't five fields, or its verb is none,
or a number is none or out of range, or a field that the verb doesn't use isn't empty. Or a quote that opens a field isn't closed
right before the next comma or the line's end, or the record has more than 1048576 bytes or some that are no UTF-8 text.

    slot 3                  # slot,,,3,
    submit,a,count,3,       # a task is a number
    submit,2,scan,,\"ab:xaby  # \"ab:xaby\", with a quote behind; within it a quote stands twice

The records before it are done, and stand. The lines below the fault say what is wrong with it.",
    },
    Entry {
        fault: Fault::InputFailed,
        text: "A set, a script or a store can't be opened or read: it isn't there, or is a directory, or may not be read.

    pfx plan nosuch.toml 4

The lines below the fault say which file it is, and why.",
    },
    Entry {
        fault: Fault::OutputFailed,
        text: "Standard output can't be written.

    pfx plan night.toml 100000 > /dev/full

What was carried out stands, printed or not. Where the output is a pipe that its reader has closed, as of head,
the program ends with the same status and says nothing.",
    },
    Entry {
        fault: Fault::LogGap { log: 40, file: 97 },
        text: "The log ends with command 40, and the store's file begins behind command 97: what came in between is in neither. Nothing
is changed.

    pfx run night.pfx jobs.csv                      # a long run without its log
    pfx run night.pfx jobs.csv --log night.log

Begin another log, in a file that is missing; the one that ends stays good for what it has. Where the second number is
the lesser one, the log is another store's, or the file is an older copy.",
    },
    Entry {
        fault: Fault::NotALog,
        text: "The file isn't a log: it doesn't begin as one, or the making of it was stopped midway. Nothing is changed.

    pfx run night.pfx jobs.csv --log jobs.csv       # the script stands behind --log

Name a file that is missing, and a log is made. What a stopped making left is to be deleted first.",
    },
    Entry {
        fault: Fault::LogDamaged { at: 4_205 },
        text: "The part of the log that begins at this byte isn't as pfx writes it, or what stands before it has changed since: the head
of each block is a sum of all before it. Nothing is changed.

    truncate -s -1 night.log

Another program has written the file, or its disk has lost bytes. Take a copy of the file from elsewhere.",
    },
    Entry {
        fault: Fault::WrongLogVersion { version: 2 },
        text: "The log is of another version than 1, the one that this program reads. Nothing is changed.

Use the program that made it.",
    },
    Entry {
        fault: Fault::NoMemory,
        text: "The system gives no memory. What was printed stands, and every command that was printed is kept.",
    },
];
