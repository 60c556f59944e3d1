//! What notes say: texts with places for words.

use crate::words::Texts;

/// How a set is written.
const SET: &str =
    "A set is TOML: workers = N, then for each task a line [[task]] and lines name = \"a\", e = 1, p = 2.";

/// How the workers are written.
const WORKERS: &str =
    "Write workers = N above the first [[task]]: how many tasks run at once, 1 to 64.";

/// How tasks are written.
const TASKS: &str =
    "Write each task as [[task]], with two brackets, and name, e and p in the lines below.";

/// How a weight is written.
pub(crate) const WEIGHT: &str =
    "A weight is e/p, two integers: a half is e = 1 and p = 2, two thirds are e = 2 and p = 3.";

/// How a name is written.
pub(crate) const NAME: &str =
    "Give each task a name of its own: 1 to 32 ASCII letters, digits, _ or -.";

pub(crate) const NO_TOML: Texts = Texts {
    what: "{0}: {1}",
    change: SET,
};

pub(crate) const KEY_TWICE: Texts = Texts {
    what: "{0}: the key `{1}` stands twice",
    change: "Leave one of the two lines out; each task's keys stand below a [[task]] of its own.",
};

pub(crate) const NO_UTF8: Texts = Texts {
    what: "{0}: the set isn't UTF-8 text",
    change: "Save the set as UTF-8.",
};

pub(crate) const WORKERS_MISSING: Texts = Texts {
    what: "{0}: `workers` is missing",
    change: WORKERS,
};

pub(crate) const WORKERS_MISNAMED: Texts = Texts {
    what: "{0}: `workers` is missing, and `{1}` is no key of a set",
    change: WORKERS,
};

pub(crate) const WORKERS_KIND: Texts = Texts {
    what: "{0}: `workers` is {1}, and has to be an integer",
    change: WORKERS,
};

pub(crate) const SEGMENT_KIND: Texts = Texts {
    what: "{0}: `segment` is {1}, and has to be an integer",
    change: "Write a number of bytes, as segment = 1048576, or leave the line out.",
};

pub(crate) const TASKS_KIND: Texts = Texts {
    what: "{0}: `task` is {1}, and has to be an array of tables",
    change: TASKS,
};

pub(crate) const TASK_KIND: Texts = Texts {
    what: "{0}: {1} is no table",
    change: TASKS,
};

pub(crate) const MEMBER_KIND: Texts = Texts {
    what: "{0}: {1} has as `{2}` {3}, and it has to be {4}",
    change: "",
};

pub(crate) const MEMBER_MISSING: Texts = Texts {
    what: "{0}: {1} has no `{2}`",
    change: "",
};

pub(crate) const MEMBER_MISNAMED: Texts = Texts {
    what: "{0}: {1} has no `{2}`, and `{3}` is no key of a task",
    change: "",
};

/// What a lawful name is, and one.
const LAWFUL: &str = "A name has 1 to 32 ASCII letters, digits, _ or -, as \"{2}\".";

pub(crate) const NAME_EMPTY: Texts = Texts {
    what: "{0}: the name of task {1} is empty",
    change: LAWFUL,
};

pub(crate) const NAME_LONG: Texts = Texts {
    what: "{0}: the name of task {1} has {3} characters",
    change: LAWFUL,
};

pub(crate) const NAME_LETTERS: Texts = Texts {
    what: "{0}: the name of task {1} is \"{3}\"",
    change: LAWFUL,
};

pub(crate) const NAME_TWICE: Texts = Texts {
    what: "{0}: {1} has the name of task {2}",
    change: NAME,
};

pub(crate) const NO_TASK: Texts = Texts {
    what: "{0}: there is no task",
    change: "Add one for each task: a line [[task]], and below it lines name = \"a\", e = 1, p = 2.",
};

pub(crate) const TASKS_PASSED: Texts = Texts {
    what: "{0}: `tasks` is no key of a set, and is passed over: there is no task",
    change: "Write [[task]] for each task in place of it.",
};

pub(crate) const MANY_TASKS: Texts = Texts {
    what: "{0}: there are {1} tasks",
    change: "A set has at most 1024 tasks: join some, or make two sets.",
};

pub(crate) const WORKERS_RANGE: Texts = Texts {
    what: "{0}: `workers` is {1}",
    change: "Workers are the tasks that run at once: write a number from 1 to 64.",
};

/// What a weight is that isn't between 0 and 1.
const HAS_WEIGHT: &str = "{0}: {1} has e = {2}, p = {3}";

pub(crate) const WEIGHT_NONE: Texts = Texts {
    what: HAS_WEIGHT,
    change: "A weight e/p is above 0: make e at least 1, or take the task out of the set.",
};

pub(crate) const WEIGHT_WHOLE: Texts = Texts {
    what: HAS_WEIGHT,
    change: "A weight e/p is below 1: make e smaller than p, or take the task and one worker out of the set.",
};

pub(crate) const WEIGHT_PERIOD: Texts = Texts {
    what: HAS_WEIGHT,
    change: "A weight e/p is between 0 and 1, so p is at least 2: a task due every second slot has e = 1, p = 2.",
};

pub(crate) const WEIGHT_LARGE: Texts = Texts {
    what: HAS_WEIGHT,
    change: "Numbers are at most 4294967295: write the weight by smaller ones.",
};

/// What the periods' common multiple is.
const MULTIPLE: &str = "{0}: with {1} the periods' least common multiple is {2}, above 1048576";

pub(crate) const PERIOD_LONG: Texts = Texts {
    what: MULTIPLE,
    change: "A period is at most 1048576 slots: make p smaller.",
};

pub(crate) const MULTIPLE_LARGE: Texts = Texts {
    what: MULTIPLE,
    change: "The tasks before it have {3}: take a p that divides it, or periods that share factors, as 10, 20, 40.",
};

pub(crate) const SEGMENT_LARGE: Texts = Texts {
    what: "{0}: the segment has {1} bytes",
    change: "Write segment = 16777216 or less, or leave the line out for 1048576.",
};

pub(crate) const SEGMENT_SMALL: Texts = Texts {
    what: "{0}: the segment has {1} bytes",
    change: "For {2} write segment = {3} or more, or leave the line out for 1048576.",
};

pub(crate) const SET_KEY: Texts = Texts {
    what: "{0}: `{1}` is no key of a set, and is passed over",
    change: "A set has the keys workers and segment and tables [[task]]; a task has name, e and p.",
};

pub(crate) const TASK_KEY: Texts = Texts {
    what: "{0}: `{1}` of {2} is no key of a task, and is passed over",
    change: "A set has the keys workers and segment and tables [[task]]; a task has name, e and p.",
};

/// The weights, and the workers that there are.
const SUM_OF_WEIGHTS: &str = "{0}: the weights sum to {1}, and there {2} {3}";

pub(crate) const LOAD: Texts = Texts {
    what: SUM_OF_WEIGHTS,
    change: "Raise workers to {4}, or lower the weights by {5} in all.",
};

pub(crate) const LOAD_LARGE: Texts = Texts {
    what: SUM_OF_WEIGHTS,
    change: "Lower the weights by {5} in all.",
};

/// The weights, and the most workers that there can be.
pub(crate) const LOAD_OF_MOST: Texts = Texts {
    what: "{0}: the weights sum to {1}, and there are at most 64 workers",
    change: "Lower the weights by {5} in all.",
};

/// How a ledger is written.
const LEDGER: &str =
    "The form is T:A,A,..: a slot below 1099511627776, and the slots that each task got before it, as digits alone.";

pub(crate) const NO_COLON: Texts = Texts {
    what: "--at {0}: there is no colon",
    change: LEDGER,
};

pub(crate) const NO_SLOT: Texts = Texts {
    what: "--at {0}: `{1}` in front of the colon is no slot below 1099511627776",
    change: LEDGER,
};

pub(crate) const NO_NUMBER: Texts = Texts {
    what: "--at {0}: `{1}` behind the colon is no number of 1 to 13 digits",
    change: LEDGER,
};

/// How many numbers a ledger has, and how many the set wants.
const COUNTS: &str =
    "--at {0}: {1} behind the colon, and the set has {2}, {3} of its own and {4} idle";

pub(crate) const COUNT: Texts = Texts {
    what: COUNTS,
    change: "Give one for each task in the order of the set, idle ones last, as --at {5}.",
};

pub(crate) const COUNT_OF_MANY: Texts = Texts {
    what: COUNTS,
    change: "Give one for each task in the order of the set, idle ones last.",
};

pub(crate) const LAG: Texts = Texts {
    what: "--at {0}: {1} is due {2} slots before slot {3}, and is said to have got {4}",
    change: "A lag is above -1 and below 1: give it {5}.",
};

pub(crate) const SUM: Texts = Texts {
    what: "--at {0}: the tasks are said to have got {1} slots",
    change: "Before slot {2} all tasks, idle ones too, got {3} times {2}, which is {4}.",
};

/// What a plan does that ends.
const FURTHER: &str =
    "No schedule goes further from this ledger: ask for fewer SLOTS, or begin with another one.";

pub(crate) const URGENT: Texts = Texts {
    what: "--at {0}: {1} tasks have to run in the next slot, and the workers are {2}",
    change: FURTHER,
};

pub(crate) const ELIGIBLE: Texts = Texts {
    what: "--at {0}: {1} tasks may run in the next slot, and the workers are {2}",
    change: FURTHER,
};

/// What records begin with.
const VERBS: &str =
    "A record begins with submit, slot, withdraw, settle, status, show or reweigh, and no header line stands above them.";

/// How a record of this form is written.
const FIELDS: &str = "Write it as {2} and leave fields that aren't used empty, with their commas.";

/// How a record is written.
const RECORD_FORM: &str =
    "A record has five fields, VERB,TASK,KIND,GOAL,DATA, as submit,0,count,5, or slot,,,3, with unused ones empty.";

pub(crate) const RECORD: Texts = Texts {
    what: "{0}: record {1} has no form of a record",
    change: RECORD_FORM,
};

pub(crate) const RECORD_BYTES: Texts = Texts {
    what: "{0}: record {1} isn't UTF-8 text",
    change: "Save the script as UTF-8.",
};

pub(crate) const QUOTE_OPEN: Texts = Texts {
    what: "{0}: record {1} opens field {4} with a quote that nothing closes",
    change: "Close it behind the field's text; a quote within the text is written twice, as \"\".",
};

pub(crate) const QUOTE_TEXT: Texts = Texts {
    what: "{0}: record {1} has more text behind the quote that closes field {4}",
    change: "End the field there; a quote within the text is written twice, as \"\".",
};

pub(crate) const RECORD_LONG: Texts = Texts {
    what: "{0}: record {1} has more than 1048576 bytes",
    change: RECORD_FORM,
};

pub(crate) const ONE_FIELD: Texts = Texts {
    what: "{0}: record {1} has 1 field, `{3}`, and a record has five",
    change: FIELDS,
};

pub(crate) const ONE_WORD: Texts = Texts {
    what: "{0}: record {1} has 1 field, `{3}`, and a record has five",
    change: VERBS,
};

pub(crate) const FIELD_COUNT: Texts = Texts {
    what: "{0}: record {1} has {3}, and a record has five",
    change: FIELDS,
};

pub(crate) const WORD_COUNT: Texts = Texts {
    what: "{0}: record {1} has {3}, and a record has five",
    change: VERBS,
};

pub(crate) const FIELD_USED: Texts = Texts {
    what: "{0}: record {1} has a field that its verb doesn't use",
    change: "Write it as {2} with the fields between the commas empty.",
};

pub(crate) const RECORD_TASK: Texts = Texts {
    what: "{0}: record {1} has the task `{2}`, and a task is a number, 0 to 65535",
    change: "A task is its number, 0 for the set's first one: pfx status has it in front of each line.",
};

pub(crate) const RECORD_COUNT: Texts = Texts {
    what: "{0}: record {1} has the count `{2}`, and a count is a number from 1 to 1048576",
    change: "Write the slots as several records, or leave the field empty for one slot.",
};

pub(crate) const RECORD_GOAL: Texts = Texts {
    what: "{0}: record {1} has the goal `{2}`, and a goal is a number of 1 to 10 digits",
    change: "Write how many steps the job has; a scan has an empty goal.",
};

pub(crate) const RECORD_WORKERS: Texts = Texts {
    what: "{0}: record {1} has the workers `{2}`, and workers are a number of 1 to 10 digits",
    change: "Workers are the tasks that run at once: write a number from 1 to 64.",
};

pub(crate) const RECORD_WEIGHTS: Texts = Texts {
    what: "{0}: record {1} has the weights `{2}`, and a weight is E/P, two numbers of 1 to 10 digits",
    change: "Write one for each task in the order of the set, with single spaces between them, as 1/3 2/3.",
};

pub(crate) const RECORD_VERB: Texts = Texts {
    what: "{0}: record {1} begins with `{2}`, which is no verb",
    change: VERBS,
};

pub(crate) const INPUT: Texts = Texts {
    what: "{1} {0}: {2}",
    change: "Name a file that can be read, or - for standard input.",
};

pub(crate) const STORE: Texts = Texts {
    what: "{1} {0}: {2}",
    change: "Name a store that pfx init has made, and that may be read and written.",
};

pub(crate) const STORE_MISSING: Texts = Texts {
    what: "{1} {0}: {2}",
    change: "Make it by pfx init SET {3}, or name one that is there.",
};

pub(crate) const READ_STORE: Texts = Texts {
    what: "{1} {0}: {2}",
    change: "Name a store that pfx init has made, and that may be read.",
};

pub(crate) const NEW_STORE: Texts = Texts {
    what: "{1} {0}: {2}",
    change: "Name a file that may be written, in a directory that is there.",
};

pub(crate) const NO_NAME: Texts = Texts {
    what: "the {1} has an empty name",
    change: "Name a file, or - for standard input; in a shell an unset variable gives an empty word.",
};

pub(crate) const NO_STORE_NAME: Texts = Texts {
    what: "the {1} has an empty name",
    change: "Name a file; in a shell an unset variable gives an empty word.",
};

pub(crate) const SET_LONG: Texts = Texts {
    what: "set {0}: it has more than 16777216 bytes",
    change: "Name a set file: TOML, with the workers and for each task its name, e and p.",
};

pub(crate) const NO_DIRECTORY: Texts = Texts {
    what: "store {2}: there is no directory {1}",
    change: "Make it by mkdir -p {1}, or name a file in a directory that is there.",
};

pub(crate) const NO_PERMISSION: Texts = Texts {
    what: "store {2}: no permission to make a file in its directory",
    change: "Name a file in a directory that you may write.",
};

pub(crate) const READ_ONLY: Texts = Texts {
    what: "store {2}: its file system is read only",
    change: "Name a file on a file system that can be written.",
};

pub(crate) const NO_SPACE: Texts = Texts {
    what: "store {2}: no space is left for its {1} bytes",
    change: "Make room there, or name a file on another file system. Nothing is left of this one.",
};

pub(crate) const UNMADE: Texts = Texts {
    what: "store {2}: it can't be written: {1}",
    change: "Look to the disk, or name a file on another one. Nothing is left of this one.",
};

pub(crate) const UNMADE_LEFT: Texts = Texts {
    what: "store {2}: it can't be written: {1}",
    change: "Look to the disk, and delete what is left of the file before the next init.",
};

pub(crate) const DASH: Texts = Texts {
    what: "store {2}: a store is a file, and isn't read from standard input",
    change: "Name its file, as pfx status night.pfx; a file of this name is ./-.",
};

pub(crate) const HELD: Texts = Texts {
    what: "store {2}: a run, or a driver by its run, has it open",
    change: "Wait until that ends, or ask it: the record status,,,, on its script's pipe prints the same board.",
};

pub(crate) const DEVICE: Texts = Texts {
    what: "store {2}: {1}",
    change: "Look to the disk and to the space on it, and run again; after a failed sync restart the machine first.",
};

pub(crate) const LOG_DEVICE: Texts = Texts {
    what: "log {2}: {1}",
    change: "Look to the disk and to the space on it, and run again: what is printed is kept in the store.",
};

pub(crate) const THREADS: Texts = Texts {
    what: "the system gives no thread for a worker or for what keeps the slots",
    change: "Ask for fewer by --workers N; with --workers 0 one thread does everything.",
};

/// What is wrong with standard output.
const STANDARD_OUTPUT: &str = "standard output: {0}";

pub(crate) const OUTPUT: Texts = Texts {
    what: STANDARD_OUTPUT,
    change: "What was carried out stands: pfx status says how far a store has come.",
};

pub(crate) const PLAIN_OUTPUT: Texts = Texts {
    what: STANDARD_OUTPUT,
    change: "Send it to a file that has room, or to a program that reads it.",
};

pub(crate) const NEW_OUTPUT: Texts = Texts {
    what: STANDARD_OUTPUT,
    change: "The store is made: pfx status shows it.",
};

/// What to do about a file that was damaged.
const COPY: &str =
    "Take a copy of the file from elsewhere: it was cut or overwritten. Nothing is changed in it.";

pub(crate) const DAMAGED: Texts = Texts {
    what: "store {0}: {2} byte {1} isn't as pfx writes it",
    change: COPY,
};

pub(crate) const DAMAGED_LENGTH: Texts = Texts {
    what: "store {0}: it has {1} bytes, and its header says another number",
    change: COPY,
};

pub(crate) const NO_STORE: Texts = Texts {
    what: "store {0}: it doesn't begin as a store",
    change: "Make a store by pfx init SET FILE; delete first what a stopped init left.",
};

pub(crate) const NO_STORE_FIRST: Texts = Texts {
    what: "store {0}: it doesn't begin as a store",
    change: "{1} is one: the store comes first, as in pfx run {1} {0}.",
};

pub(crate) const VERSION: Texts = Texts {
    what: "store {0}: it is of version {1}, and this program reads version 2",
    change: "Use the program that made it. Nothing is changed in it.",
};

pub(crate) const VERSION_ONE: Texts = Texts {
    what: "store {0}: it is of version {1}, and this program reads version 2",
    change: "pfx migrate OLD NEW makes a store of this version from it.",
};

pub(crate) const NO_MIGRATION: Texts = Texts {
    what: "store {2}: it is of version 2, as this program's stores are",
    change: "Use it as it is: only a store of version 1 has to be migrated.",
};

pub(crate) const LOG_GAP: Texts = Texts {
    what: "log {0}: it ends with command {1}, and the store's file begins behind command {2}",
    change: "Name a file that is missing, for a new log; this one stays good for what it has.",
};

pub(crate) const LOG_AHEAD: Texts = Texts {
    what: "log {0}: it has the commands up to {1}, and the store's file ends with command {2}",
    change: "It is another store's log, or the file is an older copy: name the log of this file.",
};

pub(crate) const LOG_BUSY: Texts = Texts {
    what: "log {0}: another process has it open",
    change: "Wait until that ends, or name another file: a log has one writer.",
};

pub(crate) const LOG_NOT_EMPTY: Texts = Texts {
    what: "log {0}: the file isn't empty, so no log that goes on from another one begins in it",
    change: "Name a file that is missing; without --after the run goes on with the log that is there.",
};

pub(crate) const NO_LOG: Texts = Texts {
    what: "log {0}: it doesn't begin as a log",
    change: "Name a file that is missing, for a new log; delete first what a stopped run left.",
};

pub(crate) const DAMAGED_LOG: Texts = Texts {
    what: "log {0}: the part at byte {1} isn't as pfx writes it",
    change: COPY,
};

pub(crate) const LOG_VERSION: Texts = Texts {
    what: "log {0}: it is of version {1}, and this program reads version 1",
    change: "Use the program that made it. Nothing is changed in it.",
};

pub(crate) const HISTORY_GAP: Texts = Texts {
    what: "{0}: what stands before it ends with command {1}, and this begins behind command {2}",
    change: "Name the logs in their order, with none left out, and behind them the file of their store.",
};

pub(crate) const OTHER_HISTORY: Texts = Texts {
    what: "{0}: it doesn't go on behind command {1} of what stands before it: it is of another history",
    change: "Name the log that names the head of the one before, or the file of that store.",
};

pub(crate) const NO_HISTORY: Texts = Texts {
    what: "log {0}: it doesn't begin as a log",
    change: "Name logs, as pfx run --log makes them, and behind them the store's file, if it is wanted.",
};

pub(crate) const HISTORY_BUSY: Texts = Texts {
    what: "{0}: another process has it open",
    change: "Wait until that ends, or audit a copy of the log; pfx head tells a log's head meanwhile.",
};

pub(crate) const NOT_EMPTY: Texts = Texts {
    what: "store {0}: the file isn't empty",
    change: "Name another file; or delete this one, if nothing in it is wanted.",
};

pub(crate) const BUSY: Texts = Texts {
    what: "store {0}: another process has it open",
    change: "Wait until that ends: a run has the store as long as it reads its script.",
};

/// Where the tasks of a store are told.
const STATUS: &str = "pfx status {0} has a line for each task, with its number and its job.";

pub(crate) const NO_SUCH_TASK: Texts = Texts {
    what: "store {0}: it has no task {1} of its set",
    change: STATUS,
};

pub(crate) const NO_JOB: Texts = Texts {
    what: "store {0}: task {1} has no job",
    change: STATUS,
};

/// The record that was refused first.
pub(crate) const REFUSED: &str = "{0}: record {1} was refused: {2}";

/// The same with the word that it was refused for.
pub(crate) const REFUSED_WORD: &str = "{0}: record {1} was refused: {2}, for `{4}`";

/// What to do about a refusal, by the name that it has.
pub(crate) const REFUSALS: [(&str, &str); 15] = [
    (
        "NoSuchTask",
        "Tasks are numbered from 0 in the order of the set: pfx status has a line for each.",
    ),
    (
        "TaskBusy",
        "Run more slots until its job is done, or take the job away first: withdraw,TASK,,,",
    ),
    (
        "NoJob",
        "Take away or show only what is there: pfx status says job=open or job=done of a task that has one.",
    ),
    (
        "NotLevel",
        "Run slots until every lag is 0: pfx status has them, and at each multiple of the hyperperiod behind the last new weights all are.",
    ),
    (
        "WrongCount",
        "Give one weight for each task in the order of the set: pfx status has a line for each, idle ones last.",
    ),
    (
        "BadWorkers",
        "Workers are the tasks that run at once: write a number from 1 to 64.",
    ),
    (
        "BadWeight",
        "A weight E/P is between 0 and 1, so E is 1 to P - 1, and its numbers are at most 4294967295.",
    ),
    (
        "HyperperiodTooLarge",
        "The periods' least common multiple is at most 1048576: take periods that share factors, as 10, 20, 40.",
    ),
    (
        "Overload",
        "The weights sum to more than the workers: lower some of them, or name more workers.",
    ),
    (
        "SegmentTooSmall",
        "Name fewer workers, or make a new store of a set with a greater segment.",
    ),
    ("BadKind", "The kinds are count, rule, scan and own."),
    (
        "BadGoal",
        "Give a count or a rule 1 step or more as the fourth field, an answer its unit, and leave it empty for a scan.",
    ),
    (
        "BadData",
        "A count has digits or nothing, a rule RULE:CELLS as 110:00000001, a scan NEEDLE:TEXT as ab:abcab, an answer up to 106 visible characters.",
    ),
    (
        "NotNext",
        "Answer the unit behind the one that pfx show has, and no more units than pfx status has slots of the task.",
    ),
    ("SessionFull", "Run the rest of the script as another one."),
];

/// What to do about any other one.
pub(crate) const AT_ITS_END: &str = "The store has come to its end: make a new one.";
