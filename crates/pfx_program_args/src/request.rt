//! What a command line asks for.

/// How an audit is printed.
#[derive(Clone, Copy, Debug, PartialEq, Eq)]
pub enum AuditForm {
    /// A line of words for each window and task.
    Text,
    /// A header, and a record of CSV for each window and task.
    Csv,
    /// An object of JSON for each window and task.
    Json,
}

/// What the words of a command line ask for. Its texts are the words themselves.
#[derive(Debug, Drop, PartialEq, Eq)]
pub enum Request<'a> {
    /// Print the plan of some slots of a set.
    Plan {
        /// The path of the set file; `-` is standard input.
        set: &'a str,
        /// How many slots, 0 to 1,048,576.
        slots: u32,
        /// The ledger to begin with, as `T:A,A,..`; without one the plan begins at slot 0.
        at: Option<&'a str>,
        /// Whether one more line says which ledger the last row leaves.
        ledger: bool,
        /// Whether each line is an object of JSON.
        json: bool,
    },
    /// Make a new store from a set.
    Init {
        /// The path of the set file; `-` is standard input.
        set: &'a str,
        /// The path of the store's file.
        file: &'a str,
        /// The ledger to begin with, as `T:A,A,..`; without one the store begins at slot 0.
        at: Option<&'a str>,
        /// Whether the line is an object of JSON.
        json: bool,
    },
    /// Run a script of commands on a store.
    Run {
        /// The path of the store's file.
        file: &'a str,
        /// The path of the script, in CSV; `-` is standard input.
        script: &'a str,
        /// How many workers run the jobs, 0 to 64, if the words say so; 0 is one thread for all. Else it is as many as the
        /// store's set has.
        workers: Option<u32>,
        /// How many slots of a record are kept at once at the most, 1 to 16, if the words say so; else it is 1, or 64 with
        /// workers.
        batch: Option<u32>,
        /// The path of the log that keeps the whole history, if the words name one.
        log: Option<&'a str>,
        /// The path of the log that a new one goes on from, if the words name one.
        after: Option<&'a str>,
        /// Whether the script ends after its first refused record.
        strict: bool,
        /// Whether each line is an object of JSON.
        json: bool,
    },
    /// Show the board of a store.
    Status {
        /// The path of the store's file.
        file: &'a str,
        /// Whether the board is an object of JSON.
        json: bool,
    },
    /// Compare what a store's file records with what its commands do.
    Replay {
        /// The path of the store's file.
        file: &'a str,
        /// Whether the line is an object of JSON.
        json: bool,
    },
    /// Show what the jobs of a store have computed.
    Show {
        /// The path of the store's file.
        file: &'a str,
        /// The number of the task, 0 to 65,535, if one alone is asked for.
        task: Option<u32>,
        /// Whether each line is an object of JSON.
        json: bool,
    },
    /// Draw the plan of some slots of a set.
    Draw {
        /// The path of the set file; `-` is standard input.
        set: &'a str,
        /// How many slots, 1 to 1,440.
        slots: u32,
        /// The ledger to begin with, as `T:A,A,..`; without one the plan begins at slot 0.
        at: Option<&'a str>,
    },
    /// Say what a set asks for, or all that is wrong with it.
    Check {
        /// The path of the set file; `-` is standard input.
        set: &'a str,
        /// Whether it is said by an object of JSON.
        json: bool,
    },
    /// Say what a fault means.
    Explain {
        /// The fault's number or its name.
        fault: &'a str,
        /// Whether it is said by an object of JSON.
        json: bool,
    },
    /// Make a store of this version from one of version 1.
    Migrate {
        /// The path of the file of the store of version 1, which is only read.
        old: &'a str,
        /// The path of the new store's file.
        new: &'a str,
        /// Whether the line is an object of JSON.
        json: bool,
    },
    /// Check a history against what its commands do, and sum up what each task got.
    Audit {
        /// The paths of the logs in their order, one or more; the last may be the store's file behind them.
        logs: Vec<&'a str>,
        /// How many slots a window has, 1 to 1,048,576; without it all are one window.
        every: Option<u32>,
        /// The slot that the first window begins at, 0 to 2^48; without it the history's first one.
        from: Option<u64>,
        /// The slot that the last window ends before, 0 to 2^48; without it the history's end.
        to: Option<u64>,
        /// The number of the record, 0 to 2^48, if one alone is asked for.
        number: Option<u64>,
        /// How it is printed.
        form: AuditForm,
    },
    /// Tell the last head of a log.
    Head {
        /// The path of the log.
        log: &'a str,
        /// Whether the line is an object of JSON.
        json: bool,
    },
}
