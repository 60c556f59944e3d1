//! Words as a shell passes them, and the texts that answer them. A row has the words, parted by `|`, and what they come to.

use crate::check::check;
use pfx_program_args::read_words;
use std::alloc::Global;
use std::process::Abort;

/// The words of a row.
fn words_of(alloc: Global, row: &str) -> Option<Vec<&str>> {
    let mut words = Vec::new(alloc);
    if row.is_empty() {
        return Some(words);
    }
    for word in row.split('|') {
        words.push(word).ok()?;
    }
    Some(words)
}

/// What words ask for, as it is shown.
fn shown(alloc: Global, words: &[&str]) -> Option<String> {
    match read_words(alloc, words) {
        Ok(Some(request)) => format!(in alloc; "{request:?}").ok(),
        _ => None,
    }
}

/// Whether a row's words are taken, and ask for what is shown behind them.
fn asks(alloc: Global, row: &str) -> Option<bool> {
    let (words, want) = row.split_once(" => ")?;
    let words = words_of(alloc, words)?;
    Some(shown(alloc, &words)?.as_str() == want)
}

/// Tries each row of requests.
fn each_asks(rt: &impl Abort, alloc: Global, rows: &str) {
    for row in rows.lines() {
        check(rt, asks(alloc, row) == Some(true), row);
    }
}

/// The text in which `~` is the end of a line.
fn with_lines(alloc: Global, part: &str) -> Option<String> {
    let mut text = String::new(alloc);
    for letter in part.chars() {
        text.push(if letter == '~' { '\n' } else { letter }).ok()?;
    }
    Some(text)
}

/// Whether a row's words are answered by a text with the part behind them, and this exit status.
fn is_answered(alloc: Global, row: &str, status: i32) -> Option<bool> {
    let (words, part) = row.split_once(" => ")?;
    let words = words_of(alloc, words)?;
    let part = with_lines(alloc, part)?;
    let error = read_words(alloc, &words).err()?;
    let text = error.to_string(alloc).ok()?;
    Some(error.exit_code() == status && text.as_str().contains(part.as_str()))
}

/// Tries each row of answers with this exit status.
fn each_is_answered(rt: &impl Abort, alloc: Global, status: i32, rows: &str) {
    for row in rows.lines() {
        check(rt, is_answered(alloc, row, status) == Some(true), row);
    }
}

const PLANS: &str =
    r#"pfx|plan|a.toml|4 => Plan { set: "a.toml", slots: 4, at: None, ledger: false, json: false }
/usr/bin/pfx|plan|sets/b c.toml|0 => Plan { set: "sets/b c.toml", slots: 0, at: None, ledger: false, json: false }
|plan||1048576 => Plan { set: "", slots: 1048576, at: None, ledger: false, json: false }
pfx|plan|+7|+7 => Plan { set: "+7", slots: 7, at: None, ledger: false, json: false }
pfx|plan|--|-a|007 => Plan { set: "-a", slots: 7, at: None, ledger: false, json: false }
pfx|plan|plan|--|3 => Plan { set: "plan", slots: 3, at: None, ledger: false, json: false }"#;

#[test]
fn reads_a_plan(rt: HostRuntime) {
    each_asks(&rt, rt.alloc(), PLANS);
}

// The ledger's text comes as it is, lawful or not.
const LEDGERS: &str =
    r#"pfx|plan|a.toml|4|--at|2:2,1,1 => Plan { set: "a.toml", slots: 4, at: Some("2:2,1,1"), ledger: false, json: false }
pfx|plan|a.toml|--at=2:2,1,1|4 => Plan { set: "a.toml", slots: 4, at: Some("2:2,1,1"), ledger: false, json: false }
pfx|plan|--at|=x|--|a.toml|4 => Plan { set: "a.toml", slots: 4, at: Some("=x"), ledger: false, json: false }
pfx|plan|--at=|a.toml|4 => Plan { set: "a.toml", slots: 4, at: Some(""), ledger: false, json: false }
pfx|plan|--at=-1:|a.toml|4 => Plan { set: "a.toml", slots: 4, at: Some("-1:"), ledger: false, json: false }
pfx|plan|a.toml|4|--ledger => Plan { set: "a.toml", slots: 4, at: None, ledger: true, json: false }
pfx|plan|--ledger|a.toml|4|--at=2:2,1,1 => Plan { set: "a.toml", slots: 4, at: Some("2:2,1,1"), ledger: true, json: false }
pfx|init|a.toml|a.pfx|--at|2:2,1,1 => Init { set: "a.toml", file: "a.pfx", at: Some("2:2,1,1"), json: false }
pfx|init|--at=|--json|a.toml|a.pfx => Init { set: "a.toml", file: "a.pfx", at: Some(""), json: true }"#;

#[test]
fn passes_a_ledger_on(rt: HostRuntime) {
    each_asks(&rt, rt.alloc(), LEDGERS);
}

const STORES: &str =
    r#"pfx|init|a.toml|a.pfx => Init { set: "a.toml", file: "a.pfx", at: None, json: false }
pfx|init||b c => Init { set: "", file: "b c", at: None, json: false }
pfx|init|init|help => Init { set: "init", file: "help", at: None, json: false }
pfx|init|--|-a|-b => Init { set: "-a", file: "-b", at: None, json: false }
pfx|init|--json|a.toml|a.pfx => Init { set: "a.toml", file: "a.pfx", at: None, json: true }"#;

#[test]
fn reads_a_new_store(rt: HostRuntime) {
    each_asks(&rt, rt.alloc(), STORES);
}

const MIGRATIONS: &str =
    r#"pfx|migrate|a.pfx|b.pfx => Migrate { old: "a.pfx", new: "b.pfx", json: false }
pfx|migrate|migrate| => Migrate { old: "migrate", new: "", json: false }
pfx|migrate|--|-a|-b => Migrate { old: "-a", new: "-b", json: false }
pfx|migrate|a.pfx|--json|b.pfx => Migrate { old: "a.pfx", new: "b.pfx", json: true }"#;

#[test]
fn reads_a_migration(rt: HostRuntime) {
    each_asks(&rt, rt.alloc(), MIGRATIONS);
}

const RUNS: &str =
    r#"pfx|run|a.pfx|a.csv => Run { file: "a.pfx", script: "a.csv", workers: None, batch: None, log: None, after: None, strict: false, json: false }
pfx|run|a.pfx|a.csv|--workers|0 => Run { file: "a.pfx", script: "a.csv", workers: Some(0), batch: None, log: None, after: None, strict: false, json: false }
pfx|run|a.pfx|--workers=64|a.csv => Run { file: "a.pfx", script: "a.csv", workers: Some(64), batch: None, log: None, after: None, strict: false, json: false }
pfx|run|--workers|007|--|a.pfx|a.csv => Run { file: "a.pfx", script: "a.csv", workers: Some(7), batch: None, log: None, after: None, strict: false, json: false }
pfx|run|--workers=+2|a.pfx|a.csv => Run { file: "a.pfx", script: "a.csv", workers: Some(2), batch: None, log: None, after: None, strict: false, json: false }
pfx|run|a.pfx|a.csv|--batch|16 => Run { file: "a.pfx", script: "a.csv", workers: None, batch: Some(16), log: None, after: None, strict: false, json: false }
pfx|run|--batch=1|a.pfx|--workers=0|a.csv => Run { file: "a.pfx", script: "a.csv", workers: Some(0), batch: Some(1), log: None, after: None, strict: false, json: false }
pfx|run|a.pfx|a.csv|--log|a.log => Run { file: "a.pfx", script: "a.csv", workers: None, batch: None, log: Some("a.log"), after: None, strict: false, json: false }
pfx|run|--after=a.log|a.pfx|--log=b.log|a.csv => Run { file: "a.pfx", script: "a.csv", workers: None, batch: None, log: Some("b.log"), after: Some("a.log"), strict: false, json: false }"#;

#[test]
fn reads_a_run(rt: HostRuntime) {
    each_asks(&rt, rt.alloc(), RUNS);
}

const STRICT: &str =
    r#"pfx|run|a.pfx|a.csv|--strict => Run { file: "a.pfx", script: "a.csv", workers: None, batch: None, log: None, after: None, strict: true, json: false }
pfx|run|--strict|a.pfx|a.csv => Run { file: "a.pfx", script: "a.csv", workers: None, batch: None, log: None, after: None, strict: true, json: false }"#;

#[test]
fn reads_a_strict_run(rt: HostRuntime) {
    each_asks(&rt, rt.alloc(), STRICT);
}

const OBJECTS: &str =
    r#"pfx|plan|--json|a.toml|4|--at=0:0 => Plan { set: "a.toml", slots: 4, at: Some("0:0"), ledger: false, json: true }
pfx|plan|--json|a.toml|4|--ledger => Plan { set: "a.toml", slots: 4, at: None, ledger: true, json: true }
pfx|run|a.pfx|--json|--strict|a.csv => Run { file: "a.pfx", script: "a.csv", workers: None, batch: None, log: None, after: None, strict: true, json: true }
pfx|status|a.pfx|--json => Status { file: "a.pfx", json: true }
pfx|show|--json|a.pfx => Show { file: "a.pfx", task: None, json: true }
pfx|show|a.pfx|2|--json => Show { file: "a.pfx", task: Some(2), json: true }"#;

#[test]
fn reads_a_wish_for_json(rt: HostRuntime) {
    each_asks(&rt, rt.alloc(), OBJECTS);
}

const AUDITS: &str =
    r#"pfx|audit|a.log|b.log|--csv|c.pfx|--every|12 => Audit { logs: ["a.log", "b.log", "c.pfx"], every: Some(12), from: None, to: None, number: None, form: Csv }
pfx|audit|a.log|--from=3|--to|9|--json => Audit { logs: ["a.log"], every: None, from: Some(3), to: Some(9), number: None, form: Json }
pfx|audit|--number|7|a.log => Audit { logs: ["a.log"], every: None, from: None, to: None, number: Some(7), form: Text }
pfx|head|a.log|--json => Head { log: "a.log", json: true }
pfx|head|a.log => Head { log: "a.log", json: false }"#;

#[test]
fn reads_an_audit_and_a_head(rt: HostRuntime) {
    each_asks(&rt, rt.alloc(), AUDITS);
}

const EXPLAINS: &str = r#"pfx|explain|14 => Explain { fault: "14", json: false }
pfx|explain|BadWeight => Explain { fault: "BadWeight", json: false }
pfx|explain|explain => Explain { fault: "explain", json: false }
pfx|explain|14|--json => Explain { fault: "14", json: true }"#;

#[test]
fn reads_an_explain(rt: HostRuntime) {
    each_asks(&rt, rt.alloc(), EXPLAINS);
}

const SHOWS: &str = r#"pfx|show|a.pfx => Show { file: "a.pfx", task: None, json: false }
pfx|show|a.pfx|0 => Show { file: "a.pfx", task: Some(0), json: false }
pfx|show|a.pfx|65535 => Show { file: "a.pfx", task: Some(65535), json: false }"#;

#[test]
fn reads_a_show(rt: HostRuntime) {
    each_asks(&rt, rt.alloc(), SHOWS);
}

const FILES: &str = r#"pfx|status|a.pfx => Status { file: "a.pfx", json: false }
pfx|status|status => Status { file: "status", json: false }
pfx|status|--|--help => Status { file: "--help", json: false }"#;

#[test]
fn reads_a_status(rt: HostRuntime) {
    each_asks(&rt, rt.alloc(), FILES);
}

const REPLAYS: &str = r#"pfx|replay|a.pfx => Replay { file: "a.pfx", json: false }
pfx|replay|replay => Replay { file: "replay", json: false }
pfx|replay|--|--help => Replay { file: "--help", json: false }
pfx|replay|a.pfx|--json => Replay { file: "a.pfx", json: true }"#;

#[test]
fn reads_a_replay(rt: HostRuntime) {
    each_asks(&rt, rt.alloc(), REPLAYS);
}

const CHECKS: &str = r#"pfx|check|a.toml => Check { set: "a.toml", json: false }
pfx|check|- => Check { set: "-", json: false }
pfx|check|--|--help => Check { set: "--help", json: false }
pfx|check|--json|- => Check { set: "-", json: true }"#;

#[test]
fn reads_a_check(rt: HostRuntime) {
    each_asks(&rt, rt.alloc(), CHECKS);
}

const COMMANDS: &str =
    "pfx => [subcommands: plan, init, run, status, replay, show, draw, check, explain, migrate, audit, head, help]
 => [subcommands: plan, init, run, status, replay, show, draw, check, explain, migrate, audit, head, help]
pfx|paln|a.toml|4 => a similar subcommand exists: 'plan'";

#[test]
fn says_which_subcommands_there_are(rt: HostRuntime) {
    each_is_answered(&rt, rt.alloc(), 2, COMMANDS);
}

const FEW_FOR_A_PLAN: &str = "pfx|plan => <SET>~  <SLOTS>~
pfx|plan|a.toml => <SLOTS>~~Usage: pfx plan <SET> <SLOTS>
pfx|plan|a.toml|1048577 => 1048577 is not in 0..=1048576
pfx|plan|a.toml|99999999999999999999 => for '<SLOTS>'
pfx|plan|a.toml|four => invalid value 'four' for '<SLOTS>'
pfx|plan|a.toml|-1 => unexpected argument '-1' found
pfx|plan|a.toml|4|5 => unexpected argument '5' found";

#[test]
fn wants_a_set_and_slots(rt: HostRuntime) {
    each_is_answered(&rt, rt.alloc(), 2, FEW_FOR_A_PLAN);
}

const TWO_LEDGERS: &str =
    "pfx|plan|a.toml|4|--at => a value is required for '--at <T:A,A,..>' but none was supplied
pfx|plan|a.toml|4|--at|0:0|--at|0:0 => the argument '--at <T:A,A,..>' cannot be used multiple times
pfx|init|a.toml|a.pfx|--at => a value is required for '--at <T:A,A,..>' but none was supplied
pfx|plan|a.toml|4|--ledger=0:0 => unexpected value '0:0' for '--ledger' found";

#[test]
fn takes_one_ledger(rt: HostRuntime) {
    each_is_answered(&rt, rt.alloc(), 2, TWO_LEDGERS);
}

const FEW_FOR_A_STORE: &str = "pfx|init => <SET>~  <FILE>~
pfx|init|a.toml => <FILE>~~Usage: pfx init <SET> <FILE>
pfx|init|a.toml|a.pfx|b.pfx => unexpected argument 'b.pfx' found
pfx|migrate|a.pfx => <NEW>~~Usage: pfx migrate <OLD> <NEW>
pfx|migrate|a.pfx|b.pfx|c.pfx => unexpected argument 'c.pfx' found
pfx|run => <FILE>~  <SCRIPT>~
pfx|run|a.pfx => <SCRIPT>~~Usage: pfx run <FILE> <SCRIPT>
pfx|status => <FILE>~~Usage: pfx status <FILE>
pfx|status|a.pfx|--workers|2 => unexpected argument '--workers' found
pfx|replay => <FILE>~~Usage: pfx replay <FILE>
pfx|replay|a.pfx|b.pfx => unexpected argument 'b.pfx' found
pfx|statsu|a.pfx => a similar subcommand exists: 'status'";

#[test]
fn wants_the_words_of_a_store(rt: HostRuntime) {
    each_is_answered(&rt, rt.alloc(), 2, FEW_FOR_A_STORE);
}

const WORKERS: &str = "pfx|run|a.pfx|a.csv|--workers|65 => 65 is not in 0..=64
pfx|run|a.pfx|a.csv|--workers|4294967296 => 4294967296 is not in 0..=64
pfx|run|a.pfx|a.csv|--workers|two => invalid value 'two' for '--workers <N>'
pfx|run|a.pfx|a.csv|--workers= => for '--workers <N>'
pfx|run|a.pfx|a.csv|--workers=-1 => -1 is not in 0..=64
pfx|run|a.pfx|a.csv|--workers|-1 => unexpected argument '-1' found
pfx|run|a.pfx|a.csv|--workers => a value is required for '--workers <N>' but none was supplied
pfx|run|a.pfx|a.csv|--workers|2|--workers|2 => the argument '--workers <N>' cannot be used multiple times";

#[test]
fn takes_up_to_64_workers(rt: HostRuntime) {
    each_is_answered(&rt, rt.alloc(), 2, WORKERS);
}

const HELP: &str = "pfx|--help => Usage: pfx <COMMAND>
pfx|-h =>   plan     Print which tasks run
pfx|plan|--help => Usage: pfx plan [OPTIONS] <SET> <SLOTS>
pfx|plan|-h =>       --at <T:A,A,..>  Begin at slot T
pfx|help|plan => How many slots to print, 0 to 1048576
pfx|--help =>   pfx status thirds.pfx 
pfx|--help =>   pfx replay thirds.pfx 
pfx|run|-h =>       --workers <N>  How many
pfx|--version => pfx 0.1.0~
pfx|status|-V =>  0.1.0~
pfx|plan|--version =>  0.1.0~";

#[test]
fn answers_with_help_and_version(rt: HostRuntime) {
    each_is_answered(&rt, rt.alloc(), 0, HELP);
}

const PAGES: &str = r#"pfx|init|--help => Usage: pfx init [OPTIONS] <SET> <FILE>~
pfx|init|--help =>   created m=2 real=3 idle=0 hyper=3 size=2100163~
pfx|init|-h =>       --at <T:A,A,..>  Begin at slot T
pfx|plan|-h =>       --ledger         Print one more line
pfx|migrate|--help => Usage: pfx migrate [OPTIONS] <OLD> <NEW>~
pfx|migrate|--help =>   migrated 4~
pfx|migrate|--help =>   pfx migrate old.pfx new.pfx 
pfx|init|--help =>   pfx init examples/thirds.toml thirds.pfx 
pfx|run|--help => Usage: pfx run [OPTIONS] <FILE> <SCRIPT>~
pfx|run|--help => 0 to 64; as many as the set has if it isn't given~
pfx|run|--help =>   submit,TASK,KIND,GOAL,DATA 
pfx|run|--help =>   pfx run thirds.pfx examples/thirds.csv 
pfx|status|--help => Usage: pfx status [OPTIONS] <FILE>~
pfx|status|--help =>   0 alloc=1 lag=-1/3 job=none~
pfx|status|--help =>   pfx status thirds.pfx 
pfx|status|--help => {"alloc":1,"job":"none","lag":-1,"period":3,"task":0}
pfx|run|--help =>   {"settled":3}~
pfx|show|--help =>   {"found":2,"job":"scan","left":0,"of":"ab","task":2}
pfx|replay|--help => Usage: pfx replay [OPTIONS] <FILE>~
pfx|replay|--help =>   differs 10 Checkpoint 
pfx|replay|--help =>   pfx replay thirds.pfx 
pfx|explain|--help => Usage: pfx explain [OPTIONS] <FAULT>~
pfx|explain|--help =>   pfx explain BadWeight "#;

#[test]
fn has_a_help_page_for_each(rt: HostRuntime) {
    each_is_answered(&rt, rt.alloc(), 0, PAGES);
}

const BATCHES: &str = "pfx|run|a.pfx|a.csv|--batch|0 => 0 is not in 1..=16
pfx|run|a.pfx|a.csv|--batch=17 => 17 is not in 1..=16
pfx|run|a.pfx|a.csv|--batch=-1 => -1 is not in 1..=16
pfx|run|a.pfx|a.csv|--batch|two => invalid value 'two' for '--batch <N>'
pfx|run|a.pfx|a.csv|--batch => a value is required for '--batch <N>' but none was supplied
pfx|run|a.pfx|a.csv|--batch=2|--workers=0|--batch=2 => the argument '--batch <N>' cannot be used multiple times";

#[test]
fn takes_batches_of_1_to_16(rt: HostRuntime) {
    each_is_answered(&rt, rt.alloc(), 2, BATCHES);
}
