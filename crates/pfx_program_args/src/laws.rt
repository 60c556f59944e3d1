//! Laws of the definitions: what they say of words as users write them.

ghost use Rattle.std.specs.Prelude.{◌≡◌, ◌∷◌, [], Some, None, true, false, codes};
ghost use Rattle.std.specs.Str.Parse.{digits_value, starts_with_minus};
ghost use Rattle.clap.specs.Takes.{takes};
ghost use Rattle.pfx_program_args.specs.Commands.{pfx_app};
ghost use Rattle.pfx_program_args.specs.Requests.{IsBatch, IsDrawnSlots, IsSlots, IsTask, IsWorkers, asked, check, draw, explain, show, plan, init, migrate, run, status};
ghost use Rattle.pfx_program_args.specs.Requests.{IsWindow, audit, head, replay};

use crate::AuditForm;

/// `pfx plan SET SLOTS`: for any `set` that doesn't begin with a hyphen, and any `slots` of digits that write 0 to
/// 1,048,576, the command takes these words, and they ask for the plan of that many slots.
pub fn plain_plan(program: &str, set: &str, slots: &str)
    requires set { starts_with_minus set.now ≡ false }
    requires slots { IsSlots slots.now }
    ensures taken { takes pfx_app (program.now ∷ codes "plan" ∷ set.now ∷ slots.now ∷ []) ≡ true }
    ensures asked { asked (program.now ∷ codes "plan" ∷ set.now ∷ slots.now ∷ [])
        ≡ Some (plan set.now (digits_value 10 slots.now) None false false) }
{}

/// `pfx init SET FILE`: for any `set` and `file` that don't begin with a hyphen, the command takes these words, and they
/// ask for a new store of that set in that file.
pub fn plain_init(program: &str, set: &str, file: &str)
    requires set { starts_with_minus set.now ≡ false }
    requires file { starts_with_minus file.now ≡ false }
    ensures taken { takes pfx_app (program.now ∷ codes "init" ∷ set.now ∷ file.now ∷ []) ≡ true }
    ensures asked { asked (program.now ∷ codes "init" ∷ set.now ∷ file.now ∷ []) ≡ Some (init set.now file.now None false) }
{}

/// `pfx run FILE SCRIPT`: for any `file` and `script` that don't begin with a hyphen, the command takes these words, and
/// they ask for a run of that script on that file, by no stated number of workers, and with no stated number of slots kept at once.
pub fn plain_run(program: &str, file: &str, script: &str)
    requires file { starts_with_minus file.now ≡ false }
    requires script { starts_with_minus script.now ≡ false }
    ensures taken { takes pfx_app (program.now ∷ codes "run" ∷ file.now ∷ script.now ∷ []) ≡ true }
    ensures asked { asked (program.now ∷ codes "run" ∷ file.now ∷ script.now ∷ [])
        ≡ Some (run file.now script.now None None None None false false) }
{}

/// `pfx run FILE SCRIPT --workers N`: the same words with any `workers` of digits that write 0 to 64 ask for a run by
/// that many workers.
pub fn plain_workers(program: &str, file: &str, script: &str, workers: &str)
    requires file { starts_with_minus file.now ≡ false }
    requires script { starts_with_minus script.now ≡ false }
    requires workers { IsWorkers workers.now }
    ensures taken { takes pfx_app
        (program.now ∷ codes "run" ∷ file.now ∷ script.now ∷ codes "--workers" ∷ workers.now ∷ []) ≡ true }
    ensures asked { asked (program.now ∷ codes "run" ∷ file.now ∷ script.now ∷ codes "--workers" ∷ workers.now ∷ [])
        ≡ Some (run file.now script.now (Some (digits_value 10 workers.now)) None None None false false) }
{}

/// `pfx run FILE SCRIPT --batch N`: the same words with any `batch` of digits that write 1 to 16 ask for a run that keeps so
/// many slots at once at the most.
pub fn plain_batch(program: &str, file: &str, script: &str, batch: &str)
    requires file { starts_with_minus file.now ≡ false }
    requires script { starts_with_minus script.now ≡ false }
    requires batch { IsBatch batch.now }
    ensures taken { takes pfx_app
        (program.now ∷ codes "run" ∷ file.now ∷ script.now ∷ codes "--batch" ∷ batch.now ∷ []) ≡ true }
    ensures asked { asked (program.now ∷ codes "run" ∷ file.now ∷ script.now ∷ codes "--batch" ∷ batch.now ∷ [])
        ≡ Some (run file.now script.now None (Some (digits_value 10 batch.now)) None None false false) }
{}

/// `pfx run FILE SCRIPT --log LOG`: the same words with any `log` that doesn't begin with a hyphen ask for a run beside that log.
pub fn plain_log(program: &str, file: &str, script: &str, log: &str)
    requires file { starts_with_minus file.now ≡ false }
    requires script { starts_with_minus script.now ≡ false }
    requires log { starts_with_minus log.now ≡ false }
    ensures taken { takes pfx_app (program.now ∷ codes "run" ∷ file.now ∷ script.now ∷ codes "--log" ∷ log.now ∷ []) ≡ true }
    ensures asked { asked (program.now ∷ codes "run" ∷ file.now ∷ script.now ∷ codes "--log" ∷ log.now ∷ [])
        ≡ Some (run file.now script.now None None (Some log.now) None false false) }
{}

/// `pfx run FILE SCRIPT --log LOG --after OLD`: the same words with any `old` that doesn't begin with a hyphen ask for a run beside a
/// new log that goes on from the old one.
pub fn plain_after(program: &str, file: &str, script: &str, log: &str, old: &str)
    requires file { starts_with_minus file.now ≡ false }
    requires script { starts_with_minus script.now ≡ false }
    requires log { starts_with_minus log.now ≡ false }
    requires old { starts_with_minus old.now ≡ false }
    ensures taken { takes pfx_app
        (program.now ∷ codes "run" ∷ file.now ∷ script.now ∷ codes "--log" ∷ log.now ∷ codes "--after" ∷ old.now ∷ []) ≡ true }
    ensures asked { asked
        (program.now ∷ codes "run" ∷ file.now ∷ script.now ∷ codes "--log" ∷ log.now ∷ codes "--after" ∷ old.now ∷ [])
        ≡ Some (run file.now script.now None None (Some log.now) (Some old.now) false false) }
{}

/// `pfx status FILE`: for any `file` that doesn't begin with a hyphen, the command takes these words, and they ask for
/// the board of that file.
pub fn plain_status(program: &str, file: &str)
    requires file { starts_with_minus file.now ≡ false }
    ensures taken { takes pfx_app (program.now ∷ codes "status" ∷ file.now ∷ []) ≡ true }
    ensures asked { asked (program.now ∷ codes "status" ∷ file.now ∷ []) ≡ Some (status file.now false) }
{}

/// `pfx plan - SLOTS`: a hyphen alone is taken as a set too, which is standard input.
pub fn standard_plan(program: &str, slots: &str)
    requires slots { IsSlots slots.now }
    ensures taken { takes pfx_app (program.now ∷ codes "plan" ∷ codes "-" ∷ slots.now ∷ []) ≡ true }
    ensures asked { asked (program.now ∷ codes "plan" ∷ codes "-" ∷ slots.now ∷ [])
        ≡ Some (plan (codes "-") (digits_value 10 slots.now) None false false) }
{}

/// `pfx init - FILE`: the same of a new store's set.
pub fn standard_init(program: &str, file: &str)
    requires file { starts_with_minus file.now ≡ false }
    ensures taken { takes pfx_app (program.now ∷ codes "init" ∷ codes "-" ∷ file.now ∷ []) ≡ true }
    ensures asked { asked (program.now ∷ codes "init" ∷ codes "-" ∷ file.now ∷ []) ≡ Some (init (codes "-") file.now None false) }
{}

/// `pfx run FILE -`: a hyphen alone is taken as a script too, which is standard input.
pub fn standard_run(program: &str, file: &str)
    requires file { starts_with_minus file.now ≡ false }
    ensures taken { takes pfx_app (program.now ∷ codes "run" ∷ file.now ∷ codes "-" ∷ []) ≡ true }
    ensures asked { asked (program.now ∷ codes "run" ∷ file.now ∷ codes "-" ∷ [])
        ≡ Some (run file.now (codes "-") None None None None false false) }
{}

/// `pfx replay FILE`: for any `file` that doesn't begin with a hyphen, the command takes these words, and they ask for
/// a replay of that file.
pub fn plain_replay(program: &str, file: &str)
    requires file { starts_with_minus file.now ≡ false }
    ensures taken { takes pfx_app (program.now ∷ codes "replay" ∷ file.now ∷ []) ≡ true }
    ensures asked { asked (program.now ∷ codes "replay" ∷ file.now ∷ []) ≡ Some (replay file.now false) }
{}

/// `pfx show FILE`: for any `file` that doesn't begin with a hyphen, the command takes these words, and they ask for what all
/// jobs of that file have computed.
pub fn plain_show(program: &str, file: &str)
    requires file { starts_with_minus file.now ≡ false }
    ensures taken { takes pfx_app (program.now ∷ codes "show" ∷ file.now ∷ []) ≡ true }
    ensures asked { asked (program.now ∷ codes "show" ∷ file.now ∷ []) ≡ Some (show file.now None false) }
{}

/// `pfx show FILE TASK`: the same words with any `task` of digits that write 0 to 65,535 ask for the job of that task.
pub fn plain_show_task(program: &str, file: &str, task: &str)
    requires file { starts_with_minus file.now ≡ false }
    requires task { IsTask task.now }
    ensures taken { takes pfx_app (program.now ∷ codes "show" ∷ file.now ∷ task.now ∷ []) ≡ true }
    ensures asked { asked (program.now ∷ codes "show" ∷ file.now ∷ task.now ∷ [])
        ≡ Some (show file.now (Some (digits_value 10 task.now)) false) }
{}

/// `pfx draw SET SLOTS`: for any `set` that doesn't begin with a hyphen, and any `slots` of digits that write 1 to 1,440, the
/// command takes these words, and they ask for the picture of that many slots.
pub fn plain_draw(program: &str, set: &str, slots: &str)
    requires set { starts_with_minus set.now ≡ false }
    requires slots { IsDrawnSlots slots.now }
    ensures taken { takes pfx_app (program.now ∷ codes "draw" ∷ set.now ∷ slots.now ∷ []) ≡ true }
    ensures asked { asked (program.now ∷ codes "draw" ∷ set.now ∷ slots.now ∷ [])
        ≡ Some (draw set.now (digits_value 10 slots.now) None) }
{}

/// `pfx draw - SLOTS`: a hyphen alone is taken as a set too, which is standard input.
pub fn standard_draw(program: &str, slots: &str)
    requires slots { IsDrawnSlots slots.now }
    ensures taken { takes pfx_app (program.now ∷ codes "draw" ∷ codes "-" ∷ slots.now ∷ []) ≡ true }
    ensures asked { asked (program.now ∷ codes "draw" ∷ codes "-" ∷ slots.now ∷ [])
        ≡ Some (draw (codes "-") (digits_value 10 slots.now) None) }
{}

/// `pfx check SET`: for any `set` that doesn't begin with a hyphen, the command takes these words, and they ask for what that
/// set asks for.
pub fn plain_check(program: &str, set: &str)
    requires set { starts_with_minus set.now ≡ false }
    ensures taken { takes pfx_app (program.now ∷ codes "check" ∷ set.now ∷ []) ≡ true }
    ensures asked { asked (program.now ∷ codes "check" ∷ set.now ∷ []) ≡ Some (check set.now false) }
{}

/// `pfx check -`: a hyphen alone is taken as a set too, which is standard input.
pub fn standard_check(program: &str)
    ensures taken { takes pfx_app (program.now ∷ codes "check" ∷ codes "-" ∷ []) ≡ true }
    ensures asked { asked (program.now ∷ codes "check" ∷ codes "-" ∷ []) ≡ Some (check (codes "-") false) }
{}

/// `pfx run FILE SCRIPT --strict`: the same words as of `pfx run FILE SCRIPT` with the flag ask for a run that ends after its first
/// refused record.
pub fn plain_strict(program: &str, file: &str, script: &str)
    requires file { starts_with_minus file.now ≡ false }
    requires script { starts_with_minus script.now ≡ false }
    ensures taken { takes pfx_app (program.now ∷ codes "run" ∷ file.now ∷ script.now ∷ codes "--strict" ∷ []) ≡ true }
    ensures asked { asked (program.now ∷ codes "run" ∷ file.now ∷ script.now ∷ codes "--strict" ∷ [])
        ≡ Some (run file.now script.now None None None None true false) }
{}

/// `pfx plan SET SLOTS --json`: the same words as of `pfx plan SET SLOTS` with the flag ask for that plan as JSON.
pub fn plain_json_plan(program: &str, set: &str, slots: &str)
    requires set { starts_with_minus set.now ≡ false }
    requires slots { IsSlots slots.now }
    ensures taken { takes pfx_app (program.now ∷ codes "plan" ∷ set.now ∷ slots.now ∷ codes "--json" ∷ []) ≡ true }
    ensures asked { asked (program.now ∷ codes "plan" ∷ set.now ∷ slots.now ∷ codes "--json" ∷ [])
        ≡ Some (plan set.now (digits_value 10 slots.now) None false true) }
{}

/// `pfx run FILE SCRIPT --json`: the same of a run.
pub fn plain_json_run(program: &str, file: &str, script: &str)
    requires file { starts_with_minus file.now ≡ false }
    requires script { starts_with_minus script.now ≡ false }
    ensures taken { takes pfx_app (program.now ∷ codes "run" ∷ file.now ∷ script.now ∷ codes "--json" ∷ []) ≡ true }
    ensures asked { asked (program.now ∷ codes "run" ∷ file.now ∷ script.now ∷ codes "--json" ∷ [])
        ≡ Some (run file.now script.now None None None None false true) }
{}

/// `pfx status FILE --json`: the same of a board.
pub fn plain_json_status(program: &str, file: &str)
    requires file { starts_with_minus file.now ≡ false }
    ensures taken { takes pfx_app (program.now ∷ codes "status" ∷ file.now ∷ codes "--json" ∷ []) ≡ true }
    ensures asked { asked (program.now ∷ codes "status" ∷ file.now ∷ codes "--json" ∷ []) ≡ Some (status file.now true) }
{}

/// `pfx show FILE --json`: the same of what all jobs have computed.
pub fn plain_json_show(program: &str, file: &str)
    requires file { starts_with_minus file.now ≡ false }
    ensures taken { takes pfx_app (program.now ∷ codes "show" ∷ file.now ∷ codes "--json" ∷ []) ≡ true }
    ensures asked { asked (program.now ∷ codes "show" ∷ file.now ∷ codes "--json" ∷ []) ≡ Some (show file.now None true) }
{}

/// `pfx explain FAULT`: for any word that doesn't begin with a hyphen, the command takes these words, and they ask for what is said
/// of the fault that it names.
pub fn plain_explain(program: &str, fault: &str)
    requires fault { starts_with_minus fault.now ≡ false }
    ensures taken { takes pfx_app (program.now ∷ codes "explain" ∷ fault.now ∷ []) ≡ true }
    ensures asked { asked (program.now ∷ codes "explain" ∷ fault.now ∷ []) ≡ Some (explain fault.now false) }
{}

/// `pfx init SET FILE --json`: the same words as of `pfx init SET FILE` with the flag ask for that store, told as JSON.
pub fn plain_json_init(program: &str, set: &str, file: &str)
    requires set { starts_with_minus set.now ≡ false }
    requires file { starts_with_minus file.now ≡ false }
    ensures taken { takes pfx_app (program.now ∷ codes "init" ∷ set.now ∷ file.now ∷ codes "--json" ∷ []) ≡ true }
    ensures asked { asked (program.now ∷ codes "init" ∷ set.now ∷ file.now ∷ codes "--json" ∷ []) ≡ Some (init set.now file.now None true) }
{}

/// `pfx replay FILE --json`: the same of a replay.
pub fn plain_json_replay(program: &str, file: &str)
    requires file { starts_with_minus file.now ≡ false }
    ensures taken { takes pfx_app (program.now ∷ codes "replay" ∷ file.now ∷ codes "--json" ∷ []) ≡ true }
    ensures asked { asked (program.now ∷ codes "replay" ∷ file.now ∷ codes "--json" ∷ []) ≡ Some (replay file.now true) }
{}

/// `pfx check SET --json`: the same of what a set asks for.
pub fn plain_json_check(program: &str, set: &str)
    requires set { starts_with_minus set.now ≡ false }
    ensures taken { takes pfx_app (program.now ∷ codes "check" ∷ set.now ∷ codes "--json" ∷ []) ≡ true }
    ensures asked { asked (program.now ∷ codes "check" ∷ set.now ∷ codes "--json" ∷ []) ≡ Some (check set.now true) }
{}

/// `pfx explain FAULT --json`: the same of what is said of a fault.
pub fn plain_json_explain(program: &str, fault: &str)
    requires fault { starts_with_minus fault.now ≡ false }
    ensures taken { takes pfx_app (program.now ∷ codes "explain" ∷ fault.now ∷ codes "--json" ∷ []) ≡ true }
    ensures asked { asked (program.now ∷ codes "explain" ∷ fault.now ∷ codes "--json" ∷ []) ≡ Some (explain fault.now true) }
{}

/// `pfx plan SET SLOTS --ledger`: the same words as of `pfx plan SET SLOTS` with the flag ask for that plan and the ledger that it
/// leaves.
pub fn plain_ledger(program: &str, set: &str, slots: &str)
    requires set { starts_with_minus set.now ≡ false }
    requires slots { IsSlots slots.now }
    ensures taken { takes pfx_app (program.now ∷ codes "plan" ∷ set.now ∷ slots.now ∷ codes "--ledger" ∷ []) ≡ true }
    ensures asked { asked (program.now ∷ codes "plan" ∷ set.now ∷ slots.now ∷ codes "--ledger" ∷ [])
        ≡ Some (plan set.now (digits_value 10 slots.now) None true false) }
{}

/// `pfx init SET FILE --at LEDGER`: the same words as of `pfx init SET FILE` with any `at` that doesn't begin with a hyphen ask for a
/// new store that begins from that ledger.
pub fn plain_init_at(program: &str, set: &str, file: &str, at: &str)
    requires set { starts_with_minus set.now ≡ false }
    requires file { starts_with_minus file.now ≡ false }
    requires at { starts_with_minus at.now ≡ false }
    ensures taken { takes pfx_app (program.now ∷ codes "init" ∷ set.now ∷ file.now ∷ codes "--at" ∷ at.now ∷ []) ≡ true }
    ensures asked { asked (program.now ∷ codes "init" ∷ set.now ∷ file.now ∷ codes "--at" ∷ at.now ∷ [])
        ≡ Some (init set.now file.now (Some at.now) false) }
{}

/// `pfx migrate OLD NEW`: for any `old` and `new` that don't begin with a hyphen, the command takes these words, and they ask for
/// a store in the one file of that in the other.
pub fn plain_migrate(program: &str, old: &str, new: &str)
    requires old { starts_with_minus old.now ≡ false }
    requires new { starts_with_minus new.now ≡ false }
    ensures taken { takes pfx_app (program.now ∷ codes "migrate" ∷ old.now ∷ new.now ∷ []) ≡ true }
    ensures asked { asked (program.now ∷ codes "migrate" ∷ old.now ∷ new.now ∷ []) ≡ Some (migrate old.now new.now false) }
{}

/// `pfx migrate OLD NEW --json`: the same words with the flag ask for that store, told as JSON.
pub fn plain_json_migrate(program: &str, old: &str, new: &str)
    requires old { starts_with_minus old.now ≡ false }
    requires new { starts_with_minus new.now ≡ false }
    ensures taken { takes pfx_app (program.now ∷ codes "migrate" ∷ old.now ∷ new.now ∷ codes "--json" ∷ []) ≡ true }
    ensures asked { asked (program.now ∷ codes "migrate" ∷ old.now ∷ new.now ∷ codes "--json" ∷ []) ≡ Some (migrate old.now new.now true) }
{}

/// `pfx audit LOG FILE`: for any `log` and `file` that don't begin with a hyphen, the command takes these words, and they ask for an
/// audit of the log and of the file behind it, in one window, as text.
pub fn plain_audit(program: &str, log: &str, file: &str)
    requires log { starts_with_minus log.now ≡ false }
    requires file { starts_with_minus file.now ≡ false }
    ensures taken { takes pfx_app (program.now ∷ codes "audit" ∷ log.now ∷ file.now ∷ []) ≡ true }
    ensures asked { asked (program.now ∷ codes "audit" ∷ log.now ∷ file.now ∷ [])
        ≡ Some (audit (log.now ∷ file.now ∷ []) None None None None AuditForm.Text) }
{}

/// `pfx audit LOG FILE --every N`: the same words with any `every` of digits that write 1 to 1,048,576 ask for that audit in windows of
/// so many slots.
pub fn plain_every(program: &str, log: &str, file: &str, every: &str)
    requires log { starts_with_minus log.now ≡ false }
    requires file { starts_with_minus file.now ≡ false }
    requires every { IsWindow every.now }
    ensures taken { takes pfx_app (program.now ∷ codes "audit" ∷ log.now ∷ file.now ∷ codes "--every" ∷ every.now ∷ []) ≡ true }
    ensures asked { asked (program.now ∷ codes "audit" ∷ log.now ∷ file.now ∷ codes "--every" ∷ every.now ∷ [])
        ≡ Some (audit (log.now ∷ file.now ∷ []) (Some (digits_value 10 every.now)) None None None AuditForm.Text) }
{}

/// `pfx head LOG`: for any `log` that doesn't begin with a hyphen, the command takes these words, and they ask for the last head of that
/// log.
pub fn plain_head(program: &str, log: &str)
    requires log { starts_with_minus log.now ≡ false }
    ensures taken { takes pfx_app (program.now ∷ codes "head" ∷ log.now ∷ []) ≡ true }
    ensures asked { asked (program.now ∷ codes "head" ∷ log.now ∷ []) ≡ Some (head log.now false) }
{}

/// `pfx head LOG --json`: the same words with the flag ask for that head as JSON.
pub fn plain_json_head(program: &str, log: &str)
    requires log { starts_with_minus log.now ≡ false }
    ensures taken { takes pfx_app (program.now ∷ codes "head" ∷ log.now ∷ codes "--json" ∷ []) ≡ true }
    ensures asked { asked (program.now ∷ codes "head" ∷ log.now ∷ codes "--json" ∷ []) ≡ Some (head log.now true) }
{}
