//! Scripts that show what jobs have computed.

use crate::scripts::{prints_as, thirds};
use pfx_fault::Fault;
use pfx_program::OutputForm;
use std::alloc::Global;

/// The jobs of two tasks, before they are given, all at once and one by one, and those of tasks that have none.
const SHOW: &str = "show,,,,
submit,0,count,100,10
submit,1,rule,3,110:00000001
slot,,,3,
show,,,,
show,0,,,
show,2,,,
show,9,,,
show,00001,,,
withdraw,0,,,
show,,,,
show,0,,,
";

const SHOWN: &str = "1 submitted 0
2 submitted 1
3 ran 0: 0 1
4 ran 1: 0 2
5 ran 2: 1 2
0 count left=98 value=12
1 rule left=1 rule=110 cells=00000111
0 count left=98 value=12
refused 33 NoJob task=2
refused 31 NoSuchTask task=9
1 rule left=1 rule=110 cells=00000111
6 withdrawn 0
1 rule left=1 rule=110 cells=00000111
refused 33 NoJob task=0
closed 6
";

const OBJECTS: &str = "{\"did\":\"submitted\",\"number\":1,\"task\":0}
{\"did\":\"submitted\",\"number\":2,\"task\":1}
{\"did\":\"ran\",\"number\":3,\"slot\":0,\"tasks\":[0,1]}
{\"did\":\"ran\",\"number\":4,\"slot\":1,\"tasks\":[0,2]}
{\"did\":\"ran\",\"number\":5,\"slot\":2,\"tasks\":[1,2]}
{\"job\":\"count\",\"left\":98,\"task\":0,\"value\":12}
{\"cells\":\"00000111\",\"job\":\"rule\",\"left\":1,\"rule\":110,\"task\":1}
{\"job\":\"count\",\"left\":98,\"task\":0,\"value\":12}
{\"refused\":{\"fields\":{\"task\":2},\"name\":\"NoJob\",\"number\":33}}
{\"refused\":{\"fields\":{\"task\":9},\"name\":\"NoSuchTask\",\"number\":31}}
{\"cells\":\"00000111\",\"job\":\"rule\",\"left\":1,\"rule\":110,\"task\":1}
{\"did\":\"withdrawn\",\"number\":6,\"task\":0}
{\"cells\":\"00000111\",\"job\":\"rule\",\"left\":1,\"rule\":110,\"task\":1}
{\"refused\":{\"fields\":{\"task\":0},\"name\":\"NoJob\",\"number\":33}}
{\"closed\":6}
";

/// Whether a script over three tasks prints just this and ends so.
fn prints(
    alloc: Global,
    form: OutputForm,
    script: &str,
    want: &str,
    end: Result<(), Fault>,
) -> bool {
    match thirds(alloc) {
        Some(mut state) => prints_as(alloc, form, &mut state, script, want, end),
        None => false,
    }
}

#[test]
fn a_script_shows_jobs(rt: HostRuntime) {
    assert!(rt;
        prints(rt.alloc(), OutputForm::Text, SHOW, SHOWN, Ok(())),
        "text"
    );
    assert!(rt;
        prints(rt.alloc(), OutputForm::Json, SHOW, OBJECTS, Ok(())),
        "objects"
    );
}

/// Whether a script ends at this record, its second one.
fn ends_at(alloc: Global, record: &str) -> bool {
    let end = Err(Fault::BadScript { at: 2 });
    match format!(in alloc; "slot,,,,\n{record}\nslot,,,,\n") {
        Ok(script) => prints(
            alloc,
            OutputForm::Text,
            script.as_str(),
            "1 ran 0: 0 1\n",
            end,
        ),
        Err(_) => false,
    }
}

#[test]
fn a_field_that_isnt_used_ends_the_run(rt: HostRuntime) {
    for record in ["show,0,,1,", "show,,count,,", "show,x,,,", "show,,,"] {
        assert!(rt; ends_at(rt.alloc(), record), "{record}");
    }
}
