//! From the bytes of a file to the set that they are.

ghost use Rattle.std.specs.Prelude.{◌≡◌, Some, None, IfOk, IfErr, IsErrOf, not, map, codes, string_bytes};
ghost use Rattle.std.specs.List.{list_all};
ghost use Rattle.std.specs.Str.{bytes_eq};
ghost use Rattle.toml.specs.Data.{get_member};
ghost use Rattle.toml.specs.View.{view, table_view, items_view};
ghost use Rattle.pfx_program_set.specs.Reading.{IsOfText, ReadFails};
ghost use Rattle.pfx_program_set.specs.SetFile.{task_of, tasks_of, are_distinct, tasks_in, set_of_bytes};
ghost use Rattle.pfx_program_set.specs.Views.{task_view, set_view};

use crate::members::{find, name_under, number_under, segment_under};
use crate::{NamedTask, SetText};
use pfx_fault::Fault;
use std::alloc::Global;
use toml::{Table, Value};

fn task(alloc: Global, value: &Value) -> Result<NamedTask, Fault>
    ensures ok { IfOk result (λ t. task_of (view value.now) ≡ Some (task_view t)) }
    ensures bad { IsErrOf result Fault.BadSet → task_of (view value.now) ≡ None }
    ensures faults { IfErr result IsOfText }
{
    let Some(table) = value.as_table() else {
        return Err(Fault::BadSet);
    };
    let Some(e) = number_under(table, "e") else {
        return Err(Fault::BadSet);
    };
    let Some(p) = number_under(table, "p") else {
        return Err(Fault::BadSet);
    };
    let name = name_under(alloc, table)?;
    Ok(NamedTask { name, e, p })
}

fn tasks(alloc: Global, items: &[Value]) -> Result<Vec<NamedTask>, Fault>
    ensures ok { IfOk result (λ ts. tasks_of (items_view items.now) ≡ Some (map task_view ts.items)) }
    ensures bad { IsErrOf result Fault.BadSet → tasks_of (items_view items.now) ≡ None }
    ensures faults { IfErr result IsOfText }
{
    let mut tasks = Vec::new(alloc);
    for item in items {
        let task = task(alloc, item)?;
        if tasks.push(task).is_err() {
            return Err(Fault::NoMemory);
        }
    }
    Ok(tasks)
}

fn has_other_name(task: &NamedTask, name: &str) -> bool
    ensures { result ≡ not (bytes_eq name.now (string_bytes task.now.name)) }
{
    name != task.name.as_str()
}

fn is_unused(name: &str, tasks: &[NamedTask]) -> bool
    ensures { result ≡ list_all (λ t. not (bytes_eq name.now (string_bytes t.name))) tasks.now }
{
    tasks.iter().all(|task| has_other_name(task, name))
}

fn have_own_names(tasks: &[NamedTask]) -> bool
    ensures { result ≡ are_distinct (map task_view tasks.now) }
{
    for i in 0..tasks.len() {
        if !is_unused(tasks[i].name.as_str(), &tasks[i + 1..]) {
            return false;
        }
    }
    true
}

fn tasks_under(alloc: Global, table: &Table) -> Result<Vec<NamedTask>, Fault>
    ensures ok { IfOk result (λ ts. tasks_in (table_view table.now) ≡ Some (map task_view ts.items)) }
    ensures bad { IsErrOf result Fault.BadSet → tasks_in (table_view table.now) ≡ None }
    ensures faults { IfErr result IsOfText }
{
    let Some(value) = find(table, "task") else {
        return Ok(Vec::new(alloc));
    };
    let Some(items) = value.as_array() else {
        return Err(Fault::BadSet);
    };
    let tasks = tasks(alloc, items.as_slice())?;
    if !have_own_names(tasks.as_slice()) {
        return Err(Fault::BadSet);
    }
    Ok(tasks)
}

/// The set that a file's bytes are.
///
/// `BadSet` comes exactly if they are none: bytes that aren't UTF-8, text that isn't TOML (an
/// integer that needs more than 64 bits, signed, is none either), no integer `workers`, a `segment`
/// that isn't an integer, a `task` that isn't an array of tables, a task without its `name`, `e`
/// and `p`, a name that isn't 1 to 32 ASCII letters, digits, `_` or `-`, and a name that stands
/// twice. A missing `segment` is 1,048,576, a missing `task` an empty list, an integer outside 0 to
/// 4,294,967,295 counts as 0, and other keys and a byte order mark at the front are passed over.
pub fn read_set(alloc: Global, bytes: &[u8]) -> Result<SetText, Fault>
    ensures ok { IfOk result (λ s. set_of_bytes bytes.now ≡ Some (set_view s)) }
    ensures err { IfErr result (ReadFails bytes.now) }
{
    let table = match toml::table_from_slice(alloc, bytes) {
        Ok(table) => table,
        Err(e) if e.is_memory() => return Err(Fault::NoMemory),
        Err(_) => return Err(Fault::BadSet),
    };
    let Some(workers) = number_under(&table, "workers") else {
        return Err(Fault::BadSet);
    };
    let Some(segment) = segment_under(&table) else {
        return Err(Fault::BadSet);
    };
    let tasks = tasks_under(alloc, &table)?;
    Ok(SetText {
        workers,
        segment,
        tasks,
    })
}
