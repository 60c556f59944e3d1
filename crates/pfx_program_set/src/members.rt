//! Look-ups in a table of the file.

ghost use Rattle.std.specs.Prelude.{◌≡◌, Some, None, IfOk, IfErr, IsErrOf, codes, option_map, string_bytes};
ghost use Rattle.std.specs.List.{list_all};
ghost use Rattle.toml.specs.Data.{get_member};
ghost use Rattle.toml.specs.View.{view, table_view};
ghost use Rattle.pfx_program_set.specs.Reading.{IsOfText};
ghost use Rattle.pfx_program_set.specs.SetFile.{number_of, number_at, segment_in, is_name_byte, is_name, name_in};

use pfx_fault::Fault;
use std::alloc::Global;
use toml::{Table, Value};

pub(crate) fn find<'a>(table: &'a Table, key: &str) -> Option<&'a Value>
    ensures { option_map (λ v. view v.now) result ≡ get_member key.now (table_view table.now) }
{
    table.get(key)
}

fn number(value: i64) -> u32
    ensures { result ≡ number_of value }
{
    if value >= 0 && value < 4_294_967_296 {
        value as u32
    } else {
        0
    }
}

pub(crate) fn number_under(table: &Table, key: &str) -> Option<u32>
    ensures { result ≡ number_at key.now (table_view table.now) }
{
    match find(table, key) {
        Some(value) => match value.as_integer() {
            Some(n) => Some(number(n)),
            None => None,
        },
        None => None,
    }
}

pub(crate) fn segment_under(table: &Table) -> Option<u32>
    ensures { result ≡ segment_in (table_view table.now) }
{
    match find(table, "segment") {
        Some(value) => match value.as_integer() {
            Some(n) => Some(number(n)),
            None => None,
        },
        None => Some(1_048_576),
    }
}

fn is_in_names(b: u8) -> bool
    ensures { result ≡ is_name_byte b }
{
    b.is_ascii_alphanumeric() || b == b'_' || b == b'-'
}

fn are_in_names(bytes: &[u8]) -> bool
    ensures { result ≡ list_all is_name_byte bytes.now }
{
    bytes.iter().all(|b| is_in_names(*b))
}

/// Whether a text is a name as tasks have them: 1 to 32 letters, digits, underscores and hyphens, all of them ASCII.
pub fn is_name(name: &str) -> bool
    ensures { result ≡ is_name name.now }
{
    if name.is_empty() || name.len() > 32 {
        return false;
    }
    are_in_names(name.as_bytes())
}

pub(crate) fn name_under(alloc: Global, table: &Table) -> Result<String, Fault>
    ensures ok { IfOk result (λ name. name_in (table_view table.now) ≡ Some (string_bytes name)) }
    ensures bad { IsErrOf result Fault.BadSet → name_in (table_view table.now) ≡ None }
    ensures faults { IfErr result IsOfText }
{
    let Some(value) = find(table, "name") else {
        return Err(Fault::BadSet);
    };
    let Some(name) = value.as_str() else {
        return Err(Fault::BadSet);
    };
    if !is_name(name) {
        return Err(Fault::BadSet);
    }
    match String::from_str(alloc, name) {
        Ok(name) => Ok(name),
        Err(_) => Err(Fault::NoMemory),
    }
}
