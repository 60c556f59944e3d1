//! What is printed of a set.

ghost use Rattle.std.specs.Prelude.{codes, ◌≡◌, ◌<◌, ◌++◌, OnOk, IfOk};
ghost use Rattle.std.specs.Fmt.{decimal};
ghost use Rattle.pfx_store_image.specs.Layout.{file_len};
ghost use Rattle.pfx_weights.specs.Sets.{Accepts};
ghost use Rattle.pfx_store_header.specs.Headers.{IsSegmentSize};
ghost use Rattle.pfx_store_format.specs.Format.{layout};
ghost use Rattle.serde_json.specs.View.{view};
ghost use Rattle.serde_json.specs.Written.{has_float};
ghost use Rattle.pfx_program_check.specs.Text.{line, fraction, tasks_text, store_text, check_object, check_text};
ghost use Rattle.pfx_program_check.specs.Checks.{IsDivisor, IsText};

use crate::load::{demand, greatest_common_divisor};
use pfx_checkpoint::whole_len;
use pfx_program::{OutputForm, object_line};
use pfx_store_header::{header_len, least_segment};
use pfx_weights::TaskSet;
use serde_json::{Value, json};
use std::alloc::{AllocError, Global};

fn put_number(alloc: Global, text: &mut Vec<u8>, n: u64) -> Result<(), AllocError>
    ensures { OnOk result (text.new.items ≡ text.old.items ++ decimal n) }
{
    let digits = n.to_string(alloc)?;
    text.extend_from_slice(digits.as_bytes())
}

fn put_words(text: &mut Vec<u8>, words: &str) -> Result<(), AllocError>
    ensures { OnOk result (text.new.items ≡ text.old.items ++ words.now) }
{
    text.extend_from_slice(words.as_bytes())
}

fn put_line(alloc: Global, text: &mut Vec<u8>, word: &str, n: u64) -> Result<(), AllocError>
    ensures { OnOk result (text.new.items ≡ text.old.items ++ line word.now (decimal n)) }
{
    put_words(text, word)?;
    put_words(text, " ")?;
    put_number(alloc, text, n)?;
    put_words(text, "\n")
}

fn put_fraction(
    alloc: Global,
    text: &mut Vec<u8>,
    above: u64,
    below: u64,
    by: u64,
) -> Result<(), AllocError>
    requires { 0 < by }
    ensures { OnOk result (text.new.items ≡ text.old.items ++ fraction above below by) }
{
    put_number(alloc, text, above / by)?;
    put_words(text, "/")?;
    put_number(alloc, text, below / by)
}

fn put_load(
    alloc: Global,
    text: &mut Vec<u8>,
    above: u64,
    below: u64,
    by: u64,
) -> Result<(), AllocError>
    requires { 0 < by }
    ensures { OnOk result (text.new.items ≡ text.old.items ++ line (codes "load") (fraction above below by)) }
{
    put_words(text, "load ")?;
    put_fraction(alloc, text, above, below, by)?;
    put_words(text, "\n")
}

// The number by which a load is divided.
fn divisor(tasks: &[(u32, u32)], set: &TaskSet) -> u64
    requires { Accepts set.now.workers tasks.now set.now }
    ensures is { IsDivisor tasks.now set.now result }
    ensures positive { 0 < result }
{
    greatest_common_divisor(u64::from(set.hyper()), demand(tasks, set.hyper()))
}

fn put_tasks(
    alloc: Global,
    text: &mut Vec<u8>,
    tasks: &[(u32, u32)],
    set: &TaskSet,
    by: u64,
) -> Result<(), AllocError>
    requires accepted { Accepts set.now.workers tasks.now set.now }
    requires positive { 0 < by }
    ensures { OnOk result (text.new.items ≡ text.old.items ++ tasks_text tasks.now set.now by) }
{
    let idle = set.total() - set.real();
    let hyper = u64::from(set.hyper());
    let above = demand(tasks, set.hyper());
    put_line(alloc, text, "workers", u64::from(set.workers()))?;
    put_line(alloc, text, "tasks", set.real() as u64)?;
    put_line(alloc, text, "idle", idle as u64)?;
    put_line(alloc, text, "hyper", hyper)?;
    put_load(alloc, text, above, hyper, by)
}

/// How many bytes the file of a store of the set has.
pub fn store_len(set: &TaskSet, segment: u32) -> u64
    requires { IsSegmentSize set.now.workers segment }
    ensures { result ≡ file_len (layout (record { set = set.now; segment = segment })) }
{
    let _total = set.total();
    (header_len(set) + 2 * (1 + whole_len(set.real())) + 2 * segment as usize) as u64
}

fn put_store(
    alloc: Global,
    text: &mut Vec<u8>,
    set: &TaskSet,
    segment: u32,
) -> Result<(), AllocError>
    requires { IsSegmentSize set.now.workers segment }
    ensures { OnOk result (text.new.items ≡ text.old.items ++ store_text (record { set = set.now; segment = segment })) }
{
    put_line(alloc, text, "segment", u64::from(segment))?;
    put_line(alloc, text, "least", u64::from(least_segment(set)))?;
    put_line(alloc, text, "size", store_len(set, segment))
}

fn check_object(
    alloc: Global,
    tasks: &[(u32, u32)],
    set: &TaskSet,
    segment: u32,
    by: u64,
) -> Result<Value, AllocError>
    requires accepted { Accepts set.now.workers tasks.now set.now }
    requires segment { IsSegmentSize set.now.workers segment }
    requires positive { 0 < by }
    ensures { IfOk result (λ v. view v ≡ check_object tasks.now (record { set = set.now; segment = segment }) by) }
{
    let idle_ones = set.total() - set.real();
    let above = demand(tasks, set.hyper()) / by;
    let below = u64::from(set.hyper()) / by;
    json!(in alloc; {
        "workers": set.workers(),
        "tasks": set.real(),
        "idle": idle_ones,
        "hyper": set.hyper(),
        "load": [above, below],
        "segment": segment,
        "least": least_segment(set),
        "size": store_len(set, segment)
    })
}

fn object_text(
    alloc: Global,
    tasks: &[(u32, u32)],
    set: &TaskSet,
    segment: u32,
    by: u64,
) -> Result<Vec<u8>, AllocError>
    requires accepted { Accepts set.now.workers tasks.now set.now }
    requires segment { IsSegmentSize set.now.workers segment }
    requires positive { 0 < by }
    ensures { IfOk result (λ text. text.items ≡ check_text OutputForm.Json tasks.now (record { set = set.now; segment = segment }) by) }
{
    let object = check_object(alloc, tasks, set, segment, by)?;
    let line = object_line(alloc, &object)?;
    let mut text = Vec::new(alloc);
    put_words(&mut text, line.as_str())?;
    Ok(text)
}

fn lines_text(
    alloc: Global,
    tasks: &[(u32, u32)],
    set: &TaskSet,
    segment: u32,
    by: u64,
) -> Result<Vec<u8>, AllocError>
    requires accepted { Accepts set.now.workers tasks.now set.now }
    requires segment { IsSegmentSize set.now.workers segment }
    requires positive { 0 < by }
    ensures { IfOk result (λ text. text.items ≡ check_text OutputForm.Text tasks.now (record { set = set.now; segment = segment }) by) }
{
    let mut text = Vec::new(alloc);
    put_tasks(alloc, &mut text, tasks, set, by)?;
    put_store(alloc, &mut text, set, segment)?;
    Ok(text)
}

/// What is printed of the set of these tasks, whose store has a segment of so many bytes.
pub(crate) fn check_text(
    alloc: Global,
    form: OutputForm,
    tasks: &[(u32, u32)],
    set: &TaskSet,
    segment: u32,
) -> Result<Vec<u8>, AllocError>
    requires accepted { Accepts set.now.workers tasks.now set.now }
    requires segment { IsSegmentSize set.now.workers segment }
    ensures { IfOk result (λ text. IsText form tasks.now (record { set = set.now; segment = segment }) text.items) }
{
    let by = divisor(tasks, set);
    match form {
        OutputForm::Text => lines_text(alloc, tasks, set, segment, by),
        OutputForm::Json => object_text(alloc, tasks, set, segment, by),
    }
}
