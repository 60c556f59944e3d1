// Totals as objects of JSON.
ghost use Rattle.std.specs.Prelude.{◌≡◌, false, IfOk};
ghost use Rattle.serde_json.specs.View.{view};
ghost use Rattle.serde_json.specs.Written.{has_float};
ghost use Rattle.pfx_replay_totals.specs.Figures.{figures};
ghost use Rattle.pfx_replay_totals.specs.Lines.{figures_object, lags_object, slots_object, window_object};

use crate::total::Total;
use serde_json::{Value, json};
use std::alloc::{AllocError, Global};

fn window_object(alloc: Global, total: &Total) -> Result<Value, AllocError>
    ensures object { IfOk result (λ v. view v ≡ window_object (figures total.now)) }
    ensures whole { IfOk result (λ v. has_float (view v) ≡ false) }
{
    json!(in alloc; {"from": total.from, "to": total.to})
}

fn slots_object(alloc: Global, total: &Total) -> Result<Value, AllocError>
    ensures object { IfOk result (λ v. view v ≡ slots_object (figures total.now)) }
    ensures whole { IfOk result (λ v. has_float (view v) ≡ false) }
{
    let due = total.due();
    json!(in alloc; {"due": due, "got": total.got, "used": total.used, "wasted": total.wasted})
}

fn lags_object(alloc: Global, total: &Total) -> Result<Value, AllocError>
    ensures object { IfOk result (λ v. view v ≡ lags_object (figures total.now)) }
    ensures whole { IfOk result (λ v. has_float (view v) ≡ false) }
{
    json!(in alloc; {"end": total.lag_end, "greatest": total.lag_greatest, "least": total.lag_least})
}

/// A task's totals of a window as an object of JSON, whose due and lags are numbers of parts of the period:
/// `{"lag":{"end":0,"greatest":2,"least":-1},"period":3,"slots":{"due":720,"got":240,"used":200,"wasted":40},"task":0,
/// "window":..}`, and the window is `{"from":0,"to":720}`. An error comes only if an allocation failed.
pub fn total_object(alloc: Global, total: &Total) -> Result<Value, AllocError>
    ensures object { IfOk result (λ v. view v ≡ figures_object (figures total.now)) }
    ensures whole { IfOk result (λ v. has_float (view v) ≡ false) }
{
    let lags = lags_object(alloc, total)?;
    let slots = slots_object(alloc, total)?;
    let window = window_object(alloc, total)?;
    json!(in alloc; {"lag": lags, "period": total.p, "slots": slots, "task": total.task, "window": window})
}
