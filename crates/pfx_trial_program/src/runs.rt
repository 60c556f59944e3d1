//! How the tests run scripts.
use pfx_program::{AtRefusal, OutputForm, Run};

/// A run whose calls have so many slots of a record, 1 or more, and as many records, 16 at the most.
pub fn run_of(size: u32, at_refusal: AtRefusal, form: OutputForm) -> Run {
    Run {
        batch: size.max(1),
        group: size.min(16),
        at_refusal,
        form,
    }
}

/// A run that keeps each slot and each record by itself, and goes on at a refusal.
pub fn one_by_one(form: OutputForm) -> Run {
    run_of(0, AtRefusal::GoOn, form)
}
