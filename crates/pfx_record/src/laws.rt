//! Laws of spellings, each the contract of a function.
ghost use Rattle.std.specs.Prelude.{◌≡◌, ◌++◌, [], ℕ, List, IsTrue};
ghost use Rattle.pfx_record.specs.Batches.{PlainBatch, batch_bytes, batch_fits};

use pfx_jobs::job::Job;

/// A batch has one spelling, no two batches have the same, and none begins with that of another.
pub fn one_spelling<J: Job>()
    ensures { (workers real : ℕ) (batch other : PlainBatch J) (more : List ℕ)
        → IsTrue (batch_fits workers real batch) → IsTrue (batch_fits workers real other)
        → batch_bytes J.kind other ≡ batch_bytes J.kind batch ++ more → (other ≡ batch) × (more ≡ []) }
{}
