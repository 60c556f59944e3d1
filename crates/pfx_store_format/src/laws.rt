//! What holds of the format, each the contract of a function without a body.
ghost use Rattle.std.specs.Prelude.{◌≡◌, ◌↔◌, ℕ, List, IsTrue, Some};
ghost use Rattle.pfx_record.specs.Batches.{PlainBatch, batch_bytes, batch_fits};
ghost use Rattle.pfx_store_image.specs.Codec.{Laws};
ghost use Rattle.pfx_store_format.specs.Batches.{batch_in};
ghost use Rattle.pfx_store_format.specs.Format.{format};

use pfx_jobs::job::Job;

/// The batch that is found in bytes is the one that they spell.
pub fn batches_are_read_as_they_are_written<J: Job>()
    ensures { (workers real : ℕ) (bytes : List ℕ) (batch : PlainBatch J)
        → (batch_in J.kind workers real bytes ≡ Some batch) ↔ (IsTrue (batch_fits workers real batch) × (bytes ≡ batch_bytes J.kind batch)) }
{}

/// The format keeps what recovery asks of a codec.
pub fn format_keeps_the_laws<J: Job>()
    ensures { Laws (format J.kind) }
{}
