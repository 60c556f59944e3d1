//! What holds of the format, each the contract of a function without a body.
ghost use Rattle.std.specs.Prelude.{◌≡◌, ℕ, List, Some};
ghost use Rattle.pfx_store_format.specs.Frames.{state_after};
ghost use Rattle.pfx_machine.specs.Plain.{Plain};
ghost use Rattle.pfx_store_image.specs.Codec.{Laws};
ghost use Rattle.pfx_store_version_one.specs.Format.{format_1, state_after_1};

use pfx_jobs::job::Job;

/// The format keeps what recovery asks of a codec.
pub fn format_keeps_the_laws<J: Job>()
    ensures { Laws (format_1 J.kind) }
{}

/// Where a frame leads, the same frame leads in version 2.
pub fn frames_lead_there_still<J: Job>()
    ensures { (s t : Plain J) (frame : List ℕ) → state_after_1 J.kind s frame ≡ Some t → state_after J.kind s frame ≡ Some t }
{}
