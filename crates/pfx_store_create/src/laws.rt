//! What holds of codecs, as the contract of a function that does nothing.
ghost use Rattle.std.specs.Prelude.{◌∷◌, []};
ghost use Rattle.pfx_disk.specs.declared.gates.TheConstants.{GATE_OPEN};
ghost use Rattle.pfx_store_create.specs.Attempts.{IsMadeOf, RefusesUnmade};
ghost use Rattle.pfx_store_create.specs.GatedToy.{gated_toy};

use pfx_store_image::laws::toy_keeps_the_laws;

/// What `create` rests on can be met: there is a codec that refuses what is no store's file yet, with a header of two bytes,
/// a checkpoint area's body of two and the number 1 that are parts of a new file with segments of 42.
pub fn a_new_file_can_be_made()
    ensures refuses { RefusesUnmade gated_toy }
    ensures made { IsMadeOf gated_toy 32 (0 ∷ 0 ∷ []) (GATE_OPEN ∷ 32 ∷ []) (0 ∷ 0 ∷ []) (1 ∷ 0 ∷ 0 ∷ 0 ∷ 0 ∷ 0 ∷ 0 ∷ 0 ∷ []) 42 }
{
    toy_keeps_the_laws();
}
