// A new file as a store's.
ghost use Rattle.std.specs.Prelude.{◌≡◌, ◌+◌, ◌-◌, ℕ, List, length, false, IfOk, IfErr, MatchResult};
ghost use Rattle.pfx_disk.specs.Disk.{IsHonest};
ghost use Rattle.pfx_store_image.specs.Codec.{Codec};
ghost use Rattle.pfx_store_image.specs.NewFile.{new_parts};
ghost use Rattle.pfx_store_file.specs.Holding.{Holds};
ghost use Rattle.pfx_store_file.specs.Tending.{pieces};
ghost use Rattle.pfx_store_create.specs.Attempts.{Attempts, IsCall, IsMade, IsMadeOf, IsNoneOrMade, RefusesUnmade, WasNotEmpty};
ghost use Rattle.pfx_store_create.specs.Creating.{CanBeMade, len_of};
ghost use Rattle.pfx_store_create.specs.NewPlaces.{AreNew};

use crate::creation::create;
use crate::fault::CreateFault;
use pfx_disk::Disk;
use pfx_store_file::{Checkpoint, Places, Sizes, StoreFile};
use pfx_store_image::SEGMENT_HEAD;

/// The places of a new file whose parts are so long.
pub fn new_places(sizes: Sizes) -> Places
    ensures { AreNew sizes.head sizes.body sizes.segment result }
{
    let first = sizes.segment_at(false);
    Places {
        sizes,
        area: false,
        segment: false,
        checkpoint: Checkpoint::Ended,
        gate: first + SEGMENT_HEAD,
        end: first + sizes.segment,
        area_open: false,
        segment_open: false,
    }
}

/// Makes a new file on an empty disk, as `create` does, and gives it as a store's: no frame, and no checkpoint in progress.
/// A refusal gives the disk back.
pub fn create_file<D: Disk, H, S>(
    disk: D,
    head: &[u8],
    body: &[u8],
    first: &[u8],
    segment: usize,
) -> Result<StoreFile<D>, (CreateFault, D)>
    requires { CanBeMade head.now body.now first.now segment }
    ensures call { let calls = 6 + pieces (len_of head.now body.now segment - 1) in MatchResult result
        (λ file. IsCall calls ⊥ (D.view disk) (D.view file.disk) result)
        (λ e. IsCall calls (e.0 ≡ CreateFault.Device) (D.view disk) (D.view e.1) result) }
    ensures not_empty { IfErr result (λ e. e.0 ≡ CreateFault.NotEmpty → WasNotEmpty (D.view disk) (D.view e.1)) }

    // The new file, whole and durable, and its store.
    ensures made { IsHonest (D.view disk) → IfOk result (λ file. IsMade head.now body.now first.now segment (D.view disk) (D.view file.disk)) }
    ensures places { IfOk result (λ file. (file.broken ≡ false) × AreNew (length head.now) (length body.now) segment file.places) }
    ensures holds { (K : Codec H S) → (h : H) → (s : S) → IsMadeOf K h s head.now body.now first.now segment
        → IsHonest (D.view disk) → IfOk result (λ file. (spelling : List ℕ)
        → Holds K h file.places (new_parts s) s spelling (D.view file.disk)) }

    // At every moment of the call, whatever it answers.
    ensures attempts { MatchResult result
        (λ file. Attempts head.now body.now first.now segment (D.view disk) (D.view file.disk))
        (λ e. Attempts head.now body.now first.now segment (D.view disk) (D.view e.1)) }
    ensures recovers { (K : Codec H S) → (h : H) → (s : S) → IsMadeOf K h s head.now body.now first.now segment
        → RefusesUnmade K → IsHonest (D.view disk) → MatchResult result
        (λ file. IsNoneOrMade K s (D.view disk) (D.view file.disk))
        (λ e. IsNoneOrMade K s (D.view disk) (D.view e.1)) }
{
    let mut disk = disk;
    match create::<D, H, S>(&mut disk, head, body, first, segment) {
        Ok(()) => {
            let sizes = Sizes {
                head: head.len(),
                body: body.len(),
                segment,
            };
            let places = new_places(sizes);
            Ok(StoreFile::new::<H, S>(disk, places))
        }
        Err(fault) => Err((fault, disk)),
    }
}
