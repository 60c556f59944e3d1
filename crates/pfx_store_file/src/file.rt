// A store's file: its disk and its places.
ghost use Rattle.std.specs.Prelude.{◌≡◌, ◌≤◌, ℕ, List, length, not, Ok, false};
ghost use Rattle.pfx_disk.specs.Disk.{IsHonest, Only};
ghost use Rattle.pfx_store_image.specs.Codec.{Codec, Laws};
ghost use Rattle.pfx_store_image.specs.Layout.{area_at, segment_at};
ghost use Rattle.pfx_store_image.specs.Recovery.{found, found_of};
ghost use Rattle.pfx_store_image.specs.Store.{Parts};
ghost use Rattle.pfx_store_file.specs.Checkpoints.{is_begun};
ghost use Rattle.pfx_store_file.specs.Holding.{ArePlaces, Holds, IsGate};
ghost use Rattle.pfx_store_file.specs.Sizes.{total_len};

use crate::places::Places;
use pfx_disk::Disk;

/// A store's file on its disk: where its parts lie, and whether the disk has failed.
#[derive(Drop)]
pub struct StoreFile<D: Disk> {
    /// The disk.
    pub disk: D,
    /// Where the file's parts lie, and how its gates stand.
    pub places: Places,
    /// Whether a call of the disk has failed: then nothing is known of the gates, and no call is made any more.
    pub broken: bool,
    ghost inside: { IsHonest (D.view disk) → total_len places.sizes ≤ length (D.view disk).contents },
}

impl<D: Disk> StoreFile<D> {
    /// A store's file with these places on this disk.
    pub fn new<H, S>(disk: D, places: Places) -> StoreFile<D>
        requires inside { IsHonest (D.view disk) → total_len places.sizes ≤ length (D.view disk).contents }
        ensures disk { result.disk ≡ disk }
        ensures places { result.places ≡ places }
        ensures whole { result.broken ≡ false }

        // If the disk's bytes are durable and found to be a store's, and the places are those of its parts, with the
        // gates of the checkpoint area and the segment that aren't in use as they stand, the store holds.
        ensures holds { (K : Codec H S) → Laws K → (h : H) → (p : Parts S) → (s : S)
            → IsHonest (D.view disk) → Only (D.view disk).contents (D.view disk)
            → found K (D.view disk).contents ≡ Ok (found_of h p s)
            → ArePlaces K h p places → is_begun places.checkpoint ≡ false
            → IsGate places.area_open (area_at (K.layout h) (not p.area)) (D.view disk).contents
            → IsGate places.segment_open (segment_at (K.layout h) (not p.segment)) (D.view disk).contents
            → (spelling : List ℕ) → Holds K h result.places p s spelling (D.view result.disk) }
    {
        StoreFile {
            disk,
            places,
            broken: false,
        }
    }

    /// The disk.
    pub fn into_disk(self) -> D
        ensures { result ≡ self.disk }
    {
        self.disk
    }
}
