//! What holds of all stores, each the contract of a function that does nothing.
ghost use Rattle.std.specs.Prelude.{◌≡◌, ◌≤◌, List, ℕ, Ok};
ghost use Rattle.pfx_store_image.specs.Codec.{Codec, Laws};
ghost use Rattle.pfx_store_image.specs.Recovery.{recovered};
ghost use Rattle.pfx_store_image.specs.Store.{Parts};
ghost use Rattle.pfx_store_file.specs.Holding.{Holds, KeepsAll};

use crate::file::StoreFile;
use pfx_disk::Disk;

/// Each image that the disk of a store may leave now is recovered to the store's state.
pub fn store_is_recovered<D: Disk, H, S>(file: &StoreFile<D>)
    ensures { (K : Codec H S) → Laws K → (h : H) → (p : Parts S) → (s : S) → (spelling : List ℕ)
        → Holds K h file.now.places p s spelling (D.view file.now.disk)
        → (image : List ℕ) → (D.view file.now.disk).now image → recovered K image ≡ Ok s }
{}

/// What survives one call and then another survives both.
pub fn calls_compose<D: Disk, H, S>(before: &D, between: &D, after: &D)
    ensures { (K : Codec H S) → (start : S) → (all more most : List (List ℕ))
        → (D.view before.now).clock ≤ (D.view between.now).clock
        → KeepsAll K start all more (D.view before.now) (D.view between.now)
        → KeepsAll K start more most (D.view between.now) (D.view after.now)
        → KeepsAll K start all most (D.view before.now) (D.view after.now) }
{}
