//! What holds of all stores, each the contract of a function that does nothing.
ghost use Rattle.std.specs.Prelude.{◌≡◌, ◌<◌, ◌+◌, ◌++◌, ◌∷◌, [], ℕ, List, length, false, if◌then◌else◌};
ghost use Rattle.pfx_events_acts.specs.Files.{IsFile};
ghost use Rattle.pfx_events_base.specs.Bases.{HasBase, IsBased, IsNextFrame, IsOn, Spells, turn_number};
ghost use Rattle.pfx_disk.specs.declared.gates.TheConstants.{GATE_OPEN};
ghost use Rattle.pfx_store_image.specs.Codec.{Codec, Laws};
ghost use Rattle.pfx_store_file.specs.Acts.{append_acts, appended_file, has_room, tend_acts, tended_file, turn_acts, turned_file};
ghost use Rattle.pfx_store_file.specs.Files.{File};
ghost use Rattle.pfx_store_file.specs.Holding.{IsStart};

use pfx_disk::Disk;

/// An image of a file is recovered from a checkpoint whose number is at most that of the last turn.
pub fn files_are_based<H, S>()
    ensures { (K : Codec H S) → Laws K → (f : File H S) → (s : S) → (image : List ℕ)
        → IsFile K s f image → IsBased K (turn_number K f) image }
{}

/// The next step of the checkpoint in progress, or any part of it: at each moment an image is recovered from a checkpoint of at most the
/// number of the last turn. Once it was taken the file after it is on the disk. It isn't a turn.
pub fn tend_keeps_the_base<D: Disk, H, S>(old: &D, new: &D)
    ensures base { (K : Codec H S) → Laws K → (f : File H S) → (s : S) → (spelling : List ℕ) → Spells K f spelling
        → IsOn K f spelling s (D.view old.now) → HasBase K (turn_number K f) (tend_acts K f spelling) (D.view old.now) (D.view new.now)
        (IsOn K (tended_file K f) spelling s (D.view new.now)) }
    ensures number { (K : Codec H S) → (f : File H S) → turn_number K (tended_file K f) ≡ turn_number K f }
{}

/// A turn, or any part of it: at each moment an image is recovered from a checkpoint of at most the number of the turn before. Once it
/// was made the file after it is on the disk, and was turned at the state.
pub fn turn_keeps_the_base<D: Disk, H, S>(old: &D, new: &D)
    ensures base { (K : Codec H S) → Laws K → (f : File H S) → (s : S) → (spelling start next : List ℕ)
        → f.parts.turned ≡ false → 0 < length f.parts.frames → IsStart K (K.number s + 1) start
        → IsOn K f spelling s (D.view old.now) → HasBase K (turn_number K f) (turn_acts K f start) (D.view old.now) (D.view new.now)
        (IsOn K (turned_file K f s) next s (D.view new.now)) }
    ensures number { (K : Codec H S) → (f : File H S) → (s : S) → turn_number K (turned_file K f s) ≡ K.number s }
{}

/// An append, or any part of it, with or without a turn: at each moment an image is recovered from a checkpoint of at most the number of
/// the last turn before it. Once it was made the file with the frame is on the disk; it was turned at the state, if the frame had no
/// room.
pub fn append_keeps_the_base<D: Disk, H, S>(old: &D, new: &D)
    ensures base { (K : Codec H S) → Laws K → (f : File H S) → (s t : S) → (body start : List ℕ) → (spell : S → List ℕ)
        → IsNextFrame K f s body start t → Spells K f (spell f.parts.middle)
        → IsOn K f (spell f.parts.middle) s (D.view old.now)
        → (let g = appended_file K f s (body ++ 0 ∷ []) (GATE_OPEN ∷ body) in
        HasBase K (turn_number K f) (append_acts K f s (spell f.parts.middle) start (body ++ 0 ∷ [])) (D.view old.now) (D.view new.now)
        (IsOn K g (spell g.parts.middle) t (D.view new.now))) }
    ensures number { (K : Codec H S) → (f : File H S) → (s : S) → (bytes frame : List ℕ)
        → turn_number K (appended_file K f s bytes frame) ≡ (if has_room K f (length bytes) then turn_number K f else K.number s) }
{}
