//! What holds of all files, each the contract of a function that does nothing.
ghost use Rattle.std.specs.Prelude.{◌≡◌, ◌≢◌, ◌⊎◌, ◌↔◌, ◌+◌, ◌<◌, ◌≤◌, List, ℕ, Bool, true, false, not, [], ◌∷◌, ◌++◌, length, take};
ghost use Rattle.std.specs.Prelude.{slice_index, Some, Ok, Err};
ghost use Rattle.pfx_disk.specs.Disk.{Torn};
ghost use Rattle.pfx_disk.specs.declared.gates.TheConstants.{GATE_OPEN};
ghost use Rattle.pfx_segment.specs.Frames.{IsFrame};
ghost use Rattle.pfx_segment.specs.Segment.{Appended};
ghost use Rattle.pfx_segment.specs.Turning.{Closing, Prepared};
ghost use Rattle.pfx_store_image.specs.declared.head.TheConstants.{SEGMENT_HEAD};
ghost use Rattle.pfx_store_image.specs.Causes.{IsRefused};
ghost use Rattle.pfx_store_image.specs.Codec.{Codec, Laws};
ghost use Rattle.pfx_store_image.specs.Layout.{area_at, segment_at, segment_end, IsOpenAt, IsClosedAt};
ghost use Rattle.pfx_store_image.specs.NewFile.{IsNewFile, ArePartsOfNew, new_parts, new_file};
ghost use Rattle.pfx_store_image.specs.Recovery.{found, found_of, recovered};
ghost use Rattle.pfx_store_image.specs.Refusals.{Refusal, IsOfHeader};
ghost use Rattle.pfx_store_image.specs.Store.{Parts, IsStore, next_gate, with_frame, turned_at, finished};
ghost use Rattle.pfx_store_image.specs.ToyCodec.{toy};

/// A file that a store may leave is recovered to the state that it stands for, and its parts are found.
pub fn store_is_recovered<H, S>()
    ensures found { (K : Codec H S) → Laws K → (h : H) → (p : Parts S) → (s : S) → (image : List ℕ)
        → IsStore K h p s image → found K image ≡ Ok (found_of h p s) }
    ensures state { (K : Codec H S) → Laws K → (h : H) → (p : Parts S) → (s : S) → (image : List ℕ)
        → IsStore K h p s image → recovered K image ≡ Ok s }
{}

/// A file that is recovered is one that a store at this state may leave, with the parts that were found.
pub fn recovered_is_store<H, S>()
    ensures found { (K : Codec H S) → Laws K → (h : H) → (p : Parts S) → (s : S) → (image : List ℕ)
        → found K image ≡ Ok (found_of h p s) → IsStore K h p s image }
    ensures state { (K : Codec H S) → Laws K → (s : S) → (image : List ℕ)
        → recovered K image ≡ Ok s → (h : H) × (p : Parts S) × IsStore K h p s image }
{}

/// A file is refused so exactly if there is this cause: a test that fails, if those before it are passed.
pub fn refused_for_a_cause<H, S>()
    ensures { (K : Codec H S) → (image : List ℕ) → (refusal : Refusal)
        → (recovered K image ≡ Err refusal) ↔ IsRefused K image refusal }
{}

/// The refusals that a header can be the cause of come only from it.
pub fn header_is_the_cause<H, S>()
    ensures { (K : Codec H S) → Laws K → (image : List ℕ) → (refusal : Refusal) → recovered K image ≡ Err refusal
        → IsOfHeader refusal ↔ (K.read_head image ≡ Err refusal) }
{}

/// A new file is one that a store may leave, at the state of its first checkpoint area.
pub fn new_file_is_store<H, S>()
    ensures { (K : Codec H S) → (h : H) → (s : S) → (image : List ℕ)
        → IsNewFile K h s image → IsStore K h (new_parts s) s image }
{}

/// A header, a checkpoint area's body and the number after its state's, with gates before the last two and zeros for all other
/// bytes, are a new file.
pub fn bytes_of_new_file<H, S>()
    ensures { (K : Codec H S) → Laws K → (h : H) → (s : S) → (head body first : List ℕ)
        → ArePartsOfNew K h s head body first → IsNewFile K h s (new_file (K.layout h) head body first) }
{}

/// An append, or any part of it, leaves the file as one of the store before it, or with the frame.
pub fn append_step<H, S>()
    ensures { (K : Codec H S) → Laws K → (h : H) → (p : Parts S) → (s t : S) → (body image after : List ℕ)
        → next_gate K h p + 1 + length body < segment_end (K.layout h) p.segment
        → IsFrame (GATE_OPEN ∷ body) → K.apply s (GATE_OPEN ∷ body) ≡ Some t
        → Appended (next_gate K h p) (body ++ 0 ∷ []) image after
        → IsStore K h p s image
        → IsStore K h p s after ⊎ IsStore K h (with_frame p (GATE_OPEN ∷ body)) t after }
{}

/// A turn to the other segment, or any part of it, leaves the file as one of the store before it, or turned. One
/// segment was to be read and had a frame; the bytes put behind the other's gate are the next number and a closed gate.
pub fn turn_step<H, S>()
    ensures { (K : Codec H S) → Laws K → (h : H) → (p : Parts S) → (s : S) → (is_open : Bool) → (bytes image after : List ℕ)
        → p.turned ≡ false → 0 < length p.frames
        → length bytes ≡ SEGMENT_HEAD → K.segment_number (take 8 bytes) ≡ K.number s + 1 → slice_index bytes 8 ≡ 0
        → (is_open ≡ true → IsOpenAt (segment_at (K.layout h) (not p.segment)) image)
        → Prepared (segment_at (K.layout h) (not p.segment)) is_open bytes image after
        → IsStore K h p s image
        → IsStore K h p s after ⊎ IsStore K h (turned_at p s) s after }
{}

/// A checkpoint's first step, or any part of it, closes the gate of the checkpoint area that isn't in use: the file stays one of
/// the store before it.
pub fn close_step<H, S>()
    ensures { (K : Codec H S) → Laws K → (h : H) → (p : Parts S) → (s : S) → (is_open : Bool) → (image after : List ℕ)
        → (is_open ≡ true → IsOpenAt (area_at (K.layout h) (not p.area)) image)
        → Closing (area_at (K.layout h) (not p.area)) is_open image after
        → IsStore K h p s image → IsStore K h p s after }
{}

/// A middle step, or any part of it, writes behind that closed gate: the file stays one of the store before it, and
/// the gate closed.
pub fn piece_step<H, S>()
    ensures { (K : Codec H S) → Laws K → (h : H) → (p : Parts S) → (s : S) → (at n : ℕ) → (image after : List ℕ)
        → area_at (K.layout h) (not p.area) < at → at + n ≤ area_at (K.layout h) (not p.area) + 1 + (K.layout h).body
        → IsClosedAt (area_at (K.layout h) (not p.area)) image
        → Torn at n image after
        → IsStore K h p s image
        → IsStore K h p s after × IsClosedAt (area_at (K.layout h) (not p.area)) after }
{}

/// The last step, or any part of it, opens that gate where the state of the turn stands behind it: the file is one of
/// the store before it, or its checkpoint has ended.
pub fn open_step<H, S>()
    ensures { (K : Codec H S) → Laws K → (h : H) → (p : Parts S) → (s : S) → (spelling image after : List ℕ)
        → p.turned ≡ true → K.read_state h spelling ≡ Some p.middle → length spelling ≡ (K.layout h).body
        → IsClosedAt (area_at (K.layout h) (not p.area)) image
        → Appended (area_at (K.layout h) (not p.area)) spelling image after
        → IsStore K h p s image
        → IsStore K h p s after ⊎ IsStore K h (finished p) s after }
{}

/// There is a codec that keeps the laws.
pub fn toy_keeps_the_laws()
    ensures { Laws toy }
{}
