//! What holds of the bytes of headers, of any version, each the contract of a function without a body.

ghost use Rattle.std.specs.Prelude.{◌≡◌, ◌≢◌, ◌↔◌, ◌<◌, ◌≤◌, ◌++◌, ℕ, List, [], length, take, slice_index, All, Some, Ok, Err};
ghost use Rattle.pfx_disk.specs.declared.gates.TheConstants.{GATE_OPEN};
ghost use Rattle.pfx_store_image.specs.Refusals.{Refusal, IsOfHeader, NotAStore};
ghost use Rattle.pfx_weights.specs.Sets.{FilledSet, IsFilled, Accepts};
ghost use Rattle.pfx_store_header.specs.Headers.{Header, IsHeader, IsSegmentSize, header_len, header_bytes, read_header};
ghost use Rattle.pfx_store_header.specs.declared.sizes.TheConstants.{HEADER_MOST};

/// What is read is a header, whose set is filled and whose bytes are all there.
pub fn what_is_read_is_a_header()
    ensures whole { (v : ℕ) (bytes : List ℕ) (h : Header) → read_header v bytes ≡ Ok h → header_len h.set ≤ length bytes }
    ensures filled { (v : ℕ) (bytes : List ℕ) (h : Header) → read_header v bytes ≡ Ok h → IsFilled h.set }
    ensures header { (v : ℕ) (bytes : List ℕ) (h : Header) → read_header v bytes ≡ Ok h → IsHeader h }
{}

/// A set that is accepted and a segment within its limits are a header, and it is read from its bytes, whatever stands
/// after them.
pub fn what_is_written_is_read()
    ensures header { (m : ℕ) (tasks : List (ℕ × ℕ)) (h : Header) → Accepts m tasks h.set → IsSegmentSize m h.segment → IsHeader h }
    ensures read { (v : ℕ) (h : Header) (rest : List ℕ) → IsHeader h → read_header v (header_bytes v h ++ rest) ≡ Ok h }
    ensures long { (v : ℕ) (h : Header) → IsHeader h → length (header_bytes v h) ≡ header_len h.set }
{}

/// Bytes are read as a header exactly where it is one and they begin with its bytes.
pub fn bytes_are_read_as_they_are_written()
    ensures read { (v : ℕ) (bytes : List ℕ) (h : Header) → All (λ b. b < 256) bytes → read_header v bytes ≡ Ok h → take (header_len h.set) bytes ≡ header_bytes v h }
    ensures exact { (v : ℕ) (bytes : List ℕ) (h : Header) → All (λ b. b < 256) bytes
        → (read_header v bytes ≡ Ok h) ↔ (IsHeader h × (take (header_len h.set) bytes ≡ header_bytes v h)) }
{}

/// A header is read from its own bytes alone.
pub fn header_is_read_alone()
    ensures { (v : ℕ) (bytes other : List ℕ) (h : Header) → read_header v bytes ≡ Ok h
        → take (header_len h.set) other ≡ take (header_len h.set) bytes → read_header v other ≡ Ok h }
{}

/// The first `HEADER_MOST` bytes of a file are enough.
pub fn front_is_enough()
    ensures { (v : ℕ) (bytes : List ℕ) → read_header v (take HEADER_MOST bytes) ≡ read_header v bytes }
{}

/// What is refused is refused as a header.
pub fn what_is_refused_is_of_the_header()
    ensures { (v : ℕ) (bytes : List ℕ) (refusal : Refusal) → read_header v bytes ≡ Err refusal → IsOfHeader refusal }
{}

/// No bytes, and bytes behind a closed gate, are no store.
pub fn closed_gate_is_no_store()
    ensures none { (v : ℕ) → read_header v [] ≡ Err NotAStore }
    ensures closed { (v : ℕ) (bytes : List ℕ) → slice_index bytes 0 ≢ GATE_OPEN → read_header v bytes ≡ Err NotAStore }
{}
