// The bytes of a new file.
ghost use Rattle.std.specs.Prelude.{◌≡◌, ◌<◌, ◌+◌, ◌^◌, length, slice_index, EachIndex};
ghost use Rattle.pfx_store_image.specs.Layout.{Layout};
ghost use Rattle.pfx_store_image.specs.NewFile.{new_file};
ghost use Rattle.pfx_store_create.specs.Creating.{HasLengths, IsPartTo, len_of};

use pfx_disk::GATE_OPEN;

/// How long a new file is, in bytes.
pub fn file_len(head: &[u8], body: &[u8], segment: usize) -> usize
    requires { len_of head.now body.now segment < 2 ^ 62 }
    ensures { result ≡ len_of head.now body.now segment }
{
    head.len() + 2 * (1 + body.len()) + 2 * segment
}

/// The byte at this place of the new file with this header, this body of its first checkpoint area, this number of its first segment, and
/// segments of this length.
pub fn byte_at(head: &[u8], body: &[u8], first: &[u8], segment: usize, at: usize) -> u8
    requires { IsPartTo head.now body.now first.now segment (at + 1) }
    ensures { (L : Layout) → HasLengths L head.now body.now segment
        → result ≡ slice_index (new_file L head.now body.now first.now) at }
{
    let area = head.len();
    let segments = area + 2 * (1 + body.len());
    if at < area {
        return head[at];
    }
    if at == area || at == segments {
        return GATE_OPEN;
    }
    if at <= area + body.len() {
        return body[at - area - 1];
    }
    if at > segments && at <= segments + 8 {
        return first[at - segments - 1];
    }
    0
}

/// Fills the slice with the bytes of the new file from this place on.
pub fn fill(head: &[u8], body: &[u8], first: &[u8], segment: usize, at: usize, out: &mut [u8])
    requires { IsPartTo head.now body.now first.now segment (at + length out.old) }
    ensures { (L : Layout) → HasLengths L head.now body.now segment → EachIndex out.new (λ k.
        slice_index out.new k ≡ slice_index (new_file L head.now body.now first.now) (at + k)) }
{
    for (i, byte) in out.iter_mut().enumerate() {
        *byte = byte_at(head, body, first, segment, at + i);
    }
}
