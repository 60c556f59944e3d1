// The header of a file that is read.
ghost use Rattle.std.specs.Prelude.{◌≤◌};
ghost use Rattle.pfx_store_file.specs.Sizes.{HasSizes};

use crate::format::Format;
use pfx_store_file::Sizes;

/// A file's header, and how long its parts are.
#[derive(Drop)]
pub(crate) struct Outline<F: Format> {
    pub header: F::Header,
    pub sizes: Sizes,
    ghost sized: { HasSizes (F.codec.layout header) sizes },
    // A checkpoint area's body begins with a number of eight bytes.
    ghost number: { 8 ≤ sizes.body },
}
