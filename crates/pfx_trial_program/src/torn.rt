//! A reader that fails.

use std::io;
use std::io::{ErrorKind, Read};

/// A reader that fails after its first bytes.
#[derive(Drop)]
pub struct Torn<'a> {
    pub left: &'a [u8],
}

impl Read for Torn<'_> {
    fn read(&mut self, buf: &mut [u8]) -> io::Result<usize> {
        if self.left.is_empty() {
            return Err(io::Error::from(ErrorKind::Other));
        }
        self.left.read(buf)
    }
}
