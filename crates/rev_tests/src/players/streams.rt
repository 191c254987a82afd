//! A reader that fails.
use std::io;
use std::io::Read;

/// Gives its bytes, and then fails.
#[derive(Drop)]
pub struct Failing<'a> {
    pub rest: &'a [u8],
}

impl Read for Failing<'_> {
    fn read(&mut self, buf: &mut [u8]) -> io::Result<usize> {
        if self.rest.is_empty() {
            return Err(io::Error::from(io::ErrorKind::Other));
        }
        self.rest.read(buf)
    }
}
