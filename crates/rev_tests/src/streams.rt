//! Readers and writers that stutter, fail or take nothing.
use std::io;
use std::io::{Read, Write};

/// Gives one byte a call, after a first try of each call was interrupted. Behind its bytes it ends, or fails.
#[derive(Drop)]
pub struct Stutter<'a> {
    pub rest: &'a [u8],
    pub is_interrupted: bool,
    pub fails: bool,
}

impl<'a> Stutter<'a> {
    pub fn new(bytes: &'a [u8]) -> Stutter<'a> {
        Stutter {
            rest: bytes,
            is_interrupted: false,
            fails: false,
        }
    }

    pub fn failing(bytes: &'a [u8]) -> Stutter<'a> {
        Stutter {
            rest: bytes,
            is_interrupted: false,
            fails: true,
        }
    }
}

impl Read for Stutter<'_> {
    fn read(&mut self, buf: &mut [u8]) -> io::Result<usize> {
        self.is_interrupted = !self.is_interrupted;
        if self.is_interrupted {
            return Err(io::Error::from(io::ErrorKind::Interrupted));
        }
        let Some((first, rest)) = self.rest.split_first() else {
            return if self.fails {
                Err(io::Error::from(io::ErrorKind::Other))
            } else {
                Ok(0)
            };
        };
        let Some(place) = buf.first_mut() else {
            return Ok(0);
        };
        *place = *first;
        self.rest = rest;
        Ok(1)
    }
}

/// Takes one byte a call, so many in all; then it fails, or takes none.
#[derive(Drop)]
pub struct Narrow {
    pub bytes: Vec<u8>,
    pub most: usize,
    pub fails: bool,
}

impl Write for Narrow {
    fn write(&mut self, buf: &[u8]) -> io::Result<usize> {
        match buf.first() {
            Some(byte) if self.bytes.len() < self.most => {
                self.bytes.push(*byte)?;
                Ok(1)
            }
            Some(_) if self.fails => Err(io::Error::from(io::ErrorKind::Other)),
            _ => Ok(0),
        }
    }

    fn flush(&mut self) -> io::Result<()> {
        Ok(())
    }
}
