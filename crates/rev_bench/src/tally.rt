//! What is kept of the bytes that are written: their number and a digest.

use std::cell::Cell;
use std::io;
use std::io::Write;

/// The number of some bytes and a digest of them in their order. Neither depends on how the bytes were cut into writes.
#[derive(Clone, Copy)]
pub struct Tally {
    bytes: u64,
    // Of the words of eight bytes that are whole.
    digest: u64,
    // The bytes behind the last whole word, the newest in the highest places.
    part: u64,
}

// The digest with one word more.
fn mixed(digest: u64, word: u64) -> u64 {
    let product = (digest ^ word).wrapping_mul(0x9e37_79b9_7f4a_7c15);
    product ^ (product >> 29)
}

impl Tally {
    pub fn new() -> Tally {
        Tally {
            bytes: 0,
            digest: 0,
            part: 0,
        }
    }

    /// How many bytes there were.
    pub fn bytes(&self) -> u64 {
        self.bytes
    }

    /// The digest of all bytes.
    pub fn digest(&self) -> u64 {
        mixed(mixed(self.digest, self.part), self.bytes)
    }

    fn add_byte(&mut self, byte: u8) {
        self.part = (self.part >> 8) | (u64::from(byte) << 56);
        self.bytes = self.bytes.wrapping_add(1);
        if self.bytes % 8 == 0 {
            self.digest = mixed(self.digest, self.part);
            self.part = 0;
        }
    }

    fn add_words(&mut self, words: &[[u8; 8]]) {
        let mut digest = self.digest;
        for word in words {
            digest = mixed(digest, u64::from_le_bytes(*word));
        }
        self.digest = digest;
        self.bytes = self
            .bytes
            .wrapping_add((words.len() as u64).wrapping_mul(8));
    }

    /// Takes further bytes in.
    pub fn add(&mut self, bytes: &[u8]) {
        // So many bytes complete the word that is begun.
        let missing = (0u64.wrapping_sub(self.bytes) % 8) as usize;
        let (first, others) = bytes.split_at(missing.min(bytes.len()));
        for byte in first {
            self.add_byte(*byte);
        }
        let (words, last) = others.as_chunks::<8>();
        self.add_words(words);
        for byte in last {
            self.add_byte(*byte);
        }
    }
}

/// A writer that keeps a tally of what is written and nothing else.
#[derive(Drop)]
pub struct Sink<'a> {
    tally: &'a Cell<Tally>,
}

impl<'a> Sink<'a> {
    pub fn new(tally: &'a Cell<Tally>) -> Sink<'a> {
        Sink { tally }
    }
}

impl Write for Sink<'_> {
    fn write(&mut self, buf: &[u8]) -> io::Result<usize> {
        let mut tally = self.tally.get();
        tally.add(buf);
        self.tally.set(tally);
        Ok(buf.len())
    }

    fn flush(&mut self) -> io::Result<()> {
        Ok(())
    }
}

#[cfg(test)]
mod tests {
    use super::*;

    const TEXT: &[u8] = b"VALUE user:12 0 5\r\nhello\r\nEND\r\nSTORED\r\n";

    fn digest_of(bytes: &[u8]) -> u64 {
        let mut tally = Tally::new();
        tally.add(bytes);
        tally.digest()
    }

    // The digest where the bytes come in pieces of this size.
    fn digest_in_pieces(bytes: &[u8], size: usize) -> u64 {
        let cell = Cell::new(Tally::new());
        let mut sink = Sink::new(&cell);
        for piece in bytes.chunks(size.max(1)) {
            let _ = sink.write(piece);
        }
        cell.get().digest()
    }

    #[test]
    fn cuts_change_nothing(rt: HostRuntime) {
        for size in 1..TEXT.len() {
            assert!(rt; digest_in_pieces(TEXT, size) == digest_of(TEXT), "{size}");
        }
    }

    #[test]
    fn order_and_length_change_the_digest(rt: HostRuntime) {
        let digest = digest_of(b"abcdefghijklmnopqrst");
        assert!(rt; digest != digest_of(b"bacdefghijklmnopqrst"));
        assert!(rt; digest != digest_of(b"ibcdefghajklmnopqrst"));
        assert!(rt; digest != digest_of(b"abcdefghijklmnopqrts"));
        assert!(rt; digest != digest_of(b"abcdefghijklmnopqrs"));
        assert!(rt; digest_of(b"") != digest_of(b"\0"));
    }
}
