//! Lines of a script as they are made.

use crate::random::Random;
use itoa::Buffer;
use std::alloc::{AllocError, Global};

/// Bytes of the letters that data are cut from.
const LETTERS: usize = 131072;

/// Data begin at one of so many places of the letters.
const PLACES: u64 = 16384;

/// The numbers of keys are below 2^24.
const KEY_MASK: u64 = 0xff_ffff;

/// Whether a client wants an answer.
#[derive(Clone, Copy)]
pub enum Reply {
    Wanted,
    Dropped,
}

/// What a storage line says beside its key.
#[derive(Clone, Copy)]
pub struct Storage {
    pub command: &'static [u8],
    pub flags: u64,
    /// In seconds, or 0.
    pub exptime: u64,
    pub reply: Reply,
}

/// Lines of a script that are made and not read yet, and where the choices for further ones come from.
#[derive(Drop)]
pub struct Draft {
    pub text: Vec<u8>,
    pub random: Random,
    letters: Vec<u8>,
    // What each key's number is mixed with, so that each seed has keys of its own.
    mask: u64,
}

// The bytes that all data are cut from.
fn letters_of(alloc: Global, random: &mut Random) -> Result<Vec<u8>, AllocError> {
    let alphabet = b"abcdefghijklmnopqrstuvwxyz012345";
    let mut letters = Vec::with_capacity(alloc, LETTERS)?;
    for _ in 0..LETTERS {
        let place = random.below(32) as usize;
        letters.push(*alphabet.get(place).unwrap_or(&b'.'))?;
    }
    Ok(letters)
}

impl Draft {
    /// A draft without a line, for this seed.
    pub fn new(alloc: Global, seed: u64) -> Result<Draft, AllocError> {
        let mut random = Random::new(seed);
        let mask = random.bits() & KEY_MASK;
        let letters = letters_of(alloc, &mut random)?;
        Ok(Draft {
            text: Vec::new(alloc),
            random,
            letters,
            mask,
        })
    }

    /// Puts these bytes behind what there is.
    pub fn put(&mut self, words: &[u8]) -> Result<(), AllocError> {
        self.text.extend_from_slice(words)
    }

    /// Puts a number behind what there is.
    pub fn number(&mut self, n: u64) -> Result<(), AllocError> {
        let mut buffer = Buffer::new();
        self.put(buffer.format(n).as_bytes())
    }

    /// Ends the line.
    pub fn end(&mut self) -> Result<(), AllocError> {
        self.put(b"\r\n")
    }

    /// A line of these words.
    pub fn line(&mut self, words: &[u8]) -> Result<(), AllocError> {
        self.put(words)?;
        self.end()
    }

    /// A line of these words, with this number behind them.
    pub fn numbered(&mut self, words: &[u8], n: u64) -> Result<(), AllocError> {
        self.put(words)?;
        self.number(n)?;
        self.end()
    }

    // The number in the name of the key of this rank: another one for each rank below 2^24.
    fn key_number(&self, rank: u64) -> u64 {
        (rank.wrapping_mul(0x9e_3779) & KEY_MASK) ^ self.mask
    }

    /// Puts the name of the key of this rank, below 2^24, with a blank in front. Hot keys look as cold ones do.
    pub fn key(&mut self, rank: u64) -> Result<(), AllocError> {
        let family: &[u8] = match rank % 4 {
            0 => b" user:",
            1 => b" session:",
            2 => b" item:",
            _ => b" page:",
        };
        self.put(family)?;
        self.number(self.key_number(rank))
    }

    /// Puts the name of a key that holds a number, with a blank in front.
    pub fn counter(&mut self, rank: u64) -> Result<(), AllocError> {
        self.put(b" visits:")?;
        self.number(self.key_number(rank))
    }

    /// A line of a command and the key of this rank.
    pub fn keyed(&mut self, command: &[u8], rank: u64) -> Result<(), AllocError> {
        self.put(command)?;
        self.key(rank)?;
        self.end()
    }

    // Puts what follows the key of a storage line, but for what `cas` and `noreply` add. Most lines have two zeros
    // there.
    fn size(&mut self, storage: Storage, size: u64) -> Result<(), AllocError> {
        if storage.flags == 0 && storage.exptime == 0 {
            self.put(b" 0 0 ")?;
        } else {
            self.put(b" ")?;
            self.number(storage.flags)?;
            self.put(b" ")?;
            self.number(storage.exptime)?;
            self.put(b" ")?;
        }
        self.number(size)
    }

    /// Ends a client's line.
    pub fn reply(&mut self, reply: Reply) -> Result<(), AllocError> {
        match reply {
            Reply::Wanted => self.end(),
            Reply::Dropped => self.line(b" noreply"),
        }
    }

    // A line of so many letters, at most 114688.
    fn block(&mut self, size: u64) -> Result<(), AllocError> {
        let from = self.random.below(PLACES) as usize;
        let to = from.saturating_add(size as usize);
        let letters = self.letters.get(from..to).unwrap_or(b"");
        self.text.extend_from_slice(letters)?;
        self.end()
    }

    /// A storage line for the key of this rank, and its data of so many bytes, at most 114688.
    pub fn store(&mut self, storage: Storage, rank: u64, size: u64) -> Result<(), AllocError> {
        self.put(storage.command)?;
        self.key(rank)?;
        self.size(storage, size)?;
        self.reply(storage.reply)?;
        self.block(size)
    }

    /// A line of `cas` for the key of this rank, which names this cas number, and its data.
    pub fn compare(
        &mut self,
        storage: Storage,
        rank: u64,
        size: u64,
        cas: u64,
    ) -> Result<(), AllocError> {
        self.put(b"cas")?;
        self.key(rank)?;
        self.size(storage, size)?;
        self.put(b" ")?;
        self.number(cas)?;
        self.reply(storage.reply)?;
        self.block(size)
    }

    /// A line of `set` for the counter of this rank, with a number of eight digits as its data.
    pub fn store_counter(&mut self, storage: Storage, rank: u64) -> Result<(), AllocError> {
        let start = self.random.below(89999999).wrapping_add(10000000);
        self.put(b"set")?;
        self.counter(rank)?;
        self.size(storage, 8)?;
        self.reply(storage.reply)?;
        self.numbered(b"", start)
    }
}
