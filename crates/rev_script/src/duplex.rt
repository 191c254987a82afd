//! Sources that are written to, too.
ghost use Rattle.std.specs.Prelude.{◌≡◌, OnOk, OnErr};
ghost use Rattle.std.specs.Io.KnownBytes.{Appends};
ghost use Rattle.rev_output.specs.Sink.{WroteFront, one_more};
ghost use Rattle.rev_script.specs.Source.{with_sink};

use crate::source::{ReadFailed, Source};
use rev_output::{Sink, WriteFailed, write_all};

/// A source that is a writer too, so that it can send what was written before a read may wait.
pub trait Duplex: Source {
    /// Writes all the bytes; no write failed then. At an error one did, the last, and a front of the bytes was written.
    /// What is read is left alone.
    fn put(&mut self, text: &[u8]) -> Result<(), WriteFailed>
        ensures ok { OnOk result (Appends (Self.told self.old).beside.sink.contents (Self.told self.new).beside.sink.contents text.now
            × ((Self.told self.new).beside.sink.failures ≡ (Self.told self.old).beside.sink.failures)) }
        ensures err { OnErr result (WroteFront (Self.told self.old).beside.sink.contents (Self.told self.new).beside.sink.contents text.now
            × ((Self.told self.new).beside.sink.failures ≡ one_more (Self.told self.old).beside.sink.failures)) }
        ensures kept { Self.told self.new ≡ with_sink (Self.told self.old) (Self.told self.new).beside.sink };
}

impl<X: Duplex> Duplex for &mut X {
    #[inline(always)]
    fn put(&mut self, text: &[u8]) -> Result<(), WriteFailed> {
        match (**self).put(text) {
            Err(e) => Err(e),
            Ok(()) => Ok(()),
        }
    }
}

/// A source and a sink that have nothing to do with each other.
#[derive(Drop)]
pub struct Apart<S: Source, K: Sink> {
    pub source: S,
    pub sink: K,
}

impl<S: Source, K: Sink> Source for Apart<S, K> {
    ghost use Rattle.rev_output.specs.Sink.{sink_at};
    ghost use Rattle.rev_script.specs.Source.{told_beside};

    ghost told = { λ a. told_beside (S.told a.source) (record { sink = sink_at (K.contents a.sink) (K.failures a.sink); writer = K.identity a.sink }) };

    fn read(&mut self, buf: &mut [u8]) -> Result<usize, ReadFailed> {
        self.source.read(buf)
    }
}

impl<S: Source, K: Sink> Duplex for Apart<S, K> {
    fn put(&mut self, text: &[u8]) -> Result<(), WriteFailed> {
        match write_all(&mut self.sink, text) {
            Err(e) => Err(e),
            Ok(()) => Ok(()),
        }
    }
}
