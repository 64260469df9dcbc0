//! The devices that input comes from and output goes to.
ghost use Rattle.std.specs.Prelude.{◌≡◌, ℕ, ◌<◌, List, Bool, Option, length, take, false, IfOk, OnOk, OnErr};
ghost use Rattle.std.specs.Io.{ReadsAtMost, WritesAtMost};
ghost use Rattle.std.specs.Io.KnownBytes.{ReadConsumes, WriteAppends, Appends};
ghost use Rattle.trace_types.specs.Devices.{Raises, AppendsFront};

use std::io::{Read, Write};
use thiserror::Error;

/// A device failed.
#[derive(Clone, Copy, Debug, PartialEq, Eq, Error)]
#[error("a device failed")]
pub struct Failed;

/// Where bytes come from.
pub trait Source {
    /// The bytes that reads will give from here on, where they are told.
    ghost left: { Self → Option (List ℕ) };

    /// A read has failed.
    ghost failed: { Self → Bool };

    /// Reads up to as many bytes as the buffer has; 0 bytes into a buffer with room are the end.
    fn read(&mut self, buf: &mut [u8]) -> Result<usize, Failed>
        ensures bound { ReadsAtMost result buf.new }
        ensures bytes { ReadConsumes (left self.old) (left self.new) result buf.new }
        ensures flag { Raises (failed self.old) (failed self.new) result };
}

/// Where bytes go.
pub trait Sink {
    /// The bytes that were written, where they are told.
    ghost held: { Self → Option (List ℕ) };

    /// A write has failed.
    ghost failed: { Self → Bool };

    /// Writes a front of the bytes, at least one of some; a failed write adds none.
    fn write(&mut self, bytes: &[u8]) -> Result<usize, Failed>
        ensures bound { WritesAtMost result bytes.now }
        ensures some { IfOk result (λ n. 0 < length bytes.now → 0 < n) }
        ensures bytes { WriteAppends (held self.old) (held self.new) result bytes.now }
        ensures flag { Raises (failed self.old) (failed self.new) result };
}

/// A source over a reader of std. An interrupted read is a failure too.
#[derive(Drop)]
pub struct StdSource<R> {
    reader: R,
    failed: bool,
}

impl<R: Read> StdSource<R> {
    pub fn new(reader: R) -> Self
        ensures left { ⟦<StdSource<R> as Source>⟧.left result ≡ R.remaining reader }
        ensures flag { ⟦<StdSource<R> as Source>⟧.failed result ≡ false }
    {
        StdSource {
            reader,
            failed: false,
        }
    }
}

impl<R: Read> Source for StdSource<R> {
    ghost left = { λ s. R.remaining s.reader };

    ghost failed = { λ s. s.failed };

    fn read(&mut self, buf: &mut [u8]) -> Result<usize, Failed> {
        match self.reader.read(buf) {
            Ok(n) => Ok(n),
            Err(_) => {
                self.failed = true;
                Err(Failed)
            }
        }
    }
}

/// A sink over a writer of std. A write that takes nothing of a text that isn't empty is a failure.
#[derive(Drop)]
pub struct StdSink<W> {
    writer: W,
    failed: bool,
}

impl<W: Write> StdSink<W> {
    pub fn new(writer: W) -> Self
        ensures held { ⟦<StdSink<W> as Sink>⟧.held result ≡ W.contents writer }
        ensures flag { ⟦<StdSink<W> as Sink>⟧.failed result ≡ false }
    {
        StdSink {
            writer,
            failed: false,
        }
    }
}

impl<W: Write> Sink for StdSink<W> {
    ghost held = { λ s. W.contents s.writer };

    ghost failed = { λ s. s.failed };

    fn write(&mut self, bytes: &[u8]) -> Result<usize, Failed> {
        match self.writer.write(bytes) {
            Ok(n) if n > 0 || bytes.is_empty() => Ok(n),
            _ => {
                self.failed = true;
                Err(Failed)
            }
        }
    }
}

/// Writes all of the bytes. Where a write fails a front of them was written.
pub fn write_all<K: Sink>(sink: &mut K, bytes: &[u8]) -> Result<(), Failed>
    ensures ok { OnOk result (Appends (K.held sink.old) (K.held sink.new) bytes.now) }
    ensures err { OnErr result (AppendsFront (K.held sink.old) (K.held sink.new) bytes.now) }
    ensures flag { Raises (K.failed sink.old) (K.failed sink.new) result }
{
    let mut at = 0;
    'writes: while at < bytes.len() {
        at += sink.write(&bytes[at..])?;
    }
    Ok(())
}
