ghost use Rattle.std.specs.Prelude.{◌≡◌, ◌≤◌};
ghost use Rattle.fs_io.specs.Faults.{last_count};

use crate::streams::{Failed, Sink, Source};
use std::io::{Read, Write};
use std::marker::Model;

/// A reader as a source: it counts each error of the reader. It tells the bytes that the reader
/// tells: those of memory, none of standard input.
#[derive(Drop)]
pub struct StdSource<R: Read> {
    inner: R,
    faults: u64,
    ghost counted: { faults ≤ last_count },
}

impl<R: Read> StdSource<R> {
    /// The reader, with no fault counted yet.
    pub fn new(inner: R) -> StdSource<R>
        ensures left { ⟦<StdSource<R> as Source>⟧.left result ≡ R.remaining inner }
        ensures faults { ⟦<StdSource<R> as Source>⟧.faults result ≡ 0 }
    {
        StdSource { inner, faults: 0 }
    }
}

impl<R: Read> Source for StdSource<R> {
    ghost left = { λ s. R.remaining s.inner };

    ghost faults = { λ s. s.faults };

    fn take(&mut self, into: &mut [u8]) -> Result<usize, Failed> {
        let Ok(n) = self.inner.read(into) else {
            self.faults = self.faults.saturating_add(1);
            return Err(Failed);
        };
        Ok(n)
    }
}

/// A writer as a sink: it counts each error of the writer, and each write that takes nothing of
/// a piece that has bytes. It tells the bytes that the writer tells: those of memory, none of
/// standard output.
#[derive(Drop)]
pub struct StdSink<W: Write> {
    inner: W,
    faults: u64,
    ghost counted: { faults ≤ last_count },
}

impl<W: Write> StdSink<W> {
    /// The writer, with no fault counted yet.
    pub fn new(inner: W) -> StdSink<W>
        ensures held { ⟦<StdSink<W> as Sink>⟧.held result ≡ W.contents inner }
        ensures faults { ⟦<StdSink<W> as Sink>⟧.faults result ≡ 0 }
    {
        StdSink { inner, faults: 0 }
    }
}

impl<W: Write> Sink for StdSink<W> {
    ghost held = { λ s. W.contents s.inner };

    ghost faults = { λ s. s.faults };

    fn put(&mut self, piece: &[u8]) -> Result<usize, Failed> {
        match self.inner.write(piece) {
            Ok(n) if n > 0 || piece.is_empty() => Ok(n),
            _ => {
                self.faults = self.faults.saturating_add(1);
                Err(Failed)
            }
        }
    }
}
