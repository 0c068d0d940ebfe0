// The readers and writers of the standard library as sources and sinks. They know of the content what those tell.
ghost use Rattle.std.specs.Prelude.{◌≡◌, ◌<◌, length, IfOk};
ghost use Rattle.std.specs.Io.{ReadsAtMost, WritesAtMost};
ghost use Rattle.std.specs.Io.KnownBytes.{ReadConsumes, WriteAppends};
ghost use Rattle.sx_io.specs.Causes.{HasCause, Counts};

use crate::{Failed, Sink, Source};
use std::io::{Read, Write};

/// A reader as a source. Its count of faults rises at each error.
#[derive(Drop)]
pub struct StdSource<R> {
    inner: R,
    faults: u64,
}

impl<R: Read> StdSource<R> {
    /// The reader, with no fault so far.
    pub fn new(inner: R) -> Self
        ensures left { ⟦<StdSource<R> as Source>⟧.left result ≡ R.remaining inner }
        ensures faults { ⟦<StdSource<R> as Source>⟧.faults result ≡ 0 }
    {
        StdSource { inner, faults: 0 }
    }
}

impl<R: Read> Source for StdSource<R> {
    ghost left = { λ s. R.remaining s.inner };

    ghost faults = { λ s. s.faults };

    fn read(&mut self, buf: &mut [u8]) -> Result<usize, Failed>
        requires { 0 < length buf.old }
        ensures bound { ReadsAtMost result buf.new }
        ensures bytes { ReadConsumes (R.remaining self.old.inner) (R.remaining self.new.inner) result buf.new }
        ensures cause { HasCause self.old.faults self.new.faults result }
        ensures exact { Counts self.old.faults self.new.faults result }
    {
        match self.inner.read(buf) {
            Ok(count) => Ok(count),
            Err(_) => {
                self.faults = self.faults.saturating_add(1);
                Err(Failed)
            }
        }
    }

    fn faults(&self) -> u64 {
        self.faults
    }
}

/// A writer as a sink. Its count of faults rises at each error, and at each write that takes nothing.
#[derive(Drop)]
pub struct StdSink<W> {
    inner: W,
    faults: u64,
}

impl<W: Write> StdSink<W> {
    /// The writer, with no fault so far.
    pub fn new(inner: W) -> Self
        ensures written { ⟦<StdSink<W> as Sink>⟧.written result ≡ W.contents inner }
        ensures faults { ⟦<StdSink<W> as Sink>⟧.faults result ≡ 0 }
    {
        StdSink { inner, faults: 0 }
    }
}

impl<W: Write> Sink for StdSink<W> {
    ghost written = { λ s. W.contents s.inner };

    ghost faults = { λ s. s.faults };

    fn write(&mut self, bytes: &[u8]) -> Result<usize, Failed>
        requires { 0 < length bytes.now }
        ensures progress { IfOk result (λ count. 0 < count) }
        ensures bound { WritesAtMost result bytes.now }
        ensures bytes { WriteAppends (W.contents self.old.inner) (W.contents self.new.inner) result bytes.now }
        ensures cause { HasCause self.old.faults self.new.faults result }
        ensures exact { Counts self.old.faults self.new.faults result }
    {
        match self.inner.write(bytes) {
            Ok(count) if count > 0 => Ok(count),
            _ => {
                self.faults = self.faults.saturating_add(1);
                Err(Failed)
            }
        }
    }

    fn faults(&self) -> u64 {
        self.faults
    }
}
