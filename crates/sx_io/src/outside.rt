// Where bytes come from and go to. Each object counts its faults, and a call fails only where the count rose.
ghost use Rattle.std.specs.Prelude.{◌≡◌, ◌<◌, List, ℕ, length, IfOk};
ghost use Rattle.std.specs.declared.option.Option.{Option};
ghost use Rattle.std.specs.Io.{ReadsAtMost, WritesAtMost};
ghost use Rattle.std.specs.Io.KnownBytes.{ReadConsumes, WriteAppends};
ghost use Rattle.sx_io.specs.Causes.{HasCause};

use std::alloc::{AllocError, Global};
use sx_lists::Copied;
use thiserror::Error;

/// A read or a write that failed. It has moved no byte.
#[derive(Clone, Copy, Debug, PartialEq, Eq, Error)]
#[error("a read or a write failed")]
pub struct Failed;

impl Copied for Failed {
    fn copy(&self, _alloc: Global) -> Result<Self, AllocError> {
        Ok(*self)
    }
}

/// Where bytes come from.
pub trait Source {
    /// The bytes that are left to read, where that is told.
    ghost left: { Self → Option (List ℕ) };

    /// How many reads have failed.
    ghost faults: { Self → ℕ };

    /// Puts bytes at the front of the buffer and answers how many; 0 is the end.
    fn read(&mut self, buf: &mut [u8]) -> Result<usize, Failed>
        requires { 0 < length buf.old }
        ensures bound { ReadsAtMost result buf.new }
        ensures bytes { ReadConsumes (left self.old) (left self.new) result buf.new }
        ensures cause { HasCause (faults self.old) (faults self.new) result };

    /// How many reads have failed.
    fn faults(&self) -> u64
        ensures { result ≡ faults self.now };
}

/// Where bytes go to.
pub trait Sink {
    /// The bytes that were written, where that is told.
    ghost written: { Self → Option (List ℕ) };

    /// How many writes have failed.
    ghost faults: { Self → ℕ };

    /// Takes bytes from the front and answers how many, at least one.
    fn write(&mut self, bytes: &[u8]) -> Result<usize, Failed>
        requires { 0 < length bytes.now }
        ensures progress { IfOk result (λ count. 0 < count) }
        ensures bound { WritesAtMost result bytes.now }
        ensures bytes { WriteAppends (written self.old) (written self.new) result bytes.now }
        ensures cause { HasCause (faults self.old) (faults self.new) result };

    /// How many writes have failed.
    fn faults(&self) -> u64
        ensures { result ≡ faults self.now };
}
