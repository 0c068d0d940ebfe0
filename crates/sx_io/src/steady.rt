// A source and a sink that never fail.
ghost use Rattle.std.specs.Prelude.{◌≡◌, ◌<◌, Some, None, Ok, min, length, IfOk};
ghost use Rattle.std.specs.Io.{ReadsAtMost, WritesAtMost};
ghost use Rattle.std.specs.Io.KnownBytes.{ReadConsumes, WriteAppends};
ghost use Rattle.sx_io.specs.Causes.{HasCause};

use crate::unread::Unread;
use crate::{Bytes, Failed, Sink, Source};
use std::marker::Model;

/// A source in memory that never fails, and gives as much as is asked for.
#[derive(Drop)]
pub struct SteadySource {
    unread: Unread,
}

impl Model for SteadySource {
    ghost use Rattle.std.specs.Prelude.{ℕ, List};

    ghost Value = { List ℕ };

    ghost view = { λ s. s.unread };
}

impl SteadySource {
    /// A source of these bytes.
    pub fn new(bytes: Bytes) -> Self
        ensures { result ≡ bytes }
    {
        SteadySource {
            unread: Unread::new(bytes),
        }
    }
}

impl Source for SteadySource {
    ghost left = { λ s. Some s };

    ghost faults = { λ _. 0 };

    fn read(&mut self, buf: &mut [u8]) -> Result<usize, Failed>
        requires { 0 < length buf.old }
        ensures exact { result ≡ Ok (min (length buf.old) (length self.old)) }
        ensures bound { ReadsAtMost result buf.new }
        ensures bytes { ReadConsumes (Some self.old) (Some self.new) result buf.new }
        ensures cause { HasCause 0 0 result }
    {
        let most = buf.len();
        Ok(self.unread.give(buf, most))
    }

    fn faults(&self) -> u64 {
        0
    }
}

/// A sink that never fails, takes all that it is given and keeps nothing.
#[derive(Clone, Copy, Debug, Default, PartialEq, Eq)]
pub struct SteadySink;

impl Sink for SteadySink {
    ghost written = { λ _. None };

    ghost faults = { λ _. 0 };

    fn write(&mut self, bytes: &[u8]) -> Result<usize, Failed>
        requires { 0 < length bytes.now }
        ensures exact { result ≡ Ok (length bytes.now) }
        ensures progress { IfOk result (λ count. 0 < count) }
        ensures bound { WritesAtMost result bytes.now }
        ensures bytes { WriteAppends None None result bytes.now }
        ensures cause { HasCause 0 0 result }
    {
        Ok(bytes.len())
    }

    fn faults(&self) -> u64 {
        0
    }
}
