// A source and a sink in memory, which move pieces and fail at the calls that a list names.
ghost use Rattle.std.specs.Prelude.{◌≡◌, ◌<◌, ◌≤◌, ◌||◌, Some, [], length, IfOk};
ghost use Rattle.std.specs.Io.{ReadsAtMost, WritesAtMost};
ghost use Rattle.std.specs.Io.KnownBytes.{ReadConsumes, WriteAppends};
ghost use Rattle.sx_io.specs.Causes.{HasCause};
ghost use Rattle.sx_io.specs.Memory.{Calls, Reading, Writing, fails_next, after_call, Reads, Writes};

use crate::unread::Unread;
use crate::{Bytes, Failed, Sink, Source};
use std::alloc::{AllocError, Global};
use std::marker::Model;
use sx_lists::List;

// The calls of a source or a sink, and which of them fail.
#[derive(Drop)]
struct Plan {
    failing: List<u64>,
    made: u64,
    failed: u64,
}

impl Model for Plan {
    ghost use Rattle.sx_io.specs.Memory.{Calls};

    ghost Value = { Calls };

    ghost view = { λ p. record { failing = p.failing; made = p.made; failed = p.failed } };

    ghost inverse = { λ c. record { failing = c.failing; made = c.made; failed = c.failed } };
}

impl Plan {
    fn new(failing: List<u64>) -> Self
        ensures { result ≡ record { failing = failing; made = 0; failed = 0 } }
    {
        Plan {
            failing,
            made: 0,
            failed: 0,
        }
    }

    // Counts a call, and answers whether it fails: it is refused, or the list names it.
    fn fails_next(&mut self, refused: bool) -> bool
        ensures fails { result ≡ (refused || fails_next self.old) }
        ensures counted { self.new ≡ after_call self.old result }
        ensures later { self.old.failed ≤ self.new.failed }
    {
        self.made = self.made.saturating_add(1);
        let fails = refused || self.failing.as_slice().contains(&self.made);
        if fails {
            self.failed = self.failed.saturating_add(1);
        }
        fails
    }

    fn failed(&self) -> u64
        ensures { result ≡ self.now.failed }
    {
        self.failed
    }
}

/// A source in memory. It gives a piece at each read, and fails at the reads that a list names.
#[derive(Drop)]
pub struct MemorySource {
    unread: Unread,
    piece: u64,
    plan: Plan,
}

impl Model for MemorySource {
    ghost use Rattle.std.specs.Prelude.{◌<◌};
    ghost use Rattle.sx_io.specs.Memory.{Reading};

    ghost Value = { Reading };

    ghost view = { λ s. record { left = s.unread; piece = s.piece; calls = s.plan } };

    ghost invariant = { λ s. 0 < s.piece };
}

impl MemorySource {
    /// A source of these bytes. `failing` names the reads that fail by their numbers from 1.
    pub fn new(bytes: Bytes, piece: u64, failing: List<u64>) -> Self
        requires { 0 < piece }
        ensures { result ≡ record { left = bytes; piece = piece; calls = record { failing = failing; made = 0; failed = 0 } } }
    {
        MemorySource {
            unread: Unread::new(bytes),
            piece,
            plan: Plan::new(failing),
        }
    }
}

impl Source for MemorySource {
    ghost left = { λ s. Some s.left };

    ghost faults = { λ s. s.calls.failed };

    fn read(&mut self, buf: &mut [u8]) -> Result<usize, Failed>
        requires { 0 < length buf.old }
        ensures bound { ReadsAtMost result buf.new }
        ensures bytes { ReadConsumes (Some self.old.left) (Some self.new.left) result buf.new }
        ensures cause { HasCause self.old.calls.failed self.new.calls.failed result }
        ensures exact { Reads self.old self.new (length buf.old) result }
    {
        if self.plan.fails_next(false) {
            return Err(Failed);
        }
        Ok(self.unread.give(buf, self.piece as usize))
    }

    fn faults(&self) -> u64 {
        self.plan.failed()
    }
}

/// A sink in memory. It takes a piece at each write, and fails at the writes that a list names or that find no room.
#[derive(Drop)]
pub struct MemorySink {
    bytes: Vec<u8>,
    room: u64,
    piece: u64,
    plan: Plan,
}

impl Model for MemorySink {
    ghost use Rattle.std.specs.Prelude.{◌<◌, ◌≤◌, ◌+◌, vec_len, vec_capacity};
    ghost use Rattle.sx_io.specs.Memory.{Writing};

    ghost Value = { Writing };

    ghost view = { λ s. record { written = s.bytes.items; room = s.room; piece = s.piece; calls = s.plan } };

    ghost invariant = { λ s. (0 < s.piece) × (vec_len s.bytes + s.room ≤ vec_capacity s.bytes) };
}

impl MemorySink {
    /// A sink with room for so many bytes. `failing` names the writes that fail by their numbers from 1.
    pub fn new(alloc: Global, room: u64, piece: u64, failing: List<u64>) -> Result<Self, AllocError>
        requires { 0 < piece }
        ensures { IfOk result (λ it. it ≡ record { written = []; room = room; piece = piece; calls = record { failing = failing; made = 0; failed = 0 } }) }
    {
        Ok(MemorySink {
            bytes: Vec::with_capacity(alloc, room as usize)?,
            room,
            piece,
            plan: Plan::new(failing),
        })
    }

    /// The bytes that were written.
    pub fn bytes(&self) -> &[u8]
        ensures { result.now ≡ self.now.written }
    {
        self.bytes.as_slice()
    }
}

impl Sink for MemorySink {
    ghost written = { λ s. Some s.written };

    ghost faults = { λ s. s.calls.failed };

    // It takes no memory.
    fn write(&mut self, bytes: &[u8]) -> Result<usize, Failed>
        requires { 0 < length bytes.now }
        ensures progress { IfOk result (λ count. 0 < count) }
        ensures bound { WritesAtMost result bytes.now }
        ensures bytes { WriteAppends (Some self.old.written) (Some self.new.written) result bytes.now }
        ensures cause { HasCause self.old.calls.failed self.new.calls.failed result }
        ensures exact { Writes self.old self.new bytes.now result }
    {
        if self.plan.fails_next(self.room == 0) {
            return Err(Failed);
        }
        let most = self.piece.min(self.room) as usize;
        let count = most.min(bytes.len());
        self.bytes
            .extend_from_slice(bytes.split_at(count).0)
            .unwrap();
        self.room -= count as u64;
        Ok(count)
    }

    fn faults(&self) -> u64 {
        self.plan.failed()
    }
}
