// Bytes that are read from their front.
ghost use Rattle.std.specs.Prelude.{◌≡◌, min, length, take, drop};

use crate::Bytes;
use std::marker::Model;

#[derive(Drop)]
pub(crate) struct Unread {
    bytes: Bytes,
    given: usize,
}

impl Model for Unread {
    ghost use Rattle.std.specs.Prelude.{ℕ, List, ◌≤◌, drop, length};

    ghost Value = { List ℕ };

    ghost view = { λ u. drop u.given u.bytes };

    ghost invariant = { λ u. u.given ≤ length u.bytes };
}

impl Unread {
    pub(crate) fn new(bytes: Bytes) -> Self
        ensures { result ≡ bytes }
    {
        Unread { bytes, given: 0 }
    }

    // Puts bytes at the front of the buffer, as many as there are and fit and `most` allows.
    pub(crate) fn give(&mut self, buf: &mut [u8], most: usize) -> usize
        ensures count { result ≡ min most (min (length buf.old) (length self.old)) }
        ensures front { take result buf.new ≡ take result self.old }
        ensures rest { self.new ≡ drop result self.old }
    {
        let left = self.bytes.as_slice().split_at(self.given).1;
        let count = most.min(buf.len().min(left.len()));
        buf[..count].copy_from_slice(left.split_at(count).0);
        self.given += count;
        count
    }
}
