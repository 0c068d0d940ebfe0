//! How old transactions are dealt with at a switch, and how far a transformation has come.
#![tactic(auto)]

mod ready;
#[cfg(test)]
mod tests;

pub use ready::{Live, Lives, Ready, lesser, switch_ready};
use std::alloc::{AllocError, Global};
use sx_lists::Copied;

/// How transactions that have touched a source are dealt with at the switch.
#[derive(Clone, Copy, Debug, PartialEq, Eq)]
pub enum Strategy {
    /// The switch waits until they have ended.
    Blocking,
    /// They are doomed at the switch.
    NonBlockingAbort,
    /// They go on behind the switch.
    NonBlockingCommit,
}

/// How far a transformation has come.
#[derive(Clone, Copy, Debug, PartialEq, Eq)]
pub enum Phase {
    /// None has started, or it was cancelled.
    Idle,
    /// The sources are scanned.
    Scanning,
    /// The scan has ended, and the log is followed.
    Chasing,
    /// As chasing, while old transactions end and no new one touches a source.
    Draining,
    /// Switched, and an old transaction lives.
    Late,
    /// Switched, and no old transaction lives.
    Done,
}

impl Copied for Strategy {
    fn copy(&self, _alloc: Global) -> Result<Self, AllocError> {
        Ok(*self)
    }
}

impl Copied for Phase {
    fn copy(&self, _alloc: Global) -> Result<Self, AllocError> {
        Ok(*self)
    }
}
