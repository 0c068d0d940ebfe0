// Whether a switch can be done.
ghost use Rattle.std.specs.Prelude.{◌≡◌, ◌≤◌, map, filter};
ghost use Rattle.sx_sync.specs.Ready.{lesser, is_blocking, hinders, least_hindering, ready};

use crate::Strategy;
use sx_lists::List;
use sx_ops::Spec;

/// A live transaction, as a switch sees it.
#[derive(Clone, Copy, Debug, PartialEq, Eq)]
pub struct Live {
    pub txn: u64,
    /// Whether it has a lock on a source.
    pub locks_source: bool,
    /// Whether it has a record on a source: a write or an undo.
    pub wrote_source: bool,
}

/// Live transactions, in any order.
pub type Lives = List<Live>;

/// Whether a switch can be done, or why not.
#[derive(Clone, Copy, Debug, PartialEq, Eq)]
pub enum Ready {
    /// Too many records stand between the image's position and the log's end.
    Unread { pos: u64, end: u64 },
    /// The least live transaction that hinders it.
    Conflict { txn: u64 },
    Ready,
}

// How many records a switch redoes by itself.
const TAIL: u64 = 256;

impl Strategy {
    // Whether old transactions keep the switch waiting.
    fn is_blocking(self) -> bool
        ensures { result ≡ is_blocking self }
    {
        matches!(self, Strategy::Blocking)
    }
}

impl Live {
    // Whether it hinders the switch.
    fn hinders(&self, strategy: Strategy, spec: &Spec) -> bool
        ensures { result ≡ hinders strategy spec.now self.now }
    {
        if strategy.is_blocking() {
            self.locks_source
        } else {
            spec.is_split() && self.wrote_source
        }
    }
}

/// Whether a switch can be done whose image has come to `pos` in a log that ends at `end`: at most 256 records are unread, and
/// no live transaction hinders it. Under blocking commit one with a lock on a source does; under the other strategies, for a
/// vertical split alone, one with a record on the source.
pub fn switch_ready(strategy: Strategy, spec: &Spec, pos: u64, end: u64, live: &Lives) -> Ready
    ensures { result ≡ ready strategy spec.now pos end live.now }
{
    if end.saturating_sub(pos) > TAIL {
        return Ready::Unread { pos, end };
    }
    match least_hindering(strategy, spec, live.as_slice()) {
        Some(txn) => Ready::Conflict { txn },
        None => Ready::Ready,
    }
}

// The least live transaction that hinders the switch.
fn least_hindering(strategy: Strategy, spec: &Spec, live: &[Live]) -> Option<u64>
    ensures { result ≡ least_hindering strategy spec.now live.now }
{
    let [first, rest @ ..] = live else {
        return None;
    };
    let other = least_hindering(strategy, spec, rest);
    if first.hinders(strategy, spec) {
        Some(lesser(first.txn, other))
    } else {
        other
    }
}

/// The lesser of a transaction and another, if there is another.
pub fn lesser(txn: u64, other: Option<u64>) -> u64
    ensures { result ≡ lesser txn other }
{
    match other {
        None => txn,
        Some(other) => txn.min(other),
    }
}
