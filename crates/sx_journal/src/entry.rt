// Requests, events, replies and entries.
use sx_ops::{Spec, SpecFault};
use sx_sync::Strategy;
use sx_values::{BadRow, Key, Name, Numbers, Row};

/// What a client asks.
#[derive(Debug, Drop)]
pub enum Request {
    Begin,
    Read { table: Name, key: Key },
    Insert { table: Name, row: Row },
    /// Puts this row in the place of the row of its key.
    Update { table: Name, row: Row },
    Delete { table: Name, key: Key },
    Commit,
    /// Undoes the last write that isn't undone, or ends the transaction where there is none.
    Undo,
}

/// What a client's line asks: one request, or Undo until the transaction has ended.
#[derive(Debug, Drop)]
pub enum What {
    Ask(Request),
    Abort,
}

/// A line of the propagator.
#[derive(Clone, Copy, Debug, PartialEq, Eq)]
pub enum PropLine {
    Start,
    Check,
    Switch,
    /// A scan turn of at most `n` rows.
    Scan { n: u64 },
    /// At most `n` records of the log.
    Fetch { n: u64 },
}

/// One turn of the machine.
#[derive(Debug, Drop)]
pub enum Event {
    Client(Request),
    Start { spec: Spec, strategy: Strategy },
    /// A scan turn of at most `n` rows.
    Scan { n: u64 },
    /// At most `n` records of the log.
    Fetch { n: u64 },
    Check { group: Key },
    Switch,
    Cancel,
}

/// The machine's answer to an event. A row that a scan saw is named by its LSN.
#[derive(Debug, Drop)]
pub enum Reply {
    Begun { txn: u64 },
    Row { row: Row },
    Absent,
    Done { lsn: u64 },
    Committed { lsn: u64 },
    Undone { lsn: u64 },
    Aborted { lsn: u64 },
    NoTxn,
    Already,
    Ending,
    Doomed,
    NoTable,
    Hidden,
    Gone,
    Draining,
    BadRow { bad: BadRow },
    Closed,
    Held { by: u64 },
    Exists,
    Missing,
    Started { lsn: u64 },
    Running,
    Spent,
    BadSpec { fault: SpecFault },
    Scanned { side: u8, lsns: Numbers, last: bool },
    ScanOver,
    Fetched { from: u64, to: u64 },
    Agree { lsn: u64 },
    Disagree { first: Key, second: Key },
    Empty,
    NotSplit,
    Switched { lsn: u64 },
    NoTransform,
    NotScanned,
    Unread { pos: u64, end: u64 },
    Conflict { txn: u64 },
    Violated { first: Key, second: Key },
    Cancelled,
}

/// An event with who made it and what was answered. Actor 0 is the propagator, 1 to 8 are clients.
#[derive(Debug, Drop)]
pub struct Entry {
    pub actor: u8,
    pub event: Event,
    pub reply: Reply,
}
