// Copies of entries and their parts.
ghost use Rattle.std.specs.Prelude.{◌≡◌, IfOk};

use crate::{Entry, Event, PropLine, Reply, Request, What};
use std::alloc::{AllocError, Global};
use sx_lists::Copied;

impl Copied for Request {
    fn copy(&self, alloc: Global) -> Result<Self, AllocError> {
        match self {
            Request::Begin => Ok(Request::Begin),
            Request::Read { table, key } => Ok(Request::Read {
                table: table.copy(alloc)?,
                key: key.copy(alloc)?,
            }),
            Request::Insert { table, row } => Ok(Request::Insert {
                table: table.copy(alloc)?,
                row: row.copy(alloc)?,
            }),
            Request::Update { table, row } => Ok(Request::Update {
                table: table.copy(alloc)?,
                row: row.copy(alloc)?,
            }),
            Request::Delete { table, key } => Ok(Request::Delete {
                table: table.copy(alloc)?,
                key: key.copy(alloc)?,
            }),
            Request::Commit => Ok(Request::Commit),
            Request::Undo => Ok(Request::Undo),
        }
    }
}

impl Copied for What {
    fn copy(&self, alloc: Global) -> Result<Self, AllocError> {
        match self {
            What::Ask(request) => Ok(What::Ask(request.copy(alloc)?)),
            What::Abort => Ok(What::Abort),
        }
    }
}

impl Copied for PropLine {
    fn copy(&self, _alloc: Global) -> Result<Self, AllocError> {
        Ok(*self)
    }
}

impl Copied for Event {
    fn copy(&self, alloc: Global) -> Result<Self, AllocError> {
        match self {
            Event::Client(request) => Ok(Event::Client(request.copy(alloc)?)),
            Event::Start { spec, strategy } => Ok(Event::Start {
                spec: spec.copy(alloc)?,
                strategy: *strategy,
            }),
            Event::Scan { n } => Ok(Event::Scan { n: *n }),
            Event::Fetch { n } => Ok(Event::Fetch { n: *n }),
            Event::Check { group } => Ok(Event::Check {
                group: group.copy(alloc)?,
            }),
            Event::Switch => Ok(Event::Switch),
            Event::Cancel => Ok(Event::Cancel),
        }
    }
}

impl Copied for Reply {
    fn copy(&self, alloc: Global) -> Result<Self, AllocError> {
        match self {
            Reply::Begun { txn } => Ok(Reply::Begun { txn: *txn }),
            Reply::Row { row } => Ok(Reply::Row {
                row: row.copy(alloc)?,
            }),
            Reply::Absent => Ok(Reply::Absent),
            Reply::Done { lsn } => Ok(Reply::Done { lsn: *lsn }),
            Reply::Committed { lsn } => Ok(Reply::Committed { lsn: *lsn }),
            Reply::Undone { lsn } => Ok(Reply::Undone { lsn: *lsn }),
            Reply::Aborted { lsn } => Ok(Reply::Aborted { lsn: *lsn }),
            Reply::NoTxn => Ok(Reply::NoTxn),
            Reply::Already => Ok(Reply::Already),
            Reply::Ending => Ok(Reply::Ending),
            Reply::Doomed => Ok(Reply::Doomed),
            Reply::NoTable => Ok(Reply::NoTable),
            Reply::Hidden => Ok(Reply::Hidden),
            Reply::Gone => Ok(Reply::Gone),
            Reply::Draining => Ok(Reply::Draining),
            Reply::BadRow { bad } => Ok(Reply::BadRow { bad: *bad }),
            Reply::Closed => Ok(Reply::Closed),
            Reply::Held { by } => Ok(Reply::Held { by: *by }),
            Reply::Exists => Ok(Reply::Exists),
            Reply::Missing => Ok(Reply::Missing),
            Reply::Started { lsn } => Ok(Reply::Started { lsn: *lsn }),
            Reply::Running => Ok(Reply::Running),
            Reply::Spent => Ok(Reply::Spent),
            Reply::BadSpec { fault } => Ok(Reply::BadSpec {
                fault: fault.copy(alloc)?,
            }),
            Reply::Scanned { side, lsns, last } => Ok(Reply::Scanned {
                side: *side,
                lsns: lsns.copy(alloc)?,
                last: *last,
            }),
            Reply::ScanOver => Ok(Reply::ScanOver),
            Reply::Fetched { from, to } => Ok(Reply::Fetched {
                from: *from,
                to: *to,
            }),
            Reply::Agree { lsn } => Ok(Reply::Agree { lsn: *lsn }),
            Reply::Disagree { first, second } => Ok(Reply::Disagree {
                first: first.copy(alloc)?,
                second: second.copy(alloc)?,
            }),
            Reply::Empty => Ok(Reply::Empty),
            Reply::NotSplit => Ok(Reply::NotSplit),
            Reply::Switched { lsn } => Ok(Reply::Switched { lsn: *lsn }),
            Reply::NoTransform => Ok(Reply::NoTransform),
            Reply::NotScanned => Ok(Reply::NotScanned),
            Reply::Unread { pos, end } => Ok(Reply::Unread {
                pos: *pos,
                end: *end,
            }),
            Reply::Conflict { txn } => Ok(Reply::Conflict { txn: *txn }),
            Reply::Violated { first, second } => Ok(Reply::Violated {
                first: first.copy(alloc)?,
                second: second.copy(alloc)?,
            }),
            Reply::Cancelled => Ok(Reply::Cancelled),
        }
    }
}

impl Copied for Entry {
    fn copy(&self, alloc: Global) -> Result<Self, AllocError> {
        Ok(Entry {
            actor: self.actor,
            event: self.event.copy(alloc)?,
            reply: self.reply.copy(alloc)?,
        })
    }
}
