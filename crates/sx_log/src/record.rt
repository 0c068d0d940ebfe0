// Records of the log.
ghost use Rattle.std.specs.Prelude.{◌≡◌, IfOk};

use std::alloc::{AllocError, Global};
use sx_lists::Copied;
use sx_values::{Key, Name, Row};

/// A record of the log. Transaction 0 is nobody's: loaded rows, and what the propagator notes.
#[derive(Debug, Drop)]
pub struct Rec {
    pub txn: u64,
    pub body: Body,
}

/// What a record tells. An absent row has no image.
#[derive(Debug, Drop)]
pub enum Body {
    /// The row of a key changed.
    Write {
        table: Name,
        key: Key,
        before: Option<Row>,
        after: Option<Row>,
    },
    /// The write of this LSN was undone.
    Undo {
        undoes: u64,
        table: Name,
        key: Key,
        before: Option<Row>,
        after: Option<Row>,
    },
    Commit,
    Abort,
    /// A transformation started.
    Mark,
    /// The rows of a group agreed on these dependent values.
    Check {
        group: Key,
        dep: Key,
    },
    /// The new tables became visible.
    Switch,
}

impl Copied for Rec {
    fn copy(&self, alloc: Global) -> Result<Self, AllocError> {
        Ok(Rec {
            txn: self.txn,
            body: self.body.copy(alloc)?,
        })
    }
}

impl Copied for Body {
    fn copy(&self, alloc: Global) -> Result<Self, AllocError> {
        match self {
            Body::Write {
                table,
                key,
                before,
                after,
            } => Ok(Body::Write {
                table: table.copy(alloc)?,
                key: key.copy(alloc)?,
                before: before.copy(alloc)?,
                after: after.copy(alloc)?,
            }),
            Body::Undo {
                undoes,
                table,
                key,
                before,
                after,
            } => Ok(Body::Undo {
                undoes: *undoes,
                table: table.copy(alloc)?,
                key: key.copy(alloc)?,
                before: before.copy(alloc)?,
                after: after.copy(alloc)?,
            }),
            Body::Commit => Ok(Body::Commit),
            Body::Abort => Ok(Body::Abort),
            Body::Mark => Ok(Body::Mark),
            Body::Check { group, dep } => Ok(Body::Check {
                group: group.copy(alloc)?,
                dep: dep.copy(alloc)?,
            }),
            Body::Switch => Ok(Body::Switch),
        }
    }
}

/// A row that a table has from the start. It counts as written by transaction 0 and committed.
#[derive(Debug, Drop)]
pub struct Load {
    pub table: Name,
    pub row: Row,
}

impl Copied for Load {
    fn copy(&self, alloc: Global) -> Result<Self, AllocError> {
        Ok(Load {
            table: self.table.copy(alloc)?,
            row: self.row.copy(alloc)?,
        })
    }
}
