// What a transaction asks to change, and what it is answered.
use std::alloc::{AllocError, Global};
use sx_lists::Copied;
use sx_values::{Key, Row};

/// A change of the row of one key.
#[derive(Debug, Drop)]
pub enum Change {
    /// Puts a row in where its key has none.
    Insert(Row),
    /// Puts a row in the place of that of its key.
    Replace(Row),
    /// Takes the row of a key out.
    Delete(Key),
}

/// What a transaction reads.
#[derive(Debug, Drop)]
pub enum TxnRead {
    /// The row that the key has now.
    Row { row: Row },
    /// The key has no row.
    Absent,
    /// This transaction, the least such, has a conflicting lock.
    Held { by: u64 },
}

/// What a change is answered.
#[derive(Clone, Copy, Debug, PartialEq, Eq)]
pub enum TxnWrite {
    /// It was made, with the record of this LSN.
    Done { lsn: u64 },
    /// This transaction, the least such, has a conflicting lock.
    Held { by: u64 },
    /// An insert, and the key has a row.
    Exists,
    /// No insert, and the key has no row.
    Missing,
}

/// What an undo is answered.
#[derive(Clone, Copy, Debug, PartialEq, Eq)]
pub enum TxnUndo {
    /// The last write that was left is undone, with the record of this LSN.
    Undone { lsn: u64 },
    /// Nothing was left to undo: the transaction has ended, with the record of this LSN.
    Aborted { lsn: u64 },
}

impl Copied for Change {
    fn copy(&self, alloc: Global) -> Result<Self, AllocError> {
        match self {
            Change::Insert(row) => Ok(Change::Insert(row.copy(alloc)?)),
            Change::Replace(row) => Ok(Change::Replace(row.copy(alloc)?)),
            Change::Delete(key) => Ok(Change::Delete(key.copy(alloc)?)),
        }
    }
}

impl Copied for TxnRead {
    fn copy(&self, alloc: Global) -> Result<Self, AllocError> {
        match self {
            TxnRead::Row { row } => Ok(TxnRead::Row {
                row: row.copy(alloc)?,
            }),
            TxnRead::Absent => Ok(TxnRead::Absent),
            TxnRead::Held { by } => Ok(TxnRead::Held { by: *by }),
        }
    }
}

impl Copied for TxnWrite {
    fn copy(&self, _alloc: Global) -> Result<Self, AllocError> {
        Ok(*self)
    }
}

impl Copied for TxnUndo {
    fn copy(&self, _alloc: Global) -> Result<Self, AllocError> {
        Ok(*self)
    }
}
