// A row as it was seen in a table.
use std::alloc::{AllocError, Global};
use sx_lists::{Copied, List};
use sx_values::{Key, Row};

/// A row with its key, and the LSN of the record that put it there.
#[derive(Debug, Drop)]
pub struct Seen {
    pub key: Key,
    pub row: Row,
    pub lsn: u64,
}

/// Rows as they were seen, in order.
pub type Seens = List<Seen>;

impl Copied for Seen {
    fn copy(&self, alloc: Global) -> Result<Self, AllocError> {
        let key = self.key.copy(alloc)?;
        let row = self.row.copy(alloc)?;
        Ok(Seen {
            key,
            row,
            lsn: self.lsn,
        })
    }
}
