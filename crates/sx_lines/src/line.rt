// The lines of a script.
ghost use Rattle.std.specs.Prelude.{◌≡◌, IfOk};

use std::alloc::{AllocError, Global};
use sx_journal::{PropLine, What};
use sx_lists::Copied;
use sx_ops::Spec;
use sx_sync::Strategy;
use sx_values::{Name, Names, Row, Schema};

/// A line of a script, comments and empty lines apart.
#[derive(Debug, Drop)]
pub enum Line {
    Table { name: Name, schema: Schema },
    Index { table: Name, columns: Names },
    /// A row that a table has from the start.
    Row { table: Name, row: Row },
    /// The transformation.
    Change { spec: Spec },
    Strategy { strategy: Strategy },
    /// How often a client tries a transaction again.
    Retries { n: u8 },
    /// What a client asks; clients count from 1.
    Client { n: u8, what: What },
    /// What the propagator does.
    Pace(PropLine),
}

impl Copied for Line {
    fn copy(&self, alloc: Global) -> Result<Self, AllocError> {
        Ok(match self {
            Line::Table { name, schema } => Line::Table {
                name: name.copy(alloc)?,
                schema: schema.copy(alloc)?,
            },
            Line::Index { table, columns } => Line::Index {
                table: table.copy(alloc)?,
                columns: columns.copy(alloc)?,
            },
            Line::Row { table, row } => Line::Row {
                table: table.copy(alloc)?,
                row: row.copy(alloc)?,
            },
            Line::Change { spec } => Line::Change {
                spec: spec.copy(alloc)?,
            },
            Line::Strategy { strategy } => Line::Strategy {
                strategy: *strategy,
            },
            Line::Retries { n } => Line::Retries { n: *n },
            Line::Client { n, what } => Line::Client {
                n: *n,
                what: what.copy(alloc)?,
            },
            Line::Pace(line) => Line::Pace(*line),
        })
    }
}
