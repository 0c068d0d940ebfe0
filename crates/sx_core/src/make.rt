// The machine before its first event, from its tables and the rows that they have from the start.
ghost use Rattle.std.specs.Prelude.{◌≡◌, ◌+◌, ◌⊎◌, [], map, length, Some, None, IfOk, IfErr, OnOk, IsSomeAnd};
ghost use Rattle.std.specs.Option.{option_copied};
ghost use Rattle.std.specs.List.{IsDistinct};
ghost use Rattle.sx_values.specs.Names.{same_name};
ghost use Rattle.sx_values.specs.Catalogs.{table_names};
ghost use Rattle.sx_heap.specs.NamedTables.{AreNamedApart, CanHold, table_named};
ghost use Rattle.sx_model.specs.Loads.{loaded_into};
ghost use Rattle.sx_core.specs.declared.make.MakeFault.TheVariants.{Memory};
ghost use Rattle.sx_core.specs.Loading.{empty_table, crowded, put_fault, Made, Loads, PutsLoad};

use crate::clients::Clients;
use crate::{Core, Load, Loads};
use std::alloc::{AllocError, Global};
use sx_heap::{Cursor, Table, Tables};
use sx_journal::Journal;
use sx_lists::Copied;
use sx_log::{Body, Log, Rec};
use sx_sync::Phase;
use sx_txn::Manager;
use sx_values::{BadRow, Catalog, Declared, Key, Name};

/// How many rows may be loaded into one table.
const MOST_LOADS: u64 = 100_000;

/// Why no machine was made.
#[derive(Debug, Drop)]
pub enum MakeFault {
    /// Memory ran out.
    Memory,
    /// More than 100,000 rows are loaded into this table.
    TooManyRows { table: Name },
    /// No table has the name that the load at this place from 1 gives.
    NoTable { place: u64 },
    /// The table doesn't admit the row of the load at this place.
    BadRow { place: u64, bad: BadRow },
    /// The load at this place has the key of an earlier load of its table.
    RepeatedKey { place: u64 },
}

impl Copied for MakeFault {
    fn copy(&self, alloc: Global) -> Result<Self, AllocError> {
        Ok(match self {
            MakeFault::Memory => MakeFault::Memory,
            MakeFault::TooManyRows { table } => MakeFault::TooManyRows {
                table: table.copy(alloc)?,
            },
            MakeFault::NoTable { place } => MakeFault::NoTable { place: *place },
            MakeFault::BadRow { place, bad } => MakeFault::BadRow {
                place: *place,
                bad: *bad,
            },
            MakeFault::RepeatedKey { place } => MakeFault::RepeatedKey { place: *place },
        })
    }
}

impl From<AllocError> for MakeFault {
    ghost from_gives = { λ _ fault. fault ≡ Memory };

    fn from(_error: AllocError) -> Self {
        MakeFault::Memory
    }
}

// Tables with the log that tells how their rows came.
#[derive(Drop)]
pub(crate) struct Base {
    pub(crate) tables: Tables,
    pub(crate) log: Log,
}

impl Core {
    /// The machine with the tables of the catalog and these rows in them. No event has come yet.
    /// The first table in the catalog's order that has too many rows is named before the first
    /// faulty load.
    pub fn make(alloc: Global, catalog: Catalog, rows: Loads) -> Result<Core, MakeFault>
        ensures { Made catalog rows result }
    {
        if let Some(table) = crowded(catalog.tables(), rows.as_slice()) {
            return Err(MakeFault::TooManyRows {
                table: table.copy(alloc)?,
            });
        }
        let known = catalog.copy(alloc)?;
        let Base { tables, log } = loaded(alloc, &catalog, rows)?;
        Ok(Core {
            alloc,
            catalog,
            known,
            loads: log.len(),
            manager: Manager::new(alloc, tables, log),
            journal: Journal::new(alloc),
            clients: Clients::new(alloc),
            phase: Phase::Idle,
            spec: None,
            cursor: Cursor::start(),
            position: 0,
        })
    }
}

// The first declared table into which too many of these rows are loaded.
fn crowded<'a>(declared: &'a [Declared], loads: &[Load]) -> Option<&'a Name>
    ensures { option_copied result ≡ crowded declared.now loads.now }
{
    match declared {
        [] => None,
        [first, rest @ ..] => {
            if count_into(&first.name, loads) > MOST_LOADS {
                Some(&first.name)
            } else {
                crowded(rest, loads)
            }
        }
    }
}

// How many of these rows are loaded into a table.
fn count_into(name: &Name, loads: &[Load]) -> u64
    ensures { result ≡ length (loaded_into name.now loads.now) }
{
    loads.iter().filter(|load| load.table == *name).count() as u64
}

// The tables of the catalog with these rows.
fn loaded(alloc: Global, catalog: &Catalog, rows: Loads) -> Result<Base, MakeFault>
    ensures { Loads catalog.now rows result }
{
    let tables = empty_tables(alloc, catalog.tables())?;
    let mut base = Base {
        tables,
        log: Log::new(alloc),
    };
    for load in rows.into_vec() {
        put_load(alloc, &mut base, load)?;
    }
    Ok(base)
}

// The declared tables, in order and without rows.
fn empty_tables(alloc: Global, declared: &[Declared]) -> Result<Tables, AllocError>
    requires { IsDistinct same_name (table_names declared.now) }
    ensures { IfOk result (λ tables. tables ≡ map empty_table declared.now) }
{
    let mut tables = Tables::new(alloc);
    for table in declared {
        let schema = table.schema.copy(alloc)?;
        tables.push(table.name.copy(alloc)?, Table::new(alloc, schema))?;
    }
    Ok(tables)
}

// Puts a loaded row into its table and notes it in the log.
fn put_load(alloc: Global, base: &mut Base, load: Load) -> Result<(), MakeFault>
    ensures ok { OnOk result (IsSomeAnd (table_named base.old.tables load.table) (PutsLoad base.old.log.newest base.new.log.newest base.old.tables base.new.tables load)) }
    ensures apart { AreNamedApart base.old.tables }
    ensures err { IfErr result (λ fault. (fault ≡ Memory) ⊎ (put_fault (table_named base.old.tables load.table) (length base.old.log.newest + 1) load ≡ Some fault)) }
{
    let lsn = next_lsn(&base.log);
    let key = admitted_key(alloc, &base.tables, &load, lsn)?;
    let Load { table, row } = load;
    base.log.reserve(1)?;
    if !base
        .tables
        .put(&table, key.copy(alloc)?, row.copy(alloc)?, lsn)?
    {
        return Err(MakeFault::RepeatedKey { place: lsn });
    }
    let body = Body::Write {
        table,
        key,
        before: None,
        after: Some(row),
    };
    base.log.append(Rec { txn: 0, body });
    Ok(())
}

// The key of the load at a place, whose row its table admits.
fn admitted_key(alloc: Global, tables: &Tables, load: &Load, place: u64) -> Result<Key, MakeFault>
    ensures ok { IfOk result (λ key. IsSomeAnd (table_named tables.now load.now.table) (CanHold key load.now.row)) }
    ensures apart { AreNamedApart tables.now }
    ensures err { IfErr result (λ fault. (fault ≡ Memory) ⊎ (put_fault (table_named tables.now load.now.table) place load.now ≡ Some fault)) }
{
    let Some(table) = tables.find(&load.table) else {
        return Err(MakeFault::NoTable { place });
    };
    match table.schema().admits(&load.row) {
        Err(bad) => Err(MakeFault::BadRow { place, bad }),
        Ok(()) => Ok(table.schema().key_of(alloc, &load.row)?),
    }
}

// The LSN of the next record.
fn next_lsn(log: &Log) -> u64
    ensures { result ≡ length log.now.newest + 1 }
{
    log.as_slice().len() as u64 + 1
}
