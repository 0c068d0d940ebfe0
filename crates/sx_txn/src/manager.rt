// The manager and its fields, and what it does without a key.
ghost use Rattle.std.specs.Prelude.{◌≡◌, ◌+◌, ◌≤◌, ◌<◌, ◌++◌, [], map, length, take, drop, true, false, IfOk, OnOk, OnErr};
ghost use Rattle.std.specs.List.{AllByRecursion};
ghost use Rattle.sx_log.specs.declared.record.Body.TheVariants.{Commit};
ghost use Rattle.sx_txn.specs.Managed.{AreTables, OwnMeets, Unchanged, SameBut, shape_of, is_live, is_ending};
ghost use Rattle.sx_txn.specs.Turns.{Begins, Ends, Notes, IsNote};
ghost use Rattle.sx_txn.specs.Kept.{IsEnd};
ghost use Rattle.sx_heap.specs.NamedTables.{AreNamedApart};

use crate::homes::Homes;
use crate::lives::{self, Live};
use std::alloc::{AllocError, Global};
use std::marker::Model;
use sx_heap::Tables;
use sx_locks::LockTable;
use sx_log::{Body, Log, Rec};

/// Tables with the log that tells how they came about, and the transactions that change them.
#[derive(Drop)]
pub struct Manager {
    pub(crate) alloc: Global,
    pub(crate) tables: Homes,
    pub(crate) log: Log,
    pub(crate) locks: LockTable,
    /// The live transactions, the last one begun first.
    pub(crate) living: Vec<Live>,
    /// How many transactions were begun.
    pub(crate) begun: u64,
}

impl Model for Manager {
    ghost use Rattle.sx_txn.specs.Managed.{Managed};
    ghost use Rattle.sx_txn.specs.Lives.{kept_all};
    ghost use Rattle.sx_txn.specs.Kept.{managed, IsManaged};

    ghost Value = { Managed };

    ghost view = { λ m. managed m.tables m.log m.locks (kept_all m.living.items) m.begun };

    ghost invariant = { λ m. IsManaged m.tables m.log (kept_all m.living.items) m.begun };
}

impl Manager {
    /// A manager without transactions and without new tables, of declared tables that have the rows that a log leaves.
    pub fn new(alloc: Global, tables: Tables, log: Log) -> Manager
        requires tables { AreTables log.newest (map shape_of tables) tables }
        requires nobody { AllByRecursion (λ r. r.txn ≡ 0) log.newest }
        ensures shapes { result.shapes ≡ map shape_of tables }
        ensures tables { result.tables ≡ tables }
        ensures own { result.own ≡ length tables }
        ensures log { result.log ≡ log.newest }
        ensures locks { result.locks ≡ [] }
        ensures living { result.living ≡ [] }
        ensures begun { result.begun ≡ 0 }
    {
        Manager {
            alloc,
            tables: Homes::new(alloc, tables),
            log,
            locks: LockTable::new(alloc),
            living: Vec::new(alloc),
            begun: 0,
        }
    }

    /// Begins a transaction, with room in the log for the record that will end it. Want of
    /// memory changes nothing but the room.
    #[tactic(auto, using(crate::proofs::EventLemmas::tables_stay))]
    pub fn begin(&mut self) -> Result<u64, AllocError>
        ensures ok { IfOk result (Begins self.old self.new) }
        ensures err { OnErr result (Unchanged self.old self.new) }
    {
        let txn = next_txn(self.begun, &self.log, &self.living);
        self.log.reserve(self.living.len() as u64 + 1)?;
        lives::add(self.alloc, &mut self.living, txn)?;
        self.begun = txn;
        Ok(txn)
    }

    /// Commits a transaction and answers the LSN of the record. It takes no memory.
    pub fn commit(&mut self, txn: u64) -> u64
        requires live { is_live self.old.living txn ≡ true }
        requires resting { is_ending self.old.living txn ≡ false }
        ensures { Ends self.old self.new txn Commit result }
    {
        self.end(txn, Body::Commit)
    }

    /// Makes room in the log for `n` records beside those that will end transactions. Want of
    /// memory changes nothing.
    #[tactic(auto, using(crate::proofs::EventLemmas::tables_stay))]
    pub fn room(&mut self, n: u64) -> Result<(), AllocError>
        ensures ok { OnOk result (n + length self.new.living ≤ self.new.spare) }
        ensures same { Unchanged self.old self.new }
    {
        match n.checked_add(self.living.len() as u64) {
            Some(room) => self.log.reserve(room),
            None => Err(AllocError),
        }
    }

    /// Appends a record of nobody's in room that was made, and answers its LSN. It takes no
    /// memory.
    #[tactic(auto, using(crate::proofs::EventLemmas::tables_stay))]
    pub fn note(&mut self, body: Body) -> u64
        requires note { IsNote body }
        requires room { length self.old.living < self.old.spare }
        ensures { Notes self.old self.new body result }
    {
        self.log.append(Rec { txn: 0, body })
    }

    /// Whether a transaction lives.
    pub fn live(&self, txn: u64) -> bool
        ensures live { result ≡ is_live self.now.living txn }
        ensures begun { result ≡ true → txn ≤ self.now.begun }
    {
        lives::is_live(&self.living, txn)
    }

    /// Whether a transaction lives and is ending: it undoes its writes.
    pub fn ending(&self, txn: u64) -> bool
        ensures { result ≡ is_ending self.now.living txn }
    {
        lives::is_ending(&self.living, txn)
    }

    /// The log.
    pub fn log(&self) -> &Log
        ensures log { result.now.newest ≡ self.now.log }
        ensures spare { result.now.spare ≡ self.now.spare }
        ensures room { length self.now.living ≤ self.now.spare }
    {
        &self.log
    }

    /// The declared tables.
    pub fn tables(&self) -> &Tables
        ensures now { result.now ≡ take self.now.own self.now.tables }
        ensures tables { AreTables self.now.log (map shape_of result.now) result.now }
        ensures shapes { map shape_of result.now ≡ take self.now.own self.now.shapes }
        ensures meets { OwnMeets self.now }
    {
        self.tables.own()
    }

    /// The new tables.
    pub fn new_tables(&self) -> &Tables
        ensures now { result.now ≡ drop self.now.own self.now.tables }
        ensures shapes { map shape_of result.now ≡ drop self.now.own self.now.shapes }
        ensures meets { OwnMeets self.now }
    {
        self.tables.fresh()
    }

    /// Puts in new tables where there are none. It takes no memory.
    pub fn put_new(&mut self, tables: Tables)
        requires none { length self.old.tables ≡ self.old.own }
        requires apart { AreNamedApart (self.old.tables ++ tables) }
        ensures tables { self.new.tables ≡ self.old.tables ++ tables }
        ensures others { SameBut self.old self.new }
    {
        self.tables.put_fresh(tables);
    }

    /// Hands out the new tables, and leaves none. It takes no memory.
    pub fn take_new(&mut self) -> Tables
        ensures were { result ≡ drop self.old.own self.old.tables }
        ensures tables { self.new.tables ≡ take self.old.own self.old.tables }
        ensures others { SameBut self.old self.new }
    {
        self.tables.take_fresh(self.alloc)
    }

    /// The locks.
    pub fn locks(&self) -> &LockTable
        ensures { result.now ≡ self.now.locks }
    {
        &self.locks
    }

    // Ends a transaction by this record, and frees its locks.
    pub(crate) fn end(&mut self, txn: u64, by: Body) -> u64
        requires live { is_live self.old.living txn ≡ true }
        requires ends { IsEnd by }
        ensures { Ends self.old self.new txn by result }
    {
        let lsn = self.log.append(Rec { txn, body: by });
        self.locks.release_all(txn);
        lives::remove(&mut self.living, txn);
        lsn
    }
}

// The number of the next transaction. Each one that has ended has a record.
fn next_txn(begun: u64, log: &Log, living: &[Live]) -> u64
    requires { begun ≤ length log.now.newest + length living.now }
    ensures { result ≡ begun + 1 }
{
    let most = log.as_slice().len() as u64 + living.len() as u64;
    prove!(begun <= most);
    begun + 1
}

// The LSN of the next record.
pub(crate) fn next_lsn(log: &Log) -> u64
    ensures { result ≡ length log.now.newest + 1 }
{
    log.as_slice().len() as u64 + 1
}
