// The machine and its fields.
ghost use Rattle.std.specs.Prelude.{◌≡◌};
ghost use Rattle.sx_core.specs.declared.machine.CoreFault.TheVariants.{Memory};

use crate::clients::Clients;
use std::alloc::{AllocError, AllocFailed, Global};
use std::marker::Model;
use sx_heap::{Cursor, Tables};
use sx_journal::Journal;
use sx_lists::Copied;
use sx_log::Log;
use sx_ops::Spec;
use sx_sync::Phase;
use sx_txn::Manager;
use sx_values::Catalog;

/// How many entries and live transactions make the journal full.
const FULL: u64 = 50_000;

/// Why an event got no reply. It then left the machine as it was.
#[derive(Clone, Copy, Debug, PartialEq, Eq)]
pub enum CoreFault {
    /// Memory ran out.
    Memory,
    /// Entries and live transactions number 50,000 or more.
    Full,
}

impl Copied for CoreFault {
    fn copy(&self, _alloc: Global) -> Result<Self, AllocError> {
        Ok(*self)
    }
}

impl From<AllocError> for CoreFault {
    ghost from_gives = { λ _ e. e ≡ Memory };

    fn from(_: AllocError) -> Self {
        CoreFault::Memory
    }
}

/// The machine. It is changed by its events alone.
#[derive(Drop)]
pub struct Core {
    pub(crate) alloc: Global,
    pub(crate) catalog: Catalog,
    /// The tables that a name may mean: the declared ones and, from a start on, the new ones.
    pub(crate) known: Catalog,
    /// How many records of the log are those of loaded rows.
    pub(crate) loads: u64,
    /// The tables, the log, and the transactions with their locks.
    pub(crate) manager: Manager,
    pub(crate) journal: Journal,
    pub(crate) clients: Clients,
    pub(crate) phase: Phase,
    /// The transformation that was started last.
    pub(crate) spec: Option<Spec>,
    /// How far the scan has come in its source.
    pub(crate) cursor: Cursor,
    /// How far the log was handed out.
    pub(crate) position: u64,
}

impl Model for Core {
    ghost use Rattle.std.specs.Prelude.{◌≤◌, length};
    ghost use Rattle.sx_log.specs.State.{oldest};
    ghost use Rattle.sx_core.specs.Machines.{Machine};
    ghost use Rattle.sx_core.specs.Kept.{IsKept};

    ghost Value = { Machine };

    ghost view = { λ c. record { opening = record { catalog = c.catalog; loads = oldest c.loads c.manager.log }; past = c.journal.newest } };

    ghost invariant = { λ c. (c.loads ≤ length c.manager.log)
        × IsKept (record { catalog = c.catalog; loads = oldest c.loads c.manager.log }) c.journal.newest
        (record { managed = c.manager; spare = c.journal.spare; clients = c.clients.newest; known = c.known; now = c.phase; spec = c.spec; cursor = c.cursor; position = c.position }) };
}

impl Core {
    ghost use Rattle.std.specs.Prelude.{◌≤◌, ◌+◌, ◌↔◌, IsTrue, true, length, is_some, Some};
    ghost use Rattle.sx_txn.specs.Managed.{AreTables};
    ghost use Rattle.sx_model.specs.Leaves.{living, phase, txn_of};
    ghost use Rattle.sx_model.specs.Legal.{Legal};
    ghost use Rattle.sx_model.specs.Logs.{log_of};
    ghost use Rattle.sx_model.specs.Held.{is_ending};
    ghost use Rattle.sx_core.specs.Kept.{shapes_of};
    ghost use Rattle.sx_core.specs.Views.{AreNew};

    /// How far the transformation has come.
    pub fn phase(&self) -> Phase
        ensures { result ≡ phase self.now.past }
    {
        self.phase
    }

    /// All entries.
    pub fn journal(&self) -> &Journal
        ensures journal { result.now.newest ≡ self.now.past }
        ensures legal { Legal self.now.opening self.now.past }
    {
        &self.journal
    }

    /// All records.
    pub fn log(&self) -> &Log
        ensures { result.now.newest ≡ log_of self.now.opening self.now.past }
    {
        self.manager.log()
    }

    /// The declared tables, in the order of their declaration.
    pub fn tables(&self) -> &Tables
        ensures { AreTables (log_of self.now.opening self.now.past) (shapes_of self.now.opening.catalog) result.now }
    {
        self.manager.tables()
    }

    /// The new tables, in the order of the transformation's text; none before the switch.
    pub fn new_tables(&self) -> &Tables
        ensures { AreNew self.now.opening self.now.past result.now }
    {
        self.manager.new_tables()
    }

    /// Whether a client has a live transaction.
    pub fn lives(&self, client: u8) -> bool
        ensures { result ≡ is_some (txn_of self.now.past client) }
    {
        self.txn_of(client).is_some()
    }

    // The live transaction of a client, if it has one.
    pub(crate) fn txn_of(&self, client: u8) -> Option<u64>
        ensures { result ≡ txn_of self.now.past client }
    {
        self.clients.txn_of(client)
    }

    // Whether a client's transaction is ending.
    pub(crate) fn is_ending(&self, client: u8, txn: u64) -> bool
        requires { txn_of self.now.past client ≡ Some txn }
        ensures { result ≡ is_ending self.now.past txn }
    {
        self.manager.ending(txn)
    }

    // Whether the journal has no place for a further entry.
    pub(crate) fn is_full(&self) -> bool
        ensures { IsTrue result ↔ (50000 ≤ length self.now.past + length (living self.now.past)) }
    {
        let places = FULL.saturating_sub(self.clients.len());
        self.journal.len() >= places
    }
}
