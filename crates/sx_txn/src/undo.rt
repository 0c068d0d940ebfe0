// How writes are undone, the last one first.
ghost use Rattle.std.specs.Prelude.{◌≡◌, ◌+◌, ◌≤◌, true, Some, IfOk, OnErr};
ghost use Rattle.sx_log.specs.Undoing.{writes_left};
ghost use Rattle.sx_txn.specs.Managed.{OwnMeets, Unchanged, is_live};
ghost use Rattle.sx_txn.specs.Turns.{Undoes, CanUndo, CanUndoLast};
ghost use Rattle.sx_txn.specs.Writes.{first_of};
ghost use Rattle.sx_txn.specs.Answers.{AnswersUndo};
ghost use Rattle.sx_txn.specs.Patches.{IsBack};

use crate::lives::{last_write, undo_write};
use crate::manager::next_lsn;
use crate::patch::{Patch, put_image};
use crate::{Manager, TxnUndo};
use std::alloc::AllocError;
use std::sync::ledger::Ledger;
use sx_lists::Copied;
use sx_log::Body;
use sx_steps::Steps;

impl Manager {
    /// Undoes the last write of a transaction that is not undone, which makes it an ending one;
    /// where none is left, the transaction ends. Want of memory changes nothing.
    #[tactic(auto, using(crate::proofs::EventLemmas::tables_stay))]
    pub fn undo_one<L: Ledger>(
        &mut self,
        txn: u64,
        steps: &mut Steps<L>,
    ) -> Result<TxnUndo, AllocError>
        requires live { is_live self.old.living txn ≡ true }
        requires can { CanUndoLast self.old txn }
        ensures ok { IfOk result (AnswersUndo self.old self.new txn) }
        ensures err { OnErr result (Unchanged self.old self.new) }
        ensures meets { OwnMeets self.old }
        ensures least { steps.old ≤ steps.new }
        ensures most { steps.new ≤ steps.old + 1 }
    {
        match self.last_left(txn) {
            Some(undoes) => {
                let lsn = self.undo(txn, undoes, steps)?;
                Ok(TxnUndo::Undone { lsn })
            }
            None => {
                let lsn = self.end(txn, Body::Abort);
                Ok(TxnUndo::Aborted { lsn })
            }
        }
    }

    // The last write of a transaction that is not undone, if there is one.
    pub(crate) fn last_left(&self, txn: u64) -> Option<u64>
        requires { is_live self.now.living txn ≡ true }
        ensures last { result ≡ first_of (writes_left txn self.now.log) }
        ensures meets { OwnMeets self.now }
    {
        last_write(&self.living, txn)
    }

    // Undoes a transaction's last write that is not undone.
    #[tactic(auto, using(crate::proofs::EventLemmas::tables_stay))]
    fn undo<L: Ledger>(
        &mut self,
        txn: u64,
        undoes: u64,
        steps: &mut Steps<L>,
    ) -> Result<u64, AllocError>
        requires live { is_live self.old.living txn ≡ true }
        requires last { first_of (writes_left txn self.old.log) ≡ Some undoes }
        requires can { CanUndo self.old.log self.old.shapes txn undoes }
        ensures ok { IfOk result (Undoes self.old self.new txn) }
        ensures err { OnErr result (Unchanged self.old self.new) }
        ensures least { steps.old ≤ steps.new }
        ensures most { steps.new ≤ steps.old + 1 }
    {
        let patch = self.patch_of(txn, undoes, steps)?;
        self.put_back(txn, undoes, patch)
    }

    // Makes a change that undoes a write, and appends its record, whose LSN it answers.
    #[tactic(auto, using(crate::proofs::EventLemmas::tables_stay))]
    fn put_back(&mut self, txn: u64, undoes: u64, patch: Patch) -> Result<u64, AllocError>
        requires live { is_live self.old.living txn ≡ true }
        requires last { first_of (writes_left txn self.old.log) ≡ Some undoes }
        requires back { IsBack self.old txn undoes patch }
        ensures ok { IfOk result (Undoes self.old self.new txn) }
        ensures err { OnErr result (Unchanged self.old self.new) }
    {
        let image = patch.after.copy(self.alloc)?;
        self.log.reserve(self.living.len() as u64 + 1)?;
        let lsn = next_lsn(&self.log);
        put_image(&mut self.tables, &patch, image, lsn)?;
        undo_write(&mut self.living, txn);
        self.log.append(patch.into_undo(txn, undoes));
        Ok(lsn)
    }

    // The change that undoes a transaction's last write that is not undone.
    fn patch_of<L: Ledger>(
        &self,
        txn: u64,
        undoes: u64,
        steps: &mut Steps<L>,
    ) -> Result<Patch, AllocError>
        requires live { is_live self.now.living txn ≡ true }
        requires last { first_of (writes_left txn self.now.log) ≡ Some undoes }
        requires can { CanUndo self.now.log self.now.shapes txn undoes }
        ensures ok { IfOk result (IsBack self.now txn undoes) }
        ensures least { steps.old ≤ steps.new }
        ensures most { steps.new ≤ steps.old + 1 }
    {
        let Some(found) = self.log.at(undoes) else {
            unreachable!()
        };
        let Body::Write {
            table,
            key,
            before,
            ..
        } = &found.body
        else {
            unreachable!()
        };
        let there = self.row_found(table, key, steps)?;
        let after = before.copy(self.alloc)?;
        Ok(Patch {
            table: table.copy(self.alloc)?,
            key: key.copy(self.alloc)?,
            before: there,
            after,
        })
    }
}
