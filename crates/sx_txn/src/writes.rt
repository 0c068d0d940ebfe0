// What transactions write.
ghost use Rattle.std.specs.Prelude.{◌≡◌, ◌+◌, ◌≤◌, true, false, IfOk, OnErr};
ghost use Rattle.sx_txn.specs.Managed.{OwnMeets, Unchanged, is_live, is_ending};
ghost use Rattle.sx_txn.specs.Turns.{CanChange};
ghost use Rattle.sx_txn.specs.Answers.{AnswersWrite, AnswersAt};
ghost use Rattle.sx_txn.specs.Patches.{AnswersPut, IsKeyOf, CanPatch, HasImage};

use crate::lives::{make_room, note_write};
use crate::manager::next_lsn;
use crate::patch::{Patch, image_of, put_locked, refusal_of};
use crate::{Change, Manager, TxnWrite};
use std::alloc::AllocError;
use std::sync::ledger::Ledger;
use sx_lists::Copied;
use sx_locks::{Asked, Mode};
use sx_steps::Steps;
use sx_values::{Key, Name};

impl Manager {
    /// Changes the row of a key and locks the key, for itself alone, to the transaction's end.
    /// Any other answer than Done changes nothing, and nor does want of memory.
    #[tactic(auto, using(crate::proofs::EventLemmas::tables_stay))]
    pub fn write<L: Ledger>(
        &mut self,
        txn: u64,
        table: &Name,
        change: Change,
        steps: &mut Steps<L>,
    ) -> Result<TxnWrite, AllocError>
        requires live { is_live self.old.living txn ≡ true }
        requires resting { is_ending self.old.living txn ≡ false }
        requires change { CanChange self.old.shapes table.now change }
        ensures ok { IfOk result (AnswersWrite self.old self.new txn table.now change) }
        ensures err { OnErr result (Unchanged self.old self.new) }
        ensures meets { OwnMeets self.old }
        ensures least { steps.old ≤ steps.new }
        ensures most { steps.new ≤ steps.old + 1 }
    {
        let key = self.key_found(table, &change)?;
        self.write_at(txn, table, key, change, steps)
    }

    // Changes the row of a key.
    #[tactic(auto, using(crate::proofs::EventLemmas::tables_stay))]
    fn write_at<L: Ledger>(
        &mut self,
        txn: u64,
        table: &Name,
        key: Key,
        change: Change,
        steps: &mut Steps<L>,
    ) -> Result<TxnWrite, AllocError>
        requires live { is_live self.old.living txn ≡ true }
        requires change { CanChange self.old.shapes table.now change }
        requires key { IsKeyOf self.old.shapes table.now change key }
        ensures ok { IfOk result (AnswersAt self.old self.new txn table.now key change) }
        ensures err { OnErr result (Unchanged self.old self.new) }
        ensures least { steps.old ≤ steps.new }
        ensures most { steps.new ≤ steps.old + 1 }
    {
        let before = self.row_found(table, &key, steps)?;
        match refusal_of(&change, &before) {
            Some(answer) => match self.locks.least_holder(txn, table, &key, Mode::Exclusive) {
                Some(by) => Ok(TxnWrite::Held { by }),
                None => Ok(answer),
            },
            None => {
                let table = table.copy(self.alloc)?;
                let after = image_of(change);
                self.put(
                    txn,
                    Patch {
                        table,
                        key,
                        before,
                        after,
                    },
                )
            }
        }
    }

    // Makes a change, locks its key and appends its record, unless another transaction has locked the key.
    #[tactic(auto, using(crate::proofs::EventLemmas::tables_stay))]
    fn put(&mut self, txn: u64, patch: Patch) -> Result<TxnWrite, AllocError>
        requires live { is_live self.old.living txn ≡ true }
        requires can { CanPatch self.old patch }
        requires some { HasImage patch }
        ensures ok { IfOk result (AnswersPut self.old self.new txn patch) }
        ensures err { OnErr result (Unchanged self.old self.new) }
    {
        let image = patch.after.copy(self.alloc)?;
        make_room(&mut self.log, &mut self.living, txn)?;
        let lsn = next_lsn(&self.log);
        match put_locked(&mut self.tables, &mut self.locks, txn, &patch, image, lsn)? {
            Asked::Held { by } => {
                drop(patch);
                Ok(TxnWrite::Held { by })
            }
            Asked::Granted => {
                note_write(&mut self.living, txn, lsn);
                self.log.append(patch.into_write(txn));
                Ok(TxnWrite::Done { lsn })
            }
        }
    }
}
