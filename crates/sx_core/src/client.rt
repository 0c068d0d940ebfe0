// A client's requests, by whether it is in a transaction.
ghost use Rattle.std.specs.Prelude.{◌≡◌, ◌≢◌, ◌≤◌, true, Option, Some, None, IsOk};
ghost use Rattle.sx_sync.specs.declared.Phase.TheVariants.{Idle};
ghost use Rattle.sx_journal.specs.declared.entry.Event.TheVariants.{Client};
ghost use Rattle.sx_model.specs.Leaves.{phase, txn_of};
ghost use Rattle.sx_model.specs.Held.{is_ending};
ghost use Rattle.sx_model.specs.Schedules.{commits_now};
ghost use Rattle.sx_core.specs.Answers.{AnswersClient};
ghost use Rattle.sx_core.specs.Asked.{Comes, HasPlace, IsInside};

use crate::{Core, CoreFault};
use std::sync::ledger::Ledger;
use sx_journal::{Reply, Request};
use sx_steps::Steps;
use sx_txn::Change;

impl Core {
    /// Answers a client's request.
    pub fn client<L: Ledger>(
        &mut self,
        actor: u8,
        request: Request,
        steps: &mut Steps<L>,
    ) -> Result<Reply, CoreFault>
        requires from_one { 1 ≤ actor }
        requires to_eight { actor ≤ 8 }
        ensures answer { AnswersClient self.old self.new actor request result }
        ensures commits { commits_now self.old.opening self.old.past actor (Client request) ≡ true → IsOk result }
    {
        match self.txn_of(actor) {
            None => self.outside(actor, request),
            Some(txn) => {
                if self.is_ending(actor, txn) {
                    self.ending(actor, txn, request, steps)
                } else {
                    self.inside(actor, txn, request, steps)
                }
            }
        }
    }

    // A request without a live transaction.
    fn outside(&mut self, actor: u8, request: Request) -> Result<Reply, CoreFault>
        requires comes { Comes actor }
        requires outside { txn_of self.old.past actor ≡ None }
        ensures { AnswersClient self.old self.new actor request result }
    {
        if self.is_full() {
            return Err(CoreFault::Full);
        }
        match request {
            Request::Begin => self.begin(actor),
            request => self.note(actor, request, Reply::NoTxn),
        }
    }

    // A request in a transaction that is ending.
    fn ending<L: Ledger>(
        &mut self,
        actor: u8,
        txn: u64,
        request: Request,
        steps: &mut Steps<L>,
    ) -> Result<Reply, CoreFault>
        requires comes { Comes actor }
        requires inside { txn_of self.old.past actor ≡ Some txn }
        requires ending { is_ending self.old.past txn ≡ true }
        ensures { AnswersClient self.old self.new actor request result }
    {
        if self.is_full() {
            return Err(CoreFault::Full);
        }
        match request {
            Request::Undo => self.undo(actor, txn, steps),
            Request::Begin => self.already(actor, txn),
            request => self.note(actor, request, Reply::Ending),
        }
    }

    // A request in a transaction that isn't ending.
    fn inside<L: Ledger>(
        &mut self,
        actor: u8,
        txn: u64,
        request: Request,
        steps: &mut Steps<L>,
    ) -> Result<Reply, CoreFault>
        requires comes { Comes actor }
        requires inside { IsInside self.old actor txn }
        ensures answer { AnswersClient self.old self.new actor request result }
        ensures commits { request ≡ Request.Commit → IsOk result }
    {
        match request {
            Request::Commit => self.commit(actor, txn),
            request => self.act(actor, txn, request, steps),
        }
    }

    // Any other request than Commit in a transaction that isn't ending.
    fn act<L: Ledger>(
        &mut self,
        actor: u8,
        txn: u64,
        request: Request,
        steps: &mut Steps<L>,
    ) -> Result<Reply, CoreFault>
        requires comes { Comes actor }
        requires inside { IsInside self.old actor txn }
        requires other { request ≢ Request.Commit }
        ensures { AnswersClient self.old self.new actor request result }
    {
        if self.is_full() {
            return Err(CoreFault::Full);
        }
        match request {
            Request::Begin => self.already(actor, txn),
            Request::Read { table, key } => self.read(actor, txn, table, key, steps),
            Request::Insert { table, row } => {
                self.write(actor, txn, table, Change::Insert(row), steps)
            }
            Request::Update { table, row } => {
                self.write(actor, txn, table, Change::Replace(row), steps)
            }
            Request::Delete { table, key } => {
                self.write(actor, txn, table, Change::Delete(key), steps)
            }
            Request::Undo => self.undo(actor, txn, steps),
            Request::Commit => unreachable!(),
        }
    }

    // A begin in a transaction is refused.
    fn already(&mut self, actor: u8, txn: u64) -> Result<Reply, CoreFault>
        requires comes { Comes actor }
        requires place { HasPlace self.old }
        requires inside { txn_of self.old.past actor ≡ Some txn }
        ensures { AnswersClient self.old self.new actor Request.Begin result }
    {
        self.note(actor, Request::Begin, Reply::Already)
    }
}
