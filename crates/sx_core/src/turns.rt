// What a client's turn does to the machine, rows apart.
ghost use Rattle.std.specs.Prelude.{◌≡◌, Some, None, IsOk};
ghost use Rattle.sx_model.specs.Effects.{effect, Nothing};
ghost use Rattle.sx_model.specs.Leaves.{txn_of};
ghost use Rattle.sx_model.specs.Replies.{client_reply};
ghost use Rattle.sx_core.specs.Answers.{AnswersClient};
ghost use Rattle.sx_core.specs.Asked.{Comes, HasPlace, IsInside};

use crate::{Core, CoreFault};
use std::sync::ledger::Ledger;
use sx_journal::{Entry, Event, Reply, Request};
use sx_lists::Copied;
use sx_steps::Steps;
use sx_txn::TxnUndo;

impl Core {
    // Notes an answer that changes nothing.
    pub(crate) fn note(
        &mut self,
        actor: u8,
        request: Request,
        reply: Reply,
    ) -> Result<Reply, CoreFault>
        requires comes { Comes actor }
        requires place { HasPlace self.old }
        requires answered { client_reply self.old.opening self.old.past actor request ≡ reply }
        requires quiet { effect reply ≡ Nothing }
        ensures { AnswersClient self.old self.new actor request result }
    {
        let answer = reply.copy(self.alloc)?;
        self.journal.reserve(self.clients.room_and(1))?;
        self.journal.append(Entry {
            actor,
            event: Event::Client(request),
            reply,
        });
        Ok(answer)
    }

    // Begins a transaction of the client's.
    pub(crate) fn begin(&mut self, actor: u8) -> Result<Reply, CoreFault>
        requires comes { Comes actor }
        requires place { HasPlace self.old }
        requires outside { txn_of self.old.past actor ≡ None }
        ensures { AnswersClient self.old self.new actor Request.Begin result }
    {
        self.journal.reserve(self.clients.room_and(2))?;
        self.clients.reserve()?;
        let txn = self.manager.begin()?;
        self.clients.add(actor, txn);
        self.journal.append(Entry {
            actor,
            event: Event::Client(Request::Begin),
            reply: Reply::Begun { txn },
        });
        Ok(Reply::Begun { txn })
    }

    // Commits the client's transaction. It takes no memory.
    pub(crate) fn commit(&mut self, actor: u8, txn: u64) -> Result<Reply, CoreFault>
        requires comes { Comes actor }
        requires inside { IsInside self.old actor txn }
        ensures answer { AnswersClient self.old self.new actor Request.Commit result }
        ensures done { IsOk result }
    {
        let lsn = self.manager.commit(txn);
        self.clients.remove(actor);
        self.journal.append(Entry {
            actor,
            event: Event::Client(Request::Commit),
            reply: Reply::Committed { lsn },
        });
        Ok(Reply::Committed { lsn })
    }

    // Undoes the last write of the client's transaction that isn't undone, or ends the transaction.
    pub(crate) fn undo<L: Ledger>(
        &mut self,
        actor: u8,
        txn: u64,
        steps: &mut Steps<L>,
    ) -> Result<Reply, CoreFault>
        requires comes { Comes actor }
        requires place { HasPlace self.old }
        requires inside { txn_of self.old.past actor ≡ Some txn }
        ensures { AnswersClient self.old self.new actor Request.Undo result }
    {
        self.journal.reserve(self.clients.room_and(1))?;
        match self.manager.undo_one(txn, steps)? {
            TxnUndo::Undone { lsn } => {
                self.journal.append(Entry {
                    actor,
                    event: Event::Client(Request::Undo),
                    reply: Reply::Undone { lsn },
                });
                Ok(Reply::Undone { lsn })
            }
            TxnUndo::Aborted { lsn } => {
                self.clients.remove(actor);
                self.journal.append(Entry {
                    actor,
                    event: Event::Client(Request::Undo),
                    reply: Reply::Aborted { lsn },
                });
                Ok(Reply::Aborted { lsn })
            }
        }
    }
}
