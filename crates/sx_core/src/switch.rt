// The switch: the new tables become visible, unless something hinders it.
ghost use Rattle.std.specs.Prelude.{◌≡◌, ◌≤◌, map, length, Some, OnErr, OnOk, IfOk, IfSome};
ghost use Rattle.sx_lists.specs.Places.{following};
ghost use Rattle.sx_heap.specs.Relations.{IsRelation};
ghost use Rattle.sx_image.specs.Images.{CanFollow};
ghost use Rattle.sx_core.specs.Clients.{living_of};
ghost use Rattle.sx_ops.specs.Checks.{IsShaped};
ghost use Rattle.sx_model.specs.Effects.{effect, Nothing};
ghost use Rattle.sx_model.specs.Leaves.{phase};
ghost use Rattle.sx_model.specs.Logs.{next_lsn};
ghost use Rattle.sx_model.specs.Switches.{switch_reply};
ghost use Rattle.sx_journal.specs.declared.entry.Reply.TheVariants as reply;
ghost use Rattle.sx_core.specs.Answers.{AnswersSwitch};
ghost use Rattle.sx_core.specs.Asked.{HasPlace, IsScanned};
ghost use Rattle.sx_core.specs.Switching.{AreLives, AreFresh, reply_of, told_ready};
ghost use Rattle.sx_core.specs.Sources.{source_table};
ghost use Rattle.sx_core.specs.Stands.{Stands};

use crate::clients::Client;
use crate::{Core, uncounted};
use std::alloc::{AllocError, Global};
use std::sync::ledger::Ledger;
use sx_heap::Tables;
use sx_image::Image;
use sx_journal::{Entry, Event, Reply};
use sx_lists::Copied;
use sx_locks::LockTable;
use sx_log::{Body, Log};
use sx_ops::Spec;
use sx_steps::Steps;
use sx_sync::{Live, Lives, Phase, Ready, Strategy, switch_ready};
use sx_values::{Key, Name};

/// How an attempt to switch ends.
#[derive(Drop)]
pub enum SwitchOut {
    /// The new tables are visible.
    Switched { lsn: u64 },
    /// They aren't, and the image comes back.
    Back { image: Image, cause: Cause },
}

/// Why an image comes back. Want of memory, a full journal and worn turns note nothing; each of the others has its entry.
#[derive(Debug, Drop)]
pub enum Cause {
    /// Memory ran out. The image is dead, or as it came.
    Memory,
    /// Entries and live transactions number 50,000 or more.
    Full,
    /// So many turns were taken by others. A machine of one thread never says so.
    Worn { turns: u64 },
    NoTransform,
    NotScanned,
    /// More than 256 records stand between the position and the log's end.
    Unread { pos: u64, end: u64 },
    /// The least live transaction that hinders the switch.
    Conflict { txn: u64 },
    /// The keys of two rows that disagree.
    Violated { first: Key, second: Key },
}

impl Core {
    /// An attempt to switch: the new tables are those of the image behind the records that are left, unless something hinders
    /// it. No row of a source is looked at.
    pub fn switch<L: Ledger>(&mut self, image: Image, steps: &mut Steps<L>) -> SwitchOut
        requires stands { Stands self.old.opening self.old.past image }
        ensures answer { AnswersSwitch self.old self.new image result }
        ensures none { steps.new ≡ steps.old }
    {
        if self.is_full() {
            return SwitchOut::Back {
                image,
                cause: Cause::Full,
            };
        }
        match self.phase {
            Phase::Chasing | Phase::Draining => self.attempt(image),
            Phase::Scanning => self.refuse_switch(image, Cause::NotScanned, Reply::NotScanned),
            Phase::Idle | Phase::Late | Phase::Done => {
                self.refuse_switch(image, Cause::NoTransform, Reply::NoTransform)
            }
        }
    }

    // Notes the refusal of an attempt, which changes nothing else.
    fn refuse_switch(&mut self, image: Image, cause: Cause, reply: Reply) -> SwitchOut
        requires place { HasPlace self.old }
        requires cause { reply_of cause ≡ Some reply }
        requires answered { switch_reply self.old.opening self.old.past ≡ reply }
        requires quiet { effect reply ≡ Nothing }
        ensures { AnswersSwitch self.old self.new image result }
    {
        if self.journal.reserve(self.clients.room_and(1)).is_err() {
            return SwitchOut::Back {
                image,
                cause: Cause::Memory,
            };
        }
        self.journal.append(Entry {
            actor: 0,
            event: Event::Switch,
            reply,
        });
        SwitchOut::Back { image, cause }
    }

    // An attempt where the scan has ended.
    fn attempt(&mut self, image: Image) -> SwitchOut
        requires place { HasPlace self.old }
        requires scanned { IsScanned (phase self.old.past) }
        requires stands { Stands self.old.opening self.old.past image }
        ensures { AnswersSwitch self.old self.new image result }
    {
        match self.ready() {
            Ok(Ready::Ready) => self.exchange(image),
            Ok(Ready::Conflict { txn }) => self.drain(image, txn),
            Ok(Ready::Unread { pos, end }) => self.refuse_switch(
                image,
                Cause::Unread { pos, end },
                Reply::Unread { pos, end },
            ),
            Err(AllocError) => SwitchOut::Back {
                image,
                cause: Cause::Memory,
            },
        }
    }

    // Whether the switch can be done, or why not.
    fn ready(&self) -> Result<Ready, AllocError>
        requires { IsScanned (phase self.now.past) }
        ensures { IfOk result (λ ready. told_ready self.now ready ≡ switch_reply self.now.opening self.now.past) }
    {
        let Some(spec) = &self.spec else {
            unreachable!()
        };
        let Spec::Part { table, .. } = spec else {
            unreachable!()
        };
        let lives = lives_of(
            self.alloc,
            self.clients.as_slice(),
            self.manager.locks(),
            table,
        )?;
        let end = self.manager.log().len();
        Ok(switch_ready(Strategy::Blocking, spec, self.position, end, &lives))
    }

    // Notes whose lock hinders the switch: old transactions are drained.
    fn drain(&mut self, image: Image, txn: u64) -> SwitchOut
        requires place { HasPlace self.old }
        requires scanned { IsScanned (phase self.old.past) }
        requires answered { switch_reply self.old.opening self.old.past ≡ reply.Conflict txn }
        ensures { AnswersSwitch self.old self.new image result }
    {
        if self.journal.reserve(self.clients.room_and(1)).is_err() {
            return SwitchOut::Back {
                image,
                cause: Cause::Memory,
            };
        }
        self.phase = Phase::Draining;
        self.journal.append(Entry {
            actor: 0,
            event: Event::Switch,
            reply: Reply::Conflict { txn },
        });
        SwitchOut::Back {
            image,
            cause: Cause::Conflict { txn },
        }
    }

    // The new tables become visible.
    fn exchange(&mut self, image: Image) -> SwitchOut
        requires place { HasPlace self.old }
        requires scanned { IsScanned (phase self.old.past) }
        requires stands { Stands self.old.opening self.old.past image }
        requires answered { switch_reply self.old.opening self.old.past ≡ reply.Switched (next_lsn self.old.opening self.old.past) }
        ensures { AnswersSwitch self.old self.new image result }
    {
        if self.journal.reserve(self.clients.room_and(1)).is_err()
            || self.manager.room(1).is_err()
        {
            return SwitchOut::Back {
                image,
                cause: Cause::Memory,
            };
        }
        // What the tables keep is known once they're asked: no two have one name, and the source's rows are in key order.
        let tables = self.manager.tables();
        let _count = tables.len();
        let _rows = source_len(&self.spec, tables);
        match fresh_tables(self.alloc, image, self.manager.log(), self.position) {
            Ok(tables) => {
                self.manager.put_new(tables);
                let lsn = self.manager.note(Body::Switch);
                self.phase = Phase::Done;
                self.journal.append(Entry {
                    actor: 0,
                    event: Event::Switch,
                    reply: Reply::Switched { lsn },
                });
                SwitchOut::Switched { lsn }
            }
            Err(AllocError) => SwitchOut::Back {
                image: Image::dead(),
                cause: Cause::Memory,
            },
        }
    }
}

// The live transactions, with whether each has a lock on the source. Under blocking commit no record of theirs counts.
fn lives_of(
    alloc: Global,
    clients: &[Client],
    locks: &LockTable,
    source: &Name,
) -> Result<Lives, AllocError>
    ensures { IfOk result (AreLives locks.now source.now (map living_of clients.now)) }
{
    let mut lives = Vec::new(alloc);
    for client in clients {
        lives.push(Live {
            txn: client.txn,
            locks_source: locks.any_on(client.txn, source),
            wrote_source: false,
        })?;
    }
    Ok(Lives::from_vec(lives))
}

// How many rows the source of a horizontal split has; 0 for any other transformation. They're in key order.
fn source_len(spec: &Option<Spec>, tables: &Tables) -> u64
    ensures len { IfSome (source_table spec.now tables.now) (λ table. result ≡ length table.rows) }
    ensures relation { IfSome (source_table spec.now tables.now) IsRelation }
{
    let Some(spec) = spec else {
        return 0;
    };
    match spec {
        Spec::Part { table, .. } => match tables.find(table) {
            Some(source) => source.len(),
            None => 0,
        },
        Spec::Join { .. } | Spec::Split { .. } | Spec::Union { .. } => 0,
    }
}

// The new tables of an image behind the records that follow its position.
fn fresh_tables(
    alloc: Global,
    mut image: Image,
    log: &Log,
    position: u64,
) -> Result<Tables, AllocError>
    requires next { CanFollow (following log.now.newest position 256) (length log.now.newest) image }
    ensures { IfOk result (AreFresh log.now.newest position image) }
{
    let tail = log.range(alloc, position, 256)?;
    uncounted::follow(&mut image, tail.as_slice(), log.len())?;
    image.into_tables()
}
