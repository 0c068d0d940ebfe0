// The start of a transformation.
ghost use Rattle.std.specs.Prelude.{◌≡◌, ◌++◌, ◌∷◌, [], map, None, OnOk, IfOk};
ghost use Rattle.sx_values.specs.Catalogs.{declared_as};
ghost use Rattle.sx_ops.specs.Checks.{IsShaped, spec_fault};
ghost use Rattle.sx_ops.specs.Targets.{targets};
ghost use Rattle.sx_sync.specs.declared.Phase.TheVariants.{Idle};
ghost use Rattle.sx_sync.specs.declared.Strategy.TheVariants.{Blocking};
ghost use Rattle.sx_journal.specs.declared.entry.Event.TheVariants.{Start};
ghost use Rattle.sx_model.specs.Effects.{effect, Nothing};
ghost use Rattle.sx_model.specs.Known.{adopted};
ghost use Rattle.sx_model.specs.Leaves.{phase};
ghost use Rattle.sx_model.specs.Replies.{start_reply};
ghost use Rattle.sx_core.specs.Answers.{AnswersStart};
ghost use Rattle.sx_core.specs.Asked.{HasPlace, StartsSo};

use crate::{Core, CoreFault};
use std::alloc::{AllocError, Global};
use sx_heap::Cursor;
use sx_journal::{Entry, Event, Reply};
use sx_lists::Copied;
use sx_log::Body;
use sx_ops::{Spec, SpecFault, Target};
use sx_sync::{Phase, Strategy};
use sx_values::{Catalog, CatalogFault};

impl Core {
    /// Starts a transformation. Until the other strategies and operators come it is a horizontal split under blocking
    /// commit.
    #[tactic(auto, unfolding(sx_model::specs::Effects::effect))]
    pub fn start(&mut self, spec: Spec, strategy: Strategy) -> Result<Reply, CoreFault>
        requires shaped { IsShaped spec }
        requires blocking { strategy ≡ Blocking }
        ensures { AnswersStart self.old self.new spec strategy result }
    {
        if self.is_full() {
            return Err(CoreFault::Full);
        }
        match self.phase {
            Phase::Idle => self.start_idle(spec, strategy),
            Phase::Scanning | Phase::Chasing | Phase::Draining => {
                self.refuse_start(spec, strategy, Reply::Running)
            }
            Phase::Late | Phase::Done => self.refuse_start(spec, strategy, Reply::Spent),
        }
    }

    // Starts it where none was started.
    #[tactic(auto, unfolding(sx_model::specs::Effects::effect))]
    fn start_idle(&mut self, spec: Spec, strategy: Strategy) -> Result<Reply, CoreFault>
        requires starts { StartsSo self.old spec strategy }
        requires idle { phase self.old.past ≡ Idle }
        ensures { AnswersStart self.old self.new spec strategy result }
    {
        match spec.check(self.alloc, &self.catalog) {
            Ok(()) => self.mark(spec, strategy),
            Err(SpecFault::Memory) => Err(CoreFault::Memory),
            Err(fault) => self.refuse_start(spec, strategy, Reply::BadSpec { fault }),
        }
    }

    // Notes the refusal of a start.
    fn refuse_start(
        &mut self,
        spec: Spec,
        strategy: Strategy,
        reply: Reply,
    ) -> Result<Reply, CoreFault>
        requires starts { StartsSo self.old spec strategy }
        requires answered { start_reply self.old.opening self.old.past spec ≡ reply }
        requires quiet { effect reply ≡ Nothing }
        ensures { AnswersStart self.old self.new spec strategy result }
    {
        let answer = reply.copy(self.alloc)?;
        self.journal.reserve(self.clients.room_and(1))?;
        self.journal.append(Entry {
            actor: 0,
            event: Event::Start { spec, strategy },
            reply,
        });
        Ok(answer)
    }

    // Starts a transformation that fits.
    fn mark(&mut self, spec: Spec, strategy: Strategy) -> Result<Reply, CoreFault>
        requires starts { StartsSo self.old spec strategy }
        requires idle { phase self.old.past ≡ Idle }
        requires fits { spec_fault self.old.opening.catalog spec ≡ None }
        ensures { AnswersStart self.old self.new spec strategy result }
    {
        let known = with_new(self.alloc, &self.catalog, &spec)?;
        let kept = spec.copy(self.alloc)?;
        self.journal.reserve(self.clients.room_and(1))?;
        self.manager.room(1)?;
        let lsn = self.manager.note(Body::Mark);
        self.known = known;
        self.phase = Phase::Scanning;
        self.spec = Some(kept);
        self.cursor = Cursor::start();
        self.position = lsn;
        self.journal.append(Entry {
            actor: 0,
            event: Event::Start { spec, strategy },
            reply: Reply::Started { lsn },
        });
        Ok(Reply::Started { lsn })
    }
}

// The declared tables with the new ones of a transformation behind them.
#[tactic(auto, using(crate::proofs::AdoptLemmas::are_adopted))]
fn with_new(alloc: Global, catalog: &Catalog, spec: &Spec) -> Result<Catalog, AllocError>
    requires shaped { IsShaped spec.now }
    requires fits { spec_fault catalog.now spec.now ≡ None }
    ensures { IfOk result (λ known. known ≡ catalog.now ++ map adopted (targets catalog.now spec.now)) }
{
    let mut known = catalog.copy(alloc)?;
    let targets = spec.targets(alloc, catalog)?;
    for target in targets.as_slice() {
        adopt(alloc, &mut known, target)?;
    }
    Ok(known)
}

// Puts a new table behind others.
fn adopt(alloc: Global, tables: &mut Catalog, target: &Target) -> Result<(), AllocError>
    requires { declared_as tables.old target.now.name ≡ None }
    ensures { OnOk result (tables.new ≡ tables.old ++ adopted target.now ∷ []) }
{
    match tables.adopt(target.name.copy(alloc)?, target.schema.copy(alloc)?) {
        Ok(()) => Ok(()),
        Err(CatalogFault::Memory) => Err(AllocError),
        Err(_) => unreachable!(),
    }
}
