// The scan of the source in turns, and the records behind its start.
ghost use Rattle.std.specs.Prelude.{◌≡◌, ◌≤◌, ◌+◌, map, IfOk, IsSome, IsSomeAnd, if◌then◌else◌};
ghost use Rattle.std.specs.Option.{option_copied};
ghost use Rattle.sx_sync.specs.declared.Phase.TheVariants.{Scanning, Chasing};
ghost use Rattle.sx_model.specs.Leaves.{phase};
ghost use Rattle.sx_core.specs.Answers.{AnswersScan, AnswersFetch};
ghost use Rattle.sx_model.specs.Effects.{effect, Nothing};
ghost use Rattle.sx_model.specs.Fetches.{fetch_reply};
ghost use Rattle.sx_model.specs.Legal.{ScanAnswer};
ghost use Rattle.sx_core.specs.Asked.{AsksUpTo, IsScanned};
ghost use Rattle.sx_core.specs.Sources.{source_table, WalksIn};

use crate::{Core, CoreFault};
use std::alloc::{AllocError, Global};
use std::sync::ledger::Ledger;
use sx_heap::{Cursor, Seen, Seens, Table, Tables, Walked};
use sx_journal::{Entry, Event, Reply};
use sx_lists::{Copied, List};
use sx_log::Recs;
use sx_ops::Spec;
use sx_steps::Steps;
use sx_sync::Phase;
use sx_values::Numbers;

/// What a scan turn is answered, and the rows that it saw, in the order of the answer's LSNs.
#[derive(Debug, Drop)]
pub struct ScanOut {
    pub reply: Reply,
    pub seen: Seens,
}

/// What a fetch is answered, and the records that it hands out.
#[derive(Debug, Drop)]
pub struct FetchOut {
    pub reply: Reply,
    pub recs: Recs,
}

impl Core {
    /// A scan turn: the next rows of the source in key order, at most `n`, committed or not. It looks at `n` rows at most.
    pub fn scan<L: Ledger>(&mut self, n: u64, steps: &mut Steps<L>) -> Result<ScanOut, CoreFault>
        requires some { 1 ≤ n }
        requires few { n ≤ 64 }
        ensures answer { AnswersScan self.old self.new n result }
        ensures least { steps.old ≤ steps.new }
        ensures most { steps.new ≤ steps.old + n }
    {
        if self.is_full() {
            return Err(CoreFault::Full);
        }
        match self.phase {
            Phase::Scanning => self.walk_on(n, steps),
            Phase::Chasing | Phase::Draining => self.refuse_scan(n, Reply::ScanOver),
            Phase::Idle | Phase::Late | Phase::Done => self.refuse_scan(n, Reply::NoTransform),
        }
    }

    // Notes the refusal of a scan turn.
    fn refuse_scan(&mut self, n: u64, reply: Reply) -> Result<ScanOut, CoreFault>
        requires asks { AsksUpTo self.old 64 n }
        requires answered { ScanAnswer self.old.opening self.old.past n reply }
        requires quiet { effect reply ≡ Nothing }
        ensures { AnswersScan self.old self.new n result }
    {
        let answer = reply.copy(self.alloc)?;
        self.journal.reserve(self.clients.room_and(1))?;
        self.journal.append(Entry {
            actor: 0,
            event: Event::Scan { n },
            reply,
        });
        Ok(ScanOut {
            reply: answer,
            seen: List::new(self.alloc),
        })
    }

    // The turn where a scan is under way.
    fn walk_on<L: Ledger>(&mut self, n: u64, steps: &mut Steps<L>) -> Result<ScanOut, CoreFault>
        requires asks { AsksUpTo self.old 64 n }
        requires scanning { phase self.old.past ≡ Scanning }
        ensures answer { AnswersScan self.old self.new n result }
        ensures least { steps.old ≤ steps.new }
        ensures most { steps.new ≤ steps.old + n }
    {
        let tables = self.manager.tables();
        let Walked { seen, next, over } = walk_source(
            self.alloc,
            &self.spec,
            tables,
            &self.cursor,
            n,
            steps,
        )?;
        let reply = Reply::Scanned {
            side: 0,
            lsns: lsns_of(self.alloc, seen.as_slice())?,
            last: over,
        };
        let answer = reply.copy(self.alloc)?;
        self.journal.reserve(self.clients.room_and(1))?;
        self.phase = phase_behind(over);
        self.cursor = next;
        self.journal.append(Entry {
            actor: 0,
            event: Event::Scan { n },
            reply,
        });
        Ok(ScanOut {
            reply: answer,
            seen,
        })
    }

    /// The next records of the log behind those that were handed out, at most `n`.
    pub fn fetch(&mut self, n: u64) -> Result<FetchOut, CoreFault>
        requires some { 1 ≤ n }
        requires few { n ≤ 256 }
        ensures { AnswersFetch self.old self.new n result }
    {
        if self.is_full() {
            return Err(CoreFault::Full);
        }
        match self.phase {
            Phase::Chasing | Phase::Draining => self.hand_out(n),
            Phase::Scanning => self.refuse_fetch(n, Reply::NotScanned),
            Phase::Idle | Phase::Late | Phase::Done => self.refuse_fetch(n, Reply::NoTransform),
        }
    }

    // Notes the refusal of a fetch.
    fn refuse_fetch(&mut self, n: u64, reply: Reply) -> Result<FetchOut, CoreFault>
        requires asks { AsksUpTo self.old 256 n }
        requires answered { fetch_reply self.old.opening self.old.past n ≡ reply }
        requires quiet { effect reply ≡ Nothing }
        ensures { AnswersFetch self.old self.new n result }
    {
        let answer = reply.copy(self.alloc)?;
        self.journal.reserve(self.clients.room_and(1))?;
        self.journal.append(Entry {
            actor: 0,
            event: Event::Fetch { n },
            reply,
        });
        Ok(FetchOut {
            reply: answer,
            recs: List::new(self.alloc),
        })
    }

    // Hands out records where the scan has ended.
    fn hand_out(&mut self, n: u64) -> Result<FetchOut, CoreFault>
        requires asks { AsksUpTo self.old 256 n }
        requires scanned { IsScanned (phase self.old.past) }
        ensures { AnswersFetch self.old self.new n result }
    {
        let from = self.position;
        let log = self.manager.log();
        let to = from.saturating_add(n).min(log.len());
        let recs = log.range(self.alloc, from, to - from)?;
        self.journal.reserve(self.clients.room_and(1))?;
        self.position = to;
        self.journal.append(Entry {
            actor: 0,
            event: Event::Fetch { n },
            reply: Reply::Fetched { from, to },
        });
        Ok(FetchOut {
            reply: Reply::Fetched { from, to },
            recs,
        })
    }
}

// The source of a horizontal split among the tables; None for any other transformation.
fn source_table<'a>(spec: &Option<Spec>, tables: &'a Tables) -> Option<&'a Table>
    ensures { option_copied result ≡ source_table spec.now tables.now }
{
    let Some(spec) = spec else {
        return None;
    };
    match spec {
        Spec::Part { table, .. } => tables.find(table),
        Spec::Join { .. } | Spec::Split { .. } | Spec::Union { .. } => None,
    }
}

// The next rows of the source behind the cursor.
fn walk_source<L: Ledger>(
    alloc: Global,
    spec: &Option<Spec>,
    tables: &Tables,
    cursor: &Cursor,
    n: u64,
    steps: &mut Steps<L>,
) -> Result<Walked, AllocError>
    requires { IsSome (source_table spec.now tables.now) }
    ensures walked { IfOk result (λ walked. IsSomeAnd (source_table spec.now tables.now) (WalksIn cursor.now n walked)) }
    ensures least { steps.old ≤ steps.new }
    ensures most { steps.new ≤ steps.old + n }
{
    match source_table(spec, tables) {
        Some(source) => source.walk(alloc, cursor.copy(alloc)?, n, steps),
        None => unreachable!(),
    }
}

// The LSNs of rows, in their order.
fn lsns_of(alloc: Global, seen: &[Seen]) -> Result<Numbers, AllocError>
    ensures { IfOk result (λ lsns. lsns ≡ map (λ s. s.lsn) seen.now) }
{
    let mut lsns = Vec::new(alloc);
    for row in seen {
        lsns.push(row.lsn)?;
    }
    Ok(Numbers::from_vec(lsns))
}

// How far the transformation has come behind a scan turn.
fn phase_behind(over: bool) -> Phase
    ensures { result ≡ (if over then Chasing else Scanning) }
{
    if over {
        Phase::Chasing
    } else {
        Phase::Scanning
    }
}
