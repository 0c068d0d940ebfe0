// A script's run on a machine of its own, by one thread.
ghost use Rattle.std.specs.Prelude.{◌≡◌, [], IfOk};
ghost use Rattle.sx_model.specs.Schedules.{opening_of};
ghost use Rattle.sx_script.specs.Plans.{plan_of};
ghost use Rattle.shiftrun.specs.Endings.{run_status};
ghost use Rattle.shiftrun.specs.ReportRuns.{IsRunOf, RanTo};
ghost use Rattle.shiftrun.specs.Runs.{ComesTo, IsEnd};

use crate::finish::finish;
use crate::lines::step_all;
use crate::{End, Status};
use std::alloc::{AllocError, Global};
use sx_core::{Core, CoreFault, MakeFault};
use sx_io::Bytes;
use sx_report::{ReportEnd, print_report};
use sx_script::Script;

/// A machine that has run a script, to its end or until its journal was full, and the report of that.
#[derive(Drop)]
pub(crate) struct Run {
    pub(crate) core: Core,
    pub(crate) text: Bytes,
    pub(crate) is_full: bool,
}

impl Run {
    /// How a call ends whose report was put out.
    pub(crate) fn status(&self) -> Status
        ensures { result ≡ run_status self.now.is_full }
    {
        if self.is_full {
            Status::Full
        } else {
            Status::Reported
        }
    }
}

/// Runs a script, and makes its report.
pub(crate) fn run_script(alloc: Global, script: &Script) -> Result<Run, AllocError>
    ensures { IfOk result (λ run. IsRunOf run.is_full script.now run.core run.text) }
{
    let mut core = made(alloc, script)?;
    match worked(alloc, &mut core, script) {
        Ok(end) => reported(alloc, script, core, &end.into_report(), false),
        Err(CoreFault::Full) => reported(alloc, script, core, &ReportEnd::Full, true),
        Err(CoreFault::Memory) => Err(AllocError),
    }
}

// A machine that has run a script, with its report.
fn reported(
    alloc: Global,
    script: &Script,
    core: Core,
    end: &ReportEnd,
    is_full: bool,
) -> Result<Run, AllocError>
    requires { RanTo is_full (plan_of script.now) core end.now }
    ensures { IfOk result (λ run. IsRunOf run.is_full script.now run.core run.text) }
{
    // A script that was read can be run: its lines say so.
    let _lines = script.lines();
    let text = print_report(alloc, script, &core, end)?;
    Ok(Run {
        core,
        text,
        is_full,
    })
}

// The machine with the script's tables and loaded rows, before the first event.
fn made(alloc: Global, script: &Script) -> Result<Core, AllocError>
    ensures { IfOk result (λ core. core ≡ record { opening = opening_of (plan_of script.now); past = [] }) }
{
    // A script that was read can be run: its lines say so.
    let _lines = script.lines();
    let catalog = script.catalog(alloc)?;
    let loads = script.loads(alloc)?;
    match Core::make(alloc, catalog, loads) {
        Ok(core) => Ok(core),
        Err(fault) => match fault {
            MakeFault::Memory => Err(AllocError),
            _ => unreachable!(),
        },
    }
}

// Takes the script's lines through the machine, and then its end.
fn worked(alloc: Global, core: &mut Core, script: &Script) -> Result<End, CoreFault>
    requires { core.old ≡ record { opening = opening_of (plan_of script.now); past = [] } }
    ensures { ComesTo (IsEnd (plan_of script.now) core.new) (plan_of script.now) core.new result }
{
    let image = step_all(alloc, core, script)?;
    finish(alloc, core, script, image)
}
