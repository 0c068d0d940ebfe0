// The end of a run: who still lives is rolled back, and the transformation is made.
ghost use Rattle.std.specs.Prelude.{OnOk, IsSome};
ghost use Rattle.sx_script.specs.Plans.{plan_of};
ghost use Rattle.shiftrun.specs.Holding.{Held, KeepsImage};
ghost use Rattle.shiftrun.specs.Runs.{ComesTo, IsEnd, HasRun, HasRunLines, HasRolledBack};

use crate::End;
use crate::propagator::{follow, last_line};
use crate::turn::request_of;
use std::alloc::Global;
use sx_core::{Core, CoreFault};
use sx_image::Image;
use sx_journal::Request;
use sx_script::Script;

/// Ends a run: the live transactions are rolled back in the order of their clients' numbers, and the transformation of the
/// script, if there is one, is started, scanned in turns of 64 rows, followed by fetches of 256 records and switched, as far
/// as that isn't done.
pub fn finish(
    alloc: Global,
    core: &mut Core,
    script: &Script,
    image: Option<Image>,
) -> Result<End, CoreFault>
    requires lines { HasRunLines (plan_of script.now) core.old }
    requires held { Held core.old image }
    ensures { ComesTo (IsEnd (plan_of script.now) core.new) (plan_of script.now) core.new result }
{
    roll_all_back(core, script)?;
    match script.change() {
        None => Ok(End::NoChange),
        Some(_) => {
            transform(alloc, core, script, image)?;
            Ok(End::Switched)
        }
    }
}

// Rolls the live transactions back, the least client's first.
fn roll_all_back(core: &mut Core, script: &Script) -> Result<(), CoreFault>
    requires lines { HasRunLines (plan_of script.now) core.old }
    ensures rolled { ComesTo (λ _. HasRolledBack (plan_of script.now) core.new) (plan_of script.now) core.new result }
    ensures image { OnOk result (KeepsImage core.old core.new) }
{
    for client in 1..=8_u8 {
        while core.lives(client) {
            request_of(core, client, Request::Undo)?;
        }
    }
    Ok(())
}

// Goes on with the script's transformation to its switch.
fn transform(
    alloc: Global,
    core: &mut Core,
    script: &Script,
    mut image: Option<Image>,
) -> Result<(), CoreFault>
    requires lines { HasRolledBack (plan_of script.now) core.old }
    requires held { Held core.old image }
    requires change { IsSome (plan_of script.now).change }
    ensures { ComesTo (λ _. HasRun (plan_of script.now) core.new) (plan_of script.now) core.new result }
{
    // A script that was read can be run: its lines say so.
    let _lines = script.lines();
    while let Some(what) = last_line(core, &image) {
        follow(alloc, core, &mut image, script, what)?;
    }
    Ok(())
}
