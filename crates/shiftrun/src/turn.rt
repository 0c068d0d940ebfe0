// A client's turn on the machine.
ghost use Rattle.std.specs.Prelude.{◌≡◌, ◌≤◌, ◌<◌};
ghost use Rattle.sx_journal.specs.declared.entry.Event.TheVariants.{Client};
ghost use Rattle.shiftrun.specs.Runs.{IsTaken};

use std::marker::Brand;
use std::sync::ledger::{Blank, Ledger};
use sx_core::{Core, CoreFault};
use sx_journal::Request;
use sx_steps::Steps;

// Makes a client's request. Nobody reads the counter of its steps.
pub(crate) fn request_of(core: &mut Core, client: u8, request: Request) -> Result<(), CoreFault>
    requires from_one { 1 ≤ client }
    requires to_eight { client ≤ 8 }
    ensures { IsTaken core.old core.new client (Client request) result }
{
    counted::<Brand>(core, client, request, Blank::new(1))
}

fn counted<L: Ledger>(
    core: &mut Core,
    client: u8,
    request: Request,
    blank: Blank,
) -> Result<(), CoreFault>
    requires name { blank.name ≡ L.name }
    requires parts { blank.parts ≡ L.parts }
    requires some { 0 < blank.parts }
    requires from_one { 1 ≤ client }
    requires to_eight { client ≤ 8 }
    ensures { IsTaken core.old core.new client (Client request) result }
{
    let mut steps = Steps::<L>::new(blank);
    core.client(client, request, &mut steps)?;
    Ok(())
}
