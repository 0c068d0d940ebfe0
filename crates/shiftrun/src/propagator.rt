// The propagator's turns on the machine, each with what its image learns by it.
ghost use Rattle.std.specs.Prelude.{◌≡◌, ◌≤◌, ◌<◌, Option, is_some, IsTrue, OnOk, IsSome, IfSome};
ghost use Rattle.sx_ops.specs.declared.spec.Spec.{Spec as TheSpec};
ghost use Rattle.sx_journal.specs.declared.entry.Event.TheVariants.{Scan, Fetch, Switch};
ghost use Rattle.sx_journal.specs.declared.entry.PropLine.TheVariants.{Start as line_start};
ghost use Rattle.sx_model.specs.Leaves.{phase};
ghost use Rattle.sx_model.specs.Schedules.{opening_of, makes_event};
ghost use Rattle.sx_lines.specs.Forms.{IsPace};
ghost use Rattle.sx_script.specs.Plans.{plan_of};
ghost use Rattle.sx_image.specs.Images.{CanFollow, Follows};
ghost use Rattle.sx_core.specs.Asked.{IsScanned};
ghost use Rattle.sx_core.specs.Answers.{AnswersScan, AnswersSwitch};
ghost use Rattle.sx_core.specs.Stands.{Stands};
ghost use Rattle.shiftrun.specs.Holding.{Held, IsTurned, IsPaceTurned, is_behind, last_line, FitsAnswer, LearnsAnswer, LearnsIf, FitsFetch, LearnsFetch, LearnsFetchIf, HoldsFrom, fault_of};

use std::alloc::{AllocError, Global};
use std::marker::Brand;
use std::sync::ledger::{Blank, Ledger};
use sx_core::{Cause, Core, CoreFault, FetchOut, ScanOut, SwitchOut};
use sx_image::Image;
use sx_journal::{PropLine, Reply};
use sx_lists::Copied;
use sx_log::Rec;
use sx_script::Script;
use sx_steps::Steps;
use sx_sync::Phase;

/// Whether a line of the propagator makes an event: a start does where a transformation is asked for, the others while an
/// image is held, and a check none, since no group is flagged.
pub(crate) fn makes_event(is_asked: bool, image: &Option<Image>, what: PropLine) -> bool
    ensures { (change : Option TheSpec) → is_some change ≡ is_asked → result ≡ makes_event change (is_some image.now) what }
{
    match what {
        PropLine::Start => is_asked,
        PropLine::Check => false,
        PropLine::Switch | PropLine::Scan { .. } | PropLine::Fetch { .. } => image.is_some(),
    }
}

/// Makes the event of a line of the propagator.
pub(crate) fn follow(
    alloc: Global,
    core: &mut Core,
    image: &mut Option<Image>,
    script: &Script,
    what: PropLine,
) -> Result<(), CoreFault>
    requires opened { core.old.opening ≡ opening_of (plan_of script.now) }
    requires held { Held core.old image.old }
    requires makes { IsTrue (makes_event (plan_of script.now).change (is_some image.old) what) }
    requires few { IsPace what }
    ensures { IsPaceTurned (plan_of script.now) what core.old core.new image.new result }
{
    match what {
        PropLine::Start => start(alloc, core, image, script),
        PropLine::Scan { n } => scan(core, image, n),
        PropLine::Fetch { n } => fetch(core, image, n),
        PropLine::Switch => switch(core, image),
        PropLine::Check => unreachable!(),
    }
}

// Starts the script's transformation. The image is made before, so that want of memory leaves nothing started.
fn start(
    alloc: Global,
    core: &mut Core,
    image: &mut Option<Image>,
    script: &Script,
) -> Result<(), CoreFault>
    requires opened { core.old.opening ≡ opening_of (plan_of script.now) }
    requires held { Held core.old image.old }
    requires some { IsSome (plan_of script.now).change }
    ensures { IsPaceTurned (plan_of script.now) line_start core.old core.new image.new result }
{
    // A script that was read can be run: its lines say so.
    let _lines = script.lines();
    let Some(spec) = script.change() else {
        unreachable!()
    };
    let mark = core.log().as_slice().len() as u64 + 1;
    let fresh = Image::new(alloc, &script.catalog(alloc)?, spec, mark)?;
    let reply = core.start(spec.copy(alloc)?, script.strategy())?;
    hold(image, fresh, &reply);
    Ok(())
}

// Where the transformation has started its image is held.
#[tactic(auto, unfolding(crate::specs::Holding::HoldsFrom))]
fn hold(image: &mut Option<Image>, fresh: Image, reply: &Reply)
    ensures { HoldsFrom reply.now fresh image.old image.new }
{
    if let Reply::Started { .. } = reply {
        *image = Some(fresh);
    }
}

// A turn of the scan, whose rows the image merges.
fn scan(core: &mut Core, image: &mut Option<Image>, n: u64) -> Result<(), CoreFault>
    requires held { Held core.old image.old }
    requires some { 1 ≤ n }
    requires few { n ≤ 64 }
    ensures { IsTurned core.old core.new image.new 0 (Scan n) result }
{
    let out = scanned::<Brand>(core, n, Blank::new(1))?;
    learn(image, &out)?;
    Ok(())
}

// The image, if one is held, merges the rows that a turn of the scan saw.
fn learn(image: &mut Option<Image>, out: &ScanOut) -> Result<(), AllocError>
    requires fits { IfSome image.old (FitsAnswer out.now.reply out.now.seen) }
    ensures { OnOk result (LearnsIf out.now.reply out.now.seen image.old image.new) }
{
    match image {
        Some(image) => merge(image, out),
        None => Ok(()),
    }
}

// It merges these rows.
#[tactic(auto, unfolding(crate::specs::Holding::FitsAnswer, crate::specs::Holding::LearnsAnswer))]
fn merge(image: &mut Image, out: &ScanOut) -> Result<(), AllocError>
    requires fits { FitsAnswer out.now.reply out.now.seen image.old }
    ensures { OnOk result (LearnsAnswer out.now.reply out.now.seen image.old image.new) }
{
    match &out.reply {
        Reply::Scanned { side, .. } => image.populate(*side, &out.seen),
        _ => Ok(()),
    }
}

fn scanned<L: Ledger>(core: &mut Core, n: u64, blank: Blank) -> Result<ScanOut, CoreFault>
    requires name { blank.name ≡ L.name }
    requires parts { blank.parts ≡ L.parts }
    requires some { 0 < blank.parts }
    requires one { 1 ≤ n }
    requires few { n ≤ 64 }
    ensures { AnswersScan core.old core.new n result }
{
    let mut steps = Steps::<L>::new(blank);
    core.scan(n, &mut steps)
}

// A fetch, whose records the image redoes.
fn fetch(core: &mut Core, image: &mut Option<Image>, n: u64) -> Result<(), CoreFault>
    requires held { Held core.old image.old }
    requires some { 1 ≤ n }
    requires few { n ≤ 256 }
    ensures { IsTurned core.old core.new image.new 0 (Fetch n) result }
{
    let out = core.fetch(n)?;
    redo(image, &out)?;
    Ok(())
}

// The image, if one is held, redoes the records that a fetch handed out.
fn redo(image: &mut Option<Image>, out: &FetchOut) -> Result<(), AllocError>
    requires fits { IfSome image.old (FitsFetch out.now.reply out.now.recs) }
    ensures { OnOk result (LearnsFetchIf out.now.reply out.now.recs image.old image.new) }
{
    match image {
        Some(image) => redo_these(image, out),
        None => Ok(()),
    }
}

// It redoes these records.
#[tactic(auto, unfolding(crate::specs::Holding::FitsFetch, crate::specs::Holding::LearnsFetch))]
fn redo_these(image: &mut Image, out: &FetchOut) -> Result<(), AllocError>
    requires fits { FitsFetch out.now.reply out.now.recs image.old }
    ensures { OnOk result (LearnsFetch out.now.reply out.now.recs image.old image.new) }
{
    match &out.reply {
        Reply::Fetched { to, .. } => {
            followed::<Brand>(image, out.recs.as_slice(), *to, Blank::new(1))
        }
        _ => Ok(()),
    }
}

fn followed<L: Ledger>(
    image: &mut Image,
    recs: &[Rec],
    end: u64,
    blank: Blank,
) -> Result<(), AllocError>
    requires name { blank.name ≡ L.name }
    requires parts { blank.parts ≡ L.parts }
    requires some { 0 < blank.parts }
    requires next { CanFollow recs.now end image.old }
    ensures { OnOk result (Follows recs.now end image.old image.new) }
{
    let mut steps = Steps::<L>::new(blank);
    image.follow(recs, end, &mut steps)
}

// An attempt to switch. Where it is refused the image comes back.
fn switch(core: &mut Core, image: &mut Option<Image>) -> Result<(), CoreFault>
    requires held { Held core.old image.old }
    requires some { IsSome image.old }
    ensures { IsTurned core.old core.new image.new 0 Switch result }
{
    let Some(held) = image.take() else {
        unreachable!()
    };
    match switched::<Brand>(core, held, Blank::new(1)) {
        SwitchOut::Switched { .. } => Ok(()),
        SwitchOut::Back { image: back, cause } => match fault_of(&cause) {
            Some(fault) => Err(fault),
            None => {
                *image = Some(back);
                Ok(())
            }
        },
    }
}

// Why an attempt to switch is no turn, if it is none.
fn fault_of(cause: &Cause) -> Option<CoreFault>
    ensures { result ≡ fault_of cause.now }
{
    match cause {
        Cause::Memory => Some(CoreFault::Memory),
        Cause::Full => Some(CoreFault::Full),
        Cause::Worn { .. }
        | Cause::NoTransform
        | Cause::NotScanned
        | Cause::Unread { .. }
        | Cause::Conflict { .. }
        | Cause::Violated { .. } => None,
    }
}

fn switched<L: Ledger>(core: &mut Core, image: Image, blank: Blank) -> SwitchOut
    requires name { blank.name ≡ L.name }
    requires parts { blank.parts ≡ L.parts }
    requires some { 0 < blank.parts }
    requires stands { Stands core.old.opening core.old.past image }
    ensures { AnswersSwitch core.old core.new image result }
{
    let mut steps = Steps::<L>::new(blank);
    core.switch(image, &mut steps)
}

/// What the propagator does at the end, by how far the transformation has come: it starts, scans by turns of 64 rows,
/// fetches 256 records at a time while there are some, and switches.
pub(crate) fn last_line(core: &Core, image: &Option<Image>) -> Option<PropLine>
    requires held { Held core.now image.now }
    ensures { result ≡ last_line (phase core.now.past) (is_behind core.now) }
{
    match core.phase() {
        Phase::Idle => Some(PropLine::Start),
        Phase::Scanning => Some(PropLine::Scan { n: 64 }),
        Phase::Chasing | Phase::Draining => {
            if is_behind(core, image) {
                Some(PropLine::Fetch { n: 256 })
            } else {
                Some(PropLine::Switch)
            }
        }
        Phase::Late | Phase::Done => None,
    }
}

// Whether the log is longer than the image has followed it.
fn is_behind(core: &Core, image: &Option<Image>) -> bool
    requires held { Held core.now image.now }
    requires scanned { IsScanned (phase core.now.past) }
    ensures { result ≡ is_behind core.now }
{
    match image {
        Some(image) => image.position() < core.log().len(),
        None => unreachable!(),
    }
}
