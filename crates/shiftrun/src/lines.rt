// The clients' lines in script order, each worked through to its end.
ghost use Rattle.std.specs.Prelude.{◌≡◌, ◌≤◌, ◌<◌, [], drop, Option, is_some, Some, IfOk, OnOk, length};
ghost use Rattle.sx_ops.specs.declared.spec.Spec.{Spec};
ghost use Rattle.sx_journal.specs.Courses.{next_at};
ghost use Rattle.sx_model.specs.Schedules.{Plan, opening_of, from_event, paces_left};
ghost use Rattle.sx_script.specs.Plans.{plan_of};
ghost use Rattle.shiftrun.specs.Holding.{Held, KeepsImage};
ghost use Rattle.shiftrun.specs.Runs.{Runs, ComesTo, HasRunLines};
ghost use Rattle.shiftrun.specs.Lines.{clients_of, own_lines, stands_before, open_place, AreCourses, IsPaced, WaitsFor, TakesNext, IsDue, IsAhead, PropagatorRests, IsPassed, IsLed, IsWorked, Asks};

use crate::propagator::{follow, makes_event};
use crate::turn::request_of;
use std::alloc::{AllocError, Global};
use sx_core::{Core, CoreFault};
use sx_image::Image;
use sx_journal::{Course, PropLine, Request};
use sx_script::{Paces, Script};

/// The greatest number of a client.
const CLIENTS: u8 = 8;

// A client's line, by its index among that client's lines.
#[derive(Clone, Copy)]
pub(crate) struct OwnLine {
    pub(crate) client: u8,
    pub(crate) index: usize,
}

/// Takes the clients' lines in script order, each to its end.
pub fn step_all(alloc: Global, core: &mut Core, script: &Script) -> Result<Option<Image>, CoreFault>
    requires { core.old ≡ record { opening = opening_of (plan_of script.now); past = [] } }
    ensures { ComesTo (λ image. HasRunLines (plan_of script.now) core.new × Held core.new image) (plan_of script.now) core.new result }
{
    // A script that was read can be run: its lines say so.
    let _lines = script.lines();
    let mut courses = courses_of(alloc, script)?;
    let lines = own_lines(alloc, script)?;
    let mut pacing = Pacing::new(alloc, script)?;
    let mut image = None;
    for line in lines.as_slice() {
        let course = &mut courses[(line.client - 1) as usize];
        go_past(alloc, core, &mut image, &mut pacing, script, course, line)?;
    }
    pacing.follow_until(alloc, core, &mut image, script, None)?;
    Ok(image)
}

// Goes on until a line's client has come past it: first with the lines of the propagator that stand before it.
fn go_past(
    alloc: Global,
    core: &mut Core,
    image: &mut Option<Image>,
    pacing: &mut Pacing,
    script: &Script,
    course: &mut Course,
    line: &OwnLine,
) -> Result<(), CoreFault>
    requires from_one { 1 ≤ line.now.client }
    requires to_eight { line.now.client ≤ 8 }
    requires within { line.now.index < length course.old.commands }
    requires due { IsDue (plan_of script.now) core.old course.old line.now }
    requires held { Held core.old image.old }
    requires paced { IsPaced (plan_of script.now) core.old.past pacing.old }
    ensures { ComesTo (λ _. IsWorked (plan_of script.now) core.old.past core.new image.new pacing.new course.new line.now) (plan_of script.now) core.new result }
{
    if course.index() <= line.index {
        pacing.follow_until(alloc, core, image, script, Some(course.line()))?;
        work_through(alloc, core, course, line)?;
    }
    Ok(())
}

// The propagator's lines, how many of them are worked through, and whether there is a transformation to start.
#[derive(Drop)]
struct Pacing {
    paces: Paces,
    next: usize,
    is_asked: bool,
}

impl Pacing {
    fn new(alloc: Global, script: &Script) -> Result<Pacing, AllocError>
        ensures { IfOk result (IsPaced (plan_of script.now) []) }
    {
        Ok(Pacing {
            paces: script.paces(alloc)?,
            next: 0,
            is_asked: script.change().is_some(),
        })
    }

    // Makes the events of the next lines that stand before a line of the script, or of all that are left.
    fn follow_until(
        &mut self,
        alloc: Global,
        core: &mut Core,
        image: &mut Option<Image>,
        script: &Script,
        until: Option<u64>,
    ) -> Result<(), CoreFault>
        requires runs { Runs (plan_of script.now) core.old }
        requires held { Held core.old image.old }
        requires paced { IsPaced (plan_of script.now) core.old.past self.old }
        requires until { until ≡ open_place (plan_of script.now) core.old.past }
        ensures { ComesTo (λ _. IsLed (plan_of script.now) core.old.past core.new image.new self.new × WaitsFor until (paces_left (plan_of script.now) core.new.past)) (plan_of script.now) core.new result }
    {
        // A script that was read can be run: its lines say so.
        let _lines = script.lines();
        while let Some(what) = self.take_before(image, until) {
            follow(alloc, core, image, script, what)?;
        }
        Ok(())
    }

    // Takes the next line of the propagator that makes an event, if it stands before a line of the script. Those that
    // make none are passed over.
    fn take_before(&mut self, image: &Option<Image>, until: Option<u64>) -> Option<PropLine>
        ensures paces { self.new.paces ≡ self.old.paces }
        ensures asked { self.new.is_asked ≡ self.old.is_asked }
        ensures taken { (change : Option Spec) → is_some change ≡ self.old.is_asked → TakesNext until (from_event change (is_some image.now) (drop self.old.next self.old.paces)) (drop self.new.next self.new.paces) result }
    {
        while let Some(pace) = self.paces.as_slice().get(self.next) {
            let what = pace.what();
            let is_before = stands_before(until, pace.line());
            if makes_event(self.is_asked, image, what) {
                if !is_before {
                    return None;
                }
                self.next += 1;
                return Some(what);
            }
            self.next += 1;
        }
        None
    }
}

// Whether the propagator's line at this place stands before a line of the script, or behind all of them.
fn stands_before(until: Option<u64>, place: u64) -> bool
    ensures { result ≡ stands_before until place }
{
    match until {
        Some(line) => place < line,
        None => true,
    }
}

// A course for each client, before its first line.
fn courses_of(alloc: Global, script: &Script) -> Result<Vec<Course>, AllocError>
    ensures { IfOk result (λ courses. AreCourses (plan_of script.now) [] courses.items) }
{
    let mut courses = Vec::new(alloc);
    for client in 1..=CLIENTS {
        courses.push(Course::new(script.commands_of(alloc, client)?, script.retries()))?;
    }
    Ok(courses)
}

// The clients' lines in script order, each with its index among its client's lines.
fn own_lines(alloc: Global, script: &Script) -> Result<Vec<OwnLine>, AllocError>
    ensures { IfOk result (λ lines. lines.items ≡ own_lines [] (clients_of (plan_of script.now))) }
{
    // A script that was read can be run: its lines say so.
    let _lines = script.lines();
    let mut counts = [0_usize; 8];
    let mut lines = Vec::new(alloc);
    let clients = script.clients(alloc)?;
    for client in clients.as_slice() {
        let place = (*client - 1) as usize;
        let index = counts[place];
        lines.push(OwnLine {
            client: *client,
            index,
        })?;
        counts[place] = index + 1;
    }
    Ok(lines)
}

// Makes a client's requests until it has come past a line.
fn work_through(
    alloc: Global,
    core: &mut Core,
    course: &mut Course,
    line: &OwnLine,
) -> Result<(), CoreFault>
    requires from_one { 1 ≤ line.now.client }
    requires to_eight { line.now.client ≤ 8 }
    requires within { line.now.index < length course.old.commands }
    ensures passed { (plan : Plan) → IsAhead plan core.old course.old line.now → ComesTo (λ _. IsPassed plan core.old.past core.new course.new line.now) plan core.new result }
    ensures rests { (plan : Plan) → OnOk result (PropagatorRests plan core.old.past core.new.past) }
    ensures image { OnOk result (KeepsImage core.old core.new) }
{
    while course.index() <= line.index {
        match course.next(alloc)? {
            Some(request) => ask(core, course, line.client, request)?,
            None => unreachable!(),
        }
    }
    Ok(())
}

// Makes a client's next request, and notes its answer.
fn ask(core: &mut Core, course: &mut Course, client: u8, request: Request) -> Result<(), CoreFault>
    requires from_one { 1 ≤ client }
    requires to_eight { client ≤ 8 }
    requires next { next_at course.old.commands course.old.standing ≡ Some request }
    ensures { Asks core.old core.new course.old course.new client request result }
{
    request_of(core, client, request)?;
    match core.journal().as_slice() {
        [.., entry] => course.note(entry),
        [] => unreachable!(),
    }
    Ok(())
}
