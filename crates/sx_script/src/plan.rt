// What the lines of a script ask together.
ghost use Rattle.std.specs.Prelude.{◌≡◌, ◌++◌, ◌==◌, ◌<◌, ◌^◌, [], length, filter, map, IfOk, OnOk};
ghost use Rattle.std.specs.List.{cons_option};
ghost use Rattle.std.specs.Option.{option_copied};
ghost use Rattle.sx_model.specs.Schedules.{Line as Asked, commands_of};
ghost use Rattle.sx_script.specs.Plans.{plan_of, load_of, asked_at, pace_at, client_of};

use std::alloc::{AllocError, Global};
use std::marker::Model;
use sx_journal::{Command, Commands, PropLine};
use sx_lines::Line;
use sx_lists::{Copied, List};
use sx_log::{Load, Loads};
use sx_ops::Spec;
use sx_sync::Strategy;

/// A line of the propagator, with its place among the lines of the script.
#[derive(Debug, Drop)]
pub struct Pace {
    line: u64,
    what: PropLine,
}

/// Lines of the propagator, in order.
pub type Paces = List<Pace>;

impl Model for Pace {
    ghost use Rattle.sx_model.specs.Schedules.{Pace as Planned};

    ghost Value = { Planned };

    ghost view = { λ p. record { line = p.line; what = p.what } };
}

impl Pace {
    /// Its place from 1 among all lines of the script.
    pub fn line(&self) -> u64
        ensures { result ≡ self.now.line }
    {
        self.line
    }

    /// What the propagator does.
    pub fn what(&self) -> PropLine
        ensures { result ≡ self.now.what }
    {
        self.what
    }
}

impl Copied for Pace {
    fn copy(&self, _alloc: Global) -> Result<Self, AllocError> {
        Ok(Pace {
            line: self.line,
            what: self.what,
        })
    }
}

// How often a request is repeated where a script doesn't say it.
const REPEATS: u8 = 8;

// The rows that lines load, in order.
pub(crate) fn loads_of(alloc: Global, lines: &[Line]) -> Result<Loads, AllocError>
    ensures { IfOk result (λ loads. loads ≡ (plan_of lines.now).loads) }
{
    let mut loads = Vec::new(alloc);
    for line in lines {
        put_load(alloc, &mut loads, line)?;
    }
    Ok(List::from_vec(loads))
}

// Puts the row that a line loads at the end, if it loads one.
fn put_load(alloc: Global, loads: &mut Vec<Load>, line: &Line) -> Result<(), AllocError>
    ensures { OnOk result (loads.new.items ≡ loads.old.items ++ cons_option (load_of line.now) []) }
{
    if let Line::Row { table, row } = line {
        let table = table.copy(alloc)?;
        let row = row.copy(alloc)?;
        loads.push(Load { table, row })?;
    }
    Ok(())
}

// The transformation that lines name first.
pub(crate) fn change_of(lines: &[Line]) -> Option<&Spec>
    ensures { option_copied result ≡ (plan_of lines.now).change }
{
    for line in lines {
        if let Line::Change { spec } = line {
            return Some(spec);
        }
    }
    None
}

// How often a request that was held is repeated.
pub(crate) fn retries_of(lines: &[Line]) -> u8
    ensures { result ≡ (plan_of lines.now).retries }
{
    for line in lines {
        if let Line::Retries { n } = line {
            return *n;
        }
    }
    REPEATS
}

// How transactions that have touched a source are dealt with at the switch.
pub(crate) fn strategy_of(lines: &[Line]) -> Strategy
    ensures { result ≡ (plan_of lines.now).strategy }
{
    for line in lines {
        if let Line::Strategy { strategy } = line {
            return *strategy;
        }
    }
    Strategy::Blocking
}

// What a client does, in order, each with its place from 1 among all lines.
#[tactic(auto, using(std::proofs::lemmas::Grind::common_steps, crate::proofs::PlanLaws::commands_are))]
pub(crate) fn commands_of(alloc: Global, lines: &[Line], n: u8) -> Result<Commands, AllocError>
    requires { length lines.now < 2 ^ 63 }
    ensures { IfOk result (λ commands. commands ≡ commands_of (plan_of lines.now) n) }
{
    let mut commands = Vec::new(alloc);
    for (index, line) in lines.iter().enumerate() {
        put_command(alloc, &mut commands, n, index as u64 + 1, line)?;
    }
    Ok(List::from_vec(commands))
}

// Puts what a client does on the line at this place at the end, if it is a line of this client.
fn put_command(
    alloc: Global,
    commands: &mut Vec<Command>,
    client: u8,
    place: u64,
    line: &Line,
) -> Result<(), AllocError>
    ensures { OnOk result (commands.new.items ≡ commands.old.items ++ map (λ (l : Asked). l.command) (filter (λ (l : Asked). l.client == client) (cons_option (asked_at place line.now) []))) }
{
    match line {
        Line::Client { n, what } if *n == client => {
            let what = what.copy(alloc)?;
            commands.push(Command { line: place, what })?;
            Ok(())
        }
        _ => Ok(()),
    }
}

// The client of each client's line, in order.
#[tactic(auto, using(std::proofs::lemmas::Grind::common_steps, crate::proofs::PlanLaws::clients_are))]
pub(crate) fn clients_of(alloc: Global, lines: &[Line]) -> Result<List<u8>, AllocError>
    ensures { IfOk result (λ clients. clients ≡ map (λ (l : Asked). l.client) (plan_of lines.now).lines) }
{
    let mut clients = Vec::new(alloc);
    for line in lines {
        put_client(&mut clients, line)?;
    }
    Ok(List::from_vec(clients))
}

// Puts the client of a client's line at the end, if it is one.
fn put_client(clients: &mut Vec<u8>, line: &Line) -> Result<(), AllocError>
    ensures { OnOk result (clients.new.items ≡ clients.old.items ++ cons_option (client_of line.now) []) }
{
    if let Line::Client { n, what: _ } = line {
        clients.push(*n)?;
    }
    Ok(())
}

// What the propagator does, in order, each with its place from 1 among all lines.
#[tactic(auto, using(std::proofs::lemmas::Grind::common_steps))]
pub(crate) fn paces_of(alloc: Global, lines: &[Line]) -> Result<Paces, AllocError>
    requires { length lines.now < 2 ^ 63 }
    ensures { IfOk result (λ paces. paces ≡ (plan_of lines.now).paces) }
{
    let mut paces = Vec::new(alloc);
    for (index, line) in lines.iter().enumerate() {
        put_pace(&mut paces, index as u64 + 1, line)?;
    }
    Ok(List::from_vec(paces))
}

// Puts what the propagator does on the line at this place at the end, if it is a line of the propagator.
fn put_pace(paces: &mut Vec<Pace>, place: u64, line: &Line) -> Result<(), AllocError>
    ensures { OnOk result (paces.new.items ≡ paces.old.items ++ cons_option (pace_at place line.now) []) }
{
    if let Line::Pace(what) = line {
        let what = *what;
        paces.push(Pace { line: place, what })?;
    }
    Ok(())
}
