// Scripts, and the bytes that they are read from.
ghost use Rattle.std.specs.Prelude.{◌≡◌, ◌≤◌, ◌==◌, Some, IfOk, length, map};
ghost use Rattle.std.specs.List.{All};
ghost use Rattle.std.specs.Option.{option_copied};
ghost use Rattle.sx_lists.specs.Places.{at_place};
ghost use Rattle.sx_model.specs.Schedules.{Line as Asked, commands_of};
ghost use Rattle.sx_lines.specs.Printing.{HasText};
ghost use Rattle.sx_script.specs.Plans.{plan_of};
ghost use Rattle.sx_script.specs.Reading.{script_read};
ghost use Rattle.sx_script.specs.Scripts.{Reads, IsScript, IsRead};
ghost use Rattle.sx_script.specs.Sound.{IsRunnable};
ghost use Rattle.sx_script.specs.Printing.{script_text};

use crate::parser::Parser;
use crate::plan::{
    change_of, clients_of, commands_of, loads_of, paces_of, retries_of, strategy_of,
};
use crate::{Paces, ScriptFault};
use std::alloc::{AllocError, Global};
use std::marker::Model;
use sx_journal::Commands;
use sx_lines::{Line, next_line};
use sx_lists::{Copied, List};
use sx_log::Loads;
use sx_ops::Spec;
use sx_sync::Strategy;
use sx_values::Catalog;

/// A script: its lines, which some bytes are read as.
#[derive(Debug, Drop)]
pub struct Script {
    lines: List<Line>,
    catalog: Catalog,
}

impl Model for Script {
    ghost use Rattle.std.specs.Prelude.{◌≡◌, List};
    ghost use Rattle.sx_lines.specs.declared.line.Line.{Line as ScriptLine};
    ghost use Rattle.sx_script.specs.Scripts.{IsScript};

    ghost Value = { List ScriptLine };

    ghost view = { λ s. s.lines };

    ghost invariant = { λ s. IsScript s.lines s.catalog };
}

impl Script {
    pub(crate) fn of_parts(lines: List<Line>, catalog: Catalog) -> Script
        requires { IsScript lines catalog }
        ensures { result ≡ lines }
    {
        Script { lines, catalog }
    }

    /// The lines in order.
    pub fn lines(&self) -> &[Line]
        ensures lines { result.now ≡ self.now }
        ensures is_read { IsRead self.now }
        ensures runs { IsRunnable (plan_of self.now) }
        ensures few { length self.now ≤ 20000 }
        ensures texts { All HasText self.now }
        ensures again { script_read (script_text self.now) ≡ Some self.now }
    {
        self.lines.as_slice()
    }

    /// How many lines there are, comments and empty lines apart.
    pub fn len(&self) -> u64
        ensures { result ≡ length self.now }
    {
        self.lines.len()
    }

    /// Whether there is no line.
    pub fn is_empty(&self) -> bool
        ensures { result ≡ (length self.now == 0) }
    {
        self.lines.is_empty()
    }

    /// The line at a place from 1, or None where there is none.
    pub fn at(&self, place: u64) -> Option<&Line>
        ensures { option_copied result ≡ at_place self.now place }
    {
        self.lines.at(place)
    }

    /// The tables that the script declares.
    pub fn catalog(&self, alloc: Global) -> Result<Catalog, AllocError>
        ensures { IfOk result (λ catalog. catalog ≡ (plan_of self.now).catalog) }
    {
        self.catalog.copy(alloc)
    }

    /// The rows that the tables have from the start, in order.
    pub fn loads(&self, alloc: Global) -> Result<Loads, AllocError>
        ensures { IfOk result (λ loads. loads ≡ (plan_of self.now).loads) }
    {
        loads_of(alloc, self.lines.as_slice())
    }

    /// The transformation, if there is one.
    pub fn change(&self) -> Option<&Spec>
        ensures { option_copied result ≡ (plan_of self.now).change }
    {
        change_of(self.lines.as_slice())
    }

    /// How transactions that have touched a source are dealt with at the switch: they are waited for where the script doesn't say.
    pub fn strategy(&self) -> Strategy
        ensures { result ≡ (plan_of self.now).strategy }
    {
        strategy_of(self.lines.as_slice())
    }

    /// How often a client repeats a request that was held: 8 times where the script doesn't say.
    pub fn retries(&self) -> u8
        ensures { result ≡ (plan_of self.now).retries }
    {
        retries_of(self.lines.as_slice())
    }

    /// What a client does on its lines, in order, each with its place among the lines of the script.
    pub fn commands_of(&self, alloc: Global, n: u8) -> Result<Commands, AllocError>
        ensures { IfOk result (λ commands. commands ≡ commands_of (plan_of self.now) n) }
    {
        commands_of(alloc, self.lines(), n)
    }

    /// The client of each client's line, in order.
    pub fn clients(&self, alloc: Global) -> Result<List<u8>, AllocError>
        ensures { IfOk result (λ clients. clients ≡ map (λ (l : Asked). l.client) (plan_of self.now).lines) }
    {
        clients_of(alloc, self.lines.as_slice())
    }

    /// What the propagator does on its lines, in order, each with its place among the lines of the script.
    pub fn paces(&self, alloc: Global) -> Result<Paces, AllocError>
        ensures { IfOk result (λ paces. paces ≡ (plan_of self.now).paces) }
    {
        paces_of(alloc, self.lines())
    }
}

impl Copied for Script {
    fn copy(&self, alloc: Global) -> Result<Self, AllocError> {
        let lines = self.lines.copy(alloc)?;
        let catalog = self.catalog.copy(alloc)?;
        Ok(Script { lines, catalog })
    }
}

/// The script that bytes are. The one fault at this stage is `Later` on line 0.
pub fn parse_script(alloc: Global, bytes: &[u8]) -> Result<Script, ScriptFault>
    ensures { Reads result (script_read bytes.now) }
{
    let mut parser = Parser::new(alloc);
    let mut left = bytes;
    let mut count: u64 = 0;
    loop {
        match next_line(left) {
            Some((text, rest)) => {
                if count == 20_000 {
                    return Err(ScriptFault::LATER);
                }
                match parser.with_text(alloc, text)? {
                    Some(longer) => parser = longer,
                    None => return Err(ScriptFault::LATER),
                }
                count += 1;
                left = rest;
            }
            None => return Ok(parser.into_script()),
        }
    }
}
