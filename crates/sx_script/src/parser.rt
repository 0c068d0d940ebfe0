// A script while it is read, line by line.
ghost use Rattle.std.specs.Prelude.{◌≡◌, ◌++◌, ◌∷◌, [], None, not, is_some, map, IfOk, OnOk, option_map};
ghost use Rattle.std.specs.Bool.{OnTrue};
ghost use Rattle.std.specs.List.{list_any};
ghost use Rattle.sx_values.specs.Layouts.{is_null};
ghost use Rattle.sx_values.specs.Catalogs.{declared_as};
ghost use Rattle.sx_ops.specs.declared.spec.Test.{Test as TheTest};
ghost use Rattle.sx_ops.specs.Checks.{IsShaped, AreTests, spec_fault};
ghost use Rattle.sx_lines.specs.Lines.{when};
ghost use Rattle.sx_sync.specs.Ready.{is_blocking};
ghost use Rattle.sx_model.specs.Known.{adopted};
ghost use Rattle.sx_lines.specs.Forms.{IsFit, IsPace, IsTableSchema};
ghost use Rattle.sx_script.specs.Plans.{plan_of, known_by, known, is_shaped, are_tests, is_client, accepts};
ghost use Rattle.sx_script.specs.Parsers.{AreNew};
ghost use Rattle.sx_script.specs.Reading.{item_in, line_in};
ghost use Rattle.sx_script.specs.Scripts.{IsRead};

use crate::Script;
use std::alloc::{AllocError, Global};
use std::collections::HashSet;
use std::marker::Model;
use sx_journal::{PropLine, What};
use sx_lines::{Line, are_printable, is_passed_over, line_of};
use sx_lists::{Copied, List, bytes_of};
use sx_ops::{Spec, SpecFault, Target, Test};
use sx_sync::Strategy;
use sx_values::{Catalog, CatalogFault, Key, Name, Row, Schema, Value};

// A key of a table.
#[derive(Drop, PartialEq, Eq, Hash)]
pub(crate) struct Place {
    table: List<u8>,
    key: Key,
}

// The lines so far, with what the next ones are judged by.
#[derive(Drop)]
pub(crate) struct Parser {
    lines: Vec<Line>,
    // The declared tables.
    catalog: Catalog,
    // These and the new ones, where there is a transformation.
    known: Option<Catalog>,
    // Where the loaded rows are.
    places: HashSet<Place>,
    // Whether there is a step.
    is_started: bool,
    // Whether there is a number of repeats.
    is_counted: bool,
    // Whether there is a strategy.
    is_ruled: bool,
}

impl Model for Parser {
    ghost use Rattle.std.specs.Prelude.{List};
    ghost use Rattle.sx_lines.specs.declared.line.Line.{Line as ScriptLine};
    ghost use Rattle.sx_script.specs.Parsers.{Keeps};

    ghost Value = { List ScriptLine };

    ghost view = { λ p. p.lines.items };

    ghost invariant = { λ p. Keeps p.lines.items p.catalog p.known p.places.keys p.is_started p.is_counted p.is_ruled };
}

impl Parser {
    pub(crate) fn new(alloc: Global) -> Parser
        ensures { result ≡ [] }
    {
        Parser {
            lines: Vec::new(alloc),
            catalog: Catalog::new(alloc),
            known: None,
            places: HashSet::new(alloc),
            is_started: false,
            is_counted: false,
            is_ruled: false,
        }
    }

    // The script of these lines.
    pub(crate) fn into_script(self) -> Script
        requires { IsRead self }
        ensures { result ≡ self }
    {
        let _tables = self.catalog.tables();
        Script::of_parts(List::from_vec(self.lines), self.catalog)
    }

    // The tables that a name may mean.
    fn tables(&self) -> &Catalog
        ensures { result.now ≡ known (plan_of self.now) }
    {
        match &self.known {
            Some(known) => known,
            None => &self.catalog,
        }
    }

    // Whether there is a transformation.
    fn is_changed(&self) -> bool
        ensures { result ≡ is_some (plan_of self.now).change }
    {
        self.known.is_some()
    }

    // The lines so far with a further text's.
    #[tactic(auto, unfolding(crate::specs::Reading::item_in))]
    pub(crate) fn with_text(self, alloc: Global, text: &[u8]) -> Result<Option<Parser>, AllocError>
        ensures { IfOk result (λ parser. parser ≡ option_map (λ item. self ++ item) (item_in self text.now)) }
    {
        if !are_printable(text) {
            return Ok(None);
        }
        if is_passed_over(text) {
            return Ok(Some(self));
        }
        self.with_shown(alloc, text)
    }

    #[tactic(auto, unfolding(crate::specs::Reading::line_in))]
    fn with_shown(self, alloc: Global, text: &[u8]) -> Result<Option<Parser>, AllocError>
        ensures { IfOk result (λ parser. parser ≡ option_map (λ line. self ++ line ∷ []) (line_in self text.now)) }
    {
        match line_of(alloc, self.tables(), text)? {
            Some(line) => self.with_line(alloc, line),
            None => Ok(None),
        }
    }

    // The lines with a further one, where it may follow.
    fn with_line(self, alloc: Global, line: Line) -> Result<Option<Parser>, AllocError>
        requires { IsFit line }
        ensures { IfOk result (λ parser. parser ≡ when (accepts self line) (self ++ line ∷ [])) }
    {
        match line {
            Line::Table { name, schema } => self.with_table(alloc, name, schema),
            Line::Row { table, row } => self.with_row(alloc, table, row),
            Line::Change { spec } => self.with_change(alloc, spec),
            Line::Retries { n } => self.with_retries(n),
            Line::Strategy { strategy } => self.with_strategy(strategy),
            Line::Client { n, what } => self.with_client(n, what),
            Line::Pace(pace) => self.with_pace(pace),
            Line::Index { .. } => Ok(None),
        }
    }

    fn with_table(
        mut self,
        alloc: Global,
        name: Name,
        schema: Schema,
    ) -> Result<Option<Parser>, AllocError>
        requires { IsTableSchema schema }
        ensures { IfOk result (λ parser. parser ≡ when (accepts self (Line.Table name schema)) (self ++ Line.Table name schema ∷ [])) }
    {
        if self.is_started || self.is_changed() {
            return Ok(None);
        }
        match self.catalog.declare(name.copy(alloc)?, schema.copy(alloc)?) {
            Ok(()) => {}
            Err(CatalogFault::Memory) => return Err(AllocError),
            Err(_) => return Ok(None),
        }
        self.lines.push(Line::Table { name, schema })?;
        Ok(Some(self))
    }

    fn with_row(
        mut self,
        alloc: Global,
        table: Name,
        row: Row,
    ) -> Result<Option<Parser>, AllocError>
        ensures { IfOk result (λ parser. parser ≡ when (accepts self (Line.Row table row)) (self ++ Line.Row table row ∷ [])) }
    {
        if self.is_started {
            return Ok(None);
        }
        let Some(schema) = self.catalog.schema(&table) else {
            return Ok(None);
        };
        if schema.admits(&row).is_err() {
            return Ok(None);
        }
        let key = schema.key_of(alloc, &row)?;
        let name = bytes_of(alloc, table.as_bytes())?;
        if !self.places.insert(Place { table: name, key })? {
            return Ok(None);
        }
        self.lines.push(Line::Row { table, row })?;
        Ok(Some(self))
    }

    fn with_change(mut self, alloc: Global, spec: Spec) -> Result<Option<Parser>, AllocError>
        ensures { IfOk result (λ parser. parser ≡ when (accepts self (Line.Change spec)) (self ++ Line.Change spec ∷ [])) }
    {
        if self.is_started || self.is_changed() {
            return Ok(None);
        }
        if !is_shaped(&spec) {
            return Ok(None);
        }
        if !fits(alloc, &self.catalog, &spec)? {
            return Ok(None);
        }
        self.known = Some(known_by(alloc, &self.catalog, &spec)?);
        self.lines.push(Line::Change { spec })?;
        Ok(Some(self))
    }

    fn with_retries(mut self, n: u8) -> Result<Option<Parser>, AllocError>
        ensures { IfOk result (λ parser. parser ≡ when (accepts self (Line.Retries n)) (self ++ Line.Retries n ∷ [])) }
    {
        if self.is_started || self.is_counted || n > 8 {
            return Ok(None);
        }
        self.is_counted = true;
        self.lines.push(Line::Retries { n })?;
        Ok(Some(self))
    }

    fn with_strategy(mut self, strategy: Strategy) -> Result<Option<Parser>, AllocError>
        ensures { IfOk result (λ parser. parser ≡ when (accepts self (Line.Strategy strategy)) (self ++ Line.Strategy strategy ∷ [])) }
    {
        if self.is_started || self.is_ruled || !is_blocking(strategy) {
            return Ok(None);
        }
        self.is_ruled = true;
        self.lines.push(Line::Strategy { strategy })?;
        Ok(Some(self))
    }

    fn with_client(mut self, n: u8, what: What) -> Result<Option<Parser>, AllocError>
        ensures { IfOk result (λ parser. parser ≡ when (accepts self (Line.Client n what)) (self ++ Line.Client n what ∷ [])) }
    {
        if !is_client(n) {
            return Ok(None);
        }
        self.is_started = true;
        self.lines.push(Line::Client { n, what })?;
        Ok(Some(self))
    }

    fn with_pace(mut self, pace: PropLine) -> Result<Option<Parser>, AllocError>
        requires { IsPace pace }
        ensures { IfOk result (λ parser. parser ≡ when (accepts self (Line.Pace pace)) (self ++ Line.Pace pace ∷ [])) }
    {
        if !self.is_changed() {
            return Ok(None);
        }
        self.is_started = true;
        self.lines.push(Line::Pace(pace))?;
        Ok(Some(self))
    }
}

// Whether a number is a client's.
fn is_client(n: u8) -> bool
    ensures { result ≡ is_client n }
{
    1 <= n && n <= 8
}

// Whether old transactions keep the switch waiting.
fn is_blocking(strategy: Strategy) -> bool
    ensures { result ≡ is_blocking strategy }
{
    matches!(strategy, Strategy::Blocking)
}

// Whether a transformation fits the declared tables.
fn fits(alloc: Global, catalog: &Catalog, spec: &Spec) -> Result<bool, AllocError>
    requires { IsShaped spec.now }
    ensures test { IfOk result (λ fits. fits ≡ not (is_some (spec_fault catalog.now spec.now))) }
    ensures faultless { IfOk result (λ fits. OnTrue fits (spec_fault catalog.now spec.now ≡ None)) }
{
    match spec.check(alloc, catalog) {
        Ok(()) => Ok(true),
        Err(SpecFault::Memory) => Err(AllocError),
        Err(_fault) => Ok(false),
    }
}

// The declared tables and the new ones of a transformation that fits them.
fn known_by(alloc: Global, catalog: &Catalog, spec: &Spec) -> Result<Catalog, AllocError>
    requires shaped { IsShaped spec.now }
    requires fits { spec_fault catalog.now spec.now ≡ None }
    ensures { IfOk result (λ tables. tables ≡ known_by catalog.now spec.now) }
{
    let targets = spec.targets(alloc, catalog)?;
    with_targets(alloc, catalog.copy(alloc)?, targets.as_slice())
}

// Tables with new ones behind them.
fn with_targets(
    alloc: Global,
    mut tables: Catalog,
    targets: &[Target],
) -> Result<Catalog, AllocError>
    requires { AreNew tables targets.now }
    ensures { IfOk result (λ all. all ≡ tables ++ map adopted targets.now) }
{
    for target in targets {
        adopt(alloc, &mut tables, target)?;
    }
    Ok(tables)
}

// Puts a new table behind others.
fn adopt(alloc: Global, tables: &mut Catalog, target: &Target) -> Result<(), AllocError>
    requires { declared_as tables.old target.now.name ≡ None }
    ensures { OnOk result (tables.new ≡ tables.old ++ adopted target.now ∷ []) }
{
    match tables.adopt(target.name.copy(alloc)?, target.schema.copy(alloc)?) {
        Ok(()) => Ok(()),
        Err(CatalogFault::Memory) => Err(AllocError),
        Err(_) => unreachable!(),
    }
}

// Whether a transformation is a horizontal split by one to four tests, none with Null.
fn is_shaped(spec: &Spec) -> bool
    ensures test { result ≡ is_shaped spec.now }
    ensures shaped { OnTrue result (IsShaped spec.now) }
{
    match spec {
        Spec::Part {
            table: _,
            tests,
            yes: _,
            no: _,
        } => are_tests(tests.as_slice()),
        Spec::Join { .. } | Spec::Split { .. } | Spec::Union { .. } => false,
    }
}

// Whether these are from one to four tests, none with Null.
fn are_tests(tests: &[Test]) -> bool
    ensures test { result ≡ are_tests tests.now }
    ensures are { OnTrue result (AreTests tests.now) }
{
    1 <= tests.len() && tests.len() <= 4 && !has_null(tests)
}

// Whether a test is with Null.
fn has_null(tests: &[Test]) -> bool
    ensures { result ≡ list_any (λ (test : TheTest). is_null test.value) tests.now }
{
    tests.iter().any(|test| matches!(test.value, Value::Null))
}
