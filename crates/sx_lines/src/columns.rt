// The columns of a table line.
ghost use Rattle.std.specs.Prelude.{◌≡◌, ◌≤◌, ◌++◌, ◌∷◌, [], length, IfOk, IfSome, option_map};
ghost use Rattle.sx_values.specs.SchemaFaults.{IsDeclarable};
ghost use Rattle.sx_values.specs.Catalogs.{HasShortNames};
ghost use Rattle.sx_lines.specs.Lines.{words};
ghost use Rattle.sx_lines.specs.Columns.{mark_in, kind_in, column_in, with_column, layout_over, no_columns, declarable};

use crate::text::{behind, parted, short_name};
use std::alloc::{AllocError, Global};
use std::marker::Model;
use sx_values::{Column, Columns, Kind, Numbers, Schema, SchemaFault};

// What is said of a column behind its kind.
#[derive(Clone, Copy, Debug, PartialEq, Eq)]
pub(crate) enum Mark {
    Plain,
    Key,
    Nullable,
}

// A column, and whether it is part of the key.
#[derive(Debug, Drop)]
pub(crate) struct Keyed {
    column: Column,
    in_key: bool,
}

// The columns so far, and the places of those in the key.
#[derive(Debug, Drop)]
pub(crate) struct Draft {
    columns: Columns,
    key: Numbers,
}

impl Model for Draft {
    ghost use Rattle.sx_values.specs.Layouts.{Layout};
    ghost use Rattle.sx_lines.specs.Columns.{IsDraft};

    ghost Value = { Layout };

    ghost view = { λ d. record { columns = d.columns; key = d.key } };

    ghost invariant = { λ d. IsDraft (record { columns = d.columns; key = d.key }) };
}

impl Draft {
    fn new(alloc: Global) -> Draft
        ensures { result ≡ no_columns }
    {
        Draft {
            columns: Columns::new(alloc),
            key: Numbers::new(alloc),
        }
    }

    // The columns with one more, which a word shows.
    fn with_word(self, alloc: Global, word: &[u8]) -> Result<Option<Draft>, AllocError>
        ensures { IfOk result (λ draft. draft ≡ option_map (with_column self) (column_in word.now)) }
    {
        match column_in(alloc, word)? {
            Some(keyed) => Ok(Some(self.with_column(keyed)?)),
            None => Ok(None),
        }
    }

    // The columns with one more.
    fn with_column(self, keyed: Keyed) -> Result<Draft, AllocError>
        requires { length keyed.column.name ≤ 16 }
        ensures { IfOk result (λ draft. draft ≡ with_column self keyed) }
    {
        let Draft { mut columns, key } = self;
        let Keyed { column, in_key } = keyed;
        let key = if in_key {
            with_place(key, columns.len())?
        } else {
            key
        };
        columns.push(column)?;
        Ok(Draft { columns, key })
    }

    // The schema of the columns, where a declared table may have them.
    pub(crate) fn schema(self, alloc: Global) -> Result<Option<Schema>, AllocError>
        ensures schema { IfOk result (λ schema. schema ≡ declarable self) }
        ensures declarable { IfOk result (λ schema. IfSome schema (λ s. IsDeclarable s)) }
        ensures short_names { IfOk result (λ schema. IfSome schema (λ s. HasShortNames s)) }
    {
        let Draft { columns, key } = self;
        match Schema::new(alloc, columns, key) {
            Ok(schema) => Ok(Some(schema)),
            Err(SchemaFault::Memory) => Err(AllocError),
            Err(_) => Ok(None),
        }
    }
}

fn with_place(mut key: Numbers, place: u64) -> Result<Numbers, AllocError>
    ensures { IfOk result (λ places. places ≡ key ++ place ∷ []) }
{
    key.push(place)?;
    Ok(key)
}

// The columns that the words of a text show.
pub(crate) fn draft_in(alloc: Global, text: &[u8]) -> Result<Option<Draft>, AllocError>
    ensures { IfOk result (λ draft. draft ≡ layout_over no_columns (words text.now)) }
{
    let mut draft = Draft::new(alloc);
    let mut rest = text;
    loop {
        match parted(b' ', rest) {
            Some((word, more)) => match draft.with_word(alloc, word)? {
                Some(longer) => {
                    draft = longer;
                    rest = more;
                }
                None => return Ok(None),
            },
            None => return draft.with_word(alloc, rest),
        }
    }
}

// The column that a word shows.
#[tactic(auto, unfolding(crate::specs::Columns::column_in))]
fn column_in(alloc: Global, word: &[u8]) -> Result<Option<Keyed>, AllocError>
    ensures column { IfOk result (λ keyed. keyed ≡ column_in word.now) }
    ensures short { IfOk result (λ keyed. IfSome keyed (λ k. length k.column.name ≤ 16)) }
{
    let Some((front, rest)) = parted(b':', word) else {
        return Ok(None);
    };
    let Some(name) = short_name(alloc, front)? else {
        return Ok(None);
    };
    let Some((kind, mark)) = kind_in(rest) else {
        return Ok(None);
    };
    let nullable = matches!(mark, Mark::Nullable);
    let in_key = matches!(mark, Mark::Key);
    let column = Column {
        name,
        kind,
        nullable,
    };
    Ok(Some(Keyed { column, in_key }))
}

// A column's kind with its mark.
#[tactic(auto, unfolding(crate::specs::Columns::kind_in))]
fn kind_in(text: &[u8]) -> Option<(Kind, Mark)>
    ensures { result ≡ kind_in text.now }
{
    if let Some(rest) = behind(b"int", text) {
        return Some((Kind::Int, mark_in(rest)?));
    }
    if let Some(rest) = behind(b"text", text) {
        return Some((Kind::Text, mark_in(rest)?));
    }
    None
}

fn mark_in(text: &[u8]) -> Option<Mark>
    ensures { result ≡ mark_in text.now }
{
    match text {
        [] => Some(Mark::Plain),
        [b'*'] => Some(Mark::Key),
        [b'?'] => Some(Mark::Nullable),
        _ => None,
    }
}
