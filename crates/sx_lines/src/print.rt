// The text of a line.
ghost use Rattle.std.specs.Prelude.{◌≡◌, ◌++◌, ◌∷◌, ◌+◌, ◌<◌, ◌^◌, [], OnOk};
ghost use Rattle.std.specs.Fmt.{decimal};
ghost use Rattle.sx_ops.specs.Checks.{IsPart};
ghost use Rattle.sx_lines.specs.Printing.{column_text, columns_text, is_key_place, HasText, kind_text, mark_text, line_text, named_text, names_text, request_text};

use crate::Line;
use crate::fields::put_spec;
use itoa::Buffer;
use std::alloc::{AllocError, Global};
use sx_journal::{PropLine, Request, What};
use sx_ops::Spec;
use sx_sync::Strategy;
use sx_text::put_record;
use sx_values::{Column, Kind, Name, Schema, Value};

/// Puts the text of a line at the end, without its line feed.
pub fn put_line(alloc: Global, out: &mut Vec<u8>, line: &Line) -> Result<(), AllocError>
    requires { HasText line.now }
    ensures { OnOk result (out.new.items ≡ out.old.items ++ line_text line.now) }
{
    match line {
        Line::Table { name, schema } => put_table(out, name, schema),
        Line::Index { table, columns } => put_index(out, table, columns.as_slice()),
        Line::Row { table, row } => put_named(alloc, out, b"row ", table, row.as_slice()),
        Line::Change { spec } => put_change(alloc, out, spec),
        Line::Strategy { strategy } => put_strategy(out, *strategy),
        Line::Retries { n } => put_counted(out, b"retries ", u64::from(*n)),
        Line::Client { n, what } => put_client(alloc, out, *n, what),
        Line::Pace(pace) => put_pace(out, *pace),
    }
}

fn put_table(out: &mut Vec<u8>, name: &Name, schema: &Schema) -> Result<(), AllocError>
    ensures { OnOk result (out.new.items ≡ out.old.items ++ line_text (Line.Table name.now schema.now)) }
{
    put(out, b"table ")?;
    put(out, name.as_bytes())?;
    put_columns(out, schema.columns(), schema.key())
}

// Columns in order, each behind a space.
fn put_columns(out: &mut Vec<u8>, columns: &[Column], key: &[u64]) -> Result<(), AllocError>
    ensures { OnOk result (out.new.items ≡ out.old.items ++ columns_text 0 key.now columns.now) }
{
    for (place, column) in columns.iter().enumerate() {
        put_column(out, column, is_key_place(key, place as u64))?;
    }
    Ok(())
}

fn is_key_place(key: &[u64], place: u64) -> bool
    ensures { result ≡ is_key_place key.now place }
{
    key.iter().any(|p| *p == place)
}

fn put_column(out: &mut Vec<u8>, column: &Column, in_key: bool) -> Result<(), AllocError>
    ensures { OnOk result (out.new.items ≡ out.old.items ++ 32 ∷ column_text in_key column.now) }
{
    put(out, b" ")?;
    put(out, column.name.as_bytes())?;
    put(out, b":")?;
    put(out, kind_text(column.kind))?;
    put(out, mark_text(in_key, column.nullable))
}

fn kind_text(kind: Kind) -> &'static [u8]
    ensures { result.now ≡ kind_text kind }
{
    match kind {
        Kind::Int => b"int",
        Kind::Text => b"text",
    }
}

fn mark_text(in_key: bool, nullable: bool) -> &'static [u8]
    ensures { result.now ≡ mark_text in_key nullable }
{
    if in_key {
        return b"*";
    }
    if nullable { b"?" } else { b"" }
}

fn put_index(out: &mut Vec<u8>, table: &Name, columns: &[Name]) -> Result<(), AllocError>
    ensures { OnOk result (out.new.items ≡ out.old.items ++ line_text (Line.Index table.now columns.now)) }
{
    put(out, b"index ")?;
    put(out, table.as_bytes())?;
    put(out, b" ")?;
    put_names(out, columns)
}

// Names parted by commas.
fn put_names(out: &mut Vec<u8>, names: &[Name]) -> Result<(), AllocError>
    ensures { OnOk result (out.new.items ≡ out.old.items ++ names_text names.now) }
{
    match names {
        [] => Ok(()),
        [name] => put(out, name.as_bytes()),
        [name, others @ ..] => {
            put(out, name.as_bytes())?;
            put(out, b",")?;
            put_names(out, others)
        }
    }
}

// A word, a name and a record of values.
fn put_named(
    alloc: Global,
    out: &mut Vec<u8>,
    word: &[u8],
    name: &Name,
    values: &[Value],
) -> Result<(), AllocError>
    ensures { OnOk result (out.new.items ≡ out.old.items ++ (word.now ++ named_text name.now values.now)) }
{
    put(out, word)?;
    put(out, name.as_bytes())?;
    put(out, b" ")?;
    put_record(alloc, out, values)
}

fn put_change(alloc: Global, out: &mut Vec<u8>, spec: &Spec) -> Result<(), AllocError>
    requires { IsPart spec.now }
    ensures { OnOk result (out.new.items ≡ out.old.items ++ line_text (Line.Change spec.now)) }
{
    put(out, b"change ")?;
    put_spec(alloc, out, spec)
}

fn put_strategy(out: &mut Vec<u8>, strategy: Strategy) -> Result<(), AllocError>
    ensures { OnOk result (out.new.items ≡ out.old.items ++ line_text (Line.Strategy strategy)) }
{
    put(out, b"strategy ")?;
    match strategy {
        Strategy::Blocking => put(out, b"blocking"),
        Strategy::NonBlockingAbort => put(out, b"abort"),
        Strategy::NonBlockingCommit => put(out, b"commit"),
    }
}

fn put_client(alloc: Global, out: &mut Vec<u8>, n: u8, what: &What) -> Result<(), AllocError>
    ensures { OnOk result (out.new.items ≡ out.old.items ++ line_text (Line.Client n what.now)) }
{
    put_counted(out, b"c", u64::from(n))?;
    put(out, b" ")?;
    match what {
        What::Ask(request) => put_request(alloc, out, request),
        What::Abort => put(out, b"abort"),
    }
}

fn put_request(alloc: Global, out: &mut Vec<u8>, request: &Request) -> Result<(), AllocError>
    ensures { OnOk result (out.new.items ≡ out.old.items ++ request_text request.now) }
{
    match request {
        Request::Begin => put(out, b"begin"),
        Request::Read { table, key } => put_named(alloc, out, b"read ", table, key.as_slice()),
        Request::Insert { table, row } => put_named(alloc, out, b"insert ", table, row.as_slice()),
        Request::Update { table, row } => put_named(alloc, out, b"update ", table, row.as_slice()),
        Request::Delete { table, key } => put_named(alloc, out, b"delete ", table, key.as_slice()),
        Request::Commit => put(out, b"commit"),
        Request::Undo => put(out, b"undo"),
    }
}

fn put_pace(out: &mut Vec<u8>, pace: PropLine) -> Result<(), AllocError>
    ensures { OnOk result (out.new.items ≡ out.old.items ++ line_text (Line.Pace pace)) }
{
    match pace {
        PropLine::Start => put(out, b"p start"),
        PropLine::Check => put(out, b"p check"),
        PropLine::Switch => put(out, b"p switch"),
        PropLine::Scan { n } => put_counted(out, b"p scan ", n),
        PropLine::Fetch { n } => put_counted(out, b"p fetch ", n),
    }
}

// A word and a number.
fn put_counted(out: &mut Vec<u8>, word: &[u8], n: u64) -> Result<(), AllocError>
    ensures { OnOk result (out.new.items ≡ out.old.items ++ (word.now ++ decimal n)) }
{
    put(out, word)?;
    let mut digits = Buffer::new();
    put(out, digits.format(n).as_bytes())
}

fn put(out: &mut Vec<u8>, bytes: &[u8]) -> Result<(), AllocError>
    ensures { OnOk result (out.new.items ≡ out.old.items ++ bytes.now) }
{
    out.extend_from_slice(bytes)
}
