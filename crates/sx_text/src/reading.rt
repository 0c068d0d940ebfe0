// Rows and keys from CSV records.
ghost use Rattle.std.specs.Prelude.{◌≡◌, ◌==◌, ◌<◌, [], ℕ, List, All, slice_get, IfOk, IfSome, IsTrue, false, length, map, option_map, position};
ghost use Rattle.std.specs.Cmp.Lexicographic.{pointwise};
ghost use Rattle.std.specs.List.{filter_map, list_all, list_any};
ghost use Rattle.csv.specs.Machine.{next_record};
ghost use Rattle.csv.specs.Reading.{default_config, strip_bom};
ghost use Rattle.csv.specs.Records.{fields_of as record_parts};
ghost use Rattle.csv.specs.declared.parser.State.TheVariants as state;
ghost use Rattle.sx_values.specs.Texts.{is_printable, null_word};
ghost use Rattle.sx_values.specs.Layouts.{key_columns};
ghost use Rattle.sx_text.specs.Records.{are_values, record_fields};
ghost use Rattle.sx_text.specs.Reading.{Gives, fields_read, key_read, kinds_of, row_read, value_of};

use crate::FieldFault;
use crate::number::int_of;
use csv::{ByteRecord, Error, ReaderBuilder};
use std::alloc::{AllocError, Global};
use sx_lists::List;
use sx_values::{Column, Key, Kind, Row, Schema, Text, TextFault, Value};

/// The row that a CSV record shows, read by the columns of a schema.
pub fn row_of(alloc: Global, schema: &Schema, text: &[u8]) -> Result<Row, FieldFault>
    requires { IsTrue (list_all is_printable text.now) }
    ensures { Gives result (row_read schema.now text.now) }
{
    let kinds = kinds_of_row(alloc, schema)?;
    let values = values_in(alloc, kinds.as_slice(), text)?;
    Ok(Row::from_values(values))
}

/// The key that a CSV record shows, read by the key columns of a schema, in key order.
pub fn key_of_text(alloc: Global, schema: &Schema, text: &[u8]) -> Result<Key, FieldFault>
    requires { IsTrue (list_all is_printable text.now) }
    ensures { Gives result (key_read schema.now text.now) }
{
    let kinds = kinds_of_key(alloc, schema)?;
    let values = values_in(alloc, kinds.as_slice(), text)?;
    Ok(Key::from_values(values))
}

fn kinds_of_row(alloc: Global, schema: &Schema) -> Result<Vec<Kind>, AllocError>
    ensures { IfOk result (λ kinds. kinds.items ≡ kinds_of schema.now.columns) }
{
    let mut kinds = Vec::new(alloc);
    for column in schema.columns() {
        kinds.push(column.kind)?;
    }
    Ok(kinds)
}

fn kinds_of_key(alloc: Global, schema: &Schema) -> Result<Vec<Kind>, AllocError>
    ensures { IfOk result (λ kinds. kinds.items ≡ kinds_of (key_columns schema.now)) }
{
    kinds_at(alloc, schema.columns(), schema.key())
}

// The kinds of the columns at these places, counted from 0.
fn kinds_at(alloc: Global, columns: &[Column], places: &[u64]) -> Result<Vec<Kind>, AllocError>
    requires { All (λ place. place < length columns.now) places.now }
    ensures { IfOk result (λ kinds. kinds.items ≡ kinds_of (filter_map (slice_get columns.now) places.now)) }
{
    let mut kinds = Vec::new(alloc);
    for place in places {
        kinds.push(columns[*place as usize].kind)?;
    }
    Ok(kinds)
}

// The values of a record's fields in columns of these kinds.
fn values_in(alloc: Global, kinds: &[Kind], text: &[u8]) -> Result<List<Value>, FieldFault>
    requires { IsTrue (list_all is_printable text.now) }
    ensures { Gives result (fields_read kinds.now (record_fields text.now)) }
{
    if text.contains(&b'"') {
        let record = record_in(alloc, text)?;
        let fields = fields_in(alloc, &record)?;
        values_of(alloc, kinds, fields.as_slice())
    } else {
        let fields = plain_fields(alloc, text)?;
        values_of(alloc, kinds, fields.as_slice())
    }
}

fn values_of(alloc: Global, kinds: &[Kind], fields: &[&[u8]]) -> Result<List<Value>, FieldFault>
    ensures { Gives result (fields_read kinds.now (map (λ field. field.now) fields.now)) }
{
    if fields.len() != kinds.len() {
        return Err(FieldFault::Width);
    }
    let mut values = Vec::with_capacity(alloc, fields.len())?;
    for (index, field) in fields.iter().enumerate() {
        match value_of(alloc, kinds[index], field)? {
            Some(value) => values.push(value)?,
            None => {
                return Err(FieldFault::Value {
                    column: index as u64 + 1,
                });
            }
        }
    }
    Ok(List::from_vec(values))
}

// The value that a field shows in a column of a kind.
#[tactic(auto, using(crate::proofs::FieldLaws::is_text_false))]
fn value_of(alloc: Global, kind: Kind, field: &[u8]) -> Result<Option<Value>, AllocError>
    ensures { IfOk result (λ value. value ≡ value_of kind field.now) }
{
    if is_null_word(field) {
        return Ok(Some(Value::Null));
    }
    match kind {
        Kind::Int => Ok(int_of(field).map(Value::Int)),
        Kind::Text => match Text::new(alloc, field) {
            Ok(text) => Ok(Some(Value::Text(text))),
            Err(TextFault::Memory) => Err(AllocError),
            Err(TextFault::TooLong { .. }) => Ok(None),
            Err(TextFault::BadByte { .. }) => Ok(None),
            Err(TextFault::IsNull) => Ok(None),
        },
    }
}

fn is_null_word(field: &[u8]) -> bool
    ensures { result ≡ pointwise ◌==◌ field.now null_word }
{
    field == b"NULL".as_slice()
}

// The record that a text is; an empty text is one without fields.
#[tactic(auto, using(crate::proofs::PlainLaws::strip_bom_printable, crate::proofs::FieldLaws::given_fields, crate::proofs::FieldLaws::none_given))]
fn record_in(alloc: Global, text: &[u8]) -> Result<ByteRecord, AllocError>
    requires { IsTrue (list_all is_printable text.now) }
    ensures { IfOk result (λ given. record_parts given ≡ record_fields text.now) }
{
    match first_record(alloc, text) {
        Ok(Some(record)) => Ok(record),
        Ok(None) => Ok(ByteRecord::new(alloc)),
        Err(_error) => Err(AllocError),
    }
}

// The first record of a text, as csv's reader gives it, if there is one.
fn first_record(alloc: Global, text: &[u8]) -> Result<Option<ByteRecord>, Error>
    ensures { IfOk result (λ given. option_map record_parts given ≡ option_map (λ read. read.0) (next_record default_config state.StartRecord [] [] (strip_bom text.now))) }
{
    let mut reader = ReaderBuilder::new()
        .has_headers(false)
        .from_reader(alloc, text);
    let mut record = ByteRecord::new(alloc);
    if reader.read_byte_record(&mut record)? {
        Ok(Some(record))
    } else {
        Ok(None)
    }
}

fn fields_in<'a>(alloc: Global, parts: &'a ByteRecord) -> Result<Vec<&'a [u8]>, AllocError>
    ensures { IfOk result (λ fields. map (λ field. field.now) fields.items ≡ record_parts parts.now) }
{
    let mut fields = Vec::new(alloc);
    for field in parts {
        fields.push(field)?;
    }
    Ok(fields)
}

// The fields of a record without quotes: what stands between its commas.
fn plain_fields<'a>(alloc: Global, text: &'a [u8]) -> Result<Vec<&'a [u8]>, AllocError>
    requires printable { IsTrue (list_all is_printable text.now) }
    requires unquoted { list_any (λ b. b == 34) text.now ≡ false }
    ensures { IfOk result (λ fields. map (λ field. field.now) fields.items ≡ record_fields text.now) }
{
    let mut fields = Vec::new(alloc);
    if text.is_empty() {
        return Ok(fields);
    }
    let mut rest = text;
    loop {
        match comma_in(rest) {
            Some(at) => {
                let (field, behind) = rest.split_at(at);
                fields.push(field)?;
                rest = behind.split_at(1).1;
            }
            None => {
                fields.push(rest)?;
                return Ok(fields);
            }
        }
    }
}

// The index of the first comma.
fn comma_in(text: &[u8]) -> Option<usize>
    ensures index { result ≡ position (λ b. b == 44) text.now }
    ensures small { IfSome result (λ index. index < length text.now) }
{
    text.iter().position(|b| *b == b',')
}
