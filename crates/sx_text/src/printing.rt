// Rows and keys as CSV records.
ghost use Rattle.std.specs.Prelude.{◌≡◌, ◌++◌, ◌∷◌, [], IfOk, IfSome, IsTrue, OnErr, OnOk, OnSome, map};
ghost use Rattle.std.specs.List.{list_all};
ghost use Rattle.csv.specs.Records.{fields_of, partial_of};
ghost use Rattle.csv.specs.Writing.{default_writer, needs_byte, needs_quotes, row_text};
ghost use Rattle.sx_values.specs.Texts.{is_printable};
ghost use Rattle.sx_text.specs.Records.{BeginsWith, IsPlain, are_values, field_of, is_value, record_of, record_text};

use csv::{ByteRecord, WriterBuilder};
use itoa::Buffer;
use std::alloc::{AllocError, Global};
use sx_lists::List;
use sx_values::{Key, Row, Value};

/// The CSV record that shows a row, without a line's end.
pub fn text_of(alloc: Global, row: &Row) -> Result<List<u8>, AllocError>
    ensures text { IfOk result (λ text. text ≡ record_text row.now) }
    ensures printable { IfOk result (λ text. IsTrue (list_all is_printable text)) }
    ensures values { OnOk result (IsTrue (are_values row.now)) }
{
    text_of_values(alloc, row.as_slice())
}

/// The CSV record that shows a key, without a line's end.
pub fn text_of_key(alloc: Global, key: &Key) -> Result<List<u8>, AllocError>
    ensures text { IfOk result (λ text. text ≡ record_text key.now) }
    ensures printable { IfOk result (λ text. IsTrue (list_all is_printable text)) }
    ensures values { OnOk result (IsTrue (are_values key.now)) }
{
    text_of_values(alloc, key.as_slice())
}

/// Puts the CSV record that shows values at the end, without a line's end. Want of memory leaves what was there.
pub fn put_record(alloc: Global, out: &mut Vec<u8>, values: &[Value]) -> Result<(), AllocError>
    ensures ok { OnOk result (out.new.items ≡ out.old.items ++ record_text values.now) }
    ensures values { OnOk result (IsTrue (are_values values.now)) }
    ensures err { OnErr result (out.new.items ≡ out.old.items) }
{
    let Some((first, rest)) = values.split_first() else {
        return put_quoted(alloc, out, values);
    };
    let start = out.len();
    match put_plain(out, first, rest) {
        Ok(true) => Ok(()),
        Ok(false) => {
            out.truncate(start);
            put_quoted(alloc, out, values)
        }
        Err(error) => {
            out.truncate(start);
            Err(error)
        }
    }
}

#[tactic(auto, using(crate::proofs::ReadBackLaws::printable_record_text))]
fn text_of_values(alloc: Global, values: &[Value]) -> Result<List<u8>, AllocError>
    ensures text { IfOk result (λ text. text ≡ record_text values.now) }
    ensures printable { IfOk result (λ text. IsTrue (list_all is_printable text)) }
    ensures values { OnOk result (IsTrue (are_values values.now)) }
{
    let mut text = Vec::new(alloc);
    put_record(alloc, &mut text, values)?;
    Ok(List::from_vec(text))
}

// Puts the record that shows values at the end, as csv's writer writes it, which takes a buffer for each record.
fn put_quoted(alloc: Global, out: &mut Vec<u8>, values: &[Value]) -> Result<(), AllocError>
    ensures ok { OnOk result (out.new.items ≡ out.old.items ++ record_text values.now) }
    ensures values { OnOk result (IsTrue (are_values values.now)) }
    ensures err { OnErr result (out.new.items ≡ out.old.items) }
{
    let record = record_of_values(alloc, values)?;
    let text = record_of(alloc, &record)?;
    out.extend_from_slice(text.as_slice())
}

// Puts the record that shows values at the end, and answers whether it stands there as csv's writer would write it:
// the fields with commas between them, of which none calls for quotes. Else a part of it stands there.
fn put_plain(out: &mut Vec<u8>, first: &Value, rest: &[Value]) -> Result<bool, AllocError>
    ensures front { BeginsWith out.old.items out.new.items }
    ensures text { IfOk result (λ plain. IsTrue plain → out.new.items ≡ out.old.items ++ record_text (first.now ∷ rest.now)) }
    ensures values { IfOk result (λ plain. IsTrue plain → IsTrue (are_values (first.now ∷ rest.now))) }
{
    if !put_field(out, first)? {
        return Ok(false);
    }
    for value in rest {
        out.push(b',')?;
        if !put_field(out, value)? {
            return Ok(false);
        }
    }
    Ok(true)
}

// Puts the field that shows a value at the end, and answers whether it stands there as csv's writer would write it.
fn put_field(text: &mut Vec<u8>, value: &Value) -> Result<bool, AllocError>
    ensures front { BeginsWith text.old.items text.new.items }
    ensures text { OnOk result (text.new.items ≡ text.old.items ++ field_of value.now) }
    ensures plain { IfOk result (λ plain. IsTrue plain → IsPlain (field_of value.now)) }
    ensures value { OnOk result (IsTrue (is_value value.now)) }
{
    match value {
        Value::Null => put_bytes(text, b"NULL"),
        Value::Int(number) => {
            let mut digits = Buffer::new();
            put_bytes(text, digits.format(*number).as_bytes())
        }
        Value::Text(shown) => put_bytes(text, shown.as_bytes()),
    }
}

// Puts the bytes of a field at the end, and answers whether they need no quotes.
fn put_bytes(text: &mut Vec<u8>, bytes: &[u8]) -> Result<bool, AllocError>
    ensures front { BeginsWith text.old.items text.new.items }
    ensures text { OnOk result (text.new.items ≡ text.old.items ++ bytes.now) }
    ensures plain { IfOk result (λ plain. IsTrue plain → IsPlain bytes.now) }
{
    text.extend_from_slice(bytes)?;
    Ok(!bytes.is_empty() && !call_for_quotes(bytes))
}

// Whether a byte calls for quotes round its field.
fn call_for_quotes(bytes: &[u8]) -> bool
    ensures { result ≡ needs_quotes default_writer bytes.now }
{
    bytes.iter().any(|byte| calls_for_quotes(*byte))
}

// Whether this is such a byte: a comma, a quote or the end of a line.
#[tactic(auto, using(crate::proofs::QuoteLaws::quote_byte))]
fn calls_for_quotes(byte: u8) -> bool
    ensures { result ≡ needs_byte default_writer byte }
{
    byte == b',' || byte == b'"' || byte == b'\r' || byte == b'\n'
}

// The record of the fields that show values.
fn record_of_values(alloc: Global, values: &[Value]) -> Result<ByteRecord, AllocError>
    ensures fields { IfOk result (λ given. fields_of given ≡ map field_of values.now) }
    ensures values { OnOk result (IsTrue (are_values values.now)) }
{
    let mut record = ByteRecord::new(alloc);
    for value in values {
        push_value(&mut record, value)?;
    }
    Ok(record)
}

// Puts the field that shows a value at the end of a record.
fn push_value(fields: &mut ByteRecord, value: &Value) -> Result<(), AllocError>
    requires { partial_of fields.old ≡ [] }
    ensures fields { OnOk result (fields_of fields.new ≡ fields_of fields.old ++ field_of value.now ∷ []) }
    ensures partial { OnOk result (partial_of fields.new ≡ []) }
    ensures value { OnOk result (IsTrue (is_value value.now)) }
{
    match value {
        Value::Null => fields.push_field(b"NULL"),
        Value::Int(number) => {
            let mut digits = Buffer::new();
            fields.push_field(digits.format(*number).as_bytes())
        }
        Value::Text(text) => fields.push_field(text.as_bytes()),
    }
}

// A record as csv's writer writes it, without the line's end.
fn record_of(alloc: Global, fields: &ByteRecord) -> Result<Vec<u8>, AllocError>
    ensures { IfOk result (λ text. text.items ≡ record_of (fields_of fields.now)) }
{
    let mut line = line_of(alloc, fields)?;
    let _line_feed = line.pop();
    Ok(line)
}

// A record as csv's writer writes it.
fn line_of(alloc: Global, fields: &ByteRecord) -> Result<Vec<u8>, AllocError>
    ensures { IfOk result (λ line. line.items ≡ row_text default_writer (fields_of fields.now)) }
{
    let mut writer = WriterBuilder::new().from_writer(Vec::new(alloc));
    if writer.write_byte_record(fields).is_err() {
        return Err(AllocError);
    }
    match writer.into_inner() {
        Ok(line) => Ok(line),
        Err(_) => Err(AllocError),
    }
}
