// What the parts of a line show.
ghost use Rattle.std.specs.Prelude.{◌≡◌, ◌++◌, OnOk, IfOk};
ghost use Rattle.sx_ops.specs.Checks.{IsPart};
ghost use Rattle.sx_lines.specs.Fields.{row_shown, key_shown, spec_shown};
ghost use Rattle.sx_lang.specs.Spelling.{spec_text};

use crate::text::are_printable;
use std::alloc::{AllocError, Global};
use sx_lang::{LangFault, parse_spec, print_spec};
use sx_ops::Spec;
use sx_text::{FieldFault, key_of_text, row_of};
use sx_values::{Key, Row, Schema};

// The row that a record shows.
#[tactic(auto, unfolding(crate::specs::Fields::row_shown))]
pub(crate) fn row_shown(
    alloc: Global,
    schema: &Schema,
    text: &[u8],
) -> Result<Option<Row>, AllocError>
    ensures { IfOk result (λ row. row ≡ row_shown schema.now text.now) }
{
    if !are_printable(text) {
        return Ok(None);
    }
    match row_of(alloc, schema, text) {
        Ok(row) => Ok(Some(row)),
        Err(FieldFault::Memory) => Err(AllocError),
        Err(FieldFault::Width) => Ok(None),
        Err(FieldFault::Value { .. }) => Ok(None),
    }
}

// The key that a record shows.
#[tactic(auto, unfolding(crate::specs::Fields::key_shown))]
pub(crate) fn key_shown(
    alloc: Global,
    schema: &Schema,
    text: &[u8],
) -> Result<Option<Key>, AllocError>
    ensures { IfOk result (λ key. key ≡ key_shown schema.now text.now) }
{
    if !are_printable(text) {
        return Ok(None);
    }
    match key_of_text(alloc, schema, text) {
        Ok(key) => Ok(Some(key)),
        Err(FieldFault::Memory) => Err(AllocError),
        Err(FieldFault::Width) => Ok(None),
        Err(FieldFault::Value { .. }) => Ok(None),
    }
}

// The transformation that a text shows.
#[tactic(auto, unfolding(crate::specs::Fields::spec_shown))]
pub(crate) fn spec_shown(alloc: Global, text: &[u8]) -> Result<Option<Spec>, AllocError>
    ensures { IfOk result (λ spec. spec ≡ spec_shown text.now) }
{
    if !are_printable(text) {
        return Ok(None);
    }
    match parse_spec(alloc, text) {
        Ok(spec) => Ok(Some(spec)),
        Err(LangFault::Memory) => Err(AllocError),
        Err(LangFault::NotText) => Ok(None),
    }
}

// Puts the text of a horizontal split at the end.
pub(crate) fn put_spec(alloc: Global, out: &mut Vec<u8>, spec: &Spec) -> Result<(), AllocError>
    requires { IsPart spec.now }
    ensures { OnOk result (out.new.items ≡ out.old.items ++ spec_text spec.now) }
{
    let text = print_spec(alloc, spec)?;
    out.extend_from_slice(text.as_slice())
}
