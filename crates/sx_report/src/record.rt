// Lines of the log.
ghost use Rattle.std.specs.Prelude.{◌≡◌, ◌++◌, IfOk, OnOk, reverse};
ghost use Rattle.sx_report.specs.LogLines.{body_text, image_text, log_line, log_lines, owner_text};

use crate::words::{joined, put, put_number};
use std::alloc::{AllocError, Global};
use sx_lists::List;
use sx_log::{Body, Rec};
use sx_text::put_record;
use sx_values::{Key, Name, Row};

/// The line of a record of the log, with its LSN.
pub fn print_log_line(alloc: Global, lsn: u64, rec: &Rec) -> Result<List<u8>, AllocError>
    ensures { IfOk result (λ text. text ≡ log_line lsn rec.now) }
{
    let mut out = Vec::new(alloc);
    put_log_line(alloc, &mut out, lsn, rec)?;
    Ok(List::from_vec(out))
}

// Puts the lines of a log.
pub(crate) fn put_log(alloc: Global, out: &mut Vec<u8>, log: &[Rec]) -> Result<(), AllocError>
    ensures { OnOk result (out.new.items ≡ out.old.items ++ log_lines (reverse log.now)) }
{
    for (index, rec) in log.iter().enumerate() {
        put_log_line(alloc, out, index as u64 + 1, rec)?;
    }
    Ok(())
}

// Puts the line of a record.
#[tactic(auto, unfolding(crate::specs::LogLines::log_line))]
fn put_log_line(alloc: Global, out: &mut Vec<u8>, lsn: u64, rec: &Rec) -> Result<(), AllocError>
    ensures { OnOk result (out.new.items ≡ out.old.items ++ log_line lsn rec.now) }
{
    put_number(out, lsn)?;
    put(out, b" ")?;
    put_owner(out, rec.txn, &rec.body)?;
    put(out, b" ")?;
    put_body(alloc, out, &rec.body)?;
    put(out, b"\n")
}

// Puts whose a record is.
#[tactic(auto, unfolding(crate::specs::LogLines::owner_text))]
fn put_owner(out: &mut Vec<u8>, txn: u64, body: &Body) -> Result<(), AllocError>
    ensures { OnOk result (out.new.items ≡ out.old.items ++ owner_text txn body.now) }
{
    match body {
        Body::Mark | Body::Check { .. } | Body::Switch => put(out, b"p"),
        Body::Write { .. } | Body::Undo { .. } | Body::Commit | Body::Abort => {
            put_number(out, txn)
        }
    }
}

// Puts what a record tells.
#[tactic(auto, unfolding(crate::specs::LogLines::body_text))]
fn put_body(alloc: Global, out: &mut Vec<u8>, body: &Body) -> Result<(), AllocError>
    ensures { OnOk result (out.new.items ≡ out.old.items ++ body_text body.now) }
{
    match body {
        Body::Write {
            table,
            key,
            after,
            ..
        } => put_image(alloc, out, table, key, after),
        Body::Undo {
            undoes,
            table,
            key,
            after,
            ..
        } => {
            put(out, b"back ")?;
            put_number(out, *undoes)?;
            put(out, b" ")?;
            put_image(alloc, out, table, key, after)
        }
        Body::Commit => put(out, b"commit"),
        Body::Abort => put(out, b"abort"),
        Body::Mark => put(out, b"mark"),
        Body::Check { group, dep } => {
            let values = joined(alloc, group.as_slice(), dep.as_slice())?;
            put(out, b"check ")?;
            put_record(alloc, out, values.as_slice())
        }
        Body::Switch => put(out, b"switch"),
    }
}

// Puts the image behind a record.
#[tactic(auto, unfolding(crate::specs::LogLines::image_text))]
fn put_image(
    alloc: Global,
    out: &mut Vec<u8>,
    table: &Name,
    key: &Key,
    after: &Option<Row>,
) -> Result<(), AllocError>
    ensures { OnOk result (out.new.items ≡ out.old.items ++ image_text table.now key.now after.now) }
{
    match after {
        Some(row) => {
            put(out, b"put ")?;
            put(out, table.as_bytes())?;
            put(out, b" ")?;
            put_record(alloc, out, row.as_slice())
        }
        None => {
            put(out, b"del ")?;
            put(out, table.as_bytes())?;
            put(out, b" ")?;
            put_record(alloc, out, key.as_slice())
        }
    }
}
