// Lines of tables.
ghost use Rattle.std.specs.Prelude.{◌≡◌, ◌++◌, ◌<◌, IfOk, OnOk, map, option_to_list};
ghost use Rattle.sx_lists.specs.Places.{at_place};
ghost use Rattle.sx_heap.specs.Relations.{IsRelation};
ghost use Rattle.sx_report.specs.TableLines.{AreRelations, row_line, row_lines, table_text, tables_text};

use crate::words::put;
use std::alloc::{AllocError, Global};
use std::marker::Brand;
use std::sync::ledger::{Blank, Ledger};
use sx_heap::{Table, Tables};
use sx_lists::List;
use sx_steps::Steps;
use sx_text::put_record;
use sx_values::{Name, Row};

/// The lines of these tables, in their order, each with its rows in key order.
pub fn print_tables(alloc: Global, tables: &Tables) -> Result<List<u8>, AllocError>
    ensures { IfOk result (λ text. text ≡ tables_text tables.now) }
{
    let mut out = Vec::new(alloc);
    put_tables(alloc, &mut out, tables)?;
    Ok(List::from_vec(out))
}

// Puts the lines of tables.
pub(crate) fn put_tables(
    alloc: Global,
    out: &mut Vec<u8>,
    tables: &Tables,
) -> Result<(), AllocError>
    ensures text { OnOk result (out.new.items ≡ out.old.items ++ tables_text tables.now) }
    ensures relations { OnOk result (AreRelations tables.now) }
{
    for index in 0..tables.len() {
        put_table_at(alloc, out, tables, index + 1)?;
    }
    Ok(())
}

// Puts the lines of the table at a place, if there is one.
fn put_table_at(
    alloc: Global,
    out: &mut Vec<u8>,
    tables: &Tables,
    place: u64,
) -> Result<(), AllocError>
    ensures text { OnOk result (out.new.items ≡ out.old.items ++ tables_text (option_to_list (at_place tables.now place))) }
    ensures relations { OnOk result (AreRelations (option_to_list (at_place tables.now place))) }
{
    match tables.at(place) {
        Some((name, table)) => put_table(alloc, out, name, table),
        None => Ok(()),
    }
}

// Puts the lines of a table.
fn put_table(alloc: Global, out: &mut Vec<u8>, name: &Name, table: &Table) -> Result<(), AllocError>
    ensures text { OnOk result (out.new.items ≡ out.old.items ++ table_text name.now (map (λ seen. seen.row) table.now.rows)) }
    ensures relation { OnOk result (IsRelation table.now) }
{
    put(out, b"table ")?;
    put(out, name.as_bytes())?;
    put(out, b"\n")?;
    let rows = rows(alloc, table)?;
    put_rows(alloc, out, name, rows.as_slice())
}

// The rows of a table where they stand, in key order. Nobody reads the counter.
fn rows(alloc: Global, table: &Table) -> Result<Vec<&Row>, AllocError>
    ensures rows { IfOk result (λ rows. map (λ row. row.now) rows.items ≡ map (λ seen. seen.row) table.now.rows) }
    ensures relation { IsRelation table.now }
{
    counted_rows::<Brand>(alloc, table, Blank::new(1))
}

fn counted_rows<L: Ledger>(
    alloc: Global,
    table: &Table,
    blank: Blank,
) -> Result<Vec<&Row>, AllocError>
    requires name { blank.name ≡ L.name }
    requires parts { blank.parts ≡ L.parts }
    requires some { 0 < blank.parts }
    ensures rows { IfOk result (λ rows. map (λ row. row.now) rows.items ≡ map (λ seen. seen.row) table.now.rows) }
    ensures relation { IsRelation table.now }
{
    let mut steps = Steps::<L>::new(blank);
    table.rows(alloc, &mut steps)
}

// Puts a line for each row.
fn put_rows(alloc: Global, out: &mut Vec<u8>, name: &Name, rows: &[&Row]) -> Result<(), AllocError>
    ensures { OnOk result (out.new.items ≡ out.old.items ++ row_lines name.now (map (λ row. row.now) rows.now)) }
{
    for row in rows {
        put_row(alloc, out, name, row)?;
    }
    Ok(())
}

// Puts the line of a row.
#[tactic(auto, unfolding(crate::specs::TableLines::row_line))]
fn put_row(alloc: Global, out: &mut Vec<u8>, name: &Name, row: &Row) -> Result<(), AllocError>
    ensures { OnOk result (out.new.items ≡ out.old.items ++ row_line name.now row.now) }
{
    put(out, b"row ")?;
    put(out, name.as_bytes())?;
    put(out, b" ")?;
    put_record(alloc, out, row.as_slice())?;
    put(out, b"\n")
}
