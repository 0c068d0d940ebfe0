// Calls that hand out rows by a counter that nobody reads.
ghost use Rattle.std.specs.Prelude.{◌≡◌, ◌<◌, map, IfOk, OnOk};
ghost use Rattle.std.specs.List.{AllByRecursion};
ghost use Rattle.sx_heap.specs.Relations.{IsRelation, IsRowOf};
ghost use Rattle.sx_part.specs.PartImages.{IsParted, LearnsReadings, schema_in};

use crate::parts::Parts;
use std::alloc::{AllocError, Global};
use std::marker::Brand;
use std::sync::ledger::{Blank, Ledger};
use sx_heap::{Seen, Table};
use sx_steps::Steps;
use sx_values::Row;

// The rows where they stand, in key order.
pub(crate) fn rows(alloc: Global, table: &Table) -> Result<Vec<&Row>, AllocError>
    ensures rows { IfOk result (λ rows. map (λ row. row.now) rows.items ≡ map (λ seen. seen.row) table.now.rows) }
    ensures relation { IsRelation table.now }
{
    counted_rows::<Brand>(alloc, table, Blank::new(1))
}

fn counted_rows<L: Ledger>(
    alloc: Global,
    table: &Table,
    blank: Blank,
) -> Result<Vec<&Row>, AllocError>
    requires name { blank.name ≡ L.name }
    requires parts { blank.parts ≡ L.parts }
    requires some { 0 < blank.parts }
    ensures rows { IfOk result (λ rows. map (λ row. row.now) rows.items ≡ map (λ seen. seen.row) table.now.rows) }
    ensures relation { IsRelation table.now }
{
    let mut steps = Steps::<L>::new(blank);
    table.rows(alloc, &mut steps)
}

// Merges readings.
pub(crate) fn learn_all(alloc: Global, parts: &mut Parts, seen: &[Seen]) -> Result<(), AllocError>
    requires parted { IsParted parts.old }
    requires fits { AllByRecursion (IsRowOf (schema_in parts.old)) seen.now }
    ensures learns { OnOk result (LearnsReadings seen.now parts.old parts.new) }
    ensures parted { OnOk result (IsParted parts.new) }
{
    counted_learn_all::<Brand>(alloc, parts, seen, Blank::new(1))
}

fn counted_learn_all<L: Ledger>(
    alloc: Global,
    parts: &mut Parts,
    seen: &[Seen],
    blank: Blank,
) -> Result<(), AllocError>
    requires name { blank.name ≡ L.name }
    requires parts { blank.parts ≡ L.parts }
    requires some { 0 < blank.parts }
    requires parted { IsParted parts.old }
    requires fits { AllByRecursion (IsRowOf (schema_in parts.old)) seen.now }
    ensures learns { OnOk result (LearnsReadings seen.now parts.old parts.new) }
    ensures parted { OnOk result (IsParted parts.new) }
{
    let mut steps = Steps::<L>::new(blank);
    parts.learn_all(alloc, seen, &mut steps)
}
