// An image from its mark to its tables, and one that has found no memory.
ghost use Rattle.std.specs.Prelude.{ℕ, ◌+◌, ◌≡◌, ◌≤◌, ◌<◌, All, IfOk, IsTrue, length};
ghost use Rattle.sx_values.specs.SchemaFaults.{IsDeclarable};
ghost use Rattle.sx_values.specs.declared.schema.Column.{Column as TheColumn};
ghost use Rattle.sx_ops.specs.Checks.{IsShaped};
ghost use Rattle.sx_image.specs.Images.{FitsRecord, position_in};
ghost use Rattle.sx_image.specs.declared.image.Kind.{Kind as TheKind};

use crate::Image;
use std::alloc::{AllocError, Global};
use std::marker::Brand;
use std::process::Abort;
use std::sync::ledger::{Blank, Ledger};
use std::test::Fail;
use sx_heap::{Seens, Tables};
use sx_log::{Body, Rec};
use sx_ops::{Cmp, Spec, Test, Tests};
use sx_steps::Steps;
use sx_values::{Catalog, Column, Columns, Kind, Name, Numbers, Schema, Value};

#[test]
fn both_tables_are_made(rt: HostRuntime) -> Result<(), Fail> {
    let alloc = rt.alloc();
    let tables = image(&rt, alloc)?.into_tables()?;
    assert!(rt; is_named(alloc, &tables, 1, b"lo")?);
    assert!(rt; is_named(alloc, &tables, 2, b"hi")?);
    Ok(())
}

#[test]
fn a_turn_leaves_the_position(rt: HostRuntime) -> Result<(), Fail> {
    let alloc = rt.alloc();
    let mut image = image(&rt, alloc)?;
    image.populate(0, &Seens::new(alloc))?;
    assert!(rt; image.position() == 4);
    Ok(())
}

#[test]
fn a_record_moves_the_position(rt: HostRuntime) -> Result<(), Fail> {
    let alloc = rt.alloc();
    let mut image = image(&rt, alloc)?;
    assert!(rt; image.position() < 1_000);
    let place = image.position() + 1;
    apply(&mut image, place, &commit())?;
    assert!(rt; image.position() == 5);
    Ok(())
}

#[test]
fn a_dead_image_stays_dead(rt: HostRuntime) -> Result<(), Fail> {
    let alloc = rt.alloc();
    let mut image = Image::dead();
    assert!(rt; image.position() == 0);
    assert!(rt; image.populate(0, &Seens::new(alloc)).is_err());
    assert!(rt; image.into_tables().is_err());
    Ok(())
}

// The image of no row of the split of t into the rows whose v is below 10, and the others, at position 4.
fn image(rt: &impl Abort, alloc: Global) -> Result<Image, Fail> {
    let catalog = catalog(rt, alloc)?;
    let spec = spec(alloc)?;
    assert!(rt; spec.check(alloc, &catalog).is_ok());
    Ok(Image::new(alloc, &catalog, &spec, 4)?)
}

// The record of a commit.
fn commit() -> Rec
    ensures { (place : ℕ) (image : TheKind) → place ≡ position_in image + 1 → FitsRecord place result.body image }
{
    Rec {
        txn: 1,
        body: Body::Commit,
    }
}

// Takes in the next record. Nobody reads the counter.
fn apply(image: &mut Image, place: u64, rec: &Rec) -> Result<(), AllocError>
    requires { FitsRecord place rec.now.body image.old }
{
    counted::<Brand>(image, place, rec, Blank::new(1))
}

fn counted<L: Ledger>(
    image: &mut Image,
    place: u64,
    rec: &Rec,
    blank: Blank,
) -> Result<(), AllocError>
    requires name { blank.name ≡ L.name }
    requires parts { blank.parts ≡ L.parts }
    requires some { 0 < blank.parts }
    requires fits { FitsRecord place rec.now.body image.old }
{
    let mut steps = Steps::<L>::new(blank);
    image.apply(place, rec, &mut steps)
}

// Whether the table at a place has this name.
fn is_named(alloc: Global, tables: &Tables, place: u64, text: &[u8]) -> Result<bool, Fail> {
    let wanted = name(alloc, text)?;
    Ok(match tables.at(place) {
        Some((name, _)) => *name == wanted,
        None => false,
    })
}

// The split of t into the rows whose v is below 10, and the others.
fn spec(alloc: Global) -> Result<Spec, Fail>
    ensures { IfOk result IsShaped }
{
    let mut tests = Tests::new(alloc);
    tests.push(Test {
        column: name(alloc, b"v")?,
        cmp: Cmp::Lt,
        value: Value::Int(10),
    })?;
    Ok(Spec::Part {
        table: name(alloc, b"t")?,
        tests,
        yes: name(alloc, b"lo")?,
        no: name(alloc, b"hi")?,
    })
}

// The table t with the key id and a number v.
fn catalog(rt: &impl Abort, alloc: Global) -> Result<Catalog, Fail> {
    let mut columns = Columns::new(alloc);
    for text in ["id", "v"] {
        columns.push(Column {
            name: name(alloc, text.as_bytes())?,
            kind: Kind::Int,
            nullable: false,
        })?;
    }
    let schema = keyed(rt, alloc, columns)?;
    assert!(rt; are_short(schema.columns()));
    let mut catalog = Catalog::new(alloc);
    catalog.declare(name(alloc, b"t")?, schema)?;
    Ok(catalog)
}

// The schema whose key is its first column.
fn keyed(rt: &impl Abort, alloc: Global, columns: Columns) -> Result<Schema, Fail>
    ensures { IfOk result IsDeclarable }
{
    assert!(rt; columns.len() > 0);
    let mut key = Numbers::new(alloc);
    key.push(0)?;
    Ok(Schema::new(alloc, columns, key)?)
}

// Whether two bytes can be added to each name.
fn are_short(columns: &[Column]) -> bool
    ensures { IsTrue result → All (λ (c : TheColumn). length c.name ≤ 30) columns.now }
{
    columns
        .iter()
        .all(|column| column.name.as_bytes().len() <= 30)
}

fn name(alloc: Global, text: &[u8]) -> Result<Name, Fail> {
    Ok(Name::new(alloc, text)?)
}
