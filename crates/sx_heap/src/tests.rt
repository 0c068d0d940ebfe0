// Rows that are put in out of order, by key, in turns and by the name of their table.
ghost use Rattle.std.specs.Prelude.{◌≡◌, ◌+◌, ◌<◌, IfOk, OnOk, IsTrue, IsSomeAnd, option_map};
ghost use Rattle.std.specs.Ordering.{is_lt};
ghost use Rattle.sx_values.specs.Values.{values_cmp};
ghost use Rattle.sx_heap.specs.Relations.{row_at};
ghost use Rattle.sx_heap.specs.NamedTables.{HasThisKeyOf, table_named};

use crate::{Cursor, Table, Tables, Walked};
use std::alloc::Global;
use std::marker::Brand;
use std::process::Abort;
use std::sync::ledger::{Blank, Ledger};
use std::test::Fail;
use sx_lists::{Copied, List, Same};
use sx_steps::Steps;
use sx_values::{Column, Key, Kind, Name, Row, Schema, Value};

// A number as the key, and another.
fn schema(alloc: Global) -> Result<Schema, Fail> {
    let mut columns = List::new(alloc);
    columns.push(number_column(alloc, b"id")?)?;
    columns.push(number_column(alloc, b"q")?)?;
    let mut key = List::new(alloc);
    key.push(0)?;
    Ok(Schema::new(alloc, columns, key)?)
}

fn number_column(alloc: Global, name: &[u8]) -> Result<Column, Fail> {
    Ok(Column {
        name: Name::new(alloc, name)?,
        kind: Kind::Int,
        nullable: false,
    })
}

fn row(alloc: Global, id: i64, q: i64) -> Result<Row, Fail> {
    let mut row = Row::new(alloc);
    row.push(Value::Int(id))?;
    row.push(Value::Int(q))?;
    Ok(row)
}

fn key(alloc: Global, id: i64) -> Result<Key, Fail> {
    let mut key = Key::new(alloc);
    key.push(Value::Int(id))?;
    Ok(key)
}

// What a table has at a key. Nobody reads the counter.
fn get<'a>(table: &'a Table, key: &Key) -> Option<(&'a Row, u64)>
    ensures { option_map (λ found. (found.0.now, found.1)) result ≡ row_at table.now.rows key.now }
{
    get_counted::<Brand>(table, key, Blank::new(1))
}

fn get_counted<'a, L: Ledger>(table: &'a Table, key: &Key, blank: Blank) -> Option<(&'a Row, u64)>
    requires name { blank.name ≡ L.name }
    requires parts { blank.parts ≡ L.parts }
    requires some { 0 < blank.parts }
    ensures { option_map (λ found. (found.0.now, found.1)) result ≡ row_at table.now.rows key.now }
{
    let mut steps = Steps::<L>::new(blank);
    table.get(key, &mut steps)
}

fn insert(
    rt: &impl Abort,
    alloc: Global,
    table: &mut Table,
    row: Row,
    lsn: u64,
) -> Result<(), Fail> {
    assert!(rt; table.schema().admits(&row).is_ok());
    let key = table.schema().key_of(alloc, &row)?;
    assert!(rt; get(table, &key).is_none());
    table.insert(row, lsn)?;
    Ok(())
}

fn replace(
    rt: &impl Abort,
    alloc: Global,
    table: &mut Table,
    row: Row,
    lsn: u64,
) -> Result<(), Fail> {
    assert!(rt; table.schema().admits(&row).is_ok());
    let key = table.schema().key_of(alloc, &row)?;
    assert!(rt; get(table, &key).is_some());
    table.replace(row, lsn)?;
    Ok(())
}

// Whether the table of a name admits a row and has a row of its key, which is this key.
fn can_rewrite(
    alloc: Global,
    tables: &Tables,
    name: &Name,
    key: &Key,
    row: &Row,
) -> Result<bool, Fail>
    ensures { IfOk result (λ can. IsTrue can → IsSomeAnd (table_named tables.now name.now) (HasThisKeyOf key.now row.now)) }
{
    let Some(table) = tables.find(name) else {
        return Ok(false);
    };
    if table.schema().admits(row).is_err() {
        return Ok(false);
    }
    let own = table.schema().key_of(alloc, row)?;
    Ok(own.is_same(key) && get(table, key).is_some())
}

// Rows with the keys 30, -10, 50, 20 and 40, put in in this order.
fn five_rows(rt: &impl Abort, alloc: Global) -> Result<Table, Fail> {
    let mut table = Table::new(alloc, schema(alloc)?);
    for (id, lsn) in [(30, 1), (-10, 2), (50, 3), (20, 4), (40, 5)] {
        insert(rt, alloc, &mut table, row(alloc, id, 7)?, lsn)?;
    }
    Ok(table)
}

fn assert_has(rt: &impl Abort, table: &Table, key: &Key, row: &Row, lsn: u64) {
    match get(table, key) {
        Some((found, at)) => {
            assert!(rt; found.is_same(row));
            assert_eq!(rt; at, lsn);
        }
        None => panic!(rt; "absent"),
    }
}

fn walk_counted<L: Ledger>(
    alloc: Global,
    table: &Table,
    cursor: Cursor,
    n: u64,
    blank: Blank,
) -> Result<Walked, Fail>
    requires name { blank.name ≡ L.name }
    requires parts { blank.parts ≡ L.parts }
    requires some { 0 < blank.parts }
{
    let mut steps = Steps::<L>::new(blank);
    Ok(table.walk(alloc, cursor, n, &mut steps)?)
}

fn rows_counted<L: Ledger>(alloc: Global, table: &Table, blank: Blank) -> Result<Vec<&Row>, Fail>
    requires name { blank.name ≡ L.name }
    requires parts { blank.parts ≡ L.parts }
    requires some { 0 < blank.parts }
{
    let mut steps = Steps::<L>::new(blank);
    Ok(table.rows(alloc, &mut steps)?)
}

// A turn of n rows has these LSNs, and says whether it is the last.
fn turn(
    rt: &impl Abort,
    alloc: Global,
    table: &Table,
    cursor: Cursor,
    n: u64,
    lsns: &[u64],
    over: bool,
) -> Result<Cursor, Fail> {
    let walked = walk_counted::<Brand>(alloc, table, cursor, n, Blank::new(1))?;
    assert_eq!(rt; walked.over, over);
    assert_eq!(rt; walked.seen.len(), lsns.len() as u64);
    for (seen, lsn) in walked.seen.as_slice().iter().zip(lsns) {
        assert_eq!(rt; seen.lsn, *lsn);
    }
    Ok(walked.next)
}

#[test]
fn rows_by_key(rt: HostRuntime) -> Result<(), Fail> {
    let alloc = rt.alloc();
    let mut table = five_rows(&rt, alloc)?;
    let twenty = key(alloc, 20)?;
    assert_has(&rt, &table, &twenty, &row(alloc, 20, 7)?, 4);
    replace(&rt, alloc, &mut table, row(alloc, 20, 8)?, 6)?;
    assert_has(&rt, &table, &twenty, &row(alloc, 20, 8)?, 6);
    assert_eq!(rt; table.len(), 5);
    Ok(())
}

#[test]
fn a_row_taken_out(rt: HostRuntime) -> Result<(), Fail> {
    let alloc = rt.alloc();
    let mut table = five_rows(&rt, alloc)?;
    let twenty = key(alloc, 20)?;
    assert!(rt; get(&table, &twenty).is_some());
    table.remove(&twenty)?;
    assert!(rt; get(&table, &twenty).is_none());
    assert_eq!(rt; table.len(), 4);
    Ok(())
}

#[test]
fn turns_of_two(rt: HostRuntime) -> Result<(), Fail> {
    let alloc = rt.alloc();
    let table = five_rows(&rt, alloc)?;
    let first = turn(&rt, alloc, &table, Cursor::start(), 2, &[2, 4], false)?;
    let second = turn(&rt, alloc, &table, first, 2, &[1, 5], false)?;
    let third = turn(&rt, alloc, &table, second, 2, &[3], true)?;
    let _end = turn(&rt, alloc, &table, third, 2, &[], true)?;
    Ok(())
}

#[test]
fn turns_that_end_at_the_end(rt: HostRuntime) -> Result<(), Fail> {
    let alloc = rt.alloc();
    let table = five_rows(&rt, alloc)?;
    let _short = turn(&rt, alloc, &table, Cursor::start(), 4, &[2, 4, 1, 5], false)?;
    let _exact = turn(
        &rt,
        alloc,
        &table,
        Cursor::start(),
        5,
        &[2, 4, 1, 5, 3],
        true,
    )?;
    let empty = Table::new(alloc, schema(alloc)?);
    let _none = turn(&rt, alloc, &empty, Cursor::start(), 2, &[], true)?;
    Ok(())
}

#[test]
fn rows_in_key_order(rt: HostRuntime) -> Result<(), Fail> {
    let alloc = rt.alloc();
    let mut table = Table::new(alloc, schema(alloc)?);
    assert_eq!(rt;
        rows_counted::<Brand>(alloc, &table, Blank::new(1))?.len(),
        0
    );
    insert(&rt, alloc, &mut table, row(alloc, 2, 5)?, 1)?;
    insert(&rt, alloc, &mut table, row(alloc, 1, 6)?, 2)?;
    let rows = rows_counted::<Brand>(alloc, &table, Blank::new(1))?;
    assert_eq!(rt; rows.len(), 2);
    assert!(rt; rows[0].is_same(&row(alloc, 1, 6)?));
    assert!(rt; rows[1].is_same(&row(alloc, 2, 5)?));
    Ok(())
}

// A walk's turn through a table of one row.
fn one_walked(rt: &impl Abort, alloc: Global) -> Result<Walked, Fail> {
    let mut table = Table::new(alloc, schema(alloc)?);
    insert(rt, alloc, &mut table, row(alloc, 2, 5)?, 9)?;
    walk_counted::<Brand>(alloc, &table, Cursor::start(), 3, Blank::new(1))
}

#[test]
fn a_turn_is_copied(rt: HostRuntime) -> Result<(), Fail> {
    let alloc = rt.alloc();
    let copy = one_walked(&rt, alloc)?.copy(alloc)?;
    assert!(rt; copy.over);
    let [seen] = copy.seen.as_slice() else {
        return Err(Fail::new("another number of rows"));
    };
    assert_eq!(rt; seen.lsn, 9);
    assert!(rt; seen.row.is_same(&row(alloc, 2, 5)?));
    assert!(rt; seen.key.is_same(&key(alloc, 2)?));
    Ok(())
}

// Looks up a row that is there and one that isn't, takes a turn of one row, and then both rows of a table.
fn look_around<L: Ledger>(
    rt: &impl Abort,
    alloc: Global,
    table: &Table,
    there: &Key,
    absent: &Key,
    steps: &mut Steps<L>,
) -> Result<(), Fail>
    ensures { OnOk result (steps.new ≡ steps.old + 4) }
{
    assert_eq!(rt; table.len(), 2);
    assert!(rt; table.get(there, steps).is_some());
    assert!(rt; table.get(absent, steps).is_none());
    let walked = table.walk(alloc, Cursor::start(), 1, steps)?;
    assert_eq!(rt; walked.seen.len(), 1);
    let _rows = table.rows(alloc, steps)?;
    Ok(())
}

fn count_rows<L: Ledger>(rt: &impl Abort, alloc: Global, blank: Blank) -> Result<(), Fail>
    requires name { blank.name ≡ L.name }
    requires parts { blank.parts ≡ L.parts }
    requires some { 0 < blank.parts }
{
    let mut steps = Steps::<L>::new(blank);
    let mut table = Table::new(alloc, schema(alloc)?);
    insert(rt, alloc, &mut table, row(alloc, 1, 5)?, 1)?;
    insert(rt, alloc, &mut table, row(alloc, 2, 6)?, 2)?;
    look_around(
        rt,
        alloc,
        &table,
        &key(alloc, 2)?,
        &key(alloc, 3)?,
        &mut steps,
    )
}

// No test can read the counter: what `look_around` ensures is proved.
#[test]
fn each_row_is_counted(rt: HostRuntime) -> Result<(), Fail> {
    count_rows::<Brand>(&rt, rt.alloc(), Blank::new(1))
}

// The table a has five rows, and b has none.
fn two_tables(rt: &impl Abort, alloc: Global, a: Name, b: Name) -> Result<Tables, Fail> {
    let mut tables = Tables::new(alloc);
    assert!(rt; tables.find(&a).is_none());
    tables.push(a, five_rows(rt, alloc)?)?;
    assert!(rt; tables.find(&b).is_none());
    tables.push(b, Table::new(alloc, schema(alloc)?))?;
    Ok(tables)
}

fn assert_len(rt: &impl Abort, tables: &Tables, name: &Name, len: u64) {
    match tables.find(name) {
        Some(table) => assert_eq!(rt; table.len(), len),
        None => panic!(rt; "no table"),
    }
}

#[test]
fn tables_by_name(rt: HostRuntime) -> Result<(), Fail> {
    let alloc = rt.alloc();
    let (a, b) = (Name::new(alloc, b"a")?, Name::new(alloc, b"b")?);
    let mut tables = two_tables(&rt, alloc, Name::new(alloc, b"a")?, Name::new(alloc, b"b")?)?;
    match tables.find_mut(&b) {
        Some(table) => insert(&rt, alloc, table, row(alloc, 1, 1)?, 8)?,
        None => panic!(rt; "no table"),
    }
    assert_len(&rt, &tables, &a, 5);
    assert_len(&rt, &tables, &b, 1);
    Ok(())
}

#[test]
fn tables_by_place(rt: HostRuntime) -> Result<(), Fail> {
    let alloc = rt.alloc();
    let mut tables = two_tables(&rt, alloc, Name::new(alloc, b"a")?, Name::new(alloc, b"b")?)?;
    let c = Name::new(alloc, b"c")?;
    assert!(rt; tables.find_mut(&c).is_none());
    assert_eq!(rt; tables.len(), 2);
    match tables.at(2) {
        Some((name, _table)) => assert_eq!(rt; name.as_bytes(), b"b".as_slice()),
        None => panic!(rt; "no place"),
    }
    assert!(rt; tables.at(3).is_none());
    Ok(())
}

#[test]
fn a_row_is_rewritten(rt: HostRuntime) -> Result<(), Fail> {
    let alloc = rt.alloc();
    let (a, b) = (Name::new(alloc, b"a")?, Name::new(alloc, b"b")?);
    let mut tables = two_tables(&rt, alloc, Name::new(alloc, b"a")?, b)?;
    let twenty = key(alloc, 20)?;
    let newer = row(alloc, 20, 8)?;
    assert!(rt; can_rewrite(alloc, &tables, &a, &twenty, &newer)?);
    tables.rewrite(&a, &twenty, newer, 6);
    match tables.find(&a) {
        Some(table) => assert_has(&rt, table, &twenty, &row(alloc, 20, 8)?, 6),
        None => panic!(rt; "no table"),
    }
    assert_len(&rt, &tables, &a, 5);
    Ok(())
}

#[test]
fn a_row_is_put(rt: HostRuntime) -> Result<(), Fail> {
    let alloc = rt.alloc();
    let mut table = five_rows(&rt, alloc)?;
    assert!(rt; !put(&rt, alloc, &mut table, row(alloc, 30, 8)?, 6)?);
    assert!(rt; put(&rt, alloc, &mut table, row(alloc, 35, 9)?, 7)?);
    assert_eq!(rt; table.len(), 6);
    assert_has(&rt, &table, &key(alloc, 30)?, &row(alloc, 30, 8)?, 6);
    assert_has(&rt, &table, &key(alloc, 35)?, &row(alloc, 35, 9)?, 7);
    Ok(())
}

fn put(
    rt: &impl Abort,
    alloc: Global,
    table: &mut Table,
    row: Row,
    lsn: u64,
) -> Result<bool, Fail> {
    assert!(rt; table.schema().admits(&row).is_ok());
    let key = table.schema().key_of(alloc, &row)?;
    Ok(table.put(key, row, lsn)?)
}

// Whether a key is below another.
fn is_below(key: &Key, other: &Key) -> bool
    ensures { result ≡ is_lt (values_cmp key.now other.now) }
{
    key.cmp(other).is_lt()
}

// A table of two rows with this LSN, the first of which has the lesser key.
fn of_two(
    rt: &impl Abort,
    alloc: Global,
    first: Row,
    second: Row,
    lsn: u64,
) -> Result<Table, Fail> {
    let schema = schema(alloc)?;
    assert!(rt; schema.admits(&first).is_ok());
    assert!(rt; schema.admits(&second).is_ok());
    let one = schema.key_of(alloc, &first)?;
    let two = schema.key_of(alloc, &second)?;
    assert!(rt; is_below(&one, &two));
    let mut rows = List::new(alloc);
    rows.push(first)?;
    rows.push(second)?;
    Ok(Table::of_rows(alloc, schema, rows, lsn)?)
}

#[test]
fn a_table_of_rows(rt: HostRuntime) -> Result<(), Fail> {
    let alloc = rt.alloc();
    let table = of_two(&rt, alloc, row(alloc, -10, 7)?, row(alloc, 20, 8)?, 3)?;
    assert_eq!(rt; table.len(), 2);
    assert_has(&rt, &table, &key(alloc, -10)?, &row(alloc, -10, 7)?, 3);
    assert_has(&rt, &table, &key(alloc, 20)?, &row(alloc, 20, 8)?, 3);
    assert!(rt; get(&table, &key(alloc, 30)?).is_none());
    Ok(())
}
