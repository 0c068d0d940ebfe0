// Transactions on one table, with answers known beforehand.
ghost use Rattle.std.specs.Prelude.{◌≡◌, ◌<◌, true, false, IsTrue, IsSome, IfOk};
ghost use Rattle.sx_txn.specs.Managed.{is_live, is_ending, schema_in};
ghost use Rattle.sx_txn.specs.Turns.{CanChange, CanUndo, CanUndoLast, FitsSchema};
ghost use Rattle.sx_log.specs.Images.{FitsImage};

use crate::{Change, Manager, TxnRead, TxnUndo, TxnWrite};
use std::alloc::Global;
use std::marker::Brand;
use std::process::Abort;
use std::sync::ledger::{Blank, Ledger};
use std::test::Fail;
use sx_heap::{Table, Tables};
use sx_lists::{Copied, List, Same};
use sx_log::{Body, Log};
use sx_steps::Steps;
use sx_values::{Column, Key, Kind, Name, Row, Schema, Value};

#[test]
fn the_least_holder_is_named(rt: HostRuntime) -> Result<(), Fail> {
    let mut manager = manager(rt.alloc())?;
    let turns = [
        (1, Ask::Begin, Told::Begun(1)),
        (1, Ask::Insert(5), Told::Done(1)),
        (1, Ask::Commit, Told::Committed(2)),
        (2, Ask::Begin, Told::Begun(2)),
        (3, Ask::Begin, Told::Begun(3)),
        (3, Ask::Read, Told::Row(5)),
        (2, Ask::Read, Told::Row(5)),
        (4, Ask::Begin, Told::Begun(4)),
        (4, Ask::Delete, Told::Held(2)),
        (2, Ask::Commit, Told::Committed(3)),
        (4, Ask::Delete, Told::Held(3)),
        (3, Ask::Commit, Told::Committed(4)),
        (4, Ask::Delete, Told::Done(5)),
    ];
    run(&rt, rt.alloc(), &mut manager, &turns)
}

#[test]
fn a_shared_lock_is_raised(rt: HostRuntime) -> Result<(), Fail> {
    let mut manager = manager(rt.alloc())?;
    let turns = [
        (1, Ask::Begin, Told::Begun(1)),
        (1, Ask::Read, Told::Absent),
        (1, Ask::Insert(5), Told::Done(1)),
        (1, Ask::Commit, Told::Committed(2)),
        (2, Ask::Begin, Told::Begun(2)),
        (3, Ask::Begin, Told::Begun(3)),
        (2, Ask::Read, Told::Row(5)),
        (3, Ask::Read, Told::Row(5)),
        (2, Ask::Replace(6), Told::Held(3)),
    ];
    run(&rt, rt.alloc(), &mut manager, &turns)
}

#[test]
fn writes_are_undone(rt: HostRuntime) -> Result<(), Fail> {
    let alloc = rt.alloc();
    let mut manager = manager(alloc)?;
    let turns = [
        (1, Ask::Begin, Told::Begun(1)),
        (1, Ask::Insert(5), Told::Done(1)),
        (1, Ask::Commit, Told::Committed(2)),
        (2, Ask::Begin, Told::Begun(2)),
        (2, Ask::Delete, Told::Done(3)),
        (2, Ask::Insert(6), Told::Done(4)),
        (2, Ask::Undo, Told::Undone(5)),
        (2, Ask::Undo, Told::Undone(6)),
        (2, Ask::Undo, Told::Aborted(7)),
        (3, Ask::Begin, Told::Begun(3)),
        (3, Ask::Read, Told::Row(5)),
    ];
    run(&rt, alloc, &mut manager, &turns)?;
    assert_undone(&rt, alloc, &manager)
}

#[test]
fn changes_are_refused(rt: HostRuntime) -> Result<(), Fail> {
    let alloc = rt.alloc();
    let mut manager = manager(alloc)?;
    let turns = [
        (1, Ask::Begin, Told::Begun(1)),
        (1, Ask::Delete, Told::Missing),
        (1, Ask::Replace(5), Told::Missing),
        (1, Ask::Insert(5), Told::Done(1)),
        (2, Ask::Begin, Told::Begun(2)),
        (2, Ask::Insert(6), Told::Held(1)),
        (1, Ask::Commit, Told::Committed(2)),
        (2, Ask::Insert(6), Told::Exists),
    ];
    run(&rt, alloc, &mut manager, &turns)?;
    let table = name(alloc)?;
    let key = key(alloc)?;
    assert!(rt; manager.locks().holds(2, &table, &key).is_none());
    Ok(())
}

#[test]
fn locks_last_to_the_end(rt: HostRuntime) -> Result<(), Fail> {
    let mut manager = manager(rt.alloc())?;
    let turns = [
        (1, Ask::Begin, Told::Begun(1)),
        (2, Ask::Begin, Told::Begun(2)),
        (1, Ask::Insert(5), Told::Done(1)),
        (2, Ask::Read, Told::Held(1)),
        (1, Ask::Undo, Told::Undone(2)),
        (2, Ask::Read, Told::Held(1)),
        (1, Ask::Undo, Told::Aborted(3)),
        (2, Ask::Read, Told::Absent),
    ];
    run(&rt, rt.alloc(), &mut manager, &turns)
}

#[test]
fn records_are_noted(rt: HostRuntime) -> Result<(), Fail> {
    let mut manager = manager(rt.alloc())?;
    manager.room(2)?;
    assert_eq!(rt; manager.note(Body::Mark), 1);
    assert!(rt; manager.log().spare() >= 1);
    assert!(rt; manager.room(u64::MAX).is_err());
    assert_eq!(rt; manager.log().len(), 1);
    Ok(())
}

#[test]
fn reads_are_copied(rt: HostRuntime) -> Result<(), Fail> {
    let alloc = rt.alloc();
    let row = row(alloc, 5)?;
    let read = TxnRead::Row { row }.copy(alloc)?;
    assert_eq!(rt; told_of(&read), Told::Row(5));
    Ok(())
}

#[test]
fn changes_are_copied(rt: HostRuntime) -> Result<(), Fail> {
    let alloc = rt.alloc();
    let copy = Change::Delete(key(alloc)?).copy(alloc)?;
    assert!(rt; is_deletion(&copy, &key(alloc)?));
    Ok(())
}

#[test]
fn new_tables_are_written_and_handed_out(rt: HostRuntime) -> Result<(), Fail> {
    let alloc = rt.alloc();
    let mut manager = Manager::new(alloc, Tables::new(alloc), Log::new(alloc));
    manager.put_new(one_table(alloc)?);
    let turns = [
        (1, Ask::Begin, Told::Begun(1)),
        (1, Ask::Insert(5), Told::Done(1)),
        (1, Ask::Replace(6), Told::Done(2)),
        (1, Ask::Undo, Told::Undone(3)),
        (1, Ask::Undo, Told::Undone(4)),
        (1, Ask::Undo, Told::Aborted(5)),
        (2, Ask::Begin, Told::Begun(2)),
        (2, Ask::Read, Told::Absent),
    ];
    run(&rt, alloc, &mut manager, &turns)?;
    let table = name(alloc)?;
    assert!(rt; manager.tables().find(&table).is_none());
    assert!(rt; manager.new_tables().find(&table).is_some());
    assert!(rt; manager.take_new().find(&table).is_some());
    assert!(rt; manager.new_tables().find(&table).is_none());
    Ok(())
}

// What a transaction asks of key 7. A row has it and another number.
#[derive(Clone, Copy, Debug)]
enum Ask {
    Begin,
    Read,
    Insert(i64),
    Replace(i64),
    Delete,
    Undo,
    Commit,
}

// What it is told: a number of the row, a transaction or an LSN.
#[derive(Clone, Copy, Debug, PartialEq, Eq)]
enum Told {
    Begun(u64),
    Row(i64),
    Absent,
    Held(u64),
    Done(u64),
    Exists,
    Missing,
    Undone(u64),
    Aborted(u64),
    Committed(u64),
}

// Transactions ask, and each is told what it should be.
fn run(
    rt: &impl Abort,
    alloc: Global,
    manager: &mut Manager,
    turns: &[(u64, Ask, Told)],
) -> Result<(), Fail> {
    for (txn, asked, want) in turns {
        let told = answer_to(rt, alloc, manager, *txn, *asked)?;
        assert_eq!(rt; told, *want, "{txn} asked {asked:?}");
    }
    Ok(())
}

fn answer_to(
    rt: &impl Abort,
    alloc: Global,
    manager: &mut Manager,
    txn: u64,
    asked: Ask,
) -> Result<Told, Fail> {
    match asked {
        Ask::Begin => Ok(Told::Begun(manager.begin()?)),
        Ask::Read => read(rt, alloc, manager, txn),
        Ask::Insert(q) => write(rt, alloc, manager, txn, Change::Insert(row(alloc, q)?)),
        Ask::Replace(q) => write(rt, alloc, manager, txn, Change::Replace(row(alloc, q)?)),
        Ask::Delete => write(rt, alloc, manager, txn, Change::Delete(key(alloc)?)),
        Ask::Undo => undo(rt, alloc, manager, txn),
        Ask::Commit => Ok(Told::Committed(commit(rt, manager, txn))),
    }
}

fn told_of(answer: &TxnRead) -> Told {
    match answer {
        TxnRead::Row { row } => match row.at(2) {
            Some(Value::Int(q)) => Told::Row(*q),
            _ => Told::Missing,
        },
        TxnRead::Absent => Told::Absent,
        TxnRead::Held { by } => Told::Held(*by),
    }
}

fn told_of_write(answer: TxnWrite) -> Told {
    match answer {
        TxnWrite::Done { lsn } => Told::Done(lsn),
        TxnWrite::Held { by } => Told::Held(by),
        TxnWrite::Exists => Told::Exists,
        TxnWrite::Missing => Told::Missing,
    }
}

fn told_of_undo(answer: TxnUndo) -> Told {
    match answer {
        TxnUndo::Undone { lsn } => Told::Undone(lsn),
        TxnUndo::Aborted { lsn } => Told::Aborted(lsn),
    }
}

fn read(rt: &impl Abort, alloc: Global, manager: &mut Manager, txn: u64) -> Result<Told, Fail> {
    let table = name(alloc)?;
    let key = key(alloc)?;
    assert!(rt; manager.live(txn));
    assert!(rt; !manager.ending(txn));
    assert!(rt; has_table(manager, &table));
    let answer = read_counted::<Brand>(manager, txn, &table, &key, Blank::new(1))?;
    Ok(told_of(&answer))
}

fn read_counted<L: Ledger>(
    manager: &mut Manager,
    txn: u64,
    table: &Name,
    key: &Key,
    blank: Blank,
) -> Result<TxnRead, Fail>
    requires name { blank.name ≡ L.name }
    requires parts { blank.parts ≡ L.parts }
    requires some { 0 < blank.parts }
    requires live { is_live manager.old.living txn ≡ true }
    requires resting { is_ending manager.old.living txn ≡ false }
    requires there { IsSome (schema_in manager.old.shapes table.now) }
{
    let mut steps = Steps::<L>::new(blank);
    Ok(manager.read(txn, table, key, &mut steps)?)
}

fn write(
    rt: &impl Abort,
    alloc: Global,
    manager: &mut Manager,
    txn: u64,
    change: Change,
) -> Result<Told, Fail> {
    let table = name(alloc)?;
    assert!(rt; manager.live(txn));
    assert!(rt; !manager.ending(txn));
    assert!(rt; can_change(manager, &table, &change));
    let answer = write_counted::<Brand>(manager, txn, &table, change, Blank::new(1))?;
    Ok(told_of_write(answer))
}

fn write_counted<L: Ledger>(
    manager: &mut Manager,
    txn: u64,
    table: &Name,
    change: Change,
    blank: Blank,
) -> Result<TxnWrite, Fail>
    requires name { blank.name ≡ L.name }
    requires parts { blank.parts ≡ L.parts }
    requires some { 0 < blank.parts }
    requires live { is_live manager.old.living txn ≡ true }
    requires resting { is_ending manager.old.living txn ≡ false }
    requires change { CanChange manager.old.shapes table.now change }
{
    let mut steps = Steps::<L>::new(blank);
    Ok(manager.write(txn, table, change, &mut steps)?)
}

fn undo(rt: &impl Abort, alloc: Global, manager: &mut Manager, txn: u64) -> Result<Told, Fail> {
    assert!(rt; manager.live(txn));
    assert!(rt; can_undo_last(alloc, manager, txn)?);
    let answer = undo_counted::<Brand>(manager, txn, Blank::new(1))?;
    assert!(rt; manager.ending(txn) || !manager.live(txn));
    Ok(told_of_undo(answer))
}

fn undo_counted<L: Ledger>(manager: &mut Manager, txn: u64, blank: Blank) -> Result<TxnUndo, Fail>
    requires name { blank.name ≡ L.name }
    requires parts { blank.parts ≡ L.parts }
    requires some { 0 < blank.parts }
    requires live { is_live manager.old.living txn ≡ true }
    requires can { CanUndoLast manager.old txn }
{
    let mut steps = Steps::<L>::new(blank);
    Ok(manager.undo_one(txn, &mut steps)?)
}

fn commit(rt: &impl Abort, manager: &mut Manager, txn: u64) -> u64 {
    assert!(rt; manager.live(txn));
    assert!(rt; !manager.ending(txn));
    manager.commit(txn)
}

// The log tells two undos, of an insert behind a deletion.
fn assert_undone(rt: &impl Abort, alloc: Global, manager: &Manager) -> Result<(), Fail> {
    let first = Some(row(alloc, 5)?);
    let second = Some(row(alloc, 6)?);
    assert!(rt; is_undo(manager, 5, 4, &second, &None));
    assert!(rt; is_undo(manager, 6, 3, &None, &first));
    Ok(())
}

// Whether a change takes out the row of this key.
fn is_deletion(change: &Change, key: &Key) -> bool {
    match change {
        Change::Delete(of) => of.is_same(key),
        _ => false,
    }
}

// Whether the record of this LSN undoes that write, with these images.
fn is_undo(manager: &Manager, lsn: u64, write: u64, from: &Option<Row>, to: &Option<Row>) -> bool {
    let Some(record) = manager.log().at(lsn) else {
        return false;
    };
    let Body::Undo {
        undoes,
        before,
        after,
        ..
    } = &record.body
    else {
        return false;
    };
    *undoes == write && before.is_same(from) && after.is_same(to)
}

// Whether a table is there.
fn has_table(manager: &Manager, table: &Name) -> bool
    ensures { IsTrue result → IsSome (schema_in manager.now.shapes table.now) }
{
    manager.schema(table).is_some()
}

// Whether a table is there and admits a change.
fn can_change(manager: &Manager, table: &Name, change: &Change) -> bool
    ensures { IsTrue result → CanChange manager.now.shapes table.now change.now }
{
    match manager.schema(table) {
        Some(schema) => fits(schema, change),
        None => false,
    }
}

fn fits(schema: &Schema, change: &Change) -> bool
    ensures { IsTrue result → FitsSchema schema.now change.now }
{
    match change {
        Change::Insert(row) => schema.admits(row).is_ok(),
        Change::Replace(row) => schema.admits(row).is_ok(),
        Change::Delete(_) => true,
    }
}

// Whether the last write that is left of a live transaction, if there is one, can be undone.
fn can_undo_last(alloc: Global, manager: &Manager, txn: u64) -> Result<bool, Fail>
    requires { is_live manager.now.living txn ≡ true }
    ensures { IfOk result (λ can. IsTrue can → CanUndoLast manager.now txn) }
{
    match manager.last_left(txn) {
        Some(lsn) => can_undo(alloc, manager, txn, lsn),
        None => Ok(true),
    }
}

// Whether the record of this LSN is a transaction's write to a table that is there, whose image before can be put back.
fn can_undo(alloc: Global, manager: &Manager, txn: u64, lsn: u64) -> Result<bool, Fail>
    ensures { IfOk result (λ can. IsTrue can → CanUndo manager.now.log manager.now.shapes txn lsn) }
{
    let Some(record) = manager.log().at(lsn) else {
        return Ok(false);
    };
    let Body::Write {
        table,
        key,
        before,
        ..
    } = &record.body
    else {
        return Ok(false);
    };
    match manager.schema(table) {
        Some(schema) => Ok(record.txn == txn && is_row(alloc, schema, key, before)?),
        None => Ok(false),
    }
}

// Whether the schema admits the row, if there is one, as that of this key.
fn is_row(alloc: Global, schema: &Schema, key: &Key, image: &Option<Row>) -> Result<bool, Fail>
    ensures { IfOk result (λ is. IsTrue is → FitsImage schema.now key.now image.now) }
{
    match image {
        Some(row) if schema.admits(row).is_ok() => Ok(schema.key_of(alloc, row)?.is_same(key)),
        Some(_) => Ok(false),
        None => Ok(true),
    }
}

// A manager of one empty table.
fn manager(alloc: Global) -> Result<Manager, Fail> {
    let mut tables = Tables::new(alloc);
    tables.push(name(alloc)?, Table::new(alloc, schema(alloc)?))?;
    Ok(Manager::new(alloc, tables, Log::new(alloc)))
}

fn one_table(alloc: Global) -> Result<Tables, Fail> {
    let mut tables = Tables::new(alloc);
    tables.push(name(alloc)?, Table::new(alloc, schema(alloc)?))?;
    Ok(tables)
}

// A number as the key, and another.
fn schema(alloc: Global) -> Result<Schema, Fail> {
    let mut columns = List::new(alloc);
    columns.push(number_column(alloc, b"id")?)?;
    columns.push(number_column(alloc, b"q")?)?;
    let mut key = List::new(alloc);
    key.push(0)?;
    Ok(Schema::new(alloc, columns, key)?)
}

fn number_column(alloc: Global, name: &[u8]) -> Result<Column, Fail> {
    Ok(Column {
        name: Name::new(alloc, name)?,
        kind: Kind::Int,
        nullable: false,
    })
}

fn name(alloc: Global) -> Result<Name, Fail> {
    Ok(Name::new(alloc, b"t")?)
}

fn row(alloc: Global, q: i64) -> Result<Row, Fail> {
    let mut row = Row::new(alloc);
    row.push(Value::Int(7))?;
    row.push(Value::Int(q))?;
    Ok(row)
}

fn key(alloc: Global) -> Result<Key, Fail> {
    let mut key = Key::new(alloc);
    key.push(Value::Int(7))?;
    Ok(key)
}
