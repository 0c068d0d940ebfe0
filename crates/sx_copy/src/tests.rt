// A copy that learns readings in turns, and then records by their LSNs.
use crate::CopyList;
use std::alloc::Global;
use std::test::Fail;
use sx_heap::{Seen, Seens};
use sx_lists::Same;
use sx_log::{Body, Rec};
use sx_ops::{Spec, Tests};
use sx_values::{Key, Name, Names, Row, Value};

fn name(alloc: Global, text: &[u8]) -> Result<Name, Fail> {
    Ok(Name::new(alloc, text)?)
}

fn key(alloc: Global, id: i64) -> Result<Key, Fail> {
    let mut key = Key::new(alloc);
    key.push(Value::Int(id))?;
    Ok(key)
}

fn row(alloc: Global, id: i64, q: i64) -> Result<Row, Fail> {
    let mut row = Row::new(alloc);
    row.push(Value::Int(id))?;
    row.push(Value::Int(q))?;
    Ok(row)
}

fn some_row(alloc: Global, id: i64, q: i64) -> Result<Option<Row>, Fail> {
    Ok(Some(row(alloc, id, q)?))
}

fn reading(alloc: Global, id: i64, q: i64, lsn: u64) -> Result<Seen, Fail> {
    Ok(Seen {
        key: key(alloc, id)?,
        row: row(alloc, id, q)?,
        lsn,
    })
}

// The split of table `t`.
fn split(alloc: Global) -> Result<Spec, Fail> {
    Ok(Spec::Part {
        table: name(alloc, b"t")?,
        tests: Tests::new(alloc),
        yes: name(alloc, b"lo")?,
        no: name(alloc, b"hi")?,
    })
}

// The union of tables `s` and `t`.
fn union(alloc: Global) -> Result<Spec, Fail> {
    Ok(Spec::Union {
        left: name(alloc, b"s")?,
        right: name(alloc, b"t")?,
        into: name(alloc, b"u")?,
    })
}

// The join of table `t` with itself.
fn joined_with_itself(alloc: Global) -> Result<Spec, Fail> {
    Ok(Spec::Join {
        left: name(alloc, b"t")?,
        right: name(alloc, b"t")?,
        on_left: Names::new(alloc),
        on_right: Names::new(alloc),
        into: name(alloc, b"j")?,
    })
}

// The record of a write of table `t`.
fn write(alloc: Global, id: i64, before: Option<Row>, after: Option<Row>) -> Result<Rec, Fail> {
    Ok(Rec {
        txn: 1,
        body: Body::Write {
            table: name(alloc, b"t")?,
            key: key(alloc, id)?,
            before,
            after,
        },
    })
}

// The record that undoes a write of table `t`.
fn undo(alloc: Global, id: i64, before: Option<Row>, after: Option<Row>) -> Result<Rec, Fail> {
    Ok(Rec {
        txn: 1,
        body: Body::Undo {
            undoes: 1,
            table: name(alloc, b"t")?,
            key: key(alloc, id)?,
            before,
            after,
        },
    })
}

// Whether a copy has this row, under this LSN, at a key of a side.
fn has(alloc: Global, copy: &CopyList, side: u8, id: i64, q: i64, lsn: u64) -> Result<bool, Fail> {
    let wanted = row(alloc, id, q)?;
    let at = key(alloc, id)?;
    Ok(match copy.get(side, &at) {
        Some((row, stamp)) => row.is_same(&wanted) && stamp == lsn,
        None => false,
    })
}

fn lacks(alloc: Global, copy: &CopyList, side: u8, id: i64) -> Result<bool, Fail> {
    let at = key(alloc, id)?;
    Ok(copy.get(side, &at).is_none())
}

// The copy of the row of key 1, read under LSN 6.
fn copy_of_one(alloc: Global) -> Result<CopyList, Fail> {
    merged(alloc, CopyList::new(alloc), 1, 6, 6)
}

// A copy with one reading more of the first side.
fn merged(alloc: Global, copy: CopyList, id: i64, q: i64, lsn: u64) -> Result<CopyList, Fail> {
    let mut copy = copy;
    let mut seen = Seens::new(alloc);
    seen.push(reading(alloc, id, q, lsn)?)?;
    copy.merge_scan(0, &seen)?;
    Ok(copy)
}

// A copy behind a record.
fn behind(copy: CopyList, spec: &Spec, lsn: u64, rec: &Rec) -> Result<CopyList, Fail> {
    let mut copy = copy;
    copy.apply_record(spec, lsn, rec)?;
    Ok(copy)
}

// The copy of one row behind an insert of key 2 that the scan missed.
fn copy_behind_insert(alloc: Global) -> Result<CopyList, Fail> {
    let insert = write(alloc, 2, None, some_row(alloc, 2, 3)?)?;
    behind(copy_of_one(alloc)?, &split(alloc)?, 8, &insert)
}

// The copy of one row behind an update of a key that it lacks.
fn copy_behind_update(alloc: Global) -> Result<CopyList, Fail> {
    let update = write(alloc, 2, some_row(alloc, 2, 1)?, some_row(alloc, 2, 2)?)?;
    behind(copy_of_one(alloc)?, &split(alloc)?, 7, &update)
}

// The copy of one row behind a record of this LSN on its key that puts it back.
fn copy_behind_undo(alloc: Global, lsn: u64) -> Result<CopyList, Fail> {
    let undo = undo(alloc, 1, some_row(alloc, 1, 6)?, some_row(alloc, 1, 9)?)?;
    behind(copy_of_one(alloc)?, &split(alloc)?, lsn, &undo)
}

// The copy of one row behind its deletion.
fn copy_behind_delete(alloc: Global) -> Result<CopyList, Fail> {
    let delete = write(alloc, 1, some_row(alloc, 1, 6)?, None)?;
    behind(copy_of_one(alloc)?, &split(alloc)?, 7, &delete)
}

// The copy of one row behind an insert of key 1 into table `t`.
fn copy_of_both(alloc: Global, spec: &Spec) -> Result<CopyList, Fail> {
    let insert = write(alloc, 1, None, some_row(alloc, 1, 8)?)?;
    behind(copy_of_one(alloc)?, spec, 7, &insert)
}

#[test]
fn of_two_readings_the_greater_lsn_stays(rt: HostRuntime) -> Result<(), Fail> {
    let alloc = rt.alloc();
    let newer = merged(alloc, copy_of_one(alloc)?, 1, 7, 7)?;
    assert!(rt; has(alloc, &newer, 0, 1, 7, 7)?);
    let older = merged(alloc, newer, 1, 5, 5)?;
    assert!(rt; has(alloc, &older, 0, 1, 7, 7)?);
    Ok(())
}

#[test]
fn a_record_is_taken_by_its_lsn(rt: HostRuntime) -> Result<(), Fail> {
    let alloc = rt.alloc();
    let early = copy_behind_undo(alloc, 5)?;
    assert!(rt; has(alloc, &early, 0, 1, 6, 6)?);
    let late = copy_behind_undo(alloc, 7)?;
    assert!(rt; has(alloc, &late, 0, 1, 9, 7)?);
    Ok(())
}

#[test]
fn a_deleted_row_goes(rt: HostRuntime) -> Result<(), Fail> {
    let alloc = rt.alloc();
    let copy = copy_behind_delete(alloc)?;
    assert!(rt; lacks(alloc, &copy, 0, 1)?);
    Ok(())
}

#[test]
fn a_missed_key_comes_by_its_insert_alone(rt: HostRuntime) -> Result<(), Fail> {
    let alloc = rt.alloc();
    let update = copy_behind_update(alloc)?;
    assert!(rt; lacks(alloc, &update, 0, 2)?);
    let insert = copy_behind_insert(alloc)?;
    assert!(rt; has(alloc, &insert, 0, 2, 3, 8)?);
    Ok(())
}

#[test]
fn each_side_learns_its_own_table(rt: HostRuntime) -> Result<(), Fail> {
    let alloc = rt.alloc();
    let copy = copy_of_both(alloc, &union(alloc)?)?;
    assert!(rt; has(alloc, &copy, 0, 1, 6, 6)?);
    assert!(rt; has(alloc, &copy, 1, 1, 8, 7)?);
    Ok(())
}

#[test]
fn a_join_of_a_table_with_itself_learns_twice(rt: HostRuntime) -> Result<(), Fail> {
    let alloc = rt.alloc();
    let copy = copy_of_both(alloc, &joined_with_itself(alloc)?)?;
    assert!(rt; has(alloc, &copy, 0, 1, 8, 7)?);
    assert!(rt; has(alloc, &copy, 1, 1, 8, 7)?);
    Ok(())
}
