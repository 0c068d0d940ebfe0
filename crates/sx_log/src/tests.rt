// A log that is written and read, and copies of its records.
use crate::{Body, Load, Log, Rec};
use std::alloc::Global;
use std::test::Fail;
use sx_lists::{Copied, Same};
use sx_values::{Key, Name, Row, Value};

fn name(alloc: Global) -> Result<Name, Fail> {
    Ok(Name::new(alloc, b"t")?)
}

fn key(alloc: Global, id: i64) -> Result<Key, Fail> {
    let mut key = Key::new(alloc);
    key.push(Value::Int(id))?;
    Ok(key)
}

fn row(alloc: Global, id: i64) -> Result<Row, Fail> {
    let mut row = Row::new(alloc);
    row.push(Value::Int(id))?;
    row.push(Value::Null)?;
    Ok(row)
}

// The body of a write that puts in the row of this number.
fn insert(alloc: Global, id: i64) -> Result<Body, Fail> {
    Ok(Body::Write {
        table: name(alloc)?,
        key: key(alloc, id)?,
        before: None,
        after: Some(row(alloc, id)?),
    })
}

// Whether a body puts this row in at this key.
fn puts_in(body: &Body, of: &Key, row: &Row) -> bool {
    match body {
        Body::Write {
            table,
            key,
            before: None,
            after: Some(after),
        } => table.as_bytes() == b"t".as_slice() && key.is_same(of) && after.is_same(row),
        _ => false,
    }
}

#[test]
fn the_log_is_written(rt: HostRuntime) -> Result<(), Fail> {
    let alloc = rt.alloc();
    let body = insert(alloc, 7)?;
    let mut log = Log::new(alloc);
    log.reserve(2)?;
    log.append(Rec { txn: 3, body });
    log.append(Rec {
        txn: 3,
        body: Body::Commit,
    });
    assert_eq!(rt; log.len(), 2);
    let end = log.range(alloc, 1, 5)?;
    assert_eq!(rt; end.len(), 1);
    match end.at(1) {
        Some(last) => {
            assert_eq!(rt; last.txn, 3);
            assert!(rt; matches!(last.body, Body::Commit));
        }
        None => panic!(rt; "no record"),
    }
    Ok(())
}

#[test]
fn writes_are_copied(rt: HostRuntime) -> Result<(), Fail> {
    let alloc = rt.alloc();
    let body = insert(alloc, 7)?;
    let copy = Rec { txn: 3, body }.copy(alloc)?;
    assert_eq!(rt; copy.txn, 3);
    assert!(rt; puts_in(&copy.body, &key(alloc, 7)?, &row(alloc, 7)?));
    Ok(())
}

#[test]
fn checks_are_copied(rt: HostRuntime) -> Result<(), Fail> {
    let alloc = rt.alloc();
    let check = Body::Check {
        group: key(alloc, 7)?,
        dep: key(alloc, 8)?,
    };
    match check.copy(alloc)? {
        Body::Check { group, dep } => {
            assert!(rt; group.is_same(&key(alloc, 7)?));
            assert!(rt; dep.is_same(&key(alloc, 8)?));
        }
        _ => panic!(rt; "another body"),
    }
    Ok(())
}

#[test]
fn loads_are_copied(rt: HostRuntime) -> Result<(), Fail> {
    let alloc = rt.alloc();
    let load = Load {
        table: name(alloc)?,
        row: row(alloc, 7)?,
    };
    let copy = load.copy(alloc)?;
    assert!(rt; copy.table.is_same(&load.table));
    assert!(rt; copy.row.is_same(&load.row));
    Ok(())
}
