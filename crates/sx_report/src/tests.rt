// Pieces of reports whose texts are known beforehand.
use crate::end::put_end;
use crate::{ReportEnd, print_head, print_log_line, print_tables};
use std::alloc::Global;
use std::process::Abort;
use std::test::Fail;
use sx_core::Core;
use sx_lists::Copied;
use sx_log::{Body, Rec};
use sx_script::{Script, parse_script};
use sx_values::{Key, Name, Row, Text, Value};

fn name(alloc: Global) -> Result<Name, Fail> {
    Ok(Name::new(alloc, b"t")?)
}

fn key(alloc: Global, id: i64) -> Result<Key, Fail> {
    let mut key = Key::new(alloc);
    key.push(Value::Int(id))?;
    Ok(key)
}

fn city(alloc: Global, bytes: &[u8]) -> Result<Key, Fail> {
    let mut key = Key::new(alloc);
    key.push(Value::Text(Text::new(alloc, bytes)?))?;
    Ok(key)
}

fn row(alloc: Global, id: i64, q: Value) -> Result<Row, Fail> {
    let mut row = Row::new(alloc);
    row.push(Value::Int(id))?;
    row.push(q)?;
    Ok(row)
}

// The record of LSN 8 and transaction 3 has the line beside it.
fn tells(rt: &impl Abort, alloc: Global, body: Body, line: &[u8]) -> Result<(), Fail> {
    let text = print_log_line(alloc, 8, &Rec { txn: 3, body })?;
    assert_eq!(rt; text.as_slice(), line);
    Ok(())
}

// A write of the row (2, 5) in the place of none, or the other way round.
fn write(alloc: Global, before: Option<Row>, after: Option<Row>) -> Result<Body, Fail> {
    Ok(Body::Write {
        table: name(alloc)?,
        key: key(alloc, 2)?,
        before,
        after,
    })
}

// The undoing of such a write.
fn undo(alloc: Global, before: Option<Row>, after: Option<Row>) -> Result<Body, Fail> {
    Ok(Body::Undo {
        undoes: 6,
        table: name(alloc)?,
        key: key(alloc, 2)?,
        before,
        after,
    })
}

#[test]
fn records_of_rows(rt: HostRuntime) -> Result<(), Fail> {
    let alloc = rt.alloc();
    let puts = write(alloc, None, Some(row(alloc, 2, Value::Int(5))?))?;
    tells(&rt, alloc, puts, b"8 3 put t 2,5\n")?;
    let takes = write(alloc, Some(row(alloc, 2, Value::Int(5))?), None)?;
    tells(&rt, alloc, takes, b"8 3 del t 2\n")
}

#[test]
fn records_of_undone_rows(rt: HostRuntime) -> Result<(), Fail> {
    let alloc = rt.alloc();
    let puts = undo(alloc, None, Some(row(alloc, 2, Value::Int(5))?))?;
    tells(&rt, alloc, puts, b"8 3 back 6 put t 2,5\n")?;
    let takes = undo(alloc, Some(row(alloc, 2, Value::Int(5))?), None)?;
    tells(&rt, alloc, takes, b"8 3 back 6 del t 2\n")
}

#[test]
fn records_of_turns(rt: HostRuntime) -> Result<(), Fail> {
    let alloc = rt.alloc();
    let checked = Body::Check {
        group: key(alloc, 5)?,
        dep: city(alloc, b"Oslo")?,
    };
    for (body, line) in vec![in alloc;
        (Body::Commit, b"8 3 commit\n".as_slice()),
        (Body::Abort, b"8 3 abort\n".as_slice()),
        (Body::Mark, b"8 p mark\n".as_slice()),
        (checked, b"8 p check 5,Oslo\n".as_slice()),
        (Body::Switch, b"8 p switch\n".as_slice()),
    ]? {
        tells(&rt, alloc, body, line)?;
    }
    Ok(())
}

#[test]
fn ends(rt: HostRuntime) -> Result<(), Fail> {
    let alloc = rt.alloc();
    let violated = ReportEnd::Violated {
        first: key(alloc, 4)?,
        second: city(alloc, b"a b")?,
    };
    for (end, line) in vec![in alloc;
        (ReportEnd::NoChange, b"end none\n".as_slice()),
        (ReportEnd::Switched, b"end switched\n".as_slice()),
        (violated, b"end violated 4,a b\n".as_slice()),
        (ReportEnd::Full, b"end full\n".as_slice()),
    ]? {
        let mut out = Vec::new(alloc);
        put_end(alloc, &mut out, &end)?;
        assert_eq!(rt; out.as_slice(), line);
    }
    Ok(())
}

#[test]
fn an_end_is_copied(rt: HostRuntime) -> Result<(), Fail> {
    let alloc = rt.alloc();
    let end = ReportEnd::Violated {
        first: key(alloc, 3)?,
        second: key(alloc, 4)?,
    };
    let mut out = Vec::new(alloc);
    put_end(alloc, &mut out, &end.copy(alloc)?)?;
    assert_eq!(rt; out.as_slice(), b"end violated 3,4\n".as_slice());
    Ok(())
}

// The machine with a script's rows, before its first event.
fn loaded(alloc: Global, script: &Script) -> Result<Core, Fail> {
    let _lines = script.lines();
    let (catalog, loads) = (script.catalog(alloc)?, script.loads(alloc)?);
    Ok(Core::make(alloc, catalog, loads)?)
}

const TWO_ROWS: &[u8] = b"# Rows out of order.
table t id:int* q:int?
row t 3,20

row t 2,NULL";

#[test]
fn a_head_before_the_first_event(rt: HostRuntime) -> Result<(), Fail> {
    let alloc = rt.alloc();
    let script = parse_script(alloc, TWO_ROWS)?;
    let core = loaded(alloc, &script)?;
    let head = print_head(alloc, &script, &core)?;
    assert_eq!(rt;
        head.as_slice(),
        b"script
table t id:int* q:int?
row t 3,20
row t 2,NULL
journal
log
1 0 put t 3,20
2 0 put t 2,NULL
"
            .as_slice()
    );
    Ok(())
}

#[test]
fn rows_stand_in_key_order(rt: HostRuntime) -> Result<(), Fail> {
    let alloc = rt.alloc();
    let core = loaded(alloc, &parse_script(alloc, TWO_ROWS)?)?;
    let text = print_tables(alloc, core.tables())?;
    assert_eq!(rt;
        text.as_slice(),
        b"table t\nrow t 2,NULL\nrow t 3,20\n".as_slice()
    );
    Ok(())
}
