// A journal that is written and read, and copies of its entries.
use crate::{Entry, Event, Journal, PropLine, Reply, Request, What, own};
use std::alloc::Global;
use std::test::Fail;
use sx_lists::{Copied, Same};
use sx_ops::Spec;
use sx_sync::Strategy;
use sx_values::{Name, Numbers, Row, Value};

fn name(alloc: Global, letter: u8) -> Result<Name, Fail> {
    Ok(Name::new(alloc, &[letter])?)
}

fn row(alloc: Global, id: i64) -> Result<Row, Fail> {
    let mut row = Row::new(alloc);
    row.push(Value::Int(id))?;
    Ok(row)
}

fn insert(alloc: Global, id: i64) -> Result<Request, Fail> {
    Ok(Request::Insert {
        table: name(alloc, b't')?,
        row: row(alloc, id)?,
    })
}

// Whether a request puts this row into the table t.
fn puts_in(request: &Request, wanted: &Row) -> bool {
    match request {
        Request::Insert { table, row } => {
            table.as_bytes() == b"t".as_slice() && row.is_same(wanted)
        }
        _ => false,
    }
}

#[test]
fn the_journal_is_written(rt: HostRuntime) -> Result<(), Fail> {
    let mut journal = Journal::new(rt.alloc());
    journal.reserve(1)?;
    journal.append(Entry {
        actor: 1,
        event: Event::Client(Request::Begin),
        reply: Reply::Begun { txn: 3 },
    });
    assert_eq!(rt; journal.len(), 1);
    let all = journal.range(rt.alloc(), 0, 9)?;
    assert_eq!(rt; all.len(), 1);
    match all.at(1) {
        Some(entry) => {
            assert_eq!(rt; entry.actor, 1);
            assert!(rt; matches!(entry.event, Event::Client(Request::Begin)));
            assert!(rt; matches!(entry.reply, Reply::Begun { txn: 3 }));
        }
        None => panic!(rt; "no entry"),
    }
    Ok(())
}

// A client's entry at the end.
fn put(journal: &mut Journal, actor: u8, request: Request, reply: Reply) -> Result<(), Fail> {
    journal.reserve(1)?;
    journal.append(Entry {
        actor,
        event: Event::Client(request),
        reply,
    });
    Ok(())
}

#[test]
fn own_entries_are_the_actors_in_order(rt: HostRuntime) -> Result<(), Fail> {
    let mut journal = Journal::new(rt.alloc());
    put(&mut journal, 1, Request::Begin, Reply::Begun { txn: 1 })?;
    put(&mut journal, 2, Request::Begin, Reply::Begun { txn: 2 })?;
    put(
        &mut journal,
        1,
        Request::Commit,
        Reply::Committed { lsn: 7 },
    )?;
    let first = own(rt.alloc(), &journal, 1)?;
    assert_eq!(rt; first.len(), 2);
    match first.at(2) {
        Some(entry) => assert!(rt; matches!(entry.reply, Reply::Committed { lsn: 7 })),
        None => panic!(rt; "no entry"),
    }
    assert_eq!(rt; own(rt.alloc(), &journal, 2)?.len(), 1);
    assert_eq!(rt; own(rt.alloc(), &journal, 3)?.len(), 0);
    Ok(())
}

#[test]
fn requests_are_copied(rt: HostRuntime) -> Result<(), Fail> {
    let alloc = rt.alloc();
    let asked = What::Ask(insert(alloc, 7)?);
    match asked.copy(alloc)? {
        What::Ask(request) => assert!(rt; puts_in(&request, &row(alloc, 7)?)),
        What::Abort => panic!(rt; "another request"),
    }
    Ok(())
}

#[test]
fn lines_of_the_propagator_are_copied(rt: HostRuntime) -> Result<(), Fail> {
    let copied = PropLine::Scan { n: 64 }.copy(rt.alloc())?;
    assert_eq!(rt; copied, PropLine::Scan { n: 64 });
    Ok(())
}

#[test]
fn starts_are_copied(rt: HostRuntime) -> Result<(), Fail> {
    let alloc = rt.alloc();
    let spec = Spec::Union {
        left: name(alloc, b'a')?,
        right: name(alloc, b'b')?,
        into: name(alloc, b'c')?,
    };
    let strategy = Strategy::NonBlockingAbort;
    match (Event::Start { spec, strategy }).copy(alloc)? {
        Event::Start { spec, strategy } => {
            assert!(rt; matches!(spec, Spec::Union { .. }));
            assert_eq!(rt; strategy, Strategy::NonBlockingAbort);
        }
        _ => panic!(rt; "another event"),
    }
    Ok(())
}

#[test]
fn replies_are_copied(rt: HostRuntime) -> Result<(), Fail> {
    let alloc = rt.alloc();
    let mut lsns = Numbers::new(alloc);
    lsns.push(4)?;
    let scanned = Reply::Scanned {
        side: 1,
        lsns,
        last: true,
    };
    match scanned.copy(alloc)? {
        Reply::Scanned { side, lsns, last } => {
            assert_eq!(rt; (side, last), (1, true));
            assert_eq!(rt; lsns.as_slice(), [4].as_slice());
        }
        _ => panic!(rt; "another reply"),
    }
    Ok(())
}
