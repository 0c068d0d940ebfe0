// Readers and writers on a few keys of two tables.
use crate::places::Place;
use crate::{Asked, LockTable, Mode};
use std::alloc::Global;
use std::process::Abort;
use std::test::Fail;
use sx_values::{Key, Name, Value};

// What a transaction asks, and what it is answered.
type Ask = (u64, Mode, Asked);

// What a transaction holds.
type Hold = (u64, Option<Mode>);

fn place(alloc: Global, table: &[u8], id: i64) -> Result<Place, Fail> {
    let table = Name::new(alloc, table)?;
    let key = key(alloc, id)?;
    Ok(Place { table, key })
}

fn key(alloc: Global, id: i64) -> Result<Key, Fail> {
    let mut key = Key::new(alloc);
    key.push(Value::Int(id))?;
    Ok(key)
}

fn assert_answers(
    rt: &impl Abort,
    locks: &mut LockTable,
    place: &Place,
    asks: &[Ask],
) -> Result<(), Fail> {
    for (txn, mode, answer) in asks {
        assert_eq!(rt; locks.ask(*txn, &place.table, &place.key, *mode)?, *answer);
    }
    Ok(())
}

fn assert_holds(rt: &impl Abort, locks: &LockTable, place: &Place, holds: &[Hold]) {
    for (txn, mode) in holds {
        assert_eq!(rt; locks.holds(*txn, &place.table, &place.key), *mode);
    }
}

// On one key these are the answers in turn, and then these the locks.
fn assert_on_one_key(
    rt: &impl Abort,
    alloc: Global,
    asks: &[Ask],
    holds: &[Hold],
) -> Result<(), Fail> {
    let place = place(alloc, b"orders", 1)?;
    let mut locks = LockTable::new(alloc);
    assert_answers(rt, &mut locks, &place, asks)?;
    assert_holds(rt, &locks, &place, holds);
    Ok(())
}

#[test]
fn two_readers_and_a_writer(rt: HostRuntime) -> Result<(), Fail> {
    let asks = [
        (1, Mode::Shared, Asked::Granted),
        (2, Mode::Shared, Asked::Granted),
        (3, Mode::Exclusive, Asked::Held { by: 1 }),
    ];
    let holds = [(1, Some(Mode::Shared)), (2, Some(Mode::Shared)), (3, None)];
    assert_on_one_key(&rt, rt.alloc(), &asks, &holds)
}

#[test]
fn a_lone_reader_may_write(rt: HostRuntime) -> Result<(), Fail> {
    let asks = [
        (1, Mode::Shared, Asked::Granted),
        (1, Mode::Exclusive, Asked::Granted),
        (2, Mode::Shared, Asked::Held { by: 1 }),
    ];
    let holds = [(1, Some(Mode::Exclusive)), (2, None)];
    assert_on_one_key(&rt, rt.alloc(), &asks, &holds)
}

#[test]
fn a_reader_beside_another_may_not_write(rt: HostRuntime) -> Result<(), Fail> {
    let asks = [
        (1, Mode::Shared, Asked::Granted),
        (2, Mode::Shared, Asked::Granted),
        (1, Mode::Exclusive, Asked::Held { by: 2 }),
    ];
    let holds = [(1, Some(Mode::Shared)), (2, Some(Mode::Shared))];
    assert_on_one_key(&rt, rt.alloc(), &asks, &holds)
}

#[test]
fn a_writer_that_reads_still_may_write(rt: HostRuntime) -> Result<(), Fail> {
    let asks = [
        (1, Mode::Exclusive, Asked::Granted),
        (1, Mode::Shared, Asked::Granted),
        (1, Mode::Exclusive, Asked::Granted),
    ];
    assert_on_one_key(&rt, rt.alloc(), &asks, &[(1, Some(Mode::Exclusive))])
}

#[test]
fn the_least_of_several_holders_is_named(rt: HostRuntime) -> Result<(), Fail> {
    let alloc = rt.alloc();
    let place = place(alloc, b"orders", 1)?;
    let mut locks = LockTable::new(alloc);
    assert_least(&rt, &mut locks, &place)
}

fn assert_least(rt: &impl Abort, locks: &mut LockTable, place: &Place) -> Result<(), Fail> {
    let asks = [
        (7, Mode::Shared, Asked::Granted),
        (2, Mode::Shared, Asked::Granted),
        (5, Mode::Shared, Asked::Granted),
        (9, Mode::Exclusive, Asked::Held { by: 2 }),
        (2, Mode::Exclusive, Asked::Held { by: 5 }),
    ];
    assert_answers(rt, locks, place, &asks)?;
    let for_a_writer = locks.least_holder(1, &place.table, &place.key, Mode::Exclusive);
    assert_eq!(rt; for_a_writer, Some(2));
    let for_a_reader = locks.least_holder(1, &place.table, &place.key, Mode::Shared);
    assert_eq!(rt; for_a_reader, None);
    Ok(())
}

#[test]
fn a_release_frees_its_own(rt: HostRuntime) -> Result<(), Fail> {
    let alloc = rt.alloc();
    let written = place(alloc, b"orders", 1)?;
    let read = place(alloc, b"parts", 2)?;
    let mut locks = LockTable::new(alloc);
    take_both(&rt, &mut locks, &written, &read)?;
    assert!(rt; locks.any_on(1, &written.table));
    locks.release_all(1);
    assert!(rt; !locks.any_on(1, &written.table));
    assert_one_is_free(&rt, &mut locks, &written, &read)
}

// Transaction 1 writes the first and reads the second, which 2 reads too.
fn take_both(
    rt: &impl Abort,
    locks: &mut LockTable,
    written: &Place,
    read: &Place,
) -> Result<(), Fail> {
    let readers = [
        (1, Mode::Shared, Asked::Granted),
        (2, Mode::Shared, Asked::Granted),
    ];
    assert_answers(rt, locks, written, &[(1, Mode::Exclusive, Asked::Granted)])?;
    assert_answers(rt, locks, read, &readers)
}

// Transaction 1 holds nothing, and 2 may write where it alone reads and where nobody is.
fn assert_one_is_free(
    rt: &impl Abort,
    locks: &mut LockTable,
    written: &Place,
    read: &Place,
) -> Result<(), Fail> {
    let asks = [(2, Mode::Exclusive, Asked::Granted)];
    assert_holds(rt, locks, written, &[(1, None)]);
    assert_holds(rt, locks, read, &[(1, None), (2, Some(Mode::Shared))]);
    assert_answers(rt, locks, written, &asks)?;
    assert_answers(rt, locks, read, &asks)
}

#[test]
fn a_lock_is_granted(rt: HostRuntime) -> Result<(), Fail> {
    let alloc = rt.alloc();
    let place = place(alloc, b"orders", 1)?;
    let mut locks = LockTable::new(alloc);
    grant(&rt, &mut locks, &place, 1, Mode::Shared)?;
    grant(&rt, &mut locks, &place, 2, Mode::Shared)?;
    assert_holds(
        &rt,
        &locks,
        &place,
        &[(1, Some(Mode::Shared)), (2, Some(Mode::Shared))],
    );
    locks.release_all(1);
    grant(&rt, &mut locks, &place, 2, Mode::Exclusive)?;
    assert_holds(
        &rt,
        &locks,
        &place,
        &[(1, None), (2, Some(Mode::Exclusive))],
    );
    Ok(())
}

// Gives a transaction a lock that none conflicts with.
fn grant(
    rt: &impl Abort,
    locks: &mut LockTable,
    place: &Place,
    txn: u64,
    mode: Mode,
) -> Result<(), Fail> {
    assert!(rt;
        locks
            .least_holder(txn, &place.table, &place.key, mode)
            .is_none()
    );
    locks.grant(txn, &place.table, &place.key, mode)?;
    Ok(())
}
