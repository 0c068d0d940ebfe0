// Requests and turns of the propagator with answers known beforehand.
ghost use Rattle.std.specs.Prelude.{◌≡◌, ◌<◌, ◌≤◌, None, All, IfOk, IsTrue, length};
ghost use Rattle.sx_values.specs.SchemaFaults.{IsDeclarable};
ghost use Rattle.sx_values.specs.declared.schema.Column.{Column as TheColumn};
ghost use Rattle.sx_ops.specs.Checks.{IsShaped};
ghost use Rattle.sx_sync.specs.declared.Phase.TheVariants.{Idle};
ghost use Rattle.sx_model.specs.Leaves.{phase};

use crate::{Cause, Core, CoreFault, Load, Loads, MakeFault, ScanOut, SwitchOut};
use std::alloc::Global;
use std::marker::Brand;
use std::process::Abort;
use std::sync::ledger::{Blank, Ledger};
use std::test::Fail;
use sx_image::Image;
use sx_journal::{Reply, Request};
use sx_lists::Copied;
use sx_ops::{Cmp, Spec, Test, Tests};
use sx_steps::Steps;
use sx_sync::{Phase, Strategy};
use sx_values::{BadRow, Catalog, Column, Columns, Key, Kind, Name, Numbers, Row, Schema, Value};

#[test]
fn answers_a_client(rt: HostRuntime) -> Result<(), Fail> {
    let alloc = rt.alloc();
    let mut core = machine_of(&rt, alloc)?;
    assert_answered(&rt, alloc, &mut core)
}

#[test]
fn ends_a_transaction_by_undo(rt: HostRuntime) -> Result<(), Fail> {
    let alloc = rt.alloc();
    let mut core = machine_of(&rt, alloc)?;
    assert_rolled_back(&rt, alloc, &mut core)
}

#[test]
fn names_the_least_holder(rt: HostRuntime) -> Result<(), Fail> {
    let alloc = rt.alloc();
    let mut core = machine_with_row(&rt, alloc)?;
    assert_least(&rt, alloc, &mut core)
}

#[test]
fn raises_a_lock_of_its_own(rt: HostRuntime) -> Result<(), Fail> {
    let alloc = rt.alloc();
    let mut core = machine_with_row(&rt, alloc)?;
    assert_raised(&rt, alloc, &mut core)
}

#[test]
fn undoes_a_delete_and_an_insert_of_one_key(rt: HostRuntime) -> Result<(), Fail> {
    let alloc = rt.alloc();
    let mut core = machine_with_row(&rt, alloc)?;
    assert_both_undone(&rt, alloc, &mut core)
}

#[test]
fn shows_what_was_there_before_a_rollback(rt: HostRuntime) -> Result<(), Fail> {
    let alloc = rt.alloc();
    let mut core = machine_with_row(&rt, alloc)?;
    assert_not_seen(&rt, alloc, &mut core)
}

#[test]
fn a_refused_insert_takes_no_lock(rt: HostRuntime) -> Result<(), Fail> {
    let alloc = rt.alloc();
    let mut core = machine_with_row(&rt, alloc)?;
    assert_free(&rt, alloc, &mut core)
}

#[test]
fn refuses_a_load_of_no_table(rt: HostRuntime) -> Result<(), Fail> {
    let alloc = rt.alloc();
    let mut loads = Loads::new(alloc);
    loads.push(load_of(alloc, b"t", 1)?)?;
    loads.push(load_of(alloc, b"u", 1)?)?;
    let fault = fault_of(&rt, alloc, loads)?;
    assert!(rt; matches!(fault, Some(MakeFault::NoTable { place: 2 })));
    Ok(())
}

#[test]
fn refuses_a_load_that_is_not_admitted(rt: HostRuntime) -> Result<(), Fail> {
    let alloc = rt.alloc();
    let mut loads = Loads::new(alloc);
    let table = Name::new(alloc, b"t")?;
    loads.push(Load {
        table,
        row: Row::new(alloc),
    })?;
    let fault = fault_of(&rt, alloc, loads)?;
    assert!(rt;
        matches!(
            fault,
            Some(MakeFault::BadRow {
                place: 1,
                bad: BadRow::Width
            })
        )
    );
    Ok(())
}

#[test]
fn names_the_first_of_two_faulty_loads(rt: HostRuntime) -> Result<(), Fail> {
    let alloc = rt.alloc();
    let mut loads = Loads::new(alloc);
    loads.push(load_of(alloc, b"t", 1)?)?;
    loads.push(load_of(alloc, b"t", 1)?)?;
    loads.push(load_of(alloc, b"u", 1)?)?;
    let fault = fault_of(&rt, alloc, loads)?;
    assert!(rt; matches!(fault, Some(MakeFault::RepeatedKey { place: 2 })));
    Ok(())
}

#[test]
fn names_a_crowded_table_before_a_faulty_load(rt: HostRuntime) -> Result<(), Fail> {
    let alloc = rt.alloc();
    let mut loads = Loads::new(alloc);
    put_loads(alloc, &mut loads, one_too_many())?;
    let fault = fault_of(&rt, alloc, loads)?;
    assert!(rt; matches!(fault, Some(MakeFault::TooManyRows { .. })));
    Ok(())
}

#[test]
fn scans_a_table_while_it_changes(rt: HostRuntime) -> Result<(), Fail> {
    let alloc = rt.alloc();
    let mut core = machine_of(&rt, alloc)?;
    assert_scanned(&rt, alloc, &mut core)
}

#[test]
fn hands_out_the_log_behind_the_mark(rt: HostRuntime) -> Result<(), Fail> {
    let alloc = rt.alloc();
    let mut core = machine_of(&rt, alloc)?;
    assert_handed_out(&rt, alloc, &mut core)
}

#[test]
fn refuses_turns_without_a_transformation(rt: HostRuntime) -> Result<(), Fail> {
    let alloc = rt.alloc();
    let mut core = machine_of(&rt, alloc)?;
    assert_nothing_runs(&rt, &mut core)
}

#[test]
fn a_new_table_is_hidden_until_the_switch(rt: HostRuntime) -> Result<(), Fail> {
    let alloc = rt.alloc();
    let mut core = machine_of(&rt, alloc)?;
    assert_hidden(&rt, alloc, &mut core)
}

#[test]
fn starts_one_transformation_that_fits(rt: HostRuntime) -> Result<(), Fail> {
    let alloc = rt.alloc();
    let mut core = machine_of(&rt, alloc)?;
    assert_one_start(&rt, alloc, &mut core)
}

#[test]
fn faults_are_copied(rt: HostRuntime) -> Result<(), Fail> {
    let alloc = rt.alloc();
    let full = CoreFault::Full.copy(alloc)?;
    assert_eq!(rt; full, CoreFault::Full);
    let repeated = MakeFault::RepeatedKey { place: 3 }.copy(alloc)?;
    assert!(rt; matches!(repeated, MakeFault::RepeatedKey { place: 3 }));
    Ok(())
}

// A client asks outside a transaction and in one.
fn assert_answered(rt: &impl Abort, alloc: Global, core: &mut Core) -> Result<(), Fail> {
    assert_outside(rt, alloc, core)?;
    assert_written(rt, alloc, core)?;
    assert_missing(rt, alloc, core)?;
    assert_bad(rt, alloc, core)
}

// Already, Done, Undone, Ending, Aborted and NoTxn in a row.
fn assert_rolled_back(rt: &impl Abort, alloc: Global, core: &mut Core) -> Result<(), Fail> {
    expect(rt, core, 1, Request::Begin, (Word::Begun, 1))?;
    expect(rt, core, 1, Request::Begin, (Word::Already, 0))?;
    expect(rt, core, 1, insert_of(alloc, b"t", 9, 9)?, (Word::Done, 1))?;
    expect(rt, core, 1, Request::Undo, (Word::Undone, 2))?;
    expect(rt, core, 1, read_of(alloc, 9)?, (Word::Ending, 0))?;
    expect(rt, core, 1, Request::Undo, (Word::Aborted, 3))?;
    expect(rt, core, 1, Request::Undo, (Word::NoTxn, 0))
}

// Of two readers the least hinders a writer, and then the other; two readers don't hinder each other.
fn assert_least(rt: &impl Abort, alloc: Global, core: &mut Core) -> Result<(), Fail> {
    begin(rt, core, 3, 2)?;
    begin(rt, core, 2, 3)?;
    begin(rt, core, 1, 4)?;
    expect(rt, core, 2, read_of(alloc, 1)?, (Word::Row, 10))?;
    expect(rt, core, 3, read_of(alloc, 1)?, (Word::Row, 10))?;
    expect(rt, core, 1, update_of(alloc, 1, 11)?, (Word::Held, 2))?;
    expect(rt, core, 3, Request::Commit, (Word::Committed, 3))?;
    expect(rt, core, 1, update_of(alloc, 1, 11)?, (Word::Held, 3))
}

// A reader raises its lock where no other reads.
fn assert_raised(rt: &impl Abort, alloc: Global, core: &mut Core) -> Result<(), Fail> {
    begin(rt, core, 1, 2)?;
    begin(rt, core, 2, 3)?;
    expect(rt, core, 1, read_of(alloc, 1)?, (Word::Row, 10))?;
    expect(rt, core, 2, read_of(alloc, 1)?, (Word::Row, 10))?;
    expect(rt, core, 1, update_of(alloc, 1, 11)?, (Word::Held, 3))?;
    expect(rt, core, 2, Request::Commit, (Word::Committed, 3))?;
    expect(rt, core, 1, update_of(alloc, 1, 11)?, (Word::Done, 4))
}

// A row is taken out and another one put in its place, and both are undone.
fn assert_both_undone(rt: &impl Abort, alloc: Global, core: &mut Core) -> Result<(), Fail> {
    begin(rt, core, 1, 2)?;
    expect(rt, core, 1, delete_of(alloc, 1)?, (Word::Done, 3))?;
    expect(rt, core, 1, insert_of(alloc, b"t", 1, 30)?, (Word::Done, 4))?;
    expect(rt, core, 1, Request::Undo, (Word::Undone, 5))?;
    expect(rt, core, 1, Request::Undo, (Word::Undone, 6))?;
    expect(rt, core, 1, Request::Undo, (Word::Aborted, 7))?;
    begin(rt, core, 1, 3)?;
    expect(rt, core, 1, read_of(alloc, 1)?, (Word::Row, 10))
}

// A client reads the row of another's write that was rolled back.
fn assert_not_seen(rt: &impl Abort, alloc: Global, core: &mut Core) -> Result<(), Fail> {
    begin(rt, core, 1, 2)?;
    begin(rt, core, 2, 3)?;
    expect(rt, core, 1, update_of(alloc, 1, 30)?, (Word::Done, 3))?;
    expect(rt, core, 2, read_of(alloc, 1)?, (Word::Held, 2))?;
    expect(rt, core, 1, Request::Undo, (Word::Undone, 4))?;
    expect(rt, core, 1, Request::Undo, (Word::Aborted, 5))?;
    expect(rt, core, 2, read_of(alloc, 1)?, (Word::Row, 10))
}

// A key that was refused to one client is another's.
fn assert_free(rt: &impl Abort, alloc: Global, core: &mut Core) -> Result<(), Fail> {
    begin(rt, core, 1, 2)?;
    begin(rt, core, 2, 3)?;
    expect(
        rt,
        core,
        1,
        insert_of(alloc, b"t", 1, 30)?,
        (Word::Exists, 0),
    )?;
    expect(rt, core, 1, delete_of(alloc, 2)?, (Word::Missing, 0))?;
    expect(rt, core, 2, update_of(alloc, 1, 20)?, (Word::Done, 3))?;
    expect(rt, core, 2, read_of(alloc, 2)?, (Word::Absent, 0))
}

// Rows are written, and seen by turns of two rows; one is put behind the cursor, and one ahead of it.
fn assert_scanned(rt: &impl Abort, alloc: Global, core: &mut Core) -> Result<(), Fail> {
    write_rows(rt, alloc, core)?;
    assert_started(rt, core, high_and_low(alloc)?, 5)?;
    assert_scan(rt, core, &[1, 2], false)?;
    begin(rt, core, 2, 2)?;
    expect(rt, core, 2, insert_of(alloc, b"t", 0, 9)?, (Word::Done, 6))?;
    expect(rt, core, 2, update_of(alloc, 3, 8)?, (Word::Done, 7))?;
    assert_scan(rt, core, &[7], true)?;
    assert!(rt; matches!(scan(core)?.reply, Reply::ScanOver));
    Ok(())
}

// The records behind the mark are handed out, two by two, once the scan has ended.
fn assert_handed_out(rt: &impl Abort, alloc: Global, core: &mut Core) -> Result<(), Fail> {
    assert_started(rt, core, high_and_low(alloc)?, 1)?;
    assert!(rt; matches!(core.fetch(2)?.reply, Reply::NotScanned));
    assert_scan(rt, core, &[], true)?;
    begin(rt, core, 1, 1)?;
    expect(rt, core, 1, insert_of(alloc, b"t", 1, 5)?, (Word::Done, 2))?;
    expect(rt, core, 1, insert_of(alloc, b"t", 2, 5)?, (Word::Done, 3))?;
    expect(rt, core, 1, Request::Commit, (Word::Committed, 4))?;
    assert_fetch(rt, core, 1, 3)?;
    assert_fetch(rt, core, 3, 4)?;
    assert_fetch(rt, core, 4, 4)
}

// A fetch of two hands out the records behind one place up to another.
fn assert_fetch(rt: &impl Abort, core: &mut Core, first: u64, last: u64) -> Result<(), Fail> {
    let out = core.fetch(2)?;
    assert!(rt; matches!(out.reply, Reply::Fetched { from, to } if from == first && to == last));
    assert_eq!(rt; out.recs.len(), last.saturating_sub(first));
    Ok(())
}

// Without a transformation there is nothing to scan, to fetch or to switch.
fn assert_nothing_runs(rt: &impl Abort, core: &mut Core) -> Result<(), Fail> {
    assert!(rt; matches!(scan(core)?.reply, Reply::NoTransform));
    assert!(rt; matches!(core.fetch(256)?.reply, Reply::NoTransform));
    assert!(rt; is_idle(core));
    let out = attempt(core);
    assert!(rt;
        matches!(
            out,
            SwitchOut::Back {
                cause: Cause::NoTransform,
                ..
            }
        )
    );
    assert!(rt; core.new_tables().is_empty());
    Ok(())
}

// An attempt to switch where nothing was started.
fn attempt(core: &mut Core) -> SwitchOut
    requires idle { phase core.old.past ≡ Idle }
{
    switched::<Brand>(core, Blank::new(1))
}

// The same, on a counter that nobody reads.
fn switched<L: Ledger>(core: &mut Core, blank: Blank) -> SwitchOut
    requires idle { phase core.old.past ≡ Idle }
    requires name { blank.name ≡ L.name }
    requires parts { blank.parts ≡ L.parts }
    requires some { 0 < blank.parts }
{
    let mut steps = Steps::<L>::new(blank);
    core.switch(Image::dead(), &mut steps)
}

// The name of a new table is known from the start on, and closed.
fn assert_hidden(rt: &impl Abort, alloc: Global, core: &mut Core) -> Result<(), Fail> {
    begin(rt, core, 1, 1)?;
    let early = insert_of(alloc, b"low", 1, 5)?;
    expect(rt, core, 1, early, (Word::NoTable, 0))?;
    assert_started(rt, core, high_and_low(alloc)?, 1)?;
    let late = insert_of(alloc, b"low", 1, 5)?;
    expect(rt, core, 1, late, (Word::Hidden, 0))
}

// A split of a table that there isn't doesn't fit, and a second start comes too late.
fn assert_one_start(rt: &impl Abort, alloc: Global, core: &mut Core) -> Result<(), Fail> {
    let unfit = core.start(split_of(alloc, b"u")?, Strategy::Blocking)?;
    assert!(rt; matches!(unfit, Reply::BadSpec { .. }));
    assert_started(rt, core, high_and_low(alloc)?, 1)?;
    let second = core.start(high_and_low(alloc)?, Strategy::Blocking)?;
    assert!(rt; matches!(second, Reply::Running));
    Ok(())
}

// A client without a transaction asks, and begins one.
fn assert_outside(rt: &impl Abort, alloc: Global, core: &mut Core) -> Result<(), Fail> {
    expect(
        rt,
        core,
        8,
        insert_of(alloc, b"t", 1, 10)?,
        (Word::NoTxn, 0),
    )?;
    assert!(rt; !core.lives(8));
    begin(rt, core, 8, 1)?;
    assert!(rt; core.lives(8));
    Ok(())
}

// It inserts, updates and deletes.
fn assert_written(rt: &impl Abort, alloc: Global, core: &mut Core) -> Result<(), Fail> {
    expect(rt, core, 8, insert_of(alloc, b"t", 1, 10)?, (Word::Done, 1))?;
    expect(rt, core, 8, update_of(alloc, 1, 12)?, (Word::Done, 2))?;
    expect(rt, core, 8, delete_of(alloc, 1)?, (Word::Done, 3))
}

// It asks for a row that isn't there.
fn assert_missing(rt: &impl Abort, alloc: Global, core: &mut Core) -> Result<(), Fail> {
    expect(rt, core, 8, update_of(alloc, 1, 13)?, (Word::Missing, 0))?;
    expect(rt, core, 8, delete_of(alloc, 1)?, (Word::Missing, 0))?;
    expect(rt, core, 8, read_of(alloc, 1)?, (Word::Absent, 0))
}

// It asks for a row of no table, and for a row that the table doesn't admit.
fn assert_bad(rt: &impl Abort, alloc: Global, core: &mut Core) -> Result<(), Fail> {
    expect(
        rt,
        core,
        8,
        insert_of(alloc, b"u", 1, 10)?,
        (Word::NoTable, 0),
    )?;
    let table = Name::new(alloc, b"t")?;
    let row = Row::new(alloc);
    expect(
        rt,
        core,
        8,
        Request::Insert { table, row },
        (Word::BadRow, 0),
    )
}

/// A reply in a word.
#[derive(Clone, Copy, Debug, PartialEq, Eq)]
enum Word {
    Begun,
    Row,
    Absent,
    Done,
    Committed,
    Undone,
    Aborted,
    NoTxn,
    Already,
    Ending,
    NoTable,
    Hidden,
    BadRow,
    Held,
    Exists,
    Missing,
    Other,
}

// A reply in a word, and the number that it gives, or 0; of a row, its second value.
fn heard(reply: &Reply) -> (Word, u64) {
    match reply {
        Reply::Begun { txn } => (Word::Begun, *txn),
        Reply::Row { row } => (Word::Row, second_of(row)),
        Reply::Absent => (Word::Absent, 0),
        Reply::Done { lsn } => (Word::Done, *lsn),
        Reply::Committed { lsn } => (Word::Committed, *lsn),
        Reply::Undone { lsn } => (Word::Undone, *lsn),
        Reply::Aborted { lsn } => (Word::Aborted, *lsn),
        Reply::NoTxn => (Word::NoTxn, 0),
        Reply::Already => (Word::Already, 0),
        Reply::Ending => (Word::Ending, 0),
        Reply::NoTable => (Word::NoTable, 0),
        Reply::Hidden => (Word::Hidden, 0),
        Reply::BadRow { .. } => (Word::BadRow, 0),
        Reply::Held { by } => (Word::Held, *by),
        Reply::Exists => (Word::Exists, 0),
        Reply::Missing => (Word::Missing, 0),
        _ => (Word::Other, 0),
    }
}

// A transaction puts three rows into the table t.
fn write_rows(rt: &impl Abort, alloc: Global, core: &mut Core) -> Result<(), Fail> {
    begin(rt, core, 1, 1)?;
    expect(rt, core, 1, insert_of(alloc, b"t", 1, 5)?, (Word::Done, 1))?;
    expect(rt, core, 1, insert_of(alloc, b"t", 2, 20)?, (Word::Done, 2))?;
    expect(rt, core, 1, insert_of(alloc, b"t", 3, 7)?, (Word::Done, 3))?;
    expect(rt, core, 1, Request::Commit, (Word::Committed, 4))
}

// A client asks.
fn ask(core: &mut Core, actor: u8, request: Request) -> Result<(Word, u64), Fail>
    requires from_one { 1 ≤ actor }
    requires to_eight { actor ≤ 8 }
{
    counted::<Brand>(core, actor, request, Blank::new(1))
}

// The same, on a counter that nobody reads.
fn counted<L: Ledger>(
    core: &mut Core,
    actor: u8,
    request: Request,
    blank: Blank,
) -> Result<(Word, u64), Fail>
    requires from_one { 1 ≤ actor }
    requires to_eight { actor ≤ 8 }
    requires name { blank.name ≡ L.name }
    requires parts { blank.parts ≡ L.parts }
    requires some { 0 < blank.parts }
{
    let mut steps = Steps::<L>::new(blank);
    let reply = core.client(actor, request, &mut steps)?;
    Ok(heard(&reply))
}

// A client asks and hears this.
fn expect(
    rt: &impl Abort,
    core: &mut Core,
    actor: u8,
    request: Request,
    wanted: (Word, u64),
) -> Result<(), Fail>
    requires from_one { 1 ≤ actor }
    requires to_eight { actor ≤ 8 }
{
    let heard = ask(core, actor, request)?;
    assert_eq!(rt; heard, wanted);
    Ok(())
}

// A client begins a transaction of this number.
fn begin(rt: &impl Abort, core: &mut Core, actor: u8, txn: u64) -> Result<(), Fail>
    requires from_one { 1 ≤ actor }
    requires to_eight { actor ≤ 8 }
{
    expect(rt, core, actor, Request::Begin, (Word::Begun, txn))
}

// The second value of a row, if it's a number from 0, or 0.
fn second_of(row: &Row) -> u64 {
    match row.as_slice() {
        [_, Value::Int(v)] if *v >= 0 => *v as u64,
        _ => 0,
    }
}

// A transformation starts, and its mark is this.
fn assert_started(rt: &impl Abort, core: &mut Core, spec: Spec, mark: u64) -> Result<(), Fail>
    requires shaped { IsShaped spec }
{
    let reply = core.start(spec, Strategy::Blocking)?;
    assert!(rt; matches!(reply, Reply::Started { lsn } if lsn == mark));
    Ok(())
}

// A scan turn of two rows sees these.
fn assert_scan(rt: &impl Abort, core: &mut Core, wanted: &[u64], over: bool) -> Result<(), Fail> {
    let out = scan(core)?;
    assert_eq!(rt; out.seen.len(), wanted.len() as u64);
    match &out.reply {
        Reply::Scanned { side, lsns, last } => {
            assert_eq!(rt; *side, 0);
            assert_eq!(rt; lsns.as_slice(), wanted);
            assert_eq!(rt; *last, over);
            Ok(())
        }
        _ => Err(Fail::new("no scan")),
    }
}

// A scan turn of two rows.
fn scan(core: &mut Core) -> Result<ScanOut, Fail> {
    counted_scan::<Brand>(core, Blank::new(1))
}

// The same, on a counter that nobody reads.
fn counted_scan<L: Ledger>(core: &mut Core, blank: Blank) -> Result<ScanOut, Fail>
    requires name { blank.name ≡ L.name }
    requires parts { blank.parts ≡ L.parts }
    requires some { 0 < blank.parts }
{
    let mut steps = Steps::<L>::new(blank);
    Ok(core.scan(2, &mut steps)?)
}

fn is_idle(core: &Core) -> bool
    ensures { IsTrue result → phase core.now.past ≡ Idle }
{
    matches!(core.phase(), Phase::Idle)
}

// The machine with the table t.
fn machine_of(rt: &impl Abort, alloc: Global) -> Result<Core, Fail> {
    Ok(Core::make(alloc, catalog(rt, alloc)?, Loads::new(alloc))?)
}

// The machine with the table t, in which transaction 1 has put the row 1, 10.
fn machine_with_row(rt: &impl Abort, alloc: Global) -> Result<Core, Fail> {
    let mut core = machine_of(rt, alloc)?;
    put_row(rt, alloc, &mut core)?;
    Ok(core)
}

fn put_row(rt: &impl Abort, alloc: Global, core: &mut Core) -> Result<(), Fail> {
    begin(rt, core, 1, 1)?;
    expect(rt, core, 1, insert_of(alloc, b"t", 1, 10)?, (Word::Done, 1))?;
    expect(rt, core, 1, Request::Commit, (Word::Committed, 2))
}

// Why no machine is made of the table t and these rows, if none is.
fn fault_of(rt: &impl Abort, alloc: Global, loads: Loads) -> Result<Option<MakeFault>, Fail> {
    Ok(Core::make(alloc, catalog(rt, alloc)?, loads).err())
}

// More rows than may be loaded into a table.
fn one_too_many() -> u64 {
    100_001
}

// So many rows of the table t.
fn put_loads(alloc: Global, loads: &mut Loads, count: u64) -> Result<(), Fail> {
    for _load in 0..count {
        loads.push(load_of(alloc, b"t", 1)?)?;
    }
    Ok(())
}

// The row of this number in a table.
fn load_of(alloc: Global, table: &[u8], id: i64) -> Result<Load, Fail> {
    Ok(Load {
        table: Name::new(alloc, table)?,
        row: row_of(alloc, id, 0)?,
    })
}

// The split of t into the rows whose v is at least 10, and the others.
fn high_and_low(alloc: Global) -> Result<Spec, Fail>
    ensures { IfOk result IsShaped }
{
    split_of(alloc, b"t")
}

// The same of another table.
fn split_of(alloc: Global, table: &[u8]) -> Result<Spec, Fail>
    ensures { IfOk result IsShaped }
{
    let mut tests = Tests::new(alloc);
    tests.push(Test {
        column: Name::new(alloc, b"v")?,
        cmp: Cmp::Ge,
        value: Value::Int(10),
    })?;
    Ok(Spec::Part {
        table: Name::new(alloc, table)?,
        tests,
        yes: Name::new(alloc, b"high")?,
        no: Name::new(alloc, b"low")?,
    })
}

// The table t with the key id and a number v.
fn catalog(rt: &impl Abort, alloc: Global) -> Result<Catalog, Fail> {
    let mut columns = Columns::new(alloc);
    for name in ["id", "v"] {
        columns.push(Column {
            name: Name::new(alloc, name.as_bytes())?,
            kind: Kind::Int,
            nullable: false,
        })?;
    }
    let schema = keyed(rt, alloc, columns)?;
    assert!(rt; are_short(schema.columns()));
    let mut catalog = Catalog::new(alloc);
    catalog.declare(Name::new(alloc, b"t")?, schema)?;
    Ok(catalog)
}

// The schema whose key is its first column.
fn keyed(rt: &impl Abort, alloc: Global, columns: Columns) -> Result<Schema, Fail>
    ensures { IfOk result IsDeclarable }
{
    assert!(rt; columns.len() > 0);
    let mut key = Numbers::new(alloc);
    key.push(0)?;
    Ok(Schema::new(alloc, columns, key)?)
}

// Whether two bytes can be added to each name.
fn are_short(columns: &[Column]) -> bool
    ensures { IsTrue result → All (λ (c : TheColumn). length c.name ≤ 30) columns.now }
{
    columns
        .iter()
        .all(|column| column.name.as_bytes().len() <= 30)
}

fn insert_of(alloc: Global, table: &[u8], id: i64, v: i64) -> Result<Request, Fail> {
    Ok(Request::Insert {
        table: Name::new(alloc, table)?,
        row: row_of(alloc, id, v)?,
    })
}

fn read_of(alloc: Global, id: i64) -> Result<Request, Fail> {
    Ok(Request::Read {
        table: Name::new(alloc, b"t")?,
        key: key_of(alloc, id)?,
    })
}

fn update_of(alloc: Global, id: i64, v: i64) -> Result<Request, Fail> {
    Ok(Request::Update {
        table: Name::new(alloc, b"t")?,
        row: row_of(alloc, id, v)?,
    })
}

fn delete_of(alloc: Global, id: i64) -> Result<Request, Fail> {
    Ok(Request::Delete {
        table: Name::new(alloc, b"t")?,
        key: key_of(alloc, id)?,
    })
}

fn row_of(alloc: Global, id: i64, v: i64) -> Result<Row, Fail> {
    let mut row = Row::new(alloc);
    row.push(Value::Int(id))?;
    row.push(Value::Int(v))?;
    Ok(row)
}

fn key_of(alloc: Global, id: i64) -> Result<Key, Fail> {
    let mut key = Key::new(alloc);
    key.push(Value::Int(id))?;
    Ok(key)
}
