// Scripts of several clients: how each works through its lines, and which locks they meet. What is printed was known beforehand;
// a report is given from its line `journal` on.
use crate::tests::{assert_cut, assert_unread, pieces_and_one, put, put_report, sink, step};
use std::alloc::Global;
use std::process::Abort;
use std::test::Fail;
use sx_sync::Phase;

// A client gives up and has no further line that ends its transaction: the lines behind are passed over.
const GIVES_UP: &[u8] = b"table t id:int* v:int
row t 1,10
retries 1
c1 begin
c1 update t 1,11
c2 begin
c2 insert t 2,20
c2 update t 1,12
c2 insert t 3,30
c2 read t 2
c1 commit
";

const GIVES_UP_REPORT: &[u8] = b"journal
1 c1 begin begun 1
2 c1 update t done 2 1,11
3 c2 begin begun 2
4 c2 insert t done 3 2,20
5 c2 update t held 1 1,12
6 c2 update t held 1 1,12
7 c2 undo undone 4
8 c2 undo aborted 5
9 c1 commit committed 6
log
1 0 put t 1,10
2 1 put t 1,11
3 2 put t 2,20
4 2 back 3 del t 2
5 2 abort
6 1 commit
tables
table t
row t 1,11
end none
";

// A request that is held is given up at once, and the client goes on behind its commit.
const NO_REPEATS: &[u8] = b"table t id:int*
retries 0
c1 begin
c1 insert t 1
c2 begin
c2 read t 1
c2 commit
c2 read t 1
c1 commit
";

const NO_REPEATS_REPORT: &[u8] = b"journal
1 c1 begin begun 1
2 c1 insert t done 1 1
3 c2 begin begun 2
4 c2 read t held 1 1
5 c2 undo aborted 2
6 c2 read t notxn 1
7 c1 commit committed 3
log
1 1 put t 1
2 2 abort
3 1 commit
tables
table t
row t 1
end none
";

// Lines `abort` and `commit` without a transaction, and a second `begin` in one.
const NO_ABORT: &[u8] = b"table t id:int*
c1 abort
c1 begin
c1 begin
c1 abort
c1 abort
c1 commit
";

const NO_ABORT_REPORT: &[u8] = b"journal
1 c1 undo notxn
2 c1 begin begun 1
3 c1 begin already
4 c1 undo aborted 1
5 c1 undo notxn
6 c1 commit notxn
log
1 1 abort
tables
table t
end none
";

// A transaction raises its own shared lock; where another reads as well, that one holds the key against it.
const RAISED: &[u8] = b"table t id:int* v:int
row t 1,10
retries 0
c1 begin
c1 read t 1
c1 update t 1,11
c1 commit
c1 begin
c1 read t 1
c2 begin
c2 read t 1
c1 update t 1,12
c1 commit
c2 update t 1,13
c2 commit
";

const RAISED_REPORT: &[u8] = b"journal
1 c1 begin begun 1
2 c1 read t row 1,10
3 c1 update t done 2 1,11
4 c1 commit committed 3
5 c1 begin begun 2
6 c1 read t row 1,11
7 c2 begin begun 3
8 c2 read t row 1,11
9 c1 update t held 3 1,12
10 c1 undo aborted 4
11 c2 update t done 5 1,13
12 c2 commit committed 6
log
1 0 put t 1,10
2 1 put t 1,11
3 1 commit
4 2 abort
5 3 put t 1,13
6 3 commit
tables
table t
row t 1,13
end none
";

// A deleted row is put in again under its key, and both are undone.
const UNDONE: &[u8] = b"table t id:int* v:int
row t 1,10
c1 begin
c1 delete t 1
c1 insert t 1,11
c1 read t 1
c1 abort
c1 begin
c1 read t 1
c1 commit
";

const UNDONE_REPORT: &[u8] = b"journal
1 c1 begin begun 1
2 c1 delete t done 2 1
3 c1 insert t done 3 1,11
4 c1 read t row 1,11
5 c1 undo undone 4
6 c1 undo undone 5
7 c1 undo aborted 6
8 c1 begin begun 2
9 c1 read t row 1,10
10 c1 commit committed 7
log
1 0 put t 1,10
2 1 del t 1
3 1 put t 1,11
4 1 back 3 del t 1
5 1 back 2 put t 1,10
6 1 abort
7 2 commit
tables
table t
row t 1,10
end none
";

// Two clients read a key that a third deletes: the first holder in the order of transactions is named, then the other.
const READERS: &[u8] = b"table t id:int*
row t 1
retries 1
c1 begin
c2 begin
c3 begin
c1 read t 1
c2 read t 1
c3 delete t 1
c3 abort
c1 commit
c3 begin
c3 delete t 1
c3 commit
c2 commit
";

const READERS_REPORT: &[u8] = b"journal
1 c1 begin begun 1
2 c2 begin begun 2
3 c3 begin begun 3
4 c1 read t row 1
5 c2 read t row 1
6 c3 delete t held 1 1
7 c3 delete t held 1 1
8 c3 undo aborted 2
9 c1 commit committed 3
10 c3 begin begun 4
11 c3 delete t held 2 1
12 c3 delete t held 2 1
13 c3 undo aborted 4
14 c2 commit committed 5
log
1 0 put t 1
2 3 abort
3 1 commit
4 4 abort
5 2 commit
tables
table t
row t 1
end none
";

// Of three readers the one of the least transaction is named, whoever read first; who lives in the end is rolled back in the order of the clients.
const LEAST: &[u8] = b"table t id:int*
row t 1
retries 0
c3 begin
c2 begin
c1 begin
c4 begin
c4 read t 1
c2 read t 1
c3 read t 1
c1 delete t 1
c4 commit
c1 commit
";

const LEAST_REPORT: &[u8] = b"journal
1 c3 begin begun 1
2 c2 begin begun 2
3 c1 begin begun 3
4 c4 begin begun 4
5 c4 read t row 1
6 c2 read t row 1
7 c3 read t row 1
8 c1 delete t held 1 1
9 c1 undo aborted 2
10 c4 commit committed 3
11 c2 undo aborted 4
12 c3 undo aborted 5
log
1 0 put t 1
2 3 abort
3 4 commit
4 2 abort
5 1 abort
tables
table t
row t 1
end none
";

// A client reads what another wrote and rolled back.
const ROLLED_BACK: &[u8] = b"table t id:int* v:int
row t 1,10
retries 0
c1 begin
c1 update t 1,11
c2 begin
c2 read t 1
c1 insert t 2,20
c1 abort
c2 commit
c2 begin
c2 read t 1
c2 read t 2
c2 commit
";

const ROLLED_BACK_REPORT: &[u8] = b"journal
1 c1 begin begun 1
2 c1 update t done 2 1,11
3 c2 begin begun 2
4 c2 read t held 1 1
5 c2 undo aborted 3
6 c1 insert t done 4 2,20
7 c1 undo undone 5
8 c1 undo undone 6
9 c1 undo aborted 7
10 c2 begin begun 3
11 c2 read t row 1,10
12 c2 read t absent 2
13 c2 commit committed 8
log
1 0 put t 1,10
2 1 put t 1,11
3 2 abort
4 1 put t 2,20
5 1 back 4 del t 2
6 1 back 2 put t 1,10
7 1 abort
8 3 commit
tables
table t
row t 1,10
end none
";

// Transactions are left open: they are rolled back in the order of the clients, before the transformation starts.
const LEFT_OPEN: &[u8] = b"table t id:int* v:int
row t 1,10
change part t if v<15 into lo hi
c3 begin
c3 insert t 3,30
c1 begin
c1 insert t 2,20
c1 update t 2,21
c2 begin
";

const LEFT_OPEN_REPORT: &[u8] = b"journal
1 c3 begin begun 1
2 c3 insert t done 2 3,30
3 c1 begin begun 2
4 c1 insert t done 3 2,20
5 c1 update t done 4 2,21
6 c2 begin begun 3
7 c1 undo undone 5
8 c1 undo undone 6
9 c1 undo aborted 7
10 c2 undo aborted 8
11 c3 undo undone 9
12 c3 undo aborted 10
13 p start started 11
14 p scan 64 0 end 1
15 p switch switched 12
log
1 0 put t 1,10
2 1 put t 3,30
3 2 put t 2,20
4 2 put t 2,21
5 2 back 4 put t 2,20
6 2 back 3 del t 2
7 2 abort
8 3 abort
9 1 back 2 del t 3
10 1 abort
11 p mark
12 p switch
tables
table t
row t 1,10
table lo
row lo 1,10
table hi
end switched
";

// Requests that are refused, and a commit behind the commit.
const NOT_THERE: &[u8] = b"table t id:int* v:text
row t 1,a
change part t if id<2 into lo hi
c1 begin
c1 insert t 1,b
c1 update t 2,c
c1 update t 1,NULL
c1 commit
c1 commit
";

const NOT_THERE_REPORT: &[u8] = b"journal
1 c1 begin begun 1
2 c1 insert t exists 1,b
3 c1 update t missing 2,c
4 c1 update t badrow null 2 1,NULL
5 c1 commit committed 2
6 c1 commit notxn
7 p start started 3
8 p scan 64 0 end 1
9 p switch switched 4
log
1 0 put t 1,a
2 1 commit
3 p mark
4 p switch
tables
table t
row t 1,a
table lo
row lo 1,a
table hi
end switched
";

// A client repeats a request that is held, gives up, and begins again.
const HELD: &[u8] = b"table t id:int* v:int
row t 1,10
change part t if v<15 into lo hi
c1 begin
c2 begin
c1 update t 1,11
c2 update t 1,12
c2 read t 1
c2 commit
c2 begin
c1 commit
c2 update t 1,20
c2 commit
";

const HELD_REPORT: &[u8] = b"journal
1 c1 begin begun 1
2 c2 begin begun 2
3 c1 update t done 2 1,11
4 c2 update t held 1 1,12
5 c2 update t held 1 1,12
6 c2 update t held 1 1,12
7 c2 update t held 1 1,12
8 c2 update t held 1 1,12
9 c2 update t held 1 1,12
10 c2 update t held 1 1,12
11 c2 update t held 1 1,12
12 c2 update t held 1 1,12
13 c2 undo aborted 3
14 c2 begin begun 3
15 c1 commit committed 4
16 c2 update t done 5 1,20
17 c2 commit committed 6
18 p start started 7
19 p scan 64 0 end 5
20 p switch switched 8
log
1 0 put t 1,10
2 1 put t 1,11
3 2 abort
4 1 commit
5 3 put t 1,20
6 3 commit
7 p mark
8 p switch
tables
table t
row t 1,20
table lo
table hi
row hi 1,20
end switched
";

// A script has this report behind its own lines, and its machine comes so far.
fn assert_reported(
    rt: &impl Abort,
    alloc: Global,
    script: &[u8],
    rest: &[u8],
    phase: Phase,
) -> Result<(), Fail> {
    let mut report = Vec::new(alloc);
    put_report(&mut report, script, rest)?;
    let mut sink = sink(alloc, 2000, 2000, &[])?;
    let ending = step(alloc, script, &mut sink)?;
    assert_eq!(rt; ending, (0, Some(phase)));
    assert_eq!(rt; sink.bytes(), report.as_slice());
    Ok(())
}

#[test]
fn a_client_gives_up_and_passes_lines_over(rt: HostRuntime) -> Result<(), Fail> {
    assert_reported(&rt, rt.alloc(), GIVES_UP, GIVES_UP_REPORT, Phase::Idle)
}

#[test]
fn a_held_request_is_given_up_at_once(rt: HostRuntime) -> Result<(), Fail> {
    assert_reported(&rt, rt.alloc(), NO_REPEATS, NO_REPEATS_REPORT, Phase::Idle)
}

#[test]
fn lines_without_a_transaction_are_answered(rt: HostRuntime) -> Result<(), Fail> {
    assert_reported(&rt, rt.alloc(), NO_ABORT, NO_ABORT_REPORT, Phase::Idle)
}

#[test]
fn a_shared_lock_is_raised(rt: HostRuntime) -> Result<(), Fail> {
    assert_reported(&rt, rt.alloc(), RAISED, RAISED_REPORT, Phase::Idle)
}

#[test]
fn a_delete_and_an_insert_of_one_key_are_undone(rt: HostRuntime) -> Result<(), Fail> {
    assert_reported(&rt, rt.alloc(), UNDONE, UNDONE_REPORT, Phase::Idle)
}

#[test]
fn readers_hold_a_key_one_after_another(rt: HostRuntime) -> Result<(), Fail> {
    assert_reported(&rt, rt.alloc(), READERS, READERS_REPORT, Phase::Idle)
}

#[test]
fn the_least_of_three_readers_is_named(rt: HostRuntime) -> Result<(), Fail> {
    assert_reported(&rt, rt.alloc(), LEAST, LEAST_REPORT, Phase::Idle)
}

#[test]
fn what_is_rolled_back_is_not_read(rt: HostRuntime) -> Result<(), Fail> {
    assert_reported(
        &rt,
        rt.alloc(),
        ROLLED_BACK,
        ROLLED_BACK_REPORT,
        Phase::Idle,
    )
}

#[test]
fn open_transactions_are_rolled_back_in_the_end(rt: HostRuntime) -> Result<(), Fail> {
    assert_reported(&rt, rt.alloc(), LEFT_OPEN, LEFT_OPEN_REPORT, Phase::Done)
}

#[test]
fn refused_requests_leave_nothing(rt: HostRuntime) -> Result<(), Fail> {
    assert_reported(&rt, rt.alloc(), NOT_THERE, NOT_THERE_REPORT, Phase::Done)
}

#[test]
fn a_held_request_is_repeated(rt: HostRuntime) -> Result<(), Fail> {
    assert_reported(&rt, rt.alloc(), HELD, HELD_REPORT, Phase::Done)
}

#[test]
fn no_run_begins_where_a_read_fails(rt: HostRuntime) -> Result<(), Fail> {
    for number in 1..=pieces_and_one(LEFT_OPEN, 7) {
        assert_unread(&rt, rt.alloc(), LEFT_OPEN, 7, number)?;
    }
    Ok(())
}

#[test]
fn a_part_is_written_where_a_write_fails(rt: HostRuntime) -> Result<(), Fail> {
    let mut report = Vec::new(rt.alloc());
    put_report(&mut report, LEFT_OPEN, LEFT_OPEN_REPORT)?;
    for number in 1..pieces_and_one(report.as_slice(), 5) {
        assert_cut(&rt, rt.alloc(), LEFT_OPEN, report.as_slice(), number)?;
    }
    Ok(())
}

// Puts the lines of a client that begins, asks for a key that another holds, and gives up, so many times.
pub(crate) fn put_round_lines(out: &mut Vec<u8>, count: i64) -> Result<(), Fail> {
    for _round in 0..count {
        out.extend_from_slice(b"c2 begin\nc2 update t 1,3\nc2 commit\n")?;
    }
    Ok(())
}

// Puts the nine entries of a request that is held, the first of them with this number.
fn put_held(alloc: Global, out: &mut Vec<u8>, first: i64) -> Result<(), Fail> {
    for repeat in 0..9_i64 {
        put(
            alloc,
            out,
            "",
            first.saturating_add(repeat),
            " c2 update t held 1 1,3\n",
        )?;
    }
    Ok(())
}

// Puts the entries of one of these rounds: the first has this number, and its transaction and its record those.
fn put_round(alloc: Global, out: &mut Vec<u8>, first: i64, txn: i64, lsn: i64) -> Result<(), Fail> {
    put(alloc, out, "", first, " c2 begin begun ")?;
    put(alloc, out, "", txn, "\n")?;
    put_held(alloc, out, first.saturating_add(1))?;
    put(
        alloc,
        out,
        "",
        first.saturating_add(10),
        " c2 undo aborted ",
    )?;
    put(alloc, out, "", lsn, "\n")
}

// Puts the entries of so many rounds, behind so many entries and records.
pub(crate) fn put_round_entries(
    alloc: Global,
    out: &mut Vec<u8>,
    count: i64,
    entries: i64,
    records: i64,
) -> Result<(), Fail> {
    for round in 1..=count {
        put_round(
            alloc,
            out,
            round
                .saturating_mul(11)
                .saturating_add(entries.saturating_sub(10)),
            round.saturating_add(1),
            round.saturating_add(records),
        )?;
    }
    Ok(())
}

// Puts their records, behind so many.
pub(crate) fn put_round_records(
    alloc: Global,
    out: &mut Vec<u8>,
    count: i64,
    records: i64,
) -> Result<(), Fail> {
    for round in 1..=count {
        put(alloc, out, "", round.saturating_add(records), " ")?;
        put(alloc, out, "", round.saturating_add(1), " abort\n")?;
    }
    Ok(())
}

// A client holds a key, and another asks for it 5,000 times.
fn put_many_rounds(out: &mut Vec<u8>) -> Result<(), Fail> {
    out.extend_from_slice(b"table t id:int* v:int\nrow t 1,1\nc1 begin\nc1 update t 1,2\n")?;
    put_round_lines(out, 5000)
}

// How many rounds fit into the journal.
pub(crate) fn rounds() -> i64 {
    4545
}

// Puts the report behind the script's lines, up to the round that no longer fits.
fn put_full_rest(alloc: Global, out: &mut Vec<u8>) -> Result<(), Fail> {
    out.extend_from_slice(b"journal\n1 c1 begin begun 1\n2 c1 update t done 2 1,2\n")?;
    put_round_entries(alloc, out, rounds(), 2, 2)?;
    out.extend_from_slice(b"49998 c2 begin begun 4547\nlog\n1 0 put t 1,1\n2 1 put t 1,2\n")?;
    put_round_records(alloc, out, rounds(), 2)?;
    out.extend_from_slice(b"tables\ntable t\nrow t 1,2\nend full\n")?;
    Ok(())
}

// A script has this report behind its own lines, up to a full journal, and its machine comes so far.
pub(crate) fn assert_full(
    rt: &impl Abort,
    alloc: Global,
    script: &[u8],
    rest: &[u8],
    phase: Phase,
) -> Result<(), Fail> {
    let mut report = Vec::new(alloc);
    put_report(&mut report, script, rest)?;
    let mut sink = sink(alloc, 2_000_000, 4096, &[])?;
    let ending = step(alloc, script, &mut sink)?;
    assert_eq!(rt; ending, (7, Some(phase)));
    assert!(rt; sink.bytes() == report.as_slice());
    Ok(())
}

#[test]
fn a_full_journal_stops_the_run(rt: HostRuntime) -> Result<(), Fail> {
    let alloc = rt.alloc();
    let mut script = Vec::new(alloc);
    put_many_rounds(&mut script)?;
    let mut rest = Vec::new(alloc);
    put_full_rest(alloc, &mut rest)?;
    assert_full(&rt, alloc, script.as_slice(), rest.as_slice(), Phase::Idle)
}
