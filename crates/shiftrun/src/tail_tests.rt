// Scripts with many records behind the scan: how many the switch reads itself, and a journal that is full before it.
use crate::client_tests::{
    assert_full, put_round_entries, put_round_lines, put_round_records, rounds,
};
use crate::tests::{assert_switched, put};
use std::alloc::Global;
use std::process::Abort;
use std::test::Fail;
use sx_sync::Phase;

// The lines before a row is updated time and again.
const FRONT: &[u8] = b"table t id:int* v:int
row t 1,1
change part t if v<10 into lo hi
p start
p scan 64
c1 begin
";

// Puts a script with so many updates behind the scan, and an attempt to switch behind them.
fn put_updates(out: &mut Vec<u8>, count: i64) -> Result<(), Fail> {
    out.extend_from_slice(FRONT)?;
    for _update in 0..count {
        out.extend_from_slice(b"c1 update t 1,2\n")?;
    }
    out.extend_from_slice(b"c1 commit\np switch\n")?;
    Ok(())
}

// Puts its journal; the last entries are given.
fn put_entries(alloc: Global, out: &mut Vec<u8>, count: i64, last: &[u8]) -> Result<(), Fail> {
    out.extend_from_slice(
        b"journal\n1 p start started 2\n2 p scan 64 0 end 1\n3 c1 begin begun 1\n",
    )?;
    for update in 1..=count {
        put(
            alloc,
            out,
            "",
            update.saturating_add(3),
            " c1 update t done ",
        )?;
        put(alloc, out, "", update.saturating_add(2), " 1,2\n")?;
    }
    put(
        alloc,
        out,
        "",
        count.saturating_add(4),
        " c1 commit committed ",
    )?;
    put(alloc, out, "", count.saturating_add(3), "\n")?;
    out.extend_from_slice(last)?;
    Ok(())
}

// Puts its log and tables.
fn put_records(alloc: Global, out: &mut Vec<u8>, count: i64) -> Result<(), Fail> {
    out.extend_from_slice(b"log\n1 0 put t 1,1\n2 p mark\n")?;
    for update in 1..=count {
        put(alloc, out, "", update.saturating_add(2), " 1 put t 1,2\n")?;
    }
    put(alloc, out, "", count.saturating_add(3), " 1 commit\n")?;
    put(alloc, out, "", count.saturating_add(4), " p switch\n")?;
    out.extend_from_slice(b"tables\ntable t\nrow t 1,2\n")?;
    out.extend_from_slice(b"table lo\nrow lo 1,2\ntable hi\nend switched\n")?;
    Ok(())
}

// So many updates behind the scan, and how the journal ends then.
const TAILS: [(i64, &[u8]); 2] = [
    (255, b"260 p switch switched 259\n"),
    (
        256,
        b"261 p switch unread 2 259
262 p fetch 256 fetched 2 258
263 p fetch 256 fetched 258 259
264 p switch switched 260
",
    ),
];

// So many updates end the journal so.
fn assert_tail(rt: &impl Abort, alloc: Global, count: i64, last: &[u8]) -> Result<(), Fail> {
    let mut script = Vec::new(alloc);
    put_updates(&mut script, count)?;
    let mut rest = Vec::new(alloc);
    put_entries(alloc, &mut rest, count, last)?;
    put_records(alloc, &mut rest, count)?;
    assert_switched(rt, alloc, "updates", script.as_slice(), rest.as_slice())
}

#[test]
fn a_switch_reads_256_records(rt: HostRuntime) -> Result<(), Fail> {
    for (count, last) in TAILS {
        assert_tail(&rt, rt.alloc(), count, last)?;
    }
    Ok(())
}

// Puts a script whose journal is full where the propagator would fetch.
fn put_full_fetch(out: &mut Vec<u8>) -> Result<(), Fail> {
    out.extend_from_slice(b"table t id:int* v:int\nrow t 1,1\n")?;
    out.extend_from_slice(b"change part t if v<10 into lo hi\np start\n")?;
    out.extend_from_slice(b"c1 begin\nc1 update t 1,2\n")?;
    put_round_lines(out, rounds())?;
    out.extend_from_slice(b"p scan 64\np fetch 1\nc1 commit\np switch\n")?;
    Ok(())
}

// Puts what its report has behind its lines.
fn put_full_rest(alloc: Global, out: &mut Vec<u8>) -> Result<(), Fail> {
    out.extend_from_slice(b"journal\n1 p start started 2\n")?;
    out.extend_from_slice(b"2 c1 begin begun 1\n3 c1 update t done 3 1,2\n")?;
    put_round_entries(alloc, out, rounds(), 3, 3)?;
    out.extend_from_slice(b"49999 p scan 64 0 end 3\n")?;
    out.extend_from_slice(b"log\n1 0 put t 1,1\n2 p mark\n3 1 put t 1,2\n")?;
    put_round_records(alloc, out, rounds(), 3)?;
    out.extend_from_slice(b"tables\ntable t\nrow t 1,2\nend full\n")?;
    Ok(())
}

#[test]
fn a_full_journal_stops_the_propagator(rt: HostRuntime) -> Result<(), Fail> {
    let alloc = rt.alloc();
    let mut script = Vec::new(alloc);
    put_full_fetch(&mut script)?;
    let mut rest = Vec::new(alloc);
    put_full_rest(alloc, &mut rest)?;
    assert_full(
        &rt,
        alloc,
        script.as_slice(),
        rest.as_slice(),
        Phase::Chasing,
    )
}
