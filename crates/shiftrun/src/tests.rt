// Whole calls of the program over memory, with reports known beforehand.
ghost use Rattle.std.specs.Prelude.{◌<◌, ◌≤◌};

use crate::*;
use std::alloc::Global;
use std::process::Abort;
use std::test::Fail;
use sx_io::{Bytes, MemorySink, MemorySource, Source};
use sx_lists::{Copied, List, Same};
use sx_sync::Phase;
use sx_text::put_record;
use sx_values::{Key, Value};

// A table without a client's lines.
const SPLIT: &[u8] = b"table t id:int* q:int?
row t 1,5
row t 2,NULL
row t 3,20
change part t if q<10 into low high
";

const SPLIT_REPORT: &[u8] = b"script
table t id:int* q:int?
row t 1,5
row t 2,NULL
row t 3,20
change part t if q<10 into low high
journal
1 p start started 4
2 p scan 64 0 end 1 2 3
3 p switch switched 5
log
1 0 put t 1,5
2 0 put t 2,NULL
3 0 put t 3,20
4 p mark
5 p switch
tables
table t
row t 1,5
row t 2,NULL
row t 3,20
table low
row low 1,5
table high
row high 2,NULL
row high 3,20
end switched
";

// A client writes before the split, and one of its requests is refused.
const WRITES: &[u8] = b"table t id:int* v:int
row t 1,1
row t 2,20
change part t if v<10 into lo hi
c1 begin
c1 update t 1,30
c1 insert t 3,3
c1 delete t 2
c1 insert t 3,4
c1 commit
";

const WRITES_REPORT: &[u8] = b"script
table t id:int* v:int
row t 1,1
row t 2,20
change part t if v<10 into lo hi
c1 begin
c1 update t 1,30
c1 insert t 3,3
c1 delete t 2
c1 insert t 3,4
c1 commit
journal
1 c1 begin begun 1
2 c1 update t done 3 1,30
3 c1 insert t done 4 3,3
4 c1 delete t done 5 2
5 c1 insert t exists 3,4
6 c1 commit committed 6
7 p start started 7
8 p scan 64 0 end 3 4
9 p switch switched 8
log
1 0 put t 1,1
2 0 put t 2,20
3 1 put t 1,30
4 1 put t 3,3
5 1 del t 2
6 1 commit
7 p mark
8 p switch
tables
table t
row t 1,30
row t 3,3
table lo
row lo 3,3
table hi
row hi 1,30
end switched
";

// Requests that are refused: a Null where none may be, in a row and in a key, and keys that aren't there.
const REFUSED: &[u8] = b"table t id:int* city:text* v:int
row t 1,Rome,5
c1 begin
c1 insert t 2,Oslo,NULL
c1 update t 2,Oslo,7
c1 delete t NULL,Oslo
c1 delete t 2,NULL
c1 delete t 2,Oslo
c1 commit
";

const REFUSED_REPORT: &[u8] = b"script
table t id:int* city:text* v:int
row t 1,Rome,5
c1 begin
c1 insert t 2,Oslo,NULL
c1 update t 2,Oslo,7
c1 delete t NULL,Oslo
c1 delete t 2,NULL
c1 delete t 2,Oslo
c1 commit
journal
1 c1 begin begun 1
2 c1 insert t badrow null 3 2,Oslo,NULL
3 c1 update t missing 2,Oslo,7
4 c1 delete t badrow null 1 NULL,Oslo
5 c1 delete t badrow null 2 2,NULL
6 c1 delete t missing 2,Oslo
7 c1 commit committed 2
log
1 0 put t 1,Rome,5
2 1 commit
tables
table t
row t 1,Rome,5
end none
";

const EMPTY_REPORT: &[u8] = b"script
journal
log
tables
end none
";

// How many bytes a script may have.
const LIMIT: usize = 1_048_576;

// A status, and how far the machine has come that was kept.
pub(crate) type Ending = (u8, Option<Phase>);

// Some words of the command line.
pub(crate) fn words(alloc: Global, texts: &[&str]) -> Result<Vec<Word>, Fail> {
    let mut words = Vec::new(alloc);
    for text in texts {
        words.push(String::from_str(alloc, text)?)?;
    }
    Ok(words)
}

// A source of these bytes, whose reads of these numbers fail.
pub(crate) fn source(
    alloc: Global,
    bytes: &[u8],
    piece: u64,
    failing: &[u64],
) -> Result<MemorySource, Fail>
    requires { 0 < piece }
{
    let bytes = Bytes::from_vec(bytes.to_vec(alloc)?);
    let failing = List::from_vec(failing.to_vec(alloc)?);
    Ok(MemorySource::new(bytes, piece, failing))
}

// A sink with this room, whose writes of these numbers fail.
pub(crate) fn sink(
    alloc: Global,
    room: u64,
    piece: u64,
    failing: &[u64],
) -> Result<MemorySink, Fail>
    requires { 0 < piece }
{
    let failing = List::from_vec(failing.to_vec(alloc)?);
    Ok(MemorySink::new(alloc, room, piece, failing)?)
}

// Calls the program.
pub(crate) fn call(
    alloc: Global,
    words: &[Word],
    source: &mut MemorySource,
    sink: &mut MemorySink,
) -> Ending {
    let mut kept = None;
    let status = shift(alloc, words, source, sink, &mut kept);
    match &kept {
        Some(core) => (status, Some(core.phase())),
        None => (status, None),
    }
}

// Runs the bytes of a script from a steady source.
pub(crate) fn step(alloc: Global, bytes: &[u8], sink: &mut MemorySink) -> Result<Ending, Fail> {
    let words = words(alloc, &["step"])?;
    let mut source = source(alloc, bytes, 4096, &[])?;
    Ok(call(alloc, words.as_slice(), &mut source, sink))
}

// A script ends so, and this is printed.
fn assert_ended(
    rt: &impl Abort,
    alloc: Global,
    script: &[u8],
    wanted: Ending,
    printed: &[u8],
) -> Result<(), Fail> {
    let mut sink = sink(alloc, 10_000, 1000, &[])?;
    let ending = step(alloc, script, &mut sink)?;
    assert_eq!(rt; ending, wanted);
    assert_eq!(rt; sink.bytes(), printed);
    Ok(())
}

#[test]
fn an_empty_script_is_reported(rt: HostRuntime) -> Result<(), Fail> {
    assert_eq!(rt; EMPTY_REPORT.len(), 35);
    assert_ended(&rt, rt.alloc(), b"", (0, Some(Phase::Idle)), EMPTY_REPORT)
}

#[test]
fn a_split_is_reported(rt: HostRuntime) -> Result<(), Fail> {
    assert_ended(&rt, rt.alloc(), SPLIT, (0, Some(Phase::Done)), SPLIT_REPORT)
}

#[test]
fn a_split_after_writes_is_reported(rt: HostRuntime) -> Result<(), Fail> {
    assert_ended(
        &rt,
        rt.alloc(),
        WRITES,
        (0, Some(Phase::Done)),
        WRITES_REPORT,
    )
}

#[test]
fn refused_requests_are_reported(rt: HostRuntime) -> Result<(), Fail> {
    assert_ended(
        &rt,
        rt.alloc(),
        REFUSED,
        (0, Some(Phase::Idle)),
        REFUSED_REPORT,
    )
}

// Puts a number between two texts at the end.
pub(crate) fn put(
    alloc: Global,
    out: &mut Vec<u8>,
    front: &str,
    number: i64,
    back: &str,
) -> Result<(), Fail> {
    out.extend_from_slice(front.as_bytes())?;
    put_record(alloc, out, &[Value::Int(number)])?;
    out.extend_from_slice(back.as_bytes())?;
    Ok(())
}

// How many rows the table has: one more than a scan turn sees.
fn most_rows() -> i64 {
    65
}

// Puts a line for each of these numbers.
fn put_lines(
    alloc: Global,
    out: &mut Vec<u8>,
    front: &str,
    first: i64,
    last: i64,
) -> Result<(), Fail> {
    for number in first..=last {
        put(alloc, out, front, number, "\n")?;
    }
    Ok(())
}

// Puts a table of these rows, and its split.
fn put_many_rows(alloc: Global, out: &mut Vec<u8>) -> Result<(), Fail> {
    out.extend_from_slice(b"table t id:int*\n")?;
    put_lines(alloc, out, "row t ", 1, most_rows())?;
    out.extend_from_slice(b"change part t if id<33 into lo hi\n")?;
    Ok(())
}

// Puts the LSNs that the first scan turn sees.
fn put_seen(alloc: Global, out: &mut Vec<u8>) -> Result<(), Fail> {
    for lsn in 1..most_rows() {
        put(alloc, out, " ", lsn, "")?;
    }
    Ok(())
}

// Puts the records of the loaded rows.
fn put_loads(alloc: Global, out: &mut Vec<u8>) -> Result<(), Fail> {
    for id in 1..=most_rows() {
        put(alloc, out, "", id, " 0 put t ")?;
        put(alloc, out, "", id, "\n")?;
    }
    Ok(())
}

// Puts the journal and the log of that split.
fn put_events(alloc: Global, out: &mut Vec<u8>) -> Result<(), Fail> {
    out.extend_from_slice(b"journal\n1 p start started 66\n2 p scan 64 0 more")?;
    put_seen(alloc, out)?;
    out.extend_from_slice(b"\n3 p scan 64 0 end 65\n4 p switch switched 67\nlog\n")?;
    put_loads(alloc, out)?;
    out.extend_from_slice(b"66 p mark\n67 p switch\n")?;
    Ok(())
}

// Puts the tables after it.
fn put_tables(alloc: Global, out: &mut Vec<u8>) -> Result<(), Fail> {
    out.extend_from_slice(b"tables\ntable t\n")?;
    put_lines(alloc, out, "row t ", 1, most_rows())?;
    out.extend_from_slice(b"table lo\n")?;
    put_lines(alloc, out, "row lo ", 1, 32)?;
    out.extend_from_slice(b"table hi\n")?;
    put_lines(alloc, out, "row hi ", 33, most_rows())?;
    out.extend_from_slice(b"end switched\n")?;
    Ok(())
}

#[test]
fn many_rows_are_scanned_in_turns(rt: HostRuntime) -> Result<(), Fail> {
    let alloc = rt.alloc();
    let mut script = Vec::new(alloc);
    put_many_rows(alloc, &mut script)?;
    let mut report = b"script\n".to_vec(alloc)?;
    report.extend_from_slice(script.as_slice())?;
    put_events(alloc, &mut report)?;
    put_tables(alloc, &mut report)?;
    assert_ended(
        &rt,
        alloc,
        script.as_slice(),
        (0, Some(Phase::Done)),
        report.as_slice(),
    )
}

// Puts the report of a script, from what stands behind the script's lines.
pub(crate) fn put_report(out: &mut Vec<u8>, script: &[u8], rest: &[u8]) -> Result<(), Fail> {
    out.extend_from_slice(b"script\n")?;
    out.extend_from_slice(script)?;
    out.extend_from_slice(rest)?;
    Ok(())
}

// A script has this report behind its own lines, and its transformation is done.
pub(crate) fn assert_switched(
    rt: &impl Abort,
    alloc: Global,
    name: &str,
    script: &[u8],
    rest: &[u8],
) -> Result<(), Fail> {
    let mut report = Vec::new(alloc);
    put_report(&mut report, script, rest)?;
    let mut sink = sink(alloc, 100_000, 4096, &[])?;
    let ending = step(alloc, script, &mut sink)?;
    assert_eq!(rt; ending, (0, Some(Phase::Done)), "at {name}");
    assert_eq!(rt; sink.bytes(), report.as_slice(), "at {name}");
    Ok(())
}

// Runs a script from a source that gives so many bytes at a time, and whose read of this number fails: nothing is written.
pub(crate) fn assert_unread(
    rt: &impl Abort,
    alloc: Global,
    script: &[u8],
    piece: u64,
    number: u64,
) -> Result<(), Fail>
    requires { 0 < piece }
{
    let words = words(alloc, &["step"])?;
    let mut source = source(alloc, script, piece, &[number])?;
    let mut sink = sink(alloc, 2000, 100, &[])?;
    let ending = call(alloc, words.as_slice(), &mut source, &mut sink);
    assert_eq!(rt; ending, (3, None), "at read {number}");
    assert!(rt; sink.bytes().is_empty());
    Ok(())
}

#[test]
fn the_second_read_fails(rt: HostRuntime) -> Result<(), Fail> {
    assert_unread(&rt, rt.alloc(), SPLIT, 8, 2)
}

#[test]
fn a_sink_takes_ten_bytes(rt: HostRuntime) -> Result<(), Fail> {
    let mut sink = sink(rt.alloc(), 10, 1000, &[])?;
    let ending = step(rt.alloc(), b"", &mut sink)?;
    assert_eq!(rt; ending, (4, None));
    assert_eq!(rt; sink.bytes(), b"script\njou".as_slice());
    Ok(())
}

#[test]
fn a_script_is_as_long_as_it_may_be(rt: HostRuntime) -> Result<(), Fail> {
    let comment = vec![in rt.alloc(); b'#'; LIMIT]?;
    assert_ended(
        &rt,
        rt.alloc(),
        comment.as_slice(),
        (0, Some(Phase::Idle)),
        EMPTY_REPORT,
    )
}

#[test]
fn a_script_is_too_long(rt: HostRuntime) -> Result<(), Fail> {
    let comment = vec![in rt.alloc(); b'#'; LIMIT + 1]?;
    assert_ended(
        &rt,
        rt.alloc(),
        comment.as_slice(),
        (1, None),
        b"fault 0 toolong\n",
    )
}

// Words that are no command.
const OTHERS: [&[&str]; 7] = [
    &[],
    &[""],
    &["run"],
    &["Step"],
    &["steps"],
    &["step", "step"],
    &["step", "--json"],
];

// Calls the program with these words and a source whose first read would fail: none is made.
fn assert_no_command(rt: &impl Abort, alloc: Global, texts: &[&str]) -> Result<(), Fail> {
    let words = words(alloc, texts)?;
    let mut source = source(alloc, SPLIT, 8, &[1])?;
    let mut sink = sink(alloc, 100, 100, &[])?;
    let ending = call(alloc, words.as_slice(), &mut source, &mut sink);
    assert_eq!(rt; ending, (2, None), "at {texts:?}");
    assert_eq!(rt; source.faults(), 0);
    assert_eq!(rt; sink.bytes(), b"fault words\n".as_slice());
    Ok(())
}

#[test]
fn other_words_are_refused(rt: HostRuntime) -> Result<(), Fail> {
    for texts in OTHERS {
        assert_no_command(&rt, rt.alloc(), texts)?;
    }
    Ok(())
}

// Scripts as users get them wrong.
const FAULTY: [&str; 24] = [
    "hello\n",
    "Table t id:int*\n",
    "table t  id:int*\n",
    "table t id:int* \n",
    "table t id:int v:int\n",
    "table t id:int* id:int\n",
    "row t 1,1\n",
    "table t id:int* v:int\r\nrow t 1,2\r\n",
    "table t id:int* v:int\nrow t\n",
    "table t id:int* v:int\nrow t 1\n",
    "table t id:int* v:int\nrow t 1,",
    "table t id:int* v:int\nrow t 1,x\n",
    "table t id:int* v:int\nrow t 1, 2\n",
    "table t id:int* v:int\nrow t 01,2\n",
    "table t id:int* v:int\nrow t 1,9223372036854775808\n",
    "table t id:int* v:int\nrow t 1,2,3\n",
    "table t id:int* v:int\nrow t 1,NULL\n",
    "table t id:int* v:int\nrow t 1,1\nrow t 2,2\nrow t 1,3\n",
    "table t id:int* v:int\nchange part t if w<10 into lo hi\n",
    "table t id:int* v:int\nchange part t if v<'a' into lo hi\n",
    "table t id:int* v:int\nchange part t if v<10 into lo t\n",
    "table t id:int* v:int\nc9 begin\n",
    "table t id:int* v:int\nc1 begin\nc1 delete t 1,1\nc1 commit\n",
    "table t id:int* v:int\nc1 begin\nc1 commit\nrow t 1,1\n",
];

// These bytes are no script.
fn assert_refused(rt: &impl Abort, alloc: Global, script: &str) -> Result<(), Fail> {
    let mut sink = sink(alloc, 1000, 1000, &[])?;
    let ending = step(alloc, script.as_bytes(), &mut sink)?;
    assert_eq!(rt; ending, (1, None), "at {script:?}");
    assert_eq!(rt; sink.bytes(), b"fault 0 later\n".as_slice());
    Ok(())
}

#[test]
fn faulty_scripts_are_refused(rt: HostRuntime) -> Result<(), Fail> {
    for script in FAULTY {
        assert_refused(&rt, rt.alloc(), script)?;
    }
    Ok(())
}

// How many pieces of so many bytes there are, and one more.
pub(crate) fn pieces_and_one(bytes: &[u8], piece: u64) -> u64
    requires { 0 < piece }
    ensures { 1 ≤ result }
{
    (bytes.len() as u64).div_ceil(piece).saturating_add(1)
}

#[test]
fn each_read_fails_in_turn(rt: HostRuntime) -> Result<(), Fail> {
    // The last of them finds the end.
    for number in 1..=pieces_and_one(WRITES, 7) {
        assert_unread(&rt, rt.alloc(), WRITES, 7, number)?;
    }
    Ok(())
}

#[test]
fn no_further_read_is_made(rt: HostRuntime) -> Result<(), Fail> {
    let alloc = rt.alloc();
    let words = words(alloc, &["step"])?;
    let mut source = source(
        alloc,
        WRITES,
        7,
        &[pieces_and_one(WRITES, 7).saturating_add(1)],
    )?;
    let mut sink = sink(alloc, 1000, 5, &[])?;
    let ending = call(alloc, words.as_slice(), &mut source, &mut sink);
    assert_eq!(rt; ending, (0, Some(Phase::Done)));
    assert_eq!(rt; sink.bytes(), WRITES_REPORT);
    Ok(())
}

// Runs a script into a sink that takes 5 bytes at a time, and whose write of this number fails: the front of the report
// is written.
pub(crate) fn assert_cut(
    rt: &impl Abort,
    alloc: Global,
    script: &[u8],
    report: &[u8],
    number: u64,
) -> Result<(), Fail>
    requires { 1 ≤ number }
{
    let mut sink = sink(alloc, 2000, 5, &[number])?;
    let ending = step(alloc, script, &mut sink)?;
    assert_eq!(rt; ending, (4, None), "at write {number}");
    assert!(rt; report.starts_with(sink.bytes()));
    assert_eq!(rt; sink.bytes().len() as u64 / 5, number - 1);
    Ok(())
}

#[test]
fn each_write_fails_in_turn(rt: HostRuntime) -> Result<(), Fail> {
    for number in 1..pieces_and_one(WRITES_REPORT, 5) {
        assert_cut(&rt, rt.alloc(), WRITES, WRITES_REPORT, number)?;
    }
    Ok(())
}

#[test]
fn no_further_write_is_made(rt: HostRuntime) -> Result<(), Fail> {
    let mut sink = sink(rt.alloc(), 1000, 5, &[pieces_and_one(WRITES_REPORT, 5)])?;
    let ending = step(rt.alloc(), WRITES, &mut sink)?;
    assert_eq!(rt; ending, (0, Some(Phase::Done)));
    assert_eq!(rt; sink.bytes(), WRITES_REPORT);
    Ok(())
}

#[test]
fn a_failed_write_stands_above_a_faulty_script(rt: HostRuntime) -> Result<(), Fail> {
    let mut sink = sink(rt.alloc(), 9, 5, &[])?;
    let ending = step(rt.alloc(), b"hello", &mut sink)?;
    assert_eq!(rt; ending, (4, None));
    assert_eq!(rt; sink.bytes(), b"fault 0 l".as_slice());
    Ok(())
}

#[test]
fn a_failed_write_stands_above_no_command(rt: HostRuntime) -> Result<(), Fail> {
    let alloc = rt.alloc();
    let mut source = source(alloc, b"", 8, &[])?;
    let mut sink = sink(alloc, 100, 7, &[2])?;
    let ending = call(alloc, &[], &mut source, &mut sink);
    assert_eq!(rt; ending, (4, None));
    assert_eq!(rt; sink.bytes(), b"fault w".as_slice());
    Ok(())
}

// A key of one number.
fn key(alloc: Global, id: i64) -> Result<Key, Fail> {
    let mut key = Key::new(alloc);
    key.push(Value::Int(id))?;
    Ok(key)
}

// Whether an end is the one that the keys 1 and 2 violate.
fn is_violated(alloc: Global, end: &End) -> Result<bool, Fail> {
    match end {
        End::Violated { first, second } => {
            Ok(first.is_same(&key(alloc, 1)?) && second.is_same(&key(alloc, 2)?))
        }
        End::NoChange | End::Switched => Ok(false),
    }
}

#[test]
fn a_violated_end_is_copied(rt: HostRuntime) -> Result<(), Fail> {
    let alloc = rt.alloc();
    let end = End::Violated {
        first: key(alloc, 1)?,
        second: key(alloc, 2)?,
    };
    let copy = end.copy(alloc)?;
    let same = is_violated(alloc, &copy)?;
    assert!(rt; same);
    Ok(())
}

#[test]
fn other_ends_are_copied(rt: HostRuntime) -> Result<(), Fail> {
    let switched = End::Switched.copy(rt.alloc())?;
    assert!(rt; matches!(switched, End::Switched));
    let none = End::NoChange.copy(rt.alloc())?;
    assert!(rt; matches!(none, End::NoChange));
    Ok(())
}
