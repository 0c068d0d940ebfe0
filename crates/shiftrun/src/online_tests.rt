// Scripts whose clients write while a table is scanned and its log followed. What is printed was known beforehand; a report is
// given from its line `journal` on.
use crate::tests::{assert_cut, assert_switched, assert_unread, pieces_and_one, put_report};
use std::test::Fail;

// The scan of an empty table takes one turn without rows; what is written behind it comes by the log.
const NO_ROWS: &[u8] = b"table t id:int* v:int
change part t if v<10 into lo hi
p start
p scan 3
c1 begin
c1 insert t 1,5
c1 insert t 2,50
c1 commit
p fetch 10
p switch
";

const NO_ROWS_REPORT: &[u8] = b"journal
1 p start started 1
2 p scan 3 0 end
3 c1 begin begun 1
4 c1 insert t done 2 1,5
5 c1 insert t done 3 2,50
6 c1 commit committed 4
7 p fetch 10 fetched 1 4
8 p switch switched 5
log
1 p mark
2 1 put t 1,5
3 1 put t 2,50
4 1 commit
5 p switch
tables
table t
row t 1,5
row t 2,50
table lo
row lo 1,5
table hi
row hi 2,50
end switched
";

// A turn that ends exactly at the last row ends the scan: rows come in the order of keys, not of lines.
const LAST_ROW: &[u8] = b"table t id:int* v:int
row t 3,30
row t 1,1
row t 4,4
row t 2,20
change part t if v<10 into lo hi
p start
p scan 2
p scan 2
p switch
";

const LAST_ROW_REPORT: &[u8] = b"journal
1 p start started 5
2 p scan 2 0 more 2 4
3 p scan 2 0 end 1 3
4 p switch switched 6
log
1 0 put t 3,30
2 0 put t 1,1
3 0 put t 4,4
4 0 put t 2,20
5 p mark
6 p switch
tables
table t
row t 1,1
row t 2,20
row t 3,30
row t 4,4
table lo
row lo 1,1
row lo 4,4
table hi
row hi 2,20
row hi 3,30
end switched
";

// Rows are put in and changed behind the place that the scan has come to, and ahead of it.
const CURSOR: &[u8] = b"table t id:int* v:int
row t 2,2
row t 4,4
row t 6,60
change part t if v<10 into lo hi
p start
p scan 2
c1 begin
c1 insert t 1,1
c1 insert t 5,50
c1 update t 2,20
c1 update t 6,6
c1 commit
p scan 64
p fetch 256
p switch
";

const CURSOR_REPORT: &[u8] = b"journal
1 p start started 4
2 p scan 2 0 more 1 2
3 c1 begin begun 1
4 c1 insert t done 5 1,1
5 c1 insert t done 6 5,50
6 c1 update t done 7 2,20
7 c1 update t done 8 6,6
8 c1 commit committed 9
9 p scan 64 0 end 6 8
10 p fetch 256 fetched 4 9
11 p switch switched 10
log
1 0 put t 2,2
2 0 put t 4,4
3 0 put t 6,60
4 p mark
5 1 put t 1,1
6 1 put t 5,50
7 1 put t 2,20
8 1 put t 6,6
9 1 commit
10 p switch
tables
table t
row t 1,1
row t 2,20
row t 4,4
row t 5,50
row t 6,6
table lo
row lo 1,1
row lo 4,4
row lo 6,6
table hi
row hi 2,20
row hi 5,50
end switched
";

// The scan reads rows that are rolled back behind it; the records of that come by two fetches.
const UNCOMMITTED: &[u8] = b"table t id:int* v:int
row t 1,1
change part t if v<10 into lo hi
c1 begin
c1 update t 1,50
c1 insert t 2,2
p start
p scan 1
p scan 1
c1 abort
p fetch 2
p fetch 10
p switch
";

const UNCOMMITTED_REPORT: &[u8] = b"journal
1 c1 begin begun 1
2 c1 update t done 2 1,50
3 c1 insert t done 3 2,2
4 p start started 4
5 p scan 1 0 more 2
6 p scan 1 0 end 3
7 c1 undo undone 5
8 c1 undo undone 6
9 c1 undo aborted 7
10 p fetch 2 fetched 4 6
11 p fetch 10 fetched 6 7
12 p switch switched 8
log
1 0 put t 1,1
2 1 put t 1,50
3 1 put t 2,2
4 p mark
5 1 back 3 del t 2
6 1 back 2 put t 1,1
7 1 abort
8 p switch
tables
table t
row t 1,1
table lo
row lo 1,1
table hi
end switched
";

// Between two turns rows are deleted and put in again, one that was scanned and one that wasn't.
const AGAIN: &[u8] = b"table t id:int* v:int
row t 1,1
row t 2,20
row t 3,30
change part t if v<10 into lo hi
p start
p scan 1
c1 begin
c1 delete t 1
c1 insert t 1,10
c1 delete t 3
c1 insert t 3,3
p scan 64
c1 commit
p switch
";

const AGAIN_REPORT: &[u8] = b"journal
1 p start started 4
2 p scan 1 0 more 1
3 c1 begin begun 1
4 c1 delete t done 5 1
5 c1 insert t done 6 1,10
6 c1 delete t done 7 3
7 c1 insert t done 8 3,3
8 p scan 64 0 end 2 8
9 c1 commit committed 9
10 p switch switched 10
log
1 0 put t 1,1
2 0 put t 2,20
3 0 put t 3,30
4 p mark
5 1 del t 1
6 1 put t 1,10
7 1 del t 3
8 1 put t 3,3
9 1 commit
10 p switch
tables
table t
row t 1,10
row t 2,20
row t 3,3
table lo
row lo 3,3
table hi
row hi 1,10
row hi 2,20
end switched
";

// The scan misses rows that are put in behind it, and rows that are deleted ahead of it; some come and go unseen.
const MISSED: &[u8] = b"table t id:int* v:int
row t 2,2
row t 4,4
row t 6,6
change part t if v<10 into lo hi
p start
p scan 1
c1 begin
c1 insert t 1,1
c1 insert t 0,90
c1 delete t 0
c1 delete t 2
c1 delete t 4
p scan 64
p fetch 3
c1 insert t 4,40
c1 commit
p fetch 64
p switch
";

const MISSED_REPORT: &[u8] = b"journal
1 p start started 4
2 p scan 1 0 more 1
3 c1 begin begun 1
4 c1 insert t done 5 1,1
5 c1 insert t done 6 0,90
6 c1 delete t done 7 0
7 c1 delete t done 8 2
8 c1 delete t done 9 4
9 p scan 64 0 end 3
10 p fetch 3 fetched 4 7
11 c1 insert t done 10 4,40
12 c1 commit committed 11
13 p fetch 64 fetched 7 11
14 p switch switched 12
log
1 0 put t 2,2
2 0 put t 4,4
3 0 put t 6,6
4 p mark
5 1 put t 1,1
6 1 put t 0,90
7 1 del t 0
8 1 del t 2
9 1 del t 4
10 1 put t 4,40
11 1 commit
12 p switch
tables
table t
row t 1,1
row t 4,40
row t 6,6
table lo
row lo 1,1
row lo 6,6
table hi
row hi 4,40
end switched
";

// Updates are undone: one was scanned, of the other the row before it; the last records are the switch's to read.
const UNDONE: &[u8] = b"table t id:int* v:int
row t 1,1
row t 2,20
change part t if v<10 into lo hi
c1 begin
c1 update t 2,2
p start
p scan 1
c1 update t 1,10
p scan 1
p fetch 1
c1 abort
p fetch 1
p switch
";

const UNDONE_REPORT: &[u8] = b"journal
1 c1 begin begun 1
2 c1 update t done 3 2,2
3 p start started 4
4 p scan 1 0 more 1
5 c1 update t done 5 1,10
6 p scan 1 0 end 3
7 p fetch 1 fetched 4 5
8 c1 undo undone 6
9 c1 undo undone 7
10 c1 undo aborted 8
11 p fetch 1 fetched 5 6
12 p switch switched 9
log
1 0 put t 1,1
2 0 put t 2,20
3 1 put t 2,2
4 p mark
5 1 put t 1,10
6 1 back 5 put t 1,1
7 1 back 3 put t 2,20
8 1 abort
9 p switch
tables
table t
row t 1,1
row t 2,20
table lo
row lo 1,1
table hi
row hi 2,20
end switched
";

// The propagator's lines are taken where they stand, also among lines that a client passes over.
const GIVEN_UP: &[u8] = b"table t id:int* v:int
row t 1,1
row t 2,20
row t 3,3
change part t if v<10 into lo hi
retries 1
c1 begin
c1 update t 1,10
p start
c2 begin
c2 insert t 4,4
p scan 2
c2 update t 1,5
p scan 1
c2 insert t 5,5
p fetch 2
c2 commit
c1 commit
p switch
";

const GIVEN_UP_REPORT: &[u8] = b"journal
1 c1 begin begun 1
2 c1 update t done 4 1,10
3 p start started 5
4 c2 begin begun 2
5 c2 insert t done 6 4,4
6 p scan 2 0 more 4 2
7 c2 update t held 1 1,5
8 c2 update t held 1 1,5
9 c2 undo undone 7
10 c2 undo aborted 8
11 p scan 1 0 end 3
12 p fetch 2 fetched 5 7
13 c1 commit committed 9
14 p switch switched 10
log
1 0 put t 1,1
2 0 put t 2,20
3 0 put t 3,3
4 1 put t 1,10
5 p mark
6 2 put t 4,4
7 2 back 6 del t 4
8 2 abort
9 1 commit
10 p switch
tables
table t
row t 1,10
row t 2,20
row t 3,3
table lo
row lo 3,3
table hi
row hi 1,10
row hi 2,20
end switched
";

// Lines that make no event are passed over: before the start, behind the switch, and each check.
const PASSED: &[u8] = b"table t id:int* v:int
row t 1,1
change part t if v<10 into lo hi
p check
p scan 5
p fetch 5
p switch
c1 begin
p check
p start
p check
c1 update t 1,10
p scan 5
p check
c1 commit
p switch
p scan 5
p fetch 5
p check
p switch
";

const PASSED_REPORT: &[u8] = b"journal
1 c1 begin begun 1
2 p start started 2
3 c1 update t done 3 1,10
4 p scan 5 0 end 3
5 c1 commit committed 4
6 p switch switched 5
log
1 0 put t 1,1
2 p mark
3 1 put t 1,10
4 1 commit
5 p switch
tables
table t
row t 1,10
table lo
table hi
row hi 1,10
end switched
";

// Each turn that is refused: a second start, a fetch and a switch before the scan's end, a scan behind it, a start behind the
// switch.
const REFUSED: &[u8] = b"table t id:int* v:int
row t 1,1
row t 2,20
change part t if v<10 into lo hi
p start
p start
p scan 1
p fetch 1
p switch
p scan 1
p scan 1
p start
p fetch 1
p fetch 1
p switch
p start
p start
";

const REFUSED_REPORT: &[u8] = b"journal
1 p start started 3
2 p start running
3 p scan 1 0 more 1
4 p fetch 1 notscanned
5 p switch notscanned
6 p scan 1 0 end 2
7 p scan 1 scanover
8 p start running
9 p fetch 1 fetched 3 3
10 p fetch 1 fetched 3 3
11 p switch switched 4
12 p start spent
13 p start spent
log
1 0 put t 1,1
2 0 put t 2,20
3 p mark
4 p switch
tables
table t
row t 1,1
row t 2,20
table lo
row lo 1,1
table hi
row hi 2,20
end switched
";

// The lines end in the midst of the scan: transactions are rolled back, and the rest is scanned, fetched and switched.
const HALF_WAY: &[u8] = b"table t id:int* v:int
row t 1,1
row t 2,20
row t 3,3
change part t if v<10 into lo hi
c2 begin
c2 update t 3,30
c1 begin
p start
p scan 1
c1 update t 1,10
c1 insert t 4,40
c1 commit
";

const HALF_WAY_REPORT: &[u8] = b"journal
1 c2 begin begun 1
2 c2 update t done 4 3,30
3 c1 begin begun 2
4 p start started 5
5 p scan 1 0 more 1
6 c1 update t done 6 1,10
7 c1 insert t done 7 4,40
8 c1 commit committed 8
9 c2 undo undone 9
10 c2 undo aborted 10
11 p scan 64 0 end 2 9 7
12 p fetch 256 fetched 5 10
13 p switch switched 11
log
1 0 put t 1,1
2 0 put t 2,20
3 0 put t 3,3
4 1 put t 3,30
5 p mark
6 2 put t 1,10
7 2 put t 4,40
8 2 commit
9 1 back 4 put t 3,3
10 1 abort
11 p switch
tables
table t
row t 1,10
row t 2,20
row t 3,3
row t 4,40
table lo
row lo 3,3
table hi
row hi 1,10
row hi 2,20
row hi 4,40
end switched
";

// A split by four tests of texts and numbers, none of which a Null passes.
const FOUR_TESTS: &[u8] = b"table people id:int* name:text? age:int? city:text
row people 1,Anna,30,Rome
row people 2,NULL,40,Oslo
row people 3,Bo,NULL,Oslo
row people 4,\"Dahl, Eva\",18,Bergen
row people 5,Finn,19,L'Aquila
row people 6,Finn,18,Oslo
change part people if name>='Bo' and name<'Finn0' and age>=18 and city<>'L''Aquila' into grown others
p start
p scan 3
c1 begin
c1 update people 1,Carl,30,Rome
c1 update people 3,Bo,18,Oslo
p scan 2
c1 update people 4,\"Dahl, Eva\",NULL,Bergen
c1 update people 5,Finn,19,Oslo
c1 update people 6,Finn,17,Oslo
c1 insert people 7,Bo,99,
c1 insert people 8,Finn0,18,Oslo
c1 commit
p scan 2
p fetch 100
p scan 2
p switch
";

const FOUR_TESTS_REPORT: &[u8] = b"journal
1 p start started 7
2 p scan 3 0 more 1 2 3
3 c1 begin begun 1
4 c1 update people done 8 1,Carl,30,Rome
5 c1 update people done 9 3,Bo,18,Oslo
6 p scan 2 0 more 4 5
7 c1 update people done 10 4,\"Dahl, Eva\",NULL,Bergen
8 c1 update people done 11 5,Finn,19,Oslo
9 c1 update people done 12 6,Finn,17,Oslo
10 c1 insert people done 13 7,Bo,99,
11 c1 insert people done 14 8,Finn0,18,Oslo
12 c1 commit committed 15
13 p scan 2 0 more 12 13
14 p fetch 100 notscanned
15 p scan 2 0 end 14
16 p switch switched 16
log
1 0 put people 1,Anna,30,Rome
2 0 put people 2,NULL,40,Oslo
3 0 put people 3,Bo,NULL,Oslo
4 0 put people 4,\"Dahl, Eva\",18,Bergen
5 0 put people 5,Finn,19,L'Aquila
6 0 put people 6,Finn,18,Oslo
7 p mark
8 1 put people 1,Carl,30,Rome
9 1 put people 3,Bo,18,Oslo
10 1 put people 4,\"Dahl, Eva\",NULL,Bergen
11 1 put people 5,Finn,19,Oslo
12 1 put people 6,Finn,17,Oslo
13 1 put people 7,Bo,99,
14 1 put people 8,Finn0,18,Oslo
15 1 commit
16 p switch
tables
table people
row people 1,Carl,30,Rome
row people 2,NULL,40,Oslo
row people 3,Bo,18,Oslo
row people 4,\"Dahl, Eva\",NULL,Bergen
row people 5,Finn,19,Oslo
row people 6,Finn,17,Oslo
row people 7,Bo,99,
row people 8,Finn0,18,Oslo
table grown
row grown 1,Carl,30,Rome
row grown 3,Bo,18,Oslo
row grown 5,Finn,19,Oslo
row grown 7,Bo,99,
table others
row others 2,NULL,40,Oslo
row others 4,\"Dahl, Eva\",NULL,Bergen
row others 6,Finn,17,Oslo
row others 8,Finn0,18,Oslo
end switched
";

// Each script with its report; each ends with the switch.
const SCRIPTS: [(&str, &[u8], &[u8]); 12] = [
    ("an empty table", NO_ROWS, NO_ROWS_REPORT),
    ("a turn up to the last row", LAST_ROW, LAST_ROW_REPORT),
    ("writes behind and ahead of the scan", CURSOR, CURSOR_REPORT),
    (
        "rolled back behind the scan",
        UNCOMMITTED,
        UNCOMMITTED_REPORT,
    ),
    ("deleted and put in again", AGAIN, AGAIN_REPORT),
    ("rows that the scan misses", MISSED, MISSED_REPORT),
    ("updates undone", UNDONE, UNDONE_REPORT),
    ("a client gives up meanwhile", GIVEN_UP, GIVEN_UP_REPORT),
    ("lines without an event", PASSED, PASSED_REPORT),
    ("refused turns", REFUSED, REFUSED_REPORT),
    ("ended in the midst of the scan", HALF_WAY, HALF_WAY_REPORT),
    ("four tests", FOUR_TESTS, FOUR_TESTS_REPORT),
];

#[test]
fn clients_write_while_a_table_is_split(rt: HostRuntime) -> Result<(), Fail> {
    for (name, script, rest) in SCRIPTS {
        assert_switched(&rt, rt.alloc(), name, script, rest)?;
    }
    Ok(())
}

#[test]
fn no_split_begins_where_a_read_fails(rt: HostRuntime) -> Result<(), Fail> {
    for number in 1..=pieces_and_one(GIVEN_UP, 7) {
        assert_unread(&rt, rt.alloc(), GIVEN_UP, 7, number)?;
    }
    Ok(())
}

#[test]
fn a_part_of_a_split_is_written_where_a_write_fails(rt: HostRuntime) -> Result<(), Fail> {
    let mut report = Vec::new(rt.alloc());
    put_report(&mut report, GIVEN_UP, GIVEN_UP_REPORT)?;
    for number in 1..pieces_and_one(report.as_slice(), 5) {
        assert_cut(&rt, rt.alloc(), GIVEN_UP, report.as_slice(), number)?;
    }
    Ok(())
}
