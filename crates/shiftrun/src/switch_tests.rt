// Scripts about the switch: who hinders it, who is turned away meanwhile, and the names before and behind it. What is printed was
// known beforehand; a report is given from its line `journal` on.
use crate::tests::assert_switched;
use std::test::Fail;

// A reader hinders the switch; from then on no new transaction gets at the source, and the reader goes on.
const DRAINING: &[u8] = b"table t id:int* v:int
table u id:int* v:int
row t 1,1
row t 2,20
row u 1,1
change part t if v<10 into lo hi
strategy blocking
retries 1
p start
p scan 64
c1 begin
c1 read t 1
c2 begin
c2 read u 1
p switch
c2 read t 2
c2 update u 1,2
c2 commit
c2 begin
c2 update u 1,3
c2 read lo 1
c1 update t 2,2
p fetch 64
p switch
c1 commit
p switch
c2 read lo 2
c2 commit
";

const DRAINING_REPORT: &[u8] = b"journal
1 p start started 4
2 p scan 64 0 end 1 2
3 c1 begin begun 1
4 c1 read t row 1,1
5 c2 begin begun 2
6 c2 read u row 1,1
7 p switch conflict 1
8 c2 read t draining 2
9 c2 read t draining 2
10 c2 undo aborted 5
11 c2 begin begun 3
12 c2 update u done 6 1,3
13 c2 read lo hidden 1
14 c1 update t done 7 2,2
15 p fetch 64 fetched 4 7
16 p switch conflict 1
17 c1 commit committed 8
18 p switch switched 9
19 c2 read lo row 2,2
20 c2 commit committed 10
log
1 0 put t 1,1
2 0 put t 2,20
3 0 put u 1,1
4 p mark
5 2 abort
6 3 put u 1,3
7 1 put t 2,2
8 1 commit
9 p switch
10 3 commit
tables
table t
row t 1,1
row t 2,2
table u
row u 1,3
table lo
row lo 1,1
row lo 2,2
table hi
end switched
";

// Of two transactions that hinder the switch the lesser is named, then the other; one that holds no key of the source doesn't.
const HOLDERS: &[u8] = b"table t id:int* v:int
row t 1,1
row t 2,20
change part t if v<10 into lo hi
c3 begin
c2 begin
c1 begin
c2 read t 1
c3 update t 2,2
p start
p scan 64
p switch
c3 abort
p switch
c2 commit
p switch
c1 read hi 2
c1 commit
";

const HOLDERS_REPORT: &[u8] = b"journal
1 c3 begin begun 1
2 c2 begin begun 2
3 c1 begin begun 3
4 c2 read t row 1,1
5 c3 update t done 3 2,2
6 p start started 4
7 p scan 64 0 end 1 3
8 p switch conflict 1
9 c3 undo undone 5
10 c3 undo aborted 6
11 p switch conflict 2
12 c2 commit committed 7
13 p switch switched 8
14 c1 read hi row 2,20
15 c1 commit committed 9
log
1 0 put t 1,1
2 0 put t 2,20
3 1 put t 2,2
4 p mark
5 1 back 3 put t 2,20
6 1 abort
7 2 commit
8 p switch
9 3 commit
tables
table t
row t 1,1
row t 2,20
table lo
row lo 1,1
table hi
row hi 2,20
end switched
";

// Who asks for the source while it drains is answered that before all else about its row, and gives up at once.
const LATECOMERS: &[u8] = b"table t id:int* v:int
row t 1,1
change part t if v<10 into lo hi
retries 0
c1 begin
c1 update t 1,10
p start
p scan 64
p switch
c2 begin
c2 insert t 1,NULL
c2 commit
c2 delete t 1
c3 begin
c3 delete t 1
c3 commit
c1 insert t 2,NULL
c1 insert t 2,2
";

const LATECOMERS_REPORT: &[u8] = b"journal
1 c1 begin begun 1
2 c1 update t done 2 1,10
3 p start started 3
4 p scan 64 0 end 2
5 p switch conflict 1
6 c2 begin begun 2
7 c2 insert t draining 1,NULL
8 c2 undo aborted 4
9 c2 delete t notxn 1
10 c3 begin begun 3
11 c3 delete t draining 1
12 c3 undo aborted 5
13 c1 insert t badrow null 2 2,NULL
14 c1 insert t done 6 2,2
15 c1 undo undone 7
16 c1 undo undone 8
17 c1 undo aborted 9
18 p fetch 256 fetched 3 9
19 p switch switched 10
log
1 0 put t 1,1
2 1 put t 1,10
3 p mark
4 2 abort
5 3 abort
6 1 put t 2,2
7 1 back 6 del t 2
8 1 back 2 put t 1,1
9 1 abort
10 p switch
tables
table t
row t 1,1
table lo
row lo 1,1
table hi
end switched
";

// The new names are unknown before the start and hidden before the switch; behind it the source is gone.
const NAMES: &[u8] = b"table t id:int* v:int
row t 1,1
change part t if v<10 into lo hi
c1 begin
c1 read lo 1
c1 insert hi 5,50
p start
c1 read lo 1
c1 insert hi 5,NULL
c1 delete lo 1
c1 read t 1
c1 commit
p scan 64
p switch
c1 begin
c1 read t 1
c1 insert t 2,NULL
c1 update t 1,2
c1 delete t 1
c1 read lo 1
c1 read hi 1
c1 commit
";

const NAMES_REPORT: &[u8] = b"journal
1 c1 begin begun 1
2 c1 read lo notable 1
3 c1 insert hi notable 5,50
4 p start started 2
5 c1 read lo hidden 1
6 c1 insert hi hidden 5,NULL
7 c1 delete lo hidden 1
8 c1 read t row 1,1
9 c1 commit committed 3
10 p scan 64 0 end 1
11 p switch switched 4
12 c1 begin begun 2
13 c1 read t gone 1
14 c1 insert t gone 2,NULL
15 c1 update t gone 1,2
16 c1 delete t gone 1
17 c1 read lo row 1,1
18 c1 read hi absent 1
19 c1 commit committed 5
log
1 0 put t 1,1
2 p mark
3 1 commit
4 p switch
5 2 commit
tables
table t
row t 1,1
table lo
row lo 1,1
table hi
end switched
";

// Behind the switch the new tables have keys and locks of their own: a request is held, writes are undone and read back.
const NEW_TABLES: &[u8] = b"table t id:int* v:int
row t 1,1
row t 2,20
change part t if v<10 into lo hi
retries 0
p start
p scan 64
p switch
c1 begin
c1 update lo 1,50
c2 begin
c2 read lo 1
c2 commit
c2 begin
c2 insert hi 1,11
c2 read hi 1
c2 insert lo 3,3
c2 delete hi 2
c2 abort
c1 read lo 3
c1 insert lo 1,9
c1 update hi 9,9
c1 delete lo NULL
c1 commit
c2 begin
c2 read lo 1
c2 read hi 2
c2 update hi 2,21
c2 insert lo 4,4
";

const NEW_TABLES_REPORT: &[u8] = b"journal
1 p start started 3
2 p scan 64 0 end 1 2
3 p switch switched 4
4 c1 begin begun 1
5 c1 update lo done 5 1,50
6 c2 begin begun 2
7 c2 read lo held 1 1
8 c2 undo aborted 6
9 c2 begin begun 3
10 c2 insert hi done 7 1,11
11 c2 read hi row 1,11
12 c2 insert lo done 8 3,3
13 c2 delete hi done 9 2
14 c2 undo undone 10
15 c2 undo undone 11
16 c2 undo undone 12
17 c2 undo aborted 13
18 c1 read lo absent 3
19 c1 insert lo exists 1,9
20 c1 update hi missing 9,9
21 c1 delete lo badrow null 1 NULL
22 c1 commit committed 14
23 c2 begin begun 4
24 c2 read lo row 1,50
25 c2 read hi row 2,20
26 c2 update hi done 15 2,21
27 c2 insert lo done 16 4,4
28 c2 undo undone 17
29 c2 undo undone 18
30 c2 undo aborted 19
log
1 0 put t 1,1
2 0 put t 2,20
3 p mark
4 p switch
5 1 put lo 1,50
6 2 abort
7 3 put hi 1,11
8 3 put lo 3,3
9 3 del hi 2
10 3 back 9 put hi 2,20
11 3 back 8 del lo 3
12 3 back 7 del hi 1
13 3 abort
14 1 commit
15 4 put hi 2,21
16 4 put lo 4,4
17 4 back 16 del lo 4
18 4 back 15 put hi 2,20
19 4 abort
tables
table t
row t 1,1
row t 2,20
table lo
row lo 1,50
table hi
row hi 2,20
end switched
";

// Each script with its report; each ends with the switch.
const SCRIPTS: [(&str, &[u8], &[u8]); 5] = [
    ("a reader turned away", DRAINING, DRAINING_REPORT),
    ("two that hinder", HOLDERS, HOLDERS_REPORT),
    ("requests while it drains", LATECOMERS, LATECOMERS_REPORT),
    ("names before and behind", NAMES, NAMES_REPORT),
    ("writes on the new tables", NEW_TABLES, NEW_TABLES_REPORT),
];

#[test]
fn a_switch_waits_for_the_source(rt: HostRuntime) -> Result<(), Fail> {
    for (name, script, rest) in SCRIPTS {
        assert_switched(&rt, rt.alloc(), name, script, rest)?;
    }
    Ok(())
}
