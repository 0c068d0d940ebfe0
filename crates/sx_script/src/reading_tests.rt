// Texts that are scripts, and texts with the faults that people make.
use crate::*;
use std::alloc::{AllocError, Global};
use std::process::Abort;
use std::test::Fail;
use sx_lists::Copied;

fn assert_read(rt: &impl Abort, alloc: Global, text: &[u8]) {
    let read = parse_script(alloc, text);
    assert!(rt; read.is_ok());
}

#[test]
fn an_empty_text_is_a_script(rt: HostRuntime) {
    assert_read(&rt, rt.alloc(), b"");
}

#[test]
fn a_row_may_stand_behind_the_change(rt: HostRuntime) {
    assert_read(
        &rt,
        rt.alloc(),
        b"table t id:int*\nchange part t if id>=0 into a b\nrow t 1",
    );
}

#[test]
fn repeats_may_stand_behind_the_change(rt: HostRuntime) {
    assert_read(
        &rt,
        rt.alloc(),
        b"table t id:int*\nchange part t if id>=0 into a b\nretries 8\nc1 begin",
    );
}

#[test]
fn a_clients_lines_may_stand_in_any_order(rt: HostRuntime) {
    assert_read(
        &rt,
        rt.alloc(),
        b"table t id:int*\nc3 commit\nc3 insert t 1\nc3 abort\nc4 begin",
    );
}

#[test]
fn steps_may_be_the_propagators_alone(rt: HostRuntime) {
    assert_read(
        &rt,
        rt.alloc(),
        b"table t id:int*\nchange part t if id>=0 into a b\np switch\np start\np start",
    );
}

#[test]
fn a_strategy_may_stand_before_the_tables(rt: HostRuntime) {
    assert_read(&rt, rt.alloc(), b"strategy blocking\ntable t id:int*");
}

#[test]
fn four_tests_may_be_asked(rt: HostRuntime) {
    assert_read(
        &rt,
        rt.alloc(),
        b"table t id:int*\nchange part t if id>1 and id>2 and id>3 and id>4 into a b",
    );
}

#[test]
fn both_new_tables_may_be_named(rt: HostRuntime) {
    assert_read(
        &rt,
        rt.alloc(),
        b"table t id:int*\nchange part t if id>=0 into a b\nc1 insert a 1\nc1 delete b 1",
    );
}

#[test]
fn new_tables_do_not_count_among_the_sixteen(rt: HostRuntime) -> Result<(), AllocError> {
    let text = with_sixteen_tables(
        rt.alloc(),
        b"change part a if k>0 into yes no\nc1 read no 1",
    )?;
    assert_read(&rt, rt.alloc(), &text);
    Ok(())
}

// Declares sixteen tables, and goes on by these lines.
fn with_sixteen_tables(alloc: Global, rest: &[u8]) -> Result<Vec<u8>, AllocError> {
    let mut text = Vec::from_slice(alloc, sixteen_tables())?;
    text.extend_from_slice(rest)?;
    Ok(text)
}

fn sixteen_tables() -> &'static [u8] {
    b"table a k:int*\n\
      table b k:int*\n\
      table c k:int*\n\
      table d k:int*\n\
      table e k:int*\n\
      table f k:int*\n\
      table g k:int*\n\
      table h k:int*\n\
      table i k:int*\n\
      table j k:int*\n\
      table k k:int*\n\
      table l k:int*\n\
      table m k:int*\n\
      table n k:int*\n\
      table o k:int*\n\
      table p k:int*\n"
}

#[test]
fn sixteen_tables_may_have_rows_of_one_key(rt: HostRuntime) -> Result<(), AllocError> {
    let text = with_sixteen_tables(rt.alloc(), b"row a 1\nrow p 1\nrow a 2")?;
    assert_read(&rt, rt.alloc(), &text);
    Ok(())
}

#[test]
fn a_seventeenth_table_is_refused(rt: HostRuntime) -> Result<(), AllocError> {
    let text = with_sixteen_tables(rt.alloc(), b"table q k:int*")?;
    assert_refused(&rt, rt.alloc(), &text);
    Ok(())
}

const LATER: ScriptFault = ScriptFault::Bad {
    line: 0,
    cause: ScriptCause::Later,
};

fn assert_refused(rt: &impl Abort, alloc: Global, text: &[u8]) {
    let fault = parse_script(alloc, text).err();
    assert_eq!(rt; fault, Some(LATER));
}

#[test]
fn a_row_without_its_last_field_is_refused(rt: HostRuntime) {
    assert_refused(&rt, rt.alloc(), b"table t id:int* q:int?\nrow t 1");
}

#[test]
fn a_row_with_a_field_too_many_is_refused(rt: HostRuntime) {
    assert_refused(&rt, rt.alloc(), b"table t id:int* q:int?\nrow t 1,2,3");
}

#[test]
fn a_number_with_a_leading_zero_is_refused(rt: HostRuntime) {
    assert_refused(&rt, rt.alloc(), b"table t id:int* q:int?\nrow t 1,05");
}

#[test]
fn a_null_where_none_may_be_is_refused(rt: HostRuntime) {
    assert_refused(&rt, rt.alloc(), b"table t id:int* q:int\nrow t 1,NULL");
}

#[test]
fn a_key_that_stands_twice_is_refused(rt: HostRuntime) {
    assert_refused(
        &rt,
        rt.alloc(),
        b"table t id:int* q:int\nrow t 1,2\nrow t 1,3",
    );
}

#[test]
fn a_key_that_stands_twice_with_another_table_between_is_refused(rt: HostRuntime) {
    assert_refused(
        &rt,
        rt.alloc(),
        b"table t id:int*\nrow t 1\ntable u id:int*\nrow u 1\nrow t 1",
    );
}

#[test]
fn a_table_without_a_key_is_refused(rt: HostRuntime) {
    assert_refused(&rt, rt.alloc(), b"table t id:int");
}

#[test]
fn a_table_that_is_declared_twice_is_refused(rt: HostRuntime) {
    assert_refused(&rt, rt.alloc(), b"table t id:int*\ntable t id:int*");
}

#[test]
fn a_table_behind_the_change_is_refused(rt: HostRuntime) {
    assert_refused(
        &rt,
        rt.alloc(),
        b"table t id:int*\nchange part t if id>=0 into a b\ntable u id:int*",
    );
}

#[test]
fn a_table_behind_a_clients_line_is_refused(rt: HostRuntime) {
    assert_refused(&rt, rt.alloc(), b"c1 begin\ntable t id:int*");
}

#[test]
fn a_row_of_no_table_is_refused(rt: HostRuntime) {
    assert_refused(&rt, rt.alloc(), b"table t id:int*\nrow u 1");
}

#[test]
fn a_row_before_its_table_is_refused(rt: HostRuntime) {
    assert_refused(&rt, rt.alloc(), b"row t 1\ntable t id:int*");
}

#[test]
fn a_read_of_no_table_is_refused(rt: HostRuntime) {
    assert_refused(&rt, rt.alloc(), b"c1 read t 1");
}

#[test]
fn a_constant_of_another_kind_is_refused(rt: HostRuntime) {
    assert_refused(
        &rt,
        rt.alloc(),
        b"table t id:int*\nchange part t if id<'a' into low high",
    );
}

#[test]
fn a_second_change_is_refused(rt: HostRuntime) {
    assert_refused(
        &rt,
        rt.alloc(),
        b"table t id:int*\nchange part t if id<1 into a b\nchange part t if id<2 into c d",
    );
}

#[test]
fn a_change_behind_a_clients_line_is_refused(rt: HostRuntime) {
    assert_refused(
        &rt,
        rt.alloc(),
        b"table t id:int*\nc1 begin\nchange part t if id<1 into a b",
    );
}

#[test]
fn a_row_behind_a_clients_line_is_refused(rt: HostRuntime) {
    assert_refused(
        &rt,
        rt.alloc(),
        b"table t id:int*\nc1 begin\nrow t 1\nc1 commit",
    );
}

#[test]
fn a_line_of_the_propagator_before_the_change_is_refused(rt: HostRuntime) {
    assert_refused(
        &rt,
        rt.alloc(),
        b"table t id:int*\np start\nchange part t if id<1 into a b",
    );
}

#[test]
fn a_line_of_the_propagator_without_a_change_is_refused(rt: HostRuntime) {
    assert_refused(&rt, rt.alloc(), b"table t id:int*\nc1 begin\np start");
}

// Goes on by these lines behind a declared table, a change and a line of the propagator.
fn behind_a_step(alloc: Global, rest: &[u8]) -> Result<Vec<u8>, AllocError> {
    let front = b"table t id:int*\nchange part t if id<1 into a b\np start\n";
    let mut text = Vec::from_slice(alloc, front)?;
    text.extend_from_slice(rest)?;
    Ok(text)
}

#[test]
fn a_step_may_stand_behind_a_line_of_the_propagator(rt: HostRuntime) -> Result<(), AllocError> {
    let text = behind_a_step(rt.alloc(), b"p fetch 1\nc1 begin")?;
    assert_read(&rt, rt.alloc(), &text);
    Ok(())
}

#[test]
fn a_row_behind_a_line_of_the_propagator_is_refused(rt: HostRuntime) -> Result<(), AllocError> {
    let text = behind_a_step(rt.alloc(), b"row t 1")?;
    assert_refused(&rt, rt.alloc(), &text);
    Ok(())
}

#[test]
fn repeats_behind_a_line_of_the_propagator_are_refused(rt: HostRuntime) -> Result<(), AllocError> {
    let text = behind_a_step(rt.alloc(), b"retries 1")?;
    assert_refused(&rt, rt.alloc(), &text);
    Ok(())
}

#[test]
fn a_strategy_behind_a_line_of_the_propagator_is_refused(
    rt: HostRuntime,
) -> Result<(), AllocError> {
    let text = behind_a_step(rt.alloc(), b"strategy blocking")?;
    assert_refused(&rt, rt.alloc(), &text);
    Ok(())
}

#[test]
fn a_scan_of_too_many_rows_is_refused(rt: HostRuntime) -> Result<(), AllocError> {
    let text = behind_a_step(rt.alloc(), b"p scan 65")?;
    assert_refused(&rt, rt.alloc(), &text);
    Ok(())
}

#[test]
fn a_row_of_another_width_than_a_new_table_is_refused(rt: HostRuntime) -> Result<(), AllocError> {
    let text = behind_a_step(rt.alloc(), b"c1 insert a 1,2")?;
    assert_refused(&rt, rt.alloc(), &text);
    Ok(())
}

#[test]
fn a_row_of_a_new_table_is_refused(rt: HostRuntime) {
    assert_refused(
        &rt,
        rt.alloc(),
        b"table t id:int*\nchange part t if id<1 into a b\nrow a 1",
    );
}

#[test]
fn five_tests_are_refused(rt: HostRuntime) {
    assert_refused(
        &rt,
        rt.alloc(),
        b"table t id:int*\nchange part t if id>1 and id>2 and id>3 and id>4 and id>5 into a b",
    );
}

#[test]
fn another_strategy_is_refused(rt: HostRuntime) {
    assert_refused(&rt, rt.alloc(), b"strategy abort");
    assert_refused(&rt, rt.alloc(), b"strategy commit");
}

#[test]
fn a_strategy_that_is_said_twice_is_refused(rt: HostRuntime) {
    assert_refused(&rt, rt.alloc(), b"strategy blocking\nstrategy blocking");
}

#[test]
fn a_strategy_behind_a_clients_line_is_refused(rt: HostRuntime) {
    assert_refused(&rt, rt.alloc(), b"c1 begin\nstrategy blocking");
}

#[test]
fn nine_repeats_are_refused(rt: HostRuntime) {
    assert_refused(&rt, rt.alloc(), b"retries 9");
}

#[test]
fn repeats_that_are_said_twice_are_refused(rt: HostRuntime) {
    assert_refused(&rt, rt.alloc(), b"retries 1\nretries 1");
}

#[test]
fn repeats_behind_a_clients_line_are_refused(rt: HostRuntime) {
    assert_refused(&rt, rt.alloc(), b"c1 begin\nretries 1");
}

#[test]
fn a_client_0_is_refused(rt: HostRuntime) {
    assert_refused(&rt, rt.alloc(), b"c0 begin");
}

#[test]
fn a_client_9_is_refused(rt: HostRuntime) {
    assert_refused(&rt, rt.alloc(), b"c9 begin");
}

#[test]
fn a_key_of_another_width_is_refused(rt: HostRuntime) {
    assert_refused(&rt, rt.alloc(), b"table t id:int*\nc1 read t 1,2");
}

#[test]
fn a_byte_that_is_not_printable_is_refused(rt: HostRuntime) {
    assert_refused(&rt, rt.alloc(), b"# a tab\there");
}

fn assert_copied(rt: &impl Abort, alloc: Global, fault: ScriptFault) -> Result<(), AllocError> {
    let copied = fault.copy(alloc)?;
    assert_eq!(rt; copied, fault);
    Ok(())
}

#[test]
fn want_of_memory_is_copied(rt: HostRuntime) -> Result<(), AllocError> {
    assert_copied(&rt, rt.alloc(), ScriptFault::Memory)
}

#[test]
fn a_fault_of_the_whole_is_copied(rt: HostRuntime) -> Result<(), AllocError> {
    assert_copied(&rt, rt.alloc(), LATER)
}

#[test]
fn causes_are_copied(rt: HostRuntime) -> Result<(), AllocError> {
    let copied = ScriptCause::Key.copy(rt.alloc())?;
    assert_eq!(rt; copied, ScriptCause::Key);
    Ok(())
}
