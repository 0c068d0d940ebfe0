// Worked scripts, and scripts with the faults that people make.
use crate::*;
use std::alloc::{AllocError, Global};
use std::process::Abort;
use std::test::Fail;
use sx_journal::Command;
use sx_lists::{Copied, List};
use sx_log::Load;
use sx_ops::Spec;
use sx_sync::Strategy;
use sx_values::Declared;

// Spelled otherwise than it is printed: a comment, an empty line, quotes that aren't needed, no last line feed.
fn orders() -> &'static [u8] {
    b"# orders\n\
      table t id:int* name:text note:text?\n\
      table u a:text* b:int*\n\
      \n\
      row t 1,\"Ole\",NULL\n\
      row u 1,1\n\
      row t -9,\"a \"\"b\"\", c\",\"\"\n\
      change part t if name<>'O''Hara, \"x\"' into low_1 high_2\n\
      retries 3\n\
      c8 begin\n\
      c1 begin\n\
      c1 update t 1,NULL,NULL\n\
      c8 read u x,1\n\
      c1 delete t 2\n\
      c8 insert u NULL,2\n\
      c1 abort\n\
      c8 commit"
}

// The same script as it is printed.
fn orders_text() -> &'static [u8] {
    b"table t id:int* name:text note:text?\n\
      table u a:text* b:int*\n\
      row t 1,Ole,NULL\n\
      row u 1,1\n\
      row t -9,\"a \"\"b\"\", c\",\n\
      change part t if name<>'O''Hara, \"x\"' into low_1 high_2\n\
      retries 3\n\
      c8 begin\n\
      c1 begin\n\
      c1 update t 1,NULL,NULL\n\
      c8 read u x,1\n\
      c1 delete t 2\n\
      c8 insert u NULL,2\n\
      c1 abort\n\
      c8 commit\n"
}

// A script whose clients and propagator take turns, spelled otherwise than it is printed.
fn turns() -> &'static [u8] {
    b"table t id:int* v:text?\n\
      change part t if id>=0 and id<100 and v<>'x' and v<'y' into yes no\n\
      row t 5,a\n\
      strategy blocking\n\
      # steps\n\
      c1 begin\n\
      p start\n\
      p scan 64\n\
      c1 insert yes 7,\"b\"\n\
      p check\n\
      c2 read no -7\n\
      p fetch 256\n\
      c1 commit\n\
      p switch"
}

// The same script as it is printed.
fn turns_text() -> &'static [u8] {
    b"table t id:int* v:text?\n\
      change part t if id>=0 and id<100 and v<>'x' and v<'y' into yes no\n\
      row t 5,a\n\
      strategy blocking\n\
      c1 begin\n\
      p start\n\
      p scan 64\n\
      c1 insert yes 7,b\n\
      p check\n\
      c2 read no -7\n\
      p fetch 256\n\
      c1 commit\n\
      p switch\n"
}

fn read_turns(alloc: Global) -> Result<Script, ScriptFault> {
    parse_script(alloc, turns())
}

fn read_orders(alloc: Global) -> Result<Script, ScriptFault> {
    parse_script(alloc, orders())
}

// What is printed of the script that a text is.
fn printed(alloc: Global, text: &[u8]) -> Result<List<u8>, ScriptFault> {
    let script = parse_script(alloc, text)?;
    Ok(print_script(alloc, &script)?)
}

fn assert_printed(
    rt: &impl Abort,
    alloc: Global,
    text: &[u8],
    wanted: &[u8],
) -> Result<(), ScriptFault> {
    let printed = printed(alloc, text)?;
    assert_eq!(rt; printed.as_slice(), wanted);
    Ok(())
}

#[test]
fn a_script_is_read_and_printed(rt: HostRuntime) -> Result<(), ScriptFault> {
    assert_printed(&rt, rt.alloc(), orders(), orders_text())
}

#[test]
fn what_is_printed_is_read_again(rt: HostRuntime) -> Result<(), ScriptFault> {
    assert_printed(&rt, rt.alloc(), orders_text(), orders_text())
}

#[test]
fn turns_are_read_and_printed(rt: HostRuntime) -> Result<(), ScriptFault> {
    assert_printed(&rt, rt.alloc(), turns(), turns_text())
}

#[test]
fn printed_turns_are_read_again(rt: HostRuntime) -> Result<(), ScriptFault> {
    assert_printed(&rt, rt.alloc(), turns_text(), turns_text())
}

fn put_copy(alloc: Global, out: &mut Vec<u8>, script: &Script) -> Result<(), AllocError> {
    let copied = script.copy(alloc)?;
    put_script(alloc, out, &copied)
}

// Puts what is printed of a copy of the script that a text is at the end.
fn put_copied(alloc: Global, out: &mut Vec<u8>, text: &[u8]) -> Result<(), ScriptFault> {
    let script = parse_script(alloc, text)?;
    Ok(put_copy(alloc, out, &script)?)
}

fn assert_text(rt: &impl Abort, text: &[u8], wanted: &[u8]) {
    assert_eq!(rt; text, wanted);
}

#[test]
fn a_copy_is_put_behind_other_bytes(rt: HostRuntime) -> Result<(), Fail> {
    let alloc = rt.alloc();
    let mut out = Vec::from_slice(alloc, b"script\n")?;
    put_copied(alloc, &mut out, b"c1 begin\n\nc1 commit")?;
    assert_text(&rt, &out, b"script\nc1 begin\nc1 commit\n");
    Ok(())
}

// Puts the text of a line that has one and a line feed at the end.
fn put_ended(alloc: Global, out: &mut Vec<u8>, line: &Line) -> Result<(), AllocError> {
    match line {
        Line::Change {
            spec: Spec::Join { .. } | Spec::Split { .. } | Spec::Union { .. },
        } => {}
        line => put_line(alloc, out, line)?,
    }
    out.extend_from_slice(b"\n")
}

fn put_table(alloc: Global, out: &mut Vec<u8>, table: &Declared) -> Result<(), AllocError> {
    let name = table.name.copy(alloc)?;
    let schema = table.schema.copy(alloc)?;
    put_ended(alloc, out, &Line::Table { name, schema })
}

fn put_tables(alloc: Global, out: &mut Vec<u8>, tables: &[Declared]) -> Result<(), AllocError> {
    for table in tables {
        put_table(alloc, out, table)?;
    }
    Ok(())
}

fn put_catalog(alloc: Global, out: &mut Vec<u8>, script: &Script) -> Result<(), AllocError> {
    let catalog = script.catalog(alloc)?;
    put_tables(alloc, out, catalog.tables())
}

#[test]
fn tables_are_declared(rt: HostRuntime) -> Result<(), Fail> {
    let alloc = rt.alloc();
    let script = read_orders(alloc)?;
    let mut out = Vec::new(alloc);
    put_catalog(alloc, &mut out, &script)?;
    assert_text(&rt, &out, tables_text());
    Ok(())
}

#[test]
fn new_tables_are_not_declared(rt: HostRuntime) -> Result<(), Fail> {
    let alloc = rt.alloc();
    let script = read_turns(alloc)?;
    let mut out = Vec::new(alloc);
    put_catalog(alloc, &mut out, &script)?;
    assert_text(&rt, &out, b"table t id:int* v:text?\n");
    Ok(())
}

fn tables_text() -> &'static [u8] {
    b"table t id:int* name:text note:text?\n\
      table u a:text* b:int*\n"
}

fn put_load(alloc: Global, out: &mut Vec<u8>, load: &Load) -> Result<(), AllocError> {
    let table = load.table.copy(alloc)?;
    let row = load.row.copy(alloc)?;
    put_ended(alloc, out, &Line::Row { table, row })
}

fn put_loads(alloc: Global, out: &mut Vec<u8>, loads: &[Load]) -> Result<(), AllocError> {
    for load in loads {
        put_load(alloc, out, load)?;
    }
    Ok(())
}

fn put_rows(alloc: Global, out: &mut Vec<u8>, script: &Script) -> Result<(), AllocError> {
    let loads = script.loads(alloc)?;
    put_loads(alloc, out, loads.as_slice())
}

#[test]
fn rows_are_loaded(rt: HostRuntime) -> Result<(), Fail> {
    let alloc = rt.alloc();
    let script = read_orders(alloc)?;
    let mut out = Vec::new(alloc);
    put_rows(alloc, &mut out, &script)?;
    assert_text(&rt, &out, rows_text());
    Ok(())
}

fn rows_text() -> &'static [u8] {
    b"row t 1,Ole,NULL\n\
      row u 1,1\n\
      row t -9,\"a \"\"b\"\", c\",\n"
}

// Puts what a client does at the end, as if it were client 8.
fn put_command(alloc: Global, out: &mut Vec<u8>, command: &Command) -> Result<(), AllocError> {
    let what = command.what.copy(alloc)?;
    put_ended(alloc, out, &Line::Client { n: 8, what })
}

fn put_commands(alloc: Global, out: &mut Vec<u8>, commands: &[Command]) -> Result<(), AllocError> {
    for command in commands {
        put_command(alloc, out, command)?;
    }
    Ok(())
}

#[test]
fn a_client_has_the_commands_of_its_lines(rt: HostRuntime) -> Result<(), Fail> {
    let alloc = rt.alloc();
    let commands = read_orders(alloc)?.commands_of(alloc, 8)?;
    let mut out = Vec::new(alloc);
    put_commands(alloc, &mut out, commands.as_slice())?;
    assert_text(&rt, &out, commands_text());
    Ok(())
}

fn commands_text() -> &'static [u8] {
    b"c8 begin\n\
      c8 read u x,1\n\
      c8 insert u NULL,2\n\
      c8 commit\n"
}

// Puts the places of a client's lines at the end.
fn put_places(places: &mut Vec<u64>, commands: &[Command]) -> Result<(), AllocError> {
    for command in commands {
        places.push(command.line)?;
    }
    Ok(())
}

// Comments and empty lines have no place.
#[test]
fn commands_have_the_places_of_their_lines(rt: HostRuntime) -> Result<(), Fail> {
    let alloc = rt.alloc();
    let commands = read_orders(alloc)?.commands_of(alloc, 8)?;
    let mut places = Vec::new(alloc);
    put_places(&mut places, commands.as_slice())?;
    assert_eq!(rt; places.as_slice(), [8, 11, 13, 15].as_slice());
    Ok(())
}

#[test]
fn a_client_without_lines_has_no_commands(rt: HostRuntime) -> Result<(), Fail> {
    let alloc = rt.alloc();
    let commands = read_orders(alloc)?.commands_of(alloc, 2)?;
    assert!(rt; commands.is_empty());
    Ok(())
}

#[test]
fn each_client_line_has_its_client(rt: HostRuntime) -> Result<(), Fail> {
    let alloc = rt.alloc();
    let clients = read_orders(alloc)?.clients(alloc)?;
    assert_eq!(rt; clients.as_slice(), [8, 1, 1, 8, 1, 8, 1, 8].as_slice());
    Ok(())
}

// Puts what the propagator does, and the place of each of its lines.
fn put_paces(
    alloc: Global,
    out: &mut Vec<u8>,
    places: &mut Vec<u64>,
    paces: &[Pace],
) -> Result<(), AllocError> {
    for pace in paces {
        put_ended(alloc, out, &Line::Pace(pace.what()))?;
        places.push(pace.line())?;
    }
    Ok(())
}

#[test]
fn the_propagator_has_its_lines_and_their_places(rt: HostRuntime) -> Result<(), Fail> {
    let alloc = rt.alloc();
    let paces = read_turns(alloc)?.paces(alloc)?.copy(alloc)?;
    let mut out = Vec::new(alloc);
    let mut places = Vec::new(alloc);
    put_paces(alloc, &mut out, &mut places, paces.as_slice())?;
    assert_text(&rt, &out, paces_text());
    assert_eq!(rt; places.as_slice(), [6, 7, 9, 11, 13].as_slice());
    Ok(())
}

fn paces_text() -> &'static [u8] {
    b"p start\n\
      p scan 64\n\
      p check\n\
      p fetch 256\n\
      p switch\n"
}

#[test]
fn lines_of_the_propagator_take_places_of_clients_lines(rt: HostRuntime) -> Result<(), Fail> {
    let alloc = rt.alloc();
    let commands = read_turns(alloc)?.commands_of(alloc, 1)?;
    let mut places = Vec::new(alloc);
    put_places(&mut places, commands.as_slice())?;
    assert_eq!(rt; places.as_slice(), [5, 8, 12].as_slice());
    Ok(())
}

#[test]
fn a_script_without_lines_of_the_propagator_has_none(rt: HostRuntime) -> Result<(), Fail> {
    let alloc = rt.alloc();
    let paces = read_orders(alloc)?.paces(alloc)?;
    assert!(rt; paces.is_empty());
    Ok(())
}

#[test]
fn the_switch_waits_whether_a_script_says_so_or_not(rt: HostRuntime) -> Result<(), ScriptFault> {
    let said = read_turns(rt.alloc())?;
    assert_eq!(rt; said.strategy(), Strategy::Blocking);
    let unsaid = read_orders(rt.alloc())?;
    assert_eq!(rt; unsaid.strategy(), Strategy::Blocking);
    Ok(())
}

fn assert_retries(rt: &impl Abort, alloc: Global, text: &[u8], n: u8) -> Result<(), ScriptFault> {
    let script = parse_script(alloc, text)?;
    assert_eq!(rt; script.retries(), n);
    Ok(())
}

#[test]
fn repeats_are_as_many_as_said(rt: HostRuntime) -> Result<(), ScriptFault> {
    assert_retries(&rt, rt.alloc(), orders(), 3)
}

#[test]
fn there_may_be_no_repeats(rt: HostRuntime) -> Result<(), ScriptFault> {
    assert_retries(&rt, rt.alloc(), b"retries 0", 0)
}

#[test]
fn repeats_are_eight_where_nothing_is_said(rt: HostRuntime) -> Result<(), ScriptFault> {
    assert_retries(&rt, rt.alloc(), b"c1 begin", 8)
}

fn put_change(alloc: Global, out: &mut Vec<u8>, script: &Script) -> Result<(), AllocError> {
    match script.change() {
        Some(spec) => put_spec(alloc, out, spec),
        None => Ok(()),
    }
}

fn put_spec(alloc: Global, out: &mut Vec<u8>, spec: &Spec) -> Result<(), AllocError> {
    let spec = spec.copy(alloc)?;
    put_ended(alloc, out, &Line::Change { spec })
}

#[test]
fn the_change_is_found(rt: HostRuntime) -> Result<(), Fail> {
    let alloc = rt.alloc();
    let script = read_orders(alloc)?;
    let mut out = Vec::new(alloc);
    put_change(alloc, &mut out, &script)?;
    assert_text(&rt, &out, change_text());
    Ok(())
}

fn change_text() -> &'static [u8] {
    b"change part t if name<>'O''Hara, \"x\"' into low_1 high_2\n"
}

fn put_at(alloc: Global, out: &mut Vec<u8>, script: &Script, place: u64) -> Result<(), AllocError> {
    match script.at(place) {
        Some(line) => put_ended(alloc, out, line),
        None => Ok(()),
    }
}

#[test]
fn a_line_is_found_at_its_place(rt: HostRuntime) -> Result<(), Fail> {
    let alloc = rt.alloc();
    let script = read_orders(alloc)?;
    let mut out = Vec::new(alloc);
    put_at(alloc, &mut out, &script, 10)?;
    assert_text(&rt, &out, b"c1 update t 1,NULL,NULL\n");
    Ok(())
}

#[test]
fn the_last_place_is_the_number_of_lines(rt: HostRuntime) -> Result<(), ScriptFault> {
    let script = read_orders(rt.alloc())?;
    assert_eq!(rt; script.len(), 15);
    assert!(rt; script.at(15).is_some());
    assert!(rt; script.at(16).is_none());
    assert!(rt; !script.is_empty());
    Ok(())
}
