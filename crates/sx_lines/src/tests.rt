// A line of each form, and lines of no form.
ghost use Rattle.sx_values.specs.SchemaFaults.{IsDeclarable};
ghost use Rattle.sx_values.specs.Catalogs.{HasShortNames};

use crate::*;
use std::alloc::{AllocError, Global};
use std::process::Abort;
use std::test::Fail;
use sx_lists::Copied;
use sx_ops::Spec;
use sx_sync::Strategy;
use sx_values::{Catalog, Name, Names, Schema};

fn declare(catalog: &mut Catalog, name: Name, schema: Schema) -> Result<(), Fail>
    requires declarable { IsDeclarable schema }
    requires short_names { HasShortNames schema }
{
    catalog.declare(name, schema)?;
    Ok(())
}

// Declares the table of a line, if it is such a line.
fn declare_shown(alloc: Global, catalog: &mut Catalog, text: &[u8]) -> Result<(), Fail> {
    match line_of(alloc, catalog, text)? {
        Some(Line::Table { name, schema }) => declare(catalog, name, schema),
        _ => Ok(()),
    }
}

fn two_tables(alloc: Global) -> Result<Catalog, Fail> {
    let mut catalog = Catalog::new(alloc);
    declare_shown(alloc, &mut catalog, b"table t id:int* v:int?")?;
    declare_shown(alloc, &mut catalog, b"table u a:text* b:int* c:text")?;
    Ok(catalog)
}

// Puts the text of a line that has one at the end.
fn put_text(alloc: Global, out: &mut Vec<u8>, line: &Line) -> Result<(), AllocError> {
    match line {
        Line::Change {
            spec: Spec::Join { .. } | Spec::Split { .. } | Spec::Union { .. },
        } => Ok(()),
        line => put_line(alloc, out, line),
    }
}

// Puts the text of a copy of a line at the end.
fn put_copied(alloc: Global, out: &mut Vec<u8>, line: &Line) -> Result<(), AllocError> {
    let copied = line.copy(alloc)?;
    put_text(alloc, out, &copied)
}

// Puts the text of the line that a text shows at the end, if it shows one.
fn put_again(
    alloc: Global,
    out: &mut Vec<u8>,
    catalog: &Catalog,
    text: &[u8],
) -> Result<(), AllocError> {
    match line_of(alloc, catalog, text)? {
        Some(line) => put_copied(alloc, out, &line),
        None => Ok(()),
    }
}

// The text of the line that a text shows, where there are two tables.
fn again(alloc: Global, text: &[u8]) -> Result<Vec<u8>, Fail> {
    let catalog = two_tables(alloc)?;
    let mut out = Vec::new(alloc);
    put_again(alloc, &mut out, &catalog, text)?;
    Ok(out)
}

// A text shows a line of which it is the text.
fn assert_again(rt: &impl Abort, alloc: Global, text: &[u8]) -> Result<(), Fail> {
    let again = again(alloc, text)?;
    assert_eq!(rt; again.as_slice(), text);
    Ok(())
}

#[test]
fn a_table_is_read_and_printed(rt: HostRuntime) -> Result<(), Fail> {
    assert_again(&rt, rt.alloc(), b"table items a:int* b:text? c:text*")
}

#[test]
fn a_row_with_null_is_read_and_printed(rt: HostRuntime) -> Result<(), Fail> {
    assert_again(&rt, rt.alloc(), b"row t 1,NULL")
}

#[test]
fn a_row_of_three_fields_is_read_and_printed(rt: HostRuntime) -> Result<(), Fail> {
    assert_again(&rt, rt.alloc(), b"row u \"a,\"\"b\",-7,")
}

#[test]
fn a_change_is_read_and_printed(rt: HostRuntime) -> Result<(), Fail> {
    assert_again(&rt, rt.alloc(), b"change part t if v>=10 into high low")
}

#[test]
fn no_repeats_are_read_and_printed(rt: HostRuntime) -> Result<(), Fail> {
    assert_again(&rt, rt.alloc(), b"retries 0")
}

#[test]
fn eight_repeats_are_read_and_printed(rt: HostRuntime) -> Result<(), Fail> {
    assert_again(&rt, rt.alloc(), b"retries 8")
}

#[test]
fn a_begin_of_client_1_is_read_and_printed(rt: HostRuntime) -> Result<(), Fail> {
    assert_again(&rt, rt.alloc(), b"c1 begin")
}

#[test]
fn a_commit_of_client_8_is_read_and_printed(rt: HostRuntime) -> Result<(), Fail> {
    assert_again(&rt, rt.alloc(), b"c8 commit")
}

#[test]
fn an_abort_is_read_and_printed(rt: HostRuntime) -> Result<(), Fail> {
    assert_again(&rt, rt.alloc(), b"c2 abort")
}

#[test]
fn a_read_is_read_and_printed(rt: HostRuntime) -> Result<(), Fail> {
    assert_again(&rt, rt.alloc(), b"c3 read t -5")
}

#[test]
fn a_read_by_a_key_of_two_columns_is_read_and_printed(rt: HostRuntime) -> Result<(), Fail> {
    assert_again(&rt, rt.alloc(), b"c3 read u x,1")
}

#[test]
fn an_insert_is_read_and_printed(rt: HostRuntime) -> Result<(), Fail> {
    assert_again(&rt, rt.alloc(), b"c4 insert t 1,2")
}

#[test]
fn an_update_is_read_and_printed(rt: HostRuntime) -> Result<(), Fail> {
    assert_again(&rt, rt.alloc(), b"c5 update u x,1,NULL")
}

#[test]
fn a_delete_is_read_and_printed(rt: HostRuntime) -> Result<(), Fail> {
    assert_again(&rt, rt.alloc(), b"c6 delete t NULL")
}

#[test]
fn each_strategy_is_read_and_printed(rt: HostRuntime) -> Result<(), Fail> {
    assert_again(&rt, rt.alloc(), b"strategy blocking")?;
    assert_again(&rt, rt.alloc(), b"strategy abort")?;
    assert_again(&rt, rt.alloc(), b"strategy commit")
}

#[test]
fn words_of_the_propagator_are_read_and_printed(rt: HostRuntime) -> Result<(), Fail> {
    assert_again(&rt, rt.alloc(), b"p start")?;
    assert_again(&rt, rt.alloc(), b"p check")?;
    assert_again(&rt, rt.alloc(), b"p switch")
}

#[test]
fn scans_of_1_to_64_rows_are_read_and_printed(rt: HostRuntime) -> Result<(), Fail> {
    assert_again(&rt, rt.alloc(), b"p scan 1")?;
    assert_again(&rt, rt.alloc(), b"p scan 64")
}

#[test]
fn fetches_of_1_to_256_records_are_read_and_printed(rt: HostRuntime) -> Result<(), Fail> {
    assert_again(&rt, rt.alloc(), b"p fetch 1")?;
    assert_again(&rt, rt.alloc(), b"p fetch 256")
}

// A text shows no line, where there are two tables.
fn assert_formless(rt: &impl Abort, alloc: Global, text: &[u8]) -> Result<(), Fail> {
    let catalog = two_tables(alloc)?;
    let line = line_of(alloc, &catalog, text)?;
    assert!(rt; line.is_none());
    Ok(())
}

#[test]
fn a_client_0_has_no_form(rt: HostRuntime) -> Result<(), Fail> {
    assert_formless(&rt, rt.alloc(), b"c0 begin")
}

#[test]
fn a_client_9_has_no_form(rt: HostRuntime) -> Result<(), Fail> {
    assert_formless(&rt, rt.alloc(), b"c9 begin")
}

#[test]
fn a_client_of_two_digits_has_no_form(rt: HostRuntime) -> Result<(), Fail> {
    assert_formless(&rt, rt.alloc(), b"c10 begin")
}

#[test]
fn a_client_without_a_number_has_no_form(rt: HostRuntime) -> Result<(), Fail> {
    assert_formless(&rt, rt.alloc(), b"c begin")
}

#[test]
fn a_client_that_asks_nothing_has_no_form(rt: HostRuntime) -> Result<(), Fail> {
    assert_formless(&rt, rt.alloc(), b"c1")
}

#[test]
fn nine_repeats_have_no_form(rt: HostRuntime) -> Result<(), Fail> {
    assert_formless(&rt, rt.alloc(), b"retries 9")
}

#[test]
fn repeats_with_a_leading_zero_have_no_form(rt: HostRuntime) -> Result<(), Fail> {
    assert_formless(&rt, rt.alloc(), b"retries 08")
}

#[test]
fn repeats_without_a_number_have_no_form(rt: HostRuntime) -> Result<(), Fail> {
    assert_formless(&rt, rt.alloc(), b"retries ")
}

#[test]
fn an_undo_has_no_form(rt: HostRuntime) -> Result<(), Fail> {
    assert_formless(&rt, rt.alloc(), b"c1 undo")
}

#[test]
fn a_begin_with_a_space_behind_it_has_no_form(rt: HostRuntime) -> Result<(), Fail> {
    assert_formless(&rt, rt.alloc(), b"c1 begin ")
}

#[test]
fn an_abort_with_a_word_behind_it_has_no_form(rt: HostRuntime) -> Result<(), Fail> {
    assert_formless(&rt, rt.alloc(), b"c1 abort now")
}

#[test]
fn a_read_of_no_table_has_no_form(rt: HostRuntime) -> Result<(), Fail> {
    assert_formless(&rt, rt.alloc(), b"c1 read w 1")
}

#[test]
fn a_key_with_a_field_missing_has_no_form(rt: HostRuntime) -> Result<(), Fail> {
    assert_formless(&rt, rt.alloc(), b"c1 read u x")
}

#[test]
fn a_key_with_a_field_too_many_has_no_form(rt: HostRuntime) -> Result<(), Fail> {
    assert_formless(&rt, rt.alloc(), b"c1 delete t 1,2")
}

#[test]
fn an_insert_with_a_field_missing_has_no_form(rt: HostRuntime) -> Result<(), Fail> {
    assert_formless(&rt, rt.alloc(), b"c1 insert t 1")
}

#[test]
fn a_row_of_no_table_has_no_form(rt: HostRuntime) -> Result<(), Fail> {
    assert_formless(&rt, rt.alloc(), b"row w 1")
}

#[test]
fn a_table_with_two_columns_of_one_name_has_no_form(rt: HostRuntime) -> Result<(), Fail> {
    assert_formless(&rt, rt.alloc(), b"table w a:int* a:int")
}

#[test]
fn a_table_without_a_key_has_no_form(rt: HostRuntime) -> Result<(), Fail> {
    assert_formless(&rt, rt.alloc(), b"table w a:int")
}

#[test]
fn an_index_is_not_read_yet(rt: HostRuntime) -> Result<(), Fail> {
    assert_formless(&rt, rt.alloc(), b"index t v")
}

#[test]
fn a_strategy_of_no_name_has_no_form(rt: HostRuntime) -> Result<(), Fail> {
    assert_formless(&rt, rt.alloc(), b"strategy block")
}

#[test]
fn a_scan_of_no_rows_has_no_form(rt: HostRuntime) -> Result<(), Fail> {
    assert_formless(&rt, rt.alloc(), b"p scan 0")
}

#[test]
fn a_scan_of_65_rows_has_no_form(rt: HostRuntime) -> Result<(), Fail> {
    assert_formless(&rt, rt.alloc(), b"p scan 65")
}

#[test]
fn a_fetch_of_257_records_has_no_form(rt: HostRuntime) -> Result<(), Fail> {
    assert_formless(&rt, rt.alloc(), b"p fetch 257")
}

#[test]
fn a_fetch_with_a_leading_zero_has_no_form(rt: HostRuntime) -> Result<(), Fail> {
    assert_formless(&rt, rt.alloc(), b"p fetch 08")
}

#[test]
fn a_cancel_has_no_form(rt: HostRuntime) -> Result<(), Fail> {
    assert_formless(&rt, rt.alloc(), b"p cancel")
}

#[test]
fn a_start_with_a_space_behind_it_has_no_form(rt: HostRuntime) -> Result<(), Fail> {
    assert_formless(&rt, rt.alloc(), b"p start ")
}

// A copy of a line has this text.
fn assert_text(rt: &impl Abort, alloc: Global, line: &Line, text: &[u8]) -> Result<(), AllocError> {
    let mut out = Vec::new(alloc);
    put_copied(alloc, &mut out, line)?;
    assert_eq!(rt; out.as_slice(), text);
    Ok(())
}

fn two_names(alloc: Global) -> Result<Names, Fail> {
    let mut names = Names::new(alloc);
    names.push(Name::new(alloc, b"a")?)?;
    names.push(Name::new(alloc, b"b")?)?;
    Ok(names)
}

#[test]
fn an_index_is_printed(rt: HostRuntime) -> Result<(), Fail> {
    let alloc = rt.alloc();
    let table = Name::new(alloc, b"t")?;
    let columns = two_names(alloc)?;
    assert_text(&rt, alloc, &Line::Index { table, columns }, b"index t a,b")?;
    Ok(())
}

#[test]
fn a_strategy_is_printed(rt: HostRuntime) -> Result<(), AllocError> {
    let strategy = Strategy::NonBlockingAbort;
    assert_text(
        &rt,
        rt.alloc(),
        &Line::Strategy { strategy },
        b"strategy abort",
    )
}

#[test]
fn a_pace_is_printed(rt: HostRuntime) -> Result<(), AllocError> {
    let pace = PropLine::Scan { n: 64 };
    assert_text(&rt, rt.alloc(), &Line::Pace(pace), b"p scan 64")
}

#[test]
fn a_text_is_parted_into_lines(rt: HostRuntime) {
    let first = next_line(b"# a\n\nc1 begin");
    assert_eq!(rt; first, Some((b"# a".as_slice(), b"\nc1 begin".as_slice())));
}

#[test]
fn comments_are_passed_over(rt: HostRuntime) {
    assert!(rt; is_passed_over(b"# a"));
    assert!(rt; is_passed_over(b""));
    assert!(rt; !is_passed_over(b" # a"));
}

#[test]
fn a_tab_is_not_printable(rt: HostRuntime) {
    assert!(rt; are_printable(b"a b"));
    assert!(rt; !are_printable(b"a\tb"));
}
