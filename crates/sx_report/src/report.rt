// The report in whole.
ghost use Rattle.std.specs.Prelude.{◌≡◌, ◌++◌, IfOk, OnOk, reverse};
ghost use Rattle.sx_model.specs.Logs.{log_of};
ghost use Rattle.sx_script.specs.Printing.{script_text};
ghost use Rattle.sx_report.specs.Reports.{IsReport, head_text, tail_text};
ghost use Rattle.sx_report.specs.TableLines.{AreRelations};

use crate::ReportEnd;
use crate::end::put_end;
use crate::entry::put_journal;
use crate::record::put_log;
use crate::tables::put_tables;
use crate::words::put;
use std::alloc::{AllocError, Global};
use sx_core::Core;
use sx_heap::Tables;
use sx_journal::Entry;
use sx_lists::List;
use sx_log::Rec;
use sx_script::{Script, put_script};

/// The report of a machine that ran a script: the script, the journal, the log, the tables and the end.
pub fn print_report(
    alloc: Global,
    script: &Script,
    core: &Core,
    end: &ReportEnd,
) -> Result<List<u8>, AllocError>
    ensures { IfOk result (λ text. IsReport script.now core.now end.now text) }
{
    let mut out = Vec::new(alloc);
    let (entries, log) = (core.journal().as_slice(), core.log().as_slice());
    put_head(alloc, &mut out, script, entries, log)?;
    put_tail(alloc, &mut out, core.tables(), core.new_tables(), end)?;
    Ok(List::from_vec(out))
}

/// The report up to its line `tables`, without that line.
pub fn print_head(alloc: Global, script: &Script, core: &Core) -> Result<List<u8>, AllocError>
    ensures { IfOk result (λ text. text ≡ head_text (script_text script.now) core.now.past (log_of core.now.opening core.now.past)) }
{
    let mut out = Vec::new(alloc);
    let (entries, log) = (core.journal().as_slice(), core.log().as_slice());
    put_head(alloc, &mut out, script, entries, log)?;
    Ok(List::from_vec(out))
}

// Puts the lines of a script, a journal and a log.
pub(crate) fn put_head(
    alloc: Global,
    out: &mut Vec<u8>,
    script: &Script,
    entries: &[Entry],
    log: &[Rec],
) -> Result<(), AllocError>
    ensures { OnOk result (out.new.items ≡ out.old.items ++ head_text (script_text script.now) (reverse entries.now) (reverse log.now)) }
{
    put(out, b"script\n")?;
    put_script(alloc, out, script)?;
    put(out, b"journal\n")?;
    put_journal(alloc, out, entries)?;
    put(out, b"log\n")?;
    put_log(alloc, out, log)
}

// Puts the lines of the tables and of the end.
pub(crate) fn put_tail(
    alloc: Global,
    out: &mut Vec<u8>,
    tables: &Tables,
    new_tables: &Tables,
    end: &ReportEnd,
) -> Result<(), AllocError>
    ensures text { OnOk result (out.new.items ≡ out.old.items ++ tail_text tables.now new_tables.now end.now) }
    ensures relations { OnOk result (AreRelations tables.now) }
    ensures new_relations { OnOk result (AreRelations new_tables.now) }
{
    put(out, b"tables\n")?;
    put_tables(alloc, out, tables)?;
    put_tables(alloc, out, new_tables)?;
    put_end(alloc, out, end)
}
