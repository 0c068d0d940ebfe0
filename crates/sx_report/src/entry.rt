// Lines of the journal.
ghost use Rattle.std.specs.Prelude.{◌≡◌, ◌++◌, ◌∷◌, [], OnOk, decimal, option_map, reverse};
ghost use Rattle.sx_text.specs.Records.{record_text};
ghost use Rattle.sx_report.specs.Words.{actor_text, ending_text, numbers_text};
ghost use Rattle.sx_report.specs.EntryLines.{asked, bad_numbers, bad_word, entry_line, event_text, journal_lines, refusal_word, reply_numbers, reply_text, reply_word, request_text, requested, side_text, told};

use crate::words::{joined, put, put_number, put_numbers};
use std::alloc::{AllocError, Global};
use sx_journal::{Entry, Event, Reply, Request};
use sx_text::put_record;
use sx_values::{BadRow, Value};

// Puts the lines of a journal.
pub(crate) fn put_journal(
    alloc: Global,
    out: &mut Vec<u8>,
    entries: &[Entry],
) -> Result<(), AllocError>
    ensures { OnOk result (out.new.items ≡ out.old.items ++ journal_lines (reverse entries.now)) }
{
    for (index, entry) in entries.iter().enumerate() {
        put_entry(alloc, out, index as u64 + 1, entry)?;
    }
    Ok(())
}

// Puts the line of the entry of a number.
#[tactic(auto, unfolding(crate::specs::EntryLines::entry_line))]
pub(crate) fn put_entry(
    alloc: Global,
    out: &mut Vec<u8>,
    number: u64,
    entry: &Entry,
) -> Result<(), AllocError>
    ensures { OnOk result (out.new.items ≡ out.old.items ++ entry_line number entry.now) }
{
    put_front(out, number, entry.actor)?;
    put_event(out, &entry.event)?;
    put_reply(out, &entry.reply)?;
    put_told(alloc, out, &entry.event, &entry.reply)?;
    put(out, b"\n")
}

// Puts the number of an entry and who acts, with a space behind each.
fn put_front(out: &mut Vec<u8>, number: u64, actor: u8) -> Result<(), AllocError>
    ensures { OnOk result (out.new.items ≡ out.old.items ++ decimal number ++ 32 ∷ actor_text actor ++ 32 ∷ []) }
{
    put_number(out, number)?;
    put(out, b" ")?;
    put_actor(out, actor)?;
    put(out, b" ")
}

// Puts who acts.
#[tactic(auto, unfolding(crate::specs::Words::actor_text))]
fn put_actor(out: &mut Vec<u8>, actor: u8) -> Result<(), AllocError>
    ensures { OnOk result (out.new.items ≡ out.old.items ++ actor_text actor) }
{
    if actor == 0 {
        return put(out, b"p");
    }
    put(out, b"c")?;
    put_number(out, u64::from(actor))
}

// Puts what is asked, up to its values.
#[tactic(auto, unfolding(crate::specs::EntryLines::event_text))]
fn put_event(out: &mut Vec<u8>, event: &Event) -> Result<(), AllocError>
    ensures { OnOk result (out.new.items ≡ out.old.items ++ event_text event.now) }
{
    match event {
        Event::Client(request) => put_request(out, request),
        Event::Start { .. } => put(out, b"start"),
        Event::Scan { n } => {
            put(out, b"scan ")?;
            put_number(out, *n)
        }
        Event::Fetch { n } => {
            put(out, b"fetch ")?;
            put_number(out, *n)
        }
        Event::Check { .. } => put(out, b"check"),
        Event::Switch => put(out, b"switch"),
        Event::Cancel => put(out, b"cancel"),
    }
}

// Puts what a client asks, up to its values.
#[tactic(auto, unfolding(crate::specs::EntryLines::request_text))]
fn put_request(out: &mut Vec<u8>, request: &Request) -> Result<(), AllocError>
    ensures { OnOk result (out.new.items ≡ out.old.items ++ request_text request.now) }
{
    match request {
        Request::Begin => put(out, b"begin"),
        Request::Read { table, .. } => {
            put(out, b"read ")?;
            put(out, table.as_bytes())
        }
        Request::Insert { table, .. } => {
            put(out, b"insert ")?;
            put(out, table.as_bytes())
        }
        Request::Update { table, .. } => {
            put(out, b"update ")?;
            put(out, table.as_bytes())
        }
        Request::Delete { table, .. } => {
            put(out, b"delete ")?;
            put(out, table.as_bytes())
        }
        Request::Commit => put(out, b"commit"),
        Request::Undo => put(out, b"undo"),
    }
}

// Puts what is answered, up to its values.
#[tactic(auto, unfolding(crate::specs::EntryLines::reply_text))]
fn put_reply(out: &mut Vec<u8>, reply: &Reply) -> Result<(), AllocError>
    ensures { OnOk result (out.new.items ≡ out.old.items ++ reply_text reply.now) }
{
    put_side(out, reply)?;
    put(out, b" ")?;
    put(out, reply_word(reply))?;
    put_reply_numbers(out, reply)
}

// Puts the side of a scan turn.
#[tactic(auto, unfolding(crate::specs::EntryLines::side_text))]
fn put_side(out: &mut Vec<u8>, reply: &Reply) -> Result<(), AllocError>
    ensures { OnOk result (out.new.items ≡ out.old.items ++ side_text reply.now) }
{
    if let Reply::Scanned { side, .. } = reply {
        put(out, b" ")?;
        return put_number(out, u64::from(*side));
    }
    Ok(())
}

// The word of a reply.
#[tactic(auto, unfolding(crate::specs::EntryLines::reply_word))]
fn reply_word(reply: &Reply) -> &'static [u8]
    ensures { result.now ≡ reply_word reply.now }
{
    match reply {
        Reply::Begun { .. } => b"begun",
        Reply::Row { .. } => b"row",
        Reply::Absent => b"absent",
        Reply::Done { .. } => b"done",
        Reply::Committed { .. } => b"committed",
        Reply::Undone { .. } => b"undone",
        Reply::Aborted { .. } => b"aborted",
        Reply::Started { .. } => b"started",
        Reply::Running => b"running",
        Reply::Spent => b"spent",
        Reply::BadSpec { .. } => b"badspec",
        Reply::Scanned { last: true, .. } => b"end",
        Reply::Scanned { last: false, .. } => b"more",
        Reply::ScanOver => b"scanover",
        Reply::Fetched { .. } => b"fetched",
        Reply::Agree { .. } => b"agree",
        Reply::Disagree { .. } => b"disagree",
        Reply::Empty => b"empty",
        Reply::NotSplit => b"notsplit",
        Reply::Switched { .. } => b"switched",
        Reply::NoTransform => b"notransform",
        Reply::NotScanned => b"notscanned",
        Reply::Unread { .. } => b"unread",
        Reply::Conflict { .. } => b"conflict",
        Reply::Violated { .. } => b"violated",
        Reply::Cancelled => b"cancelled",
        _ => refusal_word(reply),
    }
}

// The word of a refusal of a client's request; other replies have none here.
#[tactic(auto, unfolding(crate::specs::EntryLines::refusal_word))]
fn refusal_word(reply: &Reply) -> &'static [u8]
    ensures { result.now ≡ refusal_word reply.now }
{
    match reply {
        Reply::NoTxn => b"notxn",
        Reply::Already => b"already",
        Reply::Ending => b"ending",
        Reply::Doomed => b"doomed",
        Reply::NoTable => b"notable",
        Reply::Hidden => b"hidden",
        Reply::Gone => b"gone",
        Reply::Draining => b"draining",
        Reply::Closed => b"closed",
        Reply::Held { .. } => b"held",
        Reply::Exists => b"exists",
        Reply::Missing => b"missing",
        Reply::BadRow { bad } => bad_word(*bad),
        _ => b"",
    }
}

// Why a row is bad.
#[tactic(auto, unfolding(crate::specs::EntryLines::bad_word))]
fn bad_word(bad: BadRow) -> &'static [u8]
    ensures { result.now ≡ bad_word bad }
{
    match bad {
        BadRow::Width => b"badrow width",
        BadRow::Kind { .. } => b"badrow kind",
        BadRow::Null { .. } => b"badrow null",
        BadRow::AllNull => b"badrow allnull",
    }
}

// Puts the numbers that a reply tells behind its word.
#[tactic(auto, unfolding(crate::specs::EntryLines::reply_numbers))]
fn put_reply_numbers(out: &mut Vec<u8>, reply: &Reply) -> Result<(), AllocError>
    ensures { OnOk result (out.new.items ≡ out.old.items ++ numbers_text (reply_numbers reply.now)) }
{
    match reply {
        Reply::Begun { txn: n }
        | Reply::Done { lsn: n }
        | Reply::Committed { lsn: n }
        | Reply::Undone { lsn: n }
        | Reply::Aborted { lsn: n }
        | Reply::Held { by: n }
        | Reply::Started { lsn: n }
        | Reply::Agree { lsn: n }
        | Reply::Switched { lsn: n }
        | Reply::Conflict { txn: n } => put_numbers(out, &[*n]),
        Reply::Fetched { from, to } => put_numbers(out, &[*from, *to]),
        Reply::Unread { pos, end } => put_numbers(out, &[*pos, *end]),
        Reply::Scanned { lsns, .. } => put_numbers(out, lsns.as_slice()),
        Reply::BadRow { bad } => put_bad_numbers(out, *bad),
        _ => Ok(()),
    }
}

// Puts the column of a bad row.
#[tactic(auto, unfolding(crate::specs::EntryLines::bad_numbers))]
fn put_bad_numbers(out: &mut Vec<u8>, bad: BadRow) -> Result<(), AllocError>
    ensures { OnOk result (out.new.items ≡ out.old.items ++ numbers_text (bad_numbers bad)) }
{
    match bad {
        BadRow::Kind { column } | BadRow::Null { column } => put_numbers(out, &[column]),
        BadRow::Width | BadRow::AllNull => Ok(()),
    }
}

// Puts the values that end the line.
#[tactic(auto, unfolding(crate::specs::EntryLines::told, crate::specs::Words::ending_text))]
fn put_told(
    alloc: Global,
    out: &mut Vec<u8>,
    event: &Event,
    reply: &Reply,
) -> Result<(), AllocError>
    ensures { OnOk result (out.new.items ≡ out.old.items ++ ending_text (told event.now reply.now)) }
{
    match reply {
        Reply::Row { row } => put_values(alloc, out, row.as_slice()),
        Reply::Disagree { first, second } => {
            let keys = joined(alloc, first.as_slice(), second.as_slice())?;
            let values = joined(alloc, asked(event).unwrap_or(&[]), keys.as_slice())?;
            put_values(alloc, out, values.as_slice())
        }
        Reply::Violated { first, second } => {
            let keys = joined(alloc, first.as_slice(), second.as_slice())?;
            put_values(alloc, out, keys.as_slice())
        }
        _ => put_asked(alloc, out, event),
    }
}

// Puts what is asked about, if there is such.
#[tactic(auto, unfolding(crate::specs::Words::ending_text))]
fn put_asked(alloc: Global, out: &mut Vec<u8>, event: &Event) -> Result<(), AllocError>
    ensures { OnOk result (out.new.items ≡ out.old.items ++ ending_text (asked event.now)) }
{
    match asked(event) {
        Some(values) => put_values(alloc, out, values),
        None => Ok(()),
    }
}

// Puts values after a space.
fn put_values(alloc: Global, out: &mut Vec<u8>, values: &[Value]) -> Result<(), AllocError>
    ensures { OnOk result (out.new.items ≡ out.old.items ++ 32 ∷ record_text values.now) }
{
    put(out, b" ")?;
    put_record(alloc, out, values)
}

// The row, the key or the group that is asked about.
#[tactic(auto, unfolding(crate::specs::EntryLines::asked))]
fn asked(event: &Event) -> Option<&[Value]>
    ensures { option_map (λ values. values.now) result ≡ asked event.now }
{
    match event {
        Event::Client(request) => requested(request),
        Event::Check { group } => Some(group.as_slice()),
        Event::Start { .. } | Event::Scan { .. } | Event::Fetch { .. } => None,
        Event::Switch | Event::Cancel => None,
    }
}

// The row or the key that a client asks about.
#[tactic(auto, unfolding(crate::specs::EntryLines::requested))]
fn requested(request: &Request) -> Option<&[Value]>
    ensures { option_map (λ values. values.now) result ≡ requested request.now }
{
    match request {
        Request::Read { key, .. } | Request::Delete { key, .. } => Some(key.as_slice()),
        Request::Insert { row, .. } | Request::Update { row, .. } => Some(row.as_slice()),
        Request::Begin | Request::Commit | Request::Undo => None,
    }
}
