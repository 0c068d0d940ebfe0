// The forms of lines.
ghost use Rattle.std.specs.Prelude.{◌≡◌, ◌≤◌, IfOk, IfSome, option_map};
ghost use Rattle.sx_lines.specs.Fields.{spec_shown};
ghost use Rattle.sx_lines.specs.Forms.{row_in, key_in, table_in, what_in, digit_in, count_in, strategy_in, pace_in, client_in, line_of, loads, reads, inserts, updates, deletes, IsCount, IsPace, IsFit};

use crate::Line;
use crate::columns::draft_in;
use crate::fields::{key_shown, row_shown, spec_shown};
use crate::text::{behind, named, parted, same_bytes};
use std::alloc::{AllocError, Global};
use sx_journal::{PropLine, Request, What};
use sx_lists::Copied;
use sx_sync::Strategy;
use sx_text::number_of;
use sx_values::{Catalog, Key, Name, Row};

/// What a line shows, by the tables that are known before it.
#[tactic(auto, unfolding(crate::specs::Forms::line_of))]
pub fn line_of(alloc: Global, catalog: &Catalog, text: &[u8]) -> Result<Option<Line>, AllocError>
    ensures line { IfOk result (λ line. line ≡ line_of catalog.now text.now) }
    ensures fit { IfOk result (λ line. IfSome line IsFit) }
{
    if let Some(rest) = behind(b"row ", text) {
        return row_line(alloc, catalog, rest);
    }
    if let Some(rest) = behind(b"table ", text) {
        return table_in(alloc, rest);
    }
    if let Some(rest) = behind(b"change ", text) {
        return change_in(alloc, rest);
    }
    if let Some(rest) = behind(b"retries ", text) {
        return Ok(retries_in(rest));
    }
    if let Some(rest) = behind(b"strategy ", text) {
        return Ok(strategy_line(rest));
    }
    if let Some(rest) = behind(b"p ", text) {
        return Ok(pace_line(rest));
    }
    if let Some(rest) = behind(b"c", text) {
        return client_in(alloc, catalog, rest);
    }
    Ok(None)
}

fn row_line(alloc: Global, catalog: &Catalog, text: &[u8]) -> Result<Option<Line>, AllocError>
    ensures line { IfOk result (λ line. line ≡ option_map loads (row_in catalog.now text.now)) }
    ensures fit { IfOk result (λ line. IfSome line IsFit) }
{
    match row_in(alloc, catalog, text)? {
        Some((table, row)) => Ok(Some(Line::Row { table, row })),
        None => Ok(None),
    }
}

fn change_in(alloc: Global, text: &[u8]) -> Result<Option<Line>, AllocError>
    ensures line { IfOk result (λ line. line ≡ option_map Line.Change (spec_shown text.now)) }
    ensures fit { IfOk result (λ line. IfSome line IsFit) }
{
    match spec_shown(alloc, text)? {
        Some(spec) => Ok(Some(Line::Change { spec })),
        None => Ok(None),
    }
}

fn retries_in(text: &[u8]) -> Option<Line>
    ensures line { result ≡ option_map Line.Retries (digit_in 0 8 text.now) }
    ensures fit { IfSome result IsFit }
{
    let n = digit_in(0, 8, text)?;
    Some(Line::Retries { n })
}

fn strategy_line(text: &[u8]) -> Option<Line>
    ensures line { result ≡ option_map Line.Strategy (strategy_in text.now) }
    ensures fit { IfSome result IsFit }
{
    let strategy = strategy_in(text)?;
    Some(Line::Strategy { strategy })
}

// The strategy that a word shows.
#[tactic(auto, unfolding(crate::specs::Forms::strategy_in))]
fn strategy_in(text: &[u8]) -> Option<Strategy>
    ensures { result ≡ strategy_in text.now }
{
    if same_bytes(text, b"blocking") {
        return Some(Strategy::Blocking);
    }
    if same_bytes(text, b"abort") {
        return Some(Strategy::NonBlockingAbort);
    }
    if same_bytes(text, b"commit") {
        return Some(Strategy::NonBlockingCommit);
    }
    None
}

fn pace_line(text: &[u8]) -> Option<Line>
    ensures line { result ≡ option_map Line.Pace (pace_in text.now) }
    ensures fit { IfSome result IsFit }
{
    Some(Line::Pace(pace_in(text)?))
}

// What the propagator does.
#[tactic(auto, unfolding(crate::specs::Forms::pace_in))]
fn pace_in(text: &[u8]) -> Option<PropLine>
    ensures pace { result ≡ pace_in text.now }
    ensures fit { IfSome result IsPace }
{
    if same_bytes(text, b"start") {
        return Some(PropLine::Start);
    }
    if same_bytes(text, b"check") {
        return Some(PropLine::Check);
    }
    if same_bytes(text, b"switch") {
        return Some(PropLine::Switch);
    }
    if let Some(rest) = behind(b"scan ", text) {
        return scan_in(rest);
    }
    if let Some(rest) = behind(b"fetch ", text) {
        return fetch_in(rest);
    }
    None
}

fn scan_in(text: &[u8]) -> Option<PropLine>
    ensures pace { result ≡ option_map PropLine.Scan (count_in 64 text.now) }
    ensures fit { IfSome result IsPace }
{
    let n = count_in(64, text)?;
    Some(PropLine::Scan { n })
}

fn fetch_in(text: &[u8]) -> Option<PropLine>
    ensures pace { result ≡ option_map PropLine.Fetch (count_in 256 text.now) }
    ensures fit { IfSome result IsPace }
{
    let n = count_in(256, text)?;
    Some(PropLine::Fetch { n })
}

// The number that a decimal text shows, if it is from 1 to a greatest one.
fn count_in(most: u64, text: &[u8]) -> Option<u64>
    ensures count { result ≡ count_in most text.now }
    ensures within { IfSome result (λ n. IsCount most n) }
{
    let n = number_of(text)?;
    if 1 <= n && n <= most { Some(n) } else { None }
}

// The number that a text of one digit shows, if it is from a least to a greatest one.
#[tactic(auto, unfolding(crate::specs::Forms::digit_in))]
fn digit_in(least: u8, most: u8, text: &[u8]) -> Option<u8>
    requires least { least ≤ 9 }
    requires most { most ≤ 9 }
    ensures { result ≡ digit_in least most text.now }
{
    match text {
        [digit] if b'0' + least <= *digit && *digit <= b'0' + most => Some(*digit - b'0'),
        _ => None,
    }
}

// A table's name and its columns.
#[tactic(auto, unfolding(crate::specs::Forms::table_in))]
fn table_in(alloc: Global, text: &[u8]) -> Result<Option<Line>, AllocError>
    ensures line { IfOk result (λ line. line ≡ table_in text.now) }
    ensures fit { IfOk result (λ line. IfSome line IsFit) }
{
    let Some((name, rest)) = named(alloc, text)? else {
        return Ok(None);
    };
    let Some(draft) = draft_in(alloc, rest)? else {
        return Ok(None);
    };
    let Some(schema) = draft.schema(alloc)? else {
        return Ok(None);
    };
    Ok(Some(Line::Table { name, schema }))
}

// A client's number and what the client does.
#[tactic(auto, unfolding(crate::specs::Forms::client_in))]
fn client_in(alloc: Global, catalog: &Catalog, text: &[u8]) -> Result<Option<Line>, AllocError>
    ensures line { IfOk result (λ line. line ≡ client_in catalog.now text.now) }
    ensures fit { IfOk result (λ line. IfSome line IsFit) }
{
    let Some((front, rest)) = parted(b' ', text) else {
        return Ok(None);
    };
    let Some(n) = digit_in(1, 8, front) else {
        return Ok(None);
    };
    let Some(what) = what_in(alloc, catalog, rest)? else {
        return Ok(None);
    };
    Ok(Some(Line::Client { n, what }))
}

// What stands behind the client of a line.
#[tactic(auto, unfolding(crate::specs::Forms::what_in))]
fn what_in(alloc: Global, catalog: &Catalog, text: &[u8]) -> Result<Option<What>, AllocError>
    ensures { IfOk result (λ what. what ≡ what_in catalog.now text.now) }
{
    if same_bytes(text, b"begin") {
        return Ok(Some(What::Ask(Request::Begin)));
    }
    if same_bytes(text, b"commit") {
        return Ok(Some(What::Ask(Request::Commit)));
    }
    if same_bytes(text, b"abort") {
        return Ok(Some(What::Abort));
    }
    if let Some(rest) = behind(b"read ", text) {
        return read_in(alloc, catalog, rest);
    }
    if let Some(rest) = behind(b"insert ", text) {
        return insert_in(alloc, catalog, rest);
    }
    if let Some(rest) = behind(b"update ", text) {
        return update_in(alloc, catalog, rest);
    }
    if let Some(rest) = behind(b"delete ", text) {
        return delete_in(alloc, catalog, rest);
    }
    Ok(None)
}

fn read_in(alloc: Global, catalog: &Catalog, text: &[u8]) -> Result<Option<What>, AllocError>
    ensures { IfOk result (λ what. what ≡ option_map reads (key_in catalog.now text.now)) }
{
    match key_in(alloc, catalog, text)? {
        Some((table, key)) => Ok(Some(What::Ask(Request::Read { table, key }))),
        None => Ok(None),
    }
}

fn insert_in(alloc: Global, catalog: &Catalog, text: &[u8]) -> Result<Option<What>, AllocError>
    ensures { IfOk result (λ what. what ≡ option_map inserts (row_in catalog.now text.now)) }
{
    match row_in(alloc, catalog, text)? {
        Some((table, row)) => Ok(Some(What::Ask(Request::Insert { table, row }))),
        None => Ok(None),
    }
}

fn update_in(alloc: Global, catalog: &Catalog, text: &[u8]) -> Result<Option<What>, AllocError>
    ensures { IfOk result (λ what. what ≡ option_map updates (row_in catalog.now text.now)) }
{
    match row_in(alloc, catalog, text)? {
        Some((table, row)) => Ok(Some(What::Ask(Request::Update { table, row }))),
        None => Ok(None),
    }
}

fn delete_in(alloc: Global, catalog: &Catalog, text: &[u8]) -> Result<Option<What>, AllocError>
    ensures { IfOk result (λ what. what ≡ option_map deletes (key_in catalog.now text.now)) }
{
    match key_in(alloc, catalog, text)? {
        Some((table, key)) => Ok(Some(What::Ask(Request::Delete { table, key }))),
        None => Ok(None),
    }
}

// A known table's name and a row of its columns.
#[tactic(auto, unfolding(crate::specs::Forms::row_in))]
fn row_in(alloc: Global, catalog: &Catalog, text: &[u8]) -> Result<Option<(Name, Row)>, AllocError>
    ensures { IfOk result (λ parts. parts ≡ row_in catalog.now text.now) }
{
    let Some((table, record)) = named(alloc, text)? else {
        return Ok(None);
    };
    let Some(found) = catalog.find(&table) else {
        return Ok(None);
    };
    let Some(row) = row_shown(alloc, &found.schema, record)? else {
        return Ok(None);
    };
    Ok(Some((found.name.copy(alloc)?, row)))
}

// A known table's name and a key of its key's columns.
#[tactic(auto, unfolding(crate::specs::Forms::key_in))]
fn key_in(alloc: Global, catalog: &Catalog, text: &[u8]) -> Result<Option<(Name, Key)>, AllocError>
    ensures { IfOk result (λ parts. parts ≡ key_in catalog.now text.now) }
{
    let Some((table, record)) = named(alloc, text)? else {
        return Ok(None);
    };
    let Some(found) = catalog.find(&table) else {
        return Ok(None);
    };
    let Some(key) = key_shown(alloc, &found.schema, record)? else {
        return Ok(None);
    };
    Ok(Some((found.name.copy(alloc)?, key)))
}
