// How a run ended.
ghost use Rattle.std.specs.Prelude.{◌≡◌, ◌++◌, ◌∷◌, [], IfOk, OnOk, codes};
ghost use Rattle.sx_text.specs.Records.{record_text};
ghost use Rattle.sx_report.specs.EndLines.{end_text};

use crate::words::{joined, put};
use std::alloc::{AllocError, Global};
use sx_lists::Copied;
use sx_text::put_record;
use sx_values::{Key, Value};

/// How a run ended.
#[derive(Debug, Drop)]
pub enum ReportEnd {
    /// The script asks for no transformation.
    NoChange,
    Switched,
    /// The rows of these keys disagree.
    Violated { first: Key, second: Key },
    /// The journal is full.
    Full,
}

impl Copied for ReportEnd {
    fn copy(&self, alloc: Global) -> Result<Self, AllocError> {
        match self {
            ReportEnd::NoChange => Ok(ReportEnd::NoChange),
            ReportEnd::Switched => Ok(ReportEnd::Switched),
            ReportEnd::Violated { first, second } => Ok(ReportEnd::Violated {
                first: first.copy(alloc)?,
                second: second.copy(alloc)?,
            }),
            ReportEnd::Full => Ok(ReportEnd::Full),
        }
    }
}

// Puts the line of an end.
#[tactic(auto, unfolding(crate::specs::EndLines::end_text))]
pub(crate) fn put_end(alloc: Global, out: &mut Vec<u8>, end: &ReportEnd) -> Result<(), AllocError>
    ensures { OnOk result (out.new.items ≡ out.old.items ++ end_text end.now) }
{
    match end {
        ReportEnd::NoChange => put(out, b"end none\n"),
        ReportEnd::Switched => put(out, b"end switched\n"),
        ReportEnd::Violated { first, second } => {
            let keys = joined(alloc, first.as_slice(), second.as_slice())?;
            put_violated(alloc, out, keys.as_slice())
        }
        ReportEnd::Full => put(out, b"end full\n"),
    }
}

// Puts the line of an end by keys at fault.
fn put_violated(alloc: Global, out: &mut Vec<u8>, keys: &[Value]) -> Result<(), AllocError>
    ensures { OnOk result (out.new.items ≡ out.old.items ++ codes "end violated " ++ record_text keys.now ++ 10 ∷ []) }
{
    put(out, b"end violated ")?;
    put_record(alloc, out, keys)?;
    put(out, b"\n")
}
