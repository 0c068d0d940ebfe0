// How a run ends.
ghost use Rattle.std.specs.Prelude.{◌≡◌};
ghost use Rattle.shiftrun.specs.ReportRuns.{report_end};

use std::alloc::{AllocError, Global};
use sx_lists::Copied;
use sx_report::ReportEnd;
use sx_values::Key;

/// How a run ends.
#[derive(Debug, Drop)]
pub enum End {
    /// The script asks for no transformation.
    NoChange,
    /// The rows of these keys disagree.
    Violated { first: Key, second: Key },
    Switched,
}

impl Copied for End {
    fn copy(&self, alloc: Global) -> Result<Self, AllocError> {
        Ok(match self {
            End::NoChange => End::NoChange,
            End::Violated { first, second } => End::Violated {
                first: first.copy(alloc)?,
                second: second.copy(alloc)?,
            },
            End::Switched => End::Switched,
        })
    }
}

impl End {
    /// The end that a report shows.
    pub(crate) fn into_report(self) -> ReportEnd
        ensures { result ≡ report_end self }
    {
        match self {
            End::NoChange => ReportEnd::NoChange,
            End::Violated { first, second } => ReportEnd::Violated { first, second },
            End::Switched => ReportEnd::Switched,
        }
    }
}
