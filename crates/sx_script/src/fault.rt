// Why bytes are no script.
ghost use Rattle.std.specs.Prelude.{◌≡◌};
ghost use Rattle.sx_script.specs.declared.fault.ScriptFault.TheVariants.{Memory};

use std::alloc::{AllocError, AllocFailed, Global};
use sx_lists::Copied;

/// Why there is no script.
#[derive(Clone, Copy, Debug, PartialEq, Eq)]
pub enum ScriptFault {
    Memory,
    /// The first faulty line, counted from 1, with its first cause; or line 0, of the whole.
    Bad { line: u64, cause: ScriptCause },
}

/// What is wrong with a line.
#[derive(Clone, Copy, Debug, PartialEq, Eq)]
pub enum ScriptCause {
    /// There are too many lines.
    Lines,
    /// A byte isn't printable.
    Byte,
    /// The line has none of the forms.
    Form,
    /// The line stands too late.
    Order,
    /// It says again what was said.
    Repeated,
    /// There is no room for another.
    Limit,
    /// No column is part of the key, or too many are.
    Schema,
    /// There is no transformation.
    NoChange,
    /// The table isn't known.
    NoTable,
    /// The table lacks the column.
    NoColumn,
    /// The transformation doesn't fit.
    Spec,
    /// The record has another number of fields.
    Width,
    /// A field shows no value of its column.
    Value,
    /// A column that takes no Null has one.
    Null,
    /// The row's key is that of an earlier row.
    Key,
    /// It is no script of those that can be run yet.
    Later,
}

impl ScriptFault {
    // The one fault of bytes that are no script yet.
    pub(crate) const LATER: ScriptFault = ScriptFault::Bad {
        line: 0,
        cause: ScriptCause::Later,
    };
}

impl Copied for ScriptFault {
    fn copy(&self, _alloc: Global) -> Result<Self, AllocError> {
        Ok(*self)
    }
}

impl Copied for ScriptCause {
    fn copy(&self, _alloc: Global) -> Result<Self, AllocError> {
        Ok(*self)
    }
}

impl From<AllocError> for ScriptFault {
    ghost from_gives = { λ _ fault. fault ≡ Memory };

    fn from(_error: AllocError) -> ScriptFault {
        ScriptFault::Memory
    }
}

impl<T: Drop> From<AllocFailed<T>> for ScriptFault {
    ghost from_gives = { λ _ fault. fault ≡ Memory };

    fn from(_failed: AllocFailed<T>) -> ScriptFault {
        ScriptFault::Memory
    }
}
