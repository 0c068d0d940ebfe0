// Why a record shows no row.
ghost use Rattle.std.specs.Prelude.{◌≡◌};
ghost use Rattle.sx_text.specs.declared.fault.FieldFault.TheVariants.{Memory};

use std::alloc::{AllocError, AllocFailed, Global};
use sx_lists::Copied;

/// Why a record shows no row or no key.
#[derive(Clone, Copy, Debug, PartialEq, Eq)]
pub enum FieldFault {
    Memory,
    /// Another number of fields than of columns.
    Width,
    /// The field in this column, counted from 1 within the record, shows no value of the column's kind.
    Value { column: u64 },
}

impl Copied for FieldFault {
    fn copy(&self, _alloc: Global) -> Result<Self, AllocError> {
        Ok(*self)
    }
}

impl From<AllocError> for FieldFault {
    ghost from_gives = { λ _ fault. fault ≡ Memory };

    fn from(_error: AllocError) -> FieldFault {
        FieldFault::Memory
    }
}

impl<T: Drop> From<AllocFailed<T>> for FieldFault {
    ghost from_gives = { λ _ fault. fault ≡ Memory };

    fn from(_failed: AllocFailed<T>) -> FieldFault {
        FieldFault::Memory
    }
}
