// Why a text is no transformation.
ghost use Rattle.std.specs.Prelude.{◌≡◌};
ghost use Rattle.sx_lang.specs.declared.fault.LangFault.TheVariants.{Memory};

use std::alloc::{AllocError, AllocFailed, Global};
use sx_lists::Copied;

/// Why a text gives no transformation.
#[derive(Clone, Copy, Debug, PartialEq, Eq)]
pub enum LangFault {
    Memory,
    /// It is the text of none.
    NotText,
}

impl Copied for LangFault {
    fn copy(&self, _alloc: Global) -> Result<Self, AllocError> {
        Ok(*self)
    }
}

impl From<AllocError> for LangFault {
    ghost from_gives = { λ _ fault. fault ≡ Memory };

    fn from(_error: AllocError) -> LangFault {
        LangFault::Memory
    }
}

impl<T: Drop> From<AllocFailed<T>> for LangFault {
    ghost from_gives = { λ _ fault. fault ≡ Memory };

    fn from(_failed: AllocFailed<T>) -> LangFault {
        LangFault::Memory
    }
}
