// Lists that copies share.
ghost use Rattle.std.specs.Prelude.{◌≡◌, IfOk};

use std::alloc::{AllocError, Global};
use std::sync::Arc;
use sx_lists::{List, bytes_of};

// A list, to be shared.
pub(crate) fn shared<T: Drop>(alloc: Global, items: List<T>) -> Result<Arc<List<T>>, AllocError>
    ensures { IfOk result (λ shared. shared.value ≡ items) }
{
    match Arc::new(alloc, items) {
        Ok(shared) => Ok(shared),
        Err(_) => Err(AllocError),
    }
}

// Bytes, to be shared.
pub(crate) fn shared_bytes(alloc: Global, bytes: &[u8]) -> Result<Arc<List<u8>>, AllocError>
    ensures { IfOk result (λ shared. shared.value ≡ bytes.now) }
{
    shared(alloc, bytes_of(alloc, bytes)?)
}
