// A copy of plain data, which takes memory.
ghost use Rattle.std.specs.Prelude.{◌≡◌, IfOk};

use crate::List;
use std::alloc::{AllocError, Global};

/// Plain data that can be copied where there is memory.
pub trait Copied: Sized {
    /// A value that is equal to this one.
    fn copy(&self, alloc: Global) -> Result<Self, AllocError>
        ensures { IfOk result (λ it. it ≡ self.now) };
}

impl Copied for u64 {
    fn copy(&self, _alloc: Global) -> Result<Self, AllocError> {
        Ok(*self)
    }
}

impl<T: Copied> Copied for Option<T> {
    fn copy(&self, alloc: Global) -> Result<Self, AllocError> {
        match self {
            None => Ok(None),
            Some(value) => Ok(Some(value.copy(alloc)?)),
        }
    }
}

/// Copies of the items, in their order.
pub fn copies_of<T: Copied + Drop>(alloc: Global, items: &[T]) -> Result<List<T>, AllocError>
    ensures { IfOk result (λ copies. copies ≡ items.now) }
{
    let mut copies = Vec::with_capacity(alloc, items.len())?;
    for item in items {
        copies.push(item.copy(alloc)?)?;
    }
    Ok(List::from_vec(copies))
}

/// A copy of bytes, all at once.
pub fn bytes_of(alloc: Global, bytes: &[u8]) -> Result<List<u8>, AllocError>
    ensures { IfOk result (λ copies. copies ≡ bytes.now) }
{
    Ok(List::from_vec(bytes.to_vec(alloc)?))
}

impl<T: Copied + Drop> Copied for List<T> {
    fn copy(&self, alloc: Global) -> Result<Self, AllocError> {
        copies_of(alloc, self.as_slice())
    }
}

impl Copied for u8 {
    fn copy(&self, _alloc: Global) -> Result<Self, AllocError> {
        Ok(*self)
    }
}
