// A test of equality that decides whether two values are the same value.
ghost use Rattle.std.specs.Prelude.{◌≡◌, ◌↔◌, IsTrue};

use crate::List;

/// Values that can be told apart.
pub trait Same {
    /// Whether the two are one value.
    fn is_same(&self, other: &Self) -> bool
        ensures { IsTrue result ↔ (self.now ≡ other.now) };
}

impl Same for u8 {
    fn is_same(&self, other: &Self) -> bool {
        *self == *other
    }
}

impl Same for u64 {
    fn is_same(&self, other: &Self) -> bool {
        *self == *other
    }
}

impl Same for i64 {
    fn is_same(&self, other: &Self) -> bool {
        *self == *other
    }
}

impl<T: Same> Same for List<T> {
    fn is_same(&self, other: &Self) -> bool {
        all_same(self.as_slice(), other.as_slice())
    }
}

impl<T: Same> Same for Option<T> {
    fn is_same(&self, other: &Self) -> bool {
        match (self, other) {
            (None, None) => true,
            (Some(one), Some(two)) => one.is_same(two),
            _ => false,
        }
    }
}

/// Whether two slices have the same items in the same order.
pub fn all_same<T: Same>(ones: &[T], others: &[T]) -> bool
    ensures { IsTrue result ↔ (ones.now ≡ others.now) }
{
    match (ones, others) {
        ([], []) => true,
        ([one, ones @ ..], [other, others @ ..]) => one.is_same(other) && all_same(ones, others),
        _ => false,
    }
}
