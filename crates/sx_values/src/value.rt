// Values, their order and their hashes.
ghost use Rattle.std.specs.Prelude.{◌≡◌};
ghost use Rattle.sx_values.specs.Values.{value_cmp, value_eq, value_fed, value_partial_cmp};
ghost use Rattle.sx_values.specs.ValueLaws.{equal_values_fed, value_eq_partial, value_eq_equivalence, value_cmp_total, value_cmp_partial};
ghost use Rattle.std.specs.Prelude.{refl};

use crate::Text;
use std::alloc::{AllocError, Global};
use std::cmp::Ordering;
use std::hash::{Hash, Hasher};
use sx_lists::{Copied, Same};

/// A value of a row: Null, a number or a text. They are ordered so, numbers by size and texts by bytes.
#[derive(Debug, Drop)]
pub enum Value {
    Null,
    Int(i64),
    Text(Text),
}

impl Copied for Value {
    fn copy(&self, alloc: Global) -> Result<Self, AllocError> {
        match self {
            Value::Null => Ok(Value::Null),
            Value::Int(number) => Ok(Value::Int(*number)),
            Value::Text(text) => Ok(Value::Text(text.copy(alloc)?)),
        }
    }
}

impl Same for Value {
    fn is_same(&self, other: &Self) -> bool {
        match (self, other) {
            (Value::Null, Value::Null) => true,
            (Value::Int(one), Value::Int(two)) => *one == *two,
            (Value::Text(one), Value::Text(two)) => one.is_same(two),
            _ => false,
        }
    }
}

impl PartialEq for Value {
    ghost eq = { value_eq };

    ghost laws = { value_eq_partial };

    fn eq(&self, other: &Self) -> bool {
        matches!(self.cmp(other), Ordering::Equal)
    }
}

impl Eq for Value {
    ghost laws = { value_eq_equivalence };
}

impl PartialOrd for Value {
    ghost partial_cmp = { value_partial_cmp };

    ghost laws = { value_cmp_partial };

    fn partial_cmp(&self, other: &Self) -> Option<Ordering> {
        Some(self.cmp(other))
    }
}

impl Ord for Value {
    ghost cmp = { value_cmp };

    ghost total = { value_cmp_total };

    ghost matches_partial_cmp = { λ v w. refl };

    ghost matches_eq = { λ v w. refl };

    fn cmp(&self, other: &Self) -> Ordering {
        match (self, other) {
            (Value::Null, Value::Null) => Ordering::Equal,
            (Value::Null, _) => Ordering::Less,
            (_, Value::Null) => Ordering::Greater,
            (Value::Int(one), Value::Int(two)) => one.cmp(two),
            (Value::Int(_), Value::Text(_)) => Ordering::Less,
            (Value::Text(_), Value::Int(_)) => Ordering::Greater,
            (Value::Text(one), Value::Text(two)) => one.cmp(two),
        }
    }
}

impl Hash for Value {
    ghost hash_input = { value_fed };

    ghost respects_eq = { equal_values_fed };

    fn hash<H: Hasher>(&self, state: &mut H) {
        match self {
            Value::Null => {}
            Value::Int(number) => number.hash(state),
            Value::Text(text) => text.hash(state),
        }
    }
}
