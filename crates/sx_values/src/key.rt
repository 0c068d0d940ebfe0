// Keys: one of a single value takes no memory of its own.
ghost use Rattle.std.specs.Prelude.{◌≡◌, ◌∷◌, ◌++◌, [], length, refl, OnOk, OnErr, IfOk};
ghost use Rattle.std.specs.Option.{option_copied};
ghost use Rattle.std.specs.Cmp.Lexicographic.{pointwise, lists_equiv, lists_per, lists_po, lists_total, lists_agrees, lists_ties};
ghost use Rattle.sx_lists.specs.Places.{at_place};
ghost use Rattle.sx_values.specs.Values.{value_cmp, value_eq, values_cmp, values_fed, values_partial_cmp};
ghost use Rattle.sx_values.specs.ValueLaws.{same_values_fed, value_cmp_partial, value_cmp_total, value_eq_equivalence, value_eq_partial};

use crate::Value;
use std::alloc::{AllocError, Global};
use std::cmp::Ordering;
use std::hash::{Hash, Hasher};
use std::marker::Model;
use std::slice;
use sx_lists::{Copied, List, Same, all_same, copies_of};

// One value, which takes no memory of its own, or any number of them.
#[derive(Debug, Drop)]
pub(crate) enum KeyValues {
    One(Value, Global),
    Many(List<Value>),
}

/// The values of a key, in the order of its key columns.
#[derive(Debug, Drop)]
pub struct Key {
    values: KeyValues,
}

impl Model for Key {
    ghost use Rattle.std.specs.Prelude.{List};
    ghost use Rattle.sx_values.specs.declared.value.Value.{Value as Datum};
    ghost use Rattle.sx_values.specs.Kept.{values_of_key};

    ghost Value = { List Datum };

    ghost view = { λ k. values_of_key k.values };
}

impl Key {
    /// A key without values.
    pub fn new(alloc: Global) -> Self
        ensures { result ≡ [] }
    {
        Key {
            values: KeyValues::Many(List::new(alloc)),
        }
    }

    /// The key of these values.
    pub fn from_values(values: List<Value>) -> Self
        ensures { result ≡ values }
    {
        Key {
            values: KeyValues::Many(values),
        }
    }

    // The key of one value.
    pub(crate) fn of_one(alloc: Global, value: Value) -> Key
        ensures { result ≡ value ∷ [] }
    {
        Key {
            values: KeyValues::One(value, alloc),
        }
    }

    /// The values in order.
    pub fn as_slice(&self) -> &[Value]
        ensures { result.now ≡ self.now }
    {
        match &self.values {
            KeyValues::One(value, _) => slice::from_ref(value),
            KeyValues::Many(values) => values.as_slice(),
        }
    }

    /// How many values there are.
    pub fn len(&self) -> u64
        ensures { result ≡ length self.now }
    {
        self.as_slice().len() as u64
    }

    /// The value at a place from 1, or None where there is none.
    pub fn at(&self, place: u64) -> Option<&Value>
        ensures { option_copied result ≡ at_place self.now place }
    {
        if place == 0 {
            return None;
        }
        self.as_slice().get((place - 1) as usize)
    }

    /// Puts a value at the end. Want of memory changes nothing.
    pub fn push(&mut self, value: Value) -> Result<(), AllocError>
        ensures ok { OnOk result (self.new ≡ self.old ++ value ∷ []) }
        ensures err { OnErr result (self.new ≡ self.old) }
    {
        match &mut self.values {
            KeyValues::Many(values) => values.push(value),
            KeyValues::One(first, alloc) => {
                let mut values = List::new(*alloc);
                values.push(first.copy(*alloc)?)?;
                values.push(value)?;
                self.values = KeyValues::Many(values);
                Ok(())
            }
        }
    }
}

impl PartialEq for Key {
    ghost eq = { λ key other. pointwise value_eq key other };

    ghost laws = { lists_per value_eq_partial };

    fn eq(&self, other: &Self) -> bool {
        self.as_slice() == other.as_slice()
    }
}

impl Eq for Key {
    ghost laws = { lists_equiv value_eq_equivalence };
}

impl PartialOrd for Key {
    ghost partial_cmp = { values_partial_cmp };

    ghost laws = { lists_po value_cmp_partial };

    fn partial_cmp(&self, other: &Self) -> Option<Ordering> {
        self.as_slice().partial_cmp(other.as_slice())
    }
}

impl Ord for Key {
    ghost cmp = { values_cmp };

    ghost total = { lists_total value_cmp_total };

    ghost matches_partial_cmp = { λ key other. lists_agrees (λ v w. refl) key other };

    ghost matches_eq = { λ key other. lists_ties value_cmp (λ v w. refl) key other };

    fn cmp(&self, other: &Self) -> Ordering {
        match (&self.values, &other.values) {
            (KeyValues::One(one, _), KeyValues::One(two, _)) => one.cmp(two),
            _ => self.as_slice().cmp(other.as_slice()),
        }
    }
}

impl Hash for Key {
    ghost hash_input = { values_fed };

    ghost respects_eq = { same_values_fed };

    fn hash<H: Hasher>(&self, state: &mut H) {
        self.as_slice().hash(state);
    }
}

impl Copied for Key {
    fn copy(&self, alloc: Global) -> Result<Self, AllocError> {
        let values = match self.as_slice() {
            [value] => KeyValues::One(value.copy(alloc)?, alloc),
            values => KeyValues::Many(copies_of(alloc, values)?),
        };
        Ok(Key { values })
    }
}

impl Same for Key {
    fn is_same(&self, other: &Self) -> bool {
        all_same(self.as_slice(), other.as_slice())
    }
}
