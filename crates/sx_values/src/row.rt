// Rows: their copies share the values.
ghost use Rattle.std.specs.Prelude.{◌≡◌, ◌∷◌, ◌++◌, [], length, refl, OnOk, OnErr};
ghost use Rattle.std.specs.Option.{option_copied};
ghost use Rattle.std.specs.Cmp.Lexicographic.{pointwise, lists_equiv, lists_per, lists_po, lists_total, lists_agrees, lists_ties};
ghost use Rattle.sx_lists.specs.Places.{at_place};
ghost use Rattle.sx_values.specs.Values.{value_cmp, value_eq, values_cmp, values_partial_cmp};
ghost use Rattle.sx_values.specs.ValueLaws.{value_cmp_partial, value_cmp_total, value_eq_equivalence, value_eq_partial};

use crate::Value;
use crate::shared::shared;
use std::alloc::{AllocError, Global};
use std::cmp::Ordering;
use std::marker::Model;
use std::sync::Arc;
use sx_lists::{Copied, List, Same, all_same};

// Values that belong to one row, or that copies share.
#[derive(Debug, Drop)]
pub(crate) enum RowValues {
    Own(List<Value>),
    Shared(Arc<List<Value>>, Global),
}

/// The values of a row, in the order of its columns. The copies of a copy share them.
#[derive(Debug, Drop)]
pub struct Row {
    values: RowValues,
}

impl Model for Row {
    ghost use Rattle.std.specs.Prelude.{List};
    ghost use Rattle.sx_values.specs.declared.value.Value.{Value as Datum};
    ghost use Rattle.sx_values.specs.Kept.{values_of_row};

    ghost Value = { List Datum };

    ghost view = { λ r. values_of_row r.values };
}

impl Row {
    /// A row without values.
    pub fn new(alloc: Global) -> Self
        ensures { result ≡ [] }
    {
        Row {
            values: RowValues::Own(List::new(alloc)),
        }
    }

    /// The row of these values.
    pub fn from_values(values: List<Value>) -> Self
        ensures { result ≡ values }
    {
        Row {
            values: RowValues::Own(values),
        }
    }

    /// The values in order.
    pub fn as_slice(&self) -> &[Value]
        ensures { result.now ≡ self.now }
    {
        match &self.values {
            RowValues::Own(values) => values.as_slice(),
            RowValues::Shared(values, _) => values.as_slice(),
        }
    }

    /// How many values there are.
    pub fn len(&self) -> u64
        ensures { result ≡ length self.now }
    {
        self.as_slice().len() as u64
    }

    /// The value at a place from 1, or None where there is none.
    pub fn at(&self, place: u64) -> Option<&Value>
        ensures { option_copied result ≡ at_place self.now place }
    {
        match &self.values {
            RowValues::Own(values) => values.at(place),
            RowValues::Shared(values, _) => values.at(place),
        }
    }

    /// Puts a value at the end. Want of memory changes nothing.
    pub fn push(&mut self, value: Value) -> Result<(), AllocError>
        ensures ok { OnOk result (self.new ≡ self.old ++ value ∷ []) }
        ensures err { OnErr result (self.new ≡ self.old) }
    {
        match &mut self.values {
            RowValues::Own(values) => values.push(value),
            RowValues::Shared(values, alloc) => {
                let mut own = values.copy(*alloc)?;
                own.push(value)?;
                self.values = RowValues::Own(own);
                Ok(())
            }
        }
    }
}

impl PartialEq for Row {
    ghost eq = { λ row other. pointwise value_eq row other };

    ghost laws = { lists_per value_eq_partial };

    fn eq(&self, other: &Self) -> bool {
        self.as_slice() == other.as_slice()
    }
}

impl Eq for Row {
    ghost laws = { lists_equiv value_eq_equivalence };
}

impl PartialOrd for Row {
    ghost partial_cmp = { values_partial_cmp };

    ghost laws = { lists_po value_cmp_partial };

    fn partial_cmp(&self, other: &Self) -> Option<Ordering> {
        self.as_slice().partial_cmp(other.as_slice())
    }
}

impl Ord for Row {
    ghost cmp = { values_cmp };

    ghost total = { lists_total value_cmp_total };

    ghost matches_partial_cmp = { λ row other. lists_agrees (λ v w. refl) row other };

    ghost matches_eq = { λ row other. lists_ties value_cmp (λ v w. refl) row other };

    fn cmp(&self, other: &Self) -> Ordering {
        self.as_slice().cmp(other.as_slice())
    }
}

impl Copied for Row {
    fn copy(&self, alloc: Global) -> Result<Self, AllocError> {
        let values = match &self.values {
            RowValues::Own(values) => shared(alloc, values.copy(alloc)?)?,
            RowValues::Shared(values, _) => values.clone()?,
        };
        Ok(Row {
            values: RowValues::Shared(values, alloc),
        })
    }
}

impl Same for Row {
    fn is_same(&self, other: &Self) -> bool {
        all_same(self.as_slice(), other.as_slice())
    }
}
