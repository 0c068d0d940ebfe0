// Names of tables and columns.
ghost use Rattle.std.specs.Prelude.{◌≡◌, ◌↔◌, IfOk, IsTrue, OnOk, not, Result, Err};
ghost use Rattle.std.specs.Prelude.{Some, nat_eq, refl};
ghost use Rattle.std.specs.List.{list_all};
ghost use Rattle.std.specs.Ordering.{nat_cmp};
ghost use Rattle.std.specs.Cmp.{partial_equiv_from_equiv};
ghost use Rattle.std.specs.Cmp.Lexicographic.{pointwise, slice_cmp, nat_list_cmp_total, nat_list_eq_equiv, texts_po, texts_ties};
ghost use Rattle.sx_values.specs.Texts.{is_name, is_lower, is_name_byte};

use crate::shared::shared_bytes;
use std::alloc::{AllocError, Global};
use std::cmp::Ordering;
use std::marker::Model;
use std::sync::Arc;
use sx_lists::{Copied, List, Same};

/// A lower-case letter followed by up to 31 lower-case letters, digits and underscores. Its copies share its bytes.
#[derive(Debug, Drop)]
pub struct Name {
    bytes: Arc<List<u8>>,
}

impl Model for Name {
    ghost use Rattle.std.specs.Prelude.{List, ℕ, IsTrue};
    ghost use Rattle.std.specs.Coded.{coded_list, coded_ℕ};
    ghost use Rattle.std.specs.List.{list_all};
    ghost use Rattle.sx_values.specs.Texts.{is_name, is_lower, is_name_byte};

    ghost Value = { List ℕ };

    ghost coded = { coded_list coded_ℕ };

    ghost view = { λ n. n.bytes.value };

    ghost invariant = { λ n. IsTrue (is_name n.bytes.value) };
}

/// Why bytes are no name.
#[derive(Clone, Copy, Debug, PartialEq, Eq)]
pub enum NameFault {
    /// There is no memory for a copy of them.
    Memory,
    /// They aren't spelled as a name.
    BadName,
}

impl Name {
    /// The name of these bytes.
    pub fn new(alloc: Global, bytes: &[u8]) -> Result<Name, NameFault>
        ensures name { IfOk result (λ name. name ≡ bytes.now) }
        ensures spelled { OnOk result (IsTrue (is_name bytes.now)) }
        ensures bad { result ≡ Err NameFault.BadName ↔ IsTrue (not (is_name bytes.now)) }
    {
        if !is_name(bytes) {
            return Err(NameFault::BadName);
        }
        match shared_bytes(alloc, bytes) {
            Ok(bytes) => Ok(Name { bytes }),
            Err(_) => Err(NameFault::Memory),
        }
    }

    /// The bytes in order.
    pub fn as_bytes(&self) -> &[u8]
        ensures bytes { result.now ≡ self.now }
        ensures name { IsTrue (is_name self.now) }
    {
        self.bytes.as_slice()
    }
}

impl PartialEq for Name {
    ghost eq = { pointwise nat_eq };

    ghost laws = { partial_equiv_from_equiv nat_list_eq_equiv };

    fn eq(&self, other: &Self) -> bool {
        *self.bytes == *other.bytes
    }
}

impl Eq for Name {
    ghost laws = { nat_list_eq_equiv };
}

impl PartialOrd for Name {
    ghost partial_cmp = { λ name other. Some (slice_cmp nat_cmp name other) };

    ghost laws = { texts_po };

    fn partial_cmp(&self, other: &Self) -> Option<Ordering> {
        Some(self.cmp(other))
    }
}

impl Ord for Name {
    ghost cmp = { slice_cmp nat_cmp };

    ghost total = { nat_list_cmp_total };

    ghost matches_partial_cmp = { λ name other. refl };

    ghost matches_eq = { λ name other. texts_ties name other };

    fn cmp(&self, other: &Self) -> Ordering {
        (*self.bytes).cmp(&*other.bytes)
    }
}

impl Copied for Name {
    fn copy(&self, _alloc: Global) -> Result<Self, AllocError> {
        let bytes = self.bytes.clone()?;
        Ok(Name { bytes })
    }
}

impl Same for Name {
    fn is_same(&self, other: &Self) -> bool {
        (*self.bytes).is_same(&*other.bytes)
    }
}

// Whether the bytes are spelled as a name.
fn is_name(bytes: &[u8]) -> bool
    ensures { result ≡ is_name bytes.now }
{
    match bytes {
        [] => false,
        [first, rest @ ..] => { is_lower(*first) && rest.len() <= 31 && are_name_bytes(rest) }
    }
}

fn are_name_bytes(bytes: &[u8]) -> bool
    ensures { result ≡ list_all is_name_byte bytes.now }
{
    bytes.iter().all(|b| is_name_byte(*b))
}

fn is_lower(b: u8) -> bool
    ensures { result ≡ is_lower b }
{
    97 <= b && b <= 122
}

fn is_name_byte(b: u8) -> bool
    ensures { result ≡ is_name_byte b }
{
    is_lower(b) || (48 <= b && b <= 57) || b == 95
}
