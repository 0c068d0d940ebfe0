// Texts: the bytes of a value of a text column.
ghost use Rattle.std.specs.Prelude.{◌≡◌, IfOk, ◌==◌, ◌<◌, not, IsTrue, IfSome, length, position};
ghost use Rattle.std.specs.Prelude.{Some, nat_eq, refl};
ghost use Rattle.std.specs.Ordering.{nat_cmp};
ghost use Rattle.std.specs.Hash as fed;
ghost use Rattle.std.specs.Cmp.{partial_equiv_from_equiv};
ghost use Rattle.std.specs.Cmp.Lexicographic.{pointwise, slice_cmp, nat_list_cmp_total, nat_list_eq_equiv, texts_po, texts_ties};
ghost use Rattle.sx_values.specs.Texts.{is_text, is_printable, null_word};
ghost use Rattle.sx_values.specs.ValueLaws.{same_bytes_fed};
ghost use Rattle.sx_values.specs.TextFaults.{text_fault};
ghost use Rattle.sx_lists.specs.Answers.{RefusesBy};

use crate::shared::shared_bytes;
use std::alloc::{AllocError, Global};
use std::cmp::Ordering;
use std::hash::{Hash, Hasher};
use std::marker::Model;
use std::sync::Arc;
use sx_lists::{Copied, List, Same};

/// Up to 64 printable bytes that aren't the word `NULL`. Its copies share its bytes.
#[derive(Debug, Drop)]
pub struct Text {
    bytes: Arc<List<u8>>,
}

impl Model for Text {
    ghost use Rattle.std.specs.Prelude.{List, ℕ, IsTrue};
    ghost use Rattle.std.specs.Coded.{coded_list, coded_ℕ};
    ghost use Rattle.sx_values.specs.Texts.{is_text};

    ghost Value = { List ℕ };

    ghost coded = { coded_list coded_ℕ };

    ghost view = { λ t. t.bytes.value };

    ghost invariant = { λ t. IsTrue (is_text t.bytes.value) };
}

/// Why bytes are no text.
#[derive(Clone, Copy, Debug, PartialEq, Eq)]
pub enum TextFault {
    /// There is no memory for a copy of them.
    Memory,
    /// They are more than 64.
    TooLong { len: u64 },
    /// The byte at this place from 1 isn't printable; it is the first such.
    BadByte { at: u64 },
    /// They are the word that stands for Null.
    IsNull,
}

impl Text {
    /// The text of these bytes. The faults come in their order.
    pub fn new(alloc: Global, bytes: &[u8]) -> Result<Text, TextFault>
        ensures text { IfOk result (λ text. text ≡ bytes.now) }
        ensures fault { RefusesBy (text_fault bytes.now) TextFault.Memory result }
    {
        if let Some(fault) = fault_of(bytes) {
            return Err(fault);
        }
        match shared_bytes(alloc, bytes) {
            Ok(bytes) => Ok(Text { bytes }),
            Err(_) => Err(TextFault::Memory),
        }
    }

    /// The bytes in order.
    pub fn as_bytes(&self) -> &[u8]
        ensures bytes { result.now ≡ self.now }
        ensures text { IsTrue (is_text self.now) }
    {
        self.bytes.as_slice()
    }
}

impl PartialEq for Text {
    ghost eq = { pointwise nat_eq };

    ghost laws = { partial_equiv_from_equiv nat_list_eq_equiv };

    fn eq(&self, other: &Self) -> bool {
        *self.bytes == *other.bytes
    }
}

impl Eq for Text {
    ghost laws = { nat_list_eq_equiv };
}

impl PartialOrd for Text {
    ghost partial_cmp = { λ text other. Some (slice_cmp nat_cmp text other) };

    ghost laws = { texts_po };

    fn partial_cmp(&self, other: &Self) -> Option<Ordering> {
        Some(self.cmp(other))
    }
}

impl Ord for Text {
    ghost cmp = { slice_cmp nat_cmp };

    ghost total = { nat_list_cmp_total };

    ghost matches_partial_cmp = { λ text other. refl };

    ghost matches_eq = { λ text other. texts_ties text other };

    fn cmp(&self, other: &Self) -> Ordering {
        (*self.bytes).cmp(&*other.bytes)
    }
}

impl Hash for Text {
    ghost hash_input = { λ bytes. fed.slice fed.u8 bytes };

    ghost respects_eq = { same_bytes_fed };

    fn hash<H: Hasher>(&self, state: &mut H) {
        (*self.bytes).hash(state);
    }
}

impl Copied for Text {
    fn copy(&self, _alloc: Global) -> Result<Self, AllocError> {
        let bytes = self.bytes.clone()?;
        Ok(Text { bytes })
    }
}

impl Same for Text {
    fn is_same(&self, other: &Self) -> bool {
        (*self.bytes).is_same(&*other.bytes)
    }
}

// The first fault of bytes as a text, but for want of memory.
fn fault_of(bytes: &[u8]) -> Option<TextFault>
    ensures { result ≡ text_fault bytes.now }
{
    if bytes.len() > 64 {
        return Some(TextFault::TooLong {
            len: bytes.len() as u64,
        });
    }
    match first_unprintable(bytes) {
        Some(index) => Some(TextFault::BadByte {
            at: index as u64 + 1,
        }),
        None if is_null_word(bytes) => Some(TextFault::IsNull),
        None => None,
    }
}

fn first_unprintable(bytes: &[u8]) -> Option<usize>
    ensures index { result ≡ position (λ b. not (is_printable b)) bytes.now }
    ensures small { IfSome result (λ index. index < length bytes.now) }
{
    bytes.iter().position(|b| !is_printable(*b))
}

fn is_null_word(bytes: &[u8]) -> bool
    ensures { result ≡ pointwise ◌==◌ bytes.now null_word }
{
    bytes == b"NULL".as_slice()
}

fn is_printable(b: u8) -> bool
    ensures { result ≡ is_printable b }
{
    0x20 <= b && b <= 0x7E
}
