// Words, names and comparisons at the front of a text.
ghost use Rattle.std.specs.Prelude.{◌≡◌, ◌≤◌, length, option_map, take_while};
ghost use Rattle.sx_values.specs.Texts.{is_digit, is_lower, is_name_byte};
ghost use Rattle.sx_lang.specs.Parts.{back, behind_word, front};
ghost use Rattle.sx_lang.specs.Reading.{Gives, cmp_at, is_int_byte, last_name, name_at};

use crate::LangFault;
use std::alloc::Global;
use sx_ops::Cmp;
use sx_values::{Name, NameFault};

// What stands behind a word in a text that begins with it.
pub(crate) fn behind_word<'a>(text: &'a [u8], word: &[u8]) -> Option<&'a [u8]>
    ensures { option_map (λ rest. rest.now) result ≡ behind_word word.now text.now }
{
    match word {
        [] => Some(text),
        [c, word @ ..] => match text {
            [b, text @ ..] if *b == *c => behind_word(text, word),
            _ => None,
        },
    }
}

// The same, where nothing else may stand.
pub(crate) fn behind<'a>(text: &'a [u8], word: &[u8]) -> Result<&'a [u8], LangFault>
    ensures { Gives (λ rest. rest.now) result (behind_word word.now text.now) }
{
    match behind_word(text, word) {
        Some(rest) => Ok(rest),
        None => Err(LangFault::NotText),
    }
}

// The name at the front, and what stands behind it.
#[tactic(auto, using(crate::proofs::PartLaws::take_front, crate::proofs::PartLaws::drop_front, crate::proofs::PartLaws::front_le), unfolding(crate::specs::Reading::name_at, crate::specs::Reading::last_name))]
pub(crate) fn name_at(alloc: Global, text: &[u8]) -> Result<(Name, &[u8]), LangFault>
    ensures { Gives (λ read. (read.0, read.1.now)) result (name_at text.now) }
{
    let (name, rest) = text.split_at(name_len(text));
    Ok((last_name(alloc, name)?, rest))
}

// The name that a text is.
#[tactic(auto, using(crate::proofs::PartLaws::long_name, crate::proofs::PartLaws::short_name, crate::proofs::PartLaws::bad_name), unfolding(crate::specs::Reading::last_name))]
pub(crate) fn last_name(alloc: Global, text: &[u8]) -> Result<Name, LangFault>
    ensures { Gives (λ name. name) result (last_name text.now) }
{
    if text.len() > 16 {
        return Err(LangFault::NotText);
    }
    match Name::new(alloc, text) {
        Ok(name) => Ok(name),
        Err(NameFault::BadName) => Err(LangFault::NotText),
        Err(NameFault::Memory) => Err(LangFault::Memory),
    }
}

// How many bytes of a name stand at the front.
fn name_len(text: &[u8]) -> usize
    ensures { result ≡ length (take_while is_name_byte text.now) }
{
    text.iter().take_while(|b| is_name_byte(**b)).count()
}

fn is_name_byte(b: u8) -> bool
    ensures { result ≡ is_name_byte b }
{
    matches!(b, b'a'..=b'z' | b'0'..=b'9' | b'_')
}

// The comparison at the front, and what stands behind it.
#[tactic(auto, unfolding(crate::specs::Reading::cmp_at))]
pub(crate) fn cmp_at(text: &[u8]) -> Result<(Cmp, &[u8]), LangFault>
    ensures { Gives (λ read. (read.0, read.1.now)) result (cmp_at text.now) }
{
    match text {
        [b'=', rest @ ..] => Ok((Cmp::Eq, rest)),
        [b'<', b'>', rest @ ..] => Ok((Cmp::Ne, rest)),
        [b'<', b'=', rest @ ..] => Ok((Cmp::Le, rest)),
        [b'<', rest @ ..] => Ok((Cmp::Lt, rest)),
        [b'>', b'=', rest @ ..] => Ok((Cmp::Ge, rest)),
        [b'>', rest @ ..] => Ok((Cmp::Gt, rest)),
        _ => Err(LangFault::NotText),
    }
}
