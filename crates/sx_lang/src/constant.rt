// Constants of tests.
ghost use Rattle.std.specs.Prelude.{◌≡◌, ◌≤◌, ◌<◌, IfSome, length, option_map, take_while};
ghost use Rattle.sx_lang.specs.Parts.{back, front};
ghost use Rattle.sx_lang.specs.Reading.{Gives, closed, constant_at, int_at, is_int_byte, quoted_at, quoted_byte, text_at};

use crate::LangFault;
use std::alloc::Global;
use sx_text::int_of;
use sx_values::{Text, TextFault, Value};

// The constant at the front, and what stands behind it.
#[tactic(auto, unfolding(crate::specs::Reading::constant_at))]
pub(crate) fn constant_at(alloc: Global, text: &[u8]) -> Result<(Value, &[u8]), LangFault>
    ensures { Gives (λ read. (read.0, read.1.now)) result (constant_at text.now) }
{
    match text {
        [b'\'', rest @ ..] => text_at(alloc, rest),
        _ => int_at(text),
    }
}

// The text between quotes, behind the first, and what stands behind the second.
#[tactic(auto, using(crate::proofs::PartLaws::is_text_false), unfolding(crate::specs::Reading::text_at))]
fn text_at(alloc: Global, text: &[u8]) -> Result<(Value, &[u8]), LangFault>
    ensures { Gives (λ read. (read.0, read.1.now)) result (text_at text.now) }
{
    let (bytes, rest) = quoted_at(alloc, text)?;
    match Text::new(alloc, bytes.as_slice()) {
        Ok(text) => Ok((Value::Text(text), rest)),
        Err(TextFault::Memory) => Err(LangFault::Memory),
        Err(TextFault::TooLong { .. }) => Err(LangFault::NotText),
        Err(TextFault::BadByte { .. }) => Err(LangFault::NotText),
        Err(TextFault::IsNull) => Err(LangFault::NotText),
    }
}

// The bytes up to the closing quote, of two quotes one, and what stands behind it.
#[tactic(auto, using(crate::proofs::QuoteLaws::byte_taken, crate::proofs::QuoteLaws::bytes_end))]
fn quoted_at(alloc: Global, text: &[u8]) -> Result<(Vec<u8>, &[u8]), LangFault>
    ensures { Gives (λ read. (read.0.items, read.1.now)) result (quoted_at text.now) }
{
    let mut bytes = Vec::new(alloc);
    let mut left = text;
    loop {
        match quoted_byte(left) {
            Some((b, rest)) => {
                bytes.push(b)?;
                left = rest;
            }
            None => return Ok((bytes, closed(left)?)),
        }
    }
}

// The next byte between quotes, and what stands behind it; none at the closing quote and at the end.
fn quoted_byte(text: &[u8]) -> Option<(u8, &[u8])>
    ensures byte { option_map (λ read. (read.0, read.1.now)) result ≡ quoted_byte text.now }
    ensures shorter { IfSome result (λ read. length read.1.now < length text.now) }
{
    match text {
        [b'\'', b'\'', rest @ ..] => Some((b'\'', rest)),
        [b'\'', ..] => None,
        [b, rest @ ..] => Some((*b, rest)),
        [] => None,
    }
}

// What stands behind the closing quote.
fn closed(text: &[u8]) -> Result<&[u8], LangFault>
    ensures { Gives (λ rest. rest.now) result (closed text.now) }
{
    match text {
        [b'\'', rest @ ..] => Ok(rest),
        _ => Err(LangFault::NotText),
    }
}

// The number at the front, and what stands behind it.
#[tactic(auto, using(crate::proofs::PartLaws::take_front, crate::proofs::PartLaws::drop_front, crate::proofs::PartLaws::front_le), unfolding(crate::specs::Reading::int_at))]
fn int_at(text: &[u8]) -> Result<(Value, &[u8]), LangFault>
    ensures { Gives (λ read. (read.0, read.1.now)) result (int_at text.now) }
{
    let (digits, rest) = text.split_at(int_len(text));
    match int_of(digits).map(Value::Int) {
        Some(value) => Ok((value, rest)),
        None => Err(LangFault::NotText),
    }
}

// How many bytes of a number stand at the front.
fn int_len(text: &[u8]) -> usize
    ensures { result ≡ length (take_while is_int_byte text.now) }
{
    text.iter().take_while(|b| is_int_byte(**b)).count()
}

fn is_int_byte(b: u8) -> bool
    ensures { result ≡ is_int_byte b }
{
    matches!(b, b'0'..=b'9' | b'-')
}
