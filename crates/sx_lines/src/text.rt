// The lines of a text, and their parts.
ghost use Rattle.std.specs.Prelude.{◌≡◌, ◌==◌, ◌+◌, ◌<◌, ◌≤◌, length, option_map, IfSome, IfOk, position};
ghost use Rattle.std.specs.List.{list_all};
ghost use Rattle.sx_values.specs.Texts.{is_printable};
ghost use Rattle.sx_lines.specs.Lines.{parted, next_line, behind, same_bytes, is_passed_over, is_short_name, named, when};

use std::alloc::{AllocError, Global};
use sx_values::{Name, NameFault};

// What stands before the first mark and what stands behind it, where there is a mark.
pub(crate) fn parted(mark: u8, bytes: &[u8]) -> Option<(&[u8], &[u8])>
    ensures parts { option_map (λ parts. (parts.0.now, parts.1.now)) result ≡ parted mark bytes.now }
    ensures less { IfSome result (λ parts. length parts.1.now < length bytes.now) }
{
    match index_of(mark, bytes) {
        Some(at) => {
            let (front, rest) = bytes.split_at(at);
            Some((front, rest.split_at(1).1))
        }
        None => None,
    }
}

// The index of the first mark.
fn index_of(mark: u8, bytes: &[u8]) -> Option<usize>
    ensures index { result ≡ position (λ b. b == mark) bytes.now }
    ensures within { IfSome result (λ index. index < length bytes.now) }
{
    bytes.iter().position(|b| *b == mark)
}

// What stands behind these bytes in a text that begins with them.
pub(crate) fn behind<'a>(front: &[u8], bytes: &'a [u8]) -> Option<&'a [u8]>
    ensures { option_map (λ rest. rest.now) result ≡ behind front.now bytes.now }
{
    bytes.strip_prefix(front)
}

pub(crate) fn same_bytes(one: &[u8], other: &[u8]) -> bool
    ensures { result ≡ same_bytes one.now other.now }
{
    one == other
}

/// Whether each byte is from the space to the tilde.
pub fn are_printable(bytes: &[u8]) -> bool
    ensures { result ≡ list_all is_printable bytes.now }
{
    bytes.iter().all(|b| 0x20 <= *b && *b <= 0x7E)
}

/// The first line of a text, without its line feed, and what stands behind it; none where the text is empty.
pub fn next_line(text: &[u8]) -> Option<(&[u8], &[u8])>
    ensures line { option_map (λ parts. (parts.0.now, parts.1.now)) result ≡ next_line text.now }
    ensures less { IfSome result (λ parts. length parts.1.now < length text.now) }
{
    if text.is_empty() {
        return None;
    }
    match parted(b'\n', text) {
        Some(parts) => Some(parts),
        None => Some((text, text.split_at(text.len()).1)),
    }
}

/// Whether a line has no meaning: an empty one, or a comment.
pub fn is_passed_over(line: &[u8]) -> bool
    ensures { result ≡ is_passed_over line.now }
{
    match line {
        [] => true,
        [first, ..] => *first == b'#',
    }
}

// The name that the bytes are, where they are one of up to 16 bytes.
pub(crate) fn short_name(alloc: Global, bytes: &[u8]) -> Result<Option<Name>, AllocError>
    ensures name { IfOk result (λ name. name ≡ when (is_short_name bytes.now) bytes.now) }
    ensures short { IfOk result (λ name. IfSome name (λ n. length n ≤ 16)) }
{
    if bytes.len() > 16 {
        return Ok(None);
    }
    match Name::new(alloc, bytes) {
        Ok(name) => Ok(Some(name)),
        Err(NameFault::BadName) => Ok(None),
        Err(NameFault::Memory) => Err(AllocError),
    }
}

// A name and what stands behind it and its space.
pub(crate) fn named<'a>(
    alloc: Global,
    text: &'a [u8],
) -> Result<Option<(Name, &'a [u8])>, AllocError>
    ensures { IfOk result (λ found. option_map (λ parts. (parts.0, parts.1.now)) found ≡ named text.now) }
{
    let Some((front, rest)) = parted(b' ', text) else {
        return Ok(None);
    };
    match short_name(alloc, front)? {
        Some(name) => Ok(Some((name, rest))),
        None => Ok(None),
    }
}
