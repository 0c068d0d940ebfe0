// A reader of a line's words.
ghost use Rattle.std.specs.Prelude.{◌≡◌, ◌==◌, ◌<◌, IfSome, length, option_map, position};
ghost use Rattle.sx_text.specs.Words.{before, behind, left_after, next_number, next_word};

use crate::number::number_of;
use std::marker::Model;

/// What is left of a line, whose words are parted by one space.
#[derive(Drop)]
pub struct Reader<'a> {
    left: &'a [u8],
}

impl<'a> Model for Reader<'a> {
    ghost use Rattle.std.specs.Prelude.{List, ℕ};
    ghost use Rattle.std.specs.Coded.{coded_list, coded_ℕ};

    ghost Value = { List ℕ };

    ghost coded = { coded_list coded_ℕ };

    ghost view = { λ reader. reader.left.now };
}

impl<'a> Reader<'a> {
    /// A reader at the start of a line.
    pub fn new(line: &'a [u8]) -> Reader<'a>
        ensures { result ≡ line.now }
    {
        Reader { left: line }
    }

    /// What is left of the line.
    pub fn rest(&self) -> &'a [u8]
        ensures { result.now ≡ self.now }
    {
        self.left
    }

    /// The bytes up to the next space or the end; that space is passed. None, and no step, at the end and before a space.
    pub fn word(&mut self) -> Option<&'a [u8]>
        ensures word { option_map (λ word. word.now) result ≡ next_word self.old }
        ensures left { self.new ≡ left_after (next_word self.old) self.old }
    {
        let (word, left) = parted(self.left);
        if word.is_empty() {
            return None;
        }
        self.left = left;
        Some(word)
    }

    /// The number that the next word stands for within `u64`; the word and its space are passed. None, and no step, where
    /// there is no word or it is no decimal number without sign and leading zeros.
    pub fn number(&mut self) -> Option<u64>
        ensures number { result ≡ next_number self.old }
        ensures left { self.new ≡ left_after (next_number self.old) self.old }
    {
        let (word, left) = parted(self.left);
        let number = number_of(word)?;
        self.left = left;
        Some(number)
    }
}

// What stands before the first space, and behind it.
fn parted(line: &[u8]) -> (&[u8], &[u8])
    ensures word { result.0.now ≡ before 32 line.now }
    ensures left { result.1.now ≡ behind 32 line.now }
{
    match space_in(line) {
        Some(at) => {
            let (word, left) = line.split_at(at);
            (word, left.split_at(1).1)
        }
        None => (line, line.split_at(line.len()).1),
    }
}

// The index of the first space.
fn space_in(line: &[u8]) -> Option<usize>
    ensures index { result ≡ position (λ b. b == 32) line.now }
    ensures small { IfSome result (λ index. index < length line.now) }
{
    line.iter().position(|b| *b == b' ')
}
