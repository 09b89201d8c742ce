//! The words of a line, and numbers.
ghost use Rattle.std.specs.Prelude.{◌≡◌, ℕ, ◌∷◌, [], MatchOption, IsTrue, ◌↔◌, ◌≤◌};
ghost use Rattle.std.specs.Option.{option_map};
ghost use Rattle.esync_words.specs.Words.{words_of, parts_of, number, numbers, at_most, bytes_of, first_number, behind, nothing, one, two, row, and_then, number_and_values};
ghost use Rattle.esync_words.specs.Perhaps.{perhaps, perhaps_two, perhaps_one_or_three, one_or_two, one_two_or_four};

use crate::bits::Bits;
use arrayvec::ArrayVec;
use std::marker::Model;

/// The greatest number of bytes that a word can write.
pub const BYTES: usize = 4096;

const PLUS: char = '+';

/// The words of a line that are still to be read: its parts between spaces. Two spaces side by side, or a space at an
/// end, make an empty word, which is no name and no number.
#[derive(Drop)]
pub struct Words<'a> {
    rest: Option<&'a str>,
}

impl<'a> Model for Words<'a> {
    ghost use Rattle.std.specs.Prelude.{ℕ, List};
    ghost use Rattle.esync_words.specs.WordsView.{words_left};

    ghost Value = { List (List ℕ) };

    ghost view = { λ a. words_left a.rest };
}

impl<'a> Words<'a> {
    /// Returns all words of the line.
    pub fn of(line: &'a str) -> Self
        ensures { result ≡ words_of line.now }
    {
        Words { rest: Some(line) }
    }

    /// Takes the next word, if one is left.
    pub fn word(&mut self) -> Option<&'a str>
        ensures { MatchOption result ((self.old ≡ []) × (self.new ≡ [])) (λ word. self.old ≡ word.now ∷ self.new) }
    {
        let rest = self.rest?;
        match rest.split_once(' ') {
            Some((word, behind)) => {
                self.rest = Some(behind);
                Some(word)
            }
            None => {
                self.rest = None;
                Some(rest)
            }
        }
    }

    /// Takes the next word, and returns the number that it writes, if it writes one.
    pub fn next_number(&mut self) -> Option<u64>
        ensures number { result ≡ first_number 64 self.old }
        ensures rest { self.new ≡ behind self.old }
    {
        read_number(self.word()?)
    }

    // Takes the next word, and returns the value of so many bits that it writes, if it writes one.
    fn next_value(&mut self, bits: Bits) -> Option<u64>
        ensures number { result ≡ first_number bits self.old }
        ensures rest { self.new ≡ behind self.old }
    {
        read_value(self.word()?, bits)
    }

    // Returns whether no word is left.
    fn is_over(mut self) -> bool
        ensures { IsTrue result ↔ (self.entry ≡ []) }
    {
        self.word().is_none()
    }

    /// Returns `Some` if no word is left.
    pub fn nothing(self) -> Option<()>
        ensures { result ≡ nothing self.entry }
    {
        self.is_over().then_some(())
    }

    /// Returns the number that the last word writes. Returns `None` if it writes none, or more words are left.
    pub fn number(mut self) -> Option<u64>
        ensures { result ≡ one 64 self.entry }
    {
        let number = self.next_number()?;
        self.is_over().then_some(number)
    }

    /// Returns the value of so many bits that the last word writes. Returns `None` if it writes none, or more words are
    /// left.
    pub fn value(mut self, bits: Bits) -> Option<u64>
        ensures { result ≡ one bits self.entry }
    {
        let value = self.next_value(bits)?;
        self.is_over().then_some(value)
    }

    /// Returns the numbers that the last two words write, if they are the last and write numbers.
    pub fn two_numbers(mut self) -> Option<(u64, u64)>
        ensures { result ≡ two 64 64 self.entry }
    {
        let first = self.next_number()?;
        let second = self.number()?;
        Some((first, second))
    }

    /// Returns the number and the value that the last two words write, if they are the last and write these.
    pub fn number_and_value(mut self, bits: Bits) -> Option<(u64, u64)>
        ensures { result ≡ two 64 bits self.entry }
    {
        let number = self.next_number()?;
        let value = self.value(bits)?;
        Some((number, value))
    }

    // Returns the value that the last word writes, if there is a word.
    fn value_if_any(mut self, bits: Bits) -> Option<Option<u64>>
        ensures { result ≡ perhaps bits self.entry }
    {
        match self.word() {
            Some(word) => {
                let value = read_value(word, bits)?;
                self.is_over().then_some(Some(value))
            }
            None => Some(None),
        }
    }

    // Returns the numbers that the last two words write, if there are words.
    fn two_numbers_if_any(mut self) -> Option<Option<(u64, u64)>>
        ensures { result ≡ perhaps_two 64 self.entry }
    {
        match self.word() {
            Some(word) => {
                let first = read_number(word)?;
                let second = self.number()?;
                Some(Some((first, second)))
            }
            None => Some(None),
        }
    }

    // Returns no number, one or three: as many as there are words, which write nothing else.
    fn one_or_three_numbers_if_any(mut self) -> Option<Option<(u64, Option<(u64, u64)>)>>
        ensures { result ≡ perhaps_one_or_three 64 self.entry }
    {
        match self.word() {
            Some(word) => {
                let first = read_number(word)?;
                let more = self.two_numbers_if_any()?;
                Some(Some((first, more)))
            }
            None => Some(None),
        }
    }

    /// Returns one number, two or four: as many as there are words, which write nothing else.
    pub fn one_two_or_four_numbers(mut self) -> Option<(u64, Option<(u64, Option<(u64, u64)>)>)>
        ensures { result ≡ one_two_or_four 64 self.entry }
    {
        let first = self.next_number()?;
        let more = self.one_or_three_numbers_if_any()?;
        Some((first, more))
    }

    /// Returns a number, and a value if there is a word for it.
    pub fn number_and_value_if_any(mut self, bits: Bits) -> Option<(u64, Option<u64>)>
        ensures { result ≡ one_or_two 64 bits self.entry }
    {
        let number = self.next_number()?;
        let if_any = self.value_if_any(bits)?;
        Some((number, if_any))
    }

    /// Returns the number and the two values that the last three words write, if they are the last and write these.
    pub fn number_and_two_values(mut self, bits: Bits) -> Option<(u64, u64, u64)>
        ensures { result ≡ number_and_values bits self.entry }
    {
        let number = self.next_number()?;
        let first = self.next_value(bits)?;
        let second = self.value(bits)?;
        Some((number, first, second))
    }

    /// Returns the bytes that the last word writes, at most so many: numbers below 256 with commas between them, or a
    /// dash for no bytes.
    pub fn bytes(mut self, most: usize) -> Option<ArrayVec<u8, BYTES>>
        requires { most ≤ BYTES }
        ensures { option_map (λ bytes. bytes.items) result ≡ row most self.entry }
    {
        let bytes = read_bytes(self.word()?, most)?;
        self.is_over().then_some(bytes)
    }
}

// Returns the number that the digits write, unless it is too large for its type. `parse` would also take a plus before
// them.
fn read_number(word: &str) -> Option<u64>
    ensures { result ≡ number 64 word.now }
{
    if word.starts_with(PLUS) {
        return None;
    }
    word.parse().ok()
}

// Returns the value of so many bits that the digits write.
fn read_value(word: &str, bits: Bits) -> Option<u64>
    ensures { result ≡ number bits word.now }
{
    bits.value(read_number(word)?)
}

fn read_byte(word: &str) -> Option<u8>
    ensures { result ≡ number 8 word.now }
{
    u8::try_from(read_number(word)?).ok()
}

// Returns the bytes that the word writes, unless they are too many.
fn read_bytes(word: &str, most: usize) -> Option<ArrayVec<u8, BYTES>>
    requires { most ≤ BYTES }
    ensures { option_map (λ bytes. bytes.items) result ≡ bytes_of most word.now }
{
    match word {
        "-" => Some(ArrayVec::new()),
        _ => read_list(word, most),
    }
}

// Returns the bytes between the commas.
fn read_list(word: &str, most: usize) -> Option<ArrayVec<u8, BYTES>>
    requires { most ≤ BYTES }
    ensures { option_map (λ bytes. bytes.items) result ≡ and_then (numbers 8 (parts_of 44 word.now)) (at_most most) }
{
    let mut bytes = ArrayVec::new();
    let mut rest = word;
    while bytes.len() < most {
        let Some((part, behind)) = rest.split_once(',') else {
            bytes.push(read_byte(rest)?);
            return Some(bytes);
        };
        bytes.push(read_byte(part)?);
        rest = behind;
    }
    None
}
