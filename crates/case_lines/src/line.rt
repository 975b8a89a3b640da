// The parts of a line, which stand between blanks. Those behind the last `=` say what is wanted.
ghost use Rattle.std.specs.Prelude.{ℕ, ◌≡◌, ◌+◌, ◌<◌, ◌≤◌, drop, length, map, replicate, take};
ghost use Rattle.std.specs.Prelude.{option_and_then, option_map, slice_get, slice_index};
ghost use Rattle.std.specs.Int.{to_be_bytes, w64};
ghost use Rattle.std.specs.Io.BufRead.{strip_last};
ghost use Rattle.case_lines.specs.Numbers.{number_of};
ghost use Rattle.case_lines.specs.Parts.{behind_equals, config_of, is_equals, last_equals, letters, number, number_at, parts_of};

use crate::number::{is_numeral, number_of};
use geometry::Config;

#[derive(Clone, Copy, Debug)]
pub struct Line<'a> {
    pub text: &'a [u8],
    // the index of the first part that says what is wanted: behind the last `=`, unless it was given
    pub wanted: Option<usize>,
    // the numbers of its parts, so that each is read once
    numbers: [u64; 40],
    count: usize,
    ghost few: { count ≤ 40 },
    ghost read: { take count numbers ≡ map number_of (parts_of text.now) },
    // Behind them stand zeros, so that a line is given by its text and the index alone.
    ghost long: { length numbers ≡ 40 },
    ghost rest: { drop count numbers ≡ drop count (replicate 40 0) },
}

// A word of up to 8 letters, with zeros before them: the bytes of a number, the highest first. It is read by way of the number,
// since a numeral with the same bytes names the word too, and of more than 8 letters the last 8 count.
#[derive(Clone, Copy, Debug, PartialEq, Eq)]
pub struct Word(pub [u8; 8]);

impl Word {
    // Its bytes behind the zeros.
    pub fn letters(&self) -> &[u8]
        ensures { result.now ≡ letters self.now.0 }
    {
        let zeros = self.0.iter().take_while(|b| **b == 0).count();
        &self.0[zeros..]
    }
}

// Whether a part is the sign before what is wanted.
fn is_equals(part: &[u8]) -> bool
    ensures { result ≡ is_equals part.now }
{
    !is_numeral(part) && number_of(part) == u64::from(b'=')
}

// The index of the last such part.
fn last_equals(text: &[u8]) -> Option<usize>
    ensures { result ≡ last_equals text.now }
{
    let parts = text.split(|b| *b == b' ').filter(|part| !part.is_empty());
    parts
        .enumerate()
        .filter(|(_, part)| is_equals(*part))
        .map(|(at, _)| at)
        .last()
}

// The index behind it.
fn behind_equals(text: &[u8]) -> Option<usize>
    ensures { result ≡ behind_equals text.now }
{
    let at = last_equals(text)?;
    Some(at + 1)
}

// Writes the numbers of the parts that are read to the front of a row, and returns how many they are. What stands behind
// them stays.
fn put_numbers(text: &[u8], numbers: &mut [u64; 40]) -> usize
    ensures few { result ≤ 40 }
    ensures read { take result numbers.new ≡ map number_of (parts_of text.now) }
    ensures rest { drop result numbers.new ≡ drop result numbers.old }
{
    let mut count = 0;
    let parts = text
        .split(|b| *b == b' ')
        .filter(|part| !part.is_empty())
        .take(Line::PARTS);
    for number in parts.map(|part| number_of(part)) {
        numbers[count] = number;
        count += 1;
    }
    count
}

impl<'a> Line<'a> {
    // No more parts are read.
    pub const PARTS: usize = 40;

    // A line, with its newline or without.
    pub fn of(line: &'a [u8]) -> Line<'a>
        ensures text { result.text.now ≡ strip_last 10 line.now }
        ensures wanted { result.wanted ≡ behind_equals (strip_last 10 line.now) }
    {
        let text = match line {
            [text @ .., b'\n'] => text,
            text => text,
        };
        let mut numbers = [0; 40];
        let count = put_numbers(text, &mut numbers);
        Line {
            text,
            wanted: behind_equals(text),
            numbers,
            count,
        }
    }

    // A line of a text as it stands, a newline at its end included, with any index for what is wanted. `of` does not go by
    // way of it: that copies the line once more, and costs `address_cases` up to a tenth more instructions.
    pub fn new(text: &'a [u8], wanted: Option<usize>) -> Line<'a>
        ensures text { result.text ≡ text.entry }
        ensures wanted { result.wanted ≡ wanted }
    {
        let mut row = [0; 40];
        let count = put_numbers(text, &mut row);
        Line {
            text,
            wanted,
            numbers: row,
            count,
        }
    }

    // The part at an index, if there is one.
    pub fn part(&self, i: usize) -> Option<&'a [u8]>
        ensures { option_map (λ part. part.now) result ≡ slice_get (parts_of self.now.text.now) i }
    {
        self.text
            .split(|b| *b == b' ')
            .filter(|part| !part.is_empty())
            .take(Self::PARTS)
            .nth(i)
    }

    // The number of the part at an index, if there is one.
    pub fn number_at(&self, i: usize) -> Option<u64>
        ensures { result ≡ number_at self.now.text.now i }
    {
        self.numbers[..self.count].get(i).copied()
    }

    // The number of the part at an index; 0 past the last.
    pub fn number(&self, i: usize) -> u64
        ensures { result ≡ number self.now.text.now i }
    {
        self.number_at(i).unwrap_or(0)
    }

    // The part at an index as a word.
    pub fn word(&self, i: usize) -> Word
        ensures { result.0 ≡ to_be_bytes w64 (number self.now.text.now i) }
    {
        Word(self.number(i).to_be_bytes())
    }

    // The number that stands so many behind the next part after an index.
    fn argument(&self, i: usize, k: usize) -> u64
        ensures { result ≡ number self.now.text.now (i + 1 + k) }
    {
        self.number(i.saturating_add(k).saturating_add(1))
    }

    // The numbers behind the part at an index.
    pub fn arguments<const N: usize>(&self, i: usize) -> [u64; N]
        ensures { (k : ℕ) → k < N → slice_index result k ≡ number self.now.text.now (i + 1 + k) }
    {
        std::array::from_fn(|k| self.argument(i, k))
    }

    // The number that stands so many behind the first part of what is wanted.
    pub fn wanted(&self, k: usize) -> Option<u64>
        ensures { result ≡ option_and_then (λ at. number_at self.now.text.now (at + k)) self.now.wanted }
    {
        self.number_at(self.wanted?.checked_add(k)?)
    }
}

// The configuration of seven numbers.
pub fn config_of(numbers: [u64; 7]) -> Config
    ensures { result ≡ config_of numbers }
{
    let [pages, dies, planes, adus, blocks, rated, period] = numbers;
    Config {
        pages,
        dies,
        planes,
        adus,
        blocks,
        rated,
        period,
    }
}
