// The arguments of a line, one after the other.
ghost use Rattle.std.specs.Prelude.{◌≡◌, ◌<◌, ◌≤◌, length};
ghost use Rattle.script_lines.specs.Arguments.{arguments_of, block_of, buffer_of, length_of, listed_of, taken, way_of};

use crate::keywords::{Expected, Keyword};
use crate::numbers::number_of;
use crate::words::{Mark, first_mark};
use model::Listed;

// Where a line goes wrong: what was expected, and how many bytes stand before that place.
#[derive(Clone, Copy)]
pub struct Fault {
    pub expected: Expected,
    pub at: usize,
}

// Write by placement or by block.
#[derive(Clone, Copy)]
pub enum Way {
    Placement,
    Block,
}

#[derive(Clone, Copy)]
pub enum Buffer {
    Store,
    Words,
    Bytes,
}

// How much is lent. No Option: `full` is a length that a script asks for.
#[derive(Clone, Copy)]
pub enum Length {
    // as long as the drive needs it
    Full,
    Entries(u64),
}

// What the arguments are: each number at its place, and the others by their kind. What is not read has some value and is no
// Option: `form` says which are read.
#[derive(Clone, Copy)]
pub struct Arguments {
    pub numbers: [u64; 7],
    pub way: Way,
    pub listed: Listed,
    pub buffer: Buffer,
    pub length: Length,
}

// What stands where nothing is read.
const UNREAD: Arguments = Arguments {
    numbers: [0; 7],
    way: Way::Placement,
    listed: Listed::Open,
    buffer: Buffer::Store,
    length: Length::Full,
};

fn block_of(text: &[u8]) -> Option<u64>
    ensures { result ≡ block_of text.now }
{
    match text {
        b"auto" => Some(0xffff_ffff),
        _ => number_of(text),
    }
}

fn way_of(text: &[u8]) -> Option<Way>
    ensures { result ≡ way_of text.now }
{
    match text {
        b"placement" => Some(Way::Placement),
        b"block" => Some(Way::Block),
        _ => None,
    }
}

fn listed_of(text: &[u8]) -> Option<Listed>
    ensures { result ≡ listed_of text.now }
{
    match text {
        b"open" => Some(Listed::Open),
        b"closed" => Some(Listed::Closed),
        _ => None,
    }
}

fn buffer_of(text: &[u8]) -> Option<Buffer>
    ensures { result ≡ buffer_of text.now }
{
    match text {
        b"store" => Some(Buffer::Store),
        b"words" => Some(Buffer::Words),
        b"bytes" => Some(Buffer::Bytes),
        _ => None,
    }
}

// Any number but the largest is a length.
fn length_of(text: &[u8]) -> Option<Length>
    ensures { result ≡ length_of text.now }
{
    match text {
        b"full" => Some(Length::Full),
        _ => match number_of(text)? {
            u64::MAX => None,
            n => Some(Length::Entries(n)),
        },
    }
}

impl Arguments {
    // These with the value of a word as argument i, if the word is what is expected there.
    fn with(self, i: usize, expected: Expected, text: &[u8]) -> Option<Self>
        requires { i < 7 }
        ensures { result ≡ taken self i expected text.now }
    {
        let mut all = self;
        match expected {
            Expected::Number => all.numbers[i] = number_of(text)?,
            Expected::Block => all.numbers[i] = block_of(text)?,
            Expected::Way => all.way = way_of(text)?,
            Expected::Listed => all.listed = listed_of(text)?,
            Expected::Buffer => all.buffer = buffer_of(text)?,
            Expected::Length => all.length = length_of(text)?,
            Expected::Keyword | Expected::LineEnd => return None,
        }
        Some(all)
    }
}

// The arguments of a keyword that ends at an index.
pub fn read_arguments(text: &[u8], keyword: Keyword, from: usize) -> Result<Arguments, Fault>
    requires { from ≤ length text.now }
    ensures { result ≡ arguments_of text.now keyword from }
{
    let mut read = UNREAD;
    let mut at = from;
    for (i, expected) in keyword.form().iter().enumerate() {
        let expected = *expected;
        let begin = first_mark(text, at, Mark::Word);
        let end = first_mark(text, begin, Mark::Blank);
        let fault = Fault {
            expected,
            at: begin,
        };
        read = read.with(i, expected, &text[begin..end]).ok_or(fault)?;
        at = end;
    }
    let rest = first_mark(text, at, Mark::Word);
    if rest < text.len() {
        return Err(Fault {
            expected: Expected::LineEnd,
            at: rest,
        });
    }
    Ok(read)
}
