// The lines of a text and the words of a line: where one begins and ends.
ghost use Rattle.std.specs.Prelude.{◌≡◌, ◌≤◌, min, length};
ghost use Rattle.std.specs.Iterator.{at_most};
ghost use Rattle.script_lines.specs.Words.{CutsLine, first, is_blank, is_mark, line_end};

// What a line is searched for.
#[derive(Clone, Copy)]
pub enum Mark {
    // a byte that is no blank
    Word,
    // a space, a tab or a carriage return
    Blank,
    // the sign that starts a comment
    Comment,
    // the end of a line
    Newline,
}

fn is_blank(b: u8) -> bool
    ensures { result ≡ is_blank b }
{
    matches!(b, b' ' | b'\t' | b'\r')
}

fn is_mark(mark: Mark, b: u8) -> bool
    ensures { result ≡ is_mark mark b }
{
    match mark {
        Mark::Word => !is_blank(b),
        Mark::Blank => is_blank(b),
        Mark::Comment => b == b'#',
        Mark::Newline => b == b'\n',
    }
}

// Where the first such byte stands, from an index on; the line's length where there is none.
pub fn first_mark(line: &[u8], at: usize, mark: Mark) -> usize
    requires { at ≤ length line.now }
    ensures value { result ≡ first mark line.now at }
    ensures in_range { (at ≤ result) × (result ≤ length line.now) }
{
    let rest = &line[at..];
    match rest.iter().position(|b| is_mark(mark, *b)) {
        Some(passed) => at + passed,
        None => line.len(),
    }
}

// Where the line of a text that begins at an index ends.
pub fn line_end(text: &[u8], from: usize) -> usize
    ensures value { result ≡ line_end text.now from }
    ensures in_range { (min from (length text.now) ≤ result) × (result ≤ length text.now) }
{
    if text.len() < from {
        return text.len();
    }
    first_mark(text, from, Mark::Newline)
}

// The lines of a text, one after the other, each with its newline. The last may lack it.
#[derive(Drop)]
pub struct Lines<'a> {
    rest: &'a [u8],
}

impl<'a> Lines<'a> {
    pub fn of(text: &'a [u8]) -> Lines<'a>
        ensures { result.rest.now ≡ text.now }
    {
        Lines { rest: text }
    }
}

impl<'a> Iterator for Lines<'a> {
    type Item = &'a [u8];

    ghost next_gives = { λ s line t. CutsLine s.rest.now line t.rest.now };

    ghost remaining = { λ s. at_most (length s.rest.now) };

    fn next(&mut self) -> Option<&'a [u8]> {
        let text = self.rest;
        if text.is_empty() {
            return None;
        }
        let behind = text.len().min(line_end(text, 0) + 1);
        self.rest = &text[behind..];
        Some(&text[..behind])
    }
}
