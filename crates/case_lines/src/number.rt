// The number of a part of a line: a decimal one, a hexadecimal one behind 0x, or the bytes of a word.
ghost use Rattle.std.specs.Prelude.{◌≡◌, ◌==◌, ◌≤◌};
ghost use Rattle.std.specs.List.{position};
ghost use Rattle.case_lines.specs.Numbers.{digit, in_base, is_numeral, number_of, with_digit, word_of};

// The value of a digit. What is none counts 16, since a script may have any letters behind `0x`.
fn digit(b: u8) -> u64
    ensures { result ≡ digit b }
{
    match b {
        b'0'..=b'9' => u64::from(b - b'0'),
        b'a'..=b'f' => u64::from(b - b'a' + 10),
        _ => 16,
    }
}

// A number with one digit more; the highest bits fall off.
fn with_digit(base: u64, n: u64, value: u64) -> u64
    ensures { result ≡ with_digit base n value }
{
    n.wrapping_mul(base).wrapping_add(value)
}

fn in_base(base: u64, digits: &[u8]) -> u64
    ensures { result ≡ in_base base digits.now }
{
    digits.iter().fold(0, |n, b| with_digit(base, n, digit(*b)))
}

fn word_of(text: &[u8]) -> u64
    ensures { result ≡ word_of text.now }
{
    text.iter()
        .fold(0, |n, b| with_digit(256, n, u64::from(*b)))
}

// Whether it begins with a digit, and is no word.
pub(crate) fn is_numeral(text: &[u8]) -> bool
    ensures { result ≡ is_numeral text.now }
{
    matches!(text, [b'0'..=b'9', ..])
}

// Where the first x stands.
fn x_of(text: &[u8]) -> Option<usize>
    ensures { result ≡ position (λ b. b == 120) text.now }
{
    text.iter().position(|b| *b == b'x')
}

pub(crate) fn number_of(text: &[u8]) -> u64
    ensures { result ≡ number_of text.now }
{
    if !is_numeral(text) {
        return word_of(text);
    }
    match x_of(text) {
        Some(x) => in_base(16, &text[x + 1..]),
        None => in_base(10, text),
    }
}
