// Numbers: decimal, or hexadecimal behind 0x.
ghost use Rattle.std.specs.Prelude.{◌≡◌, ◌≤◌};
ghost use Rattle.script_lines.specs.Numbers.{number_in, number_of};

// The number whose digits in a base these are: at least one digit, and no more than 64 bits.
fn number_in(base: u32, text: &[u8]) -> Option<u64>
    requires { (2 ≤ base) × (base ≤ 16) }
    ensures { result ≡ number_in base text.now }
{
    if text.is_empty() {
        return None;
    }
    let mut n: u64 = 0;
    for b in text {
        let digit = char::from(*b).to_digit(base)?;
        n = n
            .checked_mul(u64::from(base))?
            .checked_add(u64::from(digit))?;
    }
    Some(n)
}

// What a word stands for as a number.
pub fn number_of(text: &[u8]) -> Option<u64>
    ensures { result ≡ number_of text.now }
{
    match text {
        [b'0', b'x' | b'X', digits @ ..] => number_in(16, digits),
        _ => number_in(10, text),
    }
}
