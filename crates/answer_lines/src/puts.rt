// Pieces of a line, put into a buffer at an index. Each function answers the index behind its piece.
ghost use Rattle.std.specs.Prelude.{ℕ, List, ◌≡◌, ◌+◌, ◌*◌, ◌^◌, ◌<◌, ◌≤◌, length, flat_map};
ghost use Rattle.io.specs.Digits.{last_digits};
ghost use Rattle.answer_lines.specs.Texts.{hex_byte, put, spaced_bytes, spaced_word};

pub fn put_text(out: &mut [u8], at: usize, text: &[u8]) -> usize
    requires { at + length text.now ≤ length out.old }
    ensures out_after { out.new ≡ put at text.now out.old }
    ensures value { result ≡ at + length text.now }
{
    let end = at + text.len();
    out[at..end].copy_from_slice(text);
    end
}

// So many hexadecimal digits, which hold the number.
fn put_hex(out: &mut [u8], at: usize, n: u64, width: usize) -> usize
    requires width { (1 ≤ width) × (width ≤ 16) }
    requires holds { n < 16 ^ width }
    requires room { at + width ≤ length out.old }
    ensures out_after { out.new ≡ put at (last_digits 16 width n) out.old }
    ensures value { result ≡ at + width }
{
    let mut digits = [0; 16];
    let k = io::hex(n, width, &mut digits);
    put_text(out, at, &digits[..k])
}

// What a line lists, one after the other. The text of each has the same length.
pub trait Piece {
    ghost text: { Self → List ℕ };

    ghost WIDTH: { ℕ };

    const WIDTH: usize;

    fn put(&self, out: &mut [u8], at: usize) -> usize
        requires { at + WIDTH ≤ length out.old }
        ensures out_after { out.new ≡ put at (text self.now) out.old }
        ensures value { result ≡ at + WIDTH }
        ensures width { length (text self.now) ≡ WIDTH };
}

// A word in hexadecimal, behind a space.
impl Piece for u64 {
    ghost text = { spaced_word };

    ghost WIDTH = { 17 };

    const WIDTH: usize = 17;

    fn put(&self, out: &mut [u8], at: usize) -> usize {
        let begin = put_text(out, at, b" ");
        put_hex(out, begin, *self, 16)
    }
}

// A byte in hexadecimal.
impl Piece for u8 {
    ghost text = { hex_byte };

    ghost WIDTH = { 2 };

    const WIDTH: usize = 2;

    fn put(&self, out: &mut [u8], at: usize) -> usize {
        put_hex(out, at, u64::from(*self), 2)
    }
}

// A descriptor, byte by byte, behind a space.
impl Piece for [u8; 8] {
    ghost text = { spaced_bytes };

    ghost WIDTH = { 17 };

    const WIDTH: usize = 17;

    fn put(&self, out: &mut [u8], at: usize) -> usize {
        let begin = put_text(out, at, b" ");
        put_all(out, begin, self)
    }
}

pub fn put_all<P: Piece>(out: &mut [u8], at: usize, pieces: &[P]) -> usize
    requires { at + P.WIDTH * length pieces.now ≤ length out.old }
    ensures out_after { out.new ≡ put at (flat_map P.text pieces.now) out.old }
    ensures value { result ≡ at + P.WIDTH * length pieces.now }
{
    let mut end = at;
    for piece in pieces {
        end = piece.put(out, end);
    }
    end
}
