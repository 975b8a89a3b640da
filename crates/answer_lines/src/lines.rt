// Whole lines at the front of a buffer. A function answers the line's length, and 0 where the buffer
// is too short for it, which then is as it was. (No Option: the clause `Prints` of the crate's public
// functions holds the 0.)
ghost use Rattle.std.specs.Prelude.{[], All, ◌≡◌, ◌+◌, ◌++◌, ◌*◌, ◌≤◌, flat_map, leb, length};
ghost use Rattle.answer_lines.specs.Lines.{Prints, number_line, ok_line};
ghost use Rattle.script_lines.specs.Words.{ascii};

use crate::puts::{Piece, put_all, put_text};

// Are there so many bytes, and room behind them for so many pieces of a width?
fn has_room(room: usize, bytes: usize, pieces: usize, width: usize) -> bool
    ensures { result ≡ leb (bytes + pieces * width) room }
{
    match pieces.checked_mul(width) {
        Some(wide) => wide <= room && bytes <= room - wide,
        None => false,
    }
}

pub fn ok_line(out: &mut [u8]) -> usize
    ensures { Prints (ok_line []) out.old result out.new }
{
    if out.len() < 3 {
        return 0;
    }
    put_text(out, 0, b"ok\n")
}

// A name with all pieces behind it.
pub fn list_line<P: Piece>(name: &[u8], pieces: &[P], out: &mut [u8]) -> usize
    requires name { length name.now ≤ 16 }
    requires width { All (λ piece. length (P.text piece) ≡ P.WIDTH) pieces.now }
    ensures { Prints (name.now ++ (flat_map P.text pieces.now ++ ascii "\n")) out.old result out.new }
{
    if has_room(out.len(), name.len() + 1, pieces.len(), P::WIDTH) {
        let begin = put_text(out, 0, name);
        let end = put_all(out, begin, pieces);
        return put_text(out, end, b"\n");
    }
    0
}

// A name with a number behind it.
pub fn number_line(name: &[u8], n: u64, out: &mut [u8]) -> usize
    requires { length name.now ≤ 16 }
    ensures { Prints (number_line name.now n) out.old result out.new }
{
    let mut digits = [0; 20];
    let k = io::decimal(n, &mut digits);
    if has_room(out.len(), name.len() + 1, k, 1) {
        let begin = put_text(out, 0, name);
        let end = put_text(out, begin, &digits[..k]);
        return put_text(out, end, b"\n");
    }
    0
}
