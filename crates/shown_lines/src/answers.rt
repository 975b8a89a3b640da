// The lines of `answer_lines`, written.
use crate::output::say_bytes;

// Room for the longest line that is printed: 4,096 words.
const ROOM: usize = 73728;

// Writes the line that a function puts at the front of a buffer; the function answers its length.
pub fn say_line<R: Print, F: FnOnce(&mut [u8]) -> usize>(rt: &R, print: F)
    requires { F.IsAlwaysCallable print }
{
    let mut out = [0; ROOM];
    let length = print(&mut out);
    if let Some(line) = out.get(..length) {
        say_bytes(rt, line);
    }
}
