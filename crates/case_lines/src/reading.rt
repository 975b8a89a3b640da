// Reading a script.
ghost use Rattle.std.specs.Prelude.{◌≤◌, length};

use std::io::Read;

// Reads until the text is full or the input ends, and returns how much of it is filled. A read that fails ends it too.
// What it reads no clause can say.
pub fn read_script(input: &mut impl Read, text: &mut [u8]) -> usize
    ensures { result ≤ length text.new }
{
    let mut filled = 0;
    // A `while`: how far a read goes it says itself.
    while filled < text.len() {
        let more = input.read(&mut text[filled..]).unwrap_or(0);
        if more == 0 {
            break;
        }
        filled += more;
    }
    filled
}
