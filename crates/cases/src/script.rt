// The script on standard input, line by line. It sets up a drive record by record, says what each
// command is to leave, and calls it.
//
//     # ..                                        a heading, which is printed
//     start G D L K S N T = NUMBER                start, and compare
//     config G D L K S N T                        set the configuration
//     domain ID EXISTS RESERVED QUOTA PLACEMENTS LIMIT LAST
//     block N STATE PLACEMENT HOLDER WRITTEN LEFT ERASES SERIAL
//     entries AT COUNT FIRST STEP                 set entries of the store: FIRST, FIRST + STEP, ..
//     words AT COUNT FIRST STEP                   the same of the lent words
//     bytes AT B B ..                             bytes of the lent bytes
//     want ..                                     one of these six, for what the next command leaves
//     lend store|words|bytes N                    the length that is lent from then on
//     create D GUARANTEE QUOTA PLACEMENTS LIMIT = NUMBER
//     change D GUARANTEE QUOTA = NUMBER
//     delete D = NUMBER
//     erase|close|free D BLOCK = NUMBER [BLOCK]
//     place D P START N = NUMBER                  Write by placement P
//     write D BLOCK START N = NUMBER              Write by block
//     read D ADDRESS N EXPECTED = NUMBER
//     page D BLOCK = NUMBER
//     list D open|closed = NUMBER
//     pulse SECONDS = NUMBER
//     append D SAMPLE = NUMBER                    the recorder's two calls
//     latest D N = NUMBER
//
// A command is called on the drive as it is. Its answer is compared with what stands behind the `=`,
// and the whole table, store, words and bytes with what is wanted: what they were, but for the `want`
// lines before it. So a refusal has none.
use crate::desk::Desk;
use case_lines::{Line, read_script};
use script_lines::Lines;
use std::io::Read;

// The whole of standard input, 131,071 bytes at most.
pub fn run(rt: &impl Print, input: &mut impl Read) {
    let mut text = [0; 131072];
    let filled = read_script(input, &mut text);
    if filled == text.len() {
        let _ = println!(rt; "WRONG  the script is too long");
    }
    let mut desk = Desk::new();
    for line in Lines::of(&text[..filled]) {
        let _ = desk.step(rt, Line::of(line));
    }
}
