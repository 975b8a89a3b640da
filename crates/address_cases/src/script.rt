// The script on standard input, line by line. Behind the `=` of a line stands what its call leaves,
// number by number, and no number where it leaves none. It is printed with `ok`, or with `WRONG` and
// the first number got that is another (a5a5a5a5a5a5a5a5h where there is none).
//
//     # ..                                        a heading, which is printed
//     config G D L K S N T = 0|1                  whether the configuration is within the limits; it
//                                                 is that of the lines that follow
//     size = W S×W C S×C b                        planes and ADUs of a block and of the drive, and
//                                                 the bits of an offset
//     round PLANES = BLOCKS                       planes rounded up to whole blocks
//     stretch BLOCK = START                       where a block's stretch of the store begins
//     domain ID = 0|1                             whether it is a domain ID
//     make DOMAIN BLOCK PAGE DIE PLANE ADU LENGTH = ANSWER [WORD]
//     take WORD LENGTH = ANSWER [DOMAIN BLOCK OFFSET PAGE DIE PLANE ADU]
//     create DOMAIN BLOCK PAGE DIE PLANE ADU = ANSWER [WORD]
//     parse WORD = ANSWER [DOMAIN BLOCK OFFSET PAGE DIE PLANE ADU]
//     word DOMAIN BLOCK OFFSET = ANSWER [WORD]
//     fields WORD = DOMAIN BLOCK OFFSET           of any word, whether or not it is an address
//
// `make` and `take` are the C host's functions, with LENGTH bytes of a buffer of 64; its other bytes,
// and all of them after a refusal, are to be as they were. `create` and `parse` do the same by value.
use crate::calls::{Row, UNFILLED, called, row};
use case_lines::{Line, config_of, read_script};
use geometry::{Config, no_config};
use script_lines::Lines;
use std::io;
use std::io::Read;

// The answer to a word that names no call.
const UNKNOWN: u64 = 99;

// A number as it is compared and printed.
fn shown(number: Option<u64>) -> u64 {
    number.unwrap_or(UNFILLED)
}

// The first number got that is not the one behind the `=`.
fn first_other(line: &Line<'_>, got: Row) -> Option<u64> {
    let mut numbers = got.iter().map(|number| shown(*number)).enumerate();
    let (_, number) = numbers.find(|(i, number)| *number != shown(line.wanted(*i)))?;
    Some(number)
}

fn tell(rt: &impl Print, line: &Line<'_>, got: Row) -> io::Result<()> {
    match first_other(line, got) {
        None => {
            rt.write_all(b"ok     ")?;
            rt.write_all(line.text)?;
            rt.write_all(b"\n")
        }
        Some(number) => {
            rt.write_all(b"WRONG  ")?;
            rt.write_all(line.text)?;
            println!(rt; " got 0x{number:016x}")
        }
    }
}

// One line, by the configuration that it leaves for those that follow.
fn step(rt: &impl Print, config: &mut Config, line: &Line<'_>) -> io::Result<()> {
    let word = line.word(0);
    let arguments = line.arguments(0);
    match word.letters() {
        b"#" => {
            rt.write_all(line.text)?;
            return rt.write_all(b"\n");
        }
        b"config" => *config = config_of(arguments),
        _ => {}
    }
    let got = called(*config, word.letters(), arguments).unwrap_or(row(&[UNKNOWN]));
    tell(rt, line, got)
}

// The whole of standard input, 65,535 bytes at most.
pub fn run(rt: &impl Print, input: &mut impl Read) {
    let mut text = [0; 65536];
    let filled = read_script(input, &mut text);
    if filled == text.len() {
        let _ = println!(rt; "WRONG  the script is too long");
    }
    let mut config = no_config();
    for line in Lines::of(&text[..filled]) {
        let _ = step(rt, &mut config, &Line::of(line));
    }
}
