// One line of the script: what it asks for is done to the drive, and the answer printed.
#![tactic(auto)]

use answer_lines::{print_answer, print_outcome, print_samples};
use console_state::{BYTES, Console, WORDS};
use geometry::{Adus, Config, no_config, store_length};
use manager::{serve_in, start};
use recorder::{append_in, latest_in};
use script_lines::{Buffer, Line, parse};
use shown_lines::{LineError, say_line};

// Before an accepted start there is a table of zeros.
pub fn no_drive() -> Console {
    Console::new(start(no_config()).table)
}

// A drive that is larger than the store is not started.
fn start_drive(rt: &impl Print, console: &mut Console, config: Config, store: usize) {
    let needed = store_length(config).0;
    if (store as u64) < needed {
        console.tell(
            rt,
            LineError::Store {
                needed,
                most: store,
            },
        );
        return;
    }
    let begun = start(config);
    console.table = begun.table;
    say_line(rt, |out| print_outcome(begun.answer, out));
}

// Does what a line asks for, and prints the answer. The words and bytes that a call may fill are made
// for each line.
pub fn answer(rt: &impl Print, console: &mut Console, text: &[u8], store: &mut [u64]) {
    let most = store.len();
    let mut words = [0; WORDS];
    let mut bytes = [0; BYTES];
    let store = &mut store[..console.lent(Buffer::Store, most)];
    let words = &mut words[..console.lent(Buffer::Words, WORDS)];
    let bytes = &mut bytes[..console.lent(Buffer::Bytes, BYTES)];
    match parse(text) {
        Line::Start(config) => start_drive(rt, console, config, most),
        Line::Serve(command) => {
            let answer = serve_in(&mut console.table, command, store, words, bytes);
            say_line(rt, |out| print_answer(command, answer, words, bytes, out));
        }
        Line::Append(domain, sample) => {
            let answer = append_in(&mut console.table, domain, sample, store, words);
            say_line(rt, |out| print_samples(answer, Adus(1), words, out));
        }
        Line::Latest(domain, count) => {
            let answer = latest_in(&mut console.table, domain, count, store, words);
            say_line(rt, |out| print_samples(answer, count, words, out));
        }
        line => console.plain(rt, line, most),
    }
}
