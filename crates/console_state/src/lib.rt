// What the console holds from line to line, and the lines that need no more than that: `lend`, `show`,
// `make`, `take`, and those that ask for nothing.
#![tactic(auto)]

ghost use Rattle.std.specs.Prelude.{◌≡◌, ◌≤◌};

use answer_lines::print_address;
use drawing::show;
use geometry::{Refusal, create_into, parse_into, store_length, verdict_number};
use model::Table;
use script_lines::{Buffer, Length, Line};
use shown_lines::{LineError, say, say_line};

// How many words there are to lend, and how many bytes.
pub const WORDS: usize = 4096;

pub const BYTES: usize = 4096;

#[derive(Clone, Copy)]
pub struct Console {
    pub table: Table,
    // How much is lent of the store, the words and the bytes.
    lent: [Length; 3],
    // How many lines were read.
    pub number: u64,
}

impl Console {
    // A console with a drive, before its first line.
    pub fn new(table: Table) -> Self
        ensures table { result.table ≡ table }
        ensures number { result.number ≡ 0 }
    {
        Console {
            table,
            lent: [Length::Full; 3],
            number: 0,
        }
    }

    // How much is lent of a buffer that has so many entries.
    pub fn lent(&self, buffer: Buffer, most: usize) -> usize
        ensures { result ≤ most }
    {
        let wanted = match (self.lent[buffer as usize], buffer) {
            (Length::Entries(n), _) => n,
            (Length::Full, Buffer::Store) => store_length(self.table.config).0,
            (Length::Full, Buffer::Words | Buffer::Bytes) => return most,
        };
        wanted.min(most as u64) as usize
    }

    // Says why a line is not done.
    pub fn tell(&self, rt: &impl Print, error: LineError) {
        let number = self.number;
        say(rt, format_args!("error line {number}: {error}"));
    }

    // Writes the bytes that a function of `geometry` fills, so many on success, or the number of its refusal.
    fn say_filled<F: FnOnce(&mut [u8]) -> Result<(), Refusal>>(
        &self,
        rt: &impl Print,
        filled: u64,
        call: F,
    )
        requires { F.IsAlwaysCallable call }
    {
        let mut bytes = [0; BYTES];
        let size = self.lent(Buffer::Bytes, BYTES);
        let number = verdict_number(call(&mut bytes[..size]));
        say_line(rt, |out| print_address(number, filled, &bytes, out));
    }

    // Sets a length that is lent from then on, where there is so much store.
    fn lend(&mut self, rt: &impl Print, buffer: Buffer, length: Length, store: usize)
        ensures { self.new.table ≡ self.old.table }
    {
        let most = match buffer {
            Buffer::Store => store,
            Buffer::Words => WORDS,
            Buffer::Bytes => BYTES,
        };
        match length {
            Length::Entries(n) if n > most as u64 => self.tell(
                rt,
                LineError::Lent { buffer, most },
            ),
            _ => {
                self.lent[buffer as usize] = length;
                say(rt, "ok");
            }
        }
    }

    // Answers a line that needs no call, where there is so much store. The drive stays as it is.
    pub fn plain(&mut self, rt: &impl Print, line: Line, store: usize)
        ensures { self.new.table ≡ self.old.table }
    {
        let config = self.table.config;
        match line {
            Line::Make(domain, block, e) => self.say_filled(
                rt,
                8,
                |out| create_into(config, domain, block, e, out),
            ),
            Line::Take(word) => self.say_filled(rt, 56, |out| parse_into(config, word, out)),
            Line::Show => show(rt, &self.table),
            Line::Lend(buffer, length) => self.lend(rt, buffer, length, store),
            Line::Wrong(expected, before) => self.tell(rt, LineError::Expected(expected, before)),
            _ => {}
        }
    }
}
