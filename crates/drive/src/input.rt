// Standard input, line by line. A line may begin in one part that is read and end in a later one; the
// last may lack its newline.
use arrayvec::ArrayVec;
use console::{answer, no_drive};
use console_state::Console;
use script_lines::Lines;
use shown_lines::LineError;
use std::io::Read;

// The most bytes of a line.
const LINE: usize = 4096;

// The drive, and how far its script is read.
#[derive(Drop)]
struct Script<'a> {
    console: Console,
    store: &'a mut [u64],
    // What is there of the next line; none where it is too long.
    line: Option<ArrayVec<u8, LINE>>,
}

impl Script<'_> {
    // A part of the next line.
    fn gather(&mut self, part: &[u8]) {
        if let Some(line) = &mut self.line
            && line.try_extend_from_slice(part).is_err()
        {
            self.line = None;
        }
    }

    // The line that was gathered is answered, and the next one begins.
    fn end_line(&mut self, rt: &impl Print) {
        self.console.number = self.console.number.wrapping_add(1);
        match &mut self.line {
            Some(line) => {
                answer(rt, &mut self.console, line.as_slice(), self.store);
                line.clear();
            }
            None => {
                self.console.tell(rt, LineError::TooLong(LINE));
                self.line = Some(ArrayVec::new());
            }
        }
    }

    // A part of the input, with the lines that end in it.
    fn read(&mut self, rt: &impl Print, text: &[u8]) {
        for part in Lines::of(text) {
            match part.strip_suffix(b"\n") {
                Some(part) => {
                    self.gather(part);
                    self.end_line(rt);
                }
                None => self.gather(part),
            }
        }
    }

    // The last line may lack its newline.
    fn end(&mut self, rt: &impl Print) {
        if !matches!(&self.line, Some(line) if line.is_empty()) {
            self.end_line(rt);
        }
    }
}

// Answers the lines of an input up to its end, which is also where it cannot be read.
pub fn run(rt: &impl Print, input: &mut impl Read) {
    // Memory for the store, whose length alone is of use.
    let mut store = [0; 262144];
    let mut text = [0; 65536];
    let mut script = Script {
        console: no_drive(),
        store: &mut store,
        line: Some(ArrayVec::new()),
    };
    for _ in 0..u64::MAX {
        let n = input.read(&mut text).unwrap_or(0);
        if n == 0 {
            break;
        }
        script.read(rt, &text[..n]);
    }
    script.end(rt);
}
