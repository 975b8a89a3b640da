// The drive as it is and as it is wanted, line by line.
use case_calls::{Lengths, begun, called};
use case_drives::{Drive, drive_with, table_with};
use case_lines::{Line, config_of};
use geometry::no_config;
use model::{Answer, Table};
use std::io;

// The answer to a word that is no command.
const UNKNOWN: u64 = 99;

#[derive(Drop)]
pub struct Desk {
    drive: Drive,
    wanted: Drive,
    // the lengths that are lent
    lent: Lengths,
}

fn number(answer: Option<Answer>) -> u64 {
    match answer {
        Some(Answer::Done | Answer::Block(_)) => 0,
        Some(Answer::Refused(reason)) => reason.number(),
        None => UNKNOWN,
    }
}

fn value(answer: Option<Answer>) -> Option<u64> {
    match answer {
        Some(Answer::Block(block)) => Some(block),
        _ => None,
    }
}

// The number is that behind the `=`, and the value the next one, where the line has one. All ones are none.
fn is_wanted(line: Line<'_>, answer: Option<Answer>) -> bool {
    let wanted = line.wanted(1).filter(|n| *n != u64::MAX);
    number(answer) == line.wanted(0).unwrap_or(0) && value(answer) == wanted
}

// Each part of a drive, and whether it is as wanted.
fn compared(drive: &Drive, wanted: &Drive) -> [(&'static str, bool); 4] {
    [
        ("table", drive.table == wanted.table),
        ("store", drive.store == wanted.store),
        ("words", drive.words == wanted.words),
        ("bytes", drive.bytes == wanted.bytes),
    ]
}

// What went wrong is told behind the line.
fn tell(
    rt: &impl Print,
    line: Line<'_>,
    answer: Option<Answer>,
    parts: &[(&'static str, bool)],
) -> io::Result<()> {
    let is_wanted = is_wanted(line, answer);
    if is_wanted && parts.iter().all(|(_, same)| *same) {
        print!(rt; "ok     ")?;
    } else {
        print!(rt; "WRONG  ")?;
    }
    rt.write_all(line.text)?;
    for (part, same) in parts {
        if !*same {
            print!(rt; "; {part}")?;
        }
    }
    if !is_wanted {
        let number = number(answer);
        print!(rt; "; answers {number}")?;
    }
    println!(rt; "")
}

// What is wanted of a start: a table with the line's numbers, or with none where it is refused.
fn wanted_start(line: Line<'_>) -> Table {
    if line.wanted(0).unwrap_or(0) == 0 {
        table_with(config_of(line.arguments(0)))
    } else {
        table_with(no_config())
    }
}

impl Desk {
    pub fn new() -> Desk {
        let drive = drive_with(no_config());
        Desk {
            drive,
            wanted: drive,
            lent: Lengths::default(),
        }
    }

    fn lend(&mut self, line: Line<'_>) {
        let length = line.number(2);
        match line.word(1).letters() {
            b"store" => self.lent.entries = length,
            b"words" => self.lent.words = length,
            b"bytes" => self.lent.bytes = length,
            _ => {}
        }
    }

    // A start, of which the table alone is compared.
    fn start(&mut self, rt: &impl Print, line: Line<'_>) -> io::Result<()> {
        let answer = begun(&mut self.drive, config_of(line.arguments(0)));
        self.wanted.table = wanted_start(line);
        let parts = [("table", self.drive.table == self.wanted.table)];
        tell(rt, line, Some(answer), &parts)
    }

    // A command, and all that it leaves compared with what is wanted.
    fn command(&mut self, rt: &impl Print, line: Line<'_>) -> io::Result<()> {
        let answer = called(&mut self.drive, line, self.lent);
        let parts = compared(&self.drive, &self.wanted);
        tell(rt, line, answer, &parts)
    }

    // One line. A setting of the drive as it is is one of what is wanted too.
    pub fn step(&mut self, rt: &impl Print, line: Line<'_>) -> io::Result<()> {
        if line.part(0).is_none() {
            return Ok(());
        }
        if matches!(line.text, [b'#', ..]) {
            rt.write_all(line.text)?;
            return println!(rt; "");
        }
        match line.word(0).letters() {
            b"config" | b"domain" | b"block" | b"entries" | b"words" | b"bytes" => {
                self.drive.set(line, 0);
                self.wanted.set(line, 0);
                Ok(())
            }
            b"want" => {
                self.wanted.set(line, 1);
                Ok(())
            }
            b"lend" => {
                self.lend(line);
                Ok(())
            }
            b"start" => self.start(rt, line),
            _ => self.command(rt, line),
        }
    }
}
