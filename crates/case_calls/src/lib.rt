// A line of a script of cases that starts a drive or is a command: the call on a drive, and what it answers.
#![tactic(auto)]

use case_drives::Drive;
use case_lines::Line;
use geometry::{Adus, Config, Planes};
use manager::{serve_in, start};
use model::{Answer, Command, Listed};
use recorder::{append_in, latest_in};

// How much is lent: entries of the store, words and bytes.
#[derive(Clone, Copy, Debug, Default, PartialEq, Eq)]
pub struct Lengths {
    pub entries: u64,
    pub words: u64,
    pub bytes: u64,
}

// What a line asks for: a command, or one of the recorder's two calls.
#[derive(Clone, Copy, Debug, PartialEq, Eq)]
enum Request {
    Serve(Command),
    Append { domain: u64, sample: u64 },
    Latest { domain: u64, count: Adus },
}

fn listed_of(word: &[u8]) -> Listed {
    match word {
        b"open" => Listed::Open,
        _ => Listed::Closed,
    }
}

// The command that a word names, with its arguments; of `list` the second one is a word.
fn command_of(line: Line<'_>) -> Option<Command> {
    let command = match (line.word(0).letters(), line.arguments::<5>(0)) {
        (b"create", [domain, guarantee, quota, placements, limit]) => Command::Create {
            domain,
            guarantee: Planes(guarantee),
            quota: Planes(quota),
            placements,
            limit,
        },
        (b"change", [domain, guarantee, quota, ..]) => Command::ChangeCapacity {
            domain,
            guarantee: Planes(guarantee),
            quota: Planes(quota),
        },
        (b"delete", [domain, ..]) => Command::Delete { domain },
        (b"erase", [domain, block, ..]) => Command::Erase { domain, block },
        (b"close", [domain, block, ..]) => Command::Close { domain, block },
        (b"free", [domain, block, ..]) => Command::Free { domain, block },
        (b"place", [domain, placement, start, count, ..]) => Command::WriteByPlacement {
            domain,
            placement,
            start,
            count: Adus(count),
        },
        (b"write", [domain, block, start, count, ..]) => Command::WriteByBlock {
            domain,
            block,
            start,
            count: Adus(count),
        },
        (b"read", [domain, address, count, expected, ..]) => Command::Read {
            domain,
            address,
            count: Adus(count),
            expected,
        },
        (b"page", [domain, block, ..]) => Command::Page { domain, block },
        (b"list", [domain, ..]) => Command::List {
            domain,
            listed: listed_of(line.word(2).letters()),
        },
        (b"pulse", [seconds, ..]) => Command::Pulse { seconds },
        _ => return None,
    };
    Some(command)
}

// What a line asks for, if its first word is a command or a call.
fn request_of(line: Line<'_>) -> Option<Request> {
    match (line.word(0).letters(), line.arguments::<2>(0)) {
        (b"append", [domain, sample]) => Some(Request::Append { domain, sample }),
        (b"latest", [domain, count]) => Some(Request::Latest {
            domain,
            count: Adus(count),
        }),
        _ => command_of(line).map(|command| Request::Serve(command)),
    }
}

// So much of a row as is lent, and no more than there is.
fn lent<T>(row: &mut [T], length: u64) -> &mut [T] {
    let end = row.len().min(length as usize);
    &mut row[..end]
}

// The answer to what a line asks for, on a drive of which so much is lent; none if its word is no command.
pub fn called(drive: &mut Drive, line: Line<'_>, lengths: Lengths) -> Option<Answer> {
    let request = request_of(line)?;
    let table = &mut drive.table;
    let store = lent(&mut drive.store, lengths.entries);
    let words = lent(&mut drive.words, lengths.words);
    let bytes = lent(&mut drive.bytes, lengths.bytes);
    let answer = match request {
        Request::Serve(command) => serve_in(table, command, store, words, bytes),
        Request::Append { domain, sample } => append_in(table, domain, sample, store, words),
        Request::Latest { domain, count } => latest_in(table, domain, count, store, words),
    };
    Some(answer)
}

// A start, which leaves the rows as they are.
pub fn begun(drive: &mut Drive, config: Config) -> Answer {
    let started = start(config);
    drive.table = started.table;
    started.answer
}
