// A command, or one of the recorder's calls, as six numbers: its kind and its arguments, in their order. The C interface
// needs the numbers, those of the kinds and of the answers too.
ghost use Rattle.std.specs.Prelude.{◌≡◌, ◌+◌, ◌≤◌, length};
ghost use Rattle.trial.specs.Commands.{answer_number, asked_for, asked_in, asked_of, change_of, command_of, listed_of, of_five, transfer_of};

use geometry::{Adus, Planes};
use model::{Answer, Command, Listed};

// What is asked for: a command of the manager, or one of the recorder's two calls, a domain and a sample to
// append, or a domain and how many of its latest samples to read.
#[derive(Clone, Copy, Debug, PartialEq, Eq)]
pub enum Request {
    Command(Command),
    Append(u64, u64),
    Latest(u64, Adus),
}

fn listed_of(n: u64) -> Listed
    ensures { result ≡ listed_of n }
{
    if n == 0 { Listed::Open } else { Listed::Closed }
}

// On domains and blocks.
fn change_of(kind: u64, arguments: [u64; 5]) -> Command
    ensures { result ≡ of_five (change_of kind) arguments }
{
    let [a, b, c, d, e] = arguments;
    match kind {
        0 => Command::Create {
            domain: a,
            guarantee: Planes(b),
            quota: Planes(c),
            placements: d,
            limit: e,
        },
        1 => Command::ChangeCapacity {
            domain: a,
            guarantee: Planes(b),
            quota: Planes(c),
        },
        2 => Command::Delete { domain: a },
        3 => Command::Erase {
            domain: a,
            block: b,
        },
        4 => Command::Close {
            domain: a,
            block: b,
        },
        _ => Command::Free {
            domain: a,
            block: b,
        },
    }
}

// On ADUs, log pages and time.
fn transfer_of(kind: u64, arguments: [u64; 5]) -> Command
    ensures { result ≡ of_five (λ a b c d e. transfer_of kind a b c d) arguments }
{
    let [a, b, c, d, _] = arguments;
    match kind {
        6 => Command::WriteByPlacement {
            domain: a,
            placement: b,
            start: c,
            count: Adus(d),
        },
        7 => Command::WriteByBlock {
            domain: a,
            block: b,
            start: c,
            count: Adus(d),
        },
        8 => Command::Read {
            domain: a,
            address: b,
            count: Adus(c),
            expected: d,
        },
        9 => Command::Page {
            domain: a,
            block: b,
        },
        10 => Command::List {
            domain: a,
            listed: listed_of(b),
        },
        _ => Command::Pulse { seconds: a },
    }
}

// The commands, kinds 0 to 11.
fn command_of(kind: u64, arguments: [u64; 5]) -> Command
    ensures { result ≡ of_five (command_of kind) arguments }
{
    if kind < 6 {
        change_of(kind, arguments)
    } else {
        transfer_of(kind, arguments)
    }
}

// What a kind and its arguments ask for. The recorder's calls are kinds 12 and 13.
pub fn request_of(kind: u64, arguments: [u64; 5]) -> Request
    ensures { asked_for result ≡ of_five (asked_of kind) arguments }
{
    let [domain, number, ..] = arguments;
    match kind {
        12 => Request::Append(domain, number),
        13 => Request::Latest(domain, Adus(number)),
        _ => Request::Command(command_of(kind, arguments)),
    }
}

pub(crate) fn request_in(row: &[u64], at: usize) -> Request
    requires { at + 6 ≤ length row.now }
    ensures { asked_for result ≡ asked_in row.now at }
{
    request_of(
        row[at],
        [
            row[at + 1],
            row[at + 2],
            row[at + 3],
            row[at + 4],
            row[at + 5],
        ],
    )
}

// An answer as one number: 0 for success, a refusal's number, or 256 more than a block's.
pub(crate) fn answer_number(answer: Answer) -> u64
    ensures { result ≡ answer_number answer }
{
    match answer {
        Answer::Done => 0,
        Answer::Block(n) => 256 + n % 4294967296,
        Answer::Refused(reason) => reason.number(),
    }
}
