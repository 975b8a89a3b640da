// Commands from a row of them, and calls of the recorder, one after the other on one table.
ghost use Rattle.std.specs.Prelude.{cond, ◌≡◌, ◌+◌, ◌-◌, ◌<◌, ◌≤◌, ltb, length};
ghost use Rattle.trial.specs.Running.{Runs};
ghost use Rattle.trial.specs.Trials.{summed};

use crate::asking::ask_in;
use crate::commands::{answer_number, request_in};
use model::{Answer, Table};

// The table after a run, and what was answered, summed up.
#[derive(Clone, Copy)]
pub(crate) struct Finished {
    pub table: Table,
    pub sum: u64,
}

// Where the next command begins in a row of so many numbers: after this one, or at the row's start again.
fn next_place(numbers: usize, at: usize) -> usize
    requires { (6 ≤ numbers) × (at + 6 ≤ numbers) }
    ensures { (result ≡ cond (ltb (numbers - (at + 6)) 6) 0 (at + 6)) × (result + 6 ≤ numbers) }
{
    let next = at + 6;
    if numbers - next < 6 { 0 } else { next }
}

// The sum with one more answer.
fn sum_with(sum: u64, answer: Answer) -> u64
    requires { sum < 4294967296 }
    ensures { (result ≡ summed sum answer) × (result < 4294967296) }
{
    (sum * 31 + answer_number(answer)) % 4294967296
}

// So many commands on a table, which is lent to each and not copied.
pub(crate) fn serve_rounds(
    table: Table,
    rounds: u64,
    commands: &[u64],
    store: &mut [u64],
    words: &mut [u64],
    bytes: &mut [u8],
) -> Finished
    requires { 6 ≤ length commands.now }
    ensures { Runs rounds commands.now table store.old words.old bytes.old result.sum result.table store.new words.new bytes.new }
{
    let mut changed = table;
    let mut sum: u64 = 0;
    let mut at: usize = 0;
    for _ in 0..rounds {
        let request = request_in(commands, at);
        let answer = ask_in(&mut changed, request, store, words, bytes);
        sum = sum_with(sum, answer);
        at = next_place(commands.len(), at);
    }
    Finished {
        table: changed,
        sum,
    }
}
