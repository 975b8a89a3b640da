// What another implementation is compared with, and timed against. A row that is too short for a table
// gets 17, which no question has, and nothing is done. They answer by numbers, as the C interface does that `trial_c` makes
// of them.
ghost use Rattle.trial.specs.Commands.{asked_for};
ghost use Rattle.trial.specs.Trials.{RunTried, ServeTried, StartTried, lending};

use crate::asking::ask;
use crate::commands::{Request, answer_number};
use crate::rows::{ROW, put_table, table_in};
use crate::running::serve_rounds;
use geometry::Config;

const TOO_SHORT: u64 = 17;

// A drive is started, and its table put into the row.
pub fn start(config: Config, row: &mut [u64]) -> u64
    ensures { StartTried config result row.old row.new }
{
    if row.len() < ROW {
        return TOO_SHORT;
    }
    let started = manager::start(config);
    put_table(row, started.table);
    answer_number(started.answer)
}

// One command on the table of the row, or one of the recorder's calls.
pub fn serve(
    request: Request,
    row: &mut [u64],
    store: &mut [u64],
    words: &mut [u64],
    bytes: &mut [u8],
) -> u64
    ensures { ServeTried (asked_for request) result (lending row.old store.old words.old bytes.old) (lending row.new store.new words.new bytes.new) }
{
    if row.len() < ROW {
        return TOO_SHORT;
    }
    let served = ask(table_in(row), request, store, words, bytes);
    put_table(row, served.table);
    answer_number(served.answer)
}

// So many commands, one after the other from a row of them and then from its start again. What they
// answer is summed up.
pub fn run(
    rounds: u64,
    commands: &[u64],
    row: &mut [u64],
    store: &mut [u64],
    words: &mut [u64],
    bytes: &mut [u8],
) -> u64
    ensures { RunTried rounds commands.now result (lending row.old store.old words.old bytes.old) (lending row.new store.new words.new bytes.new) }
{
    if row.len() < ROW || commands.len() < 6 {
        return TOO_SHORT;
    }
    let finished = serve_rounds(table_in(row), rounds, commands, store, words, bytes);
    put_table(row, finished.table);
    finished.sum
}
