// Serving a request: a command goes to the manager, the other calls go to the recorder.
ghost use Rattle.tables.specs.Serving.{ServesFor, answering, served};
ghost use Rattle.trial.specs.Commands.{asked_for};

use crate::commands::Request;
use manager::{serve, serve_in};
use model::{Answer, Table};
use recorder::{append, append_in, latest, latest_in};
use tables::Served;

// The answer; the table is changed in place. The recorder is lent no bytes, and those lent here stay as they were.
pub(crate) fn ask_in(
    table: &mut Table,
    request: Request,
    store: &mut [u64],
    words: &mut [u64],
    bytes: &mut [u8],
) -> Answer
    ensures { ServesFor table.old (asked_for request) store.old words.old bytes.old (served (answering table.new result) store.new words.new bytes.new) }
{
    match request {
        Request::Command(command) => serve_in(table, command, store, words, bytes),
        Request::Append(domain, sample) => append_in(table, domain, sample, store, words),
        Request::Latest(domain, count) => latest_in(table, domain, count, store, words),
    }
}

// The same on a table by value: the answer and the table after it.
pub(crate) fn ask(
    table: Table,
    request: Request,
    store: &mut [u64],
    words: &mut [u64],
    bytes: &mut [u8],
) -> Served
    ensures { ServesFor table (asked_for request) store.old words.old bytes.old (served result store.new words.new bytes.new) }
{
    match request {
        Request::Command(command) => serve(table, command, store, words, bytes),
        Request::Append(domain, sample) => append(table, domain, sample, store, words),
        Request::Latest(domain, count) => latest(table, domain, count, store, words),
    }
}
