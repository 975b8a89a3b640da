// One sample more.
ghost use Rattle.std.specs.Prelude.{[]};
ghost use Rattle.rules.specs.Calls.{append};
ghost use Rattle.tables.specs.Serving.{ServesFor, answering, served};
ghost use Rattle.recorder.specs.Steps.{Again};

use crate::choice::{freeing_command, oldest_closed, records_of};
use crate::samples::{is_over_quota, place_of, sample_command};
use crate::serving::{serve_words, show_shape};
use lent_domains::domain_at;
use model::{Answer, Command, Table};
use tables::Served;

// Frees the domain's oldest Closed block, and serves the command after that.
pub(crate) fn write_again(
    table: &mut Table,
    domain: u64,
    command: Command,
    store: &mut [u64],
    words: &mut [u64],
) -> Answer
    ensures { Again table.old domain command store.old words.old (answering table.new result) store.new words.new }
{
    show_shape(table);
    let records = records_of(table.config.blocks);
    let found = oldest_closed(&table.blocks[..records], domain);
    let free = freeing_command(found, domain);
    let freed = serve_words(table, free, store, words);
    serve_words(table, command, store, words)
}

// Writes one sample. Where that would pass the domain's quota, its oldest Closed block is freed first.
pub fn append_in(
    table: &mut Table,
    domain: u64,
    sample: u64,
    store: &mut [u64],
    words: &mut [u64],
) -> Answer
    ensures { ServesFor table.old (append domain sample) store.old words.old [] (served (answering table.new result) store.new words.new []) }
{
    show_shape(table);
    let place = place_of(domain);
    let owner = domain_at(&table.domains, place);
    let command = sample_command(owner, domain, sample);
    let answer = serve_words(table, command, store, words);
    if is_over_quota(answer) {
        return write_again(table, domain, command, store, words);
    }
    answer
}

// The same on a table by value: the answer and the table after it.
pub fn append(
    table: Table,
    domain: u64,
    sample: u64,
    store: &mut [u64],
    words: &mut [u64],
) -> Served
    ensures { ServesFor table (append domain sample) store.old words.old [] (served result store.new words.new []) }
{
    let mut changed = table;
    let answer = append_in(&mut changed, domain, sample, store, words);
    Served {
        answer,
        table: changed,
    }
}
