// Serving a command.
ghost use Rattle.std.specs.Prelude.{◌≤◌, ◌≡◌};
ghost use Rattle.tables.specs.Changing.{present_blocks};
ghost use Rattle.tables.specs.Serving.{ServesCommand, answering, served};

use crate::answering::{changed_place, dispatch};
use crate::looking::summarize;
use crate::subjects::subject_of;
use geometry::{Config, within_limits};
use lent_blocks::{change_blocks, write_onwards};
use model::{Answer, Block, Command, Table};
use scan::{Marks, put_record};
use tables::Served;

// How many blocks the drive has; none outside the limits.
fn present_blocks(config: Config) -> usize
    ensures { (result ≡ present_blocks config) × (result ≤ 256) }
{
    if within_limits(config) {
        config.blocks as usize
    } else {
        0
    }
}

// The command's answer; the table is changed in place. Writes and Read fill the words, Page and List the
// bytes; after a refusal the table and all that is lent hold what they held before.
pub fn serve_in(
    table: &mut Table,
    command: Command,
    store: &mut [u64],
    words: &mut [u64],
    bytes: &mut [u8],
) -> Answer
    ensures { ServesCommand table.old command store.old words.old bytes.old (served (answering table.new result) store.new words.new bytes.new) }
{
    let config = table.config;
    let blocks = present_blocks(config);
    let subject = subject_of(config, command);
    let mut marks = Marks::new();
    let records: &[Block] = &table.blocks;
    let summary = summarize(
        &records[..blocks],
        &table.domains,
        config,
        subject,
        &mut marks,
    );
    let partial = dispatch(summary, &marks, command, store, words, bytes);
    let outcome = partial.outcome;
    let change = outcome.change;
    change_blocks(&mut table.blocks[..blocks], change);
    let rest = partial.rest;
    let owner = change.owner;
    let new = write_onwards(
        &mut table.blocks[..blocks],
        config,
        change.domain,
        owner,
        rest,
        store,
        words,
    );
    let place = changed_place(change);
    put_record(&mut table.domains, place, new);
    outcome.answer
}

// The same on a table by value: the answer and the table after it.
pub fn serve(
    table: Table,
    command: Command,
    store: &mut [u64],
    words: &mut [u64],
    bytes: &mut [u8],
) -> Served
    ensures { ServesCommand table command store.old words.old bytes.old (served result store.new words.new bytes.new) }
{
    let mut changed = table;
    let answer = serve_in(&mut changed, command, store, words, bytes);
    Served {
        answer,
        table: changed,
    }
}
