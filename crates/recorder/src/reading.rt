// The last samples.
ghost use Rattle.std.specs.Prelude.{[], ◌≡◌, ◌≤◌, length};
ghost use Rattle.geometry.specs.Shape.{adus_per_block};
ghost use Rattle.rules.specs.Drive.{overwritten};
ghost use Rattle.rules.specs.Recorder.{last_of};
ghost use Rattle.sorting.specs.Order.{in_order};
ghost use Rattle.rules.specs.Calls.{latest};
ghost use Rattle.tables.specs.Serving.{ServesFor, answering, served};
ghost use Rattle.recorder.specs.Newest.{Fillable, FillsFrom, gathered_parts, parts_of, written_of};
ghost use Rattle.recorder.specs.Steps.{FillsLatest, Gives};

use crate::choice::records_of;
use crate::newest::{Gathered, fill, gather};
use crate::samples::{is_out_of_range, may_read, no_samples};
use crate::serving::{serve_words, show_shape};
use geometry::{Adus, Config, adus_per_block};
use lent_domains::domain_at;
use model::{Answer, Block, Domain, Refusal, Table};
use sorting::sort;
use tables::Served;

// What is read: a drive's configuration, its records and its store.
#[derive(Clone, Copy)]
struct Lent<'a> {
    config: Config,
    blocks: &'a [Block],
    store: &'a [u64],
}

// Puts the keys in order, and fills in the last so many of the ADUs of their blocks.
fn fill_ordered(lent: Lent, keys: &mut [u64], count: Adus, words: &mut [u64])
    requires fills_from { FillsFrom lent.config (in_order keys.old) lent.blocks.now count lent.store.now words.old }
    requires keys_len_bound { length keys.old ≤ 256 }
    ensures { words.new ≡ overwritten 0 (last_of count.0 (parts_of (adus_per_block lent.entry.config).0 lent.entry.store.now (written_of lent.entry.blocks.now) (in_order keys.old))) words.old }
{
    sort(keys);
    let capacity = adus_per_block(lent.config).0 as usize;
    fill(
        keys,
        lent.blocks,
        capacity,
        count.0 as usize,
        lent.store,
        words,
    );
}

// 15; then the last so many of the ADUs that were gathered, oldest first.
fn fill_latest(
    lent: Lent,
    found: Gathered,
    keys: &mut [u64],
    count: Adus,
    words: &mut [u64],
) -> Answer
    requires { Fillable lent.config found keys.old lent.blocks.now lent.store.now × (count.0 ≤ length words.old) }
    ensures { FillsLatest (gathered_parts lent.entry.config found keys.old lent.entry.blocks.now lent.entry.store.now) count words.old result words.new }
{
    if found.adus < count.0 {
        return Answer::Refused(Refusal::Extent);
    }
    fill_ordered(lent, &mut keys[..found.keys], count, words);
    Answer::Done
}

// 6 and 7 for a domain with this record, and what then is asked and filled in.
fn give_latest(
    lent: Lent,
    owner: Domain,
    found: Gathered,
    keys: &mut [u64],
    count: Adus,
    words: &mut [u64],
) -> Answer
    requires { Fillable lent.config found keys.old lent.blocks.now lent.store.now }
    ensures { Gives owner (gathered_parts lent.entry.config found keys.old lent.entry.blocks.now lent.entry.store.now) count words.old result words.new }
{
    if !may_read(owner, count) {
        return Answer::Refused(Refusal::Range);
    }
    if (words.len() as u64) < count.0 {
        return Answer::Refused(Refusal::Output);
    }
    fill_latest(lent, found, keys, count, words)
}

// The last so many samples that a domain keeps, oldest first, into the front of the words. The table and the store stay
// as they were.
pub fn latest_in(
    table: &mut Table,
    domain: u64,
    count: Adus,
    store: &mut [u64],
    words: &mut [u64],
) -> Answer
    ensures { ServesFor table.old (latest domain count) store.old words.old [] (served (answering table.new result) store.new words.new []) }
{
    let asked = no_samples(domain);
    let answer = serve_words(table, asked, store, words);
    if is_out_of_range(answer) {
        show_shape(table);
        let config = table.config;
        let records = records_of(config.blocks);
        let mut keys = [0; 256];
        let found = gather(&table.blocks[..records], domain, &mut keys);
        let owner = domain_at(&table.domains, domain - 1);
        let lent = Lent {
            config,
            blocks: &table.blocks,
            store,
        };
        return give_latest(lent, owner, found, &mut keys, count, words);
    }
    answer
}

// The same on a table by value: the answer and the table after it.
pub fn latest(
    table: Table,
    domain: u64,
    count: Adus,
    store: &mut [u64],
    words: &mut [u64],
) -> Served
    ensures { ServesFor table (latest domain count) store.old words.old [] (served result store.new words.new []) }
{
    let mut changed = table;
    let answer = latest_in(&mut changed, domain, count, store, words);
    Served {
        answer,
        table: changed,
    }
}
