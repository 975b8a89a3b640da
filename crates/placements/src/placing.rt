// User addresses into the placement's open block, and what is left of them for others.
ghost use Rattle.std.specs.Prelude.{true, List, ◌≡◌, ℕ, ◌≤◌, length};
ghost use Rattle.std.proofs.Math.Option.{Option};
ghost use Rattle.model.specs.declared.answer.Answer.TheVariants.{Done};
ghost use Rattle.model.specs.declared.table.Table.{Table};
ghost use Rattle.placements.specs.Onwards.{MayGoOn, WentOn, rest_after, whole_write};
ghost use Rattle.placements.specs.Placing.{MayFill, MayPlace, Places, into_table, put_change, room_seen};
ghost use Rattle.rules.specs.Blocks.{user_addresses, written_by_placement, written_first};
ghost use Rattle.rules.specs.Drive.{Drive};
ghost use Rattle.rules.specs.Questions.{user_addresses_fit};
ghost use Rattle.scan.specs.Summary.{SeesFound};
ghost use Rattle.tables.specs.Changing.{changed_table};
ghost use Rattle.tables.specs.Serving.{drive};
ghost use Rattle.transfers.specs.Transfers.{Wrote};

use crate::rest::{Partial, Rest, rest_after};
use crate::room::room_in;
use geometry::{Adus, adus_per_block, stretch_start};
use model::{Answer, Block, Domain};
use scan::Summary;
use tables::{Change, Outcome, clear_block, domain_change, opening_change};
use transfers::written_into;

// Into the placement's open block, if it has one: its record afterwards.
fn into_open(
    summary: Summary,
    domain: u64,
    start: u64,
    put: Adus,
    store: &mut [u64],
    words: &mut [u64],
) -> Block
    requires may_fill { MayFill summary (length store.old) domain put.0 }
    requires put_value { user_addresses_fit start put.0 ≡ true }
    requires put_in_bounds { put.0 ≤ length words.old }
    ensures { (t : Table) (found : Option ℕ) → t.config ≡ summary.config → SeesFound t found summary → Wrote (written_first domain found (user_addresses start put.0) (drive t store.old)) words.old (drive (into_table summary.found result t) store.new) words.new }
{
    match summary.found {
        None => clear_block(),
        Some(n) => {
            let config = summary.config;
            let block = summary.block;
            let first = stretch_start(config, n).0 as usize;
            let end = first + adus_per_block(config).0 as usize;
            let stretch = &mut store[first..end];
            written_into(config, domain, n, block, start, put, stretch, words)
        }
    }
}

// The owner's record, with the new one of the open block if there is one.
fn put_change(found: Option<u64>, block: Block, domain: u64, owner: Domain) -> Change
    ensures { result ≡ put_change found block domain owner }
{
    match found {
        None => domain_change(domain, owner),
        Some(n) => opening_change(n, block, domain, owner),
    }
}

// Into the placement's open block what it takes, if it has one: its new record, and what is left for blocks that are
// opened.
pub(crate) fn placed(
    summary: Summary,
    domain: u64,
    placement: u8,
    start: u64,
    count: Adus,
    store: &mut [u64],
    words: &mut [u64],
) -> Partial
    requires may_place { MayPlace summary (length store.old) domain count.0 }
    requires count_value { user_addresses_fit start count.0 ≡ true }
    requires count_in_bounds { count.0 ≤ length words.old }
    ensures { (result.outcome.answer ≡ Done) × (result.outcome.change.domain ≡ domain) × (result.rest ≡ rest_after (whole_write placement start count) (room_seen summary)) × MayGoOn summary.config (length store.new) (length words.new) domain result.outcome.change.owner result.rest × ((t : Table) → Places t domain placement summary → (u : Drive) (last : List ℕ) → WentOn domain result.rest (drive (changed_table result.outcome.change t) store.new) words.new u last → Wrote (written_by_placement domain placement (user_addresses start count.0) (drive t store.old)) words.old u last) }
{
    let room = room_in(summary);
    let put = Adus(count.0.min(room.0));
    let block = into_open(summary, domain, start, put, store, words);
    let whole = Rest {
        placement,
        start,
        count,
        done: 0,
    };
    Partial {
        outcome: Outcome {
            answer: Answer::Done,
            change: put_change(summary.found, block, domain, summary.domain),
        },
        rest: rest_after(whole, room),
    }
}
