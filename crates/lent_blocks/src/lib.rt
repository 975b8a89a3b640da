// What is read and changed in lent slices of block records: one record by its number, or all of them in a walk that
// calls what is proved of one record.
//
// Those that count the blocks ask for 256 at most: what is lent are the drive's own, as many as it has, and no array.
#![tactic(auto)]

ghost use Rattle.std.specs.Prelude.{◌<◌, ◌≤◌, true, List, map, ◌≡◌, get_or, length, set};
ghost use Rattle.rules.specs.Domains.{freed_if_held};
ghost use Rattle.rules.specs.Drive.{clear_block, is_free};
ghost use Rattle.placements.specs.Onwards.{MayGoOn, OpenedNext, WroteOnwards, rest_after_new};
ghost use Rattle.tables.specs.Changing.{changed_blocks, present_blocks};
ghost use Rattle.scan.specs.Free.{Chosen, no_candidate};
ghost use Rattle.scan.specs.Listing.{listed_from, noted_from};
ghost use Rattle.scan.specs.Marks.{chain_differs};
ghost use Rattle.scan.specs.Scan.{Walked};

use countdown::count_down;
use geometry::Config;
use model::{Block, Domain, Listed};
use placements::{Filled, Rest, fill_next, nothing_left};
use scan::{
    Candidate, Keys, Marks, Subject, choose, holder_index, no_candidate, put_record, record_at,
    same_serial, scan_block,
};
use tables::{Change, clear_block};

// Has no block of a chain, from one on that is counted from 1, the serial of this one? Each block leads to one before
// it.
fn chain_differs(blocks: &[Block], marks: &Marks, last: usize, block: Block) -> bool
    requires { length blocks.now ≤ 256 }
    ensures { result ≡ chain_differs blocks.now marks.now.row block last }
{
    // A `while`: each block leads to one before it, and not to the next.
    let mut at = last;
    while 0 < at {
        if blocks.len() < at {
            return false;
        }
        let other = blocks[at - 1];
        if same_serial(block, other) {
            return false;
        }
        at = marks.chain_before(at);
    }
    true
}

// Are the blocks sound, as far as blocks alone can tell? Those that are held are counted in the marks, up to the first
// that is not sound.
pub fn scan_blocks(
    blocks: &[Block],
    domains: &[Domain],
    subject: Subject,
    marks: &mut Marks,
) -> bool
    requires { (length blocks.now ≤ 256) × (length domains.now ≡ 16) }
    ensures { Walked subject domains.now blocks.now 0 blocks.now result marks.old.row marks.new.row }
{
    for (n, block) in blocks.iter().enumerate() {
        let holder = domains[holder_index(*block)];
        let Some(last) = scan_block(&subject, n, *block, holder, marks) else {
            return false;
        };
        if 0 < last {
            if !chain_differs(blocks, marks, last, *block) {
                return false;
            }
        }
    }
    true
}

// The Free block to be opened next.
pub fn choose_free(blocks: &[Block]) -> Candidate
    requires { length blocks.now ≤ 256 }
    ensures { Chosen 0 blocks.now no_candidate result }
{
    let mut best = no_candidate();
    for (n, block) in blocks.iter().enumerate() {
        best = choose(best, n as u64, *block);
    }
    best
}

// The keys of those of the blocks that are listed.
fn note_blocks(blocks: &[Block], subject: Subject, listed: Listed, keys: &mut Keys)
    requires { length blocks.now ≤ 256 }
    ensures { keys.new ≡ noted_from subject listed 0 blocks.now keys.old }
{
    for (n, block) in blocks.iter().enumerate() {
        keys.note_listed(&subject, listed, n, *block);
    }
}

// What a list tells of the blocks, in the marks.
pub fn gather_list(blocks: &[Block], subject: Subject, listed: Listed, marks: &mut Marks)
    requires { length blocks.now ≤ 256 }
    ensures { marks.new.row ≡ listed_from subject listed 0 blocks.now marks.old.row }
{
    let mut keys = Keys::new();
    note_blocks(blocks, subject, listed, &mut keys);
    keys.put_order(marks);
}

// A block's record; a number past the last has a clear one.
pub fn block_at(blocks: &[Block], n: u64) -> Block
    ensures { result ≡ get_or blocks.now n clear_block }
{
    record_at(blocks, n, clear_block())
}

fn freed_if_held(block: Block, domain: u64) -> Block
    ensures { result ≡ freed_if_held domain block }
{
    if block.holder as u64 == domain {
        block.freed()
    } else {
        block
    }
}

// Every block of a domain is freed.
pub fn free_held(blocks: &mut [Block], domain: u64)
    ensures { blocks.new ≡ map (freed_if_held domain) blocks.old }
{
    for block in blocks.iter_mut() {
        *block = freed_if_held(*block, domain);
    }
}

// What a command changes in the blocks.
#[tactic(auto, unfolding(tables::specs::Changing::changed_blocks))]
pub fn change_blocks(blocks: &mut [Block], change: Change)
    ensures { blocks.new ≡ changed_blocks change blocks.old }
{
    if let Some((n, new)) = change.one {
        put_record(blocks, n, new);
    }
    if let Some(seconds) = change.pulsed {
        count_down(blocks, seconds);
    }
    if change.frees {
        free_held(blocks, change.domain);
    }
}

// What is left of a write goes into block n, the Free one to be opened next, as far as it fits. Where no block has that
// number, nothing is left.
fn fill_chosen(
    config: Config,
    domain: u64,
    owner: Domain,
    rest: Rest,
    n: u64,
    block: Block,
    store: &mut [u64],
    words: &mut [u64],
) -> Filled
    requires { MayGoOn config (length store.old) (length words.old) domain owner rest × (¬ (rest.count.0 ≡ 0)) × (n < config.blocks → is_free block ≡ true) }
    ensures { (result.rest ≡ rest_after_new config n rest) × (¬ (result.rest.count.0 ≡ 0) → MayGoOn config (length store.new) (length words.new) domain result.owner result.rest) × ((bs : List Block) (best : Candidate) → length bs ≡ config.blocks → Chosen 0 bs no_candidate best → best.number ≡ n → get_or bs n clear_block ≡ block → OpenedNext config domain rest bs owner store.old words.old result.rest (set bs n result.block) result.owner store.new words.new) }
{
    if n < config.blocks {
        return fill_next(config, domain, owner, rest, n, block, store, words);
    }
    Filled {
        block,
        owner,
        rest: nothing_left(),
    }
}

// The Free block to be opened next is opened for what is left of a write, and takes what fits it. Where no block is
// Free, nothing is left.
fn open_next(
    blocks: &mut [Block],
    config: Config,
    domain: u64,
    owner: Domain,
    rest: Rest,
    store: &mut [u64],
    words: &mut [u64],
) -> Filled
    requires { MayGoOn config (length store.old) (length words.old) domain owner rest × (¬ (rest.count.0 ≡ 0)) × (length blocks.old ≡ config.blocks) }
    ensures { ((best : Candidate) × Chosen 0 blocks.old no_candidate best × (result.rest ≡ rest_after_new config best.number rest)) × (¬ (result.rest.count.0 ≡ 0) → MayGoOn config (length store.new) (length words.new) domain result.owner result.rest) × OpenedNext config domain rest blocks.old owner store.old words.old result.rest blocks.new result.owner store.new words.new }
{
    let best = choose_free(blocks);
    let n = best.number;
    let block = block_at(blocks, n);
    let filled = fill_chosen(config, domain, owner, rest, n, block, store, words);
    let new = filled.block;
    put_record(blocks, n, new);
    filled
}

// What is left of a write goes into blocks that are opened for it, one after the other: the owner's record afterwards.
pub fn write_onwards(
    blocks: &mut [Block],
    config: Config,
    domain: u64,
    owner: Domain,
    rest: Rest,
    store: &mut [u64],
    words: &mut [u64],
) -> Domain
    requires { (¬ (rest.count.0 ≡ 0) → MayGoOn config (length store.old) (length words.old) domain owner rest) × (length blocks.old ≡ present_blocks config) }
    ensures { WroteOnwards config domain rest blocks.old owner store.old words.old blocks.new result store.new words.new }
{
    let mut new = owner;
    let mut left = rest;
    // A `while`: each turn says what is left.
    while 0 < left.count.0 {
        let next = open_next(blocks, config, domain, new, left, store, words);
        new = next.owner;
        left = next.rest;
    }
    new
}
