// Write by block.
ghost use Rattle.std.specs.Prelude.{true, List, ◌++◌, ◌≡◌, ℕ, ◌+◌, ◌≤◌, length};
ghost use Rattle.geometry.specs.Address.{word_of};
ghost use Rattle.geometry.specs.Answers.{address_questions};
ghost use Rattle.geometry.specs.Questions.{first_no};
ghost use Rattle.geometry.specs.Shape.{adus_per_block, within_limits};
ghost use Rattle.model.specs.declared.command.Command.TheVariants.{WriteByBlock};
ghost use Rattle.model.specs.declared.table.Table.{Table};
ghost use Rattle.rules.specs.Blocks.{user_addresses};
ghost use Rattle.rules.specs.Drive.{overwritten};
ghost use Rattle.rules.specs.Questions.{is_count, user_addresses_fit};
ghost use Rattle.scan.specs.First.{FirstPassed};
ghost use Rattle.scan.specs.Summary.{Seen, Sees, SeesBlock};
ghost use Rattle.tables.specs.Changing.{outcome_from, outcome_served};
ghost use Rattle.tables.specs.Serving.{ServesCommand, served};
ghost use Rattle.tables.specs.Verdicts.{verdict_number};
ghost use Rattle.transfers.specs.Transfers.{MayWriteIn, WroteIn, address_in, write_arguments, write_state};

use buffers::{ALL_ONES, put_rising, user_addresses_fit};
use geometry::{Adus, Config, FlashAddress, adus_per_block, flash_word, stretch_start};
use model::{Answer, Block, Refusal};
use scan::Summary;
use tables::{Outcome, ask, block_change, ends_within, is_count, is_held, is_open_by_erase};

// ---- Into a block

fn word_at(config: Config, domain: u64, block: u64, offset: Adus) -> u64
    requires { first_no (address_questions config (address_in domain block offset)) ≡ 0 }
    ensures { result ≡ word_of config (address_in domain block offset) }
{
    let address = FlashAddress {
        domain,
        block,
        offset,
    };
    match flash_word(config, address) {
        Ok(word) => word,
        Err(_) => 0,
    }
}

// So many user addresses from a start on, into a block's stretch from an offset on.
fn put_user_addresses(stretch: &mut [u64], offset: Adus, count: Adus, start: u64)
    requires count_in_bounds { offset.0 + count.0 ≤ length stretch.old }
    requires le_count { (1 ≤ count.0) × (user_addresses_fit start count.0 ≡ true) }
    ensures { stretch.new ≡ overwritten offset.0 (user_addresses start count.0) stretch.old }
{
    let at = offset.0 as usize;
    let part = &mut stretch[at..at + count.0 as usize];
    if start == ALL_ONES {
        part.fill(ALL_ONES);
    } else {
        put_rising(part, start);
    }
}

// User addresses go into block n, whose record and stretch are given, from its first unwritten ADU on, and their
// flash addresses into the words. The block's new record is handed back.
pub fn written_into(
    config: Config,
    domain: u64,
    n: u64,
    block: Block,
    start: u64,
    count: Adus,
    stretch: &mut [u64],
    words: &mut [u64],
) -> Block
    requires may_write_in { MayWriteIn config domain n block count.0 }
    requires count_value { user_addresses_fit start count.0 ≡ true }
    requires stretch_len { (length stretch.old ≡ (adus_per_block config).0) × (count.0 ≤ length words.old) }
    ensures { WroteIn config domain n block (user_addresses start count.0) stretch.old words.old result stretch.new words.new }
{
    let written = block.written;
    let size = count.0 as usize;
    let word = word_at(config, domain, n, written);
    put_rising(&mut words[..size], word);
    put_user_addresses(stretch, written, count, start);
    block.written_on(count, adus_per_block(config))
}

// ---- Write by block

// 6 and 7.
#[tactic(auto, using(tables::proofs::Refusals::refusal_positive), unfolding(geometry::specs::Questions::first_no, crate::specs::Transfers::write_arguments))]
fn write_arguments(summary: Summary, block: u64, count: Adus, words: usize) -> Result<(), Refusal>
    ensures { verdict_number result ≡ first_no (write_arguments summary words block count) }
{
    let range = (block < summary.config.blocks) & is_count(count);
    ask(range, Refusal::Range)?;
    ask(count.0 <= words as u64, Refusal::Output)
}

// 8 to 15.
#[tactic(auto, using(tables::proofs::Refusals::refusal_positive), unfolding(geometry::specs::Questions::first_no, crate::specs::Transfers::write_state))]
fn write_state(summary: Summary, domain: u64, start: u64, count: Adus) -> Result<(), Refusal>
    requires config_value { within_limits summary.config ≡ true }
    requires count_value { is_count count ≡ true }
    ensures { verdict_number result ≡ first_no (write_state summary domain start count) }
{
    let config = summary.config;
    let b = summary.block;
    let written = b.written;
    let capacity = adus_per_block(config);
    ask(user_addresses_fit(start, count), Refusal::UserAddress)?;
    ask(is_held(b, domain), Refusal::Holder)?;
    ask(is_open_by_erase(b), Refusal::BlockState)?;
    ask(ends_within(written, count, capacity), Refusal::Extent)
}

#[tactic(auto, using(tables::proofs::Refusals::refusal_positive), unfolding(geometry::specs::Questions::first_no, crate::specs::Transfers::write_arguments, crate::specs::Transfers::write_state))]
fn write_verdict(
    summary: Summary,
    domain: u64,
    block: u64,
    start: u64,
    count: Adus,
    words: usize,
) -> Result<(), Refusal>
    requires { within_limits summary.config ≡ true }
    ensures { verdict_number result ≡ first_no (write_arguments summary words block count ++ write_state summary domain start count) }
{
    write_arguments(summary, block, count, words)?;
    write_state(summary, domain, start, count)
}

// User addresses into a block that is Open by Erase, and their flash addresses into the words.
pub fn write_by_block(
    summary: Summary,
    domain: u64,
    block: u64,
    start: u64,
    count: Adus,
    store: &mut [u64],
    words: &mut [u64],
) -> Result<Outcome, Refusal>
    requires { Seen domain summary × FirstPassed (WriteByBlock domain block start count) (length store.old) summary }
    ensures { (t : Table) (bytes : List ℕ) → Sees t domain summary → SeesBlock t block summary → ServesCommand t (WriteByBlock domain block start count) store.old words.old bytes (served (outcome_served t (outcome_from result)) store.new words.new bytes) }
{
    write_verdict(summary, domain, block, start, count, words.len())?;
    let config = summary.config;
    let first = stretch_start(config, block).0 as usize;
    let end = first + adus_per_block(config).0 as usize;
    let stretch = &mut store[first..end];
    let new = written_into(
        config,
        domain,
        block,
        summary.block,
        start,
        count,
        stretch,
        words,
    );
    Ok(Outcome {
        answer: Answer::Done,
        change: block_change(block, new),
    })
}
