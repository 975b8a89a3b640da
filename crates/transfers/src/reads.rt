// Read.
ghost use Rattle.std.specs.Prelude.{true, List, ◌++◌, ◌≡◌, ℕ, ◌+◌, ◌≤◌, drop, length, take};
ghost use Rattle.geometry.specs.Address.{fields_of};
ghost use Rattle.geometry.specs.Questions.{first_no};
ghost use Rattle.geometry.specs.Shape.{within_limits};
ghost use Rattle.model.specs.declared.command.Command.TheVariants.{Read};
ghost use Rattle.model.specs.declared.table.Table.{Table};
ghost use Rattle.rules.specs.Questions.{is_count, user_addresses_fit};
ghost use Rattle.scan.specs.First.{FirstPassed};
ghost use Rattle.scan.specs.Summary.{Seen, Sees, SeesBlock};
ghost use Rattle.tables.specs.Serving.{ServesCommand, answer_from, answering, served};
ghost use Rattle.tables.specs.Verdicts.{verdict_number};
ghost use Rattle.transfers.specs.Transfers.{ReadsStretch, read_arguments, read_state};

use buffers::{all_match, put_stretch, user_addresses_fit};
use geometry::{Adus, FlashAddress, adus_per_block, stretch_start, word_fields};
use model::Refusal;
use scan::Summary;
use tables::{ask, ends_within, is_count, is_held};

// 6 and 7.
#[tactic(auto, using(tables::proofs::Refusals::refusal_positive), unfolding(geometry::specs::Questions::first_no, crate::specs::Transfers::read_arguments))]
fn read_arguments(
    summary: Summary,
    address: FlashAddress,
    count: Adus,
    words: usize,
) -> Result<(), Refusal>
    requires { within_limits summary.config ≡ true }
    ensures { verdict_number result ≡ first_no (read_arguments summary words address count) }
{
    let config = summary.config;
    let offset = address.offset;
    let inside = (address.block < config.blocks) & (offset.0 < adus_per_block(config).0);
    ask(inside & is_count(count), Refusal::Range)?;
    ask(count.0 <= words as u64, Refusal::Output)
}

// 8 to 15. What is read ends within what is written, and within the block.
#[tactic(auto, using(tables::proofs::Refusals::refusal_positive), unfolding(geometry::specs::Questions::first_no, crate::specs::Transfers::read_state))]
fn read_state(
    summary: Summary,
    domain: u64,
    address: FlashAddress,
    count: Adus,
    expected: u64,
) -> Result<(), Refusal>
    requires config_value { within_limits summary.config ≡ true }
    requires count_value { is_count count ≡ true }
    ensures { verdict_number result ≡ first_no (read_state summary domain address count expected) }
{
    let config = summary.config;
    let b = summary.block;
    let written = b.written;
    let offset = address.offset;
    let capacity = adus_per_block(config);
    let own = is_held(b, domain) & (address.domain == domain);
    let ends = ends_within(offset, count, written) & ends_within(offset, count, capacity);
    ask(user_addresses_fit(expected, count), Refusal::UserAddress)?;
    ask(own, Refusal::Holder)?;
    ask(ends, Refusal::Extent)
}

#[tactic(auto, using(tables::proofs::Refusals::refusal_positive), unfolding(geometry::specs::Questions::first_no, crate::specs::Transfers::read_arguments, crate::specs::Transfers::read_state))]
fn read_verdict(
    summary: Summary,
    domain: u64,
    address: FlashAddress,
    count: Adus,
    expected: u64,
    words: usize,
) -> Result<(), Refusal>
    requires { within_limits summary.config ≡ true }
    ensures { verdict_number result ≡ first_no (read_arguments summary words address count ++ read_state summary domain address count expected) }
{
    read_arguments(summary, address, count, words)?;
    read_state(summary, domain, address, count, expected)
}

// Question 16 of so many entries of a block's stretch from an offset on, which are then given.
fn read_stretch(
    stretch: &[u64],
    offset: Adus,
    count: Adus,
    expected: u64,
    words: &mut [u64],
) -> Result<(), Refusal>
    requires count_in_bounds { (offset.0 + count.0 ≤ length stretch.now) × (count.0 ≤ length words.old) }
    requires count_value { user_addresses_fit expected count.0 ≡ true }
    ensures { ReadsStretch expected (take count.0 (drop offset.0 stretch.now)) words.old (answer_from result) words.new }
{
    let at = offset.0 as usize;
    let end = at + count.0 as usize;
    let part = &stretch[at..end];
    if all_match(part, expected) {
        put_stretch(words, part);
        return Ok(());
    }
    Err(Refusal::Mismatch)
}

// The stored user addresses from a flash address on, if they are the expected ones.
pub fn read(
    summary: Summary,
    domain: u64,
    address: u64,
    count: Adus,
    expected: u64,
    store: &[u64],
    words: &mut [u64],
) -> Result<(), Refusal>
    requires { Seen domain summary × FirstPassed (Read domain address count expected) (length store.now) summary }
    ensures { (t : Table) (bytes : List ℕ) → Sees t domain summary → SeesBlock t (fields_of t.config address).block summary → ServesCommand t (Read domain address count expected) store.now words.old bytes (served (answering t (answer_from result)) store.now words.new bytes) }
{
    let config = summary.config;
    let a = word_fields(config, address);
    read_verdict(summary, domain, a, count, expected, words.len())?;
    let first = stretch_start(config, a.block).0 as usize;
    let end = first + adus_per_block(config).0 as usize;
    read_stretch(&store[first..end], a.offset, count, expected, words)
}
