// Write by placement.
ghost use Rattle.std.specs.Prelude.{true, List, ◌++◌, ◌≡◌, ℕ, length};
ghost use Rattle.geometry.specs.Address.{is_domain_id};
ghost use Rattle.geometry.specs.Questions.{first_no};
ghost use Rattle.model.specs.declared.command.Command.TheVariants.{WriteByPlacement};
ghost use Rattle.model.specs.declared.table.Table.{Table};
ghost use Rattle.placements.specs.Asking.{may_open_seen, placement_arguments, placement_state};
ghost use Rattle.placements.specs.Onwards.{Finishes, MayFinish, partial_from, rest_after, rest_if_done, whole_write};
ghost use Rattle.placements.specs.Placing.{room_seen};
ghost use Rattle.rules.specs.Questions.{is_count};
ghost use Rattle.scan.specs.First.{FirstPassed};
ghost use Rattle.scan.specs.Summary.{Seen, Sees, SeesPlacement};
ghost use Rattle.tables.specs.Verdicts.{verdict_number};

use crate::placing::placed;
use crate::rest::Partial;
use crate::room::{blocks_for, room_in, without};
use blocks::new_blocks_verdict;
use buffers::user_addresses_fit;
use geometry::Adus;
use model::Refusal;
use scan::Summary;
use tables::{ask, is_count, may_open};

// 6 and 7.
#[tactic(auto, using(tables::proofs::Refusals::refusal_positive), unfolding(geometry::specs::Questions::first_no, crate::specs::Asking::placement_arguments))]
fn placement_arguments(
    summary: Summary,
    placement: u64,
    count: Adus,
    words: usize,
) -> Result<(), Refusal>
    ensures { verdict_number result ≡ first_no (placement_arguments summary words placement count) }
{
    let d = summary.domain;
    let range = (placement < d.placements as u64) & is_count(count);
    ask(range, Refusal::Range)?;
    ask(count.0 <= words as u64, Refusal::Output)
}

// 11. A block opens where the placement has none open: are fewer open than the limit?
fn may_open_for(summary: Summary) -> bool
    ensures { result ≡ may_open_seen summary }
{
    match summary.found {
        None => may_open(summary.domain, summary.opened),
        Some(_) => true,
    }
}

// 8 and 11 to 14, these of all blocks that the write will open.
#[tactic(auto, using(tables::proofs::Refusals::refusal_positive), unfolding(geometry::specs::Questions::first_no, crate::specs::Asking::placement_state))]
fn placement_state(summary: Summary, domain: u64, start: u64, count: Adus) -> Result<(), Refusal>
    requires seen { Seen domain summary × (summary.sound ≡ true) }
    requires domain_value { is_domain_id domain ≡ true }
    requires count_value { is_count count ≡ true }
    ensures { (t : Table) → Sees t domain summary → verdict_number result ≡ first_no (placement_state t summary domain start count) }
{
    let config = summary.config;
    let new = blocks_for(config, without(count, room_in(summary)));
    let opens = may_open_for(summary);
    ask(user_addresses_fit(start, count), Refusal::UserAddress)?;
    ask(opens, Refusal::OpenLimit)?;
    new_blocks_verdict(summary, domain, new as u32, new)
}

#[tactic(auto, using(tables::proofs::Refusals::refusal_positive), unfolding(geometry::specs::Questions::first_no, crate::specs::Asking::placement_arguments, crate::specs::Asking::placement_state))]
fn placement_verdict(
    summary: Summary,
    domain: u64,
    placement: u64,
    start: u64,
    count: Adus,
    words: usize,
) -> Result<(), Refusal>
    requires seen { Seen domain summary × (summary.sound ≡ true) }
    requires domain_value { is_domain_id domain ≡ true }
    ensures { (t : Table) → Sees t domain summary → verdict_number result ≡ first_no (placement_arguments summary words placement count ++ placement_state t summary domain start count) }
{
    placement_arguments(summary, placement, count, words)?;
    placement_state(summary, domain, start, count)
}

// User addresses into the placement's open block; what is left of them goes into others that are opened for it. The
// flash addresses go into the words.
pub fn write_by_placement(
    summary: Summary,
    domain: u64,
    placement: u64,
    start: u64,
    count: Adus,
    store: &mut [u64],
    words: &mut [u64],
) -> Result<Partial, Refusal>
    requires sees { (t : Table) × Sees t domain summary × SeesPlacement t domain placement summary }
    requires first_passed { FirstPassed (WriteByPlacement domain placement start count) (length store.old) summary }
    ensures { ((partial_from result).rest ≡ rest_if_done (partial_from result).outcome.answer (rest_after (whole_write placement start count) (room_seen summary))) × MayFinish summary.config (length store.new) (length words.new) (partial_from result) × ((t : Table) (bytes : List ℕ) → Sees t domain summary → SeesPlacement t domain placement summary → Finishes t (WriteByPlacement domain placement start count) store.old words.old bytes (partial_from result) store.new words.new bytes) }
{
    placement_verdict(summary, domain, placement, start, count, words.len())?;
    let p = placement as u8;
    Ok(placed(summary, domain, p, start, count, store, words))
}
