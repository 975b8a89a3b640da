// Erase.
ghost use Rattle.std.specs.Prelude.{false, true, List, ◌≡◌, ℕ, ◌≤◌, eqb, length};
ghost use Rattle.blocks.specs.Erasing.{block_questions, erase_questions, erased_of, new_erased};
ghost use Rattle.geometry.specs.Address.{is_domain_id};
ghost use Rattle.geometry.specs.Questions.{first_no};
ghost use Rattle.model.specs.declared.command.Command.TheVariants.{Erase};
ghost use Rattle.model.specs.declared.table.Table.{Table};
ghost use Rattle.rules.specs.Blocks.{any_block};
ghost use Rattle.scan.specs.First.{FirstPassed};
ghost use Rattle.scan.specs.Summary.{Seen, Sees, SeesBlock, SeesChoice};
ghost use Rattle.tables.specs.Changing.{outcome_from, outcome_served};
ghost use Rattle.tables.specs.Serving.{ServesCommand, served};
ghost use Rattle.tables.specs.Verdicts.{verdict_number};

use crate::opening::{new_blocks_verdict, opened_for};
use geometry::{adus_per_block, stretch_start};
use model::{Answer, Refusal, Way};
use scan::Summary;
use tables::{
    Outcome, ask, is_closed, is_free, is_held, may_open, opening_change, refusal, unchanged,
};

// Erase leaves the choice to the manager: the command set's own number for that, which a host sends.
pub const ANY_BLOCK: u64 = 0xffff_ffff;

// ---- The questions

// 6, 9 and 10: is the number in range, and the block the domain's to erase?
#[tactic(auto, using(tables::proofs::Refusals::refusal_positive), unfolding(geometry::specs::Questions::first_no, crate::specs::Erasing::block_questions))]
fn erase_block_verdict(summary: Summary, domain: u64, block: u64) -> Result<(), Refusal>
    ensures { verdict_number result ≡ first_no (block_questions summary domain block) }
{
    let b = summary.block;
    let any = block == ANY_BLOCK;
    let own = is_held(b, domain);
    ask((block < summary.config.blocks) | any, Refusal::Range)?;
    ask(any | is_free(b) | own, Refusal::Holder)?;
    ask(any | !own | is_closed(b), Refusal::BlockState)
}

// A held block that is opened again isn't new.
fn new_of_erase(summary: Summary, domain: u64, block: u64) -> u64
    ensures { (result ≡ new_erased summary domain block) × (result ≤ 1) }
{
    let b = summary.block;
    if (block != ANY_BLOCK) & is_held(b, domain) {
        0
    } else {
        1
    }
}

// 6 to 14.
#[tactic(auto, using(tables::proofs::Refusals::refusal_positive), unfolding(geometry::specs::Questions::first_no, crate::specs::Erasing::block_questions, crate::specs::Erasing::erase_questions))]
fn erase_verdict(summary: Summary, domain: u64, block: u64) -> Result<(), Refusal>
    requires seen { Seen domain summary × (summary.sound ≡ true) }
    requires domain_value { is_domain_id domain ≡ true }
    ensures { (t : Table) → Sees t domain summary → verdict_number result ≡ first_no (erase_questions t summary domain block) }
{
    let d = summary.domain;
    let new = new_of_erase(summary, domain, block);
    erase_block_verdict(summary, domain, block)?;
    ask(may_open(d, summary.opened), Refusal::OpenLimit)?;
    new_blocks_verdict(summary, domain, 1, new)
}

// ---- The change

// The block that Erase opens: that of the number, or for FFFFFFFFh the chosen one.
fn erased_block(summary: Summary, block: u64) -> Option<u64>
    ensures { result ≡ erased_of summary block }
{
    if block == ANY_BLOCK {
        return summary.found;
    }
    Some(block)
}

// Opens a block with entries of all ones. Where none is found none is opened.
pub fn erase(
    summary: Summary,
    domain: u64,
    block: u64,
    store: &mut [u64],
) -> Result<Outcome, Refusal>
    requires sees { (t : Table) × Sees t domain summary × (eqb block any_block ≡ false → SeesBlock t block summary) × (eqb block any_block ≡ true → SeesChoice t summary) }
    requires first_passed { FirstPassed (Erase domain block) (length store.old) summary }
    ensures { (t : Table) (words bytes : List ℕ) → Sees t domain summary → (eqb block any_block ≡ false → SeesBlock t block summary) → (eqb block any_block ≡ true → SeesChoice t summary) → ServesCommand t (Erase domain block) store.old words bytes (served (outcome_served t (outcome_from result)) store.new words bytes) }
{
    erase_verdict(summary, domain, block)?;
    match erased_block(summary, block) {
        None => Ok(unchanged(Answer::Done)),
        Some(n) => {
            let config = summary.config;
            let first = stretch_start(config, n).0 as usize;
            let end = first + adus_per_block(config).0 as usize;
            let stretch = &mut store[first..end];
            let opened = opened_for(
                config,
                summary.domain,
                domain,
                Way::Erase,
                summary.block,
                stretch,
            );
            Ok(Outcome {
                answer: Answer::Block(n),
                change: opening_change(n, opened.block, domain, opened.owner),
            })
        }
    }
}
