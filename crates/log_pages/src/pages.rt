// Page: Super Block Information.
ghost use Rattle.std.specs.Prelude.{true, List, ◌≡◌, ℕ, ◌≤◌, drop, length, take};
ghost use Rattle.geometry.specs.Questions.{first_no};
ghost use Rattle.geometry.specs.Shape.{within_limits};
ghost use Rattle.geometry.specs.declared.shape.Config.{Config};
ghost use Rattle.log_pages.specs.LogPages.{page_questions};
ghost use Rattle.model.specs.declared.command.Command.TheVariants.{Page};
ghost use Rattle.model.specs.declared.table.Table.{Table};
ghost use Rattle.rules.specs.Drive.{overwritten};
ghost use Rattle.rules.specs.LogPages.{page};
ghost use Rattle.scan.specs.First.{FirstPassed};
ghost use Rattle.scan.specs.Summary.{Seen, Sees, SeesBlock};
ghost use Rattle.tables.specs.Serving.{ServesCommand, answer_from, answering, served};
ghost use Rattle.tables.specs.Verdicts.{verdict_number};

use crate::fields::{placement_field, written_if_open};
use buffers::put_field;
use geometry::{Config, adus_per_block};
use model::{Block, Refusal};
use scan::Summary;
use tables::{ask, integrity, is_held, state_byte, wear_index};

// Which block it is and whose.
fn put_identity(bytes: &mut [u8], number: u64, block: Block)
    requires { 256 ≤ length bytes.old }
    ensures { (c : Config) → bytes.new ≡ overwritten 0 (take 12 (page c number block)) bytes.old }
{
    let state = block.state;
    put_field(bytes, 0, 2, 1);
    put_field(bytes, 2, 1, 0);
    put_field(bytes, 3, 1, state_byte(state));
    put_field(bytes, 4, 4, number);
    put_field(bytes, 8, 2, placement_field(state));
    put_field(bytes, 10, 2, block.holder as u64);
}

// How worn and how full it is.
fn put_counts(bytes: &mut [u8], config: Config, block: Block)
    requires in_bounds { 256 ≤ length bytes.old }
    requires config_value { within_limits config ≡ true }
    ensures { (n : ℕ) → bytes.new ≡ overwritten 12 (drop 12 (page config n block)) bytes.old }
{
    put_field(bytes, 12, 1, wear_index(config.rated, block.erases));
    put_field(bytes, 13, 1, integrity(block));
    put_field(bytes, 14, 2, 0);
    put_field(bytes, 16, 4, adus_per_block(config).0);
    put_field(bytes, 20, 4, written_if_open(block));
    put_field(bytes, 24, 4, block.serial as u64);
    put_field(bytes, 28, 228, 0);
}

// 6, 7 and 9.
#[tactic(auto, using(tables::proofs::Refusals::refusal_positive), unfolding(geometry::specs::Questions::first_no, crate::specs::LogPages::page_questions))]
fn page_verdict(summary: Summary, domain: u64, block: u64, room: usize) -> Result<(), Refusal>
    ensures { verdict_number result ≡ first_no (page_questions summary domain block room) }
{
    ask(block < summary.config.blocks, Refusal::Range)?;
    ask(256 <= room, Refusal::Output)?;
    ask(is_held(summary.block, domain), Refusal::Holder)
}

// Super Block Information of a held block, 256 bytes.
pub fn page(summary: Summary, domain: u64, block: u64, bytes: &mut [u8]) -> Result<(), Refusal>
    requires { Seen domain summary × FirstPassed (Page domain block) 0 summary }
    ensures { (t : Table) (store words : List ℕ) → Sees t domain summary → SeesBlock t block summary → ServesCommand t (Page domain block) store words bytes.old (served (answering t (answer_from result)) store words bytes.new) }
{
    page_verdict(summary, domain, block, bytes.len())?;
    put_identity(bytes, block, summary.block);
    put_counts(bytes, summary.config, summary.block);
    Ok(())
}
