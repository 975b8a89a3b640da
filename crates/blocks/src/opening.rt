// Opening a block: what is asked for it, and the change.
ghost use Rattle.std.specs.Prelude.{true, ◌≡◌, ◌+◌, ◌≤◌, length, replicate};
ghost use Rattle.blocks.specs.Opening.{MayOpenFor};
ghost use Rattle.geometry.specs.Address.{is_domain_id};
ghost use Rattle.geometry.specs.Questions.{first_no};
ghost use Rattle.model.specs.Blocks.{opened};
ghost use Rattle.model.specs.declared.table.Table.{Table};
ghost use Rattle.rules.specs.Blocks.{all_ones, with_last};
ghost use Rattle.scan.specs.Summary.{Seen, Sees};
ghost use Rattle.tables.specs.Verdicts.{new_blocks_questions, verdict_number};

use buffers::ALL_ONES;
use geometry::Config;
use model::{Block, Domain, Refusal, Way};
use scan::{Summary, covered_with};
use tables::{ask, reserved_by, serials_left, within_quota};

// ---- The questions

// 12 to 14: are there serials, quota and coverage for so many new serials and blocks?
#[tactic(auto, using(tables::proofs::Refusals::refusal_positive), unfolding(geometry::specs::Questions::first_no))]
pub fn new_blocks_verdict(
    summary: Summary,
    domain: u64,
    serials: u32,
    blocks: u64,
) -> Result<(), Refusal>
    requires seen { Seen domain summary × (summary.sound ≡ true) }
    requires domain_value { (is_domain_id domain ≡ true) × (blocks ≤ 256) }
    ensures { (t : Table) → Sees t domain summary → verdict_number result ≡ first_no (new_blocks_questions t domain serials blocks) }
{
    let d = summary.domain;
    let after = summary.held + blocks;
    let covered = covered_with(summary, domain, reserved_by(d), after);
    ask(serials_left(d, serials), Refusal::Serials)?;
    ask(within_quota(d, after), Refusal::Quota)?;
    ask(covered, Refusal::Coverage)
}

// ---- The change

// The new records of a block that is opened and of the domain that it is opened for.
#[derive(Clone, Copy)]
pub struct Opened {
    pub block: Block,
    pub owner: Domain,
}

fn with_last(domain: Domain, last: u32) -> Domain
    ensures { result ≡ with_last last domain }
{
    Domain { last, ..domain }
}

// A block is opened for the domain, and the entries of its stretch become all ones.
pub fn opened_for(
    config: Config,
    owner: Domain,
    domain: u64,
    way: Way,
    block: Block,
    stretch: &mut [u64],
) -> Opened
    requires { MayOpenFor config owner domain }
    ensures { (result.block ≡ opened domain way (owner.last + 1) config.period block) × (result.owner ≡ with_last (owner.last + 1) owner) × (stretch.new ≡ replicate (length stretch.old) all_ones) }
{
    stretch.fill(ALL_ONES);
    let serial = owner.last + 1;
    Opened {
        block: block.opened(domain as u8, way, serial, config.period as u32),
        owner: with_last(owner, serial),
    }
}
