// What a command sees of a table: all that its questions ask of it and its change needs.
ghost use Rattle.std.specs.Prelude.{◌≡◌, ◌+◌, ◌-◌, ◌<◌, ◌≤◌};
ghost use Rattle.scan.specs.Summary.{block_about, count_of, covering_with, found_there, summary_of};

use crate::clauses::domain_sound;
use crate::marks::{Marks, OPENED};
use crate::scan::{About, Subject};
use geometry::{Config, within_limits};
use model::{Block, Domain};

// That some table is seen so (`Seen`) and that the first questions are answered yes (`FirstPassed`) is asked by the
// function of each command, and not kept in the summary: both speak of that command's domain and arguments too.
#[derive(Clone, Copy)]
pub struct Summary {
    // beside the counts and no Option round them: they are made of the same marks, without a branch
    pub sound: bool,
    // any, as the table has it, and so no `Bounded`
    pub config: Config,
    // the record of the command's domain, and the blocks that it holds and has open
    pub domain: Domain,
    pub held: u64,
    pub opened: u64,
    // over all domains, the sum of the larger of reserved and held
    pub coverage: u64,
    // the block that the command is about, if it is one that is looked for, and its record
    pub found: Option<u64>,
    pub block: Block,
}

// What the scan of the domains gives: whether their clauses hold, and the coverage.
#[derive(Clone, Copy)]
pub struct Covering {
    // beside the sum, which goes on to the last domain in any case
    pub sound: bool,
    pub coverage: u64,
}

// One domain more, with the blocks that the marks have counted for it.
pub fn scan_domain(
    covering: Covering,
    n: usize,
    domain: Domain,
    blocks: u64,
    marks: &Marks,
) -> Covering
    requires n_bound { n < 16 }
    requires coverage_bound { covering.coverage ≤ 68719476736 }
    ensures { (result ≡ covering_with covering n domain blocks marks.now.row) × (result.coverage ≤ covering.coverage + 4294967296) }
{
    let held = marks.count(n);
    Covering {
        sound: covering.sound & domain_sound(blocks, held, marks.count(OPENED + n), domain),
        coverage: covering.coverage + held.max(u64::from(domain.reserved)),
    }
}

// Where the record of the command's domain stands; domain 0, which is none, has the first domain's place.
pub fn place(subject: Subject) -> u64
    ensures { result ≡ subject.domain - 1 }
{
    subject.domain.saturating_sub(1)
}

// A domain's entry among the marks from a place on; 0 for what is no domain's ID.
fn count_of(marks: &Marks, from: usize, domain: u64) -> u64
    requires { from ≤ 16 }
    ensures { result ≡ count_of marks.now.row from domain }
{
    if (1 <= domain) & (domain <= 16) {
        marks.count(from + (domain - 1) as usize)
    } else {
        0
    }
}

// The block that the command is about: its placement's open one, the chosen one, or the one that it names. Where it is
// about a domain alone or a list it names no block, and block 0 is given: no such command asks for that record.
pub fn block_about(subject: Subject, chosen: u64, marks: &Marks) -> Option<u64>
    ensures { result ≡ block_about subject chosen marks.now.row }
{
    match subject.about {
        About::Placement(placement) => marks.open_at(subject.domain, placement),
        About::Chosen => Some(chosen),
        About::Block(number) => Some(number),
        About::Domain | About::Listed(_) => Some(0),
    }
}

// A block's number; 256 and above is none.
fn found_there(number: Option<u64>) -> Option<u64>
    ensures { result ≡ found_there number }
{
    number.filter(|n| *n < 256)
}

// What a command sees, from what was read of a table: what the scans found, the number of the block that the command is
// about, the records of its domain and of that block, and the marks, which have counted the domain's blocks.
pub fn summary_of(
    config: Config,
    subject: Subject,
    sound: bool,
    covering: Covering,
    number: Option<u64>,
    domain: Domain,
    block: Block,
    marks: &Marks,
) -> Summary
    ensures { result ≡ summary_of config subject sound covering number domain block marks.now.row }
{
    Summary {
        sound: within_limits(config)
            & sound
            & covering.sound
            & (covering.coverage <= config.blocks),
        config,
        domain,
        held: count_of(marks, 0, subject.domain),
        opened: count_of(marks, OPENED, subject.domain),
        coverage: covering.coverage,
        found: found_there(number),
        block,
    }
}
