// What is read of a table for a command.
ghost use Rattle.std.specs.Prelude.{◌≤◌, ◌≡◌, length};
ghost use Rattle.manager.specs.Looking.{Looked};
ghost use Rattle.scan.specs.Free.{Chosen, no_candidate};
ghost use Rattle.scan.specs.Summary.{record_of};
ghost use Rattle.scan.specs.declared.scan.About.TheVariants.{Chosen as Choice};

use geometry::Config;
use lent_blocks::{block_at, choose_free, gather_list, scan_blocks};
use lent_domains::{domain_at, scan_domains};
use model::{Block, Domain};
use scan::{
    About, Candidate, Marks, Subject, Summary, block_about, no_candidate, place, summary_of,
};
use tables::clear_block;

// The Free block to be opened next, where a command is about it; none where it is not.
fn free_for(blocks: &[Block], about: About) -> Candidate
    requires { length blocks.now ≤ 256 }
    ensures { about ≡ Choice → Chosen 0 blocks.now no_candidate result }
{
    match about {
        About::Chosen => choose_free(blocks),
        _ => no_candidate(),
    }
}

// The record of a block; a clear one where there is none.
fn record_of(blocks: &[Block], number: Option<u64>) -> Block
    ensures { result ≡ record_of blocks.now number }
{
    match number {
        Some(n) => block_at(blocks, n),
        None => clear_block(),
    }
}

// What the command sees: the scan of the blocks and that of the domains, and what they counted; the records of the
// domain and of the block that the command is about, which may be the Free block to be opened next. The list, if it is
// asked for, is then left in the marks.
pub(crate) fn summarize(
    blocks: &[Block],
    domains: &[Domain],
    config: Config,
    subject: Subject,
    marks: &mut Marks,
) -> Summary
    requires { (length blocks.now ≤ 256) × (length domains.now ≡ 16) }
    ensures { Looked config subject blocks.now domains.now marks.old.row result marks.new.row }
{
    let sound = scan_blocks(blocks, domains, subject, marks);
    let covering = scan_domains(domains, config.blocks, marks);
    let free = free_for(blocks, subject.about);
    let number = block_about(subject, free.number, marks);
    let block = record_of(blocks, number);
    let domain = domain_at(domains, place(subject));
    let summary = summary_of(
        config, subject, sound, covering, number, domain, block, marks,
    );
    if let About::Listed(listed) = subject.about {
        gather_list(blocks, subject, listed, marks);
    }
    summary
}
