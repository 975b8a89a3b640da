// Close and Free.
ghost use Rattle.std.specs.Prelude.{List, [], ◌∷◌, ◌≡◌, ℕ};
ghost use Rattle.geometry.specs.Address.{is_block};
ghost use Rattle.geometry.specs.Questions as question;
ghost use Rattle.model.specs.declared.command.Command.TheVariants.{Close, Free};
ghost use Rattle.model.specs.declared.table.Table.{Table};
ghost use Rattle.rules.specs.Drive.{held_by};
ghost use Rattle.scan.specs.First.{FirstPassed};
ghost use Rattle.scan.specs.Summary.{Seen, Sees, SeesBlock};
ghost use Rattle.tables.specs.Changing.{outcome_from, outcome_served};
ghost use Rattle.tables.specs.Serving.{ServesCommand, served};
ghost use Rattle.tables.specs.Verdicts.{verdict_number};

use model::{Answer, Refusal};
use scan::Summary;
use tables::{Outcome, ask, block_change, is_held};

// 6 and 9, what Close and Free are asked.
#[tactic(auto, using(tables::proofs::Refusals::refusal_positive), unfolding(geometry::specs::Questions::first_no))]
fn held_block_verdict(summary: Summary, domain: u64, block: u64) -> Result<(), Refusal>
    ensures { verdict_number result ≡ question.first_no (question.ask 6 (is_block summary.config block) ∷ question.ask 9 (held_by domain summary.block) ∷ []) }
{
    ask(block < summary.config.blocks, Refusal::Range)?;
    ask(is_held(summary.block, domain), Refusal::Holder)
}

// An open block becomes Closed; a Closed one stays as it is.
pub fn close(summary: Summary, domain: u64, block: u64) -> Result<Outcome, Refusal>
    requires { Seen domain summary × FirstPassed (Close domain block) 0 summary }
    ensures { (t : Table) (store words bytes : List ℕ) → Sees t domain summary → SeesBlock t block summary → ServesCommand t (Close domain block) store words bytes (served (outcome_served t (outcome_from result)) store words bytes) }
{
    held_block_verdict(summary, domain, block)?;
    Ok(Outcome {
        answer: Answer::Block(block),
        change: block_change(block, summary.block.closed()),
    })
}

// A held block becomes Free; the store keeps its entries.
pub fn free(summary: Summary, domain: u64, block: u64) -> Result<Outcome, Refusal>
    requires { Seen domain summary × FirstPassed (Free domain block) 0 summary }
    ensures { (t : Table) (store words bytes : List ℕ) → Sees t domain summary → SeesBlock t block summary → ServesCommand t (Free domain block) store words bytes (served (outcome_served t (outcome_from result)) store words bytes) }
{
    held_block_verdict(summary, domain, block)?;
    Ok(Outcome {
        answer: Answer::Block(block),
        change: block_change(block, summary.block.freed()),
    })
}
