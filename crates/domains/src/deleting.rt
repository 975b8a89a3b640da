// Delete.
ghost use Rattle.std.specs.Prelude.{List, ℕ, length};
ghost use Rattle.model.specs.declared.command.Command.TheVariants.{Delete};
ghost use Rattle.model.specs.declared.table.Table.{Table};
ghost use Rattle.scan.specs.First.{Begins};
ghost use Rattle.tables.specs.Changing.{outcome_served};
ghost use Rattle.tables.specs.Serving.{ServesCommand, served};

use model::Answer;
use tables::{Outcome, deletion};

// Every block of the domain is freed, and its record cleared. Nothing is asked but the first questions.
pub fn delete(domain: u64) -> Outcome
    ensures { (t : Table) (store words bytes : List ℕ) → Begins t (Delete domain) (length store) → ServesCommand t (Delete domain) store words bytes (served (outcome_served t result) store words bytes) }
{
    Outcome {
        answer: Answer::Done,
        change: deletion(domain),
    }
}
