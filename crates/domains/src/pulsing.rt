// Pulse: the seconds of every open block count down.
ghost use Rattle.std.specs.Prelude.{List, ℕ, length};
ghost use Rattle.model.specs.declared.command.Command.TheVariants.{Pulse};
ghost use Rattle.model.specs.declared.table.Table.{Table};
ghost use Rattle.scan.specs.First.{Begins};
ghost use Rattle.tables.specs.Changing.{outcome_from, outcome_served};
ghost use Rattle.tables.specs.Serving.{ServesCommand, served};

use model::{Answer, Refusal};
use tables::{Outcome, ask, pulse_change};

// Each open block has so many seconds less, and is Closed where none are left.
pub fn pulse(seconds: u64) -> Result<Outcome, Refusal>
    ensures { (t : Table) (store words bytes : List ℕ) → Begins t (Pulse seconds) (length store) → ServesCommand t (Pulse seconds) store words bytes (served (outcome_served t (outcome_from result)) store words bytes) }
{
    ask(seconds <= 65535, Refusal::Range)?;
    Ok(Outcome {
        answer: Answer::Done,
        change: pulse_change(seconds as u32),
    })
}
