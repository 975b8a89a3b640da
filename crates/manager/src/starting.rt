// Starting a drive.
ghost use Rattle.std.specs.Prelude.{◌≡◌};
ghost use Rattle.manager.specs.Starting.{begun};
ghost use Rattle.rules.specs.Start.{empty_table, started};

use geometry::{Config, no_config, within_limits};
use model::{Answer, Refusal, Table};
use tables::{Served, clear_block, clear_domain};

fn empty_table(config: Config) -> Table
    ensures { result ≡ empty_table config }
{
    Table {
        config,
        domains: [clear_domain(); 16],
        blocks: [clear_block(); 256],
    }
}

// A table without domains, every block Free. A refused start hands back a table of zeros.
pub fn start(config: Config) -> Served
    ensures { begun result ≡ started config }
{
    if within_limits(config) {
        return Served {
            answer: Answer::Done,
            table: empty_table(config),
        };
    }
    Served {
        answer: Answer::Refused(Refusal::Limits),
        table: empty_table(no_config()),
    }
}
