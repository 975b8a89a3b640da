// What each command is about.
ghost use Rattle.std.specs.Prelude.{◌≡◌};
ghost use Rattle.manager.specs.Subjects.{subject_of, subject_with};

use blocks::ANY_BLOCK;
use geometry::{Config, adus_per_block, word_fields};
use model::Command;
use scan::{About, Subject};

fn subject_with(config: Config, domain: u64, about: About) -> Subject
    ensures { result ≡ subject_with config domain about }
{
    Subject {
        domain,
        about,
        capacity: adus_per_block(config),
        period: config.period,
        rated: config.rated,
    }
}

#[tactic(auto, unfolding(crate::specs::Subjects::subject_of))]
pub(crate) fn subject_of(config: Config, command: Command) -> Subject
    ensures { result ≡ subject_of config command }
{
    match command {
        Command::Create { domain, .. }
        | Command::ChangeCapacity { domain, .. }
        | Command::Delete { domain } => subject_with(config, domain, About::Domain),
        Command::Erase { domain, block } if block == ANY_BLOCK => {
            subject_with(config, domain, About::Chosen)
        }
        Command::Erase { domain, block }
        | Command::Close { domain, block }
        | Command::Free { domain, block }
        | Command::WriteByBlock { domain, block, .. }
        | Command::Page { domain, block } => subject_with(config, domain, About::Block(block)),
        Command::Read {
            domain,
            address,
            ..
        } => subject_with(
            config,
            domain,
            About::Block(word_fields(config, address).block),
        ),
        Command::WriteByPlacement {
            domain,
            placement,
            ..
        } => subject_with(config, domain, About::Placement(placement)),
        Command::List { domain, listed } => subject_with(config, domain, About::Listed(listed)),
        Command::Pulse { .. } => subject_with(config, 0, About::Domain),
    }
}
