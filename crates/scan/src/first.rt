// What every command is asked first: whether the table is sound and the store has all its entries, and of the domain
// that it names whether it exists.
ghost use Rattle.std.specs.Prelude.{true, ◌≡◌};
ghost use Rattle.geometry.specs.Questions.{first_no};
ghost use Rattle.geometry.specs.Shape.{within_limits};
ghost use Rattle.model.specs.declared.table.Table.{Table};
ghost use Rattle.rules.specs.Calls.{Call, domain_of, profile};
ghost use Rattle.rules.specs.Questions.{domain_questions, store_questions};
ghost use Rattle.scan.specs.First.{KindOf, existing_of, first_asked, own_in};
ghost use Rattle.scan.specs.Summary.{Seen, Sees};
ghost use Rattle.tables.specs.Verdicts.{verdict_number};

use crate::summary::Summary;
use geometry::{is_domain_id, store_length};
use model::{Command, Refusal};
use tables::ask;

// What a command wants of the domain that it names: that it exists, or for Create that it does not yet. Pulse names
// none, which is a case of its own in `own_in` too.
#[derive(Clone, Copy)]
pub(crate) enum Own {
    Existing(u64),
    Missing(u64),
    Nobody,
}

// A command's own domain, and whether it uses the store.
#[derive(Clone, Copy)]
pub(crate) struct Kind {
    pub own: Own,
    pub store: bool,
}

fn existing(domain: u64, store: bool) -> Kind
    ensures { result ≡ existing_of domain store }
{
    Kind {
        own: Own::Existing(domain),
        store,
    }
}

fn kind_of(command: Command) -> Kind
    ensures { KindOf command result }
{
    match command {
        Command::Create { domain, .. } => Kind {
            own: Own::Missing(domain),
            store: false,
        },
        Command::ChangeCapacity { domain, .. } => existing(domain, false),
        Command::Delete { domain } => existing(domain, false),
        Command::Erase { domain, .. } => existing(domain, true),
        Command::Close { domain, .. } => existing(domain, false),
        Command::Free { domain, .. } => existing(domain, false),
        Command::WriteByPlacement { domain, .. } => existing(domain, true),
        Command::WriteByBlock { domain, .. } => existing(domain, true),
        Command::Read { domain, .. } => existing(domain, true),
        Command::Page { domain, .. } => existing(domain, false),
        Command::List { domain, .. } => existing(domain, false),
        Command::Pulse { .. } => Kind {
            own: Own::Nobody,
            store: false,
        },
    }
}

// 3, of a command that uses the store.
#[tactic(auto, using(tables::proofs::Refusals::refusal_positive), unfolding(geometry::specs::Questions::first_no))]
fn store_verdict(summary: Summary, uses: bool, entries: usize) -> Result<(), Refusal>
    requires { within_limits summary.config ≡ true }
    ensures { (t : Table) (k : Call) → summary.config ≡ t.config → entries ≡ k.lent.store → verdict_number result ≡ first_no (store_questions uses t k) }
{
    if uses {
        let config = summary.config;
        let all = store_length(config);
        return ask(entries as u64 == all.0, Refusal::Store);
    }
    Ok(())
}

// 4 and 5: the domain's ID, and does it exist, or not yet?
#[tactic(auto, using(tables::proofs::Refusals::refusal_positive), unfolding(geometry::specs::Questions::first_no))]
fn own_verdict(summary: Summary, own: Own) -> Result<(), Refusal>
    ensures { (t : Table) → Sees t (domain_of (own_in own)) summary → verdict_number result ≡ first_no (domain_questions t (own_in own)) }
{
    let d = summary.domain;
    match own {
        Own::Existing(id) => {
            ask(is_domain_id(id), Refusal::DomainId)?;
            ask(d.exists, Refusal::Existence)
        }
        Own::Missing(id) => {
            ask(is_domain_id(id), Refusal::DomainId)?;
            ask(!d.exists, Refusal::Existence)
        }
        Own::Nobody => Ok(()),
    }
}

// The first no of a command that is lent so many entries of the store.
#[tactic(auto, using(tables::proofs::Refusals::refusal_positive), unfolding(geometry::specs::Questions::first_no))]
pub fn first_verdict(summary: Summary, command: Command, entries: usize) -> Result<(), Refusal>
    requires { Seen (domain_of (profile command).own) summary }
    ensures { (t : Table) → Sees t (domain_of (profile command).own) summary → verdict_number result ≡ first_no (first_asked t command entries) }
{
    ask(summary.sound, Refusal::Unsound)?;
    let kind = kind_of(command);
    let own = kind.own;
    store_verdict(summary, kind.store, entries)?;
    own_verdict(summary, own)
}
