// What a command changes in a table, as little as can be told of it.
ghost use Rattle.std.specs.Prelude.{◌≡◌};
ghost use Rattle.model.specs.declared.answer.Answer.TheVariants.{Refused};
ghost use Rattle.tables.specs.Changing.{block_change, deletion_of, domain_change, leaving, no_change, opening_change, outcome_from, pulse_change};
ghost use Rattle.tables.specs.Serving.{answer_from};

use crate::records::clear_domain;
use model::{Answer, Block, Domain, Refusal};

// What a command changes: a block gets a new record, so many seconds pass for every open one, the blocks that the domain
// holds are freed, and the domain gets a new record; domain 0 is none. Each may come beside the others, so it is no enum;
// and domain and record are no Option, since the write that goes on takes a domain and a record in any case.
#[derive(Clone, Copy)]
pub struct Change {
    pub one: Option<(u64, Block)>,
    pub pulsed: Option<u32>,
    pub frees: bool,
    pub domain: u64,
    pub owner: Domain,
}

// What a command answers, and what it changes.
#[derive(Clone, Copy)]
pub struct Outcome {
    pub answer: Answer,
    pub change: Change,
}

fn nothing() -> Change
    ensures { result ≡ no_change }
{
    Change {
        one: None,
        pulsed: None,
        frees: false,
        domain: 0,
        owner: clear_domain(),
    }
}

// An answer that changes nothing.
pub fn unchanged(answer: Answer) -> Outcome
    ensures { result ≡ leaving answer }
{
    Outcome {
        answer,
        change: nothing(),
    }
}

// A refusal changes nothing.
pub fn refusal(reason: Refusal) -> Outcome
    ensures { result ≡ leaving (Refused reason) }
{
    unchanged(Answer::Refused(reason))
}

// What a command's function hands back, as an outcome.
pub fn outcome_from(given: Result<Outcome, Refusal>) -> Outcome
    ensures { result ≡ outcome_from given }
{
    match given {
        Ok(outcome) => outcome,
        Err(reason) => refusal(reason),
    }
}

// The answer of a command that answers success alone.
pub fn answer_from(given: Result<(), Refusal>) -> Answer
    ensures { result ≡ answer_from given }
{
    match given {
        Ok(()) => Answer::Done,
        Err(reason) => Answer::Refused(reason),
    }
}

// A block's new record, ..
pub fn block_change(n: u64, block: Block) -> Change
    ensures { result ≡ block_change n block }
{
    Change {
        one: Some((n, block)),
        ..nothing()
    }
}

// .. or a domain's, ..
pub fn domain_change(domain: u64, new: Domain) -> Change
    ensures { result ≡ domain_change domain new }
{
    Change {
        domain,
        owner: new,
        ..nothing()
    }
}

// .. or both.
pub fn opening_change(n: u64, block: Block, domain: u64, new: Domain) -> Change
    ensures { result ≡ opening_change n block domain new }
{
    Change {
        one: Some((n, block)),
        domain,
        owner: new,
        ..nothing()
    }
}

// A domain's blocks are freed and its record is cleared.
pub fn deletion(domain: u64) -> Change
    ensures { result ≡ deletion_of domain }
{
    Change {
        frees: true,
        domain,
        ..nothing()
    }
}

// Seconds pass for every open block.
pub fn pulse_change(seconds: u32) -> Change
    ensures { result ≡ pulse_change seconds }
{
    Change {
        pulsed: Some(seconds),
        ..nothing()
    }
}
