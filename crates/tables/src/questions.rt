// A command's questions, one after the other: the first no stays.
ghost use Rattle.std.specs.Prelude.{cond, ◌≡◌, ◌+◌, ◌<◌, leb, ltb};
ghost use Rattle.model.specs.Answers.{number_of};
ghost use Rattle.rules.specs.Drive.{held_by};
ghost use Rattle.tables.specs.Verdicts.{verdict_number};

use model::{Block, Domain, Refusal};

// One question: a no is its reason.
pub fn ask(holds: bool, reason: Refusal) -> Result<(), Refusal>
    ensures { verdict_number result ≡ cond holds 0 (number_of reason) }
{
    if holds { Ok(()) } else { Err(reason) }
}

// ---- What is asked of one record

// 9. Is the block held by this domain?
pub fn is_held(block: Block, domain: u64) -> bool
    ensures { result ≡ held_by domain block }
{
    block.holder as u64 == domain
}

// 11. Are fewer open than the limit?
pub fn may_open(domain: Domain, opened: u64) -> bool
    ensures { result ≡ ltb opened domain.limit }
{
    opened < domain.limit as u64
}

// 12. Do so many new serials stay within 4,294,967,295?
pub fn serials_left(domain: Domain, new: u32) -> bool
    ensures { result ≡ leb (domain.last + new) 4294967295 }
{
    domain.last as u64 + new as u64 <= 4294967295
}

// 13. Do so many blocks stay within quota?
pub fn within_quota(domain: Domain, blocks: u64) -> bool
    ensures { result ≡ leb blocks domain.quota }
{
    blocks <= domain.quota as u64
}

// 14. The blocks that a domain has reserved.
pub fn reserved_by(domain: Domain) -> u64
    ensures { (result ≡ domain.reserved) × (result < 4294967296) }
{
    domain.reserved as u64
}
