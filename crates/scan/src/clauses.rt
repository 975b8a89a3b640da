// The clauses of soundness, of one block and of one domain, and what two blocks may not share.
ghost use Rattle.std.specs.Prelude.{false, ◌&&◌, ◌≡◌, ◌<◌, eqb, leb, ltb};
ghost use Rattle.rules.specs.Drive.{is_free};
ghost use Rattle.geometry.specs.Shape.{between};
ghost use Rattle.rules.specs.Soundness.{domain_sound, holder_exists, is_clear, quota_kept, serial_given, way_below};
ghost use Rattle.scan.specs.Clauses.{domain_index, key_of, some_place, place_for};

use geometry::Adus;
use model::{Block, Domain, Way};

// Where the record of a holder stands; the first for what is no domain's ID, whose block is not sound in any case.
pub(crate) fn domain_index(holder: u8) -> usize
    ensures { (result ≡ domain_index holder) × (result < 16) }
{
    let id = holder as usize;
    if (1 <= id) & (id <= 16) { id - 1 } else { 0 }
}

pub fn holder_index(block: Block) -> usize
    ensures { (result ≡ domain_index block.holder) × (result < 16) }
{
    domain_index(block.holder)
}

pub(crate) fn way_below(placements: u32, way: Way) -> bool
    ensures { result ≡ way_below placements way }
{
    match way {
        Way::Erase => true,
        Way::Placement(p) => (p as u32) < placements,
    }
}

// Of a block that is not Free, its serial and its holder.
pub(crate) fn is_owned(holder: Domain, block: Block) -> bool
    requires { is_free block ≡ false }
    ensures { result ≡ serial_given holder block && holder_exists holder block }
{
    (1 <= block.holder)
        && (block.holder <= 16)
        && holder.exists
        && ((1 <= block.serial) & (block.serial <= holder.last))
}

// Is there nothing in the record but the P/E count?
pub(crate) fn is_clear(block: Block) -> bool
    ensures { result ≡ is_clear block }
{
    // One comparison for three fields: a Free block is tested at every command.
    let others = u64::from(block.holder) + u64::from(block.left) + u64::from(block.serial);
    (block.written.0 == 0) & (others == 0)
}

// Of an open block, how full it is and how long it stays open.
pub(crate) fn open_kept(capacity: Adus, period: u64, block: Block) -> bool
    ensures { result ≡ ltb block.written.0 capacity.0 && between 1 period block.left }
{
    let left = block.left as u64;
    (block.written.0 < capacity.0) & ((1 <= left) & (left <= period))
}

// Of a Closed block, the same.
pub(crate) fn closed_kept(capacity: Adus, block: Block) -> bool
    ensures { result ≡ leb block.written.0 capacity.0 && eqb block.left 0 }
{
    (block.written.0 <= capacity.0) && (block.left == 0)
}

// The place of an open block of a domain's placement, which no two open blocks share; none where no sound table has such
// a holder or placement.
pub(crate) fn place_for(holder: u8, placement: u8) -> Option<usize>
    ensures { result ≡ some_place (place_for holder placement) }
{
    if (1 <= holder) & (holder <= 16) & (placement < 16) {
        Some(16 * (usize::from(holder) - 1) + usize::from(placement))
    } else {
        None
    }
}

// Two blocks of one domain with the same serial have the same key. Serials are spread over the keys by a
// multiplication, so that a domain that keeps serials at any fixed distance still spreads them; those of two domains
// begin at different keys.
pub(crate) fn serial_key(holder: u8, serial: u32) -> usize
    ensures { (result ≡ key_of holder serial) × (result < 256) }
{
    let spread = (serial as u64 + 123457 * holder as u64) * 2654435769;
    (spread % 4294967296 / 16777216) as usize
}

// Of a domain that exists, its open limit and placements, with so many open.
fn limits_kept(opened: u64, domain: Domain) -> bool
    ensures { result ≡ between 1 16 domain.placements && between domain.placements 256 domain.limit && leb opened domain.limit }
{
    let placements = u32::from(domain.placements);
    (1 <= placements)
        && (placements <= 16)
        && (placements <= domain.limit)
        && (domain.limit <= 256)
        && (opened <= u64::from(domain.limit))
}

// Of a domain that exists, its quota, with so many of so many blocks held.
fn quota_kept(blocks: u64, held: u64, domain: Domain) -> bool
    ensures { result ≡ quota_kept blocks held domain }
{
    let quota = u64::from(domain.quota);
    (u64::from(domain.reserved) <= quota) && (quota <= blocks) && (held <= quota)
}

// The clauses of a domain that holds and has open so many of so many blocks.
pub(crate) fn domain_sound(blocks: u64, held: u64, opened: u64, domain: Domain) -> bool
    ensures { result ≡ domain_sound blocks held opened domain }
{
    if domain.exists {
        quota_kept(blocks, held, domain) && limits_kept(opened, domain)
    } else {
        let clear = (domain.reserved == 0)
            & (domain.quota == 0)
            & (domain.placements == 0)
            & (domain.limit == 0)
            & (domain.last == 0);
        (held == 0) & clear
    }
}
