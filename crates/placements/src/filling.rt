// The next block for what is left to write.
ghost use Rattle.std.specs.Prelude.{true, ◌≡◌, ◌<◌, length};
ghost use Rattle.std.proofs.Math.Option.{some};
ghost use Rattle.geometry.specs.Shape.{adus_per_block};
ghost use Rattle.model.specs.declared.table.Table.{Table};
ghost use Rattle.placements.specs.Onwards.{GoesOn, MayGoOn, rest_after};
ghost use Rattle.rules.specs.Blocks.{chosen_block};
ghost use Rattle.rules.specs.Drive.{block_at, domain_at, is_free, with_block, with_domain};
ghost use Rattle.tables.specs.Serving.{drive};

use crate::rest::{Rest, rest_after};
use blocks::opened_for;
use geometry::{Adus, Config, adus_per_block, stretch_start};
use model::{Block, Domain, Way};
use transfers::written_into;

// A block that was opened and written, its owner's record afterwards, and what is then left.
#[derive(Clone, Copy)]
pub struct Filled {
    pub block: Block,
    pub owner: Domain,
    pub rest: Rest,
}

// Block n, the Free one to be opened next, is opened for the placement and takes what fits it.
pub fn fill_next(
    config: Config,
    domain: u64,
    owner: Domain,
    rest: Rest,
    n: u64,
    block: Block,
    store: &mut [u64],
    words: &mut [u64],
) -> Filled
    requires may_go_on { MayGoOn config (length store.old) (length words.old) domain owner rest }
    requires not_rest_count_0 { (¬ (rest.count.0 ≡ 0)) × (n < config.blocks) × (is_free block ≡ true) }
    ensures { (result.rest ≡ rest_after rest (adus_per_block config).0) × MayGoOn config (length store.new) (length words.new) domain result.owner result.rest × ((t : Table) → t.config ≡ config → domain_at t domain ≡ owner → block_at t n ≡ block → n < length t.blocks → chosen_block t ≡ some n → GoesOn domain rest (drive t store.old) words.old result.rest (drive (with_domain domain result.owner (with_block n result.block t)) store.new) words.new) }
{
    let count = rest.count;
    let start = rest.start;
    let done = rest.done;
    let way = Way::Placement(rest.placement);
    let capacity = adus_per_block(config);
    let first = stretch_start(config, n).0 as usize;
    let end = first + capacity.0 as usize;
    let stretch = &mut store[first..end];
    let opened = opened_for(config, owner, domain, way, block, stretch);
    let fresh = opened.block;
    let new = opened.owner;
    let put = Adus(count.0.min(capacity.0));
    let written = written_into(
        config,
        domain,
        n,
        fresh,
        start,
        put,
        stretch,
        &mut words[done..],
    );
    Filled {
        block: written,
        owner: new,
        rest: rest_after(rest, capacity),
    }
}
