// Create and Change Capacity: what a domain reserves.
ghost use Rattle.std.specs.Prelude.{true, List, ◌≡◌, ℕ, ◌≤◌};
ghost use Rattle.domains.specs.Reserving.{changed_from, create_range, reserved};
ghost use Rattle.geometry.specs.Address.{is_domain_id};
ghost use Rattle.geometry.specs.Shape.{whole_blocks, within_limits};
ghost use Rattle.model.specs.declared.command.Command.TheVariants.{ChangeCapacity, Create};
ghost use Rattle.model.specs.declared.table.Table.{Table};
ghost use Rattle.rules.specs.Domains.{are_plane_counts, created_domain, new_block_count, open_limit};
ghost use Rattle.scan.specs.First.{FirstPassed};
ghost use Rattle.scan.specs.Summary.{Seen, Sees};
ghost use Rattle.tables.specs.Changing.{outcome_from, outcome_served};
ghost use Rattle.tables.specs.Serving.{ServesCommand, served};

use geometry::{Config, Planes, drive_planes, whole_blocks};
use model::{Answer, Domain, Refusal};
use scan::{Summary, covered_with};
use tables::{Outcome, ask, domain_change};

fn are_plane_counts(config: Config, guarantee: Planes, quota: Planes) -> bool
    requires { within_limits config ≡ true }
    ensures { result ≡ are_plane_counts config guarantee quota }
{
    let most = drive_planes(config);
    (guarantee.0 <= most.0) & (quota.0 <= most.0)
}

// A plane count of the drive in whole blocks.
fn block_count(config: Config, n: Planes) -> u32
    requires config_value { within_limits config ≡ true }
    requires n_bound { whole_blocks config n ≤ 256 }
    ensures { result ≡ whole_blocks config n }
{
    whole_blocks(config, n) as u32
}

// A domain's new record is put in its place if the guarantees stay covered.
fn reserved(summary: Summary, domain: u64, new: Domain) -> Result<Outcome, Refusal>
    requires seen { Seen domain summary × (summary.sound ≡ true) }
    requires domain_value { is_domain_id domain ≡ true }
    ensures { (t : Table) → Sees t domain summary → outcome_from result ≡ reserved t domain new }
{
    if covered_with(summary, domain, new.reserved as u64, summary.held) {
        return Ok(Outcome {
            answer: Answer::Done,
            change: domain_change(domain, new),
        });
    }
    Err(Refusal::Coverage)
}

// ---- Create

// 6: are the numbers in range?
fn in_range(config: Config, guarantee: Planes, quota: Planes, placements: u64, limit: u64) -> bool
    requires { within_limits config ≡ true }
    ensures { result ≡ create_range config guarantee quota placements limit }
{
    are_plane_counts(config, guarantee, quota)
        & ((1 <= placements) & (placements <= 16))
        & (limit <= 256)
}

fn open_limit(placements: u64, limit: u64) -> u64
    requires { placements ≤ 16 }
    ensures { result ≡ open_limit placements limit }
{
    if limit < placements {
        placements + 2
    } else {
        limit
    }
}

#[tactic(auto, unfolding(rules::specs::Domains::created_domain))]
fn created_domain(
    config: Config,
    guarantee: Planes,
    quota: Planes,
    placements: u64,
    limit: u64,
) -> Domain
    requires config_value { within_limits config ≡ true }
    requires quota_value { are_plane_counts config guarantee quota ≡ true }
    requires placements_bound { (placements ≤ 16) × (limit ≤ 256) }
    ensures { result ≡ created_domain config guarantee quota placements limit }
{
    let reserved = block_count(config, guarantee);
    let quota = block_count(config, quota).max(reserved);
    Domain {
        exists: true,
        reserved,
        quota,
        placements: placements as u8,
        limit: open_limit(placements, limit) as u32,
        last: 0,
    }
}

// A new domain, if the guarantees stay covered with its own.
pub fn create(
    summary: Summary,
    domain: u64,
    guarantee: Planes,
    quota: Planes,
    placements: u64,
    limit: u64,
) -> Result<Outcome, Refusal>
    requires { Seen domain summary × FirstPassed (Create domain guarantee quota placements limit) 0 summary }
    ensures { (t : Table) (store words bytes : List ℕ) → Sees t domain summary → ServesCommand t (Create domain guarantee quota placements limit) store words bytes (served (outcome_served t (outcome_from result)) store words bytes) }
{
    let config = summary.config;
    ask(
        in_range(config, guarantee, quota, placements, limit),
        Refusal::Range,
    )?;
    let new = created_domain(config, guarantee, quota, placements, limit);
    reserved(summary, domain, new)
}

// ---- Change Capacity

fn new_block_count(config: Config, n: Planes, present: u32) -> u32
    requires config_value { within_limits config ≡ true }
    requires n_bound { whole_blocks config n ≤ 256 }
    ensures { result ≡ new_block_count config n present }
{
    if n.0 == 0 {
        present
    } else {
        block_count(config, n)
    }
}

#[tactic(auto, unfolding(crate::specs::Reserving::changed_from))]
fn changed_domain(summary: Summary, guarantee: Planes, quota: Planes) -> Domain
    requires config_value { within_limits summary.config ≡ true }
    requires quota_value { are_plane_counts summary.config guarantee quota ≡ true }
    requires held_bound { summary.held ≤ 256 }
    ensures { result ≡ changed_from summary.config summary.domain summary.held guarantee quota }
{
    let present = summary.domain;
    let held = summary.held as u32;
    let reserved = new_block_count(summary.config, guarantee, present.reserved);
    let quota = new_block_count(summary.config, quota, present.quota);
    Domain {
        reserved,
        quota: quota.max(reserved.max(held)),
        ..present
    }
}

// Another guarantee and quota; 0 keeps the present one, and the quota does not fall below what is held.
pub fn change_capacity(
    summary: Summary,
    domain: u64,
    guarantee: Planes,
    quota: Planes,
) -> Result<Outcome, Refusal>
    requires { Seen domain summary × FirstPassed (ChangeCapacity domain guarantee quota) 0 summary }
    ensures { (t : Table) (store words bytes : List ℕ) → Sees t domain summary → ServesCommand t (ChangeCapacity domain guarantee quota) store words bytes (served (outcome_served t (outcome_from result)) store words bytes) }
{
    ask(
        are_plane_counts(summary.config, guarantee, quota),
        Refusal::Range,
    )?;
    let new = changed_domain(summary, guarantee, quota);
    reserved(summary, domain, new)
}
