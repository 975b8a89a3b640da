// Question 14, which several commands put.
ghost use Rattle.std.specs.Prelude.{true, ◌≡◌, ◌<◌};
ghost use Rattle.geometry.specs.Address.{is_domain_id};
ghost use Rattle.model.specs.declared.table.Table.{Table};
ghost use Rattle.rules.specs.Domains.{covered_with};
ghost use Rattle.scan.specs.Summary.{Seen, Sees};

use crate::summary::Summary;
use tables::reserved_by;

// 14. The coverage rule with other numbers for the domain: its own part of the sum is replaced.
pub fn covered_with(summary: Summary, domain: u64, reserved: u64, blocks: u64) -> bool
    requires seen { Seen domain summary × (summary.sound ≡ true) }
    requires domain_value { is_domain_id domain ≡ true }
    requires reserved_bound { (reserved < 4294967296) × (blocks < 4294967296) }
    ensures { (t : Table) → Sees t domain summary → result ≡ covered_with t domain reserved blocks }
{
    let d = summary.domain;
    let before = reserved_by(d).max(summary.held);
    let after = reserved.max(blocks);
    summary.coverage + after <= summary.config.blocks + before
}
