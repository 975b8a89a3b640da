// What is read and changed in a lent slice of domain records.
#![tactic(auto)]

ghost use Rattle.std.specs.Prelude.{◌≤◌, ◌≡◌, get_or, length};
ghost use Rattle.rules.specs.Drive.{clear_domain};
ghost use Rattle.scan.specs.Summary.{DomainsScanned};

use model::Domain;
use scan::{Covering, Marks, record_at, scan_domain};
use tables::clear_domain;

// The scan of the domains, from the first to the last, with the blocks that the marks have counted for each.
pub fn scan_domains(domains: &[Domain], blocks: u64, marks: &Marks) -> Covering
    requires { length domains.now ≤ 16 }
    ensures { DomainsScanned domains.now blocks marks.now.row (length domains.now) result }
{
    let mut covering = Covering {
        sound: true,
        coverage: 0,
    };
    for (n, domain) in domains.iter().enumerate() {
        covering = scan_domain(covering, n, *domain, blocks, marks);
    }
    covering
}

// A domain's record, counted from 0; a number past the last has a clear one.
pub fn domain_at(domains: &[Domain], n: u64) -> Domain
    ensures { result ≡ get_or domains.now n clear_domain }
{
    record_at(domains, n, clear_domain())
}
