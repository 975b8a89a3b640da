// The commands for a sample, and what is read off an answer.
ghost use Rattle.std.specs.Prelude.{◌&&◌, ◌≡◌, ◌-◌};
ghost use Rattle.rules.specs.Questions.{is_count};
ghost use Rattle.rules.specs.Recorder.{has_recorder_shape};
ghost use Rattle.recorder.specs.Samples.{is_out_of_range, is_over_quota};
ghost use Rattle.recorder.specs.Samples.{no_samples, sample_command};

use geometry::Adus;
use model::{Answer, Command, Domain, Refusal};
use tables::is_count;

// Whether a domain can record.
fn has_recorder_shape(domain: Domain) -> bool
    ensures { result ≡ has_recorder_shape domain }
{
    (domain.placements == 1) & (domain.reserved == domain.quota) & (2 <= domain.quota)
}

// 6. Can the domain record, and is so many in range?
pub(crate) fn may_read(domain: Domain, count: Adus) -> bool
    ensures { result ≡ (has_recorder_shape domain && is_count count) }
{
    has_recorder_shape(domain) & is_count(count)
}

// Where the domain with this ID has its record, counted from 0. The ID 0 has the first.
pub(crate) fn place_of(domain: u64) -> u64
    ensures { result ≡ domain - 1 }
{
    domain.saturating_sub(1)
}

// The write of one sample, for a domain with this record; of none, if it cannot record.
pub(crate) fn sample_command(owner: Domain, domain: u64, sample: u64) -> Command
    ensures { result ≡ sample_command owner domain sample }
{
    Command::WriteByPlacement {
        domain,
        placement: 0,
        start: sample,
        count: Adus(u64::from(has_recorder_shape(owner))),
    }
}

// A write that changes nothing and is refused by its range, if nothing before that refuses it.
pub(crate) fn no_samples(domain: u64) -> Command
    ensures { result ≡ no_samples domain }
{
    Command::WriteByPlacement {
        domain,
        placement: 0,
        start: 0,
        count: Adus(0),
    }
}

// The domain would hold more than its quota.
pub(crate) fn is_over_quota(answer: Answer) -> bool
    ensures { result ≡ is_over_quota answer }
{
    answer == Answer::Refused(Refusal::Quota)
}

// An argument was out of range.
pub(crate) fn is_out_of_range(answer: Answer) -> bool
    ensures { result ≡ is_out_of_range answer }
{
    answer == Answer::Refused(Refusal::Range)
}
