// Questions of a transfer's range.
ghost use Rattle.std.specs.Prelude.{◌≡◌, ◌+◌, leb};
ghost use Rattle.rules.specs.Questions.{is_count};

use geometry::Adus;

// 6. Is a count of ADUs 1 to 256?
pub fn is_count(count: Adus) -> bool
    ensures { result ≡ is_count count }
{
    (1 <= count.0) & (count.0 <= 256)
}

// 15. Do so many ADUs from a place on end within so many?
pub fn ends_within(at: Adus, count: Adus, end: Adus) -> bool
    ensures { result ≡ leb (at.0 + count.0) end.0 }
{
    count.0 <= end.0 && at.0 <= end.0 - count.0
}
