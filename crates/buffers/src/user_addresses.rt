// User addresses: whether they can be told, and whether the stored ones are those.
ghost use Rattle.std.specs.Prelude.{true, ◌≡◌, ◌+◌, ◌≤◌, length};
ghost use Rattle.rules.specs.Blocks.{matches, user_address};
ghost use Rattle.rules.specs.Questions.{user_addresses_fit};

use geometry::Adus;

// The command set's own user address for an ADU that none was written to.
pub const ALL_ONES: u64 = 0xffff_ffff_ffff_ffff;

// 8. No LBA passes 2^40 - 1 and no user address is all ones, unless the start is.
pub fn user_addresses_fit(start: u64, count: Adus) -> bool
    requires { (1 ≤ count.0) × (count.0 ≤ 256) }
    ensures { result ≡ user_addresses_fit start count.0 }
{
    let lba = start % 0x100_0000_0000;
    (start == ALL_ONES) | ((lba + count.0 <= 0x100_0000_0000) & (start <= ALL_ONES - count.0))
}

// What ADU i carries, or would if it came next.
pub fn user_address(start: u64, i: u64) -> u64
    requires { user_addresses_fit start i ≡ true }
    ensures { result ≡ user_address start i }
{
    if start == ALL_ONES { start } else { start + i }
}

// 16. Do the stored user addresses match the expected ones?
pub fn all_match(part: &[u64], expected: u64) -> bool
    requires { user_addresses_fit expected (length part.now) ≡ true }
    ensures { result ≡ matches expected part.now }
{
    if expected == ALL_ONES {
        return true;
    }
    let mut same = true;
    for (i, &entry) in part.iter().enumerate() {
        same &= entry == user_address(expected, i as u64);
    }
    same
}
