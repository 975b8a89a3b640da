// The last entries of what a domain keeps.
ghost use Rattle.std.specs.Prelude.{◌≡◌, ◌+◌, ◌*◌, ◌%◌, ◌≤◌, ◌<◌, min, drop, get_or, length, take};
ghost use Rattle.rules.specs.Drive.{overwritten};
ghost use Rattle.rules.specs.Recorder.{last_of};
ghost use Rattle.recorder.specs.Newest.{FewWritten, Gathers, Notes, PutsBlock, Within, parts_of, written_of};

use model::Block;
use sorting::copy;
use tables::is_held;

// How many blocks the domain holds, and how many of their ADUs are written. The keys stand in a row beside it.
#[derive(Clone, Copy)]
pub struct Gathered {
    pub keys: usize,
    pub adus: u64,
}

// Block n, added to what was gathered of the blocks before it, if the domain holds it.
fn noted(found: Gathered, n: usize, block: Block, domain: u64, keys: &mut [u64]) -> Gathered
    requires { (n < 256) × (found.keys < 256) × (length keys.old ≡ 256) × (block.written.0 ≤ 1048576) × (found.adus ≤ 268435456) }
    ensures { Notes found n block domain keys.old result keys.new }
{
    if !is_held(block, domain) {
        return found;
    }
    let at = found.keys;
    keys[at] = block.serial as u64 * 256 + n as u64;
    Gathered {
        keys: at + 1,
        adus: found.adus + block.written.0,
    }
}

// One pass over lent records: a key for each block that the domain holds. How many of their ADUs are written stays in
// the records.
pub(crate) fn gather(blocks: &[Block], domain: u64, keys: &mut [u64]) -> Gathered
    requires { (length blocks.now ≤ 256) × FewWritten blocks.now × (length keys.old ≡ 256) }
    ensures { Gathers blocks.now domain (length blocks.now) keys.old result keys.new }
{
    let mut found = Gathered { keys: 0, adus: 0 };
    for (n, &block) in blocks.iter().enumerate() {
        found = noted(found, n, block, domain, keys);
    }
    found
}

// A stretch of the store, into the words from a place on.
fn put_part(words: &mut [u64], to: usize, store: &[u64], from: usize, count: usize)
    requires { (to + count ≤ length words.old) × (from + count ≤ length store.now) }
    ensures { words.new ≡ overwritten to (take count (drop from store.now)) words.old }
{
    copy(&mut words[to..to + count], &store[from..from + count]);
}

// As many of the last ADUs of a key's block as there are words left to fill, into the end of those. Returns how many
// words are left then.
fn put_block(
    key: u64,
    blocks: &[Block],
    capacity: usize,
    left: usize,
    store: &[u64],
    words: &mut [u64],
) -> usize
    requires capacity_bound { (capacity ≤ 1048576) × (length blocks.now ≡ 256) × (left ≤ length words.old) }
    requires key_in_bounds { key % 256 * capacity + get_or (written_of blocks.now) (key % 256) 0 ≤ length store.now }
    ensures { PutsBlock key (written_of blocks.now) capacity left store.now words.old result words.new }
{
    let n = (key % 256) as usize;
    let full = blocks[n].written.0 as usize;
    let part = full.min(left);
    let to = left - part;
    let end = n * capacity + full;
    put_part(words, to, store, end - part, part);
    to
}

// The last so many of the ADUs of these blocks, from the last block back.
pub(crate) fn fill(
    keys: &[u64],
    blocks: &[Block],
    capacity: usize,
    count: usize,
    store: &[u64],
    words: &mut [u64],
)
    requires capacity_bound { (capacity ≤ 1048576) × (length blocks.now ≡ 256) × Within capacity store.now (written_of blocks.now) keys.now }
    requires count_in_bounds { (count ≤ length (parts_of capacity store.now (written_of blocks.now) keys.now)) × (count ≤ length words.old) }
    ensures { words.new ≡ overwritten 0 (last_of count (parts_of capacity store.now (written_of blocks.now) keys.now)) words.old }
{
    let mut left = count;
    // From the last key back.
    for i in (0..keys.len()).rev() {
        if left == 0 {
            break;
        }
        left = put_block(keys[i], blocks, capacity, left, store, words);
    }
}
