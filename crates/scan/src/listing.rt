// What a list tells. Each listed block has a key, one number that is ordered as the serials are. The keys are gathered
// in a row of their own and put in order; then what they tell goes into the marks, which the scan needs no more.
ghost use Rattle.std.specs.Prelude.{List, [], ℕ, ◌≡◌, ◌<◌, ◌≤◌, length, take};
ghost use Rattle.rules.specs.LogPages.{list_mark};
ghost use Rattle.scan.specs.Listing.{is_listed_for, list_key, noted_with, order_told, told_to};
ghost use Rattle.sorting.specs.Order.{in_order};

use crate::marks::Marks;
use crate::scan::Subject;
use model::{Block, Listed};
use sorting::sort;
use std::marker::Model;
use tables::{integrity, is_closed, is_held, is_open, state_byte, wear_index};

// How many keys there may be, one for each block.
const MOST: usize = 256;

fn is_listed(subject: &Subject, listed: Listed, block: Block) -> bool
    ensures { result ≡ is_listed_for subject.now listed block }
{
    is_held(block, subject.domain)
        & match listed {
            Listed::Open => is_open(block),
            Listed::Closed => is_closed(block),
        }
}

// The one byte of a descriptor: the state of an open block, the integrity of a Closed one.
fn list_mark(listed: Listed, block: Block) -> u64
    ensures { (result ≡ list_mark listed block) × (result < 16) }
{
    match listed {
        Listed::Open => state_byte(block.state),
        Listed::Closed => integrity(block),
    }
}

// Serial, number, P/E index and byte of block n in one number, the serial first.
fn list_key(subject: &Subject, listed: Listed, n: usize, block: Block) -> u64
    requires { n < 256 }
    ensures { result ≡ list_key subject.now listed n block }
{
    let index = wear_index(subject.rated, block.erases);
    block.serial as u64 * 16777216 + n as u64 * 65536 + index * 256 + list_mark(listed, block)
}

// What the keys tell, each at its own place.
fn put_all_told(marks: &mut Marks, keys: &[u64])
    requires { length keys.now ≤ 256 }
    ensures { marks.new.row ≡ told_to keys.now (length keys.now) marks.old.row }
{
    for (i, key) in keys.iter().enumerate() {
        marks.put_told(i, *key);
    }
}

// The keys of the listed blocks, at most 256: a count of more counts 256, as it did when it was the last entry of a row, and
// so this is no `ArrayVec`, in which no such count can stand.
#[derive(Drop)]
pub struct Keys {
    row: [u64; 256],
    count: usize,
}

impl Model for Keys {
    ghost Value = { List ℕ };

    ghost view = { λ k. take k.count k.row };
}

impl Keys {
    // No keys yet.
    pub fn new() -> Self
        ensures { result ≡ [] }
    {
        Keys {
            row: [0; MOST],
            count: 0,
        }
    }

    // With block n, if it is listed, behind the keys that there are.
    pub fn note_listed(&mut self, subject: &Subject, listed: Listed, n: usize, block: Block)
        requires { n < 256 }
        ensures { self.new ≡ noted_with subject.now listed n block self.old }
    {
        if is_listed(subject, listed, block) & (self.count < MOST) {
            self.row[self.count] = list_key(subject, listed, n, block);
            self.count += 1;
        }
    }

    // Puts the keys in order, and what they tell into the marks.
    pub fn put_order(&mut self, marks: &mut Marks)
        ensures { (self.new ≡ in_order self.old) × (marks.new.row ≡ order_told self.old marks.old.row) }
    {
        let keys = &mut self.row[..self.count.min(MOST)];
        sort(keys);
        put_all_told(marks, keys);
    }
}
