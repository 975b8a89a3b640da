// The scan of the blocks: block by block it tests the clauses of soundness that speak of one block or of two, and
// counts each domain's blocks.
ghost use Rattle.std.specs.Prelude.{false, ◌&&◌, ◌≡◌, ◌<◌, eqb};
ghost use Rattle.rules.specs.Drive.{is_free};
ghost use Rattle.scan.specs.Scan.{HeldTested, OpenTested, Scanned, WayTaken, closed_tested};

use crate::clauses::{
    closed_kept, domain_index, is_clear, is_owned, open_kept, place_for, serial_key, way_below,
};
use crate::marks::Marks;
use geometry::Adus;
use model::{Block, Domain, Listed, State, Way};
use tables::is_free;

// What a command is about, beside its domain: nothing, a block that it names, the placement whose open block it writes
// to, the Free block to be opened next, or a list of the domain's blocks.
#[derive(Clone, Copy)]
pub enum About {
    Domain,
    Block(u64),
    Placement(u64),
    Chosen,
    Listed(Listed),
}

#[derive(Clone, Copy)]
pub struct Subject {
    pub domain: u64,
    pub about: About,
    // what the scan needs of the drive's configuration
    pub capacity: Adus,
    pub period: u64,
    pub rated: u64,
}

// Has an open block's placement no other open block, and is it one of the domain's? Then it has this one.
fn take_way(placements: u8, holder: u8, way: Way, n: usize, marks: &mut Marks) -> bool
    requires { n < 256 }
    ensures { WayTaken placements holder way n result marks.old.row marks.new.row }
{
    match way {
        Way::Erase => true,
        Way::Placement(p) => {
            if p < placements {
                match place_for(holder, p) {
                    Some(place) => marks.take_place(place, n),
                    None => true,
                }
            } else {
                false
            }
        }
    }
}

// What is left to test of an open block, whose domain counts it at a place among the marks. It is counted, and takes
// its place.
fn test_open(
    subject: &Subject,
    n: usize,
    at: usize,
    block: Block,
    placements: u8,
    way: Way,
    marks: &mut Marks,
) -> bool
    requires { (n < 256) × (at < 16) }
    ensures { OpenTested subject.now n at block placements way result marks.old.row marks.new.row }
{
    if open_kept(subject.capacity, subject.period, block) {
        marks.count_open(at);
        take_way(placements, block.holder, way, n, marks)
    } else {
        false
    }
}

// What is left to test of a Closed one.
fn test_closed(subject: &Subject, block: Block, placements: u8, way: Way) -> bool
    ensures { result ≡ closed_tested subject.now block placements way }
{
    closed_kept(subject.capacity, block) && way_below(placements as u32, way)
}

// The clauses that speak of a block that a domain holds, but for its serial. It is counted, and takes its place.
fn test_held(subject: &Subject, n: usize, block: Block, holder: Domain, marks: &mut Marks) -> bool
    requires { (n < 256) × (is_free block ≡ false) }
    ensures { HeldTested subject.now n block holder result marks.old.row marks.new.row }
{
    if is_owned(holder, block) {
        let at = domain_index(block.holder);
        marks.count_held(at);
        match block.state {
            State::Free => false,
            State::Open(way) => test_open(subject, n, at, block, holder.placements, way, marks),
            State::Closed(way) => test_closed(subject, block, holder.placements, way),
        }
    } else {
        false
    }
}

// Of a block that is sound, the last before it that has its key, counted from 1, and 0 if there is none: its serial is
// still to be compared with the serials of the blocks of that chain. None of one that is not.
pub fn scan_block(
    subject: &Subject,
    n: usize,
    block: Block,
    holder: Domain,
    marks: &mut Marks,
) -> Option<usize>
    requires { n < 256 }
    ensures { Scanned subject.now n block holder result marks.old.row marks.new.row }
{
    if is_free(block) {
        if is_clear(block) { Some(0) } else { None }
    } else if test_held(subject, n, block, holder, marks) {
        Some(marks.link_block(n, serial_key(block.holder, block.serial)))
    } else {
        None
    }
}

// Have two blocks that are held the same holder and the same serial? No `==`: the other four fields may differ.
pub fn same_serial(block: Block, other: Block) -> bool
    ensures { result ≡ eqb block.holder other.holder && eqb block.serial other.serial }
{
    (block.holder == other.holder) & (block.serial == other.serial)
}
