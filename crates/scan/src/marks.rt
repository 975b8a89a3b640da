// The marks: what the scan of the blocks has to remember of those before, in a row of numbers. For each domain the
// blocks that it holds (from 0) and has open (from 16); for each place the block that is open there, counted from 1
// (from 32); for each key the last block that has it, counted from 1 (from 288), and for each block the one of its key
// before it (from 544). Once the blocks are scanned, a list is told in the same row: of each listed block, by rising
// serial, its number (from 32), the one byte of its descriptor (from 288) and its P/E index (from 544).
ghost use Rattle.std.specs.Prelude.{cond, ◌≡◌, ◌+◌, ◌-◌, ◌<◌, ◌≤◌};
ghost use Rattle.geometry.specs.Address.{is_domain_id};
ghost use Rattle.scan.specs.Listing.{byte_told, index_told, number_told, told_with};
ghost use Rattle.scan.specs.Marks.{Linked, PlaceTaken, chain_before, mark, no_marks, raised};
ghost use Rattle.scan.specs.Summary.{open_at};

pub(crate) const OPENED: usize = 16;

const PLACES: usize = 32;

const ENDS: usize = 288;

const LINKS: usize = 544;

const COUNT: usize = 800;

const NUMBERS: usize = 32;

const BYTES: usize = 288;

const INDEXES: usize = 544;

// One row, and no field for each kind of mark: `mark` and `told_with` speak of places in it, and a list is told where the
// scan's marks stood. Numbers of blocks are asked to be below 256, and are no `u8`, since they are indices of records
// before and after.
#[derive(Drop)]
pub struct Marks {
    row: [u16; 800],
}

impl Marks {
    // No marks yet.
    pub fn new() -> Self
        ensures { result.row ≡ no_marks }
    {
        Marks { row: [0; COUNT] }
    }

    fn raise(&mut self, at: usize)
        requires { at < 32 }
        ensures { self.new.row ≡ raised at self.old.row }
    {
        self.row[at] = self.row[at].wrapping_add(1);
    }

    // A block more that domain n holds.
    pub(crate) fn count_held(&mut self, n: usize)
        requires { n < 16 }
        ensures { self.new.row ≡ raised n self.old.row }
    {
        self.raise(n);
    }

    // A block more that it has open.
    pub(crate) fn count_open(&mut self, n: usize)
        requires { n < 16 }
        ensures { self.new.row ≡ raised (16 + n) self.old.row }
    {
        self.raise(OPENED + n);
    }

    // Is no block open at the place? Then block n is.
    pub(crate) fn take_place(&mut self, place: usize, n: usize) -> bool
        requires { (place < 256) × (n < 256) }
        ensures { PlaceTaken place n result self.old.row self.new.row }
    {
        let free = self.row[PLACES + place] == 0;
        if free {
            self.row[PLACES + place] = (n + 1) as u16;
        }
        free
    }

    // The last block of the key before block n, counted from 1; 0 if there is none, as in the marks, by which a chain is
    // followed to its end. Block n is then the last.
    pub(crate) fn link_block(&mut self, n: usize, key: usize) -> usize
        requires { (n < 256) × (key < 256) }
        ensures { Linked n key result self.old.row self.new.row }
    {
        let last = self.row[ENDS + key];
        self.row[ENDS + key] = (n + 1) as u16;
        self.row[LINKS + n] = last;
        usize::from(last)
    }

    // The block before one in the chain of its key, both counted from 1; a link that leads nowhere ends the chain.
    pub fn chain_before(&self, at: usize) -> usize
        requires { (1 ≤ at) × (at ≤ 256) }
        ensures { (result ≡ chain_before self.now.row at) × (result < at) }
    {
        let before = usize::from(self.row[LINKS + (at - 1)]);
        if before < at { before } else { 0 }
    }

    // How many blocks a domain holds, or has open: its entry, counted from 0, or the one 16 behind.
    pub(crate) fn count(&self, at: usize) -> u64
        requires { at < 32 }
        ensures { (result ≡ mark self.now.row at) × (result < 65536) }
    {
        u64::from(self.row[at])
    }

    // The open block of a domain's placement, if it has one.
    pub(crate) fn open_at(&self, domain: u64, placement: u64) -> Option<u64>
        ensures { result ≡ open_at self.now.row domain placement }
    {
        if (1 <= domain) & (domain <= 16) & (placement < 16) {
            let place = (16 * (domain - 1) + placement) as usize;
            u64::from(self.row[PLACES + place]).checked_sub(1)
        } else {
            None
        }
    }

    // What a key tells, at place i.
    pub(crate) fn put_told(&mut self, i: usize, key: u64)
        requires { i < 256 }
        ensures { self.new.row ≡ told_with i key self.old.row }
    {
        self.row[NUMBERS + i] = (key / 65536 % 256) as u16;
        self.row[BYTES + i] = (key % 256) as u16;
        self.row[INDEXES + i] = (key / 256 % 256) as u16;
    }

    // What is told of the listed block at place i: its number, ..
    pub fn number_told(&self, i: usize) -> u64
        requires { i < 256 }
        ensures { (result ≡ number_told self.now.row i) × (result < 65536) }
    {
        u64::from(self.row[NUMBERS + i])
    }

    // .. the byte of its descriptor, ..
    pub fn byte_told(&self, i: usize) -> u64
        requires { i < 256 }
        ensures { (result ≡ byte_told self.now.row i) × (result < 65536) }
    {
        u64::from(self.row[BYTES + i])
    }

    // .. and its P/E index.
    pub fn index_told(&self, i: usize) -> u64
        requires { i < 256 }
        ensures { (result ≡ index_told self.now.row i) × (result < 65536) }
    {
        u64::from(self.row[INDEXES + i])
    }
}
