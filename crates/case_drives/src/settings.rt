// What a line sets of a drive: `config`, `domain`, `block`, `entries`, `words` or `bytes`, with the
// numbers that the program `cases` tells of at the head of its script.rt.
use crate::drive::Drive;
use case_lines::{Line, config_of};
use geometry::Adus;
use model::{Block, Domain, State, Way};

// A number as a field has it, or the most that the field takes. Two functions: std has no trait for a type's `MAX`.
fn narrow(n: u64) -> u32 {
    u32::try_from(n).unwrap_or(u32::MAX)
}

fn byte(n: u64) -> u8 {
    u8::try_from(n).unwrap_or(u8::MAX)
}

fn domain_of([exists, reserved, quota, placements, limit, last]: [u64; 6]) -> Domain {
    Domain {
        exists: exists == 1,
        reserved: narrow(reserved),
        quota: narrow(quota),
        placements: byte(placements),
        limit: narrow(limit),
        last: narrow(last),
    }
}

// The state by its byte in a log page, as the scripts write it: 1 Free; by Erase 8 open, 10 Closed; by placement 4 open,
// 6 Closed.
fn state_of(number: u64, placement: u64) -> State {
    match number {
        8 => State::Open(Way::Erase),
        10 => State::Closed(Way::Erase),
        4 => State::Open(Way::Placement(byte(placement))),
        6 => State::Closed(Way::Placement(byte(placement))),
        _ => State::Free,
    }
}

fn block_of([state, placement, holder, written, left, erases, serial]: [u64; 7]) -> Block {
    Block {
        state: state_of(state, placement),
        holder: byte(holder),
        written: Adus(written),
        left: narrow(left),
        erases: narrow(erases),
        serial: narrow(serial),
    }
}

// A record at its place, if there is such a place. It is not `scan`'s, of which the manager is made.
fn put<T: Copy>(records: &mut [T], at: u64, record: T) {
    if at < records.len() as u64 {
        records[at as usize] = record;
    }
}

// `count` entries from `at` on: first, first + step, ..
fn put_entries(row: &mut [u64], at: u64, count: u64, first: u64, step: u64) {
    let mut value = first;
    for entry in row.iter_mut().skip(at as usize).take(count as usize) {
        *entry = value;
        value = value.wrapping_add(step);
    }
}

// The bytes that a line gives behind the part at an index, to a place of the row.
fn put_bytes(row: &mut [u8], at: u64, line: Line<'_>, i: usize) {
    let behind = i.saturating_add(1)..Line::PARTS;
    for (place, i) in row.iter_mut().skip(at as usize).zip(behind) {
        if let Some(n) = line.number_at(i) {
            *place = byte(n);
        }
    }
}

impl Drive {
    // One setting, whose word stands at an index of the line; none where another word stands there.
    pub fn set(&mut self, line: Line<'_>, i: usize) {
        let [at, count, first, step] = line.arguments::<4>(i);
        let next = i.saturating_add(1);
        match line.word(i).letters() {
            b"config" => self.table.config = config_of(line.arguments(i)),
            b"domain" => {
                let domain = domain_of(line.arguments(next));
                put(&mut self.table.domains, at.wrapping_sub(1), domain)
            }
            b"block" => put(&mut self.table.blocks, at, block_of(line.arguments(next))),
            b"entries" => put_entries(&mut self.store, at, count, first, step),
            b"words" => put_entries(&mut self.words, at, count, first, step),
            b"bytes" => put_bytes(&mut self.bytes, at, line, next),
            _ => {}
        }
    }
}
