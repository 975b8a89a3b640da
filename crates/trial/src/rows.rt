// A table as a row of numbers: the configuration's seven, then six for each domain and seven for each
// block. The C interface needs the numbers: a table crosses as nothing else, in a row that is asked to be long enough.
ghost use Rattle.std.specs.Prelude.{◌≡◌, ◌+◌, ◌≤◌, length};
ghost use Rattle.rules.specs.Drive.{overwritten};
ghost use Rattle.trial.specs.Rows.{block_in, block_numbers, config_in, config_numbers, domain_in, domain_numbers, four_bytes, one_byte};
ghost use Rattle.trial.specs.Rows.{state_code, state_of, state_placement, table_in, way_placement, with_table};

use geometry::{Adus, Config};
use model::{Block, Domain, State, Table, Way};
use tables::{clear_block, clear_domain};

// How many numbers a row has.
pub(crate) const ROW: usize = 1895;

const DOMAINS: usize = 7;

const BLOCKS: usize = 103;

// A number's low bytes, as many as a field has.
fn four_bytes(n: u64) -> u32
    ensures { result ≡ four_bytes n }
{
    (n % 4294967296) as u32
}

fn one_byte(n: u64) -> u8
    ensures { result ≡ one_byte n }
{
    (n % 256) as u8
}

// ---- From a row

fn state_of(code: u64, placement: u8) -> State
    ensures { result ≡ state_of code placement }
{
    match code {
        1 => State::Open(Way::Erase),
        2 => State::Open(Way::Placement(placement)),
        3 => State::Closed(Way::Erase),
        4 => State::Closed(Way::Placement(placement)),
        _ => State::Free,
    }
}

fn config_in(row: &[u64]) -> Config
    requires { 1895 ≤ length row.now }
    ensures { result ≡ config_in row.now }
{
    Config {
        pages: row[0],
        dies: row[1],
        planes: row[2],
        adus: row[3],
        blocks: row[4],
        rated: row[5],
        period: row[6],
    }
}

fn domain_in(row: &[u64], at: usize) -> Domain
    requires { at + 6 ≤ length row.now }
    ensures { result ≡ domain_in row.now at }
{
    Domain {
        exists: row[at] != 0,
        reserved: four_bytes(row[at + 1]),
        quota: four_bytes(row[at + 2]),
        placements: one_byte(row[at + 3]),
        limit: four_bytes(row[at + 4]),
        last: four_bytes(row[at + 5]),
    }
}

fn block_in(row: &[u64], at: usize) -> Block
    requires { at + 7 ≤ length row.now }
    ensures { result ≡ block_in row.now at }
{
    Block {
        state: state_of(row[at], one_byte(row[at + 1])),
        holder: one_byte(row[at + 2]),
        written: Adus(row[at + 3]),
        left: four_bytes(row[at + 4]),
        erases: four_bytes(row[at + 5]),
        serial: four_bytes(row[at + 6]),
    }
}

pub(crate) fn table_in(row: &[u64]) -> Table
    requires { 1895 ≤ length row.now }
    ensures { result ≡ table_in row.now }
{
    let config = config_in(row);
    let no_domain = clear_domain();
    let mut domains = [no_domain; 16];
    for (i, domain) in domains.iter_mut().enumerate() {
        *domain = domain_in(row, DOMAINS + 6 * i);
    }
    let no_block = clear_block();
    let mut blocks = [no_block; 256];
    for (n, block) in blocks.iter_mut().enumerate() {
        *block = block_in(row, BLOCKS + 7 * n);
    }
    Table {
        config,
        domains,
        blocks,
    }
}

// ---- Into a row

fn state_code(state: State) -> u64
    ensures { result ≡ state_code state }
{
    match state {
        State::Free => 0,
        State::Open(Way::Erase) => 1,
        State::Open(Way::Placement(_)) => 2,
        State::Closed(Way::Erase) => 3,
        State::Closed(Way::Placement(_)) => 4,
    }
}

fn placement_of(way: Way) -> u64
    ensures { result ≡ way_placement way }
{
    match way {
        Way::Erase => 0,
        Way::Placement(p) => p as u64,
    }
}

// 0 where a log page has FFFFh.
fn state_placement(state: State) -> u64
    ensures { result ≡ state_placement state }
{
    match state {
        State::Free => 0,
        State::Open(way) | State::Closed(way) => placement_of(way),
    }
}

fn put_numbers(row: &mut [u64], at: usize, numbers: &[u64])
    requires { at + length numbers.now ≤ length row.old }
    ensures { row.new ≡ overwritten at numbers.now row.old }
{
    row[at..at + numbers.len()].copy_from_slice(numbers);
}

fn put_config(row: &mut [u64], config: Config)
    requires { 7 ≤ length row.old }
    ensures { row.new ≡ overwritten 0 (config_numbers config) row.old }
{
    let numbers = [
        config.pages,
        config.dies,
        config.planes,
        config.adus,
        config.blocks,
        config.rated,
        config.period,
    ];
    put_numbers(row, 0, &numbers);
}

fn put_domain(row: &mut [u64], at: usize, domain: Domain)
    requires { at + 6 ≤ length row.old }
    ensures { row.new ≡ overwritten at (domain_numbers domain) row.old }
{
    let numbers = [
        u64::from(domain.exists),
        domain.reserved as u64,
        domain.quota as u64,
        domain.placements as u64,
        domain.limit as u64,
        domain.last as u64,
    ];
    put_numbers(row, at, &numbers);
}

fn put_block(row: &mut [u64], at: usize, block: Block)
    requires { at + 7 ≤ length row.old }
    ensures { row.new ≡ overwritten at (block_numbers block) row.old }
{
    let state = block.state;
    let numbers = [
        state_code(state),
        state_placement(state),
        block.holder as u64,
        block.written.0,
        block.left as u64,
        block.erases as u64,
        block.serial as u64,
    ];
    put_numbers(row, at, &numbers);
}

pub(crate) fn put_table(row: &mut [u64], table: Table)
    requires { 1895 ≤ length row.old }
    ensures { row.new ≡ with_table table row.old }
{
    put_config(row, table.config);
    for (i, &domain) in table.domains.iter().enumerate() {
        put_domain(row, DOMAINS + 6 * i, domain);
    }
    for (n, &block) in table.blocks.iter().enumerate() {
        put_block(row, BLOCKS + 7 * n, block);
    }
}
