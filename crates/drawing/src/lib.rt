// The drive as it stands, for a person: its shape, a row for each domain, and a map of its blocks.
#![tactic(auto)]

use arrayvec::ArrayString;
use geometry::{Config, adus_per_block, planes_per_block};
use model::{Block, State, Table, Way};
use shown_lines::say;
use tables::{is_held, is_open};

fn show_shape(rt: &impl Print, config: Config) {
    let Config {
        pages,
        dies,
        planes,
        adus,
        blocks,
        rated,
        period,
    } = config;
    say(
        rt,
        format_args!(
            "shape   pages {pages}, dies {dies}, planes per die {planes}, ADUs per plane {adus}"
        ),
    );
    let width = planes_per_block(config).0;
    let capacity = adus_per_block(config).0;
    say(rt, format_args!("block   planes {width}, ADUs {capacity}"));
    say(
        rt,
        format_args!("drive   super blocks {blocks}, rated erases {rated}, open period {period} s"),
    );
}

// A row for each domain, from the last to the first, with the coverage of those above it and its own. Coverage may be
// as much as the drive has blocks.
fn show_domains(rt: &impl Print, table: &Table) {
    let most = table.config.blocks;
    say(
        rt,
        format_args!("\ndomain  reserved  quota  held  open  coverage of {most}"),
    );
    let blocks = &table.blocks;
    let mut coverage = 0u64;
    for (i, record) in table.domains.iter().enumerate().rev() {
        let domain = i as u64 + 1;
        let held = blocks.iter().filter(|&&b| is_held(b, domain)).count() as u64;
        let open = blocks
            .iter()
            .filter(|&&b| is_held(b, domain) && is_open(b))
            .count();
        let reserved = record.reserved;
        let quota = record.quota;
        coverage = coverage.wrapping_add(held.max(u64::from(reserved)));
        if record.exists {
            say(
                rt,
                format_args!("{domain:>6}{reserved:>10}{quota:>7}{held:>6}{open:>6}{coverage:>10}"),
            );
        } else {
            say(
                rt,
                format_args!("{domain:>6}         -      -     -     -{coverage:>10}"),
            );
        }
    }
}

fn state_letter(block: &Block) -> char {
    match block.state {
        State::Free => '.',
        State::Open(Way::Erase) => 'e',
        State::Open(Way::Placement(_)) => 'w',
        State::Closed(_) => 'c',
    }
}

// The holder as a hexadecimal digit: 0 for domain 16, and a dot for none.
fn holder_letter(block: &Block) -> char {
    match block.holder {
        0 => '.',
        holder => char::from(b"0123456789abcdef"[usize::from(holder % 16)]),
    }
}

// A letter for each block, of which there are 64 at most.
fn row<F: Fn(&Block) -> char>(blocks: &[Block], letter: F) -> ArrayString<64>
    requires { F.IsAlwaysCallable letter }
{
    let mut row = ArrayString::new();
    for block in blocks {
        let _ = row.try_push(letter(block));
    }
    row
}

// The states of the drive's blocks, 64 in a row, and under each row their holders.
fn show_map(rt: &impl Print, blocks: &[Block]) {
    say(
        rt,
        "\nblocks  . free   e open by erase   w open for write   c closed",
    );
    say(
        rt,
        "        and under each its holder in hex, 0 for domain 16",
    );
    for (i, blocks) in blocks.chunks(64).enumerate() {
        let first = 64 * i;
        let states = row(blocks, state_letter);
        let holders = row(blocks, holder_letter);
        say(rt, format_args!("{first:>6}  {states}\n        {holders}"));
    }
}

pub fn show(rt: &impl Print, table: &Table) {
    let config = table.config;
    if config.blocks == 0 {
        say(rt, "no drive is started");
        return;
    }
    show_shape(rt, config);
    show_domains(rt, table);
    let count = config.blocks.min(256) as usize;
    show_map(rt, &table.blocks[..count]);
}
