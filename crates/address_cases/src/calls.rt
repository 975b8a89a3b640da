// The call of a line, and all that it leaves as a row of numbers: an answer's number, then what came
// with it. For the C host those are the buffer's 64 bytes as eight numbers, so that one which is not
// filled is seen to be as it was.
use geometry::{Adus, Config, Elements, FlashAddress, Planes, Refusal, verdict_number};

pub type Row = [Option<u64>; 9];

// What 8 bytes of a buffer are that nothing has filled, and what is printed where there is no number.
pub const UNFILLED: u64 = 0xa5a5_a5a5_a5a5_a5a5;

// What the buffer holds before a call.
const FILLER: u8 = 0xa5;

// A row that begins with these numbers.
pub fn row(numbers: &[u64]) -> Row {
    let mut row = [None; 9];
    for (place, number) in row.iter_mut().zip(numbers) {
        *place = Some(*number);
    }
    row
}

// An answer, and the numbers of a buffer.
fn filled(answer: u64, bytes: &[u8; 64]) -> Row {
    let mut row = row(&[answer]);
    let (numbers, _) = bytes.as_chunks::<8>();
    for (place, number) in row.iter_mut().skip(1).zip(numbers) {
        *place = Some(u64::from_le_bytes(*number));
    }
    row
}

// Making for the C host, with a buffer of so many bytes, 64 at most.
fn host_made(c: Config, domain: u64, block: u64, e: Elements, length: u64) -> Row {
    let mut bytes = [FILLER; 64];
    let end = bytes.len().min(length as usize);
    let answer = verdict_number(geometry::create_into(c, domain, block, e, &mut bytes[..end]));
    filled(answer, &bytes)
}

// Taking apart for the C host, likewise.
fn host_taken(c: Config, word: u64, length: u64) -> Row {
    let mut bytes = [FILLER; 64];
    let end = bytes.len().min(length as usize);
    let answer = verdict_number(geometry::parse_into(c, word, &mut bytes[..end]));
    filled(answer, &bytes)
}

fn made(answer: Result<u64, Refusal>) -> Row {
    match answer {
        Ok(word) => row(&[0, word]),
        Err(r) => row(&[r.number()]),
    }
}

fn taken(answer: Result<(FlashAddress, Elements), Refusal>) -> Row {
    match answer {
        Ok((a, e)) => {
            row(&[
                0, a.domain, a.block, a.offset.0, e.page, e.die, e.plane, e.adu,
            ])
        }
        Err(r) => row(&[r.number()]),
    }
}

fn sizes(config: Config) -> Row {
    row(&[
        geometry::planes_per_block(config).0,
        geometry::drive_planes(config).0,
        geometry::adus_per_block(config).0,
        geometry::store_length(config).0,
        geometry::offset_bits(config),
    ])
}

fn fields(a: FlashAddress) -> Row {
    row(&[a.domain, a.block, a.offset.0])
}

// What the call that a word names leaves, with the numbers behind the word; none if it names no call.
pub fn called(config: Config, word: &[u8], arguments: [u64; 7]) -> Option<Row> {
    let row = match (word, arguments) {
        (b"config", _) => row(&[u64::from(geometry::within_limits(config))]),
        (b"size", _) => sizes(config),
        (b"round", [planes, ..]) => row(&[geometry::whole_blocks(config, Planes(planes))]),
        (b"stretch", [block, ..]) => row(&[geometry::stretch_start(config, block).0]),
        (b"domain", [id, ..]) => row(&[u64::from(geometry::is_domain_id(id))]),
        (b"make", [domain, block, page, die, plane, adu, length]) => {
            let elements = Elements {
                page,
                die,
                plane,
                adu,
            };
            host_made(config, domain, block, elements, length)
        }
        (b"take", [word, length, ..]) => host_taken(config, word, length),
        (b"create", [domain, block, page, die, plane, adu, _]) => {
            let elements = Elements {
                page,
                die,
                plane,
                adu,
            };
            made(geometry::create_flash_address(config, domain, block, elements))
        }
        (b"parse", [word, ..]) => taken(geometry::parse_flash_address(config, word)),
        (b"word", [domain, block, offset, ..]) => {
            let offset = Adus(offset);
            made(geometry::flash_word(
                config,
                FlashAddress {
                    domain,
                    block,
                    offset,
                },
            ))
        }
        (b"fields", [word, ..]) => fields(geometry::word_fields(config, word)),
        _ => return None,
    };
    Some(row)
}
