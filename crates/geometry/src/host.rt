// Making and taking apart for a host: the answer's numbers go into the byte buffer that it lends. The crate
// `geometry_c` exports both to C.
ghost use Rattle.std.specs.Prelude.{[], ◌≡◌, ◌*◌, ◌≤◌, length};
ghost use Rattle.geometry.specs.Answers.{create_into, filled, parse_into, returned, verdict_number};

use crate::address::{Elements, Refusal, ask, create_flash_address, parse_flash_address};
use crate::bytes::put_numbers;
use crate::shape::Config;

// Question 7, and the numbers at the start of the buffer.
#[tactic(auto, unfolding(crate::specs::Answers::filled, crate::specs::Questions::first_no))]
fn fill(out: &mut [u8], values: &[u64]) -> Result<(), Refusal>
    requires { length values.now ≤ 7 }
    ensures { returned (verdict_number result) out.new ≡ filled (8 * length values.now) [] values.now out.old }
{
    ask(8 * values.len() <= out.len(), Refusal::Output)?;
    put_numbers(out, values);
    Ok(())
}

// The word of a domain, a block and elements, as 8 bytes.
#[tactic(auto, using(crate::proofs::Laws::Answers::filling))]
pub fn create_into(
    config: Config,
    domain: u64,
    block: u64,
    e: Elements,
    out: &mut [u8],
) -> Result<(), Refusal>
    ensures { returned (verdict_number result) out.new ≡ create_into config domain block e out.old }
{
    let word = create_flash_address(config, domain, block, e)?;
    fill(out, &[word])
}

// The seven numbers of a word's address, as 56 bytes.
#[tactic(auto, using(crate::proofs::Laws::Answers::filling))]
pub fn parse_into(config: Config, word: u64, out: &mut [u8]) -> Result<(), Refusal>
    ensures { returned (verdict_number result) out.new ≡ parse_into config word out.old }
{
    let (a, e) = parse_flash_address(config, word)?;
    fill(
        out,
        &[a.domain, a.block, a.offset.0, e.page, e.die, e.plane, e.adu],
    )
}

// The answer's number, as C has it: 0 where nothing is refused.
pub fn verdict_number(answer: Result<(), Refusal>) -> u64
    ensures { result ≡ verdict_number answer }
{
    match answer {
        Ok(()) => 0,
        Err(reason) => reason.number(),
    }
}
