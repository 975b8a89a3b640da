// The two functions of `geometry` for the C host, under the names that `hosts/c/sbm.h` declares: numbers in, the
// answer's number out, and the rest in a lent byte buffer. The C interface needs the long rows of numbers.
#![tactic(auto)]

ghost use Rattle.std.specs.Prelude.{◌≡◌};
ghost use Rattle.geometry.specs.Answers.{config_of, create_into, elements_given, parse_into, returned};

use geometry::{Config, Elements, verdict_number};

#[unsafe(no_mangle)]
pub extern "C" fn sbm_create_flash_address(
    pages: u64,
    dies: u64,
    planes: u64,
    adus: u64,
    blocks: u64,
    rated: u64,
    period: u64,
    domain: u64,
    block: u64,
    page: u64,
    die: u64,
    plane: u64,
    adu: u64,
    out: &mut [u8],
) -> u64
    ensures { returned result out.new ≡ create_into (config_of pages dies planes adus blocks rated period) domain block (elements_given page die plane adu) out.old }
{
    let config = Config {
        pages,
        dies,
        planes,
        adus,
        blocks,
        rated,
        period,
    };
    let elements = Elements {
        page,
        die,
        plane,
        adu,
    };
    verdict_number(geometry::create_into(config, domain, block, elements, out))
}

#[unsafe(no_mangle)]
pub extern "C" fn sbm_parse_flash_address(
    pages: u64,
    dies: u64,
    planes: u64,
    adus: u64,
    blocks: u64,
    rated: u64,
    period: u64,
    word: u64,
    out: &mut [u8],
) -> u64
    ensures { returned result out.new ≡ parse_into (config_of pages dies planes adus blocks rated period) word out.old }
{
    let config = Config {
        pages,
        dies,
        planes,
        adus,
        blocks,
        rated,
        period,
    };
    verdict_number(geometry::parse_into(config, word, out))
}
