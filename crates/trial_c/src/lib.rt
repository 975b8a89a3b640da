// The three functions of `trial` for `bench`, under the names that `bench/src/rattle.rs` declares. Each says of the
// numbers that it takes what the library's function says of a configuration or a request.
#![tactic(auto)]

ghost use Rattle.geometry.specs.Answers.{config_of};
ghost use Rattle.trial.specs.Commands.{asked_of};
ghost use Rattle.trial.specs.Trials.{RunTried, ServeTried, StartTried, lending};

use geometry::Config;
use trial::request_of;

#[unsafe(no_mangle)]
pub extern "C" fn trial_start(
    pages: u64,
    dies: u64,
    planes: u64,
    adus: u64,
    blocks: u64,
    rated: u64,
    period: u64,
    row: &mut [u64],
) -> u64
    ensures { StartTried (config_of pages dies planes adus blocks rated period) result row.old row.new }
{
    let config = Config {
        pages,
        dies,
        planes,
        adus,
        blocks,
        rated,
        period,
    };
    trial::start(config, row)
}

#[unsafe(no_mangle)]
pub extern "C" fn trial_serve(
    kind: u64,
    a: u64,
    b: u64,
    c: u64,
    d: u64,
    e: u64,
    row: &mut [u64],
    store: &mut [u64],
    words: &mut [u64],
    bytes: &mut [u8],
) -> u64
    ensures { ServeTried (asked_of kind a b c d e) result (lending row.old store.old words.old bytes.old) (lending row.new store.new words.new bytes.new) }
{
    let request = request_of(kind, [a, b, c, d, e]);
    trial::serve(request, row, store, words, bytes)
}

#[unsafe(no_mangle)]
pub extern "C" fn trial_run(
    rounds: u64,
    commands: &[u64],
    row: &mut [u64],
    store: &mut [u64],
    words: &mut [u64],
    bytes: &mut [u8],
) -> u64
    ensures { RunTried rounds commands.now result (lending row.old store.old words.old bytes.old) (lending row.new store.new words.new bytes.new) }
{
    trial::run(rounds, commands, row, store, words, bytes)
}
