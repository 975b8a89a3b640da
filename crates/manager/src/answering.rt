// What a command answers and changes, from what is seen of the table.
ghost use Rattle.std.specs.Prelude.{◌≡◌};
ghost use Rattle.placements.specs.Onwards.{complete_of};
ghost use Rattle.tables.specs.Changing.{leaving, outcome_from};
ghost use Rattle.tables.specs.Serving.{answer_from};
ghost use Rattle.manager.specs.Answering.{Dispatched, Summarized, changed_place};

use blocks::{close, erase, free};
use domains::{change_capacity, create, delete, pulse};
use log_pages::{list, page};
use model::{Command, Refusal};
use placements::{Partial, complete, partial_from, write_by_placement};
use scan::{Marks, Summary, first_verdict};
use tables::{Change, Outcome, answer_from, outcome_from, refusal, unchanged};
use transfers::{read, write_by_block};

// What a command that leaves nothing to write answers and changes.
fn completed(given: Result<Outcome, Refusal>) -> Partial
    ensures { result ≡ complete_of (outcome_from given) }
{
    complete(outcome_from(given))
}

// What a command answers that changes nothing.
fn answered(given: Result<(), Refusal>) -> Partial
    ensures { result ≡ complete_of (leaving (answer_from given)) }
{
    complete(unchanged(answer_from(given)))
}

// The command's answer, what it changes and what it has left to write, from what is seen of the table. The store, the
// words and the bytes are then as after it, but for what is left. What every command is asked first is asked here, the
// other questions by the command's own function.
pub(crate) fn dispatch(
    summary: Summary,
    marks: &Marks,
    command: Command,
    store: &mut [u64],
    words: &mut [u64],
    bytes: &mut [u8],
) -> Partial
    requires { Summarized summary command marks.now.row }
    ensures { Dispatched summary command marks.now.row store.old words.old bytes.old result store.new words.new bytes.new }
{
    match first_verdict(summary, command, store.len()) {
        Err(reason) => complete(refusal(reason)),
        Ok(()) => match command {
            Command::Create {
                domain,
                guarantee,
                quota,
                placements,
                limit,
            } => { completed(create(summary, domain, guarantee, quota, placements, limit)) }
            Command::ChangeCapacity {
                domain,
                guarantee,
                quota,
            } => { completed(change_capacity(summary, domain, guarantee, quota)) }
            Command::Delete { domain } => complete(delete(domain)),
            Command::Erase { domain, block } => completed(erase(summary, domain, block, store)),
            Command::Close { domain, block } => completed(close(summary, domain, block)),
            Command::Free { domain, block } => completed(free(summary, domain, block)),
            Command::WriteByPlacement {
                domain,
                placement,
                start,
                count,
            } => {
                partial_from(write_by_placement(
                    summary, domain, placement, start, count, store, words,
                ))
            }
            Command::WriteByBlock {
                domain,
                block,
                start,
                count,
            } => { completed(write_by_block(summary, domain, block, start, count, store, words)) }
            Command::Read {
                domain,
                address,
                count,
                expected,
            } => { answered(read(summary, domain, address, count, expected, store, words)) }
            Command::Page { domain, block } => answered(page(summary, domain, block, bytes)),
            Command::List { domain, listed } => {
                answered(list(summary, domain, listed, marks, bytes))
            }
            Command::Pulse { seconds } => completed(pulse(seconds)),
        },
    }
}

// Where a change's domain has its record; where it changes none the place behind the last, at which `put_record` changes
// none.
pub(crate) fn changed_place(change: Change) -> u64
    ensures { result ≡ changed_place change }
{
    change.domain.checked_sub(1).unwrap_or(16)
}
