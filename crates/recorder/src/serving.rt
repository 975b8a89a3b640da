// Serving a command that fills no bytes.
ghost use Rattle.rules.specs.Claims.{Shaped};
ghost use Rattle.tables.specs.Serving.{answering};
ghost use Rattle.recorder.specs.Steps.{ServesWords};

use manager::serve_in;
use model::{Answer, Block, Command, Domain, Table};

// The command's answer; the table is changed in place.
pub(crate) fn serve_words(
    table: &mut Table,
    command: Command,
    store: &mut [u64],
    words: &mut [u64],
) -> Answer
    ensures { ServesWords table.old command store.old words.old (answering table.new result) store.new words.new }
{
    let mut none: [u8; 0] = [0; 0];
    serve_in(table, command, store, words, &mut none)
}

// Does nothing. It says for the proofs that a table has 16 domains and 256 blocks: the lengths of its arrays are known
// where they are lent.
pub(crate) fn show_shape(table: &Table)
    ensures { Shaped table.now }
{
    let _domains: &[Domain] = &table.domains;
    let _blocks: &[Block] = &table.blocks;
}
