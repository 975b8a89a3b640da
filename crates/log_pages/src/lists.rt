// List: the open and the Closed blocks of a domain.
ghost use Rattle.std.specs.Prelude.{List, ◌≡◌, ℕ, ◌+◌, ◌*◌, ◌≤◌, length};
ghost use Rattle.log_pages.specs.LogPages.{count_seen, told_bytes};
ghost use Rattle.model.specs.declared.command.Command.TheVariants.{List as Listing};
ghost use Rattle.model.specs.declared.table.Table.{Table};
ghost use Rattle.rules.specs.Drive.{overwritten};
ghost use Rattle.rules.specs.LogPages.{descriptor_of};
ghost use Rattle.scan.specs.First.{FirstPassed};
ghost use Rattle.scan.specs.Summary.{Sees, SeesList};
ghost use Rattle.tables.specs.Serving.{ServesCommand, answer_from, answering, served};

use buffers::put_field;
use model::{Listed, Refusal};
use scan::{Marks, Summary};

// A descriptor, or the end mark.
fn put_descriptor(bytes: &mut [u8], at: usize, number: u64, index: u64, mark: u64)
    requires { at + 8 ≤ length bytes.old }
    ensures { bytes.new ≡ overwritten at (descriptor_of number index mark) bytes.old }
{
    put_field(bytes, at, 4, number);
    put_field(bytes, at + 4, 1, index);
    put_field(bytes, at + 5, 1, mark);
    put_field(bytes, at + 6, 2, 0);
}

// A descriptor for each of so many blocks that the marks tell of, in their order, and the end mark. It goes over their
// places: of each the marks tell three numbers, and `put_field` writes by place.
fn put_list(bytes: &mut [u8], marks: &Marks, count: usize)
    requires { (count ≤ 256) × (8 * (count + 1) ≤ length bytes.old) }
    ensures { bytes.new ≡ overwritten 0 (told_bytes marks.now.row count) bytes.old }
{
    for i in 0..count {
        put_descriptor(
            bytes,
            8 * i,
            marks.number_told(i),
            marks.index_told(i),
            marks.byte_told(i),
        );
    }
    put_descriptor(bytes, 8 * count, 0xffff_ffff, 0, 0);
}

// How many blocks are listed. The blocks that a domain holds are open or Closed.
fn listed_count(summary: Summary, listed: Listed) -> u64
    requires { (summary.opened ≤ summary.held) × (summary.held ≤ 256) }
    ensures { (result ≡ count_seen summary listed) × (result ≤ 256) }
{
    match listed {
        Listed::Open => summary.opened,
        Listed::Closed => summary.held - summary.opened,
    }
}

// The domain's open or Closed blocks by rising serial, a descriptor each, and the end mark.
pub fn list(
    summary: Summary,
    domain: u64,
    listed: Listed,
    marks: &Marks,
    bytes: &mut [u8],
) -> Result<(), Refusal>
    requires sees { (t : Table) × Sees t domain summary × SeesList t domain listed summary marks.now.row }
    requires first_passed { FirstPassed (Listing domain listed) 0 summary }
    ensures { (t : Table) (store words : List ℕ) → Sees t domain summary → SeesList t domain listed summary marks.now.row → ServesCommand t (Listing domain listed) store words bytes.old (served (answering t (answer_from result)) store words bytes.new) }
{
    let count = listed_count(summary, listed);
    if (bytes.len() as u64) < 8 * (count + 1) {
        return Err(Refusal::Output);
    }
    put_list(bytes, marks, count as usize);
    Ok(())
}
