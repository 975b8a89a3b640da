// The line for an answer to a command, and for one to making or taking apart an address.
ghost use Rattle.std.specs.Prelude.{[], ◌≡◌, ◌+◌, min, length, take};
ghost use Rattle.std.specs.List.{position_or_len};
ghost use Rattle.answer_lines.specs.Lines.{Prints, address_line, answer_line, counted_words, filled_text, listed_text};
ghost use Rattle.answer_lines.specs.Lines.{ok_line, outcome_line, samples_line};
ghost use Rattle.answer_lines.specs.Texts.{bytes_text, is_end_mark, spaced};

use crate::lines::{list_line, number_line, ok_line};
use geometry::Adus;
use model::{Answer, Command};

// Is this descriptor the end mark of a list?
fn is_end_mark(descriptor: &[u8; 8]) -> bool
    ensures { result ≡ is_end_mark descriptor.now }
{
    matches!(descriptor, [255, 255, 255, 255, ..])
}

// How many descriptors a list has up to its end mark and with it.
fn descriptor_count(descriptors: &[[u8; 8]]) -> usize
    ensures { result ≡ min (position_or_len is_end_mark descriptors.now + 1) (length descriptors.now) }
{
    match descriptors.iter().position(is_end_mark) {
        Some(before) => before + 1,
        None => descriptors.len(),
    }
}

fn print_words(count: Adus, words: &[u64], out: &mut [u8]) -> usize
    ensures { Prints (ok_line (counted_words count words.now)) out.old result out.new }
{
    let n = count.0.min(words.len() as u64) as usize;
    list_line(b"ok", &words[..n], out)
}

fn print_bytes(count: u64, bytes: &[u8], out: &mut [u8]) -> usize
    ensures { Prints (ok_line (spaced (bytes_text (take count bytes.now)))) out.old result out.new }
{
    let n = count.min(bytes.len() as u64) as usize;
    list_line(b"ok ", &bytes[..n], out)
}

// The descriptors of a list, with its end mark.
fn print_descriptors(bytes: &[u8], out: &mut [u8]) -> usize
    ensures { Prints (ok_line (listed_text bytes.now)) out.old result out.new }
{
    let (descriptors, _) = bytes.as_chunks::<8>();
    let n = descriptor_count(descriptors);
    list_line(b"ok", &descriptors[..n], out)
}

// Success, with what the command has filled.
fn print_filled(command: Command, words: &[u64], bytes: &[u8], out: &mut [u8]) -> usize
    ensures { Prints (ok_line (filled_text command words.now bytes.now)) out.old result out.new }
{
    match command {
        Command::WriteByPlacement { count, .. }
        | Command::WriteByBlock { count, .. }
        | Command::Read { count, .. } => print_words(count, words, out),
        Command::Page { .. } => print_bytes(256, bytes, out),
        Command::List { .. } => print_descriptors(bytes, out),
        _ => ok_line(out),
    }
}

// The line for an answer that fills nothing.
pub fn print_outcome(answer: Answer, out: &mut [u8]) -> usize
    ensures { Prints (outcome_line answer []) out.old result out.new }
{
    match answer {
        Answer::Done => ok_line(out),
        Answer::Block(n) => number_line(b"ok block ", n, out),
        Answer::Refused(refusal) => number_line(b"refused ", refusal.number(), out),
    }
}

// The line for an answer to a command, with what it has filled of the words and bytes.
pub fn print_answer(
    command: Command,
    answer: Answer,
    words: &[u64],
    bytes: &[u8],
    out: &mut [u8],
) -> usize
    ensures { Prints (answer_line command answer words.now bytes.now) out.old result out.new }
{
    match answer {
        Answer::Done => print_filled(command, words, bytes, out),
        Answer::Block(_) | Answer::Refused(_) => print_outcome(answer, out),
    }
}

// The line for an answer to `append` or `latest`, with so many words that it has filled.
pub fn print_samples(answer: Answer, count: Adus, words: &[u64], out: &mut [u8]) -> usize
    ensures { Prints (samples_line answer count words.now) out.old result out.new }
{
    match answer {
        Answer::Done => print_words(count, words, out),
        Answer::Block(_) | Answer::Refused(_) => print_outcome(answer, out),
    }
}

// The line for an address that was made or taken apart: its number, and how many bytes success fills.
// (No Result: the number is that of the C interface, 0 for success, and the definition `address_line` holds it.)
pub fn print_address(number: u64, filled: u64, bytes: &[u8], out: &mut [u8]) -> usize
    ensures { Prints (address_line number filled bytes.now) out.old result out.new }
{
    if number == 0 {
        print_bytes(filled, bytes, out)
    } else {
        number_line(b"refused ", number, out)
    }
}
