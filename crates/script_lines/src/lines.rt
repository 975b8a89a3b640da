// A line of a script.
ghost use Rattle.std.specs.Prelude.{◌≡◌, ◌≤◌, length};
ghost use Rattle.script_lines.specs.Lines.{config_of, elements_of, line_of, meaning, text_line, write_of};

use crate::arguments::{Arguments, Buffer, Fault, Length, Way, read_arguments};
use crate::keywords::{Expected, Keyword, keyword_of};
use crate::words::{Mark, first_mark};
use geometry::{Adus, Config, Elements, Planes};
use model::Command;

// What a line asks for.
#[derive(Clone, Copy)]
pub enum Line {
    // a blank line, or a comment alone
    Nothing,
    Start(Config),
    Serve(Command),
    // an address of a domain and a block
    Make(u64, u64, Elements),
    Take(u64),
    Lend(Buffer, Length),
    Show,
    // a sample, put behind the others of a domain
    Append(u64, u64),
    // the last so many samples of a domain
    Latest(u64, Adus),
    // no line of the language: what was expected, and how many bytes stand before that place
    Wrong(Expected, usize),
}

fn config_of(numbers: [u64; 7]) -> Config
    ensures { result ≡ config_of numbers }
{
    let [pages, dies, planes, adus, blocks, rated, period] = numbers;
    Config {
        pages,
        dies,
        planes,
        adus,
        blocks,
        rated,
        period,
    }
}

// The elements of an address stand behind its domain and its block.
fn elements_of(numbers: [u64; 7]) -> Elements
    ensures { result ≡ elements_of numbers }
{
    let [_, _, page, die, plane, adu, _] = numbers;
    Elements {
        page,
        die,
        plane,
        adu,
    }
}

// Write by placement or by block. The way is said between the domain and the target.
fn write_of(way: Way, numbers: [u64; 7]) -> Command
    ensures { result ≡ write_of way numbers }
{
    let [domain, _, target, start, count, ..] = numbers;
    let count = Adus(count);
    match way {
        Way::Placement => Command::WriteByPlacement {
            domain,
            placement: target,
            start,
            count,
        },
        Way::Block => Command::WriteByBlock {
            domain,
            block: target,
            start,
            count,
        },
    }
}

// What a keyword with its arguments asks for.
fn meant(keyword: Keyword, read: Arguments) -> Line
    ensures { result ≡ meaning keyword read }
{
    let numbers = read.numbers;
    let [first, second, third, fourth, fifth, ..] = numbers;
    // as most commands name them
    let [domain, block, ..] = numbers;
    let listed = read.listed;
    match keyword {
        Keyword::Start => Line::Start(config_of(numbers)),
        Keyword::Create => Line::Serve(Command::Create {
            domain,
            guarantee: Planes(second),
            quota: Planes(third),
            placements: fourth,
            limit: fifth,
        }),
        Keyword::Change => Line::Serve(Command::ChangeCapacity {
            domain,
            guarantee: Planes(second),
            quota: Planes(third),
        }),
        Keyword::Delete => Line::Serve(Command::Delete { domain }),
        Keyword::Erase => Line::Serve(Command::Erase { domain, block }),
        Keyword::Close => Line::Serve(Command::Close { domain, block }),
        Keyword::Free => Line::Serve(Command::Free { domain, block }),
        Keyword::Write => Line::Serve(write_of(read.way, numbers)),
        Keyword::Read => Line::Serve(Command::Read {
            domain,
            address: second,
            count: Adus(third),
            expected: fourth,
        }),
        Keyword::Page => Line::Serve(Command::Page { domain, block }),
        Keyword::List => Line::Serve(Command::List { domain, listed }),
        Keyword::Pulse => Line::Serve(Command::Pulse { seconds: first }),
        Keyword::Make => Line::Make(domain, block, elements_of(numbers)),
        Keyword::Take => Line::Take(first),
        Keyword::Lend => Line::Lend(read.buffer, read.length),
        Keyword::Show => Line::Show,
        Keyword::Append => Line::Append(domain, second),
        Keyword::Latest => Line::Latest(domain, Adus(second)),
    }
}

// What a line without its comment asks for, or where it goes wrong.
fn text_line(text: &[u8]) -> Result<Line, Fault>
    ensures { result ≡ text_line text.now }
{
    let begin = first_mark(text, 0, Mark::Word);
    if begin == text.len() {
        return Ok(Line::Nothing);
    }
    let end = first_mark(text, begin, Mark::Blank);
    let fault = Fault {
        expected: Expected::Keyword,
        at: begin,
    };
    let keyword = keyword_of(&text[begin..end]).ok_or(fault)?;
    let read = read_arguments(text, keyword, end)?;
    Ok(meant(keyword, read))
}

// What a line asks for, whatever bytes it holds.
pub fn parse(line: &[u8]) -> Line
    ensures { result ≡ line_of line.now }
{
    let end = first_mark(line, 0, Mark::Comment);
    match text_line(&line[..end]) {
        Ok(asked) => asked,
        Err(fault) => Line::Wrong(fault.expected, fault.at),
    }
}
