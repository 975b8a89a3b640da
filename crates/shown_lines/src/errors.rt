// What is said of a line that is no command, or that asks for more than this program has.
use script_lines::{Buffer, Expected};
use std::fmt;

// Why a line is not done.
#[derive(Clone, Copy)]
pub enum LineError {
    // It has more bytes than a line may have.
    TooLong(usize),
    // Something else was expected behind so many bytes.
    Expected(Expected, usize),
    // It starts a drive of so many ADUs, and there is store for fewer.
    Store { needed: u64, most: usize },
    // It lends more of a buffer than there is.
    Lent { buffer: Buffer, most: usize },
}

fn expected_text(expected: Expected) -> &'static str {
    match expected {
        Expected::Keyword => "a command",
        Expected::Number => "a number",
        Expected::Block => "a block number or auto",
        Expected::Way => "placement or block",
        Expected::Listed => "open or closed",
        Expected::Buffer => "store, words or bytes",
        Expected::Length => "a number or full",
        Expected::LineEnd => "the end of the line",
    }
}

fn buffer_text(buffer: Buffer) -> &'static str {
    match buffer {
        Buffer::Store => "entries of store",
        Buffer::Words => "words",
        Buffer::Bytes => "bytes",
    }
}

impl fmt::Display for LineError {
    fn fmt<W: fmt::Write>(&self, f: &mut fmt::Formatter<W>) -> fmt::Result {
        match *self {
            LineError::TooLong(most) => write!(f, "the line has more than {most} bytes"),
            LineError::Expected(expected, before) => {
                let what = expected_text(expected);
                // Columns are counted from 1.
                let column = before.wrapping_add(1);
                write!(f, "expected {what} at column {column}")
            }
            LineError::Store { needed, most } => {
                write!(
                    f,
                    "the drive has {needed} ADUs, and this program has memory for {most}"
                )
            }
            LineError::Lent { buffer, most } => {
                let what = buffer_text(buffer);
                write!(f, "there are {most} {what} to lend")
            }
        }
    }
}
