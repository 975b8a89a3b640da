// Standard output. What cannot be written is lost, and the program goes on.
use std::fmt::Display;

// A line of text.
pub fn say<D: Display + Drop>(rt: &impl Print, text: D) {
    let _ = rt.println(text);
}

// A line as bytes, with its newline.
pub(crate) fn say_bytes(rt: &impl Print, line: &[u8]) {
    let _ = rt.write_all(line);
}
