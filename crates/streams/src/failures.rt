// What a program says where a call of the system failed.
use arrayvec::ArrayString;
use std::fmt::Write as _;
use std::io;
use std::io::{ErrorKind, Write};

// Room for an error's text. The longest that the C library has takes half of it.
const ROOM: usize = 128;

// A text up to the error's number, which only the program's programmer would look up.
fn without_number(text: &str) -> &str {
    text.split_once(" (os error ")
        .map_or(text, |(words, _)| words)
}

// Writes a line to standard error: what failed, as the caller names it, a colon and why.
pub fn fail<W: Write>(errors: &mut W, what: &[u8], why: io::Error) {
    let mut text = ArrayString::<ROOM>::new();
    let _ = write!(text, "{why}");
    let _ = errors.write_all(what);
    let _ = errors.write_all(b": ");
    let _ = errors.write_all(without_number(text.as_str()).as_bytes());
    let _ = errors.write_all(b"\n");
}

// The same of a write; but where nobody reads the output any more, there is nothing to say.
pub fn fail_to_write<W: Write>(errors: &mut W, what: &[u8], why: io::Error) {
    if why.kind() != ErrorKind::BrokenPipe {
        fail(errors, what, why);
    }
}
