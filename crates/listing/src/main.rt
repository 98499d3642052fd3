// listing < PAGE: prints the counters of a page, or why it is turned away (document 02, Ticket 1). It reads, calls and
// writes; what it prints is made by `text`.
#![tactic(auto)]

ghost use Rattle.std.specs.Prelude.{◌≡◌, length};
ghost use Rattle.text.specs.Claims.{enough};

use std::io::{Read, Write};

// No more is needed to list an input, however long it is: `text` claims it of so many bytes (`FirstBytesSuffice`).
const ROOM: usize = 513;

// A buffer for the input: its contract holds the room to what is claimed.
fn buffer() -> [u8; ROOM]
    ensures { enough ≡ length result }
{
    [0; ROOM]
}

// Prints the listing, or says on standard error that it could not.
fn print<W: Write, E: Write>(page: &[u8], output: &mut W, errors: &mut E) {
    let listing = text::page_listing(page);
    if let Err(why) = output.write_all(listing.as_str().as_bytes()) {
        streams::fail_to_write(errors, b"listing: cannot write", why);
    }
}

// Reads a page and prints its listing.
fn run<R: Read, W: Write, E: Write>(input: &mut R, output: &mut W, errors: &mut E) {
    let mut page = buffer();
    match streams::fill(input, &mut page).unless_failed() {
        Ok(n) => print(&page[..n], output, errors),
        Err(why) => streams::fail(errors, b"listing: cannot read", why),
    }
}

fn main(rt: HostRuntime) {
    if streams::alone(streams::words(&rt)) {
        run(&mut rt.stdin(), &mut rt.stdout(), &mut rt.stderr());
    } else {
        let _ = eprintln!(rt; "usage: listing < PAGE");
    }
}
