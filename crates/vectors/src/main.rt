// Reads the file of vectors from standard input, runs the product over each vector, and compares byte for byte. Prints
// a line for each group: its name, and how many of its vectors agree.
#![tactic(auto)]

mod blocks;
mod compare;
mod input;
mod pages;
mod play;
mod reasons;
mod vector;

use input::Unread;
use std::fmt::Display;
use std::io::{Read, Write};
use vector::Kind;

// More groups than any run takes: nothing else says that the input ends.
const GROUPS: u64 = 1_099_511_627_776;

// The first byte of a group, and the last of the file.
const GROUP: u8 = b'G';

const END: u8 = b'E';

// A line of a group, which begins with its name.
fn say(output: &mut impl Write, name: &[u8], what: impl Display + Drop) {
    let _ = output.write_all(name);
    let _ = writeln!(output, "{what}");
}

// The vectors of a group: how many agree.
fn vectors(
    source: &mut impl Read,
    output: &mut impl Write,
    name: &[u8],
    count: usize,
) -> Result<usize, Unread> {
    let kind = Kind::from(name);
    let mut agreed = 0;
    for i in 0..count {
        match vector::next(source, kind) {
            Ok(true) => agreed += 1,
            Ok(false) => say(output, name, format_args!(": vector {i} differs")),
            Err(unread) => {
                say(output, name, format_args!(": vector {i} cannot be read"));
                return Err(unread);
            }
        }
    }
    Ok(agreed)
}

// A group, after its first byte.
fn group(source: &mut impl Read, output: &mut impl Write) -> Result<(), Unread> {
    let mut letters = [[0]; 255];
    let name = input::list::<1, _>(source, &mut letters)?.as_flattened();
    let count = input::number::<4>(source)?;
    let agreed = vectors(source, output, name, count)?;
    say(output, name, format_args!(" {agreed}"));
    Ok(())
}

// The end, after its byte: nothing follows.
fn end(source: &mut impl Read) -> Result<(), Unread> {
    match input::bytes::<1>(source) {
        Ok(_) => Err(Unread),
        Err(_) => Ok(()),
    }
}

// The groups one after the other, and the end.
fn groups(source: &mut impl Read, output: &mut impl Write) -> Result<(), Unread> {
    for _ in 0..GROUPS {
        match input::bytes::<1>(source)? {
            [GROUP] => group(source, output)?,
            [END] => return end(source),
            _ => return Err(Unread),
        }
    }
    Err(Unread)
}

fn main(rt: HostRuntime) {
    let mut source = rt.stdin();
    let mut output = rt.stdout();
    if let Err(unread) = groups(&mut source, &mut output) {
        let _ = writeln!(output, "{unread}");
    }
}
