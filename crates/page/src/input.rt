// The input: a file that is named, or standard input.
ghost use Rattle.std.specs.Prelude.{◌≡◌, ◌≤◌, ◌<◌, Some, None};

use std::env::Env;
use std::fs::Files;
use std::io::{ErrorKind, Write};
use std::{fs, io, str};

// What is to be read.
#[derive(Drop)]
pub enum Input<F> {
    Standard,
    Named(F),
}

fn usage<E: Write>(errors: &mut E) {
    let _ = errors.write_all(b"usage: page [FILE]\n");
}

// The file of this name; a name that is no text is none that std opens.
fn open_file<R: Files>(rt: &R, name: &[u8]) -> io::Result<R::File> {
    match str::from_utf8(name) {
        Ok(text) => fs::open(rt, text),
        Err(_) => Err(io::Error::from(ErrorKind::InvalidFilename)),
    }
}

// The file that the first argument names. Where there is none, standard error says why.
fn open_named<R: Env + Files, E: Write>(rt: &R, errors: &mut E) -> Option<Input<R::File>> {
    // As long as the path of any file.
    let mut name = [0; 4096];
    let n = rt.arg(1, &mut name).unwrap_or(0);
    match open_file(rt, &name[..n]) {
        Ok(file) => Some(Input::Named(file)),
        Err(why) => {
            streams::fail(errors, &name[..n], why);
            usage(errors);
            None
        }
    }
}

// What is to be read, by how many words the program was started with, its name among them: without an argument standard
// input. Where nothing is, standard error says why.
fn open_by<R: Env + Files, E: Write>(rt: &R, words: usize, errors: &mut E) -> Option<Input<R::File>>
    ensures standard { words ≤ 1 → result ≡ Some Input.Standard }
    ensures none { 2 < words → result ≡ None }
{
    match words {
        0..=1 => Some(Input::Standard),
        2 => open_named(rt, errors),
        _ => {
            usage(errors);
            None
        }
    }
}

// The same, by the words of this run.
pub fn open<R: Env + Files, E: Write>(rt: &R, errors: &mut E) -> Option<Input<R::File>> {
    open_by(rt, streams::words(rt), errors)
}
