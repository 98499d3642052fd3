// page [FILE]: reads an event file, standard input where none is named, prints the records that are refused, and then
// the page (docs/MANUAL.md). It reads, calls and writes; what it prints is made by `progress` and the libraries.
#![tactic(auto)]

mod input;
mod progress;

ghost use Rattle.std.specs.Prelude.{true, false, ◌≡◌, ◌≤◌, ◌<◌, ◌^◌, take, IfOk};
ghost use Rattle.std.specs.ControlFlow.{ForBreak, ForContinue};
ghost use Rattle.streams.specs.Blocks.{goes_on};
ghost use Rattle.page.specs.Progress.{after_block};

use input::Input;
use progress::{LINES, Progress, Taken};
use std::io;
use std::io::{Read, Write};
use std::ops::ControlFlow;
use streams::BLOCK;

// More records than any input has: nothing else says that the input ends.
const RECORDS: u64 = 4_503_599_627_370_496;

// What the last block of input left, and how many bytes it has: the line of the end says what was left over of them.
#[derive(Clone, Copy)]
struct Last {
    progress: Progress,
    n: usize,
}

// What ends the program before the page is printed.
#[derive(Clone, Copy)]
enum Failure {
    Read(io::Error),
    Write(io::Error),
}

// One block of input and its refused lines. The next one is to be read exactly where this one was read whole and its
// lines are written.
#[tactic(auto, unfolding(streams::specs::Blocks::goes_on))]
fn advance<R: Read, W: Write>(
    p: Progress,
    input: &mut R,
    block: &mut [u8; BLOCK],
    lines: &mut [u8; LINES],
    output: &mut W,
) -> Result<ControlFlow<Last, Progress>, Failure>
    requires { p.next < 2 ^ 60 }
    ensures next { IfOk result (λ turn. ForContinue turn (λ next. next ≡ after_block p block.new)) }
    ensures last { IfOk result (λ turn. ForBreak turn (λ last.
        (last.progress ≡ after_block p (take last.n block.new)) × (goes_on last.n true ≡ false))) }
{
    let n = streams::fill(input, block)
        .unless_failed()
        .map_err(Failure::Read)?;
    let Taken { progress, len } = p.take(&block[..n], lines);
    output.write_all(&lines[..len]).map_err(Failure::Write)?;
    if streams::goes_on(n, true) {
        Ok(ControlFlow::Continue(progress))
    } else {
        Ok(ControlFlow::Break(Last { progress, n }))
    }
}

// Block after block, each from the records so far, up to the last one: that one says so, and nothing is counted but the
// records.
#[tactic(auto, unfolding(crate::specs::Progress::nothing_read))]
fn read_all<R: Read, W: Write>(input: &mut R, output: &mut W) -> Result<Last, Failure>
    ensures { IfOk result (λ last. goes_on last.n true ≡ true → 2 ^ 52 ≤ last.progress.next) }
{
    let mut block = [0; BLOCK];
    let mut lines = [0; LINES];
    let mut progress = Progress::start();
    loop {
        match advance(progress, input, &mut block, &mut lines, output)? {
            ControlFlow::Continue(next) => progress = next,
            ControlFlow::Break(last) => return Ok(last),
        }
        if RECORDS <= progress.next {
            return Ok(Last { progress, n: BLOCK });
        }
    }
}

// The end, behind the last block: the line of what was left over, and the page.
fn finish<W: Write>(last: Last, output: &mut W) -> io::Result<()> {
    output.write_all(last.progress.end_line(last.n).as_bytes())?;
    output.write_all(last.progress.page_text().as_bytes())
}

// The blocks, and behind the last one the page.
fn print<R: Read, W: Write>(input: &mut R, output: &mut W) -> Result<(), Failure> {
    let last = read_all(input, output)?;
    finish(last, output).map_err(Failure::Write)
}

// The same; where it fails standard error says why.
fn run<R: Read, W: Write, E: Write>(input: &mut R, output: &mut W, errors: &mut E) {
    match print(input, output) {
        Ok(()) => {}
        Err(Failure::Read(why)) => streams::fail(errors, b"page: cannot read", why),
        Err(Failure::Write(why)) => streams::fail_to_write(errors, b"page: cannot write", why),
    }
}

fn main(rt: HostRuntime) {
    let mut output = rt.stdout();
    let mut errors = rt.stderr();
    match input::open(&rt, &mut errors) {
        Some(Input::Standard) => run(&mut rt.stdin(), &mut output, &mut errors),
        Some(Input::Named(mut file)) => run(&mut file, &mut output, &mut errors),
        None => {}
    }
}
