// What the programs share of their input, output and arguments: a buffer that is read until it is full, how many words
// a program was started with, and what it says on standard error.
#![tactic(auto)]

mod failures;

ghost use Rattle.std.specs.Prelude.{◌≡◌, ◌≤◌, ◌<◌, IsNone, IsSome, Some, IfOk, IfErr, leb, length, take};
ghost use Rattle.std.specs.Io.KnownBytes.{Consumes, IsAtEnd};
ghost use Rattle.streams.specs.Blocks.{goes_on};

pub use failures::{fail, fail_to_write};
use std::env::{Env, FillError};
use std::io;
use std::io::Read;

// The bytes of a block, for what is read block by block.
pub const BLOCK: usize = 65_536;

// What was read into a buffer: so many bytes, fewer than it holds at the input's end alone, or until a read failed; and
// why that read failed. It is no Result, since what was read before a failure is promised too.
#[derive(Clone, Copy)]
pub struct Filled {
    pub n: usize,
    pub failed: Option<io::Error>,
}

impl Filled {
    // So many bytes, for one to whom they are worth nothing where a read failed.
    pub fn unless_failed(self) -> io::Result<usize>
        ensures ok { IfOk result (λ n. (n ≡ self.n) × IsNone self.failed) }
        ensures err { IfErr result (λ why. self.failed ≡ Some why) }
    {
        match self.failed {
            Some(why) => Err(why),
            None => Ok(self.n),
        }
    }
}

// Reads until the buffer is full, the input ends or a read fails. A buffer that is full is all that was asked for. The
// loop is no `for`: a turn goes on by as many bytes as a read gives.
pub fn fill<R: Read>(input: &mut R, s: &mut [u8]) -> Filled
    ensures within { result.n ≤ length s.old }
    ensures failed { IsSome result.failed → result.n < length s.old }
    ensures bytes { Consumes (R.remaining input.old) (R.remaining input.new) (take result.n s.new) }
    ensures end { IsNone result.failed → result.n < length s.old → IsAtEnd (R.remaining input.new) }
{
    let mut n = 0;
    while n < s.len() {
        match input.read(&mut s[n..]) {
            Ok(0) => return Filled { n, failed: None },
            Ok(more) => n += more,
            Err(why) => {
                return Filled {
                    n,
                    failed: Some(why),
                };
            }
        }
    }
    Filled { n, failed: None }
}

// Whether the next block is to be read, after one of n bytes.
#[tactic(auto, unfolding(crate::specs::Blocks::goes_on))]
pub fn goes_on(n: usize, wanted: bool) -> bool
    ensures { result ≡ goes_on n wanted }
{
    n == BLOCK && wanted
}

// Whether a program was started without an argument, by how many words it was started with, its own name among them.
pub fn alone(words: usize) -> bool
    ensures { result ≡ leb words 1 }
{
    words <= 1
}

// How many words a program was started with, its own name among them. It asks for no byte of them.
pub fn words(program: &impl Env) -> usize {
    (0..usize::MAX)
        .find(|i| matches!(program.arg(*i, &mut []), Err(FillError::NotPresent)))
        .unwrap_or(usize::MAX)
}
