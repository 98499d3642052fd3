// The file of vectors, read from standard input part by part. reference/src/vectors.rs describes it.
ghost use Rattle.std.specs.Prelude.{◌≤◌};

use std::error::Error;
use std::fmt;
use std::io::Read;

// The bytes of the longest event file of a vector, and of any other list.
pub const LONGEST_FILE: usize = 131_072;

pub const LONGEST_LIST: usize = 65_536;

// The input ended before a part of the file did, or the part does not fit.
#[derive(Clone, Copy, Debug)]
pub struct Unread;

impl fmt::Display for Unread {
    fn fmt<W: fmt::Write>(&self, f: &mut fmt::Formatter<W>) -> fmt::Result {
        write!(f, "the file ended early, or is not one of vectors")
    }
}

impl Error for Unread {}

// What a call is expected to answer: bytes, or the number that it is refused by, as the file has it.
pub type Expected<const N: usize> = Result<[u8; N], u8>;

// Fills a buffer.
fn fill(source: &mut impl Read, s: &mut [u8]) -> Result<(), Unread> {
    if streams::fill(source, s).n == s.len() {
        Ok(())
    } else {
        Err(Unread)
    }
}

// The next bytes.
pub fn bytes<const N: usize>(source: &mut impl Read) -> Result<[u8; N], Unread> {
    let mut bytes = [0; N];
    fill(source, &mut bytes)?;
    Ok(bytes)
}

// A number of so many bytes.
pub fn number<const WIDTH: usize>(source: &mut impl Read) -> Result<usize, Unread>
    requires { WIDTH ≤ 8 }
{
    let mut bytes = [0; 8];
    fill(source, &mut bytes[..WIDTH])?;
    Ok(usize::from_le_bytes(bytes))
}

// A list, into the start of a buffer: a number of so many bytes, and then so many elements.
pub fn list<'a, const WIDTH: usize, const EACH: usize>(
    source: &mut impl Read,
    buffer: &'a mut [[u8; EACH]],
) -> Result<&'a [[u8; EACH]], Unread>
    requires { WIDTH ≤ 8 }
{
    let count = number::<WIDTH>(source)?;
    let list = buffer.get_mut(..count).ok_or(Unread)?;
    fill(source, list.as_flattened_mut())?;
    Ok(list)
}

// A refusal, and where it is 0 the bytes of the answer.
pub fn expected<const N: usize>(source: &mut impl Read) -> Result<Expected<N>, Unread> {
    match bytes::<1>(source)? {
        [0] => Ok(Ok(bytes(source)?)),
        [number] => Ok(Err(number)),
    }
}
