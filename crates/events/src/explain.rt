// Why a completion of an event file does not load a latency stamp (document 02, Ticket 5). The file is read in parts,
// up to the record that is asked about.
ghost use Rattle.std.specs.Prelude.{◌≡◌, Some, length};
ghost use Rattle.events.specs.Explain.{record_said, at_end, number_said, said_line, question_of, after_part, part_said};
ghost use Rattle.events.specs.Explain.{says, says_said, says_number, says_numbers};

use crate::files;
use monitor::{Monitor, Reason, Refusal};
use records::RECORD;
use text::Line;

// The bytes of a record's number.
const NUMBER: usize = 4;

// What is said of a record: the lowest reason that applies, if any does, or why the question is turned away.
pub type Said = Result<Option<Reason>, Refusal>;

// A record that is asked about: the monitor that the records so far have left, and how many are still to come before
// it.
#[derive(Clone, Copy)]
pub struct Question {
    pub monitor: Monitor,
    pub before: u32,
}

// What a part of the input leaves of a question, and what is said; nothing, where the record has not been reached. Both,
// since what is left is promised either way.
#[derive(Clone, Copy)]
pub struct Explanation {
    pub next: Question,
    pub said: Option<Said>,
}

// What is said of a number, before the file.
fn number_said(n: usize) -> Option<Said>
    ensures { says result ≡ number_said n }
{
    if n < NUMBER {
        Some(Err(Refusal::NotACompletion))
    } else {
        None
    }
}

// What is said of a record, by the monitor before it.
#[tactic(auto, unfolding(crate::specs::Explain::record_said))]
fn record_said(m: Monitor, r: &[u8]) -> Said
    ensures { says_said result ≡ record_said m r.now }
{
    let c = records::completion(r).ok_or(Refusal::NotACompletion)?;
    Ok(m.reason(c))
}

impl Question {
    // The question of the record with this number, which has four bytes, lowest first.
    pub fn new(number: &[u8]) -> Explanation
        ensures next { result.next ≡ question_of number.now }
        ensures said { says result.said ≡ number_said (length number.now) }
    {
        let monitor = Monitor::new();
        let n = number.len();
        let before = endian::load(&number[..NUMBER.min(n)]) as u32;
        Explanation {
            next: Question { monitor, before },
            said: number_said(n),
        }
    }

    // The next part of the file: whole records, and in the last part what is left over. Once something is said the
    // question is answered, and there is nothing to go on with.
    pub fn read(self, s: &[u8]) -> Explanation
        ensures next { result.next ≡ after_part self s.now }
        ensures said { says result.said ≡ part_said self s.now }
    {
        let before = self.before as usize;
        let whole = s.len() / RECORD;
        let from = RECORD * before;
        let monitor = files::replay(self.monitor, &s[..from.min(s.len())]);
        if before < whole {
            Explanation {
                next: Question { monitor, before: 0 },
                said: Some(record_said(monitor, &s[from..from + RECORD])),
            }
        } else {
            let before = (before - whole) as u32;
            Explanation {
                next: Question { monitor, before },
                said: None,
            }
        }
    }
}

// The number of the reason, 0 where there is none, or that of the refusal.
pub fn numbered(said: Said) -> Result<u8, u8>
    ensures { says_number result ≡ says_said said }
{
    match said {
        Ok(reason) => Ok(reason.map_or(0, u8::from)),
        Err(refusal) => Err(u8::from(refusal)),
    }
}

// The line of what is said, by its number, since any number has a line. A record that was not reached by the end of the
// input is not there.
pub fn explained_line(said: Option<Result<u8, u8>>) -> Line
    ensures { result.bytes ≡ said_line (at_end (says_numbers said)) }
{
    match said.unwrap_or(Err(u8::from(Refusal::NotACompletion))) {
        Ok(reason) => text::number_line(u64::from(reason)),
        Err(refusal) => text::refused_line(u64::from(refusal)),
    }
}
