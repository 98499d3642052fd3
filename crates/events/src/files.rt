// The whole records of a slice, one after the other.
ghost use Rattle.std.specs.Prelude.{◌≡◌};
ghost use Rattle.rules.specs.Answers.{says_answer, unless_refused, done};
ghost use Rattle.monitor.specs.Calls.{play_from};
ghost use Rattle.events.specs.Files.{calls_before, history_of, first_refused, accepted_records, says_refused, end_refusal};

use crate::stretch;
use monitor::{Monitor, Refusal};

// A record that is refused: its number from 0, and why.
#[derive(Clone, Copy, Debug, PartialEq, Eq)]
pub struct RefusedRecord {
    pub index: usize,
    pub refusal: Refusal,
}

// What a run leaves: the monitor, and the refused record that it stopped at.
#[derive(Clone, Copy)]
pub struct Stop {
    pub monitor: Monitor,
    pub refused: Option<RefusedRecord>,
}

// The whole records of a slice, up to the first that is refused: one by its call, and the stretch that follows it. The
// loop is no `for`: a turn goes on by as many records as the stretch has.
pub fn run(m: Monitor, s: &[u8]) -> Stop
    ensures monitor { result.monitor ≡ play_from m (calls_before s.now (accepted_records s.now)) }
    ensures refused { says_refused result.refused ≡ first_refused s.now }
{
    let mut monitor = m;
    let mut i = 0;
    while i < s.len() / records::RECORD {
        let from = records::RECORD * i;
        let to = from + records::RECORD;
        let o = records::apply(monitor, &s[from..to]);
        if let Err(refusal) = o.answer {
            let refused = RefusedRecord { index: i, refusal };
            return Stop {
                monitor: o.next,
                refused: Some(refused),
            };
        }
        let quick = stretch::stretch(o.next, &s[to..]);
        monitor = quick.monitor;
        i = i + 1 + quick.records;
    }
    Stop {
        monitor,
        refused: None,
    }
}

// All whole records of a slice; those that are refused are passed over. A turn goes on behind the record that a run
// stopped at, by its place, as where lines are told (`blocks`).
pub fn replay(m: Monitor, s: &[u8]) -> Monitor
    ensures { result ≡ play_from m (history_of s.now) }
{
    let mut monitor = m;
    let mut i = 0;
    loop {
        let from = records::RECORD * i;
        let stop = run(monitor, &s[from..]);
        monitor = stop.monitor;
        let Some(refused) = stop.refused else {
            return monitor;
        };
        i += refused.index + 1;
    }
}

// The answer to what is left over at the end of a file of so many bytes.
pub fn left_over(n: usize) -> Result<(), Refusal>
    ensures { says_answer result ≡ unless_refused (end_refusal n) done }
{
    if n % records::RECORD == 0 {
        Ok(())
    } else {
        Err(Refusal::PartOfRecord)
    }
}
