// A completed command: the counter that it counts for, whether it is below threshold A, and its latency in ms.
ghost use Rattle.std.specs.Prelude.{◌≡◌, ◌<◌, ◌∷◌, [], IfSome};
ghost use Rattle.rules.specs.Commands.{kind_of, says_kind, has_kind, reaches, bucket_of, counter_of, counter_number};
ghost use Rattle.rules.specs.Commands.{is_below_a, below_a_of, milliseconds_of, highest_reached, latency_above};
ghost use Rattle.rules.specs.Counting.{counted_below_a};

use crate::counting;
use crate::kinds::Kind;
use logpage::Settings;

// What a completion brings.
#[repr(C)]
#[derive(Clone, Copy)]
pub struct Command {
    // In microseconds.
    pub latency: u32,
    pub opcode: u8,
    // The deallocate attribute of Dataset Management, or the deallocate bit of Write Zeroes.
    pub deallocate: bool,
}

// Whether a latency reaches a threshold, whose byte v means 5 x (v + 1) ms.
fn reaches(latency: u32, threshold: u8) -> bool
    ensures { result ≡ reaches latency threshold }
{
    5000 * (u32::from(threshold) + 1) <= latency
}

// The number of the highest bucket whose threshold is reached, by whether A, B, C and D are. These are four parameters
// and no array: the compiler then makes a choice without branches of the search. A loop that leaves by `break`, and no
// `find`: docs/DECISIONS.md, 'Forms that document 01 names'.
fn highest(a: bool, b: bool, c: bool, d: bool) -> Option<u16>
    ensures { result ≡ highest_reached (a ∷ b ∷ c ∷ d ∷ []) 4 }
{
    let reached = [a, b, c, d];
    let mut n: u16 = 4;
    loop {
        if n == 0 {
            break None;
        }
        n -= 1;
        if reached[usize::from(n)] {
            break Some(n);
        }
    }
}

// The lowest latency, in microseconds, of more ms than these.
pub fn latency_above(ms: u16) -> u32
    ensures { result ≡ latency_above ms }
{
    1000 * (u32::from(ms) + 1)
}

impl Command {
    // The kind of the command. Dataset Management and Write Zeroes deallocate with the attribute or bit alone.
    #[tactic(auto, unfolding(crate::specs::Commands::kind_of))]
    pub fn kind(self) -> Option<Kind>
        ensures { says_kind result ≡ kind_of self }
    {
        let opcode = self.opcode;
        match opcode {
            2 => Some(Kind::Read),
            1 => Some(Kind::Write),
            8 | 9 if self.deallocate => Some(Kind::Deallocate),
            _ => None,
        }
    }

    // Whether the command is of a kind that has counters.
    pub fn has_kind(self) -> bool
        ensures { result ≡ has_kind self }
    {
        self.kind().is_some()
    }

    // The number of the latency's bucket. All four thresholds are compared before the search.
    pub fn bucket(self, t: [u8; 4]) -> Option<u16>
        ensures { result ≡ bucket_of t self }
    {
        let us = self.latency;
        let a = reaches(us, t[0]);
        let b = reaches(us, t[1]);
        let c = reaches(us, t[2]);
        let d = reaches(us, t[3]);
        highest(a, b, c, d)
    }

    // The latency in ms, as many as two bytes hold.
    #[tactic(auto, unfolding(crate::specs::Commands::milliseconds_of))]
    pub fn milliseconds(self) -> u16
        ensures { result ≡ milliseconds_of self }
    {
        let ms = self.latency / 1000;
        u16::try_from(ms).unwrap_or(u16::MAX)
    }

    // The counter that the completion counts for; as a number, where 12 stands for none, it says as much (`is-counter` and
    // `no-counter` of proofs/Counters.antt). Most completions are below threshold A, so that is asked first.
    pub fn counter(self, s: Settings) -> Option<u16>
        ensures counter { result ≡ counter_of s self }
        ensures number { counter_number result ≡ counter_number (counter_of s self) }
        ensures below { IfSome result (λ n. n < 12) }
    {
        let thresholds = s.thresholds;
        if !s.enabled {
            return None;
        }
        if !reaches(self.latency, thresholds[0]) {
            return None;
        }
        let bucket = self.bucket(thresholds)?;
        let kind = self.kind()?;
        Some(3 * bucket + u16::from(kind))
    }

    // Whether the completion is below threshold A and enabled.
    #[tactic(auto, unfolding(crate::specs::Commands::is_below_a))]
    pub fn is_below_a(self, s: Settings) -> bool
        ensures { result ≡ is_below_a s self }
    {
        let thresholds = s.thresholds;
        !reaches(self.latency, thresholds[0]) && s.enabled
    }

    // The counts below threshold A, by kind, after the completion.
    pub fn counts_below_a(self, s: Settings, counts: [u32; 3]) -> [u32; 3]
        ensures { result ≡ counted_below_a (below_a_of s self) counts }
    {
        match self.kind() {
            Some(kind) if self.is_below_a(s) => counting::counted_at(counts, u16::from(kind)),
            _ => counts,
        }
    }
}
