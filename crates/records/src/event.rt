// One record: the call that it stands for.
ghost use Rattle.std.specs.Prelude.{◌≡◌, not, ◌+◌, ◌≤◌, IfErr};
ghost use Rattle.std.specs.Result.{result_ok};
ghost use Rattle.endian.specs.Bytes.{any_set};
ghost use Rattle.records.specs.Records.{unnamed, part, record_kind, elapsed_of, command_of, call_of_kind, call_of, says_event};
ghost use Rattle.records.specs.Records.{command_of_call, completion_at};

use monitor::{Command, Refusal};

// The bytes of a record.
pub const RECORD: usize = 16;

// The kinds of records, as the file has them.
const SETTINGS: u8 = 1;

const COMPLETION: u8 = 2;

const ELAPSED: u8 = 3;

const CLOCK: u8 = 4;

const POWER_UP: u8 = 5;

// The call of a record, with what it brings.
#[derive(Clone, Copy)]
pub enum Event {
    // The settings bytes that are not reserved.
    Settings([u8; 13]),
    Completion(Command),
    // Elapsed time, in ms.
    Elapsed(u32),
    // The host's clock, in ms.
    Clock(u64),
    PowerUp,
}

// Whether the bytes from `from` up to `to`, and those from `rest` on, are all zero; at most eight each, so that each
// part is one number.
fn clear(r: &[u8; 16], from: usize, to: usize, rest: usize) -> bool
    requires { (from ≤ to) × (to ≤ 16) × (to ≤ from + 8) × (8 ≤ rest) × (rest ≤ 16) }
    ensures { result ≡ not (any_set (unnamed from to rest r.now)) }
{
    (endian::load(&r[from..to]) == 0) & (endian::load(&r[rest..]) == 0)
}

// The settings bytes of a record.
fn settings(r: &[u8; 16]) -> [u8; 13]
    ensures { result ≡ part 1 14 r.now }
{
    let mut s = [0; 13];
    endian::copy(&mut s, &r[1..14]);
    s
}

// The time or the latency in bytes 4 to 7.
fn time(r: &[u8; 16]) -> u32
    ensures { result ≡ elapsed_of r.now }
{
    endian::load(&r[4..8]) as u32
}

// What a completion's record brings, of any 16 bytes: that they are one is not asked.
pub fn command(r: &[u8; 16]) -> Command
    ensures { result ≡ command_of r.now }
{
    Command {
        opcode: r[1],
        deallocate: r[2] == 1,
        latency: time(r),
    }
}

// The command of 16 bytes that are a completion's record. Nearly all records are such, so this is asked first.
#[inline(always)]
#[tactic(auto, using(crate::proofs::Laws::not_two), unfolding(crate::specs::Records::call_of_kind, crate::specs::Records::completion_of))]
fn completed(r: &[u8; 16]) -> Option<Command>
    ensures { result ≡ command_of_call (call_of_kind (record_kind r.now) r.now) }
{
    let kind = r[0];
    match kind {
        COMPLETION if r[2] <= 1 && clear(r, 3, 4, 8) => Some(command(r)),
        _ => None,
    }
}

// The command of a completion's record.
#[inline(always)]
pub fn completion(r: &[u8]) -> Option<Command>
    ensures { result ≡ completion_at r.now }
{
    let Ok(r) = <&[u8; 16]>::try_from(r) else {
        return None;
    };
    completed(r)
}

impl Event {
    // The event of 16 bytes, by their kind; the bytes that a kind leaves unnamed are zero.
    #[tactic(auto, using(crate::proofs::Laws::of_command, crate::proofs::Laws::no_command), unfolding(crate::specs::Records::call_of_kind, crate::specs::Records::settings_bytes, crate::specs::Records::elapsed_of, crate::specs::Records::clock_of))]
    fn of(r: &[u8; 16]) -> Option<Event>
        ensures { says_event result ≡ call_of_kind (record_kind r.now) r.now }
    {
        if let Some(c) = completed(r) {
            return Some(Event::Completion(c));
        }
        let kind = r[0];
        match kind {
            SETTINGS if clear(r, 14, 16, 16) => Some(Event::Settings(settings(r))),
            ELAPSED if clear(r, 1, 4, 8) => Some(Event::Elapsed(time(r))),
            CLOCK if clear(r, 1, 4, 12) => Some(Event::Clock(endian::load(&r[4..12]))),
            POWER_UP if clear(r, 1, 8, 8) => Some(Event::PowerUp),
            _ => None,
        }
    }

    // The event of a record. What is not 16 bytes, or stands for no call, is none.
    pub fn read(r: &[u8]) -> Result<Event, Refusal>
        ensures event { says_event (result_ok result) ≡ call_of r.now }
        ensures refusal { IfErr result (λ e. e ≡ Refusal.UnknownRecord) }
    {
        let Ok(r) = <&[u8; 16]>::try_from(r) else {
            return Err(Refusal::UnknownRecord);
        };
        Event::of(r).ok_or(Refusal::UnknownRecord)
    }
}
