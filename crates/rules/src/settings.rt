// The 4,096 bytes of settings (source document 001, 4.15.11.1): which are accepted, and what they say.
ghost use Rattle.std.specs.Prelude.{◌≡◌, cond, ◌<◌, eqb, length};
ghost use Rattle.logpage.specs.Fields.{no_debug_log};
ghost use Rattle.rules.specs.Answers.{done, says_answer, unless_refused};
ghost use Rattle.rules.specs.Settings.{decoded, encoded};
ghost use Rattle.rules.specs.Refusals.{settings_refusal, field_refusal, either_above, unordered};

use logpage::{DebugLog, Refusal, Settings};

pub const LENGTH: usize = 4096;

// The places of the two flags.
pub const DISCARD: usize = 11;

const ENABLE: usize = 12;

// The first byte that is reserved.
const RESERVED: usize = 13;

// The bits of the twelve counters.
const COUNTER_MASK: u16 = 4095;

// The settings that accepted bytes put in force.
pub fn decode(s: &[u8]) -> Settings
    requires { 12 < length s.now }
    ensures { result ≡ decoded s.now }
{
    Settings {
        timer_threshold: endian::word(s[0], s[1]),
        mode: endian::word(s[6], s[7]),
        trigger: endian::word(s[9], s[10]),
        thresholds: [s[2], s[3], s[4], s[5]],
        minimum_window: s[8],
        enabled: s[ENABLE] == 1,
    }
}

// The settings in force as bytes; the discard byte is zero.
pub fn encode(s: Settings) -> [u8; 4096]
    ensures { result ≡ encoded s }
{
    let t = s.thresholds;
    let widths = [2, 1, 1, 1, 1, 2, 1, 2, 1, 1];
    let values = [
        s.timer_threshold as u64,
        t[0] as u64,
        t[1] as u64,
        t[2] as u64,
        t[3] as u64,
        s.mode as u64,
        s.minimum_window as u64,
        s.trigger as u64,
        0,
        s.enabled as u64,
    ];
    let mut bytes = [0; 4096];
    endian::put_fields(&mut bytes, &widths, &values);
    bytes
}

// Whether one of two numbers is above a limit.
fn either_above(top: u16, a: u16, b: u16) -> bool
    ensures { result ≡ either_above top a b }
{
    top < a || top < b
}

// Whether a threshold is above the next.
pub fn unordered(t: [u8; 4]) -> bool
    ensures { result ≡ unordered t }
{
    t[1] < t[0] || t[2] < t[1] || t[3] < t[2]
}

// Whether the fields are accepted, and the first rule that turns them away if not.
fn check_fields(discard: u8, enable: u8, s: Settings) -> Result<(), Refusal>
    ensures { says_answer result ≡ unless_refused (field_refusal discard enable s) done }
{
    let t = s.thresholds;
    if either_above(1, u16::from(discard), u16::from(enable)) {
        Err(Refusal::FlagAboveOne)
    } else if s.timer_threshold == 0 {
        Err(Refusal::NoTimerThreshold)
    } else if unordered(t) {
        Err(Refusal::ThresholdOrder)
    } else if either_above(COUNTER_MASK, s.mode, s.trigger) {
        Err(Refusal::ReservedBit)
    } else {
        Ok(())
    }
}

// Whether settings are accepted, and the first rule that turns them away if not.
pub fn check(s: &[u8]) -> Result<(), Refusal>
    ensures { says_answer result ≡ unless_refused (settings_refusal s.now) done }
{
    if s.len() != LENGTH {
        Err(Refusal::SettingsLength)
    } else if endian::any_set(&s[RESERVED..]) {
        Err(Refusal::ReservedByte)
    } else {
        check_fields(s[DISCARD], s[ENABLE], decode(s))
    }
}

// The debug log after settings: none where they discard it.
pub fn after_discard(log: DebugLog, discard: u8) -> DebugLog
    ensures { result ≡ cond (eqb discard 1) no_debug_log log }
{
    if discard == 1 { DebugLog::none() } else { log }
}
