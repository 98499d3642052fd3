// The plain fields of log page C3h (source document 001, 4.8.9). Names of 001 are given where they differ.
ghost use Rattle.std.specs.Prelude.{◌≡◌};
ghost use Rattle.logpage.specs.Fields.{no_settings, no_debug_log};

use window::UNSET;

// The settings in force.
#[repr(C)]
#[derive(Clone, Copy)]
pub struct Settings {
    // Active Bucket Timer Threshold, in increments of five minutes.
    pub timer_threshold: u16,
    // Active Latency Configuration: bit n set for counter n in mode largest.
    pub mode: u16,
    // Debug Log Trigger Enable: bit n for counter n.
    pub trigger: u16,
    // Active Thresholds A to D: byte v means 5 x (v + 1) ms.
    pub thresholds: [u8; 4],
    // Active Latency Minimum Window, in units of 100 ms.
    pub minimum_window: u8,
    // Latency Monitor Feature Enable.
    pub enabled: bool,
}

impl Settings {
    // The settings of a new monitor.
    pub fn none() -> Self
        ensures { result ≡ no_settings }
    {
        Settings {
            timer_threshold: 0,
            mode: 0,
            trigger: 0,
            thresholds: [0; 4],
            minimum_window: 0,
            enabled: false,
        }
    }
}

// The debug log's own fields (document 01: debug record). None is held where the stamp is unset.
#[repr(C)]
#[derive(Clone, Copy)]
pub struct DebugLog {
    pub stamp: u64,
    pub latency: u16,
    // Debug Counter Trigger Source: the counter as one set bit.
    pub source: u16,
    pub units: bool,
}

impl DebugLog {
    // No debug log.
    pub fn none() -> Self
        ensures { result ≡ no_debug_log }
    {
        DebugLog {
            stamp: UNSET,
            latency: 0,
            source: 0,
            units: false,
        }
    }
}
