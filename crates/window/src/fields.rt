// The plain fields of a window.
ghost use Rattle.std.specs.Prelude.{◌≡◌};
ghost use Rattle.window.specs.Fields.{window_of, empty_window};

// A latency stamp that is not set: no Option, since record and page have it as this number.
pub const UNSET: u64 = 0xffff_ffff_ffff_ffff;

// What a window shows, for each of the twelve counters (document 01: pairs) by its number: the counter (count), the
// latency stamp, the measured latency in ms (shown latency), and the stamp units, set where the host had set the clock
// (clock mark). Four arrays, as C has them.
#[repr(C)]
#[derive(Clone, Copy)]
pub struct Window {
    pub counters: [u32; 12],
    pub stamps: [u64; 12],
    pub latencies: [u16; 12],
    pub units: [bool; 12],
}

impl Window {
    // The window of these arrays.
    pub fn of(
        counters: [u32; 12],
        stamps: [u64; 12],
        latencies: [u16; 12],
        units: [bool; 12],
    ) -> Self
        ensures { result ≡ window_of counters stamps latencies units }
    {
        Window {
            counters,
            stamps,
            latencies,
            units,
        }
    }

    // A window in which nothing was counted.
    #[tactic(auto, unfolding(crate::specs::Fields::empty_window))]
    pub fn empty() -> Self
        ensures { result ≡ empty_window }
    {
        Window {
            counters: [0; 12],
            stamps: [UNSET; 12],
            latencies: [0; 12],
            units: [false; 12],
        }
    }
}
