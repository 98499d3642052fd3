// The parts of a record that a loop over many records keeps apart.

// The clock and the timer.
#[derive(Clone, Copy, Debug, PartialEq, Eq)]
pub struct Time {
    pub clock: u64,
    pub host_set: bool,
    pub timer: u16,
    pub partial: u32,
}

// A counter's latency stamp with its measured latency, its stamp units, and the time in the active window at its load.
#[derive(Clone, Copy, Debug, PartialEq, Eq)]
pub struct Stamp {
    pub stamp: u64,
    pub latency: u16,
    pub units: bool,
    pub loaded: u64,
}

// The active window. Its counts stand in one array, as `tally` says.
#[derive(Clone, Copy)]
pub struct Active {
    pub counts: [u64; 28],
    // For each place, the latency from which on a completion may do more than count there.
    pub bounds: [u32; 28],
    // For each counter, as in the record: four arrays and none of `Stamp`, so that each is moved over whole.
    pub stamps: [u64; 12],
    pub latencies: [u16; 12],
    pub units: [bool; 12],
    pub loaded: [u64; 12],
}

// What a completion leaves of its counter's stamp, and of the bound of its place.
#[derive(Clone, Copy, Debug, PartialEq, Eq)]
pub struct Stamped {
    pub stamp: Stamp,
    pub bound: u32,
}
