// Why a completion would not load its counter's latency stamp (document 02, Ticket 5). The call only reads the record.
ghost use Rattle.std.specs.Prelude.{◌≡◌, ◌<◌};
ghost use Rattle.monitor.specs.Reasons.{reason_of, stamp_reason_of, says_reason};

use crate::record::Monitor;
use rules::commands::Command;
use rules::{counting, timer};
use window::UNSET;

#[derive(Clone, Copy, Debug, PartialEq, Eq)]
pub enum Reason {
    Disabled = 1,
    // The opcode or the attribute is not counted.
    OfNoKind = 2,
    BelowA = 3,
    // The stamp is set, in mode first.
    SetInFirst = 4,
    // The stamp is set, in mode largest, and the latency is not larger.
    NotLarger = 5,
    // The stamp is set, in mode largest, and the minimum window is not over.
    WithinMinimum = 6,
}

impl From<Reason> for u8 {
    ghost use Rattle.std.specs.Prelude.{◌≡◌};
    ghost use Rattle.monitor.specs.Reasons.{number_of};

    ghost from_gives = { λ reason number. number ≡ number_of reason };

    fn from(reason: Reason) -> u8 {
        reason as u8
    }
}

impl Monitor {
    // Why a completion of `ms` would not load counter n's stamp.
    fn stamp_reason(self, n: usize, ms: u16) -> Option<Reason>
        requires { n < 12 }
        ensures { says_reason result ≡ stamp_reason_of self ms n }
    {
        let stamps = self.active_window.stamps;
        let latencies = self.active_window.latencies;
        let loaded = self.loaded;
        let time = timer::in_window(self.timer, self.partial);
        if stamps[n] == UNSET {
            None
        } else if !counting::bit(self.settings.mode, n) {
            Some(Reason::SetInFirst)
        } else if !counting::larger(latencies[n], ms) {
            Some(Reason::NotLarger)
        } else if !counting::waited(loaded[n], time, self.settings.minimum_window) {
            Some(Reason::WithinMinimum)
        } else {
            None
        }
    }

    // The lowest reason why a completed command would not load a latency stamp; none where it would.
    pub fn reason(self, c: Command) -> Option<Reason>
        ensures { says_reason result ≡ reason_of self c }
    {
        if !self.settings.enabled {
            Some(Reason::Disabled)
        } else if !c.has_kind() {
            Some(Reason::OfNoKind)
        } else if let Some(counter) = c.counter(self.settings) {
            self.stamp_reason(usize::from(counter), c.milliseconds())
        } else {
            Some(Reason::BelowA)
        }
    }
}
