// The calls that only read the record: the log page, the settings given back, and the counts below threshold A.
ghost use Rattle.std.specs.Prelude.{◌≡◌, length};
ghost use Rattle.rules.specs.Answers.{says_answer};
ghost use Rattle.monitor.specs.Report.{after_page, page_answer, after_settings_back, settings_back_answer};
ghost use Rattle.monitor.specs.Report.{counts_below_a};

use crate::record::Monitor;
use crate::windows::WindowChoice;
use logpage::{LogPage, Refusal};
use rules::settings;

impl Monitor {
    // Log page C3h, into a buffer of 512 bytes.
    pub fn page(self, page: &mut [u8]) -> Result<(), Refusal>
        ensures bytes { page.new ≡ after_page self page.old }
        ensures answer { says_answer result ≡ page_answer (length page.old) }
    {
        let fields = LogPage {
            settings: self.settings,
            timer: self.timer,
            active_window: self.active_window,
            static_window: self.static_window,
            debug: self.debug,
        };
        fields.write(page)
    }

    // The settings in force, into a buffer of 4,096 bytes.
    pub fn settings_back(self, s: &mut [u8]) -> Result<(), Refusal>
        ensures bytes { s.new ≡ after_settings_back self s.old }
        ensures answer { says_answer result ≡ settings_back_answer (length s.old) }
    {
        if s.len() == settings::LENGTH {
            let bytes = settings::encode(self.settings);
            endian::copy(s, &bytes);
            Ok(())
        } else {
            Err(Refusal::SettingsBackLength)
        }
    }

    // For each kind by its number, the enabled completions below threshold A in a window; the page does not show them.
    pub fn below_a(self, window: WindowChoice) -> [u32; 3]
        ensures counts { result ≡ counts_below_a window self }
    {
        match window {
            WindowChoice::Active => self.active_below_a,
            WindowChoice::Static => self.static_below_a,
        }
    }
}
