//! The peer's settings (RFC 9113, section 6.5).
ghost use Rattle.std.specs.Prelude.{◌≡◌, None, not, if◌then◌else◌};
ghost use Rattle.h2_history.specs.Settings.{with_setting, breaks_windows, settled};

use crate::conn::Conn;
use h2_history::Verdict;
use h2_layouts::Setting;
use h2_layouts::code::FLOW_CONTROL_ERROR;
use h2_layouts::setting::{HEADER_TABLE_SIZE, INITIAL_WINDOW_SIZE, MAX_CONCURRENT_STREAMS};

impl Conn {
    /// Takes a setting. It says false, and changes nothing, where some window would be too great.
    fn take_setting(&mut self, setting: Setting) -> bool
        requires going { self.old.broken ≡ None }
        ensures answer { result ≡ not (breaks_windows setting self.old) }
        ensures taken { self.new ≡ (if breaks_windows setting self.old then self.old else with_setting setting self.old) }
        ensures goes { self.new.broken ≡ None }
    {
        match setting.id {
            HEADER_TABLE_SIZE => self.encoder.limit(setting.value),
            INITIAL_WINDOW_SIZE => return self.ledger.initial(setting.value).is_ok(),
            MAX_CONCURRENT_STREAMS => self.most = setting.value,
            _ => {}
        }
        true
    }

    /// Takes settings in order, up to one that breaks a rule.
    pub(crate) fn settle(&mut self, settings: &[Setting]) -> Verdict
        requires going { self.old.broken ≡ None }
        ensures { record { verdict = result; left = self.new } ≡ settled settings.now self.old }
    {
        let mut rest = settings;
        while let [setting, others @ ..] = rest {
            if !self.take_setting(*setting) {
                return Verdict::ConnectionError {
                    code: FLOW_CONTROL_ERROR,
                };
            }
            rest = others;
        }
        Verdict::Accepted
    }
}
