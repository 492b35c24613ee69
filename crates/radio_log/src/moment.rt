//! Moments in UTC.
ghost use Rattle.std.specs.Prelude.{◌≡◌, ◌++◌, min, OnOk};
ghost use Rattle.radio_log.specs.Moments.{IsSecond, day_text, moment_text, offset_text, time_text};
ghost use Rattle.httpdate.specs.Text.{two_digits, four_digits};

use crate::OutOfMemory;
use crate::calendar::date_of;

/// The last second of the year 9999, counted from the beginning of 1970.
pub const LAST_SECOND: u64 = 253_402_300_799;

/// A second of UTC, as the calendar and the clock show it.
#[derive(Clone, Copy)]
pub struct Moment {
    /// From 1970 to 9999.
    pub year: u16,
    /// From 1 to 12.
    pub month: u8,
    /// From 1 on.
    pub day: u8,
    /// From 0 to 23.
    pub hour: u8,
    /// From 0 to 59.
    pub minute: u8,
    /// From 0 to 59.
    pub second: u8,
}

impl Moment {
    /// The moment so many seconds after the beginning of 1970, leap seconds not counted; [`LAST_SECOND`] where it would
    /// lie beyond the year 9999.
    // rule: Line of the log
    pub fn at(seconds: u64) -> Moment
        ensures { IsSecond (min seconds LAST_SECOND) result }
    {
        let seconds = seconds.min(LAST_SECOND);
        let (year, month, day) = date_of((seconds / 86_400) as u32);
        let clock = seconds % 86_400;
        Moment {
            year,
            month,
            day,
            hour: (clock / 3600) as u8,
            minute: (clock % 3600 / 60) as u8,
            second: (clock % 60) as u8,
        }
    }

    /// Adds its text, as `2026-11-25T08:43:49Z`.
    #[tactic(auto, unfolding(crate::specs::Moments::moment_text))]
    pub(crate) fn push_to(&self, text: &mut Vec<u8>) -> Result<(), OutOfMemory>
        ensures { OnOk result (text.new.items ≡ text.old.items ++ moment_text self.now) }
    {
        text.extend_from_slice(&self.day_text())?;
        text.extend_from_slice(b"T")?;
        text.extend_from_slice(&self.time_text())?;
        text.extend_from_slice(b"Z")
    }

    /// Returns its text with an offset, as `2026-11-25T08:43:49+0000` (ISO 8601, section 5.4.2).
    #[tactic(auto, unfolding(crate::specs::Moments::offset_text, crate::specs::Moments::day_text, crate::specs::Moments::time_text))]
    pub fn offset_text(&self) -> [u8; 24]
        ensures { result ≡ offset_text self.now }
    {
        let [y1, y2, y3, y4, y_end, o1, o2, o_end, d1, d2] = self.day_text();
        let [h1, h2, h_end, m1, m2, m_end, s1, s2] = self.time_text();
        [
            y1, y2, y3, y4, y_end, o1, o2, o_end, d1, d2, b'T', h1, h2, h_end, m1, m2, m_end, s1,
            s2, b'+', b'0', b'0', b'0', b'0',
        ]
    }

    /// The day, as `2026-11-25`.
    #[tactic(auto, unfolding(crate::specs::Moments::day_text))]
    fn day_text(&self) -> [u8; 10]
        ensures { result ≡ day_text self.now }
    {
        let [y1, y2, y3, y4] = four_digits(self.year);
        let [m1, m2] = two_digits(self.month);
        let [d1, d2] = two_digits(self.day);
        [y1, y2, y3, y4, b'-', m1, m2, b'-', d1, d2]
    }

    /// The time, as `08:43:49`.
    #[tactic(auto, unfolding(crate::specs::Moments::time_text))]
    fn time_text(&self) -> [u8; 8]
        ensures { result ≡ time_text self.now }
    {
        let [h1, h2] = two_digits(self.hour);
        let [m1, m2] = two_digits(self.minute);
        let [s1, s2] = two_digits(self.second);
        [h1, h2, b':', m1, m2, b':', s1, s2]
    }
}

/// A number below 100 in two digits.
fn two_digits(number: u8) -> [u8; 2]
    ensures { result ≡ two_digits number }
{
    [b'0' + number / 10, b'0' + number % 10]
}

/// A number below 10000 in four digits.
fn four_digits(number: u16) -> [u8; 4]
    ensures { result ≡ four_digits number }
{
    let (front, back) = (number / 100, (number % 100) as u8);
    [
        b'0' + (front / 10) as u8,
        b'0' + (front % 10) as u8,
        b'0' + back / 10,
        b'0' + back % 10,
    ]
}
