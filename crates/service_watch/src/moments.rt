//! Moments as texts.

ghost use Rattle.std.specs.Prelude.{◌≡◌, ◌/◌, ◌%◌, ◌<◌, ◌↔◌, IsSome, IfSome};
ghost use Rattle.httpdate.specs.Date.{date_text, unix_secs};
ghost use Rattle.httpdate.specs.declared.date.HttpDate.{HttpDate as Date};
ghost use Rattle.service_watch.specs.Moments.{month_digits, rfc3339_text};

use httpdate::HttpDate;

/// The text of a moment so many milliseconds after 1970 began in UTC, as RFC 3339 has it:
/// `2026-11-27T19:40:00.123Z`. None from the year 10000 on.
pub fn moment_text(millis: u64) -> Option<[u8; 24]>
    ensures text { IfSome result (λ text. (date : Date) × (unix_secs date ≡ millis / 1000)
        × (text ≡ rfc3339_text (date_text date) (millis % 1000))) }
    ensures some { IsSome result ↔ (millis / 1000 < 253_402_300_800) }
{
    match HttpDate::from_unix_secs(millis / 1000) {
        Ok(date) => Some(rearranged(&date.to_bytes(), millis % 1000)),
        Err(_) => None,
    }
}

// The same moment from the text of HTTP's date.
fn rearranged(date: &[u8; 29], millis: u64) -> [u8; 24]
    requires { millis < 1000 }
    ensures { result ≡ rfc3339_text date.now millis }
{
    let [tens, ones] = month_number(date[9], date[10]);
    let hundreds = b'0' + (millis / 100) as u8;
    let middle = b'0' + (millis / 10 % 10) as u8;
    let last = b'0' + (millis % 10) as u8;
    [
        date[12], date[13], date[14], date[15], b'-', tens, ones, b'-', date[5], date[6], b'T',
        date[17], date[18], date[19], date[20], date[21], date[22], date[23], date[24], b'.',
        hundreds, middle, last, b'Z',
    ]
}

// The two digits of a month, by the second and the third letter of its English name.
fn month_number(second: u8, third: u8) -> [u8; 2]
    ensures { result ≡ month_digits second third }
{
    match (second, third) {
        (b'a', b'n') => *b"01",
        (b'e', b'b') => *b"02",
        (b'a', b'r') => *b"03",
        (b'p', b'r') => *b"04",
        (b'a', b'y') => *b"05",
        (b'u', b'n') => *b"06",
        (b'u', b'l') => *b"07",
        (b'u', b'g') => *b"08",
        (b'e', b'p') => *b"09",
        (b'c', b't') => *b"10",
        (b'o', b'v') => *b"11",
        _ => *b"12",
    }
}
