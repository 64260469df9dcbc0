//! Natural numbers of digits alone.
ghost use Rattle.std.specs.Prelude.{◌≡◌, ◌≤◌, ◌++◌, ◌<◌, ◌^◌, IfSome, decimal, length, take};
ghost use Rattle.std.specs.Str.Parse.{AllDigits, digits_value};
ghost use Rattle.trace_reader.specs.Plain.{IsDelimited};

use crate::plain::texts::is_delimited;

/// The number that stands at the front, and what comes after it: a comma or a closing bracket.
#[inline(always)]
pub fn natural(text: &[u8]) -> Option<(u64, &[u8])>
    ensures number { IfSome result
        (λ found. (text.now ≡ decimal found.0 ++ found.1.now) × (found.0 < 2 ^ 64)) }
    ensures ended { IfSome result (λ found. IsDelimited found.1.now) }
{
    let (n, len) = digits(text)?;
    if text[0] == b'0' && len > 1 {
        return None;
    }
    let rest = &text[len..];
    if !is_delimited(rest) {
        return None;
    }
    Some((n, rest))
}

// The number that the digits at the front write, below 2^64 - 6, and how many there are.
#[inline(always)]
fn digits(text: &[u8]) -> Option<(u64, usize)>
    ensures value { IfSome result (λ found. (found.0 ≡ digits_value 10 (take found.1 text.now))
        × AllDigits 10 (take found.1 text.now)) }
    ensures len { IfSome result
        (λ found. (0 < found.1) × (found.1 ≤ length text.now) × (found.0 < 2 ^ 64)) }
{
    let mut n: u64 = 0;
    let mut len = 0;
    'digits: while len < text.len() && text[len].is_ascii_digit() {
        if n >= u64::MAX / 10 {
            return None;
        }
        n = n * 10 + (text[len] - b'0') as u64;
        len += 1;
    }
    if len == 0 {
        return None;
    }
    Some((n, len))
}
