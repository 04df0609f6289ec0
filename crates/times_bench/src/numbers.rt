//! Numbers: an optional `-`, then at least one decimal digit.
ghost use Rattle.std.specs.Prelude.{◌≡◌, ◌≤◌, length, IfSome, SomeIff, pos};
ghost use Rattle.std.specs.Str.Parse.{IsNumeral, digits_value};
ghost use Rattle.times_bench.specs.Numbers.{i64_of, i32_of, up_to, u32_of, u16_of, u8_of};

// So many digits fit into 64 bits, whichever they are.
const SURE_DIGITS: usize = 18;

/// The number of 64 bits, one of them for the sign, that a text writes.
pub fn parse_i64(text: &[u8]) -> Option<i64>
    ensures { result ≡ i64_of text.now }
{
    if text.len() > SURE_DIGITS {
        return parse_long(text);
    }
    if let Some(digits) = text.strip_prefix(b"-".as_slice()) {
        return Some(-parse_digits(digits)?);
    }
    parse_digits(text)
}

/// The number of 32 bits, one of them for the sign, that a text writes.
pub fn parse_i32(text: &[u8]) -> Option<i32>
    ensures { result ≡ i32_of text.now }
{
    i32::try_from(parse_i64(text)?).ok()
}

/// The number of 32 bits, not below 0, that a text writes.
pub fn parse_u32(text: &[u8]) -> Option<u32>
    ensures { result ≡ u32_of text.now }
{
    parse_up_to(u32::MAX, text)
}

/// The number of 16 bits, not below 0, that a text writes.
pub fn parse_u16(text: &[u8]) -> Option<u16>
    ensures { result ≡ u16_of text.now }
{
    Some(parse_up_to(65_535, text)? as u16)
}

/// The number of 8 bits, not below 0, that a text writes.
pub fn parse_u8(text: &[u8]) -> Option<u8>
    ensures { result ≡ u8_of text.now }
{
    Some(parse_up_to(255, text)? as u8)
}

// The number that a text writes, not below 0 and at most `most`.
fn parse_up_to(most: u32, text: &[u8]) -> Option<u32>
    ensures value { result ≡ up_to most text.now }
    ensures in_range { IfSome result (λ number. number ≤ most) }
{
    let number = parse_i64(text)?;
    if number < 0 || number > i64::from(most) {
        return None;
    }
    Some(number as u32)
}

// The same as `parse_i64`, of a text of any length.
#[cold]
#[inline(never)]
fn parse_long(text: &[u8]) -> Option<i64>
    ensures { result ≡ i64_of text.now }
{
    if text.first() == Some(&b'+') {
        return None;
    }
    match str::from_utf8(text) {
        Ok(text) => text.parse::<i64>().ok(),
        Err(_) => None,
    }
}

// The value of at most 18 digits.
fn parse_digits(text: &[u8]) -> Option<i64>
    requires { length text.now ≤ 18 }
    ensures { SomeIff result (IsNumeral 10 text.now) (pos (digits_value 10 text.now)) }
{
    if text.is_empty() {
        return None;
    }
    let mut value: u64 = 0;
    for byte in text {
        if *byte < b'0' || *byte > b'9' {
            return None;
        }
        value = value * 10 + (*byte as u64 - b'0' as u64);
    }
    Some(value as i64)
}
