// Numbers in texts.

ghost use Rattle.std.specs.Prelude.{◌≡◌, ◌<◌, ◌^◌, SomeIff, FitsSigned};
ghost use Rattle.std.specs.Int.{w64};
ghost use Rattle.std.specs.Str.Parse.{IsNumeral, digits_value};
ghost use Rattle.hh_lang.specs.Number.{IsNumber, decimal_value, signed_number};

/// Reads decimal digits without a sign; None if the text has another form or the number doesn't fit.
pub fn read_u32(bytes: &[u8]) -> Option<u32>
    ensures { SomeIff result (IsNumeral 10 bytes.now × (digits_value 10 bytes.now < 2 ^ 32)) (digits_value 10 bytes.now) }
{
    if bytes.first() == Some(&b'+') {
        return None;
    }
    match str::from_utf8(bytes) {
        Ok(text) => text.parse::<u32>().ok(),
        Err(_) => None,
    }
}

// The number that a text denotes.
fn parse_i64(bytes: &[u8]) -> Option<i64>
    ensures { SomeIff result (IsNumber bytes.now × FitsSigned w64 (decimal_value bytes.now)) (decimal_value bytes.now) }
{
    if bytes.first() == Some(&b'+') {
        return None;
    }
    match str::from_utf8(bytes) {
        Ok(text) => text.parse::<i64>().ok(),
        Err(_) => None,
    }
}

/// Reads an optional minus and decimal digits; None if the text has another form or the number doesn't fit.
pub fn read_i64(bytes: &[u8]) -> Option<i64>
    ensures exact { SomeIff result (IsNumber bytes.now × FitsSigned w64 (decimal_value bytes.now)) (decimal_value bytes.now) }
    ensures value { result ≡ signed_number bytes.now }
{
    parse_i64(bytes)
}
