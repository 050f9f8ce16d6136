// Numbers in lines, and their sum.
ghost use Rattle.std.specs.Prelude.{◌≡◌, ◌<◌, pos, FitsSigned};
ghost use Rattle.std.specs.Char.{digit_value};
ghost use Rattle.std.specs.Option.{SomeIff};
ghost use Rattle.gs_lines.specs.Lines.{lines};
ghost use Rattle.gs_lines.specs.Number.{digits_number, signed, within_64, signed_number, number_in, added, sum_from};

use crate::Lines;

fn digit_of(byte: u8) -> Option<u64>
    ensures { SomeIff result (digit_value byte < 10) (digit_value byte) }
{
    match byte {
        b'0'..=b'9' => Some((byte - b'0') as u64),
        _ => None,
    }
}

// What 1 to 19 digits say.
fn digits_number(digits: &[u8]) -> Option<u64>
    ensures { result ≡ digits_number digits.now }
{
    if digits.is_empty() || digits.len() > 19 {
        return None;
    }
    let mut value = 0u64;
    for digit in digits {
        value = value * 10 + digit_of(*digit)?;
    }
    Some(value)
}

fn signed(negative: bool, value: u64) -> Option<i64>
    ensures { result ≡ within_64 (signed negative value) }
{
    if negative {
        0i64.checked_sub_unsigned(value)
    } else {
        0i64.checked_add_unsigned(value)
    }
}

fn signed_number(negative: bool, digits: &[u8]) -> Option<i64>
    ensures { result ≡ signed_number negative digits.now }
{
    match digits_number(digits) {
        Some(value) => signed(negative, value),
        None => None,
    }
}

// What a line says.
fn number_in(line: &[u8]) -> Option<i64>
    ensures { result ≡ number_in line.now }
{
    match line {
        [b'-', digits @ ..] => signed_number(true, digits),
        _ => signed_number(false, line),
    }
}

fn added(total: i64, line: &[u8]) -> Option<i64>
    ensures { result ≡ added total line.now }
{
    match number_in(line) {
        Some(v) => total.checked_add(v),
        None => None,
    }
}

/// The sum of the numbers that the lines say. None where a line isn't `-` or nothing and 1 to 19
/// digits, or where a line or a sum of the first lines is outside 64 bits.
pub fn sum(bytes: &[u8]) -> Option<i64>
    ensures { result ≡ sum_from (pos 0) (lines bytes.now) }
{
    let mut total = 0;
    for line in Lines::of(bytes) {
        total = added(total, line)?;
    }
    Some(total)
}
