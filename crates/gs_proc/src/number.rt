// Numbers that tasks write.
ghost use Rattle.std.specs.Prelude.{◌≡◌, ◌≢◌, ◌<◌, ◌-◌, ◌==◌, ◌++◌, ℤ, false, length, slice_index, MatchOption, FitsSigned};
ghost use Rattle.std.specs.Int.{w64};
ghost use Rattle.std.specs.Char.{digit_value};
ghost use Rattle.std.specs.Option.{SomeIff};
ghost use Rattle.std.specs.Str.Parse.{digits_value};
ghost use Rattle.gs_proc.specs.Line.{without_end};
ghost use Rattle.gs_proc.specs.Number.{IsShortNumeral, IsNumber, minus, signed};

fn ends_in_line_feed(bytes: &[u8]) -> bool
    ensures { result ≡ (slice_index bytes.now (length bytes.now - 1) == 10) }
{
    match bytes.last() {
        Some(byte) => *byte == b'\n',
        None => false,
    }
}

/// The bytes without one line feed at the end.
pub(crate) fn without_line_feed(bytes: &[u8]) -> &[u8]
    ensures { result.now ≡ without_end bytes.now }
{
    if ends_in_line_feed(bytes) {
        &bytes[..bytes.len() - 1]
    } else {
        bytes
    }
}

fn digit_of(byte: u8) -> Option<u64>
    ensures { SomeIff result (digit_value byte < 10) (digit_value byte) }
{
    match byte {
        b'0'..=b'9' => Some((byte - b'0') as u64),
        _ => None,
    }
}

// The value of 1 to 19 digits.
fn digits_of(digits: &[u8]) -> Option<u64>
    ensures { SomeIff result (IsShortNumeral digits.now) (digits_value 10 digits.now) }
{
    if digits.is_empty() || digits.len() > 19 {
        return None;
    }
    let mut value = 0u64;
    for digit in digits {
        match digit_of(*digit) {
            Some(more) => value = value * 10 + more,
            None => return None,
        }
    }
    Some(value)
}

fn signed(negative: bool, value: u64) -> Option<i64>
    ensures { SomeIff result (FitsSigned w64 (signed negative value)) (signed negative value) }
{
    if negative {
        0i64.checked_sub_unsigned(value)
    } else {
        0i64.checked_add_unsigned(value)
    }
}

// Whether a minus stands in front, and what is behind it.
fn split_minus(line: &[u8]) -> (bool, &[u8])
    ensures spelled { line.now ≡ minus result.0 ++ result.1.now }
    ensures plain { result.0 ≡ false → slice_index line.now 0 ≢ 45 }
{
    match line {
        [b'-', digits @ ..] => (true, digits),
        _ => (false, line),
    }
}

/// The number that a task wrote: `-` or nothing, 1 to 19 digits, one line feed or nothing, within
/// 64 bits. Anything else is none.
pub(crate) fn number_of(bytes: &[u8]) -> Option<i64>
    ensures { MatchOption result ((v : ℤ) → IsNumber bytes.now v → ⊥) (λ v. IsNumber bytes.now v) }
{
    let (negative, digits) = split_minus(without_line_feed(bytes));
    match digits_of(digits) {
        Some(value) => signed(negative, value),
        None => None,
    }
}
