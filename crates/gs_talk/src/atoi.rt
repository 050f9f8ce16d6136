// The number at the front of a string.
ghost use Rattle.std.specs.Prelude.{◌≡◌, ◌≤◌, ◌-◌, ◌^◌, length, min, FitsSigned};
ghost use Rattle.std.specs.List.{prefix_len};
ghost use Rattle.std.specs.Int.{w64};
ghost use Rattle.std.specs.Option.{SomeIff};
ghost use Rattle.gs_talk.specs.Values.{is_passed_over, is_digit, leading_value, signed_value, atoi_of};

use gs_types::FaultKind;

fn is_passed_over(b: u8) -> bool
    ensures { result ≡ is_passed_over b }
{
    matches!(b, b'\t' | b'\n' | b'\r' | b' ')
}

fn is_digit(b: u8) -> bool
    ensures { result ≡ is_digit b }
{
    matches!(b, b'0'..=b'9')
}

fn passed_over(text: &[u8]) -> usize
    ensures count { result ≡ prefix_len is_passed_over text.now }
    ensures within { result ≤ length text.now }
{
    text.iter().take_while(|b| is_passed_over(**b)).count()
}

// The number that the first digits write, at most `u64::MAX`.
fn leading_value(text: &[u8]) -> u64
    ensures { result ≡ min (leading_value text.now) (2 ^ 64 - 1) }
{
    let mut value: u64 = 0;
    for b in text {
        if !is_digit(*b) {
            return value;
        }
        value = value
            .saturating_mul(10)
            .saturating_add(u64::from(b.saturating_sub(b'0')));
    }
    value
}

fn signed_value(text: &[u8]) -> Option<i64>
    ensures { SomeIff result (FitsSigned w64 (signed_value text.now)) (signed_value text.now) }
{
    match text {
        [b'-', rest @ ..] => 0i64.checked_sub_unsigned(leading_value(rest)),
        [b'+', rest @ ..] => 0i64.checked_add_unsigned(leading_value(rest)),
        _ => 0i64.checked_add_unsigned(leading_value(text)),
    }
}

/// Passes over blanks and line ends, takes one sign where it stands, and then all digits.
#[tactic(auto, unfolding(crate::specs::Values::atoi_of))]
pub(crate) fn atoi(text: &[u8]) -> Result<i64, FaultKind>
    ensures { result ≡ atoi_of text.now }
{
    let start = passed_over(text);
    signed_value(&text[start..]).ok_or(FaultKind::Overflow)
}
