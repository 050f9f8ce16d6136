//! Classes of bytes, and how far they run.

ghost use Rattle.std.specs.Prelude.{◌≡◌, ◌≤◌, ◌<◌, ◌+◌, ◌-◌, ◌^◌, ℕ, MatchOption, IfSome, min, length, slice_index, count_by};
ghost use Rattle.std.specs.List.{take_while};
ghost use Rattle.gs_tree.specs.Lexicon.{is_include};
ghost use Rattle.gs_tree.specs.Bytes.{is_blank, is_line_blank, is_in_line, is_line_feed, is_letter, is_digit, is_name_byte, is_plain, is_double, is_single, escape_value, leading, decimal, EndsAt, EndsFirst};

/// The byte at a place, 0 past the end.
pub(crate) fn byte_at(bytes: &[u8], at: usize) -> u8
    ensures { result ≡ slice_index bytes.now at }
{
    if at < bytes.len() { bytes[at] } else { 0 }
}

#[tactic(auto, unfolding(crate::specs::Bytes::is_blank))]
pub(crate) fn is_blank(b: u8) -> bool
    ensures { result ≡ is_blank b }
{
    matches!(b, b' ' | b'\t' | b'\r' | b'\n')
}

#[tactic(auto, unfolding(crate::specs::Bytes::is_line_blank))]
fn is_line_blank(b: u8) -> bool
    ensures { result ≡ is_line_blank b }
{
    matches!(b, b' ' | b'\t' | b'\r')
}

#[tactic(auto, unfolding(crate::specs::Bytes::is_letter))]
pub(crate) fn is_letter(b: u8) -> bool
    ensures { result ≡ is_letter b }
{
    matches!(b, b'a'..=b'z' | b'A'..=b'Z' | b'_')
}

#[tactic(auto, unfolding(crate::specs::Bytes::is_digit))]
pub(crate) fn is_digit(b: u8) -> bool
    ensures { result ≡ is_digit b }
{
    matches!(b, b'0'..=b'9')
}

#[tactic(auto, unfolding(crate::specs::Bytes::is_name_byte))]
fn is_name_byte(b: u8) -> bool
    ensures { result ≡ is_name_byte b }
{
    is_letter(b) || is_digit(b)
}

#[tactic(auto, unfolding(crate::specs::Bytes::is_plain))]
pub(crate) fn is_plain(b: u8) -> bool
    ensures { result ≡ is_plain b }
{
    matches!(b, b'\t' | b' ' | b'!' | b'#'..=b'[' | b']'..=b'~')
}

#[tactic(auto, unfolding(crate::specs::Bytes::is_double))]
pub(crate) fn is_double(a: u8, b: u8) -> bool
    ensures { result ≡ is_double a b }
{
    if b == b'=' {
        matches!(a, b'+' | b'-' | b'<' | b'>' | b'=' | b'!')
    } else {
        matches!(a, b'+' | b'-' | b'&' | b'|') && a == b
    }
}

#[tactic(auto, unfolding(crate::specs::Bytes::is_single))]
pub(crate) fn is_single(a: u8) -> bool
    ensures { result ≡ is_single a }
{
    matches!(
        a,
        b'(' | b')'
            | b'{'
            | b'}'
            | b','
            | b';'
            | b'='
            | b'+'
            | b'-'
            | b'*'
            | b'/'
            | b'%'
            | b'<'
            | b'>'
            | b'!'
            | b'&'
    )
}

/// What an escape stands for, by the byte after its backslash.
pub(crate) fn escape_value(e: u8) -> Option<u8>
    ensures { result ≡ escape_value e }
{
    match e {
        b'n' => Some(b'\n'),
        b't' => Some(b'\t'),
        b'r' => Some(b'\r'),
        b'\\' => Some(b'\\'),
        b'"' => Some(b'"'),
        _ => None,
    }
}

/// How many bytes of a name stand first.
pub(crate) fn name_len(bytes: &[u8]) -> usize
    ensures { result ≡ leading is_name_byte bytes.now }
{
    bytes.iter().take_while(|b| is_name_byte(**b)).count()
}

/// How many digits stand first.
pub(crate) fn digits_len(bytes: &[u8]) -> usize
    ensures { result ≡ leading is_digit bytes.now }
{
    bytes.iter().take_while(|b| is_digit(**b)).count()
}

fn line_blanks_len(bytes: &[u8]) -> usize
    ensures { result ≡ leading is_line_blank bytes.now }
{
    bytes.iter().take_while(|b| is_line_blank(**b)).count()
}

/// How many bytes stand before the next line feed, or the end.
#[tactic(auto, unfolding(crate::specs::Bytes::is_in_line))]
pub(crate) fn line_len(bytes: &[u8]) -> usize
    ensures { result ≡ leading is_in_line bytes.now }
{
    bytes.iter().take_while(|b| **b != b'\n').count()
}

#[tactic(auto, unfolding(crate::specs::Bytes::is_line_feed))]
pub(crate) fn line_feeds(bytes: &[u8]) -> usize
    ensures { result ≡ count_by is_line_feed bytes.now }
{
    bytes.iter().filter(|b| **b == b'\n').count()
}

/// The place of the first `*/`.
pub(crate) fn comment_end(bytes: &[u8]) -> Option<usize>
    ensures first { MatchOption result ((k : ℕ) → ¬ EndsAt bytes.now k) (λ n. EndsFirst bytes.now n) }
    ensures within { IfSome result (λ n. n + 2 ≤ length bytes.now) }
{
    for i in 1..bytes.len() {
        if bytes[i - 1] == b'*' && bytes[i] == b'/' {
            return Some(i - 1);
        }
    }
    None
}

/// A `#`, blanks of the same line and `include` stand first.
pub(crate) fn is_include(bytes: &[u8], is_fresh: bool) -> bool
    ensures { result ≡ is_include is_fresh bytes.now }
{
    if !is_fresh || byte_at(bytes, 0) != b'#' {
        return false;
    }
    let rest = &bytes[1..];
    rest[line_blanks_len(rest)..].starts_with(b"include")
}

/// The number that digits write, at most `u64::MAX`.
pub(crate) fn decimal(digits: &[u8]) -> u64
    ensures { result ≡ min (decimal digits.now) (2 ^ 64 - 1) }
{
    let mut v: u64 = 0;
    for d in digits {
        v = v
            .saturating_mul(10)
            .saturating_add(u64::from(d.saturating_sub(b'0')));
    }
    v
}
