// The words of a line of a worker list.
ghost use Rattle.std.specs.Prelude.{◌≡◌, ℕ, map, IfOk, MatchOption, true};
ghost use Rattle.std.specs.List.{list_all};
ghost use Rattle.gs_types.specs.Name.{IsName};
ghost use Rattle.gs_broker.specs.Text.{is_blank, is_word_byte, may_stand, IsContent, AreWords, IsSlots};

use gs_types::Name;
use std::alloc::{AllocError, Global};

// What stands on a line before its comment.
pub(crate) fn before_comment(line: &[u8]) -> &[u8]
    ensures { IsContent line.now result.now }
{
    match line.iter().position(|b| *b == b'#') {
        Some(place) => &line[..place],
        None => line,
    }
}

fn is_blank(b: u8) -> bool
    ensures { result ≡ is_blank b }
{
    b == b' ' || b == b'\t' || b == b'\r'
}

fn may_stand(b: u8) -> bool
    ensures { result ≡ may_stand b }
{
    is_blank(b) || (33 <= b && b <= 126)
}

// Whether all of these bytes may stand outside a comment.
pub(crate) fn may_all_stand(content: &[u8]) -> bool
    ensures { result ≡ list_all may_stand content.now }
{
    content.iter().all(|b| may_stand(*b))
}

// The words that blanks part.
pub(crate) fn words_of(alloc: Global, content: &[u8]) -> Result<Vec<&[u8]>, AllocError>
    requires { list_all may_stand content.now ≡ true }
    ensures { IfOk result (λ v. AreWords content.now (map (λ w. w.now) v.items)) }
{
    content
        .split(|b| is_blank(*b))
        .filter(|word| !word.is_empty())
        .collect(alloc)
}

// The number that the word spells, from 1 to 16.
pub(crate) fn slots_of(word: &[u8]) -> Option<usize>
    ensures { MatchOption result ((n : ℕ) → IsSlots word.now n → ⊥) (λ n. IsSlots word.now n) }
{
    match word {
        [d] if b'1' <= *d && *d <= b'9' => Some((*d - b'0') as usize),
        [t, d] if *t == b'1' && b'0' <= *d && *d <= b'6' => Some(10 + (*d - b'0') as usize),
        _ => None,
    }
}

// The word, where it is a name.
pub(crate) fn name_of(word: &[u8]) -> Option<Name>
    ensures { MatchOption result (IsName word.now → ⊥) (λ n. (n ≡ word.now) × IsName word.now) }
{
    match Name::read(word) {
        Ok(name) => Some(name),
        Err(_) => None,
    }
}
