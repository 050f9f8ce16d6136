// The words of a line.
ghost use Rattle.std.specs.Prelude.{◌≡◌, IfOk, MatchOption, true};
ghost use Rattle.std.specs.List.{list_all};
ghost use Rattle.gs_list.specs.Lines.{is_blank, may_stand, IsContent, AreWords, HasWords, HasBadByte, spelled};

use std::alloc::{AllocError, Global};

// What stands on a line before its comment.
fn before_comment(line: &[u8]) -> &[u8]
    ensures { IsContent line.now result.now }
{
    match line.iter().position(|b| *b == b'#') {
        Some(place) => &line[..place],
        None => line,
    }
}

fn is_blank(b: u8) -> bool
    ensures { result ≡ is_blank b }
{
    b == b' ' || b == b'\t' || b == b'\r'
}

fn may_stand(b: u8) -> bool
    ensures { result ≡ may_stand b }
{
    is_blank(b) || (33 <= b && b <= 126)
}

// Whether all of these bytes may stand outside a comment.
fn may_all_stand(content: &[u8]) -> bool
    ensures { result ≡ list_all may_stand content.now }
{
    content.iter().all(|b| may_stand(*b))
}

// The words that blanks part.
fn parted(alloc: Global, content: &[u8]) -> Result<Vec<&[u8]>, AllocError>
    requires { list_all may_stand content.now ≡ true }
    ensures { IfOk result (λ v. AreWords content.now (spelled v.items)) }
{
    content
        .split(|b| is_blank(*b))
        .filter(|word| !word.is_empty())
        .collect(alloc)
}

/// The words of a line before its comment, in their order: runs of bytes 33 to 126, which tabs,
/// spaces and carriage returns part. `None` exactly where another byte stands before the comment.
pub fn words_of(alloc: Global, line: &[u8]) -> Result<Option<Vec<&[u8]>>, AllocError>
    ensures { IfOk result (λ o. MatchOption o (HasBadByte line.now)
        (λ v. HasWords line.now (spelled v.items))) }
{
    let content = before_comment(line);
    if !may_all_stand(content) {
        return Ok(None);
    }
    let words = parted(alloc, content)?;
    Ok(Some(words))
}
