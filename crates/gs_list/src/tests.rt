use crate::{lines_of, words_of};
use std::test::Fail;

#[test]
fn blanks_part_the_words_and_a_hash_ends_them(rt: HostRuntime) -> Result<(), Fail> {
    let words = words_of(rt.alloc(), b"\tjoin  4\r# five")?.ok_or("a bad byte")?;
    assert_eq!(rt; words.len(), 2);
    assert_eq!(rt; words[0], b"join".as_slice());
    assert_eq!(rt; words[1], b"4".as_slice());
    Ok(())
}

#[test]
fn a_byte_of_no_word_is_told_outside_comments_alone(rt: HostRuntime) -> Result<(), Fail> {
    assert_eq!(rt; words_of(rt.alloc(), b"join \x7f")?.is_none(), true);
    assert_eq!(rt; words_of(rt.alloc(), b"join #\x7f")?.is_none(), false);
    Ok(())
}

#[test]
fn the_last_line_needs_no_line_feed(rt: HostRuntime) -> Result<(), Fail> {
    assert_eq!(rt; lines_of(rt.alloc(), b"a\nb")?.len(), 2);
    assert_eq!(rt; lines_of(rt.alloc(), b"a\nb\n")?.len(), 3);
    assert_eq!(rt; lines_of(rt.alloc(), b"")?.len(), 1);
    Ok(())
}
