// Names, strings and values: each call once, and the limits.
use gs_types::{Blob, Name, Text, TextErr, Value};
use std::test::Fail;

#[test]
fn names_go_wrong_at_their_first_place(rt: HostRuntime) -> Result<(), Fail> {
    let long = [b'a'; 201];
    let cases: [(&[u8], Option<usize>); 8] = [
        (b"", Some(0)),
        (b".a", Some(0)),
        (b"a.b-c_9", None),
        (b"a b", Some(1)),
        (b"a/", Some(1)),
        (b"abc\n", Some(3)),
        (&long, Some(200)),
        (&long[..200], None),
    ];
    for (bytes, at) in cases {
        match Name::read(bytes) {
            Ok(name) => {
                assert!(rt; at.is_none());
                assert_eq!(rt; name.copy().bytes(), bytes);
            }
            Err(e) => assert_eq!(rt; at, Some(e.at)),
        }
    }
    Ok(())
}

#[test]
fn strings_have_a_limit_and_their_own_bytes(rt: HostRuntime) -> Result<(), Fail> {
    let alloc = rt.alloc();
    let long = [b' '; 1025];
    match Text::read(alloc, &long) {
        Err(TextErr::Long { len }) => assert_eq!(rt; len, 1025),
        _ => assert!(rt; false),
    }
    match Text::read(alloc, b"a\tb\x7f") {
        Err(TextErr::BadByte { at }) => assert_eq!(rt; at, 3),
        _ => assert!(rt; false),
    }
    match Text::read(alloc, &long[..1024]) {
        Ok(text) => {
            let value = Value::Str { s: text };
            match value.copy(alloc)? {
                Value::Str { s } => assert_eq!(rt; s.bytes().len(), 1024),
                _ => assert!(rt; false),
            }
        }
        Err(_) => assert!(rt; false),
    }
    Ok(())
}

#[test]
fn bytes_are_appended(rt: HostRuntime) -> Result<(), Fail> {
    let alloc = rt.alloc();
    let mut blob = Blob::copy(alloc, b"ab")?;
    blob.push_all(b"cd")?;
    assert_eq!(rt; blob.bytes(), b"abcd".as_slice());
    match (Value::File { bytes: blob }).copy(alloc)? {
        Value::File { bytes } => assert_eq!(rt; bytes.bytes(), b"abcd".as_slice()),
        _ => assert!(rt; false),
    }
    Ok(())
}
