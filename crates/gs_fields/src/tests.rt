// Fields read back.
use crate::{Fields, Short, put_blob, put_i64, put_u8, put_u32, put_u64};
use std::test::Fail;

#[test]
fn fields_have_their_bytes_and_read_back(rt: HostRuntime) -> Result<(), Fail> {
    let mut to = Vec::new(rt.alloc());
    put_u8(&mut to, 7)?;
    put_u32(&mut to, 258)?;
    put_u64(&mut to, 1 << 40)?;
    put_i64(&mut to, -2)?;
    put_blob(&mut to, b"ab")?;
    let expected =
        b"\x07\x02\x01\0\0\0\0\0\0\0\x01\0\0\xfe\xff\xff\xff\xff\xff\xff\xff\x02\0\0\0ab";
    assert!(rt; to.as_slice() == expected.as_slice());
    let mut fields = Fields::new(&to);
    assert_eq!(rt; fields.next_u8(), Ok(7));
    assert_eq!(rt; fields.next_u32(), Ok(258));
    assert_eq!(rt; fields.next_u64(), Ok(1 << 40));
    assert_eq!(rt; fields.next_i64(), Ok(-2));
    assert!(rt; !fields.at_end());
    assert!(rt; fields.next_blob() == Ok(b"ab".as_slice()));
    assert!(rt; fields.at_end());
    Ok(())
}

#[test]
fn a_field_that_is_cut_short_leaves_the_reader_where_it_was(rt: HostRuntime) -> Result<(), Fail> {
    let mut fields = Fields::new(b"\x01\x03\0\0\0ab");
    assert_eq!(rt; fields.next_u8(), Ok(1));
    assert_eq!(rt; fields.next_u64(), Err(Short { at: 1 }));
    assert!(rt; fields.next_blob() == Err(Short { at: 1 }));
    assert_eq!(rt; fields.next_u32(), Ok(3));
    assert_eq!(rt; fields.next_u32(), Err(Short { at: 5 }));
    Ok(())
}
