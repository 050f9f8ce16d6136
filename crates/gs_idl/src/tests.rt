// Texts that are read, and texts that go wrong at their first place.
use crate::{IdlErr, IdlKind, print, read};
use std::alloc::Global;
use std::test::Fail;

const KIT: &[u8] =
    b"interface KIT {\n    void join(in File a, in File b, out File c);\n    void grow(inout File f, in string s);\n    void count(in File f, out int n);\n};\n";

fn is_at(alloc: Global, text: &[u8], line: u32, kind: IdlKind) -> bool {
    match read(alloc, text) {
        Ok(_) => false,
        Err(e) => e == IdlErr::At { line, kind },
    }
}

fn is_read(alloc: Global, text: &[u8]) -> bool {
    read(alloc, text).is_ok()
}

#[test]
fn an_interface_is_read_and_printed_in_its_form(rt: HostRuntime) -> Result<(), Fail> {
    let alloc = rt.alloc();
    let idl = read(alloc, KIT)?;
    assert_eq!(rt; idl.op_count(), 3);
    assert_eq!(rt; print(alloc, &idl)?.as_slice(), KIT);
    assert_eq!(rt; idl.find(b"count"), Some(2));
    assert_eq!(rt; idl.find(b"coun"), None);
    assert_eq!(rt; idl.op_name(1), b"grow".as_slice());
    assert_eq!(rt; idl.param_count(1), 2);
    let loose =
        b"\t// the kit\r\ninterface KIT{void join(in File a,in File b,out File c);/**/void grow(inout File f,\nin string s); void count ( in File f , out int n ) ; }";
    let same = read(alloc, loose)?;
    assert_eq!(rt; print(alloc, &same)?.as_slice(), KIT);
    Ok(())
}

#[test]
fn each_fault_stands_at_its_first_place(rt: HostRuntime) -> Result<(), Fail> {
    let alloc = rt.alloc();
    let cases: [(&[u8], u32, IdlKind); 30] = [
        (b"", 1, IdlKind::Unexpected),
        (b"\n\n", 3, IdlKind::Unexpected),
        (b"interface K { };", 1, IdlKind::Unexpected),
        (b"interface K { void f(); };", 1, IdlKind::Unexpected),
        (
            b"interface K {\nvoid f(in File a);\n};;",
            3,
            IdlKind::Unexpected,
        ),
        (
            b"interface K {\nvoid f(in File a)\n}",
            3,
            IdlKind::Unexpected,
        ),
        (b"interface K {\nvoid f(File a);}", 2, IdlKind::Unexpected),
        (
            b"interface K { void f(in file a); };",
            1,
            IdlKind::Unexpected,
        ),
        (b"interface K { void f(in File a);", 1, IdlKind::Unexpected),
        (b"# interface", 1, IdlKind::BadByte),
        (
            b"interface K {\n void f(in File \"a\"); };",
            2,
            IdlKind::BadByte,
        ),
        (
            b"interface K {\n void 9(in File a); };",
            2,
            IdlKind::BadByte,
        ),
        (
            b"interface K { / void f(in File a); };",
            1,
            IdlKind::BadByte,
        ),
        (b"interface K\n/* \n", 2, IdlKind::OpenComment),
        (
            b"interface K { /*/ void f(in File a); };",
            1,
            IdlKind::OpenComment,
        ),
        (
            b"interface K { void f(inout int n); };",
            1,
            IdlKind::BadCombination,
        ),
        (
            b"interface K {\n void f(in File a,\n inout string s, inout int n); };",
            3,
            IdlKind::BadCombination,
        ),
        (
            b"interface K {\nvoid f(in File a);\nvoid f(in File a); };",
            3,
            IdlKind::Twice,
        ),
        (
            b"interface K {\nvoid f(in File a, in File b,\nin File a); };",
            3,
            IdlKind::Twice,
        ),
        (
            b"interface K {\nvoid while(in File a); };",
            2,
            IdlKind::Reserved,
        ),
        (
            b"interface K {\nvoid f(in File a);\n\nvoid R(in File a); };",
            4,
            IdlKind::Reserved,
        ),
        (
            b"interface K { void f(in File a); void f(",
            1,
            IdlKind::Twice,
        ),
        (b"interface K { void if(in File a", 1, IdlKind::Reserved),
        (
            b"interface K { void f(inout int n \"",
            1,
            IdlKind::BadCombination,
        ),
        (b"interface 1", 1, IdlKind::BadByte),
        (b"interface", 1, IdlKind::Unexpected),
        (
            b"Interface K { void f(in File a); };",
            1,
            IdlKind::Unexpected,
        ),
        (
            b"interface K { void f(in File a,); };",
            1,
            IdlKind::Unexpected,
        ),
        (
            b"interface K { void f(in File a) void g(in File a); };",
            1,
            IdlKind::Unexpected,
        ),
        (
            b"interface K { void f(in File a); }; x",
            1,
            IdlKind::Unexpected,
        ),
    ];
    for (text, line, kind) in cases {
        assert!(rt; is_at(alloc, text, line, kind), "{text:?}");
    }
    Ok(())
}

#[test]
fn words_of_the_form_may_be_names(rt: HostRuntime) -> Result<(), Fail> {
    let alloc = rt.alloc();
    assert!(rt;
        is_read(
            alloc,
            b"interface interface { void interface(in File in); };"
        )
    );
    assert!(rt;
        is_read(
            alloc,
            b"interface while { void File(in File if, out int int) ; }"
        )
    );
    Ok(())
}

// An interface with so many operations, and so many parameters of the last.
fn many(alloc: Global, ops: u8, params: u8) -> Result<Vec<u8>, Fail> {
    let mut text = Vec::new(alloc);
    text.extend_from_slice(b"interface K {\n")?;
    for op in 0..ops {
        text.extend_from_slice(b"void o")?;
        text.push(b'A'.wrapping_add(op / 26))?;
        text.push(b'A'.wrapping_add(op % 26))?;
        text.extend_from_slice(b"(in File a); ")?;
    }
    text.extend_from_slice(b"\nvoid last(")?;
    for param in 0..params {
        if param > 0 {
            text.extend_from_slice(b",\n")?;
        }
        text.extend_from_slice(b"in int p")?;
        text.push(b'A'.wrapping_add(param))?;
    }
    text.extend_from_slice(b");}")?;
    Ok(text)
}

#[test]
fn limits_are_of_operations_parameters_names_and_bytes(rt: HostRuntime) -> Result<(), Fail> {
    let alloc = rt.alloc();
    assert!(rt; is_read(alloc, many(alloc, 63, 16)?.as_slice()));
    assert!(rt; is_at(alloc, many(alloc, 64, 1)?.as_slice(), 3, IdlKind::TooMany));
    assert!(rt; is_at(alloc, many(alloc, 63, 17)?.as_slice(), 19, IdlKind::TooMany));
    let mut text = Vec::new(alloc);
    text.extend_from_slice(b"interface\n")?;
    for _ in 0..64 {
        text.push(b'n')?;
    }
    text.extend_from_slice(b" { void f(in File a); }")?;
    assert!(rt; is_read(alloc, text.as_slice()));
    text.insert(10, b'n')?;
    assert!(rt; is_at(alloc, text.as_slice(), 2, IdlKind::LongName));
    text.resize(65536, b' ')?;
    assert!(rt; is_at(alloc, text.as_slice(), 2, IdlKind::LongName));
    text.push(b' ')?;
    assert!(rt; is_at(alloc, text.as_slice(), 0, IdlKind::TooLong));
    Ok(())
}
