// Names as keys.
use crate::Name;
use std::hash::{DefaultHasher, Hash, Hasher};
use std::test::Fail;

fn hash_of<T: Hash>(value: &T) -> u64 {
    let mut state = DefaultHasher::new();
    value.hash(&mut state);
    state.finish()
}

fn are_equal<T: Eq>(one: &T, other: &T) -> bool {
    *one == *other
}

#[test]
fn equal_names_hash_alike_and_print_as_text(rt: HostRuntime) -> Result<(), Fail> {
    let name = Name::read(b"out.txt")?;
    let other = Name::read(b"out.tx")?;
    assert!(rt; are_equal(&name, &name.copy()));
    assert_eq!(rt; hash_of(&name), hash_of(&name.copy()));
    assert!(rt; !are_equal(&name, &other));
    assert_ne!(rt; hash_of(&name), hash_of(&other));
    let text = format!(in rt.alloc(); "{name:?}")?;
    assert_eq!(rt; text.as_str(), "Name(\"out.txt\")");
    Ok(())
}
