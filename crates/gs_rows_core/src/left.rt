// What a program that has ended left, in words: the files that were written, the variables, the
// text, and how many actions there were, as in `C=ab n:1 "1" actions 3`.
use gs_types::{NoMemory, Note, VarNote};
use std::alloc::Global;

/// A file that was written.
pub fn put_file(words: &mut Vec<u8>, name: &[u8], bytes: &[u8]) -> Result<(), NoMemory> {
    words.extend_from_slice(name)?;
    words.push(b'=')?;
    words.extend_from_slice(bytes)?;
    words.push(b' ')?;
    Ok(())
}

fn put_value(alloc: Global, words: &mut Vec<u8>, v: &Note) -> Result<(), NoMemory> {
    match v {
        Note::File { len: _ } => words.push(b'?')?,
        Note::Str { s } => words.extend_from_slice(s.bytes())?,
        Note::Int { v } => {
            let text = format!(in alloc; "{v}")?;
            words.extend_from_slice(text.as_bytes())?;
        }
    }
    Ok(())
}

/// The variables.
pub fn put_vars(alloc: Global, words: &mut Vec<u8>, vars: &[VarNote]) -> Result<(), NoMemory> {
    for var in vars {
        words.extend_from_slice(var.name.bytes())?;
        words.push(b':')?;
        put_value(alloc, words, &var.v)?;
        words.push(b' ')?;
    }
    Ok(())
}

/// The text, and how many actions there were.
pub fn put_end(
    alloc: Global,
    words: &mut Vec<u8>,
    text: &[u8],
    actions: usize,
) -> Result<(), NoMemory> {
    words.push(b'"')?;
    words.extend_from_slice(text)?;
    let end = format!(in alloc; "\" actions {actions}")?;
    words.extend_from_slice(end.as_bytes())?;
    Ok(())
}
