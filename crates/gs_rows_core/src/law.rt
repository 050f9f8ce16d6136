// What tasks give, by their operations.
use gs_types::{Name, NoMemory};
use std::alloc::Global;

/// The operations of the examples.
pub const IDL: &[u8] = b"interface K {
    void join(in File a, in File b, out File c);
    void grow(inout File f, in string s);
    void count(in File f, out int n);
    void subst(in File cfg, in int v, out File job);
    void simulate(in File job, out File res);
    void post(in File res, inout File all);
    void two(out File a, out File b);
};
";

const GROW: u8 = 1;

const SUBST: u8 = 3;

const SIMULATE: u8 = 4;

/// What stands at a place: what the task is given, a file that it changes, a file or a number that
/// it gives.
#[derive(Clone, Copy, PartialEq, Eq)]
pub enum Place {
    Given,
    Changed,
    File,
    Number,
}

const JOIN_PLACES: [Place; 3] = [Place::Given, Place::Given, Place::File];

const GROW_PLACES: [Place; 2] = [Place::Changed, Place::Given];

const COUNT_PLACES: [Place; 2] = [Place::Given, Place::Number];

const SIMULATE_PLACES: [Place; 2] = [Place::Given, Place::File];

const POST_PLACES: [Place; 2] = [Place::Given, Place::Changed];

const TWO_PLACES: [Place; 2] = [Place::File, Place::File];

/// The places of an operation.
pub fn places(op: u8) -> &'static [Place] {
    match op {
        0 | 3 => &JOIN_PLACES,
        1 => &GROW_PLACES,
        2 => &COUNT_PLACES,
        4 => &SIMULATE_PLACES,
        5 => &POST_PLACES,
        _ => &TWO_PLACES,
    }
}

/// Puts what stands at a place behind what the task is given so far, or before it, where it is a
/// file that the task changes.
pub fn give(
    alloc: Global,
    given: &mut Vec<u8>,
    bytes: &[u8],
    place: Place,
) -> Result<(), NoMemory> {
    if place != Place::Changed {
        given.extend_from_slice(bytes)?;
        return Ok(());
    }
    let mut all = Vec::from_slice(alloc, bytes)?;
    all.extend_from_slice(given)?;
    *given = all;
    Ok(())
}

/// A number as a task is given it.
pub fn digits(alloc: Global, given: &mut Vec<u8>, v: i64) -> Result<(), NoMemory> {
    let text = format!(in alloc; "{v}")?;
    given.extend_from_slice(text.as_bytes())?;
    Ok(())
}

/// The file that an operation gives: all that it was given; `simulate` begins it with `r:`, and
/// `grow` and `subst` end it with a line feed.
pub fn file(alloc: Global, op: u8, given: &[u8]) -> Result<Vec<u8>, NoMemory> {
    let mut bytes = Vec::new(alloc);
    if op == SIMULATE {
        bytes.extend_from_slice(b"r:")?;
    }
    bytes.extend_from_slice(given)?;
    if op == GROW || op == SUBST {
        bytes.push(b'\n')?;
    }
    Ok(bytes)
}

/// The name that these bytes are. Those of the examples are names.
pub fn name(bytes: &[u8]) -> Result<Name, NoMemory> {
    match Name::read(bytes) {
        Ok(name) => Ok(name),
        Err(_) => Err(NoMemory),
    }
}
