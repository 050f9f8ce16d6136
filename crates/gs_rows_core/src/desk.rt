// Files in memory, and the tasks in flight over them.
use crate::case::File;
use crate::law::{Place, digits, file, give};
use gs_core::{DoneNote, Loaded, Seen, Start, StartArg};
use gs_types::{Blob, FILE_LIMIT, Name, NoMemory, Note, OutNote, Sequence, Version};
use std::alloc::Global;
use std::collections::HashMap;

const PLACES: u32 = 16;

// A task in flight: what stands at its places, and all that it was given.
#[derive(Drop)]
struct Flight {
    n: u32,
    op: u8,
    places: Vec<Place>,
    given: Vec<u8>,
}

/// The files of the user's, of the tasks and of the program; the tasks in flight; what has
/// finished, in the order in which it did; and what happened, in words: `+1@0` task 1 starts on
/// worker 0, `-1` it finishes, `!1` it fails, `=ab` the program closes `ab`.
#[derive(Drop)]
pub struct Desk<'a> {
    alloc: Global,
    files: &'a [File<'a>],
    outs: HashMap<u32, Vec<u8>>,
    closed: Vec<Blob>,
    flights: Vec<Flight>,
    pub done: Vec<DoneNote>,
    pub told: Vec<u8>,
}

fn key(n: u32, place: u8) -> u32 {
    n.wrapping_mul(PLACES).wrapping_add(u32::from(place))
}

impl<'a> Desk<'a> {
    pub fn new(alloc: Global, files: &'a [File<'a>]) -> Desk<'a> {
        Desk {
            alloc,
            files,
            outs: HashMap::new(alloc),
            closed: Vec::new(alloc),
            flights: Vec::new(alloc),
            done: Vec::new(alloc),
            told: Vec::new(alloc),
        }
    }

    /// The program is run once more: what tasks gave is still there.
    pub fn begin(&mut self) {
        self.closed.clear();
        self.told.clear();
        self.flights.clear();
    }

    fn original(&self, name: &Name) -> Option<&[u8]> {
        for (known, bytes) in self.files {
            if *known == name.bytes() {
                return Some(*bytes);
            }
        }
        None
    }

    /// What a version holds; nothing where it isn't there.
    pub fn version(&self, version: &Version) -> Option<&[u8]> {
        match version {
            Version::Original { name } => self.original(name),
            Version::Out { n, place } => match self.outs.get(&key(*n, *place)) {
                Some(bytes) => Some(bytes.as_slice()),
                None => None,
            },
            Version::Main { k } => match self.closed.get((*k as usize).wrapping_sub(1)) {
                Some(bytes) => Some(bytes.bytes()),
                None => None,
            },
        }
    }

    pub fn seen(&self, name: &Name) -> Seen {
        match self.original(name) {
            None => Seen::Absent,
            Some(bytes) if bytes.len() > FILE_LIMIT => Seen::TooLong,
            Some(bytes) => Seen::Len {
                len: bytes.len() as u64,
            },
        }
    }

    pub fn loaded(&self, version: &Version) -> Result<Loaded, NoMemory> {
        match self.version(version) {
            None => Ok(Loaded::Absent),
            Some(bytes) => Ok(Loaded::Bytes {
                bytes: Blob::copy(self.alloc, bytes)?,
            }),
        }
    }

    fn tell(&mut self, mark: &str, n: u32) -> Result<(), NoMemory> {
        let text = format!(in self.alloc; "{mark}{n} ")?;
        self.told.extend_from_slice(text.as_bytes())?;
        Ok(())
    }

    pub fn close(&mut self, bytes: Blob) -> Result<(), NoMemory> {
        self.told.push(b'=')?;
        self.told.extend_from_slice(bytes.bytes())?;
        self.told.push(b' ')?;
        self.closed.push(bytes)?;
        Ok(())
    }

    /// A task starts. Where a version isn't there, or is of another length, it is given `?`.
    pub fn start(&mut self, start: &Start) -> Result<(), NoMemory> {
        let mut places = Vec::new(self.alloc);
        let mut given = Vec::new(self.alloc);
        for arg in start.args.items() {
            places.push(self.place(&mut given, arg)?)?;
        }
        self.flights.push(Flight {
            n: start.n,
            op: start.op,
            places,
            given,
        })?;
        let (n, worker) = (start.n, start.worker);
        let text = format!(in self.alloc; "+{n}@{worker} ")?;
        self.told.extend_from_slice(text.as_bytes())?;
        Ok(())
    }

    // Gives a task what stands at a place.
    fn place(&self, given: &mut Vec<u8>, arg: &StartArg) -> Result<Place, NoMemory> {
        match arg {
            StartArg::From {
                version,
                kept,
                both,
            } => {
                let place = if *both { Place::Changed } else { Place::Given };
                match self.version(version) {
                    Some(bytes) if bytes.len() as u64 == *kept => {
                        give(self.alloc, given, bytes, place)?;
                    }
                    _ => given.push(b'?')?,
                }
                Ok(place)
            }
            StartArg::Int { v } => {
                digits(self.alloc, given, *v)?;
                Ok(Place::Given)
            }
            StartArg::Str { s } => {
                given.extend_from_slice(s.bytes())?;
                Ok(Place::Given)
            }
            StartArg::OutFile => Ok(Place::File),
            StartArg::OutInt => Ok(Place::Number),
            StartArg::OutStr => Err(NoMemory),
        }
    }

    /// The first task in flight.
    pub fn first(&self) -> Option<u32> {
        match self.flights.first() {
            Some(flight) => Some(flight.n),
            None => None,
        }
    }

    // Takes a task out of flight.
    fn land(&mut self, n: u32) -> Option<Flight> {
        for i in 0..self.flights.len() {
            if self.flights[i].n == n {
                return Some(self.flights.remove(i));
            }
        }
        None
    }

    pub fn fail(&mut self, n: u32) -> Result<(), NoMemory> {
        let _flight = self.land(n);
        self.tell("!", n)
    }

    /// A task finishes: what it gives, which is recorded.
    pub fn finish(&mut self, n: u32) -> Result<Sequence<OutNote>, NoMemory> {
        self.tell("-", n)?;
        let Some(flight) = self.land(n) else {
            return Err(NoMemory);
        };
        let Ok(index) = u32::try_from(self.done.len()) else {
            return Err(NoMemory);
        };
        let outs = self.give_back(&flight)?;
        self.done.push(DoneNote {
            index,
            n,
            op: flight.op,
            outs,
        })?;
        self.give_back(&flight)
    }

    // What a task gives. Its files are there from now on.
    fn give_back(&mut self, flight: &Flight) -> Result<Sequence<OutNote>, NoMemory> {
        let mut outs = Sequence::new(self.alloc);
        let mut place = 0u8;
        for kind in flight.places.iter() {
            place = place.wrapping_add(1);
            let v = match kind {
                Place::Given => continue,
                Place::Number => Note::Int {
                    v: flight.given.len() as i64,
                },
                _ => {
                    let bytes = file(self.alloc, flight.op, &flight.given)?;
                    let len = bytes.len() as u64;
                    self.outs.insert(key(flight.n, place), bytes)?;
                    Note::File { len }
                }
            };
            outs.push(OutNote { place, v })?;
        }
        Ok(outs)
    }
}
