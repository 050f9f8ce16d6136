// Reading a log's bytes.
ghost use Rattle.std.specs.Prelude.{◌≡◌, ◌<◌, ◌≤◌, ℕ, List, IfOk, IfErr, length};
ghost use Rattle.gs_log.specs.Grammar.{IsLog};
ghost use Rattle.gs_log.specs.Kept.{HasPlaces};
ghost use Rattle.gs_log.specs.Told.{RefusesBytes};

use crate::bytes::first_payload;
use crate::place::Place;
use crate::{Log, LogErr, MAX_RECORDS};
use std::alloc::Global;

/// Finds the payloads up to the closed gate, and gives that gate's place, too.
fn find_places(alloc: Global, bytes: &[u8]) -> Result<(Vec<Place>, usize), LogErr>
    ensures found { IfOk result (λ found. HasPlaces bytes.now found.0.items found.1) }
    ensures refused { IfErr result (λ e. RefusesBytes bytes.now e) }
{
    if bytes.is_empty() {
        return Err(LogErr::BadLog { at: 0 });
    }
    let mut places = Vec::new(alloc);
    let mut at = 0;
    while bytes[at] == 1 {
        if places.len() == MAX_RECORDS {
            return Err(LogErr::BadLog { at: at as u64 });
        }
        let Some(payload) = first_payload(&bytes[at + 1..]) else {
            return Err(LogErr::BadLog { at: at as u64 });
        };
        places.push(Place {
            piece: 0,
            start: at + 1 + 4,
            len: payload.len(),
        })?;
        at += 5 + payload.len();
    }
    Ok((places, at))
}

/// Reads the records up to the closed gate. The log keeps the bytes.
pub fn parse(alloc: Global, bytes: Vec<u8>) -> Result<Log, LogErr>
    ensures list { IfOk result (λ log. IsLog log bytes.items) }
    ensures refused { IfErr result (λ e. RefusesBytes bytes.items e) }
{
    let (places, end) = find_places(alloc, &bytes)?;
    let mut pieces = Vec::new(alloc);
    pieces.push(bytes)?;
    Ok(Log {
        alloc,
        pieces,
        places,
        end: end as u64,
    })
}
