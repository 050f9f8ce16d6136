// How many bytes a task reads.
ghost use Rattle.std.specs.Prelude.{◌≡◌, ◌≤◌, List, map, min, option_copied, option_map, IfOk, Some};
ghost use Rattle.gs_policy.specs.declared.limits.TheConstants.{BYTES_LIMIT};
ghost use Rattle.gs_looks.specs.Looked.{looks_in};
ghost use Rattle.gs_tables.specs.Lengths.{kept_length, main_length, seen_length};
ghost use Rattle.gs_tables.specs.Outs.{noted_at, noted_in, noted_length};
ghost use Rattle.gs_tables.specs.Rows.{row_at, row_outs, given_length, read_lengths};

use crate::row::Row;
use gs_looks::{Looks, Seen};
use gs_policy::BYTES_LIMIT;
use gs_types::{NoMemory, Note, OutNote, Sequence, Version};
use std::alloc::Global;

fn seen_length(seen: Option<Seen>) -> u64
    ensures { result ≡ seen_length seen }
{
    match seen {
        Some(Seen::Len { len }) => len,
        _ => 0,
    }
}

/// The bytes of a content of the program, by its number from 1.
pub(crate) fn main_length(mains: &[u64], k: u32) -> u64
    ensures { result ≡ main_length mains.now k }
{
    if k == 0 || k as usize > mains.len() {
        return 0;
    }
    mains[k as usize - 1]
}

fn kept_length(looks: &Looks, mains: &[u64], v: &Option<Version>) -> u64
    ensures { result ≡ kept_length (looks_in looks.now) mains.now v.now }
{
    match v {
        None => 0,
        Some(Version::Original { name }) => seen_length(looks.seen(name)),
        Some(Version::Out { n: _, place: _ }) => 0,
        Some(Version::Main { k }) => main_length(mains, *k),
    }
}

/// How many bytes are read at each place that no task gives.
pub(crate) fn kept_of(
    alloc: Global,
    looks: &Looks,
    mains: &[u64],
    reads: &[Option<Version>],
) -> Result<Sequence<u64>, NoMemory>
    ensures { IfOk result (λ ks. ks ≡ map (kept_length (looks_in looks.now) mains.now) reads.now) }
{
    let mut kept = Sequence::new(alloc);
    for v in reads {
        kept.push(kept_length(looks, mains, v))?;
    }
    Ok(kept)
}

/// What is noted at a place.
pub(crate) fn noted_at(outs: &[OutNote], place: u8) -> Option<&Note>
    ensures { option_copied result ≡ noted_at outs.now place }
{
    for out in outs {
        if out.place == place {
            return Some(&out.v);
        }
    }
    None
}

/// The bytes of a file that is noted; 0 for a number and a string.
pub(crate) fn noted_length(v: &Note) -> u64
    ensures { result ≡ noted_length (Some v.now) }
{
    match v {
        Note::File { len } => *len,
        _ => 0,
    }
}

/// The row of task `n`.
pub(crate) fn row_at(rows: &[Row], n: u32) -> Option<&Row>
    ensures { option_copied result ≡ row_at rows.now n }
{
    if n == 0 {
        return None;
    }
    rows.get(n as usize - 1)
}

/// What task `n` gave at a place.
pub(crate) fn out_at(rows: &[Row], n: u32, place: u8) -> Option<&Note>
    ensures { option_copied result ≡ noted_in (row_outs (row_at rows.now n)) place }
{
    match row_at(rows, n) {
        None => None,
        Some(row) => match &row.outs {
            None => None,
            Some(outs) => noted_at(outs.items(), place),
        },
    }
}

/// The bytes of what is read, where a task gave it.
pub(crate) fn given_length(rows: &[Row], v: &Option<Version>) -> u64
    ensures { result ≡ given_length rows.now v.now }
{
    match v {
        Some(Version::Out { n, place }) => match out_at(rows, *n, *place) {
            None => 0,
            Some(v) => noted_length(v),
        },
        _ => 0,
    }
}

/// The bytes of all that is read, up to the limit to which costs tell them apart.
pub(crate) fn read_length(rows: &[Row], reads: &[Option<Version>], kept: &[u64]) -> u64
    ensures { result ≡ min (read_lengths rows.now reads.now kept.now) BYTES_LIMIT }
{
    let mut sum: u64 = 0;
    for i in 0..reads.len().min(kept.len()) {
        sum = given_length(rows, &reads[i])
            .saturating_add(kept[i])
            .saturating_add(sum)
            .min(BYTES_LIMIT);
    }
    sum
}
