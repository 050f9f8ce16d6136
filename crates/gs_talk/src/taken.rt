// What a file has at a place.
use gs_types::Text;

/// A line without its line feed, and the place behind it, from 0; or the end of the bytes.
#[derive(Debug, Drop)]
pub enum Line {
    End,
    Got { s: Text, next: usize },
}
