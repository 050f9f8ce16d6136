//! The lines, comments and words of a list: a text that says one thing on each line. A line feed
//! ends a line, a `#` begins a comment to the end of its line, and blanks part the words.
#![tactic(auto)]

mod laws;
mod lines;
#[cfg(test)]
mod tests;
mod words;

pub use laws::{each_line_has_its_words, each_text_has_its_lines};
pub use lines::lines_of;
pub use words::words_of;
