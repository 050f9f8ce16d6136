//! Files of lines: the lines of a file, the words of a line, and what can be made of lines.
#![tactic(auto)]

mod laws;
mod lines;
mod number;
mod ordering;
mod passing;
mod words;

pub use laws::one_rising_order;
pub use lines::Lines;
pub use number::sum;
pub use ordering::{merged, reversed, sorted};
pub use passing::{
    first, first_lines, last_lines, lines_beginning, number_of_lines, numbered, other_lines,
    without_repeats,
};
pub use words::{Words, column};
