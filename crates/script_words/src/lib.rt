//! The lines of a script, the words of a line, and what a word spells.
#![tactic(auto)]

mod spelling;
mod words;

pub use spelling::{frame_offset, is_name, is_number, is_out_of, is_place, number_of};
pub use words::{NumberedLine, NumberedLines, Words, begins_with, behind_first, same};
