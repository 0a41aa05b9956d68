//! What each line of a script is by its words, and the blocks that it stands in.
#![tactic(auto)]

mod actions;
mod acts;
mod arguments;
mod blocks;
mod declarations;
mod line;
mod lines;
mod open_blocks;
mod places;
mod settings;
mod shapes;

pub use arguments::Arguments;
pub use blocks::{Block, Opening};
pub use line::{ActionWords, Calculation, Line, Scope, Setting};
pub use lines::line_in;
pub use open_blocks::Blocks;
pub use places::{PlacedLine, PlacedLines, left_outermost};
