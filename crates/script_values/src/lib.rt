//! What the words of a line mean: numbers, bytes, arguments, functions, the names of a body.
#![tactic(auto)]

mod actions;
mod arguments;
mod body_lines;
mod body_names;
mod calls;
mod functions;
mod spelling;

pub use actions::WordRule;
pub use arguments::{is_frame_argument, is_place_argument_out};
pub use body_lines::{OcallWords, ocall, temporary};
pub use body_names::{BodyNames, register_of};
pub use calls::{ArgumentRule, call_arguments};
pub use functions::{NamedFunctions, NamedInterface};
pub use spelling::{
    bytes_of, is_bad_hex, is_dotted_name, is_in_frame, is_place_out, is_wide, place_named,
};
