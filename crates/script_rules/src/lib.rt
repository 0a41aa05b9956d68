//! The rules of scripts that look at a line, and at what is around it.
#![tactic(auto)]

mod body_rules;
mod call_words;
mod handler_rules;
mod hex_bytes;
mod host_rules;
mod kinds;
mod line_rules;

pub use body_rules::{has_unknown_name, has_wrong_arguments, skips_past_end};
pub use handler_rules::{
    calls_in_switchless_handler, handled_function, is_handler, is_unpaired, lacks_its_frame,
};
pub use hex_bytes::race_length;
pub use host_rules::has_address_outside_host;
pub use kinds::{
    is_act, is_action, is_race, is_racer, is_repeat, is_setting, is_temporary, is_thread,
};
pub use line_rules::{
    has_bad_hex, has_misfit, has_number_out_of_range, has_unknown_function, is_alignment,
    is_for_other_program, is_not_understood,
};
