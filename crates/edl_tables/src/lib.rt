//! Tables of cases over the public calls of the layers that read EDL files: tokens, layouts and interfaces.
#![tactic(auto)]

#[cfg(test)]
mod interfaces;
#[cfg(test)]
mod layouts;
#[cfg(test)]
mod lexing;
#[cfg(test)]
mod reading;
