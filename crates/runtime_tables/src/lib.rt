//! Tables of cases over the public calls of the runtime's layers.
#![tactic(auto)]

#[cfg(test)]
mod arenas;
#[cfg(test)]
mod bodies;
#[cfg(test)]
mod bridges;
#[cfg(test)]
mod bytes;
#[cfg(test)]
mod copies;
#[cfg(test)]
mod frames;
#[cfg(test)]
mod ports;
#[cfg(test)]
mod ranges;
#[cfg(test)]
mod reports;
#[cfg(test)]
mod scripted_port;
#[cfg(test)]
mod slots;
#[cfg(test)]
mod stores;
#[cfg(test)]
mod values;
