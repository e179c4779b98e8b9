//! Tests of public calls that no row and no vector reaches, of vectors and check numbers that others published, of what no row
//! shows of whole runs, and the example of a tag by itself.
#![tactic(auto)]

#[cfg(test)]
mod bits;
#[cfg(test)]
mod check_numbers;
#[cfg(test)]
mod memory;
#[cfg(test)]
mod play;
#[cfg(test)]
mod round_trips;
#[cfg(test)]
mod rounds;
#[cfg(test)]
mod sgtins;
#[cfg(test)]
mod single_tag;
#[cfg(test)]
mod std_edge;
