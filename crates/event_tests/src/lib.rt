//! Tests of the event codec against tables of bytes: the vectors of the format, each layout's shortest
//! body, and what is refused.
#![tactic(auto)]

#[cfg(test)]
mod bodies;
#[cfg(test)]
mod lengths;
#[cfg(test)]
mod shown;
#[cfg(test)]
mod vectors;
