//! Tests of the crates of engines, regions and literals. The crate is tests alone.
#![tactic(auto)]

#[cfg(test)]
mod automata;
#[cfg(test)]
mod bits;
#[cfg(test)]
mod blocks;
#[cfg(test)]
mod confirming;
#[cfg(test)]
mod dfa;
#[cfg(test)]
mod ends;
#[cfg(test)]
mod limex;
#[cfg(test)]
mod lists;
#[cfg(test)]
mod regions;
#[cfg(test)]
mod search;
#[cfg(test)]
mod tables;
#[cfg(test)]
mod twins;
