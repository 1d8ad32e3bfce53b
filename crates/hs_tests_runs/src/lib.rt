//! Tests of lists that are compiled, and of their streams. The crate is tests alone.
#![tactic(auto)]

#[cfg(test)]
mod compiling;
#[cfg(test)]
mod lists;
#[cfg(test)]
mod saving;
#[cfg(test)]
mod soaking;
#[cfg(test)]
mod streams;
#[cfg(test)]
mod telling;
