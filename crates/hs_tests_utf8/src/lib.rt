//! Tests of code points in UTF-8: sets of them, and expressions over them. The crate is tests alone.
#![tactic(auto)]

#[cfg(test)]
mod lowered;
#[cfg(test)]
mod reading;
#[cfg(test)]
mod written;
