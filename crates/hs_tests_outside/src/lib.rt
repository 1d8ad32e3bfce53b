//! Tests of `hs_outside` and `hs_request`. The crate is tests alone.
#![tactic(auto)]

#[cfg(test)]
mod adapters;
#[cfg(test)]
mod memory;
#[cfg(test)]
mod requests;
