//! The judge of all that scans: rows of lists and streams, each run through the definitions as `hs_plain` computes
//! them, through the plain runner and the streams in many cuts, and split into chains. `stream_rows` of `hs_rows` has
//! the rows and says how they are written; `hs_judge_engines` runs their expressions through the engines. The crate is
//! tests alone.
#![tactic(auto)]

#[cfg(test)]
mod cases;
#[cfg(test)]
mod chains;
#[cfg(test)]
mod judging;
#[cfg(test)]
mod reading;
#[cfg(test)]
mod roles;
#[cfg(test)]
mod running;
#[cfg(test)]
mod scanning;
#[cfg(test)]
mod setup;
#[cfg(test)]
mod streaming;
#[cfg(test)]
mod tests;
