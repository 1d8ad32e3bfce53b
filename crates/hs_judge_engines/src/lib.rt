//! The judge of engines: the expressions of rows, entered anywhere, through every engine that takes them, byte by byte
//! and in blocks, and split into chains, beside their spans as `hs_plain` computes them. `stream_rows` of `hs_rows` has
//! the rows and says how they are written; as lists over streams `hs_judge` judges them. The crate is tests alone.
#![tactic(auto)]

#[cfg(test)]
mod chains;
#[cfg(test)]
mod engines;
#[cfg(test)]
mod in_blocks;
#[cfg(test)]
mod judging;
#[cfg(test)]
mod pieces;
#[cfg(test)]
mod reading;
#[cfg(test)]
mod regions;
#[cfg(test)]
mod spans;
#[cfg(test)]
mod tests;
#[cfg(test)]
mod verdicts;
