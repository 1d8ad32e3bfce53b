//! Tests of the crates of texts and trees, and of the definitions run. The crate is tests alone.
#![tactic(auto)]

#[cfg(test)]
mod commands;
#[cfg(test)]
mod contexts;
#[cfg(test)]
mod database_files;
#[cfg(test)]
mod expressions;
#[cfg(test)]
mod forms;
#[cfg(test)]
mod lines;
#[cfg(test)]
mod parsing;
#[cfg(test)]
mod pattern_files;
#[cfg(test)]
mod plain;
#[cfg(test)]
mod refusals;
#[cfg(test)]
mod rows;
#[cfg(test)]
mod state_files;
#[cfg(test)]
mod support;
#[cfg(test)]
mod trees;
