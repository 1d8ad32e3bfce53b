//! The program of a list: a role for each piece of each chain, with the engine or the literal that it stands for.
#![tactic(auto)]

mod builder;
mod building;
mod engine;
mod identifiers;
mod info;
mod kind;
mod last_blocks;
mod laws;
mod literal_index;
mod literals;
mod making;
mod marks;
mod positions;
mod program;
mod role;
mod shape;
mod sizing;
mod splitting;

pub use builder::Builder;
pub use engine::PieceEngine;
pub use identifiers::Identifier;
pub use info::{ChainInfo, EntryInfo};
pub use kind::Kind;
pub use laws::{engines_run_pieces, equal_pieces_have_one_engine, fields_are_those_of_plan};
pub use positions::PositionEngine;
pub use program::Program;
pub use role::Role;
pub use sizing::fields_size;
pub use splitting::runnable_chains;
