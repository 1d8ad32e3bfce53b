//! Scripts and the machine of streams, as definitions: `specs/Scripts.antt` says which commands a list of bytes is,
//! `specs/Machine.antt` what each command answers and makes of its stream, `specs/Runs.antt` which text a run has. What
//! follows from them is in `laws`.
#![tactic(auto)]

pub mod laws;
