//! The roles of a program that have nodes, in order, and the forest of the keys of its chains.

ghost use Rattle.std.specs.Prelude.{◌≡◌, ◌+◌, ◌<◌, ◌≤◌, ℕ, List, ◌++◌, ◌∷◌, [], length, IfOk, Some, slice_get};
ghost use Rattle.hs_compile.specs.GraphSteps.{AreStepsOfChains, AreStepsWithin, IsForestFor};
ghost use Rattle.hs_compile.specs.GraphTables.{IsOneOf, IsReady};

use crate::graph_kinds::kind_at;
use crate::graph_numbers::graph_number;
use crate::graph_tables::{chain_at, looks_back, role_at};
use crate::step::{Step, key_of};
use hs_forest::{Builder, Forest};
use hs_rose::{ChainInfo, Program};
use std::alloc::{AllocError, Global};

/// The roles that have nodes, and the forest of the keys of those.
#[derive(Drop)]
pub(crate) struct Steps {
    /// The roles, in order.
    pub list: Vec<Step>,
    /// A node for each beginning of the keys of a chain.
    pub forest: Forest,
}

impl Steps {
    /// Those of all chains of the program. The keys of a chain are given back before the next one.
    pub fn of_program(alloc: Global, program: &Program) -> Result<Steps, AllocError>
        requires { IsReady program.now }
        ensures { IfOk result (λ steps. IsForestFor program.now steps.list.items steps.forest) }
    {
        let mut list = Vec::new(alloc);
        let mut builder = Builder::new(alloc);
        for number in 0..program.chains().len() {
            let keys = keys_of_chain(alloc, program, number, &mut list)?;
            builder.add_chain(&keys)?;
        }
        let forest = builder.finish(alloc)?;
        Ok(Steps { list, forest })
    }
}

/// Puts the role of that number behind the others, and its key behind those of its chain, if it has a node.
fn add_role(
    program: &Program,
    chain: &ChainInfo,
    i: usize,
    keys: &mut Vec<usize>,
    list: &mut Vec<Step>,
) -> Result<(), AllocError>
    requires ready { IsReady program.now }
    requires chain { IsOneOf program.now chain.now }
    requires low { chain.now.first ≤ i }
    requires high { i < chain.now.end }
    ensures { IfOk result (λ done. (before : List (List ℕ)) (number : ℕ) →
        slice_get program.now.chains number ≡ Some chain.now →
        AreStepsWithin program.now before number chain.now i keys.old.items list.old.items →
        AreStepsWithin program.now before number chain.now (i + 1) keys.new.items list.new.items) }
{
    if looks_back(role_at(program, i)) {
        return Ok(());
    }
    let kind = kind_at(program, chain, i)?;
    keys.push(key_of(kind)?)?;
    list.push(Step {
        role: graph_number(i)?,
        kind,
    })?;
    Ok(())
}

/// Puts the roles of the chain of that number behind the others, and gives its keys.
fn keys_of_chain(
    alloc: Global,
    program: &Program,
    number: usize,
    list: &mut Vec<Step>,
) -> Result<Vec<usize>, AllocError>
    requires ready { IsReady program.now }
    requires there { number < length program.now.chains }
    ensures { IfOk result (λ keys. (before : List (List ℕ)) → length before ≡ number →
        AreStepsOfChains program.now before list.old.items →
        AreStepsOfChains program.now (before ++ keys.items ∷ []) list.new.items) }
{
    let chain = chain_at(program, number);
    let mut keys = Vec::new(alloc);
    for i in chain.first..chain.end {
        add_role(program, &chain, i, &mut keys, list)?;
    }
    Ok(keys)
}
