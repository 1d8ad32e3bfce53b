//! A list made to what the plain runner runs. It is `#[cfg(test)]`.

ghost use Rattle.std.specs.Prelude.{◌≡◌, true, None, length, IfOk, map};
ghost use Rattle.hs_base.specs.Chains.{chains_of};
ghost use Rattle.hs_base.specs.Lists.{Each};
ghost use Rattle.hs_expr.specs.Meaning.{tree_of};
ghost use Rattle.hs_pieces.specs.Meaning.{plain_chain};
ghost use Rattle.hs_rose.specs.Listing.{plain_chains};
ghost use Rattle.hs_rose.specs.Runnable.{AreRunnable};
ghost use Rattle.hs_support.specs.PieceCounts.{first_excess_of};
ghost use Rattle.hs_run.specs.Programs.{IsRunnable};

use hs_base::{Entry, Flags};
use hs_expr::{Expr, has_embedded_end, is_plain};
use hs_layout::Layout;
use hs_parse::parse;
use hs_pieces::Chain;
use hs_rose::{Program, runnable_chains};
use hs_run::laws::built_programs_can_run;
use hs_run::{lay_out, region_size};
use hs_support::excess_positions;
use hs_utf8::lower;
use std::alloc::Global;
use std::marker::Model;
use std::test::Fail;

/// A program, and the layout of its regions.
#[derive(Drop)]
pub(crate) struct Setup {
    pub program: Program,
    pub layout: Layout,
}

impl Model for Setup {
    ghost use Rattle.hs_judge.specs.Setups.{Made, IsMade, made};

    ghost Value = { Made };

    ghost view = { λ s. made s.program s.layout };

    ghost invariant = { λ s. IsMade (made s.program s.layout) };
}

/// Whether each piece of the expression has few enough positions.
fn is_small(expr: &Expr) -> bool
    ensures { result ≡ true → first_excess_of (chains_of (tree_of expr.now)) ≡ None }
{
    excess_positions(expr).is_none()
}

/// The chains of an expression, which is lowered to bytes before.
fn chains_of(alloc: Global, text: &[u8], flags: Flags) -> Result<Vec<Chain>, Fail>
    ensures { IfOk result (λ chains. AreRunnable (map plain_chain chains.items)) }
{
    let expr = lower(alloc, &parse(alloc, text, flags)?)?;
    if is_plain(&expr) && is_small(&expr) && !has_embedded_end(&expr, false) {
        Ok(runnable_chains(alloc, &expr)?)
    } else {
        Err(Fail::new("an expression that isn't run"))
    }
}

/// The chains of the expression of each entry.
fn all_chains(alloc: Global, entries: &[Entry]) -> Result<Vec<Vec<Chain>>, Fail>
    ensures count { IfOk result (λ chains. length chains.items ≡ length entries.now) }
    ensures runnable { IfOk result (λ chains. Each AreRunnable (map plain_chains chains.items)) }
{
    let mut chains = Vec::new(alloc);
    for entry in entries {
        chains.push(chains_of(alloc, &entry.text, entry.flags)?)?;
    }
    Ok(chains)
}

/// The program of a list.
fn program_of(alloc: Global, entries: &[Entry]) -> Result<Program, Fail>
    ensures { IfOk result IsRunnable }
{
    let chains = all_chains(alloc, entries)?;
    if entries.len() > 1_000_000 {
        return Err(Fail::new("too many entries"));
    }
    built_programs_can_run();
    Ok(Program::build(alloc, entries, &chains)?)
}

impl Setup {
    /// What runs the list.
    pub fn of(alloc: Global, entries: &[Entry]) -> Result<Setup, Fail> {
        let program = program_of(alloc, entries)?;
        match region_size(&program) {
            None => Err(Fail::new("too large a region")),
            Some(_) => {
                let layout = lay_out(alloc, &program)?;
                Ok(Setup { program, layout })
            }
        }
    }
}
