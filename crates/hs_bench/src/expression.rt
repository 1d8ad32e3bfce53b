//! The first expression of a database file, and the engines that run it as one piece.

ghost use Rattle.std.specs.Prelude.{◌≡◌, ◌≤◌, false, IfOk, IfSome, length, map};
ghost use Rattle.hs_base.specs.EndAssertions.{has_embedded_end};
ghost use Rattle.hs_base.specs.WrittenOut.{IsPlain, count, write_out};
ghost use Rattle.hs_compile.specs.Lists.{IsReadTree};
ghost use Rattle.hs_dfa.specs.DfaEngines.{meaning_of_dfa};
ghost use Rattle.hs_expr.specs.Meaning.{tree_of};
ghost use Rattle.hs_rose.specs.Listing.{asked_of, plain_chains};
ghost use Rattle.hs_rose.specs.Programs.{IsProgramOf};
ghost use Rattle.hs_bench.specs.Expressions.{IsFirstIn, one_piece};

use hs_base::{Entry, MAX_POSITIONS};
use hs_dbfile::decode_file;
use hs_dfa::Dfa;
use hs_expr::{Expr, has_embedded_end, is_plain, positions};
use hs_glushkov::build;
use hs_parse::parse;
use hs_pieces::{Chain, Piece};
use hs_rose::Program;
use hs_utf8::lower;
use std::alloc::{AllocError, Global};
use std::io::{self, ErrorKind};

/// The first entry of a database file, alone.
pub(crate) fn first_entry(alloc: Global, bytes: &[u8]) -> io::Result<Vec<Entry>>
    ensures { IfOk result (λ entries. IsFirstIn bytes.now entries.items) }
{
    let Ok(mut entries) = decode_file(alloc, bytes) else {
        return Err(ErrorKind::InvalidData.into());
    };
    entries.truncate(1);
    Ok(entries)
}

/// The expression of an entry, in bytes.
pub(crate) fn expression_of(alloc: Global, entry: &Entry) -> io::Result<Expr>
    ensures { IfOk result (λ expr. IsReadTree entry.now.text.items entry.now.flags (tree_of expr)) }
{
    let Ok(expr) = parse(alloc, &entry.text, entry.flags) else {
        return Err(ErrorKind::InvalidInput.into());
    };
    Ok(lower(alloc, &expr)?)
}

/// The engine of an expression by states; None where it has too many.
fn states_of(alloc: Global, expr: &Expr) -> Result<Option<Dfa>, AllocError>
    requires plain { IsPlain (tree_of expr.now) }
    requires few { count (write_out (tree_of expr.now)) ≤ 512 }
    requires ends_last { has_embedded_end (tree_of expr.now) false ≡ false }
    ensures { IfOk result (λ found. IfSome found (λ dfa. (meaning_of_dfa dfa).is_for (tree_of expr.now))) }
{
    let automaton = build(alloc, expr)?;
    Dfa::build(alloc, &automaton)
}

/// The chains of a list of one entry, whose expression is one piece.
fn one_piece(alloc: Global, expr: Expr) -> Result<Vec<Vec<Chain>>, AllocError>
    ensures { IfOk result (λ chains. map plain_chains chains.items ≡ one_piece (tree_of expr)) }
{
    let mut pieces = Vec::new(alloc);
    pieces.push(Piece::Nfa(expr))?;
    let mut chain = Vec::new(alloc);
    chain.push(Chain(pieces))?;
    let mut chains = Vec::new(alloc);
    chains.push(chain)?;
    Ok(chains)
}

/// The program of one entry whose expression is one piece.
fn program_of(alloc: Global, entries: &[Entry], expr: Expr) -> Result<Program, AllocError>
    requires one { length entries.now ≡ 1 }
    requires plain { IsPlain (tree_of expr) }
    requires few { count (write_out (tree_of expr)) ≤ 512 }
    requires ends_last { has_embedded_end (tree_of expr) false ≡ false }
    ensures { IfOk result (λ program. IsProgramOf program (map asked_of entries.now) (one_piece (tree_of expr))) }
{
    let chains = one_piece(alloc, expr)?;
    Program::build(alloc, entries, &chains)
}

/// What runs one expression.
#[derive(Drop)]
pub(crate) struct Engines {
    /// The program in which it is one piece.
    pub(crate) program: Program,
    /// Its engine by states, if it has few enough.
    pub(crate) by_states: Option<Dfa>,
}

/// What runs the expression of one entry.
fn make(alloc: Global, entries: &[Entry], expr: Expr) -> Result<Engines, AllocError>
    requires one { length entries.now ≡ 1 }
    requires plain { IsPlain (tree_of expr) }
    requires few { count (write_out (tree_of expr)) ≤ 512 }
    requires ends_last { has_embedded_end (tree_of expr) false ≡ false }
    ensures program { IfOk result (λ engines.
        IsProgramOf engines.program (map asked_of entries.now) (one_piece (tree_of expr))) }
    ensures states { IfOk result (λ engines.
        IfSome engines.by_states (λ dfa. (meaning_of_dfa dfa).is_for (tree_of expr))) }
{
    let by_states = states_of(alloc, &expr)?;
    let program = program_of(alloc, entries, expr)?;
    Ok(Engines { program, by_states })
}

/// What runs the expression of one entry; None where it has no automaton.
pub(crate) fn engines_of(
    alloc: Global,
    entries: &[Entry],
    expr: Expr,
) -> Result<Option<Engines>, AllocError>
    ensures program { IfOk result (λ found. IfSome found (λ engines.
        IsProgramOf engines.program (map asked_of entries.now) (one_piece (tree_of expr)))) }
    ensures states { IfOk result (λ found. IfSome found (λ engines.
        IfSome engines.by_states (λ dfa. (meaning_of_dfa dfa).is_for (tree_of expr)))) }
{
    if entries.len() == 1
        && is_plain(&expr)
        && positions(&expr) <= MAX_POSITIONS
        && !has_embedded_end(&expr, false)
    {
        Ok(Some(make(alloc, entries, expr)?))
    } else {
        Ok(None)
    }
}
