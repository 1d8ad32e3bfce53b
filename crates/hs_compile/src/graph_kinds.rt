//! What the node of a role runs.

ghost use Rattle.std.specs.Prelude.{◌≡◌, ◌<◌, ◌≤◌, ℕ, length, slice_get, IfOk, Option, Some};
ghost use Rattle.hs_rose.specs.declared.kind.Kind.TheVariants as kinds;
ghost use Rattle.hs_rose.specs.declared.engine.PieceEngine.{PieceEngine};
ghost use Rattle.hs_rose.specs.Naming.{literal_of};
ghost use Rattle.hs_rose.specs.PieceEngines.{piece_meaning};
ghost use Rattle.hs_nodes.specs.Edges.{HasEdges};
ghost use Rattle.hs_nodes.specs.declared.table.NodeKind.TheVariants as nodes;
ghost use Rattle.hs_compile.specs.GraphKinds.{HasLength, IsKeptMask, IsKindAt, IsKindOf, IsPairOf};
ghost use Rattle.hs_compile.specs.GraphTables.{IsOneOf, IsReady, LooksBack};

use crate::graph_numbers::graph_number;
use crate::graph_tables::{literal_size, looks_back, role_at};
use hs_base::{ByteSet, Mask};
use hs_nodes::{LookBackPair, NodeKind};
use hs_rose::{ChainInfo, Kind, PieceEngine, Program, Role};
use hs_waking::PrevSet;
use std::alloc::AllocError;

/// The contexts of a mask, if it has any.
fn kept_mask(mask: Mask) -> Option<Mask>
    ensures { IsKeptMask result mask }
{
    if mask == Mask::empty() {
        return None;
    }
    Some(mask)
}

/// The kind of the node of a literal that is entered everywhere.
fn bare_kind(program: &Program, number: usize) -> Result<NodeKind, AllocError>
    requires ready { IsReady program.now }
    requires there { number < length program.now.literals }
    ensures { IfOk result (λ own. (len : ℕ) × HasLength program.now number len
        × (own ≡ nodes.FirstLiteral number len)) }
{
    Ok(NodeKind::FirstLiteral(graph_number(number)?, literal_size(program, number)))
}

/// The kind of the node of a literal behind other pieces.
fn entered_kind(program: &Program, number: usize) -> Result<NodeKind, AllocError>
    requires ready { IsReady program.now }
    requires there { number < length program.now.literals }
    ensures { IfOk result (λ own. (len : ℕ) × HasLength program.now number len × (own ≡ nodes.Literal number len)) }
{
    Ok(NodeKind::Literal(graph_number(number)?, literal_size(program, number)))
}

/// The kind of the node of an engine.
fn engine_kind(number: usize, null: Mask) -> Result<NodeKind, AllocError>
    ensures { IfOk result (λ own. (kept : Option Mask) × IsKeptMask kept null × (own ≡ nodes.Engine number kept)) }
{
    Ok(NodeKind::Engine(graph_number(number)?, kept_mask(null)))
}

/// The kind of the node of a role whose piece stands there by itself.
pub(crate) fn kind_of(program: &Program, role: &Role) -> Result<NodeKind, AllocError>
    requires ready { IsReady program.now }
    requires named { (number : ℕ) → literal_of role.now ≡ Some number → number < length program.now.literals }
    ensures { IfOk result (λ own. IsKindOf program.now role.now own) }
{
    match role.kind() {
        Kind::BareLiteral => bare_kind(program, role.number()),
        Kind::Literal => entered_kind(program, role.number()),
        Kind::LookBack | Kind::Positions | Kind::Dfa | Kind::First | Kind::Last | Kind::Ring =>
            engine_kind(role.number(), role.null()),
    }
}

/// What may stand before a match of the engine, and the bytes that may be its last one.
fn edges_of(engine: &PieceEngine) -> (PrevSet, ByteSet)
    ensures { HasEdges (piece_meaning engine.now) result.0 result.1 }
{
    (engine.beginnings().behind, engine.last_bytes())
}

/// The same of the engine of that number. Where there is none, it is all of them.
fn edges_at(engines: &[PieceEngine], number: usize) -> (PrevSet, ByteSet)
    ensures { (e : PieceEngine) → slice_get engines.now number ≡ Some e →
        HasEdges (piece_meaning e) result.0 result.1 }
{
    match engines.get(number) {
        Some(engine) => edges_of(engine),
        None => (PrevSet::all(), ByteSet::ALL),
    }
}

/// The kind of the node of a literal behind a piece that looks back.
pub(crate) fn pair_kind(
    program: &Program,
    before: &Role,
    role: &Role,
) -> Result<NodeKind, AllocError>
    requires ready { IsReady program.now }
    requires looks_back { LooksBack before.now }
    requires bare { role.now.kind ≡ kinds.BareLiteral }
    requires there { role.now.number < length program.now.literals }
    ensures { IfOk result (λ own. IsPairOf program.now before.now role.now own) }
{
    let (behind, last) = edges_at(program.engines(), before.number());
    Ok(NodeKind::LookBack(LookBackPair {
        engine: graph_number(before.number())?,
        null: kept_mask(before.null()),
        behind,
        last,
        literal: graph_number(role.number())?,
        len: literal_size(program, role.number()),
    }))
}

/// The kind of the node of the role of that number in the chain.
pub(crate) fn kind_at(
    program: &Program,
    chain: &ChainInfo,
    i: usize,
) -> Result<NodeKind, AllocError>
    requires ready { IsReady program.now }
    requires chain { IsOneOf program.now chain.now }
    requires low { chain.now.first ≤ i }
    requires high { i < chain.now.end }
    ensures { IfOk result (λ own. IsKindAt program.now chain.now.first i own) }
{
    let role = role_at(program, i);
    if i == chain.first {
        return kind_of(program, role);
    }
    let before = role_at(program, i - 1);
    if looks_back(before) {
        return pair_kind(program, before, role);
    }
    kind_of(program, role)
}
