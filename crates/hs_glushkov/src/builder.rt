//! The position automaton of an expression, part by part.

ghost use Rattle.std.specs.Prelude.{◌≡◌, ℕ, ◌+◌, ◌*◌, ◌≤◌, false, map, IfOk, IfSome, Option, vec_len};
ghost use Rattle.hs_base.specs.Contexts.{Context};
ghost use Rattle.hs_base.specs.ContextSets.{has_context};
ghost use Rattle.hs_base.specs.EndAssertions.{has_embedded_end};
ghost use Rattle.hs_base.specs.WrittenOut.{IsPlain, ArePlain, empty, count, write_out, repeat_of};
ghost use Rattle.hs_expr.specs.Meaning.{tree_of, trees_of};
ghost use Rattle.hs_expr.specs.Counts.{written_copies};
ghost use Rattle.hs_base.specs.AssertionTests.{has_assertion};
ghost use Rattle.hs_glushkov.specs.BuiltParts.{table_of};
ghost use Rattle.hs_glushkov.specs.Cores.{alt_of, cat_of, core_of};
ghost use Rattle.hs_glushkov.specs.Parts.{Table, IsAdded, IsClear, IsRow, null_in_copies};
ghost use Rattle.hs_engine.specs.Tables.{Runs};

use crate::assertion_test::has_assertion;
use crate::parts::Parts;
use crate::row_filling::rows_of;
use hs_base::Mask;
use hs_engine::Automaton;
use hs_expr::{Expr, positions};
use std::alloc::{AllocError, Global};

/// The position automaton of an expression of at most `MAX_POSITIONS` positions, without code points, in which no end
/// assertion is followed by consumption. The time that it takes, and the memory, go by the nodes and the positions, and
/// not by the copies of bodies that have none.
pub fn build(alloc: Global, expr: &Expr) -> Result<Automaton, AllocError>
    requires plain { IsPlain (tree_of expr.now) }
    requires few { count (write_out (tree_of expr.now)) ≤ 512 }
    requires ends_last { has_embedded_end (tree_of expr.now) false ≡ false }
    ensures runs { IfOk result (λ automaton. Runs automaton (tree_of expr.now)) }
    ensures assertion { IfOk result (λ automaton. automaton.has_assertion ≡ has_assertion (tree_of expr.now)) }
{
    let mut parts = Parts::new(alloc, positions(expr) as usize)?;
    let null = add(expr, &mut parts);
    let follows = rows_of(alloc, &parts.follows)?;
    Ok(Automaton::new(
        parts.sets,
        parts.enters,
        parts.accepts,
        follows,
        null,
        has_assertion(expr),
    ))
}

/// Puts the positions of the expression behind the others. Gives the contexts in which the empty text matches.
#[cycle(add)]
fn add(expr: &Expr, parts: &mut Parts) -> Mask
    requires clear { IsClear (table_of parts.old) parts.old.filled }
    requires plain { IsPlain (tree_of expr.now) }
    requires room { parts.old.filled + count (core_of expr.now) ≤ vec_len parts.old.sets }
    ensures size { vec_len parts.new.sets ≡ vec_len parts.old.sets }
    ensures filled { parts.new.filled ≡ parts.old.filled + count (core_of expr.now) }
    ensures added { IsAdded (table_of parts.old) (table_of parts.new) parts.old.filled (core_of expr.now)
        (has_context result) }
{
    match expr {
        Expr::Empty => Mask::all(),
        Expr::Class(set) => parts.add_class(*set),
        Expr::Points(_) => unreachable!(),
        Expr::Assert(assertion) => Mask::of(*assertion),
        Expr::Cat(items) => add_cat(items, parts),
        Expr::Alt(items) => add_alt(items, parts),
        Expr::Repeat(body, least, greatest) => add_repeat(body, *least, *greatest, parts),
    }
}

/// The items, one after the other: all so far are joined with each.
#[cycle(add)]
fn add_cat(items: &[Expr], parts: &mut Parts) -> Mask
    requires clear { IsClear (table_of parts.old) parts.old.filled }
    requires plain { ArePlain (trees_of (map tree_of items.now)) }
    requires room { parts.old.filled + count (cat_of items.now) ≤ vec_len parts.old.sets }
    ensures size { vec_len parts.new.sets ≡ vec_len parts.old.sets }
    ensures filled { parts.new.filled ≡ parts.old.filled + count (cat_of items.now) }
    ensures added { IsAdded (table_of parts.old) (table_of parts.new) parts.old.filled
        (cat_of items.now) (has_context result) }
{
    let start = parts.filled;
    let mut null = Mask::all();
    for item in items {
        let middle = parts.filled;
        let last = add(item, parts);
        parts.join(start, middle, null, last);
        null = null.intersection(last);
    }
    null
}

/// The alternatives.
#[cycle(add)]
fn add_alt(items: &[Expr], parts: &mut Parts) -> Mask
    requires clear { IsClear (table_of parts.old) parts.old.filled }
    requires plain { ArePlain (trees_of (map tree_of items.now)) }
    requires room { parts.old.filled + count (alt_of items.now) ≤ vec_len parts.old.sets }
    ensures size { vec_len parts.new.sets ≡ vec_len parts.old.sets }
    ensures filled { parts.new.filled ≡ parts.old.filled + count (alt_of items.now) }
    ensures added { IsAdded (table_of parts.old) (table_of parts.new) parts.old.filled
        (alt_of items.now) (has_context result) }
{
    let mut null = Mask::empty();
    for item in items {
        null = null.union(add(item, parts));
    }
    null
}

/// The copies of the body. One without positions is built once, however many copies there are.
#[cycle(add)]
fn add_repeat(body: &Expr, least: u32, greatest: Option<u32>, parts: &mut Parts) -> Mask
    requires clear { IsClear (table_of parts.old) parts.old.filled }
    requires plain { IsPlain (tree_of body.now) }
    requires ordered { IfSome greatest (λ most. least ≤ most) }
    requires room { parts.old.filled + count (repeat_of least greatest (core_of body.now)) ≤ vec_len parts.old.sets }
    ensures size { vec_len parts.new.sets ≡ vec_len parts.old.sets }
    ensures filled { parts.new.filled ≡ parts.old.filled + count (repeat_of least greatest (core_of body.now)) }
    ensures added { IsAdded (table_of parts.old) (table_of parts.new) parts.old.filled
        (repeat_of least greatest (core_of body.now)) (has_context result) }
{
    let copies = written_copies(least, greatest);
    if copies == 0 {
        return Mask::all();
    }
    let start = parts.filled;
    let null = add(body, parts);
    let width = parts.filled - start;
    if width == 0 {
        return null_of_copies(least, null);
    }
    add_copies(body, copies - 1, parts);
    parts.repeat(start, width, least, greatest, null)
}

/// Puts so many copies of the body in a row behind the others.
#[cycle(add)]
fn add_copies(body: &Expr, copies: u32, parts: &mut Parts)
    requires clear { IsClear (table_of parts.old) parts.old.filled }
    requires plain { IsPlain (tree_of body.now) }
    requires room { parts.old.filled + copies * count (core_of body.now) ≤ vec_len parts.old.sets }
    ensures size { vec_len parts.new.sets ≡ vec_len parts.old.sets }
    ensures filled { parts.new.filled ≡ parts.old.filled + copies * count (core_of body.now) }
    ensures row { (old : Table) (n k : ℕ) →
        IsRow old (table_of parts.old) n (core_of body.now) k empty parts.old.filled →
        IsRow old (table_of parts.new) n (core_of body.now) (k + copies) empty parts.new.filled }
{
    for _copy in 0..copies {
        add(body, parts);
    }
}

/// How many copies of its body a repeat has written out: the last one of a repeat without a bound goes round.
fn written_copies(least: u32, greatest: Option<u32>) -> u32
    ensures { result ≡ written_copies least greatest }
{
    match greatest {
        None => least.max(1),
        Some(most) => most,
    }
}

/// The contexts in which the empty text matches in place of copies without positions, of which so many must be taken.
fn null_of_copies(least: u32, null: Mask) -> Mask
    ensures { (c : Context) → has_context result c ≡ null_in_copies least (has_context null c) }
{
    if least == 0 { Mask::all() } else { null }
}
