//! Reads the text of an expression as its tree, from left to right: alternatives, sequences, items and groups.
ghost use Rattle.std.specs.Prelude.{◌≡◌, ◌≢◌, ◌≤◌, map, length, IfOk, IfErr, MatchOption};
ghost use Rattle.hs_base.specs.Trees.{IsProper};
ghost use Rattle.hs_expr.specs.Meaning.{tree_of};
ghost use Rattle.hs_parse.specs.Grammar.{sequence_tree, alternation_tree, Reads};
ghost use Rattle.hs_parse.specs.Faults.{IsParseFault};
ghost use Rattle.hs_parse.specs.Reading.{IsToken, FromEach, EndsSequence, StopsFrom};
ghost use Rattle.hs_parse.specs.Reading.{ReadsAtom, ReadsItem, ReadsSequence, ReadsGroup};

use crate::fault::ParseFault;
use crate::points::points_at;
use crate::quantifier::quantifier_fault;
use crate::spot::Spot;
use crate::token::{Found, Token, next_token};
use hs_base::{Flags, Refusal};
use hs_expr::Expr;
use std::alloc::Global;

/// The greatest length of an expression's text, in bytes.
pub const MAX_TEXT_LEN: usize = 16_000;

/// The greatest number of groups that may be open at once.
pub const MAX_DEPTH: usize = 128;

/// Reads an expression (PCRE pattern syntax). Of the flags caseless, dotall, multiline and UTF-8 have an effect: under
/// the last one the text is to be UTF-8, and a character is a code point and no byte.
///
/// Refused are a text of more than `MAX_TEXT_LEN` bytes, and else the first form that can't be read: one that has no
/// meaning (`Syntax`), a letter behind a backslash that has none (`UnknownEscape`), a construct that isn't supported
/// (`Unsupported`), a bound of a quantifier that is too great (`RepeatLimit`), or a group within `MAX_DEPTH` others
/// (`DepthLimit`). Of several at one place it is the one of least number.
pub fn parse(alloc: Global, text: &[u8], flags: Flags) -> Result<Expr, ParseFault>
    ensures read { IfOk result (λ expr. Reads text.now flags (tree_of expr)) }
    ensures proper { IfOk result (λ expr. IsProper (tree_of expr)) }
    ensures refused { IfErr result (IsParseFault text.now flags) }
{
    if text.len() > MAX_TEXT_LEN {
        return Err(ParseFault::Refused(Refusal::LengthLimit));
    }
    let (expr, end) = alternation_at(alloc, text, 0, Spot::of(flags))?;
    let found = next_token(text, end);
    if !found.token.is_end() {
        return Err(ParseFault::Refused(Refusal::Syntax(found.start.place as u32)));
    }
    Ok(expr)
}

/// The tree of the alternatives from a spot to the end of their group, and the spot behind the last one.
#[cycle(parser)]
fn alternation_at(
    alloc: Global,
    text: &[u8],
    depth: usize,
    start: Spot,
) -> Result<(Expr, Spot), ParseFault>
    requires deep { depth ≤ MAX_DEPTH }
    requires within { start.place ≤ length text.now }
    requires short { length text.now ≤ MAX_TEXT_LEN }
    ensures read { IfOk result (λ found. ReadsGroup text.now depth start (tree_of found.0) found.1) }
    ensures refused { IfErr result (StopsFrom text.now depth start) }
{
    let mut alternatives = Vec::new(alloc);
    let mut at = start;
    loop {
        let (sequence, end) = sequence_at(alloc, text, depth, at)?;
        alternatives.push(sequence)?;
        let found = next_token(text, end);
        if !found.token.is_bar() {
            return Ok((alternation_of(alternatives), end));
        }
        at = found.behind;
    }
}

/// The tree of the sequence from a spot to its end, and the spot behind its last item.
#[cycle(parser)]
fn sequence_at(
    alloc: Global,
    text: &[u8],
    depth: usize,
    start: Spot,
) -> Result<(Expr, Spot), ParseFault>
    requires deep { depth ≤ MAX_DEPTH }
    requires within { start.place ≤ length text.now }
    requires short { length text.now ≤ MAX_TEXT_LEN }
    ensures read { IfOk result (λ found. ReadsSequence text.now depth start (tree_of found.0) found.1) }
    ensures refused { IfErr result (StopsFrom text.now depth start) }
{
    let mut items = Vec::new(alloc);
    let mut at = start;
    loop {
        let found = next_token(text, at);
        if found.token.is_setting() {
            at = found.behind;
            continue;
        }
        let Some((item, end)) = item_at(alloc, text, depth, found)? else {
            return Ok((sequence_of(items), at));
        };
        items.push(item)?;
        at = end;
    }
}

/// The tree of the item that the next token begins, and the spot behind it; `None` where the sequence ends.
#[cycle(parser)]
fn item_at(
    alloc: Global,
    text: &[u8],
    depth: usize,
    found: Found,
) -> Result<Option<(Expr, Spot)>, ParseFault>
    requires deep { depth ≤ MAX_DEPTH }
    requires next { IsToken text.now found }
    requires item { found.token ≢ Token.Setting }
    requires short { length text.now ≤ MAX_TEXT_LEN }
    ensures read { IfOk result (λ read. FromEach text.now found (λ at. MatchOption read
        (EndsSequence text.now at)
        (λ item. ReadsItem text.now depth at (tree_of item.0) item.1))) }
    ensures refused { IfErr result (λ fault. FromEach text.now found (λ at. StopsFrom text.now depth at fault)) }
{
    let Some((atom, middle)) = atom_at(alloc, text, depth, found)? else {
        return Ok(None);
    };
    let next = next_token(text, middle);
    let Some((least, greatest, possessive)) = next.token.quantifier() else {
        return Ok(Some((atom, middle)));
    };
    if let Some(refusal) = quantifier_fault(next.start.place, least, greatest, possessive) {
        return Err(ParseFault::Refused(refusal));
    }
    let behind = next_token(text, next.behind);
    if behind.token.is_quantifier() {
        return Err(ParseFault::Refused(Refusal::Syntax(behind.start.place as u32)));
    }
    let body = Box::new(alloc, atom)?;
    Ok(Some((Expr::Repeat(body, least, greatest), next.behind)))
}

/// The tree of the atom that the next token begins, and the spot behind it; `None` where the sequence ends.
#[cycle(parser)]
fn atom_at(
    alloc: Global,
    text: &[u8],
    depth: usize,
    found: Found,
) -> Result<Option<(Expr, Spot)>, ParseFault>
    requires deep { depth ≤ MAX_DEPTH }
    requires next { IsToken text.now found }
    requires item { found.token ≢ Token.Setting }
    requires short { length text.now ≤ MAX_TEXT_LEN }
    ensures read { IfOk result (λ read. FromEach text.now found (λ at. MatchOption read
        (EndsSequence text.now at)
        (λ atom. ReadsAtom text.now depth at (tree_of atom.0) atom.1))) }
    ensures refused { IfErr result (λ fault. FromEach text.now found (λ at. StopsFrom text.now depth at fault)) }
{
    match found.token {
        Token::End | Token::Closing | Token::Bar | Token::Setting => Ok(None),
        Token::Single(set) => Ok(Some((Expr::Class(set), found.behind))),
        Token::Point => {
            let ranges = points_at(alloc, text, found.start)?;
            Ok(Some((Expr::Points(ranges), found.behind)))
        }
        Token::Assert(assertion) => Ok(Some((Expr::Assert(assertion), found.behind))),
        Token::Opening => Ok(Some(group_at(alloc, text, depth, found)?)),
        Token::Quantifier(_, _, _) => {
            Err(ParseFault::Refused(Refusal::Syntax(found.start.place as u32)))
        }
        Token::Refused(refusal) => Err(ParseFault::Refused(refusal)),
    }
}

/// The tree of the group that the next token opens, and the spot behind it.
#[cycle(parser)]
fn group_at(
    alloc: Global,
    text: &[u8],
    depth: usize,
    found: Found,
) -> Result<(Expr, Spot), ParseFault>
    requires deep { depth ≤ MAX_DEPTH }
    requires next { IsToken text.now found }
    requires opens { found.token ≡ Token.Opening }
    requires short { length text.now ≤ MAX_TEXT_LEN }
    ensures read { IfOk result
        (λ group. FromEach text.now found (λ at. ReadsAtom text.now depth at (tree_of group.0) group.1)) }
    ensures refused { IfErr result (λ fault. FromEach text.now found (λ at. StopsFrom text.now depth at fault)) }
{
    if depth == MAX_DEPTH {
        return Err(ParseFault::Refused(Refusal::DepthLimit));
    }
    let (body, last) = alternation_at(alloc, text, depth + 1, found.behind)?;
    let close = next_token(text, last);
    if close.token.is_end() {
        return Err(ParseFault::Refused(Refusal::Syntax(close.start.place as u32)));
    }
    let behind = Spot {
        place: close.behind.place,
        mode: found.start.mode,
    };
    Ok((body, behind))
}

/// The tree of a sequence.
fn sequence_of(mut items: Vec<Expr>) -> Expr
    ensures { tree_of result ≡ sequence_tree (map tree_of items.items) }
{
    match items.len() {
        0 => Expr::Empty,
        1 => items.pop().unwrap(),
        _ => Expr::Cat(items),
    }
}

/// The tree of alternatives.
fn alternation_of(mut alternatives: Vec<Expr>) -> Expr
    ensures { tree_of result ≡ alternation_tree (map tree_of alternatives.items) }
{
    match alternatives.len() {
        1 => alternatives.pop().unwrap(),
        _ => Expr::Alt(alternatives),
    }
}
