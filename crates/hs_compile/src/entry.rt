//! One entry of a list: its expression is read in bytes, then checked, then split.

ghost use Rattle.std.specs.Prelude.{◌≡◌, ◌≤◌, ◌<◌, ◌^◌, suc, ◌++◌, ◌∷◌, [], List, length, map};
ghost use Rattle.std.specs.Prelude.{IfOk, IfErr, IfNone, IfSome, MatchOption};
ghost use Rattle.std.specs.List.{AllZip};
ghost use Rattle.hs_base.specs.declared.refusal.Refusal.{Refusal};
ghost use Rattle.hs_base.specs.declared.refusal.Refusal.TheVariants.{CountLimit};
ghost use Rattle.hs_base.specs.Entries.{ListedEntry, listed};
ghost use Rattle.hs_base.specs.Lists.{Each};
ghost use Rattle.hs_base.specs.Patterns.{Pattern};
ghost use Rattle.hs_expr.specs.Meaning.{tree_of};
ghost use Rattle.hs_parse.specs.Faults.{Fault};
ghost use Rattle.hs_pieces.specs.Meaning.{plain_chain};
ghost use Rattle.hs_rose.specs.Plans.{chains_size};
ghost use Rattle.hs_rose.specs.Runnable.{IsRunnableChain};
ghost use Rattle.hs_compile.specs.Answers.{IsCompiledEntry, IsEntryCause, IsLate, IsLesser};
ghost use Rattle.hs_compile.specs.Counting.{AreCounts, IsSmall, pattern_size};
ghost use Rattle.hs_compile.specs.Lists.{HasRefusal, IsReadAs, IsReadTree, IsRefusalOf, greatest_count};
ghost use Rattle.hs_compile.specs.Remembered.{Precede, Remembers};
ghost use Rattle.hs_compile.specs.Sizes.{IsSizeOf};

use crate::compiler::MAX_ENTRIES;
use crate::counts::Counts;
use crate::fault::CompileFault;
use crate::reading::read_expr;
use crate::seen::{Seen, asks_single};
use hs_base::{Entry, Refusal};
use hs_expr::Expr;
use hs_layout::MAX_SIZE;
use hs_parse::ParseFault;
use hs_pieces::Chain;
use hs_rose::{fields_size, runnable_chains};
use hs_support::{check, flags_fault};
use std::alloc::Global;

/// The chains of the expression of the entry of that number, counted from 1, behind those that were seen and counted,
/// and what is counted with it.
pub fn compile_entry(
    alloc: Global,
    number: u32,
    seen: &Seen,
    counts: Counts,
    entry: &Entry,
) -> Result<(Vec<Chain>, Counts), CompileFault>
    ensures compiled { IfOk result (λ (chains, next). (before : List ListedEntry) (P : List Pattern) →
        Precede before P number seen.now counts → IsCompiledEntry before P (listed entry.now) chains next) }
    ensures refused { IfErr result (λ fault. (before : List ListedEntry) (P : List Pattern) →
        Precede before P number seen.now counts → IsEntryCause before (listed entry.now) fault) }
{
    let expr = match read_expr(alloc, &entry.text, entry.flags) {
        Ok(expr) => expr,
        Err(ParseFault::Refused(fault)) => {
            let refusal = unread_refusal(entry, fault);
            return Err(refused(number, entry, refusal));
        }
        Err(ParseFault::Memory) => return Err(CompileFault::Memory),
    };
    if let Some(refusal) = early_refusal(number, entry, &expr) {
        return Err(refused(number, entry, refusal));
    }
    let chains = runnable_chains(alloc, &expr)?;
    let Some(next) = counts_with(seen, counts, entry, &chains) else {
        return Err(CompileFault::Memory);
    };
    let Some(size) = next.size() else {
        return Err(CompileFault::Memory);
    };
    if let Some(refusal) = late_refusal(seen, entry, size) {
        return Err(refused(number, entry, refusal));
    }
    Ok((chains, next))
}

/// The fault of a list that is refused by the entry of that number.
fn refused(number: u32, entry: &Entry, refusal: Refusal) -> CompileFault
    ensures { (before : List ListedEntry) → number ≡ suc (length before) →
        IsRefusalOf before (listed entry.now) refusal → IsEntryCause before (listed entry.now) result }
{
    CompileFault::Refused {
        entry: number,
        id: entry.id,
        refusal,
    }
}

/// The refusal of an entry whose expression isn't read, for this reason.
fn unread_refusal(entry: &Entry, fault: Refusal) -> Refusal
    ensures { (before : List ListedEntry) → Fault entry.now.text.items entry.now.flags fault →
        IsRefusalOf before (listed entry.now) result }
{
    lesser(fault, flags_fault(entry.flags, entry.ext))
}

/// The refusal of lesser number, the first one where they have the same.
fn lesser(refusal: Refusal, other: Option<Refusal>) -> Refusal
    ensures { IsLesser refusal other result }
{
    match other {
        None => refusal,
        Some(other) => {
            if other.number() < refusal.number() {
                other
            } else {
                refusal
            }
        }
    }
}

/// The refusal of the entry of that number, whose expression is that tree in bytes, if it has one that is asked before
/// the size of the list: by its flags, its parameters or its tree, or since there are too many entries.
fn early_refusal(number: u32, entry: &Entry, expr: &Expr) -> Option<Refusal>
    ensures late { IfNone result (IsLate entry.now.flags entry.now.ext (tree_of expr.now)) }
    ensures least { (before : List ListedEntry) → number ≡ suc (length before) →
        IsReadTree entry.now.text.items entry.now.flags (tree_of expr.now) →
        MatchOption result (number ≤ greatest_count) (IsRefusalOf before (listed entry.now)) }
{
    match check(expr, entry.flags, entry.ext) {
        Ok(()) => count_refusal(number),
        Err(refusal) => {
            if refusal.number() < Refusal::CountLimit.number() {
                Some(refusal)
            } else {
                count_refusal(number)
            }
        }
    }
}

/// The refusal of an entry by its number.
fn count_refusal(number: u32) -> Option<Refusal>
    ensures { MatchOption result (number ≤ greatest_count)
        (λ refusal. (refusal ≡ CountLimit) × (greatest_count < number)) }
{
    if number as usize > MAX_ENTRIES {
        return Some(Refusal::CountLimit);
    }
    None
}

/// What is counted with the entry, which has these chains. None where a `u64` can't tell how many bytes their fields
/// take.
fn counts_with(seen: &Seen, counts: Counts, entry: &Entry, chains: &[Chain]) -> Option<Counts>
    requires runnable { Each IsRunnableChain (map plain_chain chains.now) }
    ensures { IfSome result (λ next. (before : List ListedEntry) (P : List Pattern) (x : Pattern) →
        length P < 2 ^ 32 → Remembers before seen.now → AllZip IsReadAs before P → AreCounts P counts →
        IsReadAs (listed entry.now) x → pattern_size x ≡ chains_size (map plain_chain chains.now) →
        AreCounts (P ++ x ∷ []) next) }
{
    let Some(size) = fields_size(chains) else {
        return None;
    };
    let named = counts.with_name(seen.known(entry), asks_single(entry));
    named.with_fields(size)
}

/// The refusal of an entry that has none that is asked before the size of the list, which is so many bytes with it: the
/// list is too large with it, or the entry is mixed, or its bounds aren't in order.
fn late_refusal(seen: &Seen, entry: &Entry, size: u64) -> Option<Refusal>
    ensures { (before : List ListedEntry) (P : List Pattern) (x : Pattern) →
        Remembers before seen.now → AllZip IsReadAs before P → IsSmall P → IsReadAs (listed entry.now) x →
        IsSizeOf (P ++ x ∷ []) size → suc (length before) ≤ greatest_count →
        IsLate entry.now.flags entry.now.ext x.tree →
        MatchOption result
        (((refusal : Refusal) → HasRefusal before (listed entry.now) refusal → ⊥) × IsSmall (P ++ x ∷ []))
        (IsRefusalOf before (listed entry.now)) }
{
    if size > MAX_SIZE as u64 {
        return Some(Refusal::StateLimit(size));
    }
    if seen.is_mixed(entry) {
        return Some(Refusal::MixedSingle(entry.id));
    }
    if entry.ext.min_offset > entry.ext.max_offset {
        return Some(Refusal::OffsetOrder);
    }
    None
}
