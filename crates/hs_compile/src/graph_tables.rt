//! What is read of a program by number.

ghost use Rattle.std.specs.Prelude.{◌≡◌, ◌↔◌, ◌+◌, ◌-◌, ◌^◌, ◌<◌, ◌≤◌, ℕ, true, length, Some, slice_get};
ghost use Rattle.hs_rose.specs.Naming.{literal_of};
ghost use Rattle.hs_compile.specs.GraphKinds.{HasLength};
ghost use Rattle.hs_compile.specs.GraphTables.{IsReady, LooksBack};

use hs_rose::{ChainInfo, EntryInfo, Kind, Program, Role};

/// The role of that number.
pub(crate) fn role_at(program: &Program, i: usize) -> &Role
    requires there { i < length program.now.roles }
    ensures is { slice_get program.now.roles i ≡ Some result.now }
    ensures small { i + 1 < 2 ^ 64 }
    ensures named { (number : ℕ) → literal_of result.now ≡ Some number → number < length program.now.literals }
{
    &program.roles()[i]
}

/// The chain of that number.
pub(crate) fn chain_at(program: &Program, j: usize) -> ChainInfo
    requires there { j < length program.now.chains }
    ensures { slice_get program.now.chains j ≡ Some result }
{
    program.chains()[j]
}

/// What is asked of the entry of a chain.
pub(crate) fn info_of(program: &Program, chain: &ChainInfo) -> EntryInfo
    requires numbered { 1 ≤ chain.now.entry }
    requires there { chain.now.entry ≤ length program.now.entries }
    ensures { slice_get program.now.entries (chain.now.entry - 1) ≡ Some result }
{
    program.entries()[chain.entry as usize - 1]
}

/// Whether the role's piece is asked anew where the literal behind it ends.
pub(crate) fn looks_back(role: &Role) -> bool
    ensures { (result ≡ true) ↔ LooksBack role.now }
{
    matches!(role.kind(), Kind::LookBack)
}

/// How many bytes the literal of that number has.
pub(crate) fn literal_size(program: &Program, number: usize) -> u8
    requires ready { IsReady program.now }
    requires there { number < length program.now.literals }
    ensures { HasLength program.now number result }
{
    program.literals()[number].len() as u8
}
