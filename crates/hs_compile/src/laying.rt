//! The layout of the regions of a program.

ghost use Rattle.std.specs.Prelude.{◌≡◌, ◌+◌, ◌^◌, ◌<◌, ◌≤◌, [], IfOk, length, map};
ghost use Rattle.hs_layout.specs.Layouts.{laid_size};
ghost use Rattle.hs_rose.specs.Identifiers.{singles_of, with_single};
ghost use Rattle.hs_compile.specs.GraphTables.{program_layout};
ghost use Rattle.hs_compile.specs.Sizes.{greatest_size};

use hs_layout::Layout;
use hs_rose::{Identifier, Program, Role};
use std::alloc::{AllocError, Global};

/// The layout of the program's regions, which are small enough. The only error is want of memory.
pub fn lay_out(alloc: Global, program: &Program) -> Result<Layout, AllocError>
    requires small { laid_size (program_layout program.now) ≤ greatest_size }
    ensures { IfOk result (λ layout. layout ≡ program_layout program.now) }
{
    let sizes = field_sizes(alloc, program.roles())?;
    let identifiers = program.identifiers();
    Layout::new(alloc, count_singles(identifiers), identifiers.len(), &sizes)
}

/// The length of each role's field.
fn field_sizes(alloc: Global, roles: &[Role]) -> Result<Vec<usize>, AllocError>
    ensures { IfOk result (λ sizes. sizes.items ≡ map (λ r. r.field_size) roles.now) }
{
    roles.iter().map(|role| role.field_size()).collect(alloc)
}

/// How many of the identifiers are single.
fn count_singles(identifiers: &[Identifier]) -> usize
    ensures { result ≡ length (singles_of identifiers.now) }
{
    let mut count = 0;
    for i in 0..identifiers.len() {
        count = count_with(count, identifiers[i]);
    }
    count
}

/// How many are counted with one more.
fn count_with(count: usize, identifier: Identifier) -> usize
    requires room { count < 2 ^ 63 }
    ensures { result ≡ count + length (with_single identifier.single identifier []) }
{
    if identifier.single { count + 1 } else { count }
}
