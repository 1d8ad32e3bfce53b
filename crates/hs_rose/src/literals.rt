//! The roles that each literal of a program stands for.

ghost use Rattle.std.specs.Prelude.{◌≡◌, ℕ, ◌<◌, Some, IfOk, IfSome, List, [], length, map, slice_get, vec_len};
ghost use Rattle.hs_rose.specs.LiteralRoles.{AreRolesOfLiterals, IsRoleAdded, role_numbers};
ghost use Rattle.hs_rose.specs.Naming.{literal_of};
ghost use Rattle.hs_rose.specs.declared.role.Role.{Role};

use crate::program::Program;
use crate::role::Role;
use std::alloc::{AllocError, Global};

impl Program {
    /// For each literal the numbers of the roles that it stands for, rising. The only error is want of memory.
    ///
    /// # Cost
    ///
    /// One look at each role. The program keeps no such table: it is made at each call, and takes 24 bytes for a
    /// literal and 8 to 32 for each of its roles.
    ///
    /// # Examples
    ///
    /// ```
    /// let literal_roles = program.literal_roles(alloc)?;
    /// ```
    pub fn literal_roles(&self, alloc: Global) -> Result<Vec<Vec<usize>>, AllocError>
        ensures { IfOk result (λ lists.
            AreRolesOfLiterals self.now.roles (length self.now.literals) (map role_numbers lists.items)) }
    {
        roles_of_literals(alloc, self.roles(), self.literals().len())
    }
}

/// For each of so many literals the numbers of its roles.
fn roles_of_literals(
    alloc: Global,
    roles: &[Role],
    count: usize,
) -> Result<Vec<Vec<usize>>, AllocError>
    requires { (j k : ℕ) (r : Role) → slice_get roles.now j ≡ Some r → literal_of r ≡ Some k → k < count }
    ensures { IfOk result (λ lists. AreRolesOfLiterals roles.now count (map role_numbers lists.items)) }
{
    let mut lists = no_roles(alloc, count)?;
    for (number, role) in roles.iter().enumerate() {
        add_role(&mut lists, role.literal(), number)?;
    }
    Ok(lists)
}

/// Puts the number of a role behind those of its literal, if it has one.
fn add_role(
    lists: &mut Vec<Vec<usize>>,
    literal: Option<usize>,
    number: usize,
) -> Result<(), AllocError>
    requires { IfSome literal (λ k. k < vec_len lists.old) }
    ensures { IfOk result (λ done.
        IsRoleAdded (map role_numbers lists.old.items) literal number (map role_numbers lists.new.items)) }
{
    let Some(literal) = literal else {
        return Ok(());
    };
    lists[literal].push(number)?;
    Ok(())
}

/// So many empty lists.
fn no_roles(alloc: Global, count: usize) -> Result<Vec<Vec<usize>>, AllocError>
    ensures count { IfOk result (λ lists. vec_len lists ≡ count) }
    ensures empty { IfOk result (λ lists. (k : ℕ) (list : List ℕ) →
        slice_get (map role_numbers lists.items) k ≡ Some list → list ≡ []) }
{
    let mut lists = Vec::with_capacity(alloc, count)?;
    for _number in 0..count {
        lists.push(Vec::new(alloc))?;
    }
    Ok(lists)
}
