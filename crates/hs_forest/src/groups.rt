//! Numbers grouped by their owners.

ghost use Rattle.std.specs.Prelude.{◌≡◌, ℕ, ◌<◌, List, [], IfOk, IfSome, length, map, slice_get, vec_len};
ghost use Rattle.hs_forest.specs.Groups.{AreGroups, AreJoined, AreLists, AreOwners, IsNumberAdded};
ghost use Rattle.hs_forest.specs.Views.{numbers};

use crate::growing::node_number;
use std::alloc::{AllocError, Global};

/// The groups of all owners in one list, and where in it that of each owner begins; behind these, where the last one
/// ends.
#[derive(Debug, Drop)]
pub struct Groups {
    /// Where each group begins, and where the last one ends.
    pub starts: Vec<u32>,
    /// The members of the groups, those of each rising.
    pub list: Vec<u32>,
}

/// The numbers from 0 on, by so many owners: of each number the owner is given, if it has one. The only error is want
/// of memory; as such counts also that there are more than 32 bits can number.
pub fn group(alloc: Global, owners: &[Option<u32>], count: usize) -> Result<Groups, AllocError>
    requires { AreOwners owners.now count }
    ensures { IfOk result (λ groups. AreGroups owners.now count groups.starts.items groups.list.items) }
{
    let lists = lists_of(alloc, owners, count)?;
    joined(alloc, &lists)
}

/// For each owner a list of its numbers.
fn lists_of(
    alloc: Global,
    owners: &[Option<u32>],
    count: usize,
) -> Result<Vec<Vec<u32>>, AllocError>
    requires { AreOwners owners.now count }
    ensures { IfOk result (λ lists. AreLists owners.now count (map numbers lists.items)) }
{
    let mut lists = no_lists(alloc, count)?;
    for (number, owner) in owners.iter().enumerate() {
        add_number(&mut lists, *owner, node_number(number)?)?;
    }
    Ok(lists)
}

/// Puts a number behind those of its owner, if it has one.
fn add_number(lists: &mut Vec<Vec<u32>>, owner: Option<u32>, number: u32) -> Result<(), AllocError>
    requires { IfSome owner (λ k. k < vec_len lists.old) }
    ensures { IfOk result (λ done.
        IsNumberAdded (map numbers lists.old.items) owner number (map numbers lists.new.items)) }
{
    let Some(owner) = owner else {
        return Ok(());
    };
    lists[owner as usize].push(number)?;
    Ok(())
}

/// So many empty lists.
fn no_lists(alloc: Global, count: usize) -> Result<Vec<Vec<u32>>, AllocError>
    ensures count { IfOk result (λ lists. vec_len lists ≡ count) }
    ensures empty { IfOk result (λ lists. (k : ℕ) (list : List ℕ) →
        slice_get (map numbers lists.items) k ≡ Some list → list ≡ []) }
{
    let mut lists = Vec::with_capacity(alloc, count)?;
    for _owner in 0..count {
        lists.push(Vec::new(alloc))?;
    }
    Ok(lists)
}

/// The lists as one, and where each begins.
fn joined(alloc: Global, lists: &[Vec<u32>]) -> Result<Groups, AllocError>
    ensures { IfOk result (λ groups. AreJoined (map numbers lists.now) groups.starts.items groups.list.items) }
{
    let mut list = Vec::new(alloc);
    let mut starts = vec![in alloc; 0]?;
    for more in lists {
        list.extend_from_slice(more)?;
        starts.push(node_number(list.len())?)?;
    }
    Ok(Groups { starts, list })
}
