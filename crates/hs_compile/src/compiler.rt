//! The list, entry by entry.

ghost use Rattle.std.specs.Prelude.{◌≡◌, IfOk, IfErr, map};
ghost use Rattle.sha2.specs.Sha256.{sha256};
ghost use Rattle.hs_base.specs.Entries.{listed};
ghost use Rattle.hs_dbfile.specs.Files.{list_bytes};
ghost use Rattle.hs_compile.specs.Answers.{IsCauseOf, IsCompiled, IsListBuilt};
ghost use Rattle.hs_compile.specs.Databases.{digest_of};

use crate::counts::Counts;
use crate::database::Database;
use crate::entry::compile_entry;
use crate::fault::CompileFault;
use crate::laying::lay_out;
use crate::seen::Seen;
use hs_base::Entry;
use hs_dbfile::digest;
use hs_kept::PackingBuilder;
use hs_rose::Builder;
use std::alloc::Global;

/// The most entries of a list.
pub const MAX_ENTRIES: usize = 65_536;

/// Compiles a list of expressions. A list is refused by its first entry that has a refusal, with the first of those, in
/// the order of their numbers; else it is what scans each of its expressions.
///
/// # Errors
///
/// `Refused` where the list has a refusal; `Memory` where it finds no memory.
///
/// # Cost
///
/// On the lists of `docs/MEASURED.md` 0.05 to 0.3 milliseconds an entry, and with those of more than 1,000 entries less
/// than 12 KB of memory an entry, of which all but the [`Database`] is given back.
///
/// # Examples
///
/// ```
/// let entries = read_list(alloc, b"1:/foo.*bar/\n2:/(ba|fo)+[a-r]/\n")?;
/// match compile(alloc, &entries) {
///     Ok(database) => println!(rt; "{} bytes a stream", database.region_size())?,
///     Err(fault) => println!(rt; "{fault}")?,
/// }
/// ```
pub fn compile(alloc: Global, entries: &[Entry]) -> Result<Database, CompileFault>
    ensures compiled { IfOk result (IsCompiled (map listed entries.now)) }
    ensures digest { IfOk result (λ database. digest_of database ≡ sha256 (list_bytes (map listed entries.now))) }
    ensures refused { IfErr result (IsCauseOf (map listed entries.now)) }
{
    let (builder, packing_builder) = add_entries(alloc, entries)?;
    let program = builder.finish(alloc, entries)?;
    let layout = lay_out(alloc, &program)?;
    let packing = packing_builder.finish(alloc, &layout)?;
    let database = Database::of_program(alloc, program, layout, packing, digest(entries))?;
    Ok(database)
}

/// What is built of a program and of a packing for the list. Of each entry the tree and the chains are given back
/// before the next one.
fn add_entries(alloc: Global, entries: &[Entry]) -> Result<(Builder, PackingBuilder), CompileFault>
    ensures built { IfOk result (λ (builder, packing). IsListBuilt entries.now builder packing) }
    ensures refused { IfErr result (IsCauseOf (map listed entries.now)) }
{
    let mut seen = Seen::new(alloc);
    let mut counts = Counts::none();
    let mut builder = Builder::new(alloc);
    let mut packing = PackingBuilder::new(alloc);
    for i in 0..entries.len() {
        let entry = &entries[i];
        let (own, next) = compile_entry(alloc, i as u32 + 1, &seen, counts, entry)?;
        seen.add(entry)?;
        builder.add_entry(alloc, i as u32 + 1, entry, &own)?;
        packing.add_chains(alloc, &own)?;
        counts = next;
    }
    Ok((builder, packing))
}
