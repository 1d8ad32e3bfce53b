//! Why a script isn't run to its end.
use hs_reader::Break;
use hs_text::ScriptFault;

/// Why a script isn't run to its end.
#[derive(Clone, Copy, Debug, PartialEq, Eq)]
pub enum ScriptStop {
    /// The script has a fault, whose line was written.
    Fault(ScriptFault),
    /// It was broken off.
    Broken(Break),
    /// The store failed at a save or an expansion.
    Store,
    /// Memory ran out before a byte was taken or written.
    Memory,
}
