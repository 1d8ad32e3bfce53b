//! Laws over the definitions of `specs/`: each is the contract of a function that does nothing.

ghost use Rattle.hs_script.specs.Laws.{IsScriptOnce, IsAlwaysScript, AlwaysTakesPayload, IsTextOnce, IsIsolated};
ghost use Rattle.hs_script.specs.Laws.{IsComplete, IsBounded, IsCutAnywhere, CountsOpen};
ghost use Rattle.hs_script.specs.Joins.{RunsGoOn};

/// Bytes are a script in at most one way.
pub fn script_once()
    ensures { IsScriptOnce }
{}

/// Any bytes are a script: whole, or up to its fault.
pub fn always_script()
    ensures { IsAlwaysScript }
{}

/// A write takes its payload and one line feed, which may be missing at the end; any other byte there is a fault, and
/// too few bytes cut the write short.
pub fn takes_payload()
    ensures { AlwaysTakesPayload }
{}

/// Runs over the same bytes and files that make no foreign stream and lack memory at the same commands have one text.
pub fn text_once()
    ensures { IsTextOnce }
{}

/// The lines of a name depend on the commands on that name alone, where none of them is refused for want of memory or
/// for the number of open streams.
pub fn isolated()
    ensures { IsIsolated }
{}

/// In every run a write below the length limit, a reset and a close of an open stream are done; and, but for want of
/// memory, a save of an open stream, and an expansion of a file of which a stream can be made.
pub fn complete()
    ensures { IsComplete }
{}

/// At most 4,096 streams are open in every run.
pub fn bounded()
    ensures { IsBounded }
{}

/// Where a write is cut into two, both together report what it reports.
pub fn cut_anywhere()
    ensures { IsCutAnywhere }
{}

/// The count of a machine is the number of its open streams.
pub fn counts_open()
    ensures { CountsOpen }
{}

/// A run goes on by any step, and its text grows at its end, by the lines of that step.
pub fn runs_go_on()
    ensures { RunsGoOn }
{}
