//! Where matches of an identifier end, as far as one byte, or the end of the stream, tells.
ghost use Rattle.std.specs.Prelude.{◌≡◌, ◌||◌, ◌&&◌, ◌==◌, false, length};
ghost use Rattle.hs_base.specs.Assertions.{line_feed};
ghost use Rattle.hs_base.specs.Contexts.{class_of};
ghost use Rattle.hs_base.specs.ContextSets.{has_next};
ghost use Rattle.hs_base.specs.declared.context.Next.TheVariants as after;
ghost use Rattle.hs_run.specs.declared.ends.Ends.{Ends as EndsAbout};
ghost use Rattle.hs_run.specs.Ends.{no_ends, AreNoEnds};

use hs_base::{LINE_FEED, Next, NextSet};

/// Where matches of an identifier end about one byte.
#[derive(Clone, Copy, Debug, PartialEq, Eq)]
pub struct Ends {
    /// Before the byte, which comes next.
    pub before: bool,
    /// Before the byte, were it the last of the stream. Only a line feed is another thing then.
    pub before_last: bool,
    /// Behind the byte, whatever comes next.
    pub behind: bool,
}

impl Ends {
    /// No match ends.
    pub fn none() -> Ends
        ensures { result ≡ no_ends }
    {
        Ends {
            before: false,
            before_last: false,
            behind: false,
        }
    }

    /// Adds the matches of an expression: what may come next where they end before the byte, and where they end behind
    /// it. Answers whether there is one.
    pub fn note(&mut self, byte: u8, before: NextSet, behind: NextSet) -> bool
        ensures noted { result ≡ false → self.new ≡ self.old }
        ensures before { self.new.before ≡ (self.old.before || has_next before (class_of byte)) }
        ensures before_last { self.new.before_last ≡
            (self.old.before_last || ((byte == line_feed) && has_next before after.FinalNewline)) }
        ensures behind { self.new.behind ≡ (self.old.behind || has_next behind after.Unknown) }
    {
        let ends_before = before.contains(Next::class_of(byte));
        let ends_before_last = (byte == LINE_FEED) & before.contains(Next::FinalNewline);
        let ends_behind = behind.contains(Next::Unknown);
        self.before |= ends_before;
        self.before_last |= ends_before_last;
        self.behind |= ends_behind;
        ends_before | ends_before_last | ends_behind
    }

    /// Adds the matches of an expression that end at the end of the stream, by what may come next where they end.
    pub fn note_end(&mut self, behind: NextSet)
        ensures { self.new ≡ record self.old { behind = self.old.behind || has_next behind after.End } }
    {
        self.behind |= behind.contains(Next::End);
    }
}

/// Makes all of them say that no match ends.
pub(crate) fn forget(ends: &mut [Ends])
    ensures len { length ends.new ≡ length ends.old }
    ensures none { AreNoEnds ends.new }
{
    for one in ends.iter_mut() {
        *one = Ends::none();
    }
}
