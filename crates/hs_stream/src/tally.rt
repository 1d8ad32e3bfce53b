//! How many reports there were, and the sum of their ends.
ghost use Rattle.std.specs.Prelude.{◌≡◌, ◌<◌, ◌+◌, [], length, IfSome, OnSome};
ghost use Rattle.std.specs.List.{sum_by};
ghost use Rattle.hs_stream.specs.Collecting.{Collection};
ghost use Rattle.hs_stream.specs.Tallies.{with_reports};

use crate::collected::Collected;
use hs_base::Report;

/// How many reports there were, and the sum of their ends.
#[derive(Clone, Copy, Debug, PartialEq, Eq)]
pub struct Tally {
    pub count: u64,
    pub sum: u64,
}

impl Tally {
    /// That of no report.
    pub(crate) const NONE: Tally = Tally { count: 0, sum: 0 };

    /// The tally with these reports more; none where a number doesn't fit into 64 bits.
    fn with(self, reports: &[Report]) -> Option<Tally>
        ensures { IfSome result (λ tally. tally ≡ with_reports self reports.now) }
    {
        let Some(count) = self.count.checked_add(reports.len() as u64) else {
            return None;
        };
        let Some(sum) = sum_with(self.sum, reports) else {
            return None;
        };
        Some(Tally { count, sum })
    }

    /// The tally with the reports that were collected, which are dropped; none where a number doesn't fit into 64 bits,
    /// or the room is used up, so that a report may be missing.
    pub(crate) fn taking(self, collected: &mut Collected, room: usize) -> Option<Tally>
        ensures tally { IfSome result (λ tally. tally ≡ with_reports self collected.old.reports) }
        ensures whole { OnSome result (length collected.old.reports < room) }
        ensures cleared { OnSome result (collected.new ≡ record { reports = []; room = collected.old.room }) }
    {
        if room <= collected.reports().len() {
            return None;
        }
        let Some(tally) = self.with(collected.reports()) else {
            return None;
        };
        collected.clear();
        Some(tally)
    }
}

/// The sum with the ends of these reports; none where it doesn't fit into 64 bits.
fn sum_with(start: u64, reports: &[Report]) -> Option<u64>
    ensures { IfSome result (λ sum. sum ≡ start + sum_by (λ report. report.to) reports.now) }
{
    let mut sum = start;
    for report in reports {
        let Some(more) = with_end(sum, report) else {
            return None;
        };
        sum = more;
    }
    Some(sum)
}

/// The sum with the end of a report; none where it doesn't fit into 64 bits.
fn with_end(sum: u64, report: &Report) -> Option<u64>
    ensures { IfSome result (λ more. more ≡ sum + report.now.to) }
{
    sum.checked_add(report.to)
}
