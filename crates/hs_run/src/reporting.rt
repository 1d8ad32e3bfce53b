//! Reports in one go over the identifiers of a program.
ghost use Rattle.std.specs.Prelude.{◌≡◌, length};
ghost use Rattle.hs_base.specs.Settling.{tells_before, tells_behind, settled};
ghost use Rattle.hs_base.proofs.PairListLemmas.{one_told};
ghost use Rattle.hs_reports.specs.Events.{Through};
ghost use Rattle.hs_run.specs.Reporting.{tells, pairs_at, AreSettled};
ghost use Rattle.hs_run.specs.Ends.{ends_of};
ghost use Rattle.hs_run.specs.Keeping.{plain_kept};

use crate::ends::Ends;
use crate::kept::Kept;
use hs_base::ExprId;
use hs_reports::Events;
use hs_rose::Identifier;

/// Which pairs of the identifiers are reported in one go.
#[derive(Clone, Copy, Debug, PartialEq, Eq)]
pub(crate) enum Moment {
    /// Those that end before a byte, which decides them.
    BeforeByte,
    /// Those that end behind a byte.
    BehindByte,
    /// Those that end before the last byte of a stream, which only its end decides.
    BeforeLastByte,
    /// Those that end with the stream, which only its end decides.
    AtEnd,
}

/// Reports the pairs with the end `to` that are due at the moment, by identifier.
pub(crate) fn report<V: Events>(
    moment: Moment,
    identifiers: &[Identifier],
    kept: &[Kept],
    ends: &[Ends],
    to: u64,
    events: &mut V,
)
    requires kept { length kept.now ≡ length identifiers.now }
    requires ends { length ends.now ≡ length identifiers.now }
    ensures { Through V.tells events.old (pairs_at moment identifiers.now kept.now ends.now to) events.new }
{
    for i in 0..identifiers.len() {
        let identifier = identifiers[i];
        let is_due = tells(moment, identifier.single, kept[i], ends[i]);
        report_if(is_due, identifier.id, to, events);
    }
}

/// Reports the pair if it is due.
fn report_if<V: Events>(is_due: bool, id: ExprId, to: u64, events: &mut V)
    ensures { Through V.tells events.old (one_told is_due id.0 to) events.new }
{
    if is_due {
        events.report(id, to);
    }
}

/// Whether the pair of an identifier is due.
fn tells(moment: Moment, single: bool, kept: Kept, ends: Ends) -> bool
    ensures { result ≡ tells moment single (plain_kept kept) (ends_of ends) }
{
    match moment {
        Moment::BeforeByte => tells_before(single, kept, ends),
        Moment::BehindByte => tells_behind(single, kept, ends),
        Moment::BeforeLastByte => kept.last,
        Moment::AtEnd => {
            ends.behind
                && !(if single {
                    kept.told || kept.last
                } else {
                    kept.here
                })
        }
    }
}

/// Whether the pair that ends before the byte is newly reported.
fn tells_before(single: bool, kept: Kept, ends: Ends) -> bool
    ensures { result ≡ tells_before single (plain_kept kept) (ends_of ends) }
{
    ends.before && !(if single { kept.told } else { kept.here })
}

/// Whether the pair that ends behind the byte is newly reported.
fn tells_behind(single: bool, kept: Kept, ends: Ends) -> bool
    ensures { result ≡ tells_behind single (plain_kept kept) (ends_of ends) }
{
    ends.behind && !(single && (kept.told || tells_before(single, kept, ends)))
}

/// What is kept of an identifier behind the byte.
fn settled(single: bool, kept: Kept, ends: Ends) -> Kept
    ensures { plain_kept result ≡ settled single (plain_kept kept) (ends_of ends) }
{
    let before = tells_before(single, kept, ends);
    let behind = tells_behind(single, kept, ends);
    let told = kept.told || (before || behind);
    Kept {
        told,
        here: behind,
        last: ends.before_last && !(if single { told } else { kept.here || before }),
    }
}

/// Keeps of each identifier what the byte settles.
pub(crate) fn settle(identifiers: &[Identifier], kept: &mut [Kept], ends: &[Ends])
    requires kept { length kept.old ≡ length identifiers.now }
    requires ends { length ends.now ≡ length identifiers.now }
    ensures len { length kept.new ≡ length kept.old }
    ensures settled { AreSettled identifiers.now kept.old ends.now kept.new }
{
    for i in 0..identifiers.len() {
        kept[i] = settled(identifiers[i].single, kept[i], ends[i]);
    }
}
