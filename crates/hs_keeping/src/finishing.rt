//! What only the end of a stream decides, from what a region keeps and what is known of the identifiers.

ghost use Rattle.std.specs.Prelude.{◌≡◌, ◌+◌, ◌*◌, ◌<◌, length};
ghost use Rattle.hs_base.specs.Bits.{has_bit};
ghost use Rattle.hs_base.specs.Regions.{last_at};
ghost use Rattle.hs_base.proofs.PairListLemmas.{one_told};
ghost use Rattle.hs_layout.specs.Layouts.{laid_size};
ghost use Rattle.hs_reports.specs.Chunks.{pairs_where};
ghost use Rattle.hs_reports.specs.Events.{Through};
ghost use Rattle.hs_reports.specs.Identifiers.{numbers_of};
ghost use Rattle.hs_keeping.specs.Finishing.{due_at_end, is_due};
ghost use Rattle.hs_keeping.specs.Knowing.{FitsKnown};

use crate::known::Known;
use crate::leaving::is_final;
use hs_base::ExprId;
use hs_bits::contains_word_bit;
use hs_layout::Layout;
use hs_reports::{Events, Identifier, IdentifierEnds};

/// Reports the pair if it is due.
fn report_if<V: Events>(is_due: bool, id: ExprId, to: u64, events: &mut V)
    ensures { Through V.tells events.old (one_told is_due id.0 to) events.new }
{
    if is_due {
        events.report(id, to);
    }
}

/// Reports the pairs that end before the last byte and that only the end decides.
pub fn report_lasts<V: Events>(
    layout: &Layout,
    region: &[u8],
    identifiers: &[Identifier],
    to: u64,
    events: &mut V,
)
    requires sized { length region.now ≡ laid_size layout.now }
    requires all { length identifiers.now ≡ layout.now.identifiers }
    ensures { Through V.tells events.old (pairs_where (numbers_of identifiers.now)
        (λ p. has_bit region.now (8 * last_at layout.now.singles layout.now.identifiers + p)) to) events.new }
{
    for p in 0..identifiers.len() {
        report_if(layout.final_bit(region, p), identifiers[p].id, to, events);
    }
}

/// Whether only the end decides the pair of an identifier that ends with the stream.
fn is_due(
    layout: &Layout,
    region: &[u8],
    identifier: Identifier,
    known: &Known,
    finals: &IdentifierEnds,
    p: usize,
) -> bool
    requires sized { length region.now ≡ laid_size layout.now }
    requires there { p < layout.now.identifiers }
    requires ends { p < length finals.now.words }
    requires told { p < 64 * length known.now.told.items }
    requires here { p < 64 * length known.now.here.items }
    ensures { result ≡ is_due layout.now region.now known.now.told.items known.now.here.items finals.now
        identifier p }
{
    let is_told = if identifier.single {
        contains_word_bit(&known.told, p) | layout.final_bit(region, p)
    } else {
        contains_word_bit(&known.here, p)
    };
    is_final(finals, p) & !is_told
}

/// Reports the pairs that end with the stream and that only the end decides.
pub fn report_ends<V: Events>(
    layout: &Layout,
    region: &[u8],
    identifiers: &[Identifier],
    known: &Known,
    finals: &IdentifierEnds,
    to: u64,
    events: &mut V,
)
    requires sized { length region.now ≡ laid_size layout.now }
    requires all { length identifiers.now ≡ layout.now.identifiers }
    requires ends { length finals.now.words ≡ length identifiers.now }
    requires fits { FitsKnown (length identifiers.now) known.now }
    ensures { Through V.tells events.old (pairs_where (numbers_of identifiers.now) (due_at_end layout.now region.now
        known.now.told.items known.now.here.items finals.now identifiers.now) to) events.new }
{
    for p in 0..identifiers.len() {
        let identifier = identifiers[p];
        report_if(
            is_due(layout, region, identifier, known, finals, p),
            identifier.id,
            to,
            events,
        );
    }
}
