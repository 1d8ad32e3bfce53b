//! Where matches of each identifier end in a block, and which identifiers have such an end.

ghost use Rattle.std.specs.Prelude.{◌≡◌, ℕ, ◌+◌, ◌*◌, ◌<◌, ◌≤◌, ◌^◌, IfOk, length, [], ◌∷◌};
ghost use Rattle.hs_base.specs.Bits.{has_word_bit, word_count};
ghost use Rattle.hs_bits.specs.NextBits.{IsNextBitIn};
ghost use Rattle.hs_reports.specs.EndTables.{AddsEnds, IsBlank, IsQuiet, NotesRow, Resets, Unites};
ghost use Rattle.hs_reports.specs.EndTables.{identifier_at, words_of};

use crate::end_words::EndWords;
use crate::terminal::{Terminal, bound_word};
use hs_bits::MarkSet;
use std::alloc::{AllocError, Global};
use std::marker::Model;

/// Where matches of each identifier of a list end in a block, by their numbers, 16 bytes and a bit for each. An
/// identifier with an end is noted, so that the others are passed over.
#[derive(Drop)]
pub struct IdentifierEnds {
    words: Vec<EndWords>,
    noted: MarkSet,
}

impl Model for IdentifierEnds {
    ghost use Rattle.hs_reports.specs.EndTables.{EndTable, IsEndTable, end_table};

    ghost Value = { EndTable };

    ghost view = { λ e. end_table e.words.items e.noted };

    ghost invariant = { λ e. IsEndTable (end_table e.words.items e.noted) };
}

impl IdentifierEnds {
    /// No end of so many identifiers. The only error is want of memory.
    pub fn new(alloc: Global, count: usize) -> Result<IdentifierEnds, AllocError>
        requires { count < 2 ^ 32 }
        ensures { IfOk result (λ ends. IsBlank ends count) }
    {
        Ok(IdentifierEnds {
            words: vec![in alloc; EndWords::NONE; count]?,
            noted: MarkSet::new(alloc, count)?,
        })
    }

    /// How many identifiers there are.
    pub fn count(&self) -> usize
        ensures count { result ≡ length self.now.words }
        ensures few { result < 2 ^ 32 }
    {
        self.words.len()
    }

    /// Adds the ends that a terminal gives in the block at the offset `at`: where its node is left before and behind
    /// each byte, within its bounds.
    pub fn add(&mut self, terminal: Terminal, at: u64, before: u64, behind: u64)
        requires known { terminal.identifier < length self.old.words }
        requires room { at < 2 ^ 63 }
        ensures { AddsEnds self.old self.new (terminal ∷ []) at before behind }
    {
        let before = before & bound_word(terminal.least, terminal.greatest, at);
        let behind = behind & bound_word(terminal.least, terminal.greatest, at + 1);
        if before != 0 || behind != 0 {
            self.unite(terminal.identifier as usize, before, behind);
        }
    }

    /// Adds the ends that the terminals of one node give.
    pub fn add_all(&mut self, terminals: &[Terminal], at: u64, before: u64, behind: u64)
        requires known { (k : ℕ) → k < length terminals.now → identifier_at terminals.now k < length self.old.words }
        requires room { at < 2 ^ 63 }
        ensures { AddsEnds self.old self.new terminals.now at before behind }
    {
        for terminal in terminals {
            self.add(*terminal, at, before, behind);
        }
    }

    /// Adds places about which matches of the identifier of that number end, and notes it.
    fn unite(&mut self, place: usize, before: u64, behind: u64)
        requires { place < length self.old.words }
        ensures { Unites self.old self.new place before behind }
    {
        let words = self.words[place];
        self.words[place] = EndWords {
            before: words.before | before,
            behind: words.behind | behind,
        };
        self.noted.write(place, true);
    }

    /// Notes those identifiers whose bit is set in the row.
    pub fn note_all(&mut self, row: &[u64])
        requires { length row.now ≡ word_count (length self.old.words) }
        ensures { NotesRow self.old self.new row.now }
    {
        self.noted.mark_row(row);
    }

    /// The first identifier that is noted from a number on, if there is one.
    pub fn next(&self, from: usize) -> Option<usize>
        ensures next { IsNextBitIn (has_word_bit self.now.noted) from (length self.now.words) result }
        ensures quiet { IsQuiet self.now }
    {
        self.noted.next_before(from, self.words.len())
    }

    /// Where matches of the identifier of that number end.
    pub fn words(&self, place: usize) -> EndWords
        requires { place < length self.now.words }
        ensures { result ≡ words_of self.now place }
    {
        self.words[place]
    }

    /// The identifier of that number has no end any more, and stays noted or not.
    pub fn reset(&mut self, place: usize, stays: bool)
        requires { place < length self.old.words }
        ensures { Resets self.old self.new place stays }
    {
        self.words[place] = EndWords::NONE;
        self.noted.write(place, stays);
    }
}
