//! How many bytes the fields of chains take.

ghost use Rattle.std.specs.Prelude.{◌≡◌, ◌^◌, ◌<◌, ◌≤◌, List, MatchOption, length, map};
ghost use Rattle.hs_base.specs.Chains.{Piece as PlainPiece};
ghost use Rattle.hs_base.specs.Lists.{Each};
ghost use Rattle.hs_base.specs.Regions.{place_size};
ghost use Rattle.hs_pieces.specs.Meaning.{plain_chain, plain_piece};
ghost use Rattle.hs_rose.specs.Plans.{chain_size, chains_size, place_with};
ghost use Rattle.hs_rose.specs.Runnable.{IsRunnable, IsRunnableChain};

use crate::shape::Shape;
use hs_pieces::{Chain, Piece};

/// How many bytes the fields of the pieces of chains take together in the region of a stream, if a `u64` can tell it:
/// else the chains are more than there is memory for.
pub fn fields_size(chains: &[Chain]) -> Option<u64>
    requires runnable { Each IsRunnableChain (map plain_chain chains.now) }
    ensures { MatchOption result
        (2 ^ 64 ≤ chains_size (map plain_chain chains.now))
        (λ size. size ≡ chains_size (map plain_chain chains.now)) }
{
    let mut size: u64 = 0;
    for k in 0..chains.len() {
        let Some(next) = size.checked_add(chain_size(&chains[k])) else {
            return None;
        };
        size = next;
    }
    Some(size)
}

/// How many bytes those of one chain take.
fn chain_size(chain: &Chain) -> u64
    requires runnable { IsRunnableChain (plain_chain chain.now) }
    ensures { result ≡ chain_size (plain_chain chain.now) }
{
    let looks_back = chain.begins_with_look_back();
    let mut size: u64 = 0;
    for before in 0..chain.0.len() {
        size += field_size(looks_back, before, &chain.0[before]);
    }
    size
}

/// How many bytes the field of a piece takes that stands behind so many others, in a chain whose first one looks back
/// or not.
fn field_size(looks_back: bool, before: usize, piece: &Piece) -> u64
    requires runnable { IsRunnable (plain_piece piece.now) }
    ensures is { (pieces : List PlainPiece) → length pieces ≡ before →
        result ≡ place_size (place_with looks_back pieces (plain_piece piece.now)) }
    ensures small { result < 2 ^ 16 }
{
    u64::from(Shape::of(looks_back, before, piece).size)
}
