//! The classes of a run: a range of bytes at each place.
ghost use Rattle.std.specs.Prelude.{◌≡◌, ◌&&◌, nat_le, encode_utf8, length, true, IfOk};
ghost use Rattle.std.specs.List.{zip};
ghost use Rattle.hs_base.specs.ByteSets.{members, bytes_where};
ghost use Rattle.hs_expr.specs.Meaning.{tree_of};
ghost use Rattle.hs_utf8.specs.Members.{has_encoding};
ghost use Rattle.hs_utf8.specs.Runs.{run_tree};

use hs_base::ByteSet;
use hs_expr::Expr;
use std::alloc::{AllocError, Global};

/// The encodings of the code points of a run, by those of its first and its last.
pub(crate) fn run_classes(alloc: Global, first: u32, last: u32) -> Result<Expr, AllocError>
    requires first { has_encoding first ≡ true }
    requires last { has_encoding last ≡ true }
    requires length { length (encode_utf8 first) ≡ length (encode_utf8 last) }
    ensures { IfOk result (λ e. tree_of e ≡ run_tree (zip (encode_utf8 first) (encode_utf8 last))) }
{
    let mut least = [0; 4];
    let mut greatest = [0; 4];
    let least = encoding(first, &mut least);
    let greatest = encoding(last, &mut greatest);
    let mut places = Vec::new(alloc);
    for (i, first) in least.iter().enumerate() {
        places.push(Expr::Class(byte_range(*first, greatest[i])))?;
    }
    Ok(Expr::Cat(places))
}

/// The encoding of a code point.
fn encoding<'a>(code_point: u32, buffer: &'a mut [u8; 4]) -> &'a [u8]
    requires { has_encoding code_point ≡ true }
    ensures { result.now ≡ encode_utf8 code_point }
{
    let character = char::from_u32(code_point).unwrap();
    character.encode_utf8(buffer).as_bytes()
}

/// The bytes from the first to the last.
fn byte_range(first: u8, last: u8) -> ByteSet
    ensures { members result ≡ bytes_where (λ b. nat_le first b && nat_le b last) }
{
    let mut set = ByteSet::EMPTY;
    for byte in first..=last {
        set.insert(byte);
    }
    set
}
