//! What holds of each cache.

ghost use Rattle.std.specs.Prelude.{◌≡◌, ℕ, Some, length, slice_get};
ghost use Rattle.hs_lazy.specs.Caches.{loaded};
ghost use Rattle.hs_lazy.specs.Tables.{AreDfasOf, engine_at};

use crate::cache::Cache;
use hs_engine::TimelessEngine;

/// The region that is loaded for a number has the length of those of its engine.
pub fn loaded_regions<E: TimelessEngine>(engines: &[E], cache: &Cache)
    requires { AreDfasOf E.meaning engines.now cache.now.dfas }
    ensures { (k n : ℕ) (e : E) → engine_at cache.now.dfas k ≡ Some n → slice_get engines.now n ≡ Some e →
        length (loaded cache.now k) ≡ (E.meaning e).width }
{
    let _ = engines.len();
    let _ = &cache.dfas;
}
