//! How a role is run.

ghost use Rattle.std.specs.Prelude.{◌≡◌, ◌↔◌, true};
ghost use Rattle.hs_run.specs.Ways.{way_of};
ghost use Rattle.hs_run.specs.declared.way.Way.TheVariants as way;

use hs_rose::{Kind, Role};

/// How a role is run.
#[derive(Clone, Copy, Debug, PartialEq, Eq)]
pub(crate) enum Way {
    /// An expression before a literal, asked anew from the last bytes where the literal ends.
    LookBack,
    /// A literal of which nothing is kept.
    BareLiteral,
    /// A literal, with a bit for each of its entries that still counts.
    Literal,
    /// An engine, with its field.
    Engine,
}

impl Way {
    /// How the role is run.
    pub fn of(role: &Role) -> Way
        ensures { result ≡ way_of role.now }
    {
        match role.kind() {
            Kind::LookBack => Way::LookBack,
            Kind::BareLiteral => Way::BareLiteral,
            Kind::Literal => Way::Literal,
            Kind::Positions | Kind::Dfa | Kind::First | Kind::Last | Kind::Ring => Way::Engine,
        }
    }
}

/// Whether the role is asked anew from the last bytes.
pub(crate) fn looks_back(role: &Role) -> bool
    ensures { (result ≡ true) ↔ (way_of role.now ≡ way.LookBack) }
{
    match Way::of(role) {
        Way::LookBack => true,
        Way::BareLiteral | Way::Literal | Way::Engine => false,
    }
}
