//! The extended parameters of an expression, written as `name=N` with commas between.
ghost use Rattle.std.specs.Prelude.{◌≡◌, ◌≢◌, ℕ, MatchOption};
ghost use Rattle.hs_base.specs.declared.ext.Ext.{Ext};
ghost use Rattle.hs_text.specs.declared.parameter.Parameter.{Parameter};
ghost use Rattle.hs_text.specs.Parameters.{name_of, bit_of, with_value, no_parameters, Sets, AreSettings};

use crate::cut::cut_at_first;
use crate::number::number_of;
use hs_base::Ext;

/// How many digits the value of a parameter has at most.
const MAX_VALUE_DIGITS: usize = 20;

/// An extended parameter (Hyperscan Developer's Reference Guide, `hs_expr_ext_t`).
#[derive(Clone, Copy)]
pub enum Parameter {
    /// The least offset in bytes at which a match may end.
    MinOffset,
    /// The greatest offset in bytes at which a match may end.
    MaxOffset,
    /// The least length of a match in bytes.
    MinLength,
    /// The greatest edit distance of a match.
    EditDistance,
    /// The greatest Hamming distance of a match.
    HammingDistance,
}

impl Parameter {
    /// The parameter of that name.
    fn named(name: &[u8]) -> Option<Parameter>
        ensures { MatchOption result ((p : Parameter) → name.now ≢ name_of p) (λ p. name.now ≡ name_of p) }
    {
        if name == b"min_offset".as_slice() {
            Some(Parameter::MinOffset)
        } else if name == b"max_offset".as_slice() {
            Some(Parameter::MaxOffset)
        } else if name == b"min_length".as_slice() {
            Some(Parameter::MinLength)
        } else if name == b"edit_distance".as_slice() {
            Some(Parameter::EditDistance)
        } else if name == b"hamming_distance".as_slice() {
            Some(Parameter::HammingDistance)
        } else {
            None
        }
    }

    /// The parameter's bit.
    fn bit(&self) -> u8
        ensures { result ≡ bit_of self.now }
    {
        match self {
            Parameter::MinOffset => Ext::MIN_OFFSET,
            Parameter::MaxOffset => Ext::MAX_OFFSET,
            Parameter::MinLength => Ext::MIN_LENGTH,
            Parameter::EditDistance => Ext::EDIT_DISTANCE,
            Parameter::HammingDistance => Ext::HAMMING_DISTANCE,
        }
    }

    /// The parameters with this one given too.
    fn given_to(&self, ext: Ext, value: u64) -> Ext
        ensures { result ≡ with_value ext self.now value }
    {
        let bits = ext.bits | self.bit();
        match self {
            Parameter::MinOffset => Ext {
                bits,
                min_offset: value,
                ..ext
            },
            Parameter::MaxOffset => Ext {
                bits,
                max_offset: value,
                ..ext
            },
            Parameter::MinLength | Parameter::EditDistance | Parameter::HammingDistance => Ext {
                bits,
                ..ext
            },
        }
    }
}

/// The parameters that settings give, each at most once.
pub fn parameters_of(settings: &[u8]) -> Option<Ext>
    ensures { MatchOption result
        ((ext : Ext) → AreSettings settings.now no_parameters ext → ⊥)
        (λ ext. AreSettings settings.now no_parameters ext) }
{
    let mut ext = Ext::NONE;
    let mut rest = settings;
    while let Some((setting, behind)) = cut_at_first(rest, b',') {
        let Some(more) = with_setting(ext, setting) else {
            return None;
        };
        ext = more;
        rest = behind;
    }
    with_setting(ext, rest)
}

/// The parameters with that of one more setting, which isn't among them.
fn with_setting(ext: Ext, setting: &[u8]) -> Option<Ext>
    ensures { MatchOption result
        ((after : Ext) → Sets setting.now ext after → ⊥)
        (λ after. Sets setting.now ext after) }
{
    let (name, digits) = cut_at_first(setting, b'=')?;
    let parameter = Parameter::named(name)?;
    let value = number_of(digits, MAX_VALUE_DIGITS)?;
    if ext.bits & parameter.bit() == 0 {
        Some(parameter.given_to(ext, value))
    } else {
        None
    }
}
