//! The tokens of an expression.
ghost use Rattle.std.specs.Prelude.{◌≡◌, ◌<◌, ◌≤◌, false, length, MatchBool, MatchOption};
ghost use Rattle.hs_base.specs.ByteSets.{members};
ghost use Rattle.hs_syntax.specs.declared.wrong.Wrong.{Wrong};
ghost use Rattle.hs_syntax.specs.Lengths.{WrongFits};
ghost use Rattle.hs_parse.specs.Classes.{bytes_of};
ghost use Rattle.hs_parse.specs.Tokens.{one_of, any_byte, made_by, made_at, bracket};
ghost use Rattle.hs_parse.specs.Reading.{plain_token, plain_made, sees_quantifier, IsNext};

use crate::class::class_at;
use crate::parser::MAX_TEXT_LEN;
use crate::set::{Test, any_byte, set_where};
use crate::spot::{Spot, refusal_at};
use hs_base::{Assertion, ByteSet, Refusal};
use hs_syntax::{Form, Mode, form_at};

/// A token of an expression.
#[derive(Clone, Copy)]
pub(crate) enum Token {
    /// Nothing: the text ends there.
    End,
    /// One byte of the set.
    Single(ByteSet),
    /// One code point. Of which set is told by what stands where the token begins.
    Point,
    /// An assertion.
    Assert(Assertion),
    /// The opening of a group.
    Opening,
    /// `)`
    Closing,
    /// `|`
    Bar,
    /// A quantifier: the least and the greatest number of copies, and whether it is possessive.
    Quantifier(u32, Option<u32>, bool),
    /// A change of options to the end of the group.
    Setting,
    /// A form that is refused.
    Refused(Refusal),
}

impl Token {
    /// Whether the text ends.
    pub(crate) fn is_end(self) -> bool
        ensures { MatchBool result (self ≡ Token.End) (self ≡ Token.End → ⊥) }
    {
        matches!(self, Token::End)
    }

    /// Whether it is a `|`.
    pub(crate) fn is_bar(self) -> bool
        ensures { MatchBool result (self ≡ Token.Bar) (self ≡ Token.Bar → ⊥) }
    {
        matches!(self, Token::Bar)
    }

    /// Whether it changes options.
    pub(crate) fn is_setting(self) -> bool
        ensures { MatchBool result (self ≡ Token.Setting) (self ≡ Token.Setting → ⊥) }
    {
        matches!(self, Token::Setting)
    }

    /// Whether it is a quantifier.
    pub(crate) fn is_quantifier(self) -> bool
        ensures { result ≡ sees_quantifier self }
    {
        matches!(self, Token::Quantifier(_, _, _))
    }

    /// The bounds of a quantifier, and whether it is possessive; `None` where it is none.
    pub(crate) fn quantifier(self) -> Option<(u32, Option<u32>, bool)>
        ensures { MatchOption result
            (sees_quantifier self ≡ false)
            (λ quantifier. self ≡ Token.Quantifier quantifier.0 quantifier.1 quantifier.2) }
    {
        match self {
            Token::Quantifier(least, greatest, possessive) => Some((least, greatest, possessive)),
            Token::End
            | Token::Single(_)
            | Token::Point
            | Token::Assert(_)
            | Token::Opening
            | Token::Closing
            | Token::Bar
            | Token::Setting
            | Token::Refused(_) => None,
        }
    }
}

/// A token, where it begins, and what is behind it.
#[derive(Clone, Copy)]
pub(crate) struct Found {
    /// The token.
    pub(crate) token: Token,
    /// Where it begins.
    pub(crate) start: Spot,
    /// The place behind it, and the options in force there; of an opening, those inside.
    pub(crate) behind: Spot,
}

/// What a form makes.
#[derive(Clone, Copy)]
pub(crate) enum Made {
    /// A token, the options behind it, and its length in bytes.
    Token(Token, Mode, usize),
    /// Nothing: so many bytes are skipped, and the options are those behind them.
    Skips(Mode, usize),
    /// A class.
    Bracket,
}

/// The next token from a place on.
pub(crate) fn next_token(text: &[u8], from: Spot) -> Found
    requires within { from.place ≤ length text.now }
    requires short { length text.now ≤ MAX_TEXT_LEN }
    ensures { IsNext text.now from result }
{
    let mut start = from;
    loop {
        match made_at(text, start) {
            Made::Token(token, mode, length) => {
                let behind = Spot {
                    place: start.place + length,
                    mode,
                };
                return Found {
                    token,
                    start,
                    behind,
                };
            }
            Made::Skips(mode, length) => start = Spot {
                place: start.place + length,
                mode,
            },
            Made::Bracket => return bracket_at(text, start),
        }
    }
}

/// What begins at a place makes.
#[tactic(auto, unfolding(crate::specs::Tokens::made_at))]
fn made_at(text: &[u8], at: Spot) -> Made
    requires within { at.place ≤ length text.now }
    requires short { length text.now ≤ MAX_TEXT_LEN }
    ensures { plain_made result ≡ made_at text.now at }
{
    made_by(at.mode, at.place, form_at(at.mode, &text[at.place..]))
}

/// What a form that begins at a place makes.
fn made_by(mode: Mode, at: usize, form: Form) -> Made
    requires short { at ≤ MAX_TEXT_LEN }
    requires fits { (reason : Wrong) → form ≡ Form.Refused reason → WrongFits MAX_TEXT_LEN reason }
    ensures { plain_made result ≡ made_by mode at form }
{
    match form {
        Form::End => Made::Token(Token::End, mode, 0),
        Form::Skipped(behind, length) => Made::Skips(behind, length),
        Form::Setting(behind, length) => Made::Token(Token::Setting, behind, length),
        Form::Opening(inside, length) => Made::Token(Token::Opening, inside, length),
        Form::Closing => Made::Token(Token::Closing, mode, 1),
        Form::Bar => Made::Token(Token::Bar, mode, 1),
        Form::Any => Made::Token(any_token(mode), mode, 1),
        Form::Character(code, length) => {
            let test = Test::Range(mode.caseless, code, code);
            Made::Token(test_token(mode, test), mode, length)
        }
        Form::Class(class, negated, length) => {
            let test = Test::Class(class, negated);
            Made::Token(test_token(mode, test), mode, length)
        }
        Form::Bracket => Made::Bracket,
        Form::Assert(assertion, length) => Made::Token(Token::Assert(assertion), mode, length),
        Form::Quantifier(least, greatest, possessive, length) => {
            Made::Token(Token::Quantifier(least, greatest, possessive), mode, length)
        }
        Form::Refused(reason) => Made::Token(Token::Refused(refusal_at(reason, at)), mode, 0),
    }
}

/// What `.` makes.
fn any_token(mode: Mode) -> Token
    ensures { plain_token result ≡ one_of mode (any_byte mode.dotall) }
{
    if mode.utf8 {
        Token::Point
    } else {
        Token::Single(any_byte(mode.dotall))
    }
}

/// What a character or the name of a class makes.
fn test_token(mode: Mode, test: Test) -> Token
    ensures { plain_token result ≡ one_of mode (bytes_of test) }
{
    if mode.utf8 {
        Token::Point
    } else {
        Token::Single(set_where(test))
    }
}

/// What a class makes that has the bytes.
fn class_token(mode: Mode, set: ByteSet) -> Token
    ensures { plain_token result ≡ one_of mode (members set) }
{
    if mode.utf8 {
        Token::Point
    } else {
        Token::Single(set)
    }
}

/// The class that begins at a place.
fn bracket_at(text: &[u8], start: Spot) -> Found
    requires made { made_at text.now start ≡ bracket }
    requires within { start.place < length text.now }
    requires short { length text.now ≤ MAX_TEXT_LEN }
    ensures { IsNext text.now start result }
{
    match class_at(text, start.mode, start.place) {
        Ok((set, end)) => {
            let behind = Spot {
                place: end,
                mode: start.mode,
            };
            Found {
                token: class_token(start.mode, set),
                start,
                behind,
            }
        }
        Err(refusal) => Found {
            token: Token::Refused(refusal),
            start,
            behind: start,
        },
    }
}
