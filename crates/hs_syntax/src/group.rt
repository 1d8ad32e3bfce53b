//! What a `(` begins.
ghost use Rattle.std.specs.Prelude.{◌≡◌, ◌≤◌, length, drop, slice_get};
ghost use Rattle.hs_syntax.specs.Names.{group_name_end};
ghost use Rattle.hs_syntax.specs.Bytes.{place_on};
ghost use Rattle.hs_syntax.specs.Groups.{comment_of, named_of, changed, settings_of, settings_at, letter_group};
ghost use Rattle.hs_syntax.specs.Groups.{angle_group, hyphen_group, question_by, question_of, group_at};
ghost use Rattle.hs_syntax.specs.Groups.{comment, closing_parenthesis};

use crate::character::ill_formed_of;
use crate::form::Form;
use crate::mode::{Change, Mode, set_options};
use crate::name::{group_name_end, is_byte_at, is_digit_at, place_of};
use crate::wrong::Wrong;
use hs_base::Construct;

/// What the `(` that the bytes begin with begins.
#[tactic(auto, unfolding(crate::specs::Groups::group_at))]
pub(crate) fn group_at(mode: Mode, bytes: &[u8]) -> Form
    requires { 1 ≤ length bytes.now }
    ensures { result ≡ group_at mode bytes.now }
{
    match bytes.get(1) {
        Some(b'*') => Form::Refused(Wrong::Unsupported(Construct::Verb)),
        Some(b'?') => question_at(mode, bytes),
        _ => Form::Opening(mode, 1),
    }
}

/// What `(?` begins.
fn question_at(mode: Mode, bytes: &[u8]) -> Form
    requires { 2 ≤ length bytes.now }
    ensures { result ≡ question_of mode bytes.now (slice_get bytes.now 2) }
{
    match bytes.get(2) {
        None => Form::Refused(Wrong::Syntax),
        Some(byte) => question_by(mode, bytes, *byte),
    }
}

/// What `(?` begins, by the byte behind it.
#[tactic(auto, unfolding(crate::specs::Groups::question_by))]
fn question_by(mode: Mode, bytes: &[u8], byte: u8) -> Form
    requires { 3 ≤ length bytes.now }
    ensures { result ≡ question_by mode bytes.now byte }
{
    match byte {
        b':' | b'|' => Form::Opening(mode, 3),
        b'P' => letter_group(mode, bytes),
        b'<' => angle_group(mode, bytes),
        b'\'' => named_of(mode, b'\'', bytes, 3),
        b'#' => comment_of(mode, bytes),
        b'=' | b'!' => Form::Refused(Wrong::Unsupported(Construct::Lookaround)),
        b'>' => Form::Refused(Wrong::Unsupported(Construct::Atomic)),
        b'(' => Form::Refused(Wrong::Unsupported(Construct::Conditional)),
        b'C' => Form::Refused(Wrong::Unsupported(Construct::Callout)),
        b'R' | b'&' | b'+' | b'0'..=b'9' => Form::Refused(Wrong::Unsupported(Construct::Recursion)),
        b'-' => hyphen_group(mode, bytes),
        _ => settings_at(mode, bytes),
    }
}

/// What `(?P` begins.
#[tactic(auto, unfolding(crate::specs::Groups::letter_group))]
fn letter_group(mode: Mode, bytes: &[u8]) -> Form
    requires { 3 ≤ length bytes.now }
    ensures { result ≡ letter_group mode bytes.now }
{
    match bytes.get(3) {
        Some(b'<') => named_of(mode, b'>', bytes, 4),
        Some(b'>') => Form::Refused(Wrong::Unsupported(Construct::Recursion)),
        Some(b'=') => Form::Refused(Wrong::Unsupported(Construct::Backreference)),
        _ => settings_at(mode, bytes),
    }
}

/// What `(?<` begins.
#[tactic(auto, unfolding(crate::specs::Groups::angle_group))]
fn angle_group(mode: Mode, bytes: &[u8]) -> Form
    requires { 3 ≤ length bytes.now }
    ensures { result ≡ angle_group mode bytes.now }
{
    match bytes.get(3) {
        Some(b'=' | b'!') => Form::Refused(Wrong::Unsupported(Construct::Lookaround)),
        _ => named_of(mode, b'>', bytes, 3),
    }
}

/// What `(?-` begins.
#[tactic(auto, unfolding(crate::specs::Groups::hyphen_group))]
fn hyphen_group(mode: Mode, bytes: &[u8]) -> Form
    requires { 3 ≤ length bytes.now }
    ensures { result ≡ hyphen_group mode bytes.now }
{
    if is_digit_at(bytes, 3) {
        Form::Refused(Wrong::Unsupported(Construct::Recursion))
    } else {
        settings_at(mode, bytes)
    }
}

/// A group whose name begins at a place and ends with the mark.
fn named_of(mode: Mode, mark: u8, bytes: &[u8], at: usize) -> Form
    requires { at ≤ length bytes.now }
    ensures { result ≡ named_of mode (group_name_end mark bytes.now at) }
{
    match group_name_end(mark, bytes, at) {
        Some(end) => Form::Opening(mode, end),
        None => Form::Refused(Wrong::Syntax),
    }
}

/// A comment, up to the first `)`.
fn comment_of(mode: Mode, bytes: &[u8]) -> Form
    requires { 3 ≤ length bytes.now }
    ensures { result ≡ comment_of mode bytes.now (place_on closing_parenthesis 3 (drop 3 bytes.now)) }
{
    match place_of(b')', bytes, 3) {
        Some(close) => comment(mode, close + 1, ill_formed_of(mode.utf8, &bytes[..close])),
        None => Form::Refused(Wrong::Syntax),
    }
}

/// A comment of so many bytes, by the place of a byte in it that begins no character.
pub(crate) fn comment(mode: Mode, length: usize, ill_formed: Option<usize>) -> Form
    ensures { result ≡ comment mode length ill_formed }
{
    match ill_formed {
        None => Form::Skipped(mode, length),
        Some(place) => Form::Refused(Wrong::IllFormed(place)),
    }
}

/// Letters of options behind a `(?`.
#[tactic(auto, unfolding(crate::specs::Groups::settings_at))]
fn settings_at(mode: Mode, bytes: &[u8]) -> Form
    requires { 2 ≤ length bytes.now }
    ensures { result ≡ settings_at mode bytes.now }
{
    settings_of(changed(bytes, set_options(true, mode, 2, bytes)), bytes)
}

/// What letters of options begin, by the byte behind them.
fn settings_of(change: Change, bytes: &[u8]) -> Form
    ensures { result ≡ settings_of change (slice_get bytes.now change.end) }
{
    let Some(byte) = bytes.get(change.end) else {
        return Form::Refused(Wrong::Syntax);
    };
    match *byte {
        b')' => Form::Setting(change.mode, change.end + 1),
        b':' => Form::Opening(change.mode, change.end + 1),
        b'a'..=b'z' | b'A'..=b'Z' => Form::Refused(Wrong::Unsupported(Construct::Option)),
        _ => Form::Refused(Wrong::Syntax),
    }
}

/// The options that are set, and those that a hyphen behind them unsets.
fn changed(bytes: &[u8], set: Change) -> Change
    requires { set.end ≤ length bytes.now }
    ensures is { result ≡ changed bytes.now set }
    ensures within { result.end ≤ length bytes.now }
{
    if is_byte_at(b'-', bytes, set.end) {
        set_options(false, set.mode, set.end + 1, bytes)
    } else {
        set
    }
}
