//! A law over the form of a script's lines.

ghost use Rattle.hs_text.specs.Commands.{IsCommandOnce};

/// A line is at most one command.
pub fn command_once()
    ensures { IsCommandOnce }
{}
