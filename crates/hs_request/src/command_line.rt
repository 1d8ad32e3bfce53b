//! The command line of the program, as `clap` is given it.
ghost use Rattle.std.specs.Prelude.{codes, IfOk};
ghost use Rattle.hs_request.specs.Requests.{IsCommand, IsMore, IsLonger, operand, one_operand, two_operands};
ghost use Rattle.hs_request.specs.Requests.{number_operand, two_numbers, command_line as whole_line};

use clap::builder::ValueParser;
use clap::{Arg, Command};
use std::alloc::{AllocError, Global};

/// The greatest seed.
const MAX_SEED: u64 = 4_294_967_295;

/// The most expressions that are drawn.
const MAX_DRAWN: u64 = 1_000;

/// The command line: one of seven subcommands, with its operands.
///
/// # Errors
///
/// Where it finds no memory.
pub fn command_line<'a>(alloc: Global) -> Result<Command<'a>, AllocError>
    ensures { IfOk result (IsCommand whole_line) }
{
    let line = Command::new(alloc, "hs_tool")
        .subcommand_required(true)
        .disable_help_subcommand(true);
    let line = with_two(alloc, line, "match", "PATTERNS", "FILE")?;
    let line = with_one(alloc, line, "check", "PATTERNS")?;
    let line = with_two(alloc, line, "compile", "PATTERNS", "DB")?;
    let line = with_one(alloc, line, "info", "DB")?;
    let line = with_two(alloc, line, "scan", "DB", "FILE")?;
    let line = with_one(alloc, line, "stream", "DB")?;
    with_soak(alloc, line)
}

/// The command line with a subcommand more, which has one operand.
fn with_one<'a>(
    alloc: Global,
    line: Command<'a>,
    name: &'a str,
    operand: &'a str,
) -> Result<Command<'a>, AllocError>
    ensures { IfOk result (IsLonger line.entry (one_operand name.now operand.now)) }
{
    let command = one(alloc, name, operand)?;
    line.subcommand(command)
}

/// The command line with a subcommand more, which has two operands.
fn with_two<'a>(
    alloc: Global,
    line: Command<'a>,
    name: &'a str,
    first: &'a str,
    second: &'a str,
) -> Result<Command<'a>, AllocError>
    ensures { IfOk result (IsLonger line.entry (two_operands name.now first.now second.now)) }
{
    let command = two(alloc, name, first, second)?;
    line.subcommand(command)
}

/// The command line with the subcommand `soak` more.
fn with_soak<'a>(alloc: Global, line: Command<'a>) -> Result<Command<'a>, AllocError>
    ensures { IfOk result (IsLonger line.entry two_numbers) }
{
    let command = soak(alloc)?;
    line.subcommand(command)
}

/// A subcommand with one operand.
fn one<'a>(alloc: Global, name: &'a str, operand: &'a str) -> Result<Command<'a>, AllocError>
    ensures { IfOk result (IsCommand (one_operand name.now operand.now)) }
{
    let command = Command::new(alloc, name);
    with_operand(alloc, command, operand)
}

/// A subcommand with two operands.
fn two<'a>(
    alloc: Global,
    name: &'a str,
    first: &'a str,
    second: &'a str,
) -> Result<Command<'a>, AllocError>
    ensures { IfOk result (IsCommand (two_operands name.now first.now second.now)) }
{
    let command = one(alloc, name, first)?;
    with_operand(alloc, command, second)
}

/// The command with one operand more, which has to be given.
fn with_operand<'a>(
    alloc: Global,
    command: Command<'a>,
    name: &'a str,
) -> Result<Command<'a>, AllocError>
    ensures { IfOk result (IsMore command.entry (operand name.entry.now)) }
{
    let operand = Arg::new(alloc, name).required(true);
    command.arg(operand)
}

/// The subcommand `soak`, whose operands are numbers.
fn soak<'a>(alloc: Global) -> Result<Command<'a>, AllocError>
    ensures { IfOk result (IsCommand two_numbers) }
{
    let command = Command::new(alloc, "soak");
    let command = with_number(alloc, command, "SEED", 0, MAX_SEED)?;
    with_number(alloc, command, "N", 1, MAX_DRAWN)
}

/// The command with one operand more, which has to be given and is a number within these bounds.
fn with_number<'a>(
    alloc: Global,
    command: Command<'a>,
    name: &'a str,
    least: u64,
    greatest: u64,
) -> Result<Command<'a>, AllocError>
    ensures { IfOk result (IsMore command.entry (number_operand name.entry.now least greatest)) }
{
    let operand = Arg::new(alloc, name)
        .required(true)
        .value_parser(ValueParser::unsigned(least, greatest));
    command.arg(operand)
}
