//! What the words of a command line ask for.
ghost use Rattle.std.specs.Prelude.{◌≡◌, ◌≢◌, map, string_bytes, IfOk, None};
ghost use Rattle.std.specs.Option.{option_map};
ghost use Rattle.clap.specs.Words.{found_of, kind_of, rows_of, subcommand_rows_of};
ghost use Rattle.clap.specs.declared.error.ErrorKind.TheVariants.{OutOfMemory};
ghost use Rattle.hs_request.specs.Requests.{request_of as request_of_words, request_in, request_named, plain_request};
ghost use Rattle.hs_request.specs.Requests.{operand_in, number_in, number_of};

use crate::command_line::command_line;
use clap::error::ErrorKind;
use clap::{ArgMatches, Error};
use std::alloc::{AllocError, Global};

/// What the words ask for.
#[derive(Clone, Copy)]
pub enum Request<'a> {
    /// `match PATTERNS FILE`: scan a file for the expressions of a pattern file.
    Match {
        patterns: &'a str,
        file: &'a str,
    },
    /// `check PATTERNS`: whether the list of a pattern file is accepted.
    Check {
        patterns: &'a str,
    },
    /// `compile PATTERNS DB`: put the database file of a pattern file.
    Compile {
        patterns: &'a str,
        database: &'a str,
    },
    /// `info DB`: what a database file holds.
    Info {
        database: &'a str,
    },
    /// `scan DB FILE`: scan a file for the expressions of a database file.
    Scan {
        database: &'a str,
        file: &'a str,
    },
    /// `stream DB`: run the script of the input over streams of a database file.
    Stream {
        database: &'a str,
    },
    /// `soak SEED N`: draw so many expressions and a stream from a seed, and scan it in two ways.
    Soak {
        seed: u32,
        count: u32,
    },
}

/// The request of the words, which begin with the program's name; none where the command line doesn't take them.
///
/// # Errors
///
/// Where reading them finds no memory.
pub fn request_of<'a>(alloc: Global, words: &'a [String]) -> Result<Option<Request<'a>>, AllocError>
    ensures { IfOk result (λ request. option_map plain_request request ≡ request_of_words
        (map string_bytes words.now)) }
{
    let command = command_line(alloc)?;
    match command.try_get_matches_from(words) {
        Ok(matches) => Ok(chosen(&matches)),
        Err(error) => not_taken(&error),
    }
}

/// No request, where it isn't for want of memory that the words weren't taken.
fn not_taken<'a>(error: &Error) -> Result<Option<Request<'a>>, AllocError>
    ensures none { IfOk result (λ request. request ≡ None) }
    ensures kind { IfOk result (λ _. kind_of error.now ≢ OutOfMemory) }
{
    if error.kind() == ErrorKind::OutOfMemory {
        return Err(AllocError);
    }
    Ok(None)
}

/// The request of the subcommand that was met.
fn chosen<'a>(matches: &ArgMatches<'a>) -> Option<Request<'a>>
    ensures { option_map plain_request result ≡ request_in (subcommand_rows_of matches.now) }
{
    match matches.subcommand() {
        Some((name, operands)) => named(name, operands),
        None => None,
    }
}

/// The request of the subcommand of this name.
fn named<'a>(name: &str, operands: &ArgMatches<'a>) -> Option<Request<'a>>
    ensures { option_map plain_request result ≡ request_named name.now (rows_of (found_of operands.now)) }
{
    match name {
        "match" => Some(Request::Match {
            patterns: operand(operands, "PATTERNS"),
            file: operand(operands, "FILE"),
        }),
        "check" => Some(Request::Check {
            patterns: operand(operands, "PATTERNS"),
        }),
        "compile" => Some(Request::Compile {
            patterns: operand(operands, "PATTERNS"),
            database: operand(operands, "DB"),
        }),
        "info" => Some(Request::Info {
            database: operand(operands, "DB"),
        }),
        "scan" => Some(Request::Scan {
            database: operand(operands, "DB"),
            file: operand(operands, "FILE"),
        }),
        "stream" => Some(Request::Stream {
            database: operand(operands, "DB"),
        }),
        "soak" => Some(Request::Soak {
            seed: number(operands, "SEED"),
            count: number(operands, "N"),
        }),
        _ => None,
    }
}

/// The word given for an operand. Each one has to be given.
fn operand<'a>(operands: &ArgMatches<'a>, name: &str) -> &'a str
    ensures { result.now ≡ operand_in (rows_of (found_of operands.now)) name.now }
{
    match operands.get_str(name) {
        Some(word) => word,
        None => "",
    }
}

/// The number given for an operand.
fn number(operands: &ArgMatches<'_>, name: &str) -> u32
    ensures { result ≡ number_in (rows_of (found_of operands.now)) name.now }
{
    number_of(operand(operands, name))
}

/// The number that a word says; 0 where it says none of 32 bits.
fn number_of(word: &str) -> u32
    ensures { result ≡ number_of word.now }
{
    match word.parse() {
        Ok(number) => number,
        Err(_) => 0,
    }
}
