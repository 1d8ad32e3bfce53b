//! Words and what they ask for, by the rules of `clap`. It is `#[cfg(test)]`.
use hs_request::{Request, request_of};
use std::alloc::{AllocError, Global};

/// A command line, an equals sign, and the command with its two operands, or nothing where the words aren't taken.
const ROWS: &str = "hs_tool match p f=match,p,f
hs_tool check p=check,p,
hs_tool compile p d=compile,p,d
hs_tool info d=info,d,
hs_tool scan d f=scan,d,f
hs_tool stream d=stream,d,
hs_tool match p -=match,p,-
hs_tool match -- -a b=match,-a,b
hs_tool match a b --=match,a,b
hs_tool check =check,,
hs_tool check check=check,check,
hs_tool=
hs_tool --help=
hs_tool -h=
hs_tool help=
hs_tool -V=
hs_tool --version=
hs_tool match=
hs_tool match p=
hs_tool match p f f=
hs_tool match --help=
hs_tool match p -x=
hs_tool match -1 f=
hs_tool Match p f=
hs_tool matches p f=
hs_tool mat p f=
hs_tool  p f=
hs_tool -- match a b=
hs_tool check=
hs_tool check p f=
hs_tool check -h=
hs_tool compile p=
hs_tool info=
hs_tool scan d=
hs_tool stream=
hs_tool stream d f=
hs_tool soak 1 2=soak,1,2
hs_tool soak 0 1=soak,0,1
hs_tool soak 4294967295 1000=soak,4294967295,1000
hs_tool soak 007 03=soak,7,3
hs_tool soak 4294967296 1=
hs_tool soak 1 0=
hs_tool soak 1 1001=
hs_tool soak -1 5=
hs_tool soak x 5=
hs_tool soak 1 5x=
hs_tool soak  5=
hs_tool soak 1=
hs_tool soak 1 2 3=
hs_tool help match=";

/// The words of a command line, which stand between single blanks.
fn words_of(alloc: Global, line: &str) -> Result<Vec<String>, AllocError> {
    let mut words = Vec::new(alloc);
    for word in line.split(' ') {
        words.push(String::from_str(alloc, word)?)?;
    }
    Ok(words)
}

/// The command of a request, and its two operands, of which the second may be missing.
fn parts_of<'r>(request: &Request<'r>) -> (&'static str, &'r str, &'r str) {
    match request {
        Request::Match { patterns, file } => ("match", patterns, file),
        Request::Check { patterns } => ("check", patterns, ""),
        Request::Compile { patterns, database } => ("compile", patterns, database),
        Request::Info { database } => ("info", database, ""),
        Request::Scan { database, file } => ("scan", database, file),
        Request::Stream { database } => ("stream", database, ""),
        Request::Soak { .. } => ("soak", "", ""),
    }
}

/// What words ask for, as it stands in a row.
fn told(alloc: Global, words: &[String]) -> Result<String, AllocError> {
    match request_of(alloc, words)? {
        Some(Request::Soak { seed, count }) => format!(in alloc; "soak,{seed},{count}"),
        Some(request) => {
            let (command, first, second) = parts_of(&request);
            format!(in alloc; "{command},{first},{second}")
        }
        None => Ok(String::new(alloc)),
    }
}

/// What a command line asks for.
fn told_by(alloc: Global, line: &str) -> Result<String, AllocError> {
    let words = words_of(alloc, line)?;
    told(alloc, &words)
}

#[test]
fn takes_commands_with_their_operands_alone(rt: HostRuntime) -> Result<(), AllocError> {
    for row in ROWS.split('\n') {
        let (line, wanted) = row.split_once('=').unwrap_or((row, "?"));
        let found = told_by(rt.alloc(), line)?;
        assert!(rt; found.as_str() == wanted, "{row} gives {found}");
    }
    assert!(rt; told(rt.alloc(), &[])?.is_empty());
    Ok(())
}
