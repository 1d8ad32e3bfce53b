//! What is counted and asked of trees, and the items that they are flattened to: rows that one test reads. It is
//! `#[cfg(test)]`.
use crate::trees::tree;
use hs_expr::{
    Expr, flatten, greatest_width, has_embedded_end, is_plain, least_width, matches_empty,
    positions,
};
use hs_support::excess_positions;
use std::alloc::{AllocError, Global};
use std::process::Abort;

/// Trees, each with its least width, its greatest one or `none`, its positions, and what holds of it: `e` that it
/// matches the empty text, `x` that bytes may be consumed behind an assertion of the stream's end, `p` that it is
/// plain.
const FACTS: &[u8] = b"\
_ 0 0 0 e p;a 1 1 1 p;@ 1 4 1;& 0 0 0 e p;% 0 0 0 p;() 0 0 0 e p;(abc) 3 3 3 p;(a_) 1 1 1 p;(&_) 0 0 0 e p;\
(foo.*bar) 6 none 7 p;[] 0 0 0 p;[(bcd)a] 1 3 4 p;[a_] 0 1 1 e p;[%a] 0 1 1 p;[a*b] 0 none 2 e p;a* 0 none 1 e p;\
a+ 1 none 1 p;a? 0 1 1 e p;a{3,5} 3 5 5 p;(ab){2,} 4 none 4 p;a{0} 0 0 0 e p;a*{0} 0 0 0 e p;&*{2,} 0 0 0 e p;\
%{2} 0 0 0 p;_{3,1} 0 0 0;a{3,1} 3 1 1;a{32767}{32767} 1073676289 1073676289 1073676289 p;\
a{32767}{32767}{4} 4294705156 4294705156 4294705156 p;a{32767}{32767}{5} 4294967295 4294967295 4294967295 p;\
a{32767}{32767}{5}{0} 0 0 0 e p;(a{32767}{32767}{4}a{32767}{32767}) 4294967295 4294967295 4294967295 p;\
[a{32767}{32767}{4}a{32767}{32767}] 1073676289 4294705156 4294967295 p;< 0 0 0 e p;^ 0 0 0 e p;$ 0 0 0 e p;\
> 0 0 0 e p;- 0 0 0 e p;($a) 1 1 1 x p;(a$) 1 1 1 p;(&a) 1 1 1 p;[(>a)b] 1 1 2 x p;(>a){0} 0 0 0 e p;\
(>a?) 0 1 1 e x p;(a$)? 0 1 1 e p;(a$)* 0 none 1 e x p;(a>){2} 2 2 2 x p;\
";

/// Trees, each with a letter for the node of each of its items.
const ITEMS: &[u8] = b"\
(foo.*bar) cccrccc;_ ;() ;a c;@ p;% s;((ab){1}{1}(_c)) ccc;((ab){2}a{0}) rr;a+ r;(a?[a_]{1}) ra;((((a)))) c;\
";

/// Trees, each with the positions of the first piece that has too many, or `none`.
const COUNTS: &[u8] = b"\
() none;[] none;(%foo%) none;a{32767} none;(x.{1000}y) none;(ab){256} none;(ab){257} 514;(ab){256,} none;\
(ab){257,} 514;((ab){257}){1} 514;((ab){256}(%(a{1}))) 513;(a{1}){513} 513;a{513} none;((ab){256}.{64}) 576;\
((ab){256}.{65}f(ab){256}) 513;(f(ab){256}) 513;(fo(ab){256}) none;((ab){256}f.{65,}) 513;((ab){256}fo.{65,}) none;\
(.{65}fo(ab){257}) 514;(aaaaaaaaaaaaaaaaaaaaaaaaaaaaaaaa(ab){256}) none;\
(aaaaaaaaaaaaaaaaaaaaaaaaaaaaaaaaa(ab){256}) 513;(aaaaaaaaaaaaaaaaaaaaaaaaaaaaaaaaaa(ab){256}) none;\
((ab){256}aaaaaaaaaaaaaaaaaaaaaaaaaaaaaaaaa) none;((ab){256}foa) none;\
([abcdefghijklmnopqrstuvwxyzABCDEFGHIJKLMN]{13}foo) 520;((ab){257}.{65}(abc){300}) 514;[a(ab){257}(abc){300}] 514;\
[(ab){256}[(abc){200}(ab){257}]] 600;([(ab){256}c]) 513;([(ab){256}c]fo) 513;\
(.{65}(([ab]{32767}){32767}[ab])) 2147352580;(([ab]{32767}){32767}([ab]{32767}){32767}) 4294705156;\
(([ab]{32767}){32767}([ab]{32767}){32767}([ab]{32767}){32767}) 4294967295;\
";

/// The counts of a tree and what holds of it, as they stand in a row.
fn facts(alloc: Global, expr: &Expr) -> Result<String, AllocError> {
    let least = least_width(expr);
    let count = positions(expr);
    let mut text = match greatest_width(expr) {
        Some(greatest) => format!(in alloc; "{least} {greatest} {count}")?,
        None => format!(in alloc; "{least} none {count}")?,
    };
    let found = [
        (matches_empty(expr), " e"),
        (has_embedded_end(expr, false), " x"),
        (is_plain(expr), " p"),
    ];
    for (holds, letter) in found {
        if holds {
            text.push_str(letter)?;
        }
    }
    Ok(text)
}

/// One letter for each item of a tree: the kind of its node.
fn kinds(alloc: Global, expr: &Expr) -> Result<String, AllocError> {
    let mut text = String::new(alloc);
    for item in &flatten(alloc, expr)? {
        text.push(match item {
            Expr::Empty => 'e',
            Expr::Class(_) => 'c',
            Expr::Points(_) => 'p',
            Expr::Assert(_) => 's',
            Expr::Cat(_) => 'k',
            Expr::Alt(_) => 'a',
            Expr::Repeat(_, _, _) => 'r',
        })?;
    }
    Ok(text)
}

/// The positions of the first piece of a tree that has too many.
fn excess(alloc: Global, expr: &Expr) -> Result<String, AllocError> {
    match excess_positions(expr) {
        Some(count) => format!(in alloc; "{count}"),
        None => format!(in alloc; "none"),
    }
}

/// What a row of a table is to say of a tree.
fn told(alloc: Global, table: &str, expr: &Expr) -> Result<String, AllocError> {
    match table {
        "facts" => facts(alloc, expr),
        "items" => kinds(alloc, expr),
        _ => excess(alloc, expr),
    }
}

/// Checks a row of a table.
fn check_row(rt: &impl Abort, alloc: Global, table: &str, row: &[u8]) -> Result<(), AllocError> {
    let mut fields = row.splitn(2, |byte| *byte == b' ');
    let text = fields.next().unwrap_or(b"");
    let found = told(alloc, table, &tree(alloc, text)?)?;
    let wanted = fields.next().unwrap_or(b"");
    assert!(rt; found.as_bytes() == wanted, "{text:?} gives {found}");
    Ok(())
}

/// Checks the rows of a table.
fn check(rt: &impl Abort, alloc: Global, table: &str, rows: &[u8]) -> Result<(), AllocError> {
    for row in rows.split(|byte| *byte == b';') {
        if !row.is_empty() {
            check_row(rt, alloc, table, row)?;
        }
    }
    Ok(())
}

#[test]
fn counts_and_flattens_by_the_rules(rt: HostRuntime) -> Result<(), AllocError> {
    check(&rt, rt.alloc(), "facts", FACTS)?;
    check(&rt, rt.alloc(), "items", ITEMS)?;
    check(&rt, rt.alloc(), "excess", COUNTS)
}
