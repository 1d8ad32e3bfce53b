//! Texts with their faults, by the pattern syntax. A line has flags and a fault, and then texts that have that fault.
//! It is `#[cfg(test)]`.

/// Texts that are refused.
pub(crate) const FAULTS: &[u8] = b"\
0 Syntax(0) * +a ? {2} ) \\ \\c \\c\x7f \\c\x80 \\x{ \\x{} \\x{4 \\x{g} \\x{4g} \\x{100} \\x{ffffffff}\n\
0 Syntax(0) \\x{000000041} \\o \\o1 \\o{ \\o{} \\o{8} \\o{400} \\o{000000101} \\o{18} [ [] [^ [^] [a [a- [a-b [\\c]\n\
0 Syntax(0) [:alpha:] [:a:]] [:a: [:^alpha: [[:alpha:] [[:alpha: (? (?< (?<>a) (?<n (?<1n>a) (?<n-m>a) (?P<>a)\n\
0 Syntax(0) (?P<1>a) (?P<n (?''a) (?'n (?'n>a) (?<nnnnnnnnnnnnnnnnnnnnnnnnnnnnnnnnn>a) (?# (?#\\ (?i (?i- (?-\n\
0 Syntax(0) (?i-i-i) (?--i) (?i-1) (?i*) (?^) (?i^) (?*) (?[) (?,) (?$) (?\xe9) *+ {32768} {3,2}+ [Z-a )\\y\n\
0 Syntax(2) a** a+* a?* a|* a|{2} (a (a[b [ab-a] [^z-a] [a\\ [a\\x{100}] [a[:foo:]] a**+ a*{32768}\n\
0 Syntax(1) (+a) ({2,3}) a{3,2} a{1,0} a{3,2}+ a) ( a\\ (\\ a\\c a[ [z-a] [z-a [a--] [\\ [\\c [\\x{g}] [\\o]\n\
0 Syntax(1) [\\x62-a] [[:foo:]] [[:^foo:]] [[:alphaa:]] [[:a:] a[:xyz:]b a(?#x a(?@ [z-a\\y] a{3,2}?\n\
0 Syntax(4) (a)+* a{2}* a{2}{3} (?i)* (?i){2} (?i:+) a*\\E* \\Q\\E* (?i)) ((a) (?:a (\\Q)\n\
0 Syntax(3) a*?* a*?+ a*?? (?:*a) (?|?) (a)) a|b)c( (a| [a-\\ [a-\\x{100}] [a-[:foo:]]\n\
0 Syntax(5) a(?i)* (?#x)* (?i:a\n\
0 Syntax(6) a*(?#)* (?<n>a\n\
0 Syntax(7) (a(?i)b (a(?#x) (?x)(#) a(?#\\)b)\n\
0 RepeatLimit(32768) a{32768} a{32768,} a{0,32768} a{32768}? a{32768}(\n\
0 RepeatLimit(99999) a{1,99999}\n\
0 RepeatLimit(40000) a{40000,50000} a{40000,1}\n\
0 RepeatLimit(4294967295) a{4294967295} a{4294967296} a{99999999999999999999}\n\
0 RepeatLimit(4294967294) a{2,4294967294}\n\
0 Unsupported(Possessive,1) a*+ a++ a?+ a{2}+ a{2,}+ a{2,3}+ a{32768}+ a{1,32768}+\n\
0 Unsupported(Possessive,3) (a)*+\n\
0 Unsupported(Backreference,0) \\1 \\2 \\3 \\4 \\5 \\6 \\7 \\8 \\9 \\g \\k \\k<n> \\g{1} (?P=n)\n\
0 Unsupported(Backreference,3) (a)\\1\n\
0 Unsupported(Backreference,1) [\\1] [\\9] [\\g] [\\k] a\\1(\n\
0 Unsupported(Property,0) \\p \\P\n\
0 Unsupported(Property,1) [\\p] a\\p{L} [\\P] a\\P{L}\n\
0 Unsupported(NewlineSequence,0) \\R\n\
0 Unsupported(NewlineSequence,1) a\\R*\n\
0 Unsupported(AnyByte,0) \\C\n\
0 Unsupported(AnyByte,1) a\\C*\n\
0 Unsupported(Keep,0) \\K\n\
0 Unsupported(Keep,1) a\\K*\n\
0 Unsupported(NotNewline,0) \\N\n\
0 Unsupported(NotNewline,1) a\\N*\n\
0 Unsupported(Grapheme,0) \\X\n\
0 Unsupported(Grapheme,1) a\\X*\n\
0 Unsupported(MatchStart,0) \\G\n\
0 Unsupported(MatchStart,1) a\\G*\n\
0 UnknownEscape(0) \\i \\j \\l \\m \\q \\u \\y \\F \\I \\J \\L \\M \\O \\T \\U \\Y \\y)\n\
0 UnknownEscape(2) [a\\i] [a\\j] [a\\l] [a\\m] [a\\q] [a\\u] [a\\y] [a\\z] [a\\A] [a\\B] [a\\C] [a\\E] [a\\F]\n\
0 UnknownEscape(2) [a\\G] [a\\I] [a\\J] [a\\K] [a\\L] [a\\M] [a\\N] [a\\O] [a\\Q] [a\\R] [a\\T] [a\\U] [a\\X]\n\
0 UnknownEscape(2) [a\\Y] [a\\Z]\n\
0 UnknownEscape(3) [a-\\y]\n\
0 UnknownEscape(1) a\\y) [\\Qa] (\\y [\\y\n\
0 Unsupported(Collating,1) [[.a.]] [[=a=]] [[=ab=]\n\
0 Unsupported(Collating,2) [x[.space.]y]\n\
0 Unsupported(Collating,3) [a-[.b.]]\n\
0 Unsupported(Verb,0) (*a) (*\n\
0 Unsupported(Verb,1) a(*ACCEPT) ((*\n\
0 Unsupported(Lookaround,0) (?=a) (?!a) (?<=a) (?<!a) (?=a)\\y\n\
0 Unsupported(Lookaround,1) a(?=\n\
0 Unsupported(Atomic,0) (?>a) (?>\n\
0 Unsupported(Conditional,0) (?(1)a) (?(\n\
0 Unsupported(Callout,0) (?C) (?C1)\n\
0 Unsupported(Recursion,0) (?R) (?&n) (?P>n) (?+1) (?1) (?0) (?9) (?-1) (?2) (?3) (?4) (?5) (?6) (?7) (?8) (?-0)\n\
0 Unsupported(Recursion,0) (?-9) (?+a)\n\
0 Unsupported(Option,0) (?z) (?iz) (?i-z) (?-z) (?J) (?P) (?Pa) (?U) (?L)\n\
0 Unsupported(Option,1) a(?ixj)\n\
1 Syntax(1) F[ [a-Z]\n\
7 Syntax(1) a\\\n\
2 Syntax(0) )\n\
0 UnknownEscape(6) \\Q\\y\\E\\y (?#\\y)\\y\n\
";

/// Texts that are refused and have a space, with semicolons between the fields.
pub(crate) const SPACED: &[u8] = b"\
0;Syntax(5);(?x) *\n\
0;Syntax(0);\\x{ 41};(?<n a>b)\n\
";

/// Texts that are refused and have a line feed, with semicolons between the fields and dollars behind the lines.
pub(crate) const BLANKS: &[u8] = b"\
0;Syntax(0);\\c\n$\
0;UnknownEscape(8);(?x)#\\y\n\\y$\
";

/// Texts of so many bytes that are the same, with these behind them, and the fault, where there is one.
pub(crate) const LONG: &str = "\
16000 a;16001 a  LengthLimit;16000 a * LengthLimit;16001 *  LengthLimit;15999 a [ Syntax(15999);\
15999 a ( Syntax(16000);16000 |;128 (  Syntax(128);129 (  DepthLimit;128 ( (?= Unsupported(Lookaround,128);\
128 ( (?: DepthLimit;128 ( (* Unsupported(Verb,128);127 ( a)(b))((* Unsupported(Verb,134);128 ( a)(b Syntax(132);\
16000 (  DepthLimit";
