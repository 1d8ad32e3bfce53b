//! Lists over streams, with what is reported of them. Their words are:
//!
//! - `ID:/expression/flags{parameters}`, as in a pattern file; `FIRST-LAST` in place of `ID` stands for each identifier
//! - `<text>` is a stream, with its cuts into pieces. `<<text>>` is every stream of at most four of these bytes.
//!
//! A row with neither list nor `=` gives the streams for the rows behind it that have none. Behind `=` stand the pairs
//! `ID@END` that the bytes decide, with `~` where a piece ends, and behind `|` those that the end decides; without
//! `=` a row has what the definitions say. Words in front:
//!
//! - `each`: each `/expression/flags` is a list of its own, and may match the empty text; it is entered anywhere too
//! - `same`: all have one identifier, with and without `H`; `vary`: identifiers rise, and fall, each so too
//! - `mixed`: the list isn't compiled, since an identifier has entries with and without `H`; `none`: it is empty
//! - `refused`: behind `=` stands the line of the refusal, or nothing
//! - `leaves`: each engine of the expression, entered where the stream is cut or else at 0, ends behind it, or doesn't
//! - `split`: behind `=` stand the chains of the expression, as `hs_judge` writes them; `positions`, `tables`: how many
//!   positions its automaton has, and how many bytes the tables of that

/// What the pattern syntax documents of ends, assertions and bounds.
pub const DOCUMENTED: &[u8] = br"
# each end, and the empty text
1:/foo.*bar/ <fooxyzbarbar> = 1@9 1@12
1:/a*/V <> = | 1@0
1:/a*/V <b> = 1@0 1@1
2:/a*/V <> = | 2@0
2:/a*/V <ba> = 2@0 2@1 2@2
none <ab> =
# a lazy repeat has the same ends; each alternative counts, and each copy may differ
1:/ab+?/ <abb> = 1@2 1@3
24:/ab+?/ <abb> = 24@2 24@3
24:/a{,3}/ <a{,3}> = 24@5
1:/a|ab/ <ab> = 1@1 1@2
1:/(a|b){2}/ <aba> = 1@2 1@3
7:/(ab)+/ <ababa> = 7@2 7@4
# bounds of copies
1:/\Aa{2,3}/ <aaaa> = 1@2 1@3
1:/\Aa{2,}/ <aaaa> = 1@2 1@3 1@4
1:/\Aa{0}b/ <bab> = 1@1
# copies may take nothing
1:/\A(a?){3}/V <aaaa> = 1@0 1@1 1@2 1@3
1:/(a|)*b/ <aab> = 1@3
1:/(?:(?:(?:\A)*){32767}){32767,}a/ <aa> = 1@1 1@2
# a dot is any byte but the line feed
1:/a.b/ <a%0Ab> =
1:/a.b/ <a%0Dba%FFb> = 1@3 1@6
# a match may begin within another
1:/aa/ <aaa> = 1@2 1@3
16:/foo/ <xfoofoo> = 16@4 16@7
11:/Foo/i <fOOFOO> = 11@3 11@6
# a dollar stands at the end and before a final line feed
1:/a$/ <a%0A> = | 1@1
3:/a$/ <a%0A> = | 3@1
1:/a$/ <a%0A%0A> =
17:/a$/ <a> = | 17@1
17:/a$/ <a~%0A> = ~ | 17@1
1:/a\z/ <a%0A> =
1:/a\z/ <ba> = | 1@2
1:/\A.\z/ <ab> =
# word bytes
1:/\bfoo\b/ <foo> = | 1@3
1:/\bfoo\b/ <food> =
1:/\bfoo\b/ <foo-> = 1@3
5:/\bfoo\b/ <foo> = | 5@3
5:/\bfoo\b/ <foo~d> = ~
1:/a\b/ <a_> =
1:/\Bb/ <ab> = 1@2
1:/\Bb/ <b> =
# lines
1:/^b/m <a%0Ab> = 1@3
14:/^b/m <a%0Ab> = 14@3
1:/\n^/m <a%0A> =
14:/\n^/m <a%0A> =
1:/^b/ <a%0Ab> =
1:/a$/m <a%0Aba> = 1@1 | 1@4
4:/a$/m <a~%0Ab> = ~ 4@1
1:/^$/mV <%0A> = 1@0
1:/\A\Aa/ <a> = 1@1
# the least and the greatest end
1:/foo.*bar/{min_offset=10,max_offset=15} <foobar> =
1:/foo.*bar/{min_offset=10,max_offset=15} <foo0123bar> = 1@10
1:/foo.*bar/{min_offset=10,max_offset=15} <foo0123456bar> = 1@13
1:/foo.*bar/{min_offset=10,max_offset=15} <foo012345678bar> = 1@15
1:/foo.*bar/{min_offset=10,max_offset=15} <foo0123456789bar> =
6:/foo.*bar/{min_offset=10,max_offset=15} <foobar> =
6:/foo.*bar/{min_offset=10,max_offset=15} <foo0123bar> = 6@10
6:/foo.*bar/{min_offset=10,max_offset=15} <foo0123456bar> = 6@13
6:/foo.*bar/{min_offset=10,max_offset=15} <foo0123456789bar> =
# one identifier at one end once; at one end by identifier; what is decided first is told first
1:/ab/ 1:/b/ <ab> = 1@2
12:/ab/ 12:/b/ <ab> = 12@2
2:/a/ 1:/a/ <a> = 1@1 2@1
5:/ab/ 9:/a/ <abab> = 9@1 5@2 9@3 5@4
5:/a\b/ 9:/a/ <a~%20> = 9@1 ~ 5@1
15:/[0-9]+foo[a-z]*bar/ <1f~oox~ba~r> = ~ ~ ~ 15@8
# a single identifier: the first pair that the bytes decide, or else the end's
1:/a/H <aaa> = 1@1
18:/a/H <baa> = 18@2
1:/a\z/H <aa> = | 1@2
1:/a$|\n/H <a%0A> = 1@2
12:/a$|\n/H <a~%0A> = ~ 12@2
# each time, where one of the entries asks for that
mixed 1:/a/H 1:/b/ <aab> = 1@1 1@2 1@3
# an end that only the end of the stream decides, beside one that bytes do
1:/\ba(?:b+\z)?/ <> =
1:/\ba(?:b+\z)?/ <a> = 1@1
1:/\ba(?:b+\z)?/ <xa> =
1:/\ba(?:b+\z)?/ <%20a> = 1@2
1:/\ba(?:b+\z)?/ <ab> = 1@1 | 1@2
1:/\ba(?:b+\z)?/ <abb> = 1@1 | 1@3
1:/\ba(?:b+\z)?/ <abc> = 1@1
";

/// Lists of one byte and its assertions, over short texts.
pub const LISTS: &[u8] = br"
<> <a> <%0A> <b> <aa> <ab> <a%0A> <ba> <%0A%0A> <a%20b> <aab%0A> <%0Aa%0Ab> <a_a%20a> <b%0A%0Aa%0A>
none
7:/a/
7:/a*/V
7:/a*/HV
mixed 7:/a\b/ 7:/.\z/H
# an identifier of three, one pair each
3:/a/ 3:/.*/V 3:/a?\Z/V
# identifiers rise, the list doesn't
9:/a/ 4:/./H 6:/.$/m 4294967295:/^a*/mV
# bounds
1:/./{min_offset=1,max_offset=1} 2:/a*/V{min_offset=2} 3:/a?/V{max_offset=0} 4:/.*\z/HV{min_offset=3,max_offset=3}
 5:/.*\Z/V{min_offset=2,max_offset=2}
# the end, and before it
1:/.?\z/V 2:/.?\Z/V 3:/.?\z/HV 4:/.?\Z/HV
mixed 1:/b\z/H 1:/\n*\Z/V 2:/\n?\Z/HV
# the start
1:/\Aa?/V 2:/^.?$/mV 3:/^b/mH
# words
1:/\ba?/V 2:/.?\b/V 3:/\B.?\B/V 4:/a\B/H
# what waits for a byte, and what doesn't
2:/a\b/H 2:/./H{min_offset=2} 3:/a\b/ 3:/.$/m
# more of one
5:/a/ 5:/a/ 5:/.*\Z/V
# where words of bits end
<z> <-z-y-x> <xyz--zy>
0-62:/a/ 63:/z/
0-62:/a/ 63:/y/ 64:/z/
0-62:/a/ 63:/y/ 64:/x/ 65-128:/a/ 129:/z/
# a long text that wakes nothing
<x-x%0A%(150)-> <x-x%0A%(150)-x> <x-x%0A%(150)-%0Ax%0A> <x-x%0A%(150)-ax%0A> <x-x%0A%(150)-x----->
1:/x/ 2:/x$/mH{min_offset=9} 3:/^x/m 4:/\bx\b/{max_offset=160} 5:/x\Z/
";

/// Each assertion alone, before a byte and behind one, at each place of short texts.
pub const ASSERTIONS: &[u8] = br"
<<a%0A%20>>
same /\A/V /\Aa/ /\A\n/ /\A./ /a\A/ /\n\A/ /.\A/ /\Aa|a\A/ /\A|.\A/V
same /^/mV /^a/m /^\n/m /^./m /a^/m /\n^/m /.^/m /^a|a^/m /^|.^/mV
same /$/mV /$a/m /$\n/m /$./m /a$/m /\n$/m /.$/m /$a|a$/m /$|.$/mV
same /\Z/V /a\Z/ /\n\Z/ /.\Z/ /\Z|.\Z/V
same /\z/V /a\z/ /\n\z/ /.\z/ /\z|.\z/V
same /\b/V /\ba/ /\b\n/ /\b./ /a\b/ /\n\b/ /.\b/ /\ba|a\b/ /\b|.\b/V
same /\B/V /\Ba/ /\B\n/ /\B./ /a\B/ /\n\B/ /.\B/ /\Ba|a\B/ /\B|.\B/V
vary /\A/V /\Aa/ /\A\n/ /\A./ /a\A/ /\n\A/ /.\A/ /\Aa|a\A/ /\A|.\A/V
 /^/mV /^a/m /^\n/m /^./m /a^/m /\n^/m /.^/m /^a|a^/m /^|.^/mV
 /$/mV /$a/m /$\n/m /$./m /a$/m /\n$/m /.$/m /$a|a$/m /$|.$/mV
 /\Z/V /a\Z/ /\n\Z/ /.\Z/ /\Z|.\Z/V
 /\z/V /a\z/ /\n\z/ /.\z/ /\z|.\z/V
 /\b/V /\ba/ /\b\n/ /\b./ /a\b/ /\n\b/ /.\b/ /\ba|a\b/ /\b|.\b/V
 /\B/V /\Ba/ /\B\n/ /\B./ /a\B/ /\n\B/ /.\B/ /\Ba|a\B/ /\B|.\B/V
";

/// Expressions over short texts, entered anywhere.
pub const EXPRESSIONS: &[u8] = br"
<> <a> <ab> <aab> <a%20b> <%0Aa%0A> <ba%0Aab> <aaa>
each /(?:)/ // /a/ /\A/ /^/m /$/m /\Z/ /\z/ /\b/ /\B/ /(?:)+/ /\b?/ /(?:(?:\b{32767}){32767}){32767}/ /ab/ /a|b/
each /a*/ /a+/ /a?/ /a{2,}/ /a{1,3}/ /a{0,2}/ /a{0}/ /a{3}/ /(?:ab){1,3}/ /(?:a|b){3}/ /a*b*/ /(?:a*)*/ /(?:a?b?)*/
 /(?:a?){2,}/ /\b(?:a|b)+\b/ /(?:\ba)+/ /(?:a\b)*/ /(?:a|\b){3}/ /(?:a|\B){1,3}/ /^a$/m /\Aa/ /a\n?\Z/ /a.*\z/
 /a(?:\z|)/ /(?:.*$\n)*/m /(?:.\n^){2,}/m /(?:\A|^)a/m /(?:(?:a\b)?b){0,2}/ /(?:a(?:\b?b){1,3})/
 /(?:(?:a?){0,2}(?:b?){0,2}){1,3}/ /(?:(?:a|b){0,2}\b){2,}/ /(?:\B.\B)+/ /(?:a{4}b{0})*/
# the most positions
<> <a> <aa> <aab>
each /a{3,512}/
<> <b> <b%20> <b%20a>
each /(?:a?b?a?b?){128}/
<> <a> <a%20> <a%20b>
each /(?:(?:a|\b)b?a?b?){128}/
# contexts between positions, and a stream longer than a block
<ab%20b> <%(64)aab%20b>
each /(?:a|b\b)*b/ /\b(?:a|ab)\b.*b/ /^a|\Bb+$/m /(?:\bb|a)*b/ /(?:a|b){66}\b/
";

/// Repeats of one set, which the engines of repeats run too.
pub const REPEATS: &[u8] = br"
<> <a> <b> <aa> <aab> <baa> <aaaa> <abaab> <bbaaaa> <aaaaaaaa> <aaaabaaaa> <aaaaaaaaaaaaa> <abbaaaaaaaaaaaaaaa>
 <aaaaaaaaabaaaaaaaaa>
each /a+/ /a{2,}/ /a{5,}/ /a?/ /a{0,3}/ /a{1,3}/ /a{1,6}/ /a{2}/ /a{2,5}/ /a{8}/ /a{3,17}/
each /[^b]+/ /[^b]{2,}/ /[^b]{5,}/ /[^b]?/ /[^b]{0,3}/ /[^b]{1,3}/ /[^b]{1,6}/ /[^b]{2}/ /[^b]{2,5}/ /[^b]{8}/
 /[^b]{3,17}/
each /.+/s /.{2,}/s /.{5,}/s /.?/s /.{0,3}/s /.{1,3}/s /.{1,6}/s /.{2}/s /.{2,5}/s /.{8}/s /.{3,17}/s
each /[^\x00-\xff]+/ /[^\x00-\xff]{2,}/ /[^\x00-\xff]{5,}/ /[^\x00-\xff]?/ /[^\x00-\xff]{0,3}/ /[^\x00-\xff]{1,3}/
 /[^\x00-\xff]{1,6}/ /[^\x00-\xff]{2}/ /[^\x00-\xff]{2,5}/ /[^\x00-\xff]{8}/ /[^\x00-\xff]{3,17}/
";

/// Long repeats, and whether they end behind a stream.
pub const LONG_REPEATS: &[u8] = br"
leaves /a{3,512}/ <aa> = no
leaves /a{3,512}/ <aaa> = yes
leaves /a{3,512}/ <%(512)a> = yes
leaves /a{3,512}/ <%(513)a> = no
leaves /a{1000}/ <x~%(999)a> = no
leaves /a{1000}/ <x~%(999)aa> = yes
leaves /a{1000}/ <x~%(999)aaa> = no
leaves /a{1000}/ <x~%(999)aay> = no
leaves /a{3,}/ <> = no
leaves /a{3,}/ <a> = no
leaves /a{3,}/ <aa> = no
leaves /a{3,}/ <aaa> = yes
leaves /a{3,}/ <aaaa> = yes
leaves /a{3,}/ <aab> = no
leaves /a{1,2}/ <> = no
leaves /a{1,2}/ <a> = yes
leaves /a{1,2}/ <aa> = yes
leaves /a{1,2}/ <aaa> = no
leaves /a{1,2}/ <aaaa> = no
leaves /a{1,2}/ <aab> = no
leaves /a{2,3}/ <> = no
leaves /a{2,3}/ <a> = no
leaves /a{2,3}/ <aa> = yes
leaves /a{2,3}/ <aaa> = yes
leaves /a{2,3}/ <aaaa> = no
leaves /a{2,3}/ <aab> = no
";

/// Expressions whose chains have several pieces, and how they are split.
pub const CHAINS: &[u8] = br#"
each /\bfoo\b/ <a%20foo%20foobar%20foo>
each /[0-9]+foo[a-z]*bar/ <1foo2fooxbar%20bar>
each /(?i:f)(?i:o)o/ <Foo%20fOo%20foO%20FOo>
each /a|(?:b|c)|de|a+e$/m <abcdede%20aae%0Aaae>
each /a{1}(?:b(?:)){1}c/ <abcabcbc>
each /(?:ab){2}cd/ <ababcdabcd>
each /x.{0,65}y/ <xaay%20xy%0Ay>
each // <ab>
each /.abcdefghijklmnopqrstuvwxyzabcdefg/ <xabcdefghijklmnopqrstuvwxyzabcdefg>
each /\ba(?:b+\z)?/ <> <a> <xa> <%20a> <ab> <abb> <abc>
1:/\bfo.{65,}/ <fo%(64)a> =
1:/\bfo.{65,}/ <fo%(66)a> = 1@67 1@68
split /\bfo.{65,}/ = ~e"fo"r;
split /\bfoo\b/ = ~e"foo"e;
split /x[\x00-\xff]{1000}y/ = ere;
split /[0-9]+foo[a-z]*bar/ = e"foo"e"bar";
split /f\boo/ = ~e"oo";
split /(?i:f)(?i:o)o/ = "FOo";
split /a/ = e;
split // = ;
split /(?:)/ = ;
split /a|(?:b|c)|de/ = e;e;e;"de";
split /a{1}(?:b(?:)){1}c/ = "abc";
split /(?:ab){2}cd/ = ~e"cd";
split /.{8}.{8}ab/ = ~e"ab";
split /.{8}.{9}ab/ = e"ab";
split /.{64}/ = e;
split /.{0,65}/ = r;
split /.{64,}/ = e;
split /.{65,}/ = r;
split /ab.{65,}cd/ = "ab"r"cd";
split /a.{65,}b/ = ere;
split /(?:ab){65,}/ = e;
split /abcdefghijklmnopqrstuvwxyzabcdefg/ = "abcdefghijklmnopqrstuvwxyzabcdef"e;
split /abcdefghijklmnopqrstuvwxyzabcdefgh/ = "abcdefghijklmnopqrstuvwxyzabcdef""gh";
"#;

/// Expressions over code points, by the forms of UTF-8 (The Unicode Standard, "Unicode Encoding Forms") and the simple
/// foldings of its table of cases.
pub const CODE_POINTS: &[u8] = br#"
# a dot is one code point in one to four bytes
1:/\A.\z/8 <a> = | 1@1
1:/\A.\z/8 <%C3%A9> = | 1@2
1:/\A.\z/8 <%E2~%82~%AC> = ~ ~ | 1@3
1:/\A.\z/8 <%F0%9F%98%80> = | 1@4
1:/\A./8 <%F0%9F%98%80> = 1@4
13:/^.$/8 <%C3%A9> = | 13@2
13:/^.$/8 <%C3~%A9%0A> = ~ | 13@2
13:/^.$/8 <%FF> =
13:/^.$/8 <%C3%A9a> =
13:/^.$/ <%C3%A9> =
1:/./8 <%0A> =
1:/./s8 <%0A> = 1@1
# no code point: a part of one, a form that is too long, a surrogate, a number that is too large
1:/./8 <%A9> =
1:/./8 <%E2%82> =
1:/./8 <%C0%80> =
1:/./8 <%E0%9F%BF> =
1:/./8 <%ED%A0%80> =
1:/./8 <%F4%90%80%80> =
1:/./8 <%ED%9F%BF> = 1@3
# a character, a class and its complement
7:/\x{20AC}+/8 <%E2%82%AC%E2~%82%AC> = 7@3 ~ 7@6
8:/\x{E9}/8 <%E9> =
8:/\x{E9}/ <%C3%A9> =
8:/\x{E9}/ <%E9> = 8@1
8:/[\x{E9}\x{20AC}]b/8 <%E2%82%ACb%C3%A9b> = 8@4 8@7
8:/[^a]b/8 <ab%C3%A9b> = 8@5
8:/a[^\x{0}-\x{FFFF}]/8 <a%F0%9F~%98%80> = ~ 8@5
8:/\W/8 <%C3%A9> = 8@2
8:/\w/8 <%C3%A9> =
# both cases, of one length and of two
22:/\x{E9}/i8 <%C3%89> = 22@2
22:/\x{E9}/i8 <%C3~%A9> = ~ 22@2
22:/\x{E9}/8 <%C3%89> =
23:/k/i8 <%E2%84%AA> = 23@3
23:/k/i8 <K> = 23@1
23:/[^k]/i8 <%E2%84%AA> =
# a word ends where its bytes do
24:/\bx/8 <%C3%A9x> = 24@3
# beside a list in bytes
1:/a\x{E9}b/8 2:/a..b/ 3:/\xA9/ <a%C3%A9b> = 3@3 1@4 2@4
# each tree alone
<%C3%A9%E2%82%AC>
each /\x{E9}/ /\x{E9}/8 /\x{E9}?\x{20AC}/8 /[\x{E9}\x{20AC}]{2}/8 /(?:\x{E9}|\x{E9}\x{20AC})/8 /\A\x{E9}\b/8 /a/8
# what is refused goes by the tree in bytes
refused 1:/a/8 =
refused 1:/a*/8 = refused 1 1 6 MatchesEmpty
refused 1:/\x{E9}$\x{E9}/8 = refused 1 1 7 EmbeddedEnd
refused 1:/.{18}/8 =
refused 1:/.{19}/8 = refused 1 1 9 PositionLimit 513
refused 1:/.{19}/ =
refused 1:/a/8W = refused 1 1 4 UnsupportedFlag 64
positions /\x{20AC}/8 = 3
positions /./8 = 27
positions /(?:^[\x{e9}\x{800}]){2,3}/8 = 15
split /foobar/8 = "foobar";
# a letter with a third case is no literal
split /ab[Kk]cd/8 = "abKcd";
split /ab(?i:[Kk])cd/8 = "ab"e"cd";
# the bounds of copies stay
1:/\A[\x{E9}\x{20AC}]{2,3}\z/8 <%C3%A9> =
1:/\A[\x{E9}\x{20AC}]{2,3}\z/8 <%C3%A9%E2%82%AC> = | 1@5
1:/\A[\x{E9}\x{20AC}]{2,3}\z/8 <%C3%A9%E2%82%AC%C3%A9> = | 1@7
1:/\A[\x{E9}\x{20AC}]{2,3}\z/8 <%C3%A9%C3%A9%C3%A9%C3%A9> =
"#;

/// Lists that are refused, by the first reason of the first entry that has one, and those that aren't.
pub const REFUSALS: &[u8] = br"
refused 9:/a*/ = refused 1 9 6 MatchesEmpty
refused 1:/a/ 2:/a)/ 3:/*/ = refused 2 2 1 Syntax 1
refused 25:/a/L = refused 1 25 4 UnsupportedFlag 256
refused 25:/a*/L{min_offset=2,max_offset=1} = refused 1 25 4 UnsupportedFlag 256
refused 25:/a)/L = refused 1 25 1 Syntax 1
refused 2:/a*/V =
refused 2:/a*/HV 2:/b/H{min_offset=10,max_offset=15} =
refused 12:/ab/ 12:/b/ =
refused 12:/ab/ 12:/b/H = refused 2 12 14 MixedSingle 12
refused 12:/ab/H 7:/b/ 12:/b/{min_offset=2,max_offset=1} = refused 3 12 14 MixedSingle 12
refused 12:/ab/H 12:/b*/{min_offset=2,max_offset=1} = refused 2 12 6 MatchesEmpty
refused 25:/a/{min_offset=2,max_offset=1} = refused 1 25 15 OffsetOrder
refused 8:/a{32768}/ = refused 1 8 8 RepeatLimit 32768
refused 8:/a{32767}/ =
refused 10:/(a)\1/ = refused 1 10 3 Unsupported backreference 3
refused 10:/a$b/ = refused 1 10 7 EmbeddedEnd
refused 11:/F[/i = refused 1 11 1 Syntax 1
refused 19:/(ab){257}/ = refused 1 19 9 PositionLimit 514
";

/// What is supported of trees, flags and parameters.
pub const SUPPORT: &[u8] = br"
refused 1:/a/ =
refused 1:/foo.*bar/ =
refused 1:/(?:)/ = refused 1 1 6 MatchesEmpty
refused 1:/()/ = refused 1 1 6 MatchesEmpty
refused 1:/a*/ = refused 1 1 6 MatchesEmpty
refused 1:/a|b*/ = refused 1 1 6 MatchesEmpty
refused 1:/\B/ = refused 1 1 6 MatchesEmpty
refused 1:/$/ = refused 1 1 6 MatchesEmpty
refused 1:/$/m = refused 1 1 6 MatchesEmpty
refused 1:/^/m = refused 1 1 6 MatchesEmpty
refused 1:/\A/ = refused 1 1 6 MatchesEmpty
refused 1:/\z/ = refused 1 1 6 MatchesEmpty
refused 1:/\b/ =
refused 1:/(?:\b)*/ = refused 1 1 6 MatchesEmpty
refused 1:/(?:$)*a/ = refused 1 1 7 EmbeddedEnd
refused 1:/(?:$){0}a/ =
refused 1:/(?:$)?a/ = refused 1 1 7 EmbeddedEnd
refused 1:/\za/ = refused 1 1 7 EmbeddedEnd
refused 1:/$a/m =
refused 1:/^a/m =
refused 1:/a(?:$)/ =
refused 1:/a$\z/ =
refused 1:/a$(?:\b){0}/ =
refused 1:/a$b{0}/ =
refused 1:/a$b?/ = refused 1 1 7 EmbeddedEnd
refused 1:/a$(?:)(?:\b)/ =
refused 1:/(?:a$)(?:b)/ = refused 1 1 7 EmbeddedEnd
refused 1:/(?:a$|b)c/ = refused 1 1 7 EmbeddedEnd
refused 1:/a$|b/ =
refused 1:/c(?:a$)?/ =
refused 1:/c(?:a$)*/ = refused 1 1 7 EmbeddedEnd
refused 1:/c(?:a$){0,2}/ = refused 1 1 7 EmbeddedEnd
refused 1:/c(?:\b$)*/ =
refused 1:/(?:a$)?/ = refused 1 1 6 MatchesEmpty
refused 1:/x{512}/ =
refused 1:/x{513}/ =
refused 1:/(?:xy){256}/ =
refused 1:/(?:xy){257}/ = refused 1 1 9 PositionLimit 514
refused 1:/x{512}a/ =
refused 1:/x{512}\b/ =
refused 1:/(?:x{32767}){32767}/ = refused 1 1 9 PositionLimit 1073676289
refused 1:/(?:(?:x{32767}){32767}){32767}/ = refused 1 1 9 PositionLimit 4294967295
refused 1:/(?:x{513})?/ = refused 1 1 6 MatchesEmpty
refused 1:/$x{513}/ = refused 1 1 7 EmbeddedEnd
refused 1:/(?:$x)*/ = refused 1 1 6 MatchesEmpty
refused 1:/a/ismHV{min_offset=0,max_offset=9} =
refused 1:/$/V =
refused 1:/\Z/ismH = refused 1 1 6 MatchesEmpty
refused 1:/x{513}/HW{min_offset=9,max_offset=0,min_length=1} = refused 1 1 4 UnsupportedFlag 64
refused 1:/a/W = refused 1 1 4 UnsupportedFlag 64
refused 1:/a/P = refused 1 1 4 UnsupportedFlag 128
refused 1:/a/CQ = refused 1 1 4 UnsupportedFlag 512
refused 1:/a/{min_length=1} = refused 1 1 5 UnsupportedParameter 4
refused 1:/$/{min_offset=0,max_offset=9,edit_distance=1,hamming_distance=1} = refused 1 1 5 UnsupportedParameter 8
refused 1:/a/{min_offset=9,max_offset=9} =
refused 1:/a/{min_offset=2,max_offset=1} = refused 1 1 15 OffsetOrder
refused 1:/x{513}/{min_offset=9,max_offset=8} = refused 1 1 15 OffsetOrder
refused 1:/(?:xy){257}/{min_offset=9,max_offset=8} = refused 1 1 9 PositionLimit 514
refused 1:/$a/V{min_offset=9,max_offset=8} = refused 1 1 7 EmbeddedEnd
";

/// How many positions expressions have, and how many bytes the tables of their automata.
pub const SIZES: &[u8] = br"
positions /(?:\b{32767}){32767}/ = 0
positions /\b{0}/ = 0
positions /a{0}/ = 0
positions /a{2,}/ = 2
positions /(?:a*(?:\b{32767})b?){3}/ = 6
positions /(?:abcd){128}/ = 512
positions /a{3,512}/ = 512
positions /(?:(?:a|b|c|d){128})*/ = 512
tables /foo.*bar/ = 287
tables /(?:(?:a|b|c|d){128})*/ = 53248
tables /(?:(?:(?:a|b|c|d)\b){128})*/ = 413696
";

/// What is at the edges of chains.
pub const EDGES: &[u8] = br"
# a chain of no pieces
1:/()/V <ab> = 1@0 1@1 1@2
1:/\b/ <a%20b> = 1@0 1@1 1@2 | 1@3
# a later piece without positions
1:/foo\b/ <foo> = | 1@3
1:/foo\b/ <foo%20foo> = 1@3 | 1@7
1:/foo\b/ <fool> =
# a piece that looks back
1:/\bfoo\b/ <foo%20xfoo%20foo> = 1@3 | 1@12
1:/f\boo/ <foo> =
";

/// Chains of several pieces over longer streams.
pub const PIECES: &[u8] = br"
1:/[0-9]+foo[a-z]*bar/ <1foobar%2011fooxbar%20foobar>
1:/x.{65}y/s 2:/x.{70,}y/s 3:/x.{0,66}y/s 4:/x.{2,67}y/s <x%(65)ay%(3)xyy%(70)ay>
1:/ab.{65,}cd/s <ab%(65)xcdcd>
1:/abcab/ 2:/[ab]abcab/ <abcabcab>
";

/// Lists of random expressions over random streams.
pub const RANDOM: &[u8] = br"
1:/aab_bba/Vsi <bbbaaaaaaabbbbbbba%0A%0A> <b%20%0A%20abab__bba>
3:/b|bab/Vsm <__%20aa_%0A%20_a%20> <_%20>
2:/\w{4}a_b/VHsm 1:/[ab]\bbbabababab/Vsmi <%20> <aaa%0A>
3:/\bb\w{3,}/VHi <_%20> <_b%0Aaaabaaaaaaaabbbb%0A>
3:/bab/V 2:/aab[ab]{4}a/Vi 3:/aab/Vs <aaaaaa> <ababbbbbbbbbbabbbbbbbba>
1:/[^a]{2}\B_aa/V <a%0A%20> <ababbb>
1:/aa{4}|[ab]/V <%20%0A%20bbbbbbbb_%20> <aaa%20b%0A_%0A>
3:/[ab]{4}ba|b[ab]a/VHsm <> <_b>
3:/aab(?:_^_[ab]{1,3})+_(?:a{1,3}\Aab\w{3,}){0,2}_/Vm <a%0A%0Aa%20_aaaaaaaaaba> <ababa%20_bbba_%0A%0A>
1:/_bab.{3,}/Vsi <a%0A%20bbbbaaa%0A> <aaaaaaabbbba>
3:/aab(?:b_[ab]a){0,2}/VHs <aaaa%0A%20a%20%20ba> <a%20a%0Aab>
1:/\Bb\wb_|[ab]{3,}\A/Vs <ba%20_%20bbb_b%20> <abab>
3:/aa/Vsm{min_offset=3} <%20%0Abbaaaaaa> <b%20aa>
2:/_\w{4}_/Vmi{min_offset=1} <bbbb%20a> <aaaaaa%20ab_%0Aaaaaaa%20b>
1:/aaba{3,}(?:.*[^a]{1,3}a{4})/VHm 2:/(?:b*.{1,3})+bbba/VH <abab> <%20aaaaaba%20bb%0Ab%0A>
2:/a_|/VHm <%0Aabb%20_> <aaa>
1:/aab(?:_)*/Vmi <a%0Aba> <bbbbbbbb>
1:/b^\B\z/Vsm <bbbbbbbbbbbbbb%20%20b%20> <%20%20ba%0A%0A>
3:/ba/Vsm <bbbbb> <abab>
2:/(?:_b*[^a]{1,3}\Bb){2}b{1,3}(?:b$|[ab]+b)/Vmi <_ab__aaaaaaaaaabab> <bbbbbbb%20__%20aaaaa%0A>
2:/(?:b)?aabb{2}/Vs <_ab%20%0A__abab> <abab_>
2:/(?:a_|a){2}_[ab]a[^a]/VH 1:/\b\babab/Vi <bbaa_abab> <bbbbbbbbbbaaaaaaabbbbb>
2:/bb\bba\n/VH 3:/a/Vs <aa> <_b%0Aabbbabbbbbb>
1:/aab|[^a]{0,2}aab/VHm <ababa_%20aab%20_> <a%20b>
3:/aba{3,}/Vm 2:/a{2}a?bbb/V <aaaaaa%0Aa_%0A%20aab> <%0Abb%0Ab>
3:/\A\B/VH <aaaaaaaaa_> <abab_abab>
2:/\n\b/Vs <bbbbbbb> <aaaaaaaaab>
3:/_a(?:\B\nbabb|[ab]+bb\b)/Vm 1:/abb\b|/Vs <aabaaaaaaaab_abbbbb%0Ab_%20> <a___bbbbb%0A_>
3:/(?:bb)+/Vsm{min_offset=5} <%0Aa%0Abbbbbbbaba%20> <ababaaaaaaaaaaaaaa_b>
1:/(?:\sab^abab)/VH 2:/a{4}/Vsmi{min_offset=5} <%0Aba> <baab%20%20_a>
1:/(?:\w{0,5}b){0,2}baa/VH <%20%20%20bbbbb%0A_%0Aabbbbbbb%20%0Ab%20> <aabb%0Aa%0A>
2:/_abab_.{3,}\z/V <aaaaaaaaaa%0A_a> <_%0A_%20b>
1:/b*[ab]?.{1,3}ab_|.a/VHm <b__%20%0A%0Ab%20> <%20a%0A>
1:/aba.{4}b/V 3:/(?:aa[ab]{0,5}\B)*aabab|(?:ba)/VHsi <_b%20abbbbbbbbb> <abab>
2:/b/Vsi <_b> <_b>
2:/\na/VHsi <aaaa%20bba_%0Ab%20> <bb>
1:/[ab]\A/Vs <bbbbbbbbb> <%0Abaa>
3:/_[ab]*b|_(?:_bb.{0,2})+/Vsi <_> <aaaaabbbbbb%0Ababaaaaaaaaa>
1:/b*bbb/V <b%0A%0A> <aaaaaaaaba%20>
";
