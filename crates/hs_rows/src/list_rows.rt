//! Lists, files and what `match` and `scan` answer, written as the rows of `rows`. The answers were worked out by
//! hand from the rules of the forms, and those over many streams by going through all their parts.

/// Pattern files and files, and what `match` writes.
pub const MATCHED: &[u8] = br"
run <hs_tool match p f>
# Lists.
p <> f <abab> = 0 <end 4;>
p <# none;;> f <> = 0 <end 0;>
p <# two;;1:/a/%0D;2:/b/> f <ab> = 0 <1 1;2 2;end 2;>
p <0:/a/> f <a> = 0 <0 1;end 1;>
p <4294967295:/a/> f <a> = 0 <4294967295 1;end 1;>
p <0000000012:/a/> f <a> = 0 <12 1;end 1;>
p <2:/b/;1:/ab/;> f <ab> = 0 <1 2;2 2;end 2;>
p <3:/a/;1:/a/;2:/a/;> f <a> = 0 <1 1;2 1;3 1;end 1;>
p <12:/ab/;12:/b/;> f <ab> = 0 <12 2;end 2;>
p <12:/a/;5:/b/;12:/b/;> f <ab> = 0 <12 1;5 2;12 2;end 2;>
p <1:/a/b/> f <xa/b> = 0 <1 4;end 4;>
p <1:/a\/b/> f <xa/b> = 0 <1 4;end 4;>
p <1:///> f <a/> = 0 <1 2;end 2;>
p <1:/:/> f <1:/> = 0 <1 2;end 3;>
# Characters.
p <1:/a.b/> f <a;baxb> = 0 <1 6;end 6;>
p <1:/./> f <;%00%FF;> = 0 <1 2;1 3;end 4;>
p <1:/%00%FF/> f <%00%FF%00> = 0 <1 2;end 3;>
p <1:/]}/> f <]}]}> = 0 <1 2;1 4;end 4;>
p <1:/\./> f <a.> = 0 <1 2;end 2;>
p <1:/\[a\]/> f <[a]> = 0 <1 3;end 3;>
# Quantifiers.
p <1:/foo.*bar/> f <fooxyzbarbar> = 0 <1 9;1 12;end 12;>
p <7:/aa*/;> f <abab> = 0 <7 1;7 3;end 4;>
p <1:/ab*/> f <abbab> = 0 <1 1;1 2;1 3;1 4;1 5;end 5;>
p <1:/a?b+/> f <abb> = 0 <1 2;1 3;end 3;>
p <1:/xa?b/> f <xbxabxaab> = 0 <1 2;1 5;end 9;>
p <24:/ab+?/> f <abb> = 0 <24 2;24 3;end 3;>
p <24:/a{,3}/> f <a{,3}> = 0 <24 5;end 5;>
p <1:/a{2}b{1,}/> f <aabb> = 0 <1 3;1 4;end 4;>
# Options and flags.
p <11:/Foo/i> f <fOOFOO> = 0 <11 3;11 6;end 6;>
p <1:/a(?i)b|c/> f <aBC> = 0 <1 2;1 3;end 3;>
p <2:/a*/V> f <> = 0 <2 0;end 0;>
p <2:/a*/V> f <b> = 0 <2 0;2 1;end 1;>
p <12:/a$|\n/H> f <a;> = 0 <12 2;end 2;>
p <6:/foo.*bar/{min_offset=10,max_offset=12}> f <fooxyzbarbar> = 0 <6 12;end 12;>
# Code points.
p <13:/^.$/8> f <%C3%A9> = 0 <13 2;end 2;>
p <13:/^.$/8> f <%FF> = 0 <end 1;>
p <22:/%C3%A9/i8> f <%C3%89%C3%A9> = 0 <22 2;22 4;end 4;>
p <22:/[%C3%A9-%C3%AB]/8> f <%C3%A9%C3%AA%C3%AC> = 0 <22 2;22 4;end 6;>
# Assertions.
p <3:/a$/> f <a;> = 0 <3 1;end 2;>
p <14:/^b/m> f <a;b> = 0 <14 3;end 3;>
p <14:/\n^/m> f <a;> = 0 <end 2;>
p <5:/a\b/;9:/a/> f <a > = 0 <9 1;5 1;end 2;>
# Alternations and groups.
p <1:/a|b/> f <abc> = 0 <1 1;1 2;end 3;>
p <1:/aa|aaa/> f <aaaa> = 0 <1 2;1 3;1 4;end 4;>
p <1:/(ab)+/> f <ababa> = 0 <1 2;1 4;end 5;>
p <1:/a(b|c)?d/> f <adabdacdabcd> = 0 <1 2;1 5;1 8;end 12;>
p <1:/(a|b)*c/> f <abcc> = 0 <1 3;1 4;end 4;>
p <1:/(a*)*b/> f <aab> = 0 <1 3;end 3;>
p <1:/()a|(|b)c/> f <abc> = 0 <1 1;1 3;end 3;>
p <1:/((((a))))/> f <ba> = 0 <1 2;end 2;>
# Classes.
p <1:/[a-c]x/> f <axbxcxdx> = 0 <1 2;1 4;1 6;end 8;>
p <1:/[^a-c]x/> f <axdx;x> = 0 <1 4;1 6;end 6;>
p <1:/[]a]/> f <]ab> = 0 <1 1;1 2;end 3;>
p <1:/[^]a]/> f <]ab> = 0 <1 3;end 3;>
p <1:/[a-]/> f <-ab> = 0 <1 1;1 2;end 3;>
p <1:/[-a]/> f <-b> = 0 <1 1;end 2;>
p <1:/[a-c-e]/> f <-de b> = 0 <1 1;1 3;1 5;end 5;>
p <1:/[--a]/> f <-A`b> = 0 <1 1;1 2;1 3;end 4;>
p <1:/[+--]/> f <+,-.> = 0 <1 1;1 2;1 3;end 4;>
p <1:/[\]\-]/> f <a]-> = 0 <1 2;1 3;end 3;>
p <1:/[.*(|]/> f <a.*(|> = 0 <1 2;1 3;1 4;1 5;end 5;>
# Every list over every one of some streams.
p <7:/a/;> f <> = 0 <end 0;>
p <7:/a/;> f <abab> = 0 <7 1;7 3;end 4;>
p <7:/a/;> f <aabbab> = 0 <7 1;7 2;7 5;end 6;>
p <7:/a/;> f <ba;ab> = 0 <7 2;7 4;end 5;>
p <7:/a/;> f <;;a> = 0 <7 3;end 3;>
p <7:/a/;> f <bbbaaab> = 0 <7 4;7 5;7 6;end 7;>
p <7:/a/;> f <abcd> = 0 <7 1;end 4;>
p <7:/ab*/;> f <> = 0 <end 0;>
p <7:/ab*/;> f <abab> = 0 <7 1;7 2;7 3;7 4;end 4;>
p <7:/ab*/;> f <aabbab> = 0 <7 1;7 2;7 3;7 4;7 5;7 6;end 6;>
p <7:/ab*/;> f <ba;ab> = 0 <7 2;7 4;7 5;end 5;>
p <7:/ab*/;> f <;;a> = 0 <7 3;end 3;>
p <7:/ab*/;> f <bbbaaab> = 0 <7 4;7 5;7 6;7 7;end 7;>
p <7:/ab*/;> f <abcd> = 0 <7 1;7 2;end 4;>
p <7:/.a|b./;> f <> = 0 <end 0;>
p <7:/.a|b./;> f <abab> = 0 <7 3;end 4;>
p <7:/.a|b./;> f <aabbab> = 0 <7 2;7 4;7 5;end 6;>
p <7:/.a|b./;> f <ba;ab> = 0 <7 2;end 5;>
p <7:/.a|b./;> f <;;a> = 0 <end 3;>
p <7:/.a|b./;> f <bbbaaab> = 0 <7 2;7 3;7 4;7 5;7 6;end 7;>
p <7:/.a|b./;> f <abcd> = 0 <7 3;end 4;>
p <7:/(a|ba)+b?/;> f <> = 0 <end 0;>
p <7:/(a|ba)+b?/;> f <abab> = 0 <7 1;7 2;7 3;7 4;end 4;>
p <7:/(a|ba)+b?/;> f <aabbab> = 0 <7 1;7 2;7 3;7 5;7 6;end 6;>
p <7:/(a|ba)+b?/;> f <ba;ab> = 0 <7 2;7 4;7 5;end 5;>
p <7:/(a|ba)+b?/;> f <;;a> = 0 <7 3;end 3;>
p <7:/(a|ba)+b?/;> f <bbbaaab> = 0 <7 4;7 5;7 6;7 7;end 7;>
p <7:/(a|ba)+b?/;> f <abcd> = 0 <7 1;7 2;end 4;>
p <7:/(a*b*)*[^ab]/;> f <> = 0 <end 0;>
p <7:/(a*b*)*[^ab]/;> f <abab> = 0 <end 4;>
p <7:/(a*b*)*[^ab]/;> f <aabbab> = 0 <end 6;>
p <7:/(a*b*)*[^ab]/;> f <ba;ab> = 0 <7 3;end 5;>
p <7:/(a*b*)*[^ab]/;> f <;;a> = 0 <7 1;7 2;end 3;>
p <7:/(a*b*)*[^ab]/;> f <bbbaaab> = 0 <end 7;>
p <7:/(a*b*)*[^ab]/;> f <abcd> = 0 <7 3;7 4;end 4;>
p <7:/[ab]*a[^b]/;> f <> = 0 <end 0;>
p <7:/[ab]*a[^b]/;> f <abab> = 0 <end 4;>
p <7:/[ab]*a[^b]/;> f <aabbab> = 0 <7 2;end 6;>
p <7:/[ab]*a[^b]/;> f <ba;ab> = 0 <7 3;end 5;>
p <7:/[ab]*a[^b]/;> f <;;a> = 0 <end 3;>
p <7:/[ab]*a[^b]/;> f <bbbaaab> = 0 <7 5;7 6;end 7;>
p <7:/[ab]*a[^b]/;> f <abcd> = 0 <end 4;>
p <7:/(()|a)b/;7:/bb?/;> f <> = 0 <end 0;>
p <7:/(()|a)b/;7:/bb?/;> f <abab> = 0 <7 2;7 4;end 4;>
p <7:/(()|a)b/;7:/bb?/;> f <aabbab> = 0 <7 3;7 4;7 6;end 6;>
p <7:/(()|a)b/;7:/bb?/;> f <ba;ab> = 0 <7 1;7 5;end 5;>
p <7:/(()|a)b/;7:/bb?/;> f <;;a> = 0 <end 3;>
p <7:/(()|a)b/;7:/bb?/;> f <bbbaaab> = 0 <7 1;7 2;7 3;7 7;end 7;>
p <7:/(()|a)b/;7:/bb?/;> f <abcd> = 0 <7 2;end 4;>
p <2:/ab/;1:/b+/;2:/b/;> f <> = 0 <end 0;>
p <2:/ab/;1:/b+/;2:/b/;> f <abab> = 0 <1 2;2 2;1 4;2 4;end 4;>
p <2:/ab/;1:/b+/;2:/b/;> f <aabbab> = 0 <1 3;2 3;1 4;2 4;1 6;2 6;end 6;>
p <2:/ab/;1:/b+/;2:/b/;> f <ba;ab> = 0 <1 1;2 1;1 5;2 5;end 5;>
p <2:/ab/;1:/b+/;2:/b/;> f <;;a> = 0 <end 3;>
p <2:/ab/;1:/b+/;2:/b/;> f <bbbaaab> = 0 <1 1;2 1;1 2;2 2;1 3;2 3;1 7;2 7;end 7;>
p <2:/ab/;1:/b+/;2:/b/;> f <abcd> = 0 <1 2;2 2;end 4;>
p <9:/a.*b/;4:/(ab|a)(c|bcd)?/;9:/./;4:/ba/;> f <> = 0 <end 0;>
p <9:/a.*b/;4:/(ab|a)(c|bcd)?/;9:/./;4:/ba/;> f <abab> = 0 <4 1;9 1;4 2;9 2;4 3;9 3;4 4;9 4;end 4;>
p <9:/a.*b/;4:/(ab|a)(c|bcd)?/;9:/./;4:/ba/;> f <aabbab>
 = 0 <4 1;9 1;4 2;9 2;4 3;9 3;9 4;4 5;9 5;4 6;9 6;end 6;>
p <9:/a.*b/;4:/(ab|a)(c|bcd)?/;9:/./;4:/ba/;> f <ba;ab> = 0 <9 1;4 2;9 2;4 4;9 4;4 5;9 5;end 5;>
p <9:/a.*b/;4:/(ab|a)(c|bcd)?/;9:/./;4:/ba/;> f <;;a> = 0 <4 3;9 3;end 3;>
p <9:/a.*b/;4:/(ab|a)(c|bcd)?/;9:/./;4:/ba/;> f <bbbaaab>
 = 0 <9 1;9 2;9 3;4 4;9 4;4 5;9 5;4 6;9 6;4 7;9 7;end 7;>
p <9:/a.*b/;4:/(ab|a)(c|bcd)?/;9:/./;4:/ba/;> f <abcd> = 0 <4 1;9 1;4 2;9 2;4 3;9 3;4 4;9 4;end 4;>
";

/// Pattern files that are refused, and the lines that say so.
pub const REFUSED: &[u8] = br"
run <hs_tool match p f> f <aa>
# No form of an expression.
p <1:/*a/> = 2 <> <refused 1 1 1 Syntax 0;>
p <1:/a**/> = 2 <> <refused 1 1 1 Syntax 2;>
p <1:/a+*/> = 2 <> <refused 1 1 1 Syntax 2;>
p <1:/|*/> = 2 <> <refused 1 1 1 Syntax 1;>
p <1:/(+a)/> = 2 <> <refused 1 1 1 Syntax 1;>
p <1:/ab)/> = 2 <> <refused 1 1 1 Syntax 2;>
p <1:/(a/> = 2 <> <refused 1 1 1 Syntax 2;>
p <1:/(a(b)/> = 2 <> <refused 1 1 1 Syntax 5;>
p <1:/x[a/> = 2 <> <refused 1 1 1 Syntax 1;>
p <1:/[]/> = 2 <> <refused 1 1 1 Syntax 0;>
p <1:/[z-a]/> = 2 <> <refused 1 1 1 Syntax 1;>
p <1:/[z-a/> = 2 <> <refused 1 1 1 Syntax 1;>
p <1:/[a--]/> = 2 <> <refused 1 1 1 Syntax 1;>
p <1:/[a-c--+]/> = 2 <> <refused 1 1 1 Syntax 4;>
p <1:/a\/> = 2 <> <refused 1 1 1 Syntax 1;>
p <1:/[:alpha:]/> = 2 <> <refused 1 1 1 Syntax 0;>
p <1:/ab\c/> = 2 <> <refused 1 1 1 Syntax 2;>
p <1:/a{3,2}/> = 2 <> <refused 1 1 1 Syntax 1;>
p <1:/{2}/> = 2 <> <refused 1 1 1 Syntax 0;>
p <1:/[a[:b:]]/> = 2 <> <refused 1 1 1 Syntax 2;>
# Bytes that aren't UTF-8.
p <1:/a%FF/8> = 2 <> <refused 1 1 1 Syntax 1;>
p <1:/%C3/8> = 2 <> <refused 1 1 1 Syntax 0;>
# Escapes without a meaning, and forms that aren't read.
p <1:/a\y/> = 2 <> <refused 1 1 2 UnknownEscape 1;>
p <4:/(a)\1/> = 2 <> <refused 1 4 3 Unsupported backreference 3;>
p <1:/a++/> = 2 <> <refused 1 1 3 Unsupported possessive 1;>
p <1:/a(?=b)/> = 2 <> <refused 1 1 3 Unsupported lookaround 1;>
p <1:/a(*b)/> = 2 <> <refused 1 1 3 Unsupported verb 1;>
p <1:/[[.a.]]/> = 2 <> <refused 1 1 3 Unsupported collating 1;>
p <1:/[[=a=]]/> = 2 <> <refused 1 1 3 Unsupported collating 1;>
p <1:/[\pL]/> = 2 <> <refused 1 1 3 Unsupported property 1;>
# End assertions, and bounds of repeats.
p <10:/a$b/> = 2 <> <refused 1 10 7 EmbeddedEnd;>
p <1:/a{32768}/> = 2 <> <refused 1 1 8 RepeatLimit 32768;>
p <19:/(ab){257}/> = 2 <> <refused 1 19 9 PositionLimit 514;>
# Flags, parameters, and the lesser of two reasons.
p <25:/a/L> = 2 <> <refused 1 25 4 UnsupportedFlag 256;>
p <1:/a/HW> = 2 <> <refused 1 1 4 UnsupportedFlag 64;>
p <1:/a/{min_length=3}> = 2 <> <refused 1 1 5 UnsupportedParameter 4;>
p <1:/a/{edit_distance=1,max_offset=2}> = 2 <> <refused 1 1 5 UnsupportedParameter 8;>
p <1:/a/L{max_offset=2}> = 2 <> <refused 1 1 4 UnsupportedFlag 256;>
p <1:/F[/L> = 2 <> <refused 1 1 1 Syntax 1;>
p <1:/a*/L> = 2 <> <refused 1 1 4 UnsupportedFlag 256;>
# Expressions that match the empty text.
p <9:/a*/> = 2 <> <refused 1 9 6 MatchesEmpty;>
p <9://> = 2 <> <refused 1 9 6 MatchesEmpty;>
p <9:/x|/> = 2 <> <refused 1 9 6 MatchesEmpty;>
p <9:/(a?)+/> = 2 <> <refused 1 9 6 MatchesEmpty;>
# A single identifier, and offsets out of order.
p <12:/ab/;12:/b/H;> = 2 <> <refused 2 12 14 MixedSingle 12;>
p <25:/a/{min_offset=2,max_offset=1}> = 2 <> <refused 1 25 15 OffsetOrder;>
# The first entry that is refused.
p <1:/a/;20:/b[/;3:/*/;> = 2 <> <refused 2 20 1 Syntax 1;>
p <#;;1:/a*/;2:/*/;> = 2 <> <refused 1 1 6 MatchesEmpty;>
# Lines of another form.
p <#x;x:/a/> = 2 <> <refused - - 16 ListLine 2;>
p <1:/> = 2 <> <refused - - 16 ListLine 1;>
p <9/a/> = 2 <> <refused - - 16 ListLine 1;>
p <:/a/> = 2 <> <refused - - 16 ListLine 1;>
p <-1:/a/> = 2 <> <refused - - 16 ListLine 1;>
p < 1:/a/> = 2 <> <refused - - 16 ListLine 1;>
p < #> = 2 <> <refused - - 16 ListLine 1;>
p <1:/a/x> = 2 <> <refused - - 16 ListLine 1;>
p <1:/a/{}> = 2 <> <refused - - 16 ListLine 1;>
p <4294967296:/a/> = 2 <> <refused - - 16 ListLine 1;>
p <00000000001:/a/> = 2 <> <refused - - 16 ListLine 1;>
p <1:/a/;;(> = 2 <> <refused - - 16 ListLine 3;>
p <1:/a*/;(> = 2 <> <refused - - 16 ListLine 2;>
# A file that is judged before it is read whole.
p <1:/a/;%(1100000)x> = 2 <> <refused - - 16 ListLine 2;>
";

/// Files that are a database file up to a place: beginnings of one, one with a byte more, and two with another byte.
pub const BROKEN_FILES: &[u8] = br"
run <hs_tool scan d f> f <xfoofoo>
d <> = 4 <> <fault database 0;>
d <H> = 4 <> <fault database 1;>
d <HS> = 4 <> <fault database 2;>
d <HSD> = 4 <> <fault database 3;>
d <HSDB> = 4 <> <fault database 4;>
d <HSDB%01> = 4 <> <fault database 5;>
d <HSDB%01%00> = 4 <> <fault database 6;>
d <HSDB%01%00%01> = 4 <> <fault database 7;>
d <HSDB%01%00%01%00> = 4 <> <fault database 8;>
d <HSDB%01%00%01%00%00> = 4 <> <fault database 9;>
d <HSDB%01%00%01%(3)%00> = 4 <> <fault database 10;>
d <HSDB%01%00%01%(3)%00%10> = 4 <> <fault database 11;>
d <HSDB%01%00%01%(3)%00%10%00> = 4 <> <fault database 12;>
d <HSDB%01%00%01%(3)%00%10%00%00> = 4 <> <fault database 13;>
d <HSDB%01%00%01%(3)%00%10%(3)%00> = 4 <> <fault database 14;>
d <HSDB%01%00%01%(3)%00%10%(4)%00> = 4 <> <fault database 15;>
d <HSDB%01%00%01%(3)%00%10%(5)%00> = 4 <> <fault database 16;>
d <HSDB%01%00%01%(3)%00%10%(6)%00> = 4 <> <fault database 17;>
d <HSDB%01%00%01%(3)%00%10%(7)%00> = 4 <> <fault database 18;>
d <HSDB%01%00%01%(3)%00%10%(8)%00> = 4 <> <fault database 19;>
d <HSDB%01%00%01%(3)%00%10%(9)%00> = 4 <> <fault database 20;>
d <HSDB%01%00%01%(3)%00%10%(10)%00> = 4 <> <fault database 21;>
d <HSDB%01%00%01%(3)%00%10%(11)%00> = 4 <> <fault database 22;>
d <HSDB%01%00%01%(3)%00%10%(12)%00> = 4 <> <fault database 23;>
d <HSDB%01%00%01%(3)%00%10%(13)%00> = 4 <> <fault database 24;>
d <HSDB%01%00%01%(3)%00%10%(14)%00> = 4 <> <fault database 25;>
d <HSDB%01%00%01%(3)%00%10%(14)%00%FF> = 4 <> <fault database 26;>
d <HSDB%01%00%01%(3)%00%10%(14)%00%FF%FF> = 4 <> <fault database 27;>
d <HSDB%01%00%01%(3)%00%10%(14)%00%(3)%FF> = 4 <> <fault database 28;>
d <HSDB%01%00%01%(3)%00%10%(14)%00%(4)%FF> = 4 <> <fault database 29;>
d <HSDB%01%00%01%(3)%00%10%(14)%00%(5)%FF> = 4 <> <fault database 30;>
d <HSDB%01%00%01%(3)%00%10%(14)%00%(6)%FF> = 4 <> <fault database 31;>
d <HSDB%01%00%01%(3)%00%10%(14)%00%(7)%FF> = 4 <> <fault database 32;>
d <HSDB%01%00%01%(3)%00%10%(14)%00%(8)%FF> = 4 <> <fault database 33;>
d <HSDB%01%00%01%(3)%00%10%(14)%00%(8)%FF%03> = 4 <> <fault database 34;>
d <HSDB%01%00%01%(3)%00%10%(14)%00%(8)%FF%03%00> = 4 <> <fault database 35;>
d <HSDB%01%00%01%(3)%00%10%(14)%00%(8)%FF%03%00f> = 4 <> <fault database 36;>
d <HSDB%01%00%01%(3)%00%10%(14)%00%(8)%FF%03%00fo> = 4 <> <fault database 37;>
d <HSDB%01%00%01%(3)%00%10%(14)%00%(8)%FF%03%00foo%00> = 4 <> <fault database 38;>
d <HSDB%01%00%01%(3)%00%10%(4)%00%08%(9)%00%(8)%FF%03%00foo> = 4 <> <fault database 15;>
d <HSDB%01%00%01%(3)%00%10%(6)%00%01%(7)%00%(8)%FF%03%00foo> = 4 <> <fault database 17;>
# A file that is judged before it is read whole.
d <HSDB%01%00%(1100000)%FF> = 4 <> <fault database 15;>
";
