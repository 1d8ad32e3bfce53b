//! Texts with their trees, by the pattern syntax. A line has flags, and then texts, each with its tree behind it. In a
//! tree a byte that isn't printed is `%` and two hexadecimal digits. It is `#[cfg(test)]`.

/// Texts without classes: quantifiers, alternatives, groups, comments, options, quotes, assertions and escapes.
pub(crate) const TREES: &[u8] = b"\
0  a a  . _  ab (ab)  a.c (a_c)  a* a*  a+ a+  a? a?  .* _*  ab* (ab*)  a*b (a*b)  a*b+c? (a*b+c?)  a|b <ab>\n\
0  a|b|c <abc>  ab|c <(ab)c>  a|bc* <a(bc*)>  | <~~>  a| <a~>  |a <~a>  || <~~~>  () ~  (a) a  ((a)) a  (a)(b) (ab)\n\
0  a()b (a~b)  (ab)c ((ab)c)  (a|b) <ab>  (a|b)c (<ab>c)  a(b|c)d (a<bc>d)  a|(b|c) <a<bc>>  (a|b)* <ab>*\n\
0  (ab)+c ((ab)+c)  (a*)* a**  (a?)+ a?+  ()* ~*  (|a)b (<~a>b)  (a|) <a~>  } }  a] (a])  ]* ]*  a-z (a-z)\n\
0  a,#:=! (a,#:=!)  \\. .  \\*+ *+  \\(a\\) ((a))  \\\\\\[ (\\[)  \\^\\$\\{\\| (^${|)  \\\x80* %80*\n\
0  \xff\xc3\xa9? (%FF%C3%A9?)\n\
0  a{2} a{2,2}  a{2,} a{2,}  a{2,3} a{2,3}  a{0} a{0,0}  a{0,} a*  a{0,1} a?  a{1,} a+  a{1} a{1,1}  a{1,1} a{1,1}\n\
0  a{02} a{2,2}  a{00002,003} a{2,3}  a{32767} a{32767,32767}  a{0,32767} a{0,32767}  a{32767,} a{32767,}  a*? a*\n\
0  a+? a+  a?? a?  a{2}? a{2,2}  a{2,}? a{2,}  a{2,3}? a{2,3}  ab+? (ab+)  a*?b (a*b)  { {  a{ (a{)  a{} (a{})\n\
0  a{,} (a{,})  a{,3} (a{,3})  a{x} (a{x})  a{2 (a{2)  a{2, (a{2,)  a{2,3 (a{2,3)  a{2x} (a{2x})  a{2,x} (a{2,x})\n\
0  a{2,3x} (a{2,3x})  {* {*  a{+ (a{+)  a{,3}+ (a{,3}+)  a{-1} (a{-1})  a{2}{ (a{2,2}{)  a*{ (a*{)  a*{,2} (a*{,2})\n\
0  {2,3 ({2,3)  [ab]{2} [a-b]{2,2}  (ab){2} (ab){2,2}  (a{2}){3} a{2,2}{3,3}  .{3} _{3,3}  \\d{3} [0-9]{3,3}\n\
0  a{2}b (a{2,2}b)  ab{2} (ab{2,2})  a|b{2} <ab{2,2}>  }{2} }{2,2}  a} (a})  a]{2} (a]{2,2})\n\
0  (?:a) a  (?:ab)c ((ab)c)  (?:) ~  (?:a|b)* <ab>*  (?|a) a  (?|a|b)c (<ab>c)  (?P<n>a) a  (?<n>a) a  (?'n'a) a\n\
0  (?<_>a) a  (?<n9_Z>a) a  (?<nnnnnnnnnnnnnnnnnnnnnnnnnnnnnnnn>a) a  (?<n>a)(?<n>b) (ab)  (?P<n>a)* a*  (?#x) ~\n\
0  a(?#x)b (ab)  a(?#x)* a*  a(?#)*b (a*b)  a(?#(((**)+ a+  a(?#\\)b (ab)  (?#x)(?#y)a a  a*(?#x) a*\n\
0  (a(?#x)|b) <ab>  (?#[)a a  (?) ~  (?)a a  (?-)a a  (?:a(?)) a  (?i)a [Aa]  (?i)a(?-i)b ([Aa]b)  (?-i)a a\n\
0  a(?i)b (a[Bb])  (?i:a)b ([Aa]b)  (?i:a|b)c (<[Aa][Bb]>c)  ((?i)a)b ([Aa]b)  ((?i)a|b)c (<[Aa][Bb]>c)\n\
0  (a(?i)b|c)d (<(a[Bb])[Cc]>d)  a(?i)|b <a[Bb]>  (?i)a|b <[Aa][Bb]>  (?i)(a)(b) ([Aa][Bb])  (?i)(?-i:a)b (a[Bb])\n\
0  ((?i))a (~a)  (?ii)a [Aa]  (?i-i)a a  (?s). [%00-%FF]  (?s:.). ([%00-%FF]_)  (?-s). _  (?i-s:a.) ([Aa]_)\n\
0  (?is)a. ([Aa][%00-%FF])  (?im-sx)a [Aa]  (?-imsx)a a  (?i-:a) [Aa]  a(?i)b* (a[Bb]*)  (?i)a{2} [Aa]{2,2}\n\
0  a{2}(?i)b (a{2,2}[Bb])  (?m)^ !^  ((?m)^)^ (!^!A)\n\
1  a [Aa]  1 1  (?-i)a a  (?-i:a)b (a[Bb])  . _  \\x61 [Aa]  \\x41 [Aa]  \\o{141} [Aa]  \\. .  @ @  z [Zz]  { {\n\
1  \\e %1B  \xe9 %E9  \xc9 %C9\n\
2  . [%00-%FF]  (?-s). _\n\
4  . _\n\
7  a. ([Aa][%00-%FF])\n\
0  (?x)# ~  (?x)[#] #  (?x)a\\#b (a#b)  a#b (a#b)  (?x)\x85a (%85a)  (?x)\xa0 %A0  \\Qa.b\\E (a.b)  \\Qa a  \\Q ~\n\
0  \\Q\\E ~  a\\Q\\E* a*  a\\E* a*  \\E ~  \\Ea a  \\Q*\\E* **  \\Qab\\E* (ab*)  \\Q\\Q\\E (\\Q)  \\Q\\\\E \\\n\
0  \\Q\\a\\E (\\a)  \\Q(\\E (  (\\Q)\\E) )  \\Qa|b\\E|c <(a|b)c>  \\Q\\ \\  \\Qa\\E\\Qb\\E (ab)\n\
0  a\\Q\\E\\E(?#c)+ a+  \\Q[\\E] ([])  (?i)\\Qa\\E [Aa]  \\Q(?i)\\Ea ((?i)a)  \\Q#\\E #\n\
0  ^ !A  $ !Z  \\A !A  \\Z !Z  \\z !z  \\b !b  \\B !B  ^a$ (!Aa!Z)  (?m)^a$ (!^a!$)  (?m:^)^ (!^!A)  ^* !A*\n\
0  \\b+ !b+  $? !Z?  \\z{2,3} !z{2,3}  (^|a)b (<!Aa>b)  a\\bb (a!bb)  \\B{0} !B{0,0}  ^^ (!A!A)  \\A|\\Z <!A!Z>\n\
0  (?:\\b) !b  $$? (!Z!Z?)\n\
4  ^ !^  $ !$  \\A !A  \\Z !Z  \\z !z  \\b !b  \\B !B  ^a$ (!^a!$)  (?-m)^a$ (!Aa!Z)  \\^\\$ (^$)  [$^] [$^]\n\
1  ^ !A\n\
2  ^ !A\n\
7  ^ !^\n\
0  \\a %07  \\e %1B  \\f %0C  \\n %0A  \\r %0D  \\t %09  \\cA %01  \\ca %01  \\cZ %1A  \\cz %1A  \\c[ %1B  \\c? %7F\n\
0  \\c@ %00  \\c~ >  \\c{ ;  \\c\\ %1C  \\c; {  \\c1 q  \\x41 A  \\x4 %04  \\x %00  \\xfF %FF  \\x411 (A1)\n\
0  \\xg (%00g)  \\x{41} A  \\x{0} %00  \\x{000000ff} %FF  \\x{fF} %FF  \\x4{2} %04{2,2}  \\o{101} A  \\o{7} %07\n\
0  \\o{377} %FF  \\o{00000101} A  \\0 %00  \\01 %01  \\012 %0A  \\0123 (%0A3)  \\07 %07  \\08 (%008)  \\018 (%018)\n\
0  \\077 ?  \\0001 (%001)  \\d [0-9]  \\D [%00-/:-%FF]  \\w [0-9A-Z_a-z]  \\W [%00-/:-@[-^`{-%FF]  \\s [%09-%0D%20]\n\
0  \\S [%00-%08%0E-%1F!-%FF]  \\h [%09%20%A0]  \\H [%00-%08%0A-%1F!-%9F%A1-%FF]  \\v [%0A-%0D%85]\n\
0  \\V [%00-%09%0E-%84%86-%FF]  \\d+ [0-9]+  \\* *  \\( (  \\) )  \\[ [  \\] ]  \\{ {  \\} }  \\| |  \\^ ^  \\$ $\n\
0  \\\\ \\  \\/ /  \\# #  \\- -  \\_ _  \\\" \"  \\' '  \\, ,  \\< <  \\= =  \\@ @  \\~ ~  \\` `  \\\x80 %80\n\
0  \\\xff %FF  \\\x00 %00\n\
1  \\w [0-9A-Z_a-z]\n\
";

/// Characters and ranges in classes, then escapes, names and brackets in them, and both cases.
pub(crate) const CLASSES: &[u8] = b"\
0  [a] a  [ab] [a-b]  [ca] [ac]  [a-c] [a-c]  [a-a] a  [a-cx-z5] [5a-cx-z]  [a-cb-e] [a-e]  []] ]  []a] []a]\n\
0  []-a] []-a]  [a-] [-a]  [-a] [-a]  [-] -  [a-c-] [-a-c]  [a-c-e] [-a-ce]  [--a] [--a]  [a-c--f] [--f]\n\
0  [+--] [+--]  [^a] [%00-`b-%FF]  [^a-c] [%00-`d-%FF]  [^]] [%00-\\^-%FF]  [^^] [%00-]_-%FF]\n\
0  [^-a] [%00-,.-`b-%FF]  [a^] [^a]  [.] .  [*+?] [*-+?]  [(|)] [(-)|]  [{$}] [${}]  [[] [  [[a] [[a]  [a[] [[a]\n\
0  [[-a] [[-a]  [\\]] ]  [\\-a] [-a]  [a\\-z] [-az]  [\\[-\\]] [[-]]  [\xf0-\xff] [%F0-%FF]  [:alph] [:ahlp]\n\
0  [:^alpha:] [:^ahlp]  [:Alpha:] [:Aahlp]  [:a1:] [1:a]  [::] :  [ab]* [a-b]*  [a]] (a])  x([a-b]|c)+ (x<[a-b]c>+)\n\
0  [[:alpha:]] [A-Za-z]  [[:^alpha:]] [%00-@[-`{-%FF]  [[:lower:]] [a-z]  [[:^lower:]] [%00-`{-%FF]\n\
0  [[:upper:]] [A-Z]  [[:^upper:]] [%00-@[-%FF]  [[:digit:]] [0-9]  [[:^digit:]] [%00-/:-%FF]\n\
0  [[:alnum:]] [0-9A-Za-z]  [[:^alnum:]] [%00-/:-@[-`{-%FF]  [[:xdigit:]] [0-9A-Fa-f]\n\
0  [[:^xdigit:]] [%00-/:-@G-`g-%FF]  [[:word:]] [0-9A-Z_a-z]  [[:^word:]] [%00-/:-@[-^`{-%FF]\n\
0  [[:space:]] [%09-%0D%20]  [[:^space:]] [%00-%08%0E-%1F!-%FF]  [[:blank:]] [%09%20]\n\
0  [[:^blank:]] [%00-%08%0A-%1F!-%FF]  [[:cntrl:]] [%00-%1F%7F]  [[:^cntrl:]] [%20-~%80-%FF]  [[:ascii:]] [%00-%7F]\n\
0  [[:^ascii:]] [%80-%FF]  [[:graph:]] [!-~]  [[:^graph:]] [%00-%20%7F-%FF]  [[:print:]] [%20-~]\n\
0  [[:^print:]] [%00-%1F%7F-%FF]  [[:punct:]] [!-/:-@[-`{-~]  [[:^punct:]] [%00-%200-9A-Za-z%7F-%FF]\n\
0  [[:digit:]a] [0-9a]  [[:digit:][:lower:]] [0-9a-z]  [^[:digit:]] [%00-/:-%FF]  [[:^digit:]1] [%00-/1:-%FF]\n\
0  [\\d] [0-9]  [\\D] [%00-/:-%FF]  [\\w] [0-9A-Z_a-z]  [\\W] [%00-/:-@[-^`{-%FF]  [\\s] [%09-%0D%20]\n\
0  [\\S] [%00-%08%0E-%1F!-%FF]  [\\h] [%09%20%A0]  [\\H] [%00-%08%0A-%1F!-%9F%A1-%FF]  [\\v] [%0A-%0D%85]\n\
0  [\\V] [%00-%09%0E-%84%86-%FF]  [^\\d] [%00-/:-%FF]  [\\d\\s] [%09-%0D%200-9]  [\\Dx1] [%00-/1:-%FF]\n\
0  [a-\\d] [-0-9a]  [\\d-a] [-0-9a]  [\\d-] [-0-9]  [-\\d] [-0-9]  [a-[:digit:]] [-0-9a]  [[:digit:]-a] [-0-9a]\n\
0  [[:digit:]--/] [--9]  [\\w-z] [-0-9A-Z_a-z]  [\\a] %07  [\\b] %08  [\\e] %1B  [\\f] %0C  [\\n] %0A  [\\r] %0D\n\
0  [\\t] %09  [\\cA] %01  [\\x41] A  [\\x{41}] A  [\\o{101}] A  [\\0] %00  [\\012] %0A  [\\.] .  [\\\\] \\  [\\-] -\n\
0  [\\^] ^  [\\[] [  [\\x61-c] [a-c]  [a-\\x63] [a-c]  [\\x61-\\x63] [a-c]  [\\n-\\r] [%0A-%0D]\n\
0  [\\b-\\n] [%08-%0A]  [\\]-_] []-_]  [^.] [%00--/-%FF]  [^\\n] _  [\\s\\S] [%00-%FF]  [(] (  [)] )  [|] |  [*] *\n\
0  [{] {  [?] ?  [[:] [:[]  [[:a] [:[a]  [[:alpha] [:[ahlp]  [[:alpha:a] [:[ahlp]  [[:1:] [1:[]\n\
0  [[:Alpha:] [:A[ahlp]  [[::] [:[]  [[:^:] [:[^]  [[.] [.[]  [[.a] [.[a]  [[.a.b] [.[a-b]  [[.1.] [.1[]  [[=] [=[]\n\
0  [[=a=b] [=[a-b]  [[.a=] [.=[a]  [[..] [.[]  []\\]] ]  [^]-a] [%00-\\b-%FF]  [[:alpha:]]* [A-Za-z]*\n\
0  [a]{2} a{2,2}  [a]?b (a?b)\n\
1  [[:lower:]] [A-Za-z]  [[:upper:]] [A-Za-z]  [[:^lower:]] [%00-@[-`{-%FF]  [^[:upper:]] [%00-@[-`{-%FF]\n\
1  [[:alpha:]] [A-Za-z]  [a] [Aa]  [A] [Aa]  [a-c] [A-Ca-c]  [^a] [%00-@B-`b-%FF]  [^a-c] [%00-@D-`d-%FF]\n\
1  [Z-a] [AZ-az]  [\\x61] [Aa]  [^\\x41-\\x43] [%00-@D-`d-%FF]  [1-3] [1-3]  [\\d] [0-9]\n\
1  [^\\w] [%00-/:-@[-^`{-%FF]  [k] [Kk]  [@-[] [@-[a-z]  [\xe0-\xff] [%E0-%FF]\n\
2  [.] .\n\
";

/// Texts that have a space, with semicolons between the fields.
pub(crate) const SPACED: &[u8] = b"\
0;;\\\x00\\ ;(%00%20);;\\c ;`;;\\ ;%20;;a{ 2};(a{%202});;a{2 };(a{2%20});;(?imsx)a b;([Aa][Bb]);;(?x-x)a b;(a%20b)\n\
0;;(?x)a b;(ab);;(?x) a ;a;;(?x)a *;a*;;(?x)a # c;a;;(?x)[a b];[%20a-b];;(?x)a\\ b;(a%20b);;(?x: a )b c;(ab%20c)\n\
0;;(?x)a{2} {;(a{2,2}{);;(?x)a {2};a{2,2};;(?x)a { 2};(a{2});;(?x)\\Qa b\\E c;(a%20bc);;(?x)(?-x) a;(%20a)\n\
0;;((?x) a) b;(a%20b);;(?x) ( a | b ) c ;(<ab>c);;a b;(a%20b);;(?x)a\\x 41;(a%0041);;(?x)a+? b;(a+b)\n\
0;;(?x)\\Q #\\E #;(%20#)\n\
";

/// Texts that have a tab or a line feed, with semicolons between the fields and dollars behind the lines.
pub(crate) const BLANKS: &[u8] = b"\
0;\\\n;%0A;a\n;(a%0A);[\n\\\\];[%0A\\];(?x)a\tb\nc\x0bd\x0ce\rf;(abcdef);(?x)a # c\n*;a*$\
0;(?x)#\na;a;(?x)a#)\n;a;(?x)a|#|\nb;<ab>$\
";
