//! Runs of the program. The answers were worked out by hand from the rules of the forms.
//!
//! `hs_rows` says how rows are written. A row has fields, a name and a value each, and behind `=` the status of its
//! last command, what it writes to `out`, with a `~` where a beginning of that may be written, what it writes to
//! `err`, and the file `d` that it leaves. A row without `=` gives the fields of the rows behind it that have them
//! not.
//!
//! - `run`: the commands, one a line; `p`, `f`, `d`: the files, which the store's first calls put; `-` is none
//! - `in`: the script; `pieces`: the lengths of its pieces, for each run that is made; `opens all`: it opens 4,096
//!   streams first, each by two letters, and is answered
//! - `room`: how many bytes `out` has room for
//! - `store`, `source`, `out`, `err`: the call on it that fails, counted from 1; `gone`: the read at which the store
//!   lacks its files; `fails each`: each call on the store, the source and `out` fails in turn, too

/// Commands over files.
pub const COMMANDS: &[u8] = br"
# Words that are no command.
run <hs_tool match p f> p <1:/a/> f <a>
run <> = 1 <> <fault usage;>
run <hs_tool> = 1 <> <fault usage;>
run <hs_tool --help> = 1 <> <fault usage;>
run <hs_tool match p> = 1 <> <fault usage;>
run <hs_tool match p f f> = 1 <> <fault usage;>
run <hs_tool scan d> = 1 <> <fault usage;>
run <hs_tool match -x f> = 1 <> <fault usage;>
run <match p f> = 1 <> <fault usage;>

# `match`: what is absent, refused or failed.
run <hs_tool match p f> p <1:/foo.*bar/> f <fooxyzbarbar>
p - = 7 <> <fault absent p;>
p - f - = 7 <> <fault absent p;>
f - = 7 <> <fault absent f;>
p <9:/a*/> f - = 2 <> <refused 1 9 6 MatchesEmpty;>
store 3 = 3 <> <fault store;>
store 4 = 3 <> <fault store;>
store 5 = 3 <> <fault store;>
store 6 = 3 <1 9;1 12;end 12;~> <fault store;>
store 7 = 0 <1 9;1 12;end 12;>
out 1 = 3 <> <fault write;>
out 1 err 1 = 3
p <9:/a*/> err 1 = 2
p <9:/a*/> out 1 = 2 <> <refused 1 9 6 MatchesEmpty;>
p - f - err 1 = 7
room 6 = 3 <1 9;1 12;end 12;~> <fault write;>
fails each = 0 <1 9;1 12;end 12;>
# A file that is absent in the midst of it.
gone 1 = 7 <> <fault absent p;>
gone 2 = 7 <> <fault absent p;>
gone 3 = 7 <> <fault absent f;>
gone 4 = 7 <1 9;1 12;end 12;~> <fault absent f;>
gone 5 = 0 <1 9;1 12;end 12;>

# `check`.
run <hs_tool check p>
p <> = 0 <accepted 0;>
p <1:/a/> = 0 <accepted 1;>
p <# two;1:/a/;;1:/b/;> = 0 <accepted 2;>
p <1:/a/;9:/b[/> = 2 <> <refused 2 9 1 Syntax 1;>
p <#;1:/a> = 2 <> <refused - - 16 ListLine 2;>
= 7 <> <fault absent p;>
p <1:/a/> store 2 = 3 <> <fault store;>
p <1:/a/> out 1 = 3 <> <fault write;>
p <1:/a/> fails each = 0 <accepted 1;>

# `compile`: what is put or not.
run <hs_tool compile p d> p <16:/foo/> d <old>
= 0 <compiled 1 38;> <> <HSDB%01%00%01%(3)%00%10%(14)%00%(8)%FF%03%00foo>
p <> = 0 <compiled 0 10;> <> <HSDB%01%(5)%00>
p <9:/b[/> = 2 <> <refused 1 9 1 Syntax 1;> <old>
p - = 7 <> <fault absent p;> <old>
store 5 = 3 <> <fault store;> <old>
out 1 = 3 <> <fault write;> <HSDB%01%00%01%(3)%00%10%(14)%00%(8)%FF%03%00foo>
fails each = 0 <compiled 1 38;>
# A database that was put, then told and scanned with.
run <hs_tool compile p d;hs_tool info d;hs_tool scan d f> p <3:/b/;1:/ab/;3:/c/;> f <abcab>
 = 0 <compiled 3 89;version 1;expressions 3;identifiers 2;region 76;state 118;1 2;3 2;3 3;1 5;3 5;end 5;>

# `info`.
run <hs_tool info d>
d <HSDB%01%00%01%(3)%00%10%(14)%00%(8)%FF%03%00foo> = 0 <version 1;expressions 1;identifiers 1;region 74;state 116;>
d <HSDB%01%00%01%(3)%00%10%(14)%00%(8)%FF%03%00foo> fails each
 = 0 <version 1;expressions 1;identifiers 1;region 74;state 116;>
d <HSDB%01%(5)%00> = 0 <version 1;expressions 0;identifiers 0;region 72;state 114;>
d <HSDB%01%00%01%(3)%00%10%(4)%00%01%(9)%00%(8)%FF%03%00foo> = 2 <> <refused 1 16 4 UnsupportedFlag 256;>
d <HSDX> = 4 <> <fault database 3;>
d <> = 4 <> <fault database 0;>
= 7 <> <fault absent d;>

run <hs_tool compile p d;hs_tool info d>
p <7:/x.{1000}y/s> = 0 <compiled 1 44;version 1;expressions 1;identifiers 1;region 201;state 243;>
p <15:/[0-9]+foo[a-z]*bar/> = 0 <compiled 1 53;version 1;expressions 1;identifiers 1;region 84;state 126;>

# `scan`.
run <hs_tool scan d f> f <xfoofoo>
d <HSDB%01%00%01%(3)%00%10%(14)%00%(8)%FF%03%00foo> = 0 <16 4;16 7;end 7;>
d <HSDB%01%(5)%00> = 0 <end 7;>
d <HSDB%01%00%01%(3)%00%10%(4)%00%01%(9)%00%(8)%FF%03%00foo> = 2 <> <refused 1 16 4 UnsupportedFlag 256;>
d <HSDX> = 4 <> <fault database 3;>
d <> = 4 <> <fault database 0;>
= 7 <> <fault absent d;>
f - d <HSDB%01%00%01%(3)%00%10%(14)%00%(8)%FF%03%00foo>
 = 7 <> <fault absent f;> <HSDB%01%00%01%(3)%00%10%(14)%00%(8)%FF%03%00foo>
d <HSDB%01%00%01%(3)%00%10%(14)%00%(8)%FF%03%00foo> fails each = 0 <16 4;16 7;end 7;>
# A file that is absent in the midst of it.
d <HSDB%01%00%01%(3)%00%10%(14)%00%(8)%FF%03%00foo> gone 2 = 7 <> <fault absent d;>
d <HSDB%01%00%01%(3)%00%10%(14)%00%(8)%FF%03%00foo> gone 3 = 7 <> <fault absent f;>
d <HSDB%01%00%01%(3)%00%10%(14)%00%(8)%FF%03%00foo> gone 4 = 7 <16 4;16 7;end 7;~> <fault absent f;>
d <HSDB%01%00%01%(3)%00%10%(14)%00%(8)%FF%03%00foo> gone 5 = 0 <16 4;16 7;end 7;>

# Matches across pieces of 64 KiB.
run <hs_tool match p f> p <1:/foo.*bar/;>
f <%(65530)xfoobar> = 0 <1 65536;end 65536;>
f <%(65531)xfoobar> = 0 <1 65537;end 65537;>
f <%(65533)xfooxbar> = 0 <1 65540;end 65540;>
f <%(65534)xfooxbarx> = 0 <1 65541;end 65542;>
f <%(131066)xfoobarbar> = 0 <1 131072;1 131075;end 131075;>
f <foobar%(131072)xbar;> = 0 <1 6;1 131081;end 131082;>
f <foo;%(131072)xbar> = 0 <end 131079;>
f <foobar%(131072)xbar;> fails each = 0 <1 6;1 131081;end 131082;>
f <foobar%(131072)xbar;> gone 4 = 7 <1 6;1 131081;end 131082;~> <fault absent f;>

# Limits.
run <hs_tool match p f> f <%(513)a>
p <7:/%(512)a/;> = 0 <7 512;7 513;end 513;>
p <7:/%(511)ab*/;> = 0 <7 511;7 512;7 513;end 513;>
p <7:/%(513)a/;> = 0 <7 513;end 513;>
p <7:/%(16000)a/;> = 0 <end 513;>
p <7:/%(16001)a/;> = 2 <> <refused 1 7 10 LengthLimit;>
p <7:/%(16001)*/;> = 2 <> <refused 1 7 10 LengthLimit;>
p <7:/%(129)(/;> = 2 <> <refused 1 7 11 DepthLimit;>
p <7:/%(129)(a/;> = 2 <> <refused 1 7 11 DepthLimit;>
p <7:/%(129)(?a/;> = 2 <> <refused 1 7 3 Unsupported option 128;>
p <7:/%(128)(a/;> = 2 <> <refused 1 7 1 Syntax 129;>
";

/// Scripts.
pub const SCRIPTS: &[u8] = br"
# `stream` with a database.
run <hs_tool stream d> d <HSDB%01%00%01%(3)%00%10%(14)%00%(8)%FF%03%00foo>
 in <open s;write s 2;fo;write t 3;foo;write s 1;o;close s;> pieces 10
= 0 <ok open s;ok write s 2;no write t unknown;s 16 3;ok write s 1;ok close s;>
in <> = 0
fails each = 0 <ok open s;ok write s 2;no write t unknown;s 16 3;ok write s 1;ok close s;>
in <open s;write s 10;foo!> fails each = 5 <ok open s;s 16 3;fault truncated 2;>
in <open s;write s 3;foox> fails each = 5 <ok open s;s 16 3;ok write s 3;fault script 2;>
in <opn s;> = 5 <fault script 1;>
in <open s;write s 10;foo!> = 5 <ok open s;s 16 3;fault truncated 2;>
source 1 = 3 <> <fault read;>
# The first piece has the first line, and some of the second.
source 2 = 3 <ok open s;> <fault read;>
out 1 = 3 <> <fault write;>
d - = 7 <> <fault absent d;>
d <HSDX> = 4 <> <fault database 3;>
# 4,096 streams are open at most.
d <HSDB%01%(5)%00> opens all in <open z;open AA;open __;close -_;open z;open -_;> pieces 1000
 = 0 <no open z full;no open AA exists;no open __ exists;ok close -_;ok open z;no open -_ full;>

# Scripts over lists: what is written is told when its bytes decide it.
run <hs_tool compile p d;hs_tool stream d> p <20:/foo/> pieces 1,2,3,7,1000
p <> = 0 <compiled 0 10;>
p <2:/a*/V;> in <open s;write s 0;;close s;> = 0 <compiled 1 37;ok open s;ok write s 0;s 2 0;ok close s;>
p <4:/a$/m;> in <open s;write s 1;a;write s 2;;b;close s>
 = 0 <compiled 1 37;ok open s;ok write s 1;s 4 1;ok write s 2;ok close s;>
p <5:/\bfoo\b/;> in <open s;write s 3;foo;close s;open s;write s 3;foo;write s 1;d;close s;>
 = 0 <compiled 1 42;ok open s;ok write s 3;s 5 3;ok close s;ok open s;ok write s 3;ok write s 1;ok close s;>
p <17:/a$/;> in <open s;write s 1;a;reset s;write s 1;a;close s;>
 = 0 <compiled 1 37;ok open s;ok write s 1;s 17 1;ok reset s;ok write s 1;s 17 1;ok close s;>
in <open s;write s 10;foo!> = 5 <compiled 1 38;ok open s;s 20 3;fault truncated 2;>
in <open s;open t;write s 2;fo;write t 1;f;write s 1;o;write t 2;oo;write u 3;foo;open s;reset u;close u;>
 = 0 <compiled 1 38;ok open s;ok open t;ok write s 2;ok write t 1;s 20 3;ok write s 1;t 20 3;ok write t 2;
 no write u unknown;no open s exists;no reset u unknown;no close u unknown;>
p <> in <opn s;> = 5 <compiled 0 10;fault script 1;>
p <> in <open s;write s 9223372036854775807 and a line that is longer than any command could be;>
 = 5 <compiled 0 10;ok open s;fault script 2;>
in <open s;write s 3;foox> = 5 <compiled 1 38;ok open s;s 20 3;ok write s 3;fault script 2;>
in <open s;write s 3;foo;write s 9223372036854775807;foo>
 = 5 <compiled 1 38;ok open s;s 20 3;ok write s 3;fault truncated 3;>
p <> in <open s;;close s> = 5 <compiled 0 10;ok open s;fault script 2;>
in <open s;write s 9223372036854775807;foo> = 5 <compiled 1 38;ok open s;s 20 3;fault truncated 2;>
in <write s 3;foo;open s;write s 3;;;;;write t 3;foox>
 = 5 <compiled 1 38;no write s unknown;ok open s;ok write s 3;no write t unknown;fault script 4;>
in <write s 4;foo> = 5 <compiled 1 38;fault truncated 1;>
p <> in <open s;write s 1> = 5 <compiled 0 10;ok open s;fault truncated 2;>
p <> in <open s;write s 0> = 0 <compiled 0 10;ok open s;ok write s 0;>
p <18:/a/H;>
 in <open s;open t;write s 2;aa;write t 1;b;write s 1;a;write t 2;aa;reset s;write t 1;a;write s 1;a;close t;
 close s;>
 = 0 <compiled 1 36;ok open s;ok open t;s 18 1;ok write s 2;ok write t 1;ok write s 1;t 18 2;ok write t 2;
 ok reset s;ok write t 1;s 18 1;ok write s 1;ok close t;ok close s;>
p <1:/foo.*bar/;2:/o$/;>
 in <open s;write s 1;f;open t;write s 1;o;write t 6;barfoo;write s 1;o;reset t;write s 1;b;write t 3;bar;
 write s 2;ar;close t;open t;close s;>
 = 0 <compiled 2 70;ok open s;ok write s 1;ok open t;ok write s 1;ok write t 6;ok write s 1;t 2 6;ok reset t;
 ok write s 1;ok write t 3;s 1 6;ok write s 2;ok close t;ok open t;ok close s;>
# A word in four writes.
p <15:/[0-9]+foo[a-z]*bar/> in <open s;write s 2;1f;write s 3;oox;write s 2;ba;write s 1;r;>
 = 0 <compiled 1 53;ok open s;ok write s 2;ok write s 3;ok write s 2;s 15 8;ok write s 1;>
# A stretch of 1,000 bytes in three writes, and one of 999.
run <hs_tool compile p d;hs_tool stream d> p <7:/x.{1000}y/s> pieces 7,1000
in <open s;write s 500;x%(499)a;write s 501;%(501)a;write s 1;y;close s;>
 = 0 <compiled 1 44;ok open s;ok write s 500;ok write s 501;s 7 1002;ok write s 1;ok close s;>
in <open s;write s 500;x%(499)a;save s f;expand t f;write t 501;%(501)a;save t f;expand u f;write u 1;y;close s;>
 = 0 <compiled 1 44;ok open s;ok write s 500;ok save s 243;ok expand t;ok write t 501;ok save t 243;ok expand u;
 u 7 1002;ok write u 1;ok close s;>
in <open s;write s 500;x%(499)a;write s 500;%(500)a;write s 1;y;close s;>
 = 0 <compiled 1 44;ok open s;ok write s 500;ok write s 500;ok write s 1;ok close s;>
run <hs_tool compile p d;hs_tool stream d> p <16:/foo/> pieces 1,2,3,7,1000
# Two streams that see nothing of each other.
in <open s;open t;write s 2;fo;write t 2;xf;write s 1;o;write t 2;oo;write s 2;fo;reset s;write s 4;ofoo;close s;
 close t;>
 = 0 <compiled 1 38;ok open s;ok open t;ok write s 2;ok write t 2;s 16 3;ok write s 1;t 16 4;ok write t 2;
 ok write s 2;ok reset s;s 16 4;ok write s 4;ok close s;ok close t;>
# Reports come as bytes decide them, and a single one once.
p <9:/a/;4:/b/H;6:/b\z/>
 in <open s;open t;write s 1;x;write s 2;ab;write t 1;b;write s 2;ab;close s;close t;>
 = 0 <compiled 3 90;ok open s;ok open t;ok write s 1;s 9 2;s 4 3;ok write s 2;t 4 1;ok write t 1;s 9 4;ok write s 2;
 s 6 5;ok close s;t 6 1;ok close t;>
# A write of no byte reports nothing, also where the empty text matches at the start.
p <2:/a*/V> in <open s;open t;write s 0;;reset s;write s 1;b;close s;close t;>
 = 0 <compiled 1 37;ok open s;ok open t;ok write s 0;s 2 0;ok reset s;s 2 0;s 2 1;ok write s 1;ok close s;t 2 0;
 ok close t;>
# A stream that was reset, and closed.
p <17:/a$/> in <open s;write s 1;a;reset s;write s 1;a;close s;close s;>
 = 0 <compiled 1 37;ok open s;ok write s 1;s 17 1;ok reset s;ok write s 1;s 17 1;ok close s;no close s unknown;>

# Streams that are saved and expanded.
run <hs_tool compile p d;hs_tool stream d> p <16:/foo/> pieces 1,2,3,7,1000
in <open s;write s 2;fo;save s f;expand t f;write t 1;o;write s 1;x;>
 = 0 <compiled 1 38;ok open s;ok write s 2;ok save s 116;ok expand t;t 16 3;ok write t 1;ok write s 1;>
in <open s;write s 1;f;write s 0;;write s 1;o;save s d;close s;>
 = 0 <compiled 1 38;ok open s;ok write s 1;ok write s 0;ok write s 1;ok save s 116;ok close s;> <>
 <HSST%02%00%B6Ds%CA%A5%BD%19cFw%AB%A9%1B%8Dd%D5%C1%8Ba%C3%89W%E4%E1r%EDV%DD%2E1SbJ%00%00%00%02%(69)%00fo%00%00>
in <save t f;expand t f;open s;expand s f;save s a.1_-;expand u a.1_-;save s .a;>
 = 5 <compiled 1 38;no save t unknown;no expand t absent;ok open s;no expand s exists;ok save s 116;ok expand u;
 fault script 7;>
in <expand t f;reset t;write t 1;o;close t;> f <HSST%02%00%B6Ds%CA%A5%BD%19cFw%AB%A9%1B%8Dd%D5%C1%8Ba%C3%89W%E4%E1r%ED
 V%DD%2E1SbJ%00%00%00%02%(69)%00fo%00%00>
 = 0 <compiled 1 38;ok expand t;ok reset t;ok write t 1;ok close t;>
in <expand t f;write t 1;o;save t d;expand u d;close u> f <HSST%02%00%B6Ds%CA%A5%BD%19cFw%AB%A9%1B%8Dd%D5%C1%8Ba%C3%89
 W%E4%E1r%EDV%DD%2E1SbJ%00%00%00%02%(69)%00fo%00%00>
 = 0 <compiled 1 38;ok expand t;t 16 3;ok write t 1;ok save t 116;ok expand u;ok close u;> <>
 <HSST%02%00%B6Ds%CA%A5%BD%19cFw%AB%A9%1B%8Dd%D5%C1%8Ba%C3%89W%E4%E1r%EDV%DD%2E1SbJ%00%00%00%03%(68)%00foo%01%00>
p <18:/a/H> in <open s;write s 2;aa;save s f;expand t f;write t 1;a;>
 = 0 <compiled 1 36;ok open s;s 18 1;ok write s 2;ok save s 118;ok expand t;ok write t 1;>
p <17:/a$/> in <open s;write s 1;a;save s f;expand t f;close t;close s;>
 = 0 <compiled 1 37;ok open s;ok write s 1;ok save s 117;ok expand t;t 17 1;ok close t;s 17 1;ok close s;>
p <15:/[0-9]+foo[a-z]*bar/>
 in <open s;write s 2;1f;save s f;expand t f;write t 3;oox;save t f;expand u f;write u 2;ba;save u f;expand v f;
 write v 1;r;>
 = 0 <compiled 1 53;ok open s;ok write s 2;ok save s 126;ok expand t;ok write t 3;ok save t 126;ok expand u;
 ok write u 2;ok save u 126;ok expand v;v 15 8;ok write v 1;>
in <open s;write s 2;fo;save s f;expand t f;write t 1;x;>
 = 0 <compiled 1 38;ok open s;ok write s 2;ok save s 116;ok expand t;ok write t 1;>
p <18:/a/H> in <open s;write s 1;x;save s f;expand t f;write t 1;a;>
 = 0 <compiled 1 36;ok open s;ok write s 1;ok save s 118;ok expand t;t 18 2;ok write t 1;>
p <15:/[0-9]+foo[a-z]*bar/> in <open s;write s 5;1foox;save s f;expand t f;write t 3;bar;>
 = 0 <compiled 1 53;ok open s;ok write s 5;ok save s 126;ok expand t;t 15 8;ok write t 3;>
# One byte, the number of a state, in place of ten positions.
p <18:/[0-9]{10}/> in <open s;write s 3;123;save s d;expand t d;write t 7;4567890;save t e;>
 = 0 <compiled 1 44;ok open s;ok write s 3;ok save s 117;ok expand t;t 18 10;ok write t 7;ok save t 117;> <>
 <HSST%02%00A%C5%F6v&%18%C82%23%88O%9E%E1%CF%83%AE3%88%16m8%A9l%20%EA%EA%BAXuP%E1OK%00%00%00%03%(68)%00123%00%00%03>
# The byte of a state, and the bit of an identifier that is reported once.
p <18:/a/H> in <open s;write s 1;a;save s d;close s;>
 = 0 <compiled 1 36;ok open s;s 18 1;ok write s 1;ok save s 118;ok close s;> <>
 <HSST%02%00O%B6%E0^%CB%11%17-j%F7%8E+h%0B%CD%1C%118%C2%E2%AF%05%DF4%BE%DA%BF%DB%A3cj5L%00%00%00%01%(70)%00a
 %01%01%00%01>
# The region of no byte.
in <open s;save s d;> = 0 <compiled 1 38;ok open s;ok save s 116;> <>
 <HSST%02%00%B6Ds%CA%A5%BD%19cFw%AB%A9%1B%8Dd%D5%C1%8Ba%C3%89W%E4%E1r%EDV%DD%2E1SbJ%(77)%00>
# A file is refused by its form, then by its version, its list, and its region.
run <hs_tool compile p d;hs_tool stream d> p <16:/foo/> in <expand t f;write t 1;o;> pieces 1,2,3,7,1000
f <HSST%02%00%B6Ds%CA%A5%BD%19cFw%AB%A9%1B%8Dd%D5%C1%8Ba%C3%89W%E4%E1r%EDV%DD%2E1SbJ%00%00%00%02%(69)%00fo%00%00%00>
 = 0 <compiled 1 38;no expand t form;no write t unknown;>
f <HSST%02%00%B6Ds%CA%A5%BD%19cFw%AB%A9%1B%8Dd%D5%C1%8Ba%C3%89W%E4%E1r%EDV%DD%2E1SbJ%00%00%00%02%(69)%00fo%00>
 = 0 <compiled 1 38;no expand t form;no write t unknown;>
f <> = 0 <compiled 1 38;no expand t form;no write t unknown;>
f <HSST%01%00%(32)%00%(4)%00> = 0 <compiled 1 38;no expand t version;no write t unknown;>
f <HSST%02%00%(32)%00%(4)%00> = 0 <compiled 1 38;no expand t database;no write t unknown;>
p <15:/[0-9]+foo[a-z]*bar/> f <HSST%02%00%B6Ds%CA%A5%BD%19cFw%AB%A9%1B%8Dd%D5%C1%8Ba%C3%89W%E4%E1r%EDV%DD%2E1SbJ%00%00
 %00%02%(69)%00fo%00%00> = 0 <compiled 1 53;no expand t database;no write t unknown;>
f <HSST%02%00%B6Ds%CA%A5%BD%19cFw%AB%A9%1B%8Dd%D5%C1%8Ba%C3%89W%E4%E1r%EDV%DD%2E1Sb%(4)%00>
 = 0 <compiled 1 38;no expand t form;no write t unknown;>
f <HSST%02%00%B6Ds%CA%A5%BD%19cFw%AB%A9%1B%8Dd%D5%C1%8Ba%C3%89W%E4%E1r%EDV%DD%2E1SbJ%00%00%00%02%(69)%00fo%02%00>
 = 0 <compiled 1 38;no expand t form;no write t unknown;>
p <18:/[0-9]{10}/> f <HSST%02%00A%C5%F6v&%18%C82%23%88O%9E%E1%CF%83%AE3%88%16m8%A9l%20%EA%EA%BAXuP
 %E1OK%00%00%00%03%(68)%00123%00%00%0B>
 = 0 <compiled 1 44;no expand t form;no write t unknown;>
# A region that no stream has whose bytes are known.
in <expand s f;write s 1;x;write s 0;;save s d;reset s;write s 3;foo;> f <HSST%02%00%B6Ds%CA%A5%BD%19cFw%AB%A9%1B%8Dd
 %D5%C1%8Ba%C3%89W%E4%E1r%EDV%DD%2E1SbJ%00%00%00%(7)%FF%7F%(66)%00>
 = 0 <compiled 1 38;ok expand s;no write s length;ok write s 0;ok save s 116;ok reset s;s 16 3;ok write s 3;> <>
 <HSST%02%00%B6Ds%CA%A5%BD%19cFw%AB%A9%1B%8Dd%D5%C1%8Ba%C3%89W%E4%E1r%EDV%DD%2E1SbJ%00%00%00%(7)%FF%7F%(66)%00>

# A store that fails at a save or an expansion.
run <hs_tool stream d> d <HSDB%01%00%01%(3)%00%10%(14)%00%(8)%FF%03%00foo>
 in <open s;write s 2;fo;save s f;expand t f;write t 1;o;close s;>
fails each = 0 <ok open s;ok write s 2;ok save s 116;ok expand t;t 16 3;ok write t 1;ok close s;>
store 4 = 3 <ok open s;ok write s 2;> <fault store;>
store 5 = 3 <ok open s;ok write s 2;ok save s 116;> <fault store;>
# More streams than may be open.
d <HSDB%01%(5)%00> opens all in <save AA f;expand z f;expand AB f;close -_;expand z f;> pieces 1000
 = 0 <ok save AA 114;no expand z full;no expand AB exists;ok close -_;ok expand z;>

# Scripts that are broken off.
run <hs_tool compile p d;hs_tool stream d> p <20:/foo/> in <open s;close s;>
in <open s;> source 1 = 3 <compiled 1 38;> <fault read;>
pieces 10 source 2 = 3 <compiled 1 38;ok open s;> <fault read;>
in <open s;write s 9;foofoofoo;> pieces 20 source 2 = 3 <compiled 1 38;ok open s;s 20 3;> <fault read;>
in <open s;write s 3;foo;> pieces 20 source 2 = 3 <compiled 1 38;ok open s;s 20 3;ok write s 3;> <fault read;>
out 2 = 3 <compiled 1 38;> <fault write;>
# The first answer is written before the second line is read.
pieces 7 out 3 = 3 <compiled 1 38;ok open s;> <fault write;>
in <opn s;> out 2 = 3 <compiled 1 38;> <fault write;>
room 27 = 3 <compiled 1 38;ok open s;ok > <fault write;>
pieces 7 source 2 out 2 = 3 <compiled 1 38;> <fault write;>
";
