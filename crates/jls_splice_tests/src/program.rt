//! Runs over copies of one file, each damaged in its own way: what comes back is the picture of the file, or is reported not to.

use crate::damage::copies_of;
use crate::files::file_of;
use crate::memory::MemoryFiles;
use crate::pictures::text_of;
use crate::words::words_of;
use jls_io::Counted;
use jls_splice_run::run;
use std::alloc::{AllocError, Global};
use std::process::Abort;
use std::test::Fail;

/// What stands in a row after its name: the file; what is damaged in each copy; the words after the program's name, where `1..65` are the
/// numbers from 1 to 65; the status; the picture that OUT is to be, or `other` where it is to be none of them, or `nothing` where no output
/// is created; and lines that are printed, with ` | ` between them.
///
/// Where a copy differs from its mended file was counted in the files, and in the damage: a byte that is 0 by itself doesn't differ. In
/// *damage of one line in both* 12 lines stand before it. Their code fills 274 and 289 bytes of the files, by `interop/plain_coder.py`.
/// The last bits of the twelfth stand in the next byte, which isn't known. By the same coder the third line of `broad` ends at byte 263,
/// and the fourth of `broad_reset` begins at 278. In *two of them, and one is as well the other copy's* it codes the picture that has the
/// second flip alone with RESET 3: at byte 271 it has another one than `reset`, and nowhere else. In *by sample, one place in all* four
/// rows stand before it, whose code CharLS ends in 166 bytes.
///
/// How often a search of levels tries is counted by hand: at each place, each path that lives goes on by both ways. In *three intervals*
/// each wrong way ends with its interval, so there are 2 tries at each of 3 places. In the rows of `deep` nothing dies without a limit, so
/// that there are 2, 4, 8, 16 and 32 tries up to 62, which is above 40, and 64 more up to 126. Under the limits 5792 and 8191 one wrong way
/// lives on behind the 4th, the 5th, the 8th and the 9th of ten places, so that there are 2 tries at six of them, and 4 at four: 28. These
/// four, and that it is one under 255 to 724 and several under 11585, were counted with the coder of `interop/plain_coder.py`.
const ROWS: &str = "\
one place: eight: 100+8=0 / 400+8=0: OUT 1 2: 0 eight: splices 1
two places: eight: 100+8=0 300+8=0 / 200+8=0 500+8=0: OUT 1 2: 0 eight: splices 1
twelve bytes apart: eight: 200+8=0 / 220+8=0: OUT 1 2: 0 eight: splices 1
sectors that touch: eight: 200+64=0 / 264+64=0: OUT 1 2: 0 eight: splices 1
cut off after the damage: eight: 500+999=lost / 100+8=0: OUT 1 2: 0 eight: splices 1
lost and zeroed: eight: 200+5=lost / 400+8=0: OUT 1 2: 0 eight: splices 1
a header and data: eight: 0+24=0 / 300+8=0: OUT 1 2: 0 eight: splices 1
a header twice and data: eight: 2+4=0 300+8=0 / 12+3=0: OUT 1 2: 0 eight: splices 1
a third of each: eight: 25+220=0 / 245+220=0 / 465+219=0: OUT 1 2 3: 0 eight: splices 1
bytes that touch: eight: 300+1=0 / 301+1=0: OUT 1 2: 0 eight: splices 1
bytes that touch, in two places: eight: 200+1=0 401+1=0 / 201+1=0 400+1=0: OUT 1 2: 0 eight: splices 1
blocks that touch at any byte: eight: 141+30=85 / 171+30=170: OUT 1 2: 0 eight: splices 1
where these are cut: eight: 141+30=85 / 171+30=170: OUT 1 2: 0 eight: differ 171 30
blocks that touch, in two places: eight: 101+30=85 331+30=170 / 131+30=170 301+30=85: OUT 1 2: 0 eight: splices 1
lost where others are damaged: eight: 200+8=lost / 200+2=0 400+8=0 / 206+2=0 500+8=0: OUT 1 2 3: 0 eight: splices 1
in a COM segment: comment: 100+8=0 / 400+8=0: OUT 1 2: 0 comment: splices 1
three scans: scans: 60+8=85 330+8=85 / 200+8=85: OUT 1 2: 0 scans: splices 1
by sample, one place: pixels: 60+8=85 / 200+8=85: OUT 1 2: 0 pixels: splices 1
by sample, two places: pixels: 60+8=85 250+8=85 / 150+8=85: OUT 1 2: 0 pixels: splices 1
by sample, blocks that touch: pixels: 100+30=85 / 130+30=170: OUT 1 2: 0 pixels: splices 1
by sample, a header and data: pixels: 2+30=0 / 200+8=85: OUT 1 2: 0 pixels: splices 1
by sample, cut off after the damage: pixels: 200+999=lost / 60+8=85: OUT 1 2: 0 pixels: splices 1
by sample, a flipped bit of the interleaving: pixels: 33+1=0 / 200+8=85: OUT 1 2: 0 pixels: splices 1
by sample, the mended file: pixels: 60+8=85 / 200+8=85: --file NAME OUT 1 2: 0 pixels: splices 1
by sample, and a scan for each: scans: 60+8=85 / pixels 200+8=85: OUT 1 2: 0 scans: coding 1, copies 1 | coding 2, copies 2 | \
copy 1 differs 60 8 8 | copy 2 differs 200 8 8
by sample, beside two codings that lost the same row: scans: 50+8=85 / by_line 55+8=85 / pixels 250+8=85: OUT 1 2 3: 0 scans: \
coding 1, copies 1 | coding 2, copies 2 | coding 3, copies 3 | copy 1 differs 50 8 8 | copy 2 differs 55 8 8 | copy 3 differs 250 8 8
by sample, one place in all: pixels: 205+8=0 / 205+8=85: OUT 1 2: 1 other: missing 1 4-7 | missing 2 4-7 | missing 3 4-7
one interval: restarts: 45+3=0 / 70+3=0: OUT 1 2: 0 restarts: splices 1
two intervals: restarts: 50+4=0 / 140+4=0: OUT 1 2: 0 restarts: splices 1
three intervals, each way judged where it ends: restarts: 64+4=0 201+4=0 / 131+4=0: --progress OUT 1 2: 0 restarts: 6 tries, 1 files
one place in all: eight: 300+8=0 / 300+8=85: OUT 1 2: 1 other: missing 1 7-19
where it is: eight: 300+8=0 / 300+8=85: OUT 1 2: 1 other: before 300
one place in all, and others: eight: 100+8=0 300+8=0 / 200+8=0 300+8=85: OUT 1 2: 1 other: before 100 | missing 1 2-19
the same place in all: eight: 100+8=0 300+8=0 / 200+8=0 300+8=0: OUT 1 2: 1 other: before 100 | missing 1 2-19
where a path is trusted: restarts: 45+3=0 210+3=0 / 60+3=85 210+3=85: OUT 1 2: 1 other: before 210 | missing 1 10-11
where one is trusted over three scans: scans: 60+8=85 390+8=85 / 100+8=85 390+8=0: OUT 1 2: 1 other: before 390 | missing 3 7-7
a header, and a place in all: eight: 2+4=0 300+8=0 / 12+3=0 300+8=85: OUT 1 2: 1 other: missing 1 7-19
a flipped bit of the precision: eight: 6+1=12 / 300+8=0: OUT 1 2: 0 eight: splices 1
a flipped bit of the interleaving: eight: 23+1=2 / 300+8=0: OUT 1 2: 0 eight: splices 1
a flipped bit of the restart interval: restarts: 20+1=6 / 70+3=0: OUT 1 2: 0 restarts: splices 1
a zeroed header: eight: 0+25=0 / 300+8=0: OUT 1 2: 0 eight: splices 1
where all differ, and a flipped bit of the precision: eight: 6+1=12 100+8=0 300+8=0 / 200+8=0 300+8=85: OUT 1 2: 1 other: before 100
where all differ, and a flipped bit of the interleaving: eight: 23+1=2 100+8=0 300+8=0 / 200+8=0 300+8=85: OUT 1 2: 1 other: \
before 100
where all differ, and a flipped bit of the restart interval: restarts: 20+1=6 45+3=0 140+3=0 / 70+3=0 140+3=85: OUT 1 2: 1 other: \
before 140
where all differ, and a zeroed header: eight: 0+25=0 100+8=0 300+8=0 / 200+8=0 300+8=85: OUT 1 2: 1 other: before 100
two codings, and damage of one line in both: narrow: 280+8=0 / reset 298+8=0: OUT 1 2: 1 other: \
coding 1, copies 1 | coding 2, copies 2 | copy 1 differs 274 155 0 | copy 2 differs 289 156 0 | promise lines | missing 1 11-19
two codings, and damage of lines side by side: narrow: 300+8=0 / reset 300+8=0: OUT 1 2: 0 narrow: \
coding 1, copies 1 | coding 2, copies 2 | copy 1 differs 300 8 8 | copy 2 differs 300 8 8
two codings, and damage from the first line on: narrow: 60+8=0 / reset 40+8=0: OUT 1 2: 0 narrow: \
coding 1, copies 1 | coding 2, copies 2 | copy 1 differs 60 8 8 | copy 2 differs 41 2 2 | copy 2 differs 44 4 4
two codings, and one byte between their places: broad: 254+8=85 / broad_reset 286+8=85: OUT 1 2: 0 broad: \
coding 1, copies 1 | coding 2, copies 2 | copy 1 differs 254 8 8 | copy 2 differs 286 8 8
two codings, and two places in each: narrow: 64+5=0 233+3=lost / reset 159+6=lost 375+5=0: OUT 1 2: 0 narrow: \
coding 1, copies 1 | coding 2, copies 2
two codings, and no whole line between their places: broad: 200+8=85 / broad_reset 294+8=85: OUT 1 2: 0 broad: \
coding 1, copies 1 | coding 2, copies 2 | copy 1 differs 200 8 8 | copy 2 differs 294 8 8
two codings, and a flipped bit in rows side by side: narrow: 363+1=3 411+4=0 / reset 351+1=172: OUT 1 2: 0 narrow: \
coding 1, copies 1 | coding 2, copies 2 | copy 1 differs 363 1 1 | copy 1 differs 411 4 4 | copy 2 differs 351 1 1
two codings, and few bytes between such rows: narrow: 209+1=184 400+4=0 / reset 207+1=136: OUT 1 2: 0 narrow: \
coding 1, copies 1 | coding 2, copies 2 | copy 1 differs 209 1 1 | copy 1 differs 400 4 4 | copy 2 differs 207 1 1
two codings, and no other way to a line: narrow: 30+8=0 / reset 50+8=0: OUT 1 2: 1 other: missing 1 0-19
two codings, with intervals: fives: 445+8=0 / tens 355+8=0: OUT 1 2: 0 narrow: \
coding 1, copies 1 | coding 2, copies 2 | copy 1 differs 446 7 7 | copy 2 differs 355 8 8
a promise of two codings: fives: 445+8=0 / tens 355+8=0: OUT 1 2: 0 narrow: \
promise picture if copies of one coding are of one file of it, true outside of their differs, there as long as printed, \
with the marker segments of the mended file
two codings, on standard error: fives: 445+8=0 / tens 355+8=0: - 1 2: 0 narrow: \
jls-splice: coding 1, copies 1 | jls-splice: coding 2, copies 2 | jls-splice: copy 1 differs 446 7 7 | jls-splice: copy 2 differs 355 8 8
two codings, and a limit that fits: fives: 445+8=0 / tens 355+8=0: --max 31 OUT 1 2: 0 narrow: coding 2, copies 2
two codings, and a limit that is too low: fives: 445+8=0 / tens 355+8=0: --max 30 OUT 1 2: 1 other: \
copy 1 left out | copy 2 left out | promise lines
two codings, and an empty copy: fives: 445+8=0 / tens 355+8=0 / 0+999=lost: OUT 1 2 3: 0 narrow: \
coding 1, copies 1 | coding 2, copies 2 | copy 3 left out
two codings, and a copy of another size: fives: 445+8=0 / tens 355+8=0 / sixteen 80+8=0: OUT 1 2 3: 0 narrow: \
coding 1, copies 1 | coding 2, copies 2 | copy 3 left out
a copy of another size, and two codings: fives: sixteen 80+8=0 / 445+8=0 / tens 355+8=0: OUT 1 2 3: 1 other: \
copy 1 agrees with no other | copy 2 left out | copy 3 left out | promise lines
three codings: fives: 445+8=0 / tens 355+8=0 / reset 100+8=0: OUT 1 2 3: 0 narrow: coding 1, copies 1 | coding 2, copies 2 | \
coding 3, copies 3 | copy 1 differs 446 7 7 | copy 2 differs 355 8 8 | copy 3 differs 100 8 8
two codings, one of two copies: fives: 445+8=0 / tens 355+8=0 / 447+4=85: OUT 1 2 3: 0 narrow: coding 1, copies 1 3 | \
coding 2, copies 2 | copy 1 differs 446 7 7 | copy 3 differs 447 4 4 | copy 2 differs 355 8 8
two codings, two copies of each, and a flipped bit that a splice has too: reset: 231+1=24 309+8=0 / narrow 208+8=0 / 78+8=0 / \
narrow 283+8=0: OUT 1 2 3 4: 0 narrow: coding 1, copies 1 3 | coding 2, copies 2 4 | copy 1 differs 231 1 1 | copy 1 differs 309 8 8 | \
copy 3 differs 78 8 8 | copy 2 differs 208 8 8 | copy 4 differs 283 8 8
two codings, and a flipped bit behind which a copy is soon at odds with the other: narrow: 98+1=32 / reset 394+8=0: OUT 1 2: 0 narrow: \
coding 1, copies 1 | coding 2, copies 2 | copy 1 differs 98 1 1 | copy 2 differs 394 8 8
two codings, two copies of one damaged file, and more damage in one: narrow: 150+8=85 / reset 300+8=0 / 150+8=85 380+4=0: OUT 1 2 3: \
0 narrow: coding 1, copies 1 3 | coding 2, copies 2 | copy 1 differs 150 8 8 | copy 3 differs 150 8 8 | copy 3 differs 381 3 3 | \
copy 2 differs 300 8 8
two codings, and a copy with a flipped bit twice: narrow: 98+1=32 / reset 394+8=0 / 98+1=32: OUT 1 2 3: 0 narrow: coding 1, copies 1 3 | \
coding 2, copies 2 | copy 1 differs 98 1 1 | copy 3 differs 98 1 1 | copy 2 differs 394 8 8
a witness: fives: 445+8=0 / tens: --witness 2 OUT 1: 1 other: coding 1, copies 1 | copy 1 differs 446 7 7 | promise lines | missing 1 18-19
a witness that is damaged elsewhere: narrow: 300+8=0 / reset 200+8=0: --witness 2 OUT 1: 1 other: coding 1, copies 1 | \
copy 1 differs 300 8 8 | promise lines
a witness of two copies: narrow: 300+8=0 / 300+8=85 / reset: --witness 3 OUT 1 2: 1 other: coding 1, copies 1 2 | \
copy 1 differs 300 8 8 | copy 2 differs 300 8 8 | promise lines
two codings, and one of the copies as a witness: narrow: 98+1=32 / reset 394+8=0: --witness 2 OUT 1 2: 0 narrow: coding 1, copies 1 | \
coding 2, copies 2 | copy 1 differs 98 1 1 | copy 2 differs 394 8 8
a witness of the same coding: narrow: 300+8=0 / 300+8=85 / 100+8=0: --witness 3 OUT 1 2: 1 other: before 300 | promise lines
a witness of another picture: fives: 445+8=0 / other: --witness 2 OUT 1: 1 other: copy 1 agrees with no other | promise lines
a witness of another size: fives: 445+8=0 / sixteen: --witness 2 OUT 1: 1 other: copy 1 agrees with no other | promise lines
an undamaged copy, and another picture as a witness: eight: whole / other: --witness 2 OUT 1: 0 eight: splices 0
two copies that mend each other, and a witness: eight: 100+8=0 / 400+8=0 / other: --witness 3 OUT 1 2: 0 eight: splices 1
a witness without bytes: eight: 300+8=0 / 0+999=lost: --witness 2 OUT 1: 1 other: promise lines
no copy with a frame, and a witness: eight: 0+999=lost / whole: --witness 2 OUT 1: 3 nothing: jls-splice: 1: no picture, fault 19 at 0
a witness that is not there: eight: whole: --witness absent OUT 1: 4 nothing: jls-splice: absent: cannot be opened
a second witness that is not there: eight: whole / whole: --witness 2 --witness absent OUT 1: 4 nothing: \
jls-splice: absent: cannot be opened
a partial picture as a witness: eight: whole / text: --witness 2 OUT 1: 3 nothing: jls-splice: 2: is a partial picture
a list before a witness: eight: whole / whole: --witness absent --bad 1:words OUT 1: 3 nothing: \
jls-splice: words: is no list of bad places, by line 2
two codings, and another picture: fives: 445+8=0 / tens 355+8=0 / other 60+8=0: OUT 1 2 3: 1 narrow: coding 1, copies 1 | \
coding 2, copies 2 | copy 3 agrees with no other | copy 1 differs 446 7 7 | copy 2 differs 355 8 8 | promise lines
another picture, and two codings: fives: other 60+8=0 / 445+8=0 / tens 355+8=0: OUT 1 2 3: 1 narrow: coding 1, copies 2 | \
coding 2, copies 3 | copy 1 agrees with no other | copy 2 differs 446 7 7 | copy 3 differs 355 8 8 | promise lines
two codings, and two other pictures: fives: 445+8=0 / tens 355+8=0 / other 40+8=0 / eight 200+8=0: OUT 1 2 3 4: 1 narrow: \
copy 3 agrees with no other | copy 4 agrees with no other | promise lines
two pictures, in two codings: fives: 445+8=0 / eight 60+8=0: OUT 1 2: 1 other: \
copy 1 agrees with no other | copy 2 agrees with no other | promise lines
an undamaged copy of another coding: narrow: reset / 70+8=0: OUT 1 2: 0 narrow: splices 0
an undamaged copy of another coding, last: narrow: 70+8=0 / reset: OUT 1 2: 0 narrow: splices 0
the mended file of two codings: fives: 445+8=0 / tens 355+8=0: --file NAME OUT 1 2: 0 fives: coding 1, copies 1
a flipped bit in a copy that decodes whole: narrow: 373+1=233 / reset 300+8=0: OUT 1 2: 0 narrow: coding 1, copies 1 | \
coding 2, copies 2 | copy 1 differs 373 1 1 | copy 2 differs 300 8 8 | splices 0
one in the copy of the other coding: narrow: reset 327+1=123 / 200+8=0: OUT 1 2: 0 narrow: copy 1 differs 327 1 1 | \
copy 2 differs 200 8 8
two of them, and one is as well the other copy's: narrow: 220+1=28 255+1=134 / reset: OUT 1 2: 1 other: copy 1 differs 220 1 1 | \
copy 2 differs 271 1 1 | promise lines
one in its last line: narrow: 411+1=169 / reset 200+8=0: OUT 1 2: 0 narrow: coding 1, copies 1 | coding 2, copies 2 | \
copy 1 differs 411 1 1 | copy 2 differs 200 8 8
one behind early damage of the other copy: narrow: 373+1=233 / reset 100+8=0: OUT 1 2: 0 narrow: copy 1 differs 373 1 1 | \
copy 2 differs 100 8 8
one that is seen, and not told: narrow: 292+1=6 / reset 100+8=0: OUT 1 2: 1 other: promise lines
one in an interval that decodes whole: tens: 417+1=192 / fives 400+8=0: OUT 1 2: 0 narrow: copy 1 differs 417 1 1 | \
copy 2 differs 400 8 8
one beside an undamaged copy: narrow: 373+1=233 / reset: OUT 1 2: 0 narrow: coding 1, copies 1 | coding 2, copies 2 | \
copy 1 differs 373 1 1
one in each of two copies: narrow: 294+1=19 / reset 327+1=123: OUT 1 2: 1 other: promise lines
one that an interval of the other copy denies: tens: 50+1=227 / fives 100+8=0: OUT 1 2: 1 other: promise lines
no single file beside it: reset: narrow 373+1=233 / 300+8=0: --file NAME OUT 1 2: 0 narrow: no single file
no mended file beside another picture: fives: 445+8=0 / tens 355+8=0 / other 60+8=0: --file NAME OUT 1 2 3: 1 narrow: no single file
a height that no scan follows: fives: 8+1=3 21+2=0 445+8=85 / 445+8=0 / tens 355+8=0: OUT 1 2 3: 1 other: promise lines
three copies of two codings: narrow: 70+8=0 / reset 40+8=0 / narrow 200+8=0: OUT 1 2 3: 0 narrow: splices 1
one try: eight: 100+8=0 / 400+8=0: --tries 1 OUT 1 2: 1 other: before 100
lines of one try: eight: 100+8=0 / 400+8=0: --tries 1 OUT 1 2: 1 other: missing 1 2-19
within a limit, and a place in all: eight: 300+8=0 / 300+8=85: --max 255 OUT 1 2: 1 other: before 300, samples up to 255
a promise: eight: 100+8=0 / 400+8=0: OUT 1 2: 0 eight: \
promise picture if the true file has what one copy has at each differ, and what all have elsewhere
a promise within a limit: eight: 100+8=0 / 400+8=0: --max 255 OUT 1 2: 0 eight: \
promise picture if the true file has what one copy has at each differ, and what all have elsewhere and \
samples are up to 255
a promise whose premise fails: eight: 114+1=221 / 114+1=221: OUT 1 2: 0 other: \
promise picture if the true file has what one copy has at each differ, and what all have elsewhere
no promise: eight: 300+8=0 / 300+8=85: OUT 1 2: 1 other: promise lines
bad places of both copies: eight: 100+8=0 300+8=0 / 200+8=0: --bad 1:two --bad 2:map OUT 1 2: 0 eight: splices 0
a promise without bad places: eight: 100+8=0 300+8=0 / 200+8=0: --bad 1:two --bad 2:map OUT 1 2: 0 eight: \
promise picture if the true file has what one copy has at each differ, and what all have elsewhere (copies are without their bad places)
bad places of one copy: eight: 100+8=0 300+8=0 / 200+8=85: --bad 1:two OUT 1 2: 0 eight: differ 200 8
bad places in two lists of one copy: eight: 200+8=0 300+8=0 / 100+8=85: --bad 1:map --bad 1:place OUT 1 2: 0 eight: differ 100 8
the mended file of bad places: eight: 100+8=0 300+8=0 / 200+8=0: --file NAME --bad 1:two --bad 2:map OUT 1 2: 0 eight: splices 0
no bad place: eight: 100+8=0 / 400+8=0: --bad 1:none OUT 1 2: 0 eight: splices 1
a header that is bad in one copy: eight: 6+1=12 / 300+8=85: --bad 1:header OUT 1 2: 0 eight: differ 300 8
a place that is bad in all: eight: 300+8=0 / 300+8=85: --bad 1:place --bad 2:place OUT 1 2: 1 other: missing 1 7-19 | promise lines
a byte that is bad in all: eight: 300+1=0 / 300+1=85: --bad 1:byte --bad 2:byte OUT 1 2: 1 other: missing 1 7-19 | promise lines
bad behind a place in the copies: eight: 100+8=0 / 400+8=0: --bad 1:end OUT 1 2: 0 eight: splices 1
one copy, and nothing bad: eight: whole: --bad 1:none OUT 1: 0 eight: splices 0
one copy, up to a bad place: eight: 300+8=0: --bad 1:place OUT 1: 1 other: missing 1 7-19
one copy, and a bad place in an interval: restarts: 70+3=0: --bad 1:interval OUT 1: 1 other: missing 1 0-3
a header that is bad in all: eight: whole / whole: --bad 1:header --bad 2:header OUT 1 2: 3 nothing: \
jls-splice: 1: no picture, fault 19 at 6
one copy alone: eight: whole: OUT 1: 2 nothing: jls-splice: one COPY is enough only with --bad N:LIST or --witness FILE
bad places of no copy: eight: whole / whole: --bad 3:place OUT 1 2: 2 nothing: \
jls-splice: 3:place: --bad wants N:LIST, with the number of a COPY, and a LIST that is no output and not -
bad places of copy 0: eight: whole / whole: --bad 0:place OUT 1 2: 2 nothing: \
jls-splice: 0:place: --bad wants N:LIST, with the number of a COPY, and a LIST that is no output and not -
bad places without a number: eight: whole / whole: --bad 1:none --bad place OUT 1 2: 2 nothing: \
jls-splice: place: --bad wants N:LIST, with the number of a COPY, and a LIST that is no output and not -
OUT as a list: eight: whole / whole: --bad 1:OUT OUT 1 2: 2 nothing: \
jls-splice: 1:OUT: --bad wants N:LIST, with the number of a COPY, and a LIST that is no output and not -
the mended file as a list: eight: whole / whole: --file NAME --bad 1:NAME OUT 1 2: 2 nothing: \
jls-splice: 1:NAME: --bad wants N:LIST, with the number of a COPY, and a LIST that is no output and not -
a numbered file as a list: eight: whole / whole: --files ALL --bad 1:ALL-3 OUT 1 2: 2 nothing: \
jls-splice: 1:ALL-3: --bad wants N:LIST, with the number of a COPY, and a LIST that is no output and not -
standard input as a list: eight: whole / whole: --bad 1:- OUT 1 2: 2 nothing: \
jls-splice: 1:-: --bad wants N:LIST, with the number of a COPY, and a LIST that is no output and not -
no list of bad places: eight: whole / whole: --bad 1:none --bad 2:words OUT 1 2: 3 nothing: \
jls-splice: words: is no list of bad places, by line 2
a copy as a list: eight: whole / whole: --bad 1:2 OUT 1 2: 3 nothing: jls-splice: 2: is no list of bad places, by line 1
a partial picture as a list: eight: whole / whole / text: --bad 1:3 OUT 1 2: 3 nothing: jls-splice: 3: is a partial picture
a list that is not there: eight: whole / whole: --bad 1:absent OUT 1 2: 4 nothing: jls-splice: absent: cannot be opened
no promise of disputed lines: eight: whole / other: OUT 1 2: 1 other: promise lines
limits in turn: deep: 50+3=85 98+3=85 146+3=85 194+3=85 242+3=85 / \
74+3=85 122+3=85 170+3=85 218+3=85 266+3=85: --tries 40 OUT 1 2: 0 deep: limit 8191
a promise within the limit that counts: deep: 50+3=85 98+3=85 146+3=85 194+3=85 242+3=85 / 74+3=85 122+3=85 170+3=85 218+3=85 266+3=85: \
--tries 40 OUT 1 2: 0 deep: promise picture if the true file has what one copy has at each differ, and what all have elsewhere \
and samples are up to 8191
limits up to the last: deep: 50+3=85 98+3=85 146+3=85 194+3=85 242+3=85 / \
74+3=85 122+3=85 170+3=85 218+3=85 266+3=85: --tries 300 OUT 1 2: 0 deep: limit 46340
each search tells its tries: deep: 50+3=85 98+3=85 146+3=85 194+3=85 242+3=85 / 74+3=85 122+3=85 170+3=85 218+3=85 266+3=85: \
--progress --tries 40 OUT 1 2: 0 deep: 28 tries, 1 files
at a level that comes to 64 tries more: deep: 50+3=85 98+3=85 146+3=85 194+3=85 242+3=85 / 74+3=85 122+3=85 170+3=85 218+3=85 266+3=85: \
--progress --tries 300 OUT 1 2: 0 deep: 126 tries, 0 files
no other limit than the one given: deep: 50+3=85 98+3=85 146+3=85 194+3=85 242+3=85 / \
74+3=85 122+3=85 170+3=85 218+3=85 266+3=85: --max 65535 --tries 40 OUT 1 2: 1 other: tries used up
a limit of the lines before: deep: 50+3=85 98+3=85 146+3=85 194+3=85 242+3=85 206+4=0 / \
74+3=85 122+3=85 170+3=85 218+3=85 266+3=85 206+4=51: --tries 40 OUT 1 2: 1 other: before 50, samples up to 8191
a limit of a shallow picture: deep: 50+3=85 150+4=0 / 74+3=85 150+4=51: OUT 1 2: 1 other: before 50, samples up to 16383
none of a deep picture: sixteen: 50+3=85 200+4=0 / 74+3=85 200+4=51: OUT 1 2: 1 other: before 50
none of eight bits: eight: 100+8=0 300+8=0 / 200+8=0 300+8=85: OUT 1 2: 1 other: before 100
no promise by groups: eight: 100+8=0 / 400+8=0: --max 254 OUT 1 2: 1 eight: promise lines
no promise beside an undamaged copy: eight: 100+8=0 / whole: --tries 1 OUT 1 2: 1 eight: promise lines
no promise on standard error: eight: 100+8=0 / 400+8=0: - 1 2 --max 254: 1 eight: jls-splice: promise lines
one copy twice: eight: whole / whole: OUT 1 2: 0 eight: splices 0
a flipped bit in each: eight: 114+1=221 / 400+1=237: OUT 1 2: 1 other: splices 1
two pictures: eight: whole / other: OUT 1 2: 1 other: splices 0
a height: flat: whole / 8+1=3: OUT 1 2: 3 nothing: jls-splice: 2: shape differs
no copy begins: eight: 0+999=lost / 0+999=lost: OUT 1 2: 3 nothing: jls-splice: 1: no picture, fault 19 at 0
one byte: eight: 1+999=lost / 0+999=lost: OUT 1 2: 3 nothing: jls-splice: 1: no picture, fault 19 at 1
two bytes: eight: 2+999=lost / 0+999=lost: OUT 1 2: 3 nothing: jls-splice: 1: no picture, fault 19 at 2
no frame but in the last: eight: 0+999=lost / 0+3=0 / 400+8=0: OUT 1 2 3: 0 eight: splices 1
65 copies, of which the last is whole: eight: 64*0 100+8=0 / whole: OUT 1..65: 0 eight: splices 0
65 copies, each damaged elsewhere: eight: 65*10 30+4=0: OUT 1..65: 0 eight: splices 1
standard output: eight: 100+8=0 / 400+8=0: - 1 2: 0 eight: jls-splice: splices 1
a promise on standard error: eight: 100+8=0 / 400+8=0: - 1 2: 0 eight: \
jls-splice: promise picture if the true file has what one copy has at each differ, and what all have elsewhere
OUT forgotten: eight: whole / 100+8=0 / 400+8=0: 1 2 3: 4 nothing: jls-splice: 1: cannot be created
a partial picture: eight: whole / text: OUT 1 2: 3 nothing: jls-splice: 2: is a partial picture
two shapes: eight: whole / restarts: OUT 1 2: 3 nothing: jls-splice: 2: shape differs
nothing in common, and one has a fault: eight: 300+8=0 / scans: OUT 1 2: 0 scans: splices 0
not there: eight: whole / whole: OUT 1 3: 4 nothing: jls-splice: 3: cannot be opened
the mended file: eight: 100+8=0 / 400+8=0: --file NAME OUT 1 2: 0 eight: splices 1
the mended file, of copies without EOI: eight: 100+8=0 684+2=lost / 400+8=0 684+2=lost: --file NAME OUT 1 2: 0 eight: eoi added
the mended file, of copies that end within EOI: eight: 100+8=0 685+1=lost / 400+8=0 685+1=lost: --file NAME OUT 1 2: 0 eight: eoi added
the mended file, of copies of which one has EOI: eight: 100+8=0 684+2=lost / 400+8=0: --file NAME OUT 1 2: 0 eight: splices 2
the mended file, of copies with and within EOI: eight: 100+8=0 685+1=lost / 400+8=0: --file NAME OUT 1 2: 0 eight: splices 2
a copy without EOI: eight: 684+2=lost / 684+2=lost: --file NAME OUT 1 2: 0 eight: eoi added
copies without EOI and no file asked for: eight: 100+8=0 684+2=lost / 400+8=0 684+2=lost: OUT 1 2: 0 eight: splices 1
the mended file at OUT: eight: 100+8=0 / 400+8=0: --file OUT OUT 1 2: 2 nothing: jls-splice: OUT: is named as OUT and by --file
the mended file without a promise: eight: 100+8=0 / 400+8=0: --file NAME --max 254 OUT 1 2: 1 eight: promise lines
no mended file: eight: 300+8=0 / 300+8=85: --file NAME OUT 1 2: 1 other: no single file
two mended files: eight: whole / other: --file NAME OUT 1 2: 1 other: no single file
each sixteenth: eight: 40+4=0 120+4=0 200+4=0 280+4=0 360+4=0 440+4=0 520+4=0 600+4=0 / 80+4=0 160+4=0 240+4=0 320+4=0 400+4=0 \
480+4=0 560+4=0 640+4=0: --tries 100 OUT 1 2: 0 eight: splices 1
few tries: eight: 100+8=0 / 400+8=0: --tries 2 OUT 1 2: 1 other: tries used up
within a limit: eight: 100+8=0 / 400+8=0: --max 255 OUT 1 2: 0 eight: splices 1
above a limit, and by groups: eight: 100+8=0 / 400+8=0: --max 254 OUT 1 2: 1 eight: by groups 1
its progress: eight: 100+8=0 / 400+8=0: --tries 2 --progress OUT 1 2: 1 other: 2 tries, 0 files
many files: sixteen: 40+1=165 112+1=165 184+1=165 256+1=165 328+1=165 400+1=165 472+1=165 / 76+1=165 148+1=165 220+1=165 292+1=165 \
364+1=165 436+1=165: OUT 1 2: 1 other: tries used up";

/// What a run is to do, and what is to come of it.
#[derive(Clone, Copy)]
struct Row<'a> {
    name: &'a str,
    file: &'a str,
    copies: &'a str,
    words: &'a str,
    status: &'a str,
    picture: &'a str,
    reported: &'a str,
}

fn row_of(text: &str) -> Option<Row<'_>> {
    let (name, rest) = text.split_once(": ")?;
    let (file, rest) = rest.split_once(": ")?;
    let (copies, rest) = rest.split_once(": ")?;
    let (words, rest) = rest.split_once(": ")?;
    let (end, reported) = rest.split_once(": ")?;
    let (status, picture) = end.split_once(' ')?;
    Some(Row {
        name,
        file,
        copies,
        words,
        status,
        picture,
        reported,
    })
}

/// How a run ended.
#[derive(Drop)]
pub(crate) struct Ending {
    pub status: u8,
    pub report: Vec<u8>,
    pub faults: Vec<u8>,
}

/// Runs the program with the words of a line after its name.
pub(crate) fn run_line(
    alloc: Global,
    line: &str,
    files: &mut MemoryFiles<'_>,
) -> Result<Ending, AllocError> {
    let words = words_of(alloc, line)?;
    let mut report = Vec::new(alloc);
    let mut faults = Vec::new(alloc);
    let status = run(
        alloc,
        &words,
        &mut Counted::closed(files),
        &mut Counted::new(&mut report),
        &mut Counted::new(&mut faults),
    );
    Ok(Ending {
        status,
        report,
        faults,
    })
}

/// Whether this line stands in a text.
pub(crate) fn has_line(text: &[u8], line: &str) -> bool {
    match std::str::from_utf8(text) {
        Ok(text) => text.lines().any(|found| found == line),
        Err(_) => false,
    }
}

/// Whether each line of a row is printed.
fn is_reported(row: Row<'_>, ending: &Ending) -> bool {
    for line in row.reported.split(" | ") {
        if !has_line(&ending.report, line) && !has_line(&ending.faults, line) {
            return false;
        }
    }
    true
}

/// Whether OUT is as the row says.
fn is_output(alloc: Global, row: Row<'_>, files: &MemoryFiles<'_>) -> Result<bool, AllocError> {
    if row.picture == "nothing" {
        return Ok(!files.has_output());
    }
    let name = if row.words.starts_with("- ") {
        "-"
    } else {
        "OUT"
    };
    let Some(output) = files.output(name) else {
        return Ok(false);
    };
    match text_of(alloc, row.picture)? {
        Some(text) => Ok(output == text.as_slice()),
        None => Ok(row.picture == "other"),
    }
}

/// Whether NAME is created where exactly one file has no fault, and is that file then.
fn is_mended(row: Row<'_>, file: &[u8], mended: Option<&[u8]>) -> bool {
    let is_wanted = row.picture == row.file && row.words.starts_with("--file");
    match mended {
        Some(mended) => is_wanted && mended == file,
        None => !is_wanted,
    }
}

fn check_row(rt: &impl Abort, alloc: Global, text: &str) -> Result<(), Fail> {
    let row = row_of(text).ok_or("no row")?;
    let file = file_of(alloc, row.file)?.ok_or("no file")?;
    let copies = copies_of(alloc, &file, row.copies)?;
    let mut files = MemoryFiles::new(alloc, &copies);
    let ending = run_line(alloc, row.words, &mut files)?;
    assert_eq!(rt; Ok(ending.status), row.status.parse::<u8>(), "{}", row.name);
    let is_right = is_output(alloc, row, &files)?;
    assert!(rt; is_right, "{}", row.name);
    assert!(rt; is_mended(row, &file, files.output("NAME")), "{}", row.name);
    assert!(rt; is_reported(row, &ending), "{}", row.name);
    Ok(())
}

#[test]
fn mends_files(rt: HostRuntime) -> Result<(), Fail> {
    for row in ROWS.lines() {
        check_row(&rt, rt.alloc(), row)?;
    }
    Ok(())
}
