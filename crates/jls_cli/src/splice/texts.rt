//! The texts of help.

pub(crate) const ABOUT: &str =
    "Mends JPEG-LS files: splices damaged copies of one file, and joins what can be decoded.";

pub(crate) const NOTES: &str = "\
The COPYs are two or more damaged copies of one JPEG-LS file, or one if --bad or --witness is given. At each
place where they differ, a splice of them has what one of them has there. The program takes the COPYs, and
each splice that decodes whole. It writes all their readings to OUT: a partial picture, as jls-salvage join
writes it. The program neither guesses nor chooses: if two readings of a line differ, it is disputed.

COPYs of one picture in different codings have hardly a byte in common: with other thresholds, restart
intervals or scans, or with 12 bits in 16. Then lines that one gives mend the others. Those of a witness do
too, but OUT has no reading that it alone gives.

It prints
  differ OFFSET LENGTH, for each place where the copies differ, as the first COPY has it
  differ more N, if there are more than 4,096 such places: N of them are not listed
  splices N, the number of files that are no copies and decode whole
  tries used up, if the search of all splices was cut off
  limit N, if --max was not given and the search was cut off: one for samples up to N was not, and counts
  by groups N, if it was cut off or found no file: N groups, each between two markers, were searched;
    with ', tries used up' after it if that search was cut off
  before OFFSET, if no file decodes whole: up to there in the first COPY one prefix alone fits, and OUT has
    its lines; with ', samples up to N' after it if files with samples above N were left aside
  files N, if --files was given: N files are written, at most 64
  no single file, if --file was given and writes nothing
  eoi added, if a file that --file or --files writes ended without the marker EOI, and got it
  coding N, copies NUMBERS, if there are several codings or a witness: the copies of each, counted from 1
  copy N left out, if its headers don't read, and copy N agrees with no other, if its lines are nobody's
  copy N differs OFFSET LENGTH NEW, for each place where its mended file has NEW bytes for LENGTH of it
  copy N differs more COUNT, if there are more than 4,096 such places: COUNT of them are not listed
  promise picture if the true file has what one copy has at each differ, and what all have elsewhere:
    if that is so, OUT is its picture; with ' and samples are up to N' after it, if that is so too
  promise picture if copies of one coding are of one file of it, true outside of their differs, there as
    long as printed, with the marker segments of the mended file: if that is so, OUT is that picture
  promise lines, if no picture is promised: lines are missing or disputed, or not all splices were tried
and then what jls-salvage show prints for OUT. If OUT is -, only the text of OUT is printed, and standard
error has the lines from splices to promise.

Exit status:
  0  done, and the picture is promised
  1  done, and it is not
  2  the command line is wrong
  3  no COPY and no splice has a picture, a COPY is a partial picture, or the pictures differ in width,
     height, precision or components; OUT was not created
  4  a COPY or LIST can't be opened or read, a FILE can't be opened, an output can't be created, or a write
     failed
  5  out of memory

Examples:
  jls-splice all.jlsp damaged.jls other.jls
  jls-splice --file mended.jls all.jlsp disk.jls tape.jls
  jls-splice - one.jls two.jls three.jls > all.jlsp";

pub(crate) const SOURCE_HELP: &str =
    "The number to keep with each reading, 0 to 4294967295; without this option there is none";

pub(crate) const TRIES_HELP: &str =
    "The most prefixes and files that the search tries, 1 to 4294967295";

pub(crate) const CEILING_HELP: &str =
    "Look only for files whose samples are N or less (0 to 65535)";

pub(crate) const PROGRESS_HELP: &str =
    "Prints on standard error how much was tried, after 64 tries or more";

pub(crate) const FILE_HELP: &str =
    "The file to write if exactly one file decodes whole, or the first mended file if that is promised";

pub(crate) const FILES_HELP: &str =
    "What the names PREFIX-1, PREFIX-2, .. begin with: each file that decodes or is mended, at most 64";

pub(crate) const BAD_HELP: &str =
    "Bytes of COPY N, from 1, that are bad: LIST has lines OFFSET LENGTH, or is a ddrescue map; can be given again";

pub(crate) const WITNESS_HELP: &str =
    "A JPEG-LS file whose lines help to mend the COPYs, and are not taken themselves; can be given again";

pub(crate) const OUT_HELP: &str =
    "The partial picture to write, created or replaced after the search; - is standard output";

pub(crate) const COPY_HELP: &str = "The first copy; - is standard input";

pub(crate) const OTHERS_HELP: &str =
    "The other copies, at least one if neither --bad nor --witness is given";
