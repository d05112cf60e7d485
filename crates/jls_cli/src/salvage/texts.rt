//! The texts of help.

pub(crate) const ABOUT: &str = "Salvages JPEG-LS pictures from damaged copies, line by line.";

pub(crate) const EXAMPLES: &str = "\
Examples:
  jls-salvage check damaged.jls
      prints which pieces of a copy can't be decoded, and which lines it gives
  jls-salvage join all.jlsp damaged.jls other.jls
      writes all lines that the two copies give to the file all.jlsp
  jls-salvage write --as pnm all.pgm all.jlsp
      writes the picture, if no line is missing or disputed

The file name - means standard input or output. For more about a command: jls-salvage COMMAND --help.";

pub(crate) const CHECK_ABOUT: &str =
    "Checks a copy: prints which pieces of FILE can't be decoded, and which lines it gives";

pub(crate) const CHECK_NOTES: &str = "\
For a JPEG-LS copy it first prints
  a line for each piece of scan data that can't be decoded: piece SCAN INTERVAL OFFSET, and why
    broken  its bytes are no code of its lines
    long    more bytes follow the code of its lines
    beyond  its restart marker stands for no interval of the scan
  pieces more N, if there are more than 4,096 such pieces: N of them are not listed
  where the copy ends: end eoi OFFSET, end input OFFSET, or end fault NUMBER OFFSET
  read failed OFFSET, if a read failed there, or read stopped OFFSET, if the program reached the most
    reads that it makes; what was read before that is kept
Then it prints what jls-salvage show prints. For a partial picture it prints only that.

Exit status:
  0  done, and each line has exactly one reading
  1  done, but a line has no reading, or several
  2  the command line is wrong
  3  FILE is neither a copy with a picture nor a partial picture
  4  FILE can't be opened or read, or a write failed
  5  out of memory

Examples:
  jls-salvage check damaged.jls
  jls-salvage check - < damaged.jls";

pub(crate) const SHOW_ABOUT: &str =
    "Shows what FILE has: prints which lines a copy or a partial picture has";

pub(crate) const SHOW_NOTES: &str = "\
FILE is a JPEG-LS copy, damaged or not, or a partial picture that jls-salvage join wrote. A partial
picture holds every reading that a copy gave of each line. The command prints the size of the picture.
Then it prints how many lines have exactly one reading (settled), none (missing) or several (disputed).
Then come each range of missing lines, and each disputed line with the number of its readings. A
component is named by its identifier. Lines count from 0.

Exit status:
  0  done, and each line has exactly one reading
  1  done, but a line has no reading, or several
  2  the command line is wrong
  3  FILE is neither a copy with a picture nor a partial picture
  4  FILE can't be opened or read, or a write failed
  5  out of memory

Examples:
  jls-salvage show all.jlsp
  jls-salvage show - < damaged.jls";

pub(crate) const JOIN_ABOUT: &str =
    "Joins copies and partial pictures: writes all readings of the FILEs to OUT";

pub(crate) const JOIN_NOTES: &str = "\
A FILE is a JPEG-LS copy, damaged or not, or a partial picture that this command wrote. OUT is a
partial picture: it holds every reading that a copy gave of each line. Joining loses nothing and prefers
nothing: neither the order of the FILEs nor a repeated FILE changes OUT. All FILEs must have the same
width, height, precision and components.

With --source N each reading of a copy is kept with the number N. It tells later where the reading came
from, so give each copy, disk or tape its own number. A reading that several sources gave keeps all their
numbers. A FILE that is a partial picture keeps the numbers that it has. No number is made up.

Exit status:
  0  done, and each line has exactly one reading
  1  done, but a line has no reading, or several
  2  the command line is wrong
  3  a FILE is neither a copy with a picture nor a partial picture, or has another width, height,
     precision or components; OUT was not created
  4  a FILE can't be opened or read, OUT can't be created, or a write failed; if a read of a copy failed
     after its frame header, OUT has what was read before
  5  out of memory

Examples:
  jls-salvage join all.jlsp damaged.jls other.jls
  jls-salvage join --source 7 tape7.jlsp tape7.jls
  jls-salvage join - mine.jlsp - < theirs.jlsp > both.jlsp";

pub(crate) const WRITE_ABOUT: &str =
    "Writes a picture: writes FILE, a copy or a partial picture, to OUT as a picture file";

pub(crate) const WRITE_NOTES: &str = "\
Each line of FILE must have exactly one reading: the program neither guesses nor chooses. With --as pnm
a picture of one component becomes a PGM file, one of three a PPM file, and one of two or four a PAM
file. With --as jls it becomes lossless JPEG-LS with the default parameters of its precision. With --ri N
a damaged byte usually costs only the N lines between two restart markers.

Exit status:
  0  done
  1  a line has no reading, or several; OUT was not created
  2  the command line is wrong; or with --as jls, more than 2^28 samples would stand between two
     restart markers: give a smaller --ri
  3  FILE is neither a copy with a picture nor a partial picture; OUT was not created
  4  FILE can't be opened or read, OUT can't be created, or a write failed
  5  out of memory

Examples:
  jls-salvage write --as pnm all.pgm all.jlsp
  jls-salvage write --as pnm - all.jlsp > all.pgm
  jls-salvage write --as jls --ri 16 all.jls all.jlsp";

pub(crate) const JOIN_OUT_HELP: &str =
    "The file to write, created or replaced after all FILEs are read; - is standard output";

pub(crate) const SOURCE_HELP: &str =
    "The number to keep with each reading of a copy, 0 to 4294967295; without this option there is none";

pub(crate) const FILES_HELP: &str =
    "The copies and partial pictures to join, one or more; - is standard input";

pub(crate) const WRITE_OUT_HELP: &str =
    "The file to write, created or replaced only if the picture is whole; - is standard output";

pub(crate) const FILE_HELP: &str = "The copy or partial picture; - is standard input";

pub(crate) const AS_HELP: &str = "The format of OUT: jls (JPEG-LS) or pnm";

pub(crate) const ILV_HELP: &str =
    "For jls: none, a scan for each component, or line, one scan for all of them";

pub(crate) const RI_HELP: &str =
    "For jls: the number of lines between two restart markers, 0 to 65535; 0 means no markers";
