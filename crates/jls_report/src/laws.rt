//! What the entries of a report say of each line. Each law is a function that does nothing and whose contract is the law.

ghost use Rattle.jls_report.specs.Ranges.{RangesAreLongest, DisputedAreListed, EachLineOnce, CountsAreAllLines, CountsAreOfEntries};
ghost use Rattle.jls_report.specs.Ranges.{FullCountIsSettled};

/// The ranges of missing lines in a report are the longest ones, and no others.
pub fn ranges_are_longest()
    ensures { RangesAreLongest }
{}

/// The disputed lines in a report are those of the picture, each with the number of its readings, and no others.
pub fn disputed_are_listed()
    ensures { DisputedAreListed }
{}

/// Each line is settled, in one range, or disputed, and that once.
pub fn each_line_once()
    ensures { EachLineOnce }
{}

/// The numbers of settled, missing and disputed lines add up to all lines of all components.
pub fn counts_are_all_lines()
    ensures { CountsAreAllLines }
{}

/// The number of settled lines is that of all lines of all components if and only if each line of the picture is settled.
pub fn full_count_is_settled()
    ensures { FullCountIsSettled }
{}

/// The number of missing lines in a report is the number of lines in its ranges. The number of disputed lines is the number of its entries
/// of disputed lines.
pub fn counts_are_of_entries()
    ensures { CountsAreOfEntries }
{}
