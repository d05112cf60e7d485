//! Where a line stands in a picture, and the page that has it.

ghost use Rattle.jls_partial.specs.Pages.{page_of};
ghost use Rattle.std.specs.Prelude.{◌≡◌};

/// How many lines of a component share a page.
pub(crate) const PAGE_LINES: u16 = 64;

/// A component by its index in the frame, and one of its lines.
#[derive(Clone, Copy, Debug, PartialEq, Eq, PartialOrd, Ord)]
pub(crate) struct LinePlace {
    pub component: u8,
    pub line: u16,
}

/// A component by its index in the frame, and one of the pages of its lines. Page 0 has the lines from 0 on.
#[derive(Clone, Copy, Debug, PartialEq, Eq, PartialOrd, Ord)]
pub(crate) struct PageNumber {
    pub component: u8,
    pub number: u16,
}

impl LinePlace {
    /// The page in which the line has its row. Pages are in the order of their lines.
    pub(crate) fn page(self) -> PageNumber
        ensures { result ≡ page_of self }
    {
        PageNumber {
            component: self.component,
            number: self.line / PAGE_LINES,
        }
    }
}
