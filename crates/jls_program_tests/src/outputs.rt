//! How outputs are made and ended, over a machine that notes what it is asked.

use crate::noting::{
    ABSENT, CLOSED, FOLDER_UNSYNCED, FULL, GOOD, LINK, Manners, Noting, OLDER, OLDER_BY_LINK,
    READ_ONLY, UNNAMED, UNSYNCED,
};
use jls_host::{Ending, Guard, Kind, Output, Recorded, Standing, Why};
use std::alloc::Global;
use std::io;
use std::process::Abort;
use std::test::Fail;

const PARTIAL_FILE: (Standing, Kind) = (Standing::Regular(0o644), Kind::Partial);

/// What stands at `OUT~` and stays: a text; a JPEG file; a file that can't be read; a folder; and a link to a partial picture.
const STAYING: [(Standing, Kind); 5] = [
    (Standing::Regular(0o644), Kind::Other),
    (Standing::Regular(0o644), Kind::Jpeg),
    (Standing::Regular(0o644), Kind::Unknown),
    (Standing::Other, Kind::NoFile),
    (Standing::Other, Kind::Partial),
];

/// A file beside OUT is made, under the third name.
const MADE: &str =
    "opens OUT\nlike OUT.jls-salvage-1\nlike OUT.jls-salvage-2\nlike OUT.jls-salvage-3\n";

/// The older OUT gets a second name.
const LINKED: &str =
    "link OUT.jls-salvage-1\nlink OUT.jls-salvage-2\nlink OUT.jls-salvage-3\nlink OUT.jls-salvage-4\n";

/// The older OUT is copied.
const COPIED: &str = "like OUT.jls-salvage-1\nlike OUT.jls-salvage-2\nlike OUT.jls-salvage-3\n\
like OUT.jls-salvage-4\ncopy OUT\nsync 640\n";

/// It gets the name for older files.
const SET_ASIDE: &str = "rename OUT.jls-salvage-4\nto OUT~\nfolder of OUT~\n";

/// The new file gets the name OUT.
const NAMED: &str = "rename OUT.jls-salvage-3\nto OUT\nfolder of OUT\n";

/// It is copied to OUT, which is a link.
const COPIED_OVER: &str =
    "create OUT\ncopy OUT.jls-salvage-3\nsync\nremove OUT.jls-salvage-3\nfolder of OUT\n";

const SYNCED: &str = "sync 640\n";

const COMPARED: &str = "compare OUT.jls-salvage-3\n";

const REMOVED: &str = "remove OUT.jls-salvage-3\n";

/// A link is tried, and files have none.
const NOT_LINKED: &str = "link OUT.jls-salvage-1\n";

/// What stands at OUT and what fails, why the output does not get its name, and what the machine is asked, in parts.
type Row = (Manners, Option<Why>, [&'static str; 7]);

/// Runs whose outputs are kept, where no older partial picture is.
const ROWS: [Row; 9] = [
    (GOOD, None, [MADE, SYNCED, NAMED, "", "", "", ""]),
    (
        ABSENT,
        None,
        [
            "new OUT.jls-salvage-1\nnew OUT.jls-salvage-2\nnew OUT.jls-salvage-3\n",
            "sync\n",
            NAMED,
            "",
            "",
            "",
            "",
        ],
    ),
    (
        UNSYNCED,
        Some(Why::Failed),
        [MADE, SYNCED, REMOVED, "", "", "", ""],
    ),
    (
        UNNAMED,
        Some(Why::Failed),
        [
            MADE,
            SYNCED,
            "rename OUT.jls-salvage-3\nto OUT\n",
            REMOVED,
            "",
            "",
            "",
        ],
    ),
    (LINK, None, ["create OUT\n", "", "", "", "", "", ""]),
    (
        READ_ONLY,
        Some(Why::Failed),
        ["opens OUT\n", "", "", "", "", "", ""],
    ),
    (
        FULL,
        Some(Why::Failed),
        [
            "opens OUT\nlike OUT.jls-salvage-1\n",
            "",
            "",
            "",
            "",
            "",
            "",
        ],
    ),
    (
        CLOSED,
        None,
        [
            "opens OUT\nlike OUT.jls-salvage-1\ncreate OUT\n",
            "",
            "",
            "",
            "",
            "",
            "",
        ],
    ),
    (FOLDER_UNSYNCED, None, [MADE, SYNCED, NAMED, "", "", "", ""]),
];

/// And where OUT is an older one.
const OLDER_ROWS: [Row; 9] = [
    (
        OLDER,
        None,
        [MADE, SYNCED, COMPARED, LINKED, SET_ASIDE, NAMED, ""],
    ),
    (
        Manners {
            is_equal: true,
            ..OLDER
        },
        None,
        [MADE, SYNCED, COMPARED, NAMED, "", "", ""],
    ),
    (
        Manners {
            is_input: true,
            ..OLDER
        },
        None,
        [MADE, SYNCED, NAMED, "", "", "", ""],
    ),
    (
        Manners {
            links: false,
            ..OLDER
        },
        None,
        [MADE, SYNCED, COMPARED, NOT_LINKED, COPIED, SET_ASIDE, NAMED],
    ),
    (
        Manners {
            links: false,
            fails: "copy OUT",
            ..OLDER
        },
        Some(Why::NotKept),
        [
            MADE,
            SYNCED,
            COMPARED,
            NOT_LINKED,
            "like OUT.jls-salvage-1\nlike OUT.jls-salvage-2\nlike OUT.jls-salvage-3\nlike OUT.jls-salvage-4\n",
            "copy OUT\nremove OUT.jls-salvage-4\n",
            REMOVED,
        ],
    ),
    (
        Manners {
            fails: "to OUT~",
            ..OLDER
        },
        Some(Why::NotKept),
        [
            MADE,
            SYNCED,
            COMPARED,
            LINKED,
            "rename OUT.jls-salvage-4\nto OUT~\n",
            "remove OUT.jls-salvage-4\n",
            REMOVED,
        ],
    ),
    (
        Manners {
            fails: "compare OUT.jls-salvage-3",
            ..OLDER
        },
        Some(Why::Unreadable),
        [MADE, SYNCED, COMPARED, REMOVED, "", "", ""],
    ),
    (
        Manners {
            kept: PARTIAL_FILE,
            ..OLDER
        },
        None,
        [MADE, SYNCED, COMPARED, LINKED, SET_ASIDE, NAMED, ""],
    ),
    (
        Manners {
            kept: PARTIAL_FILE,
            is_kept: true,
            ..OLDER
        },
        None,
        [MADE, SYNCED, COMPARED, NAMED, "", "", ""],
    ),
];

/// And where OUT is a link to one.
const OLDER_ROWS_BY_LINK: [Row; 4] = [
    (
        OLDER_BY_LINK,
        None,
        [MADE, SYNCED, COMPARED, COPIED, SET_ASIDE, COPIED_OVER, ""],
    ),
    (
        Manners {
            is_equal: true,
            ..OLDER_BY_LINK
        },
        None,
        [MADE, SYNCED, COMPARED, REMOVED, "folder of OUT\n", "", ""],
    ),
    (
        Manners {
            is_input: true,
            ..OLDER_BY_LINK
        },
        None,
        ["create OUT\n", "", "", "", "", "", ""],
    ),
    (
        Manners {
            kept: PARTIAL_FILE,
            is_kept: true,
            ..OLDER_BY_LINK
        },
        Some(Why::Taken),
        [MADE, SYNCED, COMPARED, REMOVED, "", "", ""],
    ),
];

/// All that a machine is asked for one output, and why that does not get its name.
fn asked(
    alloc: Global,
    manners: Manners,
    guard: Guard,
    ending: Ending,
) -> Result<(Option<Why>, String), Fail> {
    let mut machine = Recorded::new(Noting {
        calls: String::new(alloc),
        manners,
        made: 0,
    });
    let why = match Output::create(&mut machine, "OUT", guard) {
        Ok(mut output) => {
            let _ = output.write(&mut machine, b"text")?;
            match output.end(&mut machine, ending) {
                Ok(()) => None,
                Err(unmade) => Some(unmade.why),
            }
        }
        Err(why) => Some(why),
    };
    let Noting { calls, .. } = machine.into_inner();
    Ok((why, calls))
}

/// A run whose output is kept.
fn check_row(rt: &impl Abort, alloc: Global, row: &Row) -> Result<(), Fail> {
    let (manners, why, parts) = *row;
    let (found_why, found) = asked(alloc, manners, Guard::Jpeg, Ending::Keep)?;
    let mut calls = String::new(alloc);
    for part in parts {
        calls.push_str(part)?;
    }
    assert_eq!(rt; found.as_str(), calls.as_str());
    assert_eq!(rt; found_why, why);
    Ok(())
}

#[test]
fn outputs_are_whole_or_not_at_all(rt: HostRuntime) -> Result<(), Fail> {
    for row in ROWS.iter() {
        check_row(&rt, rt.alloc(), row)?;
    }
    Ok(())
}

#[test]
fn older_outputs_are_kept(rt: HostRuntime) -> Result<(), Fail> {
    for row in OLDER_ROWS.iter() {
        check_row(&rt, rt.alloc(), row)?;
    }
    Ok(())
}

#[test]
fn older_outputs_by_a_link_are_kept(rt: HostRuntime) -> Result<(), Fail> {
    for row in OLDER_ROWS_BY_LINK.iter() {
        check_row(&rt, rt.alloc(), row)?;
    }
    Ok(())
}

/// An output whose run failed is removed, and what stands at its name stays. A link that leads to no precious file is written straight.
#[test]
fn outputs_of_failed_runs_leave_the_older_file(rt: HostRuntime) -> Result<(), Fail> {
    for (manners, made, removed) in [
        (GOOD, MADE, REMOVED),
        (OLDER, MADE, REMOVED),
        (OLDER_BY_LINK, MADE, REMOVED),
        (LINK, "create OUT\n", ""),
    ] {
        let (why, calls) = asked(rt.alloc(), manners, Guard::Jpeg, Ending::Drop)?;
        assert_eq!(rt; calls.as_str().strip_prefix(made), Some(removed));
        assert_eq!(rt; why, None);
    }
    Ok(())
}

/// What the machine is not asked where a file stays: nothing is made at OUT, and nothing gets the name OUT or `OUT~`.
fn leaves_all(calls: &str) -> bool {
    !calls.contains("create OUT") && !calls.contains("to OUT")
}

#[test]
fn protected_files_are_not_touched(rt: HostRuntime) -> Result<(), Fail> {
    for manners in [GOOD, LINK] {
        for (guard, kind, why) in [
            (Guard::Jpeg, Kind::Jpeg, Why::Jpeg),
            (Guard::Jpeg, Kind::Unknown, Why::Unreadable),
            (Guard::Nothing, Kind::Unknown, Why::Unreadable),
        ] {
            let manners = Manners { kind, ..manners };
            let (found, calls) = asked(rt.alloc(), manners, guard, Ending::Keep)?;
            assert_eq!(rt; found, Some(why));
            assert!(rt; leaves_all(&calls) && !calls.as_str().contains("like"));
        }
    }
    Ok(())
}

/// An older partial picture stays where it can't be kept: what has the name for it stays, or the folder takes no file.
#[test]
fn older_files_that_are_not_kept_stay(rt: HostRuntime) -> Result<(), Fail> {
    for older in [OLDER, OLDER_BY_LINK] {
        for kept in STAYING {
            let manners = Manners { kept, ..older };
            let (why, calls) = asked(rt.alloc(), manners, Guard::Nothing, Ending::Keep)?;
            assert_eq!(rt; why, Some(Why::Taken));
            assert!(rt; leaves_all(&calls) && calls.as_str().ends_with(REMOVED));
        }
        for error in [
            io::ErrorKind::PermissionDenied,
            io::ErrorKind::ReadOnlyFilesystem,
            io::ErrorKind::InvalidFilename,
        ] {
            let fails = "like OUT.jls-salvage-1";
            let manners = Manners {
                fails,
                error,
                ..older
            };
            let (why, calls) = asked(rt.alloc(), manners, Guard::Nothing, Ending::Keep)?;
            assert_eq!(rt; why, Some(Why::NotKept));
            assert!(rt; leaves_all(&calls));
            let manners = Manners {
                is_input: true,
                ..manners
            };
            let (why, calls) = asked(rt.alloc(), manners, Guard::Nothing, Ending::Keep)?;
            assert_eq!(rt; why, None);
            assert!(rt; calls.as_str().ends_with("create OUT\n"));
        }
    }
    Ok(())
}
