//! Marker segments of JPEG-LS and the state of the headers. The crate says which segment a payload is, what each segment sets, and
//! which scan an SOS begins (ITU-T T.87, annex C; ITU-T T.81, annex B).
//!
//! - `codes`, `fault`: the codes of markers, and the nineteen faults with their numbers
//! - `profile`: which scans are read, strict or wide
//! - `segment`, `scan_head`: what a segment says, and what a scan header selects
//! - `read`, `write`: from a payload to a segment, and back
//! - `headers`: the state that segments set
//! - `component_index`: finds the components of a scan in the frame
//! - `scan_plan`: the scan that begins, with its restart intervals
//! - `laws`: the laws of segments and of headers
//!
//! - A layout is defined in three ways. One is the fields of a header. One is the bytes that they are (`HasFrameLayout` and its like), to
//!   be checked against T.81 and T.87. One is computed from bytes (`frame_header` and its like). A law says that the last two agree.
//! - Which fault comes first is a list of tests with a fault each (`frame_tests`, `scan_tests`, `begin_tests`).
//!
//! Definitions: `MarkerCodes`, `Faults`, `ScanSelection`, `Profiles`, `Layouts`, `Payloads`, `Segments`, `Written`, `HeaderState`, `Scan`,
//! `ComponentIndex`, `Headers`, `SegmentLaws`, `HeaderLaws`, `ProfileLaws`. A reader of the public contracts needs all of them.
#![tactic(auto)]

pub mod codes;
mod component_index;
mod fault;
mod headers;
mod laws;
mod profile;
mod read;
mod scan_head;
mod scan_plan;
mod segment;
mod write;

pub use codes::has_segment;
pub use fault::MarkerFault;
pub use headers::Headers;
pub use laws::{
    frame_stays, headers_stay_in_range, intervals_part_the_lines, layouts_are_read, never_ended,
    new_headers_are_in_range, others_count_none, payloads_are_read, payloads_are_read_under,
    profiles_stay, scans_are_in_range, scans_begin, scans_by_sample_have_several,
    scans_have_what_is_in_force, segments_set_their_own, strict_headers_have_none_by_sample,
    unknown_codes, unknown_codes_under, wide_headers_take_alike, wide_headers_take_more_by_sample,
    written_reads_back, written_reads_back_under,
};
pub use profile::Profile;
pub use read::{read_segment, read_segment_under};
pub use scan_head::ScanHead;
pub use scan_plan::ScanPlan;
pub use segment::Segment;
pub use write::write_segment;
