//! Files in the formats of later versions of VPR, by their first bytes.

use run_inputs::InputFile;

/// The advice on a file that looks like XML.
const XML: &str = "this looks like the XML of VTR 7 and later, and this reads VPR 4.30's format";

/// The advice on a placement that begins like those of VTR 8.
const PLACEMENT: &str =
    "this looks like a placement of VTR 8 and later, and this reads VPR 4.30's format";

/// The advice on a routing that begins like those of VTR 8.
const ROUTING: &str =
    "this looks like a routing of VTR 8 and later, and this reads VPR 4.30's format";

/// Returns the advice on a file that looks like one of a later version of VPR, if it does.
pub(crate) fn foreign_format(file: InputFile, bytes: &[u8]) -> Option<&'static str> {
    let text = bytes.trim_ascii_start();
    if text.starts_with(b"<") {
        return Some(XML);
    }
    match file {
        InputFile::Place if text.starts_with(b"Netlist_File:") => Some(PLACEMENT),
        InputFile::Route if text.starts_with(b"Placement_File:") => Some(ROUTING),
        _ => None,
    }
}
