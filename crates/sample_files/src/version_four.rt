//! The sample with DWARF 4: one compile unit with a line table of version 4 (DWARF 4, sections 7.5
//! and 6.2.4).

ghost use Rattle.std.specs.Prelude.{◌≡◌, IfOk};
ghost use Rattle.sample_files.specs.Samples as samples;

use crate::layout::plain_layout;
use crate::notes::note;
use crate::samples::{ID_B, build_id, debug, shared_object, text};
use crate::shape::{Counts, Order};
use std::alloc::{AllocError, Global};

/// One abbreviation (section 7.5.3): code 1, DW_TAG_compile_unit without children; comp_dir by
/// string and stmt_list by sec_offset. Code 0 ends the table.
pub(crate) const FOUR_ABBREV: [u8; 10] = [
    0x01, 0x11, 0x00, 0x1b, 0x08, 0x10, 0x17, 0x00, 0x00, 0x00,
];

/// One unit (section 7.5.1.1): its length 19, version 4, its abbreviations at 0, address size 8;
/// then the entry of code 1: the folder /w/src, line table at 0.
pub(crate) const FOUR_INFO: [u8; 23] = [
    0x13, 0x00, 0x00, 0x00, 0x04, 0x00, 0x00, 0x00, 0x00, 0x00, 0x08, 0x01, 0x2f, 0x77, 0x2f, 0x73,
    0x72, 0x63, 0x00, 0x00, 0x00, 0x00, 0x00,
];

/// One line table (section 6.2.4): its length 50, version 4, header length 44, the line parameters
/// and twelve opcode lengths; one include directory, inc; two files: main.c in directory 0 and
/// util.h in directory 1, each with no time and no length.
pub(crate) const FOUR_LINE: [u8; 54] = [
    0x32, 0x00, 0x00, 0x00, 0x04, 0x00, 0x2c, 0x00, 0x00, 0x00, 0x01, 0x01, 0x01, 0xfb, 0x0e, 0x0d,
    0x00, 0x01, 0x01, 0x01, 0x01, 0x00, 0x00, 0x00, 0x01, 0x00, 0x00, 0x01, 0x69, 0x6e, 0x63, 0x00,
    0x00, 0x6d, 0x61, 0x69, 0x6e, 0x2e, 0x63, 0x00, 0x00, 0x00, 0x00, 0x75, 0x74, 0x69, 0x6c, 0x2e,
    0x68, 0x00, 0x01, 0x00, 0x00, 0x00,
];

/// The sample with DWARF 4: code, and debug information of one unit with two sources.
pub fn dwarf_four(alloc: Global) -> Result<Vec<u8>, AllocError>
    ensures { IfOk result (λ v. v.items ≡ samples.dwarf_four) }
{
    let id = note(alloc, Order::Little, &ID_B)?;
    let sections = [
        build_id(&id),
        text(),
        debug(".debug_abbrev", &FOUR_ABBREV),
        debug(".debug_info", &FOUR_INFO),
        debug(".debug_line", &FOUR_LINE),
    ];
    plain_layout(alloc, &shared_object(Counts::Plain), &sections)
}
