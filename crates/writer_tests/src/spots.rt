//! Where prints go.

use cdc_model::Layout;
use cdc_samples::layouts::has_room;
use cdc_writer::{Spot, place};
use std::process::Abort;

/// The least and the greatest rotation size, the greatest print, and the greatest file behind which one goes.
const LEAST: u64 = 256;

const GREATEST: u64 = 1 << 30;

const PRINT: u64 = 1 << 28;

const LAST_FILE: u64 = (1 << 63) - 1;

// Whether a print of so many bytes goes there.
fn goes(layout: &Layout, rotation: u64, print: u64, want: &Spot) -> bool {
    has_room(layout, rotation) && print <= PRINT && place(layout, rotation, print) == *want
}

/// An open file and its length, a rotation size, the bytes of a print, and whether it closes the file that it goes to.
const BEHIND: [(u64, u64, u64, u64, bool); 10] = [
    (1, 241, LEAST, 14, false),
    (1, 241, LEAST, 15, true),
    (1, 241, GREATEST, PRINT, false),
    (1, 0, LEAST, 0, false),
    (1, GREATEST - 1, GREATEST, 0, false),
    (1, GREATEST - 1, GREATEST, 1, true),
    (1, GREATEST - 1, GREATEST, PRINT, true),
    (1, GREATEST - 1, LEAST, 0, true),
    (LAST_FILE, 255, LEAST, 0, false),
    (LAST_FILE, 256, LEAST, 0, true),
];

#[test]
fn a_print_goes_behind_an_open_files_bytes(rt: HostRuntime) {
    for (file, length, rotation, print, closes) in BEHIND {
        let layout = Layout {
            file,
            length,
            closed: false,
        };
        let want = Spot {
            file,
            at: length,
            head: false,
            closes,
        };
        let good = goes(&layout, rotation, print, &want);
        assert!(rt;
            good,
            "{print} bytes behind {length} of file {file}, rotation {rotation}"
        );
    }
}

/// A last file, its length and whether it is closed, where file 0 is none yet; the file that a print begins, a rotation
/// size, the bytes of the print, and whether it closes the file.
const BEGUN: [(u64, u64, bool, u64, u64, u64, bool); 11] = [
    (0, 0, false, 1, LEAST, 0, false),
    (0, 0, false, 1, LEAST, 132, false),
    (0, 0, false, 1, LEAST, 133, true),
    (0, 0, false, 1, LEAST, PRINT, true),
    (0, 0, false, 1, GREATEST, PRINT, false),
    (0, 77, false, 1, LEAST, 0, false),
    (0, 0, true, 1, LEAST, 0, false),
    (1, 399, true, 2, LEAST, 0, false),
    (1, 399, true, 2, LEAST, 133, true),
    (1, u64::MAX, true, 2, GREATEST, 1, false),
    (LAST_FILE, 399, true, 1 << 63, GREATEST, PRINT, false),
];

#[test]
fn a_print_begins_a_file_where_none_is_open(rt: HostRuntime) {
    for (last, length, closed, file, rotation, print, closes) in BEGUN {
        let layout = Layout {
            file: last,
            length,
            closed,
        };
        let want = Spot {
            file,
            at: 123,
            head: true,
            closes,
        };
        let good = goes(&layout, rotation, print, &want);
        assert!(rt;
            good,
            "{print} bytes behind {length} of file {last}, rotation {rotation}"
        );
    }
}
