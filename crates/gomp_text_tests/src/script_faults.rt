//! Texts whose first line that counts is no `region`: the program reads none of them as a script.

use crate::checks::same;
use gomp_region::{BadScript, ScriptError, ScriptWhy, parse_script};
use gomp_script::Why;
use std::alloc::Global;
use std::process::Abort;

/// Whole texts, with the line that is bad and its fault.
const TEXTS: &[(&str, u64, Why)] = &[
    ("", 1, Why::FirstLine),
    ("\n", 1, Why::FirstLine),
    ("#\n\n# region 4\n", 1, Why::FirstLine),
    ("team 4\n", 1, Why::FirstLine),
    ("barrier\nregion 4\n", 1, Why::FirstLine),
    ("\n\nregio 4", 3, Why::FirstLine),
    ("Region 4", 1, Why::FirstLine),
    ("region4", 1, Why::FirstLine),
    ("\tregion 4", 1, Why::FirstLine),
    ("r", 1, Why::FirstLine),
    ("re", 1, Why::FirstLine),
    ("reg", 1, Why::FirstLine),
    ("regi", 1, Why::FirstLine),
    ("regio", 1, Why::FirstLine),
    ("region 4 \u{e9}", 1, Why::NotAscii),
    ("#\u{e9}\nregion 4", 1, Why::NotAscii),
];

/// That a text has this fault on this line, or none.
fn has_fault(
    rt: &impl Abort,
    alloc: Global,
    text: &[u8],
    fault: Option<(u64, Why)>,
    name: &str,
    case: u64,
) {
    let expected = match fault {
        Some((line, why)) => {
            let why = ScriptWhy::Words(why);
            Some(ScriptError::Bad(BadScript { line, why }))
        }
        None => None,
    };
    same(rt, parse_script(alloc, text).err(), expected, name, case);
}

/// That a byte alone, and before `region 1`, has its fault.
fn has_faults_of_byte(rt: &impl Abort, alloc: Global, byte: u8) {
    let case = byte as u64;
    let why = if byte > 127 {
        Why::NotAscii
    } else {
        Why::FirstLine
    };
    let alone = Some((1, why));
    has_fault(rt, alloc, &[byte], alone, "the byte alone", case);
    let before = if matches!(byte, b' ' | b'\n') {
        None
    } else {
        alone
    };
    let text = [byte, b'r', b'e', b'g', b'i', b'o', b'n', b' ', b'1', b'\n'];
    has_fault(rt, alloc, &text, before, "the byte before a region", case);
}

/// A text without a region is refused, and whatever byte stands alone or before one.
#[test]
fn texts_without_a_region(rt: HostRuntime) {
    for (text, line, why) in TEXTS {
        let fault = Some((*line, *why));
        has_fault(&rt, rt.alloc(), text.as_bytes(), fault, *text, *line);
    }
    for byte in 0..=255 {
        has_faults_of_byte(&rt, rt.alloc(), byte);
    }
}
