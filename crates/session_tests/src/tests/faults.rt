//! Texts that aren't certificates, with the line of the fault, by docs/reference/explain.md.
use std::alloc::Global;
use std::process::Abort;
use vt_explain::{CertError, read_cert};

const FAULTS: &[(&str, u32)] = &[
    ("", 1),
    ("%explain", 1),
    ("%explain 0", 1),
    ("%explain 00\n", 1),
    ("%explain 4294967296\n", 1),
    ("%explain  0\n", 1),
    ("%explain 1\n", 1),
    ("%explain 0\n9 0 1 2 free\n", 2),
    ("%explain 1\n9 0 1 2  free\n", 2),
    ("%explain 1\n9 0 1 64 free\n", 2),
    ("%explain 1\n9 0 1 2 released 1 asked 6 signal 0\n", 2),
    ("%explain 1\n9 0 1 2 free", 2),
    ("%explain 2\n9 0 1 2 free\n", 2),
    ("%explain 2\n9 0 1 2 free\n10 0 2 1 freed\n", 3),
];

fn has_fault(alloc: Global, text: &str, wanted: u32) -> bool {
    match read_cert(alloc, text.as_bytes()) {
        Err(CertError::Fault { line }) => line == wanted,
        _ => false,
    }
}

fn check(by: &impl Abort, is_right: bool, text: &str) {
    assert!(by; is_right, "{text}");
}

#[test]
fn a_text_has_its_first_fault(rt: HostRuntime) {
    for (text, line) in FAULTS {
        check(&rt, has_fault(rt.alloc(), text, *line), text);
    }
}
