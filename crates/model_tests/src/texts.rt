// Small programs as texts: `/` separates lines.

use hh_lang::Program;
use plain_vec::Listed;
use program_reader::read_program;
use std::alloc::Global;
use text_lines::MOST_BYTES;

// Appends lines; returns whether that succeeded.
fn add(lines: &mut Listed<u8>, text: &str) -> bool {
    for byte in text.bytes() {
        if lines.push(if byte == b'/' { b'\n' } else { byte }).is_err() {
            return false;
        }
    }
    true
}

fn add_all(lines: &mut Listed<u8>, parts: &[&str]) -> bool {
    for part in parts {
        if !add(lines, part) {
            return false;
        }
    }
    add(lines, "/")
}

/// The program of a text that has these parts.
pub(crate) fn program(alloc: Global, parts: &[&str]) -> Option<Program> {
    let mut lines = Listed::new(alloc);
    if !add_all(&mut lines, parts) || lines.len() > MOST_BYTES {
        return None;
    }
    match read_program(alloc, lines.as_slice()) {
        Ok(read) => read.ok(),
        Err(_) => None,
    }
}
