// Programs by their texts, from standard input and from a file: what is run, accepted and refused.

use crate::calls::{Row, answers_input, check_calls};

// Programs of a file.
const OF_A_FILE: &[Row] = &[
    ("p.hh", "fn main\nend", 0, "end: done\n"),
    (
        "p.hh",
        "# first\n\r\n fn\tmain # opens\nout i15 #x\nend\r\n\n",
        0,
        "0\nend: done\n",
    ),
    (
        "p.hh",
        "fn main\nset i10 -9223372036854775808\nout i10\nset i10 007\nout i10\nend",
        0,
        "-9223372036854775808\n7\nend: done\n",
    ),
    (
        "p.hh",
        "fn f\nout i1\nend\nfn main\nret\nout i0\nend",
        0,
        "end: done\n",
    ),
    ("p.hh", "", 3, "end: source refused line 1 nomain\n"),
    (
        "p.hh",
        "fn g\nnewm r0 i0 i0\nend\nfn main\nend",
        0,
        "end: done\n",
    ),
    (
        "p.hh",
        "fn main\nset i0 1\npack r0 0 1\nend",
        0,
        "end: done\n",
    ),
    ("p.hh", "fn g\npar g g\nend\nfn main\nend", 0, "end: done\n"),
    (
        "p.hh",
        "fn g\nadd i0 i1 i1\nend\nfn main\nset i1 21\ncall g\nout i0\nend",
        0,
        "42\nend: done\n",
    ),
    (
        "p.hh",
        "fn main\nmov i0 i1\nout r0\nend",
        3,
        "end: source refused line 3 operand\n",
    ),
];

#[test]
fn programs_of_a_file(rt: HostRuntime) {
    check_calls(&rt, "run", OF_A_FILE);
}

// Programs that are only checked.
const CHECKED: &[Row] = &[
    (
        "",
        "fn main\nset i0 7\nout i0\nret\nend",
        0,
        "end: accepted\n",
    ),
    (
        "",
        "fn left\nset i0 0\nset i1 1\nnewm r1 i0 i1\nputr r0 i0 r1\nret\nend\nfn right\nset i0 0\ngetr r1 r0 i0\nret\nend\nfn main\nset i0 1\nset i1 0\nnewm r0 i0 i1\npar left right\nret\nend\n",
        0,
        "end: accepted\n",
    ),
    (
        "",
        "fn main\nset i0 7\nout i0\nret\nend\nx",
        3,
        "end: source refused line 6 word\n",
    ),
    (
        "",
        "fn main\nend\nfn main\nend",
        3,
        "end: source refused line 3 twonames\n",
    ),
];

#[test]
fn texts_are_checked(rt: HostRuntime) {
    check_calls(&rt, "check", CHECKED);
}

const NO_TEXT: &[u8] = b"end: source refused line 1 notutf8\n";

#[test]
fn bytes_that_are_no_text(rt: HostRuntime) {
    for word in ["check", "run", "model"] {
        assert!(rt;
            answers_input(&rt, (word, ""), &[255], (3, NO_TEXT)),
            "{word}"
        );
    }
}
