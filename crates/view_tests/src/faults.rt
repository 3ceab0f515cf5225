// The faults of a text, by whole calls.

use crate::calls::{Call, check_calls};

const UNKNOWN: &str = "fn main\nad i0 i0 i0\nend\n";

const FAULTS: &[Call] = &[
    ("faults", "fn main\nend\n", 0, "", ""),
    ("faults --json", "fn main\nend\n", 0, "[]\n", ""),
    (
        "faults FILE",
        UNKNOWN,
        0,
        "line 2, column 1: \"ad\": expected an instruction, lab or end; did you mean \"add\"?\n",
        "",
    ),
    (
        "faults FILE --json",
        UNKNOWN,
        0,
        "[{\"line\":2,\"column\":1,\"word\":\"ad\",\"cause\":\"word\",\"expected\":\"an instruction, lab or end\",\"near\":\"add\"}]\n",
        "",
    ),
    ("faults --json -- -FILE", "fn main\nend", 0, "[]\n", ""),
    ("faults -- --json", "fn main\nend\n", 0, "", ""),
    ("faults FILE OTHER", UNKNOWN, 2, "", "end: words refused\n"),
    ("faults -FILE", UNKNOWN, 2, "", "end: words refused\n"),
    (
        "faults --json --json",
        UNKNOWN,
        2,
        "",
        "end: words refused\n",
    ),
    ("faults --workers 1", UNKNOWN, 2, "", "end: words refused\n"),
];

#[test]
fn faults_are_shown(rt: HostRuntime) {
    check_calls(&rt, FAULTS);
}
