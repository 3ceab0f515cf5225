// The races of a run by pairs of lines, by whole calls.

use crate::calls::{Call, check_calls};

// Two children write a field, on one line.
const ONE_LINE: &str =
    "fn side\nputi r0 i0 i1\nend\nfn main\nset i0 0\nset i1 1\nnewm r0 i0 i1\npar side side\nend\ntrace 2\n0 took 0\n0 ran 0 2\n0 chunk 0\n0 ran 0 2\n0 took 1\n0 ran 1 1\n0 ran 1 1\n0 took 2\n0 ran 2 1\n0 ran 2 1\n0 took 0\n0 ran 0 1\n";

// Two children write two fields, on one line.
const TWO_FIELDS: &str =
    "fn put\nputi r0 i2 i1\nend\nfn side\ncall put\nset i2 1\ncall put\nend\nfn main\nset i0 0\nset i1 2\nnewm r0 i0 i1\npar side side\nend\ntrace 2\n0 took 0\n0 ran 0 2\n0 chunk 0\n0 ran 0 2\n0 took 1\n0 ran 1 2\n0 ran 1 4\n0 ran 1 2\n0 took 2\n0 ran 2 2\n0 ran 2 4\n0 ran 2 2\n0 took 0\n0 ran 0 1\n";

// One child writes what another one reads, which is stopped.
const ENTANGLES: &str =
    "fn left\nset i0 0\nset i1 1\nnewm r1 i0 i1\n  putr   r0 i0 r1 # writes\nend\nfn right\nset i0 0\ngetr r1 r0 i0\nend\nfn main\nset i0 1\nset i1 0\nnewm r0 i0 i1\npar left right\nend\ntrace 2\n0 took 0\n0 ran 0 2\n0 chunk 0\n0 ran 0 2\n0 took 1\n0 ran 1 2\n0 chunk 1\n0 ran 1 2\n0 ran 1 1\n0 took 2\n0 ran 2 2\n";

// Two children compare and swap a field.
const CONTENDS: &str =
    "fn side\ncas i2 r0 i0 r1 r0\nend\nfn main\nset i0 0\nset i1 1\nnewm r0 i1 i0\npar side side\nend\ntrace 2\n0 took 0\n0 ran 0 2\n0 chunk 0\n0 ran 0 2\n0 took 1\n0 ran 1 1\n0 ran 1 1\n0 took 2\n0 ran 2 1\n0 ran 2 1\n0 took 0\n0 ran 0 1\n";

// Two children take a lock and give it back.
const LOCKS: &str =
    "fn side\ncas i2 r0 i0 r1 r0\nputr r0 i0 r1\nend\nfn main\nset i0 0\nset i1 1\nnewm r0 i1 i0\npar side side\nend\ntrace 2\n0 took 0\n0 ran 0 2\n0 chunk 0\n0 ran 0 2\n0 took 1\n0 ran 1 1\n0 ran 1 1\n0 ran 1 1\n0 took 2\n0 ran 2 1\n0 ran 2 1\n0 ran 2 1\n0 took 0\n0 ran 0 1\n";

const RACES: &[Call] = &[
    (
        "races",
        ONE_LINE,
        12,
        "line 2 twice: 1 field\n  2: puti r0 i0 i1\n  example: num 0 of object 0 0, task 1 on line 2, later task 2 on line 2\nend: races 1 on 1 pair of lines\n",
        "",
    ),
    (
        "races FILE --workers 2",
        TWO_FIELDS,
        12,
        "line 2 twice: 2 fields\n  2: puti r0 i2 i1\n  example: num 0 of object 0 0, task 1 on line 2, later task 2 on line 2\nend: races 2 on 1 pair of lines\n",
        "",
    ),
    (
        "races",
        ENTANGLES,
        12,
        "lines 5 and 9: 1 field\n  5: putr r0 i0 r1\n  9: getr r1 r0 i0\n  example: ref 0 of object 0 0, task 1 on line 5, later task 2 on line 9\nend: races 1 on 1 pair of lines\n",
        "",
    ),
    (
        "races",
        CONTENDS,
        0,
        "end: races 0 on 0 pairs of lines\n",
        "",
    ),
    (
        "races",
        LOCKS,
        12,
        "lines 3 and 2: 1 field\n  3: putr r0 i0 r1\n  2: cas i2 r0 i0 r1 r0\n  example: ref 0 of object 0 0, task 1 on line 3, later task 2 on line 2\n  cas races with other accesses; only two cas never race\nnote: only forks and joins put accesses in order, and cas doesn't. So accesses that a lock by cas guards\n      are races: which task gets the lock first differs from schedule to schedule.\nend: races 1 on 1 pair of lines\n",
        "",
    ),
    (
        "races",
        "fn main\nret\n",
        3,
        "",
        "end: source refused line 3 noend\n",
    ),
    ("races --json", ONE_LINE, 2, "", "end: words refused\n"),
];

#[test]
fn races_are_grouped(rt: HostRuntime) {
    check_calls(&rt, RACES);
}
