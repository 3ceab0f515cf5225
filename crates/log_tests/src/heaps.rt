// What is told of heaps. The expected counts were made out by hand from the definitions in docs/LOGS.md.

use crate::calls::answers;

// What `--heaps` tells of a text, and the exit status.
const ROWS: &[(&[u8], &str, u8)] = &[
    // nothing is born or stored
    (
        b"hhlog 1\ns 0 0\n.\nend\n",
        "work 0 span 0 parallelism 1.00\nheaps stores 0 down 0\nend: races 0 reads 0 uses 0 stale 0\n",
        0,
    ),
    // a child stores its block into the root's, and the root's into its own; once joined, the root stores it again
    (
        b"hhlog 1\ns 0 0\na 1 8\n+ 1\n- 1\np 1 1 2\n.\ns 1 0\na 2 4\np 1 0 2\np 2 0 1\np 1 2 0\n.\nend\n",
        "work 0 span 0 parallelism 1.00\nheaps depth 0 blocks 1 words 8 own 0\nheaps depth 1 blocks 1 words 4 own 0\nheaps stores 3 down 1\nend: races 0 reads 0 uses 0 stale 0\n",
        0,
    ),
    // a joined child's block is in the root's heap, above that of the next child
    (
        b"hhlog 1\ns 0 0\n+ 1\n- 1\n+ 2\n- 2\n.\ns 1 0\na 2 4\n.\ns 2 0\na 3 5\np 2 0 3\np 3 0 2\n.\nend\n",
        "work 0 span 0 parallelism 1.00\nheaps depth 1 blocks 2 words 9 own 5\nheaps stores 2 down 1\nend: races 0 reads 0 uses 0 stale 0\n",
        0,
    ),
    // a block without a birth is in the root's heap
    (
        b"hhlog 1\ns 0 0\na 1 1\np 9 1 1\n+ 1\n- 1\n.\ns 1 0\na 2 4\np 9 0 2\np 2 0 9\n.\nend\n",
        "work 0 span 0 parallelism 1.00\nheaps depth 0 blocks 1 words 1 own 1\nheaps depth 1 blocks 1 words 4 own 4\nheaps stores 3 down 1\nend: races 0 reads 0 uses 0 stale 0\n",
        0,
    ),
    // a block whose birth doesn't happen before has no home
    (
        b"hhlog 1\ns 0 0\n+ 1\n+ 2\n- 2\n- 1\n.\ns 1 0\na 2 4\n.\ns 2 0\na 3 5\np 2 0 3\np 3 0 2\n.\nend\n",
        "entangled use 2: write line 1:13, born line 1:9; lines 1\nwork 0 span 0 parallelism 1.00\nheaps depth 1 blocks 2 words 9 own 5\nheaps stores 2 down 0\nend: races 0 reads 0 uses 1 stale 0\n",
        12,
    ),
    // a grandchild's blocks: its parent releases one and reads a reference to another, and nobody else names two
    (
        b"hhlog 1\ns 0 0\na 1 2\n+ 1\n- 1\n.\ns 1 0\n+ 2\n- 2\nf 5\ng 1 0 7\n.\ns 2 0\na 5 10\na 6 20\na 7 40\na 8 80\nf 6\np 1 0 7\np 1 1 8\n.\nend\n",
        "work 0 span 0 parallelism 1.00\nheaps depth 0 blocks 1 words 2 own 0\nheaps depth 2 blocks 4 words 150 own 100\nheaps stores 2 down 2\nend: races 0 reads 0 uses 0 stale 0\n",
        0,
    ),
    // strands that are left out of a cut log don't count: task 3 was never spawned, and strand 2 of the root is missing
    (
        b"hhlog 1\ns 0 0\na 1 8\n+ 1\ns 1 0\na 2 4\np 1 0 2\np 1 1 3\ns 3 0\na 3 16\np 1 0 3\ns 0 5\na 4 32\nw 2 0\n",
        "work 0 span 0 parallelism 1.00\nheaps depth 0 blocks 1 words 8 own 0\nheaps depth 1 blocks 1 words 4 own 4\nheaps stores 2 down 1\nend: races 0 reads 0 uses 0 stale 0 cut 2\n",
        14,
    ),
    // each number of words fits, and so do those of both depths
    (
        b"hhlog 1\ns 0 0\na 1 999999999999999999\na 2 1\n+ 1\n- 1\n.\ns 1 0\na 3 999999999999999999\n.\nend\n",
        "work 0 span 0 parallelism 1.00\nheaps depth 0 blocks 2 words 1000000000000000000 own 1000000000000000000\nheaps depth 1 blocks 1 words 999999999999999999 own 999999999999999999\nheaps stores 0 down 0\nend: races 0 reads 0 uses 0 stale 0\n",
        0,
    ),
];

// 19 times 999,999,999,999,999,999 is over 2^64
const WORDY: &[u8] =
    b"hhlog 1\ns 0 0\na 1 999999999999999999\na 2 999999999999999999\na 3 999999999999999999\na 4 999999999999999999\na 5 999999999999999999\na 6 999999999999999999\na 7 999999999999999999\na 8 999999999999999999\na 9 999999999999999999\na 10 999999999999999999\na 11 999999999999999999\na 12 999999999999999999\na 13 999999999999999999\na 14 999999999999999999\na 15 999999999999999999\na 16 999999999999999999\na 17 999999999999999999\na 18 999999999999999999\na 19 999999999999999999\n.\nend\n";

const CHILD: &[u8] = b"hhlog 1\ns 0 0\na 1 8\n+ 1\n- 1\n.\ns 1 0\na 2 4\np 1 0 2\n.\nend\n";

// Whole calls.
const REPLIES: &[(&str, &[u8], u8, &str, &str)] = &[
    (
        "check a --heaps --heaps",
        CHILD,
        2,
        "",
        "end: words refused\n",
    ),
    ("check --heaps", CHILD, 2, "", "end: words refused\n"),
    (
        "check a",
        CHILD,
        0,
        "work 0 span 0 parallelism 1.00\nend: races 0 reads 0 uses 0 stale 0\n",
        "",
    ),
    (
        "check --heaps a --blocks 7",
        CHILD,
        0,
        "work 0 span 0 parallelism 1.00\nheaps depth 0 blocks 1 words 8 own 0\nheaps depth 1 blocks 1 words 4 own 4\nheaps stores 1 down 1\nend: races 0 reads 0 uses 0 stale 0\n",
        "",
    ),
    (
        "check a --json --heaps",
        CHILD,
        0,
        "{\"races\":[],\"entangled_reads\":[],\"entangled_uses\":[],\"stale_uses\":[],\"work\":0,\"span\":0,\"parallelism\":\"1.00\",\"heaps\":{\"depths\":[{\"depth\":0,\"blocks\":1,\"words\":8,\"own\":0},\n{\"depth\":1,\"blocks\":1,\"words\":4,\"own\":4}],\"stores\":1,\"down\":1},\"end\":{\"races\":0,\"reads\":0,\"uses\":0,\"stale\":0}}\n",
        "",
    ),
    (
        "check a --json --heaps",
        b"hhlog 1\ns 0 0\n.\nend\n",
        0,
        "{\"races\":[],\"entangled_reads\":[],\"entangled_uses\":[],\"stale_uses\":[],\"work\":0,\"span\":0,\"parallelism\":\"1.00\",\"heaps\":{\"depths\":[],\"stores\":0,\"down\":0},\"end\":{\"races\":0,\"reads\":0,\"uses\":0,\"stale\":0}}\n",
        "",
    ),
    (
        "check a",
        WORDY,
        0,
        "work 0 span 0 parallelism 1.00\nend: races 0 reads 0 uses 0 stale 0\n",
        "",
    ),
    (
        "check a --heaps",
        WORDY,
        11,
        "",
        "end: log refused: too many words\n",
    ),
];

#[test]
fn heaps_are_told(rt: HostRuntime) {
    for (text, out, status) in ROWS {
        assert!(rt;
            answers(
                rt.alloc(),
                "check a --heaps",
                text,
                (&[], &[]),
                (*status, out, "")
            )
        );
    }
}

#[test]
fn calls_for_heaps_are_answered(rt: HostRuntime) {
    for (line, bytes, status, out, error) in REPLIES {
        assert!(rt; answers(rt.alloc(), line, bytes, (&[], &[]), (*status, out, error)));
    }
}
