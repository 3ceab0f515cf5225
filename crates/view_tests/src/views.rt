// What each view shows, and what is refused.

use crate::calls::{Call, check_calls, shows};

// Two objects of an ended root, of which the first one refers to the second one.
const TWO_OBJECTS: &str =
    "image 1\ntask 0 - ended\nchunk 0 0 1024\nobject 1 0 0 mut 1 0 4\nobject 4 0 1 imm 0 1 -5\nend: image 2\n";

// A reference down that is remembered, one up, and one into the heap of a running task.
const DOWN: &str =
    "image 1\ntask 0 - waiting\ntask 1 0 ended\ntask 2 0 running\nchunk 0 0 1024\nchunk 1 1 1024\nchunk 2 2 1024\nobject 1 0 0 mut 2 0 1025 2049\nobject 1025 1 0 mut 1 0 1\nremembered 1 1 0\nremembered 2 1 1\nend: image 2\n";

const HEAPS: &[Call] = &[
    (
        "heaps",
        TWO_OBJECTS,
        0,
        "digraph \"heaps\" {\n\"compound\"=\"true\";\n\"rankdir\"=\"LR\";\nsubgraph \"cluster task 0\" {\n\"label\"=\"task 0 ended, 6 words\";\n\"task 0\" [\"shape\"=\"point\" \"style\"=\"invis\" ];\n}\nsubgraph \"cluster task 0\" {\nsubgraph \"cluster chunk 0\" {\n\"label\"=\"chunk 0 of 1024 words\";\n\"chunk 0\" [\"shape\"=\"point\" \"style\"=\"invis\" ];\n\"1\" [\"shape\"=\"record\" \"label\"=\"(0,0)|mut|<f0> 4\" ];\n\"4\" [\"shape\"=\"record\" \"label\"=\"(0,1)|imm|-5\" ];\n}\n}\n\"1\":\"f0\" -> \"4\" [\"color\"=\"#7b8394\" \"penwidth\"=\"1\" ];\n}\n",
        "",
    ),
    (
        "heaps --limit 1 FILE",
        TWO_OBJECTS,
        0,
        "digraph \"heaps\" {\n\"compound\"=\"true\";\n\"rankdir\"=\"LR\";\n\"task 0\" [\"shape\"=\"record\" \"label\"=\"<f0> task 0 ended, 6 words|objects: 2|chunks: 1\" ];\n\"task 0\":\"f0\" -> \"task 0\" [\"style\"=\"solid\" \"label\"=\"1\" \"color\"=\"#7b8394\" \"penwidth\"=\"1\" ];\n}\n",
        "",
    ),
    (
        "heaps --limit=0",
        DOWN,
        0,
        "digraph \"heaps\" {\n\"compound\"=\"true\";\n\"rankdir\"=\"LR\";\n\"task 0\" [\"shape\"=\"record\" \"label\"=\"<f0> task 0 waiting, 4 words|objects: 1|chunks: 1\" ];\n\"task 1\" [\"shape\"=\"record\" \"label\"=\"<f0> task 1 ended, 3 words|objects: 1|chunks: 1\" ];\n\"task 0\":\"f0\" -> \"task 1\" [\"style\"=\"dotted\" \"arrowhead\"=\"none\" ];\n\"task 2\" [\"shape\"=\"record\" \"label\"=\"<f0> task 2 running|objects: 0|chunks: 1\" ];\n\"task 0\":\"f0\" -> \"task 2\" [\"style\"=\"dotted\" \"arrowhead\"=\"none\" ];\n\"task 0\":\"f0\" -> \"task 1\" [\"style\"=\"solid\" \"label\"=\"1\" \"color\"=\"#cf2b2b\" \"penwidth\"=\"2\" ];\n\"task 0\":\"f0\" -> \"task 2\" [\"style\"=\"dashed\" \"label\"=\"1\" \"color\"=\"#cf2b2b\" \"penwidth\"=\"2\" ];\n\"task 1\":\"f0\" -> \"task 0\" [\"style\"=\"solid\" \"label\"=\"1\" \"color\"=\"#1f66d6\" \"penwidth\"=\"1\" ];\n}\n",
        "",
    ),
    (
        "heaps --path 1 --limit 9",
        DOWN,
        0,
        "digraph \"heaps\" {\n\"compound\"=\"true\";\n\"rankdir\"=\"LR\";\nsubgraph \"cluster task 0\" {\n\"label\"=\"task 0 waiting, 4 words\";\n\"task 0\" [\"shape\"=\"point\" \"style\"=\"invis\" ];\n}\nsubgraph \"cluster task 0\" {\nsubgraph \"cluster task 1\" {\n\"label\"=\"task 1 ended, 3 words\";\n\"task 1\" [\"shape\"=\"point\" \"style\"=\"invis\" ];\n}\n}\nsubgraph \"cluster task 0\" {\nsubgraph \"cluster chunk 0\" {\n\"label\"=\"chunk 0 of 1024 words\";\n\"chunk 0\" [\"shape\"=\"point\" \"style\"=\"invis\" ];\n\"1\" [\"shape\"=\"record\" \"label\"=\"(0,0)|mut|<f0> 1025|<f1> 2049\" ];\n}\n}\nsubgraph \"cluster task 0\" {\nsubgraph \"cluster task 1\" {\nsubgraph \"cluster chunk 1\" {\n\"label\"=\"chunk 1 of 1024 words\";\n\"chunk 1\" [\"shape\"=\"point\" \"style\"=\"invis\" ];\n\"1025\" [\"shape\"=\"record\" \"label\"=\"(1,0)|mut|<f0> 1\" ];\n}\n}\n}\n\"1\":\"f0\" -> \"1025\" [\"color\"=\"#cf2b2b\" \"penwidth\"=\"2\" ];\n\"1\":\"f1\" -> \"task 2\" [\"style\"=\"dashed\" \"lhead\"=\"cluster task 2\" \"color\"=\"#cf2b2b\" \"penwidth\"=\"2\" ];\n\"1025\":\"f0\" -> \"1\" [\"color\"=\"#1f66d6\" \"penwidth\"=\"1\" ];\n}\n",
        "",
    ),
];

#[test]
fn heaps_are_drawn(rt: HostRuntime) {
    check_calls(&rt, HEAPS);
}

// A task reads a field that a task beside it has written: the read is stopped.
const ENTANGLES: &str =
    "fn left\nset i0 0\nset i1 1\nnewm r1 i0 i1\nputr r0 i0 r1\nret\nend\nfn right\nset i0 0\ngetr r1 r0 i0\nret\nend\nfn main\nset i0 1\nset i1 0\nnewm r0 i0 i1\npar left right\nret\nend\ntrace 2\n0 took 0\n0 ran 0 2\n0 chunk 0\n0 ran 0 2\n0 took 1\n0 ran 1 2\n0 chunk 1\n0 ran 1 2\n0 ran 1 1\n0 took 2\n0 ran 2 2\n";

const RUNS: &[Call] = &[
    (
        "log",
        ENTANGLES,
        0,
        "hhlog 1\n@ 5 left:5\n@ 10 right:10\ns 0 0\nk 2\ns 0 0\nk 2\na 1 1\n+ 1\n+ 2\ns 1 0\nk 2\ns 1 0\nk 2\na 1000000001 1\np 1 0 1000000001 @5\ns 1 0\nk 1\n.\ns 2 0\nk 2\ng 1 0 1000000001 @10\n",
        "",
    ),
    (
        "log --workers 2",
        "fn leaf\nset i1 0\ncas i0 r0 i1 r1 r0\nend\nfn main\nset i0 1\nnewm r0 i0 i0\npar leaf leaf\ngeti i2 r0 i1\nend\ntrace 2\n0 took 0\n0 ran 0 1\n0 chunk 0\n0 ran 0 2\n0 took 1\n0 ran 1 2\n0 ran 1 1\n0 took 2\n0 ran 2 2\n0 ran 2 1\n0 took 0\n0 ran 0 2\n",
        0,
        "hhlog 1\n@ 3 leaf:3\n@ 9 main:9\ns 0 0\nk 1\ns 0 0\nk 2\na 1 2\n+ 1\n+ 2\ns 1 0\nk 2\nW 1 0 @3\ns 1 0\nk 1\n.\ns 2 0\nk 2\nR 1 0 @3\ns 2 0\nk 1\n.\ns 0 2\n- 1\n- 2\ns 0 4\nk 2\nr 1 1 @9\n.\nend\n",
        "",
    ),
    (
        "tasks --workers 2",
        ENTANGLES,
        0,
        "task,parent,line,function,number,depth,worker,entries,steps,objects,words,dropped,end\n0,,,,,0,0,4,4,1,3,0,waiting\n1,0,17,left,,1,0,5,5,1,3,0,ended\n2,0,17,right,,1,0,2,2,0,0,0,entangled\n",
        "",
    ),
    (
        "timeline",
        "fn main\nret\nend\ntrace 2\n0 took 0\n0 ran 0 1\n",
        0,
        "{\"traceEvents\":[{\"name\":\"process_name\",\"cat\":\"__metadata\",\"ph\":\"M\",\"ts\":0,\"pid\":1,\"tid\":0,\"args\":{\"name\":\"hheap: a millisecond is one entry\"}},\n{\"name\":\"thread_name\",\"cat\":\"__metadata\",\"ph\":\"M\",\"ts\":0,\"pid\":1,\"tid\":0,\"args\":{\"name\":\"worker 0\"}},\n{\"name\":\"took\",\"cat\":\"entry\",\"ph\":\"X\",\"ts\":0,\"pid\":1,\"tid\":0,\"dur\":1000,\"args\":{\"task\":0}},\n{\"name\":\"task 0\",\"cat\":\"task\",\"ph\":\"b\",\"ts\":1000,\"pid\":1,\"tid\":0,\"id\":0},\n{\"name\":\"ran main:2\",\"cat\":\"entry\",\"ph\":\"X\",\"ts\":1000,\"pid\":1,\"tid\":0,\"dur\":1000,\"args\":{\"task\":0,\"steps\":1}},\n{\"name\":\"task 0\",\"cat\":\"task\",\"ph\":\"e\",\"ts\":2000,\"pid\":1,\"tid\":0,\"id\":0},\n{\"name\":\"end: done\",\"cat\":\"end\",\"ph\":\"i\",\"ts\":2000,\"pid\":1,\"tid\":0,\"s\":\"g\",\"args\":{}}],\"displayTimeUnit\":\"ms\"}\n",
        "",
    ),
    (
        "timeline",
        "fn main\nset i0 1\nnewm r0 i0 i0\nend\ntrace 2\n0 took 0\n0 ran 0 1\n0 chunk 0\n0 ran 0 2\n",
        0,
        "{\"traceEvents\":[{\"name\":\"process_name\",\"cat\":\"__metadata\",\"ph\":\"M\",\"ts\":0,\"pid\":1,\"tid\":0,\"args\":{\"name\":\"hheap: a millisecond is one entry\"}},\n{\"name\":\"thread_name\",\"cat\":\"__metadata\",\"ph\":\"M\",\"ts\":0,\"pid\":1,\"tid\":0,\"args\":{\"name\":\"worker 0\"}},\n{\"name\":\"took\",\"cat\":\"entry\",\"ph\":\"X\",\"ts\":0,\"pid\":1,\"tid\":0,\"dur\":1000,\"args\":{\"task\":0}},\n{\"name\":\"task 0\",\"cat\":\"task\",\"ph\":\"b\",\"ts\":1000,\"pid\":1,\"tid\":0,\"id\":0},\n{\"name\":\"ran main:2\",\"cat\":\"entry\",\"ph\":\"X\",\"ts\":1000,\"pid\":1,\"tid\":0,\"dur\":1000,\"args\":{\"task\":0,\"steps\":1}},\n{\"name\":\"chunk\",\"cat\":\"entry\",\"ph\":\"X\",\"ts\":2000,\"pid\":1,\"tid\":0,\"dur\":1000,\"args\":{\"task\":0}},\n{\"name\":\"chunks in use\",\"cat\":\"pool\",\"ph\":\"C\",\"ts\":3000,\"pid\":1,\"tid\":0,\"args\":{\"chunks\":1}},\n{\"name\":\"ran main:3\",\"cat\":\"entry\",\"ph\":\"X\",\"ts\":3000,\"pid\":1,\"tid\":0,\"dur\":1000,\"args\":{\"task\":0,\"steps\":2}},\n{\"name\":\"task 0\",\"cat\":\"task\",\"ph\":\"e\",\"ts\":4000,\"pid\":1,\"tid\":0,\"id\":0},\n{\"name\":\"words held\",\"cat\":\"pool\",\"ph\":\"C\",\"ts\":4000,\"pid\":1,\"tid\":0,\"args\":{\"words\":4}},\n{\"name\":\"end: done\",\"cat\":\"end\",\"ph\":\"i\",\"ts\":4000,\"pid\":1,\"tid\":0,\"s\":\"g\",\"args\":{}}],\"displayTimeUnit\":\"ms\"}\n",
        "",
    ),
];

#[test]
fn runs_are_shown(rt: HostRuntime) {
    check_calls(&rt, RUNS);
}

// A child writes a field that the root reads behind the join.
const IN_ORDER: &str =
    "fn left\nset i2 3\nputi r0 i1 i2\nend\nfn right\ngeti i2 r0 i0\nend\nfn main\nset i0 0\nset i1 1\nset i2 2\nnewm r0 i0 i2\nputi r0 i0 i2\npar left right\nset i1 1\ngeti i3 r0 i1\nout i3\nend\ntrace 2\n0 took 0\n0 ran 0 3\n0 chunk 0\n0 ran 0 3\n0 took 1\n0 ran 1 2\n0 ran 1 1\n0 took 2\n0 ran 2 1\n0 ran 2 1\n0 took 0\n0 ran 0 3\n0 ran 0 1\n";

// Two children write a field.
const RACES: &str =
    "fn side\nputi r0 i0 i1\nend\nfn main\nset i0 0\nset i1 1\nnewm r0 i0 i1\npar side side\nend\ntrace 2\n0 took 0\n0 ran 0 2\n0 chunk 0\n0 ran 0 2\n0 took 1\n0 ran 1 1\n0 ran 1 1\n0 took 2\n0 ran 2 1\n0 ran 2 1\n0 took 0\n0 ran 0 1\n";

// Two children compare and swap a field, which one of them sets.
const CONTENDS: &str =
    "fn side\ncas i2 r0 i0 r1 r0\nend\nfn main\nset i0 0\nset i1 1\nnewm r0 i1 i0\npar side side\nout i1\nend\ntrace 2\n0 took 0\n0 ran 0 2\n0 chunk 0\n0 ran 0 2\n0 took 1\n0 ran 1 1\n0 ran 1 1\n0 took 2\n0 ran 2 1\n0 ran 2 1\n0 took 0\n0 ran 0 1\n0 ran 0 1\n";

// Two children print.
const PRINTS: &str =
    "fn left\nout i0\nend\nfn right\nout i1\nend\nfn main\nset i1 1\nout i1\npar left right\nend\ntrace 2\n0 took 0\n0 ran 0 2\n0 ran 0 1\n0 took 1\n0 ran 1 1\n0 ran 1 1\n0 took 2\n0 ran 2 1\n0 ran 2 1\n0 took 0\n0 ran 0 1\n";

// The root divides by zero.
const TRAPS: &str = "fn main\nset i1 1\ndiv i0 i1 i0\nend\ntrace 2\n0 took 0\n0 ran 0 2\n";

const SCHEDULES: &[Call] = &[
    (
        "schedules",
        IN_ORDER,
        0,
        "prints ordered\nend: every schedule agrees\n",
        "",
    ),
    (
        "schedules FILE --workers 2",
        PRINTS,
        0,
        "prints unordered tasks 1 2 lines 2 5\nend: every schedule agrees but for the order of prints\n",
        "",
    ),
    (
        "schedules",
        RACES,
        12,
        "race 0 0 num 0 tasks 1 2 lines 2 2\nprints ordered\nend: schedules may differ 1\n",
        "",
    ),
    (
        "schedules",
        CONTENDS,
        12,
        "swap 0 0 ref 0 tasks 1 2 lines 2 2\nprints ordered\nend: schedules may differ 1\n",
        "",
    ),
    ("schedules", TRAPS, 11, "", "end: no whole run\n"),
    (
        "schedules --workers 2",
        ENTANGLES,
        11,
        "",
        "end: no whole run\n",
    ),
    (
        "schedules --path 1",
        IN_ORDER,
        2,
        "",
        "end: words refused\n",
    ),
    (
        "schedules",
        "fn main\nret\n",
        3,
        "",
        "end: source refused line 3 noend\n",
    ),
];

#[test]
fn schedules_are_told(rt: HostRuntime) {
    check_calls(&rt, SCHEDULES);
}

#[test]
fn usage_is_shown(rt: HostRuntime) {
    check_calls(
        &rt,
        &[(
            "--help",
            "",
            0,
            "usage: hhview heaps [FILE] [--path T] [--limit N]\n       hhview page [FILE] [OPTIONS] [--title WORDS]\n       hhview timeline [FILE] [OPTIONS]\n       hhview tasks [FILE] [OPTIONS]\n       hhview schedules [FILE] [OPTIONS]\n       hhview races [FILE] [OPTIONS]\n       hhview log [FILE] [OPTIONS]\n       hhview faults [FILE] [--json]\nOPTIONS are those of hheap replay: --workers N, --fuel N, --chunks N, --leaf N, --inner N\n",
            "",
        )],
    );
}

const REFUSED: &[Call] = &[
    ("", "", 2, "", "end: words refused\n"),
    ("draw", "", 2, "", "end: words refused\n"),
    (
        "heaps --limit x",
        TWO_OBJECTS,
        2,
        "",
        "end: words refused\n",
    ),
    ("heaps --path", TWO_OBJECTS, 2, "", "end: words refused\n"),
    (
        "heaps --workers 2",
        TWO_OBJECTS,
        2,
        "",
        "end: words refused\n",
    ),
    (
        "timeline --path 2",
        ENTANGLES,
        2,
        "",
        "end: words refused\n",
    ),
    (
        "tasks --workers 65",
        ENTANGLES,
        2,
        "",
        "end: words refused\n",
    ),
    ("--help heaps", "", 2, "", "end: words refused\n"),
    ("page --title", TRAPS, 2, "", "end: words refused\n"),
    (
        "page --title a --title b",
        TRAPS,
        2,
        "",
        "end: words refused\n",
    ),
    ("page --limit 3", TRAPS, 2, "", "end: words refused\n"),
    (
        "heaps",
        "image 2\n",
        13,
        "",
        "end: image refused line 1 line\n",
    ),
    (
        "tasks",
        "fn main\nret\n",
        3,
        "",
        "end: source refused line 3 noend\n",
    ),
    (
        "page --title a",
        "fn main\nret\n",
        3,
        "",
        "end: source refused line 3 noend\n",
    ),
    (
        "page --workers 2 --title a FILE",
        "fn main\nret\nend\ntrace 2\n0 took 0\n",
        11,
        "",
        "end: trace refused short\n",
    ),
    (
        "schedules",
        "fn main\nret\nend\ntrace 2\n0 took 0\n",
        11,
        "",
        "end: trace refused short\n",
    ),
    (
        "timeline",
        "fn main\nret\nend\ntrace 2\n0 took x\n",
        11,
        "",
        "end: trace refused line 5\n",
    ),
];

#[test]
fn others_are_refused(rt: HostRuntime) {
    check_calls(&rt, REFUSED);
}

#[test]
fn faults_are_told(rt: HostRuntime) {
    let read = shows(
        rt.alloc(),
        "heaps FILE",
        TWO_OBJECTS.as_bytes(),
        (&[1], &[]),
        (8, b"", b""),
    );
    assert!(rt; read);
    let written = shows(
        rt.alloc(),
        "heaps",
        TWO_OBJECTS.as_bytes(),
        (&[], &[1]),
        (9, b"", b""),
    );
    assert!(rt; written);
}
