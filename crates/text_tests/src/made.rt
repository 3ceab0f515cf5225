// Texts of made programs, against texts and sums that were computed from the table by other means.

use command_line::{SIZE_LIMIT, make};
use std::alloc::Global;

const ONE: &[u8] =
    b"fn f0\nmovr r3 r0\nset i2 2\nset i3 0\nnewm r0 i2 i3\nmovr r2 r0\nset i5 496\nset i2 0\nset i3 21\nset i7 7\nset i8 1\nlab a\nnewm r5 i2 i3\nputi r5 i2 i7\nsub i7 i7 i8\njz i7 b\njmp a\nlab b\nset i4 0\nputr r3 i4 r5\nset i3 1\nnewm r6 i2 i3\nputi r6 i2 i5\nputr r3 i4 r6\ngetr r7 r3 i4\ngeti i0 r7 i2\nnil r0\nret\nend\nfn main\nset i2 2\nset i3 0\nnewm r0 i2 i3\nmovr r9 r0\ncall f0\nset i4 0\ngetr r4 r9 i4\ngeti i6 r4 i4\nout i6\nret\nend\n";

// The length of a text, and the sum of its bytes, each times its position from 1.
fn measures(text: &[u8]) -> (usize, u64) {
    let mut sum = 0u64;
    let mut place = 0u64;
    for byte in text {
        place = place.wrapping_add(1);
        sum = sum.wrapping_add(place.wrapping_mul(u64::from(*byte)));
    }
    (text.len(), sum)
}

// A seed and a size, and the measures of the made text.
const OTHERS: &[(u32, u32, (usize, u64))] = &[
    (1, 2, (696, 17676830)),
    (1, 3, (1107, 44520807)),
    (4294967295, 10, (3515, 446322572)),
    (7, 1000, (355754, 4546667667837)),
];

#[test]
fn one_function(rt: HostRuntime) {
    let made = match make(rt.alloc(), 1, 1) {
        Ok(text) => text.as_slice() == ONE,
        Err(_) => false,
    };
    assert!(rt; made);
}

// The measures of a made text; None for size 0, or if out of memory.
fn measures_of(alloc: Global, seed: u32, size: u32) -> Option<(usize, u64)> {
    if size < 1 || SIZE_LIMIT < size {
        return None;
    }
    match make(alloc, seed, size) {
        Ok(text) => Some(measures(&text)),
        Err(_) => None,
    }
}

#[test]
fn other_sizes_and_seeds(rt: HostRuntime) {
    for (seed, size, expected) in OTHERS {
        assert!(rt;
            measures_of(rt.alloc(), *seed, *size) == Some(*expected),
            "{seed} {size}"
        );
    }
}
