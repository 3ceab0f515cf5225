// The stretches of accesses.

use log_places::{NumberError, Numbers, Places, Region};
use std::alloc::{AllocError, Global};

// A location by its block, and the stretch that it is in.
const STRETCHES: &[((u64, u64), Option<(u64, u64)>)] = &[
    ((1, 0), Some((0, 4))),
    ((1, 7), Some((4, 8))),
    ((1, 8), Some((8, 16))),
    ((1, 63), Some((56, 64))),
    ((1, 64), None),
    ((2, 4089), None),
    ((2, 4090), Some((4090, 4096))),
    ((2, 4099), Some((4096, 4100))),
    ((3, 0), None),
];

// An array of eight items of eight bytes, item by item, every other one also by its second half; and a run over a
// border of pages.
fn mark_all(places: &mut Places) -> Result<(), AllocError> {
    places.mark(Region {
        block: 1,
        offset: 0,
        length: 8,
        runs: 8,
        apart: 8,
    })?;
    places.mark(Region {
        block: 1,
        offset: 4,
        length: 4,
        runs: 4,
        apart: 16,
    })?;
    places.mark(Region {
        block: 2,
        offset: 4090,
        length: 10,
        runs: 1,
        apart: 10,
    })
}

fn numbers_of(alloc: Global, limit: usize) -> Result<Numbers, NumberError> {
    let mut places = Places::new(alloc);
    mark_all(&mut places)?;
    places.number(limit)
}

fn stretch_of(numbers: &Numbers, block: u64, location: u64) -> Option<(u64, u64)> {
    if location >= 1 << 60 {
        return None;
    }
    let slot = numbers.find(block, location)?;
    Some((slot.start, slot.end))
}

fn are_right(numbers: &Numbers) -> bool {
    for ((block, location), stretch) in STRETCHES {
        if stretch_of(numbers, *block, *location) != *stretch {
            return false;
        }
    }
    numbers.len() == 14
}

fn finds_all(alloc: Global) -> bool {
    match numbers_of(alloc, 14) {
        Ok(numbers) => are_right(&numbers),
        Err(_) => false,
    }
}

fn is_over(alloc: Global) -> bool {
    match numbers_of(alloc, 13) {
        Ok(_) | Err(NumberError::NoMemory) => false,
        Err(NumberError::OverLimit) => true,
    }
}

#[test]
fn stretches(rt: HostRuntime) {
    assert!(rt; finds_all(rt.alloc()));
}

#[test]
fn limits(rt: HostRuntime) {
    assert!(rt; is_over(rt.alloc()));
}
