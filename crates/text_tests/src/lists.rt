// Lists, and lists with spare capacity.

use plain_vec::{Listed, ReservedVec};

// Adds three items and changes two; returns whether the list has them.
fn is_filled(list: &mut Listed<i32>) -> bool {
    let Ok(()) = list.push(3) else {
        return false;
    };
    let Ok(()) = list.push_pair(5, 7) else {
        return false;
    };
    *list.at_mut(1) = 6;
    list.set(0, 2);
    list.as_slice() == [2, 6, 7].as_slice()
}

// Pops the third item and drops the second; returns whether the list returns these items.
fn is_emptied(list: &mut Listed<i32>) -> bool {
    let last = list.pop();
    let left = (list.get(1).copied(), list.get(2).copied());
    list.truncate(1);
    (last, left) == (Some(7), (Some(6), None)) && list.len() == 1 && !list.is_empty()
}

#[test]
fn items_come_and_go(rt: HostRuntime) {
    let mut list = Listed::new(rt.alloc());
    let (filled, emptied) = (is_filled(&mut list), is_emptied(&mut list));
    assert!(rt; (filled, emptied) == (true, true));
}

// Adds two items with reserved capacity, and pops one; returns whether the list has and returns them.
fn is_used(list: &mut ReservedVec<i32>) -> bool {
    let Ok(()) = list.reserve(2) else {
        return false;
    };
    list.push_reserved(1);
    list.push_reserved(2);
    list.as_slice() == [1, 2].as_slice() && list.pop() == Some(2)
}

#[test]
fn room_is_used(rt: HostRuntime) {
    let mut list = ReservedVec::new(rt.alloc());
    let used = is_used(&mut list);
    let left = list.into_listed();
    assert!(rt; used && left.as_slice() == [1].as_slice());
}
