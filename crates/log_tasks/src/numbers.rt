// Tasks numbered without gaps.

ghost use Rattle.std.specs.Prelude.{◌≡◌, ◌<◌, ℕ, IfOk, Contains, IsTrue, get_or, length};
ghost use Rattle.std.specs.List.Sorted.{IsStrictlyIncreasing};
ghost use Rattle.log_tasks.specs.Numbers.{task_of, renumbered};

use fork_graph::GraphTurn;
use plain_vec::Listed;
use std::alloc::{AllocError, Global};

/// Whether a number stands in a list at the place of the same number.
pub(crate) fn is_own_place(numbers: &[u32], number: u32) -> bool
    ensures { IsTrue result → (number < length numbers.now) × (get_or numbers.now number 0 ≡ number) }
{
    let place = number as usize;
    place < numbers.len() && numbers[place] == number
}

// Whether each number is greater than the one before it.
fn is_ascending(numbers: &[u32]) -> bool
    ensures { IsTrue result → IsStrictlyIncreasing numbers.now }
{
    for place in 1..numbers.len() {
        if numbers[place - 1] >= numbers[place] {
            return false;
        }
    }
    true
}

/// Each number once, in ascending order.
pub fn each_once(numbers: Vec<u32>) -> Vec<u32>
    ensures ascending { IsStrictlyIncreasing result.items }
    ensures kept { (n : ℕ) → Contains numbers.items n → Contains result.items n }
    ensures no_other { (n : ℕ) → Contains result.items n → Contains numbers.items n }
{
    if is_ascending(numbers.as_slice()) {
        return numbers;
    }
    let mut sorted = numbers;
    sorted.sort_unstable();
    sorted.dedup();
    sorted
}

/// The numbers of a list, each once, in ascending order.
pub(crate) fn numbers_of(alloc: Global, tasks: &Listed<u32>) -> Result<Listed<u32>, AllocError>
    ensures kept { IfOk result (λ numbers. (n : ℕ) → Contains tasks.now n → Contains numbers n) }
    ensures no_other { IfOk result (λ numbers. (n : ℕ) → Contains numbers n → Contains tasks.now n) }
    ensures ascending { IfOk result IsStrictlyIncreasing }
{
    let numbers = tasks.as_slice().to_vec(alloc)?;
    Ok(Listed::from_vec(each_once(numbers)))
}

// The task that has a number in the log, or the root, if none has.
fn task_of(numbers: &[u32], number: u32) -> u32
    requires { IsStrictlyIncreasing numbers.now }
    ensures { result ≡ task_of numbers.now number }
{
    if is_own_place(numbers, number) {
        return number;
    }
    match numbers.binary_search(&number) {
        Ok(task) => task as u32,
        Err(_) => 0,
    }
}

/// A turn of tasks that are numbered without gaps.
pub(crate) fn renumbered(numbers: &[u32], turn: GraphTurn) -> GraphTurn
    requires { IsStrictlyIncreasing numbers.now }
    ensures { result ≡ renumbered numbers.now turn }
{
    match turn {
        GraphTurn::Spawn(number) => GraphTurn::Spawn(task_of(numbers, number)),
        GraphTurn::Join(number) => GraphTurn::Join(task_of(numbers, number)),
    }
}
