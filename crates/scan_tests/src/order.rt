// Orders of strands, for tests.

use race_cells::Strands;

/// Which strands happen before which.
#[derive(Clone, Copy)]
pub enum Order {
    /// Each happens before those with greater numbers.
    Series,
    /// None happens before another one.
    Parallel,
    /// The last one comes after all others, of which none happens before another one.
    Joined(u32),
}

impl Strands for Order {
    ghost use Rattle.scan_tests.specs.Orders.{order_of};

    ghost order = { order_of };

    fn happens_before(&self, u: u32, v: u32) -> bool {
        match *self {
            Order::Series => u <= v,
            Order::Parallel => u == v,
            Order::Joined(last) => u == v || v == last,
        }
    }

    fn meeting(&self, _u: u32, _v: u32) -> u32 {
        0
    }

    fn leaves_first(&self, _u: u32, _v: u32) -> bool {
        true
    }
}
