// Who knows which strands happen before which.

ghost use Rattle.std.specs.Prelude.{◌≡◌};
ghost use Rattle.race_cells.specs.Order.{StrandOrder};

/// Whoever knows the order of strands. A strand's number is its place in a serial order: one that extends "happens
/// before". Of numbers that no strand has any answer will do.
pub trait Strands {
    ghost use Rattle.race_cells.specs.Order.{StrandOrder};

    // what holds of the strands
    ghost order: { Self → StrandOrder };

    /// Whether `u` happens before `v`, or is `v`.
    fn happens_before(&self, u: u32, v: u32) -> bool
        ensures { result ≡ (order self.now).before u v };

    /// How deep `u` and `v` meet: the depth of the lowest common ancestor of their tasks.
    fn meeting(&self, u: u32, v: u32) -> u32
        ensures { result ≡ (order self.now).meeting u v };

    /// Whether `u` leaves the task in which it meets `v` no later than `v` does.
    fn leaves_first(&self, u: u32, v: u32) -> bool
        ensures { result ≡ (order self.now).leaves_first u v };
}
