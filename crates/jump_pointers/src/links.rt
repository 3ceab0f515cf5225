// Climbs along the links of places, whoever stores them.

ghost use Rattle.std.specs.Prelude.{◌≡◌, ◌+◌, ◌-◌, ◌*◌, ◌^◌, ◌<◌, ◌≤◌, ℕ, Some};
ghost use Rattle.jump_pointers.specs.Walk.{ancestor};
ghost use Rattle.jump_pointers.specs.Links.{next_far, AreLinked, IsNextLink};

use crate::count::LinkCount;
use std::marker::Brand;
use std::sync::ledger::{Blank, Ledger};

/// The links of a place.
#[derive(Clone, Copy)]
pub struct Link {
    /// How many links lead to the top.
    pub depth: usize,
    /// The parent.
    pub parent: Option<usize>,
    /// A farther ancestor; for a root, the place itself.
    pub far: usize,
}

/// A store of the links of places.
pub trait FarLinks {
    ghost use Rattle.std.specs.Prelude.{ℕ, Option};

    // the number of places
    ghost places: { Self → ℕ };

    ghost parent_at: { Self → ℕ → Option ℕ };

    ghost depth_at: { Self → ℕ → ℕ };

    ghost far_at: { Self → ℕ → ℕ };

    /// The links of a place.
    fn link(&self, place: usize) -> Link
        requires { place < places self.now }
        ensures parent { result.parent ≡ parent_at self.now place }
        ensures depth { result.depth ≡ depth_at self.now place }
        ensures far { result.far ≡ far_at self.now place };
}

/// The target of the far link of a child of `t`: past the two next far links if these are equally long, otherwise `t`.
pub fn far_below<T: FarLinks>(links: &T, t: usize) -> usize
    requires linked { AreLinked (T.places links.now) (T.parent_at links.now) (T.depth_at links.now) (T.far_at links.now) }
    requires there { t < T.places links.now }
    ensures value { result ≡ next_far (T.depth_at links.now) (T.far_at links.now) t }
    ensures low { result ≤ t }
{
    let here = links.link(t);
    let far = links.link(here.far);
    let farther = links.link(far.far);
    if here.depth - far.depth == far.depth - farther.depth {
        far.far
    } else {
        t
    }
}

// Follows one link up: the far one unless it leads past the depth, otherwise the one to the parent.
fn step_up<T: FarLinks, L: Ledger>(
    links: &T,
    at: usize,
    depth: usize,
    count: &mut LinkCount<L>,
) -> usize
    requires linked { AreLinked (T.places links.now) (T.parent_at links.now) (T.depth_at links.now) (T.far_at links.now) }
    requires there { at < T.places links.now }
    requires deeper { depth < T.depth_at links.now at }
    ensures there { result < T.places links.now }
    ensures not_past { depth ≤ T.depth_at links.now result }
    ensures higher { T.depth_at links.now result < T.depth_at links.now at }
    ensures up { ancestor (T.parent_at links.now) (T.depth_at links.now at - T.depth_at links.now result) at ≡ Some result }
    ensures next { IsNextLink (T.parent_at links.now) (T.depth_at links.now) (T.far_at links.now) depth at result }
    ensures counted { count.new ≡ count.old + 1 }
{
    count.tick();
    let here = links.link(at);
    if links.link(here.far).depth >= depth {
        return here.far;
    }
    match here.parent {
        Some(parent) => parent,
        None => unreachable!(),
    }
}

/// The ancestor of `t` at a depth. It follows at most 3 ⌊log₂(d + 1)⌋ links, d being the depth of `t`.
pub fn climb<T: FarLinks, L: Ledger>(
    links: &T,
    t: usize,
    depth: usize,
    count: &mut LinkCount<L>,
) -> usize
    requires linked { AreLinked (T.places links.now) (T.parent_at links.now) (T.depth_at links.now) (T.far_at links.now) }
    requires there { t < T.places links.now }
    requires within { depth ≤ T.depth_at links.now t }
    ensures there { result < T.places links.now }
    ensures depth { T.depth_at links.now result ≡ depth }
    ensures up { ancestor (T.parent_at links.now) (T.depth_at links.now t - depth) t ≡ Some result }
    ensures counted { count.old ≤ count.new }
    ensures cost { (log : ℕ) → T.depth_at links.now t + 1 < 2 ^ (log + 1) → count.new ≤ count.old + 3 * log }
{
    let mut at = t;
    while links.link(at).depth > depth {
        at = step_up(links, at, depth, count);
    }
    at
}

/// `climb` without the count.
pub fn climb_to<T: FarLinks>(links: &T, t: usize, depth: usize) -> usize
    requires linked { AreLinked (T.places links.now) (T.parent_at links.now) (T.depth_at links.now) (T.far_at links.now) }
    requires there { t < T.places links.now }
    requires within { depth ≤ T.depth_at links.now t }
    ensures there { result < T.places links.now }
    ensures depth { T.depth_at links.now result ≡ depth }
    ensures up { ancestor (T.parent_at links.now) (T.depth_at links.now t - depth) t ≡ Some result }
{
    climb_from::<T, Brand>(links, t, depth, Blank::new(1))
}

// `climb` with a new count, which is dropped.
fn climb_from<T: FarLinks, L: Ledger>(links: &T, t: usize, depth: usize, blank: Blank) -> usize
    requires name { blank.name ≡ L.name }
    requires parts { blank.parts ≡ L.parts }
    requires some { 0 < blank.parts }
    requires linked { AreLinked (T.places links.now) (T.parent_at links.now) (T.depth_at links.now) (T.far_at links.now) }
    requires there { t < T.places links.now }
    requires within { depth ≤ T.depth_at links.now t }
    ensures there { result < T.places links.now }
    ensures depth { T.depth_at links.now result ≡ depth }
    ensures up { ancestor (T.parent_at links.now) (T.depth_at links.now t - depth) t ≡ Some result }
{
    let mut count = LinkCount::<L>::new(blank);
    climb(links, t, depth, &mut count)
}
