// Links in a list, by position.

ghost use Rattle.std.specs.Prelude.{◌≡◌, ◌<◌, length, slice_get, IfSome, Some};
ghost use Rattle.jump_pointers.specs.Lists.{up_from, depth_at, far_at, new_link, AreLinks};

use crate::links::{FarLinks, Link, far_below};

impl FarLinks for Vec<Link> {
    ghost use Rattle.std.specs.Prelude.{length};
    ghost use Rattle.jump_pointers.specs.Lists.{up_from, depth_at, far_at};

    ghost places = { λ links. length links.items };

    ghost parent_at = { λ links. up_from links.items };

    ghost depth_at = { λ links. depth_at links.items };

    ghost far_at = { λ links. far_at links.items };

    fn link(&self, place: usize) -> Link {
        link_at(self, place)
    }
}

// The link at a position.
fn link_at(links: &Vec<Link>, place: usize) -> Link
    requires { place < length links.now.items }
    ensures parent { result.parent ≡ up_from links.now.items place }
    ensures depth { result.depth ≡ depth_at links.now.items place }
    ensures far { result.far ≡ far_at links.now.items place }
{
    links[place]
}

/// The link of the next place, given its parent's place.
pub fn link_below(links: &Vec<Link>, place: usize, parent: Option<usize>) -> Link
    requires next { place ≡ length links.now.items }
    requires linked { AreLinks links.now.items }
    requires there { IfSome parent (λ p. p < length links.now.items) }
    ensures { result ≡ new_link links.now.items parent }
{
    match parent {
        None => Link {
            depth: 0,
            parent: None,
            far: place,
        },
        Some(above) => Link {
            depth: links.link(above).depth + 1,
            parent: Some(above),
            far: far_below(links, above),
        },
    }
}
