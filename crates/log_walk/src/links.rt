// Links from each strand to the one that spawned its task.

ghost use Rattle.std.specs.Prelude.{◌≡◌, IfOk, length};
ghost use Rattle.log_walk.specs.Tables.{place_before, AreFirsts, AreSpawnLinks};

use fork_graph::GraphStrand;
use jump_pointers::{Link, link_below};
use plain_vec::Listed;
use std::alloc::{AllocError, Global};

/// For each place in the order the links to the places of the strands that spawned its task, its parent, and so on up
/// to the root.
pub(crate) fn spawn_links(
    alloc: Global,
    order: &Listed<GraphStrand>,
    firsts: &Listed<usize>,
) -> Result<Vec<Link>, AllocError>
    requires { AreFirsts order.now firsts.now }
    ensures { IfOk result (λ links. AreSpawnLinks order.now firsts.now (length order.now) links.items) }
{
    let mut links = Vec::new(alloc);
    for place in 0..order.len() {
        let strand = *order.at(place);
        let first = *firsts.at(strand.task as usize);
        let link = link_below(&links, place, place_before(first));
        links.push(link)?;
    }
    Ok(links)
}

// The place right before another one.
fn place_before(place: usize) -> Option<usize>
    ensures { result ≡ place_before place }
{
    if place == 0 { None } else { Some(place - 1) }
}
