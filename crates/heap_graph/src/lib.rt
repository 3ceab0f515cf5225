// The graph of an image, for Graphviz: a cluster for each task with its chunks inside, objects as records, and an edge
// for each reference; or, if the image is large, a box for each heap, and one edge for all references from heap to
// heap.
#![tactic(auto)]

// The graph of an image, object by object or heap by heap.
mod draw;
mod graph;
mod laws;
mod overview;

// What it draws: objects, references, and heaps with the links between them.
mod edges;
mod held;
mod links;
mod objects;

// What it contains: names, and the words of the lines read.
mod names;
mod words;

pub use graph::graph_text;
pub use image_check::OrNoMemory;
pub use laws::references_are_edges;
pub use text_lines::MOST_BYTES;
