// The part of Graphviz's DOT language that drawings of heaps need: specs/ defines it; here it is written piece by
// piece.
#![tactic(auto)]

mod laws;
mod write;

pub use laws::graphs_balance;
pub use write::{
    add_attribute, begin_cluster, begin_edge, begin_graph, begin_node, end_braces, end_statement,
    set_attribute,
};
