// Statements, written piece by piece.

ghost use Rattle.std.specs.Prelude.{◌≡◌, ◌++◌, OnOk};
ghost use Rattle.dot_text.specs.Dot.{attribute, setting, node_begin, edge_begin, statement_end, graph_begin, cluster_begin, braces_end};

use quoted_text::add_quoted;
use std::alloc::AllocError;

/// Adds an attribute of the node or edge begun.
pub fn add_attribute(text: &mut Vec<u8>, name: &[u8], value: &[u8]) -> Result<(), AllocError>
    ensures { OnOk result (text.new.items ≡ text.old.items ++ attribute (name.now, value.now)) }
{
    add_quoted(text, name)?;
    text.push(b'=')?;
    add_quoted(text, value)?;
    text.push(b' ')?;
    Ok(())
}

/// Sets an attribute of the graph or cluster begun.
pub fn set_attribute(text: &mut Vec<u8>, name: &[u8], value: &[u8]) -> Result<(), AllocError>
    ensures { OnOk result (text.new.items ≡ text.old.items ++ setting name.now value.now) }
{
    add_quoted(text, name)?;
    text.push(b'=')?;
    add_quoted(text, value)?;
    text.extend_from_slice(b";\n")
}

/// Begins a node.
pub fn begin_node(text: &mut Vec<u8>, name: &[u8]) -> Result<(), AllocError>
    ensures { OnOk result (text.new.items ≡ text.old.items ++ node_begin name.now) }
{
    add_quoted(text, name)?;
    text.extend_from_slice(b" [")
}

/// Begins an edge from a port of a node to a node.
pub fn begin_edge(
    text: &mut Vec<u8>,
    source: &[u8],
    port: &[u8],
    target: &[u8],
) -> Result<(), AllocError>
    ensures { OnOk result (text.new.items ≡ text.old.items ++ edge_begin source.now port.now target.now) }
{
    add_quoted(text, source)?;
    text.push(b':')?;
    add_quoted(text, port)?;
    text.extend_from_slice(b" -> ")?;
    add_quoted(text, target)?;
    text.extend_from_slice(b" [")
}

/// Ends a node or an edge.
pub fn end_statement(text: &mut Vec<u8>) -> Result<(), AllocError>
    ensures { OnOk result (text.new.items ≡ text.old.items ++ statement_end) }
{
    text.extend_from_slice(b"];\n")
}

/// Begins a graph.
pub fn begin_graph(text: &mut Vec<u8>, name: &[u8]) -> Result<(), AllocError>
    ensures { OnOk result (text.new.items ≡ text.old.items ++ graph_begin name.now) }
{
    text.extend_from_slice(b"digraph ")?;
    add_quoted(text, name)?;
    text.extend_from_slice(b" {\n")
}

/// Begins a cluster, or continues it if one of its name was begun in the same graph or cluster.
pub fn begin_cluster(text: &mut Vec<u8>, name: &[u8]) -> Result<(), AllocError>
    ensures { OnOk result (text.new.items ≡ text.old.items ++ cluster_begin name.now) }
{
    text.extend_from_slice(b"subgraph ")?;
    add_quoted(text, name)?;
    text.extend_from_slice(b" {\n")
}

/// Ends a graph or a cluster.
pub fn end_braces(text: &mut Vec<u8>) -> Result<(), AllocError>
    ensures { OnOk result (text.new.items ≡ text.old.items ++ braces_end) }
{
    text.extend_from_slice(b"}\n")
}
