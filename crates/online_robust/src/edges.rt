//! The edges between the nodes, on which the parts of margins lie.

use crate::line::MarginLine;

/// For each node the parts that its reader may still need and the number noted last, and the time of the first row.
pub(crate) type Edges = node_edges::Edges<MarginLine>;
