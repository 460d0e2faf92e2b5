//! The edges between the nodes, on which verdicts lie.

use stl_syntax::Verdict;

/// For each node the verdicts that its reader may still need and the number noted last, and the time of the first row.
pub type Edges = node_edges::Edges<Verdict>;
