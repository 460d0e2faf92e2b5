//! Tests of bytes and texts: sources and sinks, formulas that are read and printed, recordings and their refusals, and generated
//! recordings, used from outside through their contracts alone.
#![tactic(auto)]

#[cfg(test)]
mod checks;
#[cfg(test)]
mod io_edge_tests;
#[cfg(test)]
mod stl_grammar_tests;
#[cfg(test)]
mod stl_syntax_tests;
#[cfg(test)]
mod trace_reader_tests;
#[cfg(test)]
mod workload_tests;
