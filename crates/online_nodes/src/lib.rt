//! Streaming operators: the edges of a network, the writer of a node's verdicts, the bodies of all nodes with
//! what they let go, the operator of a node with its step, and the laws on which operators rest.
#![tactic(auto)]

mod answering;
mod edges;
mod join;
mod kind;
mod laws;
mod negation;
mod operator;
mod since;
mod until;
mod window;
mod writer;

pub use edges::Edges;
pub use laws::{
    connectives_join, each_has_one_reader, edges_grow, emitted_is_whole, emitted_stays,
    fronts_are_times, has_times_between, joined_are_few, meeting_is_what_is_left,
    meeting_later_is_what_is_left, numbers_never_fall, numbers_settle,
    numbers_stay_within_horizons, open_numbers_settle, others_give_nothing,
    plain_edges_hold_segments, root_edges_grow, since_remembers_what_it_knows,
    taken_were_given_out, until_and_since_look, until_remembers_what_it_knows, windows_look,
};
pub use operator::Operator;
pub use writer::Out;
