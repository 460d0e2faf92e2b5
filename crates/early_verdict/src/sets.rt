//! The two sets of a node: the times at which it is certainly true, and those at which it is certainly false.
ghost use Rattle.std.specs.Prelude.{◌≡◌, None};
ghost use Rattle.early_verdict.specs.Fitting.{AreEmpty, ArePartsEmpty};
ghost use Rattle.early_verdict.specs.Making.{HasPartBounds, HasPartsFor};

use growing_sets::{Grown, Stretch};
use std::alloc::Global;

/// For an until or since: the sets by which that of the times at which it is certainly true grows from those of its operands.
#[derive(Drop)]
pub(crate) struct Holding {
    /// The times at which both operands are certainly true.
    pub(crate) both: Grown,
    /// The times from which the left operand is certainly true on to one of `both`; for since back to one.
    pub(crate) run: Grown,
    /// The times whose window has one at which the right operand is certainly true.
    pub(crate) some: Grown,
    /// The times from which each one up to the window is one of `run`.
    pub(crate) each: Grown,
    /// For since, whether `run` is carried on from before its bounds.
    pub(crate) carried: bool,
}

/// For an until or since: the sets by which that of the times at which it is certainly false grows from those of its operands.
#[derive(Drop)]
pub(crate) struct Failing {
    /// The times at which an operand is certainly false.
    pub(crate) fail: Grown,
    /// The times from which an operand is certainly false all along to one at which the left one is; for since back to one.
    pub(crate) stop: Grown,
    /// The times in whose whole window the right operand is certainly false.
    pub(crate) never: Grown,
    /// The times from which some one up to the window is one of `stop`.
    pub(crate) broken: Grown,
    /// For since, whether `stop` is carried on from before its bounds.
    pub(crate) carried: bool,
}

/// The sets between those of until or since and those of its operands.
#[derive(Drop)]
pub(crate) struct Parts {
    pub(crate) holding: Holding,
    pub(crate) failing: Failing,
}

/// Where a node is certainly true, and where certainly false; and the sets between, of until and since.
#[derive(Drop)]
pub(crate) struct Sets {
    pub(crate) yes: Grown,
    pub(crate) no: Grown,
    pub(crate) parts: Option<Parts>,
}

/// The sets of all nodes, in post-order.
#[derive(Drop)]
pub(crate) struct Net {
    /// What each node's step goes on from: from the times on that are not decided yet, or are asked for no more.
    pub(crate) live: Vec<Sets>,
    /// What a node shows the one above it: from the times on that this one still asks for.
    pub(crate) shown: Vec<Sets>,
    /// How many rows came since the sets last let go.
    pub(crate) rows: u32,
}

impl Parts {
    /// No times yet, of an until or a since that is asked within the bounds and whose left operand has the sets `left`.
    fn new(alloc: Global, bounds: Stretch, left: &Sets) -> Parts
        ensures bounds { HasPartBounds bounds left.now result }
        ensures empty { ArePartsEmpty result }
    {
        Parts {
            holding: Holding {
                both: Grown::new(alloc, left.yes.bounds()),
                run: Grown::new(alloc, left.yes.bounds()),
                some: Grown::new(alloc, bounds),
                each: Grown::new(alloc, bounds),
                carried: false,
            },
            failing: Failing {
                fail: Grown::new(alloc, left.no.bounds()),
                stop: Grown::new(alloc, left.no.bounds()),
                never: Grown::new(alloc, bounds),
                broken: Grown::new(alloc, bounds),
                carried: false,
            },
        }
    }
}

impl Sets {
    /// The sets of a node within its bounds before anything is known: no time of either truth.
    pub(crate) fn new(alloc: Global, bounds: Stretch) -> Sets
        ensures yes { result.yes.bounds ≡ bounds }
        ensures no { result.no.bounds ≡ bounds }
        ensures parts { result.parts ≡ None }
        ensures empty { AreEmpty result }
    {
        Sets {
            yes: Grown::new(alloc, bounds),
            no: Grown::new(alloc, bounds),
            parts: None,
        }
    }

    /// No times yet, of an until or a since whose left operand has the sets `left`.
    pub(crate) fn with_parts(alloc: Global, bounds: Stretch, left: &Sets) -> Sets
        ensures yes { result.yes.bounds ≡ bounds }
        ensures no { result.no.bounds ≡ bounds }
        ensures parts { HasPartsFor bounds left.now result }
        ensures empty { AreEmpty result }
    {
        Sets {
            yes: Grown::new(alloc, bounds),
            no: Grown::new(alloc, bounds),
            parts: Some(Parts::new(alloc, bounds, left)),
        }
    }
}
