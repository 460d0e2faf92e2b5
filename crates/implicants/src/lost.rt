//! Where a node is newly lost: the times at which its chain is less than the best, though none of its runs has them. What is found says
//! where to look, and nothing is claimed of it.

use crate::runs::{Run, add_short, has_begin, has_end, run_at, run_for};
use frac128::{Frac, Memory, Span};
use pieces::Pieces;
use std::alloc::Global;
use value_laws::Kleene;

/// Times between which a node is lost: less certain than is best, though no run of it says so yet.
#[derive(Clone, Copy)]
pub(crate) struct Region {
    pub(crate) from: Frac,
    pub(crate) to: Frac,
}

/// From when on no run has the piece: from where it begins, or from where the run that has its begin ends. None where that run has all
/// of it.
fn lost_from(runs: &[Run], piece: &Span) -> Option<Frac> {
    let j = run_for(runs, piece);
    if j >= runs.len() {
        return Some(piece.from);
    }
    let on = runs[j].on;
    if !has_begin(&on, piece) {
        return Some(piece.from);
    }
    if has_end(&on, piece) {
        return None;
    }
    Some(on.to)
}

/// Up to when no run has the piece, of which none has it from `from` on: to where it ends, or to where the run that has its end begins.
fn lost_to(runs: &[Run], piece: &Span, from: &Frac) -> Frac {
    let j = run_at(runs, &piece.to);
    if j >= runs.len() {
        return piece.to;
    }
    let begin = runs[j].on.from;
    if !begin.cmp(&piece.to).is_lt() {
        return piece.to;
    }
    if from.cmp(&begin).is_lt() {
        begin
    } else {
        *from
    }
}

/// The region that was found so far, with the part of one more piece that no run has.
fn with_piece(runs: &[Run], piece: &Span, found: Option<Region>) -> Option<Region> {
    let Some(from) = lost_from(runs, piece) else {
        return found;
    };
    let to = lost_to(runs, piece, &from);
    match found {
        Some(before) => Some(Region {
            from: before.from,
            to,
        }),
        None => Some(Region { from, to }),
    }
}

/// Between which times the chain of the node at place `k` is less than the best, though the runs of the node do not have it.
pub(crate) fn region_of(
    alloc: Global,
    runs: &[Run],
    k: u32,
    best: bool,
    x: &Pieces<Kleene>,
) -> Result<Option<Region>, Memory> {
    let mut pieces = Vec::new(alloc);
    add_short(k, best, x, &mut pieces)?;
    let mut found = None;
    for j in 0..pieces.len() {
        found = with_piece(runs, &pieces[j].on, found);
    }
    Ok(found)
}

/// Whether the piece touches the region.
pub(crate) fn touches_region(piece: &Span, region: Region) -> bool {
    piece.to.cmp(&region.from).is_ge() && piece.from.cmp(&region.to).is_le()
}
