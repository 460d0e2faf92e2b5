//! The network of a formula's streamed margins.
//!
//! After each row, and at the end, every node goes on to its number. The network stores no history: what it shows is, for each past
//! that it stands for, what the past says.

ghost use Rattle.std.specs.Prelude.{◌≡◌, ◌≢◌, ◌<◌, ◌-◌, ◌++◌, ◌∷◌, [], ℕ, List, length, slice_get, IfOk, IfErr, IfSome};
ghost use Rattle.std.specs.Prelude.{IfNone, MatchOption, MatchResult, OnOk, OnErr, Some, None, true, false, pos, option_map};
ghost use Rattle.stl_syntax.specs.Trace.{Header};
ghost use Rattle.stl_syntax.specs.declared.node.Node.{Node as ANode};
ghost use Rattle.atom_lines.specs.Binding.{Binding, IsBound};
ghost use Rattle.online_robust.specs.Held.{held_at};
ghost use Rattle.online_robust.specs.Firsts.{AreFirstStations};
ghost use Rattle.online_nodes.specs.StreamedWide.{IsUnstreamed};
ghost use Rattle.online_robust.specs.Pasts.{Past, shown_of, with_row, with_end};
ghost use Rattle.online_robust.specs.Nets.{begun, CanGoByRow, CanGoByEnd, HasGone, IsFaultAt, IsGoFault, Passing};
ghost use Rattle.online_robust.specs.Refusing.{told_by};
ghost use Rattle.online_robust.specs.declared.line.MarginLine.{MarginLine as Line};

use crate::edges::Edges;
use crate::line::MarginLine;
use crate::station::{Station, from_start, work_of};
use atom_lines::Bound;
use frac128::Memory;
use offline_eval::WideCause;
use pl_signal::{OpFault, WidePair};
use std::alloc::Global;
use std::marker::Model;
use stl_syntax::{Formula, horizon_of};
use trace_reader::Row;
use value_laws::Margin;

/// Why a row or the end was refused.
#[derive(Clone, Copy, Debug)]
pub enum RobustFault {
    /// Functions in play at a node need a denominator of 2^60 or more. The network is stopped.
    Wide(WideCause<Margin>),
    /// An earlier call answered `Wide` or `Memory`.
    Stopped,
    /// The end came before.
    Closed,
    /// There was no memory. The network is stopped.
    Memory,
}

/// The nodes of a formula, the edges between them, and the last row.
///
/// Contracts see it as `Parts`. `StandsFor` says when it stands for a past.
#[derive(Drop)]
pub struct RobustNet {
    alloc: Global,
    edges: Edges,
    stations: Vec<Station>,
    bound: Bound,
    last: Option<Row>,
    closed: bool,
    stopped: bool,
}

impl Model for RobustNet {
    ghost use Rattle.online_robust.specs.Nets.{Parts};

    ghost Value = { Parts };

    ghost use Rattle.online_robust.specs.Nets.{HasPast};

    ghost view = { λ n. record { edges = n.edges; stations = n.stations.items; bound = n.bound; last = n.last; closed = n.closed; stopped = n.stopped } };

    ghost invariant = { λ n. HasPast (record {
      edges = n.edges;
      stations = n.stations.items;
      bound = n.bound;
      last = n.last;
      closed = n.closed;
      stopped = n.stopped;
    }) };
}

/// What was refused, or want of memory.
fn refused(fault: Option<WidePair<Margin>>) -> OpFault<Margin>
    ensures { result ≡ told_by fault }
{
    match fault {
        Some(pair) => OpFault::Wide(pair),
        None => OpFault::Memory,
    }
}

/// The fault of a node.
fn fault_at(node: u32, fault: OpFault<Margin>) -> RobustFault
    ensures { IsFaultAt node fault result }
{
    match fault {
        OpFault::Memory => RobustFault::Memory,
        OpFault::Wide(pair) => RobustFault::Wide(WideCause { node, pair }),
    }
}

/// The nodes of a formula, before any row.
fn stations_of(alloc: Global, formula: &Formula) -> Result<Vec<Station>, Memory>
    requires { (i : ℕ) (n : ANode) → slice_get formula.now.nodes i ≡ Some n → ¬ IsUnstreamed n }
    ensures { IfOk result (λ v. AreFirstStations formula.now.nodes (length formula.now.nodes) v.items) }
{
    let mut stations = Vec::new(alloc);
    let mut horizons: Vec<u64> = Vec::new(alloc);
    for i in 0..formula.len() {
        let node = formula.node(i);
        let horizon = horizon_of(&horizons, node);
        let Ok(()) = horizons.push(horizon) else {
            return Err(Memory);
        };
        let station = Station {
            ahead: horizon as u32,
            work: work_of(node),
        };
        let Ok(()) = stations.push(station) else {
            return Err(Memory);
        };
    }
    Ok(stations)
}

/// Notes the time of the first row.
fn begin_at(edges: &mut Edges, before: &Option<Row>, now: u32)
    requires { before.now ≡ None → edges.old.start ≡ None }
    ensures { edges.new ≡ begun edges.old before.now now }
{
    match before {
        None => edges.begin(now),
        Some(_) => {}
    }
}

/// Keeps a row in the place of the last one.
#[inline(always)]
fn keep_row(last: &mut Option<Row>, row: &Row) -> Result<(), Memory>
    ensures kept { OnOk result (last.new ≡ Some row.now) }
    ensures memory { OnErr result (last.new ≡ last.old) }
{
    if let Some(kept) = last {
        kept.take_over(row);
        return Ok(());
    }
    *last = Some(row.copy()?);
    Ok(())
}

/// Every node goes on by a row, after the one before.
fn take_row_all(
    alloc: Global,
    edges: &mut Edges,
    stations: &mut Vec<Station>,
    bound: &Bound,
    before: &Option<Row>,
    row: &Row,
) -> Result<(), RobustFault>
    requires { (p : Passing) × CanGoByRow p edges.old stations.old.items bound.now before.now row.now }
    ensures gone { (p : Passing) → CanGoByRow p edges.old stations.old.items bound.now before.now row.now
        → OnOk result (HasGone p edges.new stations.new.items) }
    ensures fault { (p : Passing) → CanGoByRow p edges.old stations.old.items bound.now before.now row.now → IfErr result (IsGoFault p) }
    ensures nodes { length stations.new.items ≡ length stations.old.items }
{
    let mut fault = None;
    for i in 0..stations.len() {
        match stations[i].take_row(alloc, edges, i as u32, bound, before, row, &mut fault) {
            Ok(()) => {}
            Err(Memory) => return Err(fault_at(i as u32, refused(fault))),
        }
    }
    Ok(())
}

/// Every node goes on by the end.
fn take_end_all(
    alloc: Global,
    edges: &mut Edges,
    stations: &mut Vec<Station>,
    now: u32,
) -> Result<(), RobustFault>
    requires { (p : Passing) × CanGoByEnd p edges.old stations.old.items now }
    ensures gone { (p : Passing) → CanGoByEnd p edges.old stations.old.items now → OnOk result (HasGone p edges.new stations.new.items) }
    ensures fault { (p : Passing) → CanGoByEnd p edges.old stations.old.items now → IfErr result (IsGoFault p) }
    ensures nodes { length stations.new.items ≡ length stations.old.items }
{
    let mut fault = None;
    for i in 0..stations.len() {
        match stations[i].take_end(alloc, edges, i as u32, now, &mut fault) {
            Ok(()) => {}
            Err(Memory) => return Err(fault_at(i as u32, refused(fault))),
        }
    }
    Ok(())
}

impl RobustNet {
    ghost use Rattle.online_robust.specs.Nets.{no_past, AreAllGiven, IsClosed, IsFault, IsFed, IsHeldBy, IsNear, IsTaken, IsWideIn, left_of, next_of};
    ghost use Rattle.online_robust.specs.Nets.{StandsFor};
    ghost use Rattle.std.specs.Option.{option_copied};

    /// The network of a formula that is bound to a header's columns, and has no until and no since. It stands for no rows.
    ///
    /// # Errors
    ///
    /// `Memory` where there is no memory.
    pub fn new(alloc: Global, formula: &Formula, bound: Bound) -> Result<RobustNet, Memory>
        requires bound { (header : Header) × IsBound bound formula.now header }
        requires streamed { (i : ℕ) (n : ANode) → slice_get formula.now.nodes i ≡ Some n → ¬ IsUnstreamed n }
        ensures stands { (header : Header) → IsBound bound formula.now header
            → IfOk result (λ net. StandsFor formula.now.nodes header net no_past []) }
        ensures nodes { IfOk result (λ net. length net.stations ≡ length formula.now.nodes) }
        ensures bound { IfOk result (λ net. net.bound ≡ bound) }
        ensures no_row { IfOk result (λ net. net.last ≡ None) }
    {
        let stations = stations_of(alloc, formula)?;
        let edges = Edges::new(alloc, formula.len())?;
        Ok(RobustNet {
            alloc,
            edges,
            stations,
            bound,
            last: None,
            closed: false,
            stopped: false,
        })
    }

    /// The next row: every node goes on to the number that it may have.
    ///
    /// # Errors
    ///
    /// `Stopped` where an earlier call answered `Wide` or `Memory`, and `Closed` after the end; nothing changes then. `Wide` where
    /// functions in play at a node need a denominator of 2^60 or more, by what the rows have settled, and `Memory` where there is no
    /// memory; then the network is stopped.
    pub fn feed(&mut self, row: &Row) -> Result<(), RobustFault>
        requires width { length row.now.values ≡ self.old.bound.width }
        requires later { IfSome self.old.last (λ r. r.time < row.now.time) }
        ensures answer { MatchResult result (λ _. IsFed self.old self.new row.now) (IsFault self.old self.new) }
        ensures stands { (nodes : List ANode) (header : Header) (past : Past) (given : List Line) → StandsFor nodes header self.old past given
            → IfOk result (λ _. StandsFor nodes header self.new (with_row past row.now) given) }
        ensures wide { (nodes : List ANode) (header : Header) (past : Past) (given : List Line) → StandsFor nodes header self.old past given
            → IfErr result (IsWideIn nodes header past (with_row past row.now)) }
        ensures nodes { length self.new.stations ≡ length self.old.stations }
        ensures last { IfErr result (λ _. self.new.last ≡ self.old.last) }
        ensures bound { self.new.bound ≡ self.old.bound }
    {
        if self.stopped {
            return Err(RobustFault::Stopped);
        }
        if self.closed {
            return Err(RobustFault::Closed);
        }
        let now = row.time();
        begin_at(&mut self.edges, &self.last, now);
        match take_row_all(
            self.alloc,
            &mut self.edges,
            &mut self.stations,
            &self.bound,
            &self.last,
            row,
        ) {
            Ok(()) => {
                let Ok(()) = keep_row(&mut self.last, row) else {
                    self.stopped = true;
                    return Err(RobustFault::Memory);
                };
                Ok(())
            }
            Err(fault) => {
                self.stopped = true;
                Err(fault)
            }
        }
    }

    /// The end of the rows: every node goes on to the last row's time.
    ///
    /// # Errors
    ///
    /// As `feed`.
    pub fn close(&mut self) -> Result<(), RobustFault>
        requires { self.old.last ≢ None }
        ensures answer { MatchResult result (λ _. IsClosed self.old self.new) (IsFault self.old self.new) }
        ensures stands { (nodes : List ANode) (header : Header) (past : Past) (given : List Line) → StandsFor nodes header self.old past given
            → IfOk result (λ _. StandsFor nodes header self.new (with_end past) given) }
        ensures wide { (nodes : List ANode) (header : Header) (past : Past) (given : List Line) → StandsFor nodes header self.old past given
            → IfErr result (IsWideIn nodes header past (with_end past)) }
        ensures nodes { length self.new.stations ≡ length self.old.stations }
        ensures last { self.new.last ≡ self.old.last }
        ensures bound { self.new.bound ≡ self.old.bound }
    {
        if self.stopped {
            return Err(RobustFault::Stopped);
        }
        if self.closed {
            return Err(RobustFault::Closed);
        }
        let Some(row) = &self.last else {
            unreachable!()
        };
        let now = row.time();
        match take_end_all(self.alloc, &mut self.edges, &mut self.stations, now) {
            Ok(()) => {
                self.closed = true;
                Ok(())
            }
            Err(fault) => {
                self.stopped = true;
                Err(fault)
            }
        }
    }

    /// All times up to it are answered at the root; None where none is, and where the network is stopped. It takes no memory.
    pub fn front(&self) -> Option<u32>
        ensures stopped { self.now.stopped ≡ true → result ≡ None }
        ensures front { (nodes : List ANode) (header : Header) (past : Past) (given : List Line) → StandsFor nodes header self.now past given
            → option_map pos result ≡ shown_of nodes past (length nodes - 1) }
    {
        if self.stopped {
            return None;
        }
        let root = (self.stations.len() - 1) as u32;
        let start = self.edges.start()?;
        let number = self.edges.number(root)?;
        from_start(number, start)
    }

    /// The next point or gap of the root, where it stands: `take` takes it. None where all that it gave out was taken, and where the
    /// network is stopped.
    #[inline(always)]
    pub fn next(&self) -> Option<&MarginLine>
        ensures next { option_copied result ≡ next_of self.now }
        ensures near { IfSome (option_copied result) IsNear }
        ensures all { (nodes : List ANode) (header : Header) (past : Past) (given : List Line) → StandsFor nodes header self.now past given
            → IfNone (option_copied result) (AreAllGiven nodes header past given self.now) }
    {
        if self.stopped {
            return None;
        }
        let root = (self.stations.len() - 1) as u32;
        self.edges.ahead(root)
    }

    /// The next point or gap of the root; None where all that it gave out was taken, and where the network is stopped. It takes no
    /// memory.
    #[inline(always)]
    pub fn take(&mut self) -> Option<MarginLine>
        ensures next { result ≡ next_of self.old }
        ensures stopped { self.old.stopped ≡ true → (result ≡ None) × (self.new ≡ self.old) }
        ensures taken { (nodes : List ANode) (header : Header) (past : Past) (given : List Line) → StandsFor nodes header self.old past given
            → IsTaken nodes header past given self.new result }
        ensures near { IfSome result IsNear }
        ensures fewer { IfSome result (λ _. left_of self.new < left_of self.old) }
        ensures nodes { length self.new.stations ≡ length self.old.stations }
        ensures bound { self.new.bound ≡ self.old.bound }
        ensures last { self.new.last ≡ self.old.last }
        ensures closed { self.new.closed ≡ self.old.closed }
        ensures running { self.new.stopped ≡ self.old.stopped }
    {
        if self.stopped {
            return None;
        }
        let root = (self.stations.len() - 1) as u32;
        self.edges.take(root)
    }

    /// How many parts stand on the node's edge; 0 where the network is stopped.
    pub fn held(&self, node: u32) -> usize
        requires { node < length self.now.stations }
        ensures stopped { self.now.stopped ≡ true → result ≡ 0 }
        ensures held { (nodes : List ANode) (header : Header) (past : Past) (given : List Line) → StandsFor nodes header self.now past given
            → IsHeldBy nodes header past (length given) node result }
    {
        if self.stopped {
            return 0;
        }
        self.edges.held(node)
    }
}
