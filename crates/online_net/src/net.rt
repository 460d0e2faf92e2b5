//! The network of a formula's operators.
//!
//! A network stands for a run of events, a row, a step of a node, the end, a verdict taken, in whatever order they came. It stores
//! no history: what it shows is, for each run that it stands for, what the run says.

ghost use Rattle.std.specs.Prelude.{ℕ, ◌≡◌, ◌<◌, ◌≤◌, ◌+◌, ◌-◌, ◌↔◌, ◌++◌, ◌∷◌, [], List, length, IfOk, OnOk, IfSome, IfNone};
ghost use Rattle.std.specs.Prelude.{slice_get, IsTrue, MatchBool, MatchResult, Some, None, true, false, pos, option_map, ◌≢◌};
ghost use Rattle.stl_syntax.specs.Trace.{Header};
ghost use Rattle.stl_syntax.specs.WellFormed.{IsWellFormed};
ghost use Rattle.stl_syntax.specs.declared.node.Node.{Node as ANode};
ghost use Rattle.atom_lines.specs.Binding.{IsBound};
ghost use Rattle.online_nodes.specs.Network.{Event, row as came, step as stepped, close as ended, take as taken, state, shown, node_is_atom, IsReady};
ghost use Rattle.online_nodes.specs.Held.{JoinsAlike, held_at};
ghost use Rattle.online_nodes.specs.Belonging.{Belongs, BelongsSomewhere};
ghost use Rattle.online_net.specs.Nets.{AreAtoms, Stands};
ghost use Rattle.online_net.specs.Steps.{AreFirstOperators, AreNewEdges, IsFirstOperator, IsStep, JoinsAllButRoot, JoinsNone};
ghost use Rattle.stl_syntax.specs.Trace.{Row as ARow, IsTrace};
ghost use Rattle.online_nodes.specs.Driven.{rows_of};
ghost use Rattle.atom_lines.specs.Rows.{row_of};
ghost use Rattle.online_net.specs.Stretches.{rows_between, StaysFrom};

use crate::atom::put_row;
use crate::stretch::{all_stay, put_rows};
use atom_lines::Bound;
use frac128::Memory;
use online_nodes::{Edges, Operator};
use std::alloc::Global;
use std::marker::Model;
use stl_syntax::{Formula, Node, Verdict};
use trace_reader::{Row, Trace};

/// Why a call was refused.
#[derive(Clone, Copy, Debug, PartialEq, Eq)]
pub enum NetFault {
    /// There was no memory. The network is stopped.
    Memory,
    /// An earlier call answered want of memory.
    Stopped,
    /// The end came before.
    Closed,
}

/// The operators of a formula, the edges between them, and the last row.
///
/// Contracts see it as `Parts`. `Stands` says when it stands for a run of events.
#[derive(Drop)]
pub struct Net {
    edges: Edges,
    /// None at an atom.
    operators: Vec<Option<Operator>>,
    /// The nodes of the atoms, so that they need not be looked for.
    atoms: Vec<u32>,
    bound: Bound,
    last: Option<Row>,
    closed: bool,
    stopped: bool,
}

impl Model for Net {
    ghost use Rattle.online_net.specs.Nets.{Parts};

    ghost Value = { Parts };

    ghost use Rattle.online_net.specs.Nets.{AreAtoms, HasPast};

    ghost view = { λ n. record { edges = n.edges; operators = n.operators.items; bound = n.bound; last = n.last; closed = n.closed; stopped = n.stopped } };

    ghost invariant = { λ n. HasPast (record {
      edges = n.edges;
      operators = n.operators.items;
      bound = n.bound;
      last = n.last;
      closed = n.closed;
      stopped = n.stopped;
    }) × AreAtoms n.atoms.items n.operators.items };
}

/// The operator of a node, before any step; none at an atom.
fn operator_at(formula: &Formula, node: u32) -> Option<Operator>
    requires { node < length formula.now.nodes }
    ensures { IsFirstOperator formula.now.nodes node result }
{
    match formula.node(node) {
        Node::Atom(_) => None,
        _ => Some(Operator::new(formula, node)),
    }
}

/// The operators of all nodes.
fn operators_of(alloc: Global, formula: &Formula) -> Result<Vec<Option<Operator>>, Memory>
    ensures { IfOk result (λ v. AreFirstOperators formula.now.nodes v.items (length formula.now.nodes)) }
{
    let mut operators = Vec::new(alloc);
    for i in 0..formula.len() {
        let Ok(()) = operators.push(operator_at(formula, i)) else {
            return Err(Memory);
        };
    }
    Ok(operators)
}

/// The nodes without an operator, which are the atoms.
fn atoms_of(alloc: Global, operators: &[Option<Operator>]) -> Result<Vec<u32>, Memory>
    requires { length operators.now ≤ 256 }
    ensures { IfOk result (λ v. AreAtoms v.items operators.now) }
{
    let mut atoms = Vec::new(alloc);
    for i in 0..operators.len() {
        if operators[i].is_none() {
            let Ok(()) = atoms.push(i as u32) else {
                return Err(Memory);
            };
        }
    }
    Ok(atoms)
}

/// The edges of so many nodes. Each but the last one, the root's, joins neighbours of one truth.
fn joining_edges(alloc: Global, count: u32) -> Result<Edges, Memory>
    requires { 0 < count }
    ensures new { IfOk result (AreNewEdges count) }
    ensures joins { IfOk result (JoinsAllButRoot count) }
{
    let mut edges = Edges::new(alloc, count)?;
    for i in 0..count - 1 {
        edges.join(i);
    }
    Ok(edges)
}

/// The network of a formula over edges that hold nothing.
fn over(alloc: Global, formula: &Formula, bound: Bound, edges: Edges) -> Result<Net, Memory>
    requires formed { IsWellFormed formula.now }
    requires bound { (header : Header) × IsBound bound formula.now header }
    requires edges { AreNewEdges (length formula.now.nodes) edges }
    ensures stands { (header : Header) → IsBound bound formula.now header → IfOk result (λ net. Stands formula.now.nodes header net []) }
    ensures nodes { IfOk result (λ net. length net.operators ≡ length formula.now.nodes) }
    ensures bound { IfOk result (λ net. net.bound ≡ bound) }
    ensures no_row { IfOk result (λ net. net.last ≡ None) }
    ensures edges { IfOk result (λ net. net.edges ≡ edges) }
{
    let operators = operators_of(alloc, formula)?;
    let atoms = atoms_of(alloc, &operators)?;
    Ok(Net {
        edges,
        operators,
        atoms,
        bound,
        last: None,
        closed: false,
        stopped: false,
    })
}

/// The time of a row, if there is one.
fn time_of(row: &Option<Row>) -> Option<u32>
    ensures { result ≡ option_map (λ (r : ARow). r.time) row.now }
{
    match row {
        Some(r) => Some(r.time()),
        None => None,
    }
}

/// Keeps a row in the place of the last one.
#[inline(always)]
fn keep_row(last: &mut Option<Row>, row: &Row) -> Result<(), Memory>
    ensures { OnOk result (last.new ≡ Some row.now) }
{
    if let Some(kept) = last {
        kept.take_over(row);
        return Ok(());
    }
    *last = Some(row.copy()?);
    Ok(())
}

/// Keeps a row of a block in the place of the last one.
#[inline(always)]
fn keep_row_of(last: &mut Option<Row>, block: &Trace, r: usize)
    requires within { r < length block.now.rows }
    requires some { last.old ≢ None }
    requires width { IfSome last.old (λ q. length q.values ≡ length block.now.header.columns) }
    ensures row { last.new ≡ Some (row_of block.now r) }
    ensures trace { IsTrace block.now }
{
    match last {
        Some(kept) => block.copy_row(r, kept),
        None => {}
    }
}

/// One step of an operator. False where it is not ready, and then nothing changes.
fn step_one(
    edges: &mut Edges,
    operator: &mut Operator,
    now: u32,
    ended: bool,
) -> Result<bool, Memory>
    requires { BelongsSomewhere operator.old edges.old now ended }
    ensures idle { IfOk result (λ moved. moved ≡ false → edges.new ≡ edges.old) }
    ensures idle_operator { IfOk result (λ moved. moved ≡ false → operator.new ≡ operator.old) }
    ensures stepped { (nodes : List ANode) (header : Header) (events : List Event) → Belongs nodes header events operator.old edges.old now ended
        → IfOk result (λ moved. MatchBool moved (IsStep nodes header events operator.old edges.old edges.new now ended operator.new)
        (¬ IsReady nodes (state nodes events) operator.old.node)) }
{
    let moved = operator.advance(edges, now, ended)?;
    if !moved {
        return Ok(false);
    }
    Ok(true)
}

impl Net {
    ghost use Rattle.online_net.specs.Nets.{IsClosed, IsCloseFault, IsFed, IsFeedFault, IsNext, IsStepFault, IsStepped};

    /// The network of a formula that is bound to a header's columns. It stands for the empty run. No edge of it joins.
    ///
    /// # Errors
    ///
    /// `Memory` where there is no memory.
    pub fn new(alloc: Global, formula: &Formula, bound: Bound) -> Result<Net, Memory>
        requires { (header : Header) × IsBound bound formula.now header }
        ensures stands { (header : Header) → IsBound bound formula.now header → IfOk result (λ net. Stands formula.now.nodes header net []) }
        ensures nodes { IfOk result (λ net. length net.operators ≡ length formula.now.nodes) }
        ensures bound { IfOk result (λ net. net.bound ≡ bound) }
        ensures no_row { IfOk result (λ net. net.last ≡ None) }
        ensures joins { IfOk result (λ net. JoinsNone net.edges) }
    {
        let edges = Edges::new(alloc, formula.len())?;
        let net = over(alloc, formula, bound, edges)?;
        Ok(net)
    }

    /// As `new`, but each edge except the root's joins: neighbours of one truth may stand there as one verdict, as long as they are not
    /// read. So it holds less and its nodes read less, and `held` says no more how many verdicts a node gave out.
    ///
    /// # Errors
    ///
    /// As `new`.
    pub fn joining(alloc: Global, formula: &Formula, bound: Bound) -> Result<Net, Memory>
        requires { (header : Header) × IsBound bound formula.now header }
        ensures stands { (header : Header) → IsBound bound formula.now header → IfOk result (λ net. Stands formula.now.nodes header net []) }
        ensures nodes { IfOk result (λ net. length net.operators ≡ length formula.now.nodes) }
        ensures bound { IfOk result (λ net. net.bound ≡ bound) }
        ensures no_row { IfOk result (λ net. net.last ≡ None) }
        ensures joins { IfOk result (λ net. JoinsAllButRoot (length formula.now.nodes) net.edges) }
    {
        let edges = joining_edges(alloc, formula.len())?;
        let net = over(alloc, formula, bound, edges)?;
        Ok(net)
    }

    /// The next row: each atom gives out its verdicts up to it.
    ///
    /// # Errors
    ///
    /// `Stopped` where an earlier call answered `Memory`, and `Closed` after the end; nothing changes then. `Memory` where there is
    /// no memory, and then the network is stopped.
    pub fn feed(&mut self, row: &Row) -> Result<(), NetFault>
        requires width { length row.now.values ≡ self.old.bound.width }
        requires later { IfSome self.old.last (λ r. r.time < row.now.time) }
        ensures answer { MatchResult result (λ _. IsFed self.old self.new row.now) (IsFeedFault self.old self.new) }
        ensures stands { (nodes : List ANode) (header : Header) (events : List Event) → Stands nodes header self.old events
            → IfOk result (λ _. Stands nodes header self.new (events ++ came row.now ∷ [])) }
        ensures nodes { length self.new.operators ≡ length self.old.operators }
        ensures bound { self.new.bound ≡ self.old.bound }
        ensures joins { OnOk result (JoinsAlike self.old.edges self.new.edges) }
    {
        if self.stopped {
            return Err(NetFault::Stopped);
        }
        if self.closed {
            return Err(NetFault::Closed);
        }
        let Ok(()) = put_row(
            &mut self.edges,
            &self.operators,
            &self.bound,
            &self.last,
            row,
        ) else {
            self.stopped = true;
            return Err(NetFault::Memory);
        };
        let Ok(()) = keep_row(&mut self.last, row) else {
            self.stopped = true;
            return Err(NetFault::Memory);
        };
        Ok(())
    }

    /// The rows of a block behind row `from`, which is the last row that came, up to row `to`: as `feed` of each of them in turn. But on an
    /// edge that joins an atom's verdict is one for as many rows as its truth goes on.
    ///
    /// # Errors
    ///
    /// As `feed`. Where it is `Memory` it may have come at any of the rows.
    pub fn feed_rows(&mut self, block: &Trace, from: usize, to: usize) -> Result<(), NetFault>
        requires columns { length block.now.header.columns ≡ self.old.bound.width }
        requires order { from < to }
        requires within { to < length block.now.rows }
        requires last { self.old.last ≡ Some (row_of block.now from) }
        ensures answer { MatchResult result (λ _. IsFed self.old self.new (row_of block.now to)) (IsFeedFault self.old self.new) }
        ensures stands { (nodes : List ANode) (header : Header) (events : List Event) → Stands nodes header self.old events
            → IfOk result (λ _. Stands nodes header self.new (events ++ rows_of (rows_between block.now from to))) }
        ensures nodes { length self.new.operators ≡ length self.old.operators }
        ensures bound { self.new.bound ≡ self.old.bound }
        ensures joins { OnOk result (JoinsAlike self.old.edges self.new.edges) }
    {
        if self.stopped {
            return Err(NetFault::Stopped);
        }
        if self.closed {
            return Err(NetFault::Closed);
        }
        let Ok(()) = put_rows(
            &mut self.edges,
            &self.operators,
            &self.bound,
            block,
            from,
            to,
        ) else {
            self.stopped = true;
            return Err(NetFault::Memory);
        };
        keep_row_of(&mut self.last, block, to);
        Ok(())
    }

    /// Whether each atom has one truth from row `at` of a block on, up to row `to`. It takes no memory, and changes nothing.
    pub fn stays(&self, block: &Trace, at: usize, to: usize) -> bool
        requires columns { length block.now.header.columns ≡ self.now.bound.width }
        requires order { at < to }
        requires within { to < length block.now.rows }
        ensures { IsTrue result → (j : ℕ) → slice_get self.now.operators j ≡ Some None → StaysFrom self.now.bound j block.now at to }
    {
        if self.stopped {
            return false;
        }
        all_stay(&self.atoms, &self.bound, block, at, to)
    }

    /// The end of the rows. It takes no memory.
    ///
    /// # Errors
    ///
    /// `Stopped` where an earlier call answered `Memory`, and `Closed` where the end came before; nothing changes then.
    pub fn close(&mut self) -> Result<(), NetFault>
        requires { self.old.last ≢ None }
        ensures answer { MatchResult result (λ _. IsClosed self.old self.new) (IsCloseFault self.old self.new) }
        ensures stands { (nodes : List ANode) (header : Header) (events : List Event) → Stands nodes header self.old events
            → IfOk result (λ _. Stands nodes header self.new (events ++ ended ∷ [])) }
    {
        if self.stopped {
            return Err(NetFault::Stopped);
        }
        if self.closed {
            return Err(NetFault::Closed);
        }
        self.closed = true;
        Ok(())
    }

    /// One step of a node: it takes what its children have ready. False where it was not ready, and then nothing changes; an atom
    /// moves with the rows, and is never ready.
    ///
    /// # Errors
    ///
    /// `Stopped` where an earlier call answered `Memory`; nothing changes then. `Memory` where there is no memory, and then the network
    /// is stopped. Never `Closed`.
    pub fn step(&mut self, node: u32) -> Result<bool, NetFault>
        requires { node < length self.old.operators }
        ensures answer { MatchResult result (IsStepped self.old self.new) (IsStepFault self.old self.new) }
        ensures moved { (nodes : List ANode) (header : Header) (events : List Event) → Stands nodes header self.old events
            → IfOk result (λ moved. IsTrue moved ↔ IsReady nodes (state nodes events) node) }
        ensures stands { (nodes : List ANode) (header : Header) (events : List Event) → Stands nodes header self.old events
            → node_is_atom nodes node ≡ false → IfOk result (λ _. Stands nodes header self.new (events ++ stepped node ∷ [])) }
        ensures nodes { length self.new.operators ≡ length self.old.operators }
        ensures bound { self.new.bound ≡ self.old.bound }
        ensures joins { OnOk result (JoinsAlike self.old.edges self.new.edges) }
    {
        if self.stopped {
            return Err(NetFault::Stopped);
        }
        let Some(row) = &self.last else {
            return Ok(false);
        };
        let now = row.time();
        let Some(operator) = &mut self.operators[node as usize] else {
            return Ok(false);
        };
        let Ok(moved) = step_one(&mut self.edges, operator, now, self.closed) else {
            self.stopped = true;
            return Err(NetFault::Memory);
        };
        if !moved {
            return Ok(false);
        }
        Ok(true)
    }

    /// Whether a step would move the node. It takes no memory. A stopped network is never ready.
    pub fn ready(&self, node: u32) -> bool
        requires { node < length self.now.operators }
        ensures stopped { self.now.stopped ≡ true → result ≡ false }
        ensures ready { (nodes : List ANode) (header : Header) (events : List Event) → Stands nodes header self.now events
            → IsTrue result ↔ IsReady nodes (state nodes events) node }
    {
        if self.stopped {
            return false;
        }
        let Some(row) = &self.last else {
            return false;
        };
        match &self.operators[node as usize] {
            Some(operator) => operator.ready(&self.edges, row.time(), self.closed),
            None => false,
        }
    }

    /// All times up to it are answered at the node; None where none is, and where the network is stopped. It takes no memory.
    pub fn front(&self, node: u32) -> Option<u32>
        requires { node < length self.now.operators }
        ensures stopped { self.now.stopped ≡ true → result ≡ None }
        ensures front { (nodes : List ANode) (header : Header) (events : List Event) → Stands nodes header self.now events
            → option_map pos result ≡ shown (state nodes events) node }
    {
        if self.stopped {
            return None;
        }
        match &self.operators[node as usize] {
            Some(operator) => operator.front(),
            None => time_of(&self.last),
        }
    }

    /// The next verdict of the root; None where all up to the root's front was taken, and where the network is stopped. It takes no
    /// memory.
    #[inline(always)]
    pub fn take(&mut self) -> Option<Verdict>
        ensures stopped { self.old.stopped ≡ true → result ≡ None }
        ensures unchanged { result ≡ None → self.new ≡ self.old }
        ensures next { (nodes : List ANode) (header : Header) (events : List Event) → Stands nodes header self.old events
            → IsNext nodes header events result }
        ensures stands { (nodes : List ANode) (header : Header) (events : List Event) → Stands nodes header self.old events
            → Stands nodes header self.new (events ++ taken ∷ []) }
        ensures nodes { length self.new.operators ≡ length self.old.operators }
        ensures bound { self.new.bound ≡ self.old.bound }
        ensures last { self.new.last ≡ self.old.last }
        ensures closed { self.new.closed ≡ self.old.closed }
        ensures running { self.new.stopped ≡ self.old.stopped }
        ensures joins { JoinsAlike self.old.edges self.new.edges }
    {
        if self.stopped {
            return None;
        }
        let root = (self.operators.len() - 1) as u32;
        if self.edges.held(root) == 0 {
            return None;
        }
        self.edges.take(root)
    }

    /// How many verdicts stand on the node's edge, of which those that were joined are one; 0 where the network is stopped.
    pub fn held(&self, node: u32) -> usize
        requires { node < length self.now.operators }
        ensures stopped { self.now.stopped ≡ true → result ≡ 0 }
        ensures held { self.now.stopped ≡ false → result ≡ length (held_at self.now.edges node) }
    {
        if self.stopped {
            return 0;
        }
        self.edges.held(node)
    }
}
