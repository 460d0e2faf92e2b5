//! Operators: each takes the verdicts that its node's inputs have ready, and gives out those of its node.

ghost use Rattle.std.specs.Prelude.{◌≡◌, ◌*◌, ◌+◌, ◌<◌, ◌≤◌, ◌<ℤ◌, ◌≤ℤ◌, ◌↔◌, ◌++◌, ◌∷◌, [], List, ℕ, pos};
ghost use Rattle.std.specs.Prelude.{IfOk, IsTrue, MatchOption, OnErr, OnOk, length, Some, None, true, false};
ghost use Rattle.stl_syntax.specs.Trace.{Header};
ghost use Rattle.online_nodes.specs.Network.{Event, step, state, node_is_atom, allowed_at, IsReady};
ghost use Rattle.stl_syntax.specs.declared.node.Node.{Node as ANode};
ghost use Rattle.online_nodes.specs.Held.{Held, edge_at};
ghost use Rattle.online_nodes.specs.Kinds.{held_in, inputs_of, keeps_marks};
ghost use Rattle.online_nodes.specs.Stepping.{Situation, IsBegun, IsDue, IsDueSomewhere, IsFor};

use crate::answering::{Marks, Outcome, answer, answer_plain, release};
use crate::edges::Edges;
use crate::kind::{Kind, is_same, kind_of_node};
use crate::writer::Out;
use frac128::{Cut, Memory};
use stl_syntax::Formula;

/// What a node keeps beside its edges, of a fixed size.
///
/// `reach` says up to where what was read counts, and `run` where the run of the left input of since began; both are set at the
/// first answer.
#[derive(Clone, Copy)]
pub struct Operator {
    node: u32,
    kind: Kind,
    front: Option<u32>,
    reach: Cut,
    run: Cut,
}

impl Operator {
    ghost use Rattle.online_nodes.specs.Belonging.{Belongs, BelongsSomewhere, HasStepped, StandsForSteps, held_by_inputs, is_ready, room_of_step};

    /// The operator of a node of the formula that is no atom. It takes no memory, and stands for no step.
    pub fn new(formula: &Formula, node: u32) -> Operator
        requires place { node < length formula.now.nodes }
        requires no_atom { node_is_atom formula.now.nodes node ≡ false }
        ensures node { result.node ≡ node }
        ensures front { result.front ≡ None }
        ensures stands { (header : Header) (edges : Held) → ((j : ℕ) → (edge_at edges j).seen ≡ [])
            → StandsForSteps formula.now.nodes header [] result edges }
    {
        Operator {
            node,
            kind: kind_of_node(formula.node(node)),
            front: None,
            reach: Cut::before_whole(0),
            run: Cut::before_whole(0),
        }
    }

    /// All instants up to it are given out; None where none is.
    pub fn front(&self) -> Option<u32>
        ensures { result ≡ self.now.front }
    {
        self.front
    }

    /// Whether a step would change the node's number. It takes no memory.
    pub fn ready(&self, edges: &Edges, now: u32, ended: bool) -> bool
        requires { BelongsSomewhere self.now edges.now now ended }
        ensures is { (nodes : List ANode) (header : Header) (events : List Event) → Belongs nodes header events self.now edges.now now ended
            → result ≡ is_ready nodes (state nodes events) self.now.node }
        ensures ready { (nodes : List ANode) (header : Header) (events : List Event) → Belongs nodes header events self.now edges.now now ended
            → IsTrue result ↔ IsReady nodes (state nodes events) self.now.node }
    {
        let allowed = self.kind.allowed(edges, now, ended);
        !is_same(allowed, edges.number(self.node))
    }

    /// Room for the verdicts of a step: at most twice what the inputs' edges hold, plus 2, and none where the node is not ready.
    pub fn need(&self, edges: &Edges, now: u32, ended: bool) -> usize
        requires { BelongsSomewhere self.now edges.now now ended }
        ensures room { (nodes : List ANode) (header : Header) (events : List Event) → Belongs nodes header events self.now edges.now now ended
            → result ≡ room_of_step nodes events self.now.node edges.now }
        ensures most { (nodes : List ANode) (header : Header) (events : List Event) → Belongs nodes header events self.now edges.now now ended
            → result ≤ 2 * held_by_inputs nodes self.now.node edges.now + 2 }
    {
        if self.ready(edges, now, ended) {
            return self.kind.room(edges);
        }
        0
    }

    /// The number that a step would come to; None where it would not change.
    fn due(&self, edges: &Edges, now: u32, ended: bool) -> Option<i64>
        requires { BelongsSomewhere self.now edges.now now ended }
        ensures { (nodes : List ANode) (header : Header) (events : List Event) → Belongs nodes header events self.now edges.now now ended
            → MatchOption result (is_ready nodes (state nodes events) self.now.node ≡ false)
            (λ f. (is_ready nodes (state nodes events) self.now.node ≡ true) × (allowed_at nodes (state nodes events) self.now.node ≡ Some f)) }
    {
        let allowed = self.kind.allowed(edges, now, ended);
        if is_same(allowed, edges.number(self.node)) {
            return None;
        }
        allowed
    }

    /// The writer of the stretch up to a front, on which nothing is written yet, and what is kept in mind as it begins.
    #[inline(always)]
    fn begin(&self, start: u32, front: u32) -> Outcome
        ensures { (x : Situation) → IsFor x start front → IsBegun x self.now result }
    {
        let to = Cut::after_whole(i64::from(front));
        let Some(before) = self.front else {
            let from = Cut::before_whole(i64::from(start));
            return Outcome {
                out: Out::new(self.node, from, to),
                marks: Marks {
                    reach: from,
                    run: from,
                },
            };
        };
        Outcome {
            out: Out::new(self.node, Cut::after_whole(i64::from(before)), to),
            marks: Marks {
                reach: self.reach,
                run: self.run,
            },
        }
    }

    /// As `step_to`, for a node that keeps nothing in mind.
    #[inline(always)]
    fn step_plain(&mut self, edges: &mut Edges, start: u32, front: u32) -> Result<(), Memory>
        requires due { IsDueSomewhere self.old edges.old start front }
        requires plain { keeps_marks self.old.kind ≡ false }
        ensures node { self.new.node ≡ self.old.node }
        ensures stepped { (x : Situation) → IsFor x start front → IsDue x self.old edges.old
            → OnOk result (HasStepped x.nodes x.header x.events self.old.node edges.old edges.new) }
        ensures stands { (x : Situation) → IsFor x start front → IsDue x self.old edges.old
            → OnOk result (StandsForSteps x.nodes x.header (x.events ++ step self.old.node ∷ []) self.new edges.new) }
        ensures memory { OnErr result (edges.old.spare < 2 * held_in edges.old (inputs_of self.old.kind) + 2) }
    {
        let begun = self.begin(start, front);
        answer_plain(edges, &self.kind, begun.out)?;
        // for the proof alone: what the edge holds can be counted, so what was put can
        let _all = edges.held(self.node);
        release(edges, self.kind, i64::from(front));
        edges.reach(self.node, i64::from(front));
        self.front = Some(front);
        Ok(())
    }

    /// A step to a front that is not below the start.
    fn step_to(&mut self, edges: &mut Edges, start: u32, front: u32) -> Result<(), Memory>
        requires { IsDueSomewhere self.old edges.old start front }
        ensures node { self.new.node ≡ self.old.node }
        ensures stepped { (x : Situation) → IsFor x start front → IsDue x self.old edges.old
            → OnOk result (HasStepped x.nodes x.header x.events self.old.node edges.old edges.new) }
        ensures stands { (x : Situation) → IsFor x start front → IsDue x self.old edges.old
            → OnOk result (StandsForSteps x.nodes x.header (x.events ++ step self.old.node ∷ []) self.new edges.new) }
        ensures memory { OnErr result (edges.old.spare < 2 * held_in edges.old (inputs_of self.old.kind) + 2) }
    {
        if !self.kind.keeps_marks() {
            return self.step_plain(edges, start, front);
        }
        let begun = self.begin(start, front);
        let marks = answer(edges, self.kind, begun.out, begun.marks)?;
        // for the proof alone: what the edge holds can be counted, so what was put can
        let _all = edges.held(self.node);
        release(edges, self.kind, i64::from(front));
        edges.reach(self.node, i64::from(front));
        self.front = Some(front);
        self.reach = marks.reach;
        self.run = marks.run;
        Ok(())
    }

    /// Takes all that the node's inputs have ready, appends the verdicts of the newly answered stretch to the node's own edge, and
    /// drops from the inputs' edges what is needed no more. False where the node was not ready, and then nothing changed.
    ///
    /// # Errors
    ///
    /// `Memory` where there is no memory, which comes only where the node is ready, and the spare is below twice what the inputs' edges
    /// hold, plus 2. The operator and its edges are given up then.
    pub fn advance(&mut self, edges: &mut Edges, now: u32, ended: bool) -> Result<bool, Memory>
        requires { BelongsSomewhere self.old edges.old now ended }
        ensures node { self.new.node ≡ self.old.node }
        ensures moved { (nodes : List ANode) (header : Header) (events : List Event) → Belongs nodes header events self.old edges.old now ended
            → IfOk result (λ moved. IsTrue moved ↔ IsReady nodes (state nodes events) self.old.node) }
        ensures idle { IfOk result (λ moved. moved ≡ false → self.new ≡ self.old) }
        ensures idle_edges { IfOk result (λ moved. moved ≡ false → edges.new ≡ edges.old) }
        ensures stepped { (nodes : List ANode) (header : Header) (events : List Event) → Belongs nodes header events self.old edges.old now ended
            → IfOk result (λ moved. HasStepped nodes header events self.old.node edges.old edges.new) }
        ensures belongs { (nodes : List ANode) (header : Header) (events : List Event) → Belongs nodes header events self.old edges.old now ended
            → IfOk result (λ moved. Belongs nodes header (events ++ step self.old.node ∷ []) self.new edges.new now ended) }
        ensures memory { (nodes : List ANode) (header : Header) (events : List Event) → Belongs nodes header events self.old edges.old now ended
            → OnErr result (IsReady nodes (state nodes events) self.old.node
            × (edges.old.spare < 2 * held_by_inputs nodes self.old.node edges.old + 2)) }
    {
        let Some(number) = self.due(edges, now, ended) else {
            return Ok(false);
        };
        let Some(start) = edges.start() else {
            unreachable!()
        };
        let Some(front) = from_start(number, start) else {
            edges.reach(self.node, number);
            return Ok(true);
        };
        self.step_to(edges, start, front)?;
        Ok(true)
    }
}

/// The number, if it is not below the start.
fn from_start(number: i64, start: u32) -> Option<u32>
    requires { number ≤ℤ pos 4294967295 }
    ensures { MatchOption result (number <ℤ pos start) (λ f. (number ≡ pos f) × (start ≤ f)) }
{
    if number < i64::from(start) {
        return None;
    }
    Some(number as u32)
}
