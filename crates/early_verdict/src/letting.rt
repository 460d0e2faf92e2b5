//! Sets let go of the times that no later answer needs.
ghost use Rattle.std.specs.Prelude.{◌≡◌, ◌⊎◌, ◌<◌, ◌^◌, ℕ, IfNone, IfSome, List, None, Some, length, neg_ℤ, pos, slice_get, unsigned_abs, ◌≤◌};
ghost use Rattle.rational.specs.Rational.{IsWithin, add, whole, ◌≈◌};
ghost use Rattle.rational.specs.Time.{Rational, later, ◌≤ʳ◌};
ghost use Rattle.frac128.specs.Value.{value};
ghost use Rattle.stl_syntax.specs.Trace.{Trace as ATrace};
ghost use Rattle.stl_syntax.specs.Formula.{HasChildrenBelow};
ghost use Rattle.stl_syntax.specs.Views.{IsNear};
ghost use Rattle.stl_syntax.specs.WellFormed.{AreWellFormed};
ghost use Rattle.rational.specs.Places.{After, Upto};
ghost use Rattle.frac128.specs.Cuts.{place};
ghost use Rattle.growing_sets.specs.Spans.{AreTidy, IsOn};
ghost use Rattle.early_verdict.specs.Fitting.{AreSetsTidy, IsFailingTidy, IsHoldingTidy};
ghost use Rattle.early_verdict.specs.Standing.{AllTidy, IsOperator, IsOperatorAt};
ghost use Rattle.early_verdict.specs.Living.{IsNarrowed, NetIs};
ghost use Rattle.early_verdict.specs.Letting.{AreApart, AreAskedBy, AreDecisive, AreInside, BeginsAtOnce};
ghost use Rattle.early_verdict.specs.Letting.{IsAskedFirst, IsAskedFrom, IsAskedOver, IsAskedReach, decides};
ghost use Rattle.early_verdict.specs.Letting.{IsFirstLeft, ArePartsInside, IsFailingCut, IsFailingInside, IsHoldingCut};
ghost use Rattle.early_verdict.specs.Letting.{IsHoldingInside, IsInside, IsRunCut, IsRunCutAt, HasShed, HasShedAt, IsUntil, NetHas};
ghost use Rattle.stl_syntax.specs.declared.node.Node.{Node as ANode};
ghost use Rattle.stl_syntax.specs.declared.node.Node.TheVariants.{Since, Until};
ghost use Rattle.early_verdict.specs.declared.sets.Sets.{Sets as ASets};

use crate::anew::{cut_endless_at, decisive};
use crate::net::is_atom;
use crate::operators::ticks_before;
use crate::sets::{Failing, Holding, Net, Sets};
use frac128::Cut;
use growing_sets::{Grown, Stretch, Stretches, bounds_from, cut_to, front, holding, narrow};
use stl_syntax::{Asks, Formula, Node, Offsets, View, Way};

/// Where the stretch ends that holds the times just after the cut; the cut itself, where none does.
fn past(spans: &Stretches, cut: Cut) -> Cut
    requires { AreTidy spans.now.items }
    ensures { (t : Rational) → After (place cut) t → Upto (place result) t → IsOn spans.now.items t }
{
    match holding(spans, &cut) {
        Some(span) => span.to,
        None => cut,
    }
}

/// A place up to which the two sets tell each time from the cut on.
fn told_to(own: &Sets, from: Cut) -> Cut
    requires { AreSetsTidy own.now }
    ensures { (t : Rational) → After (place from) t → Upto (place result) t → IsOn own.now.yes.spans.items t ⊎ IsOn own.now.no.spans.items t }
{
    let mut cut = past(&own.no.spans, from);
    'runs: for _ in 0..own.yes.spans.len() {
        let Some(span) = holding(&own.yes.spans, &cut) else {
            return cut;
        };
        cut = past(&own.no.spans, span.to);
    }
    cut
}

/// Lets go of the times before the bounds, in both sets.
fn narrow_both(own: &mut Sets, bounds: Stretch)
    requires tidy { AreSetsTidy own.old }
    requires yes { (t : Rational) → IsOn own.old.yes.spans.items t → Upto (place bounds.to) t }
    requires no { (t : Rational) → IsOn own.old.no.spans.items t → Upto (place bounds.to) t }
    ensures { IsNarrowed bounds own.old own.new }
{
    narrow(&mut own.yes, bounds);
    narrow(&mut own.no, bounds);
}

/// Sheds the times of a node that are decided, or asked for no more.
fn shed(own: &mut Sets, shown: &Sets)
    requires tidy { AreSetsTidy own.old }
    requires inside { IsInside own.old }
    ensures { HasShed shown.now own.old own.new }
{
    let within = own.no.bounds();
    let told = told_to(own, within.from);
    let from = told.later(shown.no.bounds().from);
    narrow_both(own, bounds_from(&within, &from));
}

/// From the cut on a node is asked.
fn ask_from(shown: &mut [Sets], place: u32, cut: &Cut)
    requires within { place < length shown.old }
    requires tidy { AllTidy shown.old }
    requires inside { AreInside shown.old }
    ensures { IsAskedFrom place (value cut.now.time) shown.old shown.new }
{
    let (_, from) = shown.split_at_mut(place as usize);
    let own = &mut from[0];
    let within = own.no.bounds();
    narrow_both(own, bounds_from(&within, cut));
}

/// From the cut on two nodes are asked.
fn ask_both(shown: &mut [Sets], left: u32, right: u32, cut: &Cut)
    requires left { left < length shown.old }
    requires right { right < length shown.old }
    requires tidy { AllTidy shown.old }
    requires inside { AreInside shown.old }
    ensures { (mid : List ASets) × IsAskedFrom left (value cut.now.time) shown.old mid × IsAskedFrom right (value cut.now.time) mid shown.new }
{
    ask_from(shown, left, cut);
    ask_from(shown, right, cut);
}

/// The place so many ticks after the cut, or before it, where they are negative.
fn moved_cut(cut: &Cut, by: i64) -> Cut
    requires near { IsWithin (2 ^ 34) (value cut.now.time) }
    requires bound { unsigned_abs by ≤ 2 ^ 32 }
    ensures { value result.time ≈ add (value cut.now.time) (whole by) }
{
    cut.shift_begin(by, true)
}

/// The place `ticks` before the cut.
pub(crate) fn cut_before(cut: &Cut, ticks: u32) -> Cut
    requires { IsWithin (2 ^ 34) (value cut.now.time) }
    ensures { later (value result.time) ticks ≤ʳ value cut.now.time }
{
    moved_cut(cut, ticks_before(ticks))
}

/// Shows the first times of the one set alone, where these begin before the cut; the other set has none of them.
fn show_first(own: &mut Grown, other: &mut Grown, cut: &Cut)
    ensures { ((own.new ≡ own.old) × (other.new ≡ other.old)) ⊎ IsFirstLeft (place cut.now) own.old own.new other.new }
{
    let Some(first) = front(&own.spans) else {
        return;
    };
    if !first.from.precedes(cut) {
        return;
    }
    own.spans.keep_first();
    other.spans.clear();
    own.bounds = first;
    other.bounds = first;
}

/// Shows, of the node at the place, its first times of the truth `holds` alone, where these begin more than `-by` ticks before the cut.
fn ask_first(shown: &mut [Sets], place: u32, holds: bool, by: i64, cut: &Cut)
    requires within { place < length shown.old }
    requires near { IsWithin (2 ^ 34) (value cut.now.time) }
    requires bound { unsigned_abs by ≤ 2 ^ 32 }
    ensures { (a : ℕ) → by ≡ neg_ℤ (pos a) → IsAskedFirst place holds a (value cut.now.time) shown.old shown.new }
{
    let at = moved_cut(cut, by);
    let limit = Cut {
        time: at.time,
        side: 0,
    };
    let (_, from) = shown.split_at_mut(place as usize);
    let own = &mut from[0];
    if holds {
        show_first(&mut own.yes, &mut own.no, &limit);
        return;
    }
    show_first(&mut own.no, &mut own.yes, &limit);
}

/// Whether it is where its operand holds that the operator is decided.
fn is_decided_by(asks: Asks) -> bool
    ensures { result ≡ decides asks }
{
    match asks {
        Asks::Any => true,
        Asks::Each => false,
    }
}

/// From where on the operand of a window is asked, when its node goes on from the cut: from where the window begins. One without a
/// beginning asks from the start on, until its operand had the truth that decides it; then about the first times of that truth alone.
fn ask_over(shown: &mut [Sets], asks: Asks, w: &Offsets, place: u32, cut: &Cut)
    requires window { IsNear w.now }
    requires within { place < length shown.old }
    requires tidy { AllTidy shown.old }
    requires inside { AreInside shown.old }
    requires near { IsWithin (2 ^ 34) (value cut.now.time) }
    ensures { IsAskedOver asks w.now place (value cut.now.time) shown.old shown.new }
{
    let Some(low) = w.low else {
        ask_first(shown, place, is_decided_by(asks), w.high, cut);
        return;
    };
    let from = moved_cut(cut, low);
    ask_from(shown, place, &from);
}

/// From where on the operands of an until are asked, when the node goes on from the cut; a since asks for its own by itself.
fn ask_reach(shown: &mut [Sets], way: Way, left: u32, right: u32, cut: &Cut)
    requires left { left < length shown.old }
    requires right { right < length shown.old }
    requires tidy { AllTidy shown.old }
    requires inside { AreInside shown.old }
    ensures { IsAskedReach way left right (value cut.now.time) shown.old shown.new }
{
    match way {
        Way::Until => ask_both(shown, left, right, cut),
        Way::Since => {}
    }
}

/// From where on a node's children are asked, when the node goes on from the cut.
fn ask_children(shown: &mut [Sets], node: &Node, cut: &Cut)
    requires children { HasChildrenBelow (length shown.old) node.now }
    requires tidy { AllTidy shown.old }
    requires inside { AreInside shown.old }
    requires apart { AreApart shown.old }
    requires near { IsWithin (2 ^ 34) (value cut.now.time) }
    ensures { AreAskedBy node.now (value cut.now.time) shown.old shown.new }
{
    match node.view() {
        View::Const(_) => {}
        View::Atom => {}
        View::Not(of) => ask_from(shown, of, cut),
        View::Two(_, left, right) => ask_both(shown, left, right, cut),
        View::Over(asks, w, of) => ask_over(shown, asks, &w, of, cut),
        View::Reach(way, _, left, right) => ask_reach(shown, way, left, right, cut),
    }
}

/// Whether the set has the first times of its bounds.
fn begins_at_once(own: &Grown) -> bool
    requires { AreTidy own.now.spans.items }
    ensures { BeginsAtOnce result own.now }
{
    match holding(&own.spans, &own.bounds.from) {
        Some(_) => true,
        None => false,
    }
}

/// Lets go of the times before the cut of the sets between those of until or since, where it holds, and those of its operands; of the
/// times before the first one, where it looks at its operands.
fn cut_holding(own: &mut Holding, first: &Cut, cut: &Cut)
    requires tidy { IsHoldingTidy own.old }
    requires inside { IsHoldingInside own.old }
    ensures { IsHoldingCut (value first.now.time) (value cut.now.time) own.old own.new }
{
    cut_to(&mut own.both, first);
    cut_to(&mut own.run, first);
    cut_to(&mut own.some, cut);
    cut_to(&mut own.each, cut);
    own.carried = begins_at_once(&own.run);
}

/// Lets go of the times before the cut of the sets between those of until or since, where it fails; what says how far a failing goes on
/// is kept where its left operand shows times.
fn cut_failing(own: &mut Failing, wide: Stretch, cut: &Cut)
    requires tidy { IsFailingTidy own.old }
    requires inside { IsFailingInside wide own.old }
    ensures { IsFailingCut (value cut.now.time) wide own.old own.new }
{
    narrow(&mut own.fail, wide);
    narrow(&mut own.stop, wide);
    cut_to(&mut own.never, cut);
    cut_to(&mut own.broken, cut);
    own.carried = begins_at_once(&own.stop);
}

/// Lets go of the times before the cut of all sets between those of an until or a since.
fn cut_run(own: &mut Sets, wide: Stretch, first: &Cut, cut: &Cut)
    requires tidy { AreSetsTidy own.old }
    requires inside { ArePartsInside wide own.old }
    ensures { IsRunCut (value first.now.time) (value cut.now.time) wide own.old own.new }
{
    match &mut own.parts {
        Some(parts) => {
            cut_holding(&mut parts.holding, first, cut);
            cut_failing(&mut parts.failing, wide, cut);
        }
        None => {}
    }
}

/// Lets go of them for the until or since at place `i`.
fn cut_run_at(live: &mut [Sets], i: usize, wide: Stretch, first: &Cut, cut: &Cut)
    requires within { i < length live.old }
    requires tidy { (s : ASets) → slice_get live.old i ≡ Some s → AreSetsTidy s }
    requires inside { (s : ASets) → slice_get live.old i ≡ Some s → ArePartsInside wide s }
    ensures { IsRunCutAt i (value first.now.time) (value cut.now.time) wide live.old live.new }
{
    let (_, from) = live.split_at_mut(i);
    cut_run(&mut from[0], wide, first, cut);
}

/// Sheds the times of the node at a place that are decided, or asked for no more.
fn shed_at(live: &mut [Sets], shown: &[Sets], i: usize)
    requires live { i < length live.old }
    requires shown { i < length shown.now }
    requires tidy { (s : ASets) → slice_get live.old i ≡ Some s → AreSetsTidy s }
    requires inside { (s : ASets) → slice_get live.old i ≡ Some s → IsInside s }
    ensures { HasShedAt i shown.now live.old live.new }
{
    let (_, from) = live.split_at_mut(i);
    shed(&mut from[0], &shown[i]);
}

/// The place of an until's left operand; of no other node.
fn left_of_until(node: &Node) -> Option<u32>
    ensures some { IfSome result (λ p. (q : ℕ) × (a : ℕ) × (b : ℕ) × (node.now ≡ Until p q a b)) }
    ensures none { IfNone result (¬ (IsUntil node.now)) }
{
    match node {
        Node::Until { left, .. } => Some(*left),
        _ => None,
    }
}

/// The operands of a since, and how far it looks back.
#[derive(Clone, Copy)]
struct Back {
    left: u32,
    right: u32,
    most: u32,
}

/// The operands of a since that has an upper bound, and how far it looks back; none for any other node.
fn bounded_since(node: &Node) -> Option<Back>
    ensures { IfSome result (λ s. (a : ℕ) × (node.now ≡ Since s.left s.right a (Some s.most))) }
{
    let Node::Since {
        left,
        right,
        high,
        ..
    } = node
    else {
        return None;
    };
    let Some(most) = high else {
        return None;
    };
    Some(Back {
        left: *left,
        right: *right,
        most: *most,
    })
}

/// The operands of a since without a bound, and how far before it its window ends.
#[derive(Clone, Copy)]
struct Endless {
    left: u32,
    right: u32,
    low: u32,
}

/// The operands of a since without an upper bound, and how far behind a time its window ends; none for any other node.
fn endless_since(node: &Node) -> Option<Endless>
    ensures { IfSome result (λ s. node.now ≡ Since s.left s.right s.low None) }
{
    let Node::Since {
        left,
        right,
        low,
        high,
    } = node
    else {
        return None;
    };
    if high.is_some() {
        return None;
    }
    Some(Endless {
        left: *left,
        right: *right,
        low: *low,
    })
}

/// The bounds of the sets at a place.
fn bounds_at(sets: &[Sets], at: usize) -> Stretch
    requires { at < length sets.now }
    ensures { (x : ASets) × (slice_get sets.now at ≡ Some x) × (result ≡ x.no.bounds) }
{
    sets[at].no.bounds()
}

/// Lets go of what a since with a bound needs no more, of its own sets and of its operands'.
fn let_go_bounded(live: &mut [Sets], shown: &mut [Sets], i: usize, since: &Back)
    requires { (nodes : List ANode) × (tr : ATrace) × (a : ℕ)
        × NetHas nodes tr live.old shown.old i (Since since.now.left since.now.right a (Some since.now.most)) }
    ensures count { length live.new ≡ length live.old }
    ensures stands { (nodes : List ANode) (tr : ATrace) (a : ℕ)
        → NetHas nodes tr live.old shown.old i (Since since.now.left since.now.right a (Some since.now.most)) → NetIs nodes tr live.new shown.new }
{
    let own = bounds_at(live, i);
    let first = cut_before(&own.from, since.most);
    ask_both(shown, since.left, since.right, &first);
    let wide = bounds_at(shown, since.left as usize);
    cut_run_at(live, i, wide, &first, &own.from);
}

/// From where on a since without a bound begins anew, as its own sets and those of its operands say.
fn begin_of(live: &[Sets], shown: &[Sets], i: usize, since: &Endless, from: &Cut) -> Option<Cut>
    requires own { i < length live.now }
    requires left { since.now.left < length shown.now }
    requires right { since.now.right < length shown.now }
    requires tidy { (s : ASets) → slice_get live.now i ≡ Some s → AreSetsTidy s }
    requires left_tidy { AllTidy shown.now }
    requires near { IsWithin (2 ^ 34) (value from.now.time) }
    ensures { IfSome result (λ c. (later (value c.time) since.now.low ≤ʳ value from.now.time)
        × AreDecisive (value c.time) live.now shown.now i since.now.left since.now.right) }
{
    let left = &shown[since.left as usize];
    let right = &shown[since.right as usize];
    decisive(&live[i], left, right, since.low, from)
}

/// Lets go of what a since without a bound needs no more, once it begins anew.
fn let_go_endless(live: &mut [Sets], shown: &mut [Sets], i: usize, since: &Endless)
    requires { (nodes : List ANode) × (tr : ATrace) × NetHas nodes tr live.old shown.old i (Since since.now.left since.now.right since.now.low None) }
    ensures count { length live.new ≡ length live.old }
    ensures stands { (nodes : List ANode) (tr : ATrace)
        → NetHas nodes tr live.old shown.old i (Since since.now.left since.now.right since.now.low None) → NetIs nodes tr live.new shown.new }
{
    let own = bounds_at(live, i);
    let Some(first) = begin_of(live, shown, i, since, &own.from) else {
        return;
    };
    ask_both(shown, since.left, since.right, &first);
    let wide = bounds_at(shown, since.left as usize);
    cut_run_at(live, i, wide, &first, &own.from);
    cut_endless_at(live, i, &shown[since.right as usize].yes.spans, since.low);
}

/// Lets go of what another operator needs no more: its children show what it looks at from its own times on, and the sets between of an
/// until are cut there.
fn let_go_asked(live: &mut [Sets], shown: &mut [Sets], i: usize, node: &Node)
    requires operator { IsOperator node.now }
    requires stands { (nodes : List ANode) × (tr : ATrace) × NetHas nodes tr live.old shown.old i node.now }
    ensures count { length live.new ≡ length live.old }
    ensures stands { (nodes : List ANode) (tr : ATrace) → NetHas nodes tr live.old shown.old i node.now → NetIs nodes tr live.new shown.new }
{
    let own = bounds_at(live, i);
    ask_children(shown, node, &own.from);
    if let Some(left) = left_of_until(node) {
        let wide = bounds_at(shown, left as usize);
        cut_run_at(live, i, wide, &own.from, &own.from);
    }
}

/// Lets go of what the node at the place needs no more, of its own and of its children's.
fn let_go_at(live: &mut [Sets], shown: &mut [Sets], formula: &Formula, i: u32)
    requires within { i < length formula.now.nodes }
    requires formed { AreWellFormed formula.now.nodes }
    requires operator { IsOperatorAt formula.now.nodes i }
    requires stands { (tr : ATrace) × NetIs formula.now.nodes tr live.old shown.old }
    ensures count { length live.new ≡ length live.old }
    ensures stands { (tr : ATrace) → NetIs formula.now.nodes tr live.old shown.old → NetIs formula.now.nodes tr live.new shown.new }
{
    let at = i as usize;
    let node = formula.node(i);
    shed_at(live, shown, at);
    if let Some(since) = bounded_since(node) {
        let_go_bounded(live, shown, at, &since);
        return;
    }
    if let Some(since) = endless_since(node) {
        let_go_endless(live, shown, at, &since);
        return;
    }
    let_go_asked(live, shown, at, node);
}

/// Lets go of it for the node at the place; an atom asks for nothing, and goes on from what it shows.
fn let_go_of(live: &mut [Sets], shown: &mut [Sets], formula: &Formula, i: u32)
    requires within { i < length formula.now.nodes }
    requires formed { AreWellFormed formula.now.nodes }
    requires stands { (tr : ATrace) × NetIs formula.now.nodes tr live.old shown.old }
    ensures count { length live.new ≡ length live.old }
    ensures stands { (tr : ATrace) → NetIs formula.now.nodes tr live.old shown.old → NetIs formula.now.nodes tr live.new shown.new }
{
    if is_atom(formula.node(i)) {
        return;
    }
    let_go_at(live, shown, formula, i);
}

/// Lets go of the times that no later answer needs, from the root down.
pub(crate) fn let_go(net: &mut Net, formula: &Formula)
    requires { (tr : ATrace) × NetIs formula.now.nodes tr net.old.live.items net.old.shown.items }
    ensures { (tr : ATrace) → NetIs formula.now.nodes tr net.old.live.items net.old.shown.items
        → NetIs formula.now.nodes tr net.new.live.items net.new.shown.items }
{
    let count = formula.len();
    let mut i = count;
    while i > 0 {
        i -= 1;
        let_go_of(&mut net.live, &mut net.shown, formula, i);
    }
}
