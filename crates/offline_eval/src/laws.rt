//! Laws of evaluation. Each is the contract of a call that does nothing, so that the gate proves it.
ghost use Rattle.std.specs.Prelude.{◌≡◌, ◌+◌, ◌<◌, All, ◌∷◌, ◌++◌, [], ℕ, false, List, length, Some, slice_get};
ghost use Rattle.pl_signal.specs.declared.knot.Knot.{Knot};
ghost use Rattle.pl_signal.specs.declared.faults.WidePair.{WidePair};
ghost use Rattle.pl_signal.specs.Moves.{Tells};
ghost use Rattle.pieces.specs.Chains.{Chain};
ghost use Rattle.stl_syntax.specs.Formula.{subformula};
ghost use Rattle.stl_syntax.specs.PostOrder.{IsPostOrder};
ghost use Rattle.stl_syntax.specs.SupInf.{Gives, HasInfs, HasValues, Setting};
ghost use Rattle.stl_syntax.specs.declared.atom.Atom.{Atom};
ghost use Rattle.stl_syntax.specs.declared.node.Node.{Node};
ghost use Rattle.stl_syntax.specs.declared.node.Node.TheVariants.{Atom as Leaf};
ghost use Rattle.value_laws.specs.declared.truth.Truth.{Truth};
ghost use Rattle.value_laws.specs.declared.kleene.Kleene.{Kleene};
ghost use Rattle.offline_eval.specs.Forms.{of_knots, of_pieces};
ghost use Rattle.offline_eval.specs.Inputs.{atoms_before, is_atom, IsInput, IsOver, TellAtoms, TellAtomsBelow};
ghost use Rattle.offline_eval.specs.PlainAtoms.{knots_setting};
ghost use Rattle.offline_eval.specs.declared.faults.EvalFault.{EvalFault};
ghost use Rattle.pl_signal.specs.Knots.{IsSignal};
ghost use Rattle.offline_eval.specs.Evaluation.{IsCauseAt, IsFault, TellNodes};

use value_laws::Shape;

/// The signals of the atoms, added one by one along the nodes of a formula, tell the atoms so far.
pub fn atoms_grow<P: Shape>()
    ensures none { (nodes : List Node) (s : Setting) → TellAtomsBelow P.Shape 0 nodes [] s }
    ensures atom { (nodes : List Node) (s : Setting) (i : ℕ) (a : Atom) (xs : List (List (Knot P))) (x : List (Knot P))
        → slice_get nodes i ≡ Some (Leaf a) → length xs ≡ atoms_before nodes i → TellAtomsBelow P.Shape i nodes xs s
        → Tells P.Shape (Gives s.atoms i a) s.from s.to x → TellAtomsBelow P.Shape (i + 1) nodes (xs ++ x ∷ []) s }
    ensures other { (nodes : List Node) (s : Setting) (i : ℕ) (n : Node) (xs : List (List (Knot P)))
        → slice_get nodes i ≡ Some n → is_atom n ≡ false → TellAtomsBelow P.Shape i nodes xs s
        → TellAtomsBelow P.Shape (i + 1) nodes xs s }
    ensures count_atom { (nodes : List Node) (i : ℕ) (a : Atom) → slice_get nodes i ≡ Some (Leaf a)
        → atoms_before nodes (i + 1) ≡ atoms_before nodes i + 1 }
    ensures count_other { (nodes : List Node) (i : ℕ) (n : Node) → slice_get nodes i ≡ Some n → is_atom n ≡ false
        → atoms_before nodes (i + 1) ≡ atoms_before nodes i }
{}

/// Where the signals tell the nodes, each subformula has a value at each time of the domain, and an Inf between each two times.
pub fn told_have_values<P: Shape>()
    ensures { (nodes : List Node) (signals : List (List (Knot P))) (s : Setting) → IsPostOrder nodes → s.highest ≡ P.highest
        → TellNodes (of_knots P.Shape) nodes signals s → (i : ℕ) → i < length nodes
        → HasValues (subformula nodes i) s × HasInfs (subformula nodes i) s }
{}

/// Where chains of pieces tell the nodes, each subformula has a value at each time of the domain, and an Inf between each two times.
pub fn chains_have_values<P: Shape>()
    ensures { (nodes : List Node) (chains : List (Chain P)) (s : Setting) → IsPostOrder nodes → s.highest ≡ P.highest
        → TellNodes (of_pieces P.Shape) nodes chains s → (i : ℕ) → i < length nodes
        → HasValues (subformula nodes i) s × HasInfs (subformula nodes i) s }
{}

/// The signals of a formula's atoms tell the atoms in a setting of their own, in which each atom is read by the plain list of knots of its
/// signal. So an evaluation always speaks of a setting, also for signals that come from no trace.
pub fn atoms_are_told<P: Shape>()
    ensures { (nodes : List Node) (from to : ℕ) (atoms : List (List (Knot P))) → length atoms ≡ atoms_before nodes (length nodes)
        → All (IsSignal P.Shape) atoms → All (IsInput (of_knots P.Shape) from to) atoms
        → TellAtoms P.Shape nodes atoms (knots_setting P.Shape nodes from to atoms) }
{}

/// An evaluation of truth is never refused but for want of memory, whatever the signals: what `eval` says of its refusals leaves only that.
pub fn truth_is_never_refused()
    ensures { (nodes : List Node) (from to : ℕ) (atoms : List (List (Knot Truth))) (e : EvalFault Truth)
        → length atoms ≡ atoms_before nodes (length nodes)
        → All (IsSignal ⟦<value_laws::Truth as Shape>⟧) atoms → All (IsInput (of_knots ⟦<value_laws::Truth as Shape>⟧) from to) atoms
        → ((s : Setting) → IsOver ⟦<value_laws::Truth as Shape>⟧.lowest ⟦<value_laws::Truth as Shape>⟧.highest from to s
        → TellAtoms ⟦<value_laws::Truth as Shape>⟧ nodes atoms s → IsFault ⟦<value_laws::Truth as Shape>⟧ nodes s e)
        → e ≡ EvalFault.Memory }
{}

/// An evaluation of three-valued truth is refused for want of memory alone.
pub fn kleene_is_never_refused()
    ensures { (nodes : List Node) (from to : ℕ) (atoms : List (List (Knot Kleene))) (e : EvalFault Kleene)
        → length atoms ≡ atoms_before nodes (length nodes)
        → All (IsSignal ⟦<value_laws::Kleene as Shape>⟧) atoms → All (IsInput (of_knots ⟦<value_laws::Kleene as Shape>⟧) from to) atoms
        → ((s : Setting) → IsOver ⟦<value_laws::Kleene as Shape>⟧.lowest ⟦<value_laws::Kleene as Shape>⟧.highest from to s
        → TellAtoms ⟦<value_laws::Kleene as Shape>⟧ nodes atoms s → IsFault ⟦<value_laws::Kleene as Shape>⟧ nodes s e)
        → e ≡ EvalFault.Memory }
{}

/// Truth has no cause for a refusal.
pub fn truth_is_never_wide()
    ensures { (nodes : List Node) (s : Setting) (i : ℕ) (pair : WidePair Truth)
        → IsCauseAt ⟦<value_laws::Truth as Shape>⟧ nodes s i pair → ⊥ }
{}

/// Three-valued truth has no cause for a refusal.
pub fn kleene_is_never_wide()
    ensures { (nodes : List Node) (s : Setting) (i : ℕ) (pair : WidePair Kleene)
        → IsCauseAt ⟦<value_laws::Kleene as Shape>⟧ nodes s i pair → ⊥ }
{}
