//! Laws of what each bench hears of an input of several sessions. Each is the contract of a call that does nothing, so that the gate proves it.
ghost use Rattle.std.specs.Prelude.{◌≡◌, ℕ, List, [], true};
ghost use Rattle.stl_syntax.specs.Characters.{is_among};
ghost use Rattle.stl_syntax.specs.Formula.{Formula};
ghost use Rattle.stl_grammar.specs.FormulaRefusals.{IsFormulaOf};
ghost use Rattle.trace_reader.specs.TraceText.{lines};
ghost use Rattle.session_laws.specs.Hearing.{heard};
ghost use Rattle.session_mux.specs.SessionsAlone.{lines_of};
ghost use Rattle.session_mux.specs.Saying.{texts};
ghost use Rattle.workbench.specs.Requests.{sessions};
ghost use Rattle.workbench.specs.Sessions.{Tagged, AreTagged, tags_after, own, Alone};
ghost use Rattle.workbench.specs.Ended.{IsAnswered};

/// Of what `mux` wrote in the end, the lines that begin with a tag and a space, answers to queries left out, are the text that the bytes
/// of the tag's own lines get alone: the stream of their rows, and the line of their first fault.
pub fn each_bench_hears_its_own_stream()
    ensures { (text : List ℕ) (f : Formula) (bytes said : List ℕ) (status : ℕ) → IsFormulaOf text f → IsAnswered (sessions f) bytes true status said
        → (seen : List Tagged) → AreTagged (lines true bytes) seen → (t : List ℕ) → is_among t (tags_after [] seen) ≡ true
        → (alone : List ℕ) × Alone f (own seen t) true alone × (heard t said ≡ texts alone) }
{}

/// Two inputs with the same lines of a tag tell its bench the same, whatever lines of others come between.
pub fn other_benches_change_nothing()
    ensures { (text : List ℕ) (f : Formula) (bytes other said heard_there : List ℕ) (status ended : ℕ) → IsFormulaOf text f
        → IsAnswered (sessions f) bytes true status said → IsAnswered (sessions f) other true ended heard_there
        → (seen others : List Tagged) → AreTagged (lines true bytes) seen → AreTagged (lines true other) others
        → (t : List ℕ) → is_among t (tags_after [] seen) ≡ true → is_among t (tags_after [] others) ≡ true → lines_of t seen ≡ lines_of t others
        → heard t said ≡ heard t heard_there }
{}
