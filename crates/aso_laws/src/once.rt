// What there is once.
ghost use Rattle.std.specs.Prelude.{◌≡◌, ℕ, List};
ghost use Rattle.aso_outline.specs.declared.draft.Draft.{Draft};
ghost use Rattle.aso_mdx.specs.declared.query.Query.{Query};
ghost use Rattle.aso_query.specs.declared.refusal.QueryRefusal.{QueryRefusal};
ghost use Rattle.aso_query.specs.Answers.{IsGridOf, IsRefused, Stored};
ghost use Rattle.aso_script.specs.Script.{Line};
ghost use Rattle.aso_machine.specs.Lines.{Reading, IsRead};
ghost use Rattle.aso_machine.specs.Machine.{Comes, Said};
ghost use Rattle.aso_machine.specs.State.{State};
ghost use Rattle.aso_eval.specs.declared.refusal.SheetRefusal.{SheetRefusal};
ghost use Rattle.aso_eval.specs.Sheets.{IsRefusal, IsReply};

/// Over stored values a query has one grid at most, of so many rows and columns and with these lines, and one refusal at most, and
/// never both.
pub fn one_answer_of_a_query()
    ensures grid { (o : Draft) (stored : Stored) (q : Query) (rows columns height width : ℕ) (text other : List ℕ) → IsGridOf o stored q rows columns text → IsGridOf o stored q height width other → (rows ≡ height) × (columns ≡ width) × (text ≡ other) }
    ensures refusal { (o : Draft) (stored : Stored) (q : Query) (r s : QueryRefusal) → IsRefused o stored q r → IsRefused o stored q s → r ≡ s }
    ensures either { (o : Draft) (stored : Stored) (q : Query) (r : QueryRefusal) (rows columns : ℕ) (text : List ℕ) → IsRefused o stored q r → IsGridOf o stored q rows columns text → ⊥ }
{}

/// A line of a script says one thing at most, and on a state it comes to one thing at most: a refusal with its text, a grid, or a
/// commit that makes these the cells.
pub fn one_outcome_of_a_line()
    ensures reading { (line : List ℕ) (r s : Reading) → IsRead line r → IsRead line s → r ≡ s }
    ensures said { (s : State) (line : Line) (said other : Said) → Comes s line said → Comes s line other → said ≡ other }
{}

/// A text has one reply at most and one refusal at most, and never both.
pub fn one_answer_of_a_sheet()
    ensures reply { (text out other : List ℕ) → IsReply text out → IsReply text other → out ≡ other }
    ensures refusal { (text : List ℕ) (r s : SheetRefusal) → IsRefusal text r → IsRefusal text s → r ≡ s }
    ensures either { (text out : List ℕ) (r : SheetRefusal) → IsReply text out → IsRefusal text r → ⊥ }
{}
