// What a reader of rows may rely on, from the definition alone.
ghost use Rattle.std.specs.Prelude.{◌≡◌, ◌≤◌, ℕ, List, Some, length};
ghost use Rattle.line_reader.specs.Texts.{Placed};
ghost use Rattle.ri_base.specs.Ratio.{Ratio};
ghost use Rattle.ri_base.specs.declared.limits.TheConstants.{MAX_PRIOR_ROWS};
ghost use Rattle.prior_lines.specs.Form.{IsRow};
ghost use Rattle.prior_lines.specs.Row.{row};
ghost use Rattle.prior_lines.specs.Rows.{Kept, outcome, row_of};
ghost use Rattle.prior_lines.specs.declared.row.RowKey.{RowKey};

/// A text is read as a row exactly where it is written so.
pub fn row_is_form()
    ensures only { (text : List ℕ) (key : RowKey) (f : Ratio) → row text ≡ Some (key, f) → IsRow text key f }
    ensures every { (text : List ℕ) (key : RowKey) (f : Ratio) → IsRow text key f → row text ≡ Some (key, f) }
{}

/// A docno's first accepted row stays whatever lines follow.
#[tactic(auto, using(crate::proofs::StayLemmas::row_stays))]
pub fn first_row_stays()
    ensures { (kept : Kept) (texts : List Placed) (docno : List ℕ) (f : Ratio) → row_of docno kept.rows ≡ Some f → row_of docno (outcome kept texts).0.rows ≡ Some f }
{}

/// Never more rows are kept than a prior may have.
#[tactic(auto, using(crate::proofs::StayLemmas::rows_few))]
pub fn rows_are_few()
    ensures { (kept : Kept) (texts : List Placed) → length kept.rows ≤ MAX_PRIOR_ROWS → length (outcome kept texts).0.rows ≤ MAX_PRIOR_ROWS }
{}
