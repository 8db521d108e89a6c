//! Laws of the meaning of results.

ghost use Rattle.std.specs.Prelude.{◌≡◌, false, true, List, [], ◌∷◌, ◌++◌, None};
ghost use Rattle.exec_outcomes.specs.{Outcomes.{Asked, Cursor, HasCome, at_the_start, cursor_next, outcome_next, outcome_of}, declared.outcome.Judged.Judged};

/// Of the results so far only the cursor counts for what one more result means, so a request needs to keep no
/// more of them: the bytes that its present part moved, which part that is, and whether a hint may still be
/// refused. A hint may be given up at any time.
pub fn only_the_cursor_counts()
    ensures next { (asked : Asked) (cursor : Cursor) (results : List Judged) (r : Judged) → HasCome asked cursor results →
        (r.hinted ≡ true → cursor.hinted ≡ true) → outcome_of asked (results ++ r ∷ []) ≡ outcome_next asked cursor r }
    ensures goes_on { (asked : Asked) (cursor : Cursor) (results : List Judged) (r : Judged) → HasCome asked cursor results →
        (r.hinted ≡ true → cursor.hinted ≡ true) → outcome_next asked cursor r ≡ None →
        HasCome asked (cursor_next asked cursor r) (results ++ r ∷ []) }
    ensures begins { (asked : Asked) → HasCome asked at_the_start [] }
    ensures unhinted { (asked : Asked) (cursor : Cursor) (results : List Judged) → HasCome asked cursor results →
        HasCome asked (record cursor { hinted = false }) results }
    ensures uncancelled { (asked : Asked) (cursor : Cursor) (r : Judged) → outcome_next asked cursor r ≡ None → r.cancelled ≡ false }
{}
