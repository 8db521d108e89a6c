//! Worked examples, proved by computation.

ghost use Rattle.std.specs.Prelude.{◌≡◌, ◌≢◌, true, false, [], ◌∷◌};
ghost use Rattle.exec_moves.specs.declared.handing.{CallPlace.CallPlace as call, InGlobal.InGlobal as global};
ghost use Rattle.exec_credit.specs.CallCredit.{call_credit, most_credit};

/// What the quiet steps of a call cost, of two workers of which the second is published, or neither is.
pub fn calls_are_paid()
    ensures about_to_append { call_credit (call.Global global.Append) (record { published = false ∷ true ∷ []; count = 0 }) ≡ 6 }
    ensures most { most_credit ≡ 6 }
    ensures nobody_there { call_credit (call.Global global.Append) (record { published = false ∷ false ∷ []; count = 0 }) ≡ 2 }
    ensures as_loaded { call_credit (call.ClaimWorker (record { has = false ∷ true ∷ [] })) (record { published = false ∷ true ∷ []; count = 1 }) ≡ 3 }
    ensures another_set { call_credit (call.ClaimWorker (record { has = true ∷ true ∷ [] })) (record { published = false ∷ true ∷ []; count = 1 }) ≡ 4 }
    ensures over { call_credit call.Return (record { published = false ∷ true ∷ []; count = 0 }) ≡ 0 }
    ensures not_for_nothing { call_credit (call.Global global.Append) (record { published = false ∷ false ∷ []; count = 0 }) ≢ 0 }
{}
