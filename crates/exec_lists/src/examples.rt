//! Worked examples of the places of a driver, and of what a list says of requests, proved by computation.

ghost use Rattle.std.specs.Prelude.{◌≡◌, [], ◌∷◌, Some, None, true, false};
ghost use Rattle.exec_waiters.specs.{Examples.{here, awaited, flying, alone}, States.{is_flying, is_idle}};
ghost use Rattle.exec_lists.specs.{Lists.{no_lists, is_same, without, is_among, has_first, first_of, rest_of, withdrawn, with_queued, with_due, with_cancel, after_queued, in_slot, are_within}, Listed.{is_once, are_all, count_of}, Examples.{first, second, later, both_queued, both_due}};

/// Who comes first leaves a place first, and no other place has it.
pub fn order()
    ensures in_order { both_queued.queued ≡ first ∷ second ∷ [] }
    ensures first { first_of both_queued.queued ≡ Some first }
    ensures rest { rest_of both_queued.queued ≡ second ∷ [] }
    ensures left { after_queued both_queued ≡ with_queued second no_lists }
    ensures none { first_of no_lists.queued ≡ None }
    ensures stays_empty { after_queued no_lists ≡ no_lists }
    ensures not_gated { has_first both_queued.gated ≡ false }
{}

/// One is taken out, and the others stay in their order. The next request of its slot is another.
pub fn taken_out()
    ensures one { without second (first ∷ second ∷ later ∷ []) ≡ first ∷ later ∷ [] }
    ensures not_the_next { without later (first ∷ second ∷ []) ≡ first ∷ second ∷ [] }
    ensures apart { is_same first later ≡ false }
    ensures among { is_among second both_queued.queued ≡ true }
    ensures not_among { is_among later both_queued.queued ≡ false }
    ensures everywhere { withdrawn first (with_queued first both_due) ≡ with_due second no_lists }
{}

/// Deadlines come in the order of the wheel, each once. Who is cancelled is due no more; cancelled twice it would stand
/// twice, which no list may say.
pub fn due_and_cancels()
    ensures in_order { both_due.due ≡ first ∷ second ∷ [] }
    ensures once { with_due first both_due ≡ both_due }
    ensures cancelled { (with_cancel first both_due).cancels ≡ first ∷ [] }
    ensures not_due { (with_cancel first both_due).due ≡ second ∷ [] }
    ensures not_twice { is_once (with_cancel first (with_cancel first both_due)).cancels ≡ false }
    ensures of_a_slot { in_slot 0 (first ∷ second ∷ later ∷ []) ≡ 2 }
    ensures of_another { in_slot 2 (first ∷ second ∷ later ∷ []) ≡ 0 }
    ensures within { are_within 2 (first ∷ second ∷ later ∷ []) ≡ true }
    ensures not_within { are_within 1 (first ∷ second ∷ later ∷ []) ≡ false }
{}

/// A list has requests of its place alone, each once: refused are a name that stands twice, one of a request elsewhere,
/// and one that no request has.
pub fn listed()
    ensures once { is_once (first ∷ second ∷ later ∷ []) ≡ true }
    ensures twice { is_once (first ∷ first ∷ []) ≡ false }
    ensures far_apart { is_once (first ∷ second ∷ first ∷ []) ≡ false }
    ensures in_place { are_all is_flying (alone (flying here)) (first ∷ []) ≡ true }
    ensures elsewhere { are_all is_idle (alone (flying here)) (first ∷ []) ≡ false }
    ensures of_none { are_all is_flying (alone (flying here)) (first ∷ second ∷ []) ≡ false }
    ensures of_the_next { are_all is_flying (alone (flying here)) (later ∷ []) ≡ false }
    ensures counted { count_of is_flying (alone (flying here)) ≡ 1 }
    ensures not_counted { count_of is_flying (alone (awaited here)) ≡ 0 }
{}
