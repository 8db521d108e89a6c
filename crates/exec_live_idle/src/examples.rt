//! Worked examples of the definitions, proved by computation: what holds, and what doesn't.

ghost use Rattle.std.specs.Prelude.{◌≡◌, ◌≢◌, ◌^◌, true, false, Some, [], ◌∷◌, ◌++◌, replicate};
ghost use Rattle.exec_words.specs.declared.idle.Park.TheVariants as park;
ghost use Rattle.exec_live_idle.specs.{Examples.{seat, giving, wakes, looks, kicks}, Live.{total, publishes, awaits, shares, width, has_number, first_view, next_number, own_number}, Notify.{Kicked, Notified}, Plays.{looked, claimed, withdrawn, counted, taken, returned}, Search.{MaySearch, Leaves, Reruns, Parks}, Words.set_of};

/// The word 5 is the set of the workers 0 and 2.
#[tactic(auto, unfolding(crate::specs::Words::set_of))]
pub fn a_word_as_a_set()
    ensures empty { set_of 0 ≡ replicate 64 false }
    ensures two { set_of 5 ≡ true ∷ false ∷ true ∷ replicate 61 false }
    ensures last { set_of (2 ^ 63) ≡ replicate 63 false ++ true ∷ [] }
    ensures not_reversed { set_of 1 ≢ replicate 63 false ++ true ∷ [] }
{}

/// Worker 0 is published, and another seat holds a count. The claim of worker 0 clears its bit and
/// hands the count over: the sum stays 1. When worker 0 withdraws, it holds the count.
#[tactic(auto, unfolding(crate::specs::Words::set_of))]
pub fn a_claim_hands_its_count_over()
    ensures before { total (shares (set_of 1)) (seat 0 true 0 ∷ seat 1 false 1 ∷ []) ≡ 1 }
    ensures between { total (shares (set_of 0))
        (seat 0 true 0 ∷ claimed (seat 1 false 1) 0 ∷ []) ≡ 1 }
    ensures awaited { awaits (set_of 0) (seat 0 true 0) ≡ 1 }
    ensures after { total (shares (set_of 0))
        (withdrawn (seat 0 true 0) false ∷ claimed (seat 1 false 1) 0 ∷ []) ≡ 1 }
    ensures not_twice { total (shares (set_of 0)) (seat 0 true 0 ∷ seat 1 false 1 ∷ []) ≢ 1 }
    ensures not_lost { total (shares (set_of 1))
        (seat 0 true 0 ∷ claimed (seat 1 false 1) 0 ∷ []) ≢ 1 }
{}

/// A bit belongs to the seat that has published it, and a seat's number to it alone.
pub fn whose_a_number_is()
    ensures published { total (publishes 1) (seat 0 true 0 ∷ seat 1 true 0 ∷ []) ≡ 1 }
    ensures withdrawn { total (publishes 1) (seat 0 true 0 ∷ seat 1 false 0 ∷ []) ≡ 0 }
    ensures not_two { total (publishes 1) (seat 1 true 0 ∷ seat 1 true 0 ∷ []) ≢ 1 }
    ensures own { has_number 1 (seat 1 false 0) ≡ 1 }
    ensures not_others { has_number 2 (seat 1 false 0) ≢ 1 }
    ensures first { width (first_view 3) ≡ 2 ^ 32 }
    ensures made { own_number (first_view 3) ≡ seat 0 false 0 }
    ensures goes_on { own_number (next_number (first_view 3)) ≡ seat 1 false 0 }
{}

/// A wake for a backlog wakes whom it claimed, or finds a count besides.
pub fn what_a_kick_does()
    ensures woke { Kicked wakes (seat 1 false 0) [] (giving (seat 1 false 0) 0) (2 ∷ []) }
    ensures beside { Kicked wakes (seat 1 false 0) [] (counted (seat 1 false 0) 1) [] }
    ensures not_asleep { Kicked wakes (seat 1 false 0) [] (giving (seat 1 false 0) 0) [] → ⊥ }
    ensures not_idly { Kicked wakes (seat 1 false 0) [] (counted (seat 1 false 0) 0) [] → ⊥ }
{}

/// A push into the global queue wakes also beside a count, unless it finds no worker.
pub fn what_a_push_wakes()
    ensures woke { Notified wakes (seat 1 false 0) [] (giving (seat 1 false 0) 1) (2 ∷ []) }
    ensures nobody { Notified wakes (seat 1 false 0) [] (looked (seat 1 false 0) 0) [] }
    ensures not_beside { Notified wakes (seat 1 false 0) [] (counted (seat 1 false 0) 1) [] → ⊥ }
{}

/// Of three workers one may search beside another, but not beside two.
pub fn who_may_search()
    ensures second { MaySearch (seat 1 false 0)
        (taken (counted (seat 1 false 0) 1) (Some 1)) }
    ensures not_third { MaySearch (seat 1 false 0)
        (taken (counted (seat 1 false 0) 2) (Some 2)) → ⊥ }
{}

/// A count is returned besides others, and the last is handed on to worker 2, which is woken. It
/// can't be given to a worker that sleeps on.
pub fn how_a_search_ends()
    ensures returned { Leaves kicks (seat 1 false 1) [] (returned (seat 1 false 1) 1) [] }
    ensures handed_on { Leaves kicks (seat 1 false 1) []
        (giving (returned (seat 1 false 1) 0) 0) (2 ∷ []) }
    ensures not_dropped { Leaves kicks (seat 1 false 1) [] (returned (seat 1 false 1) 0) [] → ⊥ }
    ensures not_asleep { Leaves kicks (seat 1 false 1) []
        (claimed (counted (seat 1 false 1) 2) 2) [] → ⊥ }
{}

/// A worker that runs again found its bit, or keeps the count of whoever claimed it.
pub fn how_a_worker_runs_again()
    ensures found { Reruns looks looks kicks (seat 1 false 0) [] (seat 1 false 0) [] }
    ensures claimed { Reruns looks looks kicks (seat 1 false 0) [] (seat 1 false 1) [] }
    ensures handed_on { Reruns looks looks kicks (seat 1 false 1) []
        (giving (seat 1 false 0) 0) (2 ∷ []) }
    ensures not_returned { Reruns looks looks kicks (seat 1 false 0) []
        (returned (seat 1 false 1) 1) [] → ⊥ }
    ensures not_taken { Reruns looks looks kicks (seat 1 false 0) []
        (taken (seat 1 false 0) (Some 1)) [] → ⊥ }
{}

/// A worker that waits is published, and holds no count. One that found a backlog holds a count,
/// which it took where there was none.
pub fn how_a_worker_parks()
    ensures waits { Parks looks looks kicks (seat 1 false 1) [] park.Wait
        (counted (seat 1 true 0) 1) [] }
    ensures searches { Parks looks looks kicks (seat 1 false 0) [] park.Search
        (taken (seat 1 false 0) (Some 0)) [] }
    ensures runs { Parks looks looks kicks (seat 1 false 0) [] park.Run (seat 1 false 0) [] }
    ensures not_holding { Parks looks looks kicks (seat 1 false 1) [] park.Wait
        (counted (seat 1 true 1) 1) [] → ⊥ }
    ensures not_hidden { Parks looks looks kicks (seat 1 false 0) [] park.Wait
        (counted (seat 1 false 0) 1) [] → ⊥ }
    ensures not_beside { Parks looks looks kicks (seat 1 false 0) [] park.Search
        (taken (seat 1 false 0) (Some 1)) [] → ⊥ }
{}
