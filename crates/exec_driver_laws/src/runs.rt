//! Worked examples of runs, and of what comes of the end of a request.

ghost use Rattle.std.specs.Prelude.{◌≡◌, ◌≢◌, ◌<◌, ◌^◌, ℕ, suc, IsSomeAnd, [], ◌∷◌, Some, None, Ok, Err, false};
ghost use Rattle.exec_base.specs.{Slab.value_at, declared.error.Error.TheVariants.{Closed, Timeout}};
ghost use Rattle.exec_request.specs.declared.output.RequestOutput.TheVariants as output;
ghost use Rattle.exec_request.specs.declared.output.RetiredResources.TheVariants as retired;
ghost use Rattle.exec_waiters.specs.{Examples.{poll, sync, here, elsewhere, detached, task}, Told.{Tells, nothing_told}, Events.taken, declared.{deferred.Deferred.Deferred, waiter.Entry.TheVariants.Ready}};
ghost use Rattle.exec_driver.specs.{Driving.request_at, Examples.{first, idle, with_one}, Steps.{ReapsNext, newcomer}};
ghost use Rattle.exec_opens.specs.Opens.{displaced, fresh_open, joined, keeping, placed, writing};
ghost use Rattle.exec_driver_laws.specs.{Ends.{TellsNoSuccess, ending_sent, gives_back, leaves_output, nowhere, outputs_after, placed_for, places_of, told_in}, Examples.{fresh_gates, no_requests, spoiled, workers}, Lines.KeepsLine, Runs.{misplaced, back, clean, clean_gates, clean_told, healing, occupied, kept_output, of_worker, ready, reserved, sent, two}, Sharing.{Call, CallsOne, FailsFrom, Gates, IsRun, Join, Observe, Reap, LineUp, StandsAt, end_by, joined_by, key_of, lets_out, passed_on}};

/// A sync of an open without a change: it is admitted, joins the line, is granted the permit, ends well at once, and
/// leaves; after that its worker makes other calls. Its task is woken and what it owned comes back, for whichever lists
/// take that in, and its output is kept.
pub fn a_clean_sync()
    ensures run { (before after : Deferred ℕ ℕ) → Tells before after clean_told → IsRun (of_worker clean) clean_gates }
    ensures told { clean_told ≡ record nothing_told { wakes = task 3 ∷ []; resources = record { id = first; resources = retired.File 1 None } ∷ [] } }
    ensures ended { (run : IsRun (of_worker clean) clean_gates) → IsSomeAnd (end_by (run.next 2).call) (λ e. e.0 ≡ key_of 3 first) }
    ensures gone { (n : ℕ) → request_at (of_worker clean (suc (suc (suc n))) 3) first ≡ None }
    ensures kept { value_at (of_worker clean 9 3).requests first.0 ≡ Some (Ready (output.Sync (Ok tt))) }
{}

/// What no calls lead to: a gate is left by who wasn't told to leave it, the drivers of two workers change at once, who is
/// gone comes back, a request stands in the line of another open than its own, and an open goes on keeping a failure of
/// which a call said that it is none. Until that call it keeps it.
pub fn what_no_calls_lead_to()
    ensures untold { (worker : ℕ) → Call worker (with_one sync 0) (with_one sync 0) occupied (passed_on occupied 1) → ⊥ }
    ensures two_drivers { (g g' : Gates) → CallsOne (λ worker. idle) two g g' → ⊥ }
    ensures comes_back { IsRun (of_worker back) clean_gates → ⊥ }
    ensures misplaced { LineUp (workers false) misplaced → ⊥ }
    ensures kept { FailsFrom no_requests healing 1 2 1 Timeout }
    ensures set_between { FailsFrom no_requests healing 1 3 1 Timeout → ⊥ }
{}

/// An end: what a request owned comes back, and nothing where it goes on; and a failed sync is sent and kept, or one that
/// went well is. A grant and a reap tell, and a look doesn't.
pub fn ends()
    ensures over { gives_back first (newcomer sync here) None ≡ record { id = first; resources = retired.File 1 None } ∷ [] }
    ensures goes_on { gives_back first (newcomer sync here) (Some (newcomer sync here)) ≡ [] }
    ensures output { ending_sent (Ok (output.Sync (Err Timeout))) ≡ Err Timeout }
    ensures none { ending_sent (Err Closed) ≡ Err Closed }
    ensures failed { TellsNoSuccess (sent (Err Timeout)) (kept_output (Err Timeout)) }
    ensures sent { TellsNoSuccess (sent (Ok tt)) None → ⊥ }
    ensures kept { TellsNoSuccess (sent (Err Timeout)) (kept_output (Ok tt)) → ⊥ }
    ensures reaped { (before after : Deferred ℕ ℕ) (reaps : ReapsNext idle idle fresh_gates.opens fresh_gates.opens before after None) (stays : fresh_gates.leaving ≡ fresh_gates.leaving) → told_in {worker = 3} {g = fresh_gates} {g' = fresh_gates} (Reap before after None reaps stays) ≡ Some (before, after) }
    ensures looked_at { (is : idle ≡ record idle { requests = taken idle.requests first.0 }) (same : fresh_gates ≡ fresh_gates) → told_in {worker = 3} {old = idle} {new = idle} {g = fresh_gates} {g' = fresh_gates} (Observe first is same) ≡ None }
{}

/// Places of an output: that of a sync that ends while someone waits for it elsewhere is sent, and in no other place; it is
/// misplaced where it is kept, and lost where nothing is told. Kept as well it would stand in two. One that goes on has none.
pub fn outputs()
    ensures placed { outputs_after (sent (Ok tt)) None ≡ placed_for first (output.Sync (Ok tt)) elsewhere }
    ensures misplaced { outputs_after nothing_told (kept_output (Ok tt)) ≢ placed_for first (output.Sync (Ok tt)) elsewhere }
    ensures lost { outputs_after nothing_told None ≢ placed_for first (output.Sync (Ok tt)) elsewhere }
    ensures once { places_of (outputs_after (sent (Ok tt)) None) ≡ 1 }
    ensures none_left { places_of (outputs_after clean_told None) ≡ 0 }
    ensures twice { places_of (outputs_after (sent (Ok tt)) (kept_output (Ok tt))) ≡ 2 }
    ensures over { leaves_output first (newcomer sync detached) (Ok tt) None None ≡ record nowhere { endings = record { sender = 5; result = Ok tt } ∷ [] } }
    ensures goes_on { leaves_output first (newcomer sync here) (Ok tt) None (Some (newcomer sync here)) ≡ nowhere }
{}

/// A kept output: a look lets it out, and a call that joins a line doesn't; and no call loses it but one that lets it out.
pub fn kept_outputs()
    ensures looked_at { (is : ready ≡ record ready { requests = taken ready.requests first.0 }) (same : fresh_gates ≡ fresh_gates) → lets_out {worker = 3} {old = ready} {new = ready} {g = fresh_gates} {g' = fresh_gates} (Observe first is same) ≡ Some first }
    ensures joins { (fits : 0 < 2 ^ 64) (same : ready ≡ ready) (is : fresh_gates ≡ fresh_gates) → lets_out {worker = 3} {old = ready} {new = ready} {g = fresh_gates} {g' = fresh_gates} (Join first fits same is) ≡ None }
    ensures lost { (worker : ℕ) (g g' : Gates) (call : Call worker ready idle g g') → lets_out call ≢ Some first → ⊥ }
{}

/// Calls on an open alone: a place that is made or given up, and a write, keep its line; one that joins doesn't, nor does
/// a failure that is kept from now on.
pub fn lines()
    ensures made { KeepsLine fresh_open (placed fresh_open) }
    ensures given_up { KeepsLine (placed fresh_open) (displaced (placed fresh_open)) }
    ensures written { KeepsLine fresh_open (writing fresh_open) }
    ensures joined { KeepsLine fresh_open (joined (key_of 3 first) fresh_open) → ⊥ }
    ensures failed { KeepsLine fresh_open (keeping spoiled fresh_open) → ⊥ }
{}

/// Who joins: a sync that is there joins the line of its open, and stands in it then and in no other; a request that isn't
/// there, one that needs no gate, and one of an open that isn't there join none. No call takes out of the line who wasn't
/// told to leave.
pub fn joining()
    ensures joins { (fits : 0 < 2 ^ 64) (same : with_one sync 0 ≡ with_one sync 0) (is : occupied ≡ occupied) → joined_by {worker = 3} {old = with_one sync 0} {new = with_one sync 0} {g = reserved} {g' = occupied} (Join first fits same is) ≡ Some (key_of 3 first) }
    ensures not_there { (fits : 0 < 2 ^ 64) (same : idle ≡ idle) (is : reserved ≡ reserved) → joined_by {worker = 3} {old = idle} {new = idle} {g = reserved} {g' = reserved} (Join first fits same is) ≡ None }
    ensures needs_none { (fits : 0 < 2 ^ 64) (same : with_one poll 0 ≡ with_one poll 0) (is : reserved ≡ reserved) → joined_by {worker = 3} {old = with_one poll 0} {new = with_one poll 0} {g = reserved} {g' = reserved} (Join first fits same is) ≡ None }
    ensures stands { StandsAt occupied.opens 1 (key_of 3 first) }
    ensures not_yet { StandsAt reserved.opens 1 (key_of 3 first) → ⊥ }
    ensures elsewhere { StandsAt occupied.opens 0 (key_of 3 first) → ⊥ }
    ensures dropped { (worker : ℕ) → Call worker (with_one sync 0) (with_one sync 0) occupied reserved → ⊥ }
{}
