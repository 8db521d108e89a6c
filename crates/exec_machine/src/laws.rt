//! Laws of the machine, for every run.

ghost use Rattle.std.specs.Prelude.{◌≡◌, ◌<◌, ℕ, true, false, List, [], ◌∷◌, ◌++◌, length, Option, Some, slice_index_or, slice_set};
ghost use Rattle.exec_outcomes.specs.{declared.outcome.{OpResult.OpResult, Outcome.Outcome}, Outcomes.{HasCome, outcome_of}};
ghost use Rattle.exec_machine.specs.{declared.{config.Configuration.Configuration, step.Action.{Action, TheVariants.Work}, event.{Event.Event, StepResult.StepResult, Line.Line}, state.{RequestPhase.TheVariants.Resolved, Request.Request, Sleeper.Sleeper}}, Choice.Choice, World.{World, Own, own_of, request_of, no_request, no_sleeper}, Tests.{IsOther, is_resolved}, Requests.{asked_of, cursor_of, judged_of, account_of_open, outcome_shown}, Deadlines.{first_timer, is_first_due, first_until, is_none_earlier}, After.after, Run.{RunsBy, is_run, after_line, world_after}, Results.{results_of, reaps}, Progress.{Plan, begin, IsRightlyAsleep, is_rightly_asleep, RightlyAsleepBy, is_always_rightly_asleep}};

/// What a run is can be computed: the test that computes says the same.
pub fn runs_compute()
    ensures sound { (c : Configuration) (w : World) (lines : List Line) (choices : List Choice) →
        is_run c w lines choices ≡ true → RunsBy c w lines choices }
    ensures complete { (c : Configuration) (w : World) (lines : List Line) (choices : List Choice) →
        RunsBy c w lines choices → is_run c w lines choices ≡ true }
{}

/// That no worker sleeps on work in a state can be computed as well.
pub fn rest_computes()
    ensures sound { (c : Configuration) (w : World) →
        is_rightly_asleep c w ≡ true → IsRightlyAsleep c w }
    ensures complete { (c : Configuration) (w : World) →
        IsRightlyAsleep c w → is_rightly_asleep c w ≡ true }
    ensures runs { (c : Configuration) (w : World) (lines : List Line) (choices : List Choice) →
        is_always_rightly_asleep c w lines choices ≡ true → RightlyAsleepBy c w lines choices }
{}

/// What is due at a worker is said over all requests and sleepers. A change at another worker keeps
/// it: one request or sleeper that is another worker's, before and after, or a new one of another
/// worker.
pub fn changes_elsewhere_keep_what_is_due()
    ensures timer { (i q : ℕ) (rs : List Request) (y : Request) →
        IsOther i (slice_index_or rs q no_request).worker → IsOther i y.worker →
        first_timer i (slice_set rs q y) ≡ first_timer i rs }
    ensures new_timer { (i : ℕ) (rs : List Request) (y : Request) → IsOther i y.worker →
        first_timer i (rs ++ y ∷ []) ≡ first_timer i rs }
    ensures due { (c : Configuration) (me : Own) (i q r : ℕ) (rs : List Request) (y : Request) →
        IsOther i (slice_index_or rs q no_request).worker → IsOther i y.worker →
        is_first_due c me i (slice_set rs q y) r ≡ is_first_due c me i rs r }
    ensures new_due { (c : Configuration) (me : Own) (i r : ℕ) (rs : List Request) (y : Request) →
        IsOther i y.worker → is_first_due c me i (rs ++ y ∷ []) r ≡ is_first_due c me i rs r }
    ensures sleeper { (i q : ℕ) (zs : List Sleeper) (y : Sleeper) →
        IsOther i (slice_index_or zs q no_sleeper).worker → IsOther i y.worker →
        first_until i (slice_set zs q y) ≡ first_until i zs }
    ensures new_sleeper { (i : ℕ) (zs : List Sleeper) (y : Sleeper) → IsOther i y.worker →
        first_until i (zs ++ y ∷ []) ≡ first_until i zs }
    ensures earlier { (i q until : ℕ) (zs : List Sleeper) (y : Sleeper) →
        IsOther i (slice_index_or zs q no_sleeper).worker → IsOther i y.worker →
        is_none_earlier i until (slice_set zs q y) ≡ is_none_earlier i until zs }
    ensures new_earlier { (i until : ℕ) (zs : List Sleeper) (y : Sleeper) → IsOther i y.worker →
        is_none_earlier i until (zs ++ y ∷ []) ≡ is_none_earlier i until zs }
{}

/// An event of one worker leaves every other worker's own part, and so does a step of any other
/// party.
pub fn own_parts_are_apart()
    ensures events { (c : Configuration) (w : World) (i j : ℕ) (event : Event) (choice : Choice) →
        (i ≡ j → ⊥) → j < length w.workers → own_of (after c w i event choice) j ≡ own_of w j }
    ensures lines { (c : Configuration) (w : World) (a : Action) (said : StepResult) (choice : Choice)
        (j : ℕ) → (a ≡ Work j → ⊥) → j < length w.workers →
        own_of (after_line c w a said choice) j ≡ own_of w j }
{}

/// In each state of a run a task is polled by at most one worker.
pub fn polls_are_apart()
    ensures { (p : Plan) (lines : List Line) (choices : List Choice) (i j t : ℕ) →
        RunsBy p.config (begin p) lines choices →
        let w = world_after p.config (begin p) lines choices in
        (own_of w i).polls ≡ Some t → (own_of w j).polls ≡ Some t → i ≡ j }
{}

/// A request that is over stays so with its outcome, and one that is released stays released.
pub fn ends_last()
    ensures over { (c : Configuration) (w : World) (lines : List Line) (choices : List Choice)
        (r : ℕ) (outcome : Outcome) → RunsBy c w lines choices → r < length w.common.requests →
        (request_of w.common r).phase ≡ Resolved outcome →
        (request_of (world_after c w lines choices).common r).phase ≡ Resolved outcome }
    ensures released { (c : Configuration) (w : World) (lines : List Line) (choices : List Choice)
        (r : ℕ) → RunsBy c w lines choices → r < length w.common.requests →
        (request_of w.common r).released ≡ true →
        (request_of (world_after c w lines choices).common r).released ≡ true }
{}

/// The machine keeps of a request's results only how far they brought it. In each run that stands
/// for all results that the run shows of it, as long as the request isn't over; so wherever a
/// result is judged, what is told is what all its results give, by the account of its open.
pub fn outcomes_are_of_all_results()
    ensures come { (p : Plan) (lines : List Line) (choices : List Choice) (r : ℕ) →
        RunsBy p.config (begin p) lines choices →
        let it = request_of (world_after p.config (begin p) lines choices).common r in
        is_resolved it.phase ≡ false →
        HasCome (asked_of it.operation) (cursor_of it.operation)
        (results_of p.config (begin p) r lines choices) }
    ensures judged { (p : Plan) (lines later : List Line) (choices : List Choice) (i r : ℕ)
        (n : OpResult) (outcome : Option Outcome) →
        RunsBy p.config (begin p) (lines ++ reaps i r n outcome ∷ later) choices →
        let s = (world_after p.config (begin p) lines choices).common in
        let it = request_of s r in
        outcome ≡ outcome_shown (account_of_open s it) it.operation.kind
        (outcome_of (asked_of it.operation)
        (results_of p.config (begin p) r lines choices ++ judged_of it n ∷ [])) }
{}
