//! Worked examples of what is written.

ghost use Rattle.std.specs.{Prelude.{◌≡◌, ◌≢◌, true, false, [], ◌∷◌, ◌++◌, Some, codes}, Fmt.decimal};
ghost use Rattle.exec_books.specs.Examples.{its_own, its_request, its_seat, one_asleep, one_send, sending, with_own, with_seat};
ghost use Rattle.exec_machine.specs.{declared.{state.{RequestPhase.TheVariants.{Resolved, Staged}, Rest.TheVariants.Forever}, event.{Event.TheVariants.{Enter, Rouse, Stage, Turn}, StepResult.{StepResult, TheVariants.{Refused, Did}}}, step.{Action.TheVariants.{Clock, GoOn, Work}, Step.Step as step}}, Choice.{Choice, Choice.Plain}, Examples.{Told, usual}, Progress.{Party.{Caller, Worker}, is_solo, longer, no_stretch}, Text.told_lines};
ghost use Rattle.exec_moves.specs.Plays.{first_playing};
ghost use Rattle.exec_outcomes.specs.declared.outcome.Outcome.TheVariants.{Success};
ghost use Rattle.exec_run.specs.{Log.{InEach, IsTheLogOf, KeepOwned, NoneOversleeps}, Examples.at_first, declared.{field.Field.TheVariants.{Workers, Layout}, complaint.Complaint.TheVariants.{Usage, Syntax, Config, TooLong}}, Explains.complaint_line, Refusal.{TakesWithin, status_of, text_of_complaint, words_of_trace}};

/// Complaints, and the status that each ends with.
pub fn complaints()
    ensures workers { text_of_complaint (Config (record { field = Workers; value = 65 })) ≡ codes "error Config workers " ++ decimal 65 }
    ensures layout { text_of_complaint (Config (record { field = Layout; value = 1 })) ≡ codes "error Config layout " ++ decimal 1 }
    ensures status { status_of (Config (record { field = Workers; value = 65 })) ≡ 3 }
    ensures usage { complaint_line Usage ≡ codes "error Usage" ++ 10 ∷ [] }
    ensures no_line_feed { text_of_complaint Usage ≢ codes "error Usage" ++ 10 ∷ [] }
    ensures another_status { status_of (TooLong 2) ≢ status_of (Syntax 2) }
{}

/// What is told of three lines of a worker, of which one is quiet and one refused.
pub fn told()
    ensures whole { told_lines false (record { action = Work 0; said = Did Enter } ∷ record { action = Work 0; said = Did (Stage 7) } ∷ record { action = Work 0; said = Refused } ∷ []) ≡ record { action = Work 0; said = Did Enter } ∷ record { action = Work 0; said = Did (Stage 7) } ∷ record { action = Work 0; said = Refused } ∷ [] }
    ensures quiet { told_lines true (record { action = Work 0; said = Did Enter } ∷ record { action = Work 0; said = Did (Stage 7) } ∷ record { action = Work 0; said = Refused } ∷ []) ≡ record { action = Work 0; said = Did (Stage 7) } ∷ record { action = Work 0; said = Refused } ∷ [] }
    ensures not_refused { told_lines true (record { action = Work 0; said = Refused } ∷ []) ≢ [] }
{}

/// The words that ask for a run.
pub fn words()
    ensures quiet { words_of_trace true ≡ codes "trace" ∷ codes "quiet" ∷ [] }
    ensures loud { words_of_trace true ≢ codes "trace" ∷ codes "loud" ∷ [] }
    ensures one { words_of_trace false ≢ words_of_trace true }
{}

/// What may be taken of a source of two or three bytes.
pub fn taken()
    ensures two { TakesWithin 2 (Some (1 ∷ 2 ∷ 3 ∷ [])) (Some (3 ∷ [])) }
    ensures no_more { TakesWithin 1 (Some (1 ∷ 2 ∷ 3 ∷ [])) (Some (3 ∷ [])) → ⊥ }
    ensures not_the_last { TakesWithin 1 (Some (1 ∷ 2 ∷ [])) (Some (1 ∷ [])) → ⊥ }
{}

/// How many quiet lines a party has made on end: one more by its own; another party's are its first, and a line that isn't
/// quiet ends them.
pub fn quiet_lines()
    ensures more { longer at_first (GoOn 3) (Did Turn) (record { party = Caller 3; count = 7 }) ≡ record { party = Caller 3; count = 8 } }
    ensures of_another { longer at_first (GoOn 4) (Did Turn) (record { party = Caller 3; count = 7 }) ≡ record { party = Caller 4; count = 1 } }
    ensures of_a_worker { longer at_first (Work 0) (Did Turn) (record { party = Caller 3; count = 7 }) ≡ record { party = Worker 0; count = 1 } }
    ensures refused { longer at_first (GoOn 3) Refused (record { party = Caller 3; count = 7 }) ≡ record { party = Caller 3; count = 7 } }
    ensures not_quiet { longer at_first (GoOn 3) (Did (Rouse 0)) (record { party = Caller 3; count = 7 }) ≡ no_stretch }
{}

/// With one worker that doesn't spin, and no request made, the bound is 2,176: a party may make one quiet line less on end.
pub fn parties_that_end()
    ensures below { is_solo usual at_first (record { party = Worker 0; count = 2174 }) (record { action = Work 0; said = Did Turn } ∷ []) (Plain ∷ []) ≡ true }
    ensures for_ever { is_solo usual at_first (record { party = Worker 0; count = 2175 }) (record { action = Work 0; said = Did Turn } ∷ []) (Plain ∷ []) ≡ false }
    ensures not_quiet { is_solo usual at_first (record { party = Worker 0; count = 2175 }) (record { action = Work 0; said = Did (Rouse 0) } ∷ []) (Plain ∷ []) ≡ true }
    ensures of_a_caller { is_solo usual at_first (record { party = Worker 0; count = 2175 }) (record { action = GoOn 3; said = Did Turn } ∷ []) (Plain ∷ []) ≡ true }
    ensures caller_for_ever { is_solo usual at_first (record { party = Caller 3; count = 2175 }) (record { action = GoOn 3; said = Did Turn } ∷ []) (Plain ∷ []) ≡ false }
{}

/// What a request owns is let go only once it is over. One that the kernel has keeps it, and one that is over may have let
/// it go; refused is one that the kernel has, and one in the submission queue, of which it was let go.
pub fn what_requests_own()
    ensures flying { KeepOwned (with_own its_own its_request) }
    ensures over { KeepOwned (with_own its_own (record its_request { phase = Resolved Success; released = true })) }
    ensures let_go { KeepOwned (with_own its_own (record its_request { released = true })) → ⊥ }
    ensures staged { KeepOwned (with_own its_own (record its_request { phase = Staged; released = true })) → ⊥ }
{}

/// A worker that sleeps does so until its deadline, which is ahead. One that sleeps without end though it has a deadline is
/// refused, and so is one that sleeps on at that moment.
pub fn who_sleeps()
    ensures until { NoneOversleeps sending }
    ensures for_ever { NoneOversleeps (with_seat (record its_seat { rest = Forever })) → ⊥ }
    ensures on { NoneOversleeps (record sending { common = record sending.common { clock = 10000000 } }) → ⊥ }
{}

/// What is said of each state of a log is said of the last one, and of the one before each line. Refused is a state with a
/// request in flight of which something was let go, whether or not a line comes after it; one to which a line leads, if the clock is
/// to stand still; and a log with a line for no step, or with no line for one.
pub fn each_state()
    ensures kept { InEach (λ x. KeepOwned x.world) one_send.config one_asleep [] }
    ensures last { InEach (λ x. KeepOwned x.world) one_send.config
        (record one_asleep { world = with_own its_own (record its_request { released = true }) }) [] → ⊥ }
    ensures before { (it : Told) → InEach (λ x. KeepOwned x.world) one_send.config
        (record one_asleep { world = with_own its_own (record its_request { released = true }) }) (it ∷ []) → ⊥ }
    ensures after { (said : StepResult) (choice : Choice) → InEach (λ x. x.world.common.clock ≡ 0) one_send.config (first_playing one_send)
        ((record { action = Clock 5; said = said }, choice) ∷ []) → ⊥ }
    ensures of_no_step { (it : Told) → IsTheLogOf one_send [] (it ∷ []) → ⊥ }
    ensures no_line { IsTheLogOf one_send (step.Work 0 1 ∷ []) [] → ⊥ }
{}
