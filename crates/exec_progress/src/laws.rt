//! The laws of what a worker among several has left, for every state of an executor.

ghost use Rattle.std.specs.Prelude.{◌≡◌, ◌≤◌, ◌<◌, ◌^◌, ℕ, suc, true};
ghost use Rattle.exec_machine.specs.{declared.{config.Configuration.Configuration, step.Action.{Action, TheVariants.Work}}, Progress.{Plan, is_quiet_step, quiet_bound}, Run.Follows, Tests.is_open, World.seat_of};
ghost use Rattle.exec_moves.specs.Plays.{Playing, by_step, first_playing};
ghost use Rattle.exec_rest.specs.{AtRest.{AreBare, IsPlaced}, Posted.IsPosted, Rested.IsRestful};
ghost use Rattle.exec_settled.specs.{Given.IsGiven, Settled.IsSettled};
ghost use Rattle.exec_progress.specs.{Left.left_to, Granted.IsGranted, Paced.IsPaced};

/// Each quiet step of a worker, while nobody closes, costs some of what it has left, of which an open worker never has as
/// much as the bound on quiet lines. What that rests on holds of the first state, where there are at most 64 files, and
/// each step that follows in the machine keeps it. It counts steps: a run queue that has given out 2^55 values takes no
/// more, so the law is of the first 2^32 steps.
pub fn no_worker_turns_for_ever()
    ensures first { (p : Plan) → p.config.spin.budget ≤ p.config.spin.most → p.config.files ≤ 64 →
        IsPaced 0 p.config (first_playing p) }
    ensures kept { (n : ℕ) (c : Configuration) (x : Playing) → IsPlaced c x → IsGiven c x → IsGranted c x → IsRestful c x →
        IsPaced n c x → (a : Action) → let it = (by_step c x a).told in
        Follows c x.world a it.0.said it.1 → IsPaced (suc n) c (by_step c x a).next }
    ensures falls { (n : ℕ) → n ≤ 2 ^ 32 → (c : Configuration) (x : Playing) → IsPlaced c x → IsGiven c x → IsGranted c x →
        IsRestful c x → AreBare c x → IsPosted c x → IsPaced n c x → (i : ℕ) →
        is_quiet_step x.world (by_step c x (Work i)).told.0.said ≡ true →
        left_to c (by_step c x (Work i)).next i < left_to c x i }
    ensures bounded { (n : ℕ) (c : Configuration) (x : Playing) → IsGranted c x → IsSettled c x → IsPaced n c x → (i : ℕ) →
        is_open (seat_of x.world.common i).phase ≡ true → left_to c x i < quiet_bound c x.world }
{}
