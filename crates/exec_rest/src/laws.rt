//! The laws of rest, for every state of an executor.

ghost use Rattle.std.specs.Prelude.{◌≡◌, ℕ, true, []};
ghost use Rattle.exec_machine.specs.{declared.{config.Configuration.Configuration, step.Action.Action}, Progress.{Plan, all_asleep}};
ghost use Rattle.exec_moves.specs.{Plays.{Playing, by_step, first_playing}, State.inbox_of};
ghost use Rattle.exec_rest.specs.{AtRest.IsPlaced, Posted.IsPosted, Rested.{IsLaidOut, IsPoolOpen, IsRestful, NothingWaits, sleeps}};

/// What keeps wakes from being lost holds in the first state, and after each step of a worker, of a caller, of the
/// clock, the kernel or a peer, in whatever order they come.
#[tactic(auto, using(crate::proofs::First::first_restful, crate::proofs::Step::goes_on))]
pub fn no_step_loses_a_wake()
    ensures first { (p : Plan) → IsRestful p.config (first_playing p) }
    ensures kept { (c : Configuration) (x : Playing) → IsLaidOut c x → IsRestful c x → (a : Action) → IsRestful c (by_step c x a).next }
{}

/// And so does what keeps messages from being left.
#[tactic(auto, using(crate::proofs::OtherMail::first_posted, crate::proofs::Step::posted_goes_on))]
pub fn no_step_leaves_a_message()
    ensures first { (p : Plan) → IsPosted p.config (first_playing p) }
    ensures kept { (c : Configuration) (x : Playing) → IsLaidOut c x → IsRestful c x → IsPosted c x → (a : Action) →
        IsPosted c (by_step c x a).next }
{}

/// Where all workers sleep and no call is half done, while no worker of the pool has ended, nothing lies in the global
/// queue or in a run queue of the pool, nobody that sleeps was signalled, and no inbox of a worker that sleeps has a
/// message.
#[tactic(auto, using(crate::proofs::Rest::rests, crate::proofs::NoMail::no_mail))]
pub fn nothing_waits_where_all_sleep()
    ensures waits { (c : Configuration) (x : Playing) → IsPlaced c x → IsRestful c x → all_asleep x.world ≡ true →
        IsPoolOpen c x → NothingWaits c x }
    ensures messages { (c : Configuration) (x : Playing) → IsRestful c x → IsPosted c x → all_asleep x.world ≡ true → (i : ℕ) →
        sleeps c x i ≡ true → inbox_of x.things i ≡ [] }
{}
