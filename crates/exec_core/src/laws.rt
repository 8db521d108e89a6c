//! Laws of executors of several workers.

ghost use Rattle.std.specs.Prelude.{◌≡◌, ℕ, ◌&&◌, ◌||◌, not, true, Some, None, if◌then◌else◌};
ghost use Rattle.exec_base.specs.declared.{error.Error.{Error}, spinner.SpinnerConfig.{SpinnerConfig}};
ghost use Rattle.exec_outcomes.specs.{Accounts.is_durable, declared.outcome.{OpResult.OpResult, Outcome.TheVariants.Success}};
ghost use Rattle.exec_machine.specs.{declared.{config.Configuration.Configuration, event.{Event.TheVariants.{Grant, Reap}, StepResult.TheVariants.Did}, step.Action.TheVariants.Work}, Choice.Choice, Progress.Plan, Requests.account_of_open, Run.Follows, World.{Common, Task, World, request_of}};
ghost use Rattle.exec_moves.specs.{Plays.Playing, Poll.{is_noted, pend}, State.Desk};
ghost use Rattle.exec_core.specs.{declared.{config.{Config.Config, RingConfig.RingConfig}, executor.Core.Core}, Lift.{Stands, Shows}, Once.QueuesOnce, Turns.TakeTurns};

use crate::config::{Config, RingConfig};
use exec_base::spinner::SpinnerConfig;
use exec_parts::scripted::Scripted;

/// In each state an ordinary task that is to be polled has one runnable, in one queue or one hand, until the task set or
/// the global queue is closed, and then one at most; one that is polled has none. A root that is to be polled has one in
/// any case, in the flag or the hand of its worker; any other root has none. A poll that ends pending gives one where a
/// wake came in it, and none where the task was cleared; one of a root sets its flag again instead.
pub fn a_task_is_queued_once<B: Scripted + Drop>()
    ensures once { (p : Plan) (c : Core B) (x : Playing) → Stands c → Shows B.left B.runs B.holds B.spot p c x →
        QueuesOnce x }
    ensures again { (i t : ℕ) (s : Common) (d : Desk) (it : Task) → it.home ≡ None → d.hand ≡ None →
        (pend i t s d it).desk.hand ≡ (if is_noted it.phase && not it.cleared then Some t else None) }
    ensures root { (i t home : ℕ) (s : Common) (d : Desk) (it : Task) → it.home ≡ Some home →
        ((pend i t s d it).desk.hand ≡ d.hand) × ((pend i t s d it).desk.root_ready ≡ (d.root_ready || is_noted it.phase)) }
{}

/// A clone of a configuration equals its source.
pub fn a_clone_is_its_source()
    ensures runner { (c d : Config) → ⟦<Config as Clone>⟧.is_clone c d → d ≡ c }
    ensures ring { (c d : RingConfig) → ⟦<RingConfig as Clone>⟧.is_clone c d → d ≡ c }
    ensures spinner { (c d : SpinnerConfig) → ⟦<SpinnerConfig as Clone>⟧.is_clone c d → d ≡ c }
{}

/// In each state, of the durable requests of an open one has the permit at most, so one at most has an operation; and
/// a write or a sync that isn't over was not cancelled, whether somebody waits for it or nobody does.
pub fn durable_requests_take_turns<B: Scripted + Drop>()
    ensures turns { (p : Plan) (c : Core B) (x : Playing) → Stands c → Shows B.left B.runs B.holds B.spot p c x →
        TakeTurns x.world.common.requests }
{}

/// Once its open keeps a failure no durable request ends well: no run has a line that tells so, neither as the request
/// is granted the permit nor by what its operations gave.
pub fn no_durable_request_ends_well_after_a_kept_failure()
    ensures granted { (c : Configuration) (w : World) (i r : ℕ) (error : Error) (choice : Choice) →
        (account_of_open w.common (request_of w.common r)).failure ≡ Some error →
        Follows c w (Work i) (Did (Grant r (Some Success))) choice → ⊥ }
    ensures reaped { (c : Configuration) (w : World) (i r : ℕ) (n : OpResult) (error : Error)
        (choice : Choice) → is_durable (request_of w.common r).operation.kind ≡ true →
        (account_of_open w.common (request_of w.common r)).failure ≡ Some error →
        Follows c w (Work i) (Did (Reap r n (Some Success))) choice → ⊥ }
{}
