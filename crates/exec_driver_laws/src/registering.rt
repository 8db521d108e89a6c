//! Laws of what registrations do to the driver of a worker.

ghost use Rattle.std.specs.Prelude.{◌≡◌, ℕ, List};
ghost use Rattle.exec_base.specs.{Slab.value_at, declared.task_no.TaskNo.TaskNo};
ghost use Rattle.exec_opens.specs.Opens.{OpenState};
ghost use Rattle.exec_request.specs.declared.request.Request.{Request};
ghost use Rattle.exec_ring.specs.declared.store.Store.{Store};
ghost use Rattle.exec_waiters.specs.{Events.seen_by, declared.{observer.Observer.Observer, waiter_id.WaiterId.WaiterId}};
ghost use Rattle.exec_registration.specs.{Admissions.{Begins, IsKept, Registers}, Homes.HomeState, Looks.{after_look, with_task, without_output}, Mail.{Cancels, Forwards}, declared.{mail.{Cancel.Cancel, Forward.Forward}, operation.Started.Started, registration.RegistrationState.RegistrationState}};
ghost use Rattle.exec_driver_laws.specs.Sharing.{Call, Gates, with_lines};

/// What is done through registrations is a call of the worker. To register a request, and to begin a sync, is to admit one;
/// where memory is wanting no more than room changes. A poll by the worker of a request takes what it gave, or has it wake
/// another task, or leaves it. A forward that comes to the worker, and a cancel, is one of the driver, or leaves that as it
/// is where it is of a sleeper. Polls and releases elsewhere don't touch the worker.
pub fn registrations_make_calls_of_their_worker<S, F>()
    ensures registers { (worker now : ℕ) (old new : HomeState S F) (g : Gates) (opens : List OpenState) (request : Request) (state : RegistrationState WaiterId) → Registers old new g.opens opens request now state → Call worker old.driver new.driver g (with_lines g opens) }
    ensures begins { (worker now : ℕ) (old new : HomeState S F) (g : Gates) (opens : List OpenState) (request : Request) (observer : Observer S F) (started : Started) → Begins old new g.opens opens request observer now started → Call worker old.driver new.driver g (with_lines g opens) }
    ensures wants_memory { (worker : ℕ) (old new : HomeState S F) (g : Gates) (opens : List OpenState) (store store' : Store) → IsKept old new g.opens opens store store' → Call worker old.driver new.driver g (with_lines g opens) }
    ensures looks { (worker : ℕ) (old new : HomeState S F) (g : Gates) (id : WaiterId) (task : TaskNo) → new ≡ after_look (seen_by task (value_at old.driver.requests id.0)) (without_output id old) (with_task id task old) old → Call worker old.driver new.driver g g }
    ensures forwards { (worker : ℕ) (old new : HomeState S F) (g : Gates) (message : Forward S F) → Forwards old new message → Call worker old.driver new.driver g g }
    ensures cancels { (worker : ℕ) (old new : HomeState S F) (g : Gates) (message : Cancel) → Cancels old new message → Call worker old.driver new.driver g g }
{}
