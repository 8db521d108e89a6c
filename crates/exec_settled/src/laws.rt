//! The laws of what is settled, for every state of an executor.

ghost use Rattle.exec_machine.specs.{declared.{config.Configuration.Configuration, step.Action.Action}, Progress.{IsRightlyAsleep, Plan}, Run.Follows, World.World};
ghost use Rattle.exec_moves.specs.Plays.{Playing, by_step, first_playing};
ghost use Rattle.exec_books.specs.Booked.{IsBooked};
ghost use Rattle.exec_rest.specs.{AtRest.{AreBare, AreFresh, IsPlaced, RestsWell}, Posted.IsPosted, Rested.IsRestful};
ghost use Rattle.exec_settled.specs.{Awaited.IsAwaited, Given.IsGiven, Parked.{NobodySleepsOnWork, NoneIsForgotten}, Permits.IsPermitted, Settled.{HaveLetGo, IsSettled}};

/// What is settled stays so in each step that follows in the machine: what a worker has done before it sleeps, permits that
/// are passed on, and who is to be told of what has come.
pub fn what_is_settled_stays_so()
    ensures first_settled { (p : Plan) → IsSettled p.config (first_playing p) }
    ensures first_permitted { (p : Plan) → IsPermitted p.config (first_playing p) }
    ensures first_awaited { (p : Plan) → IsAwaited p.config (first_playing p) }
    ensures settled { (c : Configuration) (x : Playing) → IsPlaced c x → IsGiven c x → (a : Action) → let it = (by_step c x a).told in
        Follows c x.world a it.0.said it.1 → IsSettled c x → IsSettled c (by_step c x a).next }
    ensures permitted { (c : Configuration) (x : Playing) → IsPlaced c x → IsGiven c x → IsBooked x.world → (a : Action) → let it = (by_step c x a).told in
        Follows c x.world a it.0.said it.1 → IsGiven c (by_step c x a).next → IsPermitted c x → IsPermitted c (by_step c x a).next }
    ensures awaited { (c : Configuration) (x : Playing) → IsPlaced c x → IsGiven c x → (a : Action) → let it = (by_step c x a).told in
        Follows c x.world a it.0.said it.1 → IsGiven c (by_step c x a).next → IsAwaited c x → IsAwaited c (by_step c x a).next }
{}

/// Whoever sleeps has nothing to do, whatever the others do meanwhile, or somebody's next step wakes it; and who closes sleeps
/// only while a request of its own isn't over, each of which is held up. No runnable is left in the hand of who sleeps, has ended
/// or is in no call. While something lies in the global queue somebody looks for a worker, or one of the pool is awake or is woken
/// next. And no request is forgotten, whether anybody sleeps or not.
pub fn nobody_sleeps_on_work()
    ensures parked { (c : Configuration) (x : Playing) → IsPlaced c x → IsGiven c x → IsRestful c x → IsBooked x.world → IsSettled c x →
        IsPermitted c x → AreBare c x → IsPosted c x → AreFresh x → IsAwaited c x → NobodySleepsOnWork c x }
    ensures unforgotten { (c : Configuration) (x : Playing) → IsGiven c x → IsBooked x.world → IsPermitted c x → IsAwaited c x →
        NoneIsForgotten c x }
{}

/// Where all workers sleep and no call is half done nothing is unfinished; and wherever a closing worker sleeps, a request of
/// its own isn't over.
pub fn nothing_is_unfinished_where_all_sleep()
    ensures asleep { (c : Configuration) (x : Playing) → IsPlaced c x → IsGiven c x → IsRestful c x → RestsWell c x → IsBooked x.world →
        IsSettled c x → IsPermitted c x → IsAwaited c x → IsRightlyAsleep c x.world }
{}

/// A worker that has ended has let go of all its requests: each is over and released.
pub fn who_has_ended_has_let_go()
    ensures ended { (w : World) → IsBooked w → HaveLetGo w }
{}
