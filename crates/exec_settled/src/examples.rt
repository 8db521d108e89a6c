//! Worked examples of what is settled.

ghost use Rattle.std.specs.Prelude.{◌≡◌, true, false, [], ◌∷◌, Some, None};
ghost use Rattle.exec_outcomes.specs.declared.outcome.Outcome.TheVariants.{Success};
ghost use Rattle.exec_machine.specs.{Deadlines.new_sleeper, Progress.IsRightlyAsleep, Tasks.new_seat, World.{no_open, seat_of}, declared.state.{Forwarding.TheVariants.{Applied, Sent}, RequestPhase.TheVariants.{Flying, Queued, Resolved, Staged}, TaskPhase.TaskPhase as task, WorkerPhase.TheVariants.Ended}};
ghost use Rattle.exec_moves.specs.{Call.no_call, MailLogs.a_write, State.no_queue, Thing.set_queue, declared.{handing.{AfterSignal.AfterSignal, InSignal.TheVariants.{Raise, SetLatch}}, idling.{AfterWait.{AfterWait, TheVariants.Begin}, InRingWait.InRingWait, InWordWait.InWordWait, Stay.{Stay, Stay as stay}}, place.{AfterPermit.AfterPermit, Service.Service, InService.InService as service, Place.Place as at}}};
ghost use Rattle.exec_books.specs.Examples.{one_asleep, one_send, its_own, its_request, with_own};
ghost use Rattle.exec_rest.specs.{Examples.{rested, two_waiting, with_a_latch, with_a_message, with_a_runnable}, AtRest.stays_closing};
ghost use Rattle.exec_settled.specs.{Awaited.IsAwaited, Given.{IsGiven, NobodyWaitsInVain, passes_at}, Parked.{IsBeingWoken, IsHeldUp, IsParked, NobodySleepsOnWork, NoneIsForgotten}, Permits.{IsPermitted, hands_to, is_past}, Settled.{HaveLetGo, IsSettled, ends_ring_wait}, Examples.{acting, closing_with, ended_with, its_root, on_ring, second, sleeps_here, two_sends, waits_elsewhere, waits_for, waits_here, with_permit, with_permit_told, with_queue, with_root, with_second, with_sleeper, with_task, with_two_writes, with_write}};
ghost use Rattle.exec_moves.specs.declared.idling.InRingWait.TheVariants as ring;
ghost use Rattle.exec_moves.specs.declared.place.AfterService.TheVariants as back;

/// What is known of a worker by its place. In the service of a turn it has passed the gate of open 0 once it is to look
/// at gate 1, not before, and so in that of a worker that closes; in any other service it hasn't, since another turn comes
/// then, nor where a turn begins. Who waits on its wake word or on its ring has passed all gates. Who leaves the gate of
/// open 3 passes its permit on, and who signals worker 1 after that hands it one, which other signals don't. A wait on
/// the ring ends next where the wait bits go out of the wake word.
pub fn places()
    ensures begins { is_past 0 at.BeginTurn ≡ false }
    ensures at_gate { is_past 0 (at.Service (service.Submit 0) (record { defer = false; back = back.Mail })) ≡ false }
    ensures past_gate { is_past 0 (at.Service (service.Submit 1) (record { defer = false; back = back.Mail })) ≡ true }
    ensures turns { is_past 0 (at.Service (service.Submit 1) (record { defer = false; back = back.Begin })) ≡ false }
    ensures waits_past { (p : InWordWait) → is_past 0 (at.WordWait p) ≡ true }
    ensures finishes { is_past 0 (at.Service (service.Submit 1) (record { defer = false; back = back.Finish })) ≡ true }
    ensures finishes_later { is_past 0 (at.Service (service.Submit 0) (record { defer = false; back = back.Finish })) ≡ false }
    ensures waits_on_ring { (p : InRingWait) (y : Stay) → is_past 0 (at.RingWait p y) ≡ true }
    ensures passes { (b : AfterPermit) → (v : Service) → passes_at (at.Service (service.PassPermit 3 b) v) ≡ Some 3 }
    ensures hands { (b : AfterPermit) → (v : Service) → hands_to (at.Service (service.Signal 1 b) v) ≡ Some 1 }
    ensures hands_none { (b : AfterSignal) → hands_to (at.Signal SetLatch 1 b) ≡ None }
    ensures closing { (p : InRingWait) → stays_closing (at.RingWait p stay.Closing) ≡ true }
    ensures ends { (n : AfterWait) → ends_ring_wait (at.RingWait (ring.DisarmRing n) stay.Turn) ≡ true }
    ensures sleeps { ends_ring_wait (at.RingWait ring.SleepOnRing stay.Turn) ≡ false }
{}

/// Two workers whose roots wait have made their steps until both sleep. All that the law takes for granted holds of
/// them, and all that it keeps; and nothing is unfinished.
pub fn two_at_rest()
    ensures given { IsGiven two_waiting.config rested }
    ensures settled { IsSettled two_waiting.config rested }
    ensures permitted { IsPermitted two_waiting.config rested }
    ensures awaited { IsAwaited two_waiting.config rested }
    ensures asleep { IsRightlyAsleep two_waiting.config rested.world }
    ensures parked { NobodySleepsOnWork two_waiting.config rested }
    ensures unforgotten { NoneIsForgotten two_waiting.config rested }
{}

/// A worker sleeps on its ring while the kernel has a send of it, for which its root waits. It has nothing to do, and the
/// send isn't forgotten. Refused is the same where that was cancelled, and the kernel was not told.
pub fn one_in_flight()
    ensures parked { NobodySleepsOnWork one_send.config one_asleep }
    ensures unforgotten { NoneIsForgotten one_send.config one_asleep }
    ensures untold { NobodySleepsOnWork one_send.config (on_ring
        (with_own (record its_own { untold = 0 ∷ [] }) (record its_request { cancelled = true; cancel_staged = true }))) → ⊥ }
{}

/// Workers that sleep with something left to do are refused: one that has a task to wake; one that waits as one that
/// closes, though it has no request; and on its ring one whose request may be staged, or is staged, and the kernel
/// doesn't have it.
pub fn left_undone()
    ensures unwoken { IsSettled two_waiting.config (with_second (record second { wakes = 1 ∷ [] })) → ⊥ }
    ensures for_nothing { IsSettled two_waiting.config
        (with_second (record second { place = at.RingWait (ring.DisarmRing Begin) stay.Closing })) → ⊥ }
    ensures unstaged { IsSettled one_send.config (on_ring
        (with_own (record its_own { ready = 0 ∷ []; in_flight = 0 }) (record its_request { phase = Queued }))) → ⊥ }
    ensures unentered { IsSettled one_send.config
        (on_ring (with_own its_own (record its_request { phase = Staged }))) → ⊥ }
{}

/// A permit lies with a request of a worker that sleeps on its wake word. It is refused where nobody signals that
/// worker; where its wake word has a latch the permit is on its way.
pub fn a_permit_asleep()
    ensures left { IsPermitted two_waiting.config with_permit → ⊥ }
    ensures told { IsPermitted two_waiting.config with_permit_told }
{}

/// A task waits idle for a request that is over, or a sleeper that has fired, and all sleep, so nobody wakes it. That is refused
/// where these are of the task's own worker, and where another worker has sent the end of the request. So is a request of its own
/// worker that isn't over, and doesn't stand in that one's books of who waits.
pub fn a_wait_for_what_came()
    ensures here { IsAwaited two_waiting.config waits_here → ⊥ }
    ensures elsewhere { IsAwaited two_waiting.config waits_elsewhere → ⊥ }
    ensures asleep { IsAwaited two_waiting.config sleeps_here → ⊥ }
    ensures unbooked { IsAwaited two_waiting.config (waits_for (record its_request { worker = 1 })) → ⊥ }
{}

/// Two workers sleep, and nobody wakes one of them next. Refused is any state of theirs with something left to do: worker 1
/// has a message; it was signalled; it has the permit of an open, and wasn't granted it; its root waits for a request that is
/// over, or for a sleeper that has fired, is to be polled, was woken since it was polled last, or is over; a request of its own is
/// over, and was not released; one waits for a permit that nobody has; the moment of a sleeper of its own has come; or something
/// lies in its run queue, or in the global one. Where worker zero signals it next, ends its wait, passes on the permit that a request
/// of it has, or signals it since it passed one on, worker 1 is being woken.
pub fn a_wake_left()
    ensures left { IsParked two_waiting.config rested 1 }
    ensures signalled { (b : AfterSignal) → IsBeingWoken two_waiting.config (acting (at.Signal SetLatch 1 b)) 1 }
    ensures raised { (b : AfterSignal) → IsBeingWoken two_waiting.config (acting (at.Signal (Raise false) 1 b)) 1 }
    ensures passed { (b : AfterPermit) (v : Service) → IsBeingWoken two_waiting.config
        (record with_permit { desks = (acting (at.Service (service.PassPermit 0 b) v)).desks }) 1 }
    ensures handed { (b : AfterPermit) (v : Service) → IsBeingWoken two_waiting.config (acting (at.Service (service.Signal 1 b) v)) 1 }
    ensures unread { NobodySleepsOnWork two_waiting.config with_a_message → ⊥ }
    ensures unrung { NobodySleepsOnWork two_waiting.config with_a_latch → ⊥ }
    ensures ungranted { NobodySleepsOnWork two_waiting.config with_permit → ⊥ }
    ensures unled { NobodySleepsOnWork two_waiting.config (with_write (a_write 1) (record no_open { waiting = 0 ∷ [] })) → ⊥ }
    ensures unreleased { NobodySleepsOnWork two_waiting.config
        (with_write (record (a_write 1) { phase = Resolved Success }) no_open) → ⊥ }
    ensures unheard { NobodySleepsOnWork two_waiting.config waits_here → ⊥ }
    ensures unwoken { NobodySleepsOnWork two_waiting.config sleeps_here → ⊥ }
    ensures unpolled { NobodySleepsOnWork two_waiting.config (with_root (record its_root { phase = task.Queued })) → ⊥ }
    ensures unseen { NobodySleepsOnWork two_waiting.config (with_root (record its_root { fresh = false })) → ⊥ }
    ensures unclosed { NobodySleepsOnWork two_waiting.config (with_root (record its_root { phase = task.Done })) → ⊥ }
    ensures unfired { NobodySleepsOnWork two_waiting.config (with_sleeper (new_sleeper 0 1 1)) → ⊥ }
    ensures unpicked { NobodySleepsOnWork two_waiting.config with_queue → ⊥ }
    ensures uncovered { NobodySleepsOnWork two_waiting.config with_a_runnable → ⊥ }
{}

/// While worker zero is awake, an ordinary task is to be polled. Refused is a worker that sleeps with its runnable in its hand,
/// among those that it stole, or aside of its run queue; one that has ended with it in its hand; a caller that has it, and is in no
/// call; and a dedicated worker that has ended with it in its run queue.
pub fn a_runnable_kept()
    ensures in_hand { NobodySleepsOnWork two_waiting.config
        (record (with_second (record second { hand = Some 2 })) { world = with_task (seat_of rested.world.common 1) }) → ⊥ }
    ensures stolen { NobodySleepsOnWork two_waiting.config
        (record (with_second (record second { loot = 2 ∷ [] })) { world = with_task (seat_of rested.world.common 1) }) → ⊥ }
    ensures aside { NobodySleepsOnWork two_waiting.config (record rested
        { world = with_task (seat_of rested.world.common 1); things = set_queue 1 rested.things (record no_queue { held = 2 ∷ [] }) }) → ⊥ }
    ensures at_its_end { NobodySleepsOnWork two_waiting.config
        (record (with_second (record second { hand = Some 2 })) { world = with_task (record (new_seat true) { phase = Ended }) }) → ⊥ }
    ensures called { NobodySleepsOnWork two_waiting.config (record rested
        { world = with_task (seat_of rested.world.common 1); callers = record no_call { hand = Some 2 } ∷ [] }) → ⊥ }
    ensures left_queued { NobodySleepsOnWork two_waiting.config
        (record with_queue { world = with_task (record (new_seat false) { phase = Ended }) }) → ⊥ }
{}

/// A task waits for a request that says so, and that it holds. Refused is a request that tells another task, or one that nobody
/// holds. And one that is queued is forgotten where it stands in no list, and one elsewhere where the message that somebody waits for
/// it is lost. One that waits for a permit is forgotten where it stands at no gate, where that is of no open, and where nobody has
/// that permit; and so is a write that flies without it.
pub fn a_wait()
    ensures kept { NobodyWaitsInVain (waits_for (record its_request { worker = 1; waiter = Some 1 })).world.common }
    ensures of_another { NobodyWaitsInVain (waits_for (record its_request { worker = 1 })).world.common → ⊥ }
    ensures unheld { NobodyWaitsInVain (waits_for (record its_request { worker = 1; waiter = Some 1; observed = false })).world.common → ⊥ }
    ensures unsaid { NoneIsForgotten two_waiting.config (waits_for (record its_request { worker = 0; waiter = Some 1; forwarding = Sent })) → ⊥ }
    ensures in_no_list { NoneIsForgotten two_waiting.config
        (waits_for (record its_request { worker = 1; waiter = Some 1; phase = Queued; forwarding = Applied })) → ⊥ }
    ensures off_the_gate { NoneIsForgotten two_waiting.config (with_write (a_write 1) no_open) → ⊥ }
    ensures of_no_open { NoneIsForgotten two_waiting.config
        (with_write (record (a_write 1) { operation = record (a_write 1).operation { target = 1 } }) no_open) → ⊥ }
    ensures unled { NoneIsForgotten two_waiting.config (with_write (a_write 1) (record no_open { waiting = 0 ∷ [] })) → ⊥ }
    ensures unpermitted { NoneIsForgotten two_waiting.config (with_write (record (a_write 1) { phase = Flying }) no_open) → ⊥ }
{}

/// A worker that has ended has let go of its request where that is over and released. It is refused with one that is over,
/// and not released, and with one that flies, though that is said to be released.
pub fn an_end()
    ensures let_go { HaveLetGo (ended_with (record its_request { phase = Resolved Success; released = true })) }
    ensures unreleased { HaveLetGo (ended_with (record its_request { phase = Resolved Success })) → ⊥ }
    ensures flying { HaveLetGo (ended_with (record its_request { released = true })) → ⊥ }
{}

/// A request that isn't over is held up where the kernel has it, where another one has the permit that it waits for, and where the
/// ring is full. It is not where it may be staged, as in a ring with another place, nor where it has the permit. A worker that
/// closes and sleeps, and whom nobody wakes next, is refused where its only request is over, or is cancelled, and no cancel staged.
pub fn a_close_asleep()
    ensures flying { IsHeldUp two_waiting.config (waits_for (record its_request { worker = 1 })) 0 }
    ensures behind { IsHeldUp two_waiting.config with_two_writes 1 }
    ensures ring_full { IsHeldUp (record one_send.config { ring = 1 }) two_sends 1 }
    ensures place_left { IsHeldUp (record one_send.config { ring = 2 }) two_sends 1 → ⊥ }
    ensures queued { IsHeldUp two_waiting.config (waits_for (record its_request { worker = 1; phase = Queued })) 0 → ⊥ }
    ensures first { IsHeldUp two_waiting.config with_two_writes 0 → ⊥ }
    ensures over { NobodySleepsOnWork two_waiting.config
        (closing_with (record its_request { worker = 1; phase = Resolved Success; released = true })) → ⊥ }
    ensures uncancelled { NobodySleepsOnWork two_waiting.config (closing_with (record its_request { worker = 1; cancelled = true })) → ⊥ }
{}
