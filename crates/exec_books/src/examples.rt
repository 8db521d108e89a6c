//! Worked examples of the books, and of what a line leaves.

ghost use Rattle.std.specs.Prelude.{◌≡◌, true, false, [], ◌∷◌, ◌++◌, Some, None};
ghost use Rattle.exec_outcomes.specs.declared.outcome.{Kind.TheVariants.{Read, Send}, OpResult.TheVariants.Count, Outcome.TheVariants.Success};
ghost use Rattle.exec_machine.specs.{Choice.{Choice.{Pays, Plain, Posts}, Payer.{ByAct, BySleeper}}, Deadlines.new_sleeper, Mail.posted, Requests.new_request, Tasks.{begun, new_own, new_seat}, Tests.{set_open, set_seat, set_task}, World.{no_open, no_operation, no_own, task_of}, declared.{event.Event.Event as event, state.{MailMessage.MailMessage as message, Forwarding.TheVariants.Sent, WorkerPhase.TheVariants.Ended}}};
ghost use Rattle.exec_books.specs.{Booked.{IsBooked, IsLinedUp}, Listed.IsListed, Reach.{OnlyReaches, names_open, names_task, new_by, request_elsewhere, seat_elsewhere, sleeper_elsewhere}, Examples.{sending, its_own, its_seat, its_request, its_write, at_gate, with_own, with_seat, beside, begun_with}};
ghost use Rattle.exec_machine.specs.declared.state.Next.TheVariants as next;
ghost use Rattle.exec_machine.specs.declared.state.RequestPhase.TheVariants as phase;
ghost use Rattle.exec_machine.specs.declared.state.Rest.TheVariants as rest;

/// A root sends ten bytes, which may take ten milliseconds, and its worker makes its steps until it sleeps. The kernel
/// has the request then, and its deadline is on the wheel: so it is in none of the lists. It is the one in flight, and
/// the one not released. The worker sleeps until the deadline. All books are right.
pub fn a_request_in_flight()
    ensures phase { its_request.phase ≡ phase.Flying }
    ensures timer { its_request.timer ≡ Some 10000000 }
    ensures ready { its_own.ready ≡ [] }
    ensures unenrolled { its_own.unenrolled ≡ [] }
    ensures ended { its_own.ended ≡ [] }
    ensures in_flight { its_own.in_flight ≡ 1 }
    ensures unreleased { its_own.unreleased ≡ 1 }
    ensures sleeps { its_seat.rest ≡ rest.Until 10000000 }
    ensures booked { IsBooked sending }
{}

/// Refused is a request that is in no list where it waits for something: a queued one, one that has landed, one whose
/// deadline is not on the wheel, one that is cancelled in flight, and one that is over, and not released.
pub fn in_no_list()
    ensures queued { IsListed no_own [] 0 (record its_request { phase = phase.Queued }) → ⊥ }
    ensures landed { IsListed no_own [] 0 (record its_request { phase = phase.Landed (Count 10) }) → ⊥ }
    ensures unenrolled { IsListed no_own [] 0 (record its_request { timer = None }) → ⊥ }
    ensures cancels { IsListed no_own [] 0 (record its_request { cancelled = true }) → ⊥ }
    ensures over { IsListed no_own [] 0 (record its_request { phase = phase.Resolved Success }) → ⊥ }
{}

/// A durable write that waits for the permit of its open stands at the gate, where another may have the permit; or it joins
/// by the next line of its worker. Once it is queued it has the permit. Refused is one that waits and stands nowhere, one
/// that is queued while another has the permit, or nobody, and what isn't durable, and waits. Of an open that isn't there
/// nothing is said.
pub fn at_a_gate()
    ensures behind { let o = record no_open { holder = Some 1; waiting = 0 ∷ [] } in
        IsLinedUp (at_gate its_own o its_write) 0 its_write }
    ensures first { IsLinedUp (at_gate its_own (record no_open { holder = Some 0 }) its_write) 0 its_write }
    ensures joins { IsLinedUp (at_gate (record its_own { next = next.Joins 0 }) no_open its_write) 0 its_write }
    ensures queued { let r = record its_write { phase = phase.Queued } in
        IsLinedUp (at_gate its_own (record no_open { holder = Some 0 }) r) 0 r }
    ensures nowhere { IsLinedUp (at_gate its_own no_open its_write) 0 its_write → ⊥ }
    ensures joins_another { IsLinedUp (at_gate (record its_own { next = next.Joins 1 }) no_open its_write) 0 its_write → ⊥ }
    ensures too_early { let r = record its_write { phase = phase.Queued } in
        IsLinedUp (at_gate its_own (record no_open { holder = Some 1; waiting = 0 ∷ [] }) r) 0 r → ⊥ }
    ensures without { let r = record its_write { phase = phase.Queued } in IsLinedUp (at_gate its_own no_open r) 0 r → ⊥ }
    ensures not_durable { let r = record its_request { phase = phase.Gated } in
        IsLinedUp (at_gate its_own (record no_open { holder = Some 0 }) r) 0 r → ⊥ }
    ensures no_such_open { let r = record its_write { operation = record its_write.operation { target = 1 } } in
        IsLinedUp (at_gate its_own no_open r) 0 r }
{}

/// Of the worker that sleeps, books that are wrong. Its request is queued, and in no list; is a durable write that waits for
/// a permit, and stands at no gate, or behind nobody, or that is queued, and another has the permit; is over, and on the wheel
/// still; is of a file, and has a deadline; was released, and flies; is one, and two are counted; flies, and seven are
/// said to; is of a worker that isn't there; or was forwarded by a message that is in no inbox. The worker sleeps without
/// end, though a deadline is to come; or on, though that has come. Or a second worker has a cancel of the first one's
/// request to tell the kernel; or that has ended, and somebody sleeps there. A sleeper is of a worker that isn't there,
/// or was forwarded by a message that is in no inbox.
pub fn wrong_books()
    ensures listed { IsBooked (with_own (record its_own { in_flight = 0 }) (record its_request { phase = phase.Queued })) → ⊥ }
    ensures gated { IsBooked (at_gate (record its_own { in_flight = 0 }) no_open its_write) → ⊥ }
    ensures permit { IsBooked (at_gate (record its_own { ready = 0 ∷ []; in_flight = 0 }) (record no_open { holder = Some 1 })
        (record its_write { phase = phase.Queued })) → ⊥ }
    ensures unled { IsBooked (at_gate (record its_own { in_flight = 0 }) (record no_open { waiting = 0 ∷ [] }) its_write) → ⊥ }
    ensures timed { IsBooked (with_own (record its_own { ended = 0 ∷ []; in_flight = 0 })
        (record its_request { phase = phase.Resolved Success })) → ⊥ }
    ensures undated { IsBooked (with_own its_own
        (record its_request { operation = record its_request.operation { kind = Read } })) → ⊥ }
    ensures let_go { IsBooked (with_own (record its_own { unreleased = 0 })
        (record its_request { released = true })) → ⊥ }
    ensures counted { IsBooked (with_own (record its_own { unreleased = 2 }) its_request) → ⊥ }
    ensures flying { IsBooked (with_own (record its_own { in_flight = 7 }) its_request) → ⊥ }
    ensures requests { IsBooked (at_gate (record its_own { unreleased = 0; in_flight = 0 }) no_open
        (record its_request { worker = 1; phase = phase.Resolved Success; released = true; timer = None })) → ⊥ }
    ensures sent { IsBooked (with_own its_own (record its_request { forwarding = Sent })) → ⊥ }
    ensures past { IsBooked (with_seat (record its_seat { rest = rest.Forever })) → ⊥ }
    ensures late { IsBooked (record sending { common = record sending.common { clock = 10000000 } }) → ⊥ }
    ensures untold { IsBooked (beside (record (new_own 0 1) { untold = 0 ∷ [] }) (new_seat true) []) → ⊥ }
    ensures over { IsBooked (beside (new_own 0 1) (record (new_seat true) { phase = Ended })
        (new_sleeper 20000000 1 1 ∷ [])) → ⊥ }
    ensures sleepers { IsBooked (beside (new_own 0 1) (new_seat true)
        (record (new_sleeper 20000000 2 1) { removed = true } ∷ [])) → ⊥ }
    ensures sent_too { IsBooked (beside (new_own 0 1) (new_seat true)
        (record (new_sleeper 20000000 1 1) { forwarding = Sent } ∷ [])) → ⊥ }
{}

/// What a line says that it is about: a begin its task, a message to a root that root, a grant the open of its request; and
/// what it makes. Of another worker: a message comes last in the inbox, or is left out; who is roused is awake; a request
/// whose end is taken is held by nobody, one that is forwarded is waited for by the polled task; a wake is paid; and any
/// other line leaves all that. And a begin leaves all but its task.
pub fn what_a_line_says()
    ensures named { names_task no_own (event.Begin 3) 3 ≡ true }
    ensures unnamed { names_task no_own (event.Begin 3) 2 ≡ false }
    ensures root { names_task (new_own 0 4) (event.Apply message.Root) 4 ≡ true }
    ensures granted { names_open no_own (begun_with (its_request ∷ [])) (event.Grant 0 None) 0 ≡ true }
    ensures elsewhere { names_open no_own (begun_with (its_request ∷ [])) (event.Grant 0 None) 1 ≡ false }
    ensures made { new_by (event.Dedicated 3 1) ≡ (1, 1, 0, 0) }
    ensures sent { (seat_elsewhere (event.Send 1 (message.CancelRequest 7)) Plain 1 (posted message.Root (new_seat true))).inbox
        ≡ message.Root ∷ message.CancelRequest 7 ∷ [] }
    ensures left_out { seat_elsewhere (event.Send 1 message.Root) (Posts ByAct true) 1 (new_seat true) ≡ new_seat true }
    ensures roused { (seat_elsewhere (event.Rouse 0) Plain 0 its_seat).rest ≡ rest.Awake }
    ensures left { seat_elsewhere event.Serve Plain 0 its_seat ≡ its_seat }
    ensures taken { request_elsewhere no_own (event.Got 0 Success) Plain 0 its_request ≡ record its_request { observed = false } }
    ensures forwarded { request_elsewhere (record no_own { polls = Some 5 }) (event.Send 1 (message.ForwardRequest 0)) Plain 0 its_request
        ≡ record its_request { waiter = Some 5; forwarding = Sent } }
    ensures other { request_elsewhere no_own (event.Got 0 Success) Plain 1 its_request ≡ its_request }
    ensures paid { (sleeper_elsewhere (event.Wake 5) (Pays (BySleeper 2)) 2 (new_sleeper 20000000 1 5)).wakes_paid ≡ 1 }
    ensures reached { let s = begun_with [] in
        OnlyReaches 0 (new_own 0 0) (event.Begin 0) Plain s (set_task s 0 (begun 0 (task_of s 0))) }
{}

/// Refused is a line that goes on to what it isn't about. A service sets the clock; or posts a message at another worker,
/// gives a permit, lets another's request be waited for, or makes a worker. A begin begins a second task; an admission
/// makes a request for another worker; or a turn closes the task set.
pub fn lines_that_reach_too_far()
    ensures clock { let s = begun_with [] in OnlyReaches 0 (new_own 0 0) event.Serve Plain s (record s { clock = 1 }) → ⊥ }
    ensures seat { let s = begun_with [] in
        OnlyReaches 0 (new_own 0 0) event.Serve Plain s (set_seat s 1 (posted message.Root (new_seat true))) → ⊥ }
    ensures permit { let s = record (begun_with []) { opens = no_open ∷ [] } in
        OnlyReaches 0 (new_own 0 0) event.Serve Plain s (set_open s 0 (record no_open { holder = Some 0 })) → ⊥ }
    ensures request { let r = new_request 1 no_operation in
        OnlyReaches 0 (new_own 0 0) event.Serve Plain (begun_with (r ∷ [])) (begun_with (record r { waiter = Some 0 } ∷ [])) → ⊥ }
    ensures worker { let s = begun_with [] in
        OnlyReaches 0 (new_own 0 0) event.Serve Plain s (record s { seats = s.seats ++ new_seat true ∷ [] }) → ⊥ }
    ensures task { let s = begun_with [] in
        OnlyReaches 0 (new_own 0 0) (event.Begin 0) Plain s (set_task s 1 (begun 0 (task_of s 1))) → ⊥ }
    ensures made { OnlyReaches 0 (new_own 0 0) (event.Admit 0 Send None) Plain (begun_with [])
        (begun_with (new_request 1 no_operation ∷ [])) → ⊥ }
    ensures closed { let s = begun_with [] in
        OnlyReaches 0 (new_own 0 0) event.Turn Plain s (record s { set_closed = true }) → ⊥ }
{}
