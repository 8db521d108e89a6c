//! Worked examples of whole logs, proved by computation: good ones, and lines that may not come.

ghost use Rattle.std.specs.Prelude.{true, false, [], ◌∷◌};
ghost use Rattle.exec_machine.specs.{declared.event.Event.TheVariants.{Turn, Enter}, Examples.{IsGood, does}, Logs.{a_send, durable_writes, a_stolen_task, a_forward, a_sleeper_elsewhere, the_barrier}, MoreLogs.{a_busy_ring, a_deadline, a_late_enrolment, deadlines_in_order, the_wheel_goes_round, a_clock_in_a_service, a_clock_between_samples, a_cancel_in_time, parts, sleepers, wakes_of_roots, closed, two_kinds, what_a_task_held}};
ghost use Rattle.exec_machine_examples.specs.{Refusals.{AreRefused, Sleeps, sleeps_on}, LettingGo.{a_late_forward, letting_go_elsewhere, cleared_elsewhere, orphans, a_ring_of_one}, RefusedLines.{refused_in_a_send, refused_in_durable_writes, refused_in_a_stolen_task, refused_in_a_forward}, MoreRefusedLines.{refused_in_a_sleeper_elsewhere, refused_in_the_barrier, refused_in_a_busy_ring, refused_in_a_deadline, refused_in_a_late_enrolment, refused_in_deadlines_in_order, refused_in_the_wheel_goes_round, refused_in_a_clock_in_a_service, refused_in_a_clock_between_samples, refused_in_a_cancel_in_time, refused_in_parts, refused_in_sleepers, refused_in_wakes_of_roots, refused_in_closed, refused_in_two_kinds, refused_in_what_a_task_held, refused_in_a_late_forward, refused_in_letting_go_elsewhere, refused_in_cleared_elsewhere, refused_in_orphans, refused_in_a_ring_of_one}};

/// Good logs: tasks, requests and messages of several workers, from a send to the barrier.
pub fn good_logs()
    ensures of_a_send { IsGood a_send }
    ensures of_durable_writes { IsGood durable_writes }
    ensures of_a_stolen_task { IsGood a_stolen_task }
    ensures of_a_forward { IsGood a_forward }
    ensures of_a_sleeper_elsewhere { IsGood a_sleeper_elsewhere }
    ensures of_the_barrier { IsGood the_barrier }
    ensures of_a_late_forward { IsGood a_late_forward }
    ensures of_letting_go_elsewhere { IsGood letting_go_elsewhere }
    ensures of_cleared_elsewhere { IsGood cleared_elsewhere }
    ensures of_orphans { IsGood orphans }
    ensures of_a_ring_of_one { IsGood a_ring_of_one }
{}

/// Good logs: rings, deadlines, sleepers, requests in parts, roots, and what is closed.
pub fn more_good_logs()
    ensures of_a_busy_ring { IsGood a_busy_ring }
    ensures of_a_deadline { IsGood a_deadline }
    ensures of_a_late_enrolment { IsGood a_late_enrolment }
    ensures of_deadlines_in_order { IsGood deadlines_in_order }
    ensures of_the_wheel_goes_round { IsGood the_wheel_goes_round }
    ensures of_a_clock_in_a_service { IsGood a_clock_in_a_service }
    ensures of_a_clock_between_samples { IsGood a_clock_between_samples }
    ensures of_a_cancel_in_time { IsGood a_cancel_in_time }
    ensures of_parts { IsGood parts }
    ensures of_sleepers { IsGood sleepers }
    ensures of_wakes_of_roots { IsGood wakes_of_roots }
    ensures of_closed { IsGood closed }
    ensures of_two_kinds { IsGood two_kinds }
    ensures of_what_a_task_held { IsGood what_a_task_held }
{}

/// Lines that may not come, each for what is said above it: of tasks and requests of several
/// workers.
pub fn refused_lines()
    ensures in_a_send { AreRefused a_send refused_in_a_send }
    ensures in_durable_writes { AreRefused durable_writes refused_in_durable_writes }
    ensures in_a_stolen_task { AreRefused a_stolen_task refused_in_a_stolen_task }
    ensures in_a_forward { AreRefused a_forward refused_in_a_forward }
{}

/// Of rings, deadlines, sleepers, and requests in parts.
pub fn refused_deadlines()
    ensures in_a_sleeper_elsewhere { AreRefused a_sleeper_elsewhere refused_in_a_sleeper_elsewhere }
    ensures in_a_busy_ring { AreRefused a_busy_ring refused_in_a_busy_ring }
    ensures in_a_deadline { AreRefused a_deadline refused_in_a_deadline }
    ensures in_a_late_enrolment { AreRefused a_late_enrolment refused_in_a_late_enrolment }
    ensures in_deadlines_in_order { AreRefused deadlines_in_order refused_in_deadlines_in_order }
    ensures in_the_wheel_goes_round { AreRefused the_wheel_goes_round
        refused_in_the_wheel_goes_round }
    ensures in_a_clock_in_a_service { AreRefused a_clock_in_a_service
        refused_in_a_clock_in_a_service }
    ensures in_a_clock_between_samples { AreRefused a_clock_between_samples
        refused_in_a_clock_between_samples }
    ensures in_a_cancel_in_time { AreRefused a_cancel_in_time refused_in_a_cancel_in_time }
    ensures in_parts { AreRefused parts refused_in_parts }
    ensures in_sleepers { AreRefused sleepers refused_in_sleepers }
    ensures in_a_late_forward { AreRefused a_late_forward refused_in_a_late_forward }
    ensures in_a_ring_of_one { AreRefused a_ring_of_one refused_in_a_ring_of_one }
{}

/// Of closing, roots and callers.
pub fn refused_closings()
    ensures in_the_barrier { AreRefused the_barrier refused_in_the_barrier }
    ensures in_wakes_of_roots { AreRefused wakes_of_roots refused_in_wakes_of_roots }
    ensures in_closed { AreRefused closed refused_in_closed }
    ensures in_two_kinds { AreRefused two_kinds refused_in_two_kinds }
    ensures in_what_a_task_held { AreRefused what_a_task_held refused_in_what_a_task_held }
    ensures in_letting_go_elsewhere { AreRefused letting_go_elsewhere
        refused_in_letting_go_elsewhere }
    ensures in_cleared_elsewhere { AreRefused cleared_elsewhere refused_in_cleared_elsewhere }
    ensures in_orphans { AreRefused orphans refused_in_orphans }
{}

/// A worker doesn't sleep rightly where a cancel was staged and the kernel wasn't told of it, where
/// its root is over and it is still open, and where it closes and each of its requests is over.
pub fn sleeps_on_work()
    ensures untold { Sleeps a_deadline 52 (sleeps_on ∷ []) false }
    ensures told { Sleeps a_deadline 52 (does 0 Enter ∷ sleeps_on ∷ []) true }
    ensures still_open { Sleeps a_send 70 (sleeps_on ∷ []) false }
    ensures closing { Sleeps a_send 71 (does 0 Turn ∷ sleeps_on ∷ []) false }
{}
