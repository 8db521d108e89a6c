//! Worked examples of the definitions, proved by computation: what holds, and what doesn't.

ghost use Rattle.std.specs.Prelude.{◌≡◌, ◌≢◌, ◌-◌, ◌^◌, true, false, [], ◌∷◌, Some, None};
ghost use Rattle.exec_words.specs.{declared.{head.Fit.Fit, inbox.Message.Message, word.WaitTarget.WaitTarget}, Generator.stirred, Global.share_of, Head.{fit_at, room_at, is_stealable_at}, Idle.lowest_of, Inbox.{sent, batch_taken, has_mail}, Queue.{claimed, popped, released, overflowed, newest, restored}, QueueRuns.IsWithin, Word.{asks_signal, is_idle_at, next_batch}, Examples.{numbers, head, queue_at, five, popped_past, full, word, no_mail, two_letters, a_run, searches}};

/// Five values, of which a thief claims two. The owner pops two past the claim, and the release
/// frees all four places. A full queue flows over: the oldest half stays, under new counts.
pub fn transitions()
    ensures claimed { claimed five 2 ≡ record (queue_at 2 (numbers 3 3)) { gap = 2 } }
    ensures popped { popped_past ≡ record (queue_at 4 (5 ∷ [])) { gap = 4 } }
    ensures released { released popped_past ≡ queue_at 4 (5 ∷ []) }
    ensures not_to_its_end { released popped_past ≢ record popped_past { gap = 2 } }
    ensures between { overflowed full ≡ record (queue_at 256 []) { held = numbers 0 128 } }
    ensures after { restored (overflowed full) ≡ queue_at 256 (numbers 0 128) }
    ensures handed_out { newest full ≡ numbers 128 128 }
    ensures not_the_oldest { newest full ≢ numbers 0 128 }
{}

/// What fits, by head and tail, up to the count from which on a queue takes no more; and whether a thief may claim.
pub fn fits()
    ensures last { fit_at (head 0 0) 255 ≡ Fit.Room 256 }
    ensures overflow { fit_at (head 0 0) 256 ≡ Fit.Overflow }
    ensures beside_pops { fit_at (head 4 4) 255 ≡ Fit.Room 252 }
    ensures full { fit_at (head 4 4) 256 ≡ Fit.Claimed }
    ensures spent { fit_at (head (2 ^ 55 - 513) 0) (2 ^ 55 - 512) ≡ Fit.Spent }
    ensures two { is_stealable_at (head 7 0) 9 ≡ true }
    ensures lone { is_stealable_at (head 7 0) 8 ≡ false }
    ensures beside_a_claim { is_stealable_at (head 7 1) 20 ≡ false }
    ensures room { room_at (head 4 4) 5 ≡ 251 }
    ensures no_room { room_at (head (2 ^ 55 - 513) 0) (2 ^ 55 - 512) ≡ 0 }
{}

/// Shares of the global queue: for one of four workers, for one without room, and of nothing. The
/// lowest worker of a set.
pub fn shares()
    ensures of_four { share_of 8 4 256 0 ≡ 3 }
    ensures not_an_even_split { share_of 8 4 256 0 ≢ 2 }
    ensures no_room { share_of 300 1 0 0 ≡ 1 }
    ensures nothing { share_of 0 4 256 0 ≡ 0 }
    ensures second { lowest_of (false ∷ true ∷ true ∷ []) ≡ Some 1 }
    ensures none { lowest_of (false ∷ false ∷ []) ≡ None }
{}

/// Whether a publication asks for a signal, and whether a wait may begin.
pub fn signals()
    ensures armed { asks_signal (word WaitTarget.Ring false) ≡ true }
    ensures signalled { asks_signal (word WaitTarget.Ring true) ≡ false }
    ensures unarmed { asks_signal (word WaitTarget.None false) ≡ false }
    ensures idle { is_idle_at (word WaitTarget.Sleeping false) 0 ≡ true }
    ensures latched { is_idle_at (word WaitTarget.Sleeping true) 0 ≡ false }
    ensures behind { is_idle_at (word WaitTarget.Sleeping false) 1 ≡ false }
    ensures round { next_batch 536870911 ≡ 0 }
{}

/// Two messages are one batch; a second wake of the root is dropped until the first is taken.
pub fn batches()
    ensures two { two_letters ≡ record no_mail { messages = Message.WakeRoot ∷ Message.Cancel 7 ∷ []; published = 1 } }
    ensures dropped { sent two_letters Message.WakeRoot ≡ two_letters }
    ensures not_the_cancel { sent two_letters (Message.Cancel 7) ≢ two_letters }
    ensures taken { batch_taken two_letters (record { values = []; places = 2 })
        ≡ record no_mail { published = 1; taken = 1 } }
    ensures nothing { has_mail no_mail ≡ false }
{}

/// Runs of calls: what left at the front and what is left, and what was added and subtracted.
pub fn runs()
    ensures front { a_run.front ≡ 1 ∷ 2 ∷ [] }
    ensures left { a_run.queue ≡ queue_at 2 (3 ∷ []) }
    ensures within { IsWithin (1 ∷ 3 ∷ []) (numbers 1 3) }
    ensures not_turned { IsWithin (3 ∷ 1 ∷ []) (numbers 1 3) → ⊥ }
    ensures not_twice { IsWithin (1 ∷ 1 ∷ []) (numbers 1 3) → ⊥ }
    ensures searches { searches ≡ record { count = 1; came_in = 2; went_out = 1 } }
{}

/// The generators of the workers 0 and 1, from their seeds on.
pub fn where_a_search_begins()
    ensures next { stirred 1 ≡ 270369 }
    ensures after { stirred 270369 ≡ 67634689 }
    ensures other { stirred 2 ≡ 540738 }
    ensures not_itself { stirred 1 ≢ 1 }
{}
