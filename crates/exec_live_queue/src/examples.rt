//! Worked examples of the definitions, proved by computation: what holds, and what doesn't.

ghost use Rattle.std.specs.Prelude.{◌≡◌, ◌≢◌, [], ◌∷◌};
ghost use Rattle.exec_live_queue.specs.{Calls.{AfterPush, AfterSteal, MayTakeNothing, WasEmpty, fully, handed_after}, Examples.{numbers, holding, five, full, crowded, spent, flowing_over, thief, robber}, Live.{labels, unread}, Numbers.{head_word, filled, half, Outside, BesideClaim}, Plays.{queue_at, room}};
ghost use Rattle.exec_words.specs.{declared.queue.{PushAnswer.PushAnswer as answer, Steal.Steal as steal}, Queue.{popped, claimed, released}};

/// The head as a word, labels, free places, and how many values a claim takes.
#[tactic(auto, unfolding(crate::specs::Live::labels))]
pub fn numbers_of_a_queue()
    ensures head { head_word 4 4 ≡ 2052 }
    ensures not_the_gap_first { head_word 1 0 ≢ 1 }
    ensures labels { labels 254 3 ≡ 254 ∷ 255 ∷ 256 ∷ [] }
    ensures free { room 5 4 4 ≡ 251 }
    ensures full { room 256 0 0 ≡ 0 }
    ensures half { half thief ≡ 2 }
    ensures filled { filled flowing_over ≡ 384 }
{}

/// Where a label stands: beside the places of a claim of two whose owner popped two past it, and
/// beside two slots that are out.
pub fn where_labels_stand()
    ensures before { BesideClaim 4 4 2 255 }
    ensures behind { BesideClaim 4 4 2 258 }
    ensures not_in_it { BesideClaim 4 4 2 257 → ⊥ }
    ensures outside { Outside 5 2 7 }
    ensures not_out { Outside 5 2 6 → ⊥ }
{}

/// The queue as its owner knows it at a head: a claim of two of five values, two pops past it, and
/// the release. Between the exchange of an overflow and the store of the tail no value is seen.
pub fn as_its_owner_knows_it()
    ensures whole { queue_at five 0 0
        ≡ record { real = 0; gap = 0; values = numbers 1 5; held = [] } }
    ensures claimed { claimed (queue_at five 0 0) 2 ≡ queue_at five 2 2 }
    ensures popped { popped (popped (queue_at five 2 2)) ≡ queue_at five 4 4 }
    ensures released { released (queue_at five 4 4) ≡ queue_at five 4 0 }
    ensures not_to_its_end { released (queue_at five 4 4) ≢ queue_at five 4 2 }
    ensures unseen { queue_at flowing_over 256 0
        ≡ record { real = 256; gap = 0; values = []; held = numbers 0 128 } }
{}

/// What a push of 9 hands out, and which answers it can't have.
pub fn what_is_handed_out()
    ensures newest { handed_after full (answer.Overflow 9) ≡ numbers 128 128 }
    ensures not_the_oldest { handed_after full (answer.Overflow 9) ≢ numbers 0 128 }
    ensures claimed { handed_after full (answer.Claimed 9) ≡ [] }
    ensures all { fully full ≡ numbers 0 256 }
    ensures not_spent { AfterPush five 9 five (answer.Spent 9) → ⊥ }
    ensures not_empty { WasEmpty five five → ⊥ }
{}

/// What one try of a steal does: half of five values are two, and they go into a queue with room for 128 alone.
pub fn what_a_steal_moves()
    ensures half { AfterSteal (holding 0 []) unread (holding 2 (numbers 1 2)) robber (steal.Moved 2) }
    ensures not_less { AfterSteal (holding 0 []) unread (holding 1 (numbers 1 1)) robber (steal.Moved 1) → ⊥ }
    ensures not_into_crowded { AfterSteal crowded unread (holding 131 (numbers 0 131)) robber (steal.Moved 2) → ⊥ }
    ensures not_into_spent { AfterSteal spent unread spent robber (steal.Moved 2) → ⊥ }
    ensures not_again { AfterSteal spent unread spent thief (steal.Again record { real = 0; gap = 0 }) → ⊥ }
{}

/// Why a thief takes nothing: its own queue, a claim of another, or too few values.
pub fn why_a_steal_moves_nothing()
    ensures spent { MayTakeNothing spent spent thief }
    ensures crowded { MayTakeNothing crowded crowded thief }
    ensures claimed { MayTakeNothing five five record thief { gap = 1 } }
    ensures lone { MayTakeNothing five five record thief { upto = 1 } }
    ensures nothing { AfterSteal five unread five unread steal.Nothing }
    ensures not_without_a_cause { MayTakeNothing five five thief → ⊥ }
    ensures not_beside_two { MayTakeNothing (holding 128 (numbers 0 128)) (holding 128 (numbers 0 128)) record thief { upto = 2 } → ⊥ }
{}
