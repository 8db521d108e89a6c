//! Worked examples of what the containers are seen as.

ghost use Rattle.std.specs.Prelude.{◌≡◌, ◌≢◌, ◌+◌, ◌^◌, [], ◌∷◌};
ghost use Rattle.exec_bufs.specs.{Buffers.{resized, with_chunk, NoneEmpty, most, total, bytes_of, filled, room, cuts, spread, joined}, Lending.with_bytes};

/// The bytes `abc` (97, 98, 99), made shorter and longer.
pub fn lengths()
    ensures shorter { resized 1 (97 ∷ 98 ∷ 99 ∷ []) ≡ 97 ∷ [] }
    ensures as_long { resized 3 (97 ∷ 98 ∷ 99 ∷ []) ≡ 97 ∷ 98 ∷ 99 ∷ [] }
    ensures longer { resized 5 (97 ∷ 98 ∷ 99 ∷ []) ≡ 97 ∷ 98 ∷ 99 ∷ 0 ∷ 0 ∷ [] }
    ensures none { resized 0 (97 ∷ 98 ∷ 99 ∷ []) ≡ [] }
    ensures from_none { resized 2 [] ≡ 0 ∷ 0 ∷ [] }
    ensures not_the_old_byte { resized 2 (97 ∷ []) ≢ 97 ∷ 98 ∷ [] }
{}

/// A buffer of two bytes and room for four, written over through its slice.
pub fn written_bytes()
    ensures all { with_bytes (record { bytes = 97 ∷ 98 ∷ []; capacity = 4 }) (99 ∷ 100 ∷ []) ≡ record { bytes = 99 ∷ 100 ∷ []; capacity = 4 } }
    ensures none { with_bytes (record { bytes = []; capacity = 4 }) [] ≡ record { bytes = []; capacity = 4 } }
{}

/// Chunks that are added, `ab` and `c` among them.
pub fn pushed_chunks()
    ensures first { with_chunk [] (97 ∷ 98 ∷ []) ≡ (97 ∷ 98 ∷ []) ∷ [] }
    ensures second { with_chunk ((97 ∷ 98 ∷ []) ∷ []) (99 ∷ []) ≡ (97 ∷ 98 ∷ []) ∷ (99 ∷ []) ∷ [] }
    ensures empty { with_chunk ((97 ∷ 98 ∷ []) ∷ []) [] ≡ (97 ∷ 98 ∷ []) ∷ [] }
    ensures not_kept { with_chunk [] [] ≢ [] ∷ [] }
    ensures sum { total ((97 ∷ 98 ∷ []) ∷ (99 ∷ []) ∷ []) ≡ 3 }
    ensures no_sum { total [] ≡ 0 }
    ensures bound { most + 1 ≡ 2 ^ 63 }
    ensures full_ones { NoneEmpty ((97 ∷ 98 ∷ []) ∷ (99 ∷ []) ∷ []) }
    ensures empty_one { NoneEmpty ((97 ∷ []) ∷ [] ∷ []) → ⊥ }
{}

/// Two buffers: `a` with room for two bytes, and `bcd` with room for four.
pub fn two_buffers()
    ensures bytes { bytes_of (record { bytes = 97 ∷ []; capacity = 2 } ∷ record { bytes = 98 ∷ 99 ∷ 100 ∷ []; capacity = 4 } ∷ []) ≡ 97 ∷ 98 ∷ 99 ∷ 100 ∷ [] }
    ensures filled { filled (record { bytes = 97 ∷ []; capacity = 2 } ∷ record { bytes = 98 ∷ 99 ∷ 100 ∷ []; capacity = 4 } ∷ []) ≡ 4 }
    ensures room { room (record { bytes = 97 ∷ []; capacity = 2 } ∷ record { bytes = 98 ∷ 99 ∷ 100 ∷ []; capacity = 4 } ∷ []) ≡ 6 }
    ensures cuts { cuts (record { bytes = 97 ∷ []; capacity = 2 } ∷ record { bytes = 98 ∷ 99 ∷ 100 ∷ []; capacity = 4 } ∷ []) ≡ (1, 2) ∷ (3, 4) ∷ [] }
    ensures joined { joined (record { bytes = 97 ∷ []; capacity = 2 } ∷ record { bytes = 98 ∷ 99 ∷ 100 ∷ []; capacity = 4 } ∷ []) ≡ record { bytes = 97 ∷ 98 ∷ 99 ∷ 100 ∷ []; capacity = 4 } }
    ensures lone { joined (record { bytes = 97 ∷ []; capacity = 2 } ∷ []) ≡ record { bytes = 97 ∷ []; capacity = 2 } }
    ensures none { joined [] ≡ record { bytes = []; capacity = 0 } }
{}

/// The same two buffers, after they were given lengths in all. A byte stays in its buffer.
pub fn spread_lengths()
    ensures five { spread 5 (record { bytes = 97 ∷ []; capacity = 2 } ∷ record { bytes = 98 ∷ 99 ∷ 100 ∷ []; capacity = 4 } ∷ []) ≡ record { bytes = 97 ∷ 0 ∷ []; capacity = 2 } ∷ record { bytes = 98 ∷ 99 ∷ 100 ∷ []; capacity = 4 } ∷ [] }
    ensures three { spread 3 (record { bytes = 97 ∷ []; capacity = 2 } ∷ record { bytes = 98 ∷ 99 ∷ 100 ∷ []; capacity = 4 } ∷ []) ≡ record { bytes = 97 ∷ 0 ∷ []; capacity = 2 } ∷ record { bytes = 98 ∷ []; capacity = 4 } ∷ [] }
    ensures all_room { spread 6 (record { bytes = 97 ∷ []; capacity = 2 } ∷ record { bytes = 98 ∷ 99 ∷ 100 ∷ []; capacity = 4 } ∷ []) ≡ record { bytes = 97 ∷ 0 ∷ []; capacity = 2 } ∷ record { bytes = 98 ∷ 99 ∷ 100 ∷ 0 ∷ []; capacity = 4 } ∷ [] }
    ensures first_alone { spread 1 (record { bytes = 97 ∷ []; capacity = 2 } ∷ record { bytes = 98 ∷ 99 ∷ 100 ∷ []; capacity = 4 } ∷ []) ≡ record { bytes = 97 ∷ []; capacity = 2 } ∷ record { bytes = []; capacity = 4 } ∷ [] }
    ensures not_the_second_first { spread 4 (record { bytes = 97 ∷ []; capacity = 2 } ∷ record { bytes = 98 ∷ 99 ∷ 100 ∷ []; capacity = 4 } ∷ []) ≢ record { bytes = 97 ∷ []; capacity = 2 } ∷ record { bytes = 98 ∷ 99 ∷ 100 ∷ []; capacity = 4 } ∷ [] }
{}
