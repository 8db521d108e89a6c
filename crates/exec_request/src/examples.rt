//! Worked examples of what windows and their bytes are.

ghost use Rattle.std.specs.Prelude.{◌≡◌, ◌≢◌, ◌-◌, ◌^◌, [], ◌∷◌, true, false};
ghost use Rattle.exec_request.specs.{Buffers.{chunks_of, batch_of, is_sound}, Bytes.{batch_bytes, filled_at}, Kept.rewound, Windows.{plain_window, cancel_window, wake_window, most_of, moves_in, moves_out}};

use crate::buffers::WriteBuffers;
use crate::window::Opcode;

/// The windows that belong to no request, and the largest counts.
pub fn counts_of_windows()
    ensures cancel { cancel_window 7 ≡ record { kind = Opcode.Cancel; target = 0; offset = 7; length = 0; chunks = 0; hint = false; direct = false; dsync = false } }
    ensures wake { wake_window ≢ cancel_window 0 }
    ensures of_a_cancel { most_of (cancel_window 7) ≡ 2 ^ 31 - 1 }
    ensures of_a_send { most_of (plain_window Opcode.Send 3 10 1) ≡ 10 }
    ensures of_a_sync { most_of (plain_window Opcode.Sync 1 0 0) ≡ 2 ^ 31 - 1 }
    ensures out { moves_out Opcode.Write ≡ true }
    ensures not_out { moves_out Opcode.Recv ≡ false }
    ensures comes { moves_in Opcode.Recv ≡ true }
    ensures neither { moves_in Opcode.Sync ≡ false }
{}

/// The chunks `ab` and `cd`, of which three bytes have gone, and `abc` in one buffer, of which one has.
pub fn bytes_of_a_window()
    ensures one { batch_bytes (WriteBuffers.Single (97 ∷ 98 ∷ 99 ∷ []) 1) ≡ 98 ∷ 99 ∷ [] }
    ensures several { batch_bytes (WriteBuffers.Vectored ((97 ∷ 98 ∷ []) ∷ (99 ∷ 100 ∷ []) ∷ []) 1 1 1) ≡ 100 ∷ [] }
    ensures from_the_start { batch_bytes (WriteBuffers.Vectored ((97 ∷ 98 ∷ []) ∷ (99 ∷ 100 ∷ []) ∷ []) 0 0 4) ≡ 97 ∷ 98 ∷ 99 ∷ 100 ∷ [] }
    ensures many { batch_of (WriteBuffers.Vectored ((97 ∷ 98 ∷ []) ∷ (99 ∷ 100 ∷ []) ∷ []) 0 1 3) ≡ 3 }
    ensures chunks { chunks_of (WriteBuffers.Vectored ((97 ∷ 98 ∷ []) ∷ (99 ∷ 100 ∷ []) ∷ []) 1 1 1) ≡ 1 }
    ensures sound { is_sound (WriteBuffers.Vectored ((97 ∷ 98 ∷ []) ∷ (99 ∷ 100 ∷ []) ∷ []) 1 1 1) ≡ true }
    ensures unsound { is_sound (WriteBuffers.Vectored ((97 ∷ 98 ∷ []) ∷ (99 ∷ 100 ∷ []) ∷ []) 1 1 2) ≡ false }
    ensures passed { is_sound (WriteBuffers.Vectored ((97 ∷ 98 ∷ []) ∷ (99 ∷ 100 ∷ []) ∷ []) 1 0 2) ≡ true }
    ensures not_passed { is_sound (WriteBuffers.Vectored ((97 ∷ 98 ∷ []) ∷ (99 ∷ 100 ∷ []) ∷ []) 0 2 2) ≡ false }
    ensures at_the_end { is_sound (WriteBuffers.Vectored ((97 ∷ 98 ∷ []) ∷ (99 ∷ 100 ∷ []) ∷ []) 2 0 0) ≡ true }
    ensures before_the_end { is_sound (WriteBuffers.Vectored ((97 ∷ 98 ∷ []) ∷ (99 ∷ 100 ∷ []) ∷ []) 1 2 0) ≡ false }
    ensures kept { rewound (WriteBuffers.Vectored ((97 ∷ 98 ∷ []) ∷ (99 ∷ 100 ∷ []) ∷ []) 1 1 1) ≡ rewound (WriteBuffers.Vectored ((97 ∷ 98 ∷ []) ∷ (99 ∷ 100 ∷ []) ∷ []) 0 1 3) }
    ensures not_kept { rewound (WriteBuffers.Single (97 ∷ []) 1) ≢ rewound (WriteBuffers.Single (98 ∷ []) 1) }
{}

/// A buffer with room for four bytes: `a` and then `b` past its end, and `abc` with `x` over its second byte.
pub fn a_filled_buffer()
    ensures grows { filled_at 2 (98 ∷ []) (record { bytes = 97 ∷ []; capacity = 4 }) ≡ record { bytes = 97 ∷ 0 ∷ 98 ∷ []; capacity = 4 } }
    ensures inside { filled_at 1 (120 ∷ []) (record { bytes = 97 ∷ 98 ∷ 99 ∷ []; capacity = 4 }) ≡ record { bytes = 97 ∷ 120 ∷ 99 ∷ []; capacity = 4 } }
    ensures at_the_end { filled_at 1 (98 ∷ 99 ∷ []) (record { bytes = 97 ∷ []; capacity = 4 }) ≡ record { bytes = 97 ∷ 98 ∷ 99 ∷ []; capacity = 4 } }
    ensures nothing { filled_at 1 [] (record { bytes = 97 ∷ []; capacity = 4 }) ≡ record { bytes = 97 ∷ []; capacity = 4 } }
{}
