//! Worked examples of what results mean.

ghost use Rattle.std.specs.Prelude.{◌≡◌, ◌≢◌, true, false, [], ◌∷◌, Some, None};
ghost use Rattle.exec_base.specs.declared.error.{Error.TheVariants.{Timeout, SendFailed, RecvFailed, ReadFailed, WriteFailed, ConnectionFailed, BlobInsufficientLength, Io, BlobSyncFailed}, Cause.TheVariants.Code};
ghost use Rattle.exec_outcomes.specs.{Accounts.{fresh_account, changed, account_after, outcome_told, outcome_at_grant, is_dirty}, Lawful.{is_lawful, window_of}, Outcomes.{outcome_of, plainly, once_cancelled, with_hint, at_the_start}, declared.outcome.{Kind.TheVariants.{Poll, Send, Recv, Fill, Connect, Read, Hint, Direct, Write, Dsync, Many, Sync}, OpResult.TheVariants.{Count, Errno}, Outcome.TheVariants.{Failure, Success}}};

/// Sends of 10 bytes.
pub fn sends_of_ten_bytes()
    ensures in_parts { outcome_of (record { kind = Send; length = 10; skip = 0 }) (plainly (Errno 11) ∷ plainly (Count 4) ∷ plainly (Errno 4) ∷ plainly (Count 6) ∷ []) ≡ Some Success }
    ensures stopped { outcome_of (record { kind = Send; length = 10; skip = 0 }) (plainly (Count 4) ∷ plainly (Count 0) ∷ []) ≡ Some (Failure SendFailed) }
    ensures unfinished { outcome_of (record { kind = Send; length = 10; skip = 0 }) (plainly (Count 4) ∷ []) ≡ None }
    ensures canceled_as_asked { outcome_of (record { kind = Send; length = 10; skip = 0 }) (once_cancelled (Errno 125) ∷ []) ≡ Some (Failure Timeout) }
    ensures canceled_unasked { outcome_of (record { kind = Send; length = 10; skip = 0 }) (plainly (Errno 125) ∷ []) ≡ Some (Failure SendFailed) }
    ensures refused { outcome_of (record { kind = Send; length = 10; skip = 0 }) (plainly (Errno 32) ∷ []) ≡ Some (Failure SendFailed) }
    ensures given_up { outcome_of (record { kind = Send; length = 10; skip = 0 }) (once_cancelled (Count 4) ∷ []) ≡ Some (Failure Timeout) }
    ensures interrupted_and_given_up { outcome_of (record { kind = Send; length = 10; skip = 0 }) (once_cancelled (Errno 4) ∷ []) ≡ Some (Failure Timeout) }
    ensures done_all_the_same { outcome_of (record { kind = Send; length = 10; skip = 0 }) (once_cancelled (Count 10) ∷ []) ≡ Some Success }
    ensures not_pending { outcome_of (record { kind = Send; length = 10; skip = 0 }) (plainly (Errno 114) ∷ []) ≡ Some (Failure SendFailed) }
    ensures not_failed { outcome_of (record { kind = Send; length = 10; skip = 0 }) (plainly (Count 4) ∷ plainly (Count 6) ∷ []) ≢ Some (Failure SendFailed) }
    ensures not_done { outcome_of (record { kind = Send; length = 10; skip = 0 }) (plainly (Count 4) ∷ []) ≢ Some Success }
{}

/// Receives of 8 bytes: any of them, or exactly so many.
pub fn receives_of_eight_bytes()
    ensures some { outcome_of (record { kind = Recv; length = 8; skip = 0 }) (plainly (Count 3) ∷ []) ≡ Some Success }
    ensures all { outcome_of (record { kind = Recv; length = 8; skip = 0 }) (plainly (Count 8) ∷ []) ≡ Some Success }
    ensures again { outcome_of (record { kind = Recv; length = 8; skip = 0 }) (plainly (Errno 11) ∷ plainly (Errno 4) ∷ []) ≡ None }
    ensures end { outcome_of (record { kind = Recv; length = 8; skip = 0 }) (plainly (Count 0) ∷ []) ≡ Some (Failure RecvFailed) }
    ensures refused { outcome_of (record { kind = Recv; length = 8; skip = 0 }) (plainly (Errno 104) ∷ []) ≡ Some (Failure RecvFailed) }
    ensures canceled_as_asked { outcome_of (record { kind = Recv; length = 8; skip = 0 }) (once_cancelled (Errno 125) ∷ []) ≡ Some (Failure Timeout) }
    ensures canceled_unasked { outcome_of (record { kind = Recv; length = 8; skip = 0 }) (plainly (Errno 125) ∷ []) ≡ Some (Failure RecvFailed) }
    ensures some_all_the_same { outcome_of (record { kind = Recv; length = 8; skip = 0 }) (once_cancelled (Count 3) ∷ []) ≡ Some Success }
    ensures exact_too_few { outcome_of (record { kind = Fill; length = 8; skip = 0 }) (plainly (Count 3) ∷ []) ≡ None }
    ensures exact_in_time { outcome_of (record { kind = Fill; length = 8; skip = 0 }) (plainly (Count 3) ∷ plainly (Count 5) ∷ []) ≡ Some Success }
    ensures exact_late_and_done { outcome_of (record { kind = Fill; length = 8; skip = 0 }) (plainly (Count 3) ∷ once_cancelled (Count 5) ∷ []) ≡ Some Success }
    ensures exact_late { outcome_of (record { kind = Fill; length = 8; skip = 0 }) (plainly (Count 3) ∷ once_cancelled (Count 2) ∷ []) ≡ Some (Failure Timeout) }
    ensures exact_end { outcome_of (record { kind = Fill; length = 8; skip = 0 }) (plainly (Count 3) ∷ plainly (Count 0) ∷ []) ≡ Some (Failure RecvFailed) }
    ensures exact_canceled { outcome_of (record { kind = Fill; length = 8; skip = 0 }) (plainly (Count 3) ∷ once_cancelled (Errno 125) ∷ []) ≡ Some (Failure Timeout) }
    ensures exact_refused { outcome_of (record { kind = Fill; length = 8; skip = 0 }) (plainly (Count 3) ∷ plainly (Errno 104) ∷ []) ≡ Some (Failure RecvFailed) }
    ensures not_exact { outcome_of (record { kind = Fill; length = 8; skip = 0 }) (plainly (Count 3) ∷ []) ≢ Some Success }
{}

/// Connects. What is connected already is a success, also of a cancelled one.
pub fn connects()
    ensures done { outcome_of (record { kind = Connect; length = 1; skip = 0 }) (plainly (Count 0) ∷ []) ≡ Some Success }
    ensures done_all_the_same { outcome_of (record { kind = Connect; length = 1; skip = 0 }) (once_cancelled (Count 0) ∷ []) ≡ Some Success }
    ensures connected { outcome_of (record { kind = Connect; length = 1; skip = 0 }) (plainly (Errno 106) ∷ []) ≡ Some Success }
    ensures connected_all_the_same { outcome_of (record { kind = Connect; length = 1; skip = 0 }) (once_cancelled (Errno 106) ∷ []) ≡ Some Success }
    ensures odd { outcome_of (record { kind = Connect; length = 1; skip = 0 }) (plainly (Count 1) ∷ []) ≡ Some (Failure ConnectionFailed) }
    ensures odd_and_cancelled { outcome_of (record { kind = Connect; length = 1; skip = 0 }) (once_cancelled (Count 1) ∷ []) ≡ Some (Failure ConnectionFailed) }
    ensures pending { outcome_of (record { kind = Connect; length = 1; skip = 0 }) (plainly (Errno 114) ∷ plainly (Errno 11) ∷ plainly (Errno 4) ∷ []) ≡ None }
    ensures given_up { outcome_of (record { kind = Connect; length = 1; skip = 0 }) (once_cancelled (Errno 114) ∷ []) ≡ Some (Failure Timeout) }
    ensures canceled_as_asked { outcome_of (record { kind = Connect; length = 1; skip = 0 }) (once_cancelled (Errno 125) ∷ []) ≡ Some (Failure Timeout) }
    ensures canceled_unasked { outcome_of (record { kind = Connect; length = 1; skip = 0 }) (plainly (Errno 125) ∷ []) ≡ Some (Failure (Io (Code 125))) }
    ensures refused { outcome_of (record { kind = Connect; length = 1; skip = 0 }) (plainly (Errno 114) ∷ plainly (Errno 111) ∷ []) ≡ Some (Failure (Io (Code 111))) }
    ensures no_failure { outcome_of (record { kind = Connect; length = 1; skip = 0 }) (plainly (Errno 106) ∷ []) ≢ Some (Failure (Io (Code 106))) }
{}

/// Polls.
pub fn polls()
    ensures an_event { outcome_of (record { kind = Poll; length = 1; skip = 0 }) (plainly (Count 3) ∷ []) ≡ Some Success }
    ensures no_event { outcome_of (record { kind = Poll; length = 1; skip = 0 }) (plainly (Count 0) ∷ []) ≡ Some Success }
    ensures again { outcome_of (record { kind = Poll; length = 1; skip = 0 }) (plainly (Errno 4) ∷ plainly (Errno 11) ∷ []) ≡ None }
    ensures canceled_as_asked { outcome_of (record { kind = Poll; length = 1; skip = 0 }) (once_cancelled (Errno 125) ∷ []) ≡ Some (Failure Timeout) }
    ensures canceled_unasked { outcome_of (record { kind = Poll; length = 1; skip = 0 }) (plainly (Errno 125) ∷ []) ≡ Some (Failure (Io (Code 125))) }
    ensures handed_on { outcome_of (record { kind = Poll; length = 1; skip = 0 }) (plainly (Errno 4) ∷ plainly (Errno 9) ∷ []) ≡ Some (Failure (Io (Code 9))) }
    ensures given_up { outcome_of (record { kind = Poll; length = 1; skip = 0 }) (once_cancelled (Errno 11) ∷ []) ≡ Some (Failure Timeout) }
    ensures no_timeout { outcome_of (record { kind = Poll; length = 1; skip = 0 }) (once_cancelled (Errno 9) ∷ []) ≢ Some (Failure Timeout) }
{}

/// Buffered reads of 100 bytes, without the hint and with it.
pub fn reads_of_a_hundred_bytes()
    ensures whole { outcome_of (record { kind = Read; length = 100; skip = 0 }) (plainly (Count 100) ∷ []) ≡ Some Success }
    ensures in_parts { outcome_of (record { kind = Read; length = 100; skip = 0 }) (plainly (Count 40) ∷ plainly (Errno 4) ∷ plainly (Count 60) ∷ []) ≡ Some Success }
    ensures end { outcome_of (record { kind = Read; length = 100; skip = 0 }) (plainly (Count 40) ∷ plainly (Count 0) ∷ []) ≡ Some (Failure BlobInsufficientLength) }
    ensures refused { outcome_of (record { kind = Read; length = 100; skip = 0 }) (plainly (Errno 5) ∷ []) ≡ Some (Failure ReadFailed) }
    ensures canceled_as_asked { outcome_of (record { kind = Read; length = 100; skip = 0 }) (once_cancelled (Errno 125) ∷ []) ≡ Some (Failure ReadFailed) }
    ensures given_up { outcome_of (record { kind = Read; length = 100; skip = 0 }) (once_cancelled (Count 40) ∷ []) ≡ Some (Failure Timeout) }
    ensures no_hint { outcome_of (record { kind = Read; length = 100; skip = 0 }) (plainly (Errno 95) ∷ []) ≡ Some (Failure ReadFailed) }
    ensures hint_refused { outcome_of (record { kind = Hint; length = 100; skip = 0 }) (with_hint (Errno 95) ∷ []) ≡ None }
    ensures read_without_it { outcome_of (record { kind = Hint; length = 100; skip = 0 }) (with_hint (Errno 95) ∷ plainly (Count 100) ∷ []) ≡ Some Success }
    ensures refused_twice { outcome_of (record { kind = Hint; length = 100; skip = 0 }) (with_hint (Errno 95) ∷ plainly (Errno 95) ∷ []) ≡ Some (Failure ReadFailed) }
    ensures dropped_once { outcome_of (record { kind = Hint; length = 100; skip = 0 }) (with_hint (Errno 95) ∷ with_hint (Errno 95) ∷ []) ≡ Some (Failure ReadFailed) }
    ensures refused_late { outcome_of (record { kind = Hint; length = 100; skip = 0 }) (with_hint (Count 40) ∷ with_hint (Errno 95) ∷ plainly (Count 60) ∷ []) ≡ Some Success }
    ensures no_second_chance { outcome_of (record { kind = Hint; length = 100; skip = 0 }) (with_hint (Errno 95) ∷ plainly (Errno 95) ∷ []) ≢ None }
{}

/// Direct reads of 3000 bytes at 5000, so 904 bytes past a page: they are done at 3904.
pub fn direct_reads_of_a_range()
    ensures whole { outcome_of (record { kind = Direct; length = 3000; skip = 904 }) (plainly (Count 3904) ∷ []) ≡ Some Success }
    ensures page { outcome_of (record { kind = Direct; length = 3000; skip = 904 }) (plainly (Count 4096) ∷ []) ≡ Some Success }
    ensures short { outcome_of (record { kind = Direct; length = 3000; skip = 904 }) (plainly (Count 2000) ∷ []) ≡ None }
    ensures short_then_buffered { outcome_of (record { kind = Direct; length = 3000; skip = 904 }) (plainly (Count 2000) ∷ plainly (Count 3000) ∷ []) ≡ Some Success }
    ensures buffered_in_parts { outcome_of (record { kind = Direct; length = 3000; skip = 904 }) (plainly (Count 2000) ∷ plainly (Count 1000) ∷ plainly (Count 2000) ∷ []) ≡ Some Success }
    ensures from_nothing { outcome_of (record { kind = Direct; length = 3000; skip = 904 }) (plainly (Count 2000) ∷ plainly (Count 1000) ∷ []) ≡ None }
    ensures nothing_twice { outcome_of (record { kind = Direct; length = 3000; skip = 904 }) (plainly (Count 0) ∷ plainly (Count 0) ∷ []) ≡ Some (Failure BlobInsufficientLength) }
    ensures unsupported_then_buffered { outcome_of (record { kind = Direct; length = 3000; skip = 904 }) (plainly (Errno 95) ∷ plainly (Count 3000) ∷ []) ≡ Some Success }
    ensures refused_then_buffered { outcome_of (record { kind = Direct; length = 3000; skip = 904 }) (plainly (Errno 22) ∷ plainly (Count 3000) ∷ []) ≡ Some Success }
    ensures refused_twice { outcome_of (record { kind = Direct; length = 3000; skip = 904 }) (plainly (Errno 22) ∷ plainly (Errno 22) ∷ []) ≡ Some (Failure ReadFailed) }
    ensures hint_refused_after { outcome_of (record { kind = Direct; length = 3000; skip = 904 }) (plainly (Count 0) ∷ with_hint (Errno 95) ∷ plainly (Count 3000) ∷ []) ≡ Some Success }
    ensures canceled { outcome_of (record { kind = Direct; length = 3000; skip = 904 }) (plainly (Errno 125) ∷ []) ≡ Some (Failure ReadFailed) }
    ensures canceled_as_asked { outcome_of (record { kind = Direct; length = 3000; skip = 904 }) (once_cancelled (Errno 125) ∷ []) ≡ Some (Failure ReadFailed) }
    ensures again { outcome_of (record { kind = Direct; length = 3000; skip = 904 }) (plainly (Errno 4) ∷ plainly (Errno 11) ∷ []) ≡ None }
    ensures given_up { outcome_of (record { kind = Direct; length = 3000; skip = 904 }) (once_cancelled (Count 2000) ∷ []) ≡ Some (Failure Timeout) }
    ensures pages { outcome_of (record { kind = Direct; length = 9000; skip = 904 }) (plainly (Count 4096) ∷ plainly (Count 4096) ∷ []) ≡ None }
    ensures pages_then_done { outcome_of (record { kind = Direct; length = 9000; skip = 904 }) (plainly (Count 4096) ∷ plainly (Count 4096) ∷ plainly (Count 1712) ∷ []) ≡ Some Success }
    ensures pages_then_short { outcome_of (record { kind = Direct; length = 9000; skip = 904 }) (plainly (Count 4096) ∷ plainly (Count 100) ∷ plainly (Count 9000) ∷ []) ≡ Some Success }
    ensures no_second_switch { outcome_of (record { kind = Direct; length = 3000; skip = 904 }) (plainly (Count 0) ∷ plainly (Count 0) ∷ []) ≢ None }
    ensures not_added_up { outcome_of (record { kind = Direct; length = 3000; skip = 904 }) (plainly (Count 2000) ∷ plainly (Count 1904) ∷ []) ≢ Some Success }
{}

/// Writes of 10 bytes, not durable or each operation durable by itself.
pub fn writes_of_ten_bytes()
    ensures in_parts { outcome_of (record { kind = Write; length = 10; skip = 0 }) (plainly (Count 4) ∷ plainly (Count 6) ∷ []) ≡ Some Success }
    ensures nothing { outcome_of (record { kind = Write; length = 10; skip = 0 }) (plainly (Count 4) ∷ plainly (Count 0) ∷ []) ≡ Some (Failure WriteFailed) }
    ensures refused { outcome_of (record { kind = Write; length = 10; skip = 0 }) (plainly (Errno 28) ∷ []) ≡ Some (Failure WriteFailed) }
    ensures hint_refused { outcome_of (record { kind = Write; length = 10; skip = 0 }) (with_hint (Errno 95) ∷ plainly (Count 10) ∷ []) ≡ Some Success }
    ensures refused_twice { outcome_of (record { kind = Write; length = 10; skip = 0 }) (with_hint (Errno 95) ∷ plainly (Errno 95) ∷ []) ≡ Some (Failure WriteFailed) }
    ensures canceled { outcome_of (record { kind = Write; length = 10; skip = 0 }) (plainly (Errno 125) ∷ []) ≡ Some (Failure WriteFailed) }
    ensures again { outcome_of (record { kind = Write; length = 10; skip = 0 }) (plainly (Errno 11) ∷ []) ≡ None }
    ensures durable { outcome_of (record { kind = Dsync; length = 10; skip = 0 }) (plainly (Count 4) ∷ plainly (Count 6) ∷ []) ≡ Some Success }
    ensures durable_nothing { outcome_of (record { kind = Dsync; length = 10; skip = 0 }) (plainly (Count 0) ∷ []) ≡ Some (Failure WriteFailed) }
    ensures durable_refused { outcome_of (record { kind = Dsync; length = 10; skip = 0 }) (plainly (Errno 5) ∷ []) ≡ Some (Failure (Io (Code 5))) }
    ensures durable_hint_refused { outcome_of (record { kind = Dsync; length = 10; skip = 0 }) (with_hint (Errno 95) ∷ plainly (Count 10) ∷ []) ≡ Some Success }
    ensures durable_canceled { outcome_of (record { kind = Dsync; length = 10; skip = 0 }) (plainly (Errno 125) ∷ []) ≡ Some (Failure (Io (Code 125))) }
    ensures not_done { outcome_of (record { kind = Write; length = 10; skip = 0 }) (plainly (Count 4) ∷ []) ≢ Some Success }
{}

/// Writes of 10 bytes with a sync after them.
pub fn writes_with_a_trailing_sync()
    ensures written { outcome_of (record { kind = Many; length = 10; skip = 0 }) (plainly (Count 10) ∷ []) ≡ None }
    ensures synced { outcome_of (record { kind = Many; length = 10; skip = 0 }) (plainly (Count 10) ∷ plainly (Count 0) ∷ []) ≡ Some Success }
    ensures synced_at_the_second_try { outcome_of (record { kind = Many; length = 10; skip = 0 }) (plainly (Count 10) ∷ plainly (Errno 11) ∷ plainly (Count 0) ∷ []) ≡ Some Success }
    ensures synced_in_parts { outcome_of (record { kind = Many; length = 10; skip = 0 }) (plainly (Count 4) ∷ plainly (Count 6) ∷ plainly (Count 1) ∷ []) ≡ Some Success }
    ensures not_written { outcome_of (record { kind = Many; length = 10; skip = 0 }) (plainly (Count 4) ∷ plainly (Count 0) ∷ []) ≡ Some (Failure WriteFailed) }
    ensures refused { outcome_of (record { kind = Many; length = 10; skip = 0 }) (plainly (Errno 5) ∷ []) ≡ Some (Failure WriteFailed) }
    ensures sync_refused { outcome_of (record { kind = Many; length = 10; skip = 0 }) (plainly (Count 10) ∷ plainly (Errno 5) ∷ []) ≡ Some (Failure (Io (Code 5))) }
    ensures sync_canceled { outcome_of (record { kind = Many; length = 10; skip = 0 }) (plainly (Count 10) ∷ plainly (Errno 125) ∷ []) ≡ Some (Failure (Io (Code 125))) }
    ensures hint_refused { outcome_of (record { kind = Many; length = 10; skip = 0 }) (with_hint (Errno 95) ∷ plainly (Count 10) ∷ plainly (Count 0) ∷ []) ≡ Some Success }
    ensures not_yet { outcome_of (record { kind = Many; length = 10; skip = 0 }) (plainly (Count 10) ∷ []) ≢ Some Success }
{}

/// Syncs.
pub fn syncs()
    ensures done { outcome_of (record { kind = Sync; length = 1; skip = 0 }) (plainly (Count 0) ∷ []) ≡ Some Success }
    ensures any_count { outcome_of (record { kind = Sync; length = 1; skip = 0 }) (plainly (Count 1) ∷ []) ≡ Some Success }
    ensures again { outcome_of (record { kind = Sync; length = 1; skip = 0 }) (plainly (Errno 4) ∷ plainly (Errno 11) ∷ []) ≡ None }
    ensures refused { outcome_of (record { kind = Sync; length = 1; skip = 0 }) (plainly (Errno 5) ∷ []) ≡ Some (Failure (Io (Code 5))) }
    ensures canceled { outcome_of (record { kind = Sync; length = 1; skip = 0 }) (plainly (Errno 125) ∷ []) ≡ Some (Failure (Io (Code 125))) }
    ensures unsupported { outcome_of (record { kind = Sync; length = 1; skip = 0 }) (plainly (Errno 95) ∷ []) ≡ Some (Failure (Io (Code 95))) }
{}

/// Results that a kernel may give where 10 bytes are asked for, and others that it may not give.
pub fn results_for_ten_bytes()
    ensures all { is_lawful 10 (Count 10) ≡ true }
    ensures too_many { is_lawful 10 (Count 11) ≡ false }
    ensures nothing { is_lawful 10 (Count 0) ≡ true }
    ensures last_code { is_lawful 10 (Errno 4095) ≡ true }
    ensures past_the_codes { is_lawful 10 (Errno 4096) ≡ false }
    ensures no_code { is_lawful 10 (Errno 0) ≡ false }
{}

/// What is left for the next operation.
pub fn windows()
    ensures whole { window_of (record { kind = Send; length = 10; skip = 0 }) at_the_start ≡ 10 }
    ensures rest { window_of (record { kind = Send; length = 10; skip = 0 }) (record at_the_start { moved = 4 }) ≡ 6 }
    ensures longest { window_of (record { kind = Write; length = 5000000000; skip = 0 }) at_the_start ≡ 4294967295 }
    ensures page { window_of (record { kind = Direct; length = 3000; skip = 904 }) at_the_start ≡ 4096 }
    ensures longest_direct { window_of (record { kind = Direct; length = 5000000000; skip = 0 }) at_the_start ≡ 2147479552 }
    ensures buffered_again { window_of (record { kind = Direct; length = 3000; skip = 904 }) (record at_the_start { switched = true }) ≡ 3000 }
    ensures trailing_sync { window_of (record { kind = Many; length = 10; skip = 0 }) (record at_the_start { switched = true }) ≡ 2147483647 }
    ensures event { window_of (record { kind = Poll; length = 1; skip = 0 }) at_the_start ≡ 2147483647 }
{}

/// The record of open 3 by its requests.
pub fn records_of_an_open()
    ensures clean { is_dirty fresh_account ≡ false }
    ensures dirty { is_dirty (changed fresh_account) ≡ true }
    ensures stands_still { changed (record fresh_account { mutations = 18446744073709551615 }) ≡ record fresh_account { mutations = 18446744073709551615 } }
    ensures always_dirty { is_dirty (record fresh_account { mutations = 18446744073709551615; frontier = 18446744073709551615 }) ≡ true }
    ensures written { account_after 3 false 0 Write Success (changed fresh_account) ≡ record fresh_account { mutations = 2 } }
    ensures not_written { account_after 3 false 0 Write (Failure WriteFailed) (changed fresh_account) ≡ record fresh_account { mutations = 1 } }
    ensures durable { account_after 3 false 0 Dsync Success fresh_account ≡ fresh_account }
    ensures not_durable { account_after 3 false 0 Dsync (Failure (Io (Code 5))) fresh_account ≡ record fresh_account { mutations = 1; failure = Some (BlobSyncFailed 3 (Code 5)) } }
    ensures short { account_after 3 false 0 Dsync (Failure WriteFailed) fresh_account ≡ record fresh_account { mutations = 1; failure = Some WriteFailed } }
    ensures not_yet_synced { account_after 3 false 0 Many (Failure WriteFailed) fresh_account ≡ record fresh_account { mutations = 1 } }
    ensures trailing_sync_refused { account_after 3 true 0 Many (Failure (Io (Code 5))) fresh_account ≡ record fresh_account { mutations = 1; failure = Some (BlobSyncFailed 3 (Code 5)) } }
    ensures synced { account_after 3 false 2 Sync Success (record fresh_account { mutations = 4; frontier = 1 }) ≡ record fresh_account { mutations = 4; frontier = 2 } }
    ensures synced_before { account_after 3 false 2 Sync Success (record fresh_account { mutations = 4; frontier = 3 }) ≡ record fresh_account { mutations = 4; frontier = 3 } }
    ensures sync_refused { account_after 3 false 2 Sync (Failure (Io (Code 5))) (record fresh_account { mutations = 4 }) ≡ record fresh_account { mutations = 4; failure = Some (BlobSyncFailed 3 (Code 5)) } }
    ensures first_stays { account_after 3 false 2 Sync (Failure (Io (Code 28))) (record fresh_account { failure = Some (BlobSyncFailed 3 (Code 4)) }) ≡ record fresh_account { failure = Some (BlobSyncFailed 3 (Code 4)) } }
    ensures nothing_covered { account_after 3 false 2 Sync Success (record fresh_account { mutations = 2; failure = Some WriteFailed }) ≡ record fresh_account { mutations = 2; failure = Some WriteFailed } }
    ensures failure_told { outcome_told Sync (record fresh_account { failure = Some WriteFailed }) Success ≡ Failure WriteFailed }
    ensures own_failure_told { outcome_told Dsync (record fresh_account { failure = Some WriteFailed }) (Failure (Io (Code 5))) ≡ Failure (Io (Code 5)) }
    ensures plain_write_is_done { outcome_told Write (record fresh_account { failure = Some WriteFailed }) Success ≡ Success }
    ensures nothing_to_sync { outcome_at_grant Sync fresh_account ≡ Some Success }
    ensures something_to_sync { outcome_at_grant Sync (changed fresh_account) ≡ None }
    ensures granted { outcome_at_grant Dsync fresh_account ≡ None }
    ensures ended_at_grant { outcome_at_grant Many (record fresh_account { failure = Some WriteFailed }) ≡ Some (Failure WriteFailed) }
{}
