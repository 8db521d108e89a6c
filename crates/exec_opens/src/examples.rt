//! Worked examples of the line at the gate of an open, and of what is kept of an open, proved by computation.

ghost use Rattle.std.specs.Prelude.{◌≡◌, ◌≢◌, Some, None};
ghost use Rattle.exec_outcomes.specs.Accounts.{fresh_account};
ghost use Rattle.exec_opens.specs.{Opens.{fresh_open, placed, displaced, joined, passed, keeping, writing, open_at, with_open, with_named, account_in, with_account, holder_at, next_at}, Examples.{of_worker, two, come, line}};

/// First come, first served: who joins where nobody holds the open holds it, and the next waits until it passes.
pub fn lines()
    ensures first { holder_at (come 3 two) 1 ≡ Some (of_worker 3) }
    ensures alone { next_at (come 3 two) 1 ≡ None }
    ensures held { holder_at line 1 ≡ Some (of_worker 3) }
    ensures next { next_at line 1 ≡ Some (of_worker 5) }
    ensures not_the_last { holder_at (come 3 (come 5 two)) 1 ≢ Some (of_worker 3) }
    ensures passed { holder_at (with_open line 1 passed) 1 ≡ Some (of_worker 5) }
    ensures none_left { next_at (with_open line 1 passed) 1 ≡ None }
    ensures free { with_open (with_open line 1 passed) 1 passed ≡ two }
    ensures another { open_at line 0 ≡ Some fresh_open }
{}

/// A place in the line is no permit: it is given back, and nothing else changed, or taken by who joins.
pub fn places()
    ensures made { (placed fresh_open).coming ≡ 1 }
    ensures no_permit { (placed fresh_open).holder ≡ None }
    ensures back { displaced (placed fresh_open) ≡ fresh_open }
    ensures back_in_line { with_open (with_open line 1 placed) 1 displaced ≡ line }
    ensures taken { (joined (of_worker 3) (placed fresh_open)).coming ≡ 0 }
    ensures of_another { (joined (of_worker 3) (placed (placed fresh_open))).coming ≡ 1 }
{}

/// What is kept: a plain write counts a change, and the line stays; of an open of which nothing is kept nothing is counted.
/// A number that no open has, and none, change nothing.
pub fn records()
    ensures counted { account_in (with_named line (Some 1) writing) (Some 1) ≡ Some (record fresh_account { mutations = 1 }) }
    ensures holder { holder_at (with_named line (Some 1) writing) 1 ≡ Some (of_worker 3) }
    ensures next { next_at (with_named line (Some 1) writing) 1 ≡ Some (of_worker 5) }
    ensures of_another { account_in (with_named line (Some 1) writing) (Some 0) ≡ Some fresh_account }
    ensures nothing_kept { writing (keeping None fresh_open) ≡ keeping None fresh_open }
    ensures line_kept { holder_at (with_account line (Some 1) None) 1 ≡ Some (of_worker 3) }
    ensures none { with_named line None writing ≡ line }
    ensures no_open { with_named line (Some 2) writing ≡ line }
    ensures not_known { account_in line (Some 2) ≡ None }
    ensures of_none { account_in line None ≡ None }
    ensures no_gate { holder_at line 2 ≡ None }
{}
