//! Worked examples of numbers at their ends, proved by computation.

ghost use Rattle.std.specs.Prelude.{◌≡◌, true, false, Some, None};
ghost use Rattle.exec_base.specs.declared.error.{Error.TheVariants.Io, Cause.TheVariants.InvalidInput};
ghost use Rattle.exec_outcomes.specs.{declared.outcome.{Kind.TheVariants.Connect, OpResult.TheVariants.Count, Outcome.TheVariants.Failure}, Lawful.{window_in, is_lawful}};
ghost use Rattle.exec_machine.specs.{declared.config.ScriptWord.TheVariants.Sleep, World.own_of, Words.sleep_asked, Ranges.ring_size, Deadlines.outcome_at_enrol};
ghost use Rattle.exec_machine_examples.specs.Unfinished.{one_worker, the_config, at_first};

/// An i32 bounds each count; a ring of 3 has 4 places; the wheel reaches 10 ms; sleeps are cut.
pub fn ends_of_numbers()
    ensures counts { is_lawful 4294967295 (Count 2147483647) ≡ true }
    ensures counts_no_more { is_lawful 4294967295 (Count 2147483648) ≡ false }
    ensures connect { window_in Connect 1 0 ≡ 2147483647 }
    ensures ring { ring_size (one_worker 3) ≡ 4 }
    ensures reaches { outcome_at_enrol the_config (own_of at_first 0) (Some 10000000) ≡ None }
    ensures beyond { outcome_at_enrol the_config (own_of at_first 0) (Some 10000001) ≡
        Some (Failure (Io InvalidInput)) }
    ensures sleep { sleep_asked 5 (Sleep 946080000000000001) ≡ Some 946080000000000005 }
{}
