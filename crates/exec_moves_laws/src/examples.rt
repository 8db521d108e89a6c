//! Worked examples, proved by computation.

ghost use Rattle.std.specs.Prelude.{true, [], ◌∷◌};
ghost use Rattle.exec_machine.specs.Examples.{usual};
ghost use Rattle.exec_moves.specs.{Call.{load_global_set, no_call}, Cells.Cell.{RunQueue, Inbox, GlobalQueue, SearchCount}, Claim.latched, Plays.first_things, State.{no_queue, word_of}, Thing.{call_puts, set_global, set_idle, set_word}};
ghost use Rattle.exec_moves_laws.specs.Sees.{LooksAlike, CallsAlike};

/// Things that differ elsewhere look alike at a cell, and those that differ there don't. An inbox shows the latch of its
/// wake word, which a message doesn't touch. Nor do they look alike where one has a queue more.
pub fn what_cells_show()
    ensures elsewhere { let x = first_things usual in LooksAlike (RunQueue 0) x (set_global x (0 ∷ [])) }
    ensures there { let x = first_things usual in LooksAlike GlobalQueue x (set_global x (0 ∷ [])) → ⊥ }
    ensures latch { let x = first_things usual in LooksAlike (Inbox 0) x (set_word 0 x (latched (word_of x 0))) → ⊥ }
    ensures one_more { let x = first_things usual in
        LooksAlike GlobalQueue x (record x { queues = no_queue ∷ no_queue ∷ [] }) → ⊥ }
{}

/// A caller that looks for who is in the idle set, and names the search count, doesn't do the same by what it names.
pub fn refused_reader()
    ensures alike { let x = first_things usual in let y = set_idle x (record { published = true ∷ []; count = 0 }) in
        LooksAlike SearchCount x y }
    ensures not_the_same { let x = first_things usual in let y = set_idle x (record { published = true ∷ []; count = 0 }) in
        let one = call_puts (set_idle x) (load_global_set no_call x.idle) in
        let other = call_puts (set_idle y) (load_global_set no_call y.idle) in CallsAlike SearchCount one other → ⊥ }
{}
