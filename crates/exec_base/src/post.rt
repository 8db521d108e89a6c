//! The way of a message to another worker.
//!
//! A post is open until its worker closes it, and closed from then on. Who sends has reserved a place for the message
//! before, so sending takes no memory and is refused only by a closed post, which gives the message back. What a post
//! took comes out in the order in which it was taken. A message that says only what a message there says already may
//! be dropped, as the second wake of a root is.

ghost use Rattle.std.specs.Prelude.{◌≡◌, IsTrue, IsErr, OnOk, OnErr, IfErr, Bool, List, Option};
ghost use Rattle.exec_base.specs.Post.{Takes};

/// Where messages to another worker go.
pub trait Post<M> {
    // Whether it is closed, as far as this end knows. A live one learns it only by a refusal.
    ghost closed: { Self → Bool };

    // The messages that it took so far, where that is known.
    ghost taken: { Self → Option (List M) };

    // A place is reserved for this message.
    ghost has_place: { Self → M → Type 0 };

    /// Sends the message, into the place that was reserved for it. Gives it back only where the post is closed. A
    /// post that is closed stays so.
    ///
    /// The caller must have reserved a place for the message. A post that holds the same message already may drop
    /// this one.
    fn send(&mut self, message: M) -> Result<(), M>
        requires place { has_place self.old message }
        ensures back { IfErr result (λ m. (m ≡ message) × IsTrue (closed self.new)) }
        ensures stays { IsTrue (closed self.old) → IsTrue (closed self.new) }
        ensures refuses { IsTrue (closed self.old) → IsErr result }
        ensures taken { OnOk result (Takes (taken self.old) message (taken self.new)) }
        ensures kept { OnErr result (taken self.new ≡ taken self.old) };
}
