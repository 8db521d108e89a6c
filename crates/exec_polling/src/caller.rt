//! An outside caller.

ghost use Rattle.std.specs.Prelude.{◌≡◌, None};
ghost use Rattle.exec_polling.specs.Calling.{is_free};

use exec_moves::handing::CallPlace;
use exec_task::runnable::Runnable;

/// An outside caller: what only it touches.
#[derive(Drop)]
pub struct Caller {
    /// Its next step.
    pub place: CallPlace,
    /// The runnable in its hand.
    pub hand: Option<Runnable>,
}

impl Caller {
    /// A caller without a call.
    pub fn new() -> Self
        ensures { result ≡ record { place = CallPlace.Nothing; hand = None } }
    {
        Caller {
            place: CallPlace::Nothing,
            hand: None,
        }
    }

    /// Whether it has no call half done.
    pub fn is_free(&self) -> bool
        ensures { result ≡ is_free self.now.place }
    {
        matches!(self.place, CallPlace::Nothing)
    }
}
