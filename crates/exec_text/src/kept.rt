//! Lists that are read on where there is no memory for them.
//!
//! A text is judged to its end, whether or not there is memory for what it says: so want of memory is told only
//! of a text that is a trace, and never in place of a faulty line. A list is whole (`All`) as long as each of its
//! elements found room. From the first on that didn't it is `Lost`: what was kept is let go, and what comes is
//! judged and not kept.

ghost use Rattle.std.specs.Prelude.{◌≡◌, List, [], ◌∷◌, ◌++◌, IfOk, IfErr};
ghost use Rattle.exec_text.specs.{declared.read_error.ReadError.TheVariants.NoMemory, Kept.{Keeps, KeepsLists}};

use crate::read_error::ReadError;
use std::alloc::Global;

/// The elements of a list, or that they are lost.
#[derive(Drop)]
pub(crate) enum Kept<T> {
    /// All of them.
    All(Vec<T>),
    /// There was no memory for one of them.
    Lost,
}

impl<T: Drop> Kept<T> {
    /// No elements so far.
    pub(crate) fn new(alloc: Global) -> Self
        ensures { Keeps result [] }
    {
        Kept::All(Vec::new(alloc))
    }

    /// The list with one more element.
    pub(crate) fn with(self, element: T) -> Self
        ensures { (all : List T) → Keeps self all → Keeps result (all ++ element ∷ []) }
    {
        match self {
            Kept::All(mut list) => match list.push(element) {
                Ok(()) => Kept::All(list),
                Err(_) => Kept::Lost,
            },
            Kept::Lost => Kept::Lost,
        }
    }

    /// All elements, unless they are lost.
    pub(crate) fn whole(self) -> Result<Vec<T>, ReadError>
        ensures ok { IfOk result (λ list. self ≡ Kept.All list) }
        ensures err { IfErr result (λ e. e ≡ NoMemory) }
    {
        match self {
            Kept::All(list) => Ok(list),
            Kept::Lost => Err(ReadError::NoMemory),
        }
    }
}

impl<T: Drop> Kept<Vec<T>> {
    /// The lists with one more.
    pub(crate) fn with_list(self, list: Kept<T>) -> Self
        ensures { (all : List (List T)) (one : List T) → KeepsLists self all → Keeps list one →
            KeepsLists result (all ++ one ∷ []) }
    {
        match list {
            Kept::All(list) => self.with(list),
            Kept::Lost => Kept::Lost,
        }
    }
}
