//! Where the words and slots of a queue lie: together, on cache lines of their own.

ghost use Rattle.std.specs.Prelude.{◌≡◌};
ghost use Rattle.crossbeam_utils.specs.Padded.{padded_value};

use crate::view::{Live, View, Words};
use atomic_table::Table;
use crossbeam_utils::CachePadded;
use std::alloc::Global;
use std::sync::Arc;

/// The words and slots of a queue.
pub type Inner<T> = CachePadded<Table<Option<T>, View<T>, u64, Live, Global>>;

/// What the steps go by.
pub(crate) fn words_of<T>(inner: &Arc<Inner<T>, Global>) -> &Words<T>
    ensures { result.now ≡ (padded_value inner.now.value).shared }
{
    let padded: &Inner<T> = inner;
    let table: &Table<Option<T>, View<T>, u64, Live, Global> = padded;
    &table.shared
}
