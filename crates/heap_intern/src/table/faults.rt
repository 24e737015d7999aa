// Why a string was not interned.
use heap_table::CounterFull;

/// There is no id for the string that goes into the table, or there are no content words for a
/// copy of the units; or every slot is used by a string with other units, and there are so many
/// slots.
#[derive(Clone, Copy, Debug, PartialEq, Eq)]
pub enum TableFull {
    Ids(CounterFull),
    Words(CounterFull),
    Slots { slots: u32 },
}
