// What a refusal of the heap is as a fault of a store.
ghost use Rattle.std.specs.Prelude.{◌≡◌};
ghost use Rattle.heap_session.specs.Faults.{fault_in_join, fault_in_table, fault_in_text};

use heap_intern::TableFull;
use heap_text::{JoinFault, TextFull};
use js_store::{ConcatFault, FullReport, StoreFault};

pub(crate) fn text_fault(full: TextFull) -> StoreFault
    ensures { result ≡ fault_in_text full }
{
    match full {
        TextFull::Ids(full) => StoreFault::Full(FullReport::Ids {
            at: full.at,
            want: full.want,
            end: full.end,
        }),
        TextFull::Words(full) => StoreFault::Full(FullReport::Words {
            at: full.at,
            want: full.want,
            end: full.end,
        }),
    }
}

pub(crate) fn table_fault(full: TableFull) -> StoreFault
    ensures { result ≡ fault_in_table full }
{
    match full {
        TableFull::Ids(full) => StoreFault::Full(FullReport::Ids {
            at: full.at,
            want: full.want,
            end: full.end,
        }),
        TableFull::Words(full) => StoreFault::Full(FullReport::Words {
            at: full.at,
            want: full.want,
            end: full.end,
        }),
        TableFull::Slots { slots } => StoreFault::Full(FullReport::Slots { slots }),
    }
}

pub(crate) fn join_fault(fault: JoinFault) -> ConcatFault
    ensures { result ≡ fault_in_join fault }
{
    match fault {
        JoinFault::TooLong { left, right } => ConcatFault::TooLong { left, right },
        JoinFault::Full(full) => ConcatFault::Store(text_fault(full)),
    }
}
