// The rule that the table keeps between any two steps, and what each step reports to its caller.
use atomic_table::{Join, Play, Split, TableRule};
use heap_rule::{HeapSize, View};

/// What the table is given once, when it is made.
#[derive(Clone, Copy)]
pub struct HeapKey {
    pub size: HeapSize,
    pub agents: u32,
}

/// The rule of the machine, as the rule of a table.
pub struct HeapRule;

impl TableRule<(), View, HeapKey> for HeapRule {
    ghost use Rattle.heap_rule.specs.Agents.{first_view};
    ghost use Rattle.heap_table.specs.Rule.{KeepsHeap};

    ghost holds = { KeepsHeap };

    ghost first = { λ k. first_view k.size k.agents };
}

/// A load of a counter.
pub struct LoadsCounter;

impl Play<(), View> for LoadsCounter {
    ghost use Rattle.heap_table.specs.Plays.{LoadedCounter};

    ghost then = { LoadedCounter };
}

/// A compare-exchange that claims on a counter.
pub struct Claims;

impl Play<(), View> for Claims {
    ghost use Rattle.heap_table.specs.Plays.{IsClaim};

    ghost then = { IsClaim };
}

/// A store to an own content word.
pub struct StoresWord;

impl Play<(), View> for StoresWord {
    ghost use Rattle.heap_table.specs.Plays.{StoredWord};

    ghost then = { StoredWord };
}

/// A store to the length of an own id.
pub struct StoresLength;

impl Play<(), View> for StoresLength {
    ghost use Rattle.heap_table.specs.Plays.{StoredLength};

    ghost then = { StoredLength };
}

/// The store of a form by which an own id is born.
pub struct GivesBirth;

impl Play<(), View> for GivesBirth {
    ghost use Rattle.heap_table.specs.Plays.{GaveBirth};

    ghost then = { GaveBirth };
}

/// A load of a form word.
pub struct LoadsForm;

impl Play<(), View> for LoadsForm {
    ghost use Rattle.heap_table.specs.Plays.{LoadedForm};

    ghost then = { LoadedForm };
}

/// A load of a length.
pub struct LoadsLength;

impl Play<(), View> for LoadsLength {
    ghost use Rattle.heap_table.specs.Plays.{LoadedLength};

    ghost then = { LoadedLength };
}

/// A load of a content word.
pub struct LoadsWord;

impl Play<(), View> for LoadsWord {
    ghost use Rattle.heap_table.specs.Plays.{LoadedWord};

    ghost then = { LoadedWord };
}

/// A compare-exchange of a header from a Cons to a Flat.
pub struct Flattens;

impl Play<(), View> for Flattens {
    ghost use Rattle.heap_table.specs.Plays.{FlattenedForm};

    ghost then = { FlattenedForm };
}

/// A compare-exchange of a header to a Thin.
pub struct Thins;

impl Play<(), View> for Thins {
    ghost use Rattle.heap_table.specs.Plays.{ThinnedForm};

    ghost then = { ThinnedForm };
}

/// A load of a slot.
pub struct LoadsSlot;

impl Play<(), View> for LoadsSlot {
    ghost use Rattle.heap_table.specs.Plays.{LoadedSlot};

    ghost then = { LoadedSlot };
}

/// A load of a slot that enters the call in the history, with what the view knows of the string
/// that it saw there.
pub struct EntersSlot;

impl Play<(), View> for EntersSlot {
    ghost use Rattle.heap_table.specs.Plays.{EnteredSlot};

    ghost then = { EnteredSlot };
}

/// A compare-exchange of a slot from 0.
pub struct TakesSlot;

impl Play<(), View> for TakesSlot {
    ghost use Rattle.heap_table.specs.Plays.{TookSlot};

    ghost then = { TookSlot };
}

/// A note of the share that is about to be given. It changes no word and is no event of the
/// machine.
pub struct NotesShare;

impl Play<(), View> for NotesShare {
    ghost use Rattle.heap_table.specs.Plays.{Noted};

    ghost then = { Noted };
}

/// The cut of a view by its note.
pub struct ByNote;

impl Split<View> for ByNote {
    ghost use Rattle.heap_rule.specs.Agents.{left_after_split, right_after_split};

    ghost left = { λ v. left_after_split v v.giving };

    ghost right = { λ v. right_after_split v v.giving };
}

/// A load that changes nothing: what the rule says of the view is learned anew.
pub struct Looks;

impl Play<(), View> for Looks {
    ghost use Rattle.heap_table.specs.Plays.{Looked};

    ghost then = { Looked };
}

/// The view of an agent that takes over what another has: the joined view. For the proof alone it
/// is written as that view or, where the two do not agree, one that no rule allows; so the next
/// load shows that they agree.
pub struct TakesOver;

impl Join<View> for TakesOver {
    ghost use Rattle.heap_rule.specs.Agents.{spent};
    ghost use Rattle.heap_table.specs.Taken.{taken};

    ghost both = { taken };

    ghost spent = { spent };
}
