// A law of the string table, which a call brings into a proof.
ghost use Rattle.std.specs.Prelude.{ℕ, List};
ghost use Rattle.heap_rule.specs.Sound.{IsSound};
ghost use Rattle.heap_rule.specs.declared.size.HeapSize.{HeapSize};
ghost use Rattle.heap_rule.specs.declared.view.View.{View};
ghost use Rattle.heap_intern.specs.Adopted.{AreOneInEachSlot};

/// What two agents have in one slot is one string, with the same units, at every moment between two
/// steps, since the rule holds then. The call does nothing.
pub fn one_in_each_slot()
    ensures { (z : HeapSize) (agents : ℕ) (words : List ℕ) (views : List View)
        → IsSound z agents words views → AreOneInEachSlot views }
{}
