// The law of the order of keys, which a call brings into a proof.
ghost use Rattle.js_object.specs.Laws.{KeysInOrder, PartsInOrder};

/// Where keys differ, the order in which an object's keys and the parts of its JSON text come is the
/// one in which the array indexes come first, ascending, and then the others as they are, each of
/// them once. The call does nothing.
pub fn keys_have_one_order()
    ensures keys { KeysInOrder }
    ensures parts { PartsInOrder }
{}
