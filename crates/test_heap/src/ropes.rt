// Births of ropes and slices, and the two compare-exchanges that move a header.
use crate::plays::{is_played, outcome, plays};
use heap_core::{CoreState, Event};
use js_header::Form;
use std::alloc::Global;

// 17179869186 is the form word of the Cons of 0 and 1, 34359738371 of the Sliced of 0 from unit 2 on, 97 of
// a Flat at content word 3, and 68 of a Thin to 2.

const PLAYS: &str = "== a rope is flattened once
# The strings abcdefghijkl and m over three words, and an own id of length 13.
make 8 8 1 2 -> 0
claim 0 words 0 1 -> 0
store 0 0 7523094288207667809 -> 0
claim 0 words 1 1 -> 1
store 0 1 1818978921 -> 0
claim 0 ids 0 1 -> 0
length 0 0 12 -> 0
birth 0 0 1 -> 0
claim 0 words 2 1 -> 2
store 0 2 109 -> 0
claim 0 ids 1 1 -> 1
length 0 1 1 -> 0
birth 0 1 65 -> 0
claim 0 ids 2 1 -> 2
length 0 2 13 -> 0
# Both agents copy the 13 units into words of their own; the first one's header stands.
birth 0 2 17179869186 -> 0
split 0 1 -> 3
claim 0 words 3 1 -> 3
store 0 3 7523094288207667809 -> 0
claim 0 words 4 1 -> 4
store 0 4 469970414185 -> 0
claim 1 words 3 2 -> 5
claim 1 words 5 2 -> 5
store 1 5 7523094288207667809 -> 0
store 1 6 469970414185 -> 0
flatten 0 2 17179869186 97 learn 3 -> refused
flatten 0 2 17179869186 97 learn 2 -> 17179869186
flatten 1 2 17179869186 161 -> 97
form 1 2 -> 97
join 0 1 -> 3
words -> [3, 7, 0, 1, 12, 65, 1, 97, 13, 0, 0, 0, 0, 0, 0, 0, 0, 0, 0, 7523094288207667809, 1818978921, 109, 7523094288207667809, 469970414185, 7523094288207667809, 469970414185, 0]
== what is not flattened
# The strings abcdefghijkl and m over three words, and an own id of length 13.
make 8 8 1 2 -> 0
claim 0 words 0 1 -> 0
store 0 0 7523094288207667809 -> 0
claim 0 words 1 1 -> 1
store 0 1 1818978921 -> 0
claim 0 ids 0 1 -> 0
length 0 0 12 -> 0
birth 0 0 1 -> 0
claim 0 words 2 1 -> 2
store 0 2 109 -> 0
claim 0 ids 1 1 -> 1
length 0 1 1 -> 0
birth 0 1 65 -> 0
claim 0 ids 2 1 -> 2
length 0 2 13 -> 0
# Words that show the units, word for word, and nothing else.
birth 0 2 17179869186 -> 0
claim 0 words 3 1 -> 3
store 0 3 7523094288207667809 -> 0
claim 0 words 4 1 -> 4
# the last content word isn't stored
flatten 0 2 17179869186 97 -> refused
# the children's units swapped: mabcdefghijkl
store 0 3 7450754115369591149 -> 7523094288207667809
store 0 4 465658603880 -> 0
flatten 0 2 17179869186 97 -> refused
# a lane past the length
store 0 3 7523094288207667809 -> 7450754115369591149
store 0 4 1569481041961 -> 465658603880
flatten 0 2 17179869186 97 -> refused
store 0 4 469970414185 -> 1569481041961
# fixed, no Flat, over words that aren't own, over none, of two-byte units
flatten 0 2 17179869186 113 -> refused
flatten 0 2 17179869186 17179869186 -> refused
flatten 0 2 17179869186 1 -> refused
flatten 0 2 17179869186 105 -> refused
# another Cons, a Flat, no string, no view, and units that nothing tells
flatten 0 2 34 97 -> refused
flatten 0 0 1 97 -> refused
flatten 0 3 17179869186 97 -> refused
flatten 1 2 17179869186 97 -> refused
flatten 0 2 17179869186 97 learn 3 -> refused
flatten 0 2 17179869186 97 -> 17179869186
# its words are no longer own, and it is no Cons
flatten 0 2 17179869186 97 -> refused
store 0 3 0 -> refused
== a rope keeps its units
# The strings abcdefghijkl and m over three words, and an own id of length 13.
make 8 8 1 2 -> 0
claim 0 words 0 1 -> 0
store 0 0 7523094288207667809 -> 0
claim 0 words 1 1 -> 1
store 0 1 1818978921 -> 0
claim 0 ids 0 1 -> 0
length 0 0 12 -> 0
birth 0 0 1 -> 0
claim 0 words 2 1 -> 2
store 0 2 109 -> 0
claim 0 ids 1 1 -> 1
length 0 1 1 -> 0
birth 0 1 65 -> 0
claim 0 ids 2 1 -> 2
length 0 2 13 -> 0
claim 0 words 3 1 -> 3
store 0 3 7523094288207667809 -> 0
claim 0 words 4 1 -> 4
store 0 4 469970414185 -> 0
birth 0 2 17179869186 -> 0
flatten 0 2 17179869186 97 learn 2 -> 17179869186
== what is not joined
# The strings abcdefghijkl and m over three words, and an own id of length 13.
make 8 8 1 2 -> 0
claim 0 words 0 1 -> 0
store 0 0 7523094288207667809 -> 0
claim 0 words 1 1 -> 1
store 0 1 1818978921 -> 0
claim 0 ids 0 1 -> 0
length 0 0 12 -> 0
birth 0 0 1 -> 0
claim 0 words 2 1 -> 2
store 0 2 109 -> 0
claim 0 ids 1 1 -> 1
length 0 1 1 -> 0
birth 0 1 65 -> 0
claim 0 ids 2 1 -> 2
length 0 2 13 -> 0
# The own id 5 of lengths 12 to 25, beside strings of 12, 1, 13, 0 and 11 units.
birth 0 2 17179869186 -> 0
claim 0 ids 3 1 -> 3
length 0 3 0 -> 0
birth 0 3 1 -> 0
claim 0 words 3 1 -> 3
store 0 3 7523094288207667809 -> 0
claim 0 words 4 1 -> 4
store 0 4 7039593 -> 0
claim 0 ids 4 1 -> 4
length 0 4 11 -> 0
birth 0 4 97 -> 0
claim 0 ids 5 1 -> 5
length 0 5 12 -> 0
# 12 units, and an empty side
birth 0 5 17179869314 -> refused
birth 0 5 51539607554 -> refused
length 0 5 13 -> 12
# an empty side, itself, a string that isn't there, and lengths that don't fit
birth 0 5 51539607618 -> refused
birth 0 5 34359738466 -> refused
birth 0 5 85899346082 -> refused
birth 0 5 103079215106 -> refused
birth 0 5 17179869250 -> refused
length 0 5 25 -> 13
birth 0 5 2 -> refused
# 12 and 13 units are 25
birth 0 5 34359738370 -> 0
== a rope is as wide as its sides
# The strings abcdefghijkl and m over three words, and an own id of length 13.
make 8 8 1 2 -> 0
claim 0 words 0 1 -> 0
store 0 0 7523094288207667809 -> 0
claim 0 words 1 1 -> 1
store 0 1 1818978921 -> 0
claim 0 ids 0 1 -> 0
length 0 0 12 -> 0
birth 0 0 1 -> 0
claim 0 words 2 1 -> 2
store 0 2 109 -> 0
claim 0 ids 1 1 -> 1
length 0 1 1 -> 0
birth 0 1 65 -> 0
claim 0 ids 2 1 -> 2
length 0 2 13 -> 0
# A side with the unit 3042.
claim 0 words 3 1 -> 3
store 0 3 12354 -> 0
claim 0 ids 3 1 -> 3
length 0 3 1 -> 0
birth 0 3 105 -> 0
claim 0 ids 4 1 -> 4
length 0 4 13 -> 0
birth 0 4 51539607554 -> refused
birth 0 4 51539607562 -> 0
== a slice keeps its units
# The string abcdefghijklmnopqr, a fixed Flat over its words in the one slot, and own ids of 15 and
# 13 units.
make 8 8 1 1 -> 0
claim 0 words 0 1 -> 0
store 0 0 7523094288207667809 -> 0
claim 0 words 1 1 -> 1
store 0 1 8101815670912281193 -> 0
claim 0 words 2 1 -> 2
store 0 2 29297 -> 0
claim 0 ids 0 1 -> 0
length 0 0 18 -> 0
birth 0 0 1 -> 0
claim 0 ids 1 1 -> 1
length 0 1 15 -> 0
claim 0 ids 2 1 -> 2
length 0 2 18 -> 0
birth 0 2 17 -> 0
take 0 0 2 -> 0
claim 0 ids 3 1 -> 3
length 0 3 13 -> 0
# The slice from 2 to 17, its parent forwarded, and a slice of the slice, which is one of the parent.
birth 0 1 34359738371 -> 0
thin 0 0 1 2 -> 1
form 0 1 -> 34359738371
form 0 0 learn 2 -> 68
thin 0 1 34359738371 2 -> refused
birth 0 3 51539607555 -> 0
== what is not sliced
# The string abcdefghijklmnopqr, a fixed Flat over its words in the one slot, and own ids of 15 and
# 13 units.
make 8 8 1 1 -> 0
claim 0 words 0 1 -> 0
store 0 0 7523094288207667809 -> 0
claim 0 words 1 1 -> 1
store 0 1 8101815670912281193 -> 0
claim 0 words 2 1 -> 2
store 0 2 29297 -> 0
claim 0 ids 0 1 -> 0
length 0 0 18 -> 0
birth 0 0 1 -> 0
claim 0 ids 1 1 -> 1
length 0 1 15 -> 0
claim 0 ids 2 1 -> 2
length 0 2 18 -> 0
birth 0 2 17 -> 0
take 0 0 2 -> 0
claim 0 ids 3 1 -> 3
length 0 3 13 -> 0
birth 0 1 34359738371 -> 0
# counted from the slice that it was cut from, past the end, itself, and no string
birth 0 3 17179869219 -> refused
birth 0 3 103079215107 -> refused
birth 0 3 99 -> refused
birth 0 3 131 -> refused
birth 0 3 68 -> refused
length 0 3 12 -> 13
birth 0 3 51539607555 -> refused
length 0 3 13 -> 12
birth 0 3 85899345923 -> 0
== a rope is no parent
# The strings abcdefghijkl and m over three words, and an own id of length 13.
make 8 8 1 2 -> 0
claim 0 words 0 1 -> 0
store 0 0 7523094288207667809 -> 0
claim 0 words 1 1 -> 1
store 0 1 1818978921 -> 0
claim 0 ids 0 1 -> 0
length 0 0 12 -> 0
birth 0 0 1 -> 0
claim 0 words 2 1 -> 2
store 0 2 109 -> 0
claim 0 ids 1 1 -> 1
length 0 1 1 -> 0
birth 0 1 65 -> 0
claim 0 ids 2 1 -> 2
length 0 2 13 -> 0
# A rope is not cut before it is flattened.
birth 0 2 17179869186 -> 0
claim 0 ids 3 1 -> 3
length 0 3 13 -> 0
birth 0 3 67 -> refused
claim 0 words 3 1 -> 3
store 0 3 7523094288207667809 -> 0
claim 0 words 4 1 -> 4
store 0 4 469970414185 -> 0
flatten 0 2 17179869186 97 -> 17179869186
birth 0 3 67 -> 0
== two agents thin one string
# Aa and BB, which have the hash 2112, each with a fixed Flat; BB's is in slot 0 of 2.
make 4 4 2 2 -> 0
claim 0 words 0 1 -> 0
store 0 0 24897 -> 0
claim 0 ids 0 1 -> 0
length 0 0 2 -> 0
birth 0 0 1 -> 0
claim 0 words 1 1 -> 1
store 0 1 16962 -> 0
claim 0 ids 1 1 -> 1
length 0 1 2 -> 0
birth 0 1 49 -> 0
take 0 0 1 -> 0
claim 0 ids 2 1 -> 2
length 0 2 2 -> 0
birth 0 2 17 -> 0
# other units of equal hash, no slot, a fixed one, another form, no string, no view
thin 0 0 1 1 -> refused
thin 0 0 1 2 -> refused
thin 0 1 49 1 -> refused
thin 0 0 3 2 -> refused
thin 0 3 1 1 -> refused
thin 1 0 1 1 -> refused
take 0 1 2 -> 0
split 0 1 -> 3
thin 0 0 1 1 -> refused
thin 0 0 1 2 -> 1
thin 1 0 1 2 -> 68
join 0 1 -> 3
words -> [3, 2, 2, 3, 68, 2, 49, 2, 17, 2, 0, 0, 24897, 16962, 0, 0]";

#[test]
fn ropes_slices_and_moves_of_headers(rt: HostRuntime) {
    plays(&rt, rt.alloc(), PLAYS);
}

// The strings abcdefghijkl and m, and an own id of length 13.
const TWO_SIDES: &str = "make 8 8 1 2 -> 0
claim 0 words 0 1 -> 0
store 0 0 7523094288207667809 -> 0
claim 0 words 1 1 -> 1
store 0 1 1818978921 -> 0
claim 0 ids 0 1 -> 0
length 0 0 12 -> 0
birth 0 0 1 -> 0
claim 0 words 2 1 -> 2
store 0 2 109 -> 0
claim 0 ids 1 1 -> 1
length 0 1 1 -> 0
birth 0 1 65 -> 0
claim 0 ids 2 1 -> 2
length 0 2 13 -> 0";

// Whether the event is refused once these lines were played, and, where it is asked, the rope's birth.
fn is_refused(alloc: Global, is_born: bool, event: &Event) -> bool {
    let mut state = CoreState::new(alloc);
    for line in TWO_SIDES.lines() {
        if !is_played(alloc, &mut state, line) {
            return false;
        }
    }
    if is_born && !is_played(alloc, &mut state, "birth 0 2 17179869186 -> 0") {
        return false;
    }
    match outcome(alloc, &mut state, event) {
        Some(told) => told.as_str() == "refused",
        None => false,
    }
}

// Words and strings past every place, which no form word can name.
#[test]
fn forms_past_every_place(rt: HostRuntime) {
    let far = u32::MAX;
    let flat = Form::Flat {
        wide: false,
        start: far,
        fixed: false,
    };
    let cons = Form::Cons {
        wide: false,
        left: 0,
        right: far,
    };
    let sliced = Form::Sliced {
        wide: false,
        parent: 0,
        offset: far,
    };
    for form in [flat, cons, sliced] {
        let birth = Event::Birth {
            view: 0,
            id: 2,
            form,
        };
        assert!(rt; is_refused(rt.alloc(), false, &birth));
    }
}

// The same where a rope is to be flattened.
#[test]
fn a_word_past_every_place(rt: HostRuntime) {
    let old = Form::Cons {
        wide: false,
        left: 0,
        right: 1,
    };
    let new = Form::Flat {
        wide: false,
        start: u32::MAX,
        fixed: false,
    };
    let flatten = Event::Flatten {
        view: 0,
        id: 2,
        old,
        new,
        learn: Vec::new(rt.alloc()),
    };
    assert!(rt; is_refused(rt.alloc(), true, &flatten));
}
