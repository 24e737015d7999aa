// Strings that are interned, and what interning leaves of the string itself: its header forwards to the
// string in the table.
use crate::plays::plays;
use crate::units::{ON_SESSIONS, UNITS};

// Each string uses one id, and one more where it goes into the table: a slot has that second one.
const INTERNED: &str = "== one slot has one string
6 4 1 1
units a -> Made(..
intern 0 -> Made(1)
units b -> Made(..
intern 2 -> NotInterned(Slots { slots: 1 })
units a -> Made(..
intern 3 -> Made(1)
units b -> Made(..
intern 5 -> NotInterned(Slots { slots: 1 })
count -> Number(1)
== as many slots as strings
6 4 2 1
units a -> Made(..
intern 0 -> Made(1)
units b -> Made(..
intern 2 -> Made(3)
units a -> Made(..
intern 4 -> Made(1)
units b -> Made(..
intern 6 -> Made(3)
count -> Number(2)
== the empty string
6 4 2 1
units 0*a -> Made(..
intern 0 -> Made(1)
units a -> Made(..
intern 2 -> Made(3)
units 0*a -> Made(..
intern 4 -> Made(1)
units a -> Made(..
intern 6 -> Made(3)
count -> Number(2)
== two lists of the hash 2112 on two slots
6 4 2 1
units Aa -> Made(..
intern 0 -> Made(1)
units BB -> Made(..
intern 2 -> Made(3)
units Aa -> Made(..
intern 4 -> Made(1)
units BB -> Made(..
intern 6 -> Made(3)
count -> Number(2)
== two lists of the hash 2112 on seven slots
6 4 7 1
units Aa -> Made(..
intern 0 -> Made(1)
units BB -> Made(..
intern 2 -> Made(3)
units Aa -> Made(..
intern 4 -> Made(1)
units BB -> Made(..
intern 6 -> Made(3)
count -> Number(2)
== the last unit differs
6 8 4 1
units abcdefghi -> Made(..
intern 0 -> Made(1)
units abcdefghj -> Made(..
intern 2 -> Made(3)
units abcdefghi -> Made(..
intern 4 -> Made(1)
units abcdefghj -> Made(..
intern 6 -> Made(3)
count -> Number(2)
== the last unit differs in two-byte lanes
6 8 4 1
units Ābcde -> Made(..
intern 0 -> Made(1)
units Ābcdť -> Made(..
intern 2 -> Made(3)
units Ābcde -> Made(..
intern 4 -> Made(1)
units Ābcdť -> Made(..
intern 6 -> Made(3)
count -> Number(2)
== no id is left for the one that goes into the table, and later none at all
3 4 2 1
units a -> Made(..
intern 0 -> Made(1)
units b -> Made(..
intern 2 -> NotInterned(Ids(CounterFull { at: 3, want: 1, end: 3 }))
units a -> Refused(..
units b -> Refused(..
count -> Number(1)
== the one content word serves the string and the one in the table
6 1 2 1
units a -> Made(..
intern 0 -> Made(1)
units b -> Refused(..
units a -> Refused(..
units b -> Refused(..
count -> Number(1)
== long strings
6 32768 2 1
units 65535*ab -> Made(..
intern 0 -> Made(1)
units 65536*a -> Made(..
intern 2 -> Made(3)
units 65535*ab -> Made(..
intern 4 -> Made(1)
units 65536*a -> Made(..
intern 6 -> Made(3)
count -> Number(2)
== widths make no difference
6 2 2 1
units abcd -> Made(0)
intern 0 -> Made(1)
wide 28147922879250529 -> Made(2)
intern 2 -> Made(1)
";

// 36 forwards to id 1, and 17 is a fixed Flat from word 0 on. 68 forwards to id 2, and 113 is a fixed Flat from
// word 3 on, since the first three words are those of the whole string. A copy is wide where a unit of the part
// is over 255, and not where one of the whole is. The wide string has five words, so the copy begins at word
// 5: 177 is narrow, and 185 wide.
const FORWARDED: &str = "== a flat string forwards
4 4 2 1
units abc -> Made(0)
intern 0 -> Made(1)
form 0 -> Number(36)
form 1 -> Number(17)
word 1 -> Maybe(Some(6513249))
== the empty string
4 4 2 1
units 0*a -> Made(0)
intern 0 -> Made(1)
form 0 -> Number(36)
form 1 -> Number(17)
word 1 -> Maybe(None)
== two-byte lanes
4 4 2 1
units あb -> Made(0)
intern 0 -> Made(1)
form 0 -> Number(36)
form 1 -> Number(25)
word 1 -> Maybe(Some(6434882))
== a header has the words of the string, so it is wide as the string is: 25 and not 17
2 1 1 1
wide 28147922879250529 -> Made(0)
intern 0 -> Made(1)
form 0 -> Number(36)
form 1 -> Number(25)
word 1 -> Maybe(Some(28147922879250529))
== a part forwards to a copy
4 9 2 1
units abcdefghijklmnopqr -> Made(0)
slice 0 2 17 -> Made(1)
intern 1 -> Made(2)
form 1 -> Number(68)
form 2 -> Number(113)
word 2 -> Maybe(Some(7667774633883821155))
== a wide string, a narrow part
4 9 2 1
units Ābcdefghijklmnopqr -> Made(0)
slice 0 2 17 -> Made(1)
intern 1 -> Made(2)
form 1 -> Number(68)
form 2 -> Number(177)
word 2 -> Maybe(Some(7667774633883821155))
== a wide part
4 9 2 1
units abあdefghijklmnopqr -> Made(0)
slice 0 2 17 -> Made(1)
intern 1 -> Made(2)
form 1 -> Number(68)
form 2 -> Number(185)
word 2 -> Maybe(Some(28710881422749762))
== a string forwards once
2 1 1 1
units a -> Made(0)
intern 0 -> Made(1)
intern 0 -> Made(1)
form 0 -> Number(36)
";

// A string that forwards, and a part that was cut before, by the calls of a `Text`. Slices of the one and of the
// other have the string that forwards as their parent.
const OF_FORWARDED: &str = "== a forwarded string is read
8 16 1 1
units abcdefghijklmnop -> Made(0)
slice 0 1 16 -> Made(1)
intern 0 -> Made(2)
header 0 -> Header(Thin { target: 2 })
reads 0 abcdefghijklmnop -> Yes
reads 1 bcdefghijklmnop -> Yes
== a forwarded string is cut
8 16 1 1
units abcdefghijklmnop -> Made(0)
slice 0 1 16 -> Made(1)
intern 0 -> Made(2)
slice 0 2 15 -> Made(3)
header 3 -> Header(Sliced { wide: false, parent: 0, offset: 2 })
== a part of a forwarded string is cut
8 16 1 1
units abcdefghijklmnop -> Made(0)
slice 0 1 16 -> Made(1)
intern 0 -> Made(2)
slice 1 1 14 -> Made(3)
header 3 -> Header(Sliced { wide: false, parent: 0, offset: 2 })
== a forwarded string is joined
8 16 1 1
units abcdefghijklmnop -> Made(0)
slice 0 1 16 -> Made(1)
intern 0 -> Made(2)
concat 0 1 -> Made(3)
reads 3 abcdefghijklmnopbcdefghijklmnop -> Yes
";

// Of a key that is interned a thousand times one id is used of two, so that one is left for `a`.
#[test]
fn strings_are_interned_and_forward(rt: HostRuntime) {
    plays(&rt, rt.alloc(), INTERNED);
    plays(&rt, rt.alloc(), FORWARDED);
    plays(&rt, rt.alloc(), OF_FORWARDED);
    plays(&rt, rt.alloc(), UNITS);
    plays(&rt, rt.alloc(), ON_SESSIONS);
    let mut text = String::new(rt.alloc());
    let Ok(()) = text.push_str("== one id is left beside a key\n2 2 3 1\n") else {
        panic!(&rt; "no memory");
    };
    for _turn in 0..1000 {
        let Ok(()) = text.push_str("intern-units key -> Made(0)\n") else {
            panic!(&rt; "no memory");
        };
    }
    let Ok(()) = text.push_str("intern-units a -> Made(1)\ntotals -> Both(2, 2)\n") else {
        panic!(&rt; "no memory");
    };
    plays(&rt, rt.alloc(), text.as_str());
}
