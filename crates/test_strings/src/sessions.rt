// Sessions with the room that each play says, and what interning leaves of the words of the heap.
use crate::plays::plays;

// 36 forwards to id 1, which is a fixed Flat, 17, over the content word of the string.
const SESSIONS: &str = "== a string goes into the table as a second one over the same content words
session 4 4 2 1
units abc -> Made(0)
intern 0 -> Made(1)
count -> Number(1)
totals -> Both(2, 1)
text
slot 0 -> Maybe(Some(1))
slot 1 -> Maybe(None)
form 0 -> Number(36)
len 0 -> Number(3)
form 1 -> Number(17)
len 1 -> Number(3)
word 1 -> Maybe(Some(6513249))
== no slot is left
session 8 8 1 1
units a -> Made(0)
intern 0 -> Made(1)
units b -> Made(2)
intern 2 -> NotStored(Full(Slots { slots: 1 }))
count -> Number(1)
== the one id that is left serves the second string, and none is left for the one in the table
session 3 8 2 1
units a -> Made(0)
intern 0 -> Made(1)
units b -> Made(2)
intern 2 -> NotStored(Full(Ids { at: 3, want: 1, end: 3 }))
count -> Number(1)
== no word is left
session 8 1 2 1
units a -> Made(0)
intern 0 -> Made(1)
units b -> NotStored(Full(Words { at: 1, want: 1, end: 1 }))
count -> Number(1)
== letters that were cut are interned
session 8 8 1 1
units abcdefghijklmnopqr -> Made(0)
slice 0 2 17 -> Made(1)
reads 1 cdefghijklmnopq -> Yes
intern 0 -> Made(2)
reads 1 cdefghijklmnopq -> Yes
slice 1 1 14 -> Made(3)
text
header 0 -> Header(Thin { target: 2 })
form 1 -> Number(34359738371)
header 3 -> Header(Sliced { wide: false, parent: 0, offset: 3 })
== a part of a forwarded string
session 5 10 2 1
units abcdefghijklmnopqr -> Made(0)
intern 0 -> Made(1)
slice 0 2 17 -> Made(2)
intern 2 -> Made(3)
== a part of a forwarded rope
session 5 10 2 1
units abcdefghijklmnopqr -> Made(0)
concat 0 0 -> Made(1)
intern 1 -> Made(2)
slice 1 2 17 -> Made(3)
intern 3 -> Made(4)
== a part and the whole
session 8 8 2 1
units abcdefghijklmnopqr -> Made(0)
slice 0 2 17 -> Made(1)
intern 1 -> Made(2)
intern 0 -> Made(3)
intern 1 -> Made(2)
== a part and the whole, with one id left for an interned string
session 3 8 2 1
units abcdefghijklmnopqr -> Made(0)
slice 0 2 17 -> Made(1)
intern 1 -> Made(2)
intern 0 -> NotStored(Full(Ids { at: 3, want: 1, end: 3 }))
intern 1 -> Made(2)
== a part and the whole, with too few words for the copy of the part, which takes two
session 8 4 2 1
units abcdefghijklmnopqr -> Made(0)
slice 0 2 17 -> Made(1)
intern 1 -> NotStored(Full(Words { at: 3, want: 2, end: 4 }))
intern 0 -> Made(2)
intern 1 -> NotStored(Full(Words { at: 3, want: 2, end: 4 }))
== a part and the whole on one slot
session 8 8 1 1
units abcdefghijklmnopqr -> Made(0)
slice 0 2 17 -> Made(1)
intern 1 -> Made(2)
intern 0 -> NotStored(Full(Slots { slots: 1 }))
intern 1 -> Made(2)
";

// Of short strings a session keeps those that it made last; string 0 is not kept. A key uses one id. Aa and BB
// have the hash 2112: lists of one hash never have one string, and replace each other, so that each uses
// an id whenever the other was made between. A session that is split off keeps no string at first, and then
// those that it made; joined again, the first has those that it kept.
const RECENT: &str = "== a key made again
session 7 7 1 1
units BB -> Made(0)
units BB -> Made(1)
units value -> Made(2)
units value -> Made(2)
units Aa -> Made(3)
units BB -> Made(4)
units Aa -> Made(5)
units BB -> Made(6)
units value -> Made(2)
units value -> Made(2)
== keys of a session that is split off
session 6 6 1 2
units Aa -> Made(0)
units value -> Made(1)
units value -> Made(1)
split
other units value -> Made(2)
other units value -> Made(2)
other units Aa -> Made(3)
units BB -> Made(4)
units BB -> Made(4)
other units Aa -> Made(3)
units value -> Made(1)
join
units value -> Made(1)
units value -> Made(1)
units Aa -> Made(5)
units Aa -> Made(5)
";

// A session that is split off finds what was interned before, and interns a string more. Joined again, the
// first finds that one; ids 0, 2, 3 and 5 are the strings that were made.
const SPLIT: &str = "== strings of a session that is split off
session 8 8 4 2
units a -> Made(0)
intern 0 -> Made(1)
split
other units a -> Made(2)
other intern 2 -> Made(1)
other units b -> Made(3)
other intern 4 -> Made(4)
join
units b -> Made(5)
intern 6 -> Made(4)
count -> Number(2)
totals -> Both(6, 4)
";

// Aa, BB and C# have the hash 2112, and begin at slot 0 of 4, so two of them are noted with one hash. A session
// that is split off has noted nothing, and notes after `note` what it finds; joined again, the first has its own
// notes, by which it finds what the other interned, noted or not.
const NOTED: &str = "== strings of one hash, and one that is not there
session 9 9 4 1
note -> Yes
units Aa -> Made(0)
intern 0 -> Made(1)
units BB -> Made(2)
intern 2 -> Made(3)
intern 0 -> Made(1)
intern 2 -> Made(3)
intern-units Aa -> Made(1)
intern-units BB -> Made(3)
find-units Aa -> Made(1)
find-units BB -> Made(3)
find-units C# -> Maybe(None)
find-units a -> Maybe(None)
intern-units C# -> Made(4)
find-units C# -> Made(4)
count -> Number(3)
totals -> Both(5, 3)
== slots that were used before they are noted, and notes that are given up
session 9 9 4 1
units Aa -> Made(0)
intern 0 -> Made(1)
intern-units BB -> Made(2)
note -> Yes
find-units C# -> Maybe(None)
find-units BB -> Made(2)
intern 0 -> Made(1)
note -> Yes
intern-units BB -> Made(2)
intern-units C# -> Made(3)
find-units BB -> Made(2)
count -> Number(3)
== a full table, noted and not
session 9 9 2 1
intern-units a -> Made(0)
intern-units b -> Made(1)
note -> Yes
intern-units c -> NotStored(Full(Slots { slots: 2 }))
find-units a -> Made(0)
find-units b -> Made(1)
intern-units c -> NotStored(Full(Slots { slots: 2 }))
find-units c -> Maybe(None)
find-units b -> Made(1)
== notes of a session that is split off
session 9 9 4 2
note -> Yes
intern-units Aa -> Made(0)
split
other find-units Aa -> Made(0)
other note -> Yes
other intern-units BB -> Made(1)
other find-units Aa -> Made(0)
other find-units BB -> Made(1)
find-units BB -> Made(1)
other intern-units C# -> Made(2)
other find-units C# -> Made(2)
join
find-units C# -> Made(2)
intern-units BB -> Made(1)
find-units Aa -> Made(0)
find-units a -> Maybe(None)
count -> Number(3)
";

// A call that is refused words claims no id: the next string, a rope that uses no word, has the next one.
// One that is refused an id has claimed the word of its copy before, which stays claimed; a rope, and a part
// that is no copy, claim none. 13 letters use two words, 26 use four.
const REFUSED: &str = "== a short join is refused a word
session 8 3 1 1
units abcdefghijklm -> Made(0)
units xy -> Made(1)
concat 1 1 -> NotConcat(Store(Full(Words { at: 3, want: 1, end: 3 })))
concat 0 0 -> Made(2)
totals -> Both(3, 3)
== a short join is refused an id
session 2 8 1 1
units abcdefghijklm -> Made(0)
units xy -> Made(1)
concat 1 1 -> NotConcat(Store(Full(Ids { at: 2, want: 1, end: 2 })))
totals -> Both(2, 4)
concat 0 0 -> NotConcat(Store(Full(Ids { at: 2, want: 1, end: 2 })))
totals -> Both(2, 4)
== a short part is refused a word
session 8 2 1 1
units abcdefghijklm -> Made(0)
slice 0 1 4 -> NotStored(Full(Words { at: 2, want: 1, end: 2 }))
slice 0 1 2 -> NotStored(Full(Words { at: 2, want: 1, end: 2 }))
concat 0 0 -> Made(1)
totals -> Both(2, 2)
== a part is refused an id
session 1 8 1 1
units abcdefghijklmnopqr -> Made(0)
slice 0 1 14 -> NotStored(Full(Ids { at: 1, want: 1, end: 1 }))
totals -> Both(1, 3)
slice 0 1 4 -> NotStored(Full(Ids { at: 1, want: 1, end: 1 }))
totals -> Both(1, 4)
== units are refused words
session 8 3 1 1
units abcdefghijklm -> Made(0)
units abcdefghijklmn -> NotStored(Full(Words { at: 2, want: 2, end: 3 }))
concat 0 0 -> Made(1)
units a -> Made(2)
units xy -> NotStored(Full(Words { at: 3, want: 1, end: 3 }))
units b -> NotStored(Full(Words { at: 3, want: 1, end: 3 }))
units b -> NotStored(Full(Words { at: 3, want: 1, end: 3 }))
concat 0 1 -> Made(3)
totals -> Both(4, 3)
== units are refused an id
session 1 8 1 1
units abcdefghijklm -> Made(0)
units xy -> NotStored(Full(Ids { at: 1, want: 1, end: 1 }))
totals -> Both(1, 3)
units xy -> NotStored(Full(Ids { at: 1, want: 1, end: 1 }))
totals -> Both(1, 4)
== settling is refused words
session 8 5 1 1
units abcdefghijklm -> Made(0)
concat 0 0 -> Made(1)
reads 1 abcdefghijklmabcdefghijklm -> No
concat 0 1 -> Made(2)
totals -> Both(3, 2)
";

#[test]
fn sessions_alone_and_split(rt: HostRuntime) {
    plays(&rt, rt.alloc(), SESSIONS);
    plays(&rt, rt.alloc(), RECENT);
    plays(&rt, rt.alloc(), SPLIT);
    plays(&rt, rt.alloc(), NOTED);
    plays(&rt, rt.alloc(), REFUSED);
}

// Two sessions intern the same list at once, each in a thread. Joined again, there is one interned string, and
// both have its number.
const SHARED: &str = "== two sessions make and intern one list
session 8 8 1 2
both
units key -> Made(..
intern 0 -> Made(..
and
units key -> Made(..
intern 0 -> Made(..
end
count -> Number(1)
same 1 3 -> Yes
";

#[test]
fn equal_lists_have_one_number(rt: HostRuntime) {
    for _round in 0..1000 {
        plays(&rt, rt.alloc(), SHARED);
    }
}
