// What is interned straight from units: the table has it over a copy, and a list that is there uses nothing.
// Ids and words are worked out from the format: eight one-byte units, or four two-byte ones, fill a word.

// 17 is a fixed Flat from word 0 on, 32 more for each word on, and 8 more where it is wide: the four that
// have words begin at 0, 1, 2 and 4, and one with no unit at 0. The word of `a` is 97, that of U+0100 is 256.
pub(crate) const UNITS: &str = "== lists of 0, 1, 8 and 9 units, and one above 255
5 5 5 1
intern-units 0*a -> Made(0)
intern-units a -> Made(1)
intern-units abcdefgh -> Made(2)
find-units abcdefghi -> Maybe(None)
intern-units abcdefghi -> Made(3)
find-units Ā -> Maybe(None)
intern-units Ā -> Made(4)
intern-units 0*a -> Made(0)
intern-units a -> Made(1)
intern-units abcdefgh -> Made(2)
intern-units abcdefghi -> Made(3)
intern-units Ā -> Made(4)
find-units 0*a -> Made(0)
find-units a -> Made(1)
find-units abcdefgh -> Made(2)
find-units abcdefghi -> Made(3)
find-units Ā -> Made(4)
find-units b -> Maybe(None)
intern-units b -> NotInterned(Slots { slots: 5 })
reads 0 0*a -> Yes
reads 3 abcdefghi -> Yes
reads 4 Ā -> Yes
form 0 -> Number(17)
form 1 -> Number(17)
form 2 -> Number(49)
form 3 -> Number(81)
form 4 -> Number(153)
word 1 -> Maybe(Some(97))
word 4 -> Maybe(Some(256))
count -> Number(5)
totals -> Both(5, 5)
== a table with one free slot, and with none
3 3 2 1
intern-units a -> Made(0)
find-units b -> Maybe(None)
intern-units b -> Made(1)
find-units b -> Made(1)
find-units c -> Maybe(None)
intern-units c -> NotInterned(Slots { slots: 2 })
intern-units a -> Made(0)
count -> Number(2)
totals -> Both(2, 2)
== lists of the hash 2112, one behind the other
3 3 3 1
intern-units Aa -> Made(0)
find-units BB -> Maybe(None)
intern-units BB -> Made(1)
find-units BB -> Made(1)
find-units Aa -> Made(0)
intern-units BB -> Made(1)
totals -> Both(2, 2)
== the last unit differs
4 8 4 1
intern-units abcdefghi -> Made(0)
find-units abcdefghj -> Maybe(None)
intern-units abcdefghj -> Made(1)
intern-units Ābcde -> Made(2)
find-units Ābcdť -> Maybe(None)
intern-units Ābcdť -> Made(3)
find-units abcdefghi -> Made(0)
totals -> Both(4, 8)
== no id is left: what is there is answered; for what is not, the words were claimed
1 8 2 1
intern-units key -> Made(0)
intern-units key -> Made(0)
find-units key -> Made(0)
find-units b -> Maybe(None)
intern-units b -> NotInterned(Ids(CounterFull { at: 1, want: 1, end: 1 }))
find-units b -> Maybe(None)
intern-units key -> Made(0)
count -> Number(1)
totals -> Both(1, 2)
== no word is left
8 1 2 1
intern-units key -> Made(0)
intern-units b -> NotInterned(Words(CounterFull { at: 1, want: 1, end: 1 }))
find-units b -> Maybe(None)
intern-units 0*a -> Made(1)
intern-units key -> Made(0)
find-units b -> Maybe(None)
totals -> Both(2, 1)
== units, and a string that has them
4 4 2 1
units key -> Made(0)
find-units key -> Maybe(None)
intern 0 -> Made(1)
intern-units key -> Made(1)
intern-units abcd -> Made(2)
wide 28147922879250529 -> Made(3)
intern 4 -> Made(2)
forwards 4 3 -> Yes
totals -> Both(4, 3)
== two agents intern one list
8 8 1 2
both
intern-units key -> Made(..
find-units key -> Made(..
and
intern-units key -> Made(..
end
count -> Number(1)
same 0 1 -> Yes
same 0 2 -> Yes
";

// On sessions the faults are those of a store.
pub(crate) const ON_SESSIONS: &str = "== what stands in the table takes nothing
session 2 2 3 1
intern-units key -> Made(0)
find-units b -> Maybe(None)
units key -> Made(1)
intern 1 -> Made(0)
intern-units key -> Made(0)
find-units key -> Made(0)
intern-units b -> NotStored(Full(Words { at: 2, want: 1, end: 2 }))
find-units b -> Maybe(None)
count -> Number(1)
totals -> Both(2, 2)
== no slot is left
session 4 4 1 1
intern-units a -> Made(0)
find-units b -> Maybe(None)
intern-units b -> NotStored(Full(Slots { slots: 1 }))
find-units a -> Made(0)
totals -> Both(1, 1)
== a session that is split off finds what was interned before
session 4 4 4 2
intern-units a -> Made(0)
split
other find-units a -> Made(0)
other intern-units b -> Made(1)
find-units b -> Made(1)
join
find-units b -> Made(1)
count -> Number(2)
totals -> Both(2, 2)
";
