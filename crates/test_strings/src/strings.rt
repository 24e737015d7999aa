// Strings that are made, joined, cut, settled and read.
ghost use Rattle.std.specs.Prelude.{◌<◌};

use crate::plays::plays;
use std::alloc::Global;

// Twelve units or fewer are copied; a rope has the numbers of its sides, and is wide where one of them is.
const ROPES: &str = "== 11*a and 1*a joined
3 10 1 1
units 11*a -> Made(0)
units 1*a -> Made(1)
concat 0 1 -> Made(2)
header 2 -> Header(Flat { wide: false, start: 3, fixed: false })
== 12*a and 1*a joined
3 10 1 1
units 12*a -> Made(0)
units 1*a -> Made(1)
concat 0 1 -> Made(2)
header 2 -> Header(Cons { wide: false, left: 0, right: 1 })
== 1*a and 12*a joined
3 10 1 1
units 1*a -> Made(0)
units 12*a -> Made(1)
concat 0 1 -> Made(2)
header 2 -> Header(Cons { wide: false, left: 0, right: 1 })
== 13*a and 13*a joined
3 10 1 1
units 13*a -> Made(0)
units 13*a -> Made(1)
concat 0 1 -> Made(2)
header 2 -> Header(Cons { wide: false, left: 0, right: 1 })
== 0*a and 13*a joined
3 10 1 1
units 0*a -> Made(0)
units 13*a -> Made(1)
concat 0 1 -> Made(1)
header 2 -> Header(Flat { wide: false, start: 0, fixed: false })
== 13*a and 0*a joined
3 10 1 1
units 13*a -> Made(0)
units 0*a -> Made(1)
concat 0 1 -> Made(0)
header 2 -> Header(Flat { wide: false, start: 0, fixed: false })
== 12*Ā and 12*a joined
3 10 1 1
units 12*Ā -> Made(0)
units 12*a -> Made(1)
concat 0 1 -> Made(2)
header 2 -> Header(Cons { wide: true, left: 0, right: 1 })
== 12*a and 12*Ā joined
3 10 1 1
units 12*a -> Made(0)
units 12*Ā -> Made(1)
concat 0 1 -> Made(2)
header 2 -> Header(Cons { wide: true, left: 0, right: 1 })
== no word is left for the units of a rope
8 4 1 1
units abcdefghijkl -> Made(0)
units m -> Made(1)
concat 0 1 -> Made(2)
settle 2 -> Refused(Words(CounterFull { at: 3, want: 2, end: 4 }))
== twice 2^28 units are more than a string may have
64 8 1 1
units a -> Made(0)
doubled 28 -> Done
concat 28 28 -> NotJoined(TooLong { left: 268435456, right: 268435456 })
== a rope of itself
20 30000 1 1
units abcdefghijklm -> Made(0)
doubled 14 -> Done
ends 14 -> Ends(212992, 97, 109)
== a million joins behind, settled on the usual stack
1000100 1000000 1 1
units m -> Made(0)
units abcdefghijkl -> Made(1)
behind 0 1000000 -> Done
ends 1000001 -> Ends(1000012, 97, 109)
== a million joins before, settled on the usual stack
1000100 1000000 1 1
units m -> Made(0)
units abcdefghijkl -> Made(1)
before 0 1000000 -> Done
ends 1000001 -> Ends(1000012, 109, 108)
";

// Strings at the limit of length are ropes of a few ids. A string itself may be longer than the limit, but
// no answer is.
const LENGTHS: &str = "== the greatest length
200 20 1 1
units a -> Made(0)
units 0*a -> Made(1)
rope 0 1 268435444 -> Done
units a -> Made(..
units 0*a -> Made(..
rope 55 56 268435445 -> Done
concat 53 53 -> Made(..
len 111 -> Number(536870888)
concat 53 109 -> NotJoined(TooLong { left: 268435444, right: 268435445 })
== a smaller limit
200 20 1 1
limit 268435440 -> Done
units a -> Made(0)
units 0*a -> Made(1)
rope 0 1 134217720 -> Done
units a -> Made(..
units 0*a -> Made(..
rope 53 54 134217721 -> Done
concat 51 51 -> Made(..
len 107 -> Number(268435440)
concat 51 105 -> NotJoined(TooLong { left: 134217720, right: 134217721 })
== 12 and 8 units under a limit of 20
3 20 1 1
limit 20 -> Done
units 12*a -> Made(0)
units 8*a -> Made(1)
concat 0 1 -> Made(..
len 2 -> Number(20)
== 12 and 9 units under a limit of 20
3 20 1 1
limit 20 -> Done
units 12*a -> Made(0)
units 9*a -> Made(1)
concat 0 1 -> NotJoined(TooLong { left: 12, right: 9 })
== 7 and 14 units under a limit of 20
3 20 1 1
limit 20 -> Done
units 7*a -> Made(0)
units 14*a -> Made(1)
concat 0 1 -> NotJoined(TooLong { left: 7, right: 14 })
== 0 and 20 units under a limit of 20
3 20 1 1
limit 20 -> Done
units 0*a -> Made(0)
units 20*a -> Made(1)
concat 0 1 -> Made(..
len 2 -> Number(20)
== 20 and 0 units under a limit of 20
3 20 1 1
limit 20 -> Done
units 20*a -> Made(0)
units 0*a -> Made(1)
concat 0 1 -> Made(..
len 2 -> Number(20)
== 0 and 30 units under a limit of 20
3 20 1 1
limit 20 -> Done
units 0*a -> Made(0)
units 30*a -> Made(1)
concat 0 1 -> NotJoined(TooLong { left: 0, right: 30 })
== 21 and 0 units under a limit of 20
3 20 1 1
limit 20 -> Done
units 21*a -> Made(0)
units 0*a -> Made(1)
concat 0 1 -> NotJoined(TooLong { left: 21, right: 0 })
";

// What is left for another call, once a string is made, is too little.
const REFUSALS: &str = "== 8*a, and what is refused then
1 100 1 1
units 8*a -> Made(0)
settle 0 -> Done
units 8*a -> Refused(Ids(CounterFull { at: 1, want: 1, end: 1 }))
== 8*a, and what is refused then
1 100 1 1
units 8*a -> Made(0)
settle 0 -> Done
concat 0 0 -> NotJoined(Full(Ids(CounterFull { at: 1, want: 1, end: 1 })))
== 8*a, and what is refused then
1 100 1 1
units 8*a -> Made(0)
settle 0 -> Done
slice 0 0 4 -> Refused(Ids(CounterFull { at: 1, want: 1, end: 1 }))
== 8*a, and what is refused then
8 1 1 1
units 8*a -> Made(0)
settle 0 -> Done
units 8*a -> Refused(Words(CounterFull { at: 1, want: 1, end: 1 }))
== 6*a, and what is refused then
8 2 1 1
units 6*a -> Made(0)
settle 0 -> Done
concat 0 0 -> NotJoined(Full(Words(CounterFull { at: 1, want: 2, end: 2 })))
== 16*a, and what is refused then
8 2 1 1
units 16*a -> Made(0)
settle 0 -> Done
slice 0 0 8 -> Refused(Words(CounterFull { at: 2, want: 1, end: 2 }))
== 17*a, and what is refused then
8 5 1 1
units 17*a -> Made(0)
settle 0 -> Done
units 17*a -> Refused(Words(CounterFull { at: 3, want: 3, end: 5 }))
== 6*Ā, and what is refused then
8 4 1 1
units 6*Ā -> Made(0)
settle 0 -> Done
concat 0 0 -> NotJoined(Full(Words(CounterFull { at: 2, want: 3, end: 4 })))
";

// Twelve units or fewer are copied behind the three words of the letters; the whole is the string itself.
const SLICES: &str = "== from 2 up to 17
8 16 1 1
units abcdefghijklmnopqr -> Made(0)
slice 0 2 17 -> Made(1)
header 1 -> Header(Sliced { wide: false, parent: 0, offset: 2 })
== from 0 up to 13
8 16 1 1
units abcdefghijklmnopqr -> Made(0)
slice 0 0 13 -> Made(1)
header 1 -> Header(Sliced { wide: false, parent: 0, offset: 0 })
== from 5 up to 18
8 16 1 1
units abcdefghijklmnopqr -> Made(0)
slice 0 5 18 -> Made(1)
header 1 -> Header(Sliced { wide: false, parent: 0, offset: 5 })
== from 0 up to 12
8 16 1 1
units abcdefghijklmnopqr -> Made(0)
slice 0 0 12 -> Made(1)
header 1 -> Header(Flat { wide: false, start: 3, fixed: false })
== from 6 up to 18
8 16 1 1
units abcdefghijklmnopqr -> Made(0)
slice 0 6 18 -> Made(1)
header 1 -> Header(Flat { wide: false, start: 3, fixed: false })
== from 4 up to 4
8 16 1 1
units abcdefghijklmnopqr -> Made(0)
slice 0 4 4 -> Made(1)
header 1 -> Header(Flat { wide: false, start: 0, fixed: false })
== from 0 up to 18
8 16 1 1
units abcdefghijklmnopqr -> Made(0)
slice 0 0 18 -> Made(0)
header 1 -> Header(Flat { wide: false, start: 0, fixed: false })
== a slice of a slice stands on the string from which the first one was cut
8 16 1 1
units abcdefghijklmnopqr -> Made(0)
slice 0 2 17 -> Made(1)
form 1 -> Number(34359738371)
slice 1 1 14 -> Made(2)
header 2 -> Header(Sliced { wide: false, parent: 0, offset: 3 })
reads 1 cdefghijklmnopq -> Yes
reads 2 defghijklmnop -> Yes
== a rope is settled before it is cut, and its slice is a side of another rope
8 16 1 1
units abcdefghijkl -> Made(0)
units mnopqr -> Made(1)
concat 0 1 -> Made(2)
slice 2 5 18 -> Made(3)
header 3 -> Header(Sliced { wide: false, parent: 2, offset: 5 })
concat 3 3 -> Made(4)
reads 4 fghijklmnopqrfghijklmnopqr -> Yes
";

#[test]
fn ropes_lengths_refusals_and_slices(rt: HostRuntime) {
    plays(&rt, rt.alloc(), ROPES);
    plays(&rt, rt.alloc(), LENGTHS);
    plays(&rt, rt.alloc(), REFUSALS);
    plays(&rt, rt.alloc(), SLICES);
}

// A string of each length up to 13, narrow and wide, is joined with itself and cut again, all on one heap.
fn trips(alloc: Global) -> Option<String> {
    let mut lines = String::from_str(alloc, "== strings of each length\n200 400 1 1\n").ok()?;
    for n in 0..14u32 {
        lines
            .push_str(trip(alloc, 8 * n, n, "abcdefghijkl\u{ff}")?.as_str())
            .ok()?;
        lines
            .push_str(trip(alloc, 8 * n + 4, n, "\u{100}bc\u{ffff}efghijkl\0")?.as_str())
            .ok()?;
    }
    Some(lines)
}

// The lines for the first n units of a play, where so many strings were made before.
fn trip(alloc: Global, at: u32, n: u32, text: &str) -> Option<String>
    requires { (at < 1000) × (n < 1000) }
{
    let (both, front, back, double) = (at + 1, at + 2, at + 3, n + n);
    let made = format!(in alloc;
        "units {n}^{text} -> Made(..\nconcat {at} {at} -> Made(..\nsettle {both} -> Done\n"
    ).ok()?;
    let cut = format!(in alloc;
        "slice {both} 0 {n} -> Made(..\nslice {both} {n} {double} -> Made(..\n"
    ).ok()?;
    let read = format!(in alloc;
        "reads {at} {n}^{text} -> Yes\nreads {front} {n}^{text} -> Yes\nreads {back} {n}^{text} -> Yes\n"
    ).ok()?;
    format!(in alloc; "{made}{cut}{read}").ok()
}

#[test]
fn strings_of_each_length(rt: HostRuntime) {
    match trips(rt.alloc()) {
        Some(text) => plays(&rt, rt.alloc(), text.as_str()),
        None => panic!(rt; "no memory"),
    }
}

// Two agents do what follows `both` and behind `and` at once, each in a thread.
const SHARED: &str = "== two agents join a string with itself
8 8 1 2
units abc -> Made(0)
both
concat 0 0 -> Made(1) or Made(2)
reads 1 abcabc -> Yes
and
concat 0 0 -> Made(1) or Made(2)
reads 1 abcabc -> Yes
end
reads 1 abcabc -> Yes
reads 2 abcabc -> Yes
same 1 2 -> No
totals -> Both(3, 3)
units 41*a -> Refused(Words(CounterFull { at: 3, want: 6, end: 8 }))
== two agents settle a rope: one of them at least copied its units into two words
8 8 1 2
units abcdefghijkl -> Made(0)
units m -> Made(1)
concat 0 1 -> Made(2)
header 2 -> Header(Cons { wide: false, left: 0, right: 1 })
form 2 -> Number(17179869186)
totals -> Both(3, 3)
both
reads 2 abcdefghijklm -> Yes
and
reads 2 abcdefghijklm -> Yes
end
header 2 -> Header(Flat { wide: false, ..
totals -> Both(3, 5) or Both(3, 7)
== two agents settle a rope and its left side
8 16 1 2
units abcdefghijkl -> Made(0)
units m -> Made(1)
concat 0 1 -> Made(2)
concat 2 2 -> Made(3)
both
reads 3 abcdefghijklmabcdefghijklm -> Yes
and
reads 2 abcdefghijklm -> Yes
end
== two agents make and intern one list
8 8 1 2
both
units key -> Made(..
intern 0 -> Made(..
and
units key -> Made(..
intern 0 -> Made(..
end
same 1 3 -> Yes
count -> Number(1)
== two agents forward one string
4 1 1 2
units key -> Made(0)
both
intern 0 -> Made(..
forwards 0 1 -> Yes
and
intern 0 -> Made(..
forwards 0 1 -> Yes
end
same 1 2 -> Yes
forwards 0 1 -> Yes
";

#[test]
fn heaps_that_two_agents_share(rt: HostRuntime) {
    for _round in 0..1000 {
        plays(&rt, rt.alloc(), SHARED);
    }
}
