// The machine on small heaps, word by word.
use crate::plays::plays;

// 1 is the form word of a Flat at content word 0, 9 of one of two-byte units, 17 of a fixed one, and 33
// of a Flat at content word 1.

const PLAYS: &str = "== abc is born
# One content word with the bytes of abc, and an own id of length 3.
make 2 1 1 1 -> 0
claim 0 words 0 1 -> 0
store 0 0 6513249 -> 0
claim 0 ids 0 1 -> 0
length 0 0 3 -> 0
birth 0 0 1 -> 0
words -> [1, 1, 0, 1, 3, 0, 0, 6513249]
entry 0 -> None
entry 1 -> None
== a cons of itself is not born
# One content word with the bytes of abc, and an own id of length 3.
make 2 1 1 1 -> 0
claim 0 words 0 1 -> 0
store 0 0 6513249 -> 0
claim 0 ids 0 1 -> 0
length 0 0 3 -> 0
birth 0 0 2 -> refused
words -> [1, 1, 0, 0, 3, 0, 0, 6513249]
== two byte units are born
make 1 1 1 2 -> 0
# The units 0061 and 3042.
claim 0 words 0 1 -> 0
store 0 0 809631841 -> 0
claim 0 ids 0 1 -> 0
length 0 0 2 -> 0
birth 0 0 9 -> 0
words -> [1, 1, 0, 9, 2, 809631841]
== the empty string is born
make 1 1 1 1 -> 0
claim 0 ids 0 1 -> 0
birth 0 0 1 -> 0
words -> [1, 0, 0, 1, 0, 0]
== words are shared and claims are lost
# One content word with the bytes of abc, and an own id of length 3.
make 2 1 1 1 -> 0
claim 0 words 0 1 -> 0
store 0 0 6513249 -> 0
claim 0 ids 0 1 -> 0
length 0 0 3 -> 0
# Words that are frozen already serve a second string, and a lost claim finds the counter.
birth 0 0 1 -> 0
claim 0 ids 0 1 -> 1
claim 0 ids 1 1 -> 1
counter 0 ids -> 2
length 0 1 8 -> 0
length 0 1 3 -> 8
birth 0 1 17 -> 0
words -> [2, 1, 0, 1, 3, 17, 3, 6513249]
== an agent is split off and joined
make 2 2 1 3 -> 0
# The new agent knows the string that the first one made, and claims for itself; after the join
# the first one may store to what the other claimed. Both steps find the number in word 0.
claim 0 words 0 1 -> 0
store 0 0 6513249 -> 0
claim 0 ids 0 1 -> 0
length 0 0 3 -> 0
split 0 1 -> 1
birth 0 0 1 -> 0
claim 1 words 1 1 -> 1
store 1 1 5 -> 0
store 0 1 7 -> refused
words -> [1, 2, 0, 1, 3, 0, 0, 6513249, 5]
join 0 1 -> 1
store 1 1 5 -> refused
words -> [1, 2, 0, 1, 3, 0, 0, 6513249, 5]
store 0 1 7 -> 5
words -> [1, 2, 0, 1, 3, 0, 0, 6513249, 7]
== splits and joins that are not enabled
make 1 1 1 4 -> 0
# What is split off from a part of a share, in a heap of four agents.
split 0 3 -> 0
split 1 1 -> 0
join 1 2 -> 0
# nothing, the whole share, more, no such agent, one that was joined
split 1 0 -> refused
split 0 1 -> refused
split 1 3 -> refused
split 3 1 -> refused
split 2 1 -> refused
# itself, no such agent, one that was joined
join 0 0 -> refused
join 0 3 -> refused
join 3 0 -> refused
join 0 2 -> refused
join 2 0 -> refused
words -> [0, 0, 0, 0, 0, 0]
split 1 2 -> 0
join 3 0 -> 0
join 1 3 -> 0
split 1 4 -> refused
words -> [0, 0, 0, 0, 0, 0]
split 1 3 -> 0
== headers and words are loaded
# A string of twelve bytes in two words, with its birth, and a second agent.
make 2 3 1 2 -> 0
claim 0 words 0 2 -> 0
store 0 0 7523094288207667809 -> 0
store 0 1 1818978921 -> 0
claim 0 ids 0 1 -> 0
length 0 0 12 -> 0
birth 0 0 1 -> 0
split 0 1 -> 1
# Each load finds the word that stands: form 1 of a Flat at word 0, length 12, and the content.
form 1 0 -> 1
len 1 0 -> 12
word 1 0 -> 7523094288207667809
# the two words are frozen from the split on, so the units follow at once
word 1 1 learn 0 -> 1818978921
form 0 0 learn 0 learn 0 -> 1
words -> [1, 2, 0, 1, 12, 0, 0, 7523094288207667809, 1818978921, 0]
== an own word is loaded
# One content word with the bytes of abc, and an own id of length 3.
make 2 1 1 1 -> 0
claim 0 words 0 1 -> 0
store 0 0 6513249 -> 0
claim 0 ids 0 1 -> 0
length 0 0 3 -> 0
# An own word may be loaded, and is not frozen by it.
word 0 0 -> 6513249
store 0 0 1 -> 6513249
word 0 0 -> 1
== loads that are not enabled
# A string of twelve bytes in two words, with its birth, and a second agent.
make 2 3 1 2 -> 0
claim 0 words 0 2 -> 0
store 0 0 7523094288207667809 -> 0
store 0 1 1818978921 -> 0
claim 0 ids 0 1 -> 0
length 0 0 12 -> 0
birth 0 0 1 -> 0
split 0 1 -> 1
# No such view, a string that is not born or not known, a word that is not frozen, and units that
# nothing tells.
claim 0 words 2 1 -> 2
claim 0 ids 1 1 -> 1
form 2 0 -> refused
form 0 1 -> refused
len 1 1 -> refused
len 1 4294967295 -> refused
len 1 0 learn 1 -> refused
form 1 0 learn 0 learn 1 -> refused
word 2 0 -> refused
word 1 2 -> refused
word 1 3 -> refused
word 0 4294967295 -> refused
word 0 2 learn 1 -> refused
words -> [2, 3, 0, 1, 12, 0, 0, 7523094288207667809, 1818978921, 0]
# what another agent made since the split is not known, and is after the join
birth 0 1 1 -> 0
form 1 1 -> refused
words -> [2, 3, 0, 1, 12, 1, 0, 7523094288207667809, 1818978921, 0]
join 1 0 -> 2
form 1 1 -> 1
== nothing comes before a making
words -> []
# Sizes and agents out of bounds, and any other event before the making.
make 0 1 1 1 -> refused
make 1 0 1 1 -> refused
make 1 1 0 1 -> refused
make 536870912 1 1 1 -> refused
make 1 536870912 1 1 -> refused
make 1 1 536870912 1 -> refused
make 536870910 2 1 1 -> refused
make 4294967295 4294967295 4294967295 1 -> refused
make 1 1 1 0 -> refused
make 1 1 1 65 -> refused
split 0 1 -> refused
join 0 0 -> refused
join 0 1 -> refused
claim 0 ids 0 1 -> refused
store 0 0 0 -> refused
length 0 0 0 -> refused
birth 0 0 1 -> refused
words -> []
== what is not enabled
# One content word with the bytes of abc, and an own id of length 3.
make 2 1 1 1 -> 0
claim 0 words 0 1 -> 0
store 0 0 6513249 -> 0
claim 0 ids 0 1 -> 0
length 0 0 3 -> 0
# One event for each condition that it breaks, on a heap with an own word, which holds abc, and
# an own id of length 3.
# a heap is made once
make 2 1 1 1 -> refused
# no such view
counter 1 ids -> refused
# past what was seen of the counter, past its end, nothing, and two ids at once
claim 0 ids 2 1 -> refused
claim 0 words 1 1 -> refused
claim 0 words 4294967295 4294967295 -> refused
claim 0 ids 1 0 -> refused
claim 0 ids 0 2 -> refused
# no own word, no own id, too long
store 0 1 0 -> refused
length 0 1 0 -> refused
length 0 0 536870889 -> refused
# no own id, no such word, and forms without a birth
birth 0 1 1 -> refused
birth 0 0 33 -> refused
birth 0 0 3 -> refused
birth 0 0 4 -> refused
birth 0 0 0 -> refused
words -> [1, 1, 0, 0, 3, 0, 0, 6513249]
# a lane past the length that is not 0
length 0 0 2 -> 3
birth 0 0 1 -> refused
words -> [1, 1, 0, 0, 2, 0, 0, 6513249]
length 0 0 3 -> 2
# an empty Flat starts at word 0, and a word that was frozen is no longer own
birth 0 0 1 -> 0
claim 0 ids 1 1 -> 1
birth 0 1 33 -> refused
store 0 0 0 -> refused
length 0 0 3 -> refused
birth 0 0 1 -> refused
words -> [2, 1, 0, 1, 3, 0, 0, 6513249]
== a string goes into a slot
make 4 4 2 1 -> 0
# The string abc, and a fixed Flat over the same word, which goes into the slot of its hash,
# 96354 modulo 2. The next slot isn't for it, since the one before has the same units. The first
# one is then forwarded to it.
claim 0 words 0 1 -> 0
store 0 0 6513249 -> 0
claim 0 ids 0 1 -> 0
length 0 0 3 -> 0
birth 0 0 1 -> 0
slot 0 0 -> 0
claim 0 ids 1 1 -> 1
length 0 1 3 -> 0
birth 0 1 17 -> 0
take 0 0 1 -> 0
take 0 1 1 -> refused
words -> [2, 1, 2, 0, 1, 3, 17, 3, 0, 0, 0, 0, 6513249, 0, 0, 0]
slot 0 0 -> 2
entry 0 -> [97, 98, 99]
thin 0 0 1 1 -> 1
words -> [2, 1, 2, 0, 36, 3, 17, 3, 0, 0, 0, 0, 6513249, 0, 0, 0]";

#[test]
fn the_machine_on_small_heaps(rt: HostRuntime) {
    plays(&rt, rt.alloc(), PLAYS);
}
