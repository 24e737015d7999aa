// The words of forms.
use crate::rows::{Table, check};
use js_header::{decode, encode};
use std::alloc::Global;
use std::test::Fail;

// Words that were packed by hand, with their form and the form's word; and words of no form: a tag
// above 4, bit 63, and each bit that a form does not use.
const WORDS: &str = "0 -> Unborn 0
113 -> Flat { wide: false, start: 3, fixed: true } 113
34359738410 -> Cons { wide: true, left: 1, right: 2 } 34359738410
9223372036854775779 -> Sliced { wide: false, parent: 536870911, offset: 536870911 } 9223372036854775779
164 -> Thin { target: 5 } 164
5 -> none
6 -> none
7 -> none
8 -> none
9223372036854775808 -> none
9223372036854775921 -> none
17179869185 -> none
18 -> none
19 -> none
12 -> none
20 -> none
17179869188 -> none";

struct Words;

impl Table for Words {
    fn told(alloc: Global, given: &str) -> Result<String, Fail> {
        match decode(given.parse::<u64>()?) {
            Some(form) => Ok(format!(in alloc; "{form:?} {}", encode(form))?),
            None => Ok(String::from_str(alloc, "none")?),
        }
    }
}

#[test]
fn words_of_forms(rt: HostRuntime) -> Result<(), Fail> {
    check::<Words>(&rt, rt.alloc(), WORDS)
}
