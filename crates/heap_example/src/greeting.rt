// Two greetings, made by two threads on one heap.
ghost use Rattle.std.specs.Prelude.{◌≡◌, ℕ, List, ◌++◌, ◌≤◌, IfOk, length};
ghost use Rattle.heap_rule.specs.Layout.{MAX};
ghost use Rattle.heap_rule.specs.Maps.{Has, HasKey};
ghost use Rattle.heap_table.specs.Agents.{view_of};
ghost use Rattle.heap_table.specs.Known.{KeepsKnown};
ghost use Rattle.heap_text.specs.Turns.{GoesOn};
ghost use Rattle.heap_example.specs.Greeting.{Greets};

use crate::fault::ExampleFault;
use heap_rule::{HeapSize, MAX};
use heap_table::Heap;
use heap_text::{JsStr, Text};
use std::alloc::Global;
use std::thread::{Threads, join_mut};

/// The units of `hello` and the first name, and those of `hello` and the second one.
pub fn greetings(
    rt: &impl Threads,
    alloc: Global,
    hello: &[u16],
    first: &[u16],
    second: &[u16],
) -> Result<(Vec<u16>, Vec<u16>), ExampleFault>
    requires short { (length hello.now ≤ MAX) × (length first.now ≤ MAX) × (length second.now ≤ MAX) }
    ensures first { IfOk result (λ r. r.0.items ≡ hello.now ++ first.now) }
    ensures second { IfOk result (λ r. r.1.items ≡ hello.now ++ second.now) }
{
    let size = HeapSize {
        ids: 8,
        words: 16,
        slots: 1,
    };
    let (heap, agent) = Heap::make(alloc, size, 2)?;
    let mut left = Text::new(&heap, agent, MAX);
    let hello = left.make_flat(hello)?;
    let mut right = left.split(1);
    let (one, other) = greet_both(rt, &mut left, &mut right, hello, first, second);
    left.join(right);
    let first = read(alloc, &mut left, one?)?;
    let second = read(alloc, &mut left, other?)?;
    Ok((first, second))
}

// Each of the two agents makes its greeting, in a thread of its own.
fn greet_both(
    rt: &impl Threads,
    left: &mut Text<&Heap>,
    right: &mut Text<&Heap>,
    hello: JsStr,
    first: &[u16],
    second: &[u16],
) -> (Result<JsStr, ExampleFault>, Result<JsStr, ExampleFault>)
    requires known_left { HasKey (view_of left.old.reader.agent).units hello.id }
    requires known_right { HasKey (view_of right.old.reader.agent).units hello.id }
    requires short { (length first.now ≤ MAX) × (length second.now ≤ MAX) }
    ensures heaps { (left.new.reader.heap ≡ left.old.reader.heap)
        × (right.new.reader.heap ≡ right.old.reader.heap) }
    ensures left { GoesOn (view_of left.old.reader.agent) left.new.reader.agent left.new.reader.heap.now }
    ensures right { GoesOn (view_of right.old.reader.agent) right.new.reader.agent right.new.reader.heap.now }
    ensures first { IfOk result.0
        (λ s. Greets (view_of left.old.reader.agent) (view_of left.new.reader.agent) hello first.now s) }
    ensures second { IfOk result.1
        (λ s. Greets (view_of right.old.reader.agent) (view_of right.new.reader.agent) hello second.now s) }
{
    join_mut(
        rt,
        &mut || greet(left, hello, first),
        &mut || { greet(right, hello, second) },
    )
}

// A new string: the units of `hello`, and then the name.
fn greet(text: &mut Text<&Heap>, hello: JsStr, name: &[u16]) -> Result<JsStr, ExampleFault>
    requires known { HasKey (view_of text.old.reader.agent).units hello.id }
    requires short { length name.now ≤ MAX }
    ensures heap { text.new.reader.heap ≡ text.old.reader.heap }
    ensures goes_on { GoesOn (view_of text.old.reader.agent) text.new.reader.agent
        text.new.reader.heap.now }
    ensures greets { IfOk result
        (λ s. Greets (view_of text.old.reader.agent) (view_of text.new.reader.agent) hello name.now s) }
{
    let name = text.make_flat(name)?;
    Ok(text.concat(hello, name)?)
}

// The units of a string.
fn read(alloc: Global, text: &mut Text<&Heap>, s: JsStr) -> Result<Vec<u16>, ExampleFault>
    requires known { HasKey (view_of text.old.reader.agent).units s.id }
    ensures heap { text.new.reader.heap ≡ text.old.reader.heap }
    ensures known { KeepsKnown (view_of text.old.reader.agent) (view_of text.new.reader.agent) }
    ensures units { IfOk result (λ r. Has (view_of text.old.reader.agent).units s.id r.items) }
{
    text.settle(s)?;
    let window = text.window(s);
    let mut units = Vec::new(alloc);
    for i in 0..window.len {
        units.push(text.unit_in(window, i))?;
    }
    Ok(units)
}
