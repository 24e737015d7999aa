// One rope that is settled and read by one agent, or by eight at once.
ghost use Rattle.std.specs.Prelude.{◌≡◌, ℕ};
ghost use Rattle.std.specs.Thread.{IsSync};
ghost use Rattle.heap_rule.specs.Maps.{HasKey};
ghost use Rattle.heap_table.specs.Agents.{Belongs, share_of, view_of};
ghost use Rattle.heap_read.specs.Windows.{IsWindow};
ghost use Rattle.bench_heap.specs.Readers.{MayRead};

use crate::measures::NoRoom;
use crate::ropes::{make_rope, room_for};
use heap_rule::MAX;
use heap_table::Heap;
use heap_text::{JsStr, Text};
use std::alloc::Global;
use std::marker::Sync;
use std::thread::{Threads, join_mut};

// The sum of what was read of a rope of so many joins, by one agent or by eight.
pub(crate) fn read_rope<R: Threads + Sync>(
    rt: &R,
    alloc: Global,
    joins: u32,
    at_once: bool,
) -> Result<u64, NoRoom> {
    let Some(size) = room_for(joins, 8) else {
        return Err(NoRoom);
    };
    let Ok((heap, agent)) = Heap::make(alloc, size, 8) else {
        return Err(NoRoom);
    };
    let mut text = Text::new(&heap, agent, MAX);
    let s = make_rope(&mut text, joins, false)?;
    let agents = if at_once { 8 } else { 1 };
    match read_by(rt, &mut text, s, agents) {
        Some(sum) => Ok(sum),
        None => Err(NoRoom),
    }
}

// The units of a string, once it is settled, added up.
fn sum_of_units(text: &mut Text<&Heap>, s: JsStr) -> Option<u64>
    requires text { Belongs text.old.reader.agent text.old.reader.heap.now }
    requires known { HasKey (view_of text.old.reader.agent).units s.id }
{
    let Ok(()) = text.settle(s) else {
        return None;
    };
    let window = text.window(s);
    let mut sum = 0u64;
    for i in 0..window.len {
        let unit = text.unit_in(window, i);
        sum = sum.wrapping_add(u64::from(unit));
    }
    Some(sum)
}

fn added(left: Option<u64>, right: Option<u64>) -> Option<u64> {
    Some(left?.wrapping_add(right?))
}

// Read by so many agents at once, each in a thread of its own: this one is split until as many are there.
#[cycle(readers)]
fn read_by<R: Threads + Sync>(rt: &R, text: &mut Text<&Heap>, s: JsStr, agents: u32) -> Option<u64>
    requires { MayRead text.old.reader.agent text.old.reader.heap.now s.id agents }
{
    if agents == 1 {
        return sum_of_units(text, s);
    }
    let right = agents / 2;
    let reader = &mut text.reader;
    let agent = reader.agent.split(reader.heap, right);
    let mut other = Text::new(reader.heap, agent, text.limit);
    both_halves(rt, text, agents - right, &mut other, right, s)
}

// Two halves of the agents at once.
#[cycle(readers)]
fn both_halves<R: Threads + Sync>(
    rt: &R,
    left: &mut Text<&Heap>,
    on_left: u32,
    right: &mut Text<&Heap>,
    on_right: u32,
    s: JsStr,
) -> Option<u64>
    requires left { MayRead left.old.reader.agent left.old.reader.heap.now s.id on_left }
    requires right { MayRead right.old.reader.agent right.old.reader.heap.now s.id on_right }
{
    let mut first = ||
        requires { IsSync R.row × MayRead left.now.reader.agent left.now.reader.heap.now s.id on_left }
    { read_by(rt, left, s, on_left) };
    let mut second = ||
        requires { IsSync R.row × MayRead right.now.reader.agent right.now.reader.heap.now s.id on_right }
    { read_by(rt, right, s, on_right) };
    let (a, b) = join_mut(rt, &mut first, &mut second);
    added(a, b)
}
