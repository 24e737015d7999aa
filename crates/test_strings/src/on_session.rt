// A player of lines on a session, as `OnText` is one on a `Text`.
ghost use Rattle.std.specs.Prelude.{◌≡◌, ◌+◌, ◌≤◌, None, IfOk, IfSome, length};
ghost use Rattle.js_store.specs.Faults.{Uses};
ghost use Rattle.js_store.specs.State.{IsKnown, IsSettled, text};
ghost use Rattle.heap_session.specs.Sessions.{state_in};
ghost use Rattle.heap_session.specs.Shares.{IsOf, IsWhole, MayJoinSession};
ghost use Rattle.test_strings.specs.Sessions.{GoesOn, HasGoneOn, IsPlayed, IsSplit};

use crate::lines::{Told, Words, behind, fault, step_of, units_of, wrong, yes_if};
use crate::on_text::{OnText, put, take_over};
use heap_rule::MAX;
use heap_session::Session;
use heap_table::Heap;
use heap_text::{JsStr, Text};
use js_store::{ConcatFault, StoreFault, Strings};
use std::alloc::Global;
use std::thread::{Threads, join_mut};

/// A session on a heap of so many agents, and the numbers of the strings that it made.
#[derive(Drop)]
pub(crate) struct OnSession<'h> {
    pub(crate) alloc: Global,
    heap: &'h Heap,
    session: Session<&'h Heap>,
    agents: u32,
    // whether it is known to have the whole share of the heap
    whole: bool,
    made: Vec<u32>,
    ghost played: { IsPlayed (state_in session) heap.now agents whole made.items },
}

fn made(session: &mut Session<&Heap>, units: &[u16]) -> Result<JsStr, StoreFault>
    requires short { length units.now ≤ 65536 }
    ensures goes { GoesOn (state_in session.old) (state_in session.new) }
    ensures known { IfOk result (λ s. IsKnown (state_in session.new) s.id) }
{
    session.from_units(units)
}

fn joined(session: &mut Session<&Heap>, a: JsStr, b: JsStr) -> Result<JsStr, ConcatFault>
    requires left { IsKnown (state_in session.old) a.id }
    requires right { IsKnown (state_in session.old) b.id }
    ensures goes { GoesOn (state_in session.old) (state_in session.new) }
    ensures known { IfOk result (λ s. IsKnown (state_in session.new) s.id) }
{
    session.concat(a, b)
}

fn interned(session: &mut Session<&Heap>, s: JsStr) -> Result<JsStr, StoreFault>
    requires known { IsKnown (state_in session.old) s.id }
    ensures goes { GoesOn (state_in session.old) (state_in session.new) }
    ensures known { IfOk result (λ t. IsKnown (state_in session.new) t.id) }
{
    session.intern(s)
}

// The interned string with these units. Where there is none, one is made if `make` says so.
fn of_table(
    session: &mut Session<&Heap>,
    units: &[u16],
    make: bool,
) -> Option<Result<JsStr, StoreFault>>
    requires short { length units.now ≤ 65536 }
    ensures goes { GoesOn (state_in session.old) (state_in session.new) }
    ensures known { IfSome result (λ r. IfOk r (λ s. IsKnown (state_in session.new) s.id)) }
{
    if make {
        return Some(session.intern_units(units));
    }
    match session.find_units(units) {
        Some(s) => Some(Ok(s)),
        None => None,
    }
}

// A part of a string, once that is settled; None where it has no such part.
fn cut(
    session: &mut Session<&Heap>,
    s: JsStr,
    from: u32,
    to: u32,
) -> Option<Result<JsStr, StoreFault>>
    requires known { IsKnown (state_in session.old) s.id }
    ensures goes { GoesOn (state_in session.old) (state_in session.new) }
    ensures known { IfSome result (λ r. IfOk r (λ t. IsKnown (state_in session.new) t.id)) }
{
    let Ok(()) = session.settle(s) else {
        return None;
    };
    if from > to || to > session.len(s) {
        return None;
    }
    Some(session.slice(s, from, to))
}

// Whether a string has these units, once it is settled.
fn reads(session: &mut Session<&Heap>, s: JsStr, want: &[u16]) -> bool
    requires known { IsKnown (state_in session.old) s.id }
    ensures goes { GoesOn (state_in session.old) (state_in session.new) }
{
    let Ok(()) = session.settle(s) else {
        return false;
    };
    let n = session.len(s);
    if n as usize != want.len() {
        return false;
    }
    has_units(session, s, n, want)
}

// Whether a settled string has these units.
fn has_units(session: &mut Session<&Heap>, s: JsStr, n: u32, want: &[u16]) -> bool
    requires known { IsKnown (state_in session.old) s.id }
    requires settled { IsSettled (state_in session.old) s.id }
    requires long { length (text (state_in session.old) s.id) ≡ n }
    requires count { length want.now ≡ n }
    ensures uses { Uses (state_in session.old) (state_in session.new) None 0 0 }
{
    for i in 0..n {
        if session.unit_at(s, i) != want[i as usize] {
            return false;
        }
    }
    true
}

impl<'h> OnSession<'h> {
    /// No string was made yet.
    pub(crate) fn new(
        alloc: Global,
        heap: &'h Heap,
        session: Session<&'h Heap>,
        agents: u32,
    ) -> OnSession<'h>
        requires of { IsOf (state_in session) heap.now }
        requires agents { (state_in session).frame.agents ≡ agents }
        requires whole { IsWhole (state_in session) }
        requires none_seen { length (state_in session).frame.seen ≡ 0 }
    {
        OnSession {
            alloc,
            heap,
            session,
            agents,
            whole: true,
            made: Vec::new(alloc),
        }
    }

    /// A player on a `Text` by the agent of the session.
    pub(crate) fn into_text(self) -> OnText<'h> {
        let OnSession {
            alloc,
            heap,
            session,
            agents,
            made,
            ..
        } = self;
        let text = Text::new(heap, session.into_agent(), MAX);
        OnText::of_strings(alloc, text, agents, made)
    }

    // The string with this place in the order.
    fn at(&self, k: usize) -> Option<JsStr>
        ensures { IfSome result (λ s. IsKnown (state_in self.now.session) s.id) }
    {
        if k >= self.made.len() {
            return None;
        }
        Some(JsStr { id: self.made[k] })
    }

    fn units(&mut self, text: &str) -> Option<Told>
        ensures goes { GoesOn (state_in self.old.session) (state_in self.new.session) }
    {
        let units = units_of(self.alloc, text)?;
        if units.len() > 65536 {
            return None;
        }
        match made(&mut self.session, units.as_slice()) {
            Ok(s) => put(&mut self.made, s),
            Err(fault) => Some(Told::NotStored(fault)),
        }
    }

    fn concat(&mut self, a: usize, b: usize) -> Option<Told>
        ensures goes { GoesOn (state_in self.old.session) (state_in self.new.session) }
    {
        let a = self.at(a)?;
        let b = self.at(b)?;
        match joined(&mut self.session, a, b) {
            Ok(s) => put(&mut self.made, s),
            Err(fault) => Some(Told::NotConcat(fault)),
        }
    }

    fn slice(&mut self, k: usize, from: u32, to: u32) -> Option<Told>
        ensures goes { GoesOn (state_in self.old.session) (state_in self.new.session) }
    {
        let s = self.at(k)?;
        match cut(&mut self.session, s, from, to) {
            Some(answer) => match answer {
                Ok(t) => put(&mut self.made, t),
                Err(fault) => Some(Told::NotStored(fault)),
            },
            None => None,
        }
    }

    fn intern(&mut self, k: usize) -> Option<Told>
        ensures goes { GoesOn (state_in self.old.session) (state_in self.new.session) }
    {
        let s = self.at(k)?;
        match interned(&mut self.session, s) {
            Ok(t) => put(&mut self.made, t),
            Err(fault) => Some(Told::NotStored(fault)),
        }
    }

    fn of_table(&mut self, text: &str, make: bool) -> Option<Told>
        ensures goes { GoesOn (state_in self.old.session) (state_in self.new.session) }
    {
        let units = units_of(self.alloc, text)?;
        if units.len() > 65536 {
            return None;
        }
        match of_table(&mut self.session, units.as_slice(), make) {
            Some(answer) => match answer {
                Ok(s) => put(&mut self.made, s),
                Err(fault) => Some(Told::NotStored(fault)),
            },
            None => Some(Told::Maybe(None)),
        }
    }

    fn reads(&mut self, k: usize, text: &str) -> Option<Told>
        ensures goes { GoesOn (state_in self.old.session) (state_in self.new.session) }
    {
        let s = self.at(k)?;
        let want = units_of(self.alloc, text)?;
        Some(yes_if(reads(&mut self.session, s, want.as_slice())))
    }

    fn count(&mut self) -> Option<Told>
        ensures goes { GoesOn (state_in self.old.session) (state_in self.new.session) }
    {
        if !self.whole {
            return None;
        }
        Some(Told::Number(u64::from(self.session.count_interned())))
    }

    fn totals(&mut self) -> Option<Told>
        ensures goes { GoesOn (state_in self.old.session) (state_in self.new.session) }
    {
        if !self.whole {
            return None;
        }
        let (ids, words) = self.session.totals();
        Some(Told::Both(ids, words))
    }

    // Whether two places have one string.
    fn same(&self, a: usize, b: usize) -> Option<Told> {
        Some(yes_if(self.at(a)? == self.at(b)?))
    }

    // What a step reports; None where it can't be played.
    fn told(&mut self, name: &str, words: Words) -> Option<Told>
        ensures goes { GoesOn (state_in self.old.session) (state_in self.new.session) }
    {
        let (a, b) = (words.a as usize, words.b as usize);
        match name {
            "units" => self.units(words.text),
            "concat" => self.concat(a, b),
            "slice" => self.slice(a, words.b, words.c),
            "intern" => self.intern(a),
            "intern-units" => self.of_table(words.text, true),
            "find-units" => self.of_table(words.text, false),
            "reads" => self.reads(a, behind(words.text)),
            "count" => self.count(),
            "totals" => self.totals(),
            "note" => Some(yes_if(self.session.note_slots(self.alloc).is_ok())),
            "same" => self.same(a, b),
            _ => None,
        }
    }

    // What a line reports, where that is not what it expects.
    fn wrong_line(&mut self, line: &str) -> Option<String>
        ensures goes { GoesOn (state_in self.old.session) (state_in self.new.session) }
    {
        let Some((step, want)) = line.split_once(" -> ") else {
            return fault(self.alloc, line);
        };
        let (name, words) = step_of(step);
        match self.told(name, words) {
            Some(told) => wrong(self.alloc, line, want, &told),
            None => fault(self.alloc, line),
        }
    }

    /// The first line that does not report what it expects.
    pub(crate) fn wrong(&mut self, lines: &str) -> Option<String>
        ensures goes { GoesOn (state_in self.old.session) (state_in self.new.session) }
    {
        for line in lines.lines() {
            if let Some(found) = self.wrong_line(line) {
                return Some(found);
            }
        }
        None
    }

    // A session of another thread, which knows the same strings.
    fn split(&mut self) -> Option<OnSession<'h>>
        ensures split { IfSome result
            (λ r. IsSplit (state_in self.old.session) (state_in self.new.session) (state_in r.session)) }
    {
        if !self.whole || self.agents < 2 {
            return None;
        }
        let mut made = Vec::new(self.alloc);
        take_over(&mut made, self.made.as_slice(), 0);
        let session = self.session.split(1);
        self.whole = false;
        Some(OnSession {
            alloc: self.alloc,
            heap: self.heap,
            session,
            agents: self.agents,
            whole: false,
            made,
        })
    }

    // Takes over what another session of the heap knows, and the strings that it made after so many.
    fn join(&mut self, other: OnSession<'h>, count: usize)
        requires may { MayJoinSession (state_in self.old.session) (state_in other.session) }
        requires all { (state_in self.old.session).frame.share + (state_in other.session).frame.share
            ≡ (state_in self.old.session).frame.agents }
        requires none_seen { length (state_in self.old.session).frame.seen ≡ 0 }
    {
        let OnSession { session, made, .. } = other;
        self.session.join(session);
        self.whole = true;
        take_over(&mut self.made, made.as_slice(), count);
    }

    /// The same of two sessions that play lines in turn, of which those behind `other` are of the one that
    /// is split off. Afterwards they are one again, which knows what both made.
    pub(crate) fn wrong_in_turn(&mut self, lines: &str) -> Option<String> {
        let count = self.made.len();
        let Some(mut other) = self.split() else {
            return fault(self.alloc, lines);
        };
        let found = in_turn(self, &mut other, lines);
        self.join(other, count);
        found
    }

    /// The same of two sessions that play lines at once, each in a thread.
    pub(crate) fn wrong_at_once(
        &mut self,
        rt: &impl Threads,
        first: &str,
        second: &str,
    ) -> Option<String> {
        let count = self.made.len();
        let Some(mut other) = self.split() else {
            return fault(self.alloc, first);
        };
        let (left, right) = both_at_once(rt, self, &mut other, first, second);
        self.join(other, count);
        match left {
            Some(line) => Some(line),
            None => right,
        }
    }
}

// What a line of the one or the other of two sessions reports, where that is not what it expects.
fn line_of_two(left: &mut OnSession, right: &mut OnSession, line: &str) -> Option<String>
    ensures left { GoesOn (state_in left.old.session) (state_in left.new.session) }
    ensures right { GoesOn (state_in right.old.session) (state_in right.new.session) }
{
    match line.strip_prefix("other ") {
        Some(line) => right.wrong_line(line),
        None => left.wrong_line(line),
    }
}

fn in_turn(left: &mut OnSession, right: &mut OnSession, lines: &str) -> Option<String>
    ensures left { GoesOn (state_in left.old.session) (state_in left.new.session) }
    ensures right { GoesOn (state_in right.old.session) (state_in right.new.session) }
{
    for line in lines.lines() {
        if let Some(found) = line_of_two(left, right, line) {
            return Some(found);
        }
    }
    None
}

// What a thread does.
fn turn(player: &mut OnSession, lines: &str) -> Option<String>
    ensures goes { HasGoneOn (state_in player.old.session) (state_in player.new.session) }
{
    player.wrong(lines)
}

fn both_at_once(
    rt: &impl Threads,
    left: &mut OnSession,
    right: &mut OnSession,
    first: &str,
    second: &str,
) -> (Option<String>, Option<String>)
    ensures left { HasGoneOn (state_in left.old.session) (state_in left.new.session) }
    ensures right { HasGoneOn (state_in right.old.session) (state_in right.new.session) }
{
    join_mut(
        rt,
        &mut || turn(left, first),
        &mut || { turn(right, second) },
    )
}
