// A session on the heap is split among threads, and joined again.
use crate::job::{Job, Outcome};
use crate::shared::Shared;
use heap_read::JsStr;
use heap_session::Session;
use heap_table::Heap;
use js_eval::{End, Env, eval};
use std::alloc::Global;

impl<'h> Shared for Session<&'h Heap> {
    ghost use Rattle.heap_session.specs.Sessions.{state_in};

    ghost state = { λ s. state_in s };

    fn lend(&mut self, alloc: Global, give: u32) -> Session<&'h Heap> {
        let mut other = self.split(give);
        let _ = other.note_slots(alloc);
        other
    }

    fn take_back(&mut self, other: Session<&'h Heap>) {
        self.join(other);
    }

    fn run_job(&mut self, alloc: Global, job: &Job, env: &Env<JsStr>, outcome: &mut Outcome) {
        outcome.index = job.index;
        outcome.end = End::Memory;
        let Ok(mut copy) = env.copy() else {
            return;
        };
        outcome.end = eval(alloc, &job.script, &mut copy, self, &mut outcome.lines);
    }
}
