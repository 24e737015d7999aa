// What C holds of a text that is built up.
ghost use Rattle.std.specs.Prelude.{◌≡◌, ◌≢◌, [], IfOk, IfErr, OnErr, None, Some};
ghost use Rattle.heap_agents.specs.Ready.{IsReady};
ghost use Rattle.heap_build.specs.declared.builder.Builder as builder;
ghost use Rattle.heap_build.specs.Built.{units_so_far};
ghost use Rattle.c_handles.specs.Handles.{IsHandle};
ghost use Rattle.c_steps.specs.Building.{IsBuilder, IsOpened, EmptiesText, build_status, text_so_far, decoded_answer};
ghost use Rattle.c_steps.specs.Decoded.{fault_answer};
ghost use Rattle.c_steps.specs.Reports as reports;
ghost use Rattle.c_steps.specs.Tasks.{Does, Leaves};

use crate::answer::{DONE, JsAnswer, NO_MEMORY, TOO_LONG, no_memory, not_utf8, refusal};
use crate::given::{Task, on_units};
use c_handles::{BoxedText, JsAgent};
use heap_build::{BuildFault, Builder, DecodeFault};
use std::alloc::{AllocError, Global};

/// A text that is built up outside any heap, as C holds it: a pointer to a box that the handle owns, whether
/// there is one, and how many units it has. All zero is an empty text. C copies it as it moves it, and uses
/// one copy.
#[repr(C)]
#[derive(Drop)]
pub struct JsBuilder {
    pub at: BoxedText,
    pub live: u32,
    pub len: u32,
}

impl JsBuilder {
    /// The text, for which a box is made where there is none yet. It leaves nothing here until it is put back.
    pub fn open(&mut self, alloc: Global) -> Result<Box<Builder>, AllocError>
        requires { IsBuilder self.old }
        ensures opened { IfOk result (λ b. IsOpened self.old.at.value b.value) }
        ensures none { IfErr result (λ e. self.old.at.value ≡ None) }
        ensures unchanged { OnErr result (self.new.at.value ≡ self.old.at.value) }
        ensures handle { OnErr result (IsBuilder self.new) }
    {
        if self.live == 0 {
            return empty(alloc);
        }
        Ok(self.take(alloc))
    }

    /// The text of a handle that has one, which leaves nothing here until it is put back.
    pub fn take(&mut self, alloc: Global) -> Box<Builder>
        requires { (b : builder.Builder) × (self.old.at.value ≡ Some b) }
        ensures taken { self.old.at.value ≡ Some result.value }
        ensures gone { self.new.at.value ≡ None }
        ensures zero { (self.new.live ≡ 0) × (self.new.len ≡ 0) }
    {
        self.live = 0;
        self.len = 0;
        self.at.take(alloc)
    }

    /// Puts a text here, where nothing is.
    pub fn put(&mut self, text: Box<Builder>)
        ensures there { self.new.at.value ≡ Some text.value }
        ensures handle { IsBuilder self.new }
    {
        self.len = text.as_slice().len() as u32;
        self.at.put(text);
        self.live = 1;
    }

    // Puts a text back, which is emptied where its units became a string.
    fn give_back(&mut self, text: Box<Builder>, status: u32)
        ensures handle { IsBuilder self.new }
        ensures spent { EmptiesText (Some text.value) self.new.at.value status }
    {
        if status != DONE {
            self.put(text);
            return;
        }
        let mut text = text;
        text.clear();
        self.put(text);
    }

    /// A task on the units of a text.
    pub fn spend(&mut self, alloc: Global, agent: &mut JsAgent, task: Task) -> JsAnswer
        requires text { IsBuilder self.old }
        requires ready { IsReady agent.old.at.value }
        ensures text { IsBuilder self.new }
        ensures handle { IsHandle agent.new }
        ensures told { result.status ≢ reports.BAD_ARGUMENT }
        ensures does { Does task agent.old.at.value agent.new.at.value (text_so_far self.old.at.value)
            result }
        ensures leaves { Leaves task agent.old.at.value agent.new.at.value }
        ensures spent { EmptiesText self.old.at.value self.new.at.value result.status }
    {
        if self.live == 0 {
            return on_units(agent, task, &[]);
        }
        let text = self.take(alloc);
        let answer = on_units(agent, task, text.as_slice());
        self.give_back(text, answer.status);
        answer
    }
}

// A box with an empty text.
fn empty(alloc: Global) -> Result<Box<Builder>, AllocError>
    ensures { IfOk result (λ b. units_so_far b.value ≡ []) }
{
    match Box::new(alloc, Builder::new(alloc)) {
        Ok(text) => Ok(text),
        Err(_) => Err(AllocError),
    }
}

/// The status of a call that adds units.
pub fn status_of(answer: Result<(), BuildFault>) -> u32
    ensures status { result ≡ build_status answer }
    ensures told { result ≢ reports.BAD_ARGUMENT }
    ensures words { result ≢ reports.NO_WORDS }
{
    match answer {
        Ok(()) => DONE,
        Err(BuildFault::NoMemory) => NO_MEMORY,
        Err(BuildFault::TooLong) => TOO_LONG,
    }
}

/// What a call answers that adds the units which bytes spell.
pub fn of_decoded(answer: Result<(), DecodeFault>) -> JsAnswer
    ensures value { result ≡ decoded_answer answer }
    ensures told { result.status ≢ reports.BAD_ARGUMENT }
{
    match answer {
        Ok(()) => refusal(DONE, 0, 0, 0),
        Err(fault) => undecoded(fault),
    }
}

// What is answered where no units were decoded.
fn undecoded(fault: DecodeFault) -> JsAnswer
    ensures value { result ≡ fault_answer fault }
    ensures told { result.status ≢ reports.BAD_ARGUMENT }
{
    match fault {
        DecodeFault::Malformed { at } => not_utf8(at),
        DecodeFault::NotAdded(BuildFault::NoMemory) => no_memory(),
        DecodeFault::NotAdded(BuildFault::TooLong) => refusal(TOO_LONG, 0, 0, 0),
    }
}

// A handle may be handed to another thread.
fn crosses(handle: JsBuilder) -> JsBuilder {
    sent(handle)
}

fn sent<T: Send>(x: T) -> T {
    x
}
