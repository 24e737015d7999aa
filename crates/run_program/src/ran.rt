// How a program is to be run, and what comes of it.
use crate::job::Outcome;
use heap_rule::HeapSize;
use heap_table::{Agent, Heap};
use js_store::Limit;
use std::marker::Model;

/// How a program is to be run: in how many groups of scripts, on a heap of which sizes, with which
/// limit of the length of a string, and whether the different strings that were interned are
/// counted.
#[derive(Clone, Copy, Debug)]
pub struct Setup {
    pub jobs: u32,
    pub size: HeapSize,
    pub limit: Limit,
    pub count: bool,
}

/// The heap on which a program was run, and the agent into which all others were joined. The agent
/// is one of this heap (`Belongs`), so it may take further steps there.
#[derive(Drop)]
pub struct Kept {
    pub heap: Heap,
    pub agent: Agent,
}

impl Model for Kept {
    ghost use Rattle.heap_table.specs.Agents.{Belongs};
    ghost use Rattle.run_program.specs.Kept.{HeapKept, kept_code};

    ghost Value = { HeapKept };

    ghost coded = { kept_code };

    ghost view = { λ k. record { heap = k.heap; agent = k.agent } };

    ghost invariant = { λ k. Belongs k.agent k.heap };
}

/// What came of a program: of its prelude, if there is one, and of its scripts in their order, of
/// which none was run where the prelude didn't end Done; how many different strings were interned,
/// where that was asked for; and what is kept. The `index` of the prelude's outcome says nothing.
#[derive(Drop)]
pub struct Ran {
    pub prelude: Option<Outcome>,
    pub scripts: Vec<Outcome>,
    pub interned: Option<u32>,
    pub kept: Kept,
}
