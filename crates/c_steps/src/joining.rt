// An agent joined by the one that it was split off from.
ghost use Rattle.std.specs.Prelude.{ℕ, ◌≡◌, ◌≢◌, ◌+◌, None};
ghost use Rattle.heap_rule.specs.Agents.{MayJoin, joined_view};
ghost use Rattle.heap_agents.specs.Ready.{HandleKnows, HandleStaysMarked, HasInterned, IsBeside, IsReady, share_in, handle_view};
ghost use Rattle.heap_agents.specs.Reserved.{HandleTakesOver};
ghost use Rattle.c_handles.specs.Handles.{IsHandle};
ghost use Rattle.c_steps.specs.Reports as reports;

use crate::answer::{BAD_ARGUMENT, DONE};
use c_handles::JsAgent;
use std::alloc::Global;

/// Joins an agent whose number shows that it was split off from this one.
pub fn join_child(alloc: Global, agent: &mut JsAgent, other: &mut JsAgent) -> u32
    requires ready { IsReady agent.old.at.value }
    requires other { IsReady other.old.at.value }
    requires beside { IsBeside agent.old.at.value other.old.at.value }
    requires may { MayJoin (handle_view agent.old.at.value) (handle_view other.old.at.value) }
    ensures handle { IsHandle agent.new × IsHandle other.new }
    ensures status { result ≢ reports.BAD_ARGUMENT → result ≡ reports.DONE }
    ensures unchanged { result ≡ reports.BAD_ARGUMENT
        → (agent.new.at.value ≡ agent.old.at.value) × (other.new.at.value ≡ other.old.at.value) }
    ensures same { result ≡ reports.DONE → IsBeside agent.old.at.value agent.new.at.value }
    ensures view { result ≡ reports.DONE → handle_view agent.new.at.value
        ≡ joined_view (handle_view agent.old.at.value) (handle_view other.old.at.value) }
    ensures share { result ≡ reports.DONE → share_in agent.new.at.value
        ≡ share_in agent.old.at.value + share_in other.old.at.value }
    ensures marks { result ≡ reports.DONE → HandleStaysMarked agent.old.at.value agent.new.at.value }
    ensures reserve { result ≡ reports.DONE
        → HandleTakesOver agent.old.at.value other.old.at.value agent.new.at.value }
    ensures known { result ≡ reports.DONE
        → (i : ℕ) → HandleKnows other.old.at.value i → HandleKnows agent.new.at.value i }
    ensures interned { result ≡ reports.DONE
        → (i : ℕ) → HasInterned other.old.at.value i → HasInterned agent.new.at.value i }
    ensures gone { result ≡ reports.DONE → other.new.at.value ≡ None }
{
    if !agent.held().counts_with(other.held()) {
        return BAD_ARGUMENT;
    }
    let theirs = other.take(alloc);
    agent.held().join(Box::into_inner(theirs));
    DONE
}
