// How heaps and agents are made and given back, and how many agents one may become.
ghost use Rattle.std.specs.Prelude.{ℕ, ◌≡◌, ◌≢◌, ◌⊎◌, ◌+◌, ◌≤◌, ◌<◌, None, ◌↔◌};
ghost use Rattle.heap_rule.specs.Agents.{MayJoin, first_view, joined_view, left_after_split, right_after_split};
ghost use Rattle.heap_rule.specs.Layout.{MAX};
ghost use Rattle.heap_table.specs.MayMake.{MayMake};
ghost use Rattle.heap_agents.specs.Ready.{HasInterned, IsBeside, IsReady, HandleKnows, MarksStay, HandleStaysMarked, giver_in, handle_limit, handle_number, share_in, handle_view};
ghost use Rattle.heap_agents.specs.Reserved.{HandleReservesNothing, HandleTakesOver};
ghost use Rattle.c_handles.specs.Handles.{IsHandle};
ghost use Rattle.c_steps.specs.Reports.{size_for};
ghost use Rattle.c_steps.specs.Checked.{IsChild};
ghost use Rattle.c_steps.specs.Reports as reports;

use c_handles::JsAgent;
use c_steps::{
    BAD_ARGUMENT, BAD_SIZE, DONE, JsNumber, JsSize, NO_MEMORY, join_child, without_number,
};
use heap_agents::{Held, MakeFault};
use heap_rule::HeapSize;
use std::alloc::Global;

/// A heap of these sizes and its first agent, which has the whole share. `out` gets the agent where the
/// answer is `JSSTR_DONE`.
#[unsafe(no_mangle)]
pub extern "C" fn jsstr_make(
    alloc: Global,
    size: JsSize,
    agents: u32,
    limit: u32,
    out: &mut JsAgent,
) -> u32
    requires { IsHandle out.old }
    ensures handle { IsHandle out.new }
    ensures bad { result ≡ reports.BAD_ARGUMENT ↔ IsReady out.old.at.value }
    ensures ready { result ≡ reports.DONE → IsReady out.new.at.value }
    ensures view { result ≡ reports.DONE
        → handle_view out.new.at.value ≡ first_view (size_for size) agents }
    ensures lawful { result ≡ reports.DONE → MayMake (size_for size) agents × (limit ≤ MAX) }
    ensures refused { result ≡ reports.BAD_SIZE → ¬ (MayMake (size_for size) agents × (limit ≤ MAX)) }
    ensures limit { result ≡ reports.DONE → handle_limit out.new.at.value ≡ limit }
    ensures nothing { result ≡ reports.DONE → HandleReservesNothing out.new.at.value }
    ensures unmade { result ≢ reports.DONE → out.new.at.value ≡ out.old.at.value }
    ensures statuses { result ≢ reports.BAD_ARGUMENT
        → (result ≡ reports.DONE) ⊎ ((result ≡ reports.BAD_SIZE) ⊎ (result ≡ reports.NO_MEMORY)) }
{
    if !out.is_empty() {
        return BAD_ARGUMENT;
    }
    let JsSize { ids, words, slots } = size;
    match Held::make(alloc, HeapSize { ids, words, slots }, agents, limit) {
        Ok(held) => {
            out.put(held);
            DONE
        }
        Err(MakeFault::Size) => BAD_SIZE,
        Err(MakeFault::Memory) => NO_MEMORY,
    }
}

/// Gives an agent back; with the last one of a heap goes the heap.
#[unsafe(no_mangle)]
pub extern "C" fn jsstr_free(alloc: Global, agent: &mut JsAgent) -> u32
    requires { IsHandle agent.old }
    ensures handle { IsHandle agent.new }
    ensures bad { result ≡ reports.BAD_ARGUMENT ↔ ¬ (IsReady agent.old.at.value) }
    ensures status { result ≢ reports.BAD_ARGUMENT → result ≡ reports.DONE }
    ensures gone { agent.new.at.value ≡ None }
{
    if agent.is_empty() {
        return BAD_ARGUMENT;
    }
    drop(agent.take(alloc));
    DONE
}

/// How many agents this one may become, itself counted.
#[unsafe(no_mangle)]
pub extern "C" fn jsstr_share(agent: &mut JsAgent) -> JsNumber
    requires { IsHandle agent.old }
    ensures handle { IsHandle agent.new }
    ensures unchanged { agent.new.at.value ≡ agent.old.at.value }
    ensures bad { result.status ≡ reports.BAD_ARGUMENT ↔ ¬ (IsReady agent.old.at.value) }
    ensures status { result.status ≢ reports.BAD_ARGUMENT → result.status ≡ reports.DONE }
    ensures share { result.value ≡ share_in agent.old.at.value }
{
    if agent.is_empty() {
        return without_number(BAD_ARGUMENT);
    }
    let value = agent.held().share();
    JsNumber {
        status: DONE,
        value,
    }
}

/// A new agent with a part of the share, which knows all that this one knows. `out` gets it where the
/// answer is `JSSTR_DONE`; else nothing has changed.
#[unsafe(no_mangle)]
pub extern "C" fn jsstr_split(
    alloc: Global,
    agent: &mut JsAgent,
    give: u32,
    out: &mut JsAgent,
) -> u32
    requires agent { IsHandle agent.old }
    requires out { IsHandle out.old }
    ensures handle { IsHandle agent.new × IsHandle out.new }
    ensures bad { result ≡ reports.BAD_ARGUMENT
        ↔ ¬ ((1 ≤ give) × (give < share_in agent.old.at.value) × (out.old.at.value ≡ None)) }
    ensures same { result ≡ reports.DONE → IsBeside agent.old.at.value agent.new.at.value }
    ensures out_ready { result ≡ reports.DONE
        → IsReady out.new.at.value × IsBeside agent.old.at.value out.new.at.value }
    ensures left { result ≡ reports.DONE
        → handle_view agent.new.at.value ≡ left_after_split (handle_view agent.old.at.value) give }
    ensures right { result ≡ reports.DONE
        → handle_view out.new.at.value ≡ right_after_split (handle_view agent.old.at.value) give }
    ensures shares { result ≡ reports.DONE
        → (share_in agent.new.at.value + give ≡ share_in agent.old.at.value)
        × (share_in out.new.at.value ≡ give) }
    ensures marks { result ≡ reports.DONE → MarksStay agent.old.at.value agent.new.at.value }
    ensures known { result ≡ reports.DONE
        → (i : ℕ) → HandleKnows agent.old.at.value i → HandleKnows out.new.at.value i }
    ensures interned { result ≡ reports.DONE
        → (i : ℕ) → HasInterned agent.old.at.value i → HasInterned out.new.at.value i }
    ensures giver { result ≡ reports.DONE → giver_in out.new.at.value ≡ handle_number agent.old.at.value }
    ensures nothing { result ≡ reports.DONE → HandleReservesNothing out.new.at.value }
    ensures statuses { result ≢ reports.BAD_ARGUMENT
        → (result ≡ reports.DONE) ⊎ (result ≡ reports.NO_MEMORY) }
    ensures refused { result ≢ reports.DONE
        → (agent.new.at.value ≡ agent.old.at.value) × (out.new.at.value ≡ out.old.at.value) }
{
    if agent.is_empty() || !out.is_empty() {
        return BAD_ARGUMENT;
    }
    let share = agent.held().share();
    if give < 1 || give >= share {
        return BAD_ARGUMENT;
    }
    match agent.held().split(alloc, give) {
        Ok(other) => {
            out.put(other);
            DONE
        }
        Err(_) => NO_MEMORY,
    }
}

/// Takes over what another agent of the heap has and knows, and gives that one back. The other was split off from this one, as shown by their numbers;
/// that agents with such numbers have one heap is tested by a step, of which no clause says more. That the
/// numbers were given by splits is the caller's.
#[unsafe(no_mangle)]
pub extern "C" fn jsstr_join(alloc: Global, agent: &mut JsAgent, other: &mut JsAgent) -> u32
    requires agent { IsHandle agent.old }
    requires other { IsHandle other.old }
    requires may { IsChild agent.old.at.value other.old.at.value
        → IsBeside agent.old.at.value other.old.at.value
        × MayJoin (handle_view agent.old.at.value) (handle_view other.old.at.value) }
    ensures handle { IsHandle agent.new × IsHandle other.new }
    ensures bad { ¬ (IsChild agent.old.at.value other.old.at.value) → result ≡ reports.BAD_ARGUMENT }
    ensures status { result ≢ reports.BAD_ARGUMENT → result ≡ reports.DONE }
    ensures unchanged { result ≡ reports.BAD_ARGUMENT
        → (agent.new.at.value ≡ agent.old.at.value) × (other.new.at.value ≡ other.old.at.value) }
    ensures same { result ≡ reports.DONE → IsBeside agent.old.at.value agent.new.at.value }
    ensures view { result ≡ reports.DONE → handle_view agent.new.at.value
        ≡ joined_view (handle_view agent.old.at.value) (handle_view other.old.at.value) }
    ensures share { result ≡ reports.DONE → share_in agent.new.at.value
        ≡ share_in agent.old.at.value + share_in other.old.at.value }
    ensures marks { result ≡ reports.DONE → HandleStaysMarked agent.old.at.value agent.new.at.value }
    ensures reserve { result ≡ reports.DONE
        → HandleTakesOver agent.old.at.value other.old.at.value agent.new.at.value }
    ensures known { result ≡ reports.DONE
        → (i : ℕ) → HandleKnows other.old.at.value i → HandleKnows agent.new.at.value i }
    ensures interned { result ≡ reports.DONE
        → (i : ℕ) → HasInterned other.old.at.value i → HasInterned agent.new.at.value i }
    ensures gone { result ≡ reports.DONE → other.new.at.value ≡ None }
{
    if agent.is_empty() || other.is_empty() {
        return BAD_ARGUMENT;
    }
    let number = agent.number();
    if other.giver() != number {
        return BAD_ARGUMENT;
    }
    join_child(alloc, agent, other)
}
