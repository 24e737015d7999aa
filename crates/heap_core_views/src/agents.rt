// The views of agents that begin, split and join.
ghost use Rattle.std.specs.Prelude.{◌≡◌, ◌+◌, ◌<◌, ◌≤◌, ◌^◌, ◌↔◌, IsTrue, IfOk};
ghost use Rattle.heap_rule.specs.Agents.{fresh, first_view, spent, left_after_split, right_after_split, MayJoin, joined_view};

use heap_rule::{Counters, HeapSize, History, IdMap, Twin, View};
use js_units::NoMemory;
use std::alloc::Global;

/// A view that knows nothing.
fn fresh(alloc: Global, size: HeapSize, agents: u32, live: bool, share: u32) -> View
    ensures { result ≡ fresh size agents live share }
{
    View {
        sizes: size,
        agents,
        live,
        share,
        used: Counters { ids: 0, words: 0 },
        low: Counters { ids: 0, words: 0 },
        own_ids: IdMap::new(alloc),
        own_words: IdMap::new(alloc),
        units: IdMap::new(alloc),
        met: IdMap::new(alloc),
        forms: IdMap::new(alloc),
        lengths: IdMap::new(alloc),
        frozen: IdMap::new(alloc),
        slots: IdMap::new(alloc),
        seen: History::new(alloc),
        mine: History::new(alloc),
        form_loads: 0,
        slot_loads: IdMap::new(alloc),
        giving: 0,
    }
}

/// The view of the first agent, which has the whole share.
pub fn first(alloc: Global, size: HeapSize, agents: u32) -> View
    ensures { result ≡ first_view size agents }
{
    fresh(alloc, size, agents, true, agents)
}

/// The view of an agent that was joined.
pub fn spent(alloc: Global) -> View
    ensures { result ≡ spent }
{
    let none = HeapSize {
        ids: 0,
        words: 0,
        slots: 0,
    };
    fresh(alloc, none, 0, false, 0)
}

/// Whether the agent may give that much of its share.
pub fn may_split(view: &View, give: u32) -> bool
    ensures { IsTrue result ↔ ((1 ≤ give) × (give < view.now.share)) }
{
    1 <= give && give < view.share
}

/// The view of the new agent, which knows the same and has used nothing.
pub fn split_off(view: &View, alloc: Global, give: u32) -> Result<View, NoMemory>
    ensures { IfOk result (λ w. w ≡ right_after_split view.now give) }
{
    Ok(View {
        sizes: view.sizes,
        agents: view.agents,
        live: view.live,
        share: give,
        used: Counters { ids: 0, words: 0 },
        low: view.low,
        own_ids: IdMap::new(alloc),
        own_words: IdMap::new(alloc),
        units: view.units.twin(alloc)?,
        met: view.met.twin(alloc)?,
        forms: view.forms.twin(alloc)?,
        lengths: view.lengths.twin(alloc)?,
        frozen: view.frozen.twin(alloc)?,
        slots: view.slots.twin(alloc)?,
        seen: view.seen.followed_by(alloc, &view.mine)?,
        mine: History::new(alloc),
        form_loads: 0,
        slot_loads: IdMap::new(alloc),
        giving: 0,
    })
}

/// The rest of the share stays.
pub fn give(view: &mut View, give: u32)
    requires { give ≤ view.old.share }
    ensures { view.new ≡ left_after_split view.old give }
{
    view.share -= give;
    view.giving = 0;
}

/// Whether the other agent may be joined into this one.
pub fn may_join(view: &View, other: &View) -> bool
    ensures { IsTrue result ↔ MayJoin view.now other.now }
{
    if !other.live {
        return false;
    }
    if !other.seen.starts_with(&view.seen) {
        return false;
    }
    view.seen.continues(&view.mine, &other.seen)
}

/// The view of the agent into which the other one was joined: it has what both have.
pub fn joined(view: &View, alloc: Global, other: &View) -> Result<View, NoMemory>
    requires shares { view.now.share + other.now.share < 2 ^ 32 }
    requires ids { view.now.used.ids + other.now.used.ids < 2 ^ 32 }
    requires words { view.now.used.words + other.now.used.words < 2 ^ 32 }
    ensures { IfOk result (λ w. w ≡ joined_view view.now other.now) }
{
    Ok(View {
        sizes: view.sizes,
        agents: view.agents,
        live: view.live,
        share: view.share + other.share,
        used: Counters {
            ids: view.used.ids + other.used.ids,
            words: view.used.words + other.used.words,
        },
        low: Counters {
            ids: view.low.ids.max(other.low.ids),
            words: view.low.words.max(other.low.words),
        },
        own_ids: view.own_ids.under(alloc, &other.own_ids)?,
        own_words: view.own_words.under(alloc, &other.own_words)?,
        units: view.units.under(alloc, &other.units)?,
        met: view.met.under(alloc, &other.met)?,
        forms: view.forms.under_later(alloc, &other.forms)?,
        lengths: view.lengths.under(alloc, &other.lengths)?,
        frozen: view.frozen.under(alloc, &other.frozen)?,
        slots: view.slots.under(alloc, &other.slots)?,
        seen: view.seen.twin(alloc)?,
        mine: view.mine.followed_by(alloc, &other.mine)?,
        form_loads: view.form_loads.saturating_add(other.form_loads),
        slot_loads: view.slot_loads.under_sums(alloc, &other.slot_loads)?,
        giving: 0,
    })
}
