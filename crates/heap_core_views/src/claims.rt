// Loads and claims of counters: when they may be made, and what they make of a view.
ghost use Rattle.std.specs.Prelude.{◌≡◌, ◌+◌, ◌<◌, ◌^◌, ◌↔◌, IsTrue, OnOk, OnErr};
ghost use Rattle.heap_rule.specs.Layout.{counter_value};
ghost use Rattle.heap_rule.specs.Claims.{loaded_counter, MayClaim, won_claim};

use heap_rule::{Counter, View};
use js_units::NoMemory;

/// A load of a counter.
pub fn load_counter(view: &mut View, counter: Counter, found: u32)
    ensures { view.new ≡ loaded_counter view.old counter found }
{
    view.low.set(counter, found);
}

/// Whether the agent may claim on a counter.
pub fn may_claim(view: &View, counter: Counter, at: u32, want: u32) -> bool
    ensures { IsTrue result ↔ MayClaim view.now counter at want }
{
    if view.low.get(counter) < at {
        return false;
    }
    if u64::from(view.sizes.end(counter)) < u64::from(at) + u64::from(want) {
        return false;
    }
    if want == 0 {
        return false;
    }
    match counter {
        Counter::Ids => want == 1,
        Counter::Words => true,
    }
}

/// A claim that is won: the pieces are own, with the word 0.
pub fn claim(view: &mut View, counter: Counter, at: u32, want: u32) -> Result<(), NoMemory>
    requires may { MayClaim view.old counter at want }
    requires used { counter_value view.old.used counter + want < 2 ^ 32 }
    requires end { at + want < 2 ^ 32 }
    ensures ok { OnOk result (view.new ≡ won_claim view.old counter at want) }
    ensures err { OnErr result (view.new ≡ view.old) }
{
    match counter {
        Counter::Ids => view.own_ids.insert(at, 0)?,
        Counter::Words => {
            let mut own = view.own_words.copied()?;
            own.insert_run(at, want, 0)?;
            view.own_words = own;
        }
    }
    let used = view.used.get(counter) + want;
    view.used.set(counter, used);
    view.low.set(counter, at + want);
    Ok(())
}
