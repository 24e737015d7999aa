// Ids and content words that an agent claims in advance.
ghost use Rattle.std.specs.Prelude.{◌≡◌, length};
ghost use Rattle.heap_read.specs.Reads.{HoldsForms};
ghost use Rattle.heap_agents.specs.Held.{IsHeld, view_by};
ghost use Rattle.agent_makes.specs.Spending.{ClaimsInAdvance};
ghost use Rattle.heap_reserve.specs.Reserves.{kept_ids, words_kept};

use heap_agents::Held;
use heap_reserve::ReserveFault;

/// Claims so many content words in one piece, and then so many ids, from which strings that are made,
/// joined, cut and interned are taken later; 0 claims none. Where the heap has not
/// that many content words, nothing is claimed. Where ids or memory end before, the words and the ids
/// that were claimed are kept. If the new words do not begin where those in reserve end, the rest of
/// these is given up.
pub fn reserve(agent: &mut Held, ids: u32, words: u32) -> Result<(), ReserveFault>
    requires held { IsHeld agent.old }
    ensures claims { ClaimsInAdvance agent.old agent.new ids words result }
    ensures forms { HoldsForms (view_by agent.old) (view_by agent.new) }
{
    match &mut agent.text {
        Some(text) => agent.reserve.claim(text, ids, words),
        None => unreachable!(),
    }
}

/// How many ids, and how many content words, an agent has in reserve.
pub fn reserved(agent: &Held) -> (u32, u32)
    requires { IsHeld agent.now }
    ensures ids { result.0 ≡ length (kept_ids agent.now.reserve) }
    ensures words { result.1 ≡ words_kept agent.now.reserve }
{
    let ids = agent.reserve.ids_left();
    (ids as u32, agent.reserve.words_left())
}
