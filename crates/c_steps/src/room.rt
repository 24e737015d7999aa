// What is used of a heap, as C reads it.
ghost use Rattle.std.specs.Prelude.{◌≡◌};
ghost use Rattle.c_steps.specs.Board.{no_room, room_answer};

use crate::answer::DONE;
use heap_agents::Room;

/// A status, and at 0 what is used of a heap, as one agent saw it: what each counter was when it was
/// read, the sizes of the heap, and how many slots of the string table the agent knows to be used.
#[repr(C)]
#[derive(Clone, Copy)]
pub struct JsRoom {
    pub status: u32,
    pub ids: u32,
    pub words: u32,
    pub all_ids: u32,
    pub all_words: u32,
    pub slots: u32,
    pub seen_slots: u32,
}

/// What an answer says of a heap.
pub fn of_room(room: Room) -> JsRoom
    ensures { result ≡ room_answer room }
{
    JsRoom {
        status: DONE,
        ids: room.ids,
        words: room.words,
        all_ids: room.size.ids,
        all_words: room.size.words,
        slots: room.size.slots,
        seen_slots: room.seen_slots,
    }
}

/// A refusal, with nothing reported.
pub fn without_room(status: u32) -> JsRoom
    ensures { result ≡ no_room status }
{
    JsRoom {
        status,
        ids: 0,
        words: 0,
        all_ids: 0,
        all_words: 0,
        slots: 0,
        seen_slots: 0,
    }
}
