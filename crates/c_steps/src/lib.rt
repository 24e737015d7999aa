//! The steps between an export for C and the agent behind its handle: what a call answers, what becomes of
//! units and bytes that C gives, how a string is settled before it is read, and the handle of a text.
//!
//! A step is here where an export does more than one call on an agent, or where several do the same.
#![tactic(auto)]

mod answer;
mod builder;
mod bytes;
mod encoding;
mod given;
mod joining;
mod reading;
mod room;
mod settling;
mod spelled;

pub use answer::{
    BAD_ARGUMENT, BAD_SIZE, DONE, JsAnswer, JsBatch, JsNumber, JsOrder, JsPlace, JsSize, JsTotals,
    JsTruth, JsUse, JsWords, NO_MEMORY, NO_STRING, NOT_UTF8, bad_argument, no_memory, not_utf8,
    of_batch, of_found, of_join, of_number, of_order, of_place, of_reserve, of_table, of_text,
    of_words, without_batch, without_number, without_order, without_place, without_totals,
    without_truth, without_words,
};
pub use builder::{JsBuilder, of_decoded, status_of};
pub use bytes::{JsBytes, of_bytes, unpaired_by, without_bytes};
pub use encoding::{TextEncoding, decode, encoding_by, is_decodable};
pub use given::{Task, are_lists, from_units, on_string, tested_bytes, tested_units};
pub use joining::join_child;
pub use reading::{length_of, read_into, settle};
pub use room::{JsRoom, of_room, without_room};
pub use settling::{settle_both, settle_both_reaching, settle_known, settle_reaching};
pub use spelled::{equals_spelled, order_spelled};
