// The names at the top, with the strings that their values hold.
ghost use Rattle.std.specs.Prelude.{◌≡◌, ◌≤◌, length};

use crate::bytes::put;
use eval_scopes::Binding;
use eval_values::Value;
use heap_read::JsStr;
use itoa::Buffer;
use js_item::Object;

fn put_id(room: &mut [u8], at: usize, s: JsStr) -> usize
    requires { at ≤ length room.old }
    ensures within { result ≤ length room.new }
    ensures room { length room.new ≡ length room.old }
{
    let space = put(room, at, b" ");
    let mut digits = Buffer::new();
    put(room, space, digits.format(s.id).as_bytes())
}

fn put_list(room: &mut [u8], at: usize, list: &[JsStr]) -> usize
    requires { at ≤ length room.old }
    ensures within { result ≤ length room.new }
    ensures room { length room.new ≡ length room.old }
{
    let mut to = at;
    for s in list {
        to = put_id(room, to, *s);
    }
    to
}

// The strings of a value that is no object.
fn put_plain(room: &mut [u8], at: usize, value: &Value<JsStr>) -> usize
    requires { at ≤ length room.old }
    ensures within { result ≤ length room.new }
    ensures room { length room.new ≡ length room.old }
{
    match value {
        Value::Text(s) => put_id(room, at, *s),
        Value::Symbol(s) => put_id(room, at, *s),
        Value::List(list) => put_list(room, at, list),
        _ => at,
    }
}

// The keys of an object, each with the strings of its value.
fn put_members(room: &mut [u8], at: usize, object: &Object<JsStr>) -> usize
    requires { at ≤ length room.old }
    ensures within { result ≤ length room.new }
    ensures room { length room.new ≡ length room.old }
{
    let mut to = at;
    for member in object.members() {
        to = put_id(room, to, member.key);
        to = put_plain(room, to, &member.value);
    }
    to
}

fn put_value(room: &mut [u8], at: usize, value: &Value<JsStr>) -> usize
    requires { at ≤ length room.old }
    ensures within { result ≤ length room.new }
    ensures room { length room.new ≡ length room.old }
{
    match value {
        Value::Object(object) => put_members(room, at, object),
        _ => put_plain(room, at, value),
    }
}

/// For each name a line: the name, and behind a space each the numbers of the strings that its value holds,
/// of an object its keys and the strings of its values; then a 0, as far as there is room.
pub(crate) fn write_names(bindings: &[Binding<Value<JsStr>>], room: &mut [u8]) {
    let mut to = 0;
    for binding in bindings {
        to = put(room, to, binding.name.as_bytes());
        to = put_value(room, to, &binding.value);
        to = put(room, to, b"\n");
    }
    put(room, to, b"\0");
}
