// Short strings as units.
ghost use Rattle.std.specs.Prelude.{◌≡◌, ◌++◌, ◌≤◌, length, take, OnOk, OnErr};

use js_units::{NoMemory, Units};

/// Adds the bytes of a short string as units, all or none; of ASCII these are its code
/// points.
pub fn append_text(out: &mut Units, text: &str) -> Result<(), NoMemory>
    requires { length text.now ≤ 40 }
    ensures ok { OnOk result (out.new ≡ out.old ++ text.now) }
    ensures err { OnErr result (out.new ≡ out.old) }
{
    let mut room = [0; 40];
    let count = write_text(&mut room, text);
    out.extend_from_slice(&room[..count])
}

/// Writes the bytes of a string as units at the front of a list, and answers how many these are.
/// It allocates nothing.
#[tactic(auto, using(crate::proofs::Widened::next_unit))]
pub fn write_text(room: &mut [u16], text: &str) -> usize
    requires { length text.now ≤ length room.old }
    ensures count { result ≡ length text.now }
    ensures units { take result room.new ≡ text.now }
    ensures long { length room.new ≡ length room.old }
{
    let bytes = text.as_bytes();
    for i in 0..bytes.len() {
        room[i] = u16::from(bytes[i]);
    }
    bytes.len()
}
