// Bytes are put into the room that a page gives.
ghost use Rattle.std.specs.Prelude.{◌≡◌, ◌≤◌, length};
ghost use Rattle.jsstr_web.specs.Told.{BeginsWith};

/// Copies as many bytes as there is room for, to the front of the room.
pub(crate) fn copy_into(bytes: &[u8], room: &mut [u8])
    ensures { BeginsWith bytes.now room.old room.new }
{
    let count = bytes.len().min(room.len());
    let (front, _) = room.split_at_mut(count);
    front.copy_from_slice(&bytes[..count]);
}

/// The same behind the first bytes of the room. It gives the place behind what was copied.
pub(crate) fn put(room: &mut [u8], at: usize, bytes: &[u8]) -> usize
    requires { at ≤ length room.old }
    ensures within { result ≤ length room.new }
    ensures room { length room.new ≡ length room.old }
{
    let (_, rest) = room.split_at_mut(at);
    copy_into(bytes, rest);
    at + bytes.len().min(rest.len())
}
