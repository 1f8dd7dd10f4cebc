//! Buffers of the caller.

ghost use Rattle.std.specs.Prelude.{◌≡◌};
ghost use Rattle.rv_library.specs.Given.{have_room, put_in};

/// Puts bytes at the front of a buffer, as many as there is room for; whether all of them were put.
pub(crate) fn put(bytes: &[u8], room: &mut [u8]) -> bool
    ensures put { room.new ≡ put_in bytes.now room.old }
    ensures fits { result ≡ have_room bytes.now room.old }
{
    let count = bytes.len().min(room.len());
    room[..count].copy_from_slice(&bytes[..count]);
    bytes.len() <= room.len()
}
