//! Answers to what was done, or not.

ghost use Rattle.std.specs.Prelude.{◌≡◌, ◌++◌, OnOk};
ghost use Rattle.rv_gdb_packets.specs.Asked.{error_reply};

use std::alloc::AllocError;

/// Adds the answer to what was done.
pub fn put_ok(reply: &mut Vec<u8>) -> Result<(), AllocError> {
    reply.extend_from_slice(b"OK")
}

/// Adds the answer to what cannot be done.
pub fn put_error(reply: &mut Vec<u8>) -> Result<(), AllocError>
    ensures { OnOk result (reply.new.items ≡ reply.old.items ++ error_reply) }
{
    reply.extend_from_slice(b"E01")
}

/// Adds the answer to what was done, or not.
pub fn put_done(reply: &mut Vec<u8>, done: bool) -> Result<(), AllocError> {
    if done {
        put_ok(reply)
    } else {
        put_error(reply)
    }
}
