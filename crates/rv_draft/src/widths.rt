//! The bytes of the parts of a statement's code.

ghost use Rattle.std.specs.Prelude.{◌≡◌, ◌≤◌, length};
ghost use Rattle.rv_instruction.specs.Code.{encoded_bytes};
ghost use Rattle.rv_draft.specs.Contents as laws;

use rv_instruction::{Coded, Encoded};

/// How many bytes a part has in memory.
pub(crate) fn width(encoded: Encoded) -> u8
    ensures size { result ≡ length (encoded_bytes encoded) }
    ensures low { result ≤ 8 }
{
    match encoded {
        Encoded::Parcel(_) => 2,
        Encoded::Word(_) => 4,
        Encoded::Pair(..) => 8,
    }
}

/// How many bytes the parts of a statement have.
pub(crate) fn bytes_of(code: &[Coded]) -> u8
    requires { length code.now ≤ 8 }
    ensures { result ≡ length (laws.bytes_coded code.now) }
{
    let mut bytes = 0;
    for coded in code {
        bytes += width(coded.encoded);
    }
    bytes
}
