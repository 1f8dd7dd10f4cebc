//! Instructions with their immediates set anew: each function keeps the instruction's other bits.
//!
//! The definition has a table of pieces for each format: bits of the immediate, how many, and where they are in the
//! word. The code writes each format by shifts and masks, from the low field up, and is proved equal with no answer.

ghost use Rattle.std.specs.Prelude.{◌≡◌, ◌<◌, ◌^◌};
ghost use Rattle.rv_reloc_laws.specs.Fields.{
  with_immediate,
  i_type,
  s_type,
  b_type,
  u_type,
  j_type,
  cb_type,
  cj_type,
  low_six,
};
ghost use Rattle.rv_reloc_laws.specs.Fields as is;

use crate::number::{lower, upper};

/// The I-type with this immediate: bits 11:0 at 31:20.
pub(crate) fn with_i(word: u64, immediate: u64) -> u64
    requires word { word < 2 ^ 32 }
    requires immediate { immediate < 2 ^ 12 }
    ensures value { result ≡ with_immediate i_type immediate word }
    ensures below { result < 2 ^ 32 }
{
    word & 0xf_ffff | immediate << 20
}

/// The S-type with this immediate: bits 4:0 at 11:7 and 11:5 at 31:25.
pub(crate) fn with_s(word: u64, immediate: u64) -> u64
    requires word { word < 2 ^ 32 }
    requires immediate { immediate < 2 ^ 12 }
    ensures { result ≡ with_immediate s_type immediate word }
{
    word & 0x7f | (immediate & 0x1f) << 7 | (word >> 12 & 0x1fff) << 12 | immediate >> 5 << 25
}

/// The B-type with this offset: bit 11 at 7, bits 4:1 at 11:8, 10:5 at 30:25 and 12 at 31.
pub(crate) fn with_b(word: u64, offset: u64) -> u64
    requires word { word < 2 ^ 32 }
    requires offset { offset < 2 ^ 13 }
    ensures { result ≡ with_immediate b_type offset word }
{
    let registers = word >> 12 & 0x1fff;
    word & 0x7f
        | (offset >> 11 & 1) << 7
        | (offset >> 1 & 0xf) << 8
        | registers << 12
        | (offset >> 5 & 0x3f) << 25
        | offset >> 12 << 31
}

/// The U-type with these upper 20 bits, at 31:12.
pub(crate) fn with_u(word: u64, upper: u64) -> u64
    requires word { word < 2 ^ 32 }
    requires upper { upper < 2 ^ 20 }
    ensures value { result ≡ with_immediate u_type upper word }
    ensures below { result < 2 ^ 32 }
{
    word & 0xfff | upper << 12
}

/// The J-type with this offset: bits 19:12 at 19:12, 11 at 20, 10:1 at 30:21 and 20 at 31.
pub(crate) fn with_j(word: u64, offset: u64) -> u64
    requires word { word < 2 ^ 32 }
    requires offset { offset < 2 ^ 21 }
    ensures { result ≡ with_immediate j_type offset word }
{
    word & 0xfff
        | (offset >> 12 & 0xff) << 12
        | (offset >> 11 & 1) << 20
        | (offset >> 1 & 0x3ff) << 21
        | offset >> 20 << 31
}

/// `c.beqz` or `c.bnez` with this offset: bit 5 at 2, 2:1 at 4:3, 7:6 at 6:5, 4:3 at 11:10 and 8 at 12.
pub(crate) fn with_cb(parcel: u64, offset: u64) -> u64
    requires parcel { parcel < 2 ^ 16 }
    requires offset { offset < 2 ^ 9 }
    ensures { result ≡ with_immediate cb_type offset parcel }
{
    let low = parcel & 3 | (offset >> 5 & 1) << 2 | (offset >> 1 & 3) << 3 | (offset >> 6 & 3) << 5;
    let high = parcel >> 7 & 7 | (offset >> 3 & 3) << 3 | offset >> 8 << 5 | parcel >> 13 << 6;
    low | high << 7
}

/// `c.j` with this offset: bit 5 at 2, 3:1 at 5:3, 7 at 6, 6 at 7, 10 at 8, 9:8 at 10:9, 4 at 11 and 11 at 12.
pub(crate) fn with_cj(parcel: u64, offset: u64) -> u64
    requires parcel { parcel < 2 ^ 16 }
    requires offset { offset < 2 ^ 12 }
    ensures { result ≡ with_immediate cj_type offset parcel }
{
    let low = parcel & 3 | (offset >> 5 & 1) << 2 | (offset >> 1 & 7) << 3 | (offset >> 7 & 1) << 6;
    let middle = offset >> 6 & 1 | (offset >> 10 & 1) << 1 | (offset >> 8 & 3) << 2;
    let high = offset >> 4 & 1 | (offset >> 11 & 1) << 1 | parcel >> 13 << 2;
    low | middle << 7 | high << 11
}

/// The byte with these low six bits.
pub(crate) fn with_low_six(byte: u64, six: u64) -> u64
    requires byte { byte < 2 ^ 8 }
    requires six { six < 2 ^ 6 }
    ensures { result ≡ with_immediate low_six six byte }
{
    six | byte >> 6 << 6
}

/// Two words of four bytes, one after the other.
fn pair(first: u64, second: u64) -> u64
    requires first { first < 2 ^ 32 }
    requires second { second < 2 ^ 32 }
    ensures { result ≡ is.pair first second }
{
    first | second << 32
}

/// `auipc` and the `jalr` after it with the halves of a distance.
pub(crate) fn with_both(words: u64, distance: i64) -> u64
    ensures { result ≡ is.with_halves distance words }
{
    let first = with_u(words % (1 << 32), upper(distance));
    let second = with_i(words >> 32, lower(distance));
    pair(first, second)
}
