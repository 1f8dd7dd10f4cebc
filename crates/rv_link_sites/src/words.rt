//! The words of a call.

ghost use Rattle.std.specs.Prelude.{◌≡◌, ◌+◌, ◌<◌, ◌≤◌, length};
ghost use Rattle.rv_link_laws.specs.CallSites as laws;
ghost use Rattle.rv_link_sites.specs.Spelled as spelled;

use rv_encode::decode;
use rv_isa::Inst;

/// Whether an instruction is an `auipc`.
fn is_auipc(inst: &Inst) -> bool
    ensures { result ≡ spelled.is_auipc inst.now }
{
    matches!(inst, Inst::Auipc(_))
}

/// Whether an instruction is a `jalr`.
fn is_jalr(inst: &Inst) -> bool
    ensures { result ≡ spelled.is_jalr inst.now }
{
    matches!(inst, Inst::Jalr(_))
}

/// Whether a word spells an `auipc`.
fn spells_auipc(word: u32) -> bool
    ensures { result ≡ laws.is_auipc word }
{
    match decode(word) {
        Some(inst) => is_auipc(&inst),
        None => false,
    }
}

/// Whether a word spells a `jalr`.
fn spells_jalr(word: u32) -> bool
    ensures { result ≡ laws.is_jalr word }
{
    match decode(word) {
        Some(inst) => is_jalr(&inst),
        None => false,
    }
}

/// The register that a word links or writes.
fn rd(word: u32) -> u32
    ensures { result ≡ laws.rd word }
{
    word / (1 << 7) % 32
}

/// The register that a word reads first.
fn rs1(word: u32) -> u32
    ensures { result ≡ laws.rs1 word }
{
    word / (1 << 15) % 32
}

/// The four bytes at a place, as a word.
fn word_at(bytes: &[u8], place: usize) -> u32
    requires { place + 4 ≤ length bytes.now }
    ensures { result ≡ laws.word_at bytes.now place }
{
    u32::from_le_bytes([
        bytes[place],
        bytes[place + 1],
        bytes[place + 2],
        bytes[place + 3],
    ])
}

/// The register that the call at a place links.
pub fn link_register(bytes: &[u8], place: usize) -> u32
    requires { place + 8 ≤ length bytes.now }
    ensures value { result ≡ laws.link_register bytes.now place }
    ensures low { result < 32 }
{
    word_at(bytes, place + 4) / (1 << 7) % (1 << 5)
}

/// Whether the words at a place are `auipc r` and `jalr rd, r`.
pub(crate) fn are_call_words(bytes: &[u8], place: usize) -> bool
    requires { place + 8 ≤ length bytes.now }
    ensures { result ≡ laws.are_call_words bytes.now place }
{
    let first = word_at(bytes, place);
    let second = word_at(bytes, place + 4);
    place % 2 == 0 && spells_auipc(first) && spells_jalr(second) && rs1(second) == rd(first)
}
