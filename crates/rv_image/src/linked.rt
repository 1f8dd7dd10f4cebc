//! What the linker makes.

ghost use Rattle.std.specs.Prelude.{◌≡◌, ◌+◌, ◌-◌, ◌%◌, ◌^◌, ◌<◌, ◌≤◌, length};
ghost use Rattle.rv_isa_laws.specs.Platform.{memory_limit};
ghost use Rattle.rv_image_laws.specs.Free.{free_until};

use rv_map::Map;

/// A program whose addresses are fixed: the bytes of its regions, and its map.
#[derive(Drop)]
pub struct Linked {
    /// The instructions.
    pub text: Vec<u8>,
    /// The constants.
    pub rodata: Vec<u8>,
    /// The variables, but for those that begin as zeros.
    pub data: Vec<u8>,
    /// The bounds of the regions, the entry, and where every statement stands.
    pub map: Map,
    /// Whether an object had compressed instructions.
    pub rvc: bool,
    pub ghost text_fills: { map.text.start + length text.items ≡ map.text.end },
    pub ghost rodata_fills: { map.rodata.start + length rodata.items ≡ map.rodata.end },
    pub ghost data_fills: { map.data.start + length data.items ≡ map.data.end },
    pub ghost rodata_after_text: { map.text.end ≤ map.rodata.start },
    pub ghost data_after_rodata: { map.rodata.end ≤ map.data.start },
    pub ghost bss_after_data: { map.data.end ≤ map.bss.start },
    pub ghost bss_ends: { map.bss.start ≤ map.bss.end },
    /// From the text on it meets neither the stack nor the last page.
    pub ghost in_free: { map.bss.end ≤ free_until map.text.start },
    /// The memory has 256 MiB at most.
    pub ghost limit: { length text.items + length rodata.items + (map.bss.end - map.data.start)
        ≤ memory_limit },
    /// Instructions begin at even addresses.
    pub ghost even: { map.entry % 2 ≡ 0 },
}

impl Linked {
    /// Where a run begins.
    pub fn entry(&self) -> u64
        ensures value { result ≡ self.now.map.entry }
        ensures fits { result < 2 ^ 64 }
    {
        self.map.entry
    }
}
