//! The names of the kinds of relocations, without `R_RISCV_` (psABI, "Relocations").

/// The names by their numbers, from 0; a kind without a name is `-`.
const NAMES: &str =
    "NONE 32 64 RELATIVE COPY JUMP_SLOT TLS_DTPMOD32 TLS_DTPMOD64 TLS_DTPREL32 TLS_DTPREL64 TLS_TPREL32 \
TLS_TPREL64 - - - - BRANCH JAL CALL CALL_PLT GOT_HI20 TLS_GOT_HI20 TLS_GD_HI20 PCREL_HI20 PCREL_LO12_I PCREL_LO12_S HI20 \
LO12_I LO12_S TPREL_HI20 TPREL_LO12_I TPREL_LO12_S TPREL_ADD ADD8 ADD16 ADD32 ADD64 SUB8 SUB16 SUB32 SUB64 \
GNU_VTINHERIT GNU_VTENTRY ALIGN RVC_BRANCH RVC_JUMP RVC_LUI GPREL_I GPREL_S TPREL_I TPREL_S RELAX SUB6 SET6 SET8 SET16 \
SET32 32_PCREL IRELATIVE PLT32 SET_ULEB128 SUB_ULEB128";

/// The name of a kind.
pub fn kind_name(kind: u32) -> Option<&'static [u8]> {
    match NAMES.split(' ').nth(kind as usize) {
        Some("-") | None => None,
        Some(name) => Some(name.as_bytes()),
    }
}
