//! Which options of an assembler agree with what `rv as` does.
//!
//! GCC gives its assembler the options that it compiled with: `-march=rv64imac -mabi=lp64 -misa-spec=20191213`, and `-fpic`
//! where it compiles so. Those that ask for what `rv as` does anyway have no effect. Any other would be a lie in the
//! object, so it is a wrong word.

ghost use Rattle.std.specs.Prelude.{◌≡◌, bytes_eq};
ghost use Rattle.std.specs.List.{list_any};
ghost use Rattle.rv_command_line.specs.AssemblerOptions.{machine_options, code_options};

/// Whether `-m` and this ask for code of RV64IMAC with the ABI lp64, little-endian.
///
/// An instruction set is spelled in one way, since a smaller one would forbid parcels or atomics that a source has, and
/// a greater one allow instructions that the language does not have. All editions of the ISA agree on these extensions.
pub(crate) fn is_machine_option(option: &str) -> bool
    ensures { result ≡ list_any (bytes_eq option.now) machine_options }
{
    matches!(
        option,
        "arch=rv64imac"
            | "abi=lp64"
            | "isa-spec=2.2"
            | "isa-spec=20190608"
            | "isa-spec=20191213"
            | "little-endian"
            | "relax"
            | "no-relax"
            | "no-arch-attr"
    )
}

/// Whether `-f` and this ask for code at fixed addresses.
pub(crate) fn is_code_option(option: &str) -> bool
    ensures { result ≡ list_any (bytes_eq option.now) code_options }
{
    matches!(option, "no-pic" | "no-pie")
}
