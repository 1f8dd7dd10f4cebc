//! Worked programs, as contracts that the check computes.

ghost use Rattle.std.specs.Prelude.{◌≡◌, Bool, true, false, [], ◌∷◌, Some, None, length, map, codes};
ghost use Rattle.rv_isa_laws.specs.Hart.{Limit, LoadOutside};
ghost use Rattle.rv_examples.specs.Exit7.{exit7, exit7_map, exit7_text, exit7_listing, exit255, exit255_map, first_file, second_file, two_files_map, exits};
ghost use Rattle.rv_examples.specs.Exit7Executable.{exit7_file, exit7_image, exit7_linked};
ghost use Rattle.rv_map_laws.specs.Text.{map_text};
ghost use Rattle.rv_image_laws.specs.Executable.{exe_of};
ghost use Rattle.rv_image_laws.specs.ImageOf.{ImageOf};
ghost use Rattle.rv_image_laws.specs.FirstFault.{first_fault};
ghost use Rattle.rv_image_laws.specs.Memory.{mem_of};
ghost use Rattle.rv_isa_laws.specs.Word.{Spells};
ghost use Rattle.rv_parcel.specs.Parcel.{StandsFor};
ghost use Rattle.rv_isa_laws.specs.Reader.{Reader};
ghost use Rattle.rv_isa_laws.specs.Run.{machine_run};
ghost use Rattle.rv_chain_laws.specs.Contents.{IsLinked};
ghost use Rattle.rv_chain_laws.specs.SourceListing.{IsSourceListing};
ghost use Rattle.rv_examples.specs.Data.{hello, hello_map, says_hello, hello_text, figures, figures_map, figures_data, differences, differences_map, differences_data};
ghost use Rattle.rv_examples.specs.Echo.{echo, echo_map, sends};
ghost use Rattle.rv_board_laws.specs.Virt.{virt_platform};
ghost use Rattle.rv_chain_laws.specs.PlatformRun.{source_run_on};
ghost use Rattle.rv_examples.specs.Parcels.{parcel7, parcel7_map};
ghost use Rattle.rv_examples.specs.CodeAlignment.{two_sections, with_gap, without_gap};
ghost use Rattle.rv_examples.specs.Regions.{text_sections, text_bytes, rodata_bytes, example_data};
ghost use Rattle.rv_statement_laws.specs.declared.directive.Binding.TheVariants.{Local, Global};
ghost use Rattle.rv_unit_laws.specs.declared.section_type.SectionType.TheVariants.{Progbits, Nobits, Note};
ghost use Rattle.rv_unit_laws.specs.Sections.{section_with};
ghost use Rattle.rv_unit_laws.specs.Bindings.{bindings_of};
ghost use Rattle.rv_source_laws.specs.Compressed.{is_compressed};
ghost use Rattle.rv_source_laws.specs.Fits.{Fits, Holds, gaps_of};
ghost use Rattle.rv_source_laws.specs.Program.{program};
ghost use Rattle.rv_source_laws.specs.Resolves.{Resolves};
ghost use Rattle.rv_source_laws.specs.SourceRun.{source_run};

/// The program that loads 7 into a0 exits with 7 and writes nothing.
pub fn exit7_runs()
    ensures { source_run (exit7 ∷ []) exit7_map [] 1000000 ≡ exits 7 }
{}

/// Its exit is its third instruction.
pub fn exit7_is_limited()
    ensures enough { source_run (exit7 ∷ []) exit7_map [] 3 ≡ exits 7 }
    ensures short { source_run (exit7 ∷ []) exit7_map [] 2
        ≡ record { console = []; «end» = Limit } }
{}

/// With 8 taken off a0 it exits with 255, which is -1 modulo 256.
pub fn exit255_runs()
    ensures { source_run (exit255 ∷ []) exit255_map [] 1000000 ≡ exits 255 }
{}

/// The program that loads 7 by a parcel where compressed code is off: its map fits it, it exits with 7, and it is flagged
/// as compressed code.
pub fn parcel7_runs()
    ensures fits { Fits (parcel7 ∷ []) parcel7_map 0x10000 }
    ensures resolves { Resolves (parcel7 ∷ []) parcel7_map }
    ensures runs { source_run (parcel7 ∷ []) parcel7_map [] 1000000 ≡ exits 7 }
    ensures flagged { is_compressed (parcel7 ∷ []) ≡ true }
    ensures whole { is_compressed (exit7 ∷ []) ≡ false }
{}

/// The map of the program fits it.
pub fn exit7_fits()
    ensures { Fits (exit7 ∷ []) exit7_map 0x10000 }
{}

/// The map of the program resolves its names.
pub fn exit7_resolves()
    ensures { Resolves (exit7 ∷ []) exit7_map }
{}

/// The text of the program's map.
pub fn exit7_shows()
    ensures { map_text exit7_map ≡ exit7_text }
{}

/// Its listing, by its statements alone: the label has no line.
pub fn exit7_lists()
    ensures { IsSourceListing (program (exit7 ∷ []) exit7_map) exit7_listing }
{}

/// The program is linked with its 12 bytes of code at 10000h; it has no call that could become shorter, and no section that
/// could be left out.
pub fn exit7_links()
    ensures { (relax gc : Bool) → IsLinked (exit7 ∷ []) 0x10000 relax gc exit7_linked }
{}

/// Its executable: 4108 bytes, the code at their end.
pub fn exit7_is_written()
    ensures bytes { exe_of exit7_linked ≡ exit7_file }
    ensures size { length exit7_file ≡ 4108 }
{}

/// The executable's image: its code at 10000h, to be executed and nothing else.
pub fn exit7_loads()
    ensures image { ImageOf exit7_file exit7_image }
    ensures accepted { first_fault exit7_file ≡ None }
{}

/// The machine's run over the image exits with 7 and writes nothing.
pub fn exit7_executes()
    ensures { (reader : Reader Spells StandsFor)
        → machine_run reader (mem_of exit7_image) exit7_image.entry [] 1000000 ≡ exits 7 }
{}

/// The same program in two files: its map fits it and resolves its names, and it exits with 7.
pub fn two_files_run()
    ensures fits { Fits (first_file ∷ second_file ∷ []) two_files_map 0x10000 }
    ensures resolves { Resolves (first_file ∷ second_file ∷ []) two_files_map }
    ensures runs { source_run (first_file ∷ second_file ∷ []) two_files_map [] 1000000 ≡ exits 7 }
{}

/// A program that writes five bytes of its constants and exits with 0.
pub fn hello_runs()
    ensures { source_run (hello ∷ []) hello_map [] 1000000 ≡ says_hello }
{}

/// The map of that program fits it.
pub fn hello_fits()
    ensures { Fits (hello ∷ []) hello_map 0x10000 }
{}

/// The map of that program resolves its names.
pub fn hello_resolves()
    ensures { Resolves (hello ∷ []) hello_map }
{}

/// The bytes of its text and of its constants.
pub fn hello_holds()
    ensures text { text_bytes hello hello_map ≡ hello_text }
    ensures constants { rodata_bytes hello hello_map ≡ codes "hello" }
{}

/// The map of a source with constants, places and data of each kind fits it.
pub fn figures_fit()
    ensures { Fits (figures ∷ []) figures_map 0x10000 }
{}

/// That map resolves its names: a constant has its last value, and the last of `.globl` and `.local` holds.
pub fn figures_resolve()
    ensures { Resolves (figures ∷ []) figures_map }
{}

/// The bindings of its names: what is said last holds, and a name of which nothing is said is local.
pub fn figures_bind()
    ensures said { map (λ n. bindings_of figures n) (codes "_start" ∷ codes "limit" ∷ [])
        ≡ Global ∷ Global ∷ [] }
    ensures last { bindings_of figures (codes "table") ≡ Local }
    ensures nothing { bindings_of figures (codes "room") ≡ Local }
{}

/// The types of sections: what is given, else what the front of the name says.
pub fn sections_have_types()
    ensures note { (section_with (codes ".n") None (Some (codes "note"))).section_type ≡ Note }
    ensures nobits { (section_with (codes ".n") None (Some (codes "nobits"))).section_type
        ≡ Nobits }
    ensures given { (section_with (codes ".bss") None (Some (codes "progbits"))).section_type
        ≡ Progbits }
    ensures zeroed { (section_with (codes ".sbss.x") None None).section_type ≡ Nobits }
    ensures other { (section_with (codes ".note.x") None None).section_type ≡ Progbits }
{}

/// The bytes of its data: a constant has its latest earlier value.
pub fn figures_spell()
    ensures { example_data figures figures_map ≡ figures_data }
{}

/// A section of code begins at a multiple of the greatest of its alignments: a map without the gap
/// before it does not hold the sections of the source.
pub fn code_is_aligned()
    ensures alignments { map (λ b. b.alignment) (text_sections two_sections with_gap)
        ≡ 2 ∷ 16 ∷ [] }
    ensures gap { gaps_of 0x10000 (text_sections two_sections with_gap) ≡ with_gap.gaps }
    ensures held { Holds with_gap.text 0x10000 (text_sections two_sections with_gap) }
    ensures not_held { Holds without_gap.text 0x10000 (text_sections two_sections without_gap) → ⊥ }
{}

/// The map of a source with differences of places fits it.
pub fn differences_fit()
    ensures { Fits (differences ∷ []) differences_map 0x10000 }
{}

/// The bytes of its data: a difference of two places is a number, and `|` and `%` bind as GNU as has it.
pub fn differences_spell()
    ensures { example_data differences differences_map ≡ differences_data }
{}

/// A program for the board virt: its map fits it, and it sends the first byte of its input back, or 0 where there is none.
/// Without the board its first load is refused.
pub fn echo_runs_on_the_board()
    ensures fits { Fits (echo ∷ []) echo_map 0x8000_0000 }
    ensures resolves { Resolves (echo ∷ []) echo_map }
    ensures runs { source_run_on virt_platform (echo ∷ []) echo_map (codes "A") 7 ≡ sends (codes "A") }
    ensures ended { source_run_on virt_platform (echo ∷ []) echo_map [] 7 ≡ sends (0 ∷ []) }
    ensures alone { source_run (echo ∷ []) echo_map (codes "A") 7
        ≡ record { console = []; «end» = LoadOutside 0x1000_0000 } }
{}
