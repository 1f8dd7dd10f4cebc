//! The law: whenever memory holds a program, the machine's run over it agrees with the run of its
//! statements.

ghost use Rattle.std.specs.Prelude.{◌≡◌, ℕ, ◌^◌, ◌%◌, ◌<◌, Bool, true, List};
ghost use Rattle.rv_isa_laws.specs.Memory.{Mem};
ghost use Rattle.rv_statement_laws.specs.Statement.{Statement};
ghost use Rattle.rv_map_laws.specs.Map.{Map};
ghost use Rattle.rv_isa_laws.specs.Word.{Spells};
ghost use Rattle.rv_parcel.specs.Parcel.{StandsFor};
ghost use Rattle.rv_isa_laws.specs.Reader.{Reader};
ghost use Rattle.rv_isa_laws.specs.Run.{machine_run};
ghost use Rattle.rv_chain_laws.specs.Agrees.{Agrees};
ghost use Rattle.rv_chain_laws.specs.Realizes.{Realizes, RealizesOn};
ghost use Rattle.rv_chain_laws.specs.Walks.{LinesDoAsMeant};
ghost use Rattle.rv_source_laws.specs.Program.{program};
ghost use Rattle.rv_source_laws.specs.SourceRun.{source_run};
ghost use Rattle.rv_chain_laws.specs.Headline.{AreBytes, RunsAgree, RunsAgreeOn};
ghost use Rattle.rv_chain_laws.specs.PlatformRun.{source_run_on};
ghost use Rattle.rv_board_laws.specs.Device.{run_on};
ghost use Rattle.rv_board_laws.specs.Platform.{Platform, stack_alone, start_on};
ghost use Rattle.rv_board_laws.specs.Virt.{ram_start, lie_in_ram, virt_run, virt_platform};
ghost use Rattle.rv_image_laws.specs.Image.{Image};
ghost use Rattle.rv_chain_laws.specs.Contents.{IsLinked};
ghost use Rattle.rv_image_laws.specs.Linked.{Linked};
ghost use Rattle.rv_image_laws.specs.Executable.{linked_image};

/// A reading of code exists: for each word and each parcel it answers the one instruction that is
/// spelled there, or none. So what holds for every reader is never said of nothing.
pub fn code_has_a_reader()
    ensures { Reader Spells StandsFor }
{}

/// The lines of each statement, run one after another by the meanings of their instructions from any
/// hart of 32 registers, do what the statement means, at its cost. So each pseudo-instruction's
/// sequence does what its name says. `runs_agree` rests on this.
pub fn lines_do_as_meant()
    ensures { LinesDoAsMeant }
{}

/// Where memory holds the statements of the sources at the rows of a map, and the map's entry is an
/// even address, the two runs agree for every input and every limit.
pub fn runs_agree()
    ensures { (reader : Reader Spells StandsFor) (m : Mem) (sources : List (List Statement))
        (map : Map)
        → Realizes reader m (program sources map) → map.entry < 2 ^ 64 → map.entry % 2 ≡ 0
        → (input : List ℕ) (n : ℕ)
        → Agrees (source_run sources map input n) (machine_run reader m map.entry input n) }
{}

/// Where the regions of a linked program hold the sections of its sources, code and data, the image
/// of the program runs as their statements do, for every input and every limit.
pub fn linked_runs_agree()
    ensures { (start : ℕ) (sources : List (List Statement)) (relax gc : Bool) (l : Linked)
        → IsLinked sources start relax gc l → RunsAgree sources l.map (linked_image l) }
{}

/// The same on any platform, with its devices on both sides: where memory holds the statements, and beside them what the
/// platform has, the two runs agree from sp at the platform's top on.
pub fn runs_agree_on()
    ensures { (q : Platform) (reader : Reader Spells StandsFor) (m : Mem)
        (sources : List (List Statement)) (map : Map)
        → RealizesOn q reader m (program sources map) → q.top < 2 ^ 64 → map.entry < 2 ^ 64
        → map.entry % 2 ≡ 0 → (input : List ℕ) (n : ℕ)
        → Agrees (source_run_on q sources map input n)
        (run_on q.device reader n (start_on q map.entry input) m) }
{}

/// The image of a linked program runs on every platform as its statements do there, for every input and every limit.
pub fn linked_runs_agree_on()
    ensures { (start : ℕ) (sources : List (List Statement)) (relax gc : Bool) (l : Linked)
        → IsLinked sources start relax gc l → RunsAgreeOn sources l.map (linked_image l) }
{}

/// On the stack alone the source run of a linked program is the usual one.
pub fn sources_run_as_usual()
    ensures { (start : ℕ) (sources : List (List Statement)) (relax gc : Bool) (l : Linked)
        → IsLinked sources start relax gc l → (input : List ℕ) (n : ℕ)
        → source_run_on stack_alone sources l.map input n ≡ source_run sources l.map input n }
{}

/// A program that runs on every platform as its statements do runs so on the board virt, where its segments lie in RAM
/// and its entry is the first address there.
pub fn virt_runs_agree()
    ensures { (sources : List (List Statement)) (map : Map) (image : Image)
        → RunsAgreeOn sources map image → lie_in_ram ram_start image.segments ≡ true
        → image.entry ≡ ram_start
        → (reader : Reader Spells StandsFor) (input : List ℕ) → AreBytes input → (n : ℕ)
        → Agrees (source_run_on virt_platform sources map input n)
        (virt_run reader image input n) }
{}
