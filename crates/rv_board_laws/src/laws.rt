//! Laws of runs with devices. Nothing here runs.

ghost use Rattle.std.specs.Prelude.{◌≡◌, ℕ, List, ◌++◌, true};
ghost use Rattle.rv_parcel.specs.Parcel.{StandsFor};
ghost use Rattle.rv_isa_laws.specs.Word.{Spells};
ghost use Rattle.rv_isa_laws.specs.Effect.{On};
ghost use Rattle.rv_isa_laws.specs.Hart.{Hart};
ghost use Rattle.rv_isa_laws.specs.Memory.{Mem};
ghost use Rattle.rv_isa_laws.specs.Reader.{Reader};
ghost use Rattle.rv_isa_laws.specs.Run.{step, run, machine_run};
ghost use Rattle.rv_image_laws.specs.Image.{Image};
ghost use Rattle.rv_image_laws.specs.Memory.{mem_of};
ghost use Rattle.rv_board_laws.specs.Device.{Device, Plain, step_on, run_on};
ghost use Rattle.rv_board_laws.specs.Platform.{IsPlatform, stack_alone, machine_run_on};
ghost use Rattle.rv_board_laws.specs.Virt.{ram_start, lie_in_ram, virt_run, virt_platform};

/// Where nothing stands anywhere, the run is the one without devices.
pub fn run_without_devices()
    ensures { (reader : Reader Spells StandsFor) (n : ℕ) (h : Hart) (m : Mem) →
        run_on (λ a. Plain) reader n h m ≡ run reader n h m }
{}

/// A step that memory lets go on goes on so with any devices.
pub fn step_goes_on()
    ensures { (d : ℕ → Device) (reader : Reader Spells StandsFor)
        (h g : Hart) (m n : Mem) → step reader h m ≡ On g n → step_on d reader h m ≡ On g n }
{}

/// What stood on the console before a run stays there, and changes nothing else.
pub fn console_stays()
    ensures { (d : ℕ → Device) (reader : Reader Spells StandsFor)
        (before : List ℕ) (n : ℕ) (h : Hart) (m : Mem) →
        let o = run_on d reader n h m in
        run_on d reader n (record h { console = before ++ h.console }) m
        ≡ record o { console = before ++ o.console } }
{}

/// The stack alone is a platform, and the run of any image there is the one without devices over the image's memory.
pub fn stack_alone_is_usual()
    ensures is_platform { IsPlatform stack_alone }
    ensures run { (reader : Reader Spells StandsFor) (image : Image) (input : List ℕ) (n : ℕ) →
        machine_run_on stack_alone reader image input n
        ≡ machine_run reader (mem_of image) image.entry input n }
{}

/// The board virt is a platform: where the segments of an image lie in RAM and its entry is the first address there, the
/// board runs it as the platform does.
pub fn virt_is_a_platform()
    ensures is_platform { IsPlatform virt_platform }
    ensures run { (reader : Reader Spells StandsFor) (image : Image) (input : List ℕ) (n : ℕ) →
        lie_in_ram ram_start image.segments ≡ true → image.entry ≡ ram_start →
        virt_run reader image input n ≡ machine_run_on virt_platform reader image input n }
{}
