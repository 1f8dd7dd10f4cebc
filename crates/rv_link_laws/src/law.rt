//! Laws of the definitions.

ghost use Rattle.std.specs.Prelude.{◌≡◌, ◌↔◌, ℕ, ◌%◌, ◌<◌, ◌≤◌, [], Bool, List, None, filter, is_some, length, map, true};
ghost use Rattle.std.specs.List.{AllByRecursion};
ghost use Rattle.std.specs.Option.{option_map};
ghost use Rattle.rv_isa_laws.specs.Platform.{stack_start};
ghost use Rattle.rv_map_laws.specs.declared.map.SectionId.{SectionId};
ghost use Rattle.rv_collect_laws.specs.Graph.{is_dropped};
ghost use Rattle.rv_size_laws.specs.Calls.{IsText, site_at};
ghost use Rattle.rv_object_laws.specs.Object.{Object, Relocation, Section, Symbol};
ghost use Rattle.rv_object_laws.specs.declared.row.Row.{Row};
ghost use Rattle.rv_link_laws.specs.CallSites.{length_of, sites_of, target_place};
ghost use Rattle.rv_link_laws.specs.Collects.{Collects, entry_place};
ghost use Rattle.rv_link_laws.specs.Inputs.{InputSection, Starts, goes_to_bss, goes_to_data, goes_to_rodata, goes_to_text, inputs};
ghost use Rattle.rv_link_laws.specs.IsLinkOf.{by_ordinal, is_loaded};
ghost use Rattle.rv_link_laws.specs.Left.{IsOfLoaded, ReferToKept, IsNotDropped, export_left, is_left, left_of};
ghost use Rattle.rv_link_laws.specs.Moves.{alignments_of, kept, moves, new_offset};
ghost use Rattle.rv_link_laws.specs.Names.{chosen, chosen_exports, entry_of, global_names, object_at, shared_place, symbol_place};
ghost use Rattle.rv_link_laws.specs.Rising.{Rise};
ghost use Rattle.rv_object_laws.specs.Whole.{IsWhole};
ghost use Rattle.rv_link_laws.specs.TextStart.{IsTextStart};
ghost use Rattle.rv_link_laws.specs.Within.{IsWithin};
ghost use Rattle.rv_link_laws.specs.Without.{without, without_object};

/// A text starts at any page below the stack, and nowhere else.
pub fn text_starts()
    ensures { (start : ℕ) → IsTextStart start ↔ ((start % 4096 ≡ 0) × (start < stack_start)) }
{}

/// A section without alignments in its code keeps its offsets and its bytes.
pub fn nothing_moves()
    ensures offsets { (base : ℕ) (s : Section) → alignments_of s ≡ [] → (offset : ℕ) →
        new_offset (moves base s) offset ≡ offset }
    ensures bytes { (base : ℕ) (s : Section) → alignments_of s ≡ [] → (bytes : List ℕ) →
        kept 0 (moves base s) bytes ≡ bytes }
{}

/// Rows that stand by their ordinals stay so.
pub fn rows_in_order_stay()
    ensures { (low : ℕ) (rows : List Row) → Rise low rows → by_ordinal rows ≡ rows }
{}

/// The sites of objects that keep what every object keeps make a text, whoever made them: they stand in order, and no call leads
/// strictly inside another. All of it is within the line of the text.
pub fn sites_of_whole_objects()
    ensures text { (objects : List Object) → AllByRecursion IsWhole objects →
        IsText (sites_of objects) }
    ensures within { (objects : List Object) → AllByRecursion IsWhole objects → (i : ℕ) →
        IsWithin (length_of (inputs goes_to_text objects)) (site_at (sites_of objects) i) }
{}

/// Without nothing objects are the same.
pub fn without_nothing()
    ensures { (objects : List Object) → without [] objects ≡ objects }
{}

/// What is left of objects without sections that are dropped keeps what every object keeps. There are as many of them, and each
/// is what is left of its own. The input sections of a region, or of all that have an address, are those that are not dropped.
pub fn what_is_left()
    ensures whole { (drops : List SectionId) (objects : List Object) →
        AllByRecursion IsWhole objects → AllByRecursion IsWhole (without drops objects) }
    ensures many { (drops : List SectionId) (objects : List Object) →
        length (without drops objects) ≡ length objects }
    ensures object { (drops : List SectionId) (objects : List Object) (file : ℕ) → 1 ≤ file →
        object_at (without drops objects) file
        ≡ without_object (is_dropped drops file) (object_at objects file) }
    ensures loaded { IsOfLoaded is_loaded × IsOfLoaded goes_to_text × IsOfLoaded goes_to_rodata ×
        IsOfLoaded goes_to_data × IsOfLoaded goes_to_bss }
    ensures inputs { (goes : Section → Bool) → IsOfLoaded goes → (drops : List SectionId)
        (objects : List Object) → inputs goes (without drops objects)
        ≡ map (left_of drops) (filter (is_left drops) (inputs goes objects)) }
{}

/// Names and symbols mean in what is left what they meant in all of it.
pub fn names_stay()
    ensures global { (drops : List SectionId) (objects : List Object) →
        global_names (without drops objects) ≡ global_names objects }
    ensures chosen { (drops : List SectionId) (objects : List Object) (name : List ℕ) →
        chosen (without drops objects) name
        ≡ option_map (export_left drops) (chosen objects name) }
    ensures exports { (drops : List SectionId) (objects : List Object) →
        chosen_exports (without drops objects)
        ≡ map (export_left drops) (chosen_exports objects) }
    ensures is_some { (drops : List SectionId) (objects : List Object) (name : List ℕ) →
        is_some (chosen (without drops objects) name) ≡ is_some (chosen objects name) }
    ensures shared { (drops : List SectionId) (objects : List Object) (name : List ℕ) →
        shared_place (without drops objects) name ≡ shared_place objects name }
    ensures symbol { (drops : List SectionId) (objects : List Object) (file : ℕ) (s : Symbol) →
        symbol_place (without drops objects) file s ≡ symbol_place objects file s }
    ensures target { (drops : List SectionId) (objects : List Object) (i : InputSection)
        (r : Relocation) → target_place (without drops objects) (left_of drops i) r
        ≡ target_place objects i r }
{}

/// Nothing that is left leads to what is dropped, and a run begins where it did.
pub fn nothing_dangles()
    ensures refer { (gc : Bool) (objects : List Object) (drops : List SectionId) →
        Collects gc objects drops → ReferToKept drops (without drops objects) }
    ensures stays { (gc : Bool) (objects : List Object) (drops : List SectionId) →
        Collects gc objects drops → IsNotDropped drops (entry_place objects) }
    ensures begins { (gc : Bool) (objects : List Object) (drops : List SectionId) →
        Collects gc objects drops → entry_place (without drops objects) ≡ entry_place objects }
{}

/// Where a run can begin nowhere, nothing is left in memory: every section with an address is dropped. No address is an entry.
pub fn nothing_begins()
    ensures dropped { (objects : List Object) (drops : List SectionId) →
        Collects true objects drops → entry_place objects ≡ None →
        AllByRecursion (λ i. is_dropped drops i.file i.index ≡ true)
        (inputs is_loaded objects) }
    ensures left { (goes : Section → Bool) → IsOfLoaded goes → (objects : List Object)
        (drops : List SectionId) → Collects true objects drops → entry_place objects ≡ None →
        inputs goes (without drops objects) ≡ [] }
    ensures entry { (starts : Starts) (objects : List Object) → entry_place objects ≡ None →
        entry_of starts objects ≡ None }
{}

/// There is one list of what collection drops of objects, and only one.
pub fn one_collection()
    ensures some { (gc : Bool) (objects : List Object) →
        (drops : List SectionId) × Collects gc objects drops }
    ensures one { (gc : Bool) (objects : List Object) (drops others : List SectionId) →
        Collects gc objects drops → Collects gc objects others → drops ≡ others }
{}
