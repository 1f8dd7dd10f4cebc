//! Laws of units, each the contract of a function with nothing to do.

ghost use Rattle.std.specs.Prelude.{◌≡◌, map};
ghost use Rattle.rv_unit.specs.Options.{options_of};
ghost use Rattle.rv_unit.specs.Sections.{offset_of};
ghost use Rattle.rv_unit.specs.Tables.{tables_of};
ghost use Rattle.rv_unit.specs.declared.unit.Unit.{Unit as SourceUnit};
ghost use Rattle.rv_unit.specs.Unit.{said};

/// Two units of the same statements have the same offsets, options and tables, so that names mean the same in both.
pub fn units_agree()
    ensures { (u v : SourceUnit) → said u ≡ said v →
        (map offset_of u.places.items ≡ map offset_of v.places.items)
        × (map options_of u.options.items ≡ map options_of v.options.items)
        × (tables_of u.tables ≡ tables_of v.tables) }
{}
