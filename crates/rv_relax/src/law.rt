//! Worked numbers.

ghost use Rattle.std.specs.Prelude.{◌≡◌, [], ◌∷◌, true, false};
ghost use Rattle.std.specs.List.{list_all};
ghost use Rattle.rv_link_laws.specs.Moves.{has_room, kept, lost, moves, new_offset};
ghost use Rattle.rv_relax.specs.Worked.{align_at, code_with, kept_of};

/// Two bytes of code, and then an alignment to 8 with 6 bytes of padding. In a section that starts at a multiple of 8 all of
/// it is needed; at an address with the remainder 2 four bytes are, with the remainder 6 none.
pub fn one_alignment()
    ensures all { moves 64 (code_with (align_at 2 6 ∷ [])) ≡ kept_of 2 6 6 ∷ [] }
    ensures some { moves 66 (code_with (align_at 2 6 ∷ [])) ≡ kept_of 2 6 4 ∷ [] }
    ensures none { moves 70 (code_with (align_at 2 6 ∷ [])) ≡ kept_of 2 6 0 ∷ [] }
    ensures after { new_offset (moves 66 (code_with (align_at 2 6 ∷ []))) 8 ≡ 6 }
    ensures before { new_offset (moves 66 (code_with (align_at 2 6 ∷ []))) 2 ≡ 2 }
    ensures within { new_offset (moves 66 (code_with (align_at 2 6 ∷ []))) 7 ≡ 6 }
    ensures bytes { kept 0 (moves 66 (code_with (align_at 2 6 ∷ [])))
        (0x01 ∷ 0 ∷ 0x13 ∷ 0 ∷ 0 ∷ 0 ∷ 0x01 ∷ 0 ∷ 0x02 ∷ 0x90 ∷ [])
        ≡ 0x01 ∷ 0 ∷ 0x13 ∷ 0 ∷ 0 ∷ 0 ∷ 0x02 ∷ 0x90 ∷ [] }
    ensures instructions { lost (moves 66 (code_with (align_at 2 6 ∷ []))) 2 6 ≡ 1 }
    ensures room { list_all has_room (moves 66 (code_with (align_at 2 4 ∷ []))) ≡ true }
    ensures short { list_all has_room (moves 64 (code_with (align_at 2 4 ∷ []))) ≡ false }
{}

/// Alignments stand in the order of their places, whatever the order of the relocations; one without bytes keeps nothing,
/// also inside another's padding. GNU ld keeps as much of the two in `linked`.
pub fn two_alignments()
    ensures sorted { moves 64 (code_with (align_at 8 2 ∷ align_at 2 6 ∷ []))
        ≡ kept_of 2 6 6 ∷ kept_of 8 2 0 ∷ [] }
    ensures empty { moves 64 (code_with (align_at 2 6 ∷ align_at 4 0 ∷ [])) ≡ kept_of 2 6 6 ∷ [] }
    ensures linked { moves 0x10000 (code_with (align_at 4 6 ∷ align_at 14 2 ∷ []))
        ≡ kept_of 4 6 4 ∷ kept_of 14 2 0 ∷ [] }
    ensures gone { moves 66 (code_with (align_at 2 6 ∷ align_at 8 2 ∷ []))
        ≡ kept_of 2 6 4 ∷ kept_of 8 2 0 ∷ [] }
{}
