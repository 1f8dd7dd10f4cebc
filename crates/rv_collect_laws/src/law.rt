//! Laws of marking and of what is dropped, each the contract of a function with nothing to do.

ghost use Rattle.std.specs.Prelude.{◌≡◌, ◌⊎◌, ◌≤◌, Bool, true, List, ◌∷◌, length};
ghost use Rattle.rv_map_laws.specs.declared.map.SectionId.{SectionId};
ghost use Rattle.rv_collect_laws.specs.Graph.{AreAlike, AreDrops, Graph, Has, IsClosed, IsLeastClosed, Marking, is_one_of, staying};

/// Marking, in any order, takes at most as many marks as there are sections. Where the marks are closed they are the least
/// closed set, and where they are not, there is one more to make.
pub fn marking_ends()
    ensures few { (g : Graph) (done : List SectionId) → Marking g done →
        length done ≤ length g.sections }
    ensures least { (g : Graph) (done : List SectionId) → Marking g done →
        IsClosed g (is_one_of done) → IsLeastClosed g (is_one_of done) }
    ensures more { (g : Graph) (done : List SectionId) → Marking g done →
        IsClosed g (is_one_of done) ⊎ ((t : SectionId) × Marking g (t ∷ done)) }
{}

/// There is one list of what is dropped, and only one. It is of sections of the graph, and what stays beside it is the least
/// closed set. Graphs that are alike drop the same.
pub fn one_drops()
    ensures some { (gc : Bool) (g : Graph) → (drops : List SectionId) × AreDrops gc g drops }
    ensures one { (gc : Bool) (g : Graph) (drops others : List SectionId) → AreDrops gc g drops →
        AreDrops gc g others → drops ≡ others }
    ensures within { (gc : Bool) (g : Graph) (drops : List SectionId) → AreDrops gc g drops →
        (s : SectionId) → is_one_of drops s ≡ true → Has g s }
    ensures rest { (g : Graph) (drops : List SectionId) → AreDrops true g drops →
        IsLeastClosed g (staying g drops) }
    ensures alike { (gc : Bool) (g h : Graph) (drops : List SectionId) → AreAlike g h →
        AreDrops gc g drops → AreDrops gc h drops }
{}
