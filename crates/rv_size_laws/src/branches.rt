//! Laws of branch sizes, each the contract of a function with nothing to do.

ghost use Rattle.std.specs.Prelude.{◌≡◌, ◌⊎◌, ℕ, ◌*◌, ◌≤◌, ◌<◌, List, slice_index};
ghost use Rattle.rv_size_laws.specs.declared.item.Item.{Item as AnyItem};
ghost use Rattle.rv_size_laws.specs.Offsets.{AllGrowEvenly};
ghost use Rattle.rv_size_laws.specs.Branches.{IsFamily, IsGood, IsLeastGood, MayWiden, Rounds, Widenings, ReachesBy, branches, item_at, largest, smallest_sizes};

/// There is a least good family.
pub fn least_good_exists()
    ensures { (items : List AnyItem) → (sizes : List ℕ) × IsLeastGood items sizes }
{}

/// There is only one.
pub fn one_least_good()
    ensures { (items : List AnyItem) (sizes others : List ℕ) → IsLeastGood items sizes →
        IsLeastGood items others → sizes ≡ others }
{}

/// A family that is not good has a statement that may be widened.
pub fn good_or_widens()
    ensures { (items : List AnyItem) (sizes : List ℕ) → IsFamily items sizes →
        IsGood items sizes ⊎ ((i : ℕ) × MayWiden items sizes i (2 * slice_index sizes i)) }
{}

/// Widening from the smallest sizes ends, in any order, after at most two widenings a branch. So rounds of one widening or
/// more end as well, and with the round that finds nothing to widen they are at most twice the branches and one.
pub fn widening_ends()
    ensures widenings { (items : List AnyItem) (sizes : List ℕ) (n : ℕ) →
        Widenings items (smallest_sizes items) sizes n → n ≤ 2 * branches items }
    ensures rounds { (items : List AnyItem) (sizes : List ℕ) (r : ℕ) →
        Rounds items (smallest_sizes items) sizes r → r ≤ 2 * branches items }
{}

/// Where it ends is the least good family.
pub fn widening_ends_at_the_least()
    ensures { (items : List AnyItem) (sizes : List ℕ) (n : ℕ) →
        Widenings items (smallest_sizes items) sizes n → IsGood items sizes →
        IsLeastGood items sizes }
{}

/// A form below the largest still reaches where statements shrink afterwards by even numbers of bytes, as calls that are
/// shortened and paddings that regrow to less do.
pub fn shrunk_branches_reach()
    ensures { (items : List AnyItem) (sizes rows : List ℕ) → IsGood items sizes →
        AllGrowEvenly rows sizes →
        (i : ℕ) → slice_index sizes i < largest (item_at items i).forms →
        ReachesBy items rows i (slice_index sizes i) }
{}
