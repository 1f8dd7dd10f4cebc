//! Laws of call sizes and paddings, each the contract of a function with nothing to do.

ghost use Rattle.std.specs.Prelude.{◌≡◌, ◌⊎◌, ℕ, ◌+◌, ◌*◌, ◌%◌, ◌≤◌, ◌<◌, List};
ghost use Rattle.rv_size_laws.specs.declared.site.Site.{Site as AnySite};
ghost use Rattle.rv_size_laws.specs.Calls.{IsClosed, IsFamily, IsGreatestClosed, IsText, MayShorten, Rounds, Shortenings, calls, site_at, whole_sizes};
ghost use Rattle.rv_size_laws.specs.Paddings.{AllReach, IsEvenText, IsFullPadding, IsLeastPadding, IsRelaxedText, Regrows};

/// There is a greatest closed family.
pub fn greatest_closed_exists()
    ensures { (sites : List AnySite) → IsText sites → (kept : List ℕ)
        × IsGreatestClosed sites kept }
{}

/// There is only one.
pub fn one_greatest_closed()
    ensures { (sites : List AnySite) (kept others : List ℕ) →
        IsGreatestClosed sites kept → IsGreatestClosed sites others → kept ≡ others }
{}

/// A family that is not closed has a call that may be shorter.
pub fn closed_or_shortens()
    ensures { (sites : List AnySite) (kept : List ℕ) → IsFamily sites kept →
        IsClosed sites kept ⊎ ((i : ℕ) × ((shorter : ℕ) × MayShorten sites kept i shorter)) }
{}

/// Shortening from the whole sites ends, in any order, after at most two shortenings a call. So rounds of one shortening or
/// more end as well, and with the round that finds nothing to shorten they are at most twice the calls and one.
pub fn shortening_ends()
    ensures shortenings { (sites : List AnySite) (kept : List ℕ) (n : ℕ) →
        Shortenings sites (whole_sizes sites) kept n → n ≤ 2 * calls sites }
    ensures rounds { (sites : List AnySite) (kept : List ℕ) (r : ℕ) →
        Rounds sites (whole_sizes sites) kept r → r ≤ 2 * calls sites }
{}

/// Where it ends is the greatest closed family.
pub fn shortening_ends_at_the_greatest()
    ensures { (sites : List AnySite) → IsText sites → (kept : List ℕ) (n : ℕ) →
        Shortenings sites (whole_sizes sites) kept n → IsClosed sites kept →
        IsGreatestClosed sites kept }
{}

/// Each shortened call reaches, whatever paddings regrow.
pub fn regrown_calls_reach()
    ensures { (sites : List AnySite) → IsText sites → IsEvenText sites → (sized kept : List ℕ) →
        IsGreatestClosed sites sized → Regrows sites sized kept → AllReach sites kept }
{}

/// From an even offset the least padding for an even alignment is even, and at most the alignment less 2.
pub fn least_padding_fits()
    ensures { (alignment start padding : ℕ) → 0 < alignment → alignment % 2 ≡ 0 → start % 2 ≡ 0 →
        IsLeastPadding alignment start padding → (padding + 2 ≤ alignment) × (padding % 2 ≡ 0) }
{}

/// So the least paddings of a text regrow from those of its full paddings, and no more.
pub fn least_paddings_regrow()
    ensures { (sites : List AnySite) → IsText sites → IsEvenText sites →
        ((i : ℕ) → IsFullPadding (site_at sites i).kind) →
        (sized kept : List ℕ) → IsFamily sites sized → IsRelaxedText sites sized kept →
        Regrows sites sized kept }
{}
