//! Where offsets of a text lie among its sites.

ghost use Rattle.std.specs.Prelude.{◌≡◌, ◌-◌, nat_le, IfOk};
ghost use Rattle.rv_size_laws.specs.Calls.{InOrder, bytes_of, is_call as is_call_site, whole_sizes};
ghost use Rattle.rv_size_laws.specs.Sites.{site_end};
ghost use Rattle.rv_call_sizes.specs.Passes.{AreTargets, IsPlace, LeadsTo};

use rv_size_laws::{Site, SiteKind};
use std::alloc::{AllocError, Global};

/// Whether a site is a call.
pub(crate) fn is_call(kind: &SiteKind) -> bool
    ensures { result ≡ is_call_site kind.now }
{
    matches!(kind, SiteKind::Call(_))
}

/// The bytes of a site before relaxation.
pub(crate) fn whole_size(kind: &SiteKind) -> u32
    ensures { result ≡ bytes_of kind.now }
{
    match kind {
        SiteKind::Call(_) => 8,
        SiteKind::Padding(padding) => padding.bytes,
    }
}

/// The bytes that a site drops of which so many are kept.
pub(crate) fn dropped_bytes(kind: &SiteKind, kept: u32) -> u32
    ensures { result ≡ bytes_of kind.now - kept }
{
    whole_size(kind).saturating_sub(kept)
}

/// Whether a site ends at an offset or before it.
fn ends_by(site: &Site, old: u128) -> bool
    ensures { result ≡ nat_le (site_end site.now) old }
{
    if old < site.offset {
        return false;
    }
    u128::from(whole_size(&site.kind)) <= old - site.offset
}

/// How many sites end at an offset or before it.
pub(crate) fn place_of(sites: &[Site], old: u128) -> usize
    requires { InOrder 0 sites.now }
    ensures { IsPlace sites.now old result }
{
    sites.partition_point(
        |site: &Site| -> bool
            ensures { result ≡ nat_le (site_end site.now) old }
        { ends_by(site, old) },
    )
}

/// For each call how many sites end at its target or before it.
pub(crate) fn targets(alloc: Global, sites: &[Site]) -> Result<Vec<usize>, AllocError>
    requires { InOrder 0 sites.now }
    ensures { IfOk result (λ targets. AreTargets sites.now targets.items) }
{
    let mut targets = Vec::with_capacity(alloc, sites.len())?;
    for site in sites {
        targets.push(target_place(sites, &site.kind))?;
    }
    Ok(targets)
}

/// How many sites end at a call's target or before it.
fn target_place(sites: &[Site], kind: &SiteKind) -> usize
    requires { InOrder 0 sites.now }
    ensures { LeadsTo sites.now kind.now result }
{
    match kind {
        SiteKind::Call(call) => place_of(sites, call.target),
        SiteKind::Padding(_) => 0,
    }
}

/// What each site has before relaxation.
pub(crate) fn whole(alloc: Global, sites: &[Site]) -> Result<Vec<u32>, AllocError>
    ensures { IfOk result (λ kept. kept.items ≡ whole_sizes sites.now) }
{
    let mut kept = Vec::with_capacity(alloc, sites.len())?;
    for site in sites {
        kept.push(whole_size(&site.kind))?;
    }
    Ok(kept)
}
