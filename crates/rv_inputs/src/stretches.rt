//! Where offers stand that are looked at one after another.

ghost use Rattle.std.specs.Prelude.{◌≡◌, ◌≤◌, length, map, nat_lt, nat_le};
ghost use Rattle.rv_archive_laws.specs.Taken as laws;
ghost use Rattle.rv_inputs.specs.Filed.{AreFiled, IsCut};
ghost use Rattle.rv_inputs.specs.Plain.{plain_offer};
ghost use Rattle.rv_inputs.specs.Looking.{AreMet, EndBy};

use crate::offer::Offer;

/// The stretches of offers at which a search looks from a place of a file of a group on: each begins with its first number and
/// ends before its second.
pub(crate) fn stretches(
    offers: &[Offer<'_>],
    place: usize,
    file: usize,
    group: usize,
) -> [(usize, usize); 5]
    ensures met { AreFiled (map plain_offer offers.now) → AreMet
        (laws.stretches (record { place = place; file = file; group = group })) result
        (map plain_offer offers.now) }
    ensures within { EndBy result (length offers.now) }
{
    let file_start = files_below(offers, file);
    let file_end = files_up_to(offers, file);
    let group_start = groups_below(offers, group);
    let group_end = groups_up_to(offers, group);
    [
        (place.max(file_start), file_end),
        (file_start, file_end),
        (file_start.max(group_start), group_end),
        (group_start, group_end),
        (group_start, offers.len()),
    ]
}

/// How many offers stand in files before one.
fn files_below(offers: &[Offer<'_>], file: usize) -> usize
    ensures bound { result ≤ length offers.now }
    ensures cut { AreFiled (map plain_offer offers.now)
        → IsCut (λ o. nat_lt o.file file) (map plain_offer offers.now) result }
{
    offers.partition_point(
        |offer: &Offer<'_>| -> bool
            ensures { result ≡ nat_lt offer.now.file file }
        { offer.file < file },
    )
}

/// How many offers stand in files up to one.
fn files_up_to(offers: &[Offer<'_>], file: usize) -> usize
    ensures bound { result ≤ length offers.now }
    ensures cut { AreFiled (map plain_offer offers.now)
        → IsCut (λ o. nat_le o.file file) (map plain_offer offers.now) result }
{
    offers.partition_point(
        |offer: &Offer<'_>| -> bool
            ensures { result ≡ nat_le offer.now.file file }
        { offer.file <= file },
    )
}

/// How many offers stand in groups before one.
fn groups_below(offers: &[Offer<'_>], group: usize) -> usize
    ensures bound { result ≤ length offers.now }
    ensures cut { AreFiled (map plain_offer offers.now)
        → IsCut (λ o. nat_lt o.group group) (map plain_offer offers.now) result }
{
    offers.partition_point(
        |offer: &Offer<'_>| -> bool
            ensures { result ≡ nat_lt offer.now.group group }
        { offer.group < group },
    )
}

/// How many offers stand in groups up to one.
fn groups_up_to(offers: &[Offer<'_>], group: usize) -> usize
    ensures bound { result ≤ length offers.now }
    ensures cut { AreFiled (map plain_offer offers.now)
        → IsCut (λ o. nat_le o.group group) (map plain_offer offers.now) result }
{
    offers.partition_point(
        |offer: &Offer<'_>| -> bool
            ensures { result ≡ nat_le offer.now.group group }
        { offer.group <= group },
    )
}
