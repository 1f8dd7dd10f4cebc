//! What is dropped before a site, while single sites change in any order.
//!
//! The bytes that sites drop are summed by 64, these sums by 64 again, and those once more. So what is dropped before a site is
//! read in some two hundred numbers of a text of ten million sites, and a site that changes changes three sums.

ghost use Rattle.std.specs.Prelude.{◌≡◌, ◌+◌, ◌*◌, ◌^◌, ◌<◌, ◌≤◌, IfOk, length, set, slice_index, sum};
ghost use Rattle.rv_size_laws.specs.Calls.{IsFamily};
ghost use Rattle.rv_size_laws.specs.Offsets.{offset};
ghost use Rattle.rv_call_sizes.specs.Passes.{IsInput, drops};
ghost use Rattle.rv_call_sizes.specs.Sums.{AreSums, AreTripleSums};

use crate::places::dropped_bytes;
use rv_size_laws::Site;
use std::alloc::{AllocError, Global};

/// How many numbers a sum has.
const EACH: usize = 64;

/// The sums of what sites drop.
#[derive(Drop)]
pub(crate) struct DropSums {
    /// Of 64 sites each.
    pub(crate) ones: Vec<u128>,
    /// Of 64 of these.
    pub(crate) twos: Vec<u128>,
    /// Of 64 of those.
    pub(crate) threes: Vec<u128>,
}

impl DropSums {
    /// The sums of what sites drop of which so many bytes are kept.
    pub(crate) fn of(alloc: Global, sites: &[Site], kept: &[u32]) -> Result<Self, AllocError>
        requires input { IsInput sites.now }
        requires family { IsFamily sites.now kept.now }
        ensures { IfOk result (λ sums. AreTripleSums (drops sites.now kept.now)
            sums.ones.items sums.twos.items sums.threes.items) }
    {
        let ones = sums_of_sites(alloc, sites, kept)?;
        let twos = sums_of(alloc, ones.as_slice())?;
        let threes = sums_of(alloc, twos.as_slice())?;
        Ok(DropSums { ones, twos, threes })
    }

    /// What is dropped before site `i`.
    pub(crate) fn before(&self, sites: &[Site], kept: &[u32], i: usize) -> u128
        requires input { IsInput sites.now }
        requires family { IsFamily sites.now kept.now }
        requires sums { AreTripleSums (drops sites.now kept.now)
            (self.now).ones.items (self.now).twos.items (self.now).threes.items }
        requires within { i ≤ length sites.now }
        ensures { result ≡ offset (drops sites.now kept.now) i }
    {
        let one = i / EACH;
        let two = one / EACH;
        let three = two / EACH;
        let of_sites = dropped_in(sites, kept, EACH * one, i);
        let of_ones = sum_in(self.ones.as_slice(), EACH * two, one);
        let of_twos = sum_in(self.twos.as_slice(), EACH * three, two);
        let of_threes = sum_in(self.threes.as_slice(), 0, three);
        of_sites + (of_ones + (of_twos + of_threes))
    }

    /// Takes it that site `i` drops so many bytes more.
    pub(crate) fn add(&mut self, sites: &[Site], kept: &[u32], i: usize, bytes: u32)
        requires input { IsInput sites.now }
        requires family { IsFamily sites.now kept.now }
        requires sums { AreTripleSums (drops sites.now kept.now)
            (self.old).ones.items (self.old).twos.items (self.old).threes.items }
        requires within { i < length sites.now }
        ensures { AreTripleSums
            (set (drops sites.now kept.now) i (slice_index (drops sites.now kept.now) i + bytes))
            (self.new).ones.items (self.new).twos.items (self.new).threes.items }
    {
        let one = i / EACH;
        let two = one / EACH;
        let three = two / EACH;
        self.ones[one] += u128::from(bytes);
        self.twos[two] += u128::from(bytes);
        self.threes[three] += u128::from(bytes);
    }
}

/// What sites drop, 64 at a time.
fn sums_of_sites(alloc: Global, sites: &[Site], kept: &[u32]) -> Result<Vec<u128>, AllocError>
    requires input { IsInput sites.now }
    requires family { IsFamily sites.now kept.now }
    ensures { IfOk result (λ sums. AreSums (drops sites.now kept.now) sums.items) }
{
    let blocks = sites.len() / EACH;
    let mut sums = Vec::with_capacity(alloc, blocks + 1)?;
    for block in 0..blocks {
        sums.push(dropped_in(sites, kept, EACH * block, EACH * (block + 1)))?;
    }
    sums.push(dropped_in(sites, kept, EACH * blocks, sites.len()))?;
    Ok(sums)
}

/// The sums of numbers, 64 at a time.
fn sums_of(alloc: Global, numbers: &[u128]) -> Result<Vec<u128>, AllocError>
    requires { sum numbers.now ≤ 27 * 2 ^ 121 }
    ensures { IfOk result (λ sums. AreSums numbers.now sums.items) }
{
    let blocks = numbers.len() / EACH;
    let mut sums = Vec::with_capacity(alloc, blocks + 1)?;
    for block in 0..blocks {
        sums.push(sum_in(numbers, EACH * block, EACH * (block + 1)))?;
    }
    sums.push(sum_in(numbers, EACH * blocks, numbers.len()))?;
    Ok(sums)
}

/// What the sites from one on drop, up to another.
fn dropped_in(sites: &[Site], kept: &[u32], from: usize, to: usize) -> u128
    requires input { IsInput sites.now }
    requires family { IsFamily sites.now kept.now }
    requires order { from ≤ to }
    requires within { to ≤ length sites.now }
    ensures { offset (drops sites.now kept.now) to ≡ offset (drops sites.now kept.now) from + result }
{
    let mut sum = 0;
    for i in from..to {
        sum += u128::from(dropped_bytes(&sites[i].kind, kept[i]));
    }
    sum
}

/// The sum of numbers from one on, up to another.
fn sum_in(numbers: &[u128], from: usize, to: usize) -> u128
    requires low { sum numbers.now ≤ 27 * 2 ^ 121 }
    requires order { from ≤ to }
    requires within { to ≤ length numbers.now }
    ensures { offset numbers.now to ≡ offset numbers.now from + result }
{
    let mut sum = 0;
    for i in from..to {
        sum += numbers[i];
    }
    sum
}
