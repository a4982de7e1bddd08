//! Masks, and how they are made from columns.
ghost use Rattle.std.specs.Prelude.{◌≡◌, ◌≤◌, ◌<◌, ◌==◌, ◌&&◌, length, map, replicate, slice_set, false, count_by, IfOk};
ghost use Rattle.std.specs.Simd.Lanes.{zip2};
ghost use Rattle.fw_lanes.specs.Masked.{is_between, is_in_set, most_places};

use std::alloc::{AllocError, Global};
use std::marker::Model;

/// A truth value for each place of a column, which has at most [`Mask::MOST_PLACES`] places. A contract sees the list of them.
///
/// [`Mask::new`] takes its memory, and nothing else does: the same mask can be set for one column of a length after another.
pub struct Mask {
    places: Vec<bool>,
}

impl Drop for Mask {
    fn drop(self) {
        let Self { places: _ } = self;
    }
}

impl Model for Mask {
    ghost use Rattle.std.specs.Prelude.{◌≤◌, Bool, List, length};
    ghost use Rattle.fw_lanes.specs.Masked.{most_places};

    ghost Value = { List Bool };

    ghost view = { λ m. m.places.items };

    ghost invariant = { λ m. length m.places.items ≤ most_places };
}

impl Mask {
    /// The most places of a mask.
    pub const MOST_PLACES: usize = 65_536;

    /// A mask of so many places, at most [`Mask::MOST_PLACES`], all of them false. The one error is that memory ran out.
    pub fn new(alloc: Global, len: usize) -> Result<Mask, AllocError>
        requires { len ≤ most_places }
        ensures { IfOk result (λ mask. mask ≡ replicate len false) }
    {
        Ok(Mask {
            places: vec![in alloc; false; len]?,
        })
    }

    /// How many places there are: at most [`Mask::MOST_PLACES`].
    pub fn len(&self) -> usize
        ensures places { result ≡ length self.now }
        ensures few { result ≤ most_places }
    {
        self.places.len()
    }

    /// The truth values, in the order of the places.
    pub fn as_slice(&self) -> &[bool]
        ensures places { result.now ≡ self.now }
        ensures few { length self.now ≤ most_places }
    {
        self.places.as_slice()
    }

    /// Sets all places alike.
    pub fn fill(&mut self, is_set: bool)
        ensures { self.new ≡ replicate (length self.old) is_set }
    {
        self.places.as_mut_slice().fill(is_set);
    }

    /// Sets one place, which has to be there.
    pub fn set(&mut self, place: usize, is_set: bool)
        requires { place < length self.old }
        ensures { self.new ≡ slice_set self.old place is_set }
    {
        self.places[place] = is_set;
    }
}

/// Sets each place to whether its value is at least `low` and less than `high`. There are as many values as places.
pub fn mask_range(values: &[i64], low: i64, high: i64, mask: &mut Mask)
    requires { length mask.old ≡ length values.now }
    ensures { mask.new ≡ map (is_between low high) values.now }
{
    let places = mask.places.as_mut_slice();
    for at in 0..values.len() {
        let value = values[at];
        places[at] = (low <= value) & (value < high);
    }
}

/// Sets each place to whether its value is this one. There are as many values as places.
pub fn mask_eq_u8(values: &[u8], value: u8, mask: &mut Mask)
    requires { length mask.old ≡ length values.now }
    ensures { mask.new ≡ map (λ v. v == value) values.now }
{
    let places = mask.places.as_mut_slice();
    for at in 0..values.len() {
        places[at] = values[at] == value;
    }
}

/// Sets each place to whether its value is this one. There are as many values as places.
pub fn mask_eq_u32(values: &[u32], value: u32, mask: &mut Mask)
    requires { length mask.old ≡ length values.now }
    ensures { mask.new ≡ map (λ v. v == value) values.now }
{
    let places = mask.places.as_mut_slice();
    for at in 0..values.len() {
        let own = values[at];
        places[at] = own == value;
    }
}

// Whether a value is in a set: whether it is below 64, and the bit of this number is 1.
#[inline(always)]
fn is_in(value: u8, set: u64) -> bool
    ensures { result ≡ is_in_set set value }
{
    (value < 64) & ((set >> (value & 63)) & 1 == 1)
}

/// Sets each place to whether its value is in a set: whether it is below 64, and the bit of this number in `set` is 1. There are as many values as
/// places.
pub fn mask_in_u8(values: &[u8], set: u64, mask: &mut Mask)
    requires { length mask.old ≡ length values.now }
    ensures { mask.new ≡ map (is_in_set set) values.now }
{
    let places = mask.places.as_mut_slice();
    for at in 0..values.len() {
        places[at] = is_in(values[at], set);
    }
}

/// Leaves a place true only where another mask, of as many places, is true too.
pub fn and_with(mask: &mut Mask, other: &Mask)
    requires { length mask.old ≡ length other.now }
    ensures { mask.new ≡ zip2 (λ a b. a && b) mask.old other.now }
{
    let places = mask.places.as_mut_slice();
    let others = other.places.as_slice();
    for at in 0..others.len() {
        places[at] = places[at] & others[at];
    }
}

/// At how many places a mask is true.
pub fn count(mask: &Mask) -> usize
    ensures { result ≡ count_by (λ is_set. is_set) mask.now }
{
    let places = mask.places.as_slice();
    let mut count = 0;
    for place in places {
        count += usize::from(*place);
    }
    count
}
