// A list of bands that a bureau lends, two numbers a band, and the tests of it.
//
// A rate above the highest one is refused wherever it stands (31), so that no product can overflow; a list that falls back is refused
// wherever it does (37), so that more metal is never charged less. Limits are compared and never multiplied: they may be any numbers of
// 64 bits.
#![tactic(auto)]

ghost use Rattle.std.specs.Prelude.{◌≡◌, ◌+◌, ◌*◌, ◌≤◌, length};
ghost use Rattle.lists.specs.Any.{any};
ghost use Rattle.bands.specs.Band.{bands_of, band_at};
ghost use Rattle.bands.specs.Tests.{bands_miscounted, rate_above};
ghost use Rattle.bands.specs.Order.{steps_back, falls_back};

// The highest rate.
const RATE: u64 = 1000000;

// A band: the most metal that it reaches, and its rate, in hundredths of the currency per 1,000 units.
#[derive(Clone, Copy)]
pub struct Band {
    pub limit: u64,
    pub rate: u64,
}

// Whether the list is not of whole pairs, or has no band.
#[tactic(auto, unfolding(crate::specs::Tests::bands_miscounted))]
pub fn bands_miscounted(bands: &[u64]) -> bool
    ensures { result ≡ bands_miscounted bands.now }
{
    bands.len() % 2 != 0 || bands.len() / 2 == 0
}

// The i-th band of a flat list.
pub fn band_at(bands: &[u64], i: usize) -> Band
    requires { i * 2 + 2 ≤ length bands.now }
    ensures { result ≡ band_at bands.now i }
{
    let k = i * 2;
    Band {
        limit: bands[k],
        rate: bands[k + 1],
    }
}

#[tactic(auto, unfolding(crate::specs::Tests::rate_above))]
fn is_rate_above(band: Band) -> bool
    ensures { result ≡ rate_above band }
{
    RATE < band.rate
}

// Whether a rate is above the highest one, in any band, used or not.
pub fn any_rate_above(bands: &[u64]) -> bool
    ensures { result ≡ any rate_above (bands_of bands.now) }
{
    for i in 0..bands.len() / 2 {
        if is_rate_above(band_at(bands, i)) {
            return true;
        }
    }
    false
}

// Whether a band falls back from the one before it: its limit is not above, or its rate is below.
#[tactic(auto, unfolding(crate::specs::Order::steps_back))]
fn is_step_back(before: Band, band: Band) -> bool
    ensures { result ≡ steps_back before band }
{
    before.limit >= band.limit || band.rate < before.rate
}

// Whether the list falls back at any band, used or not.
pub fn any_step_back(bands: &[u64]) -> bool
    ensures { result ≡ falls_back (bands_of bands.now) }
{
    for i in 0..(bands.len() / 2).saturating_sub(1) {
        if is_step_back(band_at(bands, i), band_at(bands, i + 1)) {
            return true;
        }
    }
    false
}
