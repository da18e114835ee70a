// The price of metal by the list of bands that a bureau lends, once the list is tested: whoever has it refuses 31 and 37 before there is
// metal to charge for.
#![tactic(auto)]

ghost use Rattle.std.specs.Prelude.{◌≡◌, false, ◌≤◌};
ghost use Rattle.lists.specs.Any.{any};
ghost use Rattle.bands.specs.Band.{bands_of};
ghost use Rattle.bands.specs.Tests.{rate_bound, rate_above};
ghost use Rattle.price.specs.Charge.{metal_bound, charge, reaches, by_first};
ghost use Rattle.price.specs.Price.{told_price};

use bands::Band;
use net::Refusal;

// A rate is for this many units of metal.
const UNITS: u64 = 1000;

fn is_reaching(metal: u64, band: Band) -> bool
    ensures { result ≡ reaches metal band }
{
    !(band.limit < metal)
}

// Metal times rate over 1,000, to the hundredth. Metal is split by the thousand first: whole thousands are charged their rate, and only
// what is left of metal is multiplied out. Half way between two hundredths the even one is charged.
fn charge(metal: u64, rate: u64) -> u64
    requires { (metal ≤ metal_bound) × (rate ≤ rate_bound) }
    ensures { result ≡ charge metal rate }
{
    let part = metal % UNITS * rate;
    let whole = metal / UNITS * rate + part / UNITS;
    let over = part % UNITS * 2;
    if over < UNITS {
        return whole;
    }
    if UNITS < over {
        return whole + 1;
    }
    if whole % 2 == 0 {
        return whole;
    }
    whole + 1
}

// The charge, in hundredths of the currency, by the first band that reaches the metal, or 32.
pub fn by_first(metal: u64, bands: &[u64]) -> Result<u64, Refusal>
    requires { (metal ≤ metal_bound) × (any rate_above (bands_of bands.now) ≡ false) }
    ensures { told_price result ≡ by_first metal (bands_of bands.now) }
{
    for i in 0..bands.len() / 2 {
        let band = bands::band_at(bands, i);
        if is_reaching(metal, band) {
            return Ok(charge(metal, band.rate));
        }
    }
    Err(Refusal::Reach)
}
