// The check of a net: each test of crate net over the whole net, in the order of the rules.
#![tactic(auto)]

ghost use Rattle.std.specs.Prelude.{◌≡◌, drop};
ghost use Rattle.lists.specs.Any.{any, any_two};
ghost use Rattle.plane.specs.Place.{same_place};
ghost use Rattle.plane.specs.Macro.{interiors_meet};
ghost use Rattle.plane.specs.Flat.{macros_of};
ghost use Rattle.net.specs.Pins.{pin_places, pin_loads};
ghost use Rattle.net.specs.Tests.{out_of_range, place_out, no_load, pins_out_of_range, not_upright, inside_any};
ghost use Rattle.checks.specs.Check.{checked, told};

use net::{Net, Refusal, Weighing};
use plane::{Place, Weights};

// Whether one of the numbers is farther from 0 than coordinates go.
pub fn any_out_of_range(numbers: &[i32]) -> bool
    ensures { result ≡ any out_of_range numbers.now }
{
    for z in numbers {
        if net::is_out_of_range(*z) {
            return true;
        }
    }
    false
}

fn any_place_out(pins: &[i32]) -> bool
    ensures { result ≡ any place_out (pin_places pins.now) }
{
    for i in 0..net::pin_count(pins) {
        if net::is_place_out(net::pin_at(pins, i)) {
            return true;
        }
    }
    false
}

fn any_no_load(pins: &[i32]) -> bool
    ensures { result ≡ any no_load (pin_loads pins.now) }
{
    for i in 0..net::pin_count(pins) {
        if net::is_no_load(net::load_at(pins, i)) {
            return true;
        }
    }
    false
}

// Whether a pin's place or its load is out of range.
fn are_pins_out(pins: &[i32]) -> bool
    ensures { result ≡ pins_out_of_range pins.now }
{
    any_place_out(pins) | any_no_load(pins)
}

fn any_not_upright(macros: &[i32]) -> bool
    ensures { result ≡ any not_upright (macros_of macros.now) }
{
    for i in 0..net::macro_count(macros) {
        if net::is_not_upright(clear::macro_at(macros, i)) {
            return true;
        }
    }
    false
}

// Whether p is among the pins from the one numbered `from` on.
pub fn is_among(p: Place, pins: &[i32], from: usize) -> bool
    ensures { result ≡ any (same_place p) (drop from (pin_places pins.now)) }
{
    for j in from..net::pin_count(pins) {
        if plane::is_same_place(p, net::pin_at(pins, j)) {
            return true;
        }
    }
    false
}

fn any_same_place(pins: &[i32]) -> bool
    ensures { result ≡ any_two same_place (pin_places pins.now) }
{
    for i in 0..net::pin_count(pins) {
        if is_among(net::pin_at(pins, i), pins, i + 1) {
            return true;
        }
    }
    false
}

// Whether two macros' interiors meet. The search for an overlap ends at the first pair found.
// Kept: both loops are left by a label and not by `return`, the form that is asked for it (S13).
fn any_overlap(macros: &[i32]) -> bool
    ensures { result ≡ any_two interiors_meet (macros_of macros.now) }
{
    let k = net::macro_count(macros);
    let mut found = false;
    'search: for i in 0..k {
        let m = clear::macro_at(macros, i);
        for j in i + 1..k {
            if clear::interiors_meet(m, clear::macro_at(macros, j)) {
                found = true;
                break 'search;
            }
        }
    }
    found
}

// Whether a pin lies in an interior: the box of a pin and itself meets it.
fn any_pin_inside(pins: &[i32], macros: &[i32]) -> bool
    ensures { result ≡ any (inside_any (macros_of macros.now)) (pin_places pins.now) }
{
    for i in 0..net::pin_count(pins) {
        let p = net::pin_at(pins, i);
        if !clear::is_clear(p, p, macros) {
            return true;
        }
    }
    false
}

// Check a net: the first refusal that applies, each test over the whole net before the next begins.
#[tactic(auto, unfolding(net::specs::Answer::told_by, net::specs::Answer::number, crate::specs::Check::checked_within))]
pub fn check(w: Weighing, pins: &[i32], macros: &[i32]) -> Result<Net, Refusal>
    ensures { told result ≡ checked w pins.now macros.now }
{
    if net::pins_miscounted(pins) {
        return Err(Refusal::PinList);
    }
    if net::macros_miscounted(macros) {
        return Err(Refusal::MacroList);
    }
    if are_pins_out(pins) {
        return Err(Refusal::Range);
    }
    if any_out_of_range(macros) {
        return Err(Refusal::Range);
    }
    if any_not_upright(macros) {
        return Err(Refusal::Sides);
    }
    if any_same_place(pins) {
        return Err(Refusal::SamePlace);
    }
    if any_overlap(macros) {
        return Err(Refusal::Overlap);
    }
    if any_pin_inside(pins, macros) {
        return Err(Refusal::PinInside);
    }
    let weights = Weights::try_from(w)?;
    Ok(Net {
        pins: net::pin_count(pins),
        macros: net::macro_count(macros),
        weights,
    })
}
