// The net: its bounds, its pins read, and the tests of it, each of one entry or one count.
#![tactic(auto)]

ghost use Rattle.std.specs.Prelude.{false, cond, Ok, Err, ◌≡◌, ◌+◌, ◌*◌, ◌≤◌, ◌<◌, pos, length};
ghost use Rattle.std.proofs.lemmas.List.Edits.{sets};
ghost use Rattle.lists.specs.Any.{any};
ghost use Rattle.signed.specs.Sides.{up};
ghost use Rattle.plane.specs.Place.{same_place};
ghost use Rattle.net.specs.Bounds.{pin_bound, macro_bound, pin_width};
ghost use Rattle.net.specs.Pins.{pin_count, pin_places, pin_at, load_at, pin_numbers, bare, macro_count};
ghost use Rattle.net.specs.Net.{weights_of, handed};
ghost use Rattle.net.specs.declared.Refusal.TheVariants.{WeightRange};
ghost use Rattle.net.specs.Answer.{number};
ghost use Rattle.net.specs.Counts.{point_count};
ghost use Rattle.net.specs.Tests.{pins_miscounted, macros_miscounted, out_of_range, place_out, no_load, not_upright, no_weight, weights_wrong};

use plane::{Macro, Place, Weights};

// What the check finds of a net that is no list: its numbers of pins and of macros, and its weights. Its bounds are named here.
#[derive(Clone, Copy)]
pub struct Net {
    pub pins: usize,
    pub macros: usize,
    pub weights: Weights,
}

// The bounds of pins, macros, coordinates, loads and weights, and how many numbers a pin and a macro have, are literals; the others follow.
impl Net {
    // Numbers of a pin in the list of pins: its x, its y and its load. Above this crate it has only this name.
    pub const PIN_NUMBERS: usize = 3;

    // Numbers of a macro in the list of macros: left, bottom, right, top.
    pub const MACRO_NUMBERS: usize = 4;

    pub const PINS: usize = 128;

    pub const MACROS: usize = 128;

    // A coordinate lies between this and its negative.
    pub const COORDINATE: i32 = 1000000;

    // A pin's load is from 0 to this, in units of capacitance.
    pub const LOAD: i32 = 1000000;

    // A unit of metal costs from 1 to this, along either axis.
    pub const WEIGHT: i32 = 8;

    // Points of the graph: the pins and four corners of each macro.
    pub const POINTS: usize = Net::PINS + Net::MACROS * 4;

    // Edges of the graph: each point picks at most four.
    pub const EDGES: usize = Net::POINTS * 4;

    // Points of the refined tree: each round brings at most one more.
    pub const TREE_POINTS: usize = Net::POINTS + Net::PINS;

    // What metal between two places costs at most: along either axis they are at most twice the bound of coordinates apart.
    pub const COST: u64 = Net::COORDINATE as u64 * 4 * Net::WEIGHT as u64;
}

// The two weights as a caller hands them over, with the lists: any two numbers. The first is that of x, the second that of y.
#[derive(Clone, Copy)]
pub struct Weighing {
    pub first: i32,
    pub second: i32,
}

// Why an operation refuses, each with its number (C1 to C41), which `number` in specs/Answer.antt states.
#[derive(Clone, Copy, Debug, PartialEq, Eq)]
pub enum Refusal {
    Blocks = 1,
    Sums = 2,
    Layout = 3,
    PinList = 11,
    MacroList = 12,
    Range = 13,
    Sides = 14,
    SamePlace = 15,
    Overlap = 16,
    PinInside = 17,
    WeightRange = 18,
    Space = 21,
    Bands = 31,
    Reach = 32,
    BandOrder = 37,
    GridSize = 36,
    EdgeList = 33,
    EdgeNotClear = 34,
    NotATree = 35,
    BestSize = 41,
    TechnologyRange = 38,
    DriverNotPin = 39,
    DelayNotFinite = 40,
}

impl Refusal {
    #[tactic(auto, unfolding(crate::specs::Answer::number))]
    pub fn number(self) -> i32
        ensures { result ≡ pos (number self) }
    {
        self as i32
    }
}

// How many pins a list holds.
#[tactic(auto, unfolding(crate::specs::Pins::pin_count))]
pub fn pin_count(pins: &[i32]) -> usize
    ensures { result ≡ pin_count pins.now }
{
    pins.len() / Net::PIN_NUMBERS
}

// The place of the pin numbered i.
#[tactic(auto, unfolding(crate::specs::Pins::pin_count))]
pub fn pin_at(pins: &[i32], i: usize) -> Place
    requires { i < pin_count pins.now }
    ensures { result ≡ pin_at pins.now i }
{
    let k = i * Net::PIN_NUMBERS;
    Place {
        x: pins[k],
        y: pins[k + 1],
    }
}

// The load of the pin numbered i.
#[tactic(auto, unfolding(crate::specs::Pins::pin_count))]
pub fn load_at(pins: &[i32], i: usize) -> i32
    requires { i < pin_count pins.now }
    ensures { result ≡ load_at pins.now i }
{
    pins[i * Net::PIN_NUMBERS + 2]
}

// Whether a pin is at p.
pub fn is_pin(pins: &[i32], p: Place) -> bool
    ensures { result ≡ any (same_place p) (pin_places pins.now) }
{
    for i in 0..pin_count(pins) {
        if plane::is_same_place(p, pin_at(pins, i)) {
            return true;
        }
    }
    false
}

// p as the i-th pin of a list, without a load.
pub fn put_bare_pin(pins: &mut [i32], i: usize, p: Place)
    requires { i * pin_width + pin_width ≤ length pins.old }
    ensures { pins.new ≡ sets pins.old (i * pin_width) (pin_numbers (bare p)) }
{
    let k = i * Net::PIN_NUMBERS;
    pins[k] = p.x;
    pins[k + 1] = p.y;
    pins[k + 2] = 0;
}

// How many macros a list holds.
pub fn macro_count(macros: &[i32]) -> usize
    ensures { result ≡ macro_count macros.now }
{
    macros.len() / Net::MACRO_NUMBERS
}

// At most so many points has a net's graph: its pins and four corners of each macro.
pub fn point_count(net: Net) -> usize
    requires pins_le_pin_bound { net.pins ≤ pin_bound }
    requires macros_le_macro_bound { net.macros ≤ macro_bound }
    ensures { result ≡ point_count net }
{
    net.pins + net.macros * 4
}

// Refusal 11: numbers left over past the last whole pin, no pin, or more than the bound.
#[tactic(auto, unfolding(crate::specs::Tests::pins_miscounted_within))]
pub fn pins_miscounted(pins: &[i32]) -> bool
    ensures { result ≡ pins_miscounted pins.now }
{
    let m = pin_count(pins);
    (pins.len() % Net::PIN_NUMBERS != 0) | ((m == 0) | (Net::PINS < m))
}

// Refusal 12: numbers left over past the last whole macro, or more macros than the bound.
#[tactic(auto, unfolding(crate::specs::Tests::macros_miscounted_within))]
pub fn macros_miscounted(macros: &[i32]) -> bool
    ensures { result ≡ macros_miscounted macros.now }
{
    let k = macro_count(macros);
    (macros.len() % Net::MACRO_NUMBERS != 0) | (Net::MACROS < k)
}

// Whether a number is farther from 0 than coordinates go.
#[tactic(auto, unfolding(crate::specs::Tests::out_of_range))]
pub fn is_out_of_range(z: i32) -> bool
    ensures { result ≡ out_of_range z }
{
    (z < -Net::COORDINATE) | (Net::COORDINATE < z)
}

// So for either coordinate of a place.
pub fn is_place_out(p: Place) -> bool
    ensures { result ≡ place_out p }
{
    is_out_of_range(p.x) | is_out_of_range(p.y)
}

// Whether a number is below 0 or above the greatest load.
#[tactic(auto, unfolding(crate::specs::Tests::no_load))]
pub fn is_no_load(z: i32) -> bool
    ensures { result ≡ no_load z }
{
    (z < 0) | (Net::LOAD < z)
}

// Refusal 14, for one macro: no width or no height.
#[tactic(auto, unfolding(crate::specs::Tests::not_upright))]
pub fn is_not_upright(m: Macro) -> bool
    ensures { result ≡ not_upright m }
{
    !(m.left < m.right) | !(m.bottom < m.top)
}

#[tactic(auto, unfolding(crate::specs::Tests::no_weight))]
fn is_no_weight(z: i32) -> bool
    ensures { result ≡ no_weight z }
{
    (z < 1) | (Net::WEIGHT < z)
}

// Refusal 18: one of the two weights is outside 1 to 8.
#[tactic(auto, unfolding(crate::specs::Tests::weights_wrong))]
pub fn are_weights_wrong(w: Weighing) -> bool
    ensures { result ≡ weights_wrong w }
{
    is_no_weight(w.first) | is_no_weight(w.second)
}

// A weight from 1 to 8 as the net's own struct has it.
#[tactic(auto, unfolding(crate::specs::Tests::no_weight, signed::specs::Sides::up))]
fn weight_of(z: i32) -> u8
    requires { no_weight z ≡ false }
    ensures { result ≡ up z }
{
    z as u8
}

// The weights of a net as its own struct has them, of two that pass.
#[tactic(auto, unfolding(crate::specs::Tests::weights_wrong))]
pub fn weights_of(w: Weighing) -> Weights
    requires { weights_wrong w ≡ false }
    ensures { result ≡ weights_of w }
{
    Weights {
        across: weight_of(w.first),
        along: weight_of(w.second),
    }
}

// The same of any two weights, or 18.
impl TryFrom<Weighing> for Weights {
    type Error = Refusal;

    ghost try_from_gives = { λ w r. r ≡ cond (weights_wrong w) (Err WeightRange) (Ok (weights_of w)) };

    fn try_from(w: Weighing) -> Result<Weights, Refusal> {
        if are_weights_wrong(w) {
            Err(Refusal::WeightRange)
        } else {
            Ok(weights_of(w))
        }
    }
}

// The two weights of a net as a caller hands them over.
impl From<Weights> for Weighing {
    ghost from_gives = { λ w r. r ≡ handed w };

    fn from(w: Weights) -> Weighing {
        Weighing {
            first: i32::from(w.across),
            second: i32::from(w.along),
        }
    }
}
