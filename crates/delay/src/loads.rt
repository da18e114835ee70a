// The pins among a tree's points, and the loads of its points, from the list of pins.
ghost use Rattle.std.specs.Prelude.{◌≡◌, false, ◌≤◌, length};
ghost use Rattle.lists.specs.Any.{any};
ghost use Rattle.signed.specs.Sides.{up};
ghost use Rattle.net.specs.Tests.{no_load};
ghost use Rattle.net.specs.Pins.{pin_loads, pin_entries};
ghost use Rattle.tree.specs.Table.{tree_bound};
ghost use Rattle.delay.specs.Load.{load_of};
ghost use Rattle.delay.specs.Table.{Loaded};

use plane::Place;
use tree::{NUMBERS, POINTS};

// A load in range.
fn unsigned(z: i32) -> u64
    requires { no_load z ≡ false }
    ensures { result ≡ up z }
{
    z as u64
}

// The load of the pin at q, and 0 where no pin is.
fn load_of(pins: &[i32], q: Place) -> u64
    requires { any no_load (pin_loads pins.now) ≡ false }
    ensures { result ≡ load_of (pin_entries pins.now) q }
{
    for i in 0..net::pin_count(pins) {
        if plane::is_same_place(net::pin_at(pins, i), q) {
            return unsigned(net::load_at(pins, i));
        }
    }
    0
}

// Of each of the first n points whether it is a pin, and its load.
pub fn load(
    pins: &[i32],
    pts: &[i32; NUMBERS],
    n: usize,
    pin: &mut [usize; POINTS],
    loads: &mut [u64; POINTS],
)
    requires n_le_tree_bound { (n ≤ tree_bound) × (any no_load (pin_loads pins.now) ≡ false) }
    requires pin_len { (length pin.old ≡ tree_bound) × (length loads.old ≡ tree_bound) }
    ensures { Loaded pins.now pts.now n pin.new loads.new }
{
    for i in 0..n {
        let q = plane::place_at(pts, i);
        pin[i] = usize::from(net::is_pin(pins, q));
        loads[i] = load_of(pins, q);
    }
}
