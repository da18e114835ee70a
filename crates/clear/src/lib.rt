// What is clear of macros: whether a closed box, or another interior, meets a macro's interior, and whether two places are clear of each
// other among the macros of a flat list.
#![tactic(auto)]

ghost use Rattle.std.specs.Prelude.{◌≡◌, true, ◌+◌, ◌*◌, ◌≤◌, length, is_none};
ghost use Rattle.lists.specs.Any.{any};
ghost use Rattle.plane.specs.Macro.{span_meets, meets, open_spans_meet, interiors_meet, clear};
ghost use Rattle.plane.specs.Flat.{macros_of, macro_at};

use plane::{Macro, Place};

// The i-th macro of a flat list.
pub fn macro_at(macros: &[i32], i: usize) -> Macro
    requires { i * 4 + 4 ≤ length macros.now }
    ensures { result ≡ macro_at macros.now i }
{
    let k = i * 4;
    Macro {
        left: macros[k],
        bottom: macros[k + 1],
        right: macros[k + 2],
        top: macros[k + 3],
    }
}

// The closed span of a and b meets the open one between from and to.
#[tactic(auto, unfolding(plane::specs::Macro::span_meets))]
fn span_meets(a: i32, b: i32, from: i32, to: i32) -> bool
    ensures { result ≡ span_meets a b from to }
{
    plane::smaller(a, b) < to && from < plane::greater(a, b)
}

// The closed box of a and b meets the interior of m.
#[tactic(auto, unfolding(plane::specs::Macro::meets))]
pub fn box_meets(a: Place, b: Place, m: Macro) -> bool
    ensures { result ≡ meets a b m }
{
    span_meets(a.x, b.x, m.left, m.right) && span_meets(a.y, b.y, m.bottom, m.top)
}

// The open spans from a to b and from c to d meet.
#[tactic(auto, unfolding(plane::specs::Macro::open_spans_meet))]
fn open_spans_meet(a: i32, b: i32, c: i32, d: i32) -> bool
    ensures { result ≡ open_spans_meet a b c d }
{
    plane::greater(a, c) < plane::smaller(b, d)
}

// The interiors of m and n meet.
#[tactic(auto, unfolding(plane::specs::Macro::interiors_meet))]
pub fn interiors_meet(m: Macro, n: Macro) -> bool
    ensures { result ≡ interiors_meet m n }
{
    open_spans_meet(m.left, m.right, n.left, n.right)
        && open_spans_meet(m.bottom, m.top, n.bottom, n.top)
}

// The i-th macro is one that blocks.
#[tactic(auto, using(crate::proofs::BlockLaws::one_meets))]
fn is_blocked(a: Place, b: Place, macros: &[i32], i: usize) -> bool
    ensures { result ≡ true → any (meets a b) (macros_of macros.now) ≡ true }
{
    i < macros.len() / 4 && box_meets(a, b, macro_at(macros, i))
}

// The first macro that blocks, of all; none where the box of a and b meets no macro's interior.
fn look_around(a: Place, b: Place, macros: &[i32]) -> Option<usize>
    ensures { is_none result ≡ clear a b (macros_of macros.now) }
{
    for i in 0..macros.len() / 4 {
        if box_meets(a, b, macro_at(macros, i)) {
            return Some(i);
        }
    }
    None
}

// The box of a and b meets no macro's interior.
pub fn is_clear(a: Place, b: Place, macros: &[i32]) -> bool
    ensures { result ≡ clear a b (macros_of macros.now) }
{
    look_around(a, b, macros).is_none()
}

// A macro that blocks, if one does, whatever `by` is: the macro of that number is asked first, since what blocked once often blocks again.
#[tactic(auto, unfolding(plane::specs::Macro::clear))]
pub fn look(a: Place, b: Place, macros: &[i32], by: usize) -> Option<usize>
    ensures { is_none result ≡ clear a b (macros_of macros.now) }
{
    if is_blocked(a, b, macros, by) {
        Some(by)
    } else {
        look_around(a, b, macros)
    }
}
