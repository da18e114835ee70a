// Floats tested, delays marked and given.
#![tactic(auto)]

ghost use Rattle.std.specs.Prelude.{◌≡◌, ◌&&◌, [], ◌∷◌, ◌+◌, ◌≤◌, ◌<◌, length, get_or};
ghost use Rattle.std.proofs.lemmas.List.Edits.{sets};
ghost use Rattle.std.specs.Float.{nan};
ghost use Rattle.lists.specs.Any.{any};
ghost use Rattle.lent.specs.Over.{over};
ghost use Rattle.tree.specs.Table.{tree_bound};
ghost use Rattle.floats.specs.Float.{finite};
ghost use Rattle.floats.specs.Mark.{marked, is_mark, finites, fair, usable, is_pin, pins_from, marks_from};

use tree::POINTS;

// A technology: resistance and capacitance for each unit of length.
#[derive(Clone, Copy)]
pub struct Technology {
    pub resistance: f64,
    pub capacitance: f64,
}

// Above zero, and finite.
#[tactic(auto, using(crate::proofs::MarkLaws::finite_same, crate::proofs::MarkLaws::zero_bits), unfolding(crate::specs::Mark::fair))]
fn is_fair(x: f64) -> bool
    ensures { result ≡ fair x }
{
    0.0 < x && x.is_finite()
}

// Whether both numbers of a technology are above zero, and finite.
#[tactic(auto, unfolding(crate::specs::Mark::usable))]
pub fn is_usable(t: Technology) -> bool
    ensures { result ≡ usable t }
{
    is_fair(t.resistance) && is_fair(t.capacitance)
}

// The delay to a pin; None, the mark, where it is not finite.
#[tactic(auto, using(crate::proofs::MarkLaws::marked_same))]
fn marked(d: f64) -> Option<f64>
    ensures { result ≡ marked d }
{
    d.is_finite().then_some(d)
}

// Whether point i is a pin with a mark.
#[tactic(auto, unfolding(crate::specs::Mark::is_pin, crate::specs::Mark::is_mark))]
fn is_marked_pin(table: &[f64; POINTS], pin: &[usize; POINTS], i: usize) -> bool
    requires { i < tree_bound }
    ensures { result ≡ is_pin pin.now i && is_mark (marked (get_or table.now i nan)) }
{
    pin[i] == 1 && marked(table[i]).is_none()
}

// Whether a pin among the first n points has a mark.
pub fn has_mark(table: &[f64; POINTS], pin: &[usize; POINTS], n: usize) -> bool
    requires { n ≤ tree_bound }
    ensures { result ≡ any is_mark (marks_from table.now pin.now 0 n) }
{
    for i in 0..n {
        if is_marked_pin(table, pin, i) {
            return true;
        }
    }
    false
}

// The delays of the pins among the first n points, in the order of places, and none for a mark.
pub fn give(table: &[f64; POINTS], pin: &[usize; POINTS], n: usize, lent: &mut [f64])
    requires { (n ≤ tree_bound) × (length (pins_from pin.now 0 n) ≤ length lent.old) }
    ensures { lent.new ≡ over (finites (marks_from table.now pin.now 0 n)) lent.old }
{
    let mut k = 0;
    for i in 0..n {
        if pin[i] == 1 {
            if let Some(x) = marked(table[i]) {
                lent[k] = x;
                k += 1;
            }
        }
    }
}
