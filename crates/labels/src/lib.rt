// Labels of points: two have the same exactly when level edges join them, and a label is the least number that has it.
#![tactic(auto)]

ghost use Rattle.std.specs.Prelude.{◌≡◌, ◌&&◌, ◌≤◌, ◌<◌, max, eqb, ltb, get_or};
ghost use Rattle.joined.specs.Table.{changed};
ghost use Rattle.straight.specs.Table.{straight_bound, key_bound, Small};
ghost use Rattle.turned.specs.Steps.{set_up_to};
ghost use Rattle.labels.specs.Labelling.{leads, united, Own, joined_by, labelled};

use slide::Side;
use straight::{NUMBERS, POINTS};

fn number(lab: &mut [usize; POINTS], n: usize)
    requires { n ≤ straight_bound }
    ensures { lab.new ≡ set_up_to (λ i x. i) n lab.old }
{
    for i in 0..n {
        lab[i] = i;
    }
}

fn changed(a: usize, b: usize, x: usize) -> usize
    ensures { result ≡ changed a b x }
{
    if x == b { a } else { x }
}

// The label b becomes a.
fn merge(lab: &mut [usize; POINTS], n: usize, a: usize, b: usize)
    requires { n ≤ straight_bound }
    ensures { lab.new ≡ set_up_to (λ i x. changed a b x) n lab.old }
{
    for i in 0..n {
        lab[i] = changed(a, b, lab[i]);
    }
}

// Point b has its own label q, above p and above `top`: no other point has it.
fn is_lone(n: usize, p: usize, b: usize, q: usize, top: usize) -> bool
    ensures { result ≡ (eqb q b && (ltb b n && (ltb p b && ltb top b))) }
{
    q == b && b < n && p < b && top < b
}

// Of the label p and that of point b the greater becomes the smaller. Where no other point has b's label, b takes p.
fn unite(lab: &mut [usize; POINTS], n: usize, p: usize, b: usize, top: usize)
    requires { ((n ≤ straight_bound) × (b < straight_bound)) × (Own n top lab.old) }
    ensures { lab.new ≡ united n p (get_or lab.old b 0) lab.old }
{
    let q = lab[b];
    if is_lone(n, p, b, q, top) {
        lab[b] = p;
    } else if p < q {
        merge(lab, n, p, q);
    } else {
        merge(lab, n, q, p);
    }
}

// Edge k is a first one of its bar: along it, from the bar's first point.
pub fn leads(
    pts: &[i32; NUMBERS],
    keys: &[usize; POINTS],
    lab: &[usize; POINTS],
    s: Side,
    k: usize,
) -> bool
    requires { (k < straight_bound) × (get_or keys.now k 0 < key_bound) }
    ensures { result ≡ leads s pts.now keys.now lab.now k }
{
    let a = straight::first_end(keys, k);
    turned::is_level(pts, keys, s, k) & (lab[a] == a)
}

// The labels of the ends of edge k into one, if it is level. No point but its own has a label above `top`; what is so afterwards.
fn join(
    pts: &[i32; NUMBERS],
    keys: &[usize; POINTS],
    n: usize,
    s: Side,
    k: usize,
    lab: &mut [usize; POINTS],
    top: usize,
) -> usize
    requires n_le_straight_bound { (n ≤ straight_bound) × ((k < straight_bound) × (get_or keys.now k 0 < key_bound)) }
    requires own { Own n top lab.old }
    ensures lab_after { lab.new ≡ joined_by s pts.now keys.now n k lab.old }
    ensures own_2 { Own n result lab.new }
{
    if turned::is_level(pts, keys, s, k) {
        let p = lab[straight::first_end(keys, k)];
        unite(lab, n, p, straight::second_end(keys, k), top);
        top.max(p)
    } else {
        top
    }
}

pub fn label(
    pts: &[i32; NUMBERS],
    keys: &[usize; POINTS],
    n: usize,
    e: usize,
    s: Side,
    lab: &mut [usize; POINTS],
)
    requires { (n ≤ straight_bound) × ((e ≤ straight_bound) × (Small keys.now)) }
    ensures { lab.new ≡ labelled s pts.now keys.now n e lab.old }
{
    number(lab, n);
    let mut top = 0;
    for k in 0..e {
        top = join(pts, keys, n, s, k, lab, top);
    }
}
