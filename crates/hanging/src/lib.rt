// What hangs from a bar.
#![tactic(auto)]

ghost use Rattle.std.specs.Prelude.{◌≡◌, true, ◌+◌, ◌^◌, ◌≤◌, ◌<◌, get_or, replicate};
ghost use Rattle.straight.specs.Table.{straight_bound, key_bound, Small};
ghost use Rattle.turned.specs.Steps.{Numbers};
ghost use Rattle.turned.specs.Turned.{view};
ghost use Rattle.hanging.specs.Hanging.{counted, shorter, hung, hang, code, uncode, Coded, Added, Tallied};

use net::Net;
use slide::Side;
use straight::{NUMBERS, POINTS};
use turned::Seen;

// What hangs from a bar: how many edges on the side and on the other, and how long the shortest on the side is.
#[derive(Clone, Copy)]
pub struct Hang {
    pub ahead: usize,
    pub behind: usize,
    pub shortest: u64,
}

// Lengths are below this.
const LENGTHS: u64 = 8589934592;

// Counts are below this: more than the edges of a straight tree, whatever the bounds of pins and macros. With 128 of each a power of two.
const COUNTS: u64 = (Net::PINS + Net::MACROS) as u64 * 8;

// The shortest with one that is ahead: the first is the shortest so far.
fn shortest(h: Hang, d: u64) -> u64
    ensures { result ≡ shorter true d h }
{
    if h.ahead == 0 { d } else { h.shortest.min(d) }
}

fn hung(e: Seen, h: Hang) -> Hang
    requires { (h.ahead < 2 ^ 32) × (h.behind < 2 ^ 32) }
    ensures { result ≡ hung e h }
{
    let is_ahead = turned::is_ahead(e);
    Hang {
        ahead: h.ahead + usize::from(is_ahead),
        behind: h.behind + usize::from(turned::is_behind(e)),
        shortest: if is_ahead {
            shortest(h, turned::long(e))
        } else {
            h.shortest
        },
    }
}

// What hangs as one number: the counts above the length.
// Kept: one number, since `code` is a word of `Coded` and `Tallied`, by which the contracts here say what hangs from a bar.
fn code(h: Hang) -> u64
    requires { ((h.ahead ≤ straight_bound) × (h.behind ≤ straight_bound)) × (h.shortest ≤ 2 ^ 32) }
    ensures { result ≡ code h }
{
    (h.ahead as u64 * COUNTS + h.behind as u64) * LENGTHS + h.shortest
}

// What hangs from the bar with label l, of a table of these numbers.
pub fn hang_at(hangs: &[u64; POINTS], l: usize) -> Hang
    requires { l < straight_bound }
    ensures { result ≡ uncode (get_or hangs.now l 0) }
{
    let c = hangs[l];
    let counts = c / LENGTHS;
    Hang {
        ahead: (counts / COUNTS) as usize,
        behind: (counts % COUNTS) as usize,
        shortest: c % LENGTHS,
    }
}

// Edge k hung on the bar with label l.
fn add(
    pts: &[i32; NUMBERS],
    keys: &[usize; POINTS],
    lab: &[usize; POINTS],
    s: Side,
    k: usize,
    l: usize,
    hangs: &mut [u64; POINTS],
)
    requires k_lt_straight_bound { ((k < straight_bound) × (get_or keys.now k 0 < key_bound)) × (l < straight_bound) }
    requires coded { Coded k (hang (view pts.now keys.now lab.now s l) k) (get_or hangs.old l 0) }
    ensures { Added (view pts.now keys.now lab.now s l) k hangs.old
        hangs.new }
{
    let h = hang_at(hangs, l);
    let t = turned::seen_edge(pts, keys, lab, s, l, k);
    hangs[l] = code(hung(t, h));
}

// Edge k hung on the bars of its ends. It looks the same to every other bar.
fn add_edge(
    pts: &[i32; NUMBERS],
    keys: &[usize; POINTS],
    lab: &[usize; POINTS],
    s: Side,
    k: usize,
    hangs: &mut [u64; POINTS],
)
    requires k_lt_straight_bound { ((k < straight_bound) × (get_or keys.now k 0 < key_bound)) × (Numbers lab.now) }
    requires tallied { Tallied pts.now keys.now lab.now s k hangs.old }
    ensures { Tallied pts.now keys.now lab.now s (k + 1) hangs.new }
{
    let p = lab[straight::first_end(keys, k)];
    let q = lab[straight::second_end(keys, k)];
    add(pts, keys, lab, s, k, p, hangs);
    if p != q {
        add(pts, keys, lab, s, k, q, hangs);
    }
}

// What hangs from every bar that moves to the side, by its label: one pass over the first e edges.
pub fn tally(
    pts: &[i32; NUMBERS],
    keys: &[usize; POINTS],
    e: usize,
    lab: &[usize; POINTS],
    s: Side,
    hangs: &mut [u64; POINTS],
)
    requires e_le_straight_bound { ((e ≤ straight_bound) × (Small keys.now)) × (Numbers lab.now) }
    requires hangs_value { hangs.old ≡ replicate straight_bound 0 }
    ensures { Tallied pts.now keys.now lab.now s e hangs.new }
{
    for k in 0..e {
        add_edge(pts, keys, lab, s, k, hangs);
    }
}
