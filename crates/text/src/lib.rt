// The text that the program `route` prints, put into a lent buffer piece by piece: a page is the buffer and the byte at which the next
// piece begins. A number takes at most 20 bytes, and with what stands behind it 21; a line of five numbers at most 105.
#![tactic(auto)]

ghost use Rattle.std.specs.Prelude.{◌≡◌, [], ◌∷◌, ◌++◌, ◌+◌, ◌*◌, ◌≤◌, pos, length};
ghost use Rattle.lent.specs.Entries.{flat, entries};
ghost use Rattle.plane.specs.Cost.{cost};
ghost use Rattle.graph.specs.Numbers.{edge_from};
ghost use Rattle.text.specs.Text.{
  decimal,
  whole,
  space,
  edge_line,
  counts_text,
  totals_text,
  header,
  tree_text,
  refused_text,
};
ghost use Rattle.text.specs.Put.{Wrote, Filled};

use plane::{Place, Weights};

// What the first line says: m, k, the totals of both trees, and the metal to lay.
#[derive(Clone, Copy)]
pub struct Header {
    pub pins: usize,
    pub macros: usize,
    pub terminal: i64,
    pub refined: i64,
    pub metal: i64,
}

// Pieces

// A buffer, and the byte at which the next piece begins.
#[derive(Drop)]
struct Page<'a> {
    out: &'a mut [u8],
    at: usize,
}

// The digit of a number below ten.
fn digit(n: u64) -> u8
    requires { n ≤ 9 }
    ensures { result ≡ 48 + n }
{
    b'0' + n as u8
}

// What metal between two places costs, as a number to print.
fn cost(w: Weights, a: Place, b: Place) -> i64
    ensures { result ≡ pos (cost w a b) }
{
    plane::cost(w, a, b) as i64
}

impl<'a> Page<'a> {
    fn byte(&mut self, b: u8)
        requires { self.old.at + 1 ≤ length self.old.out.now }
        ensures { Wrote self.old (b ∷ []) self.new }
    {
        self.out[self.at] = b;
        self.at += 1;
    }

    fn bytes(&mut self, bytes: &[u8])
        requires { self.old.at + length bytes.now ≤ length self.old.out.now }
        ensures { Wrote self.old bytes.now self.new }
    {
        let next = self.at + bytes.len();
        self.out[self.at..next].copy_from_slice(bytes);
        self.at = next;
    }

    // A natural number: the digits of its tenth, and then its last one.
    fn decimal(&mut self, n: u64)
        requires { self.old.at + length (decimal n) ≤ length self.old.out.now }
        ensures { Wrote self.old (decimal n) self.new }
    {
        if n < 10 {
            self.byte(digit(n));
        } else {
            self.decimal(n / 10);
            self.byte(digit(n % 10));
        }
    }

    // A whole number, with a minus sign where it is below zero.
    fn whole(&mut self, z: i64)
        requires { self.old.at + 20 ≤ length self.old.out.now }
        ensures wrote { Wrote self.old (whole z) self.new }
        ensures within { self.new.at ≤ self.old.at + 20 }
    {
        if z < 0 {
            self.byte(b'-');
        }
        self.decimal(z.unsigned_abs());
    }

    // Lines

    // A number and the byte behind it.
    fn number(&mut self, z: i64, behind: u8)
        requires { self.old.at + 21 ≤ length self.old.out.now }
        ensures wrote { Wrote self.old (whole z ++ (behind ∷ [])) self.new }
        ensures within { self.new.at ≤ self.old.at + 21 }
    {
        self.whole(z);
        self.byte(behind);
    }

    fn coordinate(&mut self, z: i32)
        requires { self.old.at + 21 ≤ length self.old.out.now }
        ensures wrote { Wrote self.old (whole z ++ (space ∷ [])) self.new }
        ensures within { self.new.at ≤ self.old.at + 21 }
    {
        self.number(i64::from(z), b' ');
    }

    fn place(&mut self, p: Place)
        requires { self.old.at + 42 ≤ length self.old.out.now }
        ensures wrote { Wrote self.old (whole p.x ++ (space ∷ []) ++ (whole p.y ++ (space ∷ []))) self.new }
        ensures within { self.new.at ≤ self.old.at + 42 }
    {
        self.coordinate(p.x);
        self.coordinate(p.y);
    }

    // The line of an edge: its places and its cost.
    fn edge(&mut self, w: Weights, a: Place, b: Place)
        requires { self.old.at + 105 ≤ length self.old.out.now }
        ensures wrote { Wrote self.old (edge_line w (a, b)) self.new }
        ensures within { self.new.at ≤ self.old.at + 105 }
    {
        self.place(a);
        self.place(b);
        self.number(cost(w, a, b), b'\n');
    }

    // The lines of the first `count` edges of a flat list.
    fn edges(&mut self, w: Weights, edges: &[i32], count: usize)
        requires { (self.old.at + count * 105 ≤ length self.old.out.now) × (count * 4 ≤ length edges.now) }
        ensures wrote { Wrote self.old (flat (edge_line w) (entries edge_from 4 edges.now count)) self.new }
        ensures within { self.new.at ≤ self.old.at + count * 105 }
    {
        for i in 0..count {
            let a = plane::place_at(edges, i * 2);
            let b = plane::place_at(edges, i * 2 + 1);
            self.edge(w, a, b);
        }
    }

    // The header

    // A word and a count.
    fn count(&mut self, word: &[u8], n: usize)
        requires { self.old.at + (length word.now + 20) ≤ length self.old.out.now }
        ensures wrote { Wrote self.old (word.now ++ decimal n) self.new }
        ensures within { self.new.at ≤ self.old.at + (length word.now + 20) }
    {
        self.bytes(word);
        self.decimal(n as u64);
    }

    // A word and a total.
    fn total(&mut self, word: &[u8], z: i64)
        requires { self.old.at + (length word.now + 20) ≤ length self.old.out.now }
        ensures wrote { Wrote self.old (word.now ++ whole z) self.new }
        ensures within { self.new.at ≤ self.old.at + (length word.now + 20) }
    {
        self.bytes(word);
        self.whole(z);
    }

    // The header's counts.
    fn counts(&mut self, m: usize, k: usize)
        requires { self.old.at + 53 ≤ length self.old.out.now }
        ensures wrote { Wrote self.old (counts_text m k) self.new }
        ensures within { self.new.at ≤ self.old.at + 53 }
    {
        self.count(b"pins ", m);
        self.count(b" macros ", k);
    }

    // Its totals and the metal, and the line's end.
    fn totals(&mut self, h: Header)
        requires { self.old.at + 87 ≤ length self.old.out.now }
        ensures wrote { Wrote self.old (totals_text h.terminal h.refined h.metal) self.new }
        ensures within { self.new.at ≤ self.old.at + 87 }
    {
        self.total(b" terminal ", h.terminal);
        self.total(b" refined ", h.refined);
        self.total(b" metal ", h.metal);
        self.byte(b'\n');
    }

    fn header(&mut self, h: Header)
        requires { self.old.at + 140 ≤ length self.old.out.now }
        ensures wrote { Wrote self.old (header h) self.new }
        ensures within { self.new.at ≤ self.old.at + 140 }
    {
        self.counts(h.pins, h.macros);
        self.totals(h);
    }

    // Texts

    // The header of a tree, and its edges.
    fn tree(&mut self, w: Weights, h: Header, edges: &[i32], count: usize)
        requires { (self.old.at + (140 + count * 105) ≤ length self.old.out.now) × (count * 4 ≤ length edges.now) }
        ensures wrote { Wrote self.old (tree_text w h (entries edge_from 4 edges.now count)) self.new }
        ensures within { self.new.at ≤ self.old.at + (140 + count * 105) }
    {
        self.header(h);
        self.edges(w, edges, count);
    }

    fn refused(&mut self, n: i32)
        requires { self.old.at + 29 ≤ length self.old.out.now }
        ensures wrote { Wrote self.old (refused_text n) self.new }
        ensures within { self.new.at ≤ self.old.at + 29 }
    {
        self.bytes(b"refused ");
        self.number(i64::from(n), b'\n');
    }
}

// The text of a tree: its header, and the first `count` edges of a flat list, by these weights; how many bytes it has.
pub fn tree(w: Weights, h: Header, edges: &[i32], count: usize, out: &mut [u8]) -> usize
    requires { (140 + count * 105 ≤ length out.old) × (count * 4 ≤ length edges.now) }
    ensures { Filled (tree_text w h (entries edge_from 4 edges.now count)) out.old out.new result }
{
    let mut page = Page { out, at: 0 };
    page.tree(w, h, edges, count);
    page.at
}

// The text of a refusal; how many bytes it has.
pub fn refused(n: i32, out: &mut [u8]) -> usize
    requires { 29 ≤ length out.old }
    ensures { Filled (refused_text n) out.old out.new result }
{
    let mut page = Page { out, at: 0 };
    page.refused(n);
    page.at
}
