// The children of a point.
ghost use Rattle.std.specs.Prelude.{◌≡◌, ◌<◌, ◌≤◌, slice_index, MatchOption};
ghost use Rattle.tree.specs.Table.{tree_bound};
ghost use Rattle.elmore.specs.Table.{other_end, child_at};

use tree::POINTS;

// The other end of the edge of a key at p, where p is an end of it.
#[tactic(auto, unfolding(crate::specs::Table::other_end))]
fn other_end(key: usize, p: usize) -> Option<usize>
    ensures { MatchOption result (tree_bound ≤ other_end key p) (λ c. (c ≡ other_end key p) × (c < tree_bound)) }
{
    let a = key / POINTS;
    let b = key % POINTS;
    if a == p {
        Some(b)
    } else if b == p && a < POINTS {
        Some(a)
    } else {
        None
    }
}

// The child that edge k leads to from p, whose parent is up.
#[tactic(auto, unfolding(crate::specs::Table::child_at))]
pub fn child_at(keys: &[usize; POINTS], k: usize, up: usize, p: usize) -> Option<usize>
    requires { k < tree_bound }
    ensures { MatchOption result (tree_bound ≤ child_at (slice_index keys.now k) up p)
        (λ c. (c ≡ child_at (slice_index keys.now k) up p) × (c < tree_bound)) }
{
    match other_end(keys[k], p) {
        Some(c) if c != up => Some(c),
        _ => None,
    }
}
