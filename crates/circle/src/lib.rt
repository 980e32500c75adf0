// Check 7 of document 01, "the edges have no circle", by pruning: variables without a predecessor are taken away, round after round;
// what a circle leads to stays. `edges[u * 32 + v]` says that an edge leads from u to v.
#![tactic(auto)]

ghost use Rattle.std.specs.Prelude.{◌≡◌, true, ℕ, ◌<◌, ◌≤◌, length, replicate};
ghost use Rattle.model.specs.Lists.{any_below};
ghost use Rattle.circle.specs.Walks.{circular_in};
ghost use Rattle.circle.specs.Pruning.{live_predecessor, kept, alive_at};

// Is `u` alive, with an edge to `var`?
fn live_predecessor(edges: &[bool; 1024], alive: &[bool; 32], var: usize, u: usize) -> bool
    requires { (var < 32) × (u < 32) }
    ensures { result ≡ live_predecessor edges.now alive.now var u }
{
    edges[u * 32 + var] && alive[u]
}

// Is one of the `n` variables alive, with an edge to `var`?
fn has_live_predecessor(edges: &[bool; 1024], alive: &[bool; 32], var: usize, n: usize) -> bool
    requires { (var < 32) × (n ≤ 32) }
    ensures { result ≡ any_below (live_predecessor edges.now alive.now var) n }
{
    for u in 0..n {
        if live_predecessor(edges, alive, var, u) {
            return true;
        }
    }
    false
}

// The variables that stay alive: those that are, with a predecessor that is.
fn prune(edges: &[bool; 1024], alive: &[bool; 32], n: usize) -> [bool; 32]
    requires { n ≤ 32 }
    ensures { (length result ≡ 32) × ((v : ℕ) → v < n → alive_at result v ≡ kept edges.now alive.now n v) }
{
    let mut next = [true; 32];
    for var in 0..n {
        next[var] = alive[var] && has_live_predecessor(edges, alive, var, n);
    }
    next
}

// Is any of the `n` variables alive?
fn any_alive(alive: &[bool; 32], n: usize) -> bool
    requires { n ≤ 32 }
    ensures { result ≡ any_below (alive_at alive.now) n }
{
    alive[..n].iter().any(|a| *a)
}

// Check 7: "the edges have no circle".
pub fn circular(edges: &[bool; 1024], n: usize) -> bool
    requires { n ≤ 32 }
    ensures { result ≡ circular_in edges.now n }
{
    let mut alive = [true; 32];
    for round in 0..n {
        if !any_alive(&alive, n) {
            return false;
        }
        alive = prune(edges, &alive, n);
    }
    any_alive(&alive, n)
}
