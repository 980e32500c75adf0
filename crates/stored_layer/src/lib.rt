// A stored layer read back: its propositions and usable moves from the entries, its values, and the low values beside the state's.
#![tactic(auto)]

ghost use Rattle.std.specs.Prelude.{◌≡◌, ◌+◌, ◌^◌, ◌<◌, ◌≤◌, length, false, pos};
ghost use Rattle.stored_layer.specs.View.{Filled, held_by, held_at, number_at, low_by, low_at};

// Does the entry say that layer `t` has what it stands for?
pub fn held(entry: i64, t: usize) -> bool
    requires { t < 2 ^ 63 }
    ensures { result ≡ held_by entry t }
{
    0 <= entry && entry <= t as i64
}

// Of the `n` entries from `from` on, which layer `t` has.
pub fn read_entries(layers: &[i64], from: usize, n: usize, t: usize, flags: &mut [bool; 120])
    requires { (from + n ≤ length layers.now) × (n ≤ 120) × (t < 2 ^ 63) × (length flags.old ≡ 120) }
    ensures { Filled false (held_at layers.now from t) n 120 flags.new }
{
    for i in 0..n {
        flags[i] = held(layers[from + i], t);
    }
}

// The `n` numbers from `from` on.
pub fn read_row(layers: &[i64], from: usize, n: usize, row: &mut [i64; 32])
    requires { (from + n ≤ length layers.now) × (n ≤ 32) × (length row.old ≡ 32) }
    ensures { Filled (pos 0) (number_at layers.now from) n 32 row.new }
{
    row[..n].copy_from_slice(&layers[from..from + n]);
}

fn low(value: i64, old: i64) -> i64
    ensures { result ≡ low_by value old }
{
    if block::is_unbounded(value) {
        old
    } else {
        value
    }
}

// "layer values for finite and state values for other unbounded ones".
pub fn low_row(row: &[i64], start: &[i64], n: usize, lows: &mut [i64; 32])
    requires { (n ≤ length row.now) × (n ≤ length start.now) × (n ≤ 32) × (length lows.old ≡ 32) }
    ensures { Filled (pos 0) (low_at row.now start.now) n 32 lows.new }
{
    for v in 0..n {
        lows[v] = low(row[v], start[v]);
    }
}
