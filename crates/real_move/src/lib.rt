// One real move (document 01, "Moves") on a state that is held twice: conditions and sums read one, the effects change the other.
#![tactic(auto)]

ghost use Rattle.std.specs.Prelude.{◌≡◌, false, ◌<◌, ◌≤◌, ℕ, length, get_or, nat_abs};
ghost use Rattle.model.specs.Seen.{kind_of};
ghost use Rattle.model.specs.Move.{changed};
ghost use Rattle.model.specs.Limits.{largest_value};
ghost use Rattle.real_move.specs.Walking.{Takable, Taken};
ghost use Rattle.real_move.specs.Moving.{Triable, Tried, KeptValues, Movable, Moved};

use block::Terms;
use schedule::Fault;

// A state in arrays, the first of them in use: the truth of each proposition, the value of each variable.
#[derive(Clone, Copy)]
pub struct RealState {
    pub has: [bool; 120],
    pub values: [i64; 16],
}

// "k is 0 := , 1 += , 2 −="
fn changed(kind: u8, old: i64, z: i64) -> i64
    requires { (nat_abs old ≤ largest_value) × (nat_abs z ≤ 8000000001000000) }
    ensures { result ≡ changed (kind_of kind) old z }
{
    match kind {
        0 => z,
        1 => old + z,
        _ => old - z,
    }
}

// Takes in the command behind these terms, which add up to `total`: a proposition is added or deleted, or an effect gives its variable
// a new value. "all effects read the state before it" Returns the offset behind it.
fn take_in(terms: &Terms, total: i64, values: &[i64], next: &mut RealState) -> usize
    requires { Takable terms.now.part.now terms.now.from terms.now.count total values.now next.old.has next.old.values }
    ensures { Taken terms.now.part.now terms.now.from terms.now.count total values.now next.old.has next.old.values next.new.has next.new.values result }
{
    let part = terms.part;
    let at = terms.from + 4 * terms.count;
    match part[at] {
        0x2B => {
            next.has[part[at + 1] as usize] = true;
            at + 2
        }
        0x2D => {
            next.has[part[at + 1] as usize] = false;
            at + 2
        }
        0x46 => {
            let var = part[at + 2] as usize;
            let z = total + integer::i32_at(part, at + 3);
            next.values[var] = changed(part[at + 1], values[var], z);
            at + 7
        }
        0x43 => at + 6,
        _ => at + 2,
    }
}

// Takes the commands of a move's part in, one after the other, on `next`; conditions and sums read the state before it. False where a
// condition fails; then nothing is said of `next`.
fn run(part: &[u8], state: &RealState, next: &mut RealState) -> bool
    requires { Triable part.now state.now.has state.now.values next.old.has next.old.values }
    ensures { Tried part.now state.now.has state.now.values next.old.has next.old.values next.new.has next.new.values result }
{
    let mut from = 1;
    while from < part.len() {
        let sum = block::sum_at(part, from, &state.values);
        let terms = Terms {
            part,
            from,
            count: sum.terms,
        };
        if block::fails(&terms, sum.total, &state.has) {
            return false;
        }
        from = take_in(&terms, sum.total, &state.values, next);
    }
    true
}

// Takes the new values over. False at the first that is not within ±1,000,000; then nothing is said of `values`.
fn keep_values(values: &mut [i64], next: &[i64], vars: usize) -> bool
    requires { (vars ≤ length values.old) × (vars ≤ length next.now) }
    ensures { KeptValues values.new next.now vars result }
{
    for v in 0..vars {
        let x = next[v];
        if !state::in_range(x) {
            return false;
        }
        values[v] = x;
    }
    true
}

// Takes the new truths over.
fn keep_truths(had: &mut [bool], has: &[bool], props: usize)
    requires { (props ≤ length had.old) × (props ≤ length has.now) }
    ensures { (p : ℕ) → p < props → get_or had.new p false ≡ get_or has.now p false }
{
    for p in 0..props {
        had[p] = has[p];
    }
}

// Makes the move of a part on a state that `next` holds too: "A real move needs its conditions true". Where it fails, nothing is said of
// the two.
pub fn make(
    part: &[u8],
    props: usize,
    vars: usize,
    state: &mut RealState,
    next: &mut RealState,
) -> Result<(), Fault>
    requires { Movable part.now props vars state.old.has state.old.values next.old.has next.old.values }
    ensures { Moved part.now props vars state.old.has state.old.values next.old.has next.old.values state.new.has state.new.values next.new.has next.new.values result }
{
    if !run(part, state, next) {
        return Err(Fault::NotAllowed);
    }
    if !keep_values(&mut state.values, &next.values, vars) {
        return Err(Fault::OutOfRange);
    }
    keep_truths(&mut state.has, &next.has, props);
    Ok(())
}
