// The bytes of a state (document 01, "Campaign table"): their check, the truths and values that they stand for, and their
// writing.
#![tactic(auto)]

ghost use Rattle.std.specs.Prelude.{◌≡◌, [], ◌+◌, ◌*◌, ◌<◌, ◌≤◌, length};
ghost use Rattle.std.proofs.Math.Option.{none};
ghost use Rattle.integer.specs.Store.{put};
ghost use Rattle.model.specs.Limits.{paper};
ghost use Rattle.model.specs.Lists.{tabulate};
ghost use Rattle.model.specs.Memory.{overwrite};
ghost use Rattle.model.specs.NormalForm.{normal_state};
ghost use Rattle.model.specs.StateTable.{state_of, state_value, state_refusal, state_bytes, values_bytes, value_in_range};
ghost use Rattle.state.specs.Checking.{check_of, truths_refusal, values_refusal};
ghost use Rattle.state.specs.Storing.{Storable, state_in, truth_bytes};

use model::{Reason, Refusal};

// "within ±1,000,000"
pub fn in_range(v: i64) -> bool
    ensures { result ≡ value_in_range paper v }
{
    -1000000 <= v && v <= 1000000
}

// The first truth byte that is neither 0 nor 1.
fn check_truths(state: &[u8], props: usize) -> Result<(), Refusal>
    requires { props ≤ length state.now }
    ensures { check_of result ≡ truths_refusal props state.now none }
{
    for p in 0..props {
        if state[p] > 1 {
            return Err(Reason::StateOutOfRange.at(p));
        }
    }
    Ok(())
}

// The first value out of range.
fn check_values(state: &[u8], props: usize, vars: usize) -> Result<(), Refusal>
    requires { props + 4 * vars ≤ length state.now }
    ensures { check_of result ≡ values_refusal props vars state.now }
{
    for v in 0..vars {
        let at = props + 4 * v;
        if !in_range(integer::i32_at(state, at)) {
            return Err(Reason::StateOutOfRange.at(at));
        }
    }
    Ok(())
}

// "state | 8 | wrong length", then "9 | byte or value out of range".
pub fn check(state: &[u8], props: usize, vars: usize) -> Result<(), Refusal>
    requires { (props ≤ 120) × (vars ≤ 16) }
    ensures { check_of result ≡ state_refusal paper props vars state.now }
{
    if state.len() != props + 4 * vars {
        return Err(Reason::StateLength.at(0));
    }
    check_truths(state, props)?;
    check_values(state, props, vars)
}

// The truths of the state.
pub fn load_truths(state: &[u8], props: usize, has: &mut [bool])
    requires { (props ≤ length state.now) × (props ≤ length has.old) }
    ensures { has.new ≡ overwrite (tabulate (state_of props state.now).has 0 props) has.old }
{
    for p in 0..props {
        has[p] = state[p] == 1;
    }
}

// The values of the written variables.
pub fn load_values(state: &[u8], props: usize, vars: usize, values: &mut [i64])
    requires { (props + 4 * vars ≤ length state.now) × (vars ≤ length values.old) }
    ensures { values.new ≡ overwrite (tabulate (state_value props state.now) 0 vars) values.old }
{
    for v in 0..vars {
        values[v] = integer::i32_at(state, props + 4 * v);
    }
}

// The values of the signed variables: "Signed variable 2i is v_i and 2i+1 is −v_i."
pub fn load_signed(state: &[u8], props: usize, vars: usize, values: &mut [i64])
    requires { (props + 4 * vars ≤ length state.now) × (2 * vars ≤ length values.old) }
    ensures { values.new ≡ overwrite (tabulate (normal_state (state_of props state.now)).val 0 (2 * vars)) values.old }
{
    for v in 0..vars {
        let x = integer::i32_at(state, props + 4 * v);
        values[2 * v] = x;
        values[2 * v + 1] = -x;
    }
}

// Stores the truth bytes.
fn store_truths(out: &mut [u8], has: &[bool], props: usize)
    requires { (props ≤ length out.old) × (props ≤ length has.now) }
    ensures { out.new ≡ overwrite (truth_bytes props (state_in has.now [])) out.old }
{
    for p in 0..props {
        out[p] = has[p] as u8;
    }
}

// Stores the values behind the truth bytes.
fn store_values(out: &mut [u8], values: &[i64], props: usize, vars: usize)
    requires { Storable props vars out.old values.now }
    ensures { out.new ≡ put out.old props (values_bytes (tabulate (state_in [] values.now).val 0 vars)) }
{
    for v in 0..vars {
        integer::put_i32(out, props + 4 * v, values[v]);
    }
}

// Stores the bytes of the state whose truths and values the two arrays hold.
pub fn store(out: &mut [u8], has: &[bool], values: &[i64], props: usize, vars: usize)
    requires { (props ≤ length has.now) × Storable props vars out.old values.now }
    ensures { out.new ≡ overwrite (state_bytes props vars (state_in has.now values.now)) out.old }
{
    store_truths(out, has, props);
    store_values(out, values, props, vars);
}
