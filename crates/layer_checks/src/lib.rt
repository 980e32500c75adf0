// The checks of a new layer in its arrays (document 01, "Layers" and refusal 15): is it equal to the last one, is a finite value above
// the limit.
#![tactic(auto)]

ghost use Rattle.std.specs.Prelude.{◌≡◌, ◌&&◌, ◌≤◌, length};
ghost use Rattle.model.specs.Lists.{all_below};
ghost use Rattle.layer_checks.specs.Comparing.{same_truth, not_above, within_limit, within_at};

use layer_memory::Layer;

// Are the propositions of two layers the same?
fn same_truths(has: &[bool], next: &[bool], props: usize) -> bool
    requires { (props ≤ length has.now) × (props ≤ length next.now) }
    ensures { result ≡ all_below (same_truth has.now next.now) props }
{
    for p in 0..props {
        if has[p] != next[p] {
            return false;
        }
    }
    true
}

// Is no value of the next layer above that of the last?
fn same_row(row: &[i64], next: &[i64], vars: usize) -> bool
    requires { (vars ≤ length row.now) × (vars ≤ length next.now) }
    ensures { result ≡ all_below (not_above row.now next.now) vars }
{
    for v in 0..vars {
        if next[v] > row[v] {
            return false;
        }
    }
    true
}

// "A next layer equal to layer t"
pub fn settled(layer: &Layer, next: &Layer, props: usize, vars: usize) -> bool
    requires { (props ≤ length layer.now.has) × (props ≤ length next.now.has) × (vars ≤ length layer.now.row) × (vars ≤ length next.now.row) }
    ensures { result ≡ (all_below (same_truth layer.now.has next.now.has) props && all_below (not_above layer.now.row next.now.row) vars) }
{
    same_truths(&layer.has, &next.has, props) && same_row(&layer.row, &next.row, vars)
}

fn within_limit(value: i64) -> bool
    ensures { result ≡ within_limit value }
{
    block::is_unbounded(value) || value <= 1000000000000
}

// "15 | a finite value above 1,000,000,000,000": is there none?
pub fn all_within(row: &[i64], vars: usize) -> bool
    requires { vars ≤ length row.now }
    ensures { result ≡ all_below (within_at row.now) vars }
{
    for v in 0..vars {
        if !within_limit(row[v]) {
            return false;
        }
    }
    true
}
