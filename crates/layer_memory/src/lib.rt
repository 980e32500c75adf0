// Writing layer memory (document 01, "Layers", its second paragraph): the entries of propositions and moves, and rows of values.
#![tactic(auto)]

ghost use Rattle.std.specs.Prelude.{◌≡◌, ◌+◌, ◌^◌, ◌<◌, ◌≤◌, pos, length};
ghost use Rattle.model.specs.Theorems.Layers.Entries.{noted};
ghost use Rattle.layer_memory.specs.Filling.{Filled, cleared, noted_at, row_at};
ghost use Rattle.layer_memory.specs.Storing.{NotesMoves};

// A layer in arrays, the first of them in use: the truth of each proposition, the value of each variable.
#[derive(Clone, Copy)]
pub struct Layer {
    pub has: [bool; 120],
    pub row: [i64; 32],
}

// "never is −1": no entry is filled.
pub fn clear(entries: &mut [i64], n: usize)
    requires { n ≤ length entries.old }
    ensures { Filled (pos 0) cleared n entries.old entries.new }
{
    entries[..n].fill(-1);
}

// An entry once layer `t` is made: filled if it was not yet and the layer has what it stands for.
fn noted(entry: i64, has: bool, t: u64) -> i64
    requires { t < 2 ^ 63 }
    ensures { result ≡ noted entry has t }
{
    if has && entry < 0 { t as i64 } else { entry }
}

// The entries once layer `t` is made.
pub fn note(entries: &mut [i64], marked: &[bool], n: usize, t: u64)
    requires { (n ≤ length entries.old) × (n ≤ length marked.now) × (t < 2 ^ 63) }
    ensures { Filled (pos 0) (noted_at entries.old marked.now t) n entries.old entries.new }
{
    for i in 0..n {
        entries[i] = noted(entries[i], marked[i], t);
    }
}

// The values of a layer, from one row into another.
pub fn copy_row(row: &[i64], into: &mut [i64], vars: usize)
    requires { (vars ≤ length row.now) × (vars ≤ length into.old) }
    ensures { Filled (pos 0) (row_at row.now) vars into.old into.new }
{
    into[..vars].copy_from_slice(&row[..vars]);
}

// The entries of the moves that the step from layer `t` used.
pub fn note_moves(layers: &mut [i64], used: &[bool], props: usize, moves: usize, t: u64)
    requires { (props + moves ≤ length layers.old) × (moves ≤ length used.now) × (t < 2 ^ 63) }
    ensures { NotesMoves props moves t used.now layers.old layers.new }
{
    note(&mut layers[props..], used, moves, t);
}
