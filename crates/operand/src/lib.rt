// The operands of a command, and check 4 of document 01, "operand out of range".
#![tactic(auto)]

ghost use Rattle.std.specs.Prelude.{◌≡◌, ◌+◌, ◌<◌, ◌≤◌, length, get_or};
ghost use Rattle.model.specs.Limits.{paper, vars_in_range, weight_in_range, bound_in_range, base_in_range, comparison_in_range, kind_in_range};
ghost use Rattle.model.specs.Task.{written};
ghost use Rattle.model.specs.Command.{width, head, need_prop, term, close_condition, close_effect};
ghost use Rattle.command.specs.Names.{form_of, command_is};
ghost use Rattle.operand.specs.Ranges.{between, wrong_operand};

use command::{Command, Form};

// The byte at `at`.
pub fn byte(table: &[u8], at: usize) -> usize
    requires { at < length table.now }
    ensures { (result ≡ get_or table.now at 0) × (result < 256) }
{
    table[at] as usize
}

// Is `z` between the two, both included?
fn between(low: i64, z: i64, high: i64) -> bool
    ensures { result ≡ between low z high }
{
    low <= z && z <= high
}

// "V 0..16 variables"; "N even, 0..32"
fn vars_in_range(form: Form, n: usize) -> bool
    ensures { result ≡ vars_in_range paper (form_of form) n }
{
    match form {
        Form::Written => n <= 16,
        Form::Normal => n <= 32 && n % 2 == 0,
    }
}

// "Written: weights −1000..1000", 0 among them (02); "Normal: weights 1..1000"
fn weight_in_range(form: Form, weight: i64) -> bool
    ensures { result ≡ weight_in_range paper (form_of form) weight }
{
    match form {
        Form::Written => between(-1000, weight, 1000),
        Form::Normal => between(1, weight, 1000),
    }
}

// "constants −1,000,000..1,000,000"; of a normal table "condition constants −1,000,000..1,000,001"
fn bound_in_range(form: Form, bound: i64) -> bool
    ensures { result ≡ bound_in_range paper (form_of form) bound }
{
    match form {
        Form::Written => between(-1000000, bound, 1000000),
        Form::Normal => between(-1000000, bound, 1000001),
    }
}

// "effect constants as written"
fn base_in_range(base: i64) -> bool
    ensures { result ≡ base_in_range paper base }
{
    between(-1000000, base, 1000000)
}

// "o is 0 ≥, 1 >, 2 ≤, 3 <, 4 ="; "Normal: .. o only 0"
fn comparison_in_range(form: Form, n: usize) -> bool
    ensures { result ≡ comparison_in_range (form_of form) n }
{
    match form {
        Form::Written => n <= 4,
        Form::Normal => n == 0,
    }
}

// "k is 0 := , 1 += , 2 −="; "Normal: .. k only 0 or 1"
fn kind_in_range(form: Form, n: usize) -> bool
    ensures { result ≡ kind_in_range (form_of form) n }
{
    match form {
        Form::Written => n <= 2,
        Form::Normal => n <= 1,
    }
}

// Check 4, "operand out of range": how far behind the command the first such operand stands, 0 if there is none.

fn head_operand(table: &[u8], at: usize, form: Form) -> usize
    requires { at + width (head (form_of form)) ≤ length table.now }
    ensures { result ≡ wrong_operand table.now at (form_of form) 0 0 (head (form_of form)) }
{
    let props = byte(table, at + 1);
    if props > 120 {
        return 1;
    }
    let vars = byte(table, at + 2);
    if !vars_in_range(form, vars) {
        return 2;
    }
    let moves = byte(table, at + 3);
    if moves > 64 {
        return 3;
    }
    0
}

fn prop_operand(table: &[u8], at: usize, props: usize) -> usize
    requires { at + width need_prop ≤ length table.now }
    ensures { result ≡ wrong_operand table.now at written props 0 need_prop }
{
    let prop = byte(table, at + 1);
    if prop >= props {
        return 1;
    }
    0
}

fn term_operand(table: &[u8], at: usize, form: Form, vars: usize) -> usize
    requires { at + width term ≤ length table.now }
    ensures { result ≡ wrong_operand table.now at (form_of form) 0 vars term }
{
    let var = byte(table, at + 1);
    if var >= vars {
        return 1;
    }
    let weight = integer::i16_at(table, at + 2);
    if !weight_in_range(form, weight) {
        return 2;
    }
    0
}

fn condition_operand(table: &[u8], at: usize, form: Form) -> usize
    requires { at + width close_condition ≤ length table.now }
    ensures { result ≡ wrong_operand table.now at (form_of form) 0 0 close_condition }
{
    let comparison = byte(table, at + 1);
    if !comparison_in_range(form, comparison) {
        return 1;
    }
    let bound = integer::i32_at(table, at + 2);
    if !bound_in_range(form, bound) {
        return 2;
    }
    0
}

fn effect_operand(table: &[u8], at: usize, form: Form, vars: usize) -> usize
    requires { at + width close_effect ≤ length table.now }
    ensures { result ≡ wrong_operand table.now at (form_of form) 0 vars close_effect }
{
    let kind = byte(table, at + 1);
    if !kind_in_range(form, kind) {
        return 1;
    }
    let var = byte(table, at + 2);
    if var >= vars {
        return 2;
    }
    let base = integer::i32_at(table, at + 3);
    if !base_in_range(base) {
        return 3;
    }
    0
}

// Check 4 of any command.
pub fn wrong_operand(
    table: &[u8],
    command: Command,
    at: usize,
    form: Form,
    props: usize,
    vars: usize,
) -> usize
    requires { at + width (command_is command) ≤ length table.now }
    ensures { result ≡ wrong_operand table.now at (form_of form) props vars (command_is command) }
{
    match command {
        Command::Head(kind) => head_operand(table, at, kind),
        Command::NeedProp | Command::AddProp | Command::DeleteProp => {
            prop_operand(table, at, props)
        }
        Command::Term => term_operand(table, at, form, vars),
        Command::CloseCondition => condition_operand(table, at, form),
        Command::CloseEffect => effect_operand(table, at, form, vars),
        Command::OpenMove | Command::OpenGoal | Command::EndTable | Command::Unknown => 0,
    }
}
