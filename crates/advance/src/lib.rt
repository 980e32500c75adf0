// Past a command that passed its checks: the cursor behind it, and what it names, draws and marks.
#![tactic(auto)]

ghost use Rattle.std.specs.Prelude.{◌≡◌, ℕ, ◌+◌, ◌*◌, ◌^◌, ◌<◌, ◌≤◌, length, get_or};
ghost use Rattle.command.specs.Names.{command_is};
ghost use Rattle.cursor.specs.State.{Valid, Passed, head_cursor, mark_cursor, term_cursor, item_cursor};
ghost use Rattle.advance.specs.Edges.{draw_term, draw_kind};
ghost use Rattle.advance.specs.Steps.{Advanced};

use command::{Command, Form, Place};
use cursor::{Cursor, Named};

// The cursor behind the head.
fn with_head(c: Cursor, form: Form, props: usize, vars: usize, moves: usize) -> Cursor
    requires { c.at + 4 < 2 ^ 64 }
    ensures { result ≡ head_cursor c form props vars moves }
{
    Cursor {
        at: c.at + 4,
        place: Place::Preamble,
        form,
        props,
        vars,
        moves,
        stamp: c.stamp,
        ..cursor::beginning()
    }
}

// The cursor behind 41, 47 or 45.
fn with_mark(c: Cursor, place: Place, opened: usize, stamp: u64) -> Cursor
    requires { (c.at + 1 < 2 ^ 64) × (c.marked + 1 < 2 ^ 64) }
    ensures { result ≡ mark_cursor c place opened stamp }
{
    Cursor {
        at: c.at + 1,
        place,
        active: false,
        opened,
        terms: 0,
        next: 0,
        marked: c.marked + 1,
        stamp,
        ..c
    }
}

// The cursor behind a term.
fn with_term(c: Cursor, var: usize) -> Cursor
    requires { (c.at + 4 < 2 ^ 64) × (c.terms + 1 < 2 ^ 64) × (var + 1 < 2 ^ 64) }
    ensures { result ≡ term_cursor c var }
{
    Cursor {
        at: c.at + 4,
        terms: c.terms + 1,
        next: var + 1,
        ..c
    }
}

// The cursor behind an item of `width` bytes. `active`: does the block change something, with this item?
fn with_item(c: Cursor, width: usize, active: bool) -> Cursor
    requires { c.at + width < 2 ^ 64 }
    ensures { result ≡ item_cursor c width active }
{
    Cursor {
        at: c.at + width,
        active,
        terms: 0,
        next: 0,
        ..c
    }
}

// The edge of the term at `at`, to `var`; of weight 0, "It makes no := edge".
fn draw_term(table: &[u8], at: usize, var: usize, edges: &mut [bool; 1024])
    requires { (at + 4 ≤ length table.now) × (var < 32) × (get_or table.now (at + 1) 0 < 32) }
    ensures { edges.new ≡ draw_term table.now at var edges.old }
{
    if integer::i16_at(table, at + 2) == 0 {
        return;
    }
    let source = operand::byte(table, at + 1);
    edges[source * 32 + var] = true;
}

// "Draw an edge from u to v if u is in the sum of a := effect on v": the sum's `n` terms stand from `from` on.
fn draw(table: &[u8], from: usize, var: usize, n: usize, kind: usize, edges: &mut [bool; 1024])
    requires { (from + 4 * n ≤ length table.now) × (var < 32) × ((i : ℕ) → i < n → get_or table.now (from + 4 * i + 1) 0 < 32) }
    ensures { edges.new ≡ draw_kind kind table.now from var n edges.old }
{
    if kind > 0 {
        return;
    }
    for i in 0..n {
        draw_term(table, from + 4 * i, var, edges);
    }
}

// Past a command that passed its checks.
pub fn advance(
    table: &[u8],
    c: Cursor,
    command: Command,
    named: &mut Named,
    edges: &mut [bool; 1024],
    marks: &mut [usize; 66],
) -> Cursor
    requires { (Valid table.now c) × (Passed table.now c named.old.needed named.old.changed named.old.affected (command_is command)) }
    ensures { Advanced table.now c (command_is command) named.old.needed named.old.changed named.old.affected edges.old marks.old result named.new.needed named.new.changed named.new.affected edges.new marks.new }
{
    let at = c.at;
    match command {
        Command::Head(form) => {
            let props = operand::byte(table, at + 1);
            let vars = operand::byte(table, at + 2);
            let moves = operand::byte(table, at + 3);
            with_head(c, form, props, vars, moves)
        }
        Command::OpenMove => {
            marks[c.marked] = at;
            with_mark(c, Place::InMove, c.opened + 1, c.stamp + 1)
        }
        Command::OpenGoal => {
            marks[c.marked] = at;
            with_mark(c, Place::InGoal, c.opened, c.stamp + 1)
        }
        Command::EndTable => {
            marks[c.marked] = at;
            with_mark(c, Place::Finished, c.opened, c.stamp)
        }
        Command::NeedProp => {
            let prop = operand::byte(table, at + 1);
            named.needed[prop] = c.stamp;
            with_item(c, 2, c.active)
        }
        Command::AddProp | Command::DeleteProp => {
            let prop = operand::byte(table, at + 1);
            named.changed[prop] = c.stamp;
            with_item(c, 2, true)
        }
        Command::Term => with_term(c, operand::byte(table, at + 1)),
        Command::CloseCondition => with_item(c, 6, c.active),
        Command::CloseEffect => {
            let kind = operand::byte(table, at + 1);
            let var = operand::byte(table, at + 2);
            draw(table, at - 4 * c.terms, var, c.terms, kind, edges);
            named.affected[var] = c.stamp;
            with_item(c, 7, true)
        }
        Command::Unknown => c,
    }
}
