// Where the reading of a table stands, and the checks of the command there: "each command, in this order".
#![tactic(auto)]

ghost use Rattle.std.specs.Prelude.{◌≡◌, ◌+◌, ◌<◌, ◌≤◌, eqb, length, get_or};
ghost use Rattle.model.specs.Command.{width};
ghost use Rattle.command.specs.Names.{command_is, wanted_of};
ghost use Rattle.cursor.specs.State.{Valid, start_cursor, wrong_at, repeated, cursor_refusal, check_of};

use command::{Command, Form, Place, Wanted};
use model::{Reason, Refusal};

// Where the reading stands: the offset of the next command and its place, the head and whether the open move changes something, how
// many moves have been opened, how many terms are open and the least variable that the next one may have, how many blocks and ends
// have been marked. `stamp` is the number of the open block, from 1 on.
#[derive(Clone, Copy)]
pub struct Cursor {
    pub at: usize,
    pub place: Place,
    pub form: Form,
    pub active: bool,
    pub props: usize,
    pub vars: usize,
    pub moves: usize,
    pub opened: usize,
    pub terms: usize,
    pub next: usize,
    pub marked: usize,
    pub stamp: u64,
}

// What the blocks have named: by proposition, the number of the block that needed it last and of the block that changed it last; by
// variable, of the block that affected it last. 0 where no block has.
#[derive(Clone, Copy)]
pub struct Named {
    pub needed: [u64; 120],
    pub changed: [u64; 120],
    pub affected: [u64; 32],
}

// Was the proposition that stands at an offset named last by the block of this number?
fn is_named(table: &[u8], at: usize, by: &[u64; 120], stamp: u64) -> bool
    requires { (at < length table.now) × (get_or table.now at 0 < 120) }
    ensures { result ≡ eqb (get_or by.now (get_or table.now at 0) 0) stamp }
{
    let prop = operand::byte(table, at);
    by[prop] == stamp
}

// Check 5: "named again, not rising, ninth term".
fn named_again(table: &[u8], c: Cursor, command: Command, named: &Named) -> bool
    requires { (Valid table.now c) × (c.at + width (command_is command) ≤ length table.now) × (wrong_at table.now c (command_is command) ≡ 0) }
    ensures { result ≡ repeated table.now c named.now.needed named.now.changed named.now.affected (command_is command) }
{
    match command {
        Command::NeedProp => is_named(table, c.at + 1, &named.needed, c.stamp),
        Command::AddProp | Command::DeleteProp => is_named(
            table,
            c.at + 1,
            &named.changed,
            c.stamp,
        ),
        Command::Term => operand::byte(table, c.at + 1) < c.next || 8 <= c.terms,
        Command::CloseEffect => {
            let var = operand::byte(table, c.at + 2);
            named.affected[var] == c.stamp
        }
        _ => false,
    }
}

// All checks of the command at the cursor: "each command, in this order", 3, 2, 6, 4, 5, with 16 "checked after 6".
pub fn checked(
    table: &[u8],
    c: Cursor,
    command: Command,
    wanted: Wanted,
    named: &Named,
) -> Result<(), Refusal>
    requires { Valid table.now c }
    ensures { result ≡ check_of (cursor_refusal (wanted_of wanted) table.now c named.now.needed named.now.changed named.now.affected (command_is command)) }
{
    let at = c.at;
    if command::misplaced(c.place, c.terms, wanted, command) {
        return Err(Reason::Misplaced.at(at));
    }
    if table.len() - at < command::width(command) {
        return Err(Reason::CutShort.at(at));
    }
    if command::miscounted(command, c.moves, c.opened) {
        return Err(Reason::Miscounted.at(at));
    }
    if command::closes_idle(c.place, c.active, wanted, command) {
        return Err(Reason::Idle.at(at));
    }
    let wrong = operand::wrong_operand(table, command, at, c.form, c.props, c.vars);
    if wrong > 0 {
        return Err(Reason::OperandOutOfRange.at(at + wrong));
    }
    if named_again(table, c, command, named) {
        return Err(Reason::NamedAgain.at(at));
    }
    Ok(())
}

// The cursor before the first command.
pub fn beginning() -> Cursor
    ensures { result ≡ start_cursor }
{
    Cursor {
        at: 0,
        place: Place::Start,
        form: Form::Written,
        active: false,
        props: 0,
        vars: 0,
        moves: 0,
        opened: 0,
        terms: 0,
        next: 0,
        marked: 0,
        stamp: 1,
    }
}
