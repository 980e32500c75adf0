// Reading a table: every check of document 01, "Where a call turns back", and 16 of document 02, in one pass over the bytes.
#![tactic(auto)]

ghost use Rattle.std.specs.Prelude.{◌≡◌, ◌≤◌};
ghost use Rattle.model.specs.Limits.{paper};
ghost use Rattle.model.specs.Reading.{both, length_limit, reading};
ghost use Rattle.model.specs.Calls.{read_answer};
ghost use Rattle.table.specs.Names.{wanted_of};
ghost use Rattle.table.specs.Answer.{end_answer, Outlined};

use command::Place;
pub use command::Wanted;
use cursor::{Cursor, Named};
use model::{Head, Reason, Refusal};

// "read and the reader allow 32,000 if the first byte is 54 and 64,000 otherwise"
fn read_limit(table: &[u8]) -> usize
    ensures { result ≡ length_limit paper both table.now }
{
    if table.len() > 0 && table[0] == 0x54 {
        32000
    } else {
        64000
    }
}

// "other calls the limit of the head they want"; the rewriter has read's.
fn length_limit(table: &[u8], wanted: Wanted) -> usize
    ensures { result ≡ length_limit paper (wanted_of wanted) table.now }
{
    match wanted {
        Wanted::Written => 32000,
        Wanted::Normal => 64000,
        Wanted::Both | Wanted::Stored => read_limit(table),
    }
}

// The answer where no command is left.
fn finish(length: usize, c: Cursor, edges: &[bool; 1024]) -> Result<Head, Refusal>
    requires { c.vars ≤ 32 }
    ensures { result ≡ end_answer length c.place c edges.now }
{
    if c.place != Place::Finished {
        return Err(Reason::CutShort.at(length));
    }
    if circle::circular(edges, c.vars) {
        return Err(Reason::Circle.at(0));
    }
    Ok(Head {
        kind: command::kind_code(c.form),
        props: c.props as u64,
        vars: c.vars as u64,
        moves: c.moves as u64,
    })
}

// Reads a table for a call that wants these heads. If the table is accepted, `marks` holds the offset of each block's 41 or 47
// and, behind them, of 45; after a refusal nothing is said of `marks`.
pub fn outline(table: &[u8], wanted: Wanted, marks: &mut [usize; 66]) -> Result<Head, Refusal>
    ensures { Outlined table.now (reading paper (wanted_of wanted) table.now) result marks.new }
{
    if length_limit(table, wanted) < table.len() {
        return Err(Reason::TableTooLong.at(0));
    }
    let mut named = Named {
        needed: [0; 120],
        changed: [0; 120],
        affected: [0; 32],
    };
    let mut edges = [false; 1024];
    *marks = [0; 66];
    let mut c = cursor::beginning();
    while c.at < table.len() {
        let command = command::command_of(table[c.at]);
        cursor::checked(table, c, command, wanted, &named)?;
        c = advance::advance(table, c, command, &mut named, &mut edges, marks);
    }
    finish(table.len(), c, &edges)
}

// "Read itself answers the head's kind and its three counts."
pub fn read(table: &[u8]) -> Result<Head, Refusal>
    ensures { result ≡ read_answer paper table.now }
{
    let mut marks = [0; 66];
    outline(table, Wanted::Both, &mut marks)
}
