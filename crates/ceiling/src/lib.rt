// What a board takes (document 02, request 7): a ceiling on tables and on layer memory. specs/ has the calls under a ceiling and what is proved
// of them.
#![tactic(auto)]

ghost use Rattle.std.specs.Prelude.{◌≡◌};
ghost use Rattle.ceiling.specs.Ceiling.{rig};
ghost use Rattle.ceiling.specs.Heads.{ceiling_of, IsBeyond};
ghost use Rattle.ceiling.specs.Numbers.{fewer};

// The moves and the written variables that a table may have, and the numbers of layer memory that are used.
#[derive(Clone, Copy)]
pub struct Ceiling {
    pub moves: u8,
    pub vars: u8,
    pub numbers: usize,
}

// "The rig's board takes at most 16 moves, 8 written variables and 2,048 numbers of layer memory."
pub fn board() -> Ceiling
    ensures { ceiling_of result ≡ rig }
{
    Ceiling {
        moves: 16,
        vars: 8,
        numbers: 2048,
    }
}

// Is the head in the first four bytes beyond the ceiling? A normal table has two variables for each written one.
pub fn beyond(c: Ceiling, table: &[u8]) -> bool
    ensures { IsBeyond c table.now result }
{
    if table.len() < 4 {
        return false;
    }
    if c.moves < table[3] {
        return true;
    }
    let vars = table[2] as usize;
    let most = c.vars as usize;
    if table[0] == 0x54 {
        return most < vars;
    }
    2 * most < vars
}

// How many numbers of a layer memory are used.
pub fn used(c: Ceiling, numbers: usize) -> usize
    ensures { result ≡ fewer numbers c.numbers }
{
    if numbers < c.numbers {
        return numbers;
    }
    c.numbers
}
