// Bought lists of moves (document 02, request 9): the answers of checking one. specs/ has what a list must do, what checking answers, and
// what is proved of it.
#![tactic(auto)]

ghost use Rattle.std.specs.Prelude.{◌≡◌};
ghost use Rattle.schedule.specs.Check.{fault_number};

// Why a move of a list cannot be made: it is "missing, not allowed or out of range", step's 10, 11 and 12.
#[derive(Clone, Copy)]
pub enum Fault {
    Missing,
    NotAllowed,
    OutOfRange,
}

// "It answers yes with the end state, or the first index whose move is missing, not allowed or out of range, or "goal not met"." A yes has
// the length of the end state.
#[derive(Clone, Copy)]
pub enum CheckAnswer {
    Yes { length: u64 },
    Fails { index: u64, fault: Fault },
    GoalNotMet,
}

// The number that step refuses such a move with.
pub fn fault_number(f: Fault) -> u64
    ensures { result ≡ fault_number f }
{
    match f {
        Fault::Missing => 10,
        Fault::NotAllowed => 11,
        Fault::OutOfRange => 12,
    }
}
