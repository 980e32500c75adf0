// The answers of the engine's calls (document 01, "Where a call turns back"). A call answers Ok with the values that document 01 names
// (normalise, step, pddl and rewrite the length written; blocking the offset of the command that blocks, or None where nothing does), or Err
// with the refusal, its number and place. specs/Calls.antt says which answer is right.
#![tactic(auto)]

mod reason;

pub use reason::Reason;

// "A refusal is a number and a place."
#[derive(Clone, Copy)]
pub struct Refusal {
    pub number: u64,
    pub place: u64,
}

// "Read itself answers the head's kind and its three counts." The kind is the head's byte.
#[derive(Clone, Copy)]
pub struct Head {
    pub kind: u64,
    pub props: u64,
    pub vars: u64,
    pub moves: u64,
}

// "Decide answers layer or "no plan" with the reported layers".
#[derive(Clone, Copy)]
pub enum DecideAnswer {
    Plan { layer: u64, layers: u64 },
    NoPlan { layers: u64 },
}

// "plan adds the number of records and the first moves", since request 6 of document 02 the helpful ones: of "no plan" both are 0.
#[derive(Clone, Copy)]
pub enum PlanAnswer {
    Plan {
        layer: u64,
        layers: u64,
        records: u64,
        first_moves: u64,
    },
    NoPlan {
        layers: u64,
        records: u64,
        first_moves: u64,
    },
}
