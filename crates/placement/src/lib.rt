// Closure days (document 02, request 8): the answer of placing a list. specs/ has what a placement is, which one is asked for, and what is
// proved of it.
#![tactic(auto)]

// "written is each entry's start, and the answer is the end minute": with the length of the starts.
#[derive(Clone, Copy)]
pub struct Placed {
    pub end: u64,
    pub length: u64,
}
