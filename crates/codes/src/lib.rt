// The answers as one 64-bit number each, for hosts (crates/model/specs/Exports.antt; those of closure days and of the checker in
// crates/placement/specs/Exports.antt and crates/schedule/specs/Exports.antt).
#![tactic(auto)]

ghost use Rattle.std.specs.Prelude.{◌≡◌, ◌<◌, ◌≤◌};
ghost use Rattle.model.specs.Exports.{refusal_code, read_code, write_code, decide_code, plan_code, plan_record_count, plan_first_moves, blocking_code};
ghost use Rattle.model.specs.Theorems.Sizes.Answers.{place_limit, result_limit, ReadSmall, WriteSmall, DecideSmall, PlanSmall, BlockingSmall};
ghost use Rattle.model.specs.Limits.{last_number};
ghost use Rattle.placement.specs.Exports.{place_code, place_length, place_place};
ghost use Rattle.placement.specs.Theorems.Codes.{PlaceSmall};
ghost use Rattle.schedule.specs.Exports.{check_code, check_index};
ghost use Rattle.schedule.specs.Theorems.Codes.{CheckSmall};
ghost use Rattle.codes.specs.Parts.{part_code};

use model::{DecideAnswer, Head, PlanAnswer, Refusal};
use placement::Placed;
use schedule::CheckAnswer;

// Bits 32 to 63 the refusal's number, bits 0 to 31 its place.
fn refusal_code(r: Refusal) -> u64
    requires { (r.number ≤ last_number) × (r.place ≤ place_limit) }
    ensures { result ≡ refusal_code r }
{
    r.number * 4294967296 + r.place
}

pub fn read_code(a: Result<Head, Refusal>) -> u64
    requires { ReadSmall a }
    ensures { result ≡ read_code a }
{
    match a {
        Ok(h) => h.kind * 16777216 + h.props * 65536 + h.vars * 256 + h.moves,
        Err(r) => refusal_code(r),
    }
}

pub fn write_code(a: Result<u64, Refusal>) -> u64
    requires { WriteSmall result_limit a }
    ensures { result ≡ write_code a }
{
    match a {
        Ok(n) => n,
        Err(r) => refusal_code(r),
    }
}

pub fn decide_code(a: Result<DecideAnswer, Refusal>) -> u64
    requires { DecideSmall a }
    ensures { result ≡ decide_code a }
{
    match a {
        Ok(DecideAnswer::Plan { layers, .. }) => layers,
        Ok(DecideAnswer::NoPlan { layers }) => 2147483648 + layers,
        Err(r) => refusal_code(r),
    }
}

pub fn plan_code(a: Result<PlanAnswer, Refusal>, records: &mut u64, first: &mut u64) -> u64
    requires { PlanSmall a }
    ensures { (result ≡ plan_code a) × (records.new ≡ plan_record_count a records.old)
        × (first.new ≡ plan_first_moves a first.old) }
{
    match a {
        Ok(
            PlanAnswer::Plan {
                layers,
                records: n,
                first_moves: set,
                ..
            },
        ) => {
            *records = n;
            *first = set;
            layers
        }
        Ok(
            PlanAnswer::NoPlan {
                layers,
                records: n,
                first_moves: set,
            },
        ) => {
            *records = n;
            *first = set;
            2147483648 + layers
        }
        Err(refusal) => refusal_code(refusal),
    }
}

pub fn blocking_code(a: Result<Option<u64>, Refusal>) -> u64
    requires { BlockingSmall a }
    ensures { result ≡ blocking_code a }
{
    match a {
        Ok(Some(offset)) => offset,
        Ok(None) => 0,
        Err(r) => refusal_code(r),
    }
}

// The length is written in an answer only, and the place in a refusal only.
pub fn place_code(a: Result<Placed, Refusal>, length: &mut u64, place: &mut u64) -> u64
    requires { PlaceSmall a }
    ensures { (result ≡ place_code a) × (length.new ≡ place_length a length.old)
        × (place.new ≡ place_place a place.old) }
{
    match a {
        Ok(Placed { end, length: n }) => {
            *length = n;
            end
        }
        Err(r) => {
            *place = r.place;
            refusal_code(Refusal {
                number: r.number,
                place: 0,
            })
        }
    }
}

// Bit 31 tells an answer that is no yes; the index is written with a fault only.
pub fn check_code(a: Result<CheckAnswer, Refusal>, index: &mut u64) -> u64
    requires { CheckSmall a }
    ensures { (result ≡ check_code a) × (index.new ≡ check_index a index.old) }
{
    match a {
        Ok(CheckAnswer::Yes { length }) => length,
        Ok(CheckAnswer::Fails { index: i, fault }) => {
            *index = i;
            2147483648 + schedule::fault_number(fault)
        }
        Ok(CheckAnswer::GoalNotMet) => 2147483648,
        Err(r) => refusal_code(r),
    }
}

// The part's length, or the refusal.
pub fn part_code(len: u64, number: u64, place: u64) -> u64
    requires { (number ≤ last_number) × (place ≤ place_limit) }
    ensures { result ≡ part_code len number place }
{
    if number == 0 {
        len
    } else {
        number * 4294967296 + place
    }
}
