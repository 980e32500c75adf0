// The package for closure days (document 02, request 8): it places a list of entries in the windows of a closure, each entry in its turn
// as early as can be, and writes their starts.
#![tactic(auto)]

ghost use Rattle.std.specs.Prelude.{◌≡◌, ◌+◌, ◌*◌, ◌^◌, ◌<◌, ◌≤◌, length};
ghost use Rattle.placement.specs.Day.{paper_day, minute_at, wrong_window, wrong_duration, first_window, first_duration};
ghost use Rattle.placement.specs.Placing.{starts_of, day_placed, place_answer, place_out};
ghost use Rattle.placement.specs.Theorems.Answers.{DayOk, PlaceRight};
ghost use Rattle.closure.specs.Checking.{fault_of, ShutBefore, FirstFault};
ghost use Rattle.closure.specs.Walking.{Walks};
ghost use Rattle.closure.specs.Filling.{Filled};

use model::{Reason, Refusal};
use placement::Placed;

// The minute in the four bytes from `at` on.
fn minute_at(s: &[u8], at: usize) -> u64
    requires { at + 4 ≤ length s.now }
    ensures { (result ≡ minute_at s.now at) × (result < 256 ^ 4) }
{
    integer::unsigned_at(s, at, 4)
}

// Is window `i`, behind one that shuts at `before`, out of order or range, cut short or beyond the 64th?
fn wrong_window(windows: &[u8], i: usize, before: u64) -> bool
    requires { (8 * i < length windows.now) × ShutBefore windows.now i before }
    ensures { result ≡ wrong_window paper_day windows.now i }
{
    if i >= 64 || windows.len() - 8 * i < 8 {
        return true;
    }
    let opening = minute_at(windows, 8 * i);
    let shutting = minute_at(windows, 8 * i + 4);
    shutting <= opening || shutting > 1000000 || opening < before
}

// The first window at fault.
fn first_window(windows: &[u8]) -> Option<usize>
    ensures { fault_of result ≡ first_window paper_day windows.now }
{
    let mut before = 0;
    for i in 0..windows.len().div_ceil(8) {
        if wrong_window(windows, i, before) {
            return Some(i);
        }
        before = minute_at(windows, 8 * i + 4);
    }
    None
}

// Are the minutes of entry `i` cut short, 0, or more than 1,440?
fn wrong_duration(durations: &[u8], i: usize) -> bool
    requires { 4 * i < length durations.now }
    ensures { result ≡ wrong_duration paper_day durations.now i }
{
    if durations.len() - 4 * i < 4 {
        return true;
    }
    let minutes = minute_at(durations, 4 * i);
    minutes == 0 || minutes > 1440
}

// The first duration at fault.
fn first_duration(durations: &[u8]) -> Option<usize>
    ensures { fault_of result ≡ first_duration paper_day durations.now }
{
    for i in 0..durations.len().div_ceil(4) {
        if wrong_duration(durations, i) {
            return Some(i);
        }
    }
    None
}

// The first fault of the day, windows before durations.
fn first_fault(windows: &[u8], durations: &[u8]) -> Option<usize>
    ensures { FirstFault windows.now durations.now result }
{
    first_window(windows).or_else(|| first_duration(durations))
}

// Places the entries of an accepted day in one pass over windows and entries together, and writes each start that fits whole. It stands at
// minute `from` in a window that shuts at `shut`: before the first window there is no time. The minute at which the last entry ends, or the
// number of the first entry for which there is no room.
fn walk(windows: &[u8], durations: &[u8], out: &mut [u8]) -> Result<u64, usize>
    requires { DayOk paper_day windows.now durations.now }
    ensures { Walks windows.now durations.now out.old out.new result }
{
    let mut from = 0;
    let mut shut = 0;
    let mut w = 0;
    let mut i = 0;
    while 4 * i < durations.len() {
        let end = from + minute_at(durations, 4 * i);
        if end <= shut {
            output::put_u32(out, 4 * i, from);
            from = end;
            i += 1;
        } else {
            if 8 * w >= windows.len() {
                return Err(i);
            }
            from = from.max(minute_at(windows, 8 * w));
            shut = minute_at(windows, 8 * w + 4);
            w += 1;
        }
    }
    Ok(from)
}

// Places the entries of an accepted day and writes their starts. A first walk, over no bytes, tells whether all of them have room: "13 for a
// short output last".
fn fill(windows: &[u8], durations: &[u8], out: &mut [u8]) -> Result<Placed, Refusal>
    requires { DayOk paper_day windows.now durations.now }
    ensures { Filled windows.now durations.now (starts_of (day_placed windows.now durations.now)) out.old out.new result }
{
    let end = walk(windows, durations, &mut []).map_err(|i| Reason::NoPlacement.at(i))?;
    if out.len() < durations.len() {
        return Err(Reason::OutputTooShort.at(0));
    }
    let _ = walk(windows, durations, out);
    Ok(Placed {
        end,
        length: durations.len() as u64,
    })
}

// Places a list in the windows of a closure day and writes each entry's start: the end minute, or why the call turns back. In every other
// placement of the list no entry starts earlier (`PlaceRight`).
pub fn place(windows: &[u8], durations: &[u8], out: &mut [u8]) -> Result<Placed, Refusal>
    ensures { (result ≡ place_answer paper_day windows.now durations.now out.old)
        × (out.new ≡ place_out paper_day windows.now durations.now out.old)
        × PlaceRight paper_day windows.now durations.now out.old out.new result }
{
    if let Some(i) = first_fault(windows, durations) {
        return Err(Reason::WrongDay.at(i));
    }
    fill(windows, durations, out)
}
