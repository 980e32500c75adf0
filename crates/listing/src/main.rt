// The listing program: reads task.bin and state.bin in the working folder, and prints the plan, "no plan" or the refusal.
#![tactic(auto)]

ghost use Rattle.std.specs.Prelude.{◌≡◌, ◌≤◌, length, take};
ghost use Rattle.model.specs.Limits.{paper};
ghost use Rattle.model.specs.Listing.{listing};
ghost use Rattle.listing.specs.Rooms.{Rooms};

use std::fs::File;
use std::io::Read;
use std::rt::Files;

// The text for a table and a state, at the start of `text`: how many bytes it has.
fn text_of(
    task: &[u8],
    state: &[u8],
    normal: &mut [u8],
    layers: &mut [i64],
    plan: &mut [u8],
    text: &mut [u8],
) -> usize
    requires { Rooms normal.old layers.old plan.old text.old }
    ensures { (take result text.new ≡ listing paper task.now state.now) × (result ≤ length text.new) }
{
    match normal::normalise(task, normal) {
        Err(r) => report::listing_text(Err(r), plan, text),
        Ok(n) => {
            let answer = relaxed_plan::plan(&normal[..n as usize], state, layers, plan);
            report::listing_text(answer, plan, text)
        }
    }
}

// The first bytes of a file, as many as `buffer` holds; a missing file is empty, and so is one that cannot be opened. A read that
// fails ends the file.
fn file_bytes(rt: &impl Files, path: &str, buffer: &mut [u8]) -> usize
    ensures { result ≤ length buffer.new }
{
    let Ok(mut file) = File::open(rt, path) else {
        return 0;
    };
    let mut done = 0;
    while done < buffer.len() {
        match file.read(&mut buffer[done..]) {
            Ok(0) | Err(_) => break,
            Ok(n) => done += n,
        }
    }
    done
}

// A buffer of one byte more than any accepted file has is enough: a longer file is refused by its length alone. Whether
// the text could be written is not asked: the exit status is 0 in any case.
fn main(rt: HostRuntime) {
    let mut task = [0u8; 32001];
    let mut state = [0u8; 185];
    let mut normal = [0u8; 64000];
    let mut layers = [0i64; 8192];
    let mut plan = [0u8; 64000];
    let mut text = [0u8; 160056];
    let task_len = file_bytes(&rt, "task.bin", &mut task);
    let state_len = file_bytes(&rt, "state.bin", &mut state);
    let n = text_of(
        &task[..task_len],
        &state[..state_len],
        &mut normal,
        &mut layers,
        &mut plan,
        &mut text,
    );
    let _ = rt.write_all(&text[..n]);
}
