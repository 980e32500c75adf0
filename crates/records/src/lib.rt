// The records of one layer from its moves' counts: how many, and their bytes (document 01, "Plan").
#![tactic(auto)]

ghost use Rattle.std.specs.Prelude.{◌≡◌, ◌+◌, ◌*◌, ◌<◌, ◌≤◌, length};
ghost use Rattle.model.specs.Plan.{layer_records};
ghost use Rattle.model.specs.Calls.{record_bytes};
ghost use Rattle.integer.specs.Store.{put};
ghost use Rattle.records.specs.Records.{count_at, one_bytes, kept_bytes, KeptBefore};

// The bytes of a record.
pub const RECORD_LEN: usize = 10;

// So many records are kept while they are counted.
pub const KEPT: usize = 64;

// Their bytes.
pub const KEPT_LEN: usize = 640;

// How many of the `moves` counts are not 0.
pub fn count_taken(counts: &[u64], moves: usize) -> usize
    requires { moves ≤ length counts.now }
    ensures { (result ≡ length (layer_records 0 (count_at counts.now) 0 moves)) × (result ≤ moves) }
{
    counts[..moves].iter().filter(|n| **n > 0).count()
}

// "Record: 52, move (1 byte), count (8 bytes)".
fn put_record(out: &mut [u8], at: usize, b: usize, n: u64)
    requires { (at + 10 ≤ length out.old) × (b < 256) }
    ensures { out.new ≡ put out.old at (one_bytes b n) }
{
    integer::put_u64(out, at + 2, n);
    out[at + 1] = b as u8;
    out[at] = 0x52;
}

// The records of one layer, its moves rising, from `from` on.
pub fn write_records(out: &mut [u8], from: usize, counts: &[u64], moves: usize)
    requires { (moves ≤ length counts.now) × (moves ≤ 64) × (from + 10 * length (layer_records 0 (count_at counts.now) 0 moves) ≤ length out.old) }
    ensures { out.new ≡ put out.old from (record_bytes (layer_records 0 (count_at counts.now) 0 moves)) }
{
    let mut at = from;
    for (b, n) in counts[..moves].iter().enumerate() {
        if *n > 0 {
            put_record(out, at, b, *n);
            at += RECORD_LEN;
        }
    }
}

// Stores the records of one layer in front of those of the later layers, at the end of `kept`. There are `records` of them, these
// counted; if that is more than are kept, nothing is stored.
pub fn keep_records(kept: &mut [u8], records: usize, counts: &[u64], moves: usize)
    requires { (kept_bytes ≡ length kept.old) × (moves ≤ length counts.now) × (moves ≤ 64) × (length (layer_records 0 (count_at counts.now) 0 moves) ≤ records) }
    ensures { KeptBefore kept.old records (layer_records 0 (count_at counts.now) 0 moves) kept.new }
{
    if records > KEPT {
        return;
    }
    write_records(kept, KEPT_LEN - RECORD_LEN * records, counts, moves);
}
