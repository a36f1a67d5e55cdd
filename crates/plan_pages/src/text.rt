// What the plan program writes for a result of the planner, put at the front of a lent output: the number of records and the records as lines, or
// the refusal's line. The `requires` are about the sizes of the buffers and the number of records; the program meets them, and is proved to.
ghost use Rattle.std.specs.Prelude.{◌≡◌, ◌+◌, ◌*◌, ◌≤◌, ◌<◌, length};
ghost use Rattle.std.proofs.lemmas.List.Edits.{sets};
ghost use Rattle.plan_rules.specs.Plan.{plan_value};
ghost use Rattle.plan_pages.specs.Listing.{record_line, record_lines, text_of};

use rules::{Answer, Refusal};
use script_text::letters::{hex_digit, put, put_decimal, put_line};

// A record's line, put at a place; the place after it.
fn put_record(out: &mut [u8], at: usize, bytes: &[u8; 4]) -> usize
    requires { at + 9 ≤ length out.old }
    ensures { (result ≡ at + 9) × (out.new ≡ sets out.old at (record_line bytes.now 0)) }
{
    let mut end = at;
    for b in bytes {
        end = put(out, end, &[hex_digit(b / 16), hex_digit(b % 16)]);
    }
    put(out, end, b"\n")
}

// The lines of the first records of a buffer, put at a place; the place after them.
// Kept: a buffer with a count: the planner, whose Result docs/manual/library.md names, gives how many records stand at the buffer's front.
fn put_records(out: &mut [u8], at: usize, records: &[u8], count: usize) -> usize
    requires { (at + 9 * count ≤ length out.old) × (4 * count ≤ length records.now) }
    ensures { (result ≡ at + length (record_lines records.now count))
        × (out.new ≡ sets out.old at (record_lines records.now count)) }
{
    let (whole, _) = records.as_chunks::<4>();
    let mut end = at;
    for r in &whole[..count] {
        end = put_record(out, end, r);
    }
    end
}

// What the planner gave, with the records that it put at the front of its buffer, as it is written; the place after it.
pub fn put_plan(out: &mut [u8], p: Result<usize, Refusal>, records: &[u8]) -> usize
    requires { (plan_value p < 10000) × (5 + 9 * plan_value p ≤ length out.old) × (4 * plan_value p ≤ length records.now) }
    ensures { (result ≡ length (text_of p records.now))
        × (out.new ≡ sets out.old 0 (text_of p records.now)) }
{
    match p {
        Ok(n) => {
            let number = put_decimal(out, 0, n);
            let lines = put(out, number, b"\n");
            put_records(out, lines, records, n)
        }
        Err(r) => put_line(out, 0, Answer::Refused(r)),
    }
}
