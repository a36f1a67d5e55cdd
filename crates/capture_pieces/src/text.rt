// What the capture program writes for a verdict, put at the front of a lent output. The `requires` are about the room in it; the program has it,
// and is proved to.
ghost use Rattle.std.specs.Prelude.{◌≡◌, ◌∷◌, ◌+◌, ◌≤◌, length};
ghost use Rattle.std.proofs.lemmas.List.Edits.{sets};
ghost use Rattle.script_text.specs.Decimal.{decimal};
ghost use Rattle.capture_pieces.specs.Line.{seen_text, difference_line, verdict_line};

use capture_rules::{Seen, Verdict};
use rules::Answer;
use script_text::letters::{put, put_answer, put_decimal, put_line, put_short};

// Kept: beside letters::put_number, whose number is a Refusal's: a captured one has up to three digits and asks for more room (Line.seen_text).
// A captured refusal, put at a place; the place after it. Its number is any byte.
fn put_refused(out: &mut [u8], at: usize, n: u8) -> usize
    requires { at + 4 ≤ length out.old }
    ensures { (result ≡ at + length (0x52 ∷ decimal n)) × (out.new ≡ sets out.old at (0x52 ∷ decimal n)) }
{
    let end = put(out, at, b"R");
    put_decimal(out, end, usize::from(n))
}

// A captured answer, put at a place; the place after it.
#[tactic(auto, unfolding(crate::specs::Line::seen_text))]
fn put_seen(out: &mut [u8], at: usize, s: Seen) -> usize
    requires { at + 4 ≤ length out.old }
    ensures { (result ≡ at + length (seen_text s)) × (out.new ≡ sets out.old at (seen_text s)) }
{
    match s.code {
        0 => put_answer(out, at, Answer::Nothing),
        1 => put_answer(out, at, Answer::Ack),
        2 => put_answer(out, at, Answer::Nack),
        3 => put_answer(out, at, Answer::Data(s.byte)),
        4 => put_refused(out, at, s.byte),
        _ => put(out, at, b"?"),
    }
}

// The line of a record that differs, put at the beginning; the place after it.
fn put_difference(out: &mut [u8], n: usize, model: Answer, seen: Seen) -> usize
    requires { 32 ≤ length out.old }
    ensures { (result ≡ length (difference_line n model seen)) × (out.new ≡ sets out.old 0 (difference_line n model seen))
        × (result ≤ 30) }
{
    let number = put_decimal(out, 0, n);
    let first = put(out, number, b" ");
    let answer = put_answer(out, first, model);
    let second = put(out, answer, b" ");
    let end = put_seen(out, second, seen);
    put(out, end, b"\n")
}

// A verdict's line, put at the beginning; the place after it, which for every verdict that the type can hold is at most 30.
#[tactic(auto, unfolding(crate::specs::Line::verdict_line))]
pub fn put_verdict(out: &mut [u8], v: Verdict) -> usize
    requires { 32 ≤ length out.old }
    ensures { (result ≡ length (verdict_line v)) × (out.new ≡ sets out.old 0 (verdict_line v)) × (result ≤ 30) }
{
    match v {
        Verdict::Accepted => put(out, 0, b"OK\n"),
        Verdict::Differs {
            record,
            model,
            seen,
        } => put_difference(out, record, model, seen),
        Verdict::Short => put_short(out),
        Verdict::Refused(r) => put_line(out, 0, Answer::Refused(r)),
    }
}
