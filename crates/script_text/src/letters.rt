// The answers as lines, put into a lent output: the paper's letters, digits and numbers; and numbers in decimal.
// Kept: a slice with a place beside it, here and in the crates above. A struct of the two proves as well (tried), but each of its methods needs a
// clause more, that it still holds the same slice, and each step of a program, which is lent the slice alone, would wrap it and take the place out.
// Kept: printing by `put`, here and in the crates above, and not by Display: `write!` promises its bytes on Ok alone, and no clause says when
// that is; here each byte is promised.
ghost use Rattle.std.specs.Prelude.{◌≡◌, ◌∷◌, [], ◌+◌, ◌≤◌, ◌<◌, length};
ghost use Rattle.std.proofs.lemmas.List.Edits.{sets};
ghost use Rattle.script_text.specs.Decimal.{decimal};
ghost use Rattle.script_text.specs.Letters.{hex_digit, answer_text, line_of, short_line, refusal_line};

use rules::{Answer, Refusal};

// A digit below sixteen as a hexadecimal one, in capitals.
// Kept: by hand: `char::from_digit` gives an Option, and in it a small letter.
#[tactic(auto, unfolding(crate::specs::Letters::hex_digit))]
pub fn hex_digit(n: u8) -> u8
    requires { n < 16 }
    ensures { result ≡ hex_digit n }
{
    if n < 10 { b'0' + n } else { b'A' + (n - 10) }
}

// A text, or any other elements, put at a place; the place after them.
pub fn put<T: Copy>(out: &mut [T], at: usize, text: &[T]) -> usize
    requires { at + length text.now ≤ length out.old }
    ensures { (result ≡ at + length text.now) × (out.new ≡ sets out.old at text.now) }
{
    let end = at + text.len();
    out[at..end].copy_from_slice(text);
    end
}

// A number in decimal, put at a place; the place after it.
pub fn put_decimal(out: &mut [u8], at: usize, n: usize) -> usize
    requires { at + length (decimal n) ≤ length out.old }
    ensures { (result ≡ at + length (decimal n)) × (out.new ≡ sets out.old at (decimal n)) }
{
    let mut buffer = itoa::Buffer::new();
    put(out, at, buffer.format(n).as_bytes())
}

// A refusal's text, `R` and its number, put at a place; the place after it.
fn put_number(out: &mut [u8], at: usize, r: Refusal) -> usize
    requires { at + 3 ≤ length out.old }
    ensures { (result ≡ at + length (answer_text (Answer.Refused r)))
        × (out.new ≡ sets out.old at (answer_text (Answer.Refused r))) }
{
    let end = put(out, at, b"R");
    put_decimal(out, end, usize::from(u8::from(r)))
}

// An answer's text without a line's end, put at a place; the place after it.
#[tactic(auto, unfolding(crate::specs::Letters::digits_of, rules::specs::Events::letter_of))]
pub fn put_answer(out: &mut [u8], at: usize, a: Answer) -> usize
    requires { at + 3 ≤ length out.old }
    ensures { (result ≡ at + length (answer_text a)) × (out.new ≡ sets out.old at (answer_text a)) }
{
    match a {
        Answer::Nothing => put(out, at, b"-"),
        Answer::Ack => put(out, at, b"A"),
        Answer::Nack => put(out, at, b"N"),
        Answer::Data(b) => put(out, at, &[b'D', hex_digit(b / 16), hex_digit(b % 16)]),
        Answer::Refused(r) => put_number(out, at, r),
    }
}

// An answer's line, put at a place; the place after it.
pub fn put_line(out: &mut [u8], at: usize, a: Answer) -> usize
    requires { at + 4 ≤ length out.old }
    ensures { (result ≡ at + length (line_of a)) × (out.new ≡ sets out.old at (line_of a)) }
{
    let end = put_answer(out, at, a);
    put(out, end, b"\n")
}

// `short`, put at the beginning; the place after it.
pub fn put_short(out: &mut [u8]) -> usize
    requires { 6 ≤ length out.old }
    ensures { (result ≡ 6) × (out.new ≡ sets out.old 0 short_line) }
{
    put(out, 0, b"short\n")
}

// Kept: 0 for nothing put, here and in frame::finish: it is where what is put ends, and an empty text's length (Letters.refusal_line).
// A refusal's line, put at the beginning; the place after it. Any other answer puts nothing.
#[tactic(auto, unfolding(crate::specs::Letters::refusal_line))]
pub fn put_refusal(out: &mut [u8], a: Answer) -> usize
    requires { 4 ≤ length out.old }
    ensures { (result ≡ length (refusal_line a)) × (out.new ≡ sets out.old 0 (refusal_line a)) }
{
    match a {
        Answer::Refused(_) => put_line(out, 0, a),
        _ => 0,
    }
}
