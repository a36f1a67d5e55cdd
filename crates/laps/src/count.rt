// What the program is told: a line with a letter and a count.

// Kept: no `parse`, here and in edges::words: it takes a plus sign and no `h`, and has other bounds; the two programs' numbers are of other types.
// A count with one more digit, up to 999,999,999.
fn longer(count: u64, b: &u8) -> Option<u64> {
    match *b {
        d @ b'0'..=b'9' if count <= 99_999_999 => Some(10 * count + u64::from(d - b'0')),
        _ => None,
    }
}

// The letter and the count on a line: a blank stands between them, and a line's end may stand behind them.
pub fn asked(line: &[u8]) -> Option<(u8, u64)> {
    match line.strip_suffix(b"\n").unwrap_or(line) {
        [letter, b' ', first, rest @ ..] => {
            let count = rest.iter().try_fold(longer(0, first)?, longer)?;
            Some((*letter, count))
        }
        _ => None,
    }
}
