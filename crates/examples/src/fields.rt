// Numbers in text.
// The number that s holds: decimal digits alone, at least one, and below 2^64.
pub fn number(s: &[u8]) -> Option<usize> {
    if s.is_empty() {
        return None;
    }
    let mut value: usize = 0;
    for b in s {
        if !b.is_ascii_digit() {
            return None;
        }
        value = value.checked_mul(10)?.checked_add(usize::from(*b - b'0'))?;
    }
    Some(value)
}
