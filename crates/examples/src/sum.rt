// The 64-bit FNV-1a sum of bytes.

// The sum of no bytes.
pub const EMPTY_SUM: u64 = 14695981039346656037;

// What the sum is multiplied with at each byte: 2^40 + 2^8 + 0xb3.
const PRIME: u64 = 1099511628211;

// The sum with the bytes of s more.
pub fn with_bytes(sum: u64, s: &[u8]) -> u64 {
    s.iter()
        .fold(sum, |x, b| (x ^ u64::from(*b)).wrapping_mul(PRIME))
}
