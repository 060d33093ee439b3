// Buffers as a case lends them.

// The first n, or as many as there are.
pub(crate) fn lent<T>(buffer: &mut [T], n: u32) -> &mut [T] {
    let n = buffer.len().min(n as usize);
    &mut buffer[..n]
}
