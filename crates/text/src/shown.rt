// A text in an array that it does not fill.
ghost use Rattle.std.specs.Prelude.{◌≡◌, ◌≤◌, take};

// The bytes of a text at the front of N, zeros after them: a length beside an array, since there is no heap and `Shows` tells all N bytes.
#[derive(Drop)]
pub struct Text<const N: usize> {
    pub bytes: [u8; N],
    pub length: usize,
    ghost within: { length ≤ N },
}

impl<const N: usize> Text<N> {
    // The bytes of the text alone.
    pub fn as_bytes(&self) -> &[u8]
        ensures { result.now ≡ take self.now.length self.now.bytes }
    {
        &self.bytes[..self.length]
    }
}
