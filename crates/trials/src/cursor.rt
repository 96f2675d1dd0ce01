// Reading numbers one after the other.

#[derive(Clone, Copy, Debug)]
pub struct Cursor<'a> {
    bytes: &'a [u8],
    at: usize,
}

impl<'a> Cursor<'a> {
    pub fn new(bytes: &'a [u8]) -> Self {
        Cursor { bytes, at: 0 }
    }

    // The place after what was read.
    pub fn place(&self) -> usize {
        self.at
    }

    fn byte(&mut self) -> Option<u8> {
        let byte = *self.bytes.get(self.at)?;
        self.at += 1;
        Some(byte)
    }

    pub fn number(&mut self) -> Option<usize> {
        let low = self.byte()?;
        if low < 128 {
            return Some(usize::from(low));
        }
        let high = self.byte()?;
        Some(usize::from(low % 128) + usize::from(high) * 128)
    }

    // Reads numbers that have to be the given ones.
    pub fn expect(&mut self, numbers: &[usize]) -> Option<()> {
        for &n in numbers {
            if self.number()? != n {
                return None;
            }
        }
        Some(())
    }
}
