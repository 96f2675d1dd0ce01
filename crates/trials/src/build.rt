// Rule files and documents of a given size, built in a buffer.

// What a rule file is to hold: paths all below the root, or in a chain each below the one before, and rules on the root.
#[derive(Clone, Copy, Debug)]
pub struct Shape {
    pub paths: u32,
    pub chained: bool,
    pub rules: u32,
}

// Numbers put one after the other; nothing where they have no room.
#[derive(Drop)]
struct Builder<'a> {
    out: &'a mut [u8],
    at: usize,
}

impl<'a> Builder<'a> {
    fn byte(&mut self, byte: u8) -> Option<()> {
        *self.out.get_mut(self.at)? = byte;
        self.at += 1;
        Some(())
    }

    fn number(&mut self, n: u32) -> Option<()> {
        if n < 128 {
            return self.byte(n as u8);
        }
        self.byte((128 + n % 128) as u8)?;
        self.byte((n / 128 % 128) as u8)
    }

    fn numbers(&mut self, numbers: &[u32]) -> Option<()> {
        for &n in numbers {
            self.number(n)?;
        }
        Some(())
    }

    // A path count, and as many paths. Labels take two bytes.
    fn paths(&mut self, shape: Shape) -> Option<()> {
        self.numbers(&[shape.paths, 200])?;
        for x in 1..shape.paths {
            let parent = if shape.chained { x - 1 } else { 0 };
            self.numbers(&[parent, 200 + x % 1000])?;
        }
        Some(())
    }

    // A count, and the numbers from 1 on: every path but the root is required, or every part but the first is a child.
    fn counted(&mut self, past: u32) -> Option<()> {
        self.number(past.saturating_sub(1))?;
        for n in 1..past {
            self.number(n)?;
        }
        Some(())
    }

    // A rule count, and as many rules.
    fn rules(&mut self, count: u32) -> Option<()> {
        self.number(count)?;
        for r in 0..count {
            self.numbers(&[1 + r % 2 * 2, 0, 0])?;
        }
        Some(())
    }

    // A part count, and as many parts: all but part 0 on path 1, below it.
    fn parts(&mut self, count: u32) -> Option<()> {
        self.numbers(&[count, 0])?;
        self.counted(count)?;
        for _ in 1..count {
            self.numbers(&[1, 0])?;
        }
        Some(())
    }
}

// The length of a rule file of a shape.
pub fn put_file(out: &mut [u8], shape: Shape) -> Option<usize> {
    let mut builder = Builder { out, at: 0 };
    builder.paths(shape)?;
    builder.counted(shape.paths)?;
    builder.rules(shape.rules)?;
    Some(builder.at)
}

// The length of a document of so many parts.
pub fn put_document(out: &mut [u8], parts: u32) -> Option<usize> {
    let mut builder = Builder { out, at: 0 };
    builder.parts(parts)?;
    Some(builder.at)
}
