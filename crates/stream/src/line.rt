// A line of a stream that has not ended.
ghost use Rattle.std.specs.Prelude.{◌≡◌, [], ◌++◌, ◌≤◌, take, IsTrue, ◌↔◌};
ghost use Rattle.frames.specs.Frames.{enough};

use frames::ENOUGH;

// The bytes that are held of it, no more than matter: a longer line is no frame, whatever else stands in it.
#[derive(Clone, Copy)]
pub struct Line {
    bytes: [u8; ENOUGH],
    len: usize,
    pub ghost within: { len ≤ enough },
}

impl Line {
    ghost use Rattle.stream.specs.Line.{held_in};

    // A line of which nothing is held.
    pub fn new() -> Line
        ensures { held_in result ≡ [] }
    {
        Line {
            bytes: [0; ENOUGH],
            len: 0,
        }
    }

    pub fn is_empty(&self) -> bool
        ensures { IsTrue result ↔ (held_in self.now ≡ []) }
    {
        self.len == 0
    }

    pub fn as_slice(&self) -> &[u8]
        ensures { result.now ≡ held_in self.now }
    {
        &self.bytes[..self.len]
    }

    // Begins the next line.
    pub fn clear(&mut self)
        ensures { held_in self.new ≡ [] }
    {
        self.len = 0;
    }

    // Holds bytes behind those that are held, as far as they still matter.
    pub fn hold(&mut self, bytes: &[u8])
        ensures { held_in self.new ≡ take enough (held_in self.old ++ bytes.now) }
    {
        let end = ENOUGH.min(self.len + bytes.len());
        let count = end - self.len;
        self.bytes[self.len..end].copy_from_slice(&bytes[..count]);
        self.len = end;
    }
}
