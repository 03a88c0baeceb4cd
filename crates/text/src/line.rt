// A line as it comes in, byte by byte. One byte more is kept than a line may have, so that a line that is too long is seen to be,
// however long it is.
ghost use Rattle.std.specs.Prelude.{◌≡◌, []};
ghost use Rattle.text.specs.Lines.{line_in, kept};

use cable::row::Row;

// The longest line that is not refused.
pub const LONGEST: usize = 80;

const KEPT: usize = LONGEST + 1;

#[derive(Drop)]
pub struct LineBuffer {
    row: Row<u8, KEPT>,
}

impl LineBuffer {
    pub fn new() -> LineBuffer
        ensures value { line_in result ≡ [] }
    {
        LineBuffer { row: Row::new(0) }
    }

    // One byte more of the line.
    pub fn push(&mut self, b: u8)
        ensures after { line_in self.new ≡ kept (line_in self.old) b }
    {
        // a full row has seen that the line is too long
        let _ = self.row.join(b);
    }

    // What was kept of the line.
    pub fn line(&self) -> &[u8]
        ensures value { result.now ≡ line_in self.now }
    {
        self.row.as_slice()
    }

    // The next line begins.
    pub fn clear(&mut self)
        ensures after { line_in self.new ≡ [] }
    {
        self.row.clear();
    }
}
