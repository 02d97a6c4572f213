// An opened register in a buffer, and its lines by their places.
// Assumes nothing.
ghost use Rattle.std.specs.Prelude.{◌≡◌, ◌<◌};
ghost use Rattle.register.specs.Buffer.{register_in};
ghost use Rattle.register.specs.Register.{line_at};
ghost use Rattle.register_reading.specs.Reading.{LinesCounted};

use crate::line_in;

// an opened register: the buffer that it is in, and how many lines it holds
#[derive(Clone, Copy)]
pub struct Opened<'a> {
    pub buffer: &'a [u8],
    pub lines: usize,
    pub ghost counted: { LinesCounted buffer.now lines },
}

impl<'a> Opened<'a> {
    // the line of a place that has one
    pub fn line(self, place: usize) -> &'a [u8]
        requires { place < self.lines }
        ensures { result.now ≡ line_at (register_in self.entry.buffer.now).lines place }
    {
        line_in(self.buffer, place)
    }
}
