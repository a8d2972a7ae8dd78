// Lines of an input, of any bytes. Of a line that is too long only so much is kept as shows that it is.
ghost use Rattle.std.specs.Prelude.{◌≤◌};

use arrayvec::ArrayVec;
use std::io;
use std::io::{Read, Write};

// The length of the longest line that is a call.
pub(crate) const LONGEST_LINE: usize = 4095;

// Room for such a line, and for one byte more of a longer one.
const LINE_ROOM: usize = LONGEST_LINE + 1;

// How many bytes are asked for at once.
const READ_SIZE: usize = 4096;

#[derive(Drop)]
pub(crate) struct Lines<R: Read + Drop> {
    input: Input<R>,
    line: ArrayVec<u8, LINE_ROOM>,
}

impl<R: Read + Drop> Lines<R> {
    pub(crate) fn new(reader: R) -> Self {
        Lines {
            input: Input::new(reader),
            line: ArrayVec::from([0; LINE_ROOM]),
        }
    }

    // The next line, without the byte that ends it; `None` where the input has ended. Of each part so much is written as there is room for.
    // Form: the turns are counted, since nothing says that a line ends, and every loop has to.
    pub(crate) fn next_line(&mut self) -> io::Result<Option<&[u8]>> {
        self.line.clear();
        for _ in 0..u64::MAX {
            match self.input.next_part()? {
                [] if self.line.is_empty() => return Ok(None),
                [] => break,
                [part @ .., b'\n'] => {
                    self.line.write(part)?;
                    break;
                }
                part => {
                    self.line.write(part)?;
                }
            }
        }
        Ok(Some(self.line.as_slice()))
    }
}

// An input, of which so much is read at once as there is, up to an array of it. What is not yet taken stands in the array from `start` to `end`.
// Form: an array and no BufReader, since the program runs without an allocator (D138).
#[derive(Drop)]
struct Input<R: Read + Drop> {
    reader: R,
    bytes: [u8; READ_SIZE],
    start: usize,
    end: usize,
    ghost ordered: { start ≤ end },
    ghost in_bounds: { end ≤ 4096 },
}

impl<R: Read + Drop> Input<R> {
    fn new(reader: R) -> Self {
        Input {
            reader,
            bytes: [0; READ_SIZE],
            start: 0,
            end: 0,
        }
    }

    // Takes what has been read of a line, with the byte that ends it where that has been. More is read only where nothing is left; nothing is
    // there where the input has ended.
    fn next_part(&mut self) -> io::Result<&[u8]> {
        if self.start == self.end {
            self.start = 0;
            self.end = 0;
            self.end = self.reader.read(&mut self.bytes)?;
        }
        let start = self.start;
        let unread = &self.bytes[start..self.end];
        let length = unread
            .iter()
            .position(|byte| *byte == b'\n')
            .map_or(unread.len(), |place| place + 1);
        self.start = start + length;
        let input = &*self;
        Ok(&input.bytes[start..start + length])
    }
}
