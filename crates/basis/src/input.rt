ghost use Rattle.std.specs.Prelude.{◌≤◌};

use format::line::LineBuffer;
use std::io;
use std::io::{Read, Stdin};

// Standard input, read in blocks. The block is a field: a BufReader would ask for memory, and a run that prints nothing asks for none.
#[derive(Drop)]
pub(crate) struct Input {
    stdin: Stdin,
    block: [u8; 4096],
    start: usize,
    end: usize,
    ghost filled: { end ≤ 4096 },
}

impl Input {
    pub(crate) fn new(stdin: Stdin) -> Input {
        Input {
            stdin,
            block: [0; 4096],
            start: 0,
            end: 0,
        }
    }

    // Puts the next line into an empty buffer; false where the input has no more.
    pub(crate) fn next_line(&mut self, line: &mut LineBuffer) -> io::Result<bool> {
        // Nothing says that input ends, so the turns are counted.
        for _ in 0..u64::MAX {
            if self.start >= self.end {
                self.start = 0;
                self.end = self.stdin.read(&mut self.block)?;
                if self.end == 0 {
                    return Ok(!line.is_empty());
                }
            }
            match line.fill(&self.block[self.start..self.end]) {
                Some(taken) => {
                    self.start = self.start.saturating_add(taken);
                    return Ok(true);
                }
                None => self.start = self.end,
            }
        }
        Ok(false)
    }
}
