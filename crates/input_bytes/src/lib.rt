// The bytes of an input one after the other. They are read a chunk at a time, into room that the iterator itself has.
#![tactic(auto)]

ghost use Rattle.std.specs.Prelude.{◌≡◌, ◌+◌, ◌-◌, ◌*◌, ◌≤◌};
ghost use Rattle.std.specs.Iterator.{at_most};
ghost use Rattle.input_bytes.specs.Input.{still_left, HandsOn};
ghost use Rattle.input_bytes.specs.declared.TheConstants.{CHUNK};

use std::io::Read;

// How many bytes are asked for at a time.
const CHUNK: usize = 4096;

// Kept: a chunk with its places, for std's `bytes` reads a byte a call, and its buffered reader takes a heap.
#[derive(Drop)]
pub struct InputBytes<R> {
    input: R,
    chunk: [u8; CHUNK],
    // What of the chunk is still to come stands from `at` to `end`.
    at: usize,
    end: usize,
    // A proved loop must end: no input has more chunks than this counts.
    chunks: u64,
    ghost in_order: { at ≤ end },
    ghost within: { end ≤ CHUNK },
}

impl<R: Read> InputBytes<R> {
    pub fn new(input: R) -> Self
        ensures { still_left result.chunk result.at result.end (R.remaining result.input) ≡ R.remaining input }
    {
        InputBytes {
            input,
            chunk: [0; CHUNK],
            at: 0,
            end: 0,
            chunks: u64::MAX,
        }
    }
}

// A read that fails ends the input, as one that brings nothing does.
impl<R: Read> Iterator for InputBytes<R>
where
    R: Drop,
{
    type Item = u8;

    ghost next_gives = { λ s r t. HandsOn (still_left s.chunk s.at s.end (R.remaining s.input)) r
        (still_left t.chunk t.at t.end (R.remaining t.input)) };

    ghost remaining = { λ s. at_most (CHUNK * s.chunks + (s.end - s.at)) };

    fn next(&mut self) -> Option<u8> {
        if self.at == self.end {
            self.chunks = self.chunks.checked_sub(1)?;
            self.at = 0;
            self.end = self.input.read(&mut self.chunk).unwrap_or(0);
            if self.end == 0 {
                return None;
            }
        }
        let byte = self.chunk[self.at];
        self.at += 1;
        Some(byte)
    }
}
