//! Trace lines that are made in a block and counted, but not written.

use m36_model::{Regs, Shown};
use m36_outside::{Block, SureSink};
use m36_trace::{TraceText, add_shown};

/// A block with more bytes than this may have no room for one more line, so it is emptied first.
const ALMOST_FULL: usize = 32_000;

/// Trace lines, and the number of their bytes.
#[derive(Drop)]
pub struct TraceLines {
    text: TraceText,
    block: Block,
    bytes: u64,
}

impl TraceLines {
    /// No lines.
    pub fn new() -> TraceLines {
        TraceLines {
            text: TraceText::new(),
            block: Block::new(),
            bytes: 0,
        }
    }

    /// Makes the line of the step with this number. `after` has the registers after the step.
    pub fn add(&mut self, number: u64, shown: &Shown, after: &Regs) {
        if self.block.bytes().len() > ALMOST_FULL {
            self.bytes = self.bytes();
            self.block.clear();
        }
        let mut nowhere = SureSink::new();
        let _ = add_shown(
            &mut self.text,
            number,
            shown,
            after,
            &mut self.block,
            &mut nowhere,
        );
    }

    /// The number of bytes of all lines, without their line feeds.
    pub fn bytes(&self) -> u64 {
        let feeds = self.block.len() as u64;
        let bytes = self.block.bytes().len() as u64;
        self.bytes.wrapping_add(bytes.wrapping_sub(feeds))
    }
}
