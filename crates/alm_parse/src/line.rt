//! The parsed lines of a source.

use crate::args::Args;
use crate::deed::LineEffect;
use alm_tokens::span::{Span, Spans};

/// A line of a source: its labels in order, its operation with its arguments and its effect, the
/// index in the text where the line begins, and its number, counted from 1. An operation without an
/// operand has no arguments.
#[derive(Drop)]
pub struct Line36 {
    pub labels: Spans,
    pub args: Args,
    pub op: Option<Span>,
    pub start: u32,
    pub line: u32,
    pub deed: LineEffect,
}
