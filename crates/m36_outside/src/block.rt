//! A block: pieces of output that are put at once.

ghost use Rattle.std.specs.Prelude.{ℕ, [], ◌∷◌, ◌++◌, ◌+◌, ◌≡◌, ◌<◌, ◌≤◌, ◌==◌, length, get_or};
ghost use Rattle.std.specs.Prelude.{take, slice_range};
ghost use Rattle.std.specs.Bool.{OnTrue, OnFalse};
ghost use Rattle.m36_outside.specs.Block.{has_room, is_room, offsets_of};
ghost use Rattle.m36_outside.specs.Gathered.{Adds};
ghost use Rattle.m36_outside.specs.Passing.{joined, TakesLines};
ghost use Rattle.m36_outside.specs.Put.{PutResult, PutHasCause, OnFailed};

use crate::call_log::{Entries, Log};
use crate::sink::{Put, Sink};
use crate::spelled::{SHORT, Spelled};
use crate::text::Text;
use std::marker::Model;

/// The maximum number of bytes of all pieces together.
const BYTES: usize = 32768;

/// The maximum number of pieces.
const PIECES: usize = 2048;

/// The maximum number of marks: one for the begin of each piece, and one for the end of the last.
const PIECES_AND_END: usize = 2049;

/// Pieces in order; the view is the list of them. Their bytes are contiguous, so a system can take
/// all pieces in one call. A block has room for 2,048 pieces and for 32,768 bytes in them.
#[derive(Drop)]
pub struct Block {
    /// The bytes of the pieces, and then unused bytes.
    bytes: [u8; BYTES],
    /// The offset in `bytes` of each piece, then the offset of the end of the last one, then
    /// unused marks.
    offsets: [usize; PIECES_AND_END],
    /// The number of bytes of all pieces.
    len: usize,
    /// The number of pieces.
    count: usize,
    pieces: Log<Text>,
}

impl Model for Block {
    ghost use Rattle.std.specs.Prelude.{ℕ, List};
    ghost use Rattle.m36_outside.specs.Block.{IsStored};

    ghost Value = { List (List ℕ) };

    ghost view = { λ b. b.pieces.entries };

    ghost invariant = { λ b. IsStored b.bytes b.offsets b.len b.count b.pieces.entries };
}

impl Block {
    /// An empty block.
    #[tactic(auto, using(crate::proofs::Blocks::blocks))]
    pub fn new() -> Block
        ensures { result ≡ [] }
    {
        Block {
            bytes: [0; BYTES],
            offsets: [0; PIECES_AND_END],
            len: 0,
            count: 0,
            pieces: Log::new(),
        }
    }

    /// Whether the block is empty.
    pub fn is_empty(&self) -> bool
        ensures { result ≡ (length self.now == 0) }
    {
        self.len() == 0
    }

    /// The number of pieces.
    #[tactic(auto, using(crate::proofs::Blocks::blocks))]
    pub fn len(&self) -> usize
        ensures { result ≡ length self.now }
    {
        self.count
    }

    /// The bytes of all pieces, concatenated.
    #[tactic(auto, using(crate::proofs::Blocks::blocks))]
    pub fn bytes(&self) -> &[u8]
        ensures { result.now ≡ joined self.now }
    {
        &self.bytes[..self.len]
    }

    /// The piece with this index.
    #[tactic(auto, using(crate::proofs::Blocks::blocks))]
    pub fn piece(&self, place: usize) -> &[u8]
        requires { place < length self.now }
        ensures { result.now ≡ get_or self.now place [] }
    {
        let offsets = self.offsets();
        between(self.bytes(), offsets[place], offsets[place + 1])
    }

    // The offset of each piece, and the offset of the end of the last one.
    fn offsets(&self) -> &[usize]
        ensures { result.now ≡ offsets_of 0 self.now }
    {
        &self.offsets[..self.count + 1]
    }

    /// Appends a piece if there is room for it, and returns whether there is.
    #[tactic(auto, using(crate::proofs::Blocks::blocks))]
    pub fn push(&mut self, piece: &[u8]) -> bool
        ensures room { result ≡ has_room self.old piece.now }
        ensures done { OnTrue result (self.new ≡ self.old ++ piece.now ∷ []) }
        ensures full { OnFalse result (self.new ≡ self.old) }
    {
        if !is_room(self.len, self.count, piece.len()) {
            return false;
        }
        self.len = append_piece(&mut self.bytes, self.len, piece);
        self.count = add_offset(&mut self.offsets, self.count, self.len);
        self.pieces.note(&piece);
        true
    }

    /// As `push`, for a short text, which is spelled directly into the block.
    #[inline(always)]
    #[tactic(auto, using(crate::proofs::Blocks::blocks))]
    pub fn push_line<L: Spelled>(&mut self, line: &L) -> bool
        ensures room { result ≡ has_room self.old (L.text line.now) }
        ensures done { OnTrue result (self.new ≡ self.old ++ L.text line.now ∷ []) }
        ensures full { OnFalse result (self.new ≡ self.old) }
    {
        if !is_room(self.len, self.count, SHORT) {
            return self.push_copy(line);
        }
        self.len = append_spelled(&mut self.bytes, self.len, line);
        self.count = add_offset(&mut self.offsets, self.count, self.len);
        self.pieces.note(&Line { line });
        true
    }

    // As `push_line`, where the block may have no room for the longest text: makes a copy first.
    #[inline(never)]
    fn push_copy<L: Spelled>(&mut self, line: &L) -> bool
        ensures room { result ≡ has_room self.old (L.text line.now) }
        ensures done { OnTrue result (self.new ≡ self.old ++ L.text line.now ∷ []) }
        ensures full { OnFalse result (self.new ≡ self.old) }
    {
        let mut copy = [0; SHORT];
        let count = line.spell(&mut copy);
        self.push(&copy[..count])
    }

    /// Removes all pieces.
    #[tactic(auto, using(crate::proofs::Blocks::blocks))]
    pub fn clear(&mut self)
        ensures { self.new ≡ [] }
    {
        self.len = 0;
        self.count = 0;
        self.offsets[0] = 0;
        self.pieces = Log::new();
    }

    /// Puts all pieces into the sink, and removes them, even if the put failed.
    pub fn hand_over<S: Sink>(&mut self, out: &mut S) -> Put
        ensures says { PutResult result (S.written out.old) (S.written out.new) (joined self.old) }
        ensures through { TakesLines result (S.taken out.old) (S.taken out.new) self.old }
        ensures cause { PutHasCause result (S.faults out.old) (S.faults out.new) }
        ensures empty { self.new ≡ [] }
    {
        let answer = out.put_block(self);
        self.clear();
        answer
    }

    /// Appends a piece. If there is no room for it, puts the earlier pieces into the sink first.
    /// If that fails, the block is empty afterwards.
    #[tactic(auto, using(crate::proofs::Gathered::gathering))]
    pub fn add<S: Sink>(&mut self, piece: &[u8], out: &mut S) -> Put
        ensures adds { Adds result self.old self.new (piece.now ∷ [])
            (S.written out.old) (S.written out.new) (S.taken out.old) (S.taken out.new) }
        ensures cause { PutHasCause result (S.faults out.old) (S.faults out.new) }
        ensures lost { OnFailed result (self.new ≡ []) }
    {
        if self.push(piece) {
            return Put::Done;
        }
        match self.hand_over(out) {
            Put::Done => self.add_first(piece, out),
            Put::Failed => Put::Failed,
        }
    }

    /// As `add`, for a short text.
    #[inline(always)]
    pub fn add_line<L: Spelled, S: Sink>(&mut self, line: &L, out: &mut S) -> Put
        ensures adds { Adds result self.old self.new (L.text line.now ∷ [])
            (S.written out.old) (S.written out.new) (S.taken out.old) (S.taken out.new) }
        ensures cause { PutHasCause result (S.faults out.old) (S.faults out.new) }
        ensures lost { OnFailed result (self.new ≡ []) }
    {
        if self.push_line(line) {
            Put::Done
        } else {
            self.add_copy(line, out)
        }
    }

    // As `add_line`, where there is no room for the text.
    #[inline(never)]
    fn add_copy<L: Spelled, S: Sink>(&mut self, line: &L, out: &mut S) -> Put
        ensures adds { Adds result self.old self.new (L.text line.now ∷ [])
            (S.written out.old) (S.written out.new) (S.taken out.old) (S.taken out.new) }
        ensures cause { PutHasCause result (S.faults out.old) (S.faults out.new) }
        ensures lost { OnFailed result (self.new ≡ []) }
    {
        let mut copy = [0; SHORT];
        let count = line.spell(&mut copy);
        self.add(&copy[..count], out)
    }

    /// Adds the last piece, and puts everything into the sink. The block is empty afterwards, even
    /// after a failure.
    #[tactic(auto, using(crate::proofs::Gathered::finishing))]
    pub fn finish<S: Sink>(&mut self, piece: &[u8], out: &mut S) -> Put
        ensures says { PutResult result
            (S.written out.old) (S.written out.new) (joined (self.old ++ piece.now ∷ [])) }
        ensures through { TakesLines result
            (S.taken out.old) (S.taken out.new) (self.old ++ piece.now ∷ []) }
        ensures cause { PutHasCause result (S.faults out.old) (S.faults out.new) }
        ensures empty { self.new ≡ [] }
    {
        match self.add(piece, out) {
            Put::Done => self.hand_over(out),
            Put::Failed => Put::Failed,
        }
    }

    /// Adds a piece to an empty block. A piece that is too long for any block is put directly.
    #[tactic(auto, using(crate::proofs::Gathered::gathering))]
    fn add_first<S: Sink>(&mut self, piece: &[u8], out: &mut S) -> Put
        requires { self.old ≡ [] }
        ensures adds { Adds result self.old self.new (piece.now ∷ [])
            (S.written out.old) (S.written out.new) (S.taken out.old) (S.taken out.new) }
        ensures cause { PutHasCause result (S.faults out.old) (S.faults out.new) }
        ensures lost { OnFailed result (self.new ≡ []) }
    {
        if self.push(piece) {
            Put::Done
        } else {
            out.put(piece)
        }
    }
}

/// Whether there is room for `wanted` more bytes as one more piece.
#[inline(always)]
fn is_room(len: usize, count: usize, wanted: usize) -> bool
    requires { len ≤ BYTES }
    ensures { result ≡ is_room len count wanted }
{
    count < PIECES && wanted <= BYTES - len
}

/// Copies a piece to the offset `len`, and returns the offset after it.
#[inline(always)]
#[tactic(auto, using(crate::proofs::Fronts::front_put))]
fn append_piece(bytes: &mut [u8; BYTES], len: usize, piece: &[u8]) -> usize
    requires { len + length piece.now ≤ BYTES }
    ensures end { result ≡ len + length piece.now }
    ensures bytes { take result bytes.new ≡ take len bytes.old ++ piece.now }
{
    let end = len + piece.len();
    bytes[len..end].copy_from_slice(piece);
    end
}

/// Spells a short text at the offset `len`, and returns the offset after it.
#[inline(always)]
#[tactic(auto, using(crate::proofs::Fronts::front_put))]
fn append_spelled<L: Spelled>(bytes: &mut [u8; BYTES], len: usize, line: &L) -> usize
    requires { len + SHORT ≤ BYTES }
    ensures end { result ≡ len + length (L.text line.now) }
    ensures short { length (L.text line.now) ≤ SHORT }
    ensures bytes { take result bytes.new ≡ take len bytes.old ++ L.text line.now }
{
    len + line.spell(&mut bytes[len..len + SHORT])
}

/// Marks `end` as the end of one more piece after `count` pieces, and returns the number of pieces
/// then.
#[inline(always)]
#[tactic(auto, using(std::proofs::lemmas::List::take_more_set))]
fn add_offset(offsets: &mut [usize; PIECES_AND_END], count: usize, end: usize) -> usize
    requires { count < PIECES }
    ensures count { result ≡ count + 1 }
    ensures offsets { take (result + 1) offsets.new ≡ take (count + 1) offsets.old ++ end ∷ [] }
{
    offsets[count + 1] = end;
    count + 1
}

/// The bytes in `from .. until`.
fn between(bytes: &[u8], from: usize, until: usize) -> &[u8]
    requires order { from ≤ until }
    requires within { until ≤ length bytes.now }
    ensures { result.now ≡ slice_range bytes.now from until }
{
    &bytes[from..until]
}

/// A short text, logged as one piece.
#[derive(Drop)]
struct Line<'a, L> {
    line: &'a L,
}

impl<'a, L: Spelled> Entries<Text> for Line<'a, L> {
    ghost entries = { λ piece. L.text piece.line.now ∷ [] };
}

impl Entries<Text> for Block {
    ghost entries = { λ block. block };
}

/// The pieces that a system took of a block from its beginning, and a prefix of the next piece.
#[derive(Drop)]
pub(crate) struct TakenPart<'a> {
    pub(crate) block: &'a Block,
    pub(crate) taken: &'a Log<u8>,
}

impl<'a> Entries<Text> for TakenPart<'a> {
    ghost use Rattle.m36_outside.specs.Block.{split_at_pieces};

    ghost entries = { λ begun. split_at_pieces begun.taken.now.entries begun.block.now };
}
