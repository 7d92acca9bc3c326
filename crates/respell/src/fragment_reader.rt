//! A reader of a fragment: the bytes are read as XML, and their events are written again and compared with them.
ghost use Rattle.std.specs.Prelude.{◌≡◌, ◌+◌, ◌<◌, ◌≤◌, ◌^◌, ◌↔◌, ℕ, List, [], ◌∷◌, ◌++◌, drop, IsTrue, IsFalse, IfOk, IfSome, IfNone, length, vec_len};
ghost use Rattle.std.specs.List.{AllByRecursion};
ghost use Rattle.lexical_core.specs.Tree.{Item};
ghost use Rattle.markup.specs.Reading.{bytes_taken, open_token_held, token_length};
ghost use Rattle.respell.specs.Respelling.{HasSortedAttributes};
ghost use Rattle.respell.specs.Kept.{HasWritten};
ghost use Rattle.respell.specs.inner.FragmentReading.{NoneForeign, event_items, HasReadFront, HasReadAll, IsFragment, ReadsFragmentOn, AdvancesSo, ReadsSomeSo, ReadsWaitingSo};

use crate::respell::Respell;
use markup::{Event, Events, MarkError, Reader};
use std::alloc::{AllocError, Global};

/// How many bytes of a run of characters are written again at once.
const RUN_LIMIT: usize = 4096;

/// What comes of the front of bytes.
#[derive(Clone, Copy)]
enum Advance {
    /// So many of them are taken, and a fragment may begin with the bytes so far.
    Taken(usize),
    /// No fragment goes on with them.
    NoFragment,
}

/// A reader of a fragment, which writes it again.
#[derive(Drop)]
pub(crate) struct FragmentReader {
    reader: Reader,
    events: Events,
    respell: Respell,
}

impl FragmentReader {
    /// Nothing is read. It takes no memory.
    pub(crate) fn new(alloc: Global) -> FragmentReader
        ensures read { HasReadAll result [] [] }
        ensures held { open_token_held result.reader ≡ 0 }
    {
        FragmentReader {
            reader: Reader::without_limit(alloc),
            events: Events::new(alloc),
            respell: Respell::new(alloc),
        }
    }

    /// Reads a piece, and answers whether a fragment may begin with the bytes so far. Those of a token that has not ended
    /// wait: they are compared with the text of its events once these come.
    pub(crate) fn read(&mut self, waiting: &mut Vec<u8>, piece: &[u8]) -> Result<bool, AllocError>
        requires { bytes_taken self.old.reader + length piece.now ≤ 2 ^ 40 }
        ensures goes_on { (before : List ℕ) → HasReadAll self.old waiting.old.items before → IfOk result (λ b. IsTrue b → HasReadAll self.new waiting.new.items (before ++ piece.now)) }
        ensures stops { (before behind : List ℕ) → HasReadAll self.old waiting.old.items before → IfOk result (λ b. IsFalse b → IsFragment ((before ++ piece.now) ++ behind) → ⊥) }
    {
        let count = match self.read_waiting(waiting, piece)? {
            Advance::Taken(count) => count,
            Advance::NoFragment => return Ok(false),
        };
        if !waiting.is_empty() {
            return Ok(true);
        }
        let (_, behind) = piece.split_at(count);
        self.read_ahead(waiting, behind)
    }

    /// Reads bytes at the front of the piece for as long as some wait, and answers how many they are.
    fn read_waiting(&mut self, waiting: &mut Vec<u8>, piece: &[u8]) -> Result<Advance, AllocError>
        requires { bytes_taken self.old.reader + length piece.now ≤ 2 ^ 40 }
        ensures { IfOk result (λ a. ReadsWaitingSo self.old self.new waiting.old.items waiting.new.items piece.now a) }
    {
        let mut left = piece;
        while !left.is_empty() {
            if waiting.is_empty() {
                return Ok(Advance::Taken(piece.len() - left.len()));
            }
            let count = match self.read_some(waiting, left)? {
                Advance::Taken(count) => count,
                Advance::NoFragment => return Ok(Advance::NoFragment),
            };
            let (_, behind) = left.split_at(count);
            left = behind;
        }
        Ok(Advance::Taken(piece.len()))
    }

    /// Reads some bytes at the front of the piece behind those that wait.
    fn read_some(&mut self, waiting: &mut Vec<u8>, piece: &[u8]) -> Result<Advance, AllocError>
        requires some { 0 < length piece.now }
        requires room { bytes_taken self.old.reader + length piece.now ≤ 2 ^ 40 }
        ensures { IfOk result (λ a. ReadsSomeSo self.old self.new waiting.old.items waiting.new.items piece.now a) }
    {
        let count = match self.advance(piece)? {
            Advance::Taken(count) => count,
            Advance::NoFragment => return Ok(Advance::NoFragment),
        };
        let (taken, _) = piece.split_at(count);
        waiting.extend_from_slice(taken)?;
        if self.compare_waiting(waiting) {
            Ok(Advance::Taken(count))
        } else {
            Ok(Advance::NoFragment)
        }
    }

    /// Reads a piece where no bytes wait, and compares it where it stands.
    fn read_ahead(&mut self, waiting: &mut Vec<u8>, piece: &[u8]) -> Result<bool, AllocError>
        requires none { waiting.old.items ≡ [] }
        requires room { bytes_taken self.old.reader + length piece.now ≤ 2 ^ 40 }
        ensures goes_on { (before : List ℕ) → HasReadAll self.old [] before → IfOk result (λ b. IsTrue b → HasReadAll self.new waiting.new.items (before ++ piece.now)) }
        ensures stops { (before behind : List ℕ) → HasReadAll self.old [] before → IfOk result (λ b. IsFalse b → IsFragment ((before ++ piece.now) ++ behind) → ⊥) }
    {
        let mut left = piece;
        let mut uncompared = piece;
        while !left.is_empty() {
            let count = match self.advance(left)? {
                Advance::Taken(count) => count,
                Advance::NoFragment => return Ok(false),
            };
            let Some(rest) = self.compare(uncompared) else {
                return Ok(false);
            };
            uncompared = rest;
            let (_, behind) = left.split_at(count);
            left = behind;
        }
        waiting.extend_from_slice(uncompared)?;
        Ok(true)
    }

    /// How many bytes are held of the open token.
    pub(crate) fn token(&self) -> u64
        ensures held { (waiting bytes : List ℕ) → HasReadAll self.now waiting bytes → result ≡ open_token_held self.now.reader }
        ensures within { (waiting bytes : List ℕ) → HasReadAll self.now waiting bytes → result ≤ token_length self.now.reader }
    {
        self.reader.token()
    }

    /// Takes a whole part from the front of the bytes, or else the first of them.
    fn advance(&mut self, bytes: &[u8]) -> Result<Advance, AllocError>
        requires some { 0 < length bytes.now }
        requires room { bytes_taken self.old.reader + length bytes.now ≤ 2 ^ 40 }
        ensures { IfOk result (λ a. AdvancesSo self.old self.new bytes.now a) }
    {
        let count = self.take_part(bytes)?;
        if count > 0 {
            return Ok(Advance::Taken(count));
        }
        self.take_first(bytes)
    }

    /// Takes a run of characters, a whole tag or bytes inside a token from the front of the bytes, and answers how many
    /// bytes that are, 0 where none of them stands there.
    fn take_part(&mut self, bytes: &[u8]) -> Result<usize, AllocError>
        requires { bytes_taken self.old.reader + length bytes.now ≤ 2 ^ 40 }
        ensures { IfOk result (λ n. ReadsFragmentOn self.old self.new bytes.now n) }
    {
        let run = self.take_run(bytes)?;
        if run > 0 {
            return Ok(run);
        }
        let tag = self.take_tag(bytes)?;
        if tag > 0 {
            return Ok(tag);
        }
        self.take_inside(bytes)
    }

    /// Takes the run of characters at the front of the bytes, of at most 4,096 bytes, and answers how many they are.
    fn take_run(&mut self, bytes: &[u8]) -> Result<usize, AllocError>
        requires { bytes_taken self.old.reader + length bytes.now ≤ 2 ^ 40 }
        ensures { IfOk result (λ n. ReadsFragmentOn self.old self.new bytes.now n) }
    {
        if self.respell.is_closed() {
            return Ok(0);
        }
        let room = bytes.len().min(RUN_LIMIT);
        let run = self.reader.take_characters(&bytes[..room]);
        match self.respell.run(&bytes[..run.bytes]) {
            Ok(()) => Ok(run.bytes),
            Err(error) => Err(error),
        }
    }

    /// Takes the whole tag at the front of the bytes, if one stands there without attributes and in the default namespace
    /// so far, and answers how many bytes it has.
    fn take_tag(&mut self, bytes: &[u8]) -> Result<usize, AllocError>
        requires { bytes_taken self.old.reader + length bytes.now ≤ 2 ^ 40 }
        ensures { IfOk result (λ n. ReadsFragmentOn self.old self.new bytes.now n) }
    {
        if !self.respell.is_in_default() {
            return Ok(0);
        }
        let tag = match self.reader.take_tag(bytes) {
            Ok(Some(tag)) => tag,
            Ok(None) => return Ok(0),
            Err(_) => return Err(AllocError),
        };
        match self.respell.tag(tag.kind, tag.name) {
            Ok(()) => Ok(tag.bytes),
            Err(error) => Err(error),
        }
    }

    /// Takes the bytes at the front that go on with an open token and show no event, and answers how many they are.
    fn take_inside(&mut self, bytes: &[u8]) -> Result<usize, AllocError>
        requires { bytes_taken self.old.reader + length bytes.now ≤ 2 ^ 40 }
        ensures { IfOk result (λ n. ReadsFragmentOn self.old self.new bytes.now n) }
    {
        match self.reader.take_inside(bytes) {
            Ok(count) => Ok(count),
            Err(_) => Err(AllocError),
        }
    }

    /// Takes the first of the bytes.
    fn take_first(&mut self, bytes: &[u8]) -> Result<Advance, AllocError>
        requires some { 0 < length bytes.now }
        requires room { bytes_taken self.old.reader + length bytes.now ≤ 2 ^ 40 }
        ensures { IfOk result (λ a. AdvancesSo self.old self.new bytes.now a) }
    {
        let Some((byte, _behind)) = bytes.split_first() else {
            return Ok(Advance::NoFragment);
        };
        if self.take(*byte)? {
            Ok(Advance::Taken(1))
        } else {
            Ok(Advance::NoFragment)
        }
    }

    /// Takes the next byte, and answers whether a fragment may begin with the bytes so far.
    fn take(&mut self, byte: u8) -> Result<bool, AllocError>
        requires { bytes_taken self.old.reader < 2 ^ 40 }
        ensures goes_on { (bytes forgotten : List ℕ) → HasReadFront self.old bytes forgotten → IfOk result (λ b. IsTrue b → HasReadFront self.new (bytes ++ byte ∷ []) forgotten) }
        ensures stops { (bytes forgotten behind : List ℕ) → HasReadFront self.old bytes forgotten → IfOk result (λ b. IsFalse b → IsFragment ((bytes ++ byte ∷ []) ++ behind) → ⊥) }
        ensures count { IfOk result (λ b. IsTrue b → bytes_taken self.new.reader ≡ bytes_taken self.old.reader + 1) }
    {
        self.events.clear();
        match self.reader.take(byte, &mut self.events) {
            Ok(()) => take_events(&mut self.respell, self.events.as_slice()),
            Err(MarkError::Refused(_)) => Ok(false),
            Err(MarkError::Memory) => Err(AllocError),
        }
    }

    /// What stands in the bytes behind the text so far, which is forgotten; `None` where they do not begin with it.
    fn compare<'a>(&mut self, bytes: &'a [u8]) -> Option<&'a [u8]>
        ensures some { IfSome result (λ rest. self.old.respell.text ++ rest.now ≡ bytes.now) }
        ensures none { (rest : List ℕ) → bytes.now ≡ self.old.respell.text ++ rest → IfNone result ⊥ }
        ensures written { (front forgotten : List ℕ) → HasReadFront self.old front forgotten → IfSome result (λ rest. HasReadFront self.new front (forgotten ++ self.old.respell.text)) }
        ensures forgotten { IfSome result (λ rest. self.new.respell.text ≡ []) }
        ensures count { bytes_taken self.new.reader ≡ bytes_taken self.old.reader }
    {
        let Some(rest) = bytes.strip_prefix(self.respell.so_far()) else {
            return None;
        };
        self.respell.forget();
        Some(rest)
    }

    /// Takes the text so far, which is forgotten, from the front of the bytes that wait, and answers whether they begin with
    /// it.
    fn compare_waiting(&mut self, waiting: &mut Vec<u8>) -> bool
        ensures some { IsTrue result → self.old.respell.text ++ waiting.new.items ≡ waiting.old.items }
        ensures none { (rest : List ℕ) → waiting.old.items ≡ self.old.respell.text ++ rest → IsFalse result → ⊥ }
        ensures written { (front forgotten : List ℕ) → HasReadFront self.old front forgotten → IsTrue result → HasReadFront self.new front (forgotten ++ self.old.respell.text) }
        ensures forgotten { IsTrue result → self.new.respell.text ≡ [] }
        ensures count { bytes_taken self.new.reader ≡ bytes_taken self.old.reader }
    {
        let all = waiting.len();
        let Some(rest) = self.compare(waiting.as_slice()) else {
            return false;
        };
        let count = all - rest.len();
        if count > 0 {
            take_front(waiting, count);
        }
        true
    }

    /// The end of the bytes: whether they are a fragment, where these wait.
    pub(crate) fn finish(&mut self, waiting: &[u8]) -> bool
        ensures { (bytes : List ℕ) → HasReadAll self.old waiting.now bytes → length bytes < 2 ^ 40 → IsTrue result ↔ IsFragment bytes }
    {
        match self.reader.finish(&mut self.events) {
            Ok(()) => waiting.is_empty(),
            Err(_) => false,
        }
    }
}

/// Hands events on up to one that no fragment has, and answers whether there is none.
fn take_events(respell: &mut Respell, events: &[Event]) -> Result<bool, AllocError>
    ensures goes_on { (forgotten : List ℕ) (items : List Item) → HasWritten respell.old forgotten items → NoneForeign 0 items → AllByRecursion HasSortedAttributes (event_items events.now) → IfOk result (λ b. IsTrue b → HasWritten respell.new forgotten (items ++ event_items events.now) × NoneForeign 0 (items ++ event_items events.now)) }
    ensures stops { (forgotten : List ℕ) (items : List Item) → HasWritten respell.old forgotten items → NoneForeign 0 items → AllByRecursion HasSortedAttributes (event_items events.now) → IfOk result (λ b. IsFalse b → NoneForeign 0 (items ++ event_items events.now) → ⊥) }
{
    let mut left = events;
    while let Some((event, others)) = left.split_first() {
        if respell.is_foreign(&event.what) {
            return Ok(false);
        }
        respell.step(&event.what)?;
        left = others;
    }
    Ok(true)
}

/// Takes bytes from the front, so that those behind them stand first.
fn take_front(bytes: &mut Vec<u8>, count: usize)
    requires { count ≤ vec_len bytes.old }
    ensures { bytes.new.items ≡ drop count bytes.old.items }
{
    drop(bytes.drain(..count));
}
