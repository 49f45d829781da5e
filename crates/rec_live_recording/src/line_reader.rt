//! A session, read line by line.
ghost use Rattle.std.specs.Prelude.{◌≡◌, ◌<◌, ◌≤◌, ◌+◌, ℕ, List, [], length, Ok, true, false};
ghost use Rattle.std.specs.Prelude.{IfErr, IfOk, OnOk};
ghost use Rattle.rec_container.specs.declared.within.ReadError.TheVariants.{OutOfMemory};
ghost use Rattle.rec_codec.specs.LineView.{line_view};
ghost use Rattle.rec_live_recording.specs.LineReading.{Ends, IsCaused, IsLeft, MissesPiece};
ghost use Rattle.rec_live_recording.specs.LineReading.{ReadsLine, ReadsPiece, Takes};

use rec_codec::{Line, line_end};
use rec_container::{ReadError, Source};
use std::alloc::Global;
use std::marker::Model;

/// How many bytes are asked for at most at once.
const PIECE: usize = 4096;

/// Reads lines from a source, one after the other, as [`rec_codec::Lines`] finds them in a text. It
/// holds one line, and at most a piece of what comes after it.
#[derive(Drop)]
pub struct LineReader<S: Source> {
    source: S,
    // how many bytes the source may give, and how many it gave
    limit: u64,
    given: u64,
    // what was read at last; from `at` on it is of later lines
    piece: Vec<u8>,
    at: usize,
    line: Vec<u8>,
    // how many lines were read
    number: u64,
}

impl<S: Source> Model for LineReader<S> {
    ghost use Rattle.std.specs.Prelude.{◌≤◌, ◌+◌, length, drop};
    ghost use Rattle.rec_live_recording.specs.LineReading.{LineReading};

    ghost Value = { LineReading S };

    ghost view = { λ r.
        record {
          source = r.source;
          limit = r.limit;
          given = r.given;
          ahead = drop r.at r.piece.items;
          line = r.line.items;
          number = r.number;
        } };

    // Each line that was read took a byte that was given.
    ghost invariant = { λ r. (r.given ≤ r.limit) × (r.at ≤ length r.piece.items)
        × (r.number + length (drop r.at r.piece.items) ≤ r.given) };
}

impl<S: Source> LineReader<S> {
    /// Makes a reader of the lines of a source, of which nothing was read. The source may give
    /// `limit` bytes.
    pub fn new(alloc: Global, limit: u64, source: S) -> LineReader<S>
        ensures { result ≡ record {
          source = source;
          limit = limit;
          given = 0;
          ahead = [];
          line = [];
          number = 0;
        } }
    {
        LineReader {
            source,
            limit,
            given: 0,
            piece: Vec::new(alloc),
            at: 0,
            line: Vec::new(alloc),
            number: 0,
        }
    }

    /// Returns the line that was read last, with its number.
    pub fn line(&self) -> Line<'_>
        ensures { line_view result ≡ record { number = self.now.number; bytes = self.now.line } }
    {
        Line {
            number: self.number,
            bytes: &self.line,
        }
    }

    /// Hands the source back.
    pub fn into_source(self) -> S
        ensures { result ≡ self.source }
    {
        self.source
    }

    /// Reads the next line, and returns whether there is one.
    ///
    /// # Errors
    ///
    /// - `SourceFault` comes where the source fails.
    /// - `TooLarge` comes where the source gives more bytes than its limit.
    /// - `OutOfMemory` comes where memory runs out.
    pub fn read_line(&mut self) -> Result<bool, ReadError>
        ensures within { OnOk result (self.new.number ≤ self.new.limit) }
        ensures limit { self.new.limit ≡ self.old.limit }
        ensures counted { result ≡ Ok true → self.new.number ≡ self.old.number + 1 }
        ensures read { (total : ℕ) (text : List ℕ)
            → IsLeft S.left total text self.old
            → ReadsLine S.left total text self.old self.new result }
        ensures cause { IsCaused S.faults self.old self.new result }
    {
        self.line.clear();
        'pieces: while !self.take_line()? {
            if !self.read_piece()? {
                return Ok(self.end_line());
            }
        }
        Ok(true)
    }

    /// Moves what was read of a line into it, and returns whether its end was there.
    fn take_line(&mut self) -> Result<bool, ReadError>
        ensures room { self.new.number + length self.new.ahead ≤ self.new.given }
        ensures ok { IfOk result (Takes self.old self.new) }
        ensures kept { self.new
            ≡ record self.old {
              ahead = self.new.ahead;
              line = self.new.line;
              number = self.new.number;
            } }
        ensures err { IfErr result (λ e. e ≡ OutOfMemory) }
    {
        let ahead = &self.piece[self.at..];
        match line_end(ahead) {
            Some(end) => {
                self.line.extend_from_slice(&ahead[..end])?;
                self.at += end + 1;
                self.number += 1;
                Ok(true)
            }
            None => {
                self.line.extend_from_slice(ahead)?;
                self.at = self.piece.len();
                Ok(false)
            }
        }
    }

    /// Reads a piece, and returns whether something was left.
    fn read_piece(&mut self) -> Result<bool, ReadError>
        requires none { self.old.ahead ≡ [] }
        ensures kept { self.new
            ≡ record self.old {
              source = self.new.source;
              given = self.new.given;
              ahead = self.new.ahead;
            } }
        ensures read { (total : ℕ) (text : List ℕ)
            → IsLeft S.left total text self.old
            → ReadsPiece S.left total text self.old self.new result }
        ensures given { IfOk result (λ _. self.new.given ≡ self.old.given + length self.new.ahead) }
        ensures within { self.new.given ≤ self.new.limit }
        ensures some { result ≡ Ok true → 0 < length self.new.ahead }
        ensures none { result ≡ Ok false → self.new.ahead ≡ [] }
        ensures cause { IsCaused S.faults self.old self.new result }
    {
        let left = self.limit - self.given;
        let ask = left.min(PIECE as u64 - 1) as usize + 1;
        let mut piece = [0u8; PIECE];
        let window = &mut piece[..ask];
        match self.source.read(window) {
            Err(_) => Err(ReadError::SourceFault),
            Ok(0) => Ok(false),
            Ok(count) => self.keep_piece(&window[..count]),
        }
    }

    /// Keeps a piece that was read, where the source was to give it.
    fn keep_piece(&mut self, piece: &[u8]) -> Result<bool, ReadError>
        ensures source { self.new.source ≡ self.old.source }
        ensures kept { self.new
            ≡ record self.old { given = self.new.given; ahead = self.new.ahead } }
        ensures ok { IfOk result (λ some. (some ≡ true) × (self.new.ahead ≡ piece.now)
            × (self.new.given ≡ self.old.given + length piece.now)) }
        ensures within { self.new.given ≤ self.new.limit }
        ensures err { IfErr result (MissesPiece self.old (length piece.now)) }
    {
        if piece.len() as u64 > self.limit - self.given {
            return Err(ReadError::TooLarge { limit: self.limit });
        }
        self.piece.clear();
        self.at = 0;
        self.piece.extend_from_slice(piece)?;
        self.given += piece.len() as u64;
        Ok(true)
    }

    /// Ends the last line, where it isn't empty, and returns whether it is one.
    fn end_line(&mut self) -> bool
        requires room { self.old.number + length self.old.line + length self.old.ahead
            ≤ self.old.given }
        ensures kept { self.new ≡ record self.old { number = self.new.number } }
        ensures ended { Ends self.old self.new result }
    {
        if self.line.is_empty() {
            return false;
        }
        self.number += 1;
        true
    }
}
