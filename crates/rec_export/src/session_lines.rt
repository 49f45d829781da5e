//! The lines of a session, whose text is let go as they are taken.
ghost use Rattle.std.specs.Option.{option_map};
ghost use Rattle.std.specs.Prelude.{◌≡◌, ◌<◌, ◌≤◌, length, take, drop};
ghost use Rattle.std.specs.Prelude.{slice_get, IfOk, IfSome, OnOk};
ghost use Rattle.rec_codec.specs.Lines.{lines, numbered};
ghost use Rattle.rec_codec.specs.LineView.{line_view};
ghost use Rattle.rec_export.specs.Session.{event_lines};
ghost use Rattle.rec_export.specs.SessionLines.{BeginsLastBlock, StartsWithLine};

use memchr::memrchr;
use rec_codec::{Line, line_end};
use std::alloc::{AllocError, Global};
use std::marker::Model;

/// How many bytes a block has at least, but for the first.
const BLOCK: usize = 1 << 20;

/// Holds the lines of a text that weren't taken, in blocks, and lets each block go once its lines
/// were taken. So what is made of the lines grows while their text shrinks.
#[derive(Drop)]
pub struct SessionLines {
    // holds the first line, at `start`, where one is left
    block: Vec<u8>,
    start: usize,
    // the blocks after it, the last one first; none is empty
    later: Vec<Vec<u8>>,
    // the number of the next line
    number: u64,
}

impl Model for SessionLines {
    ghost use Rattle.std.specs.Prelude.{List};
    ghost use Rattle.rec_codec.specs.Lines.{NumberedLine};
    ghost use Rattle.rec_export.specs.SessionLines.{AreBlocks, lines_left};

    ghost Value = { List NumberedLine };

    ghost view = { λ l. lines_left l.number l.start l.block.items l.later.items };

    ghost invariant = { λ l. AreBlocks l.number l.start l.block.items l.later.items };
}

impl SessionLines {
    /// Makes blocks of a text, from its end on, so that no more than one of them is held twice.
    pub fn new(alloc: Global, text: Vec<u8>) -> Result<SessionLines, AllocError>
        ensures { IfOk result (λ left. left ≡ numbered 1 (lines text.items)) }
    {
        let mut block = text;
        let mut later = Vec::new(alloc);
        while let Some(start) = last_block(&block) {
            let last = take_end(alloc, &mut block, start)?;
            later.push(last)?;
        }
        Ok(SessionLines {
            block,
            start: 0,
            later,
            number: 1,
        })
    }

    /// Returns the first line that is left.
    pub fn first(&self) -> Option<Line<'_>>
        ensures { option_map line_view result ≡ slice_get self.now 0 }
    {
        let rest = &self.block[self.start..];
        if rest.is_empty() {
            return None;
        }
        let (bytes, _) = first_line(rest);
        Some(Line {
            number: self.number,
            bytes,
        })
    }

    /// Lets the first line go, if one is left.
    pub fn drop_first(&mut self)
        ensures { self.new ≡ event_lines self.old }
    {
        let rest = &self.block[self.start..];
        if rest.is_empty() {
            return;
        }
        let (_, taken) = first_line(rest);
        self.start += taken;
        // after a line with the greatest number nothing stands
        self.number = self.number.saturating_add(1);
        if self.start == self.block.len() {
            if let Some(block) = self.later.pop() {
                self.block = block;
                self.start = 0;
            }
        }
    }
}

/// Returns where the last lines of a text begin that have the bytes of a block, if a line stands
/// before them.
fn last_block(text: &[u8]) -> Option<usize>
    ensures { IfSome result (BeginsLastBlock text.now) }
{
    let end = text.len().checked_sub(BLOCK)?;
    let newline = memrchr(b'\n', &text[..end])?;
    Some(newline + 1)
}

/// Takes what stands in a text from `start` on, and gives back the memory in which it stood.
fn take_end(alloc: Global, text: &mut Vec<u8>, start: usize) -> Result<Vec<u8>, AllocError>
    requires { start ≤ length text.old.items }
    ensures rest { OnOk result (text.new.items ≡ take start text.old.items) }
    ensures end { IfOk result (λ end. end.items ≡ drop start text.old.items) }
{
    let mut end = Vec::new(alloc);
    end.extend_from_slice(&text[start..])?;
    text.truncate(start);
    text.shrink_to_fit();
    Ok(end)
}

/// Returns the first line of a text that isn't empty, and how many bytes it takes with its newline.
fn first_line(text: &[u8]) -> (&[u8], usize)
    requires { 0 < length text.now }
    ensures { StartsWithLine text.now result.0.now result.1 }
{
    match line_end(text) {
        Some(end) => (&text[..end], end + 1),
        None => (text, text.len()),
    }
}
