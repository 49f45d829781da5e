//! What is gathered of a log's sound lines.
ghost use Rattle.std.specs.List.{list_all};
ghost use Rattle.std.specs.Prelude.{◌≡◌, ◌+◌, ◌<◌, ◌^◌, [], IfOk, OnOk};
ghost use Rattle.std.specs.Prelude.{is_some, length, map, string_bytes};
ghost use Rattle.rec_container.specs.Container.{content_of};
ghost use Rattle.rec_salvage.specs.Gathering.{AddsEvent, AddsLine, AddsPaths};
ghost use Rattle.rec_salvage.specs.Gathering.{HasGathered, TakesFirst, TakesSound};

use crate::log_lines::{LogLine, read_log_line, split_whole_line};
use rec_container::Container;
use rec_json::Scratch;
use std::alloc::{AllocError, Global};
use std::collections::BTreeSet;

/// Holds how many events there are, and the paths of their outputs.
#[derive(Drop)]
pub(crate) struct Gathered {
    pub(crate) events: u64,
    pub(crate) paths: BTreeSet<String>,
}

impl Gathered {
    /// Holds what is gathered of no line.
    pub(crate) fn new(alloc: Global) -> Gathered
        ensures { HasGathered [] result }
    {
        Gathered {
            events: 0,
            paths: BTreeSet::new(alloc),
        }
    }

    /// Takes the first line of a log, where it is whole and sound,
    /// and returns what stands after it.
    fn take_line<'a>(
        &mut self,
        alloc: Global,
        prefix: &Container<'_>,
        log: &'a [u8],
        scratch: &mut Scratch,
    ) -> Result<Option<&'a [u8]>, AllocError>
        requires { self.old.events + length log.now < 2 ^ 64 }
        ensures { IfOk result (TakesFirst prefix.now.entries log.now self.old self.new) }
    {
        let Some((line, after)) = split_whole_line(log) else {
            return Ok(None);
        };
        if self.add_line(alloc, prefix, line, scratch)? {
            Ok(Some(after))
        } else {
            Ok(None)
        }
    }

    /// Adds the event of a line, where the line is sound, and returns whether it is.
    fn add_line(
        &mut self,
        alloc: Global,
        prefix: &Container<'_>,
        line: &[u8],
        scratch: &mut Scratch,
    ) -> Result<bool, AllocError>
        requires { self.old.events + 1 < 2 ^ 64 }
        ensures { IfOk result (AddsLine prefix.now.entries line.now self.old self.new) }
    {
        match read_log_line(alloc, line, scratch)? {
            LogLine::Unsound => Ok(false),
            LogLine::Blank => Ok(true),
            LogLine::Event(paths) => self.add_event(prefix, paths),
        }
    }

    /// Adds an event whose outputs stand at these paths, where all are in the prefix, and returns
    /// whether they are.
    fn add_event(&mut self, prefix: &Container<'_>, paths: Vec<String>) -> Result<bool, AllocError>
        requires { self.old.events + 1 < 2 ^ 64 }
        ensures { IfOk result
            (AddsEvent prefix.now.entries (map string_bytes paths.items) self.old self.new) }
    {
        if !has_all(prefix, &paths) {
            return Ok(false);
        }
        add_paths(&mut self.paths, paths)?;
        self.events += 1;
        Ok(true)
    }
}

/// Returns whether all paths are those of entries.
fn has_all(prefix: &Container<'_>, paths: &[String]) -> bool
    ensures { result
        ≡ list_all (λ path. is_some (content_of prefix.now.entries (string_bytes path))) paths.now }
{
    paths.iter().all(|path| prefix.get(path.as_str()).is_some())
}

/// Adds paths to a set.
fn add_paths(set: &mut BTreeSet<String>, paths: Vec<String>) -> Result<(), AllocError>
    ensures { OnOk result (AddsPaths (map string_bytes paths.items) set.old set.new) }
{
    for path in paths {
        set.insert(path)?;
    }
    Ok(())
}

/// Takes the sound lines that a log begins with, and returns how many bytes they have and what was
/// gathered of them.
pub(crate) fn take_lines(
    alloc: Global,
    prefix: &Container<'_>,
    log: &[u8],
) -> Result<(usize, Gathered), AllocError>
    ensures { IfOk result (TakesSound prefix.now.entries log.now) }
{
    let mut gathered = Gathered::new(alloc);
    let mut scratch = Scratch::new(alloc);
    let mut rest = log;
    'lines: while let Some(after) = gathered.take_line(alloc, prefix, rest, &mut scratch)? {
        rest = after;
    }
    Ok((log.len() - rest.len(), gathered))
}
