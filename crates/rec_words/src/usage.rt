//! The texts that the program prints about itself.
ghost use Rattle.std.specs.Prelude.{◌≡◌};
ghost use Rattle.rec_words.specs.Usage.{versions_text};

/// Says how the program is used.
pub const USAGE: &str = "\
Usage: rezovamy record BUNDLE [OPTION VALUE]..
       rezovamy trace [OPTION VALUE]..
       rezovamy replay [OPTION VALUE]..
       rezovamy report [OPTION VALUE]..
       rezovamy info [OPTION VALUE]..
       rezovamy slots [OPTION VALUE]..
       rezovamy rerun [OPTION VALUE]..
       rezovamy view [OPTION VALUE]..
       rezovamy sample N BUNDLE [OPTION VALUE]..
       rezovamy upgrade BUNDLE [OPTION VALUE]..
       rezovamy salvage BUNDLE [OPTION VALUE]..
       rezovamy live DIR [OPTION VALUE]..
       rezovamy pack DIR BUNDLE [OPTION VALUE]..

record reads the session of a test run from standard input, and writes it into
the file BUNDLE, a portable recording. Its trace, a timeline for trace viewers,
goes to standard output.

The next seven read such a bundle from standard input. trace prints the trace of
its log, replay the events, a line for each, and report what came of the tests,
a line of JSON for each run. info prints the manifest. slots prints how long a
run took and how long each of its slots was busy, paused and idle, all in
nanoseconds. rerun prints which tests are to run again after a run: a line of
JSON, and then a line for each test of its list that runs again, that is
skipped, or that is to run again but is no longer listed. view prints one line
of JSON with each test, what became of it, and its attempts with their times;
then the outputs, of each a line with its path and its length, and its bytes.

sample makes a session of N tests, at most 10000, and writes it into the file
BUNDLE as record does. It prints how many events and outputs were written.

upgrade reads a bundle from standard input, and writes it anew into the file
BUNDLE, as it would be recorded today. salvage reads a bundle whose recording
was stopped, and writes what is whole in it into the file BUNDLE: the metadata,
the events up to the first that isn't there with all its outputs, and these
outputs. It prints how many events and outputs were written.

live records a run while it goes on. It makes the folder DIR, and reads the
session from standard input line by line. It keeps each event in DIR, and then
prints accepted=N, the number of events so far. What was accepted is there even
if the program is killed. pack writes the bundle of such a folder into the file
BUNDLE, of a run that was stopped as salvage does. Standard input has the head
that the run ended with, or nothing. It prints how many events and outputs were
written, and stopped if the run had no end.

Options, each at most once, with a value after it; limits are in bytes:
  --group-by        of record, trace and sample: binary draws a process for
                    each test binary, and slot one process for all (binary)
  --message-format  of record, trace and sample: json writes the trace in one
                    line, and json-pretty over several (json)
  --max-output      of record, sample and live: the most of an output that is
                    kept whole (10485760)
  --read-limit      of all but live and pack: the most of the manifest, of the
                    log and of an entry of the store (268435456)
  --session-limit   the most of standard input that is read (268435456)
  --output          of replay and view: load reads the outputs of tests, and
                    skip leaves them out (load)

Other words, each of them alone:
  --help     prints this text
  --version  prints the version of the program and of its formats

The status is 0 on success, 2 for faulty words, 3 if standard input or DIR
can't be read, 4 if standard input is too long, 5 for a faulty line or the head
of another run, 6 for other bytes under the name of an output, 7 for what is
above the read limit, 8 for an event that needs what isn't open, starts what
is, or takes a slot that is held, 9 for a number out of range, 10 if the bundle
or DIR can't be written, 11 if standard output fails, 12 for a bundle or a
manifest that is damaged, incomplete or of another version, 13 for an event
that can't be replayed or reported, 14 for a log of which slots can't tell the
use, 15 for a store of which nothing can be salvaged, and 70 if memory runs
out.
With a status other than 0, a line on standard error names the cause.
";

/// Returns the version of the program, and those of the formats that it writes.
pub fn versions() -> &'static str
    ensures { result.now ≡ versions_text }
{
    VERSION
}

/// Names the version of the program, and those of the formats that it writes.
const VERSION: &str = "\
rezovamy 0.1.0
portable recording format 1.1
store format 3.1
";
