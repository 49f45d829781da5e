//! Records a test run into a portable bundle, and draws its trace.
#![tactic(auto)]

ghost use Rattle.std.specs.IoError.{error_kind};
ghost use Rattle.std.specs.Prelude.{◌≡◌, ◌↔◌, [], IfOk, string_bytes, unwrap_or};
ghost use Rattle.rec_words.specs.Words.{bundle_of, command, directory_of, texts};

mod run_file;

use rec_container::{FileSink, Sink, StdSink, StdSource};
use rec_directory::join;
use rec_disk::StdDisk;
use rec_format::{PORTABLE_MANIFEST_FILE_NAME, RUN_LOG_FILE_NAME, STORE_ZIP_FILE_NAME};
use rec_program::{
    FAULTY_WORDS, OUT_OF_MEMORY, RunFiles, Streams, bundle_path, directory_path, run_program,
    write_fault,
};
use run_file::{NewFolder, RunFileSink};
use std::alloc::{AllocError, Global};
use std::io::ErrorKind;
use std::process::ExitCode;
use std::rt::{Env, Files};
use std::{env, fs, io};

/// Returns the words after the program's name. A word that isn't UTF-8 is an error.
fn words_of<R: Env + AllocGlobal>(rt: &R) -> io::Result<Vec<String>> {
    let words = env::args(rt)?.skip(1).collect(rt.alloc())?;
    Ok(words)
}

/// Returns the status where the words can't be had: 70 where memory ran out, else 2, as for a word
/// that isn't UTF-8. Only for the first there is a line.
fn status_without_words<G: Sink>(error: &io::Error, diag: &mut G) -> u8
    ensures memory { (result ≡ 70) ↔ (error_kind error.now ≡ ErrorKind.OutOfMemory) }
    ensures words { ¬ (error_kind error.now ≡ ErrorKind.OutOfMemory)
        → (result ≡ 2) × (diag.new ≡ diag.old) }
{
    match error.kind() {
        ErrorKind::OutOfMemory => status_without_memory(diag),
        _ => FAULTY_WORDS,
    }
}

/// Writes the line of want of memory, and returns its status.
fn status_without_memory<G: Sink>(diag: &mut G) -> u8
    ensures { result ≡ 70 }
{
    write_fault(&AllocError, diag);
    OUT_OF_MEMORY
}

/// Returns the path of the file that the bundle goes into, empty where the words name none.
fn path_of(alloc: Global, words: &[String]) -> Result<String, AllocError>
    ensures { IfOk result
        (λ path. string_bytes path ≡ unwrap_or (bundle_of (command (texts words.now))) []) }
{
    String::from_str(alloc, bundle_path(words).unwrap_or(""))
}

/// Returns the path of the directory that a run is recorded into while it goes on, empty where the
/// words name none.
fn directory_of(alloc: Global, words: &[String]) -> Result<String, AllocError>
    ensures { IfOk result
        (λ path. string_bytes path ≡ unwrap_or (directory_of (command (texts words.now))) []) }
{
    String::from_str(alloc, directory_path(words).unwrap_or(""))
}

/// Makes the sinks of the files of a run in a directory, which the first write makes.
fn run_files<'r, R: AllocGlobal + Files>(
    rt: &'r R,
    directory: String,
) -> Result<RunFiles<RunFileSink<'r, R>, RunFileSink<'r, R>, RunFileSink<'r, R>>, AllocError> {
    let alloc = rt.alloc();
    let manifest = join(alloc, directory.as_str(), PORTABLE_MANIFEST_FILE_NAME)?;
    let store = join(alloc, directory.as_str(), STORE_ZIP_FILE_NAME)?;
    let log = join(alloc, directory.as_str(), RUN_LOG_FILE_NAME)?;
    let folder = NewFolder {
        log: join(alloc, directory.as_str(), RUN_LOG_FILE_NAME)?,
        path: directory,
    };
    Ok(RunFiles {
        manifest: RunFileSink::new(rt, Some(folder), manifest),
        store: RunFileSink::new(rt, None, store),
        log: RunFileSink::new(rt, None, log),
    })
}

/// Does what the words ask for with the standard streams, the bundle's file and the run's files,
/// and returns the status.
fn status_of<R: AllocGlobal + Files + Input + Print, G: Drop + Sink>(
    rt: &R,
    words: &[String],
    mut diag: G,
) -> u8 {
    let alloc = rt.alloc();
    let Ok(path) = path_of(alloc, words) else {
        return status_without_memory(&mut diag);
    };
    let Ok(directory) = directory_of(alloc, words) else {
        return status_without_memory(&mut diag);
    };
    let Ok(files) = run_files(rt, directory) else {
        return status_without_memory(&mut diag);
    };
    let streams = Streams {
        source: StdSource::new(rt.reader()),
        bundle: FileSink::new(rt, path),
        files,
        disk: StdDisk::new(rt),
        out: StdSink::new(io::writer(rt)),
        diag,
    };
    run_program(alloc, words, streams).status
}

fn main(rt: HostRuntime) -> ExitCode {
    // Where a standard stream is closed, the next file that is opened would take its place. So
    // these are opened first: the root folder can neither be read nor written as a file.
    let _first = fs::open(&rt, "/").ok();
    let _second = fs::open(&rt, "/").ok();
    let _third = fs::open(&rt, "/").ok();
    let mut diag = StdSink::new(rt.stderr());
    let words = match words_of(&rt) {
        Ok(words) => words,
        Err(error) => return ExitCode::from(status_without_words(&error, &mut diag)),
    };
    ExitCode::from(status_of(&rt, &words, diag))
}
