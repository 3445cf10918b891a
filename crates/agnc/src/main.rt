// The compiler's command line: agnc compile FILE, a listing; agnc plain FILE, a form to compare; agnc judge FILE, each function's number.
// The form of a FILE stands at the top of file.rt, a function's words in docs/INPUT.md, and the plain form in listing. The function table has
// room for 4,096 ids. Nothing is compacted. What is wrong is said on standard error, and of a file that is none nothing else is written. A
// refusal ends the program: what was compiled before it is shown.
#![tactic(auto)]

mod errors;
mod file;

use errors::{NAME_TOO_LONG, NO_TEXT, fail};
use file::{Bytes, Problem, Words};
use listing::{Form, Table};
use opnames::Stream;
use std::env::FillError;
use std::fmt::Write;
use std::fs::File;
use std::io::Error;
use std::os::fd::AsRawFd;
use std::rt::Env;

#[derive(Clone, Copy)]
enum Command {
    Show(Form),
    Judge,
}

// The command over these functions.
fn run(command: Command, ws: &[u32], table: &mut Table) -> Result<(), Problem> {
    let mut ends = [0u32; 256];
    let n = file::split(ws, &mut ends)?;
    let found = &ends[..n];
    match command {
        Command::Show(form) => commands::show_program(form, ws, found, table),
        Command::Judge => commands::judge_all(ws, found, table),
    }
    Ok(())
}

// The command over the bytes of a file.
fn run_bytes(command: Command, bytes: &[u8], ws: &mut [u32]) -> Result<(), Problem> {
    let ids = replay::word(bytes, 0) as usize;
    file::sizes_ok(bytes.len(), ids)?;
    let mut table = [0u64; 4096];
    let first = 1 + 2 * ids;
    let n = (bytes.len() / 4).saturating_sub(first).min(ws.len());
    replay::load(bytes, 1, &mut table, ids);
    replay::load(bytes, first, ws, n);
    run(command, &ws[..n], &mut table)
}

// The command over the file of that name. A path is text.
fn run_file(
    rt: &HostRuntime,
    command: Command,
    path: &[u8],
    bytes: &mut Bytes,
    ws: &mut Words,
) -> Result<(), Error> {
    let Ok(name) = str::from_utf8(path) else {
        return Err(Error::from_raw_os_error(NO_TEXT));
    };
    let mut file = File::open(rt, name)?;
    let n = io::read_full(file.as_raw_fd(), bytes);
    file::read_on(n, &mut file)?;
    drop(file);
    if let Err(problem) = run_bytes(command, &bytes[..n], ws) {
        let _ = writeln!(Stream::Error, "agnc: {problem}");
    }
    Ok(())
}

// Is there an argument i?
fn is_given(rt: &HostRuntime, i: usize) -> bool {
    !matches!(rt.arg(i, &mut []), Err(FillError::NotPresent))
}

// The first argument, if there is one more and no other.
fn given_command(rt: &HostRuntime) -> Option<Command> {
    let mut word = [0u8; 16];
    if !is_given(rt, 2) || is_given(rt, 3) {
        return None;
    }
    let n = rt.arg(1, &mut word).ok()?;
    match &word[..n] {
        b"compile" => Some(Command::Show(Form::Listing)),
        b"plain" => Some(Command::Show(Form::Plain)),
        b"judge" => Some(Command::Judge),
        _ => None,
    }
}

fn usage() {
    let _ = Stream::Error.write_str(
        "usage: agnc compile FILE   a listing of what FILE compiles to\n\
        \x20      agnc plain FILE     the same, one item a line, to compare\n\
        \x20      agnc judge FILE     what is wrong with each function of FILE\n",
    );
}

fn main(rt: HostRuntime) {
    let Some(command) = given_command(&rt) else {
        usage();
        return;
    };
    let mut path = io::buffer();
    let Ok(n) = rt.arg(2, &mut path) else {
        let error = Error::from_raw_os_error(NAME_TOO_LONG);
        fail(b"agnc: the file's name", &error);
        return;
    };
    let mut bytes = [0u8; 1114112];
    let mut ws = [0u32; 262144];
    if let Err(error) = run_file(&rt, command, &path[..n], &mut bytes, &mut ws) {
        fail(&path[..n], &error);
    }
}
