// Walks dumps of a real firmware and prints the pc and sp of each frame. data/ has the case sheets, which `args` names; the gate compares what is
// printed with what an emulator's instruction trace said of the same frames. A failed read or write ends the program with status 1.
#![tactic(auto)]

ghost use Rattle.std.specs.Prelude.{◌≤◌, length, IfOk};

use std::env::FillError;
use std::io::Read;
use std::rt::{Env, Files};
use std::{fs, io};

// Prints the pc and sp of each frame. A frame's line has 28 bytes: `frame=`, pc, sp, two flags. Behind the last one stands the line of the stop, which
// is no frame's, so the text may go on behind the answer.
fn print_frames(rt: &impl Print, text: &[u8]) -> io::Result<()> {
    let (lines, _) = text.as_chunks::<28>();
    for line in lines {
        if !line.starts_with(b"frame=") {
            return Ok(());
        }
        rt.write_all(&line[6..23])?;
        rt.write_all(b"\n")?;
    }
    Ok(())
}

// Walks a sheet. The longest text, of 1,024 frames, has under 30,000 bytes.
fn walk(rt: &impl Print, sheet: &[u8]) -> io::Result<()> {
    let mut text = [0u8; 32768];
    match sheet_walk::walk_sheet(sheet, &mut text) {
        Ok(_) => print_frames(rt, &text),
        Err(_) => rt.write_all(b"no room\n"),
    }
}

// Reads until the list is full or the input ends, and gives how many bytes were read.
fn read_full(input: &mut impl Read, list: &mut [u8]) -> io::Result<usize>
    ensures { IfOk result (λ n. n ≤ length list.new) }
{
    let mut done = 0usize;
    while done < list.len() {
        let n = input.read(&mut list[done..])?;
        if n == 0 {
            return Ok(done);
        }
        done += n;
    }
    Ok(done)
}

// Reads and walks the sheet in the file.
fn walk_file(rt: &impl Print, mut file: impl Read + Drop) -> io::Result<()> {
    let mut sheet = [0u8; 65536];
    let n = read_full(&mut file, &mut sheet)?;
    walk(rt, &sheet[..n])
}

// Replays the sheet of that name. Where it cannot be opened, standard error says why.
fn replay(rt: &(impl Eprint + Files + Print), name: &str) -> io::Result<()> {
    match fs::open(rt, name) {
        Ok(file) => walk_file(rt, file),
        Err(error) => eprintln!(rt; "{name}: {error}"),
    }
}

// Replays the sheet that an argument names.
fn replay_argument(rt: &(impl Eprint + Files + Print), name: &[u8]) -> io::Result<()> {
    rt.write_all(name)?;
    rt.write_all(b"\n")?;
    match str::from_utf8(name) {
        Ok(name) => replay(rt, name),
        Err(_) => eprintln!(rt; "a file name that is not UTF-8"),
    }
}

// Replays the sheets that the arguments behind the program's name name. One of over 4,096 bytes counts as an empty name: no file has either.
fn replay_all(rt: &(impl Env + Eprint + Files + Print)) -> io::Result<()> {
    for k in 1..usize::MAX {
        let mut name = [0u8; 4096];
        let n = match rt.arg(k, &mut name) {
            Ok(n) => n,
            Err(FillError::TooLong) => 0,
            Err(FillError::NotPresent) => return Ok(()),
        };
        replay_argument(rt, &name[..n])?;
    }
    Ok(())
}

fn main(rt: HostRuntime) -> io::Result<()> {
    replay_all(&rt)
}
