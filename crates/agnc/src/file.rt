// A program's file: words of 32 bits, least byte first. The first says how many words of 64 bits the function table has, then come these, low
// half first, then the functions one behind the other.
ghost use Rattle.std.specs.Prelude.{◌≤◌, length, IfOk};

use std::fmt;
use std::fs::File;
use std::io::{Error, Read};

// The words of the longest file, and its bytes with room for 65,536 more: a file that is too long is told from one that is not.
pub type Words = [u32; 262144];

pub type Bytes = [u8; 1114112];

const MOST_WORDS: usize = 262144;

const MOST_BYTES: usize = 1114112;

const MOST_IDS: usize = 4096;

// A function's head, and the words of it that say where its pool starts and how many numbers that has, with which it ends.
const HEAD: usize = 14;

const POOL: usize = 13;

const NUMBERS: usize = 8;

// What is wrong with a file, and the number of the function or of the table's words.
#[derive(Clone, Copy)]
pub enum Problem {
    BrokenWord,
    TooLong,
    Empty,
    CutTable,
    TooManyFunctions,
    LongTable(usize),
    CutHead(usize),
    EarlyPool(usize),
    CutFunction(usize),
}

impl fmt::Display for Problem {
    fn fmt<W: fmt::Write>(&self, f: &mut fmt::Formatter<W>) -> fmt::Result {
        match self {
            Problem::BrokenWord => write!(f, "the file's length is not a whole number of words"),
            Problem::TooLong => write!(f, "the file has more than 262144 words"),
            Problem::Empty => write!(f, "the file is empty"),
            Problem::CutTable => write!(f, "the file ends inside the function table"),
            Problem::TooManyFunctions => write!(f, "the file has more than 256 functions"),
            Problem::LongTable(n) => write!(
                f,
                "the function table has {n} words, and there is room for 4096"
            ),
            Problem::CutHead(k) => write!(f, "the file ends inside the head of function {k}"),
            Problem::EarlyPool(k) => write!(f, "the pool of function {k} starts inside its head"),
            Problem::CutFunction(k) => write!(f, "the file ends inside function {k}"),
        }
    }
}

// What is wrong with a file of so many bytes whose function table should have so many words.
pub fn sizes_ok(bytes: usize, ids: usize) -> Result<(), Problem> {
    let words = bytes / 4;
    if bytes % 4 != 0 {
        return Err(Problem::BrokenWord);
    }
    if MOST_WORDS < words {
        return Err(Problem::TooLong);
    }
    if words == 0 {
        return Err(Problem::Empty);
    }
    if MOST_IDS < ids {
        return Err(Problem::LongTable(ids));
    }
    if words < 1 + 2 * ids {
        return Err(Problem::CutTable);
    }
    Ok(())
}

// How many of the words are function k's, which is the first of them.
fn length_of(ws: &[u32], k: usize) -> Result<u32, Problem> {
    if ws.len() < HEAD {
        return Err(Problem::CutHead(k));
    }
    let pool = ws[POOL];
    let numbers = ws[NUMBERS];
    if (pool as usize) < HEAD {
        return Err(Problem::EarlyPool(k));
    }
    if ws.len() < pool as usize + numbers as usize {
        return Err(Problem::CutFunction(k));
    }
    Ok(pool.wrapping_add(numbers))
}

// Where each function ends, and how many there are. These are the words behind the function table.
pub fn split(ws: &[u32], ends: &mut [u32]) -> Result<usize, Problem>
    ensures { IfOk result (λ n. n ≤ length ends.new) }
{
    let mut at: u32 = 0;
    for k in 0..ends.len() {
        let start = at as usize;
        if ws.len() <= start {
            return Ok(k);
        }
        at = at.wrapping_add(length_of(&ws[start..], k)?);
        ends[k] = at;
    }
    if (at as usize) < ws.len() {
        return Err(Problem::TooManyFunctions);
    }
    Ok(ends.len())
}

// After so many bytes: the next, if there is room for it. A reading that failed is told from the end.
pub fn read_on(n: usize, file: &mut File) -> Result<(), Error> {
    let mut byte = [0u8; 1];
    if n < MOST_BYTES {
        file.read(&mut byte)?;
    }
    Ok(())
}
