// The file of a program that replays test vectors, record by record, and the tally; and what programs that replay files share.
// Its words are u32, least byte first. The first says how many calls there are. Then come records, each with the number of its words in front. Word 0
// of a record says where its rows start; they stand one behind the other up to its end, a call each, as wide as the program says.
#![tactic(auto)]

ghost use Rattle.std.specs.Prelude.{◌≡◌, ◌+◌, ◌≤◌, ◌<◌, length, replicate, cond, IfOk};

use replay::Entry;

// The number of standard output.
const STDOUT_FILENO: i32 = 1;

// Counts are of numbers up to this.
const MOST: usize = 1000000000;

// The file ends too early, or what comes next in it is larger than the buffers.
#[derive(Clone, Copy)]
pub struct CutShort;

// The row of a call, and where its record ends; how many records and calls there were, and how many calls differ.
#[derive(Clone, Copy)]
pub struct Replay {
    pub row: usize,
    end: usize,
    records: usize,
    calls: usize,
    differ: usize,
}

// Before the first call.
pub fn start() -> Replay {
    Replay {
        row: 0,
        end: 0,
        records: 0,
        calls: 0,
        differ: 0,
    }
}

// A buffer with the same word everywhere.
pub fn filled<T: Copy, const N: usize>(word: T) -> [T; N]
    ensures long { N ≡ length result }
    ensures same { result ≡ replicate N word }
{
    [word; N]
}

// Room for the longest record.
pub fn no_text() -> [u8; 2097152]
    ensures { 2097152 ≡ length result }
{
    filled(0)
}

// The next n bytes of standard input, as the first of the buffer.
pub fn next_bytes(bytes: &mut [u8], n: usize) -> Result<(), CutShort> {
    if n <= bytes.len() && replay::next_bytes(&mut bytes[..n]) {
        Ok(())
    } else {
        Err(CutShort)
    }
}

// The next list, with the number of its entries of so many bytes in front: how many there are, as the first of `to`. Their bytes pass through `bytes`.
pub fn next_list<T: Entry>(bytes: &mut [u8], to: &mut [T], size: u8) -> Result<usize, CutShort>
    ensures { IfOk result (λ n. n ≤ length to.old) }
{
    let n = replay::next_word() as usize;
    if to.len() < n {
        return Err(CutShort);
    }
    next_bytes(bytes, size as usize * n)?;
    replay::load(bytes, 0, to, n);
    Ok(n)
}

// The next record into the text: how many words it has, at least one.
fn next_record(text: &mut [u8]) -> Result<usize, CutShort> {
    let words = replay::next_word() as usize;
    next_bytes(text, 4 * words)?;
    if words == 0 { Err(CutShort) } else { Ok(words) }
}

fn sum(a: usize, b: usize) -> usize {
    a.min(MOST) + b.min(MOST)
}

// The next call of the file, with its record in the text. A record that is not there counts as a call that differs.
pub fn next(text: &mut [u8], r: Replay, width: usize) -> Replay {
    let row = sum(r.row, width);
    let calls = sum(r.calls, 1);
    if row < r.end {
        return Replay { row, calls, ..r };
    }
    let record = next_record(text);
    Replay {
        row: replay::word(text, 0) as usize,
        end: record.unwrap_or(0),
        records: sum(r.records, 1),
        calls,
        differ: if record.is_ok() {
            r.differ
        } else {
            sum(r.differ, 1)
        },
    }
}

// A number, and the text behind it.
pub fn figure(n: usize, text: &[u8]) {
    io::print_decimal(STDOUT_FILENO, n as u64);
    io::write_all(STDOUT_FILENO, text);
}

// The call with what differs in it, 0 for nothing; the first that differs is named.
pub fn told(r: Replay, what: usize) -> Replay {
    if what == 0 {
        return r;
    }
    if r.differ == 0 {
        figure(r.calls, b" is the first call that differs, in record ");
        figure(r.records, b": ");
        figure(what, b"\n");
    }
    Replay {
        differ: sum(r.differ, 1),
        ..r
    }
}

// How many things of a kind differ, number i among them; the first that differs is named.
pub fn counted(kind: &[u8], differ: u32, i: u32, same: bool) -> u32
    requires { (differ ≤ i) × (i < 4294967295) }
    ensures most { result ≤ i + 1 }
    ensures one_more { result ≡ cond same differ (differ + 1) }
{
    if same {
        return differ;
    }
    if differ == 0 {
        replay::write(kind);
        figure(i as usize, b" differs\n");
    }
    differ + 1
}

pub fn report(r: Replay) {
    figure(r.records, b" records, ");
    figure(r.calls, b" calls, ");
    figure(r.differ, b" differ\n");
}

// A file that was cut short is said to be.
pub fn report_cut(all: Result<(), CutShort>) {
    if all.is_err() {
        replay::write(b"the file is cut short\n");
    }
}
