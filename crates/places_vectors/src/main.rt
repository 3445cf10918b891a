// Replays functions whose places came from the Rust: the file stdin, made by tools/vectors with the commit's own lowering.
// The file's words are u32, least byte first. The first says how many functions there are. A function: how many words it has, and these; how
// many words the function table has, each of these, low half first; the number that comes back, 0 or 8; and if that is 0: the slots made, one
// past the highest general register used, how many values there are, the map word of each. Each function gets its places in buffers with
// exactly a word for each value, and is refused where one of the three is a word short.
#![tactic(auto)]

ghost use Rattle.std.specs.Prelude.{◌≤◌, length, IfOk};

use placing::Placed;
use records::CutShort;
use refusal::Refusal;

// How many words, words of the function table, and values a function of the file may have.
const MOST_WORDS: usize = 8192;

const MOST_FUNCTIONS: usize = 64;

const MOST_VALUES: usize = 512;

// What stands in every word that is lent; it is no map word.
const LENT: u32 = 999;

// What a call should answer: document 01's number, the slots made, one past the highest general register; and how many map words it gives.
#[derive(Clone, Copy)]
struct Answer {
    number: u32,
    slots: u32,
    top: u32,
    values: usize,
}

// How many values a function has, and whether all is as the Rust has it.
#[derive(Clone, Copy)]
struct Replayed {
    values: usize,
    same: bool,
}

// A refusal gives nothing.
fn refused(number: u32) -> Answer {
    Answer {
        number,
        slots: 0,
        top: 0,
        values: 0,
    }
}

// Is this what a call answered?
fn answered(p: Result<Placed, Refusal>, a: Answer) -> bool {
    match p {
        Ok(g) => (a.number == 0) & (a.slots == g.slots as u32) & (a.top == g.top as u32),
        Err(Refusal::NoSlot) => a.number == 8,
        Err(Refusal::NoRoom) => a.number == 9,
        Err(_) => false,
    }
}

// In so many words of each buffer: is this the answer, are the map's words those at the front of `bytes`, and is the lent work room zero?
fn agrees(
    ws: &[u32],
    functions: &[u64],
    m: usize,
    h: usize,
    d: usize,
    a: Answer,
    bytes: &[u8],
) -> bool
    requires { (m ≤ 512) × ((h ≤ 512) × (d ≤ 512)) }
{
    let mut map = [LENT; MOST_VALUES];
    let mut hints = [LENT; MOST_VALUES];
    let mut noted = [999u64; MOST_VALUES];
    let p = placing::places(
        ws,
        functions,
        &mut map[..m],
        &mut hints[..h],
        &mut noted[..d],
    );
    answered(p, a)
        & replay::right(bytes, 0, a.values, LENT, &map, MOST_VALUES)
        & replay::zeros(&hints, h)
        & replay::zeros(&noted, d)
}

// Each buffer in turn a word short of the n values: 9, where the number is not the lower 8.
fn short(ws: &[u32], functions: &[u64], n: usize, number: u32, bytes: &[u8]) -> bool
    requires { n ≤ 512 }
{
    if n == 0 {
        return true;
    }
    let a = refused(if number == 8 { 8 } else { 9 });
    agrees(ws, functions, n - 1, n, n, a, bytes)
        & agrees(ws, functions, n, n - 1, n, a, bytes)
        & agrees(ws, functions, n, n, n - 1, a, bytes)
}

// The answer that comes next in the file, all but the map words.
fn next_answer() -> Answer {
    let number = replay::next_word();
    if number != 0 {
        return refused(number);
    }
    Answer {
        number,
        slots: replay::next_word(),
        top: replay::next_word(),
        values: replay::next_word() as usize,
    }
}

// The function in buffers of each room, with the answer that comes next in the file; word 3 of it says how many values it has.
fn replay_function(ws: &[u32], functions: &[u64], bytes: &mut [u8]) -> Result<Replayed, CutShort>
    requires { 32768 ≤ length bytes.old }
    ensures { IfOk result (λ r. r.values ≤ 512) }
{
    let values = base::get_or(ws, 3, 0) as usize;
    let a = next_answer();
    if MOST_VALUES < values.max(a.values) {
        return Err(CutShort);
    }
    records::next_bytes(bytes, 4 * a.values)?;
    let given = agrees(ws, functions, values, values, values, a, bytes);
    Ok(Replayed {
        values,
        same: given & short(ws, functions, values, a.number, bytes),
    })
}

// The next function of the file.
fn replay_next(bytes: &mut [u8]) -> Result<Replayed, CutShort>
    requires { 32768 ≤ length bytes.old }
    ensures { IfOk result (λ r. r.values ≤ 512) }
{
    let mut ws = [0u32; MOST_WORDS];
    let mut functions = [0u64; MOST_FUNCTIONS];
    let n = records::next_list(bytes, &mut ws, 4)?;
    let t = records::next_list(bytes, &mut functions, 8)?;
    replay_function(&ws[..n], &functions[..t], bytes)
}

// All functions: how many, how many values they have, how many differ.
fn replay_all(bytes: &mut [u8]) -> Result<(), CutShort>
    requires { 32768 ≤ length bytes.old }
{
    let count = replay::next_word();
    let mut values = 0;
    let mut differ = 0;
    for i in 0..count {
        let r = replay_next(bytes)?;
        values += r.values;
        differ = records::counted(b"function ", differ, i, r.same);
    }
    records::figure(count as usize, b" functions, ");
    records::figure(values, b" values, ");
    records::figure(differ as usize, b" differ\n");
    Ok(())
}

fn main() {
    let mut bytes = [0u8; 32768];
    records::report_cut(replay_all(&mut bytes));
}
