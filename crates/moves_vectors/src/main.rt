// Replays lists of moves whose ops came from the Rust: the file stdin, made by tools/vectors with the commit's own `emit_parallel_move`. What stands
// in its rows is said at the top of oracle/vectors/src/moves.rs.
#![tactic(auto)]

ghost use Rattle.std.specs.Prelude.{◌≡◌, ◌≤◌};
ghost use Rattle.moves_entry.specs.Entry.{answer_number, used_for};

use moves_entry::Columns;
use refusal::Refusal;

// How many words a row has, and each buffer.
const WIDTH: usize = 16;

const ROOM: usize = 1024;

// Document 01's number, and the new used length.
#[derive(Clone, Copy)]
struct Answer {
    number: u64,
    used: u64,
}

fn answer_of(e: Result<usize, Refusal>) -> Answer
    ensures { (result.number ≡ answer_number e) × (result.used ≡ used_for e) }
{
    Answer {
        number: refusal::number_for(e) as u64,
        used: e.unwrap_or(0) as u64,
    }
}

// The moves of a call.
fn moves_of(text: &[u8], row: usize) -> Columns {
    let mut src = [0u32; 190];
    let mut dst = [0u32; 190];
    replay::put(text, row, 0, &mut src);
    replay::put(text, row, 2, &mut dst);
    Columns {
        src,
        dst,
        count: replay::word_in(text, row, 1) as usize,
    }
}

// How many words of a buffer are lent.
fn lent(text: &[u8], row: usize, k: usize) -> usize
    ensures { result ≤ 1024 }
{
    (replay::word_in(text, row, k) as usize).min(ROOM)
}

// What differs in a call: 1 for the number, 2 for the used length, 4 for the ops, 8 for the spans.
fn differences(text: &[u8], row: usize) -> usize {
    let mut ops = [0u64; ROOM];
    let mut spans = [0u32; ROOM];
    let n = lent(text, row, 6);
    let m = lent(text, row, 7);
    let a = answer_of(moves_entry::emit_columns(
        &mut ops[..n],
        &mut spans[..m],
        replay::word_in(text, row, 4) as usize,
        replay::word_in(text, row, 5),
        moves_of(text, row),
    ));
    replay::wrong(text, row, 8, a.number, 1)
        | replay::wrong(text, row, 9, a.used, 2)
        | replay::wrong_list(text, row, 10, &ops, ROOM, 4)
        | replay::wrong_list(text, row, 13, &spans, ROOM, 8)
}

fn main() {
    let mut text = records::no_text();
    let calls = replay::next_word();
    let mut r = records::start();
    for _ in 0..calls {
        r = records::next(&mut text, r, WIDTH);
        r = records::told(r, differences(&text, r.row));
    }
    records::report(r);
}
