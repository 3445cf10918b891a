// The outer entry of parallel moves, over a slice of pairs: a thin layer over the number columns.
#![tactic(auto)]

ghost use Rattle.std.specs.Prelude.{◌≡◌, Bool, ◌<◌, ◌≤◌, length, leb};
ghost use Rattle.base.specs.Choice.{pick};
ghost use Rattle.base.specs.Limits.{most_moves, most_of_a_kind};
ghost use Rattle.base.specs.Lists.{distinct};
ghost use Rattle.place.specs.Registers.{registers};
ghost use Rattle.moves.specs.Moves.{move_words};
ghost use Rattle.moves.specs.AtOnce.{place_ok, all_ok, moves_ok};
ghost use Rattle.moves_entry.specs.Entry.{outcome, outcome_of, sources_of, destinations_of, move_slots, few_enough};
ghost use Rattle.moves_entry.specs.Gathering.{empty_columns, with_move, columns_of, sources_in, destinations_in, columns_outcome, appended, Fresh, most_words};

use base::Pen;
use place::Place;
use refusal::Refusal;

// One pending move.
#[derive(Clone, Copy)]
pub struct Move {
    pub src: Place,
    pub dst: Place,
}

// Moves in one list.
const MOST_MOVES: usize = 190;

// Ops in a program.
const MOST_OPS: usize = 65534;

// Words of one list: four for a move at most.
const MOST_WORDS: usize = 760;

// A list of moves as two columns of place numbers: how many they are, and the first 190 of them.
#[derive(Clone, Copy)]
pub struct Columns {
    pub src: [u32; MOST_MOVES],
    pub dst: [u32; MOST_MOVES],
    pub count: usize,
}

// Columns for so many moves, of which they hold none yet.
fn empty_columns(count: usize) -> Columns
    ensures { result ≡ empty_columns count }
{
    Columns {
        src: [0; MOST_MOVES],
        dst: [0; MOST_MOVES],
        count,
    }
}

// The columns with a move at i.
fn with_move(c: Columns, i: usize, m: Move) -> Columns
    requires { i < most_moves }
    ensures { result ≡ with_move c i m }
{
    let mut r = c;
    r.src[i] = place::number_of(m.src);
    r.dst[i] = place::number_of(m.dst);
    r
}

// The columns of a list of moves.
fn gather(list: &[Move]) -> Columns
    ensures { result ≡ columns_of list.now }
{
    let mut c = empty_columns(list.len());
    for i in 0..list.len().min(MOST_MOVES) {
        c = with_move(c, i, list[i]);
    }
    c
}

// A pool register, or a slot that a move may name?
fn place_ok(p: u32) -> bool
    ensures { result ≡ place_ok registers move_slots p }
{
    if p < 256 {
        place::in_pool(p as u8)
    } else {
        p - 256 < 256
    }
}

// Are all such places?
fn places_ok(ps: &[u32]) -> bool
    ensures { result ≡ all_ok registers move_slots ps.now }
{
    ps.iter().all(|p| place_ok(*p))
}

// Does none stand there twice?
fn distinct_ok(ps: &[u32]) -> bool
    ensures { result ≡ distinct ps.now }
{
    for (i, p) in ps.iter().enumerate() {
        if ps[i + 1..].contains(p) {
            return false;
        }
    }
    true
}

// Are two columns a list of moves?
fn moves_ok(src: &[u32], dst: &[u32]) -> bool
    ensures { result ≡ moves_ok registers move_slots src.now dst.now }
{
    places_ok(src) && places_ok(dst) && distinct_ok(dst)
}

// Are there no more than 190 moves, and is the used length within buffers of so many ops and spans?
fn few_enough(count: usize, used: usize, ops: usize, spans: usize) -> bool
    ensures { result ≡ pick (leb count most_moves) (pick (leb used ops) (pick (leb used spans) (leb used most_of_a_kind) Bool.false) Bool.false) Bool.false }
{
    count <= MOST_MOVES && used <= ops && used <= spans && used <= MOST_OPS
}

// The words of the columns' moves, with their spans, at the front of two buffers that have room for any list's; how many they are.
fn words_of(words: &mut [u64], marks: &mut [u32], span: u32, c: Columns) -> usize
    requires { (c.count ≤ most_moves) × (length words.old ≡ most_words) × (length marks.old ≡ most_words) }
    ensures { Fresh (move_words registers (sources_in c) (destinations_in c)) span words.new marks.new result }
{
    let mut src = c.src;
    let mut dst = c.dst;
    let p = Pen {
        at: 0,
        room: MOST_WORDS,
        full: false,
        last: 0,
        span,
    };
    let q = moves_code::put_moves(words, marks, p, &mut src, &mut dst, c.count);
    q.at
}

// The ops of a list of moves behind the used length where there is room for them in both buffers.
fn append(
    ops: &mut [u64],
    spans: &mut [u32],
    used: usize,
    span: u32,
    c: Columns,
) -> Result<usize, Refusal>
    requires { few_enough c.count used ops.old spans.old ≡ Bool.true }
    ensures { outcome result ops.new spans.new ≡ appended (move_words registers (sources_in c) (destinations_in c)) used span ops.old spans.old }
{
    let mut words = [0; MOST_WORDS];
    let mut marks = [0; MOST_WORDS];
    let n = words_of(&mut words, &mut marks, span, c);
    let room = MOST_OPS.min(ops.len()).min(spans.len());
    if room - used < n {
        return Err(Refusal::NoRoom);
    }
    base::copy(ops, used, &words[..n]);
    base::copy(spans, used, &marks[..n]);
    Ok(used + n)
}

// The entry over columns: the ops of their moves behind the used length, all with one span. A refused call changes nothing.
pub fn emit_columns(
    ops: &mut [u64],
    spans: &mut [u32],
    used: usize,
    span: u32,
    c: Columns,
) -> Result<usize, Refusal>
    ensures { outcome result ops.new spans.new ≡ columns_outcome registers c used span ops.old spans.old }
{
    if !few_enough(c.count, used, ops.len(), spans.len()) {
        return Err(Refusal::TooMany);
    }
    if !moves_ok(&c.src[..c.count], &c.dst[..c.count]) {
        return Err(Refusal::BadMove);
    }
    append(ops, spans, used, span, c)
}

// The ops of a list of moves behind the used length, all with one span. A refused call changes nothing.
pub fn emit_moves(
    ops: &mut [u64],
    spans: &mut [u32],
    used: usize,
    span: u32,
    list: &mut [Move],
) -> Result<usize, Refusal>
    ensures { (outcome result ops.new spans.new ≡ outcome_of registers (sources_of list.old) (destinations_of list.old) used span ops.old spans.old) × (list.new ≡ list.old) }
{
    let c = gather(list);
    emit_columns(ops, spans, used, span, c)
}
