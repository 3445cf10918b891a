// Replays programs whose every list came from the Rust: the file stdin, made by tools/vectors with the commit's own lowering. Its form stands at
// the top of oracle/vectors/src/compile.rs. Each function is compiled behind the program that the Rust had before it, in buffers that are marked
// past that: the answer, the used lengths and every buffer have to be as the Rust leaves the program after it, so the next function starts where
// this one ended. Then it is compiled again in exactly enough room, and for each buffer that it adds to in one word less, which is refused.
// Strings that are interned before the first function stand in the globals from the beginning: another program replays the entry for them.
#![tactic(auto)]

ghost use Rattle.std.specs.Prelude.{◌≤◌};
ghost use Rattle.compile_vectors.specs.Lending.{Fits};

use lists::Used;
use records::CutShort;
use refusal::Refusal;
use replay::Entry;

// Sums are of numbers up to this.
const MOST: usize = 1000000;

// No list of the text, and so no number of it that counts, is longer.
const LONGEST: usize = 65536;

// What stands in every word that is lent and not used yet.
const MARK: u32 = 999999999;

const WIDE_MARK: u64 = 999999999;

// The number of a refusal for too little room.
const NO_ROOM: usize = 9;

// The differences of a call are a sum: 1 for the answer, 2 for the used lengths, 4 for the function table, and twice as much for each next buffer.
const TABLE: usize = 4;

// The buffers, by the number of the call in which each is a word short, in the order in which `compile` takes them.
#[derive(Clone, Copy, PartialEq, Eq)]
enum Buffer {
    Functions = 2,
    Ops,
    Spans,
    Globals,
    Builtins,
    Switches,
    Targets,
    Lookups,
    Values,
    Places,
    Hints,
    Noted,
    Labels,
}

// The room that a call has: to spare, exactly enough, or a word less than enough of one buffer.
#[derive(Clone, Copy)]
enum Room {
    Spare,
    Exact,
    Short(Buffer),
}

// The calls of a function, in their order.
const ROOMS: [Room; 15] = [
    Room::Spare,
    Room::Exact,
    Room::Short(Buffer::Functions),
    Room::Short(Buffer::Ops),
    Room::Short(Buffer::Spans),
    Room::Short(Buffer::Globals),
    Room::Short(Buffer::Builtins),
    Room::Short(Buffer::Switches),
    Room::Short(Buffer::Targets),
    Room::Short(Buffer::Lookups),
    Room::Short(Buffer::Values),
    Room::Short(Buffer::Places),
    Room::Short(Buffer::Hints),
    Room::Short(Buffer::Noted),
    Room::Short(Buffer::Labels),
];

// What a call has of a buffer with a list: the word of the text where the list starts, how many words of it stand there before the call and should
// after it, and how many are lent.
#[derive(Clone, Copy)]
struct Part {
    start: usize,
    before: usize,
    after: usize,
    lent: usize,
}

// What a call has of each buffer; of the function table and the work room, only how many words are lent.
#[derive(Clone, Copy)]
struct Parts {
    functions: usize,
    ops: Part,
    spans: Part,
    globals: Part,
    builtins: Part,
    switches: Part,
    targets: Part,
    lookups: Part,
    values: Part,
    places: Part,
    hints: usize,
    noted: usize,
    labels: usize,
}

// A program of the text: how many strings it begins with, whether its functions are compiled in little room too, how many words its function table
// has, how many functions there are, and the words at which the function table before them, the one after them and the functions start.
#[derive(Clone, Copy)]
struct Program {
    strings: usize,
    tried: bool,
    table: usize,
    functions: usize,
    start: usize,
    end: usize,
    first: usize,
}

// A function of the text: its number in the table, whether it is marked unused, how many words it has; how many words of the function table the
// others need, and how many it; its values and labels, none if it is refused; the number that comes back, how many map words it has, the used
// lengths before and after it, and where its words, its map words and the next function start.
#[derive(Clone, Copy)]
struct Function {
    id: usize,
    unused: bool,
    words: usize,
    others: usize,
    table: usize,
    values: usize,
    labels: usize,
    number: usize,
    mapped: usize,
    before: Used,
    used: Used,
    at: usize,
    map: usize,
    next: usize,
}

// The buffers of a call, each with all its words.
#[derive(Clone, Copy)]
struct Buffers {
    functions: [u64; 64],
    ops: [u64; 2048],
    spans: [u32; 2048],
    globals: [u64; 256],
    builtins: [u32; 32],
    switches: [u64; 64],
    targets: [u32; 4352],
    lookups: [u64; 64],
    values: [u64; 8448],
    places: [u32; 384],
    hints: [u32; 384],
    noted: [u64; 384],
    labels: [u64; 3200],
}

// How many functions were compiled and how many of them differ; how many calls in exactly enough room and in one word less, and how many of them
// differ.
#[derive(Clone, Copy)]
struct Tally {
    functions: usize,
    ops: usize,
    differ: usize,
    exact: usize,
    short: usize,
    wrong: usize,
}

// A sum that fits whatever the file has.
fn sum(a: usize, b: usize) -> usize {
    a.min(MOST) + b.min(MOST)
}

// Entry i of a list that starts at word `at` of the text, if it is a count.
fn count_at(text: &[u8], at: usize, i: usize) -> usize {
    (replay::word_in(text, at, i) as usize).min(LONGEST)
}

// The head of the program in the text.
fn program_of(text: &[u8]) -> Program {
    Program {
        strings: count_at(text, 0, 1),
        tried: count_at(text, 0, 2) == 1,
        table: count_at(text, 0, 3),
        functions: count_at(text, 0, 4),
        start: count_at(text, 0, 5),
        end: count_at(text, 0, 6),
        first: count_at(text, 0, 15),
    }
}

// The used lengths that stand at word `at` of the text.
fn used_at(text: &[u8], at: usize) -> Used {
    Used {
        ops: count_at(text, at, 4),
        globals: count_at(text, at, 5),
        builtins: count_at(text, at, 6),
        switches: count_at(text, at, 7),
        targets: count_at(text, at, 8),
        lookups: count_at(text, at, 9),
        values: count_at(text, at, 10),
    }
}

// Two labels for each block, and one for each pad that a block may have.
fn labels_for(blocks: usize, edges: usize) -> usize {
    sum(
        blocks.saturating_mul(2),
        blocks.saturating_mul(edges).min(32767),
    )
}

// The function at word `at` of the text, behind such used lengths.
fn function_at(text: &[u8], at: usize, before: Used) -> Function {
    let words = count_at(text, at, 0);
    let table = count_at(text, at, 1);
    let number = count_at(text, at, 2);
    let mapped = count_at(text, at, 3);
    let start = sum(at, 11);
    let map = sum(start, words);
    let id = count_at(text, start, 0);
    let others = if table == sum(id, 1) { id } else { table };
    let labels = labels_for(count_at(text, start, 4), count_at(text, start, 6));
    let taken = number == 0;
    Function {
        id,
        unused: count_at(text, start, 2) != 0,
        words,
        others,
        table: if taken { table } else { others },
        values: if taken { count_at(text, start, 3) } else { 0 },
        labels: if taken { labels } else { 0 },
        number,
        mapped,
        before,
        used: used_at(text, at),
        at: start,
        map,
        next: sum(map, mapped),
    }
}

// The words of a buffer that are lent if n are needed: all that it has, exactly as many, or one less.
fn lent(n: usize, most: usize, buffer: Buffer, room: Room) -> usize
    ensures { result ≤ most }
{
    match room {
        Room::Spare => most,
        Room::Short(short) if short == buffer => n.min(most).saturating_sub(1),
        _ => n.min(most),
    }
}

// What a call has of a buffer whose list stands in the program's text: how many entries of so many words there are before it, after it, and in the end.
fn part_of(
    text: &[u8],
    buffer: Buffer,
    room: Room,
    counts: [usize; 3],
    words: usize,
    most: usize,
) -> Part
    ensures { result.lent ≤ most }
{
    let [before, after, needed] = counts;
    Part {
        start: count_at(text, 0, buffer as usize + 4),
        before: before.saturating_mul(words).min(most),
        after: after.saturating_mul(words).min(most),
        lent: lent(needed.saturating_mul(words), most, buffer, room),
    }
}

// The function as a call leaves it: short of room it is refused, and gives nothing.
fn left_by(f: Function, room: Room) -> Function {
    match room {
        Room::Short(_) => Function {
            number: NO_ROOM,
            mapped: 0,
            used: f.before,
            ..f
        },
        _ => f,
    }
}

// What a call has of each buffer, which leaves the function so.
fn parts_of(text: &[u8], p: Program, f: Function, left: Function, room: Room) -> Parts
    ensures { Fits result }
{
    let entries = match room {
        Room::Spare => p.table,
        _ => f.table,
    };
    let (u, w, v) = (f.before, left.used, f.used);
    let ops = [u.ops, w.ops, v.ops];
    let globals = [u.globals, w.globals, v.globals];
    let builtins = [u.builtins, w.builtins, v.builtins];
    let switches = [u.switches, w.switches, v.switches];
    let targets = [u.targets, w.targets, v.targets];
    let lookups = [u.lookups, w.lookups, v.lookups];
    let values = [u.values, w.values, v.values];
    Parts {
        functions: lent(entries, entries.min(64), Buffer::Functions, room),
        ops: part_of(text, Buffer::Ops, room, ops, 1, 2048),
        spans: part_of(text, Buffer::Spans, room, ops, 1, 2048),
        globals: part_of(text, Buffer::Globals, room, globals, 2, 256),
        builtins: part_of(text, Buffer::Builtins, room, builtins, 1, 32),
        switches: part_of(text, Buffer::Switches, room, switches, 3, 64),
        targets: part_of(text, Buffer::Targets, room, targets, 1, 4352),
        lookups: part_of(text, Buffer::Lookups, room, lookups, 5, 64),
        values: part_of(text, Buffer::Values, room, values, 2, 8448),
        places: Part {
            start: f.map,
            before: 0,
            after: left.mapped.min(384),
            lent: lent(f.values, 384, Buffer::Places, room),
        },
        hints: lent(f.values, 384, Buffer::Hints, room),
        noted: lent(f.values, 384, Buffer::Noted, room),
        labels: lent(f.labels, 3200, Buffer::Labels, room),
    }
}

// How many calls there are of a function.
fn calls_of(p: Program, f: Function) -> usize
    ensures { result ≤ 15 }
{
    if f.unused {
        0
    } else if !p.tried {
        1
    } else if f.number != 0 {
        2
    } else {
        ROOMS.len()
    }
}

// Does the function add to the buffer?
fn adds_to(f: Function, buffer: Buffer) -> bool {
    let (u, v) = (f.before, f.used);
    match buffer {
        Buffer::Functions => f.others < f.table,
        Buffer::Ops | Buffer::Spans => u.ops < v.ops,
        Buffer::Globals => u.globals < v.globals,
        Buffer::Builtins => u.builtins < v.builtins,
        Buffer::Switches => u.switches < v.switches,
        Buffer::Targets => u.targets < v.targets,
        Buffer::Lookups => u.lookups < v.lookups,
        Buffer::Values => u.values < v.values,
        Buffer::Places | Buffer::Hints | Buffer::Noted => 0 < f.values,
        Buffer::Labels => 0 < f.labels,
    }
}

// Only a buffer that the function adds to can be a word short.
fn has_call(f: Function, room: Room) -> bool {
    match room {
        Room::Short(buffer) => adds_to(f, buffer),
        _ => true,
    }
}

// The program before the function, with marks behind it.
fn load(text: &[u8], table: [u64; 64], p: Parts) -> Buffers {
    let mut b = Buffers {
        functions: table,
        ops: [WIDE_MARK; 2048],
        spans: [MARK; 2048],
        globals: [WIDE_MARK; 256],
        builtins: [MARK; 32],
        switches: [WIDE_MARK; 64],
        targets: [MARK; 4352],
        lookups: [WIDE_MARK; 64],
        values: [WIDE_MARK; 8448],
        places: [MARK; 384],
        hints: [MARK; 384],
        noted: [WIDE_MARK; 384],
        labels: [WIDE_MARK; 3200],
    };
    replay::load(text, p.ops.start, &mut b.ops, p.ops.before);
    replay::load(text, p.spans.start, &mut b.spans, p.spans.before);
    replay::load(text, p.globals.start, &mut b.globals, p.globals.before);
    replay::load(text, p.builtins.start, &mut b.builtins, p.builtins.before);
    replay::load(text, p.switches.start, &mut b.switches, p.switches.before);
    replay::load(text, p.targets.start, &mut b.targets, p.targets.before);
    replay::load(text, p.lookups.start, &mut b.lookups, p.lookups.before);
    replay::load(text, p.values.start, &mut b.values, p.values.before);
    b
}

// The function table after the function: its entry says where its code starts, unless it is refused or unused.
fn table_after(table: [u64; 64], f: Function) -> [u64; 64] {
    if f.unused | (f.number != 0) {
        return table;
    }
    let mut after = table;
    let pc = f.before.ops.min(LONGEST) as u32;
    base::set(&mut after, f.id, program::bytecode_at(pc));
    after
}

fn wrong(right: bool, mark: usize) -> usize {
    if right { 0 } else { mark }
}

// The differences in the answer, the used lengths and the function table;
fn wrong_answer(
    c: Result<Used, Refusal>,
    before: Used,
    left: Function,
    functions: &[u64; 64],
    entered: &[u64; 64],
    n: usize,
) -> usize {
    wrong(refusal::number_for(c) as usize == left.number, 1)
        | wrong(c.unwrap_or(before) == left.used, 2)
        | wrong(replay::equal(functions, entered, n), TABLE)
}

// in a list, behind which the lent words have to be `rest`;
fn wrong_list<T: Entry>(text: &[u8], p: Part, rest: u32, a: &[T], mark: usize) -> usize {
    wrong(
        replay::right(text, p.start, p.after, T::of(rest), a, p.lent),
        mark,
    )
}

// in every list, and in the work room, which has to be zero.
fn wrong_buffers(text: &[u8], b: &Buffers, p: Parts, rest: u32) -> usize {
    wrong_list(text, p.ops, rest, &b.ops, 8)
        | wrong_list(text, p.spans, rest, &b.spans, 16)
        | wrong_list(text, p.globals, rest, &b.globals, 32)
        | wrong_list(text, p.builtins, rest, &b.builtins, 64)
        | wrong_list(text, p.switches, rest, &b.switches, 128)
        | wrong_list(text, p.targets, rest, &b.targets, 256)
        | wrong_list(text, p.lookups, rest, &b.lookups, 512)
        | wrong_list(text, p.values, rest, &b.values, 1024)
        | wrong_list(text, p.places, rest, &b.places, 2048)
        | wrong(replay::zeros(&b.hints, p.hints), 4096)
        | wrong(replay::zeros(&b.noted, p.noted), 8192)
        | wrong(replay::zeros(&b.labels, p.labels), 16384)
}

// The marks are left past the program with the function, and zeros after a refusal.
fn rest_after(number: usize) -> u32 {
    if number == 0 { MARK } else { 0 }
}

// The differences of a call of a function, which leaves the program with it, or after a refusal the one before it.
fn with_call(text: &[u8], table: [u64; 64], p: Program, f: Function, room: Room) -> usize {
    let mut ws = [0u32; 8192];
    replay::load(text, f.at, &mut ws, f.words);
    let n = f.words.min(8192);
    let left = left_by(f, room);
    let entered = table_after(table, left);
    let parts = parts_of(text, p, f, left, room);
    let mut b = load(text, table, parts);
    let c = compile::compile(
        &ws[..n],
        &mut b.functions[..parts.functions],
        &mut b.ops[..parts.ops.lent],
        &mut b.spans[..parts.spans.lent],
        &mut b.globals[..parts.globals.lent],
        &mut b.builtins[..parts.builtins.lent],
        &mut b.switches[..parts.switches.lent],
        &mut b.targets[..parts.targets.lent],
        &mut b.lookups[..parts.lookups.lent],
        &mut b.values[..parts.values.lent],
        &mut b.places[..parts.places.lent],
        &mut b.hints[..parts.hints],
        &mut b.noted[..parts.noted],
        &mut b.labels[..parts.labels],
        f.before,
    );
    wrong_answer(c, f.before, left, &b.functions, &entered, parts.functions)
        | wrong_buffers(text, &b, parts, rest_after(left.number))
}

// The number of a call.
fn call_of(room: Room) -> usize {
    match room {
        Room::Spare => 0,
        Room::Exact => 1,
        Room::Short(buffer) => buffer as usize,
    }
}

// The first call that differs, and its differences.
fn report_first(t: Tally, program: usize, function: usize, room: Room, what: usize) {
    if (what == 0) | (t.differ != 0) | (t.wrong != 0) {
        return;
    }
    records::figure(program, b" is the program, ");
    records::figure(function, b" the function, ");
    records::figure(call_of(room), b" the call, ");
    records::figure(what, b" what differs\n");
}

// One more call of a function, and its differences.
fn with_result(t: Tally, room: Room, what: usize) -> Tally {
    let one = usize::from(what != 0);
    match room {
        Room::Spare => Tally {
            functions: sum(t.functions, 1),
            differ: sum(t.differ, one),
            ..t
        },
        Room::Exact => Tally {
            exact: sum(t.exact, 1),
            wrong: sum(t.wrong, one),
            ..t
        },
        Room::Short(_) => Tally {
            short: sum(t.short, 1),
            wrong: sum(t.wrong, one),
            ..t
        },
    }
}

// Every call of a function.
fn replay_function(
    text: &[u8],
    table: [u64; 64],
    p: Program,
    f: Function,
    t: Tally,
    program: usize,
    function: usize,
) -> Tally {
    let calls = calls_of(p, f);
    let mut tally = t;
    for room in &ROOMS[..calls] {
        if has_call(f, *room) {
            let what = with_call(text, table, p, f, *room);
            report_first(tally, program, function, *room, what);
            tally = with_result(tally, *room, what);
        }
    }
    tally
}

// All functions of the program in the text; the function table has to end as the Rust's.
fn replay_program(text: &[u8], t: Tally, program: usize) -> Tally {
    let p = program_of(text);
    let interned = Used {
        ops: 0,
        globals: p.strings,
        builtins: 0,
        switches: 0,
        targets: 0,
        lookups: 0,
        values: 0,
    };
    let mut table = [0u64; 64];
    replay::load(text, p.start, &mut table, p.table);
    let mut f = function_at(text, p.first, interned);
    let mut tally = t;
    for i in 0..p.functions {
        tally = replay_function(text, table, p, f, tally, program, i);
        table = table_after(table, f);
        f = function_at(text, f.next, f.used);
    }
    let right = replay::right(text, p.end, p.table, 0, &table, p.table);
    report_first(
        tally,
        program,
        p.functions,
        Room::Spare,
        wrong(right, TABLE),
    );
    Tally {
        ops: sum(tally.ops, f.before.ops),
        differ: sum(tally.differ, wrong(right, 1)),
        ..tally
    }
}

fn report(programs: usize, t: Tally) {
    records::figure(programs, b" programs, ");
    records::figure(t.functions, b" functions, ");
    records::figure(t.ops, b" ops, ");
    records::figure(t.differ, b" differ\n");
    records::figure(t.exact, b" calls in exactly enough room, ");
    records::figure(t.short, b" in one word less, ");
    records::figure(t.wrong, b" differ\n");
}

// The next program of the file into the text, with its first list behind the 16 words of its head.
fn next_program(text: &mut [u8]) -> Result<(), CutShort> {
    let words = replay::next_word() as usize;
    records::next_bytes(text, 4 * words)?;
    if replay::word_in(text, 0, 5) == 16 {
        Ok(())
    } else {
        Err(CutShort)
    }
}

// All programs.
fn replay_all(text: &mut [u8]) -> Result<(), CutShort> {
    let programs = replay::next_word() as usize;
    let mut t = Tally {
        functions: 0,
        ops: 0,
        differ: 0,
        exact: 0,
        short: 0,
        wrong: 0,
    };
    for i in 0..programs {
        next_program(text)?;
        t = replay_program(text, t, i);
    }
    report(programs, t);
    Ok(())
}

fn main() {
    // as long as the largest program
    let mut text = records::filled::<u8, 163840>(0);
    records::report_cut(replay_all(&mut text));
}
