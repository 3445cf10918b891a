// Replays programs before and after nop compaction, whose words came from the Rust: the file stdin, made by tools/vectors with the commit's
// own `compact_nops`. The file's words are u32, least byte first. The first says how many programs there are. Each is there twice, before and
// after: the number of ops, their words, low half first, their spans; the number of entries of switch tables, these; the number of words of
// the function table, these, low half first. A program is compacted in buffers that it fills exactly, and once more where that left it.
// Then programs that are refused, one line each with document 01's number.
#![tactic(auto)]

ghost use Rattle.std.specs.Prelude.{◌≡◌, ◌*◌, ◌≤◌, length};
ghost use Rattle.compact.specs.Entry.{number_for, used_for};

use records::CutShort;
use refusal::Refusal;

// The word of a text where each list of a program starts, and where the last one ends: 65536 ops and spans, 8192 entries of switch tables, and 64
// words of the function table.
const OPS_AT: usize = 0;

const SPANS_AT: usize = 131072;

const ENTRIES_AT: usize = 196608;

const FUNCTIONS_AT: usize = 204800;

const END: usize = 204928;

// How many bytes that is.
const TEXT: usize = 819712;

// How much there is of each kind in a program.
#[derive(Clone, Copy)]
struct Program {
    ops: u32,
    entries: u32,
    functions: u32,
}

// How much of each buffer is lent to a call, and the used lengths.
#[derive(Clone, Copy)]
struct Lent {
    ops: usize,
    spans: usize,
    used: usize,
    entries: usize,
    entries_used: usize,
    functions: usize,
    room: usize,
}

// Document 01's number, and the new used length.
#[derive(Clone, Copy)]
struct Answer {
    number: u32,
    used: usize,
}

// What came of a program: how many ops it has, and whether all is as the Rust has it.
#[derive(Clone, Copy)]
struct Replayed {
    ops: u32,
    ok: bool,
}

// The next n bytes of the file, to the text's from word `at` on, where there is room for them before word `end`.
fn next_list(text: &mut [u8], at: usize, end: usize, n: usize) -> Result<(), CutShort>
    requires { (at ≤ end) × (4 * end ≤ length text.old) }
{
    records::next_bytes(&mut text[4 * at..4 * end], n)
}

// The next program of the file. Behind each of its lists the text stays as it was.
fn next_program(text: &mut [u8]) -> Result<Program, CutShort>
    requires { 819712 ≤ length text.old }
{
    let ops = replay::next_word();
    next_list(text, OPS_AT, SPANS_AT, 8 * ops as usize)?;
    next_list(text, SPANS_AT, ENTRIES_AT, 4 * ops as usize)?;
    let entries = replay::next_word();
    next_list(text, ENTRIES_AT, FUNCTIONS_AT, 4 * entries as usize)?;
    let functions = replay::next_word();
    next_list(text, FUNCTIONS_AT, END, 8 * functions as usize)?;
    Ok(Program {
        ops,
        entries,
        functions,
    })
}

fn answer_of(c: Result<usize, Refusal>) -> Answer
    ensures { (result.number ≡ number_for c) × (result.used ≡ used_for c) }
{
    match c {
        Ok(used) => Answer { number: 0, used },
        Err(why) => Answer {
            number: u32::from(why.number()),
            used: 0,
        },
    }
}

// Compaction of the first parts of the buffers.
fn compact_parts(
    ops: &mut [u64],
    spans: &mut [u32],
    entries: &mut [u32],
    functions: &mut [u64],
    work: &mut [u32],
    l: Lent,
) -> Answer {
    let n = l.ops.min(ops.len());
    let s = l.spans.min(spans.len());
    let e = l.entries.min(entries.len());
    let f = l.functions.min(functions.len());
    let w = l.room.min(work.len());
    answer_of(compact::compact(
        &mut ops[..n],
        &mut spans[..s],
        l.used,
        &mut entries[..e],
        l.entries_used,
        &mut functions[..f],
        &mut work[..w],
    ))
}

// Are the first words of the buffers what a text has?
fn same_as(
    text: &[u8],
    l: Lent,
    ops: &[u64],
    spans: &[u32],
    entries: &[u32],
    functions: &[u64],
) -> bool {
    replay::right(text, OPS_AT, l.ops, 0, ops, l.ops)
        & replay::right(text, SPANS_AT, l.spans, 0, spans, l.spans)
        & replay::right(text, ENTRIES_AT, l.entries, 0, entries, l.entries)
        & replay::right(text, FUNCTIONS_AT, l.functions, 0, functions, l.functions)
}

// The program of one text compacted, with a work room that nobody cleared; nothing where the other text is not what is left, or the work room is not
// zero.
fn compacted(from: &[u8], l: Lent, to: &[u8]) -> Option<Answer> {
    let mut ops = records::filled::<u64, 65536>(0);
    let mut spans = records::filled::<u32, 65536>(0);
    let mut entries = records::filled::<u32, 65536>(0);
    let mut functions = [0u64; 64];
    let mut work = records::filled::<u32, 65536>(7);
    replay::load(from, OPS_AT, &mut ops, l.ops);
    replay::load(from, SPANS_AT, &mut spans, l.spans);
    replay::load(from, ENTRIES_AT, &mut entries, l.entries);
    replay::load(from, FUNCTIONS_AT, &mut functions, l.functions);
    let answer = compact_parts(
        &mut ops,
        &mut spans,
        &mut entries,
        &mut functions,
        &mut work,
        l,
    );
    let left = same_as(to, l, &ops, &spans, &entries, &functions);
    (left & replay::zeros(&work, l.room)).then_some(answer)
}

// The buffers that a program fills exactly, all of it used.
fn lent_for(p: Program) -> Lent {
    let ops = p.ops as usize;
    let entries = p.entries as usize;
    Lent {
        ops,
        spans: ops,
        used: ops,
        entries,
        entries_used: entries,
        functions: p.functions as usize,
        room: ops + 1,
    }
}

// Is it Done, with so many ops left?
fn is_done(answer: Option<Answer>, used: usize) -> bool {
    answer.is_some_and(|a| (a.number == 0) & (a.used == used))
}

// The program of one text compacted, and once more where that left it; what the other text has should be left by both.
fn both_right(text: &[u8], l: Lent, left: &[u8], used: usize) -> bool {
    let first = is_done(compacted(text, l, left), used);
    // Where the first call was refused, the program is there still.
    let from = if first { left } else { text };
    first & is_done(compacted(from, Lent { used, ..l }, left), used)
}

// The next program of the file.
fn replay_program() -> Result<Replayed, CutShort> {
    let mut text = records::filled::<u8, TEXT>(0);
    let before = next_program(&mut text)?;
    // What should be left: the program as it is after, and behind its ops those that were.
    let mut left = text;
    let after = next_program(&mut left)?;
    let tables = (before.entries == after.entries) & (before.functions == after.functions);
    Ok(Replayed {
        ops: before.ops,
        ok: tables && both_right(&text, lent_for(before), &left, after.ops as usize),
    })
}

// All programs: how many, how many ops they have, how many differ.
fn replay_all() -> Result<(), CutShort> {
    let programs = replay::next_word();
    let mut total = 0;
    let mut differ = 0;
    for i in 0..programs {
        let r = replay_program()?;
        differ = records::counted(b"program ", differ, i, r.ok);
        total = (total + r.ops as usize) % 1000000000;
    }
    records::figure(programs as usize, b" programs, ");
    records::figure(total, b" ops, ");
    records::figure(differ as usize, b" differ\n");
    Ok(())
}

// The end of a line, the number of a refusal; 255 where the call left something else than it should.
fn end_line(refusal: Option<Answer>) {
    records::figure(refusal.map_or(255, |a| a.number as usize), b"\n");
}

// What a small program fits into.
fn fit() -> Lent {
    Lent {
        ops: 3,
        spans: 3,
        used: 3,
        entries: 2,
        entries_used: 2,
        functions: 2,
        room: 4,
    }
}

// A small program that a call refuses, by its first op, an entry of its switch tables, its function's start, or what is lent.
fn refused(first: u64, entry: u32, start: u32, l: Lent) {
    let ops_were = [first, op::nop(), op::ret()];
    let spans_were = [4u32, 5, 6, 7];
    let entries_were = [entry, 0];
    let functions_were = [program::bytecode_at(start), 0];
    let mut ops = ops_were;
    let mut spans = spans_were;
    let mut entries = entries_were;
    let mut functions = functions_were;
    let mut work = [7u32; 8];
    let answer = compact_parts(
        &mut ops,
        &mut spans,
        &mut entries,
        &mut functions,
        &mut work,
        l,
    );
    let kept = replay::equal(&ops, &ops_were, 3)
        & replay::equal(&spans, &spans_were, 4)
        & replay::equal(&entries, &entries_were, 2)
        & replay::equal(&functions, &functions_were, 2)
        & replay::zeros(&work, l.room);
    end_line(kept.then_some(answer));
}

fn refused_words() {
    replay::write(b"Jmp 9 alone: ");
    refused(op::jmp(9), 1, 1, Lent { used: 1, ..fit() });
    replay::write(b"a word that is no op: ");
    refused(61, 1, 1, fit());
}

fn refused_lengths() {
    replay::write(b"a used length beyond the ops: ");
    let ops = Lent {
        used: 4,
        spans: 4,
        room: 5,
        ..fit()
    };
    refused(op::jmp(1), 1, 1, ops);
    replay::write(b"a used length beyond the spans: ");
    refused(op::jmp(1), 1, 1, Lent { spans: 2, ..fit() });
}

fn refused_room() {
    replay::write(b"a used length beyond the switch entries: ");
    let entries = Lent {
        entries_used: 3,
        ..fit()
    };
    refused(op::jmp(1), 1, 1, entries);
    replay::write(b"work room one short: ");
    refused(op::jmp(1), 1, 1, Lent { room: 3, ..fit() });
}

fn refused_tables() {
    replay::write(b"a switch entry beyond the ops: ");
    refused(op::jmp(1), 4, 1, fit());
    replay::write(b"a function start beyond the ops: ");
    refused(op::jmp(1), 1, 4, fit());
}

fn refused_for_two() {
    replay::write(b"a word that is no op, and a target beyond the ops: ");
    refused(61, 4, 1, fit());
    replay::write(b"work room one short, and a target beyond the ops: ");
    refused(op::jmp(9), 1, 1, Lent { room: 3, ..fit() });
}

// One op more than a program may have: Nops, and a jump that compaction would bring to the front.
fn refused_count() {
    let mut text = records::filled::<u8, TEXT>(0);
    text[8 * 65534] = (op::jmp(0) % 256) as u8;
    let p = Program {
        ops: 65535,
        entries: 0,
        functions: 0,
    };
    replay::write(b"65535 ops: ");
    end_line(compacted(&text, lent_for(p), &text));
}

fn main() {
    records::report_cut(replay_all());
    refused_words();
    refused_lengths();
    refused_room();
    refused_tables();
    refused_for_two();
    refused_count();
}
