// The entries for other languages; include/agnulfrosc.h declares them.
#![tactic(auto)]

ghost use Rattle.std.specs.Prelude.{◌≡◌};
ghost use Rattle.place.specs.Registers.{registers};
ghost use Rattle.judge.specs.Judged.{unfit};
ghost use Rattle.first_checks.specs.Buffers.{lent};
ghost use Rattle.compile.specs.Program as program;
ghost use Rattle.strings.specs.Strings.{number_for, index_for, used_for};
ghost use Rattle.compact.specs.Entry as entries;
ghost use Rattle.moves_entry.specs.Entry as move_entries;
ghost use Rattle.op.specs.Words as words;
ghost use Rattle.op.specs.Words.{parts};
ghost use Rattle.answers.specs.Answers.{used_words};
ghost use Rattle.agnulfrosc.specs.Library.{leaves, compiled_for, interns, interned_for, compacts, compacted_for, columns_for, moves, moved_for};
ghost use Rattle.std.proofs.lemmas.List.Edits.{sets};

use answers::Numbers;
use lists::Used;
use moves_entry::Columns;
use refusal::Refusal;
use strings::Unfit;

// The lowest number from 1 to 7 that applies to a function, 0 for none.
#[unsafe(no_mangle)]
pub extern "C" fn agnulfrosc_judge(words: &[u32], functions: &[u64]) -> u8
    ensures { result ≡ unfit registers words.now functions.now }
{
    refusal::number_for(judge::judge(words, functions))
}

// The number of a compiled function; the used lengths are stored, those before it where it is refused.
fn answer_compiled(r: Result<Used, Refusal>, before: Used, used: &mut [u64]) -> u8
    ensures { (result ≡ program.answer_number r) × (used.new ≡ sets used.old 0 (used_words (program.used_for before r))) }
{
    answers::store_used(used, r.unwrap_or(before));
    refusal::number_for(r)
}

// One function; its number from 0 to 9.
#[unsafe(no_mangle)]
pub extern "C" fn agnulfrosc_compile(
    words: &[u32],
    functions: &mut [u64],
    ops: &mut [u64],
    spans: &mut [u32],
    globals: &mut [u64],
    builtins: &mut [u32],
    switches: &mut [u64],
    targets: &mut [u32],
    lookups: &mut [u64],
    values: &mut [u64],
    places: &mut [u32],
    hints: &mut [u32],
    noted: &mut [u64],
    labels: &mut [u64],
    used: &mut [u64],
) -> u8
    ensures { leaves result used.new (lent ops.new spans.new globals.new builtins.new functions.new switches.new targets.new lookups.new values.new places.new hints.new noted.new labels.new) ≡ compiled_for registers words.now (lent ops.old spans.old globals.old builtins.old functions.old switches.old targets.old lookups.old values.old places.old hints.old noted.old labels.old) used.old }
{
    let before = answers::used_in(used);
    let r = compile::compile(
        words, functions, ops, spans, globals, builtins, switches, targets, lookups, values,
        places, hints, noted, labels, before,
    );
    answer_compiled(r, before, used)
}

// A number and an index for each answer of the string entry, and the used length where it stays.
fn strings_numbers(r: Result<usize, Unfit>, used: usize) -> Numbers
    ensures { (result.number ≡ number_for r) × (result.used ≡ used_for used r) × (result.index ≡ index_for r) }
{
    match r {
        Ok(count) => Numbers {
            number: 0,
            used: count,
            index: 0,
        },
        Err(f) => Numbers {
            number: f.why.number(),
            used,
            index: f.index,
        },
    }
}

// The strings of a list of functions.
#[unsafe(no_mangle)]
pub extern "C" fn agnulfrosc_strings(
    words: &[u32],
    ends: &[u32],
    globals: &mut [u64],
    answer: &mut [u64],
) -> u8
    ensures { interns result answer.new globals.new ≡ interned_for registers words.now ends.now globals.old answer.old }
{
    let used = base::get_or(answer, 0, 0) as usize;
    let n = strings_numbers(strings::intern_strings(words, ends, globals, used), used);
    answers::store_both(answer, n);
    n.number
}

// A number, and the used length of an answer that has one.
fn numbers_of(r: Result<usize, Refusal>) -> Numbers
    ensures { (result.number ≡ entries.number_for r) × (result.used ≡ entries.used_for r) × (result.used ≡ move_entries.used_for r) }
{
    Numbers {
        number: refusal::number_for(r),
        used: r.unwrap_or(0),
        index: 0,
    }
}

// Nop compaction.
#[unsafe(no_mangle)]
pub extern "C" fn agnulfrosc_compact(
    ops: &mut [u64],
    spans: &mut [u32],
    targets: &mut [u32],
    functions: &mut [u64],
    work: &mut [u32],
    used: &mut [u64],
) -> u8
    ensures { compacts result used.new ops.new spans.new targets.new functions.new work.new ≡ compacted_for used.old ops.old spans.old targets.old functions.old work.old }
{
    let n = numbers_of(compact::compact(
        ops,
        spans,
        base::get_or(used, 0, 0) as usize,
        targets,
        base::get_or(used, 1, 0) as usize,
        functions,
        work,
    ));
    answers::store_new(used, n);
    n.number
}

fn columns_for(sources: &[u32], destinations: &[u32]) -> Columns
    ensures { result ≡ columns_for sources.now destinations.now }
{
    let mut src = [0u32; 190];
    let mut dst = [0u32; 190];
    base::copy(&mut src, 0, sources);
    base::copy(&mut dst, 0, destinations);
    Columns {
        src: src,
        dst: dst,
        count: sources.len(),
    }
}

// The ops of a list of moves.
#[unsafe(no_mangle)]
pub extern "C" fn agnulfrosc_moves(
    sources: &[u32],
    destinations: &[u32],
    span: u32,
    ops: &mut [u64],
    spans: &mut [u32],
    used: &mut [u64],
) -> u8
    ensures { moves result used.new ops.new spans.new ≡ moved_for registers sources.now destinations.now span used.old ops.old spans.old }
{
    let c = columns_for(sources, destinations);
    let n = numbers_of(moves_entry::emit_columns(
        ops,
        spans,
        base::get_or(used, 0, 0) as usize,
        span,
        c,
    ));
    answers::store_new(used, n);
    n.number
}

// 0 for an op's word, else 1.
#[unsafe(no_mangle)]
pub extern "C" fn agnulfrosc_op(word: u64) -> u8
    ensures { result ≡ words.number_for (parts word) }
{
    refusal::number_for(op::decode(word))
}
