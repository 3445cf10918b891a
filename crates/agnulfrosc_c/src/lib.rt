// The static library libagnulfrosc.a, for other languages; include/agnulfrosc.h declares its entries. Each is agnulfrosc's of the same name, with the
// same promise.
#![tactic(auto)]

ghost use Rattle.std.specs.Prelude.{◌≡◌};
ghost use Rattle.place.specs.Registers.{registers};
ghost use Rattle.judge.specs.Judged.{unfit};
ghost use Rattle.first_checks.specs.Buffers.{lent};
ghost use Rattle.op.specs.Words as words;
ghost use Rattle.op.specs.Words.{parts};
ghost use Rattle.agnulfrosc.specs.Library.{leaves, compiled_for, interns, interned_for, compacts, compacted_for, moves, moved_for};

// The lowest number from 1 to 7 that applies to a function, 0 for none.
#[unsafe(no_mangle)]
pub extern "C" fn agnulfrosc_judge(words: &[u32], functions: &[u64]) -> u8
    ensures { result ≡ unfit registers words.now functions.now }
{
    agnulfrosc::agnulfrosc_judge(words, functions)
}

// One function; its number from 0 to 9.
#[unsafe(no_mangle)]
pub extern "C" fn agnulfrosc_compile(
    words: &[u32],
    functions: &mut [u64],
    ops: &mut [u64],
    spans: &mut [u32],
    globals: &mut [u64],
    builtins: &mut [u32],
    switches: &mut [u64],
    targets: &mut [u32],
    lookups: &mut [u64],
    values: &mut [u64],
    places: &mut [u32],
    hints: &mut [u32],
    noted: &mut [u64],
    labels: &mut [u64],
    used: &mut [u64],
) -> u8
    ensures { leaves result used.new (lent ops.new spans.new globals.new builtins.new functions.new switches.new targets.new lookups.new values.new places.new hints.new noted.new labels.new) ≡ compiled_for registers words.now (lent ops.old spans.old globals.old builtins.old functions.old switches.old targets.old lookups.old values.old places.old hints.old noted.old labels.old) used.old }
{
    agnulfrosc::agnulfrosc_compile(
        words, functions, ops, spans, globals, builtins, switches, targets, lookups, values,
        places, hints, noted, labels, used,
    )
}

// The strings of a list of functions.
#[unsafe(no_mangle)]
pub extern "C" fn agnulfrosc_strings(
    words: &[u32],
    ends: &[u32],
    globals: &mut [u64],
    answer: &mut [u64],
) -> u8
    ensures { interns result answer.new globals.new ≡ interned_for registers words.now ends.now globals.old answer.old }
{
    agnulfrosc::agnulfrosc_strings(words, ends, globals, answer)
}

// Nop compaction.
#[unsafe(no_mangle)]
pub extern "C" fn agnulfrosc_compact(
    ops: &mut [u64],
    spans: &mut [u32],
    targets: &mut [u32],
    functions: &mut [u64],
    work: &mut [u32],
    used: &mut [u64],
) -> u8
    ensures { compacts result used.new ops.new spans.new targets.new functions.new work.new ≡ compacted_for used.old ops.old spans.old targets.old functions.old work.old }
{
    agnulfrosc::agnulfrosc_compact(ops, spans, targets, functions, work, used)
}

// The ops of a list of moves.
#[unsafe(no_mangle)]
pub extern "C" fn agnulfrosc_moves(
    sources: &[u32],
    destinations: &[u32],
    span: u32,
    ops: &mut [u64],
    spans: &mut [u32],
    used: &mut [u64],
) -> u8
    ensures { moves result used.new ops.new spans.new ≡ moved_for registers sources.now destinations.now span used.old ops.old spans.old }
{
    agnulfrosc::agnulfrosc_moves(sources, destinations, span, ops, spans, used)
}

// 0 for an op's word, else 1.
#[unsafe(no_mangle)]
pub extern "C" fn agnulfrosc_op(word: u64) -> u8
    ensures { result ≡ words.number_for (parts word) }
{
    agnulfrosc::agnulfrosc_op(word)
}
