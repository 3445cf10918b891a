// Compiling one function.
#![tactic(auto)]

ghost use Rattle.std.specs.Prelude.{◌≡◌};
ghost use Rattle.place.specs.Registers.{registers};
ghost use Rattle.first_checks.specs.Buffers.{lent};
ghost use Rattle.compile.specs.Program.{outcome};
ghost use Rattle.compile.specs.Compile.{compiled};
ghost use Rattle.compile.specs.Attempt.{Attempted};

use first_checks::Lengths;
use lists::Used;
use refusal::Refusal;

// All of it but the zeroing: the used lengths behind the function, or why it is refused.
fn attempt(
    ws: &[u32],
    functions: &mut [u64],
    ops: &mut [u64],
    spans: &mut [u32],
    globals: &mut [u64],
    builtins: &mut [u32],
    switches: &mut [u64],
    targets: &mut [u32],
    lookups: &mut [u64],
    values: &mut [u64],
    places: &mut [u32],
    hints: &mut [u32],
    noted: &mut [u64],
    labels: &mut [u64],
    used: Used,
) -> Result<Used, Refusal>
    ensures { Attempted registers ws.now used (lent ops.old spans.old globals.old builtins.old functions.old switches.old targets.old lookups.old values.old places.old hints.old noted.old labels.old) (lent ops.new spans.new globals.new builtins.new functions.new switches.new targets.new lookups.new values.new places.new hints.new noted.new labels.new) result }
{
    let n = Lengths {
        ops: ops.len(),
        spans: spans.len(),
        globals: globals.len(),
        builtins: builtins.len(),
        functions: functions.len(),
        switches: switches.len(),
        targets: targets.len(),
        lookups: lookups.len(),
        values: values.len(),
        labels: labels.len(),
    };
    first_checks::early(ws, functions, n, used)?;
    let p = placing::place_values(ws, places, hints, noted)?;
    first_checks::with_entry(ws, n)?;
    let l = lists::make_lists(
        ws, places, globals, builtins, switches, targets, lookups, values, used,
    )?;
    let f = own_entry::put_function(
        ws, places, noted, functions, ops, spans, labels, globals, builtins, p, used, l,
    )?;
    endings::finish_targets(targets, labels, used.targets, f.targets);
    Ok(f)
}

// Any words, any buffers, any used lengths. The places of the values are written to `places`; hints, noted registers and labels are work room.
pub fn compile(
    ws: &[u32],
    functions: &mut [u64],
    ops: &mut [u64],
    spans: &mut [u32],
    globals: &mut [u64],
    builtins: &mut [u32],
    switches: &mut [u64],
    targets: &mut [u32],
    lookups: &mut [u64],
    values: &mut [u64],
    places: &mut [u32],
    hints: &mut [u32],
    noted: &mut [u64],
    labels: &mut [u64],
    used: Used,
) -> Result<Used, Refusal>
    ensures { outcome result used (lent ops.new spans.new globals.new builtins.new functions.new switches.new targets.new lookups.new values.new places.new hints.new noted.new labels.new) ≡ compiled registers ws.now (lent ops.old spans.old globals.old builtins.old functions.old switches.old targets.old lookups.old values.old places.old hints.old noted.old labels.old) used }
{
    let answer = attempt(
        ws, functions, ops, spans, globals, builtins, switches, targets, lookups, values, places,
        hints, noted, labels, used,
    );
    base::fill_from(hints, 0, 0);
    base::fill_from(noted, 0, 0);
    base::fill_from(labels, 0, 0);
    if answer.is_err() {
        endings::wipe_lists(ops, spans, globals, builtins, used);
        endings::wipe_tables(switches, targets, lookups, values, used);
        base::fill_from(places, 0, 0);
    }
    answer
}
