// One function behind the program: its own entry in the function table, then its ops.
#![tactic(auto)]

ghost use Rattle.std.specs.Prelude.{◌≡◌, ◌*◌, take};
ghost use Rattle.place.specs.Registers.{registers};
ghost use Rattle.input.specs.Layout.{values};
ghost use Rattle.instrs.specs.Instrs.{seen};
ghost use Rattle.assemble.specs.Assemble.{start_out, function_out, Lowerable, ProgramReady};
ghost use Rattle.own_entry.specs.OwnEntry.{functions_after, PlacesReady, Assembled};

use edges::Values;
use instrs::Seen;
use lists::Used;
use placing::Placed;
use refusal::Refusal;

// The function whole. Where it finds no room, the table is as it was.
pub fn put_function(
    ws: &[u32],
    places: &[u32],
    noted: &[u64],
    functions: &mut [u64],
    ops: &mut [u64],
    spans: &mut [u32],
    labels: &mut [u64],
    globals: &[u64],
    builtins: &[u32],
    p: Placed,
    u: Used,
    l: Used,
) -> Result<Used, Refusal>
    requires lowerable { Lowerable ws.now }
    requires places_ready { PlacesReady ws.now places.now noted.now p }
    requires program_ready { ProgramReady ws.now functions.old ops.old spans.old globals.now builtins.now u l }
    ensures { Assembled (function_out registers (seen ws.now (take (values ws.now) places.now) (take (values ws.now) noted.now) (functions_after ws.now functions.old u) (take (2 * l.globals) globals.now) (take l.builtins builtins.now)) u p.top p.slots (start_out ws.now ops.old spans.old labels.old u)) u l ops.old spans.old functions.old (functions_after ws.now functions.old u) ops.new spans.new labels.new functions.new result }
{
    let id = input::head_field(ws, 0) as usize;
    let n = input::head_field(ws, 3) as usize;
    let before = base::get_or(functions, id, 0);
    base::set(functions, id, program::bytecode_at(u.ops as u32));
    let s = Seen {
        vs: Values {
            ws,
            map: &places[..n],
        },
        noted: &noted[..n],
        functions,
        globals: &globals[..2 * l.globals],
        builtins: &builtins[..l.builtins],
    };
    let q = assemble::put_ops(ops, spans, labels, s, p, u);
    if q.full {
        base::set(functions, id, before);
        return Err(Refusal::NoRoom);
    }
    Ok(used::with_ops(l, q.at))
}
