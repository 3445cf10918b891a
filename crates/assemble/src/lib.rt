// One function's ops behind those of the program.
#![tactic(auto)]

ghost use Rattle.std.specs.Prelude.{◌≤◌, length};
ghost use Rattle.place.specs.Registers.{registers};
ghost use Rattle.instrs.specs.Env.{env_of};
ghost use Rattle.used.specs.Pens.{op_room};
ghost use Rattle.assemble.specs.Assemble.{start_out, function_out, Lowerable};
ghost use Rattle.assemble.specs.Ops.{out_at, out_of, FrameReady, OpsPut};

use base::Pen;
use instrs::Seen;
use lists::Used;
use placing::Placed;

// Prologue, body, labels, epilogue and stubs, by the registers that the frame pushes.
fn put_framed(
    ops: &mut [u64],
    spans: &mut [u32],
    labels: &mut [u64],
    s: Seen,
    regs: &[u8],
    u: Used,
) -> Pen
    requires lowerable { Lowerable s.vs.ws.now }
    requires used_few { (u.ops ≤ op_room ops.old spans.old) × (u.switches ≤ 65534) × (u.lookups ≤ 65534) }
    requires frame_ready { FrameReady labels.old regs.now }
    ensures { OpsPut (out_of regs.now (env_of s.entry) u (out_at s.entry.vs.ws.now ops.old spans.old labels.old u.ops)) u.ops ops.old spans.old ops.new spans.new labels.new result }
{
    let p = used::pen_at(s.vs.ws, ops, spans, u.ops);
    let q = frame::put_prologue(ops, spans, p, regs);
    let r = body::put_body(
        ops,
        spans,
        labels,
        q,
        s,
        u.switches as u32,
        u.lookups as u32,
    );
    if r.full {
        return r;
    }
    frame::resolve_all(ops, labels, r, q.at);
    if regs.is_empty() {
        return r;
    }
    frame::put_left(ops, spans, r, regs, p.span, q.at)
}

// The same with the registers that the function's frame pushes, and with no label bound before.
pub fn put_ops(
    ops: &mut [u64],
    spans: &mut [u32],
    labels: &mut [u64],
    s: Seen,
    p: Placed,
    u: Used,
) -> Pen
    requires lowerable { Lowerable s.vs.ws.now }
    requires top_bound { (p.top ≤ 64) × (p.slots ≤ 128) }
    requires used_few { (u.ops ≤ op_room ops.old spans.old) × (u.switches ≤ 65534) × (u.lookups ≤ 65534) }
    ensures { OpsPut (function_out registers (env_of s.entry) u p.top p.slots (start_out s.entry.vs.ws.now ops.old spans.old labels.old u)) u.ops ops.old spans.old ops.new spans.new labels.new result }
{
    base::fill_from(labels, 0, 0);
    let mut regs = [0u8; 192];
    let k = frame::frame_regs(input::head_field(s.vs.ws, 0), p.top, p.slots, &mut regs);
    put_framed(ops, spans, labels, s, &regs[..k], u)
}
