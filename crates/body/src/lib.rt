// A function's body: its rows in order.
#![tactic(auto)]

ghost use Rattle.std.specs.Prelude.{◌≡◌, List, ℕ, ◌+◌, ◌≤◌, ◌<◌};
ghost use Rattle.base.specs.Lent.{Lowers};
ghost use Rattle.place.specs.Registers.{registers};
ghost use Rattle.input.specs.Layout.{blocks};
ghost use Rattle.input.specs.Records.{instr_count, term_kind};
ghost use Rattle.ready.specs.Ready.{Ready, Live, InstrOf};
ghost use Rattle.instrs.specs.Env.{env_of};
ghost use Rattle.instrs.specs.Needs.{InstrReady};
ghost use Rattle.body.specs.Body.{next_live, tallied, block_ops, blocks_ops, ends_flow, root_ret, body_ops};

use base::Pen;
use input::kinds;
use instrs::Seen;

// The first live block of k from b on, or the end.
fn next_live(ws: &[u32], b: u32, k: u32) -> u32
    requires { b + k < 4294967296 }
    ensures { result ≡ next_live ws.now b k }
{
    for j in b..b + k {
        if input::block_field(ws, j, 1) == 0 {
            return j;
        }
    }
    b + k
}

// The numbers of the next switch table and the next lookup table, and the label of the next pad.
#[derive(Clone, Copy)]
pub struct Tally {
    pub switches: u32,
    pub lookups: u32,
    pub label: u32,
}

// The numbers behind block b.
fn tally_after(s: Seen, b: u32, t: Tally) -> Tally
    requires { Ready s.vs.ws.now × Live s.vs.ws.now b × (t.switches < 4294967295) × (t.lookups + instr_count s.vs.ws.now b < 4294967296) × (t.label + 1024 < 4294967296) }
    ensures { result ≡ tallied s.entry.vs.ws.now s.entry.vs.map.now b t }
{
    let first = input::block_field(s.vs.ws, b, 4);
    let n = input::block_field(s.vs.ws, b, 5);
    let lookups = t.lookups + instr_runs::lookups_in(s.vs.ws, first, n);
    if input::block_field(s.vs.ws, b, 6) != kinds::term::SWITCH {
        return Tally { lookups, ..t };
    }
    let e = input::block_field(s.vs.ws, b, 10);
    let pads = edges::pad_count(s.vs, e, input::block_field(s.vs.ws, b, 13));
    Tally {
        switches: t.switches + 1,
        lookups,
        label: t.label + pads,
    }
}

// A live block, with k blocks behind it: its label, its instructions, its terminator.
fn put_block(
    ops: &mut [u64],
    spans: &mut [u32],
    labels: &mut [u64],
    p: Pen,
    s: Seen,
    t: Tally,
    b: u32,
    k: u32,
) -> Pen
    requires ready { Ready s.vs.ws.now × ((b i : ℕ) → InstrOf s.vs.ws.now b i → InstrReady s.vs.ws.now i) }
    requires live { Live s.vs.ws.now b × (b + k < 1024) × (t.lookups + instr_count s.vs.ws.now b < 4294967296) × (t.label + 1024 < 4294967296) }
    requires b_bound { term_kind s.vs.ws.now b < 8 }
    ensures { Lowers (block_ops registers (env_of s.entry) t b k) ops.old spans.old labels.old p ops.new spans.new labels.new result }
{
    base::bind_label(labels, b as usize, p);
    let first = input::block_field(s.vs.ws, b, 4);
    let n = input::block_field(s.vs.ws, b, 5);
    let q = instr_runs::put_instrs(ops, spans, p, s, t.lookups, first, n);
    let next = next_live(s.vs.ws, b + 1, k);
    terms::put_term(ops, spans, labels, q, s, t.switches, t.label, next, b)
}

// All blocks; a tombstone gives nothing.
fn put_blocks(
    ops: &mut [u64],
    spans: &mut [u32],
    labels: &mut [u64],
    mut p: Pen,
    s: Seen,
    mut t: Tally,
) -> Pen
    requires ready { Ready s.vs.ws.now × ((b i : ℕ) → InstrOf s.vs.ws.now b i → InstrReady s.vs.ws.now i) }
    requires switches_bound { (t.switches ≤ 65534) × (t.lookups ≤ 65534) × (t.label ≤ 2048) }
    requires by_index { (b : ℕ) → Live s.vs.ws.now b → term_kind s.vs.ws.now b < 8 }
    ensures { Lowers (blocks_ops registers (env_of s.entry) t 0 (blocks s.entry.vs.ws.now)) ops.old spans.old labels.old p ops.new spans.new labels.new result }
{
    let n = input::head_field(s.vs.ws, 4);
    for b in 0..n {
        if input::block_field(s.vs.ws, b, 1) != 0 {
            continue;
        }
        p = put_block(ops, spans, labels, p, s, t, b, n - b - 1);
        t = tally_after(s, b, t);
    }
    p
}

// Is an op Ret or Tail?
fn ends_flow(last: u64) -> bool
    ensures { result ≡ ends_flow last }
{
    let code = op::unpack(last).code;
    code == 33 || code == 14
}

// The root's Ret, unless the program's last op is Ret or Tail.
fn put_root_ret(ops: &mut [u64], spans: &mut [u32], p: Pen, ws: &[u32]) -> Pen
    ensures { (l : List ℕ) → Lowers (root_ret ws.now) ops.old spans.old l p ops.new spans.new l result }
{
    if input::head_field(ws, 0) != 0 || ends_flow(p.last) {
        return p;
    }
    base::put(ops, spans, p, op::ret())
}

// The body of a function in a program with so many switch and lookup tables.
pub fn put_body(
    ops: &mut [u64],
    spans: &mut [u32],
    labels: &mut [u64],
    p: Pen,
    s: Seen,
    switches: u32,
    lookups: u32,
) -> Pen
    requires ready { Ready s.vs.ws.now × ((b i : ℕ) → InstrOf s.vs.ws.now b i → InstrReady s.vs.ws.now i) }
    requires switches_bound { (switches ≤ 65534) × (lookups ≤ 65534) }
    requires by_index { (b : ℕ) → Live s.vs.ws.now b → term_kind s.vs.ws.now b < 8 }
    ensures { Lowers (body_ops registers (env_of s.entry) switches lookups) ops.old spans.old labels.old p ops.new spans.new labels.new result }
{
    let t = Tally {
        switches,
        lookups,
        label: 2 * input::head_field(s.vs.ws, 4),
    };
    let q = put_blocks(ops, spans, labels, p, s, t);
    put_root_ret(ops, spans, q, s.vs.ws)
}
