// Instructions, each by its kind, and a run of them.
#![tactic(auto)]

ghost use Rattle.std.specs.Prelude.{◌≡◌, true, List, ℕ, ◌+◌, ◌≤◌, ◌<◌, eqb};
ghost use Rattle.base.specs.Choice.{pick};
ghost use Rattle.base.specs.Lent.{Lowers};
ghost use Rattle.place.specs.Registers.{registers};
ghost use Rattle.input.specs.Records.{instr_kind, lookup};
ghost use Rattle.input.specs.Forms.{instr_ok};
ghost use Rattle.instrs.specs.Instrs.{operand_place, memory_ops, compute_ops, instr_ops, lookups_in, instrs_ops};
ghost use Rattle.instrs.specs.Env.{env_of};
ghost use Rattle.instrs.specs.Needs.{InstrReady};

use base::Pen;
use input::kinds;
use instrs::Seen;

// The place of an instruction's operand k.
fn operand_place(s: Seen, i: u32, k: u32) -> u32
    ensures { result ≡ operand_place s.entry.vs.ws.now s.entry.vs.map.now i k }
{
    let at = input::instr_field(s.vs.ws, i, 3);
    lower::place_at(s.vs.map, input::pool_at(s.vs.ws, at, k))
}

// Alloc, Store, Load, AddrOf.
fn put_memory(ops: &mut [u64], spans: &mut [u32], p: Pen, s: Seen, i: u32) -> Pen
    requires { instr_ok s.vs.ws.now i ≡ true }
    ensures { (l : List ℕ) → Lowers (memory_ops registers s.entry.vs.ws.now s.entry.vs.map.now i) ops.old spans.old l p ops.new spans.new l result }
{
    let d = s.dest_place(i);
    let a = operand_place(s, i, 0);
    let y = input::instr_field(s.vs.ws, i, 6);
    match input::instr_field(s.vs.ws, i, 0) {
        kinds::instr::ALLOC => {
            let x = input::instr_field(s.vs.ws, i, 5);
            let z = input::instr_field(s.vs.ws, i, 7);
            lower::put_alloc(ops, spans, p, d, x as u8, y, z as u8)
        }
        kinds::instr::STORE => {
            let b = operand_place(s, i, 1);
            lower::put_store_to(ops, spans, p, a, b, y)
        }
        kinds::instr::LOAD => lower::put_load(ops, spans, p, d, a, y),
        kinds::instr::ADDR_OF => lower::put_addr_of(ops, spans, p, d, a, y),
        _ => p,
    }
}

// Operators, casts and Assert, and what put_memory knows. A Noop gives nothing.
fn put_compute(ops: &mut [u64], spans: &mut [u32], p: Pen, s: Seen, i: u32) -> Pen
    requires { instr_ok s.vs.ws.now i ≡ true }
    ensures { (l : List ℕ) → Lowers (compute_ops registers s.entry.vs.ws.now s.entry.vs.map.now i) ops.old spans.old l p ops.new spans.new l result }
{
    let x = input::instr_field(s.vs.ws, i, 5);
    let y = input::instr_field(s.vs.ws, i, 6);
    let d = s.dest_place(i);
    let a = operand_place(s, i, 0);
    match input::instr_field(s.vs.ws, i, 0) {
        kinds::instr::BIN => {
            let b = operand_place(s, i, 1);
            lower::put_bin(ops, spans, p, x as u8, d, a, b)
        }
        kinds::instr::BIN_IMM => lower::put_bin_imm(ops, spans, p, x as u8, d, a, y),
        kinds::instr::CAST => lower::put_cast(ops, spans, p, x, y, d, a),
        kinds::instr::ASSERT => lower::put_assert(ops, spans, p, d, a),
        _ => put_memory(ops, spans, p, s, i),
    }
}

// An instruction by its kind; `table` is the number of the next lookup table.
fn put_instr(ops: &mut [u64], spans: &mut [u32], p: Pen, s: Seen, table: u32, i: u32) -> Pen
    requires { InstrReady s.vs.ws.now i }
    ensures { (l : List ℕ) → Lowers (instr_ops registers (env_of s.entry) table i) ops.old spans.old l p ops.new spans.new l result }
{
    match input::instr_field(s.vs.ws, i, 0) {
        kinds::instr::LOAD_CONST => {
            let c = input::instr_field(s.vs.ws, i, 5);
            instrs::put_load_const(ops, spans, p, s, i, c)
        }
        kinds::instr::CALL => instrs::put_call(ops, spans, p, s, i),
        kinds::instr::SYS => instrs::put_sys(ops, spans, p, s, i),
        kinds::instr::LOOKUP => {
            let subject = operand_place(s, i, 0);
            lower::put_lookup(ops, spans, p, s.dest_place(i), subject, table)
        }
        _ => put_compute(ops, spans, p, s, i),
    }
}

// How many of the next lookup table's number an instruction takes.
fn lookup_count(ws: &[u32], i: u32) -> u32
    ensures { result ≡ pick (eqb (instr_kind ws.now i) lookup) 1 0 }
{
    if input::instr_field(ws, i, 0) == kinds::instr::LOOKUP {
        1
    } else {
        0
    }
}

// How many of k instructions from i on are a Lookup.
pub fn lookups_in(ws: &[u32], i: u32, k: u32) -> u32
    requires { i + k < 4294967296 }
    ensures { (result ≡ lookups_in ws.now i k) × (result ≤ k) }
{
    let mut n = 0;
    for j in i..i + k {
        n += lookup_count(ws, j);
    }
    n
}

// n instructions from the first on, each with its span.
pub fn put_instrs(
    ops: &mut [u64],
    spans: &mut [u32],
    p: Pen,
    s: Seen,
    table: u32,
    first: u32,
    n: u32,
) -> Pen
    requires n_bound { (first + n < 4294967296) × (table + n < 4294967296) }
    requires by_index { (i : ℕ) → first ≤ i → i < first + n → InstrReady s.vs.ws.now i }
    ensures { (l : List ℕ) → Lowers (instrs_ops registers (env_of s.entry) table first n) ops.old spans.old l p ops.new spans.new l result }
{
    let mut q = p;
    let mut t = table;
    for i in first..first + n {
        q = base::at_span(q, input::instr_field(s.vs.ws, i, 1));
        q = put_instr(ops, spans, q, s, t, i);
        t += lookup_count(s.vs.ws, i);
    }
    q
}
