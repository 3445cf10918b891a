// Terminators: each by its kind.
#![tactic(auto)]

ghost use Rattle.std.specs.Prelude.{◌≡◌, List, ℕ, ◌+◌, ◌≤◌, ◌<◌};
ghost use Rattle.base.specs.Lent.{Lowers};
ghost use Rattle.place.specs.Registers.{registers};
ghost use Rattle.op.specs.Ops as ops-by-name;
ghost use Rattle.input.specs.Layout.{blocks};
ghost use Rattle.input.specs.Records.{first_edge, edge_target, param_count, term_kind, term_y};
ghost use Rattle.ready.specs.Ready.{Ready, Live};
ghost use Rattle.instrs.specs.Instrs.{seen};
ghost use Rattle.terms.specs.Terms.{term_place, return_ops, branch_ops, switch_ops, term_ops};

use base::Pen;
use calls::Operands;
use input::kinds;
use instrs::Seen;
use op::Op;

// An op of nothing but zeros.
const NOP: Op = Op {
    code: 0,
    a: 0,
    b: 0,
    c: 0,
    w: 0,
};

// The place of a terminator's operand k.
fn term_place(s: Seen, b: u32, k: u32) -> u32
    ensures { result ≡ term_place s.entry.vs.ws.now s.entry.vs.map.now b k }
{
    let at = input::block_field(s.vs.ws, b, 8);
    lower::place_at(s.vs.map, input::pool_at(s.vs.ws, at, k))
}

// Return of a value moves it to register 0.
fn put_return(ops: &mut [u64], spans: &mut [u32], p: Pen, s: Seen, b: u32) -> Pen
    ensures { (l : List ℕ) → Lowers (return_ops registers s.entry.vs.ws.now s.entry.vs.map.now b) ops.old spans.old l p ops.new spans.new l result }
{
    if input::block_field(s.vs.ws, b, 9) == 0 {
        return base::put(ops, spans, p, op::ret());
    }
    let a = term_place(s, b, 0);
    let x = lower::operand_reg(a, p.last);
    let q = lower::put_fetch(ops, spans, p, a);
    let r = base::put(ops, spans, q, op::mov(0, x));
    base::put(ops, spans, r, op::ret())
}

// A jump without its target.
fn jump_f(cond: u8) -> Op
    ensures { result ≡ ops-by-name.jmp_f cond 0 }
{
    Op {
        code: 7,
        a: cond,
        ..NOP
    }
}

fn jump_ne_i(lhs: u8, imm: u32) -> Op
    ensures { result ≡ ops-by-name.jmp_ne_i lhs imm 0 }
{
    Op {
        code: 9,
        a: lhs,
        w: imm,
        ..NOP
    }
}

fn jump_s_ne(lhs: u8, rhs: u8) -> Op
    ensures { result ≡ ops-by-name.jmp_s_ne lhs rhs 0 }
{
    Op {
        code: 11,
        a: lhs,
        b: rhs,
        ..NOP
    }
}

// Branch, BranchCmpImm, BranchCmp.
fn put_branches(
    ops: &mut [u64],
    spans: &mut [u32],
    labels: &mut [u64],
    p: Pen,
    s: Seen,
    next: u32,
    b: u32,
) -> Pen
    requires ws_bound { (blocks s.vs.ws.now ≤ 1024) × (b < 1024) × (first_edge s.vs.ws.now b + 1 < 4294967296) }
    requires b_bound { (param_count s.vs.ws.now (edge_target s.vs.ws.now (first_edge s.vs.ws.now b)) ≤ 190) × (param_count s.vs.ws.now (edge_target s.vs.ws.now (first_edge s.vs.ws.now b + 1)) ≤ 190) }
    ensures { Lowers (branch_ops registers s.entry.vs.ws.now s.entry.vs.map.now next b) ops.old spans.old labels.old p ops.new spans.new labels.new result }
{
    let label = input::head_field(s.vs.ws, 4) + b;
    let e = input::block_field(s.vs.ws, b, 10);
    let x = term_place(s, b, 0);
    let l = lower::operand_reg(x, p.last);
    let mut q = lower::put_fetch(ops, spans, p, x);
    let jump = match input::block_field(s.vs.ws, b, 6) {
        kinds::term::BRANCH => jump_f(l),
        kinds::term::BRANCH_CMP_IMM => jump_ne_i(l, input::block_field(s.vs.ws, b, 13)),
        _ => {
            let y = term_place(s, b, 1);
            let r = lower::operand_reg(y, q.last);
            q = lower::put_fetch(ops, spans, q, y);
            jump_s_ne(l, r)
        }
    };
    edges::put_branch(ops, spans, labels, q, s.vs, jump, label, next, e)
}

// Switch, with the number of its table, and the label of its first pad.
fn put_switch(
    ops: &mut [u64],
    spans: &mut [u32],
    labels: &mut [u64],
    p: Pen,
    s: Seen,
    table: u32,
    label: u32,
    next: u32,
    b: u32,
) -> Pen
    requires b_bound { (first_edge s.vs.ws.now b + term_y s.vs.ws.now b < 4294967296) × (label + term_y s.vs.ws.now b < 4294967296) }
    requires by_index { (i : ℕ) → i ≤ term_y s.vs.ws.now b → param_count s.vs.ws.now (edge_target s.vs.ws.now (first_edge s.vs.ws.now b + i)) ≤ 190 }
    ensures { Lowers (switch_ops registers s.entry.vs.ws.now s.entry.vs.map.now table label next b) ops.old spans.old labels.old p ops.new spans.new labels.new result }
{
    let a = term_place(s, b, 0);
    let x = lower::operand_reg(a, p.last);
    let q = lower::put_fetch(ops, spans, p, a);
    let r = base::put(ops, spans, q, op::switch(x, table));
    let e = input::block_field(s.vs.ws, b, 10);
    let cases = input::block_field(s.vs.ws, b, 13);
    edges::put_switch_edges(ops, spans, labels, r, s.vs, label, next, e, cases)
}

// A terminator by its kind.
pub fn put_term(
    ops: &mut [u64],
    spans: &mut [u32],
    labels: &mut [u64],
    p: Pen,
    s: Seen,
    table: u32,
    label: u32,
    next: u32,
    b: u32,
) -> Pen
    requires ready { Ready s.vs.ws.now × Live s.vs.ws.now b × (label + 1024 < 4294967296) }
    requires b_bound { term_kind s.vs.ws.now b < 8 }
    ensures { (noted globals builtins : List ℕ) → Lowers (term_ops registers (seen s.entry.vs.ws.now s.entry.vs.map.now noted s.entry.functions.now globals builtins) table label next b) ops.old spans.old labels.old p ops.new spans.new labels.new result }
{
    let kind = input::block_field(s.vs.ws, b, 6);
    if kind == kinds::term::NONE {
        return p;
    }
    let q = base::at_span(p, input::block_field(s.vs.ws, b, 7));
    match kind {
        kinds::term::RETURN => put_return(ops, spans, q, s, b),
        kinds::term::JUMP => {
            let e = input::block_field(s.vs.ws, b, 10);
            edges::put_edge(ops, spans, q, s.vs, next, e)
        }
        kinds::term::TAIL => {
            let f = base::get_or(s.functions, input::block_field(s.vs.ws, b, 12) as usize, 0);
            let a = Operands {
                vs: s.vs,
                at: input::block_field(s.vs.ws, b, 8),
                count: input::block_field(s.vs.ws, b, 9),
            };
            calls::put_tail(ops, spans, q, a, f)
        }
        kinds::term::SWITCH => put_switch(ops, spans, labels, q, s, table, label, next, b),
        _ => put_branches(ops, spans, labels, q, s, next, b),
    }
}
