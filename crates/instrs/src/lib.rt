// What lowering a function reads, and the instructions that read the program: LoadConst, Call, Sys.
#![tactic(auto)]

ghost use Rattle.std.specs.Prelude.{◌≡◌, List, ℕ, ◌+◌, ◌-◌, ◌≤◌, ◌<◌, length, get_or};
ghost use Rattle.base.specs.Lent.{Lowers};
ghost use Rattle.place.specs.Registers.{registers};
ghost use Rattle.input.specs.Records.{operand_count, destination};
ghost use Rattle.lower.specs.Operands.{place_at};
ghost use Rattle.instrs.specs.Instrs.{dest_place, load_const_ops, call_ops, sys_ops};

use base::Pen;
use calls::{Call, Operands};
use edges::Values;

// The function's words, places and noted registers, and of the program the function table, the globals and the builtins.
#[derive(Clone, Copy)]
pub struct Seen<'a> {
    pub vs: Values<'a>,
    pub noted: &'a [u64],
    pub functions: &'a [u64],
    pub globals: &'a [u64],
    pub builtins: &'a [u32],
    pub ghost places_low: { (v : ℕ) → place_at vs.map.now v + 62 < 4294967296 },
    pub ghost globals_few: { length globals.now ≤ 131068 },
    pub ghost builtins_few: { length builtins.now ≤ 65534 },
}

impl<'a> Seen<'a> {
    // The place of an instruction's destination.
    pub fn dest_place(self, i: u32) -> u32
        ensures { result ≡ dest_place self.entry.vs.ws.now self.entry.vs.map.now i }
    {
        let d = input::instr_field(self.vs.ws, i, 2);
        if d == 0 {
            return lower::place_at(self.vs.map, 0);
        }
        lower::place_at(self.vs.map, d - 1)
    }

    // The registers noted for an instruction's destination.
    fn noted_for(self, i: u32) -> u64
        ensures { result ≡ get_or self.entry.noted.now (destination self.entry.vs.ws.now i - 1) 0 }
    {
        let d = input::instr_field(self.vs.ws, i, 2);
        if d == 0 {
            return base::get_or(self.noted, 0, 0);
        }
        base::get_or(self.noted, (d - 1) as usize, 0)
    }
}

// LoadConst: only a constant that LoadG loads is looked for among the globals.
pub fn put_load_const(ops: &mut [u64], spans: &mut [u32], p: Pen, s: Seen, i: u32, c: u32) -> Pen
    ensures { (l : List ℕ) → Lowers (load_const_ops registers s.entry.vs.ws.now s.entry.vs.map.now s.entry.globals.now i c) ops.old spans.old l p ops.new spans.new l result }
{
    let kind = input::constant_field(s.vs.ws, c, 0);
    let payload = fit::payload_at(s.vs.ws, c as usize);
    let d = s.dest_place(i);
    if lower::is_global(kind, payload) {
        let g = interning::find_global(s.globals, s.globals.len() / 2, kind, payload);
        return lower::put_const(ops, spans, p, d, kind, payload, g as u32);
    }
    lower::put_const(ops, spans, p, d, kind, payload, 0)
}

// Call, of a function by its word in the table.
pub fn put_call(ops: &mut [u64], spans: &mut [u32], p: Pen, s: Seen, i: u32) -> Pen
    requires { operand_count s.vs.ws.now i ≤ 62 }
    ensures { (l : List ℕ) → Lowers (call_ops registers s.entry.vs.ws.now s.entry.vs.map.now s.entry.noted.now s.entry.functions.now i) ops.old spans.old l p ops.new spans.new l result }
{
    let at = input::instr_field(s.vs.ws, i, 3);
    let count = input::instr_field(s.vs.ws, i, 4);
    let call = Call {
        operands: Operands {
            vs: s.vs,
            at,
            count,
        },
        noted: s.noted_for(i),
        dst: s.dest_place(i),
    };
    let f = base::get_or(s.functions, input::instr_field(s.vs.ws, i, 5) as usize, 0);
    calls::put_call(ops, spans, p, call, f)
}

// Sys, of a builtin by its number.
pub fn put_sys(ops: &mut [u64], spans: &mut [u32], p: Pen, s: Seen, i: u32) -> Pen
    requires { operand_count s.vs.ws.now i ≤ 62 }
    ensures { (l : List ℕ) → Lowers (sys_ops registers s.entry.vs.ws.now s.entry.vs.map.now s.entry.noted.now s.entry.builtins.now i) ops.old spans.old l p ops.new spans.new l result }
{
    let at = input::instr_field(s.vs.ws, i, 3);
    let count = input::instr_field(s.vs.ws, i, 4);
    let call = Call {
        operands: Operands {
            vs: s.vs,
            at,
            count,
        },
        noted: s.noted_for(i),
        dst: s.dest_place(i),
    };
    let x = input::instr_field(s.vs.ws, i, 5);
    let number = interning::find_builtin(s.builtins, s.builtins.len(), x) as u32;
    calls::put_sys(ops, spans, p, call, number)
}
