// Interning of constants and builtins.
#![tactic(auto)]

ghost use Rattle.std.specs.Prelude.{◌≡◌, true, ℕ, ◌+◌, ◌*◌, ◌^◌, ◌<◌, ◌≤◌, min, eqb, length, take};
ghost use Rattle.base.specs.Choice.{pick};
ghost use Rattle.grow.specs.Growing.{Grows};
ghost use Rattle.input.specs.Records.{is_live, first_instr, instr_count, instr_x, term_x, constant_kind, payload_of};
ghost use Rattle.input.specs.Forms.{both};
ghost use Rattle.rows.specs.Rows.{instr, term, instr_rows, block_rows, rows_of, over_rows};
ghost use Rattle.fit.specs.Keys.{keys_at};
ghost use Rattle.ready.specs.Ready.{Live, Ready};
ghost use Rattle.lower.specs.Instructions.{is_global};
ghost use Rattle.interning.specs.Asked.{asked_by, rows_by};
ghost use Rattle.interning.specs.Interning.{global_of, intern, intern_all, strings_interned, globals_after, builtin_of, intern_builtin, intern_builtins, row_builtins, builtins_after};

use grow::End;
use input::kinds;

// What a pass interns: strings, or what LoadG loads.
#[derive(Clone, Copy)]
enum Asked {
    Strings,
    Loaded,
}

// Are a kind and payload, as they stand among the globals, those of a constant?
fn is_same(k: u64, p: u64, kind: u32, payload: u64) -> bool
    ensures { result ≡ both (eqb k kind) (eqb p payload) }
{
    k == kind as u64 && p == payload
}

// The number of a constant among so many globals, their count if it is none of them.
pub fn find_global(globals: &[u64], count: usize, kind: u32, payload: u64) -> usize
    requires { 2 * count ≤ length globals.now }
    ensures { result ≡ global_of kind payload (take (2 * count) globals.now) }
{
    for i in 0..count {
        if is_same(globals[2 * i], globals[2 * i + 1], kind, payload) {
            return i;
        }
    }
    count
}

// The number of a builtin among so many, their count if it is none of them.
pub fn find_builtin(builtins: &[u32], count: usize, x: u32) -> usize
    requires { count ≤ length builtins.now }
    ensures { result ≡ builtin_of x (take count builtins.now) }
{
    builtins[..count]
        .iter()
        .position(|y| *y == x)
        .unwrap_or(count)
}

// A constant that is none of the globals becomes the next.
fn intern_constant(globals: &mut [u64], e: End, kind: u32, payload: u64) -> End
    ensures { Grows (intern kind payload) globals.old e globals.new result }
{
    let used = e.at.min(globals.len());
    let found = find_global(globals, used / 2, kind, payload);
    if 2 * found < e.at {
        return e;
    }
    let f = e.push(globals, kind as u64);
    f.push(globals, payload)
}

// Does the pass intern such a constant?
fn is_asked(asked: Asked, kind: u32, payload: u64) -> bool
    ensures { result ≡ asked_by asked kind payload }
{
    match asked {
        Asked::Strings => kind == kinds::constant::STR,
        Asked::Loaded => lower::is_global(kind, payload),
    }
}

// One constant, where the pass asks for it.
fn intern_one(ws: &[u32], globals: &mut [u64], e: End, asked: Asked, c: usize) -> End
    requires { c < 2 ^ 48 }
    ensures { Grows (λ g. pick (asked_by asked (constant_kind ws.now c) (payload_of ws.now c)) (intern (constant_kind ws.now c) (payload_of ws.now c) g) g) globals.old e globals.new result }
{
    let kind = fit::constant_at(ws, c, 0);
    let payload = fit::payload_at(ws, c);
    if !is_asked(asked, kind, payload) {
        return e;
    }
    intern_constant(globals, e, kind, payload)
}

// So many constants from one on.
fn intern_run(ws: &[u32], globals: &mut [u64], e: End, asked: Asked, first: usize, n: usize) -> End
    requires { first + n < 2 ^ 48 }
    ensures { Grows (intern_all (asked_by asked) ws.now (keys_at 1 first n)) globals.old e globals.new result }
{
    let mut f = e;
    for c in first..first + n {
        f = intern_one(ws, globals, f, asked, c);
    }
    f
}

// How many constants an instruction has for the pass, from its x on.
fn instr_constants(ws: &[u32], i: u32, asked: Asked) -> usize
    ensures { (result < 2 ^ 40) × ((r : ℕ) → rows_by asked ws.now r (instr i) ≡ keys_at 1 (instr_x ws.now i) result) }
{
    match (input::instr_field(ws, i, 0), asked) {
        (kinds::instr::LOAD_CONST, _) => 1,
        (kinds::instr::LOOKUP, Asked::Strings) => 2 * (input::instr_field(ws, i, 6) as usize) + 1,
        _ => 0,
    }
}

// How many a terminator has.
fn term_constants(ws: &[u32], b: u32, asked: Asked) -> usize
    ensures { (result < 2 ^ 40) × ((r : ℕ) → rows_by asked ws.now r (term b) ≡ keys_at 1 (term_x ws.now b) result) }
{
    match (input::block_field(ws, b, 6), asked) {
        (kinds::term::SWITCH, Asked::Strings) => input::block_field(ws, b, 13) as usize,
        _ => 0,
    }
}

// The constants of one instruction, whatever its row.
fn intern_instr(ws: &[u32], globals: &mut [u64], e: End, asked: Asked, i: u32) -> End
    ensures { (r : ℕ) → Grows (intern_all (asked_by asked) ws.now (rows_by asked ws.now r (instr i))) globals.old e globals.new result }
{
    let first = input::instr_field(ws, i, 5) as usize;
    let n = instr_constants(ws, i, asked);
    intern_run(ws, globals, e, asked, first, n)
}

// Those of a terminator.
fn intern_term(ws: &[u32], globals: &mut [u64], e: End, asked: Asked, b: u32) -> End
    ensures { (r : ℕ) → Grows (intern_all (asked_by asked) ws.now (rows_by asked ws.now r (term b))) globals.old e globals.new result }
{
    let first = input::block_field(ws, b, 12) as usize;
    let n = term_constants(ws, b, asked);
    intern_run(ws, globals, e, asked, first, n)
}

// Those of n instructions from the first on.
fn intern_instrs(ws: &[u32], globals: &mut [u64], e: End, asked: Asked, first: u32, n: u32) -> End
    requires { first + n < 4294967296 }
    ensures { (r : ℕ) → Grows (intern_all (asked_by asked) ws.now (over_rows (rows_by asked ws.now) r (instr_rows first n))) globals.old e globals.new result }
{
    let mut f = e;
    for i in first..first + n {
        f = intern_instr(ws, globals, f, asked, i);
    }
    f
}

// Those of a block, none of a tombstone.
fn intern_block(ws: &[u32], globals: &mut [u64], e: End, asked: Asked, b: u32) -> End
    requires { is_live ws.now b ≡ true → first_instr ws.now b + instr_count ws.now b < 4294967296 }
    ensures { (r : ℕ) → Grows (intern_all (asked_by asked) ws.now (over_rows (rows_by asked ws.now) r (block_rows ws.now b))) globals.old e globals.new result }
{
    if input::block_field(ws, b, 1) != 0 {
        return e;
    }
    let first = input::block_field(ws, b, 4);
    let n = input::block_field(ws, b, 5);
    let f = intern_instrs(ws, globals, e, asked, first, n);
    intern_term(ws, globals, f, asked, b)
}

// Those of all blocks.
fn intern_pass(ws: &[u32], globals: &mut [u64], e: End, asked: Asked) -> End
    requires { (b : ℕ) → Live ws.now b → first_instr ws.now b + instr_count ws.now b < 4294967296 }
    ensures { Grows (intern_all (asked_by asked) ws.now (over_rows (rows_by asked ws.now) 0 (rows_of ws.now))) globals.old e globals.new result }
{
    let mut f = e;
    for b in 0..input::head_field(ws, 4) {
        f = intern_block(ws, globals, f, asked, b);
    }
    f
}

// The function's strings among the globals.
#[tactic(auto, unfolding(crate::specs::Interning::strings_interned))]
pub fn intern_strings(ws: &[u32], globals: &mut [u64], e: End) -> End
    requires { (b : ℕ) → Live ws.now b → first_instr ws.now b + instr_count ws.now b < 4294967296 }
    ensures { Grows (strings_interned ws.now) globals.old e globals.new result }
{
    intern_pass(ws, globals, e, Asked::Strings)
}

// Its strings, then what LoadG loads.
pub fn intern_globals(ws: &[u32], globals: &mut [u64], e: End) -> End
    requires { Ready ws.now }
    ensures { Grows (globals_after ws.now) globals.old e globals.new result }
{
    let f = intern_strings(ws, globals, e);
    intern_pass(ws, globals, f, Asked::Loaded)
}

// A builtin that is none of the list becomes the next.
fn intern_builtin(builtins: &mut [u32], e: End, x: u32) -> End
    ensures { Grows (intern_builtin x) builtins.old e builtins.new result }
{
    let used = e.at.min(builtins.len());
    let found = find_builtin(builtins, used, x);
    if found < e.at {
        return e;
    }
    e.push(builtins, x)
}

// The builtin of an instruction, if it is a Sys, whatever its row.
fn intern_sys(ws: &[u32], builtins: &mut [u32], e: End, i: u32) -> End
    ensures { (r : ℕ) → Grows (intern_builtins (row_builtins ws.now r (instr i))) builtins.old e builtins.new result }
{
    if input::instr_field(ws, i, 0) != kinds::instr::SYS {
        return e;
    }
    intern_builtin(builtins, e, input::instr_field(ws, i, 5))
}

// Those of n instructions from the first on.
fn instrs_builtins(ws: &[u32], builtins: &mut [u32], e: End, first: u32, n: u32) -> End
    requires { first + n < 4294967296 }
    ensures { (r : ℕ) → Grows (intern_builtins (over_rows (row_builtins ws.now) r (instr_rows first n))) builtins.old e builtins.new result }
{
    let mut f = e;
    for i in first..first + n {
        f = intern_sys(ws, builtins, f, i);
    }
    f
}

// Those of a block, none of a tombstone.
fn block_builtins(ws: &[u32], builtins: &mut [u32], e: End, b: u32) -> End
    requires { is_live ws.now b ≡ true → first_instr ws.now b + instr_count ws.now b < 4294967296 }
    ensures { (r : ℕ) → Grows (intern_builtins (over_rows (row_builtins ws.now) r (block_rows ws.now b))) builtins.old e builtins.new result }
{
    if input::block_field(ws, b, 1) != 0 {
        return e;
    }
    let first = input::block_field(ws, b, 4);
    let n = input::block_field(ws, b, 5);
    instrs_builtins(ws, builtins, e, first, n)
}

// The function's builtins in their list.
pub fn intern_builtins(ws: &[u32], builtins: &mut [u32], e: End) -> End
    requires { Ready ws.now }
    ensures { Grows (builtins_after ws.now) builtins.old e builtins.new result }
{
    let mut f = e;
    for b in 0..input::head_field(ws, 4) {
        f = block_builtins(ws, builtins, f, b);
    }
    f
}
