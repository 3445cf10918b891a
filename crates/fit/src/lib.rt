// Refusals 4 to 7, row by row.
#![tactic(auto)]

ghost use Rattle.std.specs.Prelude.{◌≡◌, ℕ, ◌+◌, ◌-◌, ◌^◌, ◌<◌, min, max, true, List, nat_lt};
ghost use Rattle.base.specs.Choice.{pick};
ghost use Rattle.base.specs.Limits.{most_table_slots};
ghost use Rattle.input.specs.Layout.{list_at, edge_field, constant_field};
ghost use Rattle.input.specs.Records.{params_of, arguments_of, edge_target, payload_of};
ghost use Rattle.rows.specs.Rows.{Ref, ref, refs, row_defs, params, instr, term};
ghost use Rattle.fit.specs.Intervals.{fit_def, fit_defs, fit_use, fit_uses, unread, fit_args, fit_edges, fit_row};
ghost use Rattle.fit.specs.Tabled.{Tabled, marks, mark, marked};
ghost use Rattle.fit.specs.Callees.{known, row_callee};
ghost use Rattle.fit.specs.Keys.{ranked, keys_at, keys_ok, row_keys};

use input::kinds;

// The most slots of one table.
const MOST_TABLE_SLOTS: u64 = 4096;

// Refusal 5. A definition fits its interval.
fn fit_def(ws: &[u32], r: u32, v: u32) -> bool
    ensures { result ≡ fit_def ws.now (ref r v) }
{
    let start = input::value_field(ws, v, 0);
    let end = input::value_field(ws, v, 1);
    start != u32::MAX && start <= end && (r < end) == (start < end)
}

// So do the n values that the pool lists from `at` on.
fn fit_defs(ws: &[u32], r: u32, at: u32, n: u32) -> bool
    ensures { result ≡ fit_defs ws.now (refs r (list_at ws.now at n)) }
{
    (0..n).all(|j| fit_def(ws, r, input::pool_at(ws, at, j)))
}

// A use: the value's row is earlier, and its end is at or after this row.
fn fit_use(ws: &[u32], rows: &[u32], r: u32, v: u32) -> bool
    ensures { (ds : List Ref) → Tabled rows.now ds → result ≡ fit_use ws.now ds (ref r v) }
{
    let next = base::get_or(rows, v as usize, 0);
    next != 0 && next <= r && r <= input::value_field(ws, v, 1)
}

// So do the uses of the n values that the pool lists from `at` on.
fn fit_uses(ws: &[u32], rows: &[u32], r: u32, at: u32, n: u32) -> bool
    ensures { (ds : List Ref) → Tabled rows.now ds → result ≡ fit_uses ws.now ds (refs r (list_at ws.now at n)) }
{
    (0..n).all(|j| fit_use(ws, rows, r, input::pool_at(ws, at, j)))
}

// An argument for an unread parameter is exempt.
fn fit_arg(ws: &[u32], rows: &[u32], r: u32, a: u32, p: u32) -> bool
    ensures { (ds : List Ref) → Tabled rows.now ds → result ≡ pick (unread ws.now p) true (fit_use ws.now ds (ref r a)) }
{
    let start = input::value_field(ws, p, 0);
    let end = input::value_field(ws, p, 1);
    start == end || fit_use(ws, rows, r, a)
}

// The n arguments from `at` on, for as many parameters from `to` on.
fn fit_args(ws: &[u32], rows: &[u32], r: u32, at: u32, to: u32, n: u32) -> bool
    ensures { (ds : List Ref) → Tabled rows.now ds → result ≡ fit_args ws.now ds r (list_at ws.now at n) (list_at ws.now to n) }
{
    (0..n).all(|j| {
        let a = input::pool_at(ws, at, j);
        let p = input::pool_at(ws, to, j);
        fit_arg(ws, rows, r, a, p)
    })
}

// Field k of the edge j places behind the first: their sum may pass 32 bits.
fn edge_at(ws: &[u32], first: u32, j: u32, k: u32) -> u32
    ensures { result ≡ edge_field ws.now (first + j) k }
{
    let from = input::head_field(ws, 11) as usize;
    base::get_or(
        ws,
        from + 3 * ((first as usize) + (j as usize)) + (k as usize),
        0,
    )
}

// The arguments of that edge.
fn fit_edge(ws: &[u32], rows: &[u32], r: u32, first: u32, j: u32) -> bool
    ensures { (ds : List Ref) → Tabled rows.now ds → result ≡ fit_args ws.now ds r (arguments_of ws.now (first + j)) (params_of ws.now (edge_target ws.now (first + j))) }
{
    let target = edge_at(ws, first, j, 0);
    let at = edge_at(ws, first, j, 1);
    let n = edge_at(ws, first, j, 2);
    let to = input::block_field(ws, target, 2);
    let m = input::block_field(ws, target, 3);
    fit_args(ws, rows, r, at, to, n.min(m))
}

// The n edges from the first on.
fn fit_edges(ws: &[u32], rows: &[u32], r: u32, first: u32, n: u32) -> bool
    ensures { (ds : List Ref) → Tabled rows.now ds → result ≡ fit_edges ws.now ds r first n }
{
    (0..n).all(|j| fit_edge(ws, rows, r, first, j))
}

// Refusal 5 of a row of parameters.
pub fn fit_params(ws: &[u32], b: u32, r: u32) -> bool
    ensures { result ≡ fit_defs ws.now (refs r (params_of ws.now b)) }
{
    let at = input::block_field(ws, b, 2);
    let n = input::block_field(ws, b, 3);
    fit_defs(ws, r, at, n)
}

// Refusal 5 of an instruction's row, by the table of rows.
pub fn fit_instr(ws: &[u32], rows: &[u32], i: u32, r: u32) -> bool
    ensures { (ds : List Ref) → Tabled rows.now ds → result ≡ fit_row ws.now ds r (instr i) }
{
    let at = input::instr_field(ws, i, 3);
    let n = input::instr_field(ws, i, 4);
    let d = input::instr_field(ws, i, 2);
    fit_uses(ws, rows, r, at, n) && (d == 0 || fit_def(ws, r, d - 1))
}

// Refusal 5 of a terminator's row, by the table of rows.
pub fn fit_term(ws: &[u32], rows: &[u32], b: u32, r: u32) -> bool
    ensures { (ds : List Ref) → Tabled rows.now ds → result ≡ fit_row ws.now ds r (term b) }
{
    let at = input::block_field(ws, b, 8);
    let n = input::block_field(ws, b, 9);
    let first = input::block_field(ws, b, 10);
    let count = input::block_field(ws, b, 11);
    fit_uses(ws, rows, r, at, n) && fit_edges(ws, rows, r, first, count)
}

// Refusal 4. The row of one definition goes into the table, unless one stands there.
fn define(table: &mut [u32], v: u32, r: u16) -> bool
    ensures { marks table.new result ≡ mark (ref r v) (marks table.old true) }
{
    let next = base::get_or(table, v as usize, 0);
    if next != 0 {
        return false;
    }
    base::set(table, v as usize, (r as u32) + 1);
    true
}

// Refusal 4 of a row of parameters: false at the first that has a row already.
pub fn define_params(ws: &[u32], table: &mut [u32], b: u32, r: u16) -> bool
    ensures { marks table.new result ≡ marked (row_defs ws.now r (params b)) (marks table.old true) }
{
    let at = input::block_field(ws, b, 2);
    let n = input::block_field(ws, b, 3);
    for j in 0..n {
        let v = input::pool_at(ws, at, j);
        if !define(table, v, r) {
            return false;
        }
    }
    true
}

// Refusal 4 of an instruction's row.
pub fn define_instr(ws: &[u32], table: &mut [u32], i: u32, r: u16) -> bool
    ensures { marks table.new result ≡ marked (row_defs ws.now r (instr i)) (marks table.old true) }
{
    let d = input::instr_field(ws, i, 2);
    d == 0 || define(table, d - 1, r)
}

// Refusal 6. The callee is the function itself or stands in the table.
fn is_known(ws: &[u32], functions: &[u64], f: u32) -> bool
    ensures { result ≡ known ws.now functions.now f }
{
    f == input::head_field(ws, 0) || 0 < program::kind_of(base::get_or(functions, f as usize, 0))
}

// Refusal 6 of an instruction's row, whatever its number.
pub fn callee_instr(ws: &[u32], functions: &[u64], i: u32) -> bool
    ensures { (r : ℕ) → result ≡ row_callee ws.now functions.now r (instr i) }
{
    input::instr_field(ws, i, 0) != kinds::instr::CALL
        || is_known(ws, functions, input::instr_field(ws, i, 5))
}

// Refusal 6 of a terminator's row, whatever its number.
pub fn callee_term(ws: &[u32], functions: &[u64], b: u32) -> bool
    ensures { (r : ℕ) → result ≡ row_callee ws.now functions.now r (term b) }
{
    input::block_field(ws, b, 6) != kinds::term::TAIL
        || is_known(ws, functions, input::block_field(ws, b, 12))
}

// Field k of a constant: its number may pass 32 bits.
pub fn constant_at(ws: &[u32], c: usize, k: u32) -> u32
    requires { c < 2 ^ 48 }
    ensures { result ≡ constant_field ws.now c k }
{
    let from = input::head_field(ws, 12) as usize;
    base::get_or(ws, from + 3 * c + (k as usize), 0)
}

// The payload of a constant.
pub fn payload_at(ws: &[u32], c: usize) -> u64
    requires { c < 2 ^ 48 }
    ensures { result ≡ payload_of ws.now c }
{
    let low = constant_at(ws, c, 1) as u64;
    let high = constant_at(ws, c, 2) as u64;
    low + 4294967296 * high
}

// A key's place in the order of signed numbers, from 0 for the least.
pub fn rank(ws: &[u32], c: usize) -> u64
    requires { c < 2 ^ 48 }
    ensures { result ≡ ranked ws.now c }
{
    std::num::wrapping_add_u64(payload_at(ws, c), 9223372036854775808)
}

// Refusal 7 of n keys, each `step` constants behind the one before.
fn keys_ok(ws: &[u32], first: u32, step: u8, n: u32) -> bool
    ensures { result ≡ keys_ok ws.now (keys_at step first n) }
{
    let mut low = u64::MAX;
    let mut high = u64::MIN;
    let mut c = first as usize;
    for _i in 0..n {
        if constant_at(ws, c, 0) != kinds::constant::INT {
            return false;
        }
        let key = rank(ws, c);
        low = low.min(key);
        high = high.max(key);
        c += step as usize;
    }
    high.saturating_sub(low) < MOST_TABLE_SLOTS
}

// Refusal 7 of an instruction's row, whatever its number.
pub fn keys_instr(ws: &[u32], i: u32) -> bool
    ensures { (r : ℕ) → result ≡ row_keys ws.now r (instr i) }
{
    input::instr_field(ws, i, 0) != kinds::instr::LOOKUP
        || keys_ok(
            ws,
            input::instr_field(ws, i, 5),
            2,
            input::instr_field(ws, i, 6),
        )
}

// Refusal 7 of a terminator's row, whatever its number.
pub fn keys_term(ws: &[u32], b: u32) -> bool
    ensures { (r : ℕ) → result ≡ row_keys ws.now r (term b) }
{
    input::block_field(ws, b, 6) != kinds::term::SWITCH
        || keys_ok(
            ws,
            input::block_field(ws, b, 12),
            1,
            input::block_field(ws, b, 13),
        )
}
