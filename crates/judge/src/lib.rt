// Judging a function without compiling it: refusals 1 to 7.
#![tactic(auto)]

ghost use Rattle.std.specs.Prelude.{◌≡◌, ◌⊎◌, true, List, ℕ, ◌+◌, ◌≤◌, ◌<◌, length, get_or};
ghost use Rattle.base.specs.Limits.{most_rows};
ghost use Rattle.place.specs.Registers.{registers};
ghost use Rattle.input.specs.Layout.{values, blocks};
ghost use Rattle.rows.specs.Rows.{params, instr, term, instr_rows, block_rows, rows_of, every, over_rows, row_defs, defs_of, Ref};
ghost use Rattle.shape.specs.Shape.{shape_ok};
ghost use Rattle.fit.specs.Tabled.{Tabled, marks, marked};
ghost use Rattle.judge.specs.Judged.{verdict_number, unfit};
ghost use Rattle.judge.specs.Passes.{row_ok, check_number, Placed, unfit_rows};

use refusal::Refusal;

// What one pass over the rows asks of each.
#[derive(Clone, Copy)]
enum RowCheck {
    Shape,
    Interval,
    Callee,
    Keys,
}

// A row of parameters, row r: they call nothing and have no keys.
fn params_pass(ws: &[u32], b: u32, r: u16, which: RowCheck) -> bool
    ensures { (functions : List ℕ) (ds : List Ref) → result ≡ row_ok (check_number which) ws.now functions ds r (params b) }
{
    match which {
        RowCheck::Shape => shape::params_shape(ws, b),
        RowCheck::Interval => fit::fit_params(ws, b, r as u32),
        RowCheck::Callee | RowCheck::Keys => true,
    }
}

// An instruction's row.
fn instr_pass(ws: &[u32], functions: &[u64], rows: &[u32], i: u32, r: u16, which: RowCheck) -> bool
    ensures { (ds : List Ref) → Tabled rows.now ds → result ≡ row_ok (check_number which) ws.now functions.now ds r (instr i) }
{
    match which {
        RowCheck::Shape => shape::instr_shape(ws, i),
        RowCheck::Interval => fit::fit_instr(ws, rows, i, r as u32),
        RowCheck::Callee => fit::callee_instr(ws, functions, i),
        RowCheck::Keys => fit::keys_instr(ws, i),
    }
}

// A terminator's row.
fn term_pass(ws: &[u32], functions: &[u64], rows: &[u32], b: u32, r: u16, which: RowCheck) -> bool
    ensures { (ds : List Ref) → Tabled rows.now ds → result ≡ row_ok (check_number which) ws.now functions.now ds r (term b) }
{
    match which {
        RowCheck::Shape => shape::term_shape(ws, b),
        RowCheck::Interval => fit::fit_term(ws, rows, b, r as u32),
        RowCheck::Callee => fit::callee_term(ws, functions, b),
        RowCheck::Keys => fit::keys_term(ws, b),
    }
}

// The n instructions from the first on, of which the first has row r.
fn instrs_pass(
    ws: &[u32],
    functions: &[u64],
    rows: &[u32],
    first: u32,
    n: u32,
    r: u16,
    which: RowCheck,
) -> bool
    requires { (first + n < 4294967296) × (r + n < 65536) }
    ensures { (ds : List Ref) → Tabled rows.now ds → result ≡ every (row_ok (check_number which) ws.now functions.now ds) r (instr_rows first n) }
{
    (0..n).all(|j| instr_pass(ws, functions, rows, first + j, r + (j as u16), which))
}

// One block, from row r on: nothing of a tombstone, else its parameters, its instructions and its terminator.
fn block_pass(ws: &[u32], functions: &[u64], rows: &[u32], b: u32, r: u16, which: RowCheck) -> bool
    requires { (r + length (block_rows ws.now b) ≤ most_rows) × ((which ≡ RowCheck.Shape) ⊎ Placed ws.now b) }
    ensures { (ds : List Ref) → Tabled rows.now ds → result ≡ every (row_ok (check_number which) ws.now functions.now ds) r (block_rows ws.now b) }
{
    if input::block_field(ws, b, 1) != 0 {
        return true;
    }
    if !params_pass(ws, b, r, which) {
        return false;
    }
    let first = input::block_field(ws, b, 4);
    let n = input::block_field(ws, b, 5);
    if !instrs_pass(ws, functions, rows, first, n, r + 1, which) {
        return false;
    }
    term_pass(ws, functions, rows, b, r + 1 + (n as u16), which)
}

// How many rows block b has.
fn rows_in(ws: &[u32], b: u32) -> u16
    requires { length (block_rows ws.now b) ≤ most_rows }
    ensures { result ≡ length (block_rows ws.now b) }
{
    if input::block_field(ws, b, 1) != 0 {
        return 0;
    }
    let n = input::block_field(ws, b, 5);
    (n as u16) + 2
}

// All rows, in the pass for a refusal, by a table of the rows that define values.
fn pass(ws: &[u32], functions: &[u64], rows: &[u32], which: RowCheck) -> bool
    requires { (length (rows_of ws.now) ≤ most_rows) × ((which ≡ RowCheck.Shape) ⊎ ((b : ℕ) → b < blocks ws.now → Placed ws.now b)) }
    ensures { (ds : List Ref) → Tabled rows.now ds → result ≡ every (row_ok (check_number which) ws.now functions.now ds) 0 (rows_of ws.now) }
{
    let mut r: u16 = 0;
    for b in 0..input::head_field(ws, 4) {
        if !block_pass(ws, functions, rows, b, r, which) {
            return false;
        }
        r += rows_in(ws, b);
    }
    true
}

// No refusal 3. The table is zero still.
fn shape_ok(ws: &[u32], functions: &[u64], rows: &[u32]) -> bool
    requires { (length (rows_of ws.now) ≤ most_rows) × ((v : ℕ) → get_or rows.now v 0 ≡ 0) }
    ensures { result ≡ shape_ok ws.now }
{
    input::head_field(ws, 4) != 0
        && input::block_field(ws, 0, 1) == 0
        && pass(ws, functions, rows, RowCheck::Shape)
}

// Refusal 4 fills the table: the n instructions from the first on, of which the first has row r.
fn define_instrs(ws: &[u32], table: &mut [u32], first: u32, n: u32, r: u16) -> bool
    requires { (first + n < 4294967296) × (r + n < 65536) }
    ensures { marks table.new result ≡ marked (over_rows (row_defs ws.now) r (instr_rows first n)) (marks table.old true) }
{
    for j in 0..n {
        if !fit::define_instr(ws, table, first + j, r + (j as u16)) {
            return false;
        }
    }
    true
}

// One block, from row r on.
fn define_block(ws: &[u32], table: &mut [u32], b: u32, r: u16) -> bool
    requires { (r + length (block_rows ws.now b) ≤ most_rows) × Placed ws.now b }
    ensures { marks table.new result ≡ marked (over_rows (row_defs ws.now) r (block_rows ws.now b)) (marks table.old true) }
{
    if input::block_field(ws, b, 1) != 0 {
        return true;
    }
    if !fit::define_params(ws, table, b, r) {
        return false;
    }
    let first = input::block_field(ws, b, 4);
    let n = input::block_field(ws, b, 5);
    define_instrs(ws, table, first, n, r + 1)
}

// All rows.
fn define_all(ws: &[u32], table: &mut [u32]) -> bool
    requires { (length (rows_of ws.now) ≤ most_rows) × ((b : ℕ) → b < blocks ws.now → Placed ws.now b) }
    ensures { marks table.new result ≡ marked (defs_of ws.now) (marks table.old true) }
{
    let mut r: u16 = 0;
    for b in 0..input::head_field(ws, 4) {
        if !define_block(ws, table, b, r) {
            return false;
        }
        r += rows_in(ws, b);
    }
    true
}

// Refusals 3 to 7 of few enough rows, by a table that is zero and has room for every value.
fn judge_rows(ws: &[u32], functions: &[u64], table: &mut [u32]) -> Result<(), Refusal>
    requires { (length (rows_of ws.now) ≤ most_rows) × (values ws.now ≤ length table.old) × ((v : ℕ) → get_or table.old v 0 ≡ 0) }
    ensures { verdict_number result ≡ unfit_rows ws.now functions.now }
{
    if !shape_ok(ws, functions, table) {
        return Err(Refusal::BadShape);
    }
    if !define_all(ws, table) {
        return Err(Refusal::DoubleDef);
    }
    if !pass(ws, functions, table, RowCheck::Interval) {
        return Err(Refusal::BadInterval);
    }
    if !pass(ws, functions, table, RowCheck::Callee) {
        return Err(Refusal::UnknownFunc);
    }
    if !pass(ws, functions, table, RowCheck::Keys) {
        return Err(Refusal::BadKey);
    }
    Ok(())
}

// Any words, any function table. Changes nothing.
pub fn judge(ws: &[u32], functions: &[u64]) -> Result<(), Refusal>
    ensures { verdict_number result ≡ unfit registers ws.now functions.now }
{
    if !input::words_ok(ws) {
        return Err(Refusal::BadWord);
    }
    if !shape::counts_ok(ws) {
        return Err(Refusal::TooMany);
    }
    let mut table = [0u32; 4096];
    judge_rows(ws, functions, &mut table)
}
