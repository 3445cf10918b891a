// What compiling judges before it writes anything: words, used lengths, refusals 1 to 7, labels and an entry in the function table.
#![tactic(auto)]

ghost use Rattle.std.specs.Prelude.{◌≡◌};
ghost use Rattle.base.specs.Choice.{pick};
ghost use Rattle.place.specs.Registers.{registers};
ghost use Rattle.refusal.specs.Numbers.{number_for};
ghost use Rattle.input.specs.Forms.{words_ok};
ghost use Rattle.judge.specs.Judged.{unfit};
ghost use Rattle.first_checks.specs.Buffers.{Buffers};
ghost use Rattle.first_checks.specs.Checks.{used_ok, entry_ok, Sized};

use lists::{MOST_OF_A_KIND, Used};
use refusal::Refusal;

// The lengths of the lent buffers.
#[derive(Clone, Copy)]
pub struct Lengths {
    pub ops: usize,
    pub spans: usize,
    pub globals: usize,
    pub builtins: usize,
    pub functions: usize,
    pub switches: usize,
    pub targets: usize,
    pub lookups: usize,
    pub values: usize,
    pub labels: usize,
}

// No used length passes its buffer.
fn used_ok(n: Lengths, u: Used) -> bool
    ensures { (b : Buffers) → Sized n b → result ≡ used_ok b u }
{
    used::within(1, u.ops, n.ops)
        & used::within(1, u.ops, n.spans)
        & used::within(2, u.globals, n.globals)
        & used::within(1, u.builtins, n.builtins)
        & used::within(3, u.switches, n.switches)
        & used::slots_within(1, u.targets, n.targets)
        & used::within(5, u.lookups, n.lookups)
        & used::slots_within(2, u.values, n.values)
}

// Refusals 1 to 7, and used lengths.
pub fn early(ws: &[u32], functions: &[u64], n: Lengths, u: Used) -> Result<(), Refusal>
    ensures { (b : Buffers) → Sized n b → number_for result ≡ pick (words_ok ws.now) (pick (used_ok b u) (unfit registers ws.now functions.now) 2) 1 }
{
    let v = judge::judge(ws, functions);
    if refusal::number_for(v) == 1 {
        return v;
    }
    if used_ok(n, u) {
        return v;
    }
    Err(Refusal::TooMany)
}

// Labels, and an entry in the function table.
fn enough(ws: &[u32], n: Lengths) -> bool
    ensures { (b : Buffers) → Sized n b → result ≡ entry_ok ws.now b }
{
    let labels = used::labels_for(ws);
    let id = input::head_field(ws, 0) as usize;
    (labels <= n.labels) & (id < n.functions) & (id < MOST_OF_A_KIND)
}

// 9 where they are not enough.
pub fn with_entry(ws: &[u32], n: Lengths) -> Result<(), Refusal>
    ensures { (b : Buffers) → Sized n b → number_for result ≡ pick (entry_ok ws.now b) 0 9 }
{
    if enough(ws, n) {
        return Ok(());
    }
    Err(Refusal::NoRoom)
}
