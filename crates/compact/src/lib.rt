// Nop compaction.
#![tactic(auto)]

ghost use Rattle.std.specs.Prelude.{◌≡◌, true, map, leb, ◌+◌, ◌≤◌, ◌<◌, length, take};
ghost use Rattle.std.specs.List.{list_all};
ghost use Rattle.base.specs.Choice.{pick};
ghost use Rattle.base.specs.Limits.{most_of_a_kind};
ghost use Rattle.refusal.specs.Numbers as numbers;
ghost use Rattle.op.specs.Words.{parts, allowed};
ghost use Rattle.op.specs.Targets.{is_jump, is_entry};
ghost use Rattle.compact.specs.Compaction.{is_nop};
ghost use Rattle.compact.specs.Entry.{counts_ok, pcs_ok, refusal, outcome, outcome_of};
ghost use Rattle.compact.specs.Steps.{op_within, start_within, sent_by, resent_by, restarted_by, Remap, Down, Stripped};

use refusal::Refusal;

// The ops that hold a pc: jumps, Call and Tail.
fn holds_pc(code: u8) -> bool
    ensures { result ≡ pick (is_jump code) true (is_entry code) }
{
    op::is_jump(code) || op::is_entry(code)
}

// Is every word of the first `used` ops, as far as they are there, an op?
fn all_ops(ops: &[u64], used: usize) -> bool
    ensures { result ≡ list_all (λ x. allowed (parts x)) (take used ops.now) }
{
    ops.iter().take(used).all(|x| op::allows(op::unpack(*x)))
}

// Is each used length within its buffer, and the op count within a program's?
fn counts_ok(ops: &[u64], spans: &[u32], used: usize, targets: &[u32], targets_used: usize) -> bool
    ensures { result ≡ counts_ok used targets_used ops.now spans.now targets.now }
{
    used <= ops.len() && used <= spans.len() && targets_used <= targets.len() && used <= 65534
}

// Does the word hold no pc beyond the op count?
fn op_within(x: u64, used: usize) -> bool
    ensures { result ≡ op_within used x }
{
    let o = op::unpack(x);
    !holds_pc(o.code) || op::target_of(o) as usize <= used
}

// The same of every op.
fn ops_within(ops: &[u64], used: usize) -> bool
    ensures { result ≡ list_all (op_within used) ops.now }
{
    ops.iter().all(|x| op_within(*x, used))
}

// Is no entry of a switch table beyond the op count?
fn all_within(targets: &[u32], used: usize) -> bool
    ensures { result ≡ list_all (λ t. leb t used) targets.now }
{
    targets.iter().all(|t| *t as usize <= used)
}

// Does the table word hold no start beyond the op count?
fn start_within(f: u64, used: usize) -> bool
    ensures { result ≡ start_within used f }
{
    program::kind_of(f) != 1 || program::number_of(f) as usize <= used
}

// The same of the whole function table.
fn starts_within(functions: &[u64], used: usize) -> bool
    ensures { result ≡ list_all (start_within used) functions.now }
{
    functions.iter().all(|f| start_within(*f, used))
}

// Is every target and pc within the op count?
fn pcs_ok(ops: &[u64], targets: &[u32], functions: &[u64]) -> bool
    ensures { result ≡ pcs_ok (length ops.now) ops.now targets.now functions.now }
{
    let used = ops.len();
    ops_within(ops, used) && all_within(targets, used) && starts_within(functions, used)
}

// The refusal, of those that apply the one with the lowest number.
#[tactic(auto, using(crate::proofs::Every::words_are), unfolding(crate::specs::Entry::refusal))]
fn judge(
    ops: &[u64],
    spans: &[u32],
    used: usize,
    targets: &[u32],
    targets_used: usize,
    functions: &[u64],
    work: &[u32],
) -> Result<(), Refusal>
    ensures { numbers.number_for result ≡ refusal used targets_used ops.now spans.now targets.now functions.now work.now }
{
    if !all_ops(ops, used) {
        return Err(Refusal::BadWord);
    }
    if !counts_ok(ops, spans, used, targets, targets_used) {
        return Err(Refusal::TooMany);
    }
    if work.len() <= used {
        return Err(Refusal::NoRoom);
    }
    if !pcs_ok(&ops[..used], &targets[..targets_used], functions) {
        return Err(Refusal::BadTarget);
    }
    Ok(())
}

// How many ops a word leaves.
fn kept(x: u64) -> u32
    ensures { (result ≡ pick (is_nop x) 0 1) × (result ≤ 1) }
{
    if x == 0 { 0 } else { 1 }
}

// Where each pc is sent, the end's too.
fn remap(ops: &[u64], work: &mut [u32])
    requires { (length ops.now + 1 ≤ length work.old) × (length ops.now ≤ most_of_a_kind) }
    ensures { Remap ops.now work.new }
{
    let mut next = 0;
    for (pc, x) in ops.iter().enumerate() {
        work[pc] = next;
        next += kept(*x);
    }
    work[ops.len()] = next;
}

// The word with its pc, if it holds one, sent on.
#[tactic(auto, unfolding(crate::specs::Steps::resent_by))]
fn resend(x: u64, work: &[u32]) -> u64
    ensures { result ≡ resent_by work.now x }
{
    let o = op::unpack(x);
    if holds_pc(o.code) {
        let pc = base::get_or(work, op::target_of(o) as usize, 0);
        op::pack(op::aimed(o, pc))
    } else {
        x
    }
}

// The op at r and its span go down to w, unless it is Nop; what comes back is where the next one goes.
fn bring_down(ops: &mut [u64], spans: &mut [u32], w: usize, r: usize, work: &[u32]) -> usize
    requires { (w ≤ r) × (r < length ops.old) × (r < length spans.old) }
    ensures { Down work.now r w ops.old spans.old result ops.new spans.new }
{
    let x = ops[r];
    if x == 0 {
        return w;
    }
    ops[w] = resend(x, work);
    spans[w] = spans[r];
    w + 1
}

// In place: w never passes r, so what is still to be read is untouched.
fn strip(ops: &mut [u64], spans: &mut [u32], work: &[u32]) -> usize
    requires { length spans.old ≡ length ops.old }
    ensures { Stripped work.now (length ops.old) ops.old spans.old result ops.new spans.new }
{
    let mut w = 0;
    for r in 0..ops.len() {
        w = bring_down(ops, spans, w, r, work);
    }
    w
}

// The entries of the switch tables are sent on.
fn resend_targets(targets: &mut [u32], work: &[u32])
    ensures { targets.new ≡ map (sent_by work.now) targets.old }
{
    for t in targets.iter_mut() {
        *t = base::get_or(work, *t as usize, 0);
    }
}

// The table word with its start, if it is bytecode's, sent on.
#[tactic(auto, unfolding(crate::specs::Steps::restarted_by))]
fn restart(f: u64, work: &[u32]) -> u64
    ensures { result ≡ restarted_by work.now f }
{
    if program::kind_of(f) != 1 {
        return f;
    }
    program::bytecode_at(base::get_or(work, program::number_of(f) as usize, 0))
}

// The same of the whole function table.
fn restart_all(functions: &mut [u64], work: &[u32])
    ensures { functions.new ≡ map (restarted_by work.now) functions.old }
{
    for f in functions.iter_mut() {
        *f = restart(*f, work);
    }
}

// The work of a call that is not refused.
#[tactic(auto, unfolding(crate::specs::Entry::refusal))]
fn carry_out(
    ops: &mut [u64],
    spans: &mut [u32],
    used: usize,
    targets: &mut [u32],
    targets_used: usize,
    functions: &mut [u64],
    work: &mut [u32],
) -> usize
    requires { refusal used targets_used ops.old spans.old targets.old functions.old work.old ≡ 0 }
    ensures { outcome (Ok result) ops.new spans.new targets.new functions.new work.new ≡ outcome_of used targets_used ops.old spans.old targets.old functions.old work.old }
{
    let ops = &mut ops[..used];
    let spans = &mut spans[..used];
    let targets = &mut targets[..targets_used];
    remap(ops, work);
    let left = strip(ops, spans, work);
    resend_targets(targets, work);
    restart_all(functions, work);
    base::fill_from(work, 0, 0);
    left
}

// Strips the Nops of the first `used` ops and sends every pc on: in jumps, Call and Tail, in switch tables, in the function table.
pub fn compact(
    ops: &mut [u64],
    spans: &mut [u32],
    used: usize,
    targets: &mut [u32],
    targets_used: usize,
    functions: &mut [u64],
    work: &mut [u32],
) -> Result<usize, Refusal>
    ensures { outcome result ops.new spans.new targets.new functions.new work.new ≡ outcome_of used targets_used ops.old spans.old targets.old functions.old work.old }
{
    if let Err(why) = judge(ops, spans, used, targets, targets_used, functions, work) {
        base::fill_from(work, 0, 0);
        return Err(why);
    }
    Ok(carry_out(ops, spans, used, targets, targets_used, functions, work))
}
