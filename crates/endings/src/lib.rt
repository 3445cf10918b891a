// How compiling ends: labels in tables become pcs, and what stands behind the old used lengths of a refused function is zeroed.
#![tactic(auto)]

ghost use Rattle.std.specs.Prelude.{◌≡◌, ℕ, ◌*◌, ◌-◌, ◌≤◌, ◌<◌, ◌++◌, length, get_or, take, drop};
ghost use Rattle.base.specs.Buffers.{zero_from};
ghost use Rattle.lists.specs.Lists.{global_words, switch_words, lookup_words, value_words};
ghost use Rattle.used.specs.Used.{labels_at};

use lists::Used;

// The slots of the new switch tables, which are labels, become pcs.
pub fn finish_targets(targets: &mut [u32], labels: &[u64], from: usize, end: usize)
    requires { (from ≤ end) × (end ≤ length targets.old) × ((t : ℕ) → get_or labels.now t 0 < 4294967296) }
    ensures { targets.new ≡ take from targets.old ++ labels_at labels.now (take (end - from) (drop from targets.old)) ++ drop end targets.old }
{
    for i in from..end {
        targets[i] = base::get_or(labels, targets[i] as usize, 0) as u32;
    }
}

// Words behind so many used records of `words` words each are zeroed; nothing changes where they pass the buffer.
fn wipe(buf: &mut [u64], words: usize, used: usize)
    requires { 1 ≤ words }
    ensures { buf.new ≡ zero_from buf.old (words * used) }
{
    if used <= buf.len() / words {
        base::fill_from(buf, words * used, 0);
    }
}

// A refused compile keeps output before the old used lengths and zeroes the rest: the lists of single words and of pairs,
pub fn wipe_lists(
    ops: &mut [u64],
    spans: &mut [u32],
    globals: &mut [u64],
    builtins: &mut [u32],
    u: Used,
)
    ensures { (ops.new ≡ zero_from ops.old u.ops) × (spans.new ≡ zero_from spans.old u.ops) × (globals.new ≡ zero_from globals.old (global_words u)) × (builtins.new ≡ zero_from builtins.old u.builtins) }
{
    base::fill_from(ops, u.ops, 0);
    base::fill_from(spans, u.ops, 0);
    wipe(globals, 2, u.globals);
    base::fill_from(builtins, u.builtins, 0);
}

// and the tables.
pub fn wipe_tables(
    switches: &mut [u64],
    targets: &mut [u32],
    lookups: &mut [u64],
    values: &mut [u64],
    u: Used,
)
    ensures { (switches.new ≡ zero_from switches.old (switch_words u)) × (targets.new ≡ zero_from targets.old u.targets) × (lookups.new ≡ zero_from lookups.old (lookup_words u)) × (values.new ≡ zero_from values.old (value_words u)) }
{
    wipe(switches, 3, u.switches);
    base::fill_from(targets, u.targets, 0);
    wipe(lookups, 5, u.lookups);
    wipe(values, 2, u.values);
}
