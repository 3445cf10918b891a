// The lists that the functions of a program share.
#![tactic(auto)]

ghost use Rattle.std.specs.Prelude.{◌≡◌, false, not, ◌*◌, ◌/◌, ◌≤◌, min};
ghost use Rattle.base.specs.Limits.{most_of_a_kind};
ghost use Rattle.input.specs.Forms.{both};
ghost use Rattle.lists.specs.Lists.{lists, ListsReady, Listed};
ghost use Rattle.lists.specs.Parts.{InternedParts, SwitchParts, LookupParts, InternReady, SwitchReady, LookupReady};

use edges::Values;
use grow::End;
use refusal::Refusal;

// How much of each buffer is used: ops and spans share one length; globals and lookup values are pairs, a switch table has three words, a lookup
// table five.
#[derive(Clone, Copy, PartialEq, Eq)]
pub struct Used {
    pub ops: usize,
    pub globals: usize,
    pub builtins: usize,
    pub switches: usize,
    pub targets: usize,
    pub lookups: usize,
    pub values: usize,
}

// The most of a kind in a program.
pub const MOST_OF_A_KIND: usize = 65534;

// How many words of a buffer there is room for, in records of `words` words each.
pub fn room(words: usize, size: usize) -> usize
    requires { (1 ≤ words) × (words ≤ 5) }
    ensures { result ≡ words * min (size / words) most_of_a_kind }
{
    words * (size / words).min(MOST_OF_A_KIND)
}

// A list that ends so far in its buffer.
fn end_at(words: usize, at: usize, size: usize) -> End
    requires { (1 ≤ words) × (words ≤ 5) }
    ensures { result ≡ record { at = at; room = words * min (size / words) most_of_a_kind; full = false } }
{
    End {
        at,
        room: room(words, size),
        full: false,
    }
}

// Is neither full?
fn neither(first: bool, second: bool) -> bool
    ensures { result ≡ both (not first) (not second) }
{
    !first && !second
}

// The ends of two lists, and whether all of both found room.
#[derive(Clone, Copy)]
struct Pair {
    first: usize,
    second: usize,
    fits: bool,
}

// The function's constants and builtins.
fn intern(ws: &[u32], globals: &mut [u64], builtins: &mut [u32], u: Used) -> Pair
    requires { InternReady ws.now u globals.old builtins.old }
    ensures { InternedParts ws.now u globals.old builtins.old globals.new builtins.new result }
{
    let g = interning::intern_globals(ws, globals, end_at(2, 2 * u.globals, globals.len()));
    let b = interning::intern_builtins(ws, builtins, end_at(1, u.builtins, builtins.len()));
    Pair {
        first: g.at,
        second: b.at,
        fits: neither(g.full, b.full),
    }
}

// Its switch tables: heads of three words, and slots.
fn switch_tables(
    ws: &[u32],
    places: &[u32],
    switches: &mut [u64],
    targets: &mut [u32],
    u: Used,
) -> Pair
    requires { SwitchReady ws.now places.now u switches.old targets.old }
    ensures { SwitchParts ws.now places.now u switches.old targets.old switches.new targets.new result }
{
    let n = input::head_field(ws, 3) as usize;
    let h = tables::put_switch_heads(
        ws,
        switches,
        end_at(3, 3 * u.switches, switches.len()),
        u.targets,
    );
    let e = End {
        at: u.targets,
        room: targets.len(),
        full: false,
    };
    let vs = Values {
        ws,
        map: &places[..n],
    };
    let t = tables::put_switch_targets(vs, targets, e, u.targets);
    Pair {
        first: h.at,
        second: t.at,
        fits: neither(h.full, t.full),
    }
}

// Its lookup tables: heads of five words, and slots of two.
fn lookup_tables(ws: &[u32], lookups: &mut [u64], values: &mut [u64], u: Used) -> Pair
    requires { LookupReady ws.now u lookups.old values.old }
    ensures { LookupParts ws.now u lookups.old values.old lookups.new values.new result }
{
    let h = lookups::put_lookup_heads(
        ws,
        lookups,
        end_at(5, 5 * u.lookups, lookups.len()),
        u.values,
    );
    let e = End {
        at: 2 * u.values,
        room: values.len(),
        full: false,
    };
    let v = lookups::put_lookup_values(ws, values, e, u.values);
    Pair {
        first: h.at,
        second: v.at,
        fits: neither(h.full, v.full),
    }
}

// All six lists with what the function adds to them, and the used lengths behind them.
pub fn make_lists(
    ws: &[u32],
    places: &[u32],
    globals: &mut [u64],
    builtins: &mut [u32],
    switches: &mut [u64],
    targets: &mut [u32],
    lookups: &mut [u64],
    values: &mut [u64],
    u: Used,
) -> Result<Used, Refusal>
    requires { ListsReady ws.now places.now u (lists globals.old builtins.old switches.old targets.old lookups.old values.old) }
    ensures { Listed ws.now places.now u (lists globals.old builtins.old switches.old targets.old lookups.old values.old) (lists globals.new builtins.new switches.new targets.new lookups.new values.new) result }
{
    let a = intern(ws, globals, builtins, u);
    let b = switch_tables(ws, places, switches, targets, u);
    let c = lookup_tables(ws, lookups, values, u);
    if !(a.fits & b.fits & c.fits) {
        return Err(Refusal::NoRoom);
    }
    Ok(Used {
        ops: u.ops,
        globals: a.first / 2,
        builtins: a.second,
        switches: b.first / 3,
        targets: b.second,
        lookups: c.first / 5,
        values: c.second / 2,
    })
}
