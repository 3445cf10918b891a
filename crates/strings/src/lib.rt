// The strings of a list of functions among the globals.
#![tactic(auto)]

ghost use Rattle.std.specs.Prelude.{◌≡◌, true, ◌-◌, min, max, leb, length, take, drop};
ghost use Rattle.base.specs.Choice.{pick};
ghost use Rattle.grow.specs.Growing.{Grows};
ghost use Rattle.judge.specs.Judged.{verdict_number};
ghost use Rattle.interning.specs.Interning.{strings_interned};
ghost use Rattle.place.specs.Registers.{registers};
ghost use Rattle.strings.specs.Strings.{functions_in, is_used, unfit_string, found, first_unfit, all_strings, used_ok, outcome, interned};

use grow::End;
use refusal::Refusal;

// Why a list is refused, and the index of its first unfit function, 0 where none is.
#[derive(Clone, Copy)]
pub struct Unfit {
    pub why: Refusal,
    pub index: usize,
}

// The words of the most globals.
const MOST_WORDS: usize = 131068;

// A verdict from 1 to 3, none for any other.
fn low(v: Result<(), Refusal>) -> Result<(), Refusal>
    ensures { verdict_number result ≡ pick (leb (verdict_number v) 3) (verdict_number v) 0 }
{
    if refusal::number_for(v) <= 3 {
        v
    } else {
        Ok(())
    }
}

// 1, 2 or 3 of a used function.
fn unfit_string(ws: &[u32]) -> Result<(), Refusal>
    ensures { verdict_number result ≡ unfit_string registers ws.now }
{
    if input::head_field(ws, 2) != 0 {
        return Ok(());
    }
    let none = [0u64; 1];
    low(judge::judge(ws, &none))
}

// Where a part of so many words starts, and ends.
#[derive(Clone, Copy)]
struct Bounds {
    from: usize,
    end: usize,
}

// No further than the words, and no end before the start.
fn part(size: usize, from: usize, end: usize) -> Bounds
    ensures { (result.from ≡ min from size) × (result.end ≡ max (min from size) (min end size)) }
{
    let from = from.min(size);
    Bounds {
        from,
        end: end.min(size).max(from),
    }
}

// The function between two ends.
fn unfit_part(words: &[u32], from: usize, end: usize) -> Result<(), Refusal>
    ensures { verdict_number result ≡ unfit_string registers (take (end - from) (drop from words.now)) }
{
    let p = part(words.len(), from, end);
    unfit_string(&words[p.from..p.end])
}

// The first unfit function of a list. Function k stands between the end before it and its own.
fn first_unfit(words: &[u32], ends: &[u32]) -> Option<Unfit>
    ensures { found result ≡ first_unfit registers 0 (functions_in words.now 0 ends.now) }
{
    let mut from = 0;
    for (k, end) in ends.iter().enumerate() {
        let to = *end as usize;
        if let Err(why) = unfit_part(words, from, to) {
            return Some(Unfit { why, index: k });
        }
        from = to;
    }
    None
}

// The strings of a function that is fit, none of an unused one.
fn intern_used(ws: &[u32], globals: &mut [u64], e: End) -> End
    requires { unfit_string registers ws.now ≡ 0 }
    ensures { Grows (λ g. pick (is_used ws.now) (strings_interned ws.now g) g) globals.old e globals.new result }
{
    let mark = input::head_field(ws, 2);
    if mark != 0 {
        return e;
    }
    interning::intern_strings(ws, globals, e)
}

// Those of the function between two ends.
fn intern_part(words: &[u32], from: usize, end: usize, globals: &mut [u64], e: End) -> End
    requires { unfit_string registers (take (end - from) (drop from words.now)) ≡ 0 }
    ensures { Grows (λ g. pick (is_used (take (end - from) (drop from words.now))) (strings_interned (take (end - from) (drop from words.now)) g) g) globals.old e globals.new result }
{
    let p = part(words.len(), from, end);
    intern_used(&words[p.from..p.end], globals, e)
}

// Those of a list of functions, of which none is unfit.
fn intern_list(words: &[u32], ends: &[u32], globals: &mut [u64], e: End) -> End
    requires { (first_unfit registers 0 (functions_in words.now 0 ends.now)).number ≡ 0 }
    ensures { Grows (all_strings (functions_in words.now 0 ends.now)) globals.old e globals.new result }
{
    let mut f = e;
    let mut from = 0;
    for end in ends {
        let to = *end as usize;
        f = intern_part(words, from, to, globals, f);
        from = to;
    }
    f
}

// The strings of fit functions in a list that is copied back where it finds room.
fn intern_in(
    words: &[u32],
    ends: &[u32],
    globals: &mut [u64],
    list: &mut [u64],
    used: usize,
) -> Result<usize, Unfit>
    requires { ((first_unfit registers 0 (functions_in words.now 0 ends.now)).number ≡ 0) × (used_ok globals.old used ≡ true) × (length list.old ≡ 131068) }
    ensures { outcome result used globals.new ≡ interned registers words.now ends.now globals.old used }
{
    let n = 2 * used;
    base::copy(list, 0, &globals[..n]);
    let start = End {
        at: n,
        room: lists::room(2, globals.len()),
        full: false,
    };
    let e = intern_list(words, ends, list, start);
    if e.full {
        return Err(Unfit {
            why: Refusal::NoRoom,
            index: 0,
        });
    }
    base::copy(globals, 0, &list[..e.at]);
    Ok(e.at / 2)
}

// Any words, any ends, any globals.
pub fn intern_strings(
    words: &[u32],
    ends: &[u32],
    globals: &mut [u64],
    used: usize,
) -> Result<usize, Unfit>
    ensures { outcome result used globals.new ≡ interned registers words.now ends.now globals.old used }
{
    let fits = used::within(2, used, globals.len());
    let too_many = Unfit {
        why: Refusal::TooMany,
        index: 0,
    };
    if let Some(f) = first_unfit(words, ends) {
        if fits | (f.why.number() == 1) {
            return Err(f);
        }
        return Err(too_many);
    }
    if !fits {
        return Err(too_many);
    }
    let mut list = [0u64; MOST_WORDS];
    intern_in(words, ends, globals, &mut list, used)
}
