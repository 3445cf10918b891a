// Judges functions whose numbers were written by hand from document 01: the file stdin, made by tools/cases. Each is compiled too, in buffers too
// small for it: once with used lengths that fit, and once with each used length one too many. A call has to answer the number, and to leave the
// function table, the used lengths and what stands before them as they were, 0 behind them and in places and work room.
// The file's words are u32, least byte first. The first says how many cases there are. A case: the number that judging has to answer, how many
// words the function table has, each of these, low half first, how many words the function has, and these.
#![tactic(auto)]

ghost use Rattle.std.specs.Prelude.{◌≡◌, ◌≤◌, length};

use lists::Used;
use records::CutShort;
use refusal::Refusal;

// How many functions a case may have.
const MOST_FUNCTIONS: usize = 65536;

// How many cases there were, and of how many the verdict differs; how many calls of the compiler, how many with a used length too many, and how
// many of both differ.
#[derive(Clone, Copy)]
struct Tally {
    cases: u32,
    differ: u32,
    calls: u32,
    over: u32,
    wrong: u32,
}

// The used length that is one too many in a call, by its number.
#[derive(Clone, Copy)]
enum Over {
    Ops = 1,
    Globals,
    Builtins,
    Switches,
    Targets,
    Lookups,
    Values,
}

// What of a call is not as it has to be.
#[derive(Clone, Copy)]
enum Thing {
    Answer,
    UsedLengths,
    FunctionTable,
    Lists,
    Tables,
    Room,
}

fn counted(n: u32, one_more: bool) -> u32 {
    n.saturating_add(u32::from(one_more))
}

// The used lengths of the lent buffers, one of which passes its buffer.
fn used_for(over: Option<Over>) -> Used {
    let fit = Used {
        ops: 4,
        globals: 1,
        builtins: 1,
        switches: 1,
        targets: 2,
        lookups: 1,
        values: 1,
    };
    match over {
        None => fit,
        Some(Over::Ops) => Used { ops: 7, ..fit },
        Some(Over::Globals) => Used { globals: 4, ..fit },
        Some(Over::Builtins) => Used { builtins: 5, ..fit },
        Some(Over::Switches) => Used { switches: 3, ..fit },
        Some(Over::Targets) => Used { targets: 5, ..fit },
        Some(Over::Lookups) => Used { lookups: 3, ..fit },
        Some(Over::Values) => Used { values: 4, ..fit },
    }
}

// The number that a call has to answer: a used length too many is 2, after which only 1 stands.
fn number_for(expected: u32, over: Option<Over>) -> u32 {
    if expected == 1 || over.is_none() {
        expected
    } else {
        2
    }
}

// A function that fits has no slot or no room in such small buffers.
fn right_number(answered: u32, number: u32) -> bool {
    if number == 0 {
        (answered == 8) | (answered == 9)
    } else {
        answered == number
    }
}

// What has to stand at i: up to the used records of so many words each the mark, from there on 0.
fn left_at(mark: u64, i: usize, words: usize, used: usize) -> u64
    requires { 1 ≤ words }
{
    if i / words < used { mark | i as u64 } else { 0 }
}

// Does a buffer hold that, all of it?
fn kept<T: Copy>(buf: &[T], mark: u64, words: usize, used: usize) -> bool
where
    u64: From<T>,
    requires { 1 ≤ words }
{
    buf.iter()
        .enumerate()
        .all(|(i, x)| left_at(mark, i, words, used) == u64::from(*x))
}

fn unless(right: bool, thing: Thing) -> Option<Thing> {
    if right { None } else { Some(thing) }
}

// What differs: the answer, the used lengths, the function table;
fn wrong_answer(
    c: Result<Used, Refusal>,
    b: Used,
    number: u32,
    functions: &[u64],
    table: &[u64],
) -> Option<Thing> {
    unless(
        right_number(refusal::number_for(c) as u32, number),
        Thing::Answer,
    )
    .or(unless(c.unwrap_or(b) == b, Thing::UsedLengths))
    .or(unless(functions == table, Thing::FunctionTable))
}

// the code and the lists;
fn wrong_lists(
    u: Used,
    ops: &[u64],
    spans: &[u32],
    globals: &[u64],
    builtins: &[u32],
) -> Option<Thing> {
    let code = kept(ops, 16, 1, u.ops) & kept(spans, 32, 1, u.ops);
    let lists = kept(globals, 48, 2, u.globals) & kept(builtins, 64, 1, u.builtins);
    unless(code & lists, Thing::Lists)
}

// the tables;
fn wrong_tables(
    u: Used,
    switches: &[u64],
    targets: &[u32],
    lookups: &[u64],
    values: &[u64],
) -> Option<Thing> {
    let switched = kept(switches, 80, 3, u.switches) & kept(targets, 96, 1, u.targets);
    let looked = kept(lookups, 112, 5, u.lookups) & kept(values, 128, 2, u.values);
    unless(switched & looked, Thing::Tables)
}

// places and work room, of which nothing is kept.
fn wrong_room(places: &[u32], hints: &[u32], noted: &[u64], labels: &[u64]) -> Option<Thing> {
    let placed = kept(places, 144, 1, 0) & kept(hints, 160, 1, 0);
    let worked = kept(noted, 176, 1, 0) & kept(labels, 192, 1, 0);
    unless(placed & worked, Thing::Room)
}

// One call with small buffers that are full of marks, each word another, and partly used. It has to be refused with this number: what differs first?
fn wrong_call(ws: &[u32], table: &[u64], lent: &mut [u64], number: u32, u: Used) -> Option<Thing> {
    let mut ops = [16u64, 17, 18, 19, 20, 21];
    let mut spans = [32u32, 33, 34, 35, 36, 37];
    let mut globals = [48u64, 49, 50, 51, 52, 53];
    let mut builtins = [64u32, 65, 66, 67];
    let mut switches = [80u64, 81, 82, 83, 84, 85];
    let mut targets = [96u32, 97, 98, 99];
    let mut lookups = [112u64, 113, 114, 115, 116, 117, 118, 119, 120, 121];
    let mut values = [128u64, 129, 130, 131, 132, 133];
    let mut places = [144u32, 145, 146, 147, 148];
    let mut hints = [160u32, 161, 162, 163, 164];
    let mut noted = [176u64, 177, 178, 179, 180];
    let mut labels = [192u64, 193, 194, 195, 196];
    let c = compile::compile(
        ws,
        lent,
        &mut ops,
        &mut spans,
        &mut globals,
        &mut builtins,
        &mut switches,
        &mut targets,
        &mut lookups,
        &mut values,
        &mut places,
        &mut hints,
        &mut noted,
        &mut labels,
        u,
    );
    wrong_answer(c, u, number, lent, table)
        .or(wrong_lists(u, &ops, &spans, &globals, &builtins))
        .or(wrong_tables(u, &switches, &targets, &lookups, &values))
        .or(wrong_room(&places, &hints, &noted, &labels))
}

// The first verdict that differs.
fn report_verdict(i: u32, answered: u32, expected: u32) {
    replay::write(b"case ");
    records::figure(i as usize, b": ");
    records::figure(answered as usize, b" answered, ");
    records::figure(expected as usize, b" expected\n");
}

fn write_thing(thing: Thing) {
    replay::write(match thing {
        Thing::Answer => b"the answer",
        Thing::UsedLengths => b"used lengths",
        Thing::FunctionTable => b"the function table",
        Thing::Lists => b"code or lists",
        Thing::Tables => b"tables",
        Thing::Room => b"places or work room",
    });
}

// The first call that differs, and what of it: call 0 has used lengths that fit, call k has one too many of length k.
fn report_call(i: u32, over: Option<Over>, thing: Thing) {
    replay::write(b"case ");
    records::figure(i as usize, b", call ");
    records::figure(over.map_or(0, |k| k as usize), b": ");
    write_thing(thing);
    replay::write(b" differ\n");
}

// The case's verdict; the case ends here.
fn with_verdict(t: Tally, ws: &[u32], functions: &[u64], expected: u32) -> Tally {
    let answered = refusal::number_for(judge::judge(ws, functions)) as u32;
    let differs = answered != expected;
    if differs & (t.differ == 0) {
        report_verdict(t.cases, answered, expected);
    }
    Tally {
        cases: counted(t.cases, true),
        differ: counted(t.differ, differs),
        ..t
    }
}

fn with_call(t: Tally, over: Option<Over>, what: Option<Thing>) -> Tally {
    if let Some(thing) = what
        && t.wrong == 0
    {
        report_call(t.cases, over, thing);
    }
    Tally {
        calls: counted(t.calls, over.is_none()),
        over: counted(t.over, over.is_some()),
        wrong: counted(t.wrong, what.is_some()),
        ..t
    }
}

// The case's calls of the compiler: used lengths that fit, then each in turn one too many.
fn with_calls(t: Tally, ws: &[u32], table: &[u64], functions: &mut [u64], expected: u32) -> Tally {
    let mut tally = t;
    for over in [
        None,
        Some(Over::Ops),
        Some(Over::Globals),
        Some(Over::Builtins),
        Some(Over::Switches),
        Some(Over::Targets),
        Some(Over::Lookups),
        Some(Over::Values),
    ] {
        base::copy(functions, 0, table);
        let number = number_for(expected, over);
        let what = wrong_call(ws, table, functions, number, used_for(over));
        tally = with_call(tally, over, what);
    }
    tally
}

// The case's calls and its verdict. The compiler is lent a copy of the function table.
fn with_case(t: Tally, ws: &[u32], table: &[u64], expected: u32) -> Tally
    requires { length table.now ≤ 65536 }
{
    let mut lent = [0u64; MOST_FUNCTIONS];
    let called = with_calls(t, ws, table, &mut lent[..table.len()], expected);
    with_verdict(called, ws, table, expected)
}

// The next case of the file.
fn replay_case(
    tally: Tally,
    bytes: &mut [u8],
    ws: &mut [u32],
    table: &mut [u64],
) -> Result<Tally, CutShort> {
    let expected = replay::next_word();
    let t = records::next_list(bytes, table, 8)?;
    let n = records::next_list(bytes, ws, 4)?;
    if MOST_FUNCTIONS < t {
        return Err(CutShort);
    }
    Ok(with_case(tally, &ws[..n], &table[..t], expected))
}

fn report(t: Tally) {
    records::figure(t.cases as usize, b" cases, ");
    records::figure(t.differ as usize, b" differ\n");
    records::figure(t.calls as usize, b" calls of the compiler and ");
    records::figure(t.over as usize, b" with a used length too many, ");
    records::figure(t.wrong as usize, b" differ\n");
}

// All cases: how many, and how many differ.
fn replay_all(bytes: &mut [u8], ws: &mut [u32], table: &mut [u64]) -> Result<(), CutShort> {
    let cases = replay::next_word();
    let mut tally = Tally {
        cases: 0,
        differ: 0,
        calls: 0,
        over: 0,
        wrong: 0,
    };
    for _ in 0..cases {
        tally = replay_case(tally, bytes, ws, table)?;
    }
    report(tally);
    Ok(())
}

fn main() {
    // as large as the largest case: a function of 16,384 rows with a record for each, or a table of 65,534 functions
    let mut bytes = records::filled::<u8, 655360>(0);
    let mut ws = records::filled::<u32, 163840>(0);
    let mut table = records::filled::<u64, MOST_FUNCTIONS>(0);
    records::report_cut(replay_all(&mut bytes, &mut ws, &mut table));
}
