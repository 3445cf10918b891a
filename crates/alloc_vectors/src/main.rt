// Replays allocator calls: sequences whose answers came from the Rust, and calls that document 01 refuses, whose numbers were written by hand: the file
// stdin, made by tools/vectors with the commit's own xralloc2. What stands in its rows is said at the top of oracle/vectors/src/alloc.rs.
#![tactic(auto)]

ghost use Rattle.std.specs.Prelude.{◌≡◌, ◌≤◌};
ghost use Rattle.alloc_entry.specs.Entries.{answer_number};

use alloc::{Alloc, Entry};
use alloc_entry::{Answer, Answered};
use place::{Class, Place, Reg};
use refusal::Refusal;

// How many words a row has, and how many ids a map may have.
const WIDTH: usize = 20;

const MOST_IDS: usize = 512;

// Document 01's number of an answer, which one it is among those of its number, and what it holds.
#[derive(Clone, Copy)]
struct Shown {
    number: u32,
    kind: u32,
    a: u64,
    b: u64,
}

// The state that a call leaves, and what differs in it.
#[derive(Clone, Copy)]
struct Replayed {
    state: Alloc,
    what: usize,
}

fn show(number: u32, kind: u32, a: u64, b: u64) -> Shown
    ensures { result.number ≡ number }
{
    Shown { number, kind, a, b }
}

fn shown_of(a: Result<Answer, Refusal>) -> Shown
    ensures { result.number ≡ answer_number a }
{
    match a {
        Ok(Answer::Done) => show(0, 0, 0, 0),
        Ok(Answer::Placed(p)) => show(0, 1, place::word_of(Some(p)) as u64, 0),
        Ok(Answer::NotFree) => show(0, 2, 0, 0),
        Ok(Answer::Slots(n)) => show(0, 3, n as u64, 0),
        Ok(Answer::Registers(g, f)) => show(0, 4, g, f),
        Ok(Answer::Yes) => show(0, 5, 0, 0),
        Ok(Answer::No) => show(0, 6, 0, 0),
        Err(why) => show(why.number() as u32, 0, 0, 0),
    }
}

// General register r, or floating register r from 256 on.
fn reg_of(number: u32) -> Reg {
    place::reg_of((number / 256) as usize, (number % 256) as u8)
}

fn hint_of(number: u32) -> Option<Reg> {
    if number == 0 {
        return None;
    }
    Some(reg_of(number - 1))
}

fn class_of(number: u32) -> Class {
    if number == 0 {
        Class::General
    } else {
        Class::Floating
    }
}

fn place(text: &[u8], row: usize, s: Alloc, map: &mut [u32], gprs: &[u8], fprs: &[u8]) -> Answered {
    let id = replay::word_in(text, row, 1) as usize;
    let class = class_of(replay::word_in(text, row, 2));
    let at = replay::word_in(text, row, 3);
    let end = replay::word_in(text, row, 4);
    let hint = hint_of(replay::word_in(text, row, 5));
    alloc_entry::place_id(s, map, id, class, at, end, hint, gprs, fprs)
}

fn pin(text: &[u8], row: usize, s: Alloc, map: &mut [u32], gprs: &[u8], fprs: &[u8]) -> Answered {
    let id = replay::word_in(text, row, 1) as usize;
    let reg = reg_of(replay::word_in(text, row, 2));
    let end = replay::word_in(text, row, 3);
    alloc_entry::pin_id(s, map, id, reg, end, gprs, fprs)
}

fn found(f: Option<Place>) -> Answer {
    match f {
        Some(p) => Answer::Placed(p),
        None => Answer::No,
    }
}

// A call that asks and changes nothing.
fn asked(
    kind: u32,
    a: u32,
    s: Alloc,
    map: &[u32],
    gprs: &[u8],
    fprs: &[u8],
) -> Result<Answer, Refusal> {
    match kind {
        3 => alloc_entry::slots_made(s, gprs, fprs),
        4 => alloc_entry::live_after(s, a, gprs, fprs),
        5 => alloc_entry::was_used(s, reg_of(a), gprs, fprs),
        6 => Ok(found(alloc_entry::place_of(map, a as usize))),
        7 => Ok(found(alloc_entry::register_of(map, a as usize))),
        _ => Ok(Answer::Done),
    }
}

// A fresh state, with no place in the map.
fn fresh(map: &mut [u32], gprs: &[u8], fprs: &[u8]) -> Answered {
    base::fill_from(map, 0, 0);
    alloc_entry::fresh(gprs, fprs)
}

// The place of a map word that has one.
fn place_at(word: u32) -> Place {
    place::found_of(word).unwrap_or(Place::Slot(0))
}

// The state with another place for an active entry, another mask of free general registers, first free slot and counts, as no call leaves it.
fn forged(text: &[u8], row: usize, s: Alloc) -> Alloc {
    let i = replay::word_in(text, row, 1) as usize % 256;
    let mut t = s;
    t.active[i] = Entry {
        end: 1000,
        place: place_at(replay::word_in(text, row, 2)),
    };
    t.free[0] = replay::word_in(text, row, 3) as u64;
    t.spare[0] = (replay::word_in(text, row, 4) % 65536) as u16;
    t.count = replay::word_in(text, row, 5) as usize;
    t.spares = replay::word_in(text, row, 6) as usize;
    t.made = (replay::word_in(text, row, 7) % 65536) as u16;
    t
}

fn step(text: &[u8], row: usize, s: Alloc, map: &mut [u32], gprs: &[u8], fprs: &[u8]) -> Answered {
    let a = replay::word_in(text, row, 1);
    match replay::word_in(text, row, 0) {
        0 => place(text, row, s, map, gprs, fprs),
        1 => pin(text, row, s, map, gprs, fprs),
        2 => alloc_entry::expire_at(s, a, gprs, fprs),
        8 => fresh(map, gprs, fprs),
        9 => Answered {
            answer: Ok(Answer::Done),
            state: forged(text, row, s),
        },
        kind => Answered {
            answer: asked(kind, a, s, map, gprs, fprs),
            state: s,
        },
    }
}

// The bytes of the list that a row has at k.
fn bytes_of(text: &[u8], row: usize, k: usize) -> &[u8]
    requires { k ≤ 1000 }
{
    let from = (4 * replay::word_in(text, row, k) as usize).min(text.len());
    let n = replay::word_in(text, row, k + 1) as usize;
    &text[from..from + n.min(text.len() - from)]
}

fn called(text: &[u8], row: usize, s: Alloc, map: &mut [u32]) -> Answered {
    let ids = (replay::word_in(text, row, 12) as usize).min(map.len());
    step(
        text,
        row,
        s,
        &mut map[..ids],
        bytes_of(text, row, 8),
        bytes_of(text, row, 10),
    )
}

fn same_entry(e: Entry, f: Entry) -> bool {
    e.end == f.end && place::number_of(e.place) == place::number_of(f.place)
}

// Do two states agree in every word?
fn same_state(s: &Alloc, t: &Alloc) -> bool {
    s.active
        .iter()
        .zip(&t.active)
        .all(|(e, f)| same_entry(*e, *f))
        && s.spare == t.spare
        && s.free == t.free
        && s.used == t.used
        && (s.count, s.spares, s.made) == (t.count, t.spares, t.made)
}

// 2 where it is not said whether the call changes something.
fn wrong_change(text: &[u8], row: usize, changed: bool) -> usize {
    if replay::word_in(text, row, 13) == 2 {
        return 0;
    }
    replay::wrong(text, row, 13, u64::from(changed), 16)
}

fn wrong_wide(text: &[u8], row: usize, k: usize, x: u64, mark: usize) -> usize {
    if replay::wide_in(text, row, k) == x {
        0
    } else {
        mark
    }
}

// What differs in an answer: 1 for the number, 2 for which answer it is, 4 and 8 for what it holds.
fn wrong_answer(text: &[u8], row: usize, a: Result<Answer, Refusal>) -> usize {
    let w = shown_of(a);
    replay::wrong(text, row, 14, w.number as u64, 1)
        | replay::wrong(text, row, 15, w.kind as u64, 2)
        | wrong_wide(text, row, 8, w.a, 4)
        | wrong_wide(text, row, 9, w.b, 8)
}

// The call of a row: the state that it leaves, and what differs in it.
fn turn(text: &[u8], row: usize, s: Alloc, map: &mut [u32; MOST_IDS]) -> Replayed {
    let before = *map;
    let Answered { answer, state } = called(text, row, s, map);
    let changed = !same_state(&s, &state) || before != *map;
    Replayed {
        state,
        what: wrong_answer(text, row, answer) | wrong_change(text, row, changed),
    }
}

fn main() {
    let mut text = records::no_text();
    let calls = replay::next_word();
    let mut r = records::start();
    let mut map = [0u32; MOST_IDS];
    let mut state = Alloc::new(b"", b"");
    for _ in 0..calls {
        r = records::next(&mut text, r, WIDTH);
        let left = turn(&text, r.row, state, &mut map);
        r = records::told(r, left.what);
        state = left.state;
    }
    records::report(r);
}
