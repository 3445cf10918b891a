// A program in one of two forms: a listing for a person, and the plain form, to be compared line by line. That has one item a line, numbers
// in decimal, and in 16 hex digits the words, the payloads and the first keys of tables, in this order:
//     op PC WORD SPAN
//     global I KIND PAYLOAD
//     builtin I NUMBER
//     entry ID WORD, for each word of the function table that is not 0
//     switch I FIRST START COUNT
//     target I PC
//     lookup I FIRST START COUNT KIND PAYLOAD
//     value I KIND PAYLOAD
//     place F V WORD, for each value V of function F of the file, if that was compiled; WORD in decimal
//     refused NUMBER NAME INDEX ID, if a function was
#![tactic(auto)]

mod text;

use opnames::Stream;
use std::fmt::Write;
pub use text::Verdict;
use text::{Constant, Entry, Mnemonic, Word};

// Which of the two forms.
#[derive(Clone, Copy, PartialEq, Eq)]
pub enum Form {
    Listing,
    Plain,
}

// The function table and the lists of a program.
pub type Table = [u64; 4096];

pub type Ops = [u64; 65536];

pub type Spans = [u32; 65536];

pub type Globals = [u64; 32768];

pub type Builtins = [u32; 16384];

pub type Switches = [u64; 12288];

pub type Targets = [u32; 65536];

pub type Lookups = [u64; 20480];

pub type Values = [u64; 65536];

// What became of a function of the file.
#[derive(Clone, Copy)]
pub enum State {
    Unused,
    // where its ops start and end, where its places start and how many
    Compiled {
        from: usize,
        to: usize,
        at: usize,
        values: usize,
    },
}

// A function that was reached.
#[derive(Clone, Copy)]
pub struct Fact {
    pub id: u32,
    pub state: State,
}

pub type Facts = [Option<Fact>; 256];

// The places of all functions one behind the other: a value has three words of the file at least.
pub type Kept = [u32; 87424];

// Where a title says how many there are; the plain form has none.
fn title(form: Form, name: &str, n: usize) {
    if form == Form::Listing {
        let _ = writeln!(Stream::Output, "\n{name} {n}");
    }
}

fn op_line(form: Form, pc: usize, word: u64, span: u32) {
    let _ = match form {
        Form::Listing => {
            let op = Mnemonic(op::unpack(word));
            writeln!(Stream::Output, "{pc:5}  {word:016x}  {op}  span {span}")
        }
        Form::Plain => writeln!(Stream::Output, "op {pc} {word:016x} {span}"),
    };
}

pub fn op_lines(form: Form, ops: &Ops, spans: &Spans, from: usize, to: usize) {
    for pc in from..to {
        op_line(
            form,
            pc,
            base::get_or(ops, pc, 0),
            base::get_or(spans, pc, 0),
        );
    }
}

// The ops of function f under its heading.
fn function_ops(f: usize, fact: Fact, ops: &Ops, spans: &Spans) {
    let id = fact.id;
    match fact.state {
        State::Unused => {
            let _ = writeln!(Stream::Output, "function {f}, id {id}, unused");
        }
        State::Compiled { from, to, .. } => {
            let _ = writeln!(Stream::Output, "function {f}, id {id}, from pc {from}");
            op_lines(Form::Listing, ops, spans, from, to);
        }
    }
}

// The ops of all functions, each under its heading.
pub fn functions(facts: &Facts, ops: &Ops, spans: &Spans) {
    for (f, fact) in facts.iter().enumerate() {
        if let Some(fact) = fact {
            function_ops(f, *fact, ops, spans);
        }
    }
}

// A constant with its number.
fn pair_line(form: Form, name: &str, i: usize, c: Constant) {
    let _ = match form {
        Form::Listing => writeln!(Stream::Output, "{i:5}  {c}"),
        Form::Plain => {
            let kind = c.kind;
            let payload = c.payload;
            writeln!(Stream::Output, "{name} {i} {kind} {payload:016x}")
        }
    };
}

// The first n constants of a list of pairs.
pub fn pair_lines(form: Form, name: &str, list: &[u64], n: usize) {
    let (pairs, _) = list.as_chunks::<2>();
    for (i, &[kind, payload]) in pairs.iter().take(n).enumerate() {
        pair_line(form, name, i, Constant { kind, payload });
    }
}

// The first n numbers of a list.
fn number_lines(form: Form, name: &str, list: &[u32], n: usize) {
    for (i, number) in list.iter().take(n).enumerate() {
        let _ = match form {
            Form::Listing => writeln!(Stream::Output, "{i:5}  {number}"),
            Form::Plain => writeln!(Stream::Output, "{name} {i} {number}"),
        };
    }
}

pub fn list_lines(form: Form, globals: &Globals, n: usize, builtins: &Builtins, m: usize) {
    title(form, "globals", n);
    pair_lines(form, "global", globals, n);
    title(form, "builtins", m);
    number_lines(form, "builtin", builtins, m);
}

fn entry_line(form: Form, id: usize, word: u64) {
    let _ = match form {
        Form::Listing => writeln!(Stream::Output, "{id:5}  {}", Entry(word)),
        Form::Plain => writeln!(Stream::Output, "entry {id} {word:016x}"),
    };
}

// The function table.
pub fn entry_lines(form: Form, table: &Table) {
    if form == Form::Listing {
        let _ = writeln!(Stream::Output, "\nfunction table");
    }
    for (id, word) in table.iter().enumerate() {
        if *word != 0 {
            entry_line(form, id, *word);
        }
    }
}

// The slots of a switch table for a person: each key, and where it goes.
fn case_lines(targets: &Targets, first: u64, start: u64, count: u64) {
    for (k, pc) in targets
        .iter()
        .skip(start as usize)
        .take(count as usize)
        .enumerate()
    {
        let key = first.wrapping_add(k as u64).cast_signed();
        let _ = writeln!(Stream::Output, "       key {key} -> {pc}");
    }
}

fn switch_line(form: Form, i: usize, table: &[u64; 3], targets: &Targets) {
    let [first, start, count] = *table;
    match form {
        Form::Listing => {
            let _ = writeln!(Stream::Output, "{i:5}  slots from {start}");
            case_lines(targets, first, start, count);
        }
        Form::Plain => {
            let _ = writeln!(Stream::Output, "switch {i} {first:016x} {start} {count}");
        }
    }
}

// The first n switch tables, and the first m slots.
pub fn switch_lines(form: Form, switches: &Switches, n: usize, targets: &Targets, m: usize) {
    title(form, "switch tables", n);
    let (tables, _) = switches.as_chunks::<3>();
    for (i, table) in tables.iter().take(n).enumerate() {
        switch_line(form, i, table, targets);
    }
    if form == Form::Plain {
        number_lines(form, "target", targets, m);
    }
}

// The slots of a lookup table for a person: each key, and what it stands for.
fn key_lines(values: &Values, first: u64, start: u64, count: u64) {
    let (pairs, _) = values.as_chunks::<2>();
    for (k, &[kind, payload]) in pairs
        .iter()
        .skip(start as usize)
        .take(count as usize)
        .enumerate()
    {
        let key = first.wrapping_add(k as u64).cast_signed();
        let value = Constant { kind, payload };
        let _ = writeln!(Stream::Output, "       key {key}: {value}");
    }
}

fn lookup_line(form: Form, i: usize, table: &[u64; 5], values: &Values) {
    let [first, start, count, kind, payload] = *table;
    match form {
        Form::Listing => {
            let rest = Constant { kind, payload };
            let _ = writeln!(Stream::Output, "{i:5}  slots from {start}, default {rest}");
            key_lines(values, first, start, count);
        }
        Form::Plain => {
            let _ = writeln!(
                Stream::Output,
                "lookup {i} {first:016x} {start} {count} {kind} {payload:016x}"
            );
        }
    }
}

// The first n lookup tables, and the first m slots.
pub fn lookup_lines(form: Form, lookups: &Lookups, n: usize, values: &Values, m: usize) {
    title(form, "lookup tables", n);
    let (tables, _) = lookups.as_chunks::<5>();
    for (i, table) in tables.iter().take(n).enumerate() {
        lookup_line(form, i, table, values);
    }
    if form == Form::Plain {
        pair_lines(form, "value", values, m);
    }
}

// How many slots n values have: one more than the highest.
fn slots_of(kept: &Kept, at: usize, n: usize) -> u32 {
    kept.iter()
        .skip(at)
        .take(n)
        .filter_map(|word| match *word {
            257..=65792 => Some(*word - 256),
            _ => None,
        })
        .max()
        .unwrap_or(0)
}

// The places of function f's n values.
fn place_lines(form: Form, f: usize, kept: &Kept, at: usize, n: usize) {
    for (v, word) in kept.iter().skip(at).take(n).enumerate() {
        let _ = match form {
            Form::Listing => writeln!(Stream::Output, "  v{v}: {}", Word(*word)),
            Form::Plain => writeln!(Stream::Output, "place {f} {v} {word}"),
        };
    }
}

fn function_places(form: Form, f: usize, fact: Fact, kept: &Kept) {
    let State::Compiled { at, values, .. } = fact.state else {
        return;
    };
    if form == Form::Listing {
        let id = fact.id;
        let slots = slots_of(kept, at, values);
        let _ = writeln!(
            Stream::Output,
            "\nplaces of function {f}, id {id}, slots {slots}"
        );
    }
    place_lines(form, f, kept, at, values);
}

// The places of all functions.
pub fn places(form: Form, facts: &Facts, kept: &Kept) {
    for (f, fact) in facts.iter().enumerate() {
        if let Some(fact) = fact {
            function_places(form, f, *fact, kept);
        }
    }
}
