// The commands of agnc over the functions of a file: judging each, and compiling them one behind the other and showing the program. The words
// are those of the functions, and each end is where one of them stops; the first starts at 0. A refusal ends the program: what was compiled
// before it is shown. What is wrong is said on standard error.
#![tactic(auto)]

use listing::{
    Builtins, Fact, Facts, Form, Globals, Kept, Lookups, Ops, Spans, State, Switches, Table,
    Targets, Values, Verdict,
};
use lists::Used;
use opnames::Stream;
use refusal::Refusal;
use std::fmt::Write;
use strings::Unfit;

// The places of a function's values.
type Places = [u32; 4096];

// The program of a file's functions: its table and lists with their used lengths, what became of each function, and the places of their values, of
// which so many are kept.
#[derive(Drop)]
struct Program<'a> {
    table: &'a mut Table,
    ops: Ops,
    spans: Spans,
    globals: Globals,
    builtins: Builtins,
    switches: Switches,
    targets: Targets,
    lookups: Lookups,
    values: Values,
    used: Used,
    facts: Facts,
    places: Kept,
    kept: usize,
}

// The used lengths of a program that is none yet.
const NOTHING: Used = Used {
    ops: 0,
    globals: 0,
    builtins: 0,
    switches: 0,
    targets: 0,
    lookups: 0,
    values: 0,
};

// The words of function f, no more than there are. The first starts at 0: there is no end before it.
fn words_of<'a>(ws: &'a [u32], ends: &[u32], f: usize) -> &'a [u32] {
    let to = ws.len().min(base::get_or(ends, f, 0) as usize);
    let from = to.min(base::get_or(ends, f.wrapping_sub(1), 0) as usize);
    &ws[from..to]
}

impl<'a> Program<'a> {
    // The strings of all functions, before the first is compiled.
    fn with_strings(&mut self, ws: &[u32], ends: &[u32]) -> Result<(), Unfit> {
        self.used.globals = strings::intern_strings(ws, ends, &mut self.globals, 0)?;
        Ok(())
    }

    // One more function behind the program, and where its values are.
    fn compile(&mut self, ws: &[u32], places: &mut Places) -> Result<(), Refusal> {
        let mut hints = [0u32; 4096];
        let mut noted = [0u64; 4096];
        let mut labels = [0u64; 34816];
        let used = self.used;
        let table = &mut *self.table;
        self.used = compile::compile(
            ws,
            table,
            &mut self.ops,
            &mut self.spans,
            &mut self.globals,
            &mut self.builtins,
            &mut self.switches,
            &mut self.targets,
            &mut self.lookups,
            &mut self.values,
            places,
            &mut hints,
            &mut noted,
            &mut labels,
            used,
        )?;
        Ok(())
    }

    // What the listing shows of function f.
    fn note(&mut self, ws: &[u32], f: usize, state: State) {
        if f < 256 {
            let id = base::get_or(ws, 0, 0);
            self.facts[f] = Some(Fact { id, state });
        }
    }

    // Function f behind the program, unless it is marked unused. Its places are kept behind the others: as many as it has values, the next function's
    // come over the rest.
    fn add(&mut self, ws: &[u32], f: usize) -> Result<(), Refusal> {
        if base::get_or(ws, 2, 0) != 0 {
            self.note(ws, f, State::Unused);
            return Ok(());
        }
        let mut places = [0u32; 4096];
        let from = self.used.ops;
        self.compile(ws, &mut places)?;
        let values = base::get_or(ws, 3, 0) as usize;
        let state = State::Compiled {
            from,
            to: self.used.ops,
            at: self.kept,
            values,
        };
        self.note(ws, f, state);
        base::copy(&mut self.places, self.kept, &places);
        self.kept = self.kept.wrapping_add(values);
        Ok(())
    }

    // All functions in order, up to the first that is refused.
    fn add_all(&mut self, ws: &[u32], ends: &[u32]) -> Result<(), Unfit> {
        for index in 0..ends.len() {
            if let Err(why) = self.add(words_of(ws, ends, index), index) {
                return Err(Unfit { why, index });
            }
        }
        Ok(())
    }

    // The ops are shown by functions for a person.
    fn show(&self, form: Form) {
        let n = self.used;
        match form {
            Form::Listing => listing::functions(&self.facts, &self.ops, &self.spans),
            Form::Plain => listing::op_lines(form, &self.ops, &self.spans, 0, n.ops),
        }
        listing::list_lines(form, &self.globals, n.globals, &self.builtins, n.builtins);
        listing::entry_lines(form, self.table);
        listing::switch_lines(form, &self.switches, n.switches, &self.targets, n.targets);
        listing::lookup_lines(form, &self.lookups, n.lookups, &self.values, n.values);
        listing::places(form, &self.facts, &self.places);
    }

    // Nothing is shown where the strings find no room.
    fn run(&mut self, form: Form, ws: &[u32], ends: &[u32]) {
        let outcome = match self.with_strings(ws, ends) {
            Ok(()) => self.add_all(ws, ends),
            Err(
                Unfit {
                    why: Refusal::NoRoom,
                    ..
                },
            ) => {
                let _ = writeln!(
                    Stream::Error,
                    "agnc: the functions have more strings than there is room for"
                );
                return;
            }
            refused => refused,
        };
        self.show(form);
        if let Err(refused) = outcome {
            show_refused(form, ws, ends, refused);
        }
    }
}

// A refusal, as it is said on standard error; in the plain form it is a line, too.
fn show_refused(form: Form, ws: &[u32], ends: &[u32], refused: Unfit) {
    let f = refused.index;
    let id = base::get_or(words_of(ws, ends, f), 0, 0);
    let why = Verdict(Err(refused.why));
    if form == Form::Plain {
        let _ = writeln!(Stream::Output, "refused {why} {f} {id}");
    }
    let _ = writeln!(
        Stream::Error,
        "agnc: refused: {why}, function {f} of the file, id {id}"
    );
}

// The program of these functions, as a listing or in the plain form.
pub fn show_program(form: Form, ws: &[u32], ends: &[u32], table: &mut Table) {
    let mut program = Program {
        table,
        ops: [0; 65536],
        spans: [0; 65536],
        globals: [0; 32768],
        builtins: [0; 16384],
        switches: [0; 12288],
        targets: [0; 65536],
        lookups: [0; 20480],
        values: [0; 65536],
        used: NOTHING,
        facts: [None; 256],
        places: [0; 87424],
        kept: 0,
    };
    program.run(form, ws, ends);
}

// Function f's line; then it counts as compiled, unless it is marked unused.
fn judge_one(ws: &[u32], f: usize, table: &mut Table) {
    let id = base::get_or(ws, 0, 0);
    let answer = Verdict(judge::judge(ws, table));
    let _ = writeln!(Stream::Output, "function {f}, id {id}: {answer}");
    if base::get_or(ws, 2, 0) == 0 {
        base::set(table, id as usize, program::bytecode_at(0));
    }
}

// Each function's number.
pub fn judge_all(ws: &[u32], ends: &[u32], table: &mut Table) {
    for f in 0..ends.len() {
        judge_one(words_of(ws, ends, f), f, table);
    }
}
