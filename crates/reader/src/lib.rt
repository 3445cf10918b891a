// A view over the words of a function: a slice and a position in it. Functions over the struct are thin, and call one on the slice and the position.
#![tactic(auto)]

ghost use Rattle.std.specs.Prelude.{◌≡◌, ltb, length};
ghost use Rattle.base.specs.Choice.{pick};
ghost use Rattle.reader.specs.Reader.{step_at, step_number};

#[derive(Clone, Copy)]
pub struct Reader<'a> {
    pub words: &'a [u32],
    pub at: usize,
}

// The word at a position, or None at the end.
pub fn step_at(ws: &[u32], at: usize) -> Option<u32>
    ensures { result ≡ step_at ws.now at }
{
    ws.get(at).copied()
}

// A reader at the first word.
pub fn new<'a>(words: &'a [u32]) -> Reader<'a>
    ensures { (result.words ≡ words.entry) × (result.at ≡ 0) }
{
    Reader { words, at: 0 }
}

// What stands where the reader is.
pub fn next<'a>(r: Reader<'a>) -> Option<u32>
    ensures { result ≡ step_at r.entry.words.now r.entry.at }
{
    step_at(r.words, r.at)
}

// The reader at another position.
pub fn moved<'a>(r: Reader<'a>, at: usize) -> Reader<'a>
    ensures { (result.words ≡ r.entry.words) × (result.at ≡ at) }
{
    Reader { at, ..r }
}

// The same from plain words: who calls this needs to know nothing of a reader.
pub fn word_at(ws: &[u32], at: usize) -> Option<u32>
    ensures { (result ≡ step_at ws.now at) × (step_number result ≡ pick (ltb at (length ws.now)) 0 1) }
{
    next(moved(new(ws), at))
}
