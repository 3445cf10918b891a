// Used lengths and answers as words of a buffer, for other languages.
#![tactic(auto)]

ghost use Rattle.std.specs.Prelude.{◌≡◌, [], ◌∷◌};
ghost use Rattle.std.proofs.lemmas.List.Edits.{sets};
ghost use Rattle.answers.specs.Answers.{used_in, used_words, used_after};

use lists::Used;

// An entry's answer: its number, a used length, and the index of what is refused, where there is one.
#[derive(Clone, Copy)]
pub struct Numbers {
    pub number: u8,
    pub used: usize,
    pub index: usize,
}

pub fn used_in(l: &[u64]) -> Used
    ensures { result ≡ used_in l.now }
{
    Used {
        ops: base::get_or(l, 0, 0) as usize,
        globals: base::get_or(l, 1, 0) as usize,
        builtins: base::get_or(l, 2, 0) as usize,
        switches: base::get_or(l, 3, 0) as usize,
        targets: base::get_or(l, 4, 0) as usize,
        lookups: base::get_or(l, 5, 0) as usize,
        values: base::get_or(l, 6, 0) as usize,
    }
}

pub fn store_used(l: &mut [u64], u: Used)
    ensures { l.new ≡ sets l.old 0 (used_words u) }
{
    base::set(l, 0, u.ops as u64);
    base::set(l, 1, u.globals as u64);
    base::set(l, 2, u.builtins as u64);
    base::set(l, 3, u.switches as u64);
    base::set(l, 4, u.targets as u64);
    base::set(l, 5, u.lookups as u64);
    base::set(l, 6, u.values as u64);
}

// The new used length, where the number is 0.
pub fn store_new(used: &mut [u64], n: Numbers)
    ensures { used.new ≡ used_after used.old n.number n.used }
{
    if n.number == 0 {
        base::set(used, 0, n.used as u64);
    }
}

// The used length and the index, whatever the number.
pub fn store_both(answer: &mut [u64], n: Numbers)
    ensures { answer.new ≡ sets answer.old 0 (n.used ∷ n.index ∷ []) }
{
    base::set(answer, 0, n.used as u64);
    base::set(answer, 1, n.index as u64);
}
