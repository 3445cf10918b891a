// Lists that grow in lent buffers.
#![tactic(auto)]

ghost use Rattle.std.specs.Prelude.{◌≡◌, [], ◌∷◌, ◌++◌, set};
ghost use Rattle.grow.specs.Growing.{Grows};

// Where the next number goes, how many there is room for, and whether one found none.
#[derive(Clone, Copy)]
pub struct End {
    pub at: usize,
    pub room: usize,
    pub full: bool,
}

impl End {
    // One number more.
    pub fn push<T: Copy>(self, buf: &mut [T], x: T) -> End
        ensures { Grows (λ l. l ++ (x ∷ [])) buf.old self buf.new result }
    {
        if self.at < self.room {
            base::set(buf, self.at, x);
            End {
                at: self.at + 1,
                ..self
            }
        } else {
            End { full: true, ..self }
        }
    }

    // Number i of the list is another.
    pub fn store<T: Copy>(self, buf: &mut [T], i: usize, x: T)
        ensures { Grows (λ l. set l i x) buf.old self buf.new self }
    {
        if i < self.at {
            base::set(buf, i, x);
        }
    }
}
