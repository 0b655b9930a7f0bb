// How a refusal is told: by its number, and by what it names.
ghost use Rattle.std.specs.Prelude.{◌≡◌};
ghost use Rattle.books.specs.Refusals.{told_plain, told_naming, told_naming_two};

// What a refusal names: nothing, one line, term, piece or group, or two of them. No `Option`, since there are three cases.
#[derive(Clone, Copy, PartialEq, Eq, Debug)]
pub enum Named {
    Nothing,
    One(usize),
    Two(usize, usize),
}

// How a fault is told outside: the numbers are those by which planners know the refusals.
#[derive(Clone, Copy, PartialEq, Eq, Debug)]
pub struct Refusal {
    pub number: u8,
    pub names: Named,
}

// A fault, by how it is told.
pub trait Refuses {
    ghost use Rattle.books.specs.declared.refusal.Refusal.{Refusal};

    ghost told: { Self → Refusal };

    // The fault's number and what it names; number 0 is want of memory.
    fn refusal(&self) -> Refusal
        ensures { result ≡ told self.now };
}

// A refusal that names nothing. This and the next two are calls of their own: one for all would be handed a `Named`, and say no more.
pub fn plain(number: u8) -> Refusal
    ensures { result ≡ told_plain number }
{
    Refusal {
        number,
        names: Named::Nothing,
    }
}

// A refusal that names one.
pub fn naming(number: u8, named: usize) -> Refusal
    ensures { result ≡ told_naming number named }
{
    Refusal {
        number,
        names: Named::One(named),
    }
}

// A refusal that names two.
pub fn naming_two(number: u8, first: usize, second: usize) -> Refusal
    ensures { result ≡ told_naming_two number first second }
{
    Refusal {
        number,
        names: Named::Two(first, second),
    }
}
