// The rule of three cells, for any unit that can be compared and copied: what they read as, and which stores make them equal.
ghost use Rattle.cells.specs.Triple.{MendedBy, ReadAs};
ghost use Rattle.std.specs.Prelude.{◌≡◌};

// A unit kept three times.
#[derive(Clone, Copy, PartialEq, Eq, Debug)]
pub struct Triple<T> {
    pub a: T,
    pub b: T,
    pub c: T,
}

// The stores that make three cells equal.
#[derive(Clone, Copy, PartialEq, Eq, Debug)]
pub enum Repair<T> {
    // they are equal
    Nothing,
    // one store, to A or to C
    ToA(T),
    ToC(T),
    // two stores, to B and then to C
    ToBoth(T),
}

impl<T: PartialEq + Copy> Triple<T> {
    // B if B equals C, otherwise A.
    pub fn value(&self) -> T
        ensures { ReadAs (λ x y r. r ≡ T.PartialEq.eq x y) self.now result }
    {
        if self.b == self.c { self.b } else { self.a }
    }

    // If B equals C and A differs, B goes to A. If B and C differ, A goes to B unless they are equal, and then to C.
    pub fn repair(&self) -> Repair<T>
        ensures { MendedBy (λ x y r. r ≡ T.PartialEq.eq x y) self.now result }
    {
        match (self.b == self.c, self.a == self.b) {
            (true, true) => Repair::Nothing,
            (true, false) => Repair::ToA(self.b),
            (false, true) => Repair::ToC(self.a),
            (false, false) => Repair::ToBoth(self.a),
        }
    }
}
