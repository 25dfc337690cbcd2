//! Three truths, and the two sides of a test.
ghost use Rattle.std.specs.Prelude.{◌≡◌};
ghost use Rattle.iq_truth.specs.Sides.{is_on};
ghost use Rattle.iq_truth.specs.Truths.{truth_not, truth_and, truth_or, truth_of};

/// What a test says of a row. Unknown comes of NULL. False is below unknown, and unknown below true.
#[derive(Clone, Copy, Debug, PartialEq, Eq, PartialOrd, Ord)]
pub enum Truth {
    False,
    Unknown,
    True,
}

/// A side of a test: the rows of which it is true, or those of which it is false. A row of which it is unknown is on neither.
#[derive(Clone, Copy, Debug, PartialEq, Eq)]
pub enum Side {
    True,
    False,
}

impl Truth {
    /// True or false, never unknown.
    pub fn of(holds: bool) -> Truth
        ensures { result ≡ truth_of holds }
    {
        if holds { Truth::True } else { Truth::False }
    }

    /// NOT: exchanges true and false, and leaves unknown.
    pub fn not(self) -> Truth
        ensures { result ≡ truth_not self }
    {
        match self {
            Truth::False => Truth::True,
            Truth::Unknown => Truth::Unknown,
            Truth::True => Truth::False,
        }
    }

    /// AND: the lesser of the two.
    pub fn and(self, other: Truth) -> Truth
        ensures { result ≡ truth_and self other }
    {
        match self {
            Truth::False => Truth::False,
            Truth::Unknown => match other {
                Truth::False => Truth::False,
                Truth::Unknown | Truth::True => Truth::Unknown,
            },
            Truth::True => other,
        }
    }

    /// OR: the greater of the two.
    pub fn or(self, other: Truth) -> Truth
        ensures { result ≡ truth_or self other }
    {
        match self {
            Truth::False => other,
            Truth::Unknown => match other {
                Truth::False | Truth::Unknown => Truth::Unknown,
                Truth::True => Truth::True,
            },
            Truth::True => Truth::True,
        }
    }
}

impl Side {
    /// Whether a row of which a test says this is on the side. The false side is the true side of the negation.
    pub fn has(self, truth: Truth) -> bool
        ensures is { result ≡ is_on self truth }
        ensures false_side { is_on Side.False truth ≡ is_on Side.True (truth_not truth) }
    {
        match truth {
            Truth::False => self == Side::False,
            Truth::Unknown => false,
            Truth::True => self == Side::True,
        }
    }
}
