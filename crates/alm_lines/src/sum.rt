//! Sums of terms: numbers, and how often each section counts in them.

ghost use Rattle.std.specs.Prelude.{◌≡◌, ◌+◌, ◌-◌, ◌%◌, ◌≤◌, ◌<◌, ◌^◌, ◌&&◌};
ghost use Rattle.alm_lines.specs.Sums.{balance_plus, negated, is_zero, is_one, is_within, half_of};
ghost use Rattle.alm_lines.specs.Sums.{offset_of, normalized, absolute, unknown_sum, sum_plus};
ghost use Rattle.alm_lines.specs.Sums.{negated_sum, kind_of, IsAtMost, IsTerm};

use obj36_parts::Section;

/// An integer, as the difference of two natural numbers.
#[derive(Clone, Copy, PartialEq, Eq)]
pub struct Balance {
    pub up: u128,
    pub down: u128,
}

/// The sum of an expression: its number, and for each section how often its places count in the
/// sum, less how often they are subtracted. `inner` is for the static words of the linkage section,
/// `outer` for those of a static section.
#[derive(Clone, Copy, PartialEq, Eq)]
pub struct Sum {
    pub value: Balance,
    pub text: Balance,
    pub inner: Balance,
    pub outer: Balance,
    /// The sum depends on the symbol of a refused `equ`, so its value is not known.
    pub unknown: bool,
}

/// What a sum is: a number, a place of a section, or something that an object cannot express.
#[derive(Clone, Copy, PartialEq, Eq)]
pub enum Kind {
    Absolute,
    Moved(Section),
    Inexpressible,
}

/// The number 0.
pub const NOTHING: Balance = Balance { up: 0, down: 0 };

impl Balance {
    /// The sum of two numbers.
    pub fn plus(self, other: Balance) -> Balance
        requires up { self.up + other.up < 2 ^ 128 }
        requires down { self.down + other.down < 2 ^ 128 }
        ensures { result ≡ balance_plus self other }
    {
        Balance {
            up: self.up + other.up,
            down: self.down + other.down,
        }
    }

    /// The negated number.
    pub fn negated(self) -> Balance
        ensures { result ≡ negated self }
    {
        Balance {
            up: self.down,
            down: self.up,
        }
    }

    /// Whether the number is 0.
    pub fn is_zero(self) -> bool
        ensures { result ≡ is_zero self }
    {
        self.up == self.down
    }

    /// Whether the number is 1.
    pub fn is_one(self) -> bool
        ensures { result ≡ is_one self }
    {
        self.down < self.up && self.up - self.down == 1
    }

    /// Whether the number is from -`low` to `high`.
    pub fn is_within(self, low: u64, high: u64) -> bool
        ensures { result ≡ is_within low high self }
    {
        self.down.saturating_sub(self.up) <= low as u128
            && self.up.saturating_sub(self.down) <= high as u128
    }

    /// The number modulo 2^18.
    #[tactic(auto, unfolding(crate::specs::Sums::half_of))]
    pub fn half(self) -> u64
        ensures value { result ≡ half_of self }
        ensures bound { result < 2 ^ 18 }
    {
        let up = (self.up % (1 << 18)) as u64;
        let down = (self.down % (1 << 18)) as u64;
        (up + ((1 << 18) - down)) % (1 << 18)
    }

    /// The number modulo 2^15.
    #[tactic(auto, unfolding(crate::specs::Sums::offset_of))]
    pub fn offset(self) -> u64
        ensures value { result ≡ offset_of self }
        ensures bound { result < 2 ^ 15 }
    {
        let up = (self.up % (1 << 15)) as u64;
        let down = (self.down % (1 << 15)) as u64;
        (up + ((1 << 15) - down)) % (1 << 15)
    }

    /// The same number, with the lesser of `up` and `down` reduced to 0.
    pub fn normalized(self) -> Balance
        ensures { result ≡ normalized self }
    {
        Balance {
            up: self.up.saturating_sub(self.down),
            down: self.down.saturating_sub(self.up),
        }
    }
}

/// The sum of a number.
pub fn absolute(n: u64) -> Sum
    ensures value { result ≡ absolute n }
    ensures small { IsTerm result }
{
    Sum {
        value: Balance {
            up: n as u128,
            down: 0,
        },
        text: NOTHING,
        inner: NOTHING,
        outer: NOTHING,
        unknown: false,
    }
}

/// The sum of the symbol of a refused `equ`.
pub fn unknown() -> Sum
    ensures value { result ≡ unknown_sum }
    ensures small { IsTerm result }
{
    Sum {
        unknown: true,
        ..absolute(0)
    }
}

// Whether all three are true.
fn all_three(first: bool, second: bool, third: bool) -> bool
    ensures { result ≡ (first && second && third) }
{
    first && second && third
}

impl Sum {
    /// The sum with one more term. The sum of the terms so far is at most 2^128 - 2^96 in each
    /// part.
    #[tactic(auto, unfolding(crate::specs::Sums::sum_plus))]
    pub fn plus(self, term: Sum) -> Sum
        requires room { IsAtMost (2 ^ 128 - 2 ^ 96) self }
        requires small { IsTerm term }
        ensures { result ≡ sum_plus self term }
    {
        Sum {
            value: self.value.plus(term.value),
            text: self.text.plus(term.text),
            inner: self.inner.plus(term.inner),
            outer: self.outer.plus(term.outer),
            unknown: self.unknown || term.unknown,
        }
    }

    /// The negated sum.
    #[tactic(auto, unfolding(crate::specs::Sums::negated_sum))]
    pub fn negated(self) -> Sum
        requires { IsTerm self }
        ensures value { result ≡ negated_sum self }
        ensures small { IsTerm result }
    {
        Sum {
            value: self.value.negated(),
            text: self.text.negated(),
            inner: self.inner.negated(),
            outer: self.outer.negated(),
            unknown: self.unknown,
        }
    }

    /// What the sum is, by how often each section counts in it.
    #[tactic(auto, unfolding(crate::specs::Sums::kind_of))]
    pub fn kind(self) -> Kind
        ensures { result ≡ kind_of self }
    {
        let Sum {
            value: _,
            text,
            inner,
            outer,
            unknown: _,
        } = self;
        if all_three(text.is_zero(), inner.is_zero(), outer.is_zero()) {
            return Kind::Absolute;
        }
        if all_three(text.is_one(), inner.is_zero(), outer.is_zero()) {
            return Kind::Moved(Section::Text);
        }
        if all_three(text.is_zero(), inner.is_one(), outer.is_zero()) {
            return Kind::Moved(Section::Linkage);
        }
        if all_three(text.is_zero(), inner.is_zero(), outer.is_one()) {
            return Kind::Moved(Section::Static);
        }
        Kind::Inexpressible
    }
}
