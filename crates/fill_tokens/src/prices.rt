//! What the parts of a program cost.
ghost use Rattle.std.specs.Prelude.{◌≡◌, ◌*◌, ◌<◌, ◌^◌};
ghost use Rattle.fill_tokens.specs.Prices.{ArePrices, count_cost, fixed_cost, place_cost, run_cost, token_cost};

use crate::kind::{Kind, RunClass};
use crate::place::Place;
use crate::token::Token;

/// The table of prices: what each part of a program costs. The program of least cost is the one that is taken to be
/// meant.
#[derive(Clone, Copy, Debug, PartialEq, Eq)]
pub struct Prices {
    /// An atom of a program, whatever it is.
    pub atom: u16,
    /// A constant as an atom of a program.
    pub constant: u16,
    /// A separator of such a constant: a character that is neither a letter nor a digit.
    pub separator: u16,
    /// Another character of such a constant.
    pub character: u16,
    /// A whole text of a source.
    pub whole: u16,
    /// A piece of a source's text.
    pub piece: u16,
    /// A cell of the row.
    pub column: u16,
    /// A cell of a table.
    pub lookup: u16,
    /// A condition of a lookup that is a constant.
    pub constant_condition: u16,
    /// A condition of a lookup that is no constant, beside what it costs as an atom.
    pub condition: u16,
    /// The start and the end of a text as places.
    pub text_end: u16,
    /// Another fixed position as a place.
    pub position: u16,
    /// A place between sequences of tokens.
    pub cut: u16,
    /// A token for the start or the end of a text.
    pub edge: u16,
    /// A token for a sign, for a run of spaces, or for a run of what is no space.
    pub sign: u16,
    /// A token for another run.
    pub run: u16,
    /// Each cut that a place passes by.
    pub step: u16,
    /// A count from the right.
    pub from_right: u16,
}

/// Each number of 16 bits is below 2^16. The call does nothing: what it tells is its clause.
fn keeps_small(price: u16)
    ensures { price < 2 ^ 16 }
{
    let _price = price;
}

impl Prices {
    /// The prices of the first two profiles.
    pub const FIRST: Prices = Prices {
        atom: 5,
        constant: 10,
        separator: 1,
        character: 12,
        whole: 2,
        piece: 6,
        column: 0,
        lookup: 8,
        constant_condition: 15,
        condition: 2,
        text_end: 1,
        position: 10,
        cut: 2,
        edge: 2,
        sign: 2,
        run: 2,
        step: 2,
        from_right: 0,
    };

    /// The prices of the third profile: letters and digits in constants cost more, and so do runs and counts from the
    /// right; signs cost less.
    pub const THIRD: Prices = Prices {
        character: 40,
        constant_condition: 40,
        sign: 1,
        run: 4,
        from_right: 2,
        ..Prices::FIRST
    };

    /// Each price is a number of 16 bits. The call does nothing: what it tells is its clause.
    pub fn keep_small(&self)
        ensures { ArePrices self.now }
    {
        keeps_small(self.atom);
        keeps_small(self.constant);
        keeps_small(self.separator);
        keeps_small(self.character);
        keeps_small(self.whole);
        keeps_small(self.piece);
        keeps_small(self.column);
        keeps_small(self.lookup);
        keeps_small(self.constant_condition);
        keeps_small(self.condition);
        keeps_small(self.text_end);
        keeps_small(self.position);
        keeps_small(self.cut);
        keeps_small(self.edge);
        keeps_small(self.sign);
        keeps_small(self.run);
        keeps_small(self.step);
        keeps_small(self.from_right);
    }

    /// What the class of runs costs as a token.
    fn of_run(&self, class: RunClass) -> u16
        ensures { result ≡ run_cost self.now class }
    {
        match class {
            RunClass::Space | RunClass::NonSpace => self.sign,
            _ => self.run,
        }
    }
}

impl Token {
    /// The cost of the token, a part of the cost of a place.
    pub fn cost(self, prices: &Prices) -> u16
        ensures { result ≡ token_cost prices.now self }
    {
        match self.kind() {
            Kind::AtStart | Kind::AtEnd => prices.edge,
            Kind::Run(class) => prices.of_run(class),
            Kind::Single(_) => prices.sign,
        }
    }
}

/// The cost of a fixed position.
fn fixed_cost(k: i32, prices: &Prices) -> u64
    ensures { result ≡ fixed_cost prices.now k }
{
    u64::from(if k == 0 || k == -1 {
        prices.text_end
    } else {
        prices.position
    })
}

/// The cost of `passed` steps.
fn steps_cost(step: u16, passed: u32) -> u64
    ensures value { result ≡ step * passed }
    ensures few { result < 2 ^ 48 }
{
    step as u64 * passed as u64
}

/// The cost of a place's count.
fn count_cost(count: i32, prices: &Prices) -> u64
    ensures value { result ≡ count_cost prices.now count }
    ensures few { result < 2 ^ 49 }
{
    let passed = count.unsigned_abs().saturating_sub(1);
    let steps = steps_cost(prices.step, passed);
    if count < 0 {
        u64::from(prices.from_right) + steps
    } else {
        steps
    }
}

impl Place {
    /// The cost of the place, a part of the cost of a program.
    pub fn cost(&self, prices: &Prices) -> u64
        ensures { result ≡ place_cost prices.now self.now }
    {
        prices.keep_small();
        match self {
            Place::CPos(k) => fixed_cost(*k, prices),
            Place::Pos(left, right, count) => {
                let tokens = left.cost(prices) + right.cost(prices);
                u64::from(prices.cut) + tokens + count_cost(*count, prices)
            }
        }
    }
}
