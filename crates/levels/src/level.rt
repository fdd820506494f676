ghost use Rattle.std.specs.Prelude.{◌≡◌, ◌≤◌, ◌<◌};
ghost use Rattle.rule.specs.Order.{flags, level};
ghost use Rattle.levels.specs.Level.{Turned};

use rule::Order;

// An order of at most ten flags, and the same turned round: the level of each flag, its place in the order, stands at the flag's place.
#[derive(Clone, Copy)]
pub struct Levels {
    pub n: u8,
    pub order: Order,
    pub turned: [u8; 10],
    pub ghost few: { n ≤ 10 },
    pub ghost is_turned: { Turned n order.places turned },
}

// The level of flag v, n where the order does not name it.
fn level_of(order: Order, n: u8, v: u8) -> u8
    requires { n ≤ 10 }
    ensures { result ≡ level (flags n order.places) v }
{
    (0..n).find(|&i| order.places[i as usize] == v).unwrap_or(n)
}

impl Levels {
    // The levels of an order.
    pub fn turn(n: u8, order: Order) -> Levels
        requires { n ≤ 10 }
        ensures { (result.n ≡ n) × (result.order ≡ order) }
    {
        let mut turned = [0u8; 10];
        for v in 0..n {
            turned[v as usize] = level_of(order, n, v);
        }
        Levels { n, order, turned }
    }

    // The level of a flag.
    pub fn level(self, v: u16) -> u8
        requires { v < self.n }
        ensures { result ≡ level (flags self.n self.order.places) v }
    {
        self.turned[v as usize]
    }
}
