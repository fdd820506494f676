ghost use Rattle.std.specs.Prelude.{◌≡◌, [], ◌∷◌, ◌≤◌, ◌<◌};
ghost use Rattle.rule.specs.Order.{flags, times, each_once, rest_zero, fit_order};
ghost use Rattle.rule.specs.Answers.{test_number};
ghost use Rattle.rule.specs.Refusals.{refusal, flag_count, order_places};

use rule::{Order, Refusal};

// How often flag v stands among the first n places.
fn times(order: Order, n: u8, v: u8) -> u8
    requires { n ≤ 10 }
    ensures { result ≡ times v (flags n order.places) }
{
    let places = order.places;
    places[..n as usize]
        .iter()
        .filter(|&&flag| flag == v)
        .count() as u8
}

// Whether each flag below n stands once among the first n places.
fn each_once(order: Order, n: u8) -> bool
    requires { n ≤ 10 }
    ensures { result ≡ each_once n order.places }
{
    (0..n).all(|v| times(order, n, v) == 1)
}

// Whether the places from n on are 0.
fn rest_zero(order: Order, n: u8) -> bool
    requires { n ≤ 10 }
    ensures { result ≡ rest_zero n order.places }
{
    let places = order.places;
    places[n as usize..].iter().all(|&place| place == 0)
}

// Whether the order names each flag once, and has 0 from place n on.
pub fn fit_order(order: Order, n: u8) -> bool
    requires { n ≤ 10 }
    ensures { result ≡ fit_order n order.places }
{
    each_once(order, n) && rest_zero(order, n)
}

// The tests of a flag count and an order: 1, then 4.
pub fn test_order(n: u8, order: Order) -> Result<(), Refusal>
    ensures { test_number result ≡ refusal (flag_count n ∷ order_places n order.places ∷ []) }
{
    if 10 < n {
        return Err(Refusal::FlagCount);
    }
    if !fit_order(order, n) {
        return Err(Refusal::OrderPlaces);
    }
    Ok(())
}
