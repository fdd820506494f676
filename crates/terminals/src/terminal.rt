// The terminal cases of a join: what two rules joined are at once, where nothing is gone down for.
ghost use Rattle.std.specs.Prelude.{◌≡◌, ◌≤◌, ◌<◌};
ghost use Rattle.rule.specs.Results.{digit};
ghost use Rattle.terminals.specs.Terminal.{by_digits, terminal};

use rule::Node;

// The operator's digit for two end nodes.
fn digit(code: u8, first: u16, second: u16) -> u16
    requires { (code ≤ 15) × (first < 2) × (second < 2) }
    ensures { result ≡ digit code first second }
{
    // no code up to 15 is refused
    operators::operate(code, first, second).unwrap()
}

// What a node's rule becomes by the digits for its no and its yes: their end node where they are one, itself where each stays. Its opposite, for 1 and 0, is gone
// down for, since that may have records that the store lacks. The other two are told apart without a jump, which half the time would be the wrong one.
#[tactic(auto, unfolding(crate::specs::Terminal::by_digits))]
fn by_digits(no: u16, yes: u16, m: u16) -> Option<u16>
    ensures { result ≡ by_digits no yes m }
{
    if yes < no {
        return None;
    }
    let mut node = m;
    if no == yes {
        node = no;
    }
    Some(node)
}

// The node of two rules joined where they are two end nodes, an end node and a record, or one record twice; None where one must go down for it.
#[tactic(auto, unfolding(crate::specs::Terminal::terminal))]
pub fn terminal_case(code: u8, f: u16, g: u16) -> Option<u16>
    requires { code ≤ 15 }
    ensures { result ≡ terminal code f g }
{
    let no = Node::NO.number;
    let yes = Node::YES.number;
    if f < 2 {
        if g < 2 {
            return Some(digit(code, f, g));
        }
        return by_digits(digit(code, f, no), digit(code, f, yes), g);
    }
    if g < 2 {
        return by_digits(digit(code, no, g), digit(code, yes, g), f);
    }
    if f == g {
        return by_digits(digit(code, no, no), digit(code, yes, yes), f);
    }
    None
}
