ghost use Rattle.std.specs.Prelude.{◌≡◌, not, ltb};

use rule::Node;

// Whether a code is an operator's: the one match over the codes refuses the others.
pub fn is_operator(code: u8) -> bool
    ensures { result ≡ not (ltb 15 code) }
{
    let no = Node::NO.number;
    operators::operate(code, no, no).is_ok()
}
