// What stands in lent cells and bytes.
ghost use Rattle.std.specs.Prelude.{◌≡◌};
ghost use Rattle.std.specs.List.{list_all};

// Whether each value is the given one.
pub fn each_is<T: PartialEq>(values: &[T], value: &T) -> bool
    ensures { result ≡ list_all (λ x. T.eq x value.now) values.now }
{
    values.iter().all(|x| x == value)
}
