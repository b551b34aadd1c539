//! Functions of some inputs, given by number.

ghost use Rattle.std.specs.Prelude.{◌≤◌};

/// A function of some inputs: input v is bit v of a point.
#[derive(Drop)]
pub(crate) enum Function {
    /// 1 if the mask has a bit for the number of inputs that are 1.
    Count(u32),
    /// A bit of the sum of two numbers of half the inputs each; a last input that is left is carried in.
    Sum(u8),
    /// A bit of their product.
    Product(u8),
    /// Whether the first number is less than the second, at most the second, or equal to it.
    Less,
    AtMost,
    Equal,
    /// 1 at the points with a bit in the first mask, either level at those with one in the second.
    Numbers(u64, u64),
}

/// A function's value at a point.
#[derive(Clone, Copy, PartialEq, Eq)]
pub(crate) enum Value {
    Zero,
    One,
    Either,
}

fn value_of(holds: bool) -> Value {
    if holds { Value::One } else { Value::Zero }
}

impl Function {
    pub(crate) fn value(&self, vars: u8, point: u32) -> Value
        requires { vars ≤ 8 }
    {
        let half = vars / 2;
        let mask = (1u32 << half) - 1;
        let first = point & mask;
        let second = point >> half & mask;
        let carry = point >> (half + half) & 1;
        match self {
            Function::Count(counts) => value_of(counts >> (point.count_ones() & 31) & 1 == 1),
            Function::Sum(bit) => value_of((first + second + carry) >> (bit & 7) & 1 == 1),
            Function::Product(bit) => value_of((first * second) >> (bit & 7) & 1 == 1),
            Function::Less => value_of(first < second),
            Function::AtMost => value_of(first <= second),
            Function::Equal => value_of(first == second),
            Function::Numbers(_, either) if either >> (point & 63) & 1 == 1 => Value::Either,
            Function::Numbers(ones, _) => value_of(ones >> (point & 63) & 1 == 1),
        }
    }
}

/// A function of a kind: a count's mask is reported in binary, a bit in decimal, the two masks of points in
/// hexadecimal.
pub(crate) fn function_of(kind: &str, told: &str) -> Option<Function> {
    match kind {
        "count" => Some(Function::Count(u32::from_str_radix(told, 2).ok()?)),
        "sum" => Some(Function::Sum(told.parse::<u8>().ok()?)),
        "product" => Some(Function::Product(told.parse::<u8>().ok()?)),
        "less" => Some(Function::Less),
        "at most" => Some(Function::AtMost),
        "equal" => Some(Function::Equal),
        "numbers" => {
            let (ones, either) = told.split_once(' ')?;
            let ones = u64::from_str_radix(ones, 16).ok()?;
            Some(Function::Numbers(ones, u64::from_str_radix(either, 16).ok()?))
        }
        _ => None,
    }
}
