//! The operators of an expression of a directive.

ghost use Rattle.std.specs.Prelude.{◌≡◌, ◌<◌, ◌^◌};
ghost use Rattle.abel_macros.specs.Values as spec;

/// An operator between two numbers.
#[derive(Clone, Copy)]
pub enum Operator {
    Equal,
    Unequal,
    Less,
    LessEqual,
    Greater,
    GreaterEqual,
    Plus,
    Minus,
    Or,
    Xor,
    Xnor,
    And,
    ShiftLeft,
    ShiftRight,
    Times,
    Over,
    Rest,
}

/// Operators of one priority, the weakest first.
#[derive(Clone, Copy)]
pub enum Priority {
    Relation,
    Sum,
    Product,
}

/// What may precede an operand.
#[derive(Clone, Copy)]
pub enum Prefix {
    Not,
    Minus,
    Open,
    /// None of these.
    Plain,
}

impl Prefix {
    /// The prefix that a sign is.
    pub fn of(sign: &[u8]) -> Prefix
        ensures { result ≡ spec.prefix_of sign.now }
    {
        match sign {
            b"!" => Prefix::Not,
            b"-" => Prefix::Minus,
            b"(" => Prefix::Open,
            _ => Prefix::Plain,
        }
    }
}

impl Operator {
    /// The relation that a sign is.
    fn relation(sign: &[u8]) -> Option<Operator>
        ensures { result ≡ spec.relation_of sign.now }
    {
        match sign {
            b"==" => Some(Operator::Equal),
            b"!=" => Some(Operator::Unequal),
            b"<" => Some(Operator::Less),
            b"<=" => Some(Operator::LessEqual),
            b">" => Some(Operator::Greater),
            b">=" => Some(Operator::GreaterEqual),
            _ => None,
        }
    }

    /// The operator of sums that a sign is.
    fn sum(sign: &[u8]) -> Option<Operator>
        ensures { result ≡ spec.sum_of sign.now }
    {
        match sign {
            b"+" => Some(Operator::Plus),
            b"-" => Some(Operator::Minus),
            b"#" => Some(Operator::Or),
            b"$" => Some(Operator::Xor),
            b"!$" => Some(Operator::Xnor),
            _ => None,
        }
    }

    /// The operator of products that a sign is.
    fn product(sign: &[u8]) -> Option<Operator>
        ensures { result ≡ spec.product_of sign.now }
    {
        match sign {
            b"&" => Some(Operator::And),
            b"<<" => Some(Operator::ShiftLeft),
            b">>" => Some(Operator::ShiftRight),
            b"*" => Some(Operator::Times),
            b"/" => Some(Operator::Over),
            b"%" => Some(Operator::Rest),
            _ => None,
        }
    }

    /// The operator of a priority that a sign is.
    pub fn of(priority: Priority, sign: &[u8]) -> Option<Operator>
        ensures { result ≡ spec.operator_of priority sign.now }
    {
        match priority {
            Priority::Relation => Operator::relation(sign),
            Priority::Sum => Operator::sum(sign),
            Priority::Product => Operator::product(sign),
        }
    }

    /// What it makes of two numbers; nothing of a division by 0.
    pub fn applied(self, first: u32, second: u32) -> Option<u32>
        ensures { result ≡ spec.applied self first second }
    {
        match self {
            Operator::Equal => Some(u32::from(first == second)),
            Operator::Unequal => Some(u32::from(first != second)),
            Operator::Less => Some(u32::from(first < second)),
            Operator::LessEqual => Some(u32::from(first <= second)),
            Operator::Greater => Some(u32::from(first > second)),
            Operator::GreaterEqual => Some(u32::from(first >= second)),
            Operator::Plus => Some(first.wrapping_add(second)),
            Operator::Minus => Some(first.wrapping_sub(second)),
            Operator::Or => Some(first | second),
            Operator::Xor => Some(first ^ second),
            Operator::Xnor => Some(!(first ^ second)),
            Operator::And => Some(first & second),
            Operator::ShiftLeft => Some(first.checked_shl(second).unwrap_or(0)),
            Operator::ShiftRight => Some(first.checked_shr(second).unwrap_or(0)),
            Operator::Times => Some(first.wrapping_mul(second)),
            Operator::Over => first.checked_div(second),
            Operator::Rest => first.checked_rem(second),
        }
    }
}
