// Values, and the checked arithmetic and comparisons on them. Each result is that of a definition over all integers.
#![tactic(auto)]

ghost use Rattle.std.specs.Prelude.{◌≡◌, pos, option_map, ok_or, Ok};
ghost use Rattle.questions.specs.declared.Question.TheVariants as ask;
ghost use Rattle.numbers.specs.declared.Value.TheVariants.{Integer};
ghost use Rattle.numbers.specs.Numbers.{in_range, divided, applied, integers, strings, compared};

use questions::Question;

// A value of a field, a parameter or an expression: an integer, or a string by its number.
// Kept: (d) no Option and no Result: each case is a value of its own kind, neither an absence nor a refusal.
#[derive(Clone, Copy)]
pub enum Value {
    Integer(i64),
    Text(u8),
}

impl Value {
    // The greatest integer, and the least.
    pub const TOP: i64 = i64::MAX;

    pub const LEAST: i64 = i64::MIN;
    // 2 ^ 63: the magnitude of the least integer, and one past the top.
    pub const LIMIT: u64 = Value::TOP as u64 + 1;
}

#[derive(Clone, Copy)]
pub enum Operator {
    Plus,
    Minus,
    Times,
    Over,
}

#[derive(Clone, Copy)]
pub enum Comparison {
    Equal,
    Unequal,
    Less,
    AtMost,
    Greater,
    AtLeast,
}

// An integer that was worked out, where 64 bits hold it.
fn answer(z: Option<i64>) -> Result<Value, Question>
    ensures { result ≡ ok_or (option_map Integer z) ask.ResultRange }
{
    z.map(Value::Integer).ok_or(Question::ResultRange)
}

// A whole number from 0 on as a value.
pub fn natural(n: u64) -> Result<Value, Question>
    ensures { result ≡ in_range (pos n) }
{
    answer(i64::try_from(n).ok())
}

// Rounded down. Only the least integer by -1 leaves the range.
fn div(a: i64, b: i64) -> Result<Value, Question>
    ensures { result ≡ divided a b }
{
    if b == 0 {
        return Err(Question::Divisor);
    }
    // rounded towards zero, which is down where the signs are alike or nothing is left over
    let Some(q) = a.checked_div(b) else {
        return Err(Question::ResultRange);
    };
    let down = (a < 0) == (b < 0) || a % b == 0;
    Ok(Value::Integer(if down { q } else { q - 1 }))
}

// An operator on two values.
pub fn apply(o: Operator, a: Value, b: Value) -> Result<Value, Question>
    ensures { result ≡ applied o a b }
{
    let (Value::Integer(x), Value::Integer(y)) = (a, b) else {
        return Err(Question::OperandKind);
    };
    match o {
        Operator::Plus => answer(x.checked_add(y)),
        Operator::Minus => answer(x.checked_sub(y)),
        Operator::Times => answer(x.checked_mul(y)),
        Operator::Over => div(x, y),
    }
}

fn compare_integers(c: Comparison, a: i64, b: i64) -> bool
    ensures { Ok result ≡ integers c a b }
{
    match c {
        Comparison::Equal => a == b,
        Comparison::Unequal => a != b,
        Comparison::Less => a < b,
        Comparison::AtMost => a <= b,
        Comparison::Greater => a > b,
        Comparison::AtLeast => a >= b,
    }
}

fn compare_strings(c: Comparison, m: u8, n: u8) -> Result<bool, Question>
    ensures { result ≡ strings c m n }
{
    match c {
        Comparison::Equal => Ok(m == n),
        Comparison::Unequal => Ok(m != n),
        _ => Err(Question::OperandKind),
    }
}

// A comparison of two values.
pub fn compare(c: Comparison, a: Value, b: Value) -> Result<bool, Question>
    ensures { result ≡ compared c a b }
{
    match (a, b) {
        (Value::Integer(x), Value::Integer(y)) => Ok(compare_integers(c, x, y)),
        (Value::Text(m), Value::Text(n)) => compare_strings(c, m, n),
        _ => Err(Question::OperandKind),
    }
}
