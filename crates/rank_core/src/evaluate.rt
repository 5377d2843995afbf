//! The value of an expression.

ghost use Rattle.std.specs.Prelude.{◌≡◌, ◌<◌, ◌≤◌, ◌*ℤ◌, ℕ, pos, length, IfSome};
ghost use Rattle.rank_defs.specs.Formulas.{formula_of, group, computes, compares};
ghost use Rattle.rank_defs.specs.Values.{num, truth, value_of, apply, quotient, FitsWide};
ghost use Rattle.rank_defs.specs.States.{variable_in};
ghost use Rattle.rank_defs.specs.Steps.{clamped as clamped_to};
ghost use Rattle.rank_defs.specs.Shapes.{AreDeclared};
ghost use Rattle.rank_defs.specs.Ranges.{counts, tells, sort_of, declared};
ghost use Rattle.rank_defs.specs.Programs.{program_of};
ghost use Rattle.rank_defs.specs.Checks.{IsSafe};
ghost use Rattle.rank_defs.specs.Tame.{AreInside};
ghost use Rattle.rank_core.specs.Scope.{memory_of};

use rank_defs::{Env, Expr, Op, Span, Transaction, Var};

/// The inputs of an expression.
#[derive(Clone, Copy)]
pub(crate) struct Scope<'a> {
    pub env: &'a Env,
    pub rank: u64,
    pub keeps: &'a [u64],
    pub eaches: &'a [u64],
}

#[inline(always)]
fn variable(var: Var, scope: &Scope<'_>) -> u64
    requires keep { (k : ℕ) → var ≡ Var.Keep k → k < length scope.now.keeps.now }
    requires each { (k : ℕ) → var ≡ Var.Each k → k < length scope.now.eaches.now }
    ensures { result ≡ variable_in scope.now.env.now (memory_of scope.now) var }
{
    match var {
        Var::Len => u64::from(scope.env.len),
        Var::Now => scope.env.now,
        Var::Prio => u64::from(scope.env.prio),
        Var::Weight => u64::from(scope.env.weight),
        Var::Slack => scope.env.slack,
        Var::Rank => scope.rank,
        Var::Keep(k) => scope.keeps[k as usize],
        Var::Each(k) => scope.eaches[k as usize],
    }
}

fn computed(op: Op, x: i128, y: i128) -> i128
    requires computes { group op ≡ computes }
    requires fits { FitsWide (apply op (num x) (num y)) }
    ensures { apply op (num x) (num y) ≡ num result }
{
    match op {
        Op::Add => x + y,
        Op::Sub => x - y,
        Op::Mul => x * y,
        Op::Div => divided(x, y),
        Op::Min => x.min(y),
        Op::Max => x.max(y),
        _ => unreachable!(),
    }
}

/// Divides `x` by `y`. A 128-bit division calls a library, so a 64-bit division is used if both
/// numbers fit in 64 bits.
fn divided(x: i128, y: i128) -> i128
    requires { FitsWide (quotient x y) }
    ensures { quotient x y ≡ num result }
{
    match (u64::try_from(x), u64::try_from(y)) {
        (Ok(a), Ok(b)) => i128::from(a / b),
        _ => x / y,
    }
}

fn compared(op: Op, x: i128, y: i128) -> bool
    requires { group op ≡ compares }
    ensures { apply op (num x) (num y) ≡ truth result }
{
    match op {
        Op::Less => x < y,
        Op::LessEq => x <= y,
        Op::Equal => x == y,
        Op::NotEqual => x != y,
        Op::MoreEq => x >= y,
        Op::More => x > y,
        _ => unreachable!(),
    }
}

/// Evaluates like `number`, but without a call if the expression has no parts.
#[inline(always)]
#[cycle(value)]
pub(crate) fn operand(e: &Expr, transaction: &Transaction, scope: &Scope<'_>) -> i128
    requires counts { sort_of (formula_of e.now) ≡ counts }
    requires safe { IsSafe (declared (program_of transaction.now)) (formula_of e.now) }
    requires variables { AreDeclared (program_of transaction.now) (formula_of e.now) }
    requires inside { AreInside (declared (program_of transaction.now))
        (variable_in scope.now.env.now (memory_of scope.now)) }
    requires keeps { length scope.now.keeps.now ≡ length transaction.now.keeps }
    requires eaches { length scope.now.eaches.now ≡ length transaction.now.eaches }
    ensures { value_of (variable_in scope.now.env.now (memory_of scope.now)) (formula_of e.now) ≡
        num result }
{
    match e {
        Expr::Number(n) => i128::from(*n),
        Expr::Var(var) => i128::from(variable(*var, scope)),
        _ => number(e, transaction, scope),
    }
}

/// Returns the value of a numeric expression. Each part fits in 128 bits, so no intermediate result
/// is clamped.
#[cycle(value)]
pub(crate) fn number(e: &Expr, transaction: &Transaction, scope: &Scope<'_>) -> i128
    requires counts { sort_of (formula_of e.now) ≡ counts }
    requires safe { IsSafe (declared (program_of transaction.now)) (formula_of e.now) }
    requires variables { AreDeclared (program_of transaction.now) (formula_of e.now) }
    requires inside { AreInside (declared (program_of transaction.now))
        (variable_in scope.now.env.now (memory_of scope.now)) }
    requires keeps { length scope.now.keeps.now ≡ length transaction.now.keeps }
    requires eaches { length scope.now.eaches.now ≡ length transaction.now.eaches }
    ensures { value_of (variable_in scope.now.env.now (memory_of scope.now)) (formula_of e.now) ≡
        num result }
{
    match e {
        Expr::Number(n) => i128::from(*n),
        Expr::Var(var) => i128::from(variable(*var, scope)),
        Expr::Two(op, a, b) => computed(
            *op,
            operand(a, transaction, scope),
            operand(b, transaction, scope),
        ),
        Expr::Not(_) => unreachable!(),
        Expr::If(test, a, b) => {
            if truth(test, transaction, scope) {
                number(a, transaction, scope)
            } else {
                number(b, transaction, scope)
            }
        }
    }
}

#[cycle(value)]
fn truth(e: &Expr, transaction: &Transaction, scope: &Scope<'_>) -> bool
    requires tells { sort_of (formula_of e.now) ≡ tells }
    requires safe { IsSafe (declared (program_of transaction.now)) (formula_of e.now) }
    requires variables { AreDeclared (program_of transaction.now) (formula_of e.now) }
    requires inside { AreInside (declared (program_of transaction.now))
        (variable_in scope.now.env.now (memory_of scope.now)) }
    requires keeps { length scope.now.keeps.now ≡ length transaction.now.keeps }
    requires eaches { length scope.now.eaches.now ≡ length transaction.now.eaches }
    ensures { value_of (variable_in scope.now.env.now (memory_of scope.now)) (formula_of e.now) ≡
        truth result }
{
    match e {
        Expr::Two(op, a, b) => match op {
            Op::And => truth(a, transaction, scope) && truth(b, transaction, scope),
            Op::Or => truth(a, transaction, scope) || truth(b, transaction, scope),
            _ => compared(
                *op,
                operand(a, transaction, scope),
                operand(b, transaction, scope),
            ),
        },
        Expr::Not(a) => !truth(a, transaction, scope),
        _ => unreachable!(),
    }
}

/// Returns the value of a number, of a variable, or of an operation on two of them, if it fits in
/// 64 bits. Most assignments have this form, and they avoid a call. `len * N / weight`, a packet's
/// service time in its class, is also accepted as the right operand.
#[inline(always)]
pub(crate) fn narrow(e: &Expr, transaction: &Transaction, scope: &Scope<'_>) -> Option<u64>
    requires variables { AreDeclared (program_of transaction.now) (formula_of e.now) }
    requires keeps { length scope.now.keeps.now ≡ length transaction.now.keeps }
    requires eaches { length scope.now.eaches.now ≡ length transaction.now.eaches }
    ensures { IfSome result (λ v. value_of (variable_in scope.now.env.now (memory_of scope.now))
        (formula_of e.now) ≡ num (pos v)) }
{
    match e {
        Expr::Two(op, a, b) => narrowed(
            *op,
            leaf(a, transaction, scope)?,
            part(b, transaction, scope)?,
        ),
        _ => leaf(e, transaction, scope),
    }
}

#[inline(always)]
fn leaf(e: &Expr, transaction: &Transaction, scope: &Scope<'_>) -> Option<u64>
    requires variables { AreDeclared (program_of transaction.now) (formula_of e.now) }
    requires keeps { length scope.now.keeps.now ≡ length transaction.now.keeps }
    requires eaches { length scope.now.eaches.now ≡ length transaction.now.eaches }
    ensures { IfSome result (λ v. value_of (variable_in scope.now.env.now (memory_of scope.now))
        (formula_of e.now) ≡ num (pos v)) }
{
    match e {
        Expr::Number(n) => Some(*n),
        Expr::Var(var) => Some(variable(*var, scope)),
        _ => None,
    }
}

#[inline(always)]
fn part(e: &Expr, transaction: &Transaction, scope: &Scope<'_>) -> Option<u64>
    requires variables { AreDeclared (program_of transaction.now) (formula_of e.now) }
    requires keeps { length scope.now.keeps.now ≡ length transaction.now.keeps }
    requires eaches { length scope.now.eaches.now ≡ length transaction.now.eaches }
    ensures { IfSome result (λ v. value_of (variable_in scope.now.env.now (memory_of scope.now))
        (formula_of e.now) ≡ num (pos v)) }
{
    match e {
        Expr::Two(..) => share(e, scope),
        _ => leaf(e, transaction, scope),
    }
}

/// Returns the value of `len * N / weight`, if the expression has this form.
#[inline(always)]
fn share(e: &Expr, scope: &Scope<'_>) -> Option<u64>
    ensures { IfSome result (λ v. value_of (variable_in scope.now.env.now (memory_of scope.now))
        (formula_of e.now) ≡ num (pos v)) }
{
    let Expr::Two(Op::Div, product, weight) = e else {
        return None;
    };
    let Expr::Two(Op::Mul, len, scale) = &**product else {
        return None;
    };
    match (&**len, &**scale, &**weight) {
        (Expr::Var(Var::Len), Expr::Number(scale), Expr::Var(Var::Weight)) => {
            weighted(scope.env.len, *scale, scope.env.weight)
        }
        _ => None,
    }
}

#[inline(always)]
fn weighted(len: u32, scale: u64, weight: u32) -> Option<u64>
    ensures { IfSome result (λ v. quotient (pos len *ℤ pos scale) (pos weight) ≡ num (pos v)) }
{
    let scale = u32::try_from(scale).ok()?;
    let scaled = u64::from(len) * u64::from(scale);
    scaled.checked_div(u64::from(weight))
}

#[inline(always)]
fn narrowed(op: Op, x: u64, y: u64) -> Option<u64>
    ensures { IfSome result (λ v. apply op (num (pos x)) (num (pos y)) ≡ num (pos v)) }
{
    match op {
        Op::Add => x.checked_add(y),
        Op::Sub => x.checked_sub(y),
        Op::Mul => x.checked_mul(y),
        Op::Div => x.checked_div(y),
        Op::Min => Some(x.min(y)),
        Op::Max => Some(x.max(y)),
        _ => None,
    }
}

pub(crate) fn clamped(value: i128, span: Span) -> u64
    requires { span.low ≤ span.high }
    ensures { result ≡ clamped_to span (num value) }
{
    value.clamp(i128::from(span.low), i128::from(span.high)) as u64
}
