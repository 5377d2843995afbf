//! The forms of steps that run without reading their assignments.

ghost use Rattle.std.specs.Prelude.{◌≡◌, ◌∷◌, ℕ, [], map, IfSome};
ghost use Rattle.rank_defs.specs.declared.expression.Var.{Var as Name};
ghost use Rattle.rank_defs.specs.Formulas.{formula_of};
ghost use Rattle.rank_defs.specs.Values.{value_of};
ghost use Rattle.rank_defs.specs.Programs.{program_of, assignment_of};
ghost use Rattle.rank_defs.specs.Shapes.{IsShaped, IsShapedAssignment};
ghost use Rattle.rank_core.specs.Forms.{latest, service, next, IsForm};
ghost use Rattle.rank_core.specs.Scope.{AreShapedIn};

use rank_defs::{Aim, Assign, Expr, Op, Span, Transaction, Var};

/// A step that writes the rank to a variable of the node, with that variable's range.
#[derive(Clone, Copy, PartialEq, Eq, Debug)]
pub struct Kept {
    pub(crate) keep: u32,
    pub(crate) span: Span,
}

/// A push step of start-time fair queueing. The rank is the maximum of a variable of the node and
/// one of the child or flow. The latter is then set to the rank plus `len * scale / weight`,
/// clamped to its range.
#[derive(Clone, Copy, PartialEq, Eq, Debug)]
pub struct Fair {
    pub(crate) keep: u32,
    pub(crate) each: u32,
    pub(crate) scale: u32,
    pub(crate) span: Span,
}

/// The form of a step.
#[derive(Clone, Copy, PartialEq, Eq, Debug)]
pub enum Form {
    /// The step has no assignments.
    Empty,
    Kept(Kept),
    Fair(Fair),
    /// The step has no known form: its assignments are read one by one.
    Lines,
}

#[inline(always)]
fn kept_form(transaction: &Transaction, assign: &Assign) -> Form
    requires fits { IsShapedAssignment (program_of transaction.now) (assignment_of assign.now) }
    ensures { IsForm (program_of transaction.now) (assignment_of assign.now ∷ []) result }
{
    match (assign.aim, &assign.value) {
        (Aim::Keep(keep), Expr::Var(Var::Rank)) => Form::Kept(Kept {
            keep,
            span: transaction.keeps.as_slice()[keep as usize],
        }),
        _ => Form::Lines,
    }
}

/// If the assignment sets the rank to the maximum of a node's variable and a child's or flow's,
/// returns the two indices.
#[inline(always)]
fn latest_of(assign: &Assign) -> Option<(u32, u32)>
    ensures aim { IfSome result (λ v. assign.now.aim ≡ Aim.Rank) }
    ensures value { IfSome result (λ v. (variables : Name → ℕ) →
        value_of variables (formula_of assign.now.value) ≡ value_of variables (latest v.0 v.1)) }
{
    let Aim::Rank = assign.aim else {
        return None;
    };
    let Expr::Two(Op::Max, a, b) = &assign.value else {
        return None;
    };
    match (&**a, &**b) {
        (Expr::Var(Var::Keep(keep)), Expr::Var(Var::Each(each))) => Some((*keep, *each)),
        (Expr::Var(Var::Each(each)), Expr::Var(Var::Keep(keep))) => Some((*keep, *each)),
        _ => None,
    }
}

/// Returns the number in `len * number / weight`, if it fits in 32 bits.
#[inline(always)]
fn scale_of(value: &Expr) -> Option<u32>
    ensures { IfSome result (λ n. (variables : Name → ℕ) →
        value_of variables (formula_of value.now) ≡ value_of variables (service n)) }
{
    let Expr::Two(Op::Div, product, weight) = value else {
        return None;
    };
    let Expr::Two(Op::Mul, len, scale) = &**product else {
        return None;
    };
    match (&**len, &**scale, &**weight) {
        (Expr::Var(Var::Len), Expr::Number(scale), Expr::Var(Var::Weight)) => {
            u32::try_from(*scale).ok()
        }
        _ => None,
    }
}

/// If the assignment sets a child's or flow's variable to the rank plus `len * scale / weight`,
/// returns the variable's index and the scale.
#[inline(always)]
fn next_of(assign: &Assign) -> Option<(u32, u32)>
    ensures aim { IfSome result (λ v. assign.now.aim ≡ Aim.Each v.0) }
    ensures value { IfSome result (λ v. (variables : Name → ℕ) →
        value_of variables (formula_of assign.now.value) ≡ value_of variables (next v.1)) }
{
    let Aim::Each(each) = assign.aim else {
        return None;
    };
    let Expr::Two(Op::Add, rank, service) = &assign.value else {
        return None;
    };
    let Expr::Var(Var::Rank) = &**rank else {
        return None;
    };
    let scale = scale_of(service)?;
    Some((each, scale))
}

#[inline(always)]
fn fair_form(transaction: &Transaction, first: &Assign, second: &Assign) -> Form
    requires reads { IsShapedAssignment (program_of transaction.now) (assignment_of first.now) }
    requires writes { IsShapedAssignment (program_of transaction.now) (assignment_of second.now) }
    ensures { IsForm (program_of transaction.now)
        (assignment_of first.now ∷ assignment_of second.now ∷ []) result }
{
    let Some((keep, each)) = latest_of(first) else {
        return Form::Lines;
    };
    let Some((other, scale)) = next_of(second) else {
        return Form::Lines;
    };
    if each != other {
        return Form::Lines;
    }
    if keep as usize >= transaction.keeps.len() {
        return Form::Lines;
    }
    Form::Fair(Fair {
        keep,
        each,
        scale,
        span: transaction.eaches.as_slice()[each as usize],
    })
}

#[inline(always)]
fn form_of(transaction: &Transaction, assigns: &[Assign]) -> Form
    requires fits { AreShapedIn transaction.now assigns.now }
    ensures { IsForm (program_of transaction.now) (map assignment_of assigns.now) result }
{
    match assigns {
        [] => Form::Empty,
        [assign] => kept_form(transaction, assign),
        [first, second] => fair_form(transaction, first, second),
        _ => Form::Lines,
    }
}

/// Returns the form of a transaction's push step.
#[inline(always)]
pub fn push_form(transaction: &Transaction) -> Form
    requires shaped { IsShaped (program_of transaction.now) }
    ensures { IsForm (program_of transaction.now) (program_of transaction.now).push result }
{
    form_of(transaction, transaction.push.as_slice())
}

/// Returns the form of a transaction's pop step.
#[inline(always)]
pub fn pop_form(transaction: &Transaction) -> Form
    requires shaped { IsShaped (program_of transaction.now) }
    ensures { IsForm (program_of transaction.now) (program_of transaction.now).pop result }
{
    form_of(transaction, transaction.pop.as_slice())
}
