//! The variables of a node, and its steps.

ghost use Rattle.std.specs.Prelude.{◌≡◌, ◌≢◌, ◌<◌, ◌≤◌, ◌↔◌, ℕ, length, slice_get, [], IsSome, Some, None, IfSome, IfOk, OnOk, OnErr};
ghost use Rattle.rank_defs.specs.States.{SameState, Memory, memory_for, first_state, firsts, put_back};
ghost use Rattle.rank_defs.specs.Steps.{run as run_program, push_rank, after_push, after_pop};
ghost use Rattle.rank_defs.specs.Shapes.{IsEnvInRange, IsStateInRange, IsShaped};
ghost use Rattle.rank_defs.specs.Programs.{Program, program_of, span_at, max_rank};
ghost use Rattle.rank_core.specs.Flows.{numbers_at};
ghost use Rattle.rank_core.specs.Node.{kept, kept_or, children, state_of, children_of, BelongsTo, HasRoom, HasState, step_of};
ghost use Rattle.rank_core.specs.Forms.{fair_lines, IsForm};
ghost use Rattle.rank_core.specs.Runs.{CanRun};
ghost use Rattle.rank_core.specs.NodeSteps.{CanRunAt, KeepsNode};
ghost use Rattle.rank_core.specs.Scope.{memory, run_of};

use crate::flows::FlowTable;
use crate::form::{Fair, Form, pop_form, push_form};
use crate::step::run;
use list_core::List;
use rank_defs::{Aim, Assign, Env, Expr, FlowKey, MAX_RANK, Span, Transaction, Var, Who};
use std::alloc::{AllocError, Global};

/// The values of the `each` variables: for all children of an inner node, or for the flows that
/// have room at a leaf.
#[derive(Drop)]
enum Eaches {
    Children(Vec<Vec<u64>>),
    Flows(FlowTable),
    /// A leaf whose flows have no variables. Every flow has room, and no flow is looked up.
    Bare,
}

/// The variables of a node: its own, and those of each child or flow.
#[derive(Drop)]
pub struct NodeState {
    firsts: Vec<u64>,
    keeps: Vec<u64>,
    eaches: Eaches,
}

fn first_values(alloc: Global, spans: &[Span]) -> Result<Vec<u64>, AllocError>
    ensures { IfOk result (λ v. v.items ≡ firsts spans.now) }
{
    let mut values = Vec::with_capacity(alloc, spans.len())?;
    for span in spans {
        values.push(span.first)?;
    }
    Ok(values)
}

/// Returns the first values for `count` children.
fn of_children(alloc: Global, first: &[u64], count: u32) -> Result<Eaches, AllocError>
    ensures children { IfOk result (λ e. children e ≡ Some count) }
    ensures room { IfOk result (λ e. (i : ℕ) → i < count → IsSome (kept e (Who.Child i))) }
    ensures firsts { IfOk result (λ e. (who : Who) → kept_or first.now (kept e who) ≡ first.now) }
{
    let mut values = Vec::with_capacity(alloc, count as usize)?;
    for _ in 0..count {
        values.push(Vec::from_slice(alloc, first)?)?;
    }
    Ok(Eaches::Children(values))
}

/// Returns an empty flow table, or `Bare` if flows have no variables.
fn of_flows(alloc: Global, first: &[u64]) -> Eaches
    ensures children { children result ≡ None }
    ensures firsts { (who : Who) → kept_or first.now (kept result who) ≡ first.now }
{
    if first.is_empty() {
        Eaches::Bare
    } else {
        Eaches::Flows(FlowTable::new(alloc))
    }
}

impl NodeState {
    /// Returns the initial variables of an inner node, with room for each of its children. The
    /// error means out of memory.
    pub fn inner(
        alloc: Global,
        transaction: &Transaction,
        children: u32,
    ) -> Result<NodeState, AllocError>
        requires { IsShaped (program_of transaction.now) }
        ensures first { IfOk result (λ n. HasState n (first_state (program_of transaction.now))) }
        ensures in_range { IfOk result (λ n. IsStateInRange (program_of transaction.now)
            (state_of n)) }
        ensures children { IfOk result (λ n. children_of n ≡ Some children) }
        ensures room { IfOk result (λ n. (i : ℕ) → i < children → HasRoom n (Who.Child i)) }
    {
        let firsts = first_values(alloc, transaction.eaches.as_slice())?;
        let keeps = first_values(alloc, transaction.keeps.as_slice())?;
        let eaches = of_children(alloc, firsts.as_slice(), children)?;
        Ok(NodeState {
            firsts,
            keeps,
            eaches,
        })
    }

    /// Returns the initial variables of a leaf. The error means out of memory.
    pub fn leaf(alloc: Global, transaction: &Transaction) -> Result<NodeState, AllocError>
        requires { IsShaped (program_of transaction.now) }
        ensures first { IfOk result (λ n. HasState n (first_state (program_of transaction.now))) }
        ensures in_range { IfOk result (λ n. IsStateInRange (program_of transaction.now)
            (state_of n)) }
        ensures leaf { IfOk result (λ n. children_of n ≡ None) }
    {
        let firsts = first_values(alloc, transaction.eaches.as_slice())?;
        let keeps = first_values(alloc, transaction.keeps.as_slice())?;
        let eaches = of_flows(alloc, firsts.as_slice());
        Ok(NodeState {
            firsts,
            keeps,
            eaches,
        })
    }

    /// Makes room for a flow at a leaf. After that, its steps allocate no memory. At a leaf whose
    /// flows have no variables, the flow isn't read. The error means out of memory.
    #[inline(always)]
    pub fn reserve(&mut self, flow: &FlowKey) -> Result<(), AllocError>
        requires belongs { BelongsTo (children_of self.old) (Who.Flow flow.now) }
        ensures room { OnOk result (HasRoom self.new (Who.Flow flow.now)) }
        ensures same { SameState (state_of self.new) (state_of self.old) }
        ensures kept { (other : Who) → HasRoom self.old other → HasRoom self.new other }
        ensures others { (other : Who) → other ≢ Who.Flow flow.now → HasRoom self.new other →
            HasRoom self.old other }
        ensures err { OnErr result ((other : Who) → HasRoom self.new other →
            HasRoom self.old other) }
        ensures children { children_of self.new ≡ children_of self.old }
    {
        match &mut self.eaches {
            Eaches::Bare => Ok(()),
            Eaches::Flows(flows) => match flows.place(flow) {
                Some(_) => Ok(()),
                None => flows.add(flow, self.firsts.as_slice()),
            },
            Eaches::Children(_) => unreachable!(),
        }
    }
}

/// Runs a push step of start-time fair queueing, and returns the rank.
#[inline(always)]
fn run_fair(fair: &Fair, env: &Env, keeps: &[u64], eaches: &mut [u64]) -> u64
    requires keep { fair.now.keep < length keeps.now }
    requires each { fair.now.each < length eaches.old }
    requires weight { 1 ≤ env.now.weight }
    requires ends { fair.now.span.low ≤ fair.now.span.high }
    requires most { fair.now.span.high ≤ max_rank }
    ensures { (p : Program) (r : ℕ) → fair.now.span ≡ span_at p.eaches fair.now.each →
        memory result keeps.now eaches.new ≡ run_program p env.entry.now (fair_lines fair.now) (memory r keeps.now eaches.old) }
{
    let each = fair.each as usize;
    let rank = keeps[fair.keep as usize].max(eaches[each]).min(MAX_RANK);
    let scaled = u64::from(env.len) * u64::from(fair.scale);
    // Most weights are 1, and a division takes longer than the comparison.
    let service = if env.weight == 1 {
        scaled
    } else {
        scaled / u64::from(env.weight)
    };
    eaches[each] = rank
        .saturating_add(service)
        .clamp(fair.span.low, fair.span.high);
    rank
}

/// Runs the assignments of a step on the variables of a node and on those at an index, using the
/// form of the step.
#[inline(always)]
#[tactic(auto, using(crate::proofs::Lists::get_set_same, crate::proofs::Lists::get_set_other))]
fn run_for_place(
    values: &mut Vec<Vec<u64>>,
    place: usize,
    form: &Form,
    transaction: &Transaction,
    assigns: &List<Assign>,
    env: &Env,
    rank: u64,
    keeps: &mut [u64],
) -> u64
    requires can { CanRun transaction.now assigns.now form.now env.now
        (memory rank keeps.old (kept_or [] (numbers_at values.old.items (Some place)))) }
    requires there { place < length values.old.items }
    ensures ran { memory result keeps.new (kept_or [] (numbers_at values.new.items (Some place))) ≡
        run_of transaction.now env.entry.now assigns.now (memory rank keeps.old (kept_or [] (numbers_at values.old.items (Some place)))) }
    ensures others { (i : ℕ) → i ≢ place → slice_get values.new.items i ≡
        slice_get values.old.items i }
    ensures count { length values.new.items ≡ length values.old.items }
{
    let eaches = values[place].as_mut_slice();
    match form {
        Form::Fair(fair) => run_fair(fair, env, keeps, eaches),
        _ => run(transaction, assigns, env, rank, keeps, eaches),
    }
}

/// Runs the assignments of a step on the variables of a node and on those of one child or flow,
/// using the form of the step.
#[inline(always)]
fn run_for(
    state: &mut NodeState,
    who: &Who,
    form: &Form,
    transaction: &Transaction,
    assigns: &List<Assign>,
    env: &Env,
    rank: u64,
) -> u64
    requires can { CanRun transaction.now assigns.now form.now env.now
        (memory_for who.now rank (state_of state.old)) }
    requires room { HasRoom state.old who.now }
    ensures rank { result ≡ (step_of transaction.now assigns.now who.now env.entry.now rank
        state.old).rank }
    ensures after { HasState state.new
        (put_back who.now (step_of transaction.now assigns.now who.now env.entry.now rank state.old) (state_of state.old)) }
    ensures room { (w : Who) → HasRoom state.new w ↔ HasRoom state.old w }
    ensures children { children_of state.new ≡ children_of state.old }
{
    let keeps = state.keeps.as_mut_slice();
    match &mut state.eaches {
        Eaches::Children(values) => match who {
            Who::Child(child) => {
                let place = *child as usize;
                run_for_place(values, place, form, transaction, assigns, env, rank, keeps)
            }
            Who::Flow(_) => unreachable!(),
        },
        Eaches::Flows(flows) => match who {
            Who::Flow(flow) => match flows.place(flow) {
                Some(place) => {
                    let values = &mut flows.numbers;
                    run_for_place(values, place, form, transaction, assigns, env, rank, keeps)
                }
                None => unreachable!(),
            },
            Who::Child(_) => unreachable!(),
        },
        Eaches::Bare => match form {
            // Such a step has a variable for each flow. That no call takes `env` here keeps it out
            // of memory.
            Form::Fair(_) => unreachable!(),
            _ => run(transaction, assigns, env, rank, keeps, &mut []),
        },
    }
}

/// Returns the rank, if the step only sets the rank to a variable of the environment.
fn told_rank(assigns: &[Assign], env: &Env) -> Option<u64>
    requires told { IsEnvInRange env.now }
    ensures rank { IfSome result (λ r. (t : Transaction) (m : Memory) →
        run_of t env.entry.now assigns.now m ≡ record m { rank = r }) }
{
    let [assign] = assigns else {
        return None;
    };
    let (Aim::Rank, Expr::Var(var)) = (assign.aim, &assign.value) else {
        return None;
    };
    match var {
        Var::Len => Some(u64::from(env.len)),
        Var::Now => Some(env.now),
        Var::Prio => Some(u64::from(env.prio)),
        Var::Weight => Some(u64::from(env.weight)),
        Var::Slack => Some(env.slack),
        _ => None,
    }
}

/// Runs a step of any form. One that only sets the rank to a variable of the environment changes
/// no variable.
#[inline(never)]
fn run_lines(
    state: &mut NodeState,
    who: &Who,
    form: &Form,
    transaction: &Transaction,
    assigns: &List<Assign>,
    env: &Env,
    rank: u64,
) -> u64
    requires can { CanRun transaction.now assigns.now form.now env.now
        (memory_for who.now rank (state_of state.old)) }
    requires room { HasRoom state.old who.now }
    ensures rank { result ≡ (step_of transaction.now assigns.now who.now env.entry.now rank
        state.old).rank }
    ensures after { HasState state.new
        (put_back who.now (step_of transaction.now assigns.now who.now env.entry.now rank state.old) (state_of state.old)) }
    ensures room { (w : Who) → HasRoom state.new w ↔ HasRoom state.old w }
    ensures children { children_of state.new ≡ children_of state.old }
{
    match told_rank(assigns.as_slice(), env) {
        Some(told) => told,
        None => run_for(state, who, form, transaction, assigns, env, rank),
    }
}

/// Runs the push step of a node for a packet of a child or a flow. Returns the packet's rank at the
/// node.
pub fn run_push(transaction: &Transaction, state: &mut NodeState, who: &Who, env: &Env) -> u64
    requires can { CanRunAt transaction.now who.now env.now state.old }
    ensures rank { result ≡ push_rank (program_of transaction.now) who.now env.entry.now
        (state_of state.old) }
    ensures rank_limit { result ≤ max_rank }
    ensures after { HasState state.new (after_push (program_of transaction.now) who.now
        env.entry.now (state_of state.old)) }
    ensures keeps { KeepsNode transaction.now state.old state.new }
{
    push_by_form(&push_form(transaction), transaction, state, who, env)
}

/// Runs the push step of a node like `run_push`, using the form of the step.
#[inline(always)]
pub fn push_by_form(
    form: &Form,
    transaction: &Transaction,
    state: &mut NodeState,
    who: &Who,
    env: &Env,
) -> u64
    requires form { IsForm (program_of transaction.now) (program_of transaction.now).push form.now }
    requires can { CanRunAt transaction.now who.now env.now state.old }
    ensures rank { result ≡ push_rank (program_of transaction.now) who.now env.entry.now
        (state_of state.old) }
    ensures rank_limit { result ≤ max_rank }
    ensures after { HasState state.new (after_push (program_of transaction.now) who.now
        env.entry.now (state_of state.old)) }
    ensures keeps { KeepsNode transaction.now state.old state.new }
{
    let assigns = &transaction.push;
    match form {
        Form::Fair(_) => run_for(state, who, form, transaction, assigns, env, 0),
        _ => run_lines(state, who, form, transaction, assigns, env, 0),
    }
}

/// Runs the pop step of a node, after a packet of a child or a flow was dequeued with this rank at
/// the node.
pub fn run_pop(transaction: &Transaction, state: &mut NodeState, who: &Who, rank: u64, env: &Env)
    requires can { CanRunAt transaction.now who.now env.now state.old }
    requires rank { rank ≤ max_rank }
    ensures after { HasState state.new (after_pop (program_of transaction.now) who.now env.entry.now
        rank (state_of state.old)) }
    ensures keeps { KeepsNode transaction.now state.old state.new }
{
    pop_by_form(&pop_form(transaction), transaction, state, who, rank, env);
}

/// Runs the pop step of a node like `run_pop`, using the form of the step. A step without
/// assignments changes nothing, and one that stores the rank in a variable of the node looks up no
/// child or flow.
#[inline(always)]
pub fn pop_by_form(
    form: &Form,
    transaction: &Transaction,
    state: &mut NodeState,
    who: &Who,
    rank: u64,
    env: &Env,
)
    requires form { IsForm (program_of transaction.now) (program_of transaction.now).pop form.now }
    requires can { CanRunAt transaction.now who.now env.now state.old }
    requires rank { rank ≤ max_rank }
    ensures after { HasState state.new (after_pop (program_of transaction.now) who.now env.entry.now
        rank (state_of state.old)) }
    ensures keeps { KeepsNode transaction.now state.old state.new }
{
    match form {
        Form::Empty => (),
        Form::Kept(kept) => {
            state.keeps[kept.keep as usize] = rank.clamp(kept.span.low, kept.span.high);
        }
        _ => {
            run_lines(state, who, form, transaction, &transaction.pop, env, rank);
        }
    }
}
