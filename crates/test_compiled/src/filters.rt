// Generated filters.
use crate::random::Random;
use st_base::Text;
use st_calls::{Rule, args_of};
use st_filter::{Action, Cmp, Expr, Filter, FilterName, Grant, Op, Predicate, Who};
use std::alloc::{AllocError, Global};

const OPERATORS: [Op; 6] = [Op::Match, Op::Eq, Op::Neq, Op::Sub, Op::Nsub, Op::Inpath];

const COMPARISONS: [Cmp; 4] = [Cmp::Same, Cmp::Other, Cmp::Below, Cmp::Above];

// A label that calls without such an argument don't have, or that no call has.
fn other_label(random: &mut Random) -> &'static [u8] {
    if random.is_one_in(2) {
        b"filename"
    } else {
        b"prot"
    }
}

// The label and the index of a test: mostly those of an argument of the rule.
fn tested_argument(random: &mut Random, rule: Rule) -> (&'static [u8], u32) {
    match args_of(rule).get(random.below(3) as usize) {
        Some(spec) => (spec.label.word(), spec.index),
        None => (other_label(random), 0),
    }
}

// An operator. Half of all are `eq`, so that filters are found by the texts that they ask for.
fn operator(random: &mut Random) -> Op {
    if random.is_one_in(2) {
        Op::Eq
    } else {
        OPERATORS[random.below(6) as usize]
    }
}

fn test(random: &mut Random, alloc: Global, rule: Rule) -> Result<Expr, AllocError> {
    let (label, index) = tested_argument(random, rule);
    let op = operator(random);
    Ok(Expr::Test {
        label: Text::of(alloc, label)?,
        index,
        op,
        text: Text::of(alloc, random.tested_text())?,
    })
}

// A test, or what is true of every call.
fn simple(random: &mut Random, alloc: Global, rule: Rule) -> Result<Expr, AllocError> {
    if random.is_one_in(8) {
        Ok(Expr::True)
    } else {
        test(random, alloc, rule)
    }
}

// An expression with at most so many operators above each other.
fn expression(
    random: &mut Random,
    alloc: Global,
    rule: Rule,
    depth: u32,
) -> Result<Expr, AllocError> {
    if depth == 0 {
        return simple(random, alloc, rule);
    }
    Ok(match random.below(8) {
        0 | 1 => Expr::Not(Box::new(alloc, expression(random, alloc, rule, depth - 1)?)?),
        2 | 3 => Expr::And(
            Box::new(alloc, expression(random, alloc, rule, depth - 1)?)?,
            Box::new(alloc, expression(random, alloc, rule, depth - 1)?)?,
        ),
        4 => Expr::Or(
            Box::new(alloc, expression(random, alloc, rule, depth - 1)?)?,
            Box::new(alloc, expression(random, alloc, rule, depth - 1)?)?,
        ),
        _ => simple(random, alloc, rule)?,
    })
}

fn action(random: &mut Random) -> Action {
    match random.below(8) {
        0 => Action::Ask,
        1..=3 => Action::Deny(random.errno()),
        _ => Action::Permit,
    }
}

// One of three ids, or none.
fn granted_id(random: &mut Random) -> Option<u32> {
    match random.below(4) {
        3 => None,
        id => Some(id),
    }
}

fn grant(random: &mut Random) -> Option<Grant> {
    if random.is_one_in(2) {
        return None;
    }
    let user = granted_id(random);
    let group = granted_id(random);
    Some(Grant { user, group })
}

fn predicate(random: &mut Random) -> Option<Predicate> {
    let who = match random.below(8) {
        0 => Who::User,
        1 => Who::Group,
        _ => return None,
    };
    let cmp = COMPARISONS[random.below(4) as usize];
    let id = random.below(3);
    Some(Predicate { who, cmp, id })
}

/// A filter for a rule.
pub fn filter_for(random: &mut Random, alloc: Global, rule: Rule) -> Result<Filter, AllocError> {
    let depth = random.below(4);
    let expr = expression(random, alloc, rule, depth)?;
    let action = action(random);
    let grant = grant(random);
    let log = random.is_one_in(4);
    let predicate = predicate(random);
    let name = FilterName::Rule(rule);
    Ok(Filter::new(name, expr, action, grant, log, predicate))
}

/// This rule, or sometimes another.
pub fn rule_near(random: &mut Random, rule: Rule) -> Rule {
    if random.is_one_in(4) {
        random.rule()
    } else {
        rule
    }
}

/// A filter of a policy most of whose filters are for one rule. Some are for a call outside the model.
pub fn filter_near(random: &mut Random, alloc: Global, rule: Rule) -> Result<Filter, AllocError> {
    if random.is_one_in(16) {
        let name = FilterName::Other(Text::of(alloc, b"mmap")?);
        return Ok(Filter::new(name, Expr::True, Action::Permit, None, false, None));
    }
    let rule = rule_near(random, rule);
    filter_for(random, alloc, rule)
}
