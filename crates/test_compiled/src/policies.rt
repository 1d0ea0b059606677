// Generated policies, and calls under them.
ghost use Rattle.std.specs.Prelude.{◌≤◌, length, IfOk};
ghost use Rattle.st_filter.specs.Policies.{filters_in};

use crate::calls::{argument, held_call};
use crate::filters::{filter_near, rule_near};
use crate::random::Random;
use st_base::{Sequence, Text};
use st_calls::{ArgText, Rule, Snapshot, args_of};
use st_filter::{BinaryPolicy, MOST_FILTERS, Policies, Policy, PolicySet};
use std::alloc::{AllocError, Global};

/// The binaries under whose policies calls are made. The last never has a policy.
pub const BINARIES: [&[u8]; 3] = [b"/bin/a", b"/bin/b", b"/bin/c"];

/// One of the binaries, seldom the one without a policy.
pub fn any_binary(random: &mut Random) -> &'static [u8] {
    match random.below(8) {
        0 => BINARIES[2],
        1..=3 => BINARIES[1],
        _ => BINARIES[0],
    }
}

// How many filters a policy has: mostly few, and sometimes so many that they are found by the texts that they ask for.
fn count(random: &mut Random) -> u32 {
    if random.is_one_in(4) {
        random.below(80)
    } else {
        random.below(12)
    }
}

// Adds a policy for a binary, most of whose filters are for one rule.
fn add_policy(
    random: &mut Random,
    alloc: Global,
    set: &mut PolicySet,
    binary: &[u8],
    rule: Rule,
) -> Result<(), AllocError> {
    if set.has(binary) {
        return Ok(());
    }
    set.begin(alloc, Text::of(alloc, binary)?)?;
    for _ in 0..count(random) {
        if set.filters() < MOST_FILTERS {
            set.add_filter(filter_near(random, alloc, rule)?)?;
        }
    }
    Ok(())
}

// Adds two policies, most of whose filters are for one rule.
fn add_policies(
    random: &mut Random,
    alloc: Global,
    set: &mut PolicySet,
    rule: Rule,
) -> Result<(), AllocError> {
    add_policy(random, alloc, set, BINARIES[0], rule)?;
    add_policy(random, alloc, set, BINARIES[1], rule)
}

// The most filters of a policy that a reload can put in force.
const MOST_IN_BLOCK: usize = 80;

// Filters, most of which are for one rule.
fn filters_near(random: &mut Random, alloc: Global, rule: Rule) -> Result<Policy, AllocError>
    ensures { IfOk result (λ filters. length filters ≤ MOST_IN_BLOCK) }
{
    let mut filters = Policy::new(alloc);
    for _ in 0..count(random) {
        if filters.len() < MOST_IN_BLOCK {
            filters.push(filter_near(random, alloc, rule)?)?;
        }
    }
    Ok(filters)
}

// A policy that a reload can put in force.
fn block_near(
    random: &mut Random,
    alloc: Global,
    binary: &[u8],
    rule: Rule,
) -> Result<BinaryPolicy, AllocError>
    ensures { IfOk result (λ block. length block.filters ≤ MOST_IN_BLOCK) }
{
    let filters = filters_near(random, alloc, rule)?;
    Ok(BinaryPolicy {
        binary: Text::of(alloc, binary)?,
        filters,
    })
}

/// How many policies reloads can put in force.
pub const BLOCKS: u32 = 2;

// The policies that reloads can put in force.
fn blocks_near(
    random: &mut Random,
    alloc: Global,
    rule: Rule,
) -> Result<Sequence<BinaryPolicy>, AllocError>
    ensures filters { IfOk result (λ blocks. filters_in blocks ≤ MOST_FILTERS) }
    ensures few { IfOk result (λ blocks. length blocks ≤ BLOCKS) }
{
    let mut blocks = Sequence::new(alloc);
    blocks.push(block_near(random, alloc, BINARIES[0], rule)?)?;
    let other = any_binary(random);
    blocks.push(block_near(random, alloc, other, rule)?)?;
    Ok(blocks)
}

/// Two policies that were read, and two that reloads can put in force. Most of their filters are for one rule.
pub fn policies_near(
    random: &mut Random,
    alloc: Global,
    rule: Rule,
) -> Result<Policies, AllocError> {
    let mut set = PolicySet::new(alloc);
    add_policies(random, alloc, &mut set, rule)?;
    let blocks = blocks_near(random, alloc, rule)?;
    Ok(Policies::new(alloc, set, blocks))
}

// The arguments of a call, of which some are missing.
fn arguments(
    random: &mut Random,
    alloc: Global,
    rule: Rule,
) -> Result<Sequence<ArgText>, AllocError> {
    let mut parts = Sequence::new(alloc);
    for spec in args_of(rule) {
        if !random.is_one_in(16) {
            parts.push(argument(alloc, spec, random.text())?)?;
        }
    }
    Ok(parts)
}

/// A call, mostly under this rule.
pub fn call_near(random: &mut Random, alloc: Global, rule: Rule) -> Result<Snapshot, AllocError> {
    let rule = rule_near(random, rule);
    let parts = arguments(random, alloc, rule)?;
    let binary = any_binary(random);
    let version = random.below(BLOCKS + 1);
    held_call(alloc, (binary, version), rule, random.below(3), parts)
}
