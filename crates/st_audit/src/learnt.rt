// Prints the policies with the session's filters as text.
ghost use Rattle.std.specs.Prelude.{◌≡◌, ◌+◌, ◌<◌, ◌++◌, ◌∷◌, [], length, map, IfOk, OnOk};
ghost use Rattle.st_learn.specs.Learnt.{filters_added, learnt_policies, learnt_policy};
ghost use Rattle.st_learn.specs.Sessions.{version_of};
ghost use Rattle.st_printing.specs.Canon.{canon};
ghost use Rattle.st_audit.specs.LearntText.{empty_policy, learnt_so_far, rows_text};

use st_base::Text;
use st_emulation::Emulation;
use st_filter::{Filter, Policies, Policy, PolicySet};
use st_learn::Session;
use st_printing::{print_filter, print_policies};
use std::alloc::{AllocError, Global};

// Appends the row of a policy's header. A policy without filters has no other row.
fn append_header(
    alloc: Global,
    binary: &[u8],
    out: &mut Text,
    emulation: Emulation,
) -> Result<(), AllocError>
    ensures { OnOk result (out.new ≡ out.old ++ canon (empty_policy binary.now ∷ []) emulation) }
{
    let mut set = PolicySet::new(alloc);
    set.begin(alloc, Text::of(alloc, binary)?)?;
    let header = print_policies(alloc, &set, emulation)?;
    out.append(header.bytes())
}

// Appends the row of a filter.
fn append_row(
    alloc: Global,
    filter: &Filter,
    out: &mut Text,
    emulation: Emulation,
) -> Result<(), AllocError>
    ensures { OnOk result (out.new ≡ out.old ++ rows_text (filter.now ∷ []) emulation) }
{
    print_filter(alloc, filter, out, emulation)?;
    out.push(b'\n')
}

// Appends the rows of the filters of a policy.
fn append_filters(
    alloc: Global,
    filters: &Policy,
    out: &mut Text,
    emulation: Emulation,
) -> Result<(), AllocError>
    ensures { OnOk result (out.new ≡ out.old ++ rows_text filters.now emulation) }
{
    for filter in filters.as_slice() {
        append_row(alloc, filter, out, emulation)?;
    }
    Ok(())
}

// Appends the rows of the session's filters of a policy.
fn append_added(
    alloc: Global,
    session: &Session<'_>,
    policy: &[u8],
    out: &mut Text,
    emulation: Emulation,
) -> Result<(), AllocError>
    ensures { OnOk result (out.new ≡ out.old ++ rows_text (filters_added session.now.filters policy.now) emulation) }
{
    for place in session.places_of(policy) {
        append_row(alloc, session.kept(*place).filter(), out, emulation)?;
    }
    Ok(())
}

// The policies of a run, and its session.
#[derive(Clone, Copy)]
struct Learnt<'a, 's> {
    policies: &'a Policies,
    session: &'a Session<'s>,
}

// Appends the policy of a binary: its filters in force, and then the session's.
fn append_policy(
    alloc: Global,
    learnt: &Learnt<'_, '_>,
    binary: &[u8],
    out: &mut Text,
    emulation: Emulation,
) -> Result<(), AllocError>
    ensures { OnOk result (out.new ≡ out.old ++ canon (learnt_policy learnt.now.policies.now (version_of learnt.now.session.now.reloads) learnt.now.session.now.filters binary.now ∷ []) emulation) }
{
    append_header(alloc, binary, out, emulation)?;
    let version = learnt.session.version(binary);
    let filters = learnt.policies.in_force(binary, version);
    append_filters(alloc, filters, out, emulation)?;
    append_added(alloc, learnt.session, binary, out, emulation)
}

// Appends the policies that were read, each as it is now.
fn append_policies(
    alloc: Global,
    learnt: &Learnt<'_, '_>,
    out: &mut Text,
    emulation: Emulation,
) -> Result<(), AllocError>
    ensures { OnOk result (out.new ≡ out.old ++ canon (map (learnt_policy learnt.now.policies.now (version_of learnt.now.session.now.reloads) learnt.now.session.now.filters) (map (λ p. p.binary) learnt.now.policies.now.read)) emulation) }
{
    let read = learnt.policies.read();
    for i in 0..read.len() {
        append_policy(alloc, learnt, read.binary(i), out, emulation)?;
    }
    Ok(())
}

// Appends one of the policies that were changed, unless it was read.
fn append_other(
    alloc: Global,
    learnt: &Learnt<'_, '_>,
    row: usize,
    out: &mut Text,
    emulation: Emulation,
) -> Result<(), AllocError>
    requires { row < length learnt.now.session.now.changed }
    ensures { OnOk result (out.old ≡ learnt_so_far learnt.now.policies.now (version_of learnt.now.session.now.reloads) learnt.now.session.now.changed learnt.now.session.now.filters row emulation → out.new ≡ learnt_so_far learnt.now.policies.now (version_of learnt.now.session.now.reloads) learnt.now.session.now.changed learnt.now.session.now.filters (row + 1) emulation) }
{
    let binary = learnt.session.changed(row);
    if learnt.policies.read().has(binary) {
        return Ok(());
    }
    append_policy(alloc, learnt, binary, out, emulation)
}

/// The canonical text of all policies, with the filters in force and then the session's. The policies that were read come first, in order.
/// The other policies that were changed follow, in the order in which they got their first filter of the session or their first reload.
pub fn print_learnt(
    alloc: Global,
    policies: &Policies,
    session: &Session<'_>,
    emulation: Emulation,
) -> Result<Text, AllocError>
    ensures { IfOk result (λ text. text ≡ canon (learnt_policies policies.now (version_of session.now.reloads) session.now.changed session.now.filters) emulation) }
{
    let learnt = Learnt { policies, session };
    let mut out = Text::new(alloc);
    append_policies(alloc, &learnt, &mut out, emulation)?;
    for row in 0..session.changed_count() {
        append_other(alloc, &learnt, row, &mut out, emulation)?;
    }
    Ok(out)
}
